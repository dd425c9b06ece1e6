//! The words of a line.

ghost use Rattle.std.specs.Prelude.{◌≡◌, ◌↔◌, ◌++◌, ◌<◌, ◌≤◌, true, All, List, ℕ, length, take, drop, slice_index, map, IfOk, IfSome, IfNone};
ghost use Rattle.gtp_words.specs.Words.{AreBlanks, AreWords, HasId, IsFirstWord, cleaned, kept};

use board_words::is_numeral;
use std::alloc::{AllocError, Global};

/// What is kept of a byte: a blank for a tab, and nothing of another control byte.
fn keep(byte: u8, text: &mut Vec<u8>) -> Result<(), AllocError>
    ensures { IfOk result (λ _. text.new.items ≡ text.old.items ++ kept byte) }
{
    if byte == b'\t' {
        return Ok(text.push(b' ')?);
    }
    if byte < 32 || byte == 127 {
        return Ok(());
    }
    Ok(text.push(byte)?)
}

/// What counts of a line.
#[tactic(auto, using(crate::proofs::CleanLineLemmas::cleaned_more, crate::proofs::CleanLineLemmas::cleaned_comment, crate::proofs::CleanLineLemmas::cleaned_all))]
pub fn clean(alloc: Global, line: &[u8]) -> Result<Vec<u8>, AllocError>
    ensures { IfOk result (λ text. text.items ≡ cleaned line.now) }
{
    let mut text = Vec::new(alloc);
    'cleaning: for at in 0..line.len() {
        if line[at] == b'#' {
            return Ok(text);
        }
        keep(line[at], &mut text)?;
    }
    Ok(text)
}

/// Whether a byte is a blank.
fn is_blank(byte: u8) -> bool
    ensures { (result ≡ true) ↔ (byte ≡ 32) }
{
    byte == b' '
}

/// How many blanks a text begins with.
#[tactic(auto, using(crate::proofs::WordLemmas::one_blank, std::proofs::lemmas::List::take_all))]
fn blanks_before(text: &[u8]) -> usize
    ensures within { result ≤ length text.now }
    ensures blanks { AreBlanks (take result text.now) }
    ensures next { result < length text.now → ¬ (slice_index text.now result ≡ 32) }
{
    'blanks: for at in 0..text.len() {
        if !is_blank(text[at]) {
            return at;
        }
    }
    text.len()
}

/// How many bytes a text has before its first blank.
#[tactic(auto, using(crate::proofs::WordLemmas::one_letter, std::proofs::lemmas::List::take_all))]
fn word_length(text: &[u8]) -> usize
    ensures within { result ≤ length text.now }
    ensures word { All (λ b. ¬ (b ≡ 32)) (take result text.now) }
    ensures next { result < length text.now → slice_index text.now result ≡ 32 }
{
    'letters: for at in 0..text.len() {
        if is_blank(text[at]) {
            return at;
        }
    }
    text.len()
}

/// The first word of a text, and what comes after it.
#[derive(Clone, Copy)]
struct Parted<'a> {
    word: &'a [u8],
    rest: &'a [u8],
}

/// Takes the first word off a text, where there is one.
fn part(text: &[u8]) -> Option<Parted<'_>>
    ensures some { IfSome result (λ p. IsFirstWord text.now p.word.now p.rest.now) }
    ensures none { IfNone result (AreBlanks text.now) }
    ensures shorter { IfSome result (λ p. length p.rest.now < length text.now) }
{
    let begun = &text[blanks_before(text)..];
    let len = word_length(begun);
    if len == 0 {
        return None;
    }
    Some(Parted {
        word: &begun[..len],
        rest: &begun[len..],
    })
}

/// The words of a text.
#[tactic(auto, using(crate::proofs::WordLemmas::split_all))]
pub fn split<'a>(alloc: Global, text: &'a [u8]) -> Result<Vec<&'a [u8]>, AllocError>
    ensures { IfOk result (λ words. AreWords text.now (map (λ w. w.now) words.items)) }
{
    let mut words = Vec::new(alloc);
    let mut left = text;
    'splitting: while let Some(parted) = part(left) {
        words.push(parted.word)?;
        left = parted.rest;
    }
    Ok(words)
}

/// The words behind the id, and the id, which is empty where there is none.
#[derive(Clone, Copy)]
pub struct Headed<'a, 'b> {
    pub id: &'a [u8],
    pub rest: &'b [&'a [u8]],
}

/// Takes the id off the words.
pub fn take_id<'a, 'b>(words: &'b [&'a [u8]]) -> Headed<'a, 'b>
    ensures { HasId (map (λ w. w.now) words.now) result.id.now (map (λ w. w.now) result.rest.now) }
{
    if let [first, rest @ ..] = words {
        if is_numeral(first) {
            return Headed { id: first, rest };
        }
    }
    Headed {
        id: b"",
        rest: words,
    }
}
