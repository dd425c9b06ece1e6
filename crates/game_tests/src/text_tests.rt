//! Worked texts.

use crate::asserts::none_wrong;
use dyadic_num::Dyadic;
use game_canon::FormError;
use game_store::{GameId, Store};
use game_text::{ReadError, WriteError, read, write};
use std::alloc::{AllocError, Global};
use worked_forms::form;

/// Whether a game is written so, or is too long where nothing is wanted.
fn is_shown(alloc: Global, store: &Store, id: GameId, limit: usize, want: &[u8]) -> bool {
    if id >= store.len() {
        return false;
    }
    match write(alloc, store, id, limit) {
        Ok(found) => found.as_slice() == want,
        Err(cause) => cause == WriteError::Long && want.is_empty(),
    }
}

/// Whether the form that a text names is written so, or is too long where nothing is wanted.
fn is_written(alloc: Global, store: &mut Store, text: &[u8], limit: usize, want: &[u8]) -> bool {
    match read(alloc, store, text, 500) {
        Ok(id) => is_shown(alloc, store, id, limit, want),
        Err(_error) => false,
    }
}

/// Texts of forms and what is written of them; among them games that the field names (Siegel, Combinatorial Game Theory),
/// and corridors of one to five points.
static TEXTS: [(&[u8], &[u8]); 39] = [
    (b"0", b"0"),
    (b"-3", b"-3"),
    (b"-1/2", b"-1/2"),
    (b"1152921504606846975", b"1152921504606846975"),
    (b"3/1152921504606846976", b"3/1152921504606846976"),
    (b"{|}", b"0"),
    (b"{0|1}", b"1/2"),
    (b"{1,2|}", b"3"),
    (b"{|-1,0}", b"-2"),
    (b"{{0|0}|{0|0}}", b"0"),
    (b"{1,{0|0},1|{0|0}}", b"{1|*}"),
    (b"{0,{0|0}|{0|0},0}", b"*2"),
    (b"{1|-1}", b"+-1"),
    (b"{1/2|-1/2}", b"+-1/2"),
    (b"{-1|1}", b"0"),
    (b"{1|0}", b"{1|0}"),
    (b"{0|-1}", b"{0|-1}"),
    (b"{3|1/2,-1/2,7}", b"{3|-1/2}"),
    (b"{{3|-1},{2|0}|-5}", b"{{2|0},{3|-1}|-5}"),
    (b"{{3|-1},{10|-20}|-50}", b"{{10|-20},{3|-1}|-50}"),
    (b"{{0|1}|{1|{{3|5}|}}}", b"1"),
    // the nimbers of 1 to 4
    (b"{0|0}", b"*"),
    (b"{0,{0|0}|0,{0|0}}", b"*2"),
    (
        b"{0,{0,{0|0}|0,{0|0}},{0|0}|0,{0,{0|0}|0,{0|0}},{0|0}}",
        b"*3",
    ),
    (
        b"{0,{0,{0,{0|0}|0,{0|0}},{0|0}|0,{0,{0|0}|0,{0|0}},{0|0}},{0,{0|0}|0,{0|0}},{0|0}|0,{0,{0,{0|0}|0,{0|0}},{0|0}|0,{0,{0|0}|0,{0|0}},{0|0}},{0,{0|0}|0,{0|0}},{0|0}}",
        b"*4",
    ),
    // up, down, up star, double up and double up star
    (b"{0|{0|0}}", b"^"),
    (b"{{0|0}|0}", b"v"),
    (b"{0,{0|0}|0}", b"{*,0|0}"),
    (b"{0|{0,{0|0}|0}}", b"{0|{*,0|0}}"),
    (b"{0|{0|{0|0}}}", b"{0|^}"),
    // tiny and miny one, and switches
    (b"{0|{0|-1}}", b"{0|{0|-1}}"),
    (b"{{1|0}|0}", b"{{1|0}|0}"),
    (b"{2|-2}", b"+-2"),
    (b"{3|1}", b"{3|1}"),
    // corridors
    (b"{1|{0|0}}", b"{1|*}"),
    (b"{2|{1|{0|0}}}", b"{2|{1|*}}"),
    (b"{3|{2|{1|{0|0}}}}", b"{3|{2|{1|*}}}"),
    (b"{4|{3|{2|{1|{0|0}}}}}", b"{4|{3|{2|{1|*}}}}"),
    (b"{{{{{0|0}|-1}|-2}|-3}|-4}", b"{{{{*|-1}|-2}|-3}|-4}"),
];

/// The first of the texts of which something else is written.
fn wrong_text(alloc: Global) -> Option<usize> {
    for (at, row) in TEXTS.iter().enumerate() {
        if !is_written(alloc, &mut Store::new(alloc), row.0, 100, row.1) {
            return Some(at);
        }
    }
    None
}

#[test]
fn texts(rt: HostRuntime) {
    none_wrong(&rt, wrong_text(rt.alloc()));
}

/// The text of a game in braces, and with names.
static BOTH_EDITIONS: [(&[u8], &[u8]); 12] = [
    (b"{0|{0|0}}", b"^"),
    (b"{{0|0}|0}", b"v"),
    (b"{0|0}", b"*"),
    (b"{0,{0|0}|0,{0|0}}", b"*2"),
    (b"{*,*2,0|0,*2,*}", b"*3"),
    (b"{2|-2}", b"+-2"),
    (b"{1/2|-1/2}", b"+-1/2"),
    (b"{1|{0|0}}", b"{1|*}"),
    (b"{{{0|0}|-1}|-2}", b"{{*|-1}|-2}"),
    (b"{0,{0|0}|0}", b"{*,0|0}"),
    (b"{*|*}", b"0"),
    (b"{^|v}", b"*"),
];

/// Whether two texts are read as one id.
fn are_one(alloc: Global, store: &mut Store, text: &[u8], named: &[u8]) -> bool {
    match read(alloc, store, text, 500) {
        Ok(id) => read(alloc, store, named, 500) == Ok(id),
        Err(_error) => false,
    }
}

/// The first of the games whose texts aren't read as one id.
fn wrong_edition(alloc: Global) -> Option<usize> {
    for (at, row) in BOTH_EDITIONS.iter().enumerate() {
        if !are_one(alloc, &mut Store::new(alloc), row.0, row.1) {
            return Some(at);
        }
    }
    None
}

/// Both texts of a game are read as one id, and names beside other games.
#[test]
fn both_editions(rt: HostRuntime) {
    none_wrong(&rt, wrong_edition(rt.alloc()));
}

/// A text, the most bytes of what is written of it, and that text, or none where it is longer.
static LENGTHS: [(&[u8], usize, &[u8]); 12] = [
    (b"{0|0}", 0, b""),
    (b"{0|0}", 1, b"*"),
    (b"{1|{0|0}}", 4, b""),
    (b"{1|{0|0}}", 5, b"{1|*}"),
    (b"{0,{0|0}|0,{0|0}}", 1, b""),
    (b"{0,{0|0}|0,{0|0}}", 2, b"*2"),
    (b"{1234|-1234}", 5, b""),
    (b"{1234|-1234}", 6, b"+-1234"),
    (b"-1/2", 3, b""),
    (b"-1/2", 4, b"-1/2"),
    (b"{{0|0}|0}", 9, b"v"),
    (b"{0,{0|0}|0}", 9, b"{*,0|0}"),
];

/// The first of the texts that isn't written to its length.
fn wrong_length(alloc: Global) -> Option<usize> {
    for (at, row) in LENGTHS.iter().enumerate() {
        if !is_written(alloc, &mut Store::new(alloc), row.0, row.1, row.2) {
            return Some(at);
        }
    }
    None
}

#[test]
fn lengths(rt: HostRuntime) {
    none_wrong(&rt, wrong_length(rt.alloc()));
}

/// A text, the most parts of a form, and why it is refused.
static REFUSALS: [(&[u8], u32, ReadError); 48] = [
    (b"*1", 500, ReadError::BadNumber(1)),
    (b"*0", 500, ReadError::BadNumber(1)),
    (b"*02", 500, ReadError::BadNumber(1)),
    (b"*4294967296", 500, ReadError::BadNumber(1)),
    (b"*4294967295", 4_000, ReadError::Parts),
    (b"*3", 2, ReadError::Parts),
    (b"*", 0, ReadError::Parts),
    (b"^", 1, ReadError::Parts),
    (b"v", 1, ReadError::Parts),
    (b"+-1", 0, ReadError::Parts),
    (b"+1", 500, ReadError::BadNumber(1)),
    (b"+-0", 500, ReadError::BadNumber(1)),
    (b"+-2/4", 500, ReadError::BadNumber(1)),
    (b"+", 500, ReadError::CutShort),
    (b"+*", 500, ReadError::BadByte(1)),
    (b"+{0|0}", 500, ReadError::BadByte(1)),
    (b"**", 500, ReadError::BadByte(1)),
    (b"*-1", 500, ReadError::BadByte(1)),
    (b"*2/3", 500, ReadError::BadByte(2)),
    (b"^^", 500, ReadError::BadByte(1)),
    (b"{*,|0}", 500, ReadError::BadByte(3)),
    (b"{*", 500, ReadError::CutShort),
    (b"{1|*}", 1, ReadError::Parts),
    (b"{0|+-3", 500, ReadError::CutShort),
    (b"", 500, ReadError::CutShort),
    (b"{", 500, ReadError::CutShort),
    (b"{0|", 500, ReadError::CutShort),
    (b"{0|0", 500, ReadError::CutShort),
    (b"{0,", 500, ReadError::CutShort),
    (b"{0|0}x", 500, ReadError::BadByte(5)),
    (b"0,", 500, ReadError::BadByte(1)),
    (b" 0", 500, ReadError::BadByte(0)),
    (b"5.", 500, ReadError::BadByte(1)),
    (b"{0}", 500, ReadError::BadByte(2)),
    (b"{0,|0}", 500, ReadError::BadByte(3)),
    (b"{0|0|0}", 500, ReadError::BadByte(4)),
    (b"2/4", 500, ReadError::BadNumber(0)),
    (b"-0", 500, ReadError::BadNumber(0)),
    (b"01", 500, ReadError::BadNumber(0)),
    (b"--1", 500, ReadError::BadNumber(0)),
    (b"{0|1/3}", 500, ReadError::BadNumber(3)),
    (b"1/2/4", 500, ReadError::BadNumber(0)),
    (b"1152921504606846976", 500, ReadError::BadNumber(0)),
    (b"{0|1/2305843009213693952x", 500, ReadError::BadNumber(3)),
    (b"{1|{0|0}}", 1, ReadError::Parts),
    (b"{{1|{0|0}}|}", 1, ReadError::Parts),
    (b"{0|1/1152921504606846976}x", 500, ReadError::Bounds),
    (b"{1152921504606846975|}", 500, ReadError::Bounds),
];

/// The first of the texts that isn't refused so.
fn wrong_refusal(alloc: Global) -> Option<usize> {
    for (at, row) in REFUSALS.iter().enumerate() {
        if read(alloc, &mut Store::new(alloc), row.0, row.1) != Err(row.2) {
            return Some(at);
        }
    }
    None
}

#[test]
fn refusals(rt: HostRuntime) {
    none_wrong(&rt, wrong_refusal(rt.alloc()));
}

/// So many opening braces.
fn openings(alloc: Global, count: usize) -> Result<Vec<u8>, AllocError> {
    vec![in alloc; b'{'; count]
}

/// Whether so many opening braces are refused so.
fn are_refused(alloc: Global, count: usize, want: ReadError) -> Result<bool, AllocError> {
    let text = openings(alloc, count)?;
    Ok(read(alloc, &mut Store::new(alloc), &text, 500) == Err(want))
}

/// Appends the text of a corridor, `{N|..{2|{1|0}}..}`, whose braces nest so deep.
fn append_corridor(text: &mut String, depth: u32) -> Result<(), AllocError> {
    for step in 0..depth {
        write!(text, "{{{}|", depth - step)?;
    }
    text.push_str("0")?;
    for _ in 0..depth {
        text.push_str("}")?;
    }
    Ok(())
}

/// The text of such a corridor.
fn corridor(alloc: Global, depth: u32) -> Result<String, AllocError> {
    let mut text = String::new(alloc);
    append_corridor(&mut text, depth)?;
    Ok(text)
}

/// Whether a game isn't written, as its braces nest too deep.
fn is_too_deep(alloc: Global, store: &Store, id: GameId) -> bool {
    id < store.len() && matches!(write(alloc, store, id, 100_000), Err(WriteError::Deep))
}

/// The game from which Left goes to a number and Right to a game.
fn longer(alloc: Global, store: &mut Store, number: i32, id: GameId) -> Result<GameId, FormError> {
    let top = store.number(Dyadic::whole(number))?;
    form(alloc, store, &[top], &[id])
}

/// Whether the game is written so, and the one that is longer by one isn't written.
fn ends_at(alloc: Global, store: &mut Store, id: GameId, text: &[u8]) -> bool {
    if !is_shown(alloc, store, id, 100_000, text) {
        return false;
    }
    match longer(alloc, store, 1001, id) {
        Ok(deeper) => is_too_deep(alloc, store, deeper),
        Err(_error) => false,
    }
}

/// Whether a corridor whose braces nest 1,000 deep is read, and written so, and one that is longer by one isn't written.
fn is_written_to_the_depth(alloc: Global, store: &mut Store) -> Result<bool, AllocError> {
    let text = corridor(alloc, 1000)?;
    match read(alloc, store, text.as_bytes(), 2000) {
        Ok(id) => Ok(ends_at(alloc, store, id, text.as_bytes())),
        Err(_error) => Ok(false),
    }
}

#[test]
fn depths(rt: HostRuntime) {
    let alloc = rt.alloc();
    assert!(rt; are_refused(alloc, 1000, ReadError::CutShort) == Ok(true));
    assert!(rt; are_refused(alloc, 1001, ReadError::Deep) == Ok(true));
    assert!(rt; is_written_to_the_depth(alloc, &mut Store::new(alloc)) == Ok(true));
}
