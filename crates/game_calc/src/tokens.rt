//! The tokens of a line: the longest runs of bytes other than a blank.

ghost use Rattle.std.specs.Prelude.{◌≡◌, ◌<◌, ◌≤◌, length, drop, slice_range};
ghost use Rattle.game_calc.specs.Expression.{behind_token, kind, kind_of, next, rest, sign_kind, token};
ghost use Rattle.game_calc.specs.declared.tokens.Kind.TheVariants.{End};

/// What a token is: one of the signs of the grammar, or else a game. The end of the line is no token.
#[derive(Clone, Copy)]
pub(crate) enum Kind {
    End,
    Plus,
    Minus,
    Open,
    Close,
    Query,
    Game,
}

/// A token and where it stands.
#[derive(Clone, Copy)]
pub(crate) struct Token {
    pub(crate) kind: Kind,
    pub(crate) start: usize,
    pub(crate) end: usize,
}

/// Where the next token begins, or the line ends.
fn token_start(text: &[u8], first: usize) -> usize
    requires { first ≤ length text.now }
    ensures forward { first ≤ result }
    ensures within { result ≤ length text.now }
    ensures next { drop result text.now ≡ next (drop first text.now) }
{
    let mut at = first;
    'passing: while at < text.len() {
        if text[at] != b' ' {
            return at;
        }
        at += 1;
    }
    at
}

/// Where the token ends that begins there.
fn token_end(text: &[u8], start: usize) -> usize
    requires { start ≤ length text.now }
    ensures forward { start ≤ result }
    ensures within { result ≤ length text.now }
    ensures token { slice_range text.now start result ≡ token (drop start text.now) }
    ensures behind { drop result text.now ≡ behind_token (drop start text.now) }
{
    let mut at = start;
    'running: while at < text.len() {
        if text[at] == b' ' {
            return at;
        }
        at += 1;
    }
    at
}

/// What a token of one byte is.
fn sign_kind(byte: u8) -> Kind
    ensures { result ≡ sign_kind byte }
{
    if byte == b'+' {
        return Kind::Plus;
    }
    if byte == b'-' {
        return Kind::Minus;
    }
    if byte == b'(' {
        return Kind::Open;
    }
    if byte == b')' {
        return Kind::Close;
    }
    if byte == b'?' {
        return Kind::Query;
    }
    Kind::Game
}

/// What a token is.
#[tactic(auto, unfolding(crate::specs::Expression::kind_of))]
fn kind_of(token: &[u8]) -> Kind
    ensures { result ≡ kind_of token.now }
{
    match token {
        [] => Kind::End,
        [byte] => sign_kind(*byte),
        _ => Kind::Game,
    }
}

/// The next token.
pub(crate) fn next_token(text: &[u8], at: usize) -> Token
    requires { at ≤ length text.now }
    ensures kind { result.kind ≡ kind (drop at text.now) }
    ensures start { drop result.start text.now ≡ next (drop at text.now) }
    ensures token { slice_range text.now result.start result.end ≡ token (next (drop at text.now)) }
    ensures rest { drop result.end text.now ≡ rest (drop at text.now) }
    ensures forward { (at ≤ result.start) × (result.start ≤ result.end) }
    ensures within { result.end ≤ length text.now }
    ensures some { (result.kind ≡ End → ⊥) → result.start < result.end }
{
    let start = token_start(text, at);
    let end = token_end(text, start);
    let kind = kind_of(&text[start..end]);
    Token { kind, start, end }
}
