//! The places between the bytes of a tree, and what a byte is at each.

ghost use Rattle.std.specs.Prelude.{◌≡◌};
ghost use Rattle.sgf_tree.specs.Grammar.{is_white};
ghost use Rattle.sgf_tree.specs.inner.Machine.{kind_of, outside, inside, token_at, place_after};

/// What a byte is outside of values.
#[derive(Clone, Copy)]
pub(crate) enum Kind {
    Opening,
    Closing,
    Semicolon,
    Bracket,
    White,
    Letter,
    Other,
}

/// Where the reading is: before the tree, behind a `(`, and so on to behind the tree's `)`.
#[derive(Clone, Copy)]
pub(crate) enum Place {
    Start,
    Opened,
    InNode,
    InIdent,
    AfterIdent,
    InValue,
    AfterBackslash,
    AfterValue,
    AfterTree,
    Done,
}

/// What a byte is at its place.
#[derive(Clone, Copy)]
pub(crate) enum Token {
    White,
    Begin,
    Open,
    Node,
    Letter,
    IdentEnd,
    ValueStart,
    Text,
    Backslash,
    ValueEnd,
    Close,
}

/// White space in a tree.
pub fn is_white(byte: u8) -> bool
    ensures { result ≡ is_white byte }
{
    matches!(byte, 9..=13 | b' ')
}

fn byte_kind(byte: u8) -> Kind
    ensures { result ≡ kind_of byte }
{
    match byte {
        _ if is_white(byte) => Kind::White,
        b'A'..=b'Z' | b'a'..=b'z' => Kind::Letter,
        b'(' => Kind::Opening,
        b')' => Kind::Closing,
        b';' => Kind::Semicolon,
        b'[' => Kind::Bracket,
        _ => Kind::Other,
    }
}

fn outside_value(place: Place, kind: Kind) -> Option<Token>
    ensures { result ≡ outside place kind }
{
    match (place, kind) {
        (Place::Start, Kind::Opening) => Some(Token::Begin),
        (Place::Opened, Kind::White)
        | (Place::InNode, Kind::White)
        | (Place::AfterIdent, Kind::White)
        | (Place::AfterValue, Kind::White)
        | (Place::AfterTree, Kind::White) => Some(Token::White),
        (Place::Opened, Kind::Semicolon)
        | (Place::InNode, Kind::Semicolon)
        | (Place::AfterValue, Kind::Semicolon) => Some(Token::Node),
        (Place::InNode, Kind::Letter)
        | (Place::InIdent, Kind::Letter)
        | (Place::AfterValue, Kind::Letter) => Some(Token::Letter),
        (Place::InIdent, Kind::White) => Some(Token::IdentEnd),
        (Place::InIdent, Kind::Bracket)
        | (Place::AfterIdent, Kind::Bracket)
        | (Place::AfterValue, Kind::Bracket) => Some(Token::ValueStart),
        (Place::InNode, Kind::Opening)
        | (Place::AfterValue, Kind::Opening)
        | (Place::AfterTree, Kind::Opening) => Some(Token::Open),
        (Place::InNode, Kind::Closing)
        | (Place::AfterValue, Kind::Closing)
        | (Place::AfterTree, Kind::Closing) => Some(Token::Close),
        _ => None,
    }
}

fn inside_value(byte: u8) -> Token
    ensures { result ≡ inside byte }
{
    match byte {
        b']' => Token::ValueEnd,
        b'\\' => Token::Backslash,
        _ => Token::Text,
    }
}

/// What a byte is at a place, if it fits there.
pub(crate) fn read_token(place: Place, byte: u8) -> Option<Token>
    ensures { result ≡ token_at place byte }
{
    match place {
        Place::InValue => Some(inside_value(byte)),
        Place::AfterBackslash => Some(Token::Text),
        _ => outside_value(place, byte_kind(byte)),
    }
}

/// The place after a byte.
pub(crate) fn next_place(place: Place, token: Token, depth: u32) -> Place
    ensures { result ≡ place_after place token depth }
{
    match token {
        Token::White => place,
        Token::Begin | Token::Open => Place::Opened,
        Token::Node => Place::InNode,
        Token::Letter => Place::InIdent,
        Token::IdentEnd => Place::AfterIdent,
        Token::ValueStart | Token::Text => Place::InValue,
        Token::Backslash => Place::AfterBackslash,
        Token::ValueEnd => Place::AfterValue,
        Token::Close => {
            if depth == 1 {
                return Place::Done;
            }
            Place::AfterTree
        }
    }
}
