//! What the properties of a node say.

ghost use Rattle.std.specs.Prelude.{map, get_or, [], ◌≡◌};
ghost use Rattle.std.specs.Option.{option_map};
ghost use Rattle.std.specs.Str.{bytes_eq};
ghost use Rattle.sgf_go.specs.Setup.{has_move, ends_before, cell_set, mover, side_of, value_of};
ghost use Rattle.sgf_tree.specs.Reading.{property_text};

use crate::values::trim;
use go_grid::{Cell, Colour};
use sgf_tree::Property;

/// Whether a property has the name.
pub(crate) fn is_named(property: &Property, name: &[u8]) -> bool
    ensures { result ≡ bytes_eq property.now.name.items name.now }
{
    property.name.as_slice() == name
}

/// The cell that a property sets.
pub(crate) fn set_cell(property: &Property) -> Option<Cell>
    ensures { result ≡ cell_set (property_text property.now) }
{
    if is_named(property, b"AB") {
        return Some(Cell::Black);
    }
    if is_named(property, b"AW") {
        return Some(Cell::White);
    }
    if is_named(property, b"AE") {
        return Some(Cell::Empty);
    }
    None
}

/// Who moves by a property.
pub(crate) fn mover(property: &Property) -> Option<Colour>
    ensures { result ≡ mover (property_text property.now) }
{
    if is_named(property, b"B") {
        return Some(Colour::Black);
    }
    if is_named(property, b"W") {
        return Some(Colour::White);
    }
    None
}

/// The first value of a property, or an empty text.
pub(crate) fn first_of(property: &Property) -> &[u8]
    ensures { result.now ≡ get_or (property_text property.now).values 0 [] }
{
    match property.values.first() {
        Some(value) => value.as_slice(),
        None => &[],
    }
}

/// The first value of the first property of a name, trimmed.
#[tactic(auto, using(crate::proofs::FirstValueLemmas::value_here, crate::proofs::FirstValueLemmas::value_on, crate::proofs::FirstValueLemmas::value_none))]
pub(crate) fn value_of<'a>(properties: &'a [Property], name: &[u8]) -> Option<&'a [u8]>
    ensures { option_map (λ t. t.now) result ≡ value_of name.now
        (map property_text properties.now) }
{
    for at in 0..properties.len() {
        if is_named(&properties[at], name) {
            return Some(trim(first_of(&properties[at])));
        }
    }
    None
}

/// The side that a value of PL names.
pub(crate) fn read_side(text: &[u8]) -> Option<Colour>
    ensures { result ≡ side_of text.now }
{
    if text.is_empty() {
        return None;
    }
    match text[0] {
        b'B' | b'b' => Some(Colour::Black),
        b'W' | b'w' => Some(Colour::White),
        _ => None,
    }
}

fn has_move(properties: &[Property]) -> bool
    ensures { result ≡ has_move (map property_text properties.now) }
{
    value_of(properties, b"B").is_some() || value_of(properties, b"W").is_some()
}

/// Whether the line ends before a node.
pub(crate) fn ends_before(after: Option<u32>, properties: &[Property], played: u32) -> bool
    ensures { result ≡ ends_before after (map property_text properties.now) played }
{
    match after {
        None => false,
        Some(most) => has_move(properties) && most <= played,
    }
}
