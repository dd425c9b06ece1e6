//! The lines on the stops and the thermograph of a game.

ghost use Rattle.std.specs.Prelude.{◌≡◌, ◌++◌, OnOk, IfOk, string_bytes, flat_map, codes};
ghost use Rattle.board_words.specs.Words.{word_line};
ghost use Rattle.game_lines.specs.Pictures.{break_point, number, picture_lines, stops_line, temperature_word, wall_line};

use board_words::write_words;
use dyadic_num::Dyadic;
use game_text::number_text;
use std::alloc::{AllocError, Global};
use thermograph::{Thermograph, Wall};

/// Appends a number, in decimal or as a fraction in lowest terms.
fn write_number(alloc: Global, text: &mut String, x: Dyadic) -> Result<(), AllocError>
    ensures { OnOk result (string_bytes text.new ≡ string_bytes text.old ++ number x) }
{
    let digits = number_text(alloc, x)?;
    text.push_str(&digits)
}

/// Appends the line of the stops.
#[tactic(auto, using(std::proofs::Common::append_assoc), unfolding(crate::specs::Pictures::stops_line))]
fn write_stops(
    alloc: Global,
    text: &mut String,
    left: Dyadic,
    right: Dyadic,
) -> Result<(), AllocError>
    ensures { OnOk result (string_bytes text.new ≡ string_bytes text.old ++ stops_line left right) }
{
    text.push_str("stops ")?;
    write_number(alloc, text, left)?;
    text.push_str(" ")?;
    write_number(alloc, text, right)?;
    text.push_str("\n")
}

/// Appends the line of a number.
#[tactic(auto, using(std::proofs::Common::append_assoc), unfolding(board_words::specs::Words::word_line))]
fn write_number_line(
    alloc: Global,
    text: &mut String,
    label: &str,
    x: Dyadic,
) -> Result<(), AllocError>
    ensures { OnOk result (string_bytes text.new ≡ string_bytes text.old ++ word_line label.now
        (number x)) }
{
    text.push_str(label)?;
    text.push_str(" ")?;
    write_number(alloc, text, x)?;
    text.push_str("\n")
}

/// Appends the line of the temperature, which a number lacks.
fn write_temperature(
    alloc: Global,
    text: &mut String,
    temperature: Option<Dyadic>,
) -> Result<(), AllocError>
    ensures { OnOk result (string_bytes text.new ≡ string_bytes text.old ++ word_line
        (codes "temperature") (temperature_word temperature)) }
{
    match temperature {
        Some(temperature) => write_number_line(alloc, text, "temperature", temperature),
        None => write_words(text, "temperature", "none"),
    }
}

/// Appends a break point, behind a space.
#[tactic(auto, using(std::proofs::Common::append_assoc), unfolding(crate::specs::Pictures::break_point))]
fn write_break(alloc: Global, text: &mut String, point: (Dyadic, Dyadic)) -> Result<(), AllocError>
    ensures { OnOk result (string_bytes text.new ≡ string_bytes text.old ++ break_point point) }
{
    text.push_str(" ")?;
    write_number(alloc, text, point.0)?;
    text.push_str(":")?;
    write_number(alloc, text, point.1)
}

/// Appends the break points of a wall.
#[tactic(auto, using(std::proofs::Common::append_assoc))]
fn write_breaks(
    alloc: Global,
    text: &mut String,
    wall: &[(Dyadic, Dyadic)],
) -> Result<(), AllocError>
    ensures { OnOk result
        (string_bytes text.new ≡ string_bytes text.old ++ flat_map break_point wall.now) }
{
    'writing: for point in wall {
        write_break(alloc, text, *point)?;
    }
    Ok(())
}

/// Appends the line of a wall.
#[tactic(auto, using(std::proofs::Common::append_assoc), unfolding(crate::specs::Pictures::wall_line))]
fn write_wall(alloc: Global, text: &mut String, label: &str, wall: &Wall) -> Result<(), AllocError>
    ensures { OnOk result
        (string_bytes text.new ≡ string_bytes text.old ++ wall_line label.now wall.now) }
{
    text.push_str(label)?;
    write_breaks(alloc, text, wall.as_slice())?;
    text.push_str("\n")
}

/// Appends the lines on the stops and the thermograph.
#[tactic(auto, using(std::proofs::Common::append_assoc))]
pub(crate) fn write_picture(
    alloc: Global,
    text: &mut String,
    stops: (Dyadic, Dyadic),
    drawn: &Thermograph,
) -> Result<(), AllocError>
    ensures { OnOk result (string_bytes text.new ≡ string_bytes text.old ++ picture_lines
        (record { left_stop = stops.0; right_stop = stops.1; thermograph = drawn.now })) }
{
    write_stops(alloc, text, stops.0, stops.1)?;
    write_number_line(alloc, text, "mean", drawn.mean)?;
    write_temperature(alloc, text, drawn.temperature)?;
    write_wall(alloc, text, "left", &drawn.left)?;
    write_wall(alloc, text, "right", &drawn.right)
}
