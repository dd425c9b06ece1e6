//! The best stones of the side to move, by their thresholds.

ghost use Rattle.std.specs.Prelude.{◌≡◌, ◌≤◌, ◌<◌, ◌+◌, ◌*◌, ◌^◌, ◌++◌, ◌↔◌, ℕ, length, unsigned_abs, IfOk, IfSome, OnOk, IsTrue, codes, string_bytes};
ghost use Rattle.board_words.specs.Komi.{komi_word};
ghost use Rattle.fault_words.specs.Naming.{name_by};
ghost use Rattle.report.specs.Analysis.{name_on};
ghost use Rattle.report.specs.TopStones.{ComesBefore, IsAhead, IsBehind, IsBestBelow, IsBetter, IsNextBest, IsTopText, gain, rated_text};
ghost use Rattle.report.specs.inner.TopStones.{IsSmall};

use board_words::write_komi_word;
use endgame_solver::Solved;
use fault_words::{Naming, write_point_name};
use game_text::Text;
use go_grid::{Colour, Point, Size};
use std::alloc::{AllocError, Global};

/// The most stones that are told.
const MOST_STONES: u8 = 10;

/// A stone, and up to which komi, in half-points, Black wins after it.
#[derive(Clone, Copy)]
pub(crate) struct RatedStone {
    pub threshold: i64,
    pub point: Point,
}

/// Whether the first threshold is better for the player than the second.
fn is_better(side: Colour, first: i64, second: i64) -> bool
    ensures { IsTrue result ↔ IsBetter side first second }
{
    match side {
        Colour::Black => first > second,
        Colour::White => first < second,
    }
}

/// Whether the first stone comes before the second to the player.
fn comes_before(side: Colour, first: &RatedStone, second: &RatedStone) -> bool
    ensures { IsTrue result ↔ ComesBefore side first.now second.now }
{
    is_better(side, first.threshold, second.threshold)
        || (first.threshold == second.threshold && first.point.0 < second.point.0)
}

/// Whether a stone comes after the last one, if there was one.
fn is_behind(side: Colour, last: &Option<RatedStone>, rated: &RatedStone) -> bool
    ensures { IsTrue result ↔ IsBehind side last.now rated.now }
{
    match last {
        Some(last) => comes_before(side, last, rated),
        None => true,
    }
}

/// Whether a stone comes before the best one, if there is one.
fn is_ahead(side: Colour, rated: &RatedStone, best: &Option<RatedStone>) -> bool
    ensures { IsTrue result ↔ IsAhead side rated.now best.now }
{
    match best {
        Some(best) => comes_before(side, rated, best),
        None => true,
    }
}

/// The better of the best stone so far and that at the next point, of those that come after the last one.
fn better_at(
    solved: &mut Solved,
    komi_halves: i64,
    last: &Option<RatedStone>,
    best: Option<RatedStone>,
    point: Point,
) -> Option<RatedStone>
    requires komi { unsigned_abs komi_halves ≤ 2 ^ 24 }
    requires best { IsBestBelow solved.old.state komi_halves last.now point best }
    requires small { IfSome best IsSmall }
    ensures best { IsBestBelow solved.old.state komi_halves last.now (point + 1) result }
    ensures small { IfSome result IsSmall }
    ensures same { solved.new ≡ solved.old }
{
    let side = solved.whole().side();
    let Some(threshold) = solved.stone_threshold(komi_halves, point) else {
        return best;
    };
    let rated = RatedStone { threshold, point };
    if is_behind(side, last, &rated) && is_ahead(side, &rated, &best) {
        return Some(rated);
    }
    best
}

/// The best stone after the last one, if there is one.
fn next_best(solved: &mut Solved, komi_halves: i64, last: &Option<RatedStone>) -> Option<RatedStone>
    requires komi { unsigned_abs komi_halves ≤ 2 ^ 24 }
    ensures best { IsNextBest solved.old.state komi_halves last.now result }
    ensures small { IfSome result IsSmall }
    ensures same { solved.new ≡ solved.old }
{
    let mut best = None;
    'points: for number in 0..solved.whole().board().size().area() {
        best = better_at(solved, komi_halves, last, best, Point(number));
    }
    best
}

/// By how much a threshold is better for the player than the komi, in half-points.
fn gain(side: Colour, komi_halves: i64, threshold: i64) -> i64
    requires komi { unsigned_abs komi_halves ≤ 2 ^ 24 }
    requires threshold { unsigned_abs threshold ≤ 2 ^ 47 }
    ensures { result ≡ gain side komi_halves threshold }
{
    match side {
        Colour::Black => threshold - komi_halves,
        Colour::White => komi_halves - threshold,
    }
}

/// Appends a stone and its gain in points, each with a blank behind it.
#[tactic(auto, using(std::proofs::Common::append_assoc))]
fn write_rated(
    alloc: Global,
    text: &mut String,
    naming: Naming,
    size: Size,
    point: Point,
    gain: i64,
) -> Result<(), AllocError>
    requires { point < size.columns * size.rows }
    ensures { OnOk result (string_bytes text.new ≡ string_bytes text.old
        ++ (name_by naming size.columns size.rows point
        ++ (codes " " ++ (komi_word gain ++ codes " ")))) }
{
    write_point_name(alloc, text, naming, size, point)?;
    text.push_str(" ")?;
    write_komi_word(text, gain)?;
    text.push_str(" ")
}

/// The text of the ten best stones of the side to move of a solved game that opens with this komi in half-points, or of
/// all where there are fewer. A blank stands behind each word.
pub fn top_stones_text(
    alloc: Global,
    naming: Naming,
    solved: &mut Solved,
    komi_halves: i64,
) -> Result<Text, AllocError>
    requires komi { unsigned_abs komi_halves ≤ 2 ^ 24 }
    ensures text { IfOk result (IsTopText
        (name_on naming solved.old.state.board) solved.old.state komi_halves) }
{
    let size = solved.whole().board().size();
    let side = solved.whole().side();
    let mut text = String::new(alloc);
    let mut last = None;
    'stones: for _told in 0..MOST_STONES {
        let Some(rated) = next_best(solved, komi_halves, &last) else {
            return Ok(Text::from(text));
        };
        let gained = gain(side, komi_halves, rated.threshold);
        write_rated(alloc, &mut text, naming, size, rated.point, gained)?;
        last = Some(rated);
    }
    Ok(Text::from(text))
}
