//! The text of `solve`.

ghost use Rattle.std.specs.Prelude.{◌≡◌, ◌<◌, ◌*◌, ◌++◌, OnOk, IfOk, IfSome, MatchOption, string_bytes, Some};
ghost use Rattle.go_grid.specs.Board.{other};
ghost use Rattle.report.specs.Solution.{HasLines, HasRegions, IsSolveText, count_line, move_line, purse_line, solved_line, state_lines, token_word};
ghost use Rattle.report.specs.inner.Solution.{HasOutcome};
ghost use Rattle.whole_rules.specs.Moves.{IsMoveOnBoard};
ghost use Rattle.board_words.specs.Words.{winner_line};

use board_words::{colour_word, write_name, write_point, write_words};
use endgame_solver::Solved;
use game_text::Text;
use go_grid::{Colour, Point, Size};
use std::alloc::{AllocError, Global};
use whole_rules::{Move, Token, Whole};

fn token_word(token: Token) -> &'static str
    ensures { result.now ≡ token_word token }
{
    match token {
        Token::Nobody => "none",
        Token::Black => "black",
        Token::White => "white",
    }
}

/// Appends the line of a purse, in points.
#[tactic(auto, unfolding(crate::specs::Solution::purse_line))]
fn write_purse(text: &mut String, colour: Colour, purse: u64) -> Result<(), AllocError>
    ensures { OnOk result
        (string_bytes text.new ≡ string_bytes text.old ++ purse_line colour purse) }
{
    let owner = colour_word(colour);
    writeln!(text, "purse {owner} {purse}")
}

/// Appends the lines on the side to move, the purses and the token.
#[tactic(auto, using(std::proofs::Common::append_assoc))]
pub fn write_state(text: &mut String, state: &Whole) -> Result<(), AllocError>
    ensures { OnOk result (string_bytes text.new ≡ string_bytes text.old ++ state_lines state.now) }
{
    write_words(text, "side", colour_word(state.side()))?;
    write_purse(text, Colour::Black, state.purse(Colour::Black))?;
    write_purse(text, Colour::White, state.purse(Colour::White))?;
    write_words(text, "half", token_word(state.token()))
}

/// Appends the line of a move.
#[tactic(auto, using(std::proofs::Common::append_assoc), unfolding(board_words::specs::Words::word_line))]
fn write_move(text: &mut String, size: Size, chosen: Move) -> Result<(), AllocError>
    requires { IsMoveOnBoard size.columns size.rows chosen }
    ensures { OnOk result (string_bytes text.new ≡ string_bytes text.old ++ move_line size.columns
        (Some chosen)) }
{
    match chosen {
        Move::Stone(point) => write_point(text, "move", size, point),
        Move::Spend => write_words(text, "move", "spend"),
        Move::Half => write_words(text, "move", "half"),
    }
}

/// Appends the line of a move, if there is one.
pub fn write_chosen(text: &mut String, size: Size, chosen: Option<Move>) -> Result<(), AllocError>
    requires { IfSome chosen (IsMoveOnBoard size.columns size.rows) }
    ensures { OnOk result
        (string_bytes text.new ≡ string_bytes text.old ++ move_line size.columns chosen) }
{
    match chosen {
        Some(chosen) => write_move(text, size, chosen),
        None => write_words(text, "move", "none"),
    }
}

/// Appends the lines on the winner and the move.
#[tactic(auto, using(std::proofs::Common::append_assoc))]
fn write_outcome(
    text: &mut String,
    size: Size,
    winner: Colour,
    chosen: Option<Move>,
) -> Result<(), AllocError>
    requires { IfSome chosen (IsMoveOnBoard size.columns size.rows) }
    ensures { OnOk result (string_bytes text.new ≡ string_bytes text.old ++
        (winner_line winner ++ move_line size.columns chosen)) }
{
    write_words(text, "winner", colour_word(winner))?;
    write_chosen(text, size, chosen)
}

/// Who wins where the first winning move of the side to move is this, or where it has none.
fn winner_with(side: Colour, chosen: &Option<Move>) -> Colour
    ensures { MatchOption chosen.now (result ≡ other side) (λ m. result ≡ side) }
{
    match chosen {
        Some(_chosen) => side,
        None => side.other(),
    }
}

/// Appends the lines on the winner and the first winning move of the present state.
pub(crate) fn write_solution(text: &mut String, solved: &mut Solved) -> Result<(), AllocError>
    ensures outcome { OnOk result (HasOutcome solved.old.state (string_bytes text.old)
        (string_bytes text.new)) }
    ensures same { solved.new ≡ solved.old }
{
    let size = solved.whole().board().size();
    let side = solved.whole().side();
    let chosen = solved.winning_move();
    let winner = winner_with(side, &chosen);
    write_outcome(text, size, winner, chosen)?;
    Ok(())
}

/// Appends the line of a number.
#[tactic(auto, unfolding(crate::specs::Solution::count_line))]
pub fn write_count(text: &mut String, label: &str, count: u128) -> Result<(), AllocError>
    ensures { OnOk result
        (string_bytes text.new ≡ string_bytes text.old ++ count_line label.now count) }
{
    writeln!(text, "{label} {count}")
}

/// Appends the line of a region by its lowest point, the number of its points and that of its positions.
pub fn write_region(
    text: &mut String,
    size: Size,
    lowest: Point,
    points: u16,
    positions: u64,
) -> Result<(), AllocError>
    requires { lowest < size.columns * size.rows }
    ensures { OnOk result
        (string_bytes text.new ≡ string_bytes text.old ++ solved_line size.columns lowest points
        positions) }
{
    text.push_str("region ")?;
    write_name(text, size, lowest)?;
    writeln!(text, " points {points} positions {positions}")?;
    Ok(())
}

/// Appends a line for each region of play, and answers how many positions they have together.
fn write_lines(text: &mut String, solved: &Solved) -> Result<u128, AllocError>
    ensures { IfOk result (λ total. HasLines solved.now.state.board.columns solved.now.regions
        (string_bytes text.old) (string_bytes text.new) total) }
{
    let size = solved.whole().board().size();
    let mut total = 0;
    'writing: for number in 0..solved.regions() {
        let report = solved.region_report(number);
        write_region(text, size, report.lowest, report.points, report.positions)?;
        total += u128::from(report.positions);
    }
    Ok(total)
}

/// Appends the lines on the regions of play.
fn write_regions(text: &mut String, solved: &Solved) -> Result<(), AllocError>
    ensures { OnOk result (HasRegions solved.now.state.board.columns solved.now.regions
        (string_bytes text.old) (string_bytes text.new)) }
{
    write_count(text, "regions", solved.regions() as u128)?;
    let total = write_lines(text, solved)?;
    write_count(text, "positions", total)?;
    Ok(())
}

/// The text of a solved game: its state, its regions of play, its winner and its first winning move.
pub fn solve_text(alloc: Global, solved: &mut Solved) -> Result<Text, AllocError>
    ensures text { IfOk result (λ text. IsSolveText solved.old text) }
    ensures same { solved.new ≡ solved.old }
{
    let mut text = String::new(alloc);
    write_state(&mut text, solved.whole())?;
    write_regions(&mut text, solved)?;
    write_solution(&mut text, solved)?;
    Ok(Text::from(text))
}
