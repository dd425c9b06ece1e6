//! Moves that the session generates.

ghost use Rattle.std.specs.Prelude.{◌≡◌, ◌≤◌, ◌<◌, ◌+◌, List, length, IfOk, OnOk, OnErr};
ghost use Rattle.desk_io.specs.declared.lines.TheConstants.{MOST_LINES};
ghost use Rattle.go_grid.specs.Region.{Region};
ghost use Rattle.region_cut.specs.Cut.{AreRegionsOfPlay};
ghost use Rattle.endgame_solver.specs.Faults.{most_steps};
ghost use Rattle.board_session.specs.Cycles.{TellsIn};
ghost use Rattle.board_session.specs.Generating.{Follows, MakesChosen, komi_after, setup_of};
ghost use Rattle.board_orders.specs.Kept.{IsModest};
ghost use Rattle.board_session.specs.Session.{advice_said};
ghost use Rattle.board_orders.specs.Effects.{reply_text};
ghost use Rattle.board_orders.specs.States.{present};
ghost use Rattle.board_session.specs.inner.Doing.{IsGenerated, IsSuggested};
ghost use Rattle.board_session.specs.inner.Settling.{SettlesAs};
ghost use Rattle.board_session.specs.inner.Generating.{IsAdviceOnBoard, MayFollow, MayMake, advice_of};

use crate::advice::{Advice, advise, board_move};
use crate::settling::{Settling, settle};
use board_orders::{BoardMove, BoardSession, accept, move_text, refuse_unsolved};
use endgame_solver::Limits;
use go_grid::{Colour, Size};
use item_list::ItemList;
use local_play::Steps;
use std::alloc::{AllocError, Global};
use std::sync::ledger::Ledger;

/// The komi after a colour's move.
fn komi_after(colour: Colour, chosen: &BoardMove, halves: i64) -> i64
    requires { IsModest halves }
    ensures { result ≡ komi_after colour chosen.now halves }
{
    match (*chosen, colour) {
        (BoardMove::Half, Colour::Black) => halves + 1,
        (BoardMove::Half, Colour::White) => halves - 1,
        (BoardMove::Stone(_), _) => halves,
        (BoardMove::Pass, _) => halves,
    }
}

/// The reply to a colour that asks for a move on a board of the size.
fn reply_to(
    alloc: Global,
    id: &[u8],
    size: Size,
    advice: &Advice,
) -> Result<ItemList<u8>, AllocError>
    requires { IsAdviceOnBoard size.columns size.rows (advice_of advice.now) }
    ensures { IfOk result (λ reply. reply ≡ reply_text id.now
        (advice_said size.columns size.rows (advice_of advice.now))) }
{
    match advice {
        Advice::Chosen(chosen) => {
            let text = move_text(alloc, size, board_move(*chosen))?;
            accept(alloc, id, text.as_bytes())
        }
        Advice::Resigned => accept(alloc, id, b"resign"),
        Advice::Unopened(words) => refuse_unsolved(alloc, id, words),
    }
}

/// What the board comes to with the colour to move.
fn settle_present(
    alloc: Global,
    session: &BoardSession,
    colour: Colour,
) -> Result<Settling, AllocError>
    requires few { length session.now.moves < MOST_LINES }
    ensures settled { IfOk result
        (SettlesAs (setup_of (present session.now) session.now.komi_halves colour)) }
    ensures komi { IsModest session.now.komi_halves }
{
    let position = session.present();
    let black = position.prisoners.of(Colour::Black);
    let white = position.prisoners.of(Colour::White);
    settle(
        alloc,
        &position.board,
        black,
        white,
        session.komi_halves(),
        colour,
    )
}

/// What the colour is told.
fn advise_in<L: Ledger>(
    alloc: Global,
    session: &BoardSession,
    colour: Colour,
    limits: &Limits,
    cycles: bool,
    steps: &mut Steps<L>,
) -> Result<Advice, AllocError>
    requires few { length session.now.moves < MOST_LINES }
    ensures advised { IfOk result (λ advice. TellsIn cycles limits.now session.now colour
        (advice_of advice)) }
    ensures may { IfOk result (λ advice. MayFollow colour (advice_of advice) session.now) }
    ensures steps { (regions : List Region)
        → AreRegionsOfPlay (present session.now).board regions
        → steps.new ≤ steps.old + most_steps limits.now regions }
{
    match settle_present(alloc, session, colour)? {
        Settling::Position(setup) => {
            let passes = session.present().passes;
            advise(alloc, &setup, passes, limits, cycles, steps)
        }
        Settling::Unsettled(words) => Ok(Advice::Unopened(words)),
    }
}

/// Makes a move of the colour that may be made, with the komi after it.
fn make_chosen(
    session: &mut BoardSession,
    colour: Colour,
    chosen: BoardMove,
) -> Result<(), AllocError>
    requires few { length session.old.moves < MOST_LINES }
    requires may { MayMake colour chosen session.old }
    requires komi { IsModest (komi_after colour chosen session.old.komi_halves) }
    ensures made { OnOk result (MakesChosen colour chosen session.old session.new) }
    ensures same { OnErr result (session.new ≡ session.old) }
{
    let halves = komi_after(colour, &chosen, session.komi_halves());
    let _size = session.present().board.size();
    let Some(made) = session.made(colour, chosen)? else {
        // It may be made.
        unreachable!()
    };
    session.add(made)?;
    session.put_komi(halves);
    Ok(())
}

/// Makes the move that the colour is told, if it is told one.
fn follow(session: &mut BoardSession, colour: Colour, advice: &Advice) -> Result<(), AllocError>
    requires few { length session.old.moves < MOST_LINES }
    requires may { MayFollow colour (advice_of advice.now) session.old }
    ensures followed { OnOk result (Follows colour (advice_of advice.now) session.old session.new) }
    ensures same { OnErr result (session.new ≡ session.old) }
{
    match advice {
        Advice::Chosen(chosen) => make_chosen(session, colour, board_move(*chosen)),
        Advice::Resigned => Ok(()),
        Advice::Unopened(_) => Ok(()),
    }
}

/// Makes the engine's move for the colour.
pub(crate) fn generate<L: Ledger>(
    session: &mut BoardSession,
    id: &[u8],
    colour: Colour,
    limits: &Limits,
    cycles: bool,
    steps: &mut Steps<L>,
) -> Result<ItemList<u8>, AllocError>
    requires few { length session.old.moves < MOST_LINES }
    ensures generated { IfOk result
        (λ reply. IsGenerated cycles limits.now colour id.now session.old reply session.new) }
    ensures same { OnErr result (session.new ≡ session.old) }
    ensures steps { (regions : List Region)
        → AreRegionsOfPlay (present session.old).board regions
        → steps.new ≤ steps.old + most_steps limits.now regions }
{
    let alloc = session.allocator();
    let advice = advise_in(alloc, session, colour, limits, cycles, steps)?;
    let reply = reply_to(alloc, id, session.present().board.size(), &advice)?;
    follow(session, colour, &advice)?;
    Ok(reply)
}

/// Tells the engine's move for the colour.
pub(crate) fn suggest<L: Ledger>(
    session: &BoardSession,
    id: &[u8],
    colour: Colour,
    limits: &Limits,
    cycles: bool,
    steps: &mut Steps<L>,
) -> Result<ItemList<u8>, AllocError>
    requires few { length session.now.moves < MOST_LINES }
    ensures suggested { IfOk result
        (λ reply. IsSuggested cycles limits.now colour id.now session.now reply) }
    ensures steps { (regions : List Region)
        → AreRegionsOfPlay (present session.now).board regions
        → steps.new ≤ steps.old + most_steps limits.now regions }
{
    let alloc = session.allocator();
    let advice = advise_in(alloc, session, colour, limits, cycles, steps)?;
    let reply = reply_to(alloc, id, session.present().board.size(), &advice)?;
    Ok(reply)
}
