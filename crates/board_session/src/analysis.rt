//! Analyses of the present position: texts on the game that it opens, and its score.

ghost use Rattle.std.specs.Prelude.{◌≡◌, ◌≤◌, ◌<◌, ◌+◌, ◌*◌, ◌^◌, ◌↔◌, ◌++◌, List, false, length, codes, unsigned_abs, IfOk, IsTrue, string_bytes};
ghost use Rattle.desk_io.specs.declared.lines.TheConstants.{MOST_LINES};
ghost use Rattle.go_grid.specs.Chain.{IsSettled};
ghost use Rattle.go_grid.specs.Region.{Region};
ghost use Rattle.gtp_words.specs.Vertices.{vertex_text};
ghost use Rattle.region_cut.specs.Cut.{AreRegionsOfPlay};
ghost use Rattle.endgame_solver.specs.Faults.{most_steps};
ghost use Rattle.report.specs.Score.{CanBeTold};
ghost use Rattle.board_session.specs.Analysing.{IsShown, IsSpace, counted_setup, cycle_topic, found, gameless, none_found, score_finding, score_text};
ghost use Rattle.board_session.specs.Session.{finding_said};
ghost use Rattle.board_orders.specs.Effects.{reply_text};
ghost use Rattle.board_orders.specs.States.{present};
ghost use Rattle.board_session.specs.inner.Analysing.{IsReported, RepliesBy, RepliesIn, RepliesOn, ShowsText};
ghost use Rattle.board_session.specs.inner.Settling.{SettlesAs};

use crate::cycle_analysis::reply_with_cycles;
use crate::settling::{Settling, settle};
use crate::statuses::report_stones;
use crate::topic::cycle_topic;
use board_orders::{Analysis, BoardSession, Topic, accept, refuse_unscored, refuse_unsolved};
use board_words::write_komi_word;
use endgame_solver::{Limits, Solved};
use fault_words::{Naming, fault_words};
use go_grid::{Colour, Point, Size};
use gtp_words::point_text;
use item_list::ItemList;
use local_play::Steps;
use report::{Score, line_text, margin_text, moves_text, score_of, top_stones_text};
use sgf_go::Setup;
use std::alloc::{AllocError, Global};
use std::sync::ledger::Ledger;

/// Whether a byte is a blank or a line feed.
fn is_space(byte: u8) -> bool
    ensures { IsTrue result ↔ IsSpace byte }
{
    byte == b' ' || byte == b'\n'
}

/// A text without the blank or the line feed at its end.
fn shown(text: &[u8]) -> &[u8]
    ensures { IsShown text.now result.now }
{
    let [front @ .., end] = text else {
        return text;
    };
    if is_space(*end) {
        return front;
    }
    text
}

/// The reply that shows a text.
pub(crate) fn show(alloc: Global, id: &[u8], text: &[u8]) -> Result<ItemList<u8>, AllocError>
    ensures { IfOk result (ShowsText id.now text.now) }
{
    accept(alloc, id, shown(text))
}

/// The text of a score in half-points to Black's good.
fn score_text(alloc: Global, halves: i64) -> Result<String, AllocError>
    requires { unsigned_abs halves ≤ 2 ^ 48 }
    ensures { IfOk result (λ text. string_bytes text ≡ score_text halves) }
{
    if halves == 0 {
        return String::from_str(alloc, "0");
    }
    let mut text = String::from_str(alloc, if halves > 0 { "B+" } else { "W+" })?;
    write_komi_word(&mut text, halves.abs())?;
    Ok(text)
}

/// The words on a stone that is left to play.
fn left_words(alloc: Global, size: Size, point: Point) -> Result<String, AllocError>
    requires { point < size.columns * size.rows }
    ensures { IfOk result (λ text. string_bytes text
        ≡ codes "play left at " ++ vertex_text size.columns size.rows point) }
{
    let name = point_text(alloc, size, point)?;
    format!(in alloc; "play left at {name}")
}

/// The reply that tells a score on a board of the size.
fn tell_score(
    alloc: Global,
    id: &[u8],
    size: Size,
    score: Score,
) -> Result<ItemList<u8>, AllocError>
    requires { CanBeTold (size.columns * size.rows) score }
    ensures { IfOk result (λ reply. reply ≡ reply_text id.now
        (finding_said (score_finding size.columns size.rows score))) }
{
    match score {
        Score::Halves(halves) => {
            let text = score_text(alloc, halves)?;
            accept(alloc, id, text.as_bytes())
        }
        Score::Stone(point) => {
            let words = left_words(alloc, size, point)?;
            refuse_unscored(alloc, id, &words)
        }
        Score::Fraction => refuse_unscored(alloc, id, "less than a half-point left"),
    }
}

/// The reply with the best stones of the side to move.
fn reply_best(
    alloc: Global,
    id: &[u8],
    game: &mut Solved,
    komi_halves: i64,
) -> Result<ItemList<u8>, AllocError>
    requires komi { unsigned_abs komi_halves ≤ 2 ^ 24 }
    ensures { IfOk result (RepliesOn Topic.Best game.old.regions game.old.state komi_halves
        id.now) }
{
    let text = top_stones_text(alloc, Naming::Gtp, game, komi_halves)?;
    show(alloc, id, text.as_slice())
}

/// The reply with the thresholds.
fn reply_margin(
    alloc: Global,
    id: &[u8],
    game: &mut Solved,
    komi_halves: i64,
) -> Result<ItemList<u8>, AllocError>
    ensures { IfOk result (RepliesOn Topic.Margin game.old.regions game.old.state komi_halves
        id.now) }
{
    let text = margin_text(alloc, game, komi_halves)?;
    show(alloc, id, text.as_slice())
}

/// The reply with the moves and what each is worth.
fn reply_moves(
    alloc: Global,
    id: &[u8],
    game: &mut Solved,
    komi_halves: i64,
) -> Result<ItemList<u8>, AllocError>
    ensures { IfOk result (RepliesOn Topic.Moves game.old.regions game.old.state komi_halves
        id.now) }
{
    let text = moves_text(alloc, Naming::Gtp, game, komi_halves)?;
    show(alloc, id, text.as_slice())
}

/// The reply with the line of play.
fn reply_line(
    alloc: Global,
    id: &[u8],
    game: &mut Solved,
    komi_halves: i64,
) -> Result<ItemList<u8>, AllocError>
    ensures { IfOk result (RepliesOn Topic.Line game.old.regions game.old.state komi_halves
        id.now) }
{
    let text = line_text(alloc, Naming::Gtp, game, komi_halves)?;
    show(alloc, id, text.as_slice())
}

/// The reply with the score.
fn reply_score(
    alloc: Global,
    id: &[u8],
    game: &mut Solved,
    komi_halves: i64,
) -> Result<ItemList<u8>, AllocError>
    requires komi { unsigned_abs komi_halves ≤ 2 ^ 24 }
    ensures { IfOk result (RepliesOn Topic.Score game.old.regions game.old.state komi_halves
        id.now) }
{
    let size = game.whole().board().size();
    let score = score_of(alloc, game, komi_halves)?;
    tell_score(alloc, id, size, score)
}

/// The reply on a topic of a game that opens with this komi in half-points.
fn reply_on(
    alloc: Global,
    id: &[u8],
    topic: Topic,
    game: &mut Solved,
    komi_halves: i64,
) -> Result<ItemList<u8>, AllocError>
    requires komi { unsigned_abs komi_halves ≤ 2 ^ 24 }
    ensures { IfOk result (RepliesOn topic game.old.regions game.old.state komi_halves id.now) }
{
    match topic {
        Topic::Best => reply_best(alloc, id, game, komi_halves),
        Topic::Margin => reply_margin(alloc, id, game, komi_halves),
        Topic::Moves => reply_moves(alloc, id, game, komi_halves),
        Topic::Line => reply_line(alloc, id, game, komi_halves),
        Topic::Score => reply_score(alloc, id, game, komi_halves),
    }
}

/// The reply on a topic of a position that opens no game, by the words on why.
fn refuse_topic(
    alloc: Global,
    id: &[u8],
    topic: Topic,
    words: &str,
) -> Result<ItemList<u8>, AllocError>
    ensures { IfOk result (λ reply. reply ≡ reply_text id.now
        (finding_said (none_found topic words.now))) }
{
    match topic {
        Topic::Score => refuse_unscored(alloc, id, words),
        _ => refuse_unsolved(alloc, id, words),
    }
}

/// The reply on a topic of a position.
fn reply_in<L: Ledger>(
    alloc: Global,
    id: &[u8],
    topic: Topic,
    setup: &Setup,
    limits: &Limits,
    steps: &mut Steps<L>,
) -> Result<ItemList<u8>, AllocError>
    ensures replied { IfOk result (RepliesIn limits.now topic setup.now id.now) }
    ensures steps { (regions : List Region) → AreRegionsOfPlay setup.now.board regions
        → steps.new ≤ steps.old + most_steps limits.now regions }
{
    let size = setup.board().size();
    match Solved::begin(alloc, setup, false, limits, steps) {
        Ok(mut game) => {
            let reply = reply_on(alloc, id, topic, &mut game, setup.komi_halves());
            drop(game);
            reply
        }
        Err(fault) => {
            let words = fault_words(alloc, Naming::Gtp, size, limits, fault)?;
            refuse_topic(alloc, id, topic, &words)
        }
    }
}

/// The reply on a topic of a position, with cycles admitted or without.
fn reply_by<L: Ledger>(
    alloc: Global,
    id: &[u8],
    topic: Topic,
    setup: &Setup,
    limits: &Limits,
    cycles: bool,
    steps: &mut Steps<L>,
) -> Result<ItemList<u8>, AllocError>
    ensures replied { IfOk result (RepliesBy (cycle_topic cycles topic) limits.now topic
        setup.now id.now) }
    ensures steps { (regions : List Region) → AreRegionsOfPlay setup.now.board regions
        → steps.new ≤ steps.old + most_steps limits.now regions }
{
    match cycle_topic(cycles, topic) {
        Some(told) => reply_with_cycles(alloc, id, told, setup, limits, steps),
        None => reply_in(alloc, id, topic, setup, limits, steps),
    }
}

/// What the board comes to with the colour to move, where each pass has handed the other colour a prisoner.
fn settle_counted(
    alloc: Global,
    session: &BoardSession,
    colour: Colour,
) -> Result<Settling, AllocError>
    requires few { length session.now.moves < MOST_LINES }
    ensures { IfOk result
        (SettlesAs (counted_setup (present session.now) session.now.komi_halves colour)) }
{
    let position = session.present();
    let (prisoners, passes) = (position.prisoners, position.passes);
    let black = prisoners.of(Colour::Black) + passes.of(Colour::White);
    let white = prisoners.of(Colour::White) + passes.of(Colour::Black);
    settle(
        alloc,
        &position.board,
        black,
        white,
        session.komi_halves(),
        colour,
    )
}

/// The reply to an analysis of the present position.
pub(crate) fn analyse<L: Ledger>(
    session: &BoardSession,
    id: &[u8],
    analysis: Analysis,
    limits: &Limits,
    cycles: bool,
    steps: &mut Steps<L>,
) -> Result<ItemList<u8>, AllocError>
    requires few { length session.now.moves < MOST_LINES }
    ensures reported { IfOk result (IsReported cycles limits.now analysis id.now
        session.now) }
    ensures steps { (regions : List Region)
        → AreRegionsOfPlay (present session.now).board regions
        → steps.new ≤ steps.old + most_steps limits.now regions }
{
    let alloc = session.allocator();
    match analysis {
        Analysis::Game(topic, colour) => match settle_counted(alloc, session, colour)? {
            Settling::Position(setup) => {
                reply_by(alloc, id, topic, &setup, limits, cycles, steps)
            }
            Settling::Unsettled(words) => refuse_topic(alloc, id, topic, &words),
        },
        Analysis::Stones(status) => report_stones(alloc, id, &session.present().board, status),
    }
}
