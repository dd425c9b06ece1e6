//! The laws of the verdict, and of a run.

ghost use Rattle.desk_io.specs.Desk.{outside};
ghost use Rattle.top_laws.specs.Complete.{IsAnswered};
ghost use Rattle.top_laws.specs.KeepsWin.{EngineKeepsWin};
ghost use Rattle.top_laws.specs.Laws.{HasOneGame, ExpressionHasOneStatus, HasOneStatus, RefusesFaults, RefusesUnshown, RefusesUnsteady, ShowsShown, ShowsSteady, SolvesSound, SolvesSteady};
ghost use Rattle.top_laws.specs.Output.{CountsWrites, HasCauses, RefusesNoJob, WritesPart};
ghost use Rattle.top_laws.specs.Steps.{IdleTakesNoSteps, TakesFewSteps, TakesNoSteps};
ghost use Rattle.top_laws.specs.Use.{AsksShelf, LeavesLines, ReadsToEnd, TakesFew};

use desk_io::{Shelf, Sink, Source};

/// A question about a file has at most one status; where all regions are sound that is `Done`, and else that of the
/// first fault. Values that can't all be shown are a fault behind those. The same where regions may have cycles and are steady. A game over the
/// same lines has one status and one text, where no read and no write fails. An expression has at most one status. It has no code.
pub fn verdict_laws()
    ensures one { HasOneStatus }
    ensures one_outcome { ExpressionHasOneStatus }
    ensures sound { SolvesSound }
    ensures faults { RefusesFaults }
    ensures shown { ShowsShown }
    ensures unshown { RefusesUnshown }
    ensures one_game { HasOneGame }
    ensures steady { SolvesSteady }
    ensures shows_steady { ShowsSteady }
    ensures unsteady { RefusesUnsteady }
{}

/// What follows of a run from its relation, for every shelf, source and sink: each status has its cause, and a failed write was
/// counted; words outside the grammar are refused; a run that isn't done has written a front part of its text, or a session with its
/// fault; where nothing keeps a run from its text it is done, but for want of memory; an engine keeps what it has won; a file of the
/// source is read to its end, and else the source is unread but by a session; the shelf is asked for the file of the words, or for
/// those of a session's lines, and no other. It has no code.
pub fn run_laws<H: Shelf, S: Source, K: Sink>()
    ensures cause { HasCauses (outside H.Shelf S.Source K.Sink) }
    ensures cannot_write { CountsWrites (outside H.Shelf S.Source K.Sink) }
    ensures outside_grammar { RefusesNoJob (outside H.Shelf S.Source K.Sink) }
    ensures partial_output { WritesPart (outside H.Shelf S.Source K.Sink) }
    ensures complete { IsAnswered (outside H.Shelf S.Source K.Sink) }
    ensures engine_keeps_win { EngineKeepsWin (outside H.Shelf S.Source K.Sink) }
    ensures at_end { ReadsToEnd (outside H.Shelf S.Source K.Sink) }
    ensures lines_unread { LeavesLines (outside H.Shelf S.Source K.Sink) }
    ensures taken { TakesFew (outside H.Shelf S.Source K.Sink) }
    ensures asked { AsksShelf (outside H.Shelf S.Source K.Sink) }
{}

/// The steps of a run: at most one for each position of the regions of play that the words need, and none where they need none, or
/// in a session none of whose lines takes any. It has no code.
pub fn step_laws()
    ensures few { TakesFewSteps }
    ensures none { TakesNoSteps }
    ensures idle { IdleTakesNoSteps }
{}
