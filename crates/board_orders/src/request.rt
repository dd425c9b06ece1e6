//! What the words of a line ask for.

ghost use Rattle.std.specs.Prelude.{◌≡◌, ◌≤◌, ℕ, map, IfSome, IfNone};
ghost use Rattle.board_words.specs.Numbers.{IsNumberWord};
ghost use Rattle.board_orders.specs.Orders.{AnalysesAlone, AnalysesOne, Asks, BoardOrder, FitsAlone, FitsAnalysis, FitsArguments, FitsBasic, FitsFew, FitsOne, FitsThree, FitsTwo, moves_before};
ghost use Rattle.board_orders.specs.Viewed.{asked_of, order_of};

use crate::command::{AnalysisCommand, BasicCommand, Command, read_command};
use crate::question::Question;
use crate::topic::{Analysis, Topic, read_status};
use crate::wanted::{Wanted, read_wanted};
use board_words::read_number;
use go_grid::Colour;
use gtp_words::read_colour;
use sgf_go::read_komi;

/// The names of all commands, one a line.
const ALL_COMMANDS: &[u8] =
    b"protocol_version\nname\nversion\nknown_command\nlist_commands\nquit\nboardsize\nclear_board\nkomi\nplay\ngenmove\nreg_genmove\nloadsgf\nundo\nshowboard\nlist_stones\ncaptures\nmove_history\nquery_boardsize\nget_komi\nget_handicap\nfixed_handicap\nset_free_handicap\nlevel\ntime_settings\ntime_left\ntop_moves_black\ntop_moves_white\nfinal_score\nestimate_score\nfinal_status_list\ngdsolve-margin\ngdsolve-moves\ngdsolve-line\ngogui-analyze_commands";

/// The analyses that GoGui offers, a line each: the type of the reply, a label and the command.
const ANALYZE_COMMANDS: &[u8] =
    b"pspairs/Best stones of Black/top_moves_black\npspairs/Best stones of White/top_moves_white\nstring/Margin/gdsolve-margin %c\nstring/Moves/gdsolve-moves %c\nstring/Line of play/gdsolve-line %c\nstring/Score/final_score\nplist/Stones that live/final_status_list alive\nplist/Stones that are dead/final_status_list dead";

/// The greatest number of a file's move.
const LAST_MOVE: u64 = 1_000_000;

/// A command with its arguments.
#[derive(Clone, Copy)]
pub enum Request<'a, 'b> {
    /// The text answers it, whatever the state.
    Tell(&'a [u8]),
    Known(&'a [u8]),
    Ask(Question),
    BoardSize(u64),
    ClearBoard,
    /// The komi in half-points.
    Komi(i64),
    Play(Colour, Wanted),
    GenMove(Colour),
    RegGenMove(Colour),
    Analyse(Analysis),
    /// A file, and how many of its moves are replayed, if not all.
    LoadSgf(&'a [u8], Option<u32>),
    Undo,
    FixedHandicap(u64),
    FreeHandicap(&'b [&'a [u8]]),
    Quit,
}

/// What words ask for.
#[derive(Clone, Copy)]
pub enum Asked<'a, 'b> {
    Something(Request<'a, 'b>),
    /// There is no such command.
    Unknown,
    /// The arguments don't fit the command.
    Misfit,
}

/// The request of a command without an argument.
fn alone<'a, 'b>(command: BasicCommand) -> Option<Request<'a, 'b>>
    ensures some { IfSome result (λ request. FitsAlone command (order_of request)) }
    ensures none { IfNone result ((order : BoardOrder) → ¬ FitsAlone command order) }
{
    match command {
        BasicCommand::ProtocolVersion => Some(Request::Tell(b"2")),
        BasicCommand::Name => Some(Request::Tell(b"gdsolve")),
        BasicCommand::Version => Some(Request::Tell(b"1")),
        BasicCommand::ListCommands => Some(Request::Tell(ALL_COMMANDS)),
        BasicCommand::Quit => Some(Request::Quit),
        BasicCommand::ClearBoard => Some(Request::ClearBoard),
        BasicCommand::Undo => Some(Request::Undo),
        BasicCommand::ShowBoard => Some(Request::Ask(Question::Board)),
        BasicCommand::MoveHistory => Some(Request::Ask(Question::History)),
        BasicCommand::QueryBoardSize => Some(Request::Ask(Question::Size)),
        BasicCommand::GetKomi => Some(Request::Ask(Question::Komi)),
        BasicCommand::GetHandicap => Some(Request::Ask(Question::Handicap)),
        _ => None,
    }
}

/// The request of a command with one argument.
fn with_one<'a, 'b>(command: BasicCommand, word: &'a [u8]) -> Option<Request<'a, 'b>>
    ensures some { IfSome result (λ request. FitsOne command word.now (order_of request)) }
    ensures none { IfNone result ((order : BoardOrder) → ¬ FitsOne command word.now order) }
{
    match command {
        BasicCommand::KnownCommand => Some(Request::Known(word)),
        BasicCommand::BoardSize => Some(Request::BoardSize(read_number(word)?)),
        BasicCommand::Komi => Some(Request::Komi(read_komi(word)?)),
        BasicCommand::GenMove => Some(Request::GenMove(read_colour(word)?)),
        BasicCommand::RegGenMove => Some(Request::RegGenMove(read_colour(word)?)),
        BasicCommand::ListStones => Some(Request::Ask(Question::Stones(read_colour(word)?))),
        BasicCommand::Captures => Some(Request::Ask(Question::Captures(read_colour(word)?))),
        BasicCommand::FixedHandicap => Some(Request::FixedHandicap(read_number(word)?)),
        BasicCommand::LoadSgf => Some(Request::LoadSgf(word, None)),
        BasicCommand::Level => {
            let _level = read_number(word)?;
            Some(Request::Tell(b""))
        }
        BasicCommand::Undo => {
            let _number = read_number(word)?;
            Some(Request::Undo)
        }
        _ => None,
    }
}

/// How many moves come before the move of a number; all of the file's for 0.
fn moves_before(number: u32) -> Option<u32>
    ensures { result ≡ moves_before number }
{
    match number {
        0 => None,
        _ => Some(number - 1),
    }
}

/// A number of a file's move.
fn read_moves(word: &[u8]) -> Option<u32>
    ensures some { IfSome result (λ n. IsNumberWord word.now n × (n ≤ LAST_MOVE)) }
    ensures none { IfNone result ((n : ℕ) → IsNumberWord word.now n → ¬ (n ≤ LAST_MOVE)) }
{
    let number = read_number(word)?;
    if number > LAST_MOVE {
        return None;
    }
    Some(number as u32)
}

/// The request of a command with two arguments.
fn with_two<'a, 'b>(
    command: BasicCommand,
    first: &'a [u8],
    second: &[u8],
) -> Option<Request<'a, 'b>>
    ensures some { IfSome result (λ request. FitsTwo command first.now second.now
        (order_of request)) }
    ensures none { IfNone result ((order : BoardOrder)
        → ¬ FitsTwo command first.now second.now order) }
{
    match command {
        BasicCommand::Play => Some(Request::Play(read_colour(first)?, read_wanted(second)?)),
        BasicCommand::LoadSgf => Some(Request::LoadSgf(first, moves_before(read_moves(second)?))),
        _ => None,
    }
}

/// The request of a command with three arguments.
fn with_three<'a, 'b>(
    command: BasicCommand,
    first: &[u8],
    second: &[u8],
    third: &[u8],
) -> Option<Request<'a, 'b>>
    ensures some { IfSome result (λ request. FitsThree command first.now second.now third.now
        (order_of request)) }
    ensures none { IfNone result ((order : BoardOrder)
        → ¬ FitsThree command first.now second.now third.now order) }
{
    match command {
        BasicCommand::TimeSettings => {
            let _main = read_number(first)?;
            let _extra = read_number(second)?;
            let _stones = read_number(third)?;
            Some(Request::Tell(b""))
        }
        BasicCommand::TimeLeft => {
            let _colour = read_colour(first)?;
            let _time = read_number(second)?;
            let _stones = read_number(third)?;
            Some(Request::Tell(b""))
        }
        _ => None,
    }
}

/// The request of a command with at most three arguments.
fn with_few<'a, 'b>(command: BasicCommand, arguments: &'b [&'a [u8]]) -> Option<Request<'a, 'b>>
    ensures some { IfSome result (λ request. FitsFew command (map (λ w. w.now) arguments.now)
        (order_of request)) }
    ensures none { IfNone result ((order : BoardOrder)
        → ¬ FitsFew command (map (λ w. w.now) arguments.now) order) }
{
    match arguments {
        [] => alone(command),
        [word] => with_one(command, word),
        [first, second] => with_two(command, first, second),
        [first, second, third] => with_three(command, first, second, third),
        _ => None,
    }
}

/// The request of a command that asks for no analysis, with arguments.
fn fit_basic<'a, 'b>(command: BasicCommand, arguments: &'b [&'a [u8]]) -> Option<Request<'a, 'b>>
    ensures some { IfSome result (λ request.
        FitsBasic command (map (λ w. w.now) arguments.now) (order_of request)) }
    ensures none { IfNone result ((order : BoardOrder)
        → ¬ FitsBasic command (map (λ w. w.now) arguments.now) order) }
{
    match command {
        BasicCommand::SetFreeHandicap => {
            if arguments.len() < 2 {
                return None;
            }
            Some(Request::FreeHandicap(arguments))
        }
        _ => with_few(command, arguments),
    }
}

/// The request of a command that asks for an analysis without an argument.
fn analysis_alone<'a, 'b>(command: AnalysisCommand) -> Option<Request<'a, 'b>>
    ensures some { IfSome result (λ request. AnalysesAlone command (order_of request)) }
    ensures none { IfNone result ((order : BoardOrder) → ¬ AnalysesAlone command order) }
{
    let (topic, colour) = match command {
        AnalysisCommand::TopMovesBlack => (Topic::Best, Colour::Black),
        AnalysisCommand::TopMovesWhite => (Topic::Best, Colour::White),
        AnalysisCommand::FinalScore | AnalysisCommand::EstimateScore => (
            Topic::Score,
            Colour::Black,
        ),
        AnalysisCommand::AnalyzeCommands => return Some(Request::Tell(ANALYZE_COMMANDS)),
        _ => return None,
    };
    Some(Request::Analyse(Analysis::Game(topic, colour)))
}

/// The request of a command that asks for an analysis, with one argument.
fn analysis_with_one<'a, 'b>(command: AnalysisCommand, word: &'a [u8]) -> Option<Request<'a, 'b>>
    ensures some { IfSome result (λ request. AnalysesOne command word.now (order_of request)) }
    ensures none { IfNone result ((order : BoardOrder) → ¬ AnalysesOne command word.now order) }
{
    let analysis = match command {
        AnalysisCommand::Margin => Analysis::Game(Topic::Margin, read_colour(word)?),
        AnalysisCommand::Moves => Analysis::Game(Topic::Moves, read_colour(word)?),
        AnalysisCommand::Line => Analysis::Game(Topic::Line, read_colour(word)?),
        AnalysisCommand::FinalStatusList => Analysis::Stones(read_status(word)?),
        _ => return None,
    };
    Some(Request::Analyse(analysis))
}

/// The request of a command that asks for an analysis, with arguments.
fn fit_analysis<'a, 'b>(
    command: AnalysisCommand,
    arguments: &'b [&'a [u8]],
) -> Option<Request<'a, 'b>>
    ensures some { IfSome result (λ request.
        FitsAnalysis command (map (λ w. w.now) arguments.now) (order_of request)) }
    ensures none { IfNone result ((order : BoardOrder)
        → ¬ FitsAnalysis command (map (λ w. w.now) arguments.now) order) }
{
    match arguments {
        [] => analysis_alone(command),
        [word] => analysis_with_one(command, word),
        _ => None,
    }
}

/// The request of a command with arguments.
fn fit<'a, 'b>(command: Command, arguments: &'b [&'a [u8]]) -> Option<Request<'a, 'b>>
    ensures some { IfSome result (λ request.
        FitsArguments command (map (λ w. w.now) arguments.now) (order_of request)) }
    ensures none { IfNone result ((order : BoardOrder)
        → ¬ FitsArguments command (map (λ w. w.now) arguments.now) order) }
{
    match command {
        Command::Basic(command) => fit_basic(command, arguments),
        Command::Analyse(command) => fit_analysis(command, arguments),
    }
}

/// What words ask for.
pub fn read_asked<'a, 'b>(words: &'b [&'a [u8]]) -> Asked<'a, 'b>
    ensures { Asks (map (λ w. w.now) words.now) (asked_of result) }
{
    let [word, arguments @ ..] = words else {
        return Asked::Unknown;
    };
    let Some(command) = read_command(word) else {
        return Asked::Unknown;
    };
    match fit(command, arguments) {
        Some(request) => Asked::Something(request),
        None => Asked::Misfit,
    }
}
