//! What the words of a command line ask for.

ghost use Rattle.std.specs.Prelude.{◌≡◌, ◌↔◌, true, IfSome, IfNone};
ghost use Rattle.gd_words.specs.Task.{Task, AreFor, GoesWith, admitting};
ghost use Rattle.gd_words.specs.Viewed.{task_of};

use crate::choice::Choice;
use crate::value::read_count;
use go_grid::Colour;
use sgf_go::Settings;

/// A question about the position of a file, which one text answers.
#[derive(Clone, Copy)]
pub enum Question {
    /// Who wins, and by which move?
    Solve,
    /// Which chains are alive?
    Safe,
    /// What are the regions of play worth?
    Values,
    /// What is the position?
    Board,
    /// Up to which komi does Black win?
    Margin,
    /// Which moves win, and by how much?
    Moves,
    /// How does play go on?
    Line,
    /// The same where regions may have cycles.
    WithCycles(CycleQuestion),
}

/// A question about a position whose regions may have cycles.
#[derive(Clone, Copy, PartialEq, Eq)]
pub enum CycleQuestion {
    /// Who wins, with how many captures that return, and by which move?
    Solve,
    /// What are the regions of play worth to either player?
    Values,
    /// Up to which komi does Black win, and above which White?
    Margin,
    /// Which moves win, and by how much?
    Moves,
}

/// A command with its file, the number of its board, or its expression. The file `-` is the source, which `Play` never has. `Gtp`
/// has none of these.
#[derive(Clone, Copy, PartialEq, Eq)]
pub enum Command<'a> {
    Solve(&'a str),
    Safe(&'a str),
    Values(&'a str),
    Board(&'a str),
    Margin(&'a str),
    Moves(&'a str),
    Line(&'a str),
    /// A question about a file's position whose regions may have cycles.
    WithCycles(CycleQuestion, &'a str),
    Play(&'a str),
    Trial(u32),
    Calc(&'a str),
    Gtp,
}

/// A command and what its options set.
#[derive(Clone, Copy, PartialEq, Eq)]
pub struct Job<'a> {
    pub command: Command<'a>,
    /// What is set beside the file.
    pub settings: Settings,
    /// The most positions of a region.
    pub positions: u32,
    /// The most parts of a form.
    pub parts: u32,
    /// The colour that the engine plays, where one is given.
    pub engine: Option<Colour>,
    /// Whether there is a tax of two points for each group.
    pub tax: bool,
    /// Whether regions may have cycles.
    pub cycles: bool,
    /// Whether the engine keeps a board.
    pub keep_board: bool,
}

/// The command that two words ask for.
pub(crate) fn read_command<'a>(word: &str, argument: &'a str) -> Option<Command<'a>>
    ensures some { IfSome result (λ command. AreFor word.now argument.now (task_of command)) }
    ensures none { IfNone result ((task : Task) → ¬ AreFor word.now argument.now task) }
{
    match word {
        "trial" => Some(Command::Trial(read_count(0, u32::MAX, argument)?)),
        _ if argument.is_empty() => None,
        "solve" => Some(Command::Solve(argument)),
        "safe" => Some(Command::Safe(argument)),
        "values" => Some(Command::Values(argument)),
        "board" => Some(Command::Board(argument)),
        "margin" => Some(Command::Margin(argument)),
        "moves" => Some(Command::Moves(argument)),
        "line" => Some(Command::Line(argument)),
        "play" if argument != "-" => Some(Command::Play(argument)),
        "calc" => Some(Command::Calc(argument)),
        _ => None,
    }
}

impl<'a> Command<'a> {
    /// The command where regions may have cycles, if they are admitted.
    pub(crate) fn admitting(self, cycles: bool) -> Command<'a>
        ensures { task_of result ≡ admitting cycles (task_of self.entry) }
    {
        match self {
            Command::Solve(word) if cycles => Command::WithCycles(CycleQuestion::Solve, word),
            Command::Values(word) if cycles => Command::WithCycles(CycleQuestion::Values, word),
            Command::Margin(word) if cycles => Command::WithCycles(CycleQuestion::Margin, word),
            Command::Moves(word) if cycles => Command::WithCycles(CycleQuestion::Moves, word),
            command => command,
        }
    }
}

impl Command<'_> {
    /// Whether an option goes with the command.
    pub(crate) fn takes(&self, choice: Choice) -> bool
        ensures { (result ≡ true) ↔ GoesWith (task_of self.now) choice }
    {
        match self {
            Command::Solve(_)
            | Command::Values(_)
            | Command::Margin(_)
            | Command::Moves(_)
            | Command::WithCycles(_, _) => {
                !matches!(choice, Choice::Engine(_) | Choice::KeepBoard(_))
            }
            Command::Line(_) => !matches!(
                choice,
                Choice::Engine(_) | Choice::Cycles(_) | Choice::KeepBoard(_)
            ),
            Command::Safe(_) | Command::Board(_) => !matches!(
                choice,
                Choice::Engine(_)
                    | Choice::Positions(_)
                    | Choice::Parts(_)
                    | Choice::Tax(_)
                    | Choice::Cycles(_)
                    | Choice::KeepBoard(_)
            ),
            Command::Play(_) => !matches!(choice, Choice::KeepBoard(_)),
            Command::Trial(_) => false,
            Command::Calc(_) => matches!(choice, Choice::Parts(_)),
            Command::Gtp => matches!(
                choice,
                Choice::Positions(_)
                    | Choice::Parts(_)
                    | Choice::Territory(_)
                    | Choice::Cycles(_)
                    | Choice::KeepBoard(_)
            ),
        }
    }
}
