//! The options that a command line gives.

ghost use Rattle.std.specs.Prelude.{◌≡◌, ◌↔◌, true, None, IfSome, IfNone};
ghost use Rattle.gd_words.specs.inner.Reading.{IsWith};
ghost use Rattle.gd_words.specs.Job.{AreChoices, TaxTerritory, job_of};
ghost use Rattle.gd_words.specs.Viewed.{task_of, texts, viewed};
ghost use Rattle.gd_words.specs.declared.chosen.Chosen.{Chosen};

use crate::choice::{Choice, read_choice};
use crate::job::{Command, Job};
use go_grid::Colour;
use sgf_go::Settings;

/// The most positions of a region, where no option says it.
const DEFAULT_POSITIONS: u32 = 100_000;

/// The most parts of a form, where no option says it.
const DEFAULT_PARTS: u32 = 500;

/// The options that are given, each with its value.
#[derive(Clone, Copy, Default)]
pub(crate) struct Chosen {
    pub(crate) komi: Option<i64>,
    pub(crate) turn: Option<Colour>,
    pub(crate) after: Option<u32>,
    pub(crate) black_prisoners: Option<u32>,
    pub(crate) white_prisoners: Option<u32>,
    pub(crate) positions: Option<u32>,
    pub(crate) parts: Option<u32>,
    pub(crate) engine: Option<Colour>,
    pub(crate) tax: Option<bool>,
    pub(crate) territory: Option<bool>,
    pub(crate) cycles: Option<bool>,
    pub(crate) keep_board: Option<bool>,
}

impl Chosen {
    /// One option more, where it isn't given yet.
    fn with(mut self, choice: Choice) -> Option<Chosen>
        ensures some { IfSome result (λ more. IsWith self choice more) }
        ensures none { IfNone result ((more : Chosen) → ¬ IsWith self choice more) }
    {
        match choice {
            Choice::Komi(halves) if self.komi.is_none() => self.komi = Some(halves),
            Choice::Turn(colour) if self.turn.is_none() => self.turn = Some(colour),
            Choice::After(n) if self.after.is_none() => self.after = Some(n),
            Choice::BlackPrisoners(n) if self.black_prisoners.is_none() => self.black_prisoners =
                Some(n),
            Choice::WhitePrisoners(n) if self.white_prisoners.is_none() => self.white_prisoners =
                Some(n),
            Choice::Positions(n) if self.positions.is_none() => self.positions = Some(n),
            Choice::Parts(n) if self.parts.is_none() => self.parts = Some(n),
            Choice::Engine(colour) if self.engine.is_none() => self.engine = Some(colour),
            Choice::Tax(taxed) if self.tax.is_none() => self.tax = Some(taxed),
            Choice::Territory(declared) if self.territory.is_none() => self.territory = Some(
                declared,
            ),
            Choice::Cycles(admitted) if self.cycles.is_none() => self.cycles = Some(admitted),
            Choice::KeepBoard(kept) if self.keep_board.is_none() => self.keep_board = Some(kept),
            _ => return None,
        }
        Some(self)
    }

    /// Whether there is a tax on groups that would have to pay out of declared points.
    pub(crate) fn taxes_territory(&self) -> bool
        ensures { (result ≡ true) ↔ TaxTerritory self.now }
    {
        matches!((self.tax, self.territory), (Some(true), Some(true)))
    }

    /// The job of a command with these options. What they leave open has its default.
    pub(crate) fn job(self, command: Command<'_>) -> Job<'_>
        ensures { viewed result ≡ job_of (task_of command.entry) self }
    {
        let cycles = self.cycles.unwrap_or(false);
        Job {
            command: command.admitting(cycles),
            settings: Settings {
                after: self.after,
                komi: self.komi,
                turn: self.turn,
                black_prisoners: u64::from(self.black_prisoners.unwrap_or(0)),
                white_prisoners: u64::from(self.white_prisoners.unwrap_or(0)),
                territory: self.territory.unwrap_or(false),
            },
            positions: self.positions.unwrap_or(DEFAULT_POSITIONS),
            parts: self.parts.unwrap_or(DEFAULT_PARTS),
            engine: self.engine,
            tax: self.tax.unwrap_or(false),
            cycles,
            keep_board: self.keep_board.unwrap_or(false),
        }
    }
}

/// The options of a command that the words behind its first two give.
pub(crate) fn read_choices(command: &Command<'_>, words: &[&str]) -> Option<Chosen>
    ensures some { IfSome result (λ chosen. AreChoices (task_of command.now)
        (texts words.now) chosen) }
    ensures none { IfNone result ((chosen : Chosen)
        → ¬ AreChoices (task_of command.now) (texts words.now) chosen) }
{
    let mut chosen = Chosen::default();
    let mut left = words;
    'choosing: while let [name, value, more @ ..] = left {
        let choice = read_choice(name, value)?;
        if !command.takes(choice) {
            return None;
        }
        chosen = chosen.with(choice)?;
        left = more;
    }
    if left.is_empty() {
        return Some(chosen);
    }
    None
}
