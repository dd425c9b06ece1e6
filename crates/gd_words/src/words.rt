//! The grammar of the command line.

ghost use Rattle.std.specs.Prelude.{◌≡◌, ◌↔◌, true, codes, IfOk, IfSome, IfNone, OnErr};
ghost use Rattle.gd_words.specs.Bounds.{IsInRanges};
ghost use Rattle.gd_words.specs.Job.{AreChoices, IsOnlyJob, SayNoJob, TaxTerritory};
ghost use Rattle.gd_words.specs.inner.Reading.{IsJobOf};
ghost use Rattle.gd_words.specs.Viewed.{task_of, texts, viewed};
ghost use Rattle.gd_words.specs.declared.chosen.Chosen.{Chosen};

use crate::chosen::read_choices;
use crate::job::{Command, Job, read_command};
use thiserror::Error;

/// The words are none of the command line's grammar.
#[derive(Clone, Copy, Debug, PartialEq, Eq, Error)]
#[error("usage")]
pub struct Usage;

/// Whether a word asks for the engine.
fn is_engine(word: &str) -> bool
    ensures { (result ≡ true) ↔ (word.now ≡ codes "gtp") }
{
    word == "gtp"
}

/// The job of a command whose options the words are.
fn read_options<'a>(command: Command<'a>, words: &[&str]) -> Option<Job<'a>>
    ensures job { IfSome result (λ job. IsJobOf (task_of command.entry) (texts words.now)
        (viewed job)) }
    ensures none { IfNone result ((chosen : Chosen)
        → AreChoices (task_of command.entry) (texts words.now) chosen → TaxTerritory chosen) }
{
    let chosen = read_choices(&command, words)?;
    if chosen.taxes_territory() {
        return None;
    }
    Some(chosen.job(command))
}

fn read_job<'a>(words: &[&'a str]) -> Option<Job<'a>>
    ensures job { IfSome result (λ job. IsOnlyJob (texts words.now) (viewed job)) }
    ensures bounds { IfSome result (λ job. IsInRanges (viewed job)) }
    ensures none { IfNone result (SayNoJob (texts words.now)) }
{
    let [word, behind @ ..] = words else {
        return None;
    };
    if is_engine(word) {
        return read_options(Command::Gtp, behind);
    }
    let [argument, rest @ ..] = behind else {
        return None;
    };
    let command = read_command(word, argument)?;
    read_options(command, rest)
}

/// The job that the words of a command line say: `solve`, `safe`, `values`, `board`, `margin`, `moves`, `line` or `play` with a file and
/// options, each a name and a value, but not both `--tax yes` and `--territory yes`; `trial` with a number; `calc` with an expression and
/// options; or `gtp` with options. `Usage` comes exactly where the words have no such form.
pub fn read<'a>(words: &[&'a str]) -> Result<Job<'a>, Usage>
    ensures job { IfOk result (λ job. IsOnlyJob (texts words.now) (viewed job)) }
    ensures bounds { IfOk result (λ job. IsInRanges (viewed job)) }
    ensures usage { OnErr result (SayNoJob (texts words.now)) }
{
    read_job(words).ok_or(Usage)
}
