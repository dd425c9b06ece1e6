//! The commands.

ghost use Rattle.std.specs.Prelude.{◌≡◌, ◌≢◌, IfSome, IfNone};
ghost use Rattle.gtp_engine.specs.Request.{command_word};
ghost use Rattle.gtp_engine.specs.declared.command.Command.{Command};

use std::str;

/// The commands.
#[derive(Clone, Copy)]
pub(crate) enum Command {
    ProtocolVersion,
    Name,
    Version,
    KnownCommand,
    ListCommands,
    BoardSize,
    ClearBoard,
    Komi,
    Play,
    GenMove,
    LoadSgf,
    Quit,
}

fn named(word: &str) -> Option<Command>
    ensures some { IfSome result (λ command. word.now ≡ command_word command) }
    ensures none { IfNone result ((command : Command) → word.now ≢ command_word command) }
{
    match word {
        "protocol_version" => Some(Command::ProtocolVersion),
        "name" => Some(Command::Name),
        "version" => Some(Command::Version),
        "known_command" => Some(Command::KnownCommand),
        "list_commands" => Some(Command::ListCommands),
        "boardsize" => Some(Command::BoardSize),
        "clear_board" => Some(Command::ClearBoard),
        "komi" => Some(Command::Komi),
        "play" => Some(Command::Play),
        "genmove" => Some(Command::GenMove),
        "loadsgf" => Some(Command::LoadSgf),
        "quit" => Some(Command::Quit),
        _ => None,
    }
}

/// The command that a word names.
#[tactic(auto, using(crate::proofs::NameLemmas::name_is_text))]
pub(crate) fn read_command(word: &[u8]) -> Option<Command>
    ensures some { IfSome result (λ command. word.now ≡ command_word command) }
    ensures none { IfNone result ((command : Command) → word.now ≢ command_word command) }
{
    match str::from_utf8(word) {
        Ok(name) => named(name),
        Err(_) => None,
    }
}
