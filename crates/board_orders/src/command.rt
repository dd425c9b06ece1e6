//! The commands.

ghost use Rattle.std.specs.Prelude.{◌≡◌, ◌≢◌, IfSome, IfNone};
ghost use Rattle.board_orders.specs.Orders.{analysis_word, basic_word, command_word};
ghost use Rattle.board_orders.specs.declared.command.AnalysisCommand.{AnalysisCommand};
ghost use Rattle.board_orders.specs.declared.command.BasicCommand.{BasicCommand};
ghost use Rattle.board_orders.specs.declared.command.Command.{Command};
ghost use Rattle.board_orders.specs.inner.Naming.{NamesNone, play_commands, protocol_commands, setting_commands, state_commands};

use std::str;

/// The commands that ask for no analysis.
#[derive(Clone, Copy)]
pub(crate) enum BasicCommand {
    ProtocolVersion,
    Name,
    Version,
    KnownCommand,
    ListCommands,
    Quit,
    BoardSize,
    ClearBoard,
    Komi,
    Play,
    GenMove,
    RegGenMove,
    LoadSgf,
    Undo,
    ShowBoard,
    ListStones,
    Captures,
    MoveHistory,
    QueryBoardSize,
    GetKomi,
    GetHandicap,
    FixedHandicap,
    SetFreeHandicap,
    Level,
    TimeSettings,
    TimeLeft,
}

/// The commands that ask for an analysis.
#[derive(Clone, Copy)]
pub(crate) enum AnalysisCommand {
    TopMovesBlack,
    TopMovesWhite,
    FinalScore,
    EstimateScore,
    FinalStatusList,
    Margin,
    Moves,
    Line,
    /// The analyses that GoGui offers.
    AnalyzeCommands,
}

/// The commands.
#[derive(Clone, Copy)]
pub(crate) enum Command {
    Basic(BasicCommand),
    Analyse(AnalysisCommand),
}

/// The command that a word names, of those on the protocol and the engine.
fn read_protocol(word: &str) -> Option<BasicCommand>
    ensures some { IfSome result (λ command. word.now ≡ basic_word command) }
    ensures none { IfNone result (NamesNone word.now protocol_commands) }
{
    match word {
        "protocol_version" => Some(BasicCommand::ProtocolVersion),
        "name" => Some(BasicCommand::Name),
        "version" => Some(BasicCommand::Version),
        "known_command" => Some(BasicCommand::KnownCommand),
        "list_commands" => Some(BasicCommand::ListCommands),
        "quit" => Some(BasicCommand::Quit),
        _ => None,
    }
}

/// The command that a word names, of those that set up, play or take back.
fn read_play(word: &str) -> Option<BasicCommand>
    ensures some { IfSome result (λ command. word.now ≡ basic_word command) }
    ensures none { IfNone result (NamesNone word.now play_commands) }
{
    match word {
        "boardsize" => Some(BasicCommand::BoardSize),
        "clear_board" => Some(BasicCommand::ClearBoard),
        "komi" => Some(BasicCommand::Komi),
        "play" => Some(BasicCommand::Play),
        "genmove" => Some(BasicCommand::GenMove),
        "reg_genmove" => Some(BasicCommand::RegGenMove),
        "loadsgf" => Some(BasicCommand::LoadSgf),
        "undo" => Some(BasicCommand::Undo),
        _ => None,
    }
}

/// The command that a word names, of those that ask for a part of the state.
fn read_state(word: &str) -> Option<BasicCommand>
    ensures some { IfSome result (λ command. word.now ≡ basic_word command) }
    ensures none { IfNone result (NamesNone word.now state_commands) }
{
    match word {
        "showboard" => Some(BasicCommand::ShowBoard),
        "list_stones" => Some(BasicCommand::ListStones),
        "captures" => Some(BasicCommand::Captures),
        "move_history" => Some(BasicCommand::MoveHistory),
        "query_boardsize" => Some(BasicCommand::QueryBoardSize),
        "get_komi" => Some(BasicCommand::GetKomi),
        "get_handicap" => Some(BasicCommand::GetHandicap),
        _ => None,
    }
}

/// The command that a word names, of those on handicap stones, the level and time.
fn read_setting(word: &str) -> Option<BasicCommand>
    ensures some { IfSome result (λ command. word.now ≡ basic_word command) }
    ensures none { IfNone result (NamesNone word.now setting_commands) }
{
    match word {
        "fixed_handicap" => Some(BasicCommand::FixedHandicap),
        "set_free_handicap" => Some(BasicCommand::SetFreeHandicap),
        "level" => Some(BasicCommand::Level),
        "time_settings" => Some(BasicCommand::TimeSettings),
        "time_left" => Some(BasicCommand::TimeLeft),
        _ => None,
    }
}

/// The command that a word names, of those that ask for no analysis.
fn read_basic(word: &str) -> Option<BasicCommand>
    ensures some { IfSome result (λ command. word.now ≡ basic_word command) }
    ensures none { IfNone result ((command : BasicCommand) → word.now ≢ basic_word command) }
{
    if let Some(command) = read_protocol(word) {
        return Some(command);
    }
    if let Some(command) = read_play(word) {
        return Some(command);
    }
    if let Some(command) = read_state(word) {
        return Some(command);
    }
    read_setting(word)
}

/// The command that a word names, of those that ask for an analysis.
fn read_analysis(word: &str) -> Option<AnalysisCommand>
    ensures some { IfSome result (λ command. word.now ≡ analysis_word command) }
    ensures none { IfNone result ((command : AnalysisCommand)
        → word.now ≢ analysis_word command) }
{
    match word {
        "top_moves_black" => Some(AnalysisCommand::TopMovesBlack),
        "top_moves_white" => Some(AnalysisCommand::TopMovesWhite),
        "final_score" => Some(AnalysisCommand::FinalScore),
        "estimate_score" => Some(AnalysisCommand::EstimateScore),
        "final_status_list" => Some(AnalysisCommand::FinalStatusList),
        "gdsolve-margin" => Some(AnalysisCommand::Margin),
        "gdsolve-moves" => Some(AnalysisCommand::Moves),
        "gdsolve-line" => Some(AnalysisCommand::Line),
        "gogui-analyze_commands" => Some(AnalysisCommand::AnalyzeCommands),
        _ => None,
    }
}

/// The command that a name is.
fn read_name(name: &str) -> Option<Command>
    ensures some { IfSome result (λ command. name.now ≡ command_word command) }
    ensures none { IfNone result ((command : Command) → name.now ≢ command_word command) }
{
    if let Some(command) = read_basic(name) {
        return Some(Command::Basic(command));
    }
    match read_analysis(name) {
        Some(command) => Some(Command::Analyse(command)),
        None => None,
    }
}

/// The command that a word names.
#[tactic(auto, using(crate::proofs::NameLemmas::name_is_text))]
pub(crate) fn read_command(word: &[u8]) -> Option<Command>
    ensures some { IfSome result (λ command. word.now ≡ command_word command) }
    ensures none { IfNone result ((command : Command) → word.now ≢ command_word command) }
{
    match str::from_utf8(word) {
        Ok(name) => read_name(name),
        Err(_) => None,
    }
}
