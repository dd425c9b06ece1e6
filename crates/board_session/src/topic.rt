//! What analyses tell of games in which kos can arise.

ghost use Rattle.std.specs.Prelude.{◌≡◌};
ghost use Rattle.board_session.specs.Analysing.{cycle_topic};

use board_orders::Topic;

/// What a game in which kos can arise tells.
#[derive(Clone, Copy)]
pub(crate) enum CycleTopic {
    Margin,
    Moves,
}

/// The topic that a game with cycles tells, where they are admitted.
pub(crate) fn cycle_topic(cycles: bool, topic: Topic) -> Option<CycleTopic>
    ensures { result ≡ cycle_topic cycles topic }
{
    if !cycles {
        return None;
    }
    match topic {
        Topic::Margin => Some(CycleTopic::Margin),
        Topic::Moves => Some(CycleTopic::Moves),
        Topic::Best | Topic::Line | Topic::Score => None,
    }
}
