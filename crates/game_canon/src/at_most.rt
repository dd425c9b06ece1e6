//! Whether a game is at most another, with no recursion: comparisons that wait for others stand in a list.

ghost use Rattle.std.specs.Prelude.{◌≡◌, ◌<◌, ◌≤◌, ◌+◌, ℕ, ℤ, List, length, Bool, false, IfOk, IfSome, IfNone};
ghost use Rattle.short_games.specs.Number.{IsNumberTree};
ghost use Rattle.game_canon.specs.inner.Games.{trees, AreGames};
ghost use Rattle.short_games.specs.Tree.{tree_at};
ghost use Rattle.game_canon.specs.Comparisons.{SaysAtMost, AreRight};
ghost use Rattle.game_canon.specs.inner.Comparisons.{recalled, IsOpen, counter, NoneCounters, IsStep};

use crate::comparisons::{Comparisons, recall, recall_near, remember};
use crate::games::{Games, ceiling, floor, left_options, right_options};
use game_store::GameId;
use std::alloc::{AllocError, Global};

/// Whether `game` is at most `other`. Of the comparisons on which that rests, those before `place` don't counter it.
#[derive(Clone, Copy)]
pub(crate) struct Question {
    game: GameId,
    other: GameId,
    place: usize,
}

/// What going on with a question finds: its answer, or the comparison at a place, which has to come first.
pub(crate) enum Step {
    Answer(bool),
    Ask {
        place: usize,
        game: GameId,
        other: GameId,
    },
}

/// The answer where numbers between or beside the two forms show it, as they do wherever one of the two is a number.
fn by_numbers(games: &Games<'_>, a: GameId, b: GameId) -> Option<bool>
    requires games { AreGames games.now }
    requires a { a < length (trees games.now) }
    requires b { b < length (trees games.now) }
    ensures some { IfSome result (λ answer. SaysAtMost (trees games.now) a b answer) }
    ensures first_form { IfNone result (IsNumberTree (tree_at (trees games.now) a) → ⊥) }
    ensures second_form { IfNone result (IsNumberTree (tree_at (trees games.now) b) → ⊥) }
{
    let low = floor(games, a);
    let other_low = floor(games, b);
    if low > other_low {
        return Some(false);
    }
    let high = ceiling(games, a);
    if high <= other_low {
        return Some(true);
    }
    if high > ceiling(games, b) {
        return Some(false);
    }
    None
}

/// The answer where it rests on no other comparison, as wherever one of the two is a number.
fn settled(games: &Games<'_>, a: GameId, b: GameId) -> Option<bool>
    requires games { AreGames games.now }
    requires a { a < length (trees games.now) }
    requires b { b < length (trees games.now) }
    ensures some { IfSome result (λ answer. SaysAtMost (trees games.now) a b answer) }
    ensures first_form { IfNone result (IsNumberTree (tree_at (trees games.now) a) → ⊥) }
    ensures second_form { IfNone result (IsNumberTree (tree_at (trees games.now) b) → ⊥) }
{
    if a == b {
        return Some(true);
    }
    by_numbers(games, a, b)
}

/// The answer where it takes no further comparison.
fn known(memo: &Comparisons, games: &Games<'_>, a: GameId, b: GameId) -> Option<bool>
    requires games { AreGames games.now }
    requires a { a < length (trees games.now) }
    requires b { b < length (trees games.now) }
    requires right { AreRight (trees games.now) (recalled memo.now) }
    ensures some { IfSome result (λ answer. SaysAtMost (trees games.now) a b answer) }
    ensures none { IfNone result (IsOpen (trees games.now) (recalled memo.now) a b) }
{
    if let Some(answer) = recall_near(memo, a, b) {
        return Some(answer);
    }
    if let Some(answer) = recall_near(games.earlier, a, b) {
        return Some(answer);
    }
    if let Some(answer) = settled(games, a, b) {
        return Some(answer);
    }
    if let Some(answer) = recall(memo, a, b) {
        return Some(answer);
    }
    recall(games.earlier, a, b)
}

/// The comparison at a place among those on which a question rests.
fn counter_at(
    question: Question,
    left: &[GameId],
    right: &[GameId],
    place: usize,
) -> (GameId, GameId)
    requires { place < length left.now + length right.now }
    ensures { result ≡ counter question.game question.other left.now right.now place }
{
    if place < left.len() {
        return (question.other, left[place]);
    }
    (right[place - left.len()], question.game)
}

/// Goes on with a question as far as answers are known.
fn go_on(memo: &Comparisons, games: &Games<'_>, question: Question) -> Step
    requires games { AreGames games.now }
    requires open { IsOpen (trees games.now) (recalled memo.now) question.game question.other }
    requires right { AreRight (trees games.now) (recalled memo.now) }
    requires so_far { NoneCounters (trees games.now) question.game question.other question.place }
    ensures { IsStep (trees games.now) (recalled memo.now) question result }
{
    let left = left_options(games, question.game);
    let right = right_options(games, question.other);
    let mut place = question.place;
    'counters: while place < left.len() + right.len() {
        let (game, other) = counter_at(question, left, right, place);
        match known(memo, games, game, other) {
            None => return Step::Ask { place, game, other },
            Some(true) => return Step::Answer(false),
            Some(false) => {}
        }
        place += 1;
    }
    Step::Answer(true)
}

/// Whether the game of `a` is at most that of `b`. What was found out on the way is remembered.
pub(crate) fn at_most(
    alloc: Global,
    memo: &mut Comparisons,
    games: &Games<'_>,
    a: GameId,
    b: GameId,
) -> Result<bool, AllocError>
    requires games { AreGames games.now }
    requires a { a < length (trees games.now) }
    requires b { b < length (trees games.now) }
    requires right { AreRight (trees games.now) (recalled memo.old) }
    ensures answer { IfOk result (λ answer. SaysAtMost (trees games.now) a b answer) }
    ensures right { AreRight (trees games.now) (recalled memo.new) }
{
    if let Some(answer) = known(memo, games, a, b) {
        return Ok(answer);
    }
    let mut waiting = Vec::new(alloc);
    let mut question = Question {
        game: a,
        other: b,
        place: 0,
    };
    'asking: loop {
        match go_on(memo, games, question) {
            Step::Ask { place, game, other } => {
                waiting.push(Question { place, ..question })?;
                question = Question {
                    game,
                    other,
                    place: 0,
                };
                continue;
            }
            Step::Answer(answer) => {
                remember(memo, question.game, question.other, answer)?;
                match waiting.pop() {
                    Some(next) => question = next,
                    None => return Ok(answer),
                }
            }
        }
    }
}
