//! Whether a sum of two games is at most another, with no recursion: comparisons that wait for others stand in a list.

ghost use Rattle.std.specs.Prelude.{◌≡◌, ◌<◌, List, length, IfOk, IfSome, IfNone, IsTrue, MatchOption};
ghost use Rattle.short_games.specs.Tree.{Tree, AreDistinct};
ghost use Rattle.game_canon.specs.SumComparisons.{Tells, AreSumsRight, AreStored};
ghost use Rattle.game_canon.specs.inner.SumComparisons.{recalled_sums, AreSameSums, AreFloors, AreCeilings, AreNumbers, AreOpen, Resists, HasResisted, IsSumStep};

use crate::sums::{
    Place, SumAnswers, SumPair, cancelled, counter_by, moves, next_place, recall_sums,
    remember_sums,
};
use game_store::{Bound, GameId, Store};
use std::alloc::{AllocError, Global};

/// A comparison that is gone on with. No move in a game before the place counters it, nor does one in the game at the place
/// to an id below `from`.
#[derive(Clone, Copy)]
pub(crate) struct SumQuestion {
    pair: SumPair,
    place: Place,
    from: GameId,
}

/// What going on with a comparison finds: its answer, or another one that has to come first, and where to go on then.
pub(crate) enum SumStep {
    Answer(bool),
    Ask { waiting: SumQuestion, pair: SumPair },
}

/// Whether both sums are of the same games.
fn is_same(pair: SumPair) -> bool
    ensures { IsTrue result → AreSameSums pair }
{
    if pair.first == pair.third {
        return pair.second == pair.fourth;
    }
    pair.first == pair.fourth && pair.second == pair.third
}

/// The sum of the floors of two games.
fn floor_sum(store: &Store, a: GameId, b: GameId) -> Bound
    requires a { a < length store.now }
    requires b { b < length store.now }
    ensures { AreFloors store.now a b result }
{
    store.floor(a).plus(store.floor(b))
}

/// The sum of the ceilings of two games.
fn ceiling_sum(store: &Store, a: GameId, b: GameId) -> Bound
    requires a { a < length store.now }
    requires b { b < length store.now }
    ensures { AreCeilings store.now a b result }
{
    store.ceiling(a).plus(store.ceiling(b))
}

/// The answer where floors and ceilings show it, as they do of numbers alone.
fn by_bounds(store: &Store, pair: SumPair) -> Option<bool>
    requires { AreStored store.now pair }
    ensures some { IfSome result (λ answer. Tells store.now pair answer) }
    ensures none { IfNone result (AreNumbers store.now pair → ⊥) }
{
    let low = floor_sum(store, pair.first, pair.second);
    let high = ceiling_sum(store, pair.first, pair.second);
    let other_low = floor_sum(store, pair.third, pair.fourth);
    let other_high = ceiling_sum(store, pair.third, pair.fourth);
    if high <= other_low {
        return Some(true);
    }
    if low <= other_high {
        return None;
    }
    Some(false)
}

/// The answer where it takes no further comparison.
fn known_sums(memo: &SumAnswers, store: &Store, pair: SumPair) -> Option<bool>
    requires ids { AreStored store.now pair }
    requires right { AreSumsRight store.now (recalled_sums memo.now) }
    ensures some { IfSome result (λ answer. Tells store.now pair answer) }
    ensures none { IfNone result (AreOpen store.now (recalled_sums memo.now) pair) }
{
    if is_same(pair) {
        return Some(true);
    }
    if let Some(answer) = by_bounds(store, pair) {
        return Some(answer);
    }
    recall_sums(memo, pair)
}

/// What the moves in the game at a question's place show: that one of them counters, or a comparison that has to come first.
/// None where none of them counters.
fn tried(memo: &SumAnswers, store: &Store, question: SumQuestion) -> Option<SumStep>
    requires ids { AreStored store.now question.pair }
    requires distinct { AreDistinct store.now }
    requires right { AreSumsRight store.now (recalled_sums memo.now) }
    requires resisted { HasResisted store.now question }
    ensures { MatchOption result (Resists store.now question.pair question.place)
        (λ step. IsSumStep store.now (recalled_sums memo.now) question.pair step) }
{
    let options = moves(store, question.pair, question.place);
    'options: for option in options {
        if *option < question.from {
            continue;
        }
        let counter = cancelled(counter_by(question.pair, question.place, *option));
        match known_sums(memo, store, counter) {
            None => {
                let waiting = SumQuestion {
                    from: *option,
                    ..question
                };
                return Some(SumStep::Ask {
                    waiting,
                    pair: counter,
                });
            }
            Some(true) => return Some(SumStep::Answer(false)),
            Some(false) => {}
        }
    }
    None
}

/// Goes on with a comparison as far as answers are known, from the move at which it had to wait.
fn go_on_with_sums(memo: &SumAnswers, store: &Store, question: SumQuestion) -> SumStep
    requires open { AreOpen store.now (recalled_sums memo.now) question.pair }
    requires right { AreSumsRight store.now (recalled_sums memo.now) }
    requires resisted { HasResisted store.now question }
    ensures { IsSumStep store.now (recalled_sums memo.now) question.pair result }
{
    let _count = store.len();
    let mut current = question;
    'places: loop {
        if let Some(step) = tried(memo, store, current) {
            return step;
        }
        let Some(place) = next_place(current.place) else {
            return SumStep::Answer(true);
        };
        current = SumQuestion {
            place,
            from: 0,
            ..current
        };
    }
}

/// A comparison of which no move was tried yet.
fn begun(pair: SumPair) -> SumQuestion
    ensures pair { result.pair ≡ pair }
    ensures resisted { (Ts : List Tree) → HasResisted Ts result }
{
    SumQuestion {
        pair,
        place: Place::First,
        from: 0,
    }
}

/// Whether the sum of a pair's first two games is at most that of the others. What is found out on the way is remembered.
pub(crate) fn sums_at_most(
    alloc: Global,
    memo: &mut SumAnswers,
    store: &Store,
    pair: SumPair,
) -> Result<bool, AllocError>
    requires ids { AreStored store.now pair }
    requires right { AreSumsRight store.now (recalled_sums memo.old) }
    ensures answer { IfOk result (λ answer. Tells store.now pair answer) }
    ensures right { AreSumsRight store.now (recalled_sums memo.new) }
{
    if let Some(answer) = known_sums(memo, store, pair) {
        return Ok(answer);
    }
    let mut waiting = Vec::new(alloc);
    let mut question = begun(pair);
    'asking: loop {
        match go_on_with_sums(memo, store, question) {
            SumStep::Ask {
                waiting: rest,
                pair: next,
            } => {
                waiting.push(rest)?;
                question = begun(next);
                continue;
            }
            SumStep::Answer(answer) => {
                remember_sums(memo, question.pair, answer)?;
                match waiting.pop() {
                    Some(next) => question = next,
                    None => return Ok(answer),
                }
            }
        }
    }
}
