//! Which moves in a sum need not be tried, since one in another game is better, or as good and in an earlier one.

ghost use Rattle.std.specs.Prelude.{◌≡◌, ◌<◌, ◌↔◌, List, length, Contains, IsTrue, IfSome, ◌⊎◌};
ghost use Rattle.short_games.specs.Tree.{Tree, Has, tree_at};
ghost use Rattle.game_store.specs.Meaning.{pick, AreIds, AreBelow};
ghost use Rattle.sum_outcome.specs.inner.Search.{IsMove, StoodBefore};
ghost use Rattle.sum_outcome.specs.Incentives.{AreStoredMoves, IsAtLeast};
ghost use Rattle.sum_outcome.specs.inner.Incentives.{IsKnownRight, turned, IsAsGood, HasPreferred, IsDominated};
ghost use Rattle.sum_outcome.specs.inner.Memo.{AreKept, NoneIsNew};
ghost use Rattle.sum_outcome.specs.declared.incentives.MovePair.{MovePair};

use game_canon::{SumComparisons, compare_incentives};
use game_store::{Form, GameId, Store};
use go_grid::Colour;
use lru::LruCache;
use std::alloc::Global;

/// Two moves: from a game to an option, and from another game to an option of that.
#[derive(Clone, Copy, PartialEq, Eq, Hash)]
pub(crate) struct MovePair {
    pub(crate) game: GameId,
    pub(crate) option: GameId,
    pub(crate) other: GameId,
    pub(crate) other_option: GameId,
}

/// For pairs of moves, whether the incentive of the first is at least that of the second.
type Answers = LruCache<MovePair, bool>;

/// What is known of incentives: answers, of which the latest that were used stay, and comparisons of sums, which tell the
/// next ones sooner.
#[derive(Drop)]
pub(crate) struct Incentives {
    pub(crate) answers: Answers,
    pub(crate) comparisons: SumComparisons,
}

/// The answer for a pair, if it is remembered.
fn recall_incentive(answers: &mut Answers, pair: MovePair) -> Option<bool>
    ensures found { IfSome result (λ answer. Contains answers.old.entries (pair, answer)) }
    ensures kept { NoneIsNew answers.old.entries answers.new.entries }
    ensures cap { answers.new.cap ≡ answers.old.cap }
{
    answers.get(&pair).copied()
}

/// The older half of the answers gives way.
fn shed_answers(answers: &mut Answers)
    ensures kept { NoneIsNew answers.old.entries answers.new.entries }
    ensures cap { answers.new.cap ≡ answers.old.cap }
{
    let most = answers.len() / 2;
    'shedding: while answers.len() > most {
        let _oldest = answers.pop_lru();
    }
}

/// Remembers the answer for a pair. Where memory is wanting the older half gives way, and where that isn't enough it is left
/// out.
fn remember_incentive(answers: &mut Answers, pair: MovePair, answer: bool)
    ensures kept { AreKept (λ p q. p ≡ q) answers.old.entries pair answer answers.new.entries }
    ensures cap { answers.new.cap ≡ answers.old.cap }
{
    match answers.put(pair, answer) {
        Ok(_) => {}
        Err(_) => {
            shed_answers(answers);
            let _kept = answers.put(pair, answer);
        }
    }
}

/// Whether the incentive of the first of two moves is at least that of the second, by the comparisons alone, unless memory is
/// wanting.
fn compared(alloc: Global, store: &Store, known: &mut Incentives, pair: MovePair) -> Option<bool>
    requires ids { AreStoredMoves store.now pair }
    requires right { IsKnownRight store.now known.old }
    ensures answer { IfSome result (λ answer. IsTrue answer ↔ IsAtLeast store.now pair) }
    ensures right { IsKnownRight store.now known.new }
    ensures cap { known.new.answers.cap ≡ known.old.answers.cap }
{
    let Ok(answer) = compare_incentives(
        alloc,
        &mut known.comparisons,
        store,
        pair.game,
        pair.option,
        pair.other,
        pair.other_option,
    ) else {
        return None;
    };
    Some(answer)
}

/// Forgets what may be found out anew: all comparisons, and the older half of the answers.
fn make_way(alloc: Global, known: &mut Incentives)
    ensures right { (Ts : List Tree) → IsKnownRight Ts known.old → IsKnownRight Ts known.new }
    ensures cap { known.new.answers.cap ≡ known.old.answers.cap }
{
    known.comparisons = SumComparisons::new(alloc);
    shed_answers(&mut known.answers);
}

/// Whether the incentive of the first of two moves is at least that of the second, found out by the comparisons. Where memory
/// is wanting what is known gives way once.
fn found_out(alloc: Global, store: &Store, known: &mut Incentives, pair: MovePair) -> Option<bool>
    requires ids { AreStoredMoves store.now pair }
    requires right { IsKnownRight store.now known.old }
    ensures answer { IfSome result (λ answer. IsTrue answer ↔ IsAtLeast store.now pair) }
    ensures right { IsKnownRight store.now known.new }
    ensures cap { known.new.answers.cap ≡ known.old.answers.cap }
{
    if let Some(answer) = compared(alloc, store, known, pair) {
        return Some(answer);
    }
    make_way(alloc, known);
    compared(alloc, store, known, pair)
}

/// Whether the incentive of the first of two moves is at least that of the second, unless memory is wanting.
pub(crate) fn is_at_least(
    alloc: Global,
    store: &Store,
    known: &mut Incentives,
    pair: MovePair,
) -> Option<bool>
    requires ids { AreStoredMoves store.now pair }
    requires right { IsKnownRight store.now known.old }
    ensures answer { IfSome result (λ answer. IsTrue answer ↔ IsAtLeast store.now pair) }
    ensures right { IsKnownRight store.now known.new }
    ensures cap { known.new.answers.cap ≡ known.old.answers.cap }
{
    if let Some(answer) = recall_incentive(&mut known.answers, pair) {
        return Some(answer);
    }
    let answer = found_out(alloc, store, known, pair)?;
    remember_incentive(&mut known.answers, pair, answer);
    Some(answer)
}

/// The moves of a pair in the other order.
fn turned(pair: MovePair) -> MovePair
    ensures { result ≡ turned pair }
{
    MovePair {
        game: pair.other,
        option: pair.other_option,
        other: pair.game,
        other_option: pair.option,
    }
}

/// Whether the first of two moves is as good for the player as the second, unless memory is wanting. Right wants the small
/// incentive.
fn is_as_good(
    alloc: Global,
    store: &Store,
    known: &mut Incentives,
    pair: MovePair,
    side: Colour,
) -> Option<bool>
    requires ids { AreStoredMoves store.now pair }
    requires right { IsKnownRight store.now known.old }
    ensures answer { IfSome result (λ answer. IsTrue answer ↔ IsAsGood store.now side pair) }
    ensures right { IsKnownRight store.now known.new }
    ensures cap { known.new.answers.cap ≡ known.old.answers.cap }
{
    match side {
        Colour::Black => is_at_least(alloc, store, known, pair),
        Colour::White => is_at_least(alloc, store, known, turned(pair)),
    }
}

/// Whether the first of two moves is known to be better for the player than the second, or as good where its game stands
/// earlier.
fn is_preferred(
    alloc: Global,
    store: &Store,
    known: &mut Incentives,
    pair: MovePair,
    side: Colour,
    earlier: bool,
) -> bool
    requires ids { AreStoredMoves store.now pair }
    requires right { IsKnownRight store.now known.old }
    ensures good { IsTrue result → IsAsGood store.now side pair }
    ensures better { IsTrue result → IsTrue earlier ⊎ (IsAsGood store.now side (turned pair) → ⊥) }
    ensures right { IsKnownRight store.now known.new }
    ensures cap { known.new.answers.cap ≡ known.old.answers.cap }
{
    let Some(true) = is_as_good(alloc, store, known, pair, side) else {
        return false;
    };
    if earlier {
        return true;
    }
    let Some(false) = is_as_good(alloc, store, known, turned(pair), side) else {
        return false;
    };
    true
}

/// Whether the game at a place stands at an earlier one too.
pub(crate) fn is_repeated(sum: &[GameId], place: usize) -> bool
    requires { place < length sum.now }
    ensures { IsTrue result ↔ StoodBefore sum.now place }
{
    sum[..place].contains(&sum[place])
}

/// A player's options of a game, and none of a number.
pub(crate) fn moves(store: &Store, id: GameId, side: Colour) -> &[GameId]
    requires { id < length store.now }
    ensures below { AreBelow id result.now }
    ensures options { (X : Tree) → Has (pick store.now result.now) X ↔ IsMove
        (tree_at store.now id) side X }
{
    match (store.node(id), side) {
        (Form::Number(_), _) => &[],
        (Form::Options { left, .. }, Colour::Black) => left,
        (Form::Options { right, .. }, Colour::White) => right,
    }
}

/// Whether some move of a player in a game is known to be better than one in another game, or as good where its game stands
/// earlier.
fn has_preferred(
    alloc: Global,
    store: &Store,
    known: &mut Incentives,
    game: GameId,
    other: GameId,
    other_option: GameId,
    side: Colour,
    earlier: bool,
) -> bool
    requires game { game < length store.now }
    requires other { other < length store.now }
    requires other_option { other_option < length store.now }
    requires right { IsKnownRight store.now known.old }
    ensures answer { IsTrue result → HasPreferred store.now side game (tree_at store.now other)
        (tree_at store.now other_option) (IsTrue earlier) }
    ensures right { IsKnownRight store.now known.new }
    ensures cap { known.new.answers.cap ≡ known.old.answers.cap }
{
    let options = moves(store, game, side);
    'options: for option in options {
        let pair = MovePair {
            game,
            option: *option,
            other,
            other_option,
        };
        if is_preferred(alloc, store, known, pair, side, earlier) {
            return true;
        }
    }
    false
}

/// Whether some move of a player in another game of the sum is known to be better than one in the game at a place, or as
/// good and in an earlier game.
pub(crate) fn is_dominated(
    alloc: Global,
    store: &Store,
    known: &mut Incentives,
    sum: &[GameId],
    place: usize,
    option: GameId,
    side: Colour,
) -> bool
    requires ids { AreIds store.now sum.now }
    requires place { place < length sum.now }
    requires option { option < length store.now }
    requires right { IsKnownRight store.now known.old }
    ensures answer { IsTrue result → IsDominated store.now sum.now side place
        (tree_at store.now option) }
    ensures right { IsKnownRight store.now known.new }
    ensures cap { known.new.answers.cap ≡ known.old.answers.cap }
{
    let game = sum[place];
    'rivals: for rival in 0..sum.len() {
        if is_repeated(sum, rival) || sum[rival] == game {
            continue;
        }
        let earlier = rival < place;
        if has_preferred(alloc, store, known, sum[rival], game, option, side, earlier) {
            return true;
        }
    }
    false
}
