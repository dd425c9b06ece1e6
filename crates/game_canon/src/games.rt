//! The games that are compared: those of a store and, while a form is reduced, that form beside them.

ghost use Rattle.std.specs.Prelude.{◌≡◌, ◌<◌, ℕ, ℤ, List, false, IfSome, IfNone, Some, length, IsTrue};
ghost use Rattle.short_games.specs.Number.{IsNumberTree, number_tree};
ghost use Rattle.short_games.specs.Threshold.{IsFloor, IsCeiling};
ghost use Rattle.short_games.specs.Tree.{tree_at};
ghost use Rattle.game_store.specs.Forms.{IsOptions};
ghost use Rattle.game_canon.specs.Comparisons.{AreRight};
ghost use Rattle.game_canon.specs.inner.Comparisons.{recalled};
ghost use Rattle.game_canon.specs.inner.Games.{trees, AreGames};
ghost use Rattle.game_canon.specs.declared.games.Unstored.{Unstored};

use crate::comparisons::Comparisons;
use dyadic_num::EXPONENT;
use game_store::{Bound, Form, GameId, Store};

/// Where a form stands among the numbers.
#[derive(Clone, Copy)]
pub(crate) struct Standing {
    pub(crate) floor: Bound,
    pub(crate) ceiling: Bound,
}

/// A form that isn't stored and is no number: its options, which ascend, and where it stands.
#[derive(Clone, Copy)]
pub(crate) struct Unstored<'a> {
    pub(crate) left: &'a [GameId],
    pub(crate) right: &'a [GameId],
    pub(crate) standing: &'a Standing,
}

/// The games of a store and, where there is one, of a form beside it, which has the store's length for its id.
#[derive(Clone, Copy)]
pub(crate) struct Games<'a> {
    pub(crate) store: &'a Store,
    pub(crate) unstored: Option<Unstored<'a>>,
    /// What was found out earlier of the store's games.
    pub(crate) earlier: &'a Comparisons,
}

/// The games of a store alone.
pub(crate) fn games_of<'a>(store: &'a Store, earlier: &'a Comparisons) -> Games<'a>
    requires { AreRight store.now (recalled earlier.now) }
    ensures known { AreGames result }
    ensures store { result.store.now ≡ store.now }
    ensures trees { trees result ≡ store.now }
{
    let _count = store.len();
    Games {
        store,
        unstored: None,
        earlier,
    }
}

/// The games of a store and of a form beside it, with its options and where it stands.
pub(crate) fn games_beside<'a>(
    store: &'a Store,
    earlier: &'a Comparisons,
    left: &'a [GameId],
    right: &'a [GameId],
    standing: &'a Standing,
) -> Games<'a>
    ensures store { result.store.now ≡ store.now }
    ensures earlier { result.earlier.now ≡ earlier.now }
    ensures form { (u : Unstored) × (result.unstored ≡ Some u) × (u.left.now ≡ left.now)
        × (u.right.now ≡ right.now) × (u.standing.now ≡ standing.now) }
{
    let form = Unstored {
        left,
        right,
        standing,
    };
    let unstored = Some(form);
    Games {
        store,
        unstored,
        earlier,
    }
}

/// The form beside the store, where the id is its.
fn unstored_of<'a>(games: &Games<'a>, id: GameId) -> Option<Unstored<'a>>
    requires { id < length (trees games.now) }
    ensures some { IfSome result (λ form. (games.now.unstored ≡ Some form)
        × (id ≡ length games.now.store.now)) }
    ensures none { IfNone result (id < length games.now.store.now) }
{
    if id < games.store.len() {
        return None;
    }
    games.unstored
}

/// The Left options of a form that is no number.
pub(crate) fn left_options<'a>(games: &Games<'a>, id: GameId) -> &'a [GameId]
    requires known { AreGames games.now }
    requires id { id < length (trees games.now) }
    requires form { IsNumberTree (tree_at (trees games.now) id) → ⊥ }
    ensures { (rs : List ℕ) × IsOptions (trees games.now) id result.now rs }
{
    if let Some(form) = unstored_of(games, id) {
        return form.left;
    }
    match games.store.node(id) {
        // A number is answered by its bound and has no options to ask for.
        Form::Number(_) => unreachable!(),
        Form::Options { left, .. } => left,
    }
}

/// The Right options of a form that is no number.
pub(crate) fn right_options<'a>(games: &Games<'a>, id: GameId) -> &'a [GameId]
    requires known { AreGames games.now }
    requires id { id < length (trees games.now) }
    requires form { IsNumberTree (tree_at (trees games.now) id) → ⊥ }
    ensures { (ls : List ℕ) × IsOptions (trees games.now) id ls result.now }
{
    if let Some(form) = unstored_of(games, id) {
        return form.right;
    }
    match games.store.node(id) {
        // A number is answered by its bound and has no options to ask for.
        Form::Number(_) => unreachable!(),
        Form::Options { right, .. } => right,
    }
}

/// The form's floor.
pub(crate) fn floor(games: &Games<'_>, id: GameId) -> Bound
    requires known { AreGames games.now }
    requires id { id < length (trees games.now) }
    ensures { IsFloor EXPONENT (tree_at (trees games.now) id) result }
{
    match unstored_of(games, id) {
        Some(form) => form.standing.floor,
        None => games.store.floor(id),
    }
}

/// The form's ceiling.
pub(crate) fn ceiling(games: &Games<'_>, id: GameId) -> Bound
    requires known { AreGames games.now }
    requires id { id < length (trees games.now) }
    ensures { IsCeiling EXPONENT (tree_at (trees games.now) id) result }
{
    match unstored_of(games, id) {
        Some(form) => form.standing.ceiling,
        None => games.store.ceiling(id),
    }
}
