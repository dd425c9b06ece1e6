//! What earlier positions of a graph needed: sums of games and stones, and the canonical forms of options.

ghost use Rattle.std.specs.Prelude.{ℕ, ◌≡◌, ◌<◌, List, length, IfOk, IfErr, OnOk};
ghost use Rattle.go_grid.specs.declared.grid.Colour.TheVariants.{Black, White};
ghost use Rattle.short_games.specs.Tree.{Tree, tree_at};
ghost use Rattle.short_games.specs.Sum.{◌+ᵍ◌};
ghost use Rattle.short_games.specs.Number.{number_tree};
ghost use Rattle.game_store.specs.Meaning.{listed, AreIds, Extends};
ghost use Rattle.game_canon.specs.Changes.{IsSumRefusal};
ghost use Rattle.game_canon.specs.Outcomes.{IsCause};
ghost use Rattle.game_canon.specs.FormComparisons.{AreFormComparisonsRight};
ghost use Rattle.local_value.specs.Remembered.{options_of, stones_units, IsStonesSum, AreStonesSumsRight, IsFormOf};
ghost use Rattle.local_value.specs.inner.Memo.{AreFormsRight, IsMemoRight};
ghost use Rattle.local_value.specs.inner.OptionSets.{HasNoRepeats};
ghost use Rattle.local_value.specs.inner.Tables.{Learns};

use crate::form_table::FormTable;
use crate::option_set::OptionSet;
use crate::options::{ids_for, in_order};
use crate::sum_table::SumTable;
use crate::undominated::without_dominated;
use dyadic_num::Dyadic;
use game_canon::{FormComparisons, FormError, add_number, canonical_with};
use game_store::{GameId, Store};
use go_grid::Colour;
use std::alloc::Global;

/// The canonical forms of options, and the comparisons of forms that were needed for them.
#[derive(Drop)]
pub(crate) struct Forms {
    pub(crate) table: FormTable,
    pub(crate) comparisons: FormComparisons,
}

/// What is remembered from position to position, and a set of options as room to work in.
#[derive(Drop)]
pub(crate) struct Memo {
    pub(crate) sums: SumTable,
    pub(crate) forms: Forms,
    pub(crate) options: OptionSet,
}

impl Memo {
    /// Nothing is remembered yet.
    pub(crate) fn new(alloc: Global) -> Memo
        ensures { (Ts : List Tree) (limit : ℕ) → IsMemoRight Ts limit result }
    {
        Memo {
            sums: SumTable::new(alloc),
            forms: Forms {
                table: FormTable::new(alloc),
                comparisons: FormComparisons::new(alloc),
            },
            options: OptionSet::new(alloc),
        }
    }
}

/// The canonical form of the sum of a game and so many stones, where it isn't remembered. It is remembered then.
#[inline(never)]
fn new_sum(
    alloc: Global,
    store: &mut Store,
    sums: &mut SumTable,
    game: GameId,
    stones: i32,
) -> Result<GameId, FormError>
    requires game { game < length store.old }
    requires sums { AreStonesSumsRight store.old sums.old }
    ensures sum { IfOk result (λ id. IsStonesSum store.new game stones id) }
    ensures refusal { IfErr result (λ error. IsSumRefusal
        (tree_at store.old game +ᵍ number_tree (stones_units stones)) error) }
    ensures sums { OnOk result (AreStonesSumsRight store.new sums.new) }
    ensures kept { Extends store.old store.new }
{
    let sum = add_number(alloc, store, game, Dyadic::whole(stones))?;
    sums.remember(alloc, game, stones, sum);
    Ok(sum)
}

/// The canonical form of the sum of a game and so many stones.
#[inline(always)]
pub(crate) fn with_stones(
    alloc: Global,
    store: &mut Store,
    sums: &mut SumTable,
    game: GameId,
    stones: i32,
) -> Result<GameId, FormError>
    requires game { game < length store.old }
    requires sums { AreStonesSumsRight store.old sums.old }
    ensures sum { IfOk result (λ id. IsStonesSum store.new game stones id) }
    ensures refusal { IfErr result (λ error. IsSumRefusal
        (tree_at store.old game +ᵍ number_tree (stones_units stones)) error) }
    ensures sums { OnOk result (AreStonesSumsRight store.new sums.new) }
    ensures kept { Extends store.old store.new }
{
    if let Some(sum) = sums.find(game, stones) {
        return Ok(sum);
    }
    new_sum(alloc, store, sums, game, stones)
}

/// The canonical form of the game with these options, as `canonical` makes it.
fn canonical_form(
    alloc: Global,
    store: &mut Store,
    comparisons: &mut FormComparisons,
    options: &[u32],
    parts_limit: u32,
) -> Result<GameId, FormError>
    requires left { AreIds store.old (options_of Black options.now) }
    requires right { AreIds store.old (options_of White options.now) }
    requires comparisons { AreFormComparisonsRight store.old comparisons.old }
    ensures form { IfOk result (IsFormOf store.new parts_limit options.now) }
    ensures refusal { IfErr result (λ error. IsCause (listed store.old
        (options_of Black options.now) (options_of White options.now)) parts_limit error) }
    ensures comparisons { OnOk result (AreFormComparisonsRight store.new comparisons.new) }
    ensures kept { Extends store.old store.new }
{
    let left = ids_for(alloc, Colour::Black, options)?;
    let right = ids_for(alloc, Colour::White, options)?;
    let id = canonical_with(alloc, store, comparisons, &left, &right, parts_limit)?;
    Ok(id)
}

/// The canonical form of the game with these options: the one that is remembered of the list, or else it is made and remembered.
fn known_form(
    alloc: Global,
    store: &mut Store,
    forms: &mut Forms,
    options: &[u32],
    parts_limit: u32,
) -> Result<GameId, FormError>
    requires left { AreIds store.old (options_of Black options.now) }
    requires right { AreIds store.old (options_of White options.now) }
    requires once { HasNoRepeats options.now }
    requires forms { AreFormsRight store.old parts_limit forms.old }
    ensures form { IfOk result (IsFormOf store.new parts_limit options.now) }
    ensures refusal { IfErr result (λ error. IsCause (listed store.old
        (options_of Black options.now) (options_of White options.now)) parts_limit error) }
    ensures forms { OnOk result (AreFormsRight store.new parts_limit forms.new) }
    ensures kept { Extends store.old store.new }
{
    if let Some(id) = forms.table.find(options) {
        return Ok(id);
    }
    let comparisons = &mut forms.comparisons;
    let id = canonical_form(alloc, store, comparisons, options, parts_limit)?;
    forms.table.remember(alloc, options, id);
    Ok(id)
}

/// Remembers a form under the whole list of options, where it was made of fewer, under which it is remembered already.
fn remember_whole(alloc: Global, table: &mut FormTable, options: &[u32], kept: &[u32], id: GameId)
    requires { HasNoRepeats options.now }
    ensures { Learns table.old (options.now, id) table.new }
{
    if kept.len() < options.len() {
        table.remember(alloc, options, id);
    }
}

/// The canonical form of the game with these options, which ascend: that of the undominated ones, of which fewer different lists
/// come up.
fn form_in_order(
    alloc: Global,
    store: &mut Store,
    forms: &mut Forms,
    options: &[u32],
    parts_limit: u32,
) -> Result<GameId, FormError>
    requires left { AreIds store.old (options_of Black options.now) }
    requires right { AreIds store.old (options_of White options.now) }
    requires once { HasNoRepeats options.now }
    requires forms { AreFormsRight store.old parts_limit forms.old }
    ensures form { IfOk result (IsFormOf store.new parts_limit options.now) }
    ensures refusal { IfErr result (λ error. IsCause (listed store.old
        (options_of Black options.now) (options_of White options.now)) parts_limit error) }
    ensures forms { OnOk result (AreFormsRight store.new parts_limit forms.new) }
    ensures kept { Extends store.old store.new }
{
    let kept = without_dominated(alloc, store, options)?;
    match known_form(alloc, store, forms, &kept, parts_limit) {
        Ok(id) => {
            remember_whole(alloc, &mut forms.table, options, &kept, id);
            Ok(id)
        }
        Err(error) => Err(error),
    }
}

/// The canonical form of the game with these options, where it isn't remembered of them.
#[inline(never)]
fn new_form(
    alloc: Global,
    store: &mut Store,
    forms: &mut Forms,
    options: &[u32],
    parts_limit: u32,
) -> Result<GameId, FormError>
    requires left { AreIds store.old (options_of Black options.now) }
    requires right { AreIds store.old (options_of White options.now) }
    requires once { HasNoRepeats options.now }
    requires forms { AreFormsRight store.old parts_limit forms.old }
    ensures form { IfOk result (IsFormOf store.new parts_limit options.now) }
    ensures refusal { IfErr result (λ error. IsCause (listed store.old
        (options_of Black options.now) (options_of White options.now)) parts_limit error) }
    ensures forms { OnOk result (AreFormsRight store.new parts_limit forms.new) }
    ensures kept { Extends store.old store.new }
{
    let sorted = in_order(alloc, options)?;
    form_in_order(alloc, store, forms, &sorted, parts_limit)
}

/// The canonical form of the game with these options, as `canonical` makes it.
#[inline(always)]
pub(crate) fn form_of(
    alloc: Global,
    store: &mut Store,
    forms: &mut Forms,
    options: &OptionSet,
    parts_limit: u32,
) -> Result<GameId, FormError>
    requires left { AreIds store.old (options_of Black options.now) }
    requires right { AreIds store.old (options_of White options.now) }
    requires forms { AreFormsRight store.old parts_limit forms.old }
    ensures form { IfOk result (IsFormOf store.new parts_limit options.now) }
    ensures refusal { IfErr result (λ error. IsCause (listed store.old
        (options_of Black options.now) (options_of White options.now)) parts_limit error) }
    ensures forms { OnOk result (AreFormsRight store.new parts_limit forms.new) }
    ensures kept { Extends store.old store.new }
{
    if let Some(id) = forms.table.find_set(options) {
        return Ok(id);
    }
    new_form(alloc, store, forms, options.as_slice(), parts_limit)
}
