//! A store of canonical forms, each kept once under an id.
#![tactic(auto)]

ghost use Rattle.std.specs.Prelude.{◌≡◌, ◌<◌, ◌++◌, ◌∷◌, [], ℕ, length, cond, nat_eq, Some, IfOk, OnErr, OnOk};
ghost use Rattle.indexmap.specs.IndexMap.{get};
ghost use Rattle.short_games.specs.Number.{IsNumberTree, number_tree};
ghost use Rattle.short_games.specs.TextOrder.{IsCanonicalTree};
ghost use Rattle.short_games.specs.Threshold.{IsFloor, IsCeiling};
ghost use Rattle.game_store.specs.Places.{IsFloorRange, IsCeilingRange};
ghost use Rattle.short_games.specs.Stops.{GoesWithLeftStop, GoesWithRightStop};
ghost use Rattle.short_games.specs.Tree.{tree_at, AreDistinct};
ghost use Rattle.game_store.specs.Meaning.{form, AreIds, IsAscending, AreCanonical, Extends, IsIdOf};
ghost use Rattle.game_store.specs.inner.Meaning.{held, IsWithin};
ghost use Rattle.game_store.specs.Forms.{wanted, IsFormOf, HaveForms};

mod bound;
mod bounds;
mod fingerprint;
mod laws;
mod lookup;

use crate::bounds::{greatest_floor, least_ceiling, read_ceiling, read_floor};
use crate::fingerprint::{fingerprint_number, fingerprint_options};
use crate::lookup::{find, read_slot};
pub use bound::Bound;
use dyadic_num::{Dyadic, EXPONENT};
use indexmap::IndexMap;
pub use laws::id_laws;
use list_pool::ListPool;
use std::alloc::{AllocError, Global};
use std::marker::Model;

/// The name of a form in its store.
pub type GameId = u64;

/// What a store keeps of a form: a number, or the place of its options in the pool, the Left ones first, and how many
/// of them are Left's.
#[derive(Clone, Copy)]
pub enum Entry {
    Number(Dyadic),
    Options { place: usize, left_count: usize },
}

/// An entry, the id before it with the same fingerprint, and the form's floor and ceiling.
#[derive(Clone, Copy)]
pub struct Slot {
    entry: Entry,
    before: Option<u64>,
    floor: Bound,
    ceiling: Bound,
}

/// A form that a store lends: a number, or the ids of its options, which ascend.
#[derive(Clone, Copy)]
pub enum Form<'a> {
    Number(Dyadic),
    Options { left: &'a [u64], right: &'a [u64] },
}

/// Canonical forms, each under an id. Contracts see it as the list of their trees.
#[derive(Drop)]
pub struct Store {
    slots: Vec<Slot>,
    pool: ListPool,
    latest: IndexMap<u64, u64>,
    alloc: Global,
}

impl Model for Store {
    ghost use Rattle.std.specs.Prelude.{List};
    ghost use Rattle.std.specs.Coded.{coded_list};
    ghost use Rattle.short_games.specs.Tree.{Tree};
    ghost use Rattle.short_games.specs.Code.{tree_code};

    ghost Value = { List Tree };

    ghost coded = { coded_list tree_code };

    ghost use Rattle.std.specs.Prelude.{nat_eq};
    ghost use Rattle.indexmap.specs.IndexMap.{get};
    ghost use Rattle.game_store.specs.inner.Meaning.{values, IsKept};
    ghost use Rattle.game_store.specs.inner.Chain.{entries_of, IsChained};
    ghost use Rattle.game_store.specs.inner.Places.{ArePlaced};

    ghost view = { λ s. values s.pool.lists (entries_of s.slots.items) };

    ghost invariant = { λ s. IsKept s.pool.lists (entries_of s.slots.items)
        × IsChained s.pool.lists s.slots.items (get nat_eq s.latest)
        × ArePlaced (values s.pool.lists (entries_of s.slots.items)) s.slots.items };
}

/// The form of an entry.
fn lend(entry: Entry, pool: &ListPool) -> Form<'_>
    requires { IsWithin pool.now.lists entry }
    ensures { held pool.now.lists entry ≡ wanted result }
{
    match entry {
        Entry::Number(x) => Form::Number(x),
        Entry::Options { place, left_count } => {
            let (left, right) = pool.get(place).split_at(left_count);
            Form::Options { left, right }
        }
    }
}

/// The ids of both sides in one list, the Left ones first.
fn join(alloc: Global, left: &[GameId], right: &[GameId]) -> Result<Vec<GameId>, AllocError>
    ensures { IfOk result (λ options. options.items ≡ left.now ++ right.now) }
{
    let mut options = Vec::with_capacity(alloc, left.len() + right.len())?;
    options.extend_from_slice(left)?;
    options.extend_from_slice(right)?;
    Ok(options)
}

/// Puts a slot behind the others and at the head of the chain of its fingerprint. Its id is the number of those before it.
fn enter(
    slots: &mut Vec<Slot>,
    latest: &mut IndexMap<u64, u64>,
    fingerprint: u64,
    entry: Entry,
    before: Option<u64>,
    floor: Bound,
    ceiling: Bound,
) -> Result<GameId, AllocError>
    ensures id { IfOk result (λ id. id ≡ length slots.old.items) }
    ensures slots { OnOk result (slots.new.items ≡ slots.old.items
        ++ record { entry = entry; before = before; floor = floor; ceiling = ceiling } ∷ []) }
    ensures latest { OnOk result ((q : ℕ) → get nat_eq latest.new q
        ≡ cond (nat_eq fingerprint q) (Some (length slots.old.items)) (get nat_eq latest.old q)) }
    ensures slots_kept { OnErr result (slots.new.items ≡ slots.old.items) }
    ensures latest_kept { OnErr result ((q : ℕ) → get nat_eq latest.new q ≡ get nat_eq latest.old q) }
{
    latest.reserve(1)?;
    slots.reserve(1)?;
    let id = slots.len();
    slots.push_reserved(Slot {
        entry,
        before,
        floor,
        ceiling,
    });
    latest.insert(fingerprint, id as u64)?;
    Ok(id as u64)
}

impl Store {
    /// A store without a form.
    pub fn new(alloc: Global) -> Store
        ensures { length result ≡ 0 }
    {
        Store {
            slots: Vec::new(alloc),
            pool: ListPool::new(alloc),
            latest: IndexMap::new(alloc),
            alloc,
        }
    }

    /// The number of ids.
    pub fn len(&self) -> u64
        ensures count { result ≡ length self.now }
        ensures distinct { AreDistinct self.now }
        ensures canonical { AreCanonical self.now }
        ensures forms { HaveForms self.now }
    {
        self.slots.len() as u64
    }

    /// The id of a number. Every id keeps its form, and after a refusal the store is as before.
    pub fn number(&mut self, x: Dyadic) -> Result<GameId, AllocError>
        ensures value { IfOk result (λ id. IsIdOf self.new (number_tree x) id) }
        ensures kept { Extends self.old self.new }
        ensures refusal { OnErr result (self.new ≡ self.old) }
    {
        let fingerprint = fingerprint_number(x);
        let before = self.latest.get(&fingerprint).copied();
        if let Some(id) = find(&self.slots, &self.pool, before, &Form::Number(x)) {
            return Ok(id);
        }
        let at = Bound::at(x);
        let entry = Entry::Number(x);
        let id = enter(
            &mut self.slots,
            &mut self.latest,
            fingerprint,
            entry,
            before,
            at,
            at,
        )?;
        Ok(id)
    }

    /// The id of the form with these options, which has to be canonical and no number. Every id keeps its form, and after
    /// a refusal the store is as before.
    pub fn intern(&mut self, left: &[GameId], right: &[GameId]) -> Result<GameId, AllocError>
        requires left_ids { AreIds self.old left.now }
        requires right_ids { AreIds self.old right.now }
        requires left_ascends { IsAscending left.now }
        requires right_ascends { IsAscending right.now }
        requires left_some { 0 < length left.now }
        requires right_some { 0 < length right.now }
        requires canonical { IsCanonicalTree (form self.old left.now right.now) }
        requires no_number { IsNumberTree (form self.old left.now right.now) → ⊥ }
        ensures value { IfOk result (λ id. IsIdOf self.new (form self.old left.now right.now) id) }
        ensures kept { Extends self.old self.new }
        ensures refusal { OnErr result (self.new ≡ self.old) }
    {
        let fingerprint = fingerprint_options(left, right);
        let before = self.latest.get(&fingerprint).copied();
        let form = Form::Options { left, right };
        if let Some(id) = find(&self.slots, &self.pool, before, &form) {
            return Ok(id);
        }
        let floor = least_ceiling(&self.slots, right).just_below();
        let ceiling = greatest_floor(&self.slots, left).just_above();
        let options = join(self.alloc, left, right)?;
        self.pool.reserve(options.len())?;
        let entry = Entry::Options {
            place: self.pool.len(),
            left_count: left.len(),
        };
        let id = enter(
            &mut self.slots,
            &mut self.latest,
            fingerprint,
            entry,
            before,
            floor,
            ceiling,
        )?;
        self.pool.push_reserved(&options);
        Ok(id)
    }

    /// The form of an id.
    pub fn node(&self, id: GameId) -> Form<'_>
        requires { id < length self.now }
        ensures form { IsFormOf self.now id result }
        ensures canonical { IsCanonicalTree (tree_at self.now id) }
        ensures distinct { AreDistinct self.now }
    {
        lend(read_slot(&self.slots, id as usize).entry, &self.pool)
    }

    /// The form's floor: at its right stop where the stop is at most the form, else just below it. The right stop is the
    /// least number that isn't below the floor.
    pub fn floor(&self, id: GameId) -> Bound
        requires { id < length self.now }
        ensures floor { IsFloor EXPONENT (tree_at self.now id) result }
        ensures range { IsFloorRange result }
        ensures stop { GoesWithRightStop EXPONENT (tree_at self.now id) result }
    {
        read_floor(&self.slots, id)
    }

    /// The form's ceiling: at its left stop where the stop is at least the form, else just above it. The left stop is the
    /// greatest number that isn't above the ceiling.
    pub fn ceiling(&self, id: GameId) -> Bound
        requires { id < length self.now }
        ensures ceiling { IsCeiling EXPONENT (tree_at self.now id) result }
        ensures range { IsCeilingRange result }
        ensures stop { GoesWithLeftStop EXPONENT (tree_at self.now id) result }
    {
        read_ceiling(&self.slots, id)
    }
}
