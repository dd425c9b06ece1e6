//! Forms that are remembered by their options.

ghost use Rattle.std.specs.Prelude.{◌≡◌, ◌+◌, ◌^◌, ◌<◌, ◌≤◌, [], length, Contains, IfSome, IsTrue};
ghost use Rattle.local_value.specs.inner.OptionSets.{HasNoRepeats};
ghost use Rattle.local_value.specs.inner.Tables.{IsFormOfMembers, Learns};

use crate::chains::Chains;
use crate::option_set::{OptionSet, hash_of};
use crate::options::{MOST_IDS, are_same};
use game_store::GameId;
use std::alloc::{AllocError, Global};
use std::marker::Model;

/// How many forms are remembered at most, and of how many options. Then all are forgotten.
const MOST_FORMS: usize = 1 << 16;

const MOST_OPTIONS: usize = 1 << 24;

/// Where the options of a form stand in the pool, from `start` on and before `end`, and the form's id.
#[derive(Clone, Copy)]
pub(crate) struct KnownForm {
    pub(crate) start: u32,
    pub(crate) end: u32,
    pub(crate) id: u32,
}

/// Ids of forms under lists of options, in each of which none stands twice. Contracts see the list of both. What was remembered
/// may be forgotten.
#[derive(Drop)]
pub(crate) struct FormTable {
    chains: Chains,
    forms: Vec<KnownForm>,
    pool: Vec<u32>,
}

impl Model for FormTable {
    ghost use Rattle.std.specs.Prelude.{ℕ, List, map};
    ghost use Rattle.local_value.specs.inner.Tables.{known_form, IsFormTable};

    ghost Value = { List (List ℕ × ℕ) };

    ghost view = { λ t. map (known_form t.pool.items) t.forms.items };

    ghost invariant = { λ t. IsFormTable t.chains t.forms.items t.pool.items };
}

/// Whether there is room for one more list of so many options.
fn has_room(forms: usize, options: usize, more: usize) -> bool
    ensures { IsTrue result → (forms + 1 < 2 ^ 32) × (options + more < 2 ^ 32) }
{
    forms < MOST_FORMS && options <= MOST_OPTIONS && more <= MOST_OPTIONS - options
}

impl FormTable {
    /// Nothing is remembered yet.
    pub(crate) fn new(alloc: Global) -> FormTable
        ensures { result ≡ [] }
    {
        FormTable {
            chains: Chains::new(alloc),
            forms: Vec::new(alloc),
            pool: Vec::new(alloc),
        }
    }

    /// The form at a place, if it has these options.
    #[inline(always)]
    fn form_at(&self, place: usize, options: &[u32], hash: u32) -> Option<GameId>
        requires { place < length self.now }
        ensures { IfSome result (λ id. Contains self.now (options.now, id)) }
    {
        if !self.chains.has(place, hash) {
            return None;
        }
        let form = self.forms[place];
        if are_same(&self.pool[form.start as usize..form.end as usize], options) {
            return Some(GameId::from(form.id));
        }
        None
    }

    /// The form with these options, if it is remembered of the very list.
    pub(crate) fn find(&self, options: &[u32]) -> Option<GameId>
        ensures { IfSome result (λ id. Contains self.now (options.now, id)) }
    {
        let hash = hash_of(options);
        let mut link = self.chains.latest(hash);
        'looking: while link > 0 {
            let place = (link - 1) as usize;
            if let Some(id) = self.form_at(place, options, hash) {
                return Some(id);
            }
            link = self.chains.before(place);
        }
        None
    }

    /// The form at a place, if its options are those of the set.
    #[inline(always)]
    fn form_of_set_at(&self, place: usize, options: &OptionSet, hash: u32) -> Option<GameId>
        requires { place < length self.now }
        ensures { IfSome result (IsFormOfMembers self.now options.now) }
    {
        if !self.chains.has(place, hash) {
            return None;
        }
        let form = self.forms[place];
        if options.is_same(&self.pool[form.start as usize..form.end as usize]) {
            return Some(GameId::from(form.id));
        }
        None
    }

    /// The form with the options of a set, if it is remembered of a list of them, in whatever order.
    #[inline(always)]
    pub(crate) fn find_set(&self, options: &OptionSet) -> Option<GameId>
        ensures { IfSome result (IsFormOfMembers self.now options.now) }
    {
        let hash = options.hash();
        let mut link = self.chains.latest(hash);
        'looking: while link > 0 {
            let place = (link - 1) as usize;
            if let Some(id) = self.form_of_set_at(place, options, hash) {
                return Some(id);
            }
            link = self.chains.before(place);
        }
        None
    }

    /// Puts a form behind the others.
    fn add(&mut self, alloc: Global, options: &[u32], id: GameId) -> Result<(), AllocError>
        requires { HasNoRepeats options.now }
        ensures { Learns self.old (options.now, id) self.new }
    {
        if id >= MOST_IDS || !has_room(self.forms.len(), self.pool.len(), options.len()) {
            return Err(AllocError);
        }
        let id = id as u32;
        let start = self.pool.len() as u32;
        self.pool.extend_from_slice(options)?;
        let end = self.pool.len() as u32;
        self.forms.reserve(1)?;
        self.chains.add(alloc, hash_of(options))?;
        self.forms.push_reserved(KnownForm { start, end, id });
        Ok(())
    }

    /// Forgets all.
    fn clear(&mut self)
        ensures { self.new ≡ [] }
    {
        self.chains.clear();
        self.forms.clear();
        self.pool.clear();
    }

    /// Remembers a form, or forgets all where memory or room is wanting.
    pub(crate) fn remember(&mut self, alloc: Global, options: &[u32], id: GameId)
        requires { HasNoRepeats options.now }
        ensures { Learns self.old (options.now, id) self.new }
    {
        if self.add(alloc, options, id).is_err() {
            self.clear();
        }
    }
}
