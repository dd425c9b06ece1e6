//! The options of a position as a set.

ghost use Rattle.std.specs.Prelude.{ℕ, ◌≡◌, ◌<◌, ◌≤◌, ◌↔◌, [], length, true, Contains, IsTrue, OnOk, slice_index};
ghost use Rattle.local_value.specs.inner.OptionSets.{HasNoRepeats, HaveSameMembers, IsWith};

use crate::chains::MULTIPLIER;
use std::alloc::{AllocError, Global};
use std::marker::Model;

/// Options, once each, in the order in which they were added. Contracts see the list. An option is in the set where its mark is
/// of this turn, so that the set is emptied in one step: a new turn begins.
#[derive(Drop)]
pub(crate) struct OptionSet {
    options: Vec<u32>,
    /// By option the turn in which it was added last, or 0.
    marks: Vec<u32>,
    turn: u32,
    /// The sum of the options' words.
    sum: u32,
}

impl Model for OptionSet {
    ghost use Rattle.std.specs.Prelude.{ℕ, List};
    ghost use Rattle.local_value.specs.inner.OptionSets.{IsOptionSet};

    ghost Value = { List ℕ };

    ghost view = { λ s. s.options.items };

    ghost invariant = { λ s. IsOptionSet s.options.items s.marks.items s.turn };
}

/// The word of an option, whose bits depend on all of the option's. Sums of words, which are the same in any order, seldom agree.
#[inline(always)]
fn word_of(option: u32) -> u32 {
    let product = u64::from(option).wrapping_add(1).wrapping_mul(MULTIPLIER);
    let high = (product >> 32) as u32;
    let low = (product % (1 << 32)) as u32;
    high ^ low
}

/// The hash of options whose words have this sum.
fn hash_of_sum(sum: u32) -> u32 {
    (u64::from(sum).wrapping_mul(MULTIPLIER) >> 32) as u32
}

/// The hash of the options in a list, which is the same in any order.
pub(crate) fn hash_of(options: &[u32]) -> u32 {
    let mut sum: u32 = 0;
    for option in options {
        sum = sum.wrapping_add(word_of(*option));
    }
    hash_of_sum(sum)
}

/// Puts marks of no turn behind the others, until there is that of an option.
#[inline(never)]
fn add_marks(marks: &mut Vec<u32>, option: u32) -> Result<(), AllocError>
    ensures room { OnOk result (option < length marks.new.items) }
    ensures kept { (n : ℕ) → slice_index marks.new.items n ≡ slice_index marks.old.items n }
{
    'growing: while marks.len() <= option as usize {
        marks.push(0)?;
    }
    Ok(())
}

/// Makes room for the mark of an option, where it has none.
#[inline(always)]
fn make_room(marks: &mut Vec<u32>, option: u32) -> Result<(), AllocError>
    ensures room { OnOk result (option < length marks.new.items) }
    ensures kept { (n : ℕ) → slice_index marks.new.items n ≡ slice_index marks.old.items n }
{
    if (option as usize) < marks.len() {
        return Ok(());
    }
    add_marks(marks, option)
}

/// The turn after one, of which there are no marks yet. After the last turn all marks go, and turns begin anew.
fn next_turn(marks: &mut Vec<u32>, turn: u32) -> u32
    requires { (n : ℕ) → slice_index marks.old.items n ≤ turn }
    ensures begun { 0 < result }
    ensures past { (n : ℕ) → slice_index marks.new.items n < result }
{
    if turn < u32::MAX {
        return turn + 1;
    }
    marks.clear();
    1
}

/// Whether the mark of an option is that of a turn.
#[inline(always)]
fn is_marked(marks: &[u32], turn: u32, option: u32) -> bool
    requires { 0 < turn }
    ensures { result ≡ true ↔ (slice_index marks.now option ≡ turn) }
{
    marks.get(option as usize) == Some(&turn)
}

impl OptionSet {
    /// No options.
    pub(crate) fn new(alloc: Global) -> OptionSet
        ensures { result ≡ [] }
    {
        OptionSet {
            options: Vec::new(alloc),
            marks: Vec::new(alloc),
            turn: 1,
            sum: 0,
        }
    }

    /// Takes all options out.
    pub(crate) fn clear(&mut self)
        ensures { self.new ≡ [] }
    {
        self.options.clear();
        self.sum = 0;
        self.turn = next_turn(&mut self.marks, self.turn);
    }

    /// The options, as they were added.
    pub(crate) fn as_slice(&self) -> &[u32]
        ensures options { result.now ≡ self.now }
        ensures once { HasNoRepeats self.now }
    {
        &self.options
    }

    /// The hash of the options, as `hash_of` gives it.
    pub(crate) fn hash(&self) -> u32 {
        hash_of_sum(self.sum)
    }

    /// Whether an option is in the set.
    #[inline(always)]
    fn has(&self, option: u32) -> bool
        ensures { result ≡ true ↔ Contains self.now option }
    {
        is_marked(&self.marks, self.turn, option)
    }

    /// Adds an option, unless it is in the set.
    #[inline(always)]
    pub(crate) fn add(&mut self, option: u32) -> Result<(), AllocError>
        ensures { OnOk result (IsWith option self.old self.new) }
    {
        if self.has(option) {
            return Ok(());
        }
        make_room(&mut self.marks, option)?;
        self.options.push(option)?;
        self.marks[option as usize] = self.turn;
        self.sum = self.sum.wrapping_add(word_of(option));
        Ok(())
    }

    /// Whether the set has just the options in a list.
    #[inline(always)]
    pub(crate) fn is_same(&self, others: &[u32]) -> bool
        requires { HasNoRepeats others.now }
        ensures { IsTrue result → HaveSameMembers self.now others.now }
    {
        if others.len() != self.options.len() {
            return false;
        }
        'comparing: for option in others {
            if !self.has(*option) {
                return false;
            }
        }
        true
    }
}
