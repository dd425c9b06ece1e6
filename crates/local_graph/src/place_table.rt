//! The positions found so far, and a table that tells their places.

ghost use Rattle.std.specs.Prelude.{◌≡◌, ◌+◌, ◌^◌, ◌<◌, ◌≤◌, [], ◌∷◌, ◌++◌, length, slice_index, slice_set, Contains, IfSome, IfNone, OnOk, true, false};
ghost use Rattle.local_graph.specs.inner.PlaceTable.{folded, threes, IsNumbered, HasFew, HasSlots, IsPlaceTable};

use indexmap::IndexSet;
use std::alloc::{AllocError, Global};

/// How many numbers in base 3 may each have a slot of its own: those of 14 places.
const MOST_SLOTS: usize = 4_782_969;

/// How many slots there may be for each position, and for so many more.
const SLOTS_FOR_EACH: usize = 64;

/// Positions in the order in which they were found, and what tells their places: while they are few for their numbers in base 3
/// a set of them in the same order, and then a slot for each number.
#[derive(Drop)]
pub(crate) struct PlaceTable {
    pub(crate) positions: Vec<u64>,
    few: IndexSet<u64>,
    /// By number one more than the place of the position, or 0.
    slots: Vec<u32>,
    /// How many numbers in base 3 positions have.
    numbers: usize,
}

/// The number with the upper half of each group of bits counted so many times less.
fn folded(number: u64, shift: u32, groups: u64, less: u64) -> u64
    requires { shift < 64 }
    ensures { result ≡ folded number shift groups less }
{
    number.wrapping_sub(((number >> shift) & groups).wrapping_mul(less))
}

/// The number whose digits in base 3 are the codes of a position's places.
#[tactic(auto, unfolding(crate::specs::inner::PlaceTable::threes))]
pub(crate) fn threes(position: u64) -> u64
    ensures { result ≡ threes position }
{
    let pairs = folded(position, 2, 0x3333_3333_3333_3333, 1);
    let fours = folded(pairs, 4, 0x0F0F_0F0F_0F0F_0F0F, 7);
    let eights = folded(fours, 8, 0x00FF_00FF_00FF_00FF, 175);
    let halves = folded(eights, 16, 0x0000_FFFF_0000_FFFF, 58_975);
    folded(halves, 32, 0xFFFF_FFFF, 4_251_920_575)
}

impl PlaceTable {
    /// No positions, for those of so many places.
    pub(crate) fn new(alloc: Global, places: usize) -> PlaceTable
        requires { places ≤ 32 }
        ensures table { IsPlaceTable result }
        ensures none { result.positions.items ≡ [] }
        ensures numbers { result.numbers ≡ 3 ^ places }
    {
        PlaceTable {
            positions: Vec::new(alloc),
            few: IndexSet::new(alloc),
            slots: Vec::new(alloc),
            numbers: 3_usize.pow(places as u32),
        }
    }

    /// Whether each number has a slot.
    fn has_slots(&self) -> bool
        requires { IsPlaceTable self.now }
        ensures slots { result ≡ true → HasSlots self.now }
        ensures few { result ≡ false → HasFew self.now }
    {
        !self.slots.is_empty()
    }

    /// The place of a position, if it was found, where each number has a slot: what stands in the position's slot is the
    /// position.
    #[inline(always)]
    fn find_slot(&self, number: u64, position: u64) -> Option<usize>
        requires table { IsPlaceTable self.now }
        requires slots { HasSlots self.now }
        requires number { number ≡ threes position }
        requires numbered { IsNumbered self.now.numbers position }
        ensures found { IfSome result (λ place. (place < length self.now.positions.items)
            × (slice_index self.now.positions.items place ≡ position)) }
        ensures absent { IfNone result (¬ Contains self.now.positions.items position) }
    {
        let link = self.slots[number as usize];
        if link > 0 {
            return Some((link - 1) as usize);
        }
        None
    }

    /// The place of a position with a number in base 3, if it was found.
    #[inline(always)]
    pub(crate) fn find(&self, position: u64, number: u64) -> Option<usize>
        requires table { IsPlaceTable self.now }
        requires number { number ≡ threes position }
        requires numbered { IsNumbered self.now.numbers position }
        ensures found { IfSome result (λ place. (place < length self.now.positions.items)
            × (slice_index self.now.positions.items place ≡ position)) }
        ensures absent { IfNone result (¬ Contains self.now.positions.items position) }
    {
        if self.has_slots() {
            return self.find_slot(number, position);
        }
        self.few.get_index_of(&position)
    }

    /// Puts the place of a position into the slot of its number.
    fn fill_slot(&mut self, place: usize, number: u64)
        requires number { number ≡ threes (slice_index self.old.positions.items place) }
        requires fits { place + 1 < 2 ^ 32 }
        requires slot { threes (slice_index self.old.positions.items place)
            < length self.old.slots.items }
        ensures slots { self.new.slots.items ≡ slice_set self.old.slots.items
            (threes (slice_index self.old.positions.items place)) (place + 1) }
        ensures positions { self.new.positions.items ≡ self.old.positions.items }
        ensures numbers { self.new.numbers ≡ self.old.numbers }
    {
        self.slots[number as usize] = place as u32 + 1;
    }

    /// Makes a slot for each number.
    fn make_slots(&mut self, alloc: Global) -> Result<(), AllocError>
        requires table { IsPlaceTable self.old }
        requires few { length self.old.positions.items < 2 ^ 32 }
        ensures table { OnOk result (IsPlaceTable self.new) }
        ensures positions { self.new.positions.items ≡ self.old.positions.items }
        ensures numbers { self.new.numbers ≡ self.old.numbers }
    {
        self.slots = vec![in alloc; 0; self.numbers]?;
        self.few = IndexSet::new(alloc);
        'filling: for place in 0..self.positions.len() {
            let number = threes(self.positions[place]);
            self.fill_slot(place, number);
        }
        Ok(())
    }

    /// Whether there should be slots.
    fn wants_slots(&self) -> bool {
        self.slots.is_empty()
            && self.numbers <= MOST_SLOTS
            && self.numbers / SLOTS_FOR_EACH <= self.positions.len() + SLOTS_FOR_EACH
    }

    /// Makes slots where there should be some.
    fn make_room(&mut self, alloc: Global) -> Result<(), AllocError>
        requires table { IsPlaceTable self.old }
        requires few { length self.old.positions.items < 2 ^ 32 }
        ensures table { OnOk result (IsPlaceTable self.new) }
        ensures positions { self.new.positions.items ≡ self.old.positions.items }
        ensures numbers { self.new.numbers ≡ self.old.numbers }
    {
        if self.wants_slots() {
            return self.make_slots(alloc);
        }
        Ok(())
    }

    /// Puts a new position behind the others, and its place into the table.
    fn enter(&mut self, position: u64, number: u64) -> Result<(), AllocError>
        requires table { IsPlaceTable self.old }
        requires number { number ≡ threes position }
        requires new { ¬ Contains self.old.positions.items position }
        requires numbered { IsNumbered self.old.numbers position }
        requires few { length self.old.positions.items + 1 < 2 ^ 32 }
        ensures table { OnOk result (IsPlaceTable self.new) }
        ensures positions { OnOk result
            (self.new.positions.items ≡ self.old.positions.items ++ position ∷ []) }
        ensures numbers { OnOk result (self.new.numbers ≡ self.old.numbers) }
    {
        let place = self.positions.len();
        let has_slots = self.has_slots();
        self.positions.reserve(1)?;
        self.positions.push_reserved(position);
        if has_slots {
            self.fill_slot(place, number);
            return Ok(());
        }
        self.few.insert(position)?;
        Ok(())
    }

    /// Puts a new position with a number in base 3 behind the others.
    pub(crate) fn add(
        &mut self,
        alloc: Global,
        position: u64,
        number: u64,
    ) -> Result<(), AllocError>
        requires table { IsPlaceTable self.old }
        requires number { number ≡ threes position }
        requires new { ¬ Contains self.old.positions.items position }
        requires numbered { IsNumbered self.old.numbers position }
        requires few { length self.old.positions.items + 1 < 2 ^ 32 }
        ensures table { OnOk result (IsPlaceTable self.new) }
        ensures positions { OnOk result
            (self.new.positions.items ≡ self.old.positions.items ++ position ∷ []) }
        ensures numbers { OnOk result (self.new.numbers ≡ self.old.numbers) }
    {
        self.make_room(alloc)?;
        self.enter(position, number)
    }
}
