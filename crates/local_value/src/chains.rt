//! Places in chains, by their hashes.

ghost use Rattle.std.specs.Prelude.{◌≡◌, ◌+◌, ◌^◌, ◌<◌, ◌≤◌, ◌↔◌, length, OnErr, OnOk, true};
ghost use Rattle.local_value.specs.inner.Chains.{AreBelow, FallBack, AreChained};

use std::alloc::{AllocError, Global};
use std::marker::Model;

/// An odd number, 2^64 over the golden ratio, by which the bits of a hash are spread.
pub(crate) const MULTIPLIER: u64 = 0x9E37_79B9_7F4A_7C15;

/// How many slots chains have at their first place. Their number is a power of 2.
const FEWEST_SLOTS: usize = 256;

/// The hash of a place, and the link to the place that was entered before it in the same slot.
#[derive(Clone, Copy)]
pub(crate) struct Link {
    pub(crate) hash: u32,
    pub(crate) before: u32,
}

/// Places in chains, one for each slot, from the place that was entered there last back. A link is one more than a place, or 0
/// for none. Contracts see the number of places.
#[derive(Drop)]
pub(crate) struct Chains {
    /// By slot the link to the place that was entered there last.
    latest: Vec<u32>,
    links: Vec<Link>,
}

impl Model for Chains {
    ghost use Rattle.std.specs.Prelude.{ℕ, length};
    ghost use Rattle.local_value.specs.inner.Chains.{AreChained};

    ghost Value = { ℕ };

    ghost view = { λ c. length c.links.items };

    ghost invariant = { λ c. AreChained c.latest.items c.links.items };
}

/// The slot of a hash, of so many: its lowest bits.
fn slot_of(hash: u32, slots: usize) -> usize
    requires { 0 < slots }
    ensures { result < slots }
{
    hash as usize & (slots - 1)
}

/// Puts a place at the head of the chain of its slot.
fn enter(latest: &mut [u32], links: &mut [Link], place: usize)
    requires slots { 0 < length latest.old }
    requires place { place < length links.old }
    requires few { length links.old < 2 ^ 32 }
    requires latest { AreBelow place latest.old }
    requires links { FallBack links.old }
    ensures latest { AreBelow (place + 1) latest.new }
    ensures links { FallBack links.new }
    ensures slots { length latest.new ≡ length latest.old }
    ensures places { length links.new ≡ length links.old }
{
    let slot = slot_of(links[place].hash, latest.len());
    links[place].before = latest[slot];
    latest[slot] = place as u32 + 1;
}

/// Puts all places into chains anew, where the slots are empty.
fn enter_all(latest: &mut [u32], links: &mut [Link])
    requires slots { 0 < length latest.old }
    requires few { length links.old < 2 ^ 32 }
    requires latest { AreBelow 0 latest.old }
    requires links { FallBack links.old }
    ensures chained { AreBelow (length links.new) latest.new }
    ensures links { FallBack links.new }
    ensures slots { length latest.new ≡ length latest.old }
    ensures places { length links.new ≡ length links.old }
{
    'entering: for place in 0..links.len() {
        enter(latest, links, place);
    }
}

/// Makes more slots where there are no more than places.
fn make_room(alloc: Global, latest: &mut Vec<u32>, links: &mut Vec<Link>) -> Result<(), AllocError>
    requires few { length links.old.items < 2 ^ 32 }
    requires chained { AreChained latest.old.items links.old.items }
    ensures chained { AreChained latest.new.items links.new.items }
    ensures slots { OnOk result (0 < length latest.new.items) }
    ensures places { length links.new.items ≡ length links.old.items }
{
    if links.len() < latest.len() {
        return Ok(());
    }
    *latest = vec![in alloc; 0; FEWEST_SLOTS.max(2 * latest.len())]?;
    enter_all(latest, links);
    Ok(())
}

/// Puts a link for one more place behind the others, and the place into the chain of its slot.
fn add_link(latest: &mut [u32], links: &mut Vec<Link>, hash: u32) -> Result<(), AllocError>
    requires slots { 0 < length latest.old }
    requires few { length links.old.items + 1 < 2 ^ 32 }
    requires chained { AreChained latest.old links.old.items }
    ensures chained { AreChained latest.new links.new.items }
    ensures slots { length latest.new ≡ length latest.old }
    ensures more { OnOk result (length links.new.items ≡ length links.old.items + 1) }
    ensures same { OnErr result (length links.new.items ≡ length links.old.items) }
{
    let place = links.len();
    links.push(Link { hash, before: 0 })?;
    enter(latest, links, place);
    Ok(())
}

impl Chains {
    /// No places.
    pub(crate) fn new(alloc: Global) -> Chains
        ensures { result ≡ 0 }
    {
        Chains {
            latest: Vec::new(alloc),
            links: Vec::new(alloc),
        }
    }

    /// The link to the place that was entered last in the slot of a hash.
    pub(crate) fn latest(&self, hash: u32) -> u32
        ensures { result ≤ self.now }
    {
        if self.latest.is_empty() {
            return 0;
        }
        self.latest[slot_of(hash, self.latest.len())]
    }

    /// Whether a place was entered with the hash.
    pub(crate) fn has(&self, place: usize, hash: u32) -> bool
        requires { place < self.now }
    {
        self.links[place].hash == hash
    }

    /// The link to the place that was entered in the same slot before a place.
    pub(crate) fn before(&self, place: usize) -> u32
        requires { place < self.now }
        ensures { result ≤ place }
    {
        self.links[place].before
    }

    /// Enters one more place under a hash.
    pub(crate) fn add(&mut self, alloc: Global, hash: u32) -> Result<(), AllocError>
        requires few { self.old + 1 < 2 ^ 32 }
        ensures more { OnOk result (self.new ≡ self.old + 1) }
        ensures same { OnErr result (self.new ≡ self.old) }
    {
        make_room(alloc, &mut self.latest, &mut self.links)?;
        add_link(&mut self.latest, &mut self.links, hash)
    }

    /// Forgets all places.
    pub(crate) fn clear(&mut self)
        ensures { self.new ≡ 0 }
    {
        self.latest.clear();
        self.links.clear();
    }
}
