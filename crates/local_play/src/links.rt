//! The links of a region's places, as sets.

ghost use Rattle.std.specs.Prelude.{◌≡◌, ℕ, ◌+◌, ◌<◌, ◌≤◌, ◌↔◌, ◌⊎◌, List, Some, true, length};
ghost use Rattle.go_grid.specs.declared.region.Touch.{Touch};
ghost use Rattle.go_grid.specs.Region.{touch_at};
ghost use Rattle.local_play.specs.Places.{Has};
ghost use Rattle.local_play.specs.Links.{IsTable, IsTableBelow, near_at};
ghost use Rattle.local_play.specs.inner.Links.{IsLinkOf, IsReached, beside_of};

use crate::places::{MOST_PLACES, Places};
use go_grid::{Colour, Region, Touch};

/// Which places of a region are linked, and next to which of them alive stones stand, as sets of places.
#[derive(Clone, Copy)]
pub struct Links {
    /// By place the places that it is linked to.
    near: [Places; MOST_PLACES],
    /// All places of the region.
    all: Places,
    /// The places next to an alive stone of Black.
    black: Places,
    /// The places next to an alive stone of White.
    white: Places,
}

/// What a walk from some places reaches, and all places that a reached one is linked to.
#[derive(Clone, Copy)]
pub(crate) struct Reached {
    pub(crate) places: Places,
    pub(crate) near: Places,
}

/// The place that a link leads to, if there is one.
fn linked(link: Option<u16>) -> Places
    requires { (j : ℕ) → link ≡ Some j → j < MOST_PLACES }
    ensures { (q : ℕ) → Has result q ↔ (link ≡ Some q) }
{
    match link {
        None => Places::none(),
        Some(place) => Places::of(usize::from(place)),
    }
}

/// The places that a place is linked to.
fn near(touch: Touch) -> Places
    requires { (j : ℕ) → IsLinkOf touch j → j < MOST_PLACES }
    ensures { (q : ℕ) → Has result q ↔ IsLinkOf touch q }
{
    let up = linked(touch.up);
    let left = linked(touch.left);
    let right = linked(touch.right);
    let down = linked(touch.down);
    up.union(left.union(right.union(down)))
}

/// The set with a place more, where it belongs to it.
fn with(set: Places, place: usize, belongs: bool) -> Places
    requires { place < MOST_PLACES }
    ensures { (q : ℕ) → Has result q ↔ (Has set q ⊎ ((q ≡ place) × (belongs ≡ true))) }
{
    if belongs {
        set.union(Places::of(place))
    } else {
        set
    }
}

impl Links {
    /// No places.
    fn none() -> Links
        ensures { (touch : List Touch) → IsTableBelow touch result 0 }
    {
        Links {
            near: [Places::none(); MOST_PLACES],
            all: Places::none(),
            black: Places::none(),
            white: Places::none(),
        }
    }

    /// Adds a place.
    fn add(&mut self, place: usize, touch: Touch)
        requires place { place < MOST_PLACES }
        requires within { (j : ℕ) → IsLinkOf touch j → j < MOST_PLACES }
        ensures { (touches : List Touch) → touch ≡ touch_at touches place
            → IsTableBelow touches self.old place → IsTableBelow touches self.new (place + 1) }
    {
        self.near[place] = near(touch);
        self.all = self.all.union(Places::of(place));
        self.black = with(self.black, place, touch.black);
        self.white = with(self.white, place, touch.white);
    }

    /// The links of a region, which has at most 32 points.
    pub fn of(region: &Region) -> Links
        requires { length region.now.points ≤ MOST_PLACES }
        ensures table { IsTable region.now.touch result }
        ensures full { length region.now.touch ≡ length region.now.points }
    {
        let shape = region;
        let mut links = Links::none();
        for place in 0..shape.touch.len() {
            links.add(place, shape.touch[place]);
        }
        links
    }

    /// All places.
    pub(crate) fn all(&self) -> Places
        ensures { result ≡ self.now.all }
    {
        self.all
    }

    /// The places that a place is linked to.
    pub(crate) fn near(&self, place: usize) -> Places
        requires { place < MOST_PLACES }
        ensures { result ≡ near_at self.now place }
    {
        self.near[place]
    }

    /// The places next to an alive stone of the colour.
    pub(crate) fn beside(&self, colour: Colour) -> Places
        ensures { result ≡ beside_of self.now colour }
    {
        match colour {
            Colour::Black => self.black,
            Colour::White => self.white,
        }
    }

    /// What walks over places of a set reach from some of them.
    pub(crate) fn flood(&self, seeds: Places, within: Places) -> Reached
        requires { (q : ℕ) → Has seeds q → Has within q }
        ensures seeds { (q : ℕ) → Has seeds q → Has result.places q }
        ensures reached { (touch : List Touch) → IsTable touch self.now
            → IsReached touch seeds within result }
    {
        let mut places = seeds;
        let mut done = Places::none();
        let mut near = Places::none();
        'flooding: while let Some(place) = places.without(done).first() {
            let links = self.near(place);
            done = done.union(Places::of(place));
            near = near.union(links);
            places = places.union(links.intersection(within));
        }
        Reached { places, near }
    }
}
