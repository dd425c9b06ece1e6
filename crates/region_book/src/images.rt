//! The images of a local position.

ghost use Rattle.std.specs.Prelude.{◌≡◌, ℕ, ◌*◌, ◌+◌, ◌-◌, ◌<◌, ◌≤◌, ◌⊎◌, ◌↔◌, Bool, false, true, IsTrue, length, slice_index, slice_index_or, IfOk, Contains, replicate};
ghost use Rattle.go_grid.specs.Region.{touch_at};
ghost use Rattle.local_play.specs.LocalPlay.{held_at, is_beside};
ghost use Rattle.region_book.specs.Shape.{cell_after, colour_after};
ghost use Rattle.region_book.specs.Image.{AtMost, BeginsAt, spot_of};
ghost use Rattle.go_grid.specs.Stones.{is_of};
ghost use Rattle.region_book.specs.declared.spots.Spot.{Spot};
ghost use Rattle.region_book.specs.inner.Made.{AreImagePlaces, IsImageOf, IsLeastAmong, Spots};

use crate::spots::Spot;
use crate::symmetry::{Stand, Symmetry, begin, places, turned};
use go_grid::{Cell, Colour, Region, Touch};
use local_play::Cells;
use std::alloc::{AllocError, Global};

/// An image, and the symmetry, the exchange and the beginning that make it.
#[derive(Drop)]
pub(crate) struct Image {
    pub(crate) spots: Vec<Spot>,
    pub(crate) symmetry: Symmetry,
    pub(crate) colours: bool,
    pub(crate) begin: Stand,
}

/// Whether a cell holds a stone that is of the colour, or of the other one where colours are exchanged.
fn is_stone(cell: Cell, colour: Colour, colours: bool) -> bool
    ensures { result ≡ is_of colour (cell_after colours cell) }
{
    match (cell, colour) {
        (Cell::Empty, _) => false,
        (Cell::Black, Colour::Black) | (Cell::White, Colour::White) => !colours,
        (Cell::Black, Colour::White) | (Cell::White, Colour::Black) => colours,
    }
}

/// Whether an alive stone is next to a place that is of the colour, or of the other one where colours are exchanged.
fn is_beside_after(touch: Touch, colour: Colour, colours: bool) -> bool
    ensures { result ≡ is_beside touch (colour_after colours colour) }
{
    if colours {
        is_beside(touch, colour.other())
    } else {
        is_beside(touch, colour)
    }
}

/// Whether an alive stone of the colour is next to a place.
fn is_beside(touch: Touch, colour: Colour) -> bool
    ensures { result ≡ is_beside touch colour }
{
    match colour {
        Colour::Black => touch.black,
        Colour::White => touch.white,
    }
}

/// What is next to a place.
fn touch(region: &Region, place: usize) -> Touch
    requires { place < length region.now.points }
    ensures { result ≡ touch_at region.now.touch place }
{
    let shape = region;
    shape.touch[place]
}

/// What is known of a place.
fn spot(
    region: &Region,
    cells: &Cells,
    symmetry: Symmetry,
    colours: bool,
    begin: Stand,
    place: usize,
) -> Spot
    requires few { length region.now.points ≤ 32 }
    requires place { place < length region.now.points }
    requires begin { BeginsAt region.now symmetry begin.column begin.row }
    ensures { result ≡ spot_of region.now cells.now symmetry colours begin.column begin.row place }
{
    let near = touch(region, place);
    let at = turned(region, symmetry, place);
    Spot {
        row: at.row - begin.row,
        column: at.column - begin.column,
        black: is_stone(cells[place], Colour::Black, colours),
        white: is_stone(cells[place], Colour::White, colours),
        beside_black: is_beside_after(near, Colour::Black, colours),
        beside_white: is_beside_after(near, Colour::White, colours),
    }
}

/// What is known of each place.
fn spots(
    alloc: Global,
    region: &Region,
    cells: &Cells,
    symmetry: Symmetry,
    colours: bool,
    begin: Stand,
) -> Result<Vec<Spot>, AllocError>
    requires few { length region.now.points ≤ 32 }
    requires begin { BeginsAt region.now symmetry begin.column begin.row }
    ensures { IfOk result (λ v. Spots region.now cells.now symmetry colours
        begin.column begin.row v.items) }
{
    let mut all = Vec::new(alloc);
    for place in 0..places(region) {
        all.push(spot(region, cells, symmetry, colours, begin, place))?;
    }
    Ok(all)
}

/// The image that a symmetry makes, with the colours exchanged or not.
fn image_of(
    alloc: Global,
    region: &Region,
    cells: &Cells,
    symmetry: Symmetry,
    colours: bool,
) -> Result<Image, AllocError>
    requires { length region.now.points ≤ 32 }
    ensures { IfOk result (IsLeastAmong region.now cells.now
        (λ s c. (s ≡ symmetry) × (c ≡ colours))) }
{
    let begin = begin(region, symmetry);
    let mut spots = spots(alloc, region, cells, symmetry, colours, begin)?;
    spots.sort_unstable();
    Ok(Image {
        spots,
        symmetry,
        colours,
        begin,
    })
}

/// Whether the first image is at most the second.
fn is_at_most(a: &[Spot], b: &[Spot]) -> bool
    ensures first { result ≡ true → AtMost a.now b.now }
    ensures second { result ≡ false → AtMost b.now a.now }
{
    a.cmp(b).is_le()
}

/// The lesser of two images.
fn lesser(a: Image, b: Image) -> Image
    ensures one { (result ≡ a) ⊎ (result ≡ b) }
    ensures first { AtMost result.spots.items a.spots.items }
    ensures second { AtMost result.spots.items b.spots.items }
{
    if is_at_most(&a.spots, &b.spots) {
        return a;
    }
    b
}

/// The least image that a symmetry makes.
fn least_of_colours(
    alloc: Global,
    region: &Region,
    cells: &Cells,
    symmetry: Symmetry,
) -> Result<Image, AllocError>
    requires { length region.now.points ≤ 32 }
    ensures { IfOk result (λ m. IsLeastAmong region.now cells.now (λ s c. s ≡ symmetry) m) }
{
    let kept = image_of(alloc, region, cells, symmetry, false)?;
    let exchanged = image_of(alloc, region, cells, symmetry, true)?;
    Ok(lesser(kept, exchanged))
}

/// The least image with columns and rows exchanged or not, and columns turned over or not.
fn least_of_rows(
    alloc: Global,
    region: &Region,
    cells: &Cells,
    exchange: bool,
    columns: bool,
) -> Result<Image, AllocError>
    requires { length region.now.points ≤ 32 }
    ensures { IfOk result (IsLeastAmong region.now cells.now
        (λ s c. (s.exchange ≡ exchange) × (s.columns ≡ columns))) }
{
    let kept = Symmetry {
        exchange,
        columns,
        rows: false,
    };
    let over = Symmetry {
        exchange,
        columns,
        rows: true,
    };
    let first = least_of_colours(alloc, region, cells, kept)?;
    let second = least_of_colours(alloc, region, cells, over)?;
    Ok(lesser(first, second))
}

/// The least image with columns and rows exchanged or not.
fn least_of_columns(
    alloc: Global,
    region: &Region,
    cells: &Cells,
    exchange: bool,
) -> Result<Image, AllocError>
    requires { length region.now.points ≤ 32 }
    ensures { IfOk result (IsLeastAmong region.now cells.now (λ s c. s.exchange ≡ exchange)) }
{
    let kept = least_of_rows(alloc, region, cells, exchange, false)?;
    let over = least_of_rows(alloc, region, cells, exchange, true)?;
    Ok(lesser(kept, over))
}

/// The least of all images.
pub(crate) fn least_image(
    alloc: Global,
    region: &Region,
    cells: &Cells,
) -> Result<Image, AllocError>
    requires { length region.now.points ≤ 32 }
    ensures { IfOk result (λ m. IsLeastAmong region.now cells.now (λ s c. Unit {0}) m) }
{
    let kept = least_of_columns(alloc, region, cells, false)?;
    let exchanged = least_of_columns(alloc, region, cells, true)?;
    Ok(lesser(kept, exchanged))
}

/// Whether the two are the same.
fn is_same(a: Spot, b: Spot) -> bool
    ensures { IsTrue result ↔ (a ≡ b) }
{
    a == b
}

/// The place of an item in a list that has it.
fn place_of(spots: &[Spot], spot: Spot) -> usize
    requires { Contains spots.now spot }
    ensures within { result < length spots.now }
    ensures there { (d : Spot) → slice_index_or spots.now result d ≡ spot }
{
    for place in 0..spots.len() {
        if is_same(spots[place], spot) {
            return place;
        }
    }
    0
}

/// Place 0 for each place.
fn no_places() -> [u8; 32]
    ensures { result ≡ replicate 32 0 }
{
    [0; 32]
}

/// The place of the image for each place of the region.
pub(crate) fn places_of(region: &Region, cells: &Cells, image: &Image) -> [u8; 32]
    requires few { length region.now.points ≤ 32 }
    requires long { length image.now.spots.items ≤ 32 }
    requires image { IsImageOf region.now cells.now image.now }
    ensures places { AreImagePlaces region.now cells.now image.now result }
    ensures past { (i : ℕ) → length region.now.points ≤ i → i < 32 → slice_index result i ≡ 0 }
{
    let mut all = no_places();
    for place in 0..places(region) {
        let spot = spot(
            region,
            cells,
            image.symmetry,
            image.colours,
            image.begin,
            place,
        );
        all[place] = place_of(&image.spots, spot) as u8;
    }
    all
}
