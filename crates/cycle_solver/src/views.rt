//! How the game of one region serves another region of the same shape.

ghost use Rattle.std.specs.Prelude.{◌≡◌, slice_index};
ghost use Rattle.region_book.specs.Shape.{colour_after};
ghost use Rattle.cycle_solver.specs.Turned.{own};

use go_grid::Colour;
use local_graph::Edge;

/// Which game serves a region, and how its places are the region's: place `i` of the game is place `places[i]` of the region,
/// and the two colours are exchanged exactly where `colours` is true.
#[derive(Clone, Copy)]
pub(crate) struct View {
    pub game: usize,
    pub places: [u8; 32],
    pub colours: bool,
}

/// The colour, or the other one where colours are exchanged.
pub(crate) fn colour_after(colours: bool, colour: Colour) -> Colour
    ensures { result ≡ colour_after colours colour }
{
    if colours { colour.other() } else { colour }
}

/// The place of the region that a place of the game is.
fn place_at(places: &[u8], place: u8) -> u8
    ensures { result ≡ slice_index places.now place }
{
    match places.get(usize::from(place)) {
        Some(own) => *own,
        None => 0,
    }
}

impl View {
    /// The move of the region that an edge of the game's graph stands for.
    pub(crate) fn own(&self, edge: Edge) -> Edge
        ensures { result ≡ own self.now edge }
    {
        Edge {
            next: edge.next,
            colour: colour_after(self.colours, edge.colour),
            place: place_at(&self.places, edge.place),
            taken: edge.taken,
        }
    }
}
