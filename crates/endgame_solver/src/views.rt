//! How the graph of one region serves another region of the same shape.

ghost use Rattle.std.specs.Prelude.{◌≡◌, ◌<◌};
ghost use Rattle.region_book.specs.Shape.{colour_after};
ghost use Rattle.endgame_solver.specs.inner.Views.{own};

use go_grid::Colour;
use local_graph::Edge;

/// Where the graph and the values of a region stand, and how the graph's places are the region's: place `i` of the graph is
/// place `places[i]` of the region, and the two colours are exchanged exactly where `colours` is true.
#[derive(Clone, Copy)]
pub(crate) struct View {
    pub graph: usize,
    pub values: usize,
    pub places: [u8; 32],
    pub colours: bool,
}

/// The colour, or the other one where colours are exchanged.
fn colour_after(colours: bool, colour: Colour) -> Colour
    ensures { result ≡ colour_after colours colour }
{
    if colours { colour.other() } else { colour }
}

impl View {
    /// The move of the region that an edge of the graph stands for.
    pub(crate) fn own(&self, edge: Edge) -> Edge
        requires { edge.place < 32 }
        ensures { result ≡ own self.now edge }
    {
        Edge {
            next: edge.next,
            colour: colour_after(self.colours, edge.colour),
            place: self.places[usize::from(edge.place)],
            taken: edge.taken,
        }
    }
}
