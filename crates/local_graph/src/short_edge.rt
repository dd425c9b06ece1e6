//! Edges in 4 bytes, where they fit.

ghost use Rattle.std.specs.Prelude.{◌≡◌, IfSome};
ghost use Rattle.local_graph.specs.inner.ShortEdge.{unpacked, colour_of};

use crate::graph::Edge;
use go_grid::Colour;
use std::marker::Model;

/// Places of positions that fit are below this.
pub(crate) const NEXT: u32 = 1 << 20;

/// Places in the region that fit are below this.
pub(crate) const PLACE: u32 = 32;

/// Numbers of taken stones that fit are below this.
pub(crate) const TAKEN: u32 = 64;

/// What tells White's edge from Black's.
pub(crate) const WHITE: u32 = NEXT * PLACE * TAKEN;

/// An edge in one number: from the lowest digit on the next position, the place, what is taken and the colour. Contracts see the edge.
#[derive(Clone, Copy)]
pub(crate) struct ShortEdge {
    packed: u32,
}

impl Model for ShortEdge {
    ghost use Rattle.std.specs.Prelude.{◌<◌, ◌^◌};
    ghost use Rattle.std.proofs.Common.{ap};
    ghost use Rattle.local_graph.specs.declared.graph.Edge.{Edge};
    ghost use Rattle.local_graph.specs.inner.ShortEdge.{number_again, number_of, unpacked};

    ghost Value = { Edge };

    ghost view = { λ e. unpacked e.packed };

    ghost invariant = { λ e. e.packed < 2 ^ 32 };

    ghost inverse = { λ e. record { packed = number_of e } };

    ghost inverse_ok = { λ e within. ap (λ n. record { packed = n }) (number_again e.packed within) };
}

/// The number of an edge, where it fits.
fn packed(edge: &Edge) -> Option<u32>
    ensures { IfSome result (λ n. unpacked n ≡ edge.now) }
{
    let place = u32::from(edge.place);
    let taken = u32::from(edge.taken);
    if edge.next >= NEXT as usize || place >= PLACE || taken >= TAKEN {
        return None;
    }
    let black = edge.next as u32 + NEXT * (place + PLACE * taken);
    match edge.colour {
        Colour::Black => Some(black),
        Colour::White => Some(black + WHITE),
    }
}

/// The colour in the number of an edge.
fn colour_of(packed: u32) -> Colour
    ensures { result ≡ colour_of packed }
{
    if packed < WHITE {
        return Colour::Black;
    }
    Colour::White
}

impl ShortEdge {
    /// The edge in 4 bytes, where it fits.
    pub(crate) fn new(edge: &Edge) -> Option<ShortEdge>
        ensures { IfSome result (λ short. short ≡ edge.now) }
    {
        let packed = packed(edge)?;
        Some(ShortEdge { packed })
    }

    /// The edge at full length.
    #[inline(always)]
    pub(crate) fn edge(&self) -> Edge
        ensures { result ≡ self.now }
    {
        Edge {
            next: (self.packed % NEXT) as usize,
            colour: colour_of(self.packed),
            place: (self.packed / NEXT % PLACE) as u8,
            taken: (self.packed / (NEXT * PLACE) % TAKEN) as u8,
        }
    }
}
