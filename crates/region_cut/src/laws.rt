//! The law on local play.

ghost use Rattle.region_cut.specs.LocalBoard.{LocalPlayIsPlay};

/// In each region of play of a settled board local play is play on the board. It has no code.
pub fn local_play_laws()
    ensures { LocalPlayIsPlay }
{}
