//! That shapes tell which positions are alike.

ghost use Rattle.std.specs.Prelude.{List};
ghost use Rattle.go_grid.specs.declared.grid.Cell.{Cell};
ghost use Rattle.go_grid.specs.Region.{Region};
ghost use Rattle.region_book.specs.declared.spots.Spot.{Spot};
ghost use Rattle.region_book.specs.declared.shapes.Turn.{Turn};
ghost use Rattle.region_book.specs.Law.{TellsShapes, PairsPlaces};

/// Two positions have equal shapes exactly where they have one shape. Then the pairing of the places that their turns bring
/// to the same place carries the first onto the second, with the colours exchanged exactly where one of the turns exchanges
/// them. It has no code.
pub fn one_shape()
    ensures same { (r : Region) (cells : List Cell) (x : List Spot) (s : Turn)
        (q : Region) (cells' : List Cell) (y : List Spot) (t : Turn)
        → TellsShapes r cells x s q cells' y t }
    ensures pairs { (r : Region) (cells : List Cell) (x : List Spot) (s : Turn)
        (q : Region) (cells' : List Cell) (y : List Spot) (t : Turn)
        → PairsPlaces r cells x s q cells' y t }
{}
