//! The sides of a game's options.

ghost use Rattle.std.specs.Prelude.{◌≡◌};
ghost use Rattle.dyadic_num.specs.Units.{IsInReach};
ghost use Rattle.thermograph.specs.inner.Scaffolds.{turned};

/// The side of a game's options.
#[derive(Clone, Copy)]
pub(crate) enum Side {
    Left,
    Right,
}

impl Side {
    /// The number, turned over on the right side.
    pub(crate) fn turn(self, x: i128) -> i128
        requires { IsInReach x }
        ensures { result ≡ turned self x }
    {
        match self {
            Side::Left => x,
            Side::Right => -x,
        }
    }
}
