//! Two purses in points, and the token of a half-point.

ghost use Rattle.std.specs.Prelude.{◌≡◌, ◌+◌, ◌^◌, ◌<◌, ◌≤◌, ◌↔◌, true};
ghost use Rattle.whole_rules.specs.declared.money.Token.TheVariants.{Nobody};
ghost use Rattle.whole_rules.specs.Purses.{purse, paid_in, taken_out, paid_out, halved};

use go_grid::Colour;

/// Who owns the half-point that a komi leaves. The owner's move on it removes it; the opponent's removes it and leaves
/// the owner a point.
#[derive(Clone, Copy, PartialEq, Eq)]
pub enum Token {
    Nobody,
    Black,
    White,
}

impl Token {
    /// Whether there is no token.
    pub fn is_nobody(self) -> bool
        ensures { (result ≡ true) ↔ (self ≡ Nobody) }
    {
        match self {
            Token::Nobody => true,
            Token::Black => false,
            Token::White => false,
        }
    }
}

/// What the two players may still spend, in points, and who owns the half-point.
#[derive(Clone, Copy)]
pub struct Purses {
    pub black: u64,
    pub white: u64,
    pub token: Token,
}

impl Purses {
    /// The purse of a player, in points.
    pub fn of(self, colour: Colour) -> u64
        ensures { result ≡ purse colour self }
    {
        match colour {
            Colour::Black => self.black,
            Colour::White => self.white,
        }
    }

    /// The purses with some points more in that of a player.
    pub fn paid_in(self, colour: Colour, points: u64) -> Purses
        requires { purse colour self + points < 2 ^ 64 }
        ensures { result ≡ paid_in colour points self }
    {
        match colour {
            Colour::Black => Purses {
                black: self.black + points,
                ..self
            },
            Colour::White => Purses {
                white: self.white + points,
                ..self
            },
        }
    }

    /// The purses with some points fewer in that of a player.
    pub fn taken_out(self, colour: Colour, points: u64) -> Purses
        requires { points ≤ purse colour self }
        ensures { result ≡ taken_out colour points self }
    {
        match colour {
            Colour::Black => Purses {
                black: self.black - points,
                ..self
            },
            Colour::White => Purses {
                white: self.white - points,
                ..self
            },
        }
    }

    /// The purses after a player has spent a point.
    pub fn paid_out(self, colour: Colour) -> Purses
        requires { 1 ≤ purse colour self }
        ensures { result ≡ paid_out colour self }
    {
        self.taken_out(colour, 1)
    }

    /// The purses after a player's move on the token.
    pub fn halved(self, colour: Colour) -> Purses
        requires black { self.black + 1 < 2 ^ 64 }
        requires white { self.white + 1 < 2 ^ 64 }
        ensures { result ≡ halved colour self }
    {
        let rewarded = match (self.token, colour) {
            (Token::Black, Colour::White) => self.paid_in(Colour::Black, 1),
            (Token::White, Colour::Black) => self.paid_in(Colour::White, 1),
            (Token::Nobody, _) => self,
            (Token::Black, Colour::Black) => self,
            (Token::White, Colour::White) => self,
        };
        Purses {
            token: Token::Nobody,
            ..rewarded
        }
    }
}
