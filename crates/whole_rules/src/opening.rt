//! The state in which a settled board opens.

ghost use Rattle.std.specs.Prelude.{◌≡◌, ◌+◌, ◌-◌, ◌*◌, ◌^◌, ◌<◌, ◌≤◌, IfOk};
ghost use Rattle.go_grid.specs.declared.grid.Colour.TheVariants.{Black, White};
ghost use Rattle.go_grid.specs.Chain.{IsSettled};
ghost use Rattle.benson_life.specs.Territory.{IsLife, IsTerritory};
ghost use Rattle.whole_rules.specs.Opening.{komi_points, komi_token, IsOpening, GivesAtStart, MayTax};

use crate::money::{Purses, Token};
use crate::states::Whole;
use benson_life::{Life, Territory, tax_laws};
use go_grid::{Board, Colour};
use go_play::Setup;
use std::alloc::{AllocError, Global};

/// The whole points that a player gets of a komi in half-points. A positive komi is White's.
fn komi_points(colour: Colour, halves: i64) -> u64
    ensures points { result ≡ komi_points colour halves }
    ensures most { result ≤ 2 ^ 62 }
{
    match (colour, halves < 0) {
        (Colour::Black, true) => halves.unsigned_abs() / 2,
        (Colour::White, false) => halves.unsigned_abs() / 2,
        (Colour::Black, false) => 0,
        (Colour::White, true) => 0,
    }
}

/// Who owns the half-point that remains of a komi in half-points.
fn komi_token(halves: i64) -> Token
    ensures { result ≡ komi_token halves }
{
    if halves.unsigned_abs() % 2 == 0 {
        return Token::Nobody;
    }
    if halves < 0 {
        return Token::Black;
    }
    Token::White
}

/// What is left of held points after a tax of two points for each group.
fn after_tax(held: u32, groups: u32) -> u32
    requires { 2 * groups ≤ held }
    ensures { result ≡ held - 2 * groups }
{
    held - 2 * groups
}

/// The points that the board gives a player at the start: what it holds, less two for each of its groups where there is
/// a tax, which there is only where nothing is declared.
fn start_points(
    alloc: Global,
    board: &Board,
    life: &Life,
    colour: Colour,
    tax: bool,
) -> Result<u32, AllocError>
    requires settled { IsSettled board.now }
    requires life { IsLife board.now colour life.now }
    requires taxed { MayTax tax board.now }
    ensures { IfOk result (GivesAtStart board.now colour tax) }
{
    let held = life.held(alloc, board, colour)?;
    if tax {
        let groups = life.groups(alloc, board, colour)?;
        tax_laws();
        return Ok(after_tax(held, groups));
    }
    Ok(held)
}

/// The purses and the token of an opening: points of the board, prisoners and komi.
fn opening_purses(
    black_start: u32,
    white_start: u32,
    black_prisoners: u64,
    white_prisoners: u64,
    komi_halves: i64,
) -> Purses
    requires black { black_prisoners < 2 ^ 40 }
    requires white { white_prisoners < 2 ^ 40 }
    ensures { result ≡ record {
      black = black_start + black_prisoners + komi_points Black komi_halves;
      white = white_start + white_prisoners + komi_points White komi_halves;
      token = komi_token komi_halves;
    } }
{
    Purses {
        black: u64::from(black_start) + black_prisoners + komi_points(Colour::Black, komi_halves),
        white: u64::from(white_start) + white_prisoners + komi_points(Colour::White, komi_halves),
        token: komi_token(komi_halves),
    }
}

impl Whole {
    /// The state in which a settled board opens: prisoners in points, each below 2^40, a komi in half-points, White's
    /// where it is positive, and with or without a tax of two points for each group, which there is only where nothing is
    /// declared.
    pub fn opening(
        alloc: Global,
        board: &Board,
        black_prisoners: u64,
        white_prisoners: u64,
        komi_halves: i64,
        side: Colour,
        tax: bool,
    ) -> Result<Whole, AllocError>
        requires settled { IsSettled board.now }
        requires black { black_prisoners < 2 ^ 40 }
        requires white { white_prisoners < 2 ^ 40 }
        requires taxed { MayTax tax board.now }
        ensures { IfOk result
            (λ w. IsOpening board.now black_prisoners white_prisoners komi_halves side tax w) }
    {
        let territory = Territory::of(alloc, board)?;
        Whole::open_with(
            alloc,
            board,
            &territory,
            black_prisoners,
            white_prisoners,
            komi_halves,
            side,
            tax,
        )
    }

    /// What `opening` gives of a position, from the territory of its board.
    pub fn opening_with(
        alloc: Global,
        setup: &Setup,
        territory: &Territory,
        tax: bool,
    ) -> Result<Whole, AllocError>
        requires territory { IsTerritory setup.now.board territory.now }
        requires taxed { MayTax tax setup.now.board }
        ensures { IfOk result (λ w. IsOpening setup.now.board setup.now.black_prisoners
            setup.now.white_prisoners setup.now.komi_halves setup.now.side tax w) }
    {
        Whole::open_with(
            alloc,
            setup.board(),
            territory,
            setup.black_prisoners(),
            setup.white_prisoners(),
            setup.komi_halves(),
            setup.side(),
            tax,
        )
    }

    /// What `opening` gives, from the territory of the board.
    fn open_with(
        alloc: Global,
        board: &Board,
        territory: &Territory,
        black_prisoners: u64,
        white_prisoners: u64,
        komi_halves: i64,
        side: Colour,
        tax: bool,
    ) -> Result<Whole, AllocError>
        requires settled { IsSettled board.now }
        requires territory { IsTerritory board.now territory.now }
        requires black { black_prisoners < 2 ^ 40 }
        requires white { white_prisoners < 2 ^ 40 }
        requires taxed { MayTax tax board.now }
        ensures { IfOk result
            (λ w. IsOpening board.now black_prisoners white_prisoners komi_halves side tax w) }
    {
        let black = start_points(alloc, board, &territory.black, Colour::Black, tax)?;
        let white = start_points(alloc, board, &territory.white, Colour::White, tax)?;
        let purses = opening_purses(black, white, black_prisoners, white_prisoners, komi_halves);
        let contested = territory.contested(board);
        Ok(Whole::new(board.copy()?, contested, purses, side))
    }
}
