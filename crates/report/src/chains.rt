//! The lines of chains: alive or open, and an attack on each that is open.

ghost use Rattle.std.specs.Prelude.{◌≡◌, ◌↔◌, ◌++◌, ◌+◌, ◌*◌, ◌<◌, [], ℕ, true, false, All, OnOk, IfOk, flat_map, length, string_bytes};
ghost use Rattle.go_grid.specs.declared.grid.Colour.{Colour};
ghost use Rattle.go_grid.specs.Chain.{IsSettled, StoneAt};
ghost use Rattle.go_grid.specs.Board.{HasStone};
ghost use Rattle.benson_attack.specs.Attacks.{AreAttacks};
ghost use Rattle.report.specs.Chains.{AreChainLines, AreChainsBelow, attack_line, chain_line, chain_lines, life_word, placing};
ghost use Rattle.report.specs.inner.Chains.{IsAttackIfAny};

use crate::safety::stands_first;
use benson_attack::{AttackError, Attacks};
use board_words::{colour_word, write_name};
use go_grid::{Board, Colour, Point, Size};
use std::alloc::{AllocError, Global};

/// A chain by its lowest stone.
#[derive(Drop)]
pub(crate) struct ChainLine {
    pub lowest: Point,
    pub colour: Colour,
    pub stones: usize,
    pub alive: bool,
    /// Placings of the other colour that take it, none of them answered, where it isn't alive.
    pub attack: Vec<Point>,
}

/// An attack on the stone at a point: no placing where the stone is alive.
fn attack_on(
    alloc: Global,
    board: &Board,
    attacks: &Attacks,
    point: Point,
) -> Result<Vec<Point>, AllocError>
    requires settled { IsSettled board.now }
    requires stone { StoneAt board.now point }
    requires attacks { AreAttacks board.now attacks.now }
    ensures { IfOk result (λ attack. (c : Colour) → HasStone board.now c point
        → IsAttackIfAny board.now c point attack.items) }
{
    match attacks.on(alloc, board, point) {
        Ok(attack) => Ok(attack),
        Err(AttackError::Alive) => Ok(Vec::new(alloc)),
        Err(AttackError::Memory(cause)) => Err(cause),
    }
}

/// Whether there is no placing.
fn is_none(attack: &[Point]) -> bool
    ensures { (result ≡ true) ↔ (attack.now ≡ []) }
{
    attack.is_empty()
}

/// Adds the line of the chain whose lowest stone is at a point, if there is one.
fn add_chain(
    alloc: Global,
    lines: &mut Vec<ChainLine>,
    board: &Board,
    attacks: &Attacks,
    point: Point,
) -> Result<(), AllocError>
    requires on_board { point < length board.now.cells }
    requires settled { IsSettled board.now }
    requires attacks { AreAttacks board.now attacks.now }
    requires below { AreChainsBelow board.now point lines.old.items }
    ensures { OnOk result (AreChainsBelow board.now (point + 1) lines.new.items) }
{
    let _size = board.size();
    let Some(colour) = board.colour_at(point) else {
        return Ok(());
    };
    let stones = board.chain_of(point)?;
    if !stands_first(&stones, point) {
        return Ok(());
    }
    let attack = attack_on(alloc, board, attacks, point)?;
    lines.push(ChainLine {
        lowest: point,
        colour,
        stones: stones.len(),
        alive: is_none(&attack),
        attack,
    })?;
    Ok(())
}

/// A line for each chain, by its lowest stone.
pub(crate) fn chain_lines(
    alloc: Global,
    board: &Board,
    attacks: &Attacks,
) -> Result<Vec<ChainLine>, AllocError>
    requires settled { IsSettled board.now }
    requires attacks { AreAttacks board.now attacks.now }
    ensures { IfOk result (λ lines. AreChainLines board.now lines.items) }
{
    let mut lines = Vec::new(alloc);
    'chains: for number in 0..board.size().area() {
        add_chain(alloc, &mut lines, board, attacks, Point(number))?;
    }
    Ok(lines)
}

fn life_word(alive: bool) -> &'static str
    ensures { result.now ≡ life_word alive }
{
    if alive {
        return "alive";
    }
    "open"
}

/// Appends the line of a chain.
#[tactic(auto, using(std::proofs::Common::append_assoc), unfolding(crate::specs::Chains::chain_line))]
fn write_chain(text: &mut String, size: Size, line: &ChainLine) -> Result<(), AllocError>
    requires { line.now.lowest < size.columns * size.rows }
    ensures { OnOk result
        (string_bytes text.new ≡ string_bytes text.old ++ chain_line size.columns line.now) }
{
    text.push_str("chain ")?;
    write_name(text, size, line.lowest)?;
    let colour = colour_word(line.colour);
    let stones = line.stones;
    let life = life_word(line.alive);
    writeln!(text, " {colour} stones {stones} {life}")
}

/// Appends a placing of an attack.
#[tactic(auto, using(std::proofs::Common::append_assoc), unfolding(crate::specs::Chains::placing))]
fn write_placing(text: &mut String, size: Size, point: Point) -> Result<(), AllocError>
    requires { point < size.columns * size.rows }
    ensures { OnOk result
        (string_bytes text.new ≡ string_bytes text.old ++ placing size.columns point) }
{
    text.push_str(" ")?;
    write_name(text, size, point)
}

/// Appends the placings of an attack.
#[tactic(auto, using(std::proofs::Common::append_assoc))]
fn write_placings(text: &mut String, size: Size, attack: &[Point]) -> Result<(), AllocError>
    requires { All (λ p. p < size.columns * size.rows) attack.now }
    ensures { OnOk result (string_bytes text.new ≡ string_bytes text.old ++ flat_map
        (placing size.columns) attack.now) }
{
    'placing: for point in attack {
        write_placing(text, size, *point)?;
    }
    Ok(())
}

/// Appends the line of an attack.
#[tactic(auto, using(std::proofs::Common::append_assoc), unfolding(crate::specs::Chains::attack_line))]
fn write_attack(text: &mut String, size: Size, attack: &[Point]) -> Result<(), AllocError>
    requires { All (λ p. p < size.columns * size.rows) attack.now }
    ensures { OnOk result
        (string_bytes text.new ≡ string_bytes text.old ++ attack_line size.columns attack.now) }
{
    text.push_str("attack")?;
    write_placings(text, size, attack)?;
    text.push_str("\n")
}

/// Appends the line of a chain, and that of an attack where it is open.
#[tactic(auto, using(std::proofs::Common::append_assoc))]
fn write_life(text: &mut String, size: Size, line: &ChainLine) -> Result<(), AllocError>
    requires lowest { line.now.lowest < size.columns * size.rows }
    requires attack { line.now.alive ≡ false → All
        (λ p. p < size.columns * size.rows) line.now.attack.items }
    ensures { OnOk result
        (string_bytes text.new ≡ string_bytes text.old ++ chain_lines size.columns line.now) }
{
    write_chain(text, size, line)?;
    if !line.alive {
        write_attack(text, size, &line.attack)?;
    }
    Ok(())
}

/// Appends the lines of chains.
#[tactic(auto, using(std::proofs::Common::append_assoc))]
pub(crate) fn write_chains(
    text: &mut String,
    size: Size,
    lines: &[ChainLine],
) -> Result<(), AllocError>
    requires lowest { All (λ l. l.lowest < size.columns * size.rows) lines.now }
    requires attacks { All (λ l. l.alive ≡ false
        → All (λ p. p < size.columns * size.rows) l.attack.items) lines.now }
    ensures { OnOk result (string_bytes text.new ≡ string_bytes text.old ++ flat_map
        (chain_lines size.columns) lines.now) }
{
    'writing: for line in lines {
        write_life(text, size, line)?;
    }
    Ok(())
}
