//! A rule that is made without a script, and whether a configuration obeys it.
ghost use Rattle.std.specs.Prelude.{◌≡◌, IfOk};
ghost use Rattle.dd_formula.specs.Living.{IsMembership};
ghost use Rattle.dd_examples.specs.Squares.{symbol_after, hard_formula, hard, chessboard};

use dd_formula::{Formula, Membership, Rule, RuleFault, Term};
use dd_pattern::Periodic;
use dd_topology::{Kind, Sets, Topology};
use dd_values::{Boxed, Items};
use std::alloc::{AllocError, Global};

/// The number of the label `up` in the square topology.
const UP: u32 = 0;

/// The number of the label `rt` in the square topology.
const RIGHT: u32 = 2;

/// The formula that says that the cell at the end of these moves from the cell `o` has this symbol. Variable 0 is `o`.
fn symbol_after(alloc: Global, moves: &[u32], symbol: u32) -> Result<Formula, AllocError>
    ensures { IfOk result (λ formula. formula ≡ symbol_after moves.now symbol) }
{
    let moves = Items::from_slice(alloc, moves)?;
    Ok(Formula::Symbol {
        term: Term { variable: 0, moves },
        symbol,
    })
}

/// The formula `o=1 -> (o.rt=0 & o.up=0)`: a 1 has a 0 to its right and above it.
pub(crate) fn hard_formula(alloc: Global) -> Result<Formula, AllocError>
    ensures { IfOk result (λ formula. formula ≡ hard_formula) }
{
    let mut zeros = Items::new(alloc);
    zeros.push(symbol_after(alloc, &[RIGHT], 0)?)?;
    zeros.push(symbol_after(alloc, &[UP], 0)?)?;
    let one = Boxed::new(alloc, symbol_after(alloc, &[], 1)?)?;
    let both = Boxed::new(alloc, Formula::And(zeros))?;
    Ok(Formula::Implies(one, both))
}

/// The rule of hard squares, over the square topology and the symbols 0 and 1.
pub fn hard_squares(alloc: Global) -> Result<Rule, RuleFault>
    ensures { IfOk result (λ rule. rule ≡ hard) }
{
    let topology = Topology::builtin(alloc, Kind::Square)?;
    let sets = Sets::new(alloc, 1, 2)?;
    let formula = hard_formula(alloc)?;
    Rule::new(alloc, &topology, &sets, formula)
}

/// The chessboard. Its periods are 2 and 2, and its rows are 1 0 and 0 1.
#[tactic(auto, using(crate::proofs::Board::is_board))]
pub(crate) fn chessboard(alloc: Global) -> Result<Periodic, AllocError>
    ensures { IfOk result (λ board. board ≡ chessboard) }
{
    let symbols: Vec<u32> = Vec::from_slice(alloc, &[1, 0, 0, 1])?;
    match Periodic::new(2, [2, 2, 1], 0, 1, symbols) {
        Ok(board) => Ok(board),
        Err(_) => unreachable!(),
    }
}

/// Whether the chessboard obeys the rule of hard squares at every position of the plane.
#[tactic(auto, using(crate::proofs::Board::fits_board))]
pub fn chessboard_membership(alloc: Global) -> Result<Membership, RuleFault>
    ensures { IfOk result (IsMembership hard chessboard) }
{
    let rule = hard_squares(alloc)?;
    let board = chessboard(alloc)?;
    Ok(rule.member(&board))
}
