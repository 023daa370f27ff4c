//! The truth of an expansion, given the symbols of cells.
ghost use Rattle.std.specs.Prelude.{◌≡◌, if◌then◌else◌, Some, None};
ghost use Rattle.std.specs.List.{list_all, list_any};
ghost use Rattle.dd_expansion.specs.Leaves.{holds, given, seen};

use crate::expanded::Expanded;
use dd_lattice::{Cell, Position, shift};
use dd_pattern::Reads;

impl Expanded {
    /// The truth value at the position `at`. Each leaf's cell is moved by `at`, and `read` gives the symbol of the moved
    /// cell. `None` if some moved cell has no symbol or is out of range.
    #[cycle(evaluate)]
    #[tactic(auto, using(crate::specs::lemmas::Layers::holds_layers))]
    pub fn evaluate<R: Reads>(&self, at: &Position, read: &R) -> Option<bool>
        ensures { let look = seen (R.symbols read.now) at.now in
            result ≡ (if given self.now look then Some (holds self.now look) else None) }
    {
        match self {
            Expanded::Constant(value) => Some(*value),
            Expanded::Leaf { cell, symbol } => {
                let there = symbol_seen(cell, at, read)?;
                Some(there == *symbol)
            }
            Expanded::Not(inner) => {
                let value = inner.get().evaluate(at, read)?;
                Some(!value)
            }
            Expanded::And(parts) => evaluate_and(parts.as_slice(), at, read),
            Expanded::Or(parts) => evaluate_or(parts.as_slice(), at, read),
            Expanded::Iff(left, right) => {
                let first = left.get().evaluate(at, read)?;
                let second = right.get().evaluate(at, read)?;
                Some(first == second)
            }
        }
    }
}

/// The symbol that `read` gives the cell once it is moved by the position `at`. `None` if the moved cell has no symbol or
/// is out of range.
pub fn symbol_seen<R: Reads>(cell: &Cell, at: &Position, read: &R) -> Option<u32>
    ensures { result ≡ seen (R.symbols read.now) at.now cell.now }
{
    let position = shift(&cell.position, at)?;
    read.symbol(&Cell {
        position,
        node: cell.node,
    })
}

/// Whether all parts are true. Even once the value is known, the later parts are evaluated: a missing symbol there still makes
/// the answer `None`.
#[cycle(evaluate)]
fn evaluate_and<R: Reads>(parts: &[Expanded], at: &Position, read: &R) -> Option<bool>
    ensures { let look = seen (R.symbols read.now) at.now in
        result ≡ (if list_all (λ e. given e look) parts.now then Some (list_all (λ e. holds e look) parts.now) else None) }
{
    let mut value = true;
    for part in parts {
        match part.evaluate(at, read) {
            Some(is_true) => {
                value = value && is_true;
            }
            None => return None,
        }
    }
    Some(value)
}

/// Whether some part is true. As in `evaluate_and`, the later parts are evaluated even once the value is known.
#[cycle(evaluate)]
fn evaluate_or<R: Reads>(parts: &[Expanded], at: &Position, read: &R) -> Option<bool>
    ensures { let look = seen (R.symbols read.now) at.now in
        result ≡ (if list_all (λ e. given e look) parts.now then Some (list_any (λ e. holds e look) parts.now) else None) }
{
    let mut value = false;
    for part in parts {
        match part.evaluate(at, read) {
            Some(is_true) => {
                value = value || is_true;
            }
            None => return None,
        }
    }
    Some(value)
}
