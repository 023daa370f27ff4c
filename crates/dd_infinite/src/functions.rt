//! Configurations as functions on all cells: the spike, the checkerboard, and the configurations of a script.
ghost use Rattle.std.specs.Prelude.{◌≡◌, ◌↔◌, IsTrue, IfSome, slice_get};
ghost use Rattle.std.specs.Option.{option_copied};
ghost use Rattle.dd_checker.specs.Lifted.{IsWhole};
ghost use Rattle.dd_infinite.specs.Functions.{IsForBoth, tiled};

use dd_lattice::Cell;
use dd_pattern::{Configuration, Periodic};
use dd_script::Script;

/// The symbol 1 at the origin, and 0 at all other positions. This configuration has no period.
#[derive(Debug, Clone, Copy)]
pub struct Spike;

impl Configuration for Spike {
    ghost use Rattle.dd_infinite.specs.Functions.{spike};

    ghost nodes = { λ s. 1 };

    ghost symbol_of = { λ s. spike };

    fn symbol_at(&self, cell: &Cell) -> u32 {
        let p = &cell.position;
        if p.x == 0 && p.y == 0 && p.z == 0 {
            1
        } else {
            0
        }
    }
}

/// The symbol 1 at the positions that are an odd number of steps from the origin, and 0 at all others. A step changes one
/// coordinate by 1.
#[derive(Debug, Clone, Copy)]
pub struct Checkerboard;

impl Configuration for Checkerboard {
    ghost use Rattle.dd_infinite.specs.Functions.{checkerboard};

    ghost nodes = { λ s. 1 };

    ghost symbol_of = { λ s. checkerboard };

    fn symbol_at(&self, cell: &Cell) -> u32 {
        let p = &cell.position;
        (p.x.unsigned_abs() + p.y.unsigned_abs() + p.z.unsigned_abs()) % 2
    }
}

/// Whether each position has a single node, which allows the symbols 0 and 1. Then `Spike` and `Checkerboard` have an allowed
/// symbol at each cell.
#[tactic(auto, using(crate::proofs::Whole::for_both, crate::proofs::Whole::has_rows, crate::proofs::Whole::one_node, crate::proofs::Whole::both_allowed))]
pub fn allows_both(script: &Script) -> bool
    ensures { IsTrue result ↔ IsForBoth script.now }
{
    if script.topology().nodes() != 1 {
        return false;
    }
    let sets = script.sets();
    if !sets.allows(0, 0) {
        return false;
    }
    sets.allows(0, 1)
}

/// The script's configuration with this number, counted from 0, if there is one. At each cell it has a symbol that the cell's node
/// allows.
pub fn configuration(script: &Script, number: usize) -> Option<&Periodic>
    ensures value { option_copied result ≡ slice_get script.now.configurations number }
    ensures whole { IfSome result (λ p. IsWhole script.now p.now.nodes (tiled p.now)) }
{
    let configurations = script.configurations();
    if number < configurations.len() {
        let configuration = &configurations[number];
        // This call tells the proof what the type `Periodic` guarantees.
        let _symbols = configuration.symbols();
        Some(configuration)
    } else {
        None
    }
}
