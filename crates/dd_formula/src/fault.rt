//! Why a rule or an automaton could not be made.
ghost use Rattle.std.specs.Prelude.{◌≡◌};

use std::alloc::AllocError;
use thiserror::Error;

/// Why a rule or an automaton could not be made.
#[derive(Debug, Drop, Error)]
pub enum RuleFault {
    /// The rule or the automaton reads a cell that lies more than 16 away along an axis.
    #[error("a cell is read that lies more than 16 away along an axis")]
    Reach,
    /// The rule or the automaton has more than 20,000 instances at some node. `Rule` and `Automaton::instances` say what
    /// instances are.
    #[error("there are more than 20000 instances at a node")]
    Instances,
    /// Compositions are nested more than 64 deep.
    #[error("a composition is nested more than 64 deep")]
    Depth,
    /// Memory ran out.
    #[error("out of memory")]
    Memory,
}

impl From<AllocError> for RuleFault {
    ghost use Rattle.dd_formula.specs.declared.fault.RuleFault.TheVariants.{Memory};

    ghost from_gives = { λ _ fault. fault ≡ Memory };

    fn from(_error: AllocError) -> RuleFault {
        RuleFault::Memory
    }
}
