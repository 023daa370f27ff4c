//! The faults that can occur when a formula is expanded.
ghost use Rattle.std.specs.Prelude.{◌≡◌};
ghost use Rattle.dd_expansion.specs.declared.fault.ExpansionFault.TheVariants.{Memory};

use std::alloc::{AllocError, AllocFailed};
use thiserror::Error;

/// Why an expansion could not be made.
#[derive(Clone, Copy, Debug, PartialEq, Eq, Error)]
pub enum ExpansionFault {
    /// The expansion would have more instances than allowed.
    #[error("the expansion has too many instances")]
    Instances,
    /// Memory ran out.
    #[error("out of memory")]
    Memory,
}

impl<T: Drop> From<AllocFailed<T>> for ExpansionFault {
    ghost from_gives = { λ _ fault. fault ≡ Memory };

    fn from(_failed: AllocFailed<T>) -> ExpansionFault {
        ExpansionFault::Memory
    }
}

impl From<AllocError> for ExpansionFault {
    ghost from_gives = { λ _ fault. fault ≡ Memory };

    fn from(_error: AllocError) -> ExpansionFault {
        ExpansionFault::Memory
    }
}
