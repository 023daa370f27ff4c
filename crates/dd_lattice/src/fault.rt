//! The faults of regions and of lists of cells.
ghost use Rattle.std.specs.Prelude.{◌≡◌};
ghost use Rattle.dd_lattice.specs.declared.fault.LatticeFault.TheVariants.{Memory};

use std::alloc::{AllocError, AllocFailed};
use thiserror::Error;

/// Why a region or a list of cells could not be made.
#[derive(Clone, Copy, Debug, PartialEq, Eq, Error)]
pub enum LatticeFault {
    /// A coordinate would exceed 2^20 in absolute value.
    #[error("a coordinate would exceed 2^20 in absolute value")]
    Range,
    /// Memory ran out.
    #[error("out of memory")]
    Memory,
}

impl<T: Drop> From<AllocFailed<T>> for LatticeFault {
    ghost from_gives = { λ _ fault. fault ≡ Memory };

    fn from(_failed: AllocFailed<T>) -> LatticeFault {
        LatticeFault::Memory
    }
}

impl From<AllocError> for LatticeFault {
    ghost from_gives = { λ _ fault. fault ≡ Memory };

    fn from(_error: AllocError) -> LatticeFault {
        LatticeFault::Memory
    }
}
