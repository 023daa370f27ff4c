//! The reasons why a call to this crate may fail.
ghost use Rattle.std.specs.Prelude.{◌≡◌};

use std::alloc::AllocError;
use thiserror::Error;

/// Why a call to this crate failed.
#[derive(Clone, Copy, Debug, PartialEq, Eq, Error)]
pub enum RowsFault {
    /// Some prefix of the list of cells has more than 65,536 admissible fillings, or the program would have more than 256
    /// columns or more than 2,048 rows.
    #[error("there are too many fillings, columns or rows")]
    Large,
    /// Memory ran out.
    #[error("out of memory")]
    Memory,
}

impl From<AllocError> for RowsFault {
    ghost use Rattle.dd_rows.specs.declared.fault.RowsFault.TheVariants.{Memory};

    ghost from_gives = { λ _ fault. fault ≡ Memory };

    fn from(_error: AllocError) -> RowsFault {
        RowsFault::Memory
    }
}
