//! Why an output could not be read.
ghost use Rattle.std.specs.Prelude.{◌≡◌};
ghost use Rattle.dd_output.specs.declared.fault.ReadFault.TheVariants.{Memory};

use std::alloc::{AllocError, AllocFailed};
use thiserror::Error;

/// Why a whole output could not be read.
#[derive(Clone, Copy, Debug, PartialEq, Eq, Error)]
pub enum CertificateFault {
    /// The bytes aren't the text of an output. The number is the length, in bytes, of their longest prefix with which some
    /// output begins.
    #[error("not an output: the byte at offset {0} is wrong or missing")]
    Malformed(u64),
    /// Memory ran out.
    #[error("out of memory")]
    Memory,
}

/// Why a reader gave no value.
#[derive(Debug, Drop)]
pub(crate) enum ReadFault {
    /// Memory ran out.
    Memory,
    /// The next byte is wrong, or there is none. The number says how many bytes were left, from that byte on.
    Stopped(usize),
}

impl From<AllocError> for ReadFault {
    ghost from_gives = { λ _ fault. fault ≡ Memory };

    fn from(_: AllocError) -> ReadFault {
        ReadFault::Memory
    }
}

impl<T: Drop> From<AllocFailed<T>> for ReadFault {
    ghost from_gives = { λ _ fault. fault ≡ Memory };

    fn from(_: AllocFailed<T>) -> ReadFault {
        ReadFault::Memory
    }
}
