//! The results of readers, and the reasons why a reader may read nothing.
ghost use Rattle.std.specs.Prelude.{◌≡◌};
ghost use Rattle.dd_written.specs.declared.fault.ReadFault.TheVariants.{Memory};

use crate::lexeme::Lexeme;
use std::alloc::AllocError;
use thiserror::Error;

/// The result of a reader: the item that it read from the front of some tokens and the tokens after that item, or a fault.
pub(crate) type Read<'a, T> = Result<(T, &'a [Lexeme]), ReadFault>;

/// Why nothing was read from the tokens.
#[derive(Debug, Drop, Error)]
pub enum ReadFault {
    /// The reader can't read its item from the front of the tokens.
    #[error("not well formed")]
    Syntax,
    /// Memory ran out.
    #[error("out of memory")]
    Memory,
}

impl From<AllocError> for ReadFault {
    ghost from_gives = { λ _ fault. fault ≡ Memory };

    fn from(_error: AllocError) -> ReadFault {
        ReadFault::Memory
    }
}
