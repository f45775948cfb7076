//! Why a statement failed.

ghost use Rattle.std.specs.Prelude.{◌≡◌};
ghost use Rattle.bike_schema.specs.declared.fault.StatementFault.TheVariants.{NoMemory};
ghost use Rattle.bike_schema.specs.Faults.{fault_of};

use sqlite::{Error, ErrorCode};
use sqlite_resolve::CompileError;
use sqlite_syntax::error::ParseError;
use std::alloc::AllocError;
use thiserror::Error as Message;

/// Why a statement failed. The tables are then as before the call, or as before the transaction.
#[derive(Clone, Copy, Debug, PartialEq, Eq, Message)]
pub enum StatementFault {
    /// The database or the product wanted memory that was refused.
    #[error("out of memory")]
    NoMemory,
    /// The database refused or failed, or a row holds what the product never writes.
    #[error("the store failed")]
    StoreFailed,
}

impl From<Error> for StatementFault {
    ghost from_gives = { λ error fault. fault ≡ fault_of error };

    fn from(error: Error) -> StatementFault {
        match error {
            Error::SqliteFailure(ErrorCode::OutOfMemory)
            | Error::SqlInputError(
                CompileError::OutOfMemory | CompileError::Parse(ParseError::OutOfMemory),
            ) => StatementFault::NoMemory,
            _ => StatementFault::StoreFailed,
        }
    }
}

impl From<AllocError> for StatementFault {
    ghost from_gives = { λ _ fault. fault ≡ NoMemory };

    fn from(_: AllocError) -> StatementFault {
        StatementFault::NoMemory
    }
}
