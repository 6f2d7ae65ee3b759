ghost use Rattle.std.specs.Prelude.{◌≡◌, Some, codes};

use std::alloc::{AllocError, AllocFailed};
use std::error::Error;
use std::fmt;

/// Memory ran out. After it everything is as before, unless the call says otherwise.
#[derive(Clone, Copy, Debug, PartialEq, Eq)]
pub struct Memory;

impl fmt::Display for Memory {
    ghost output = { λ _. Some (codes "out of memory") };

    fn fmt<W: fmt::Write>(&self, f: &mut fmt::Formatter<W>) -> fmt::Result {
        f.write_str("out of memory")
    }
}

impl Error for Memory {}

impl From<AllocError> for Memory {
    fn from(_error: AllocError) -> Memory {
        Memory
    }
}

impl<T: Drop> From<AllocFailed<T>> for Memory {
    fn from(_error: AllocFailed<T>) -> Memory {
        Memory
    }
}

/// Why changes make no transaction.
#[derive(Clone, Copy, Debug, PartialEq, Eq)]
pub enum TxnFault {
    /// There are none, or more than 8.
    Length { count: usize },
    /// Memory ran out.
    Memory,
}

impl From<AllocError> for TxnFault {
    ghost use Rattle.rows_model.specs.declared.refusals.TxnFault.TheVariants.{Memory};

    ghost from_gives = { λ _ fault. fault ≡ Memory };

    fn from(_error: AllocError) -> TxnFault {
        TxnFault::Memory
    }
}

/// Why a transaction isn't applied. The rows are as before.
#[derive(Clone, Copy, PartialEq, Eq)]
pub enum ApplyFault {
    /// The change at this place, from 0, is the first that doesn't apply.
    Rejected { index: u32 },
    /// Memory ran out.
    Memory,
}

impl From<Memory> for ApplyFault {
    ghost use Rattle.rows_model.specs.declared.refusals.ApplyFault.TheVariants.{Memory};

    ghost from_gives = { λ _ fault. fault ≡ Memory };

    fn from(_memory: Memory) -> ApplyFault {
        ApplyFault::Memory
    }
}

impl From<AllocError> for ApplyFault {
    ghost use Rattle.rows_model.specs.declared.refusals.ApplyFault.TheVariants.{Memory};

    ghost from_gives = { λ _ fault. fault ≡ Memory };

    fn from(_error: AllocError) -> ApplyFault {
        ApplyFault::Memory
    }
}
