ghost use Rattle.iq_outside.specs.declared.failures.ReadStop.TheVariants.{Failed as failed, Memory as memory};
ghost use Rattle.iq_outside.specs.Failures.{stop_text, short_text};
ghost use Rattle.std.specs.Prelude.{◌≡◌, Some, codes};

use rows_model::Memory;
use std::alloc::AllocError;
use std::error::Error;
use std::fmt;

/// A read or a write failed. The count of faults of the object that answers it rose in that call,
/// and no byte was given or taken.
#[derive(Clone, Copy, Debug, PartialEq, Eq)]
pub struct Failed;

impl fmt::Display for Failed {
    ghost output = { λ _. Some (codes "the outside failed") };

    fn fmt<W: fmt::Write>(&self, f: &mut fmt::Formatter<W>) -> fmt::Result {
        f.write_str("the outside failed")
    }
}

impl Error for Failed {}

/// Why a source wasn't read to the end or to the limit.
#[derive(Clone, Copy, Debug, PartialEq, Eq)]
pub enum ReadStop {
    /// A read failed.
    Failed,
    /// Memory ran out.
    Memory,
}

impl fmt::Display for ReadStop {
    ghost output = { λ stop. Some (stop_text stop) };

    fn fmt<W: fmt::Write>(&self, f: &mut fmt::Formatter<W>) -> fmt::Result {
        match self {
            ReadStop::Failed => Failed.fmt(f),
            ReadStop::Memory => Memory.fmt(f),
        }
    }
}

impl Error for ReadStop {}

impl From<Failed> for ReadStop {
    ghost from_gives = { λ _ stop. stop ≡ failed };

    fn from(_error: Failed) -> ReadStop {
        ReadStop::Failed
    }
}

impl From<AllocError> for ReadStop {
    ghost from_gives = { λ _ stop. stop ≡ memory };

    fn from(_error: AllocError) -> ReadStop {
        ReadStop::Memory
    }
}

/// A write of many bytes stopped at a fault, before all were taken.
#[derive(Clone, Copy, Debug, PartialEq, Eq)]
pub struct Short {
    /// How many bytes were taken.
    pub written: usize,
}

impl fmt::Display for Short {
    ghost output = { λ short. Some (short_text short.written) };

    fn fmt<W: fmt::Write>(&self, f: &mut fmt::Formatter<W>) -> fmt::Result {
        write!(f, "a write failed after {} bytes", self.written)
    }
}

impl Error for Short {}
