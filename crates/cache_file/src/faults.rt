use rows_model::Memory;
use std::alloc::AllocError;

/// Why a text isn't read as a cache.
#[derive(Clone, Copy, Debug, PartialEq, Eq)]
pub enum CacheFault {
    /// The text is none of so many shards.
    Bad,
    /// Memory ran out.
    Memory,
}

impl From<Memory> for CacheFault {
    ghost use Rattle.std.specs.Prelude.{◌≡◌};
    ghost use Rattle.cache_file.specs.declared.faults.CacheFault.TheVariants as faults;

    ghost from_gives = { λ _ fault. fault ≡ faults.Memory };

    fn from(_memory: Memory) -> CacheFault {
        CacheFault::Memory
    }
}

impl From<AllocError> for CacheFault {
    ghost use Rattle.std.specs.Prelude.{◌≡◌};
    ghost use Rattle.cache_file.specs.declared.faults.CacheFault.TheVariants as faults;

    ghost from_gives = { λ _ fault. fault ≡ faults.Memory };

    fn from(_error: AllocError) -> CacheFault {
        CacheFault::Memory
    }
}
