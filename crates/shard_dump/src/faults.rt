use rows_model::Memory;

/// Why a text isn't read as a dump.
#[derive(Clone, Copy, Debug, PartialEq, Eq)]
pub enum DumpFault {
    /// The text is none. At this offset, in bytes from 0, the first head, row or end begins that isn't
    /// right or isn't whole; or it is that of the first byte behind the end.
    Bad { place: u64 },
    /// Memory ran out.
    Memory,
}

impl From<Memory> for DumpFault {
    ghost use Rattle.std.specs.Prelude.{◌≡◌};
    ghost use Rattle.shard_dump.specs.declared.faults.DumpFault.TheVariants as faults;

    ghost from_gives = { λ _ fault. fault ≡ faults.Memory };

    fn from(_memory: Memory) -> DumpFault {
        DumpFault::Memory
    }
}

/// Why rows aren't loaded, or not all of them.
#[derive(Clone, Copy, Debug, PartialEq, Eq)]
pub enum LoadFault {
    /// The row of this number, from 0, is the first whose key is another shard's. Nothing has changed.
    Stranger { row: u64 },
    /// The next token would be the last number there is. The rows before stay loaded.
    Spent { next: u64 },
    /// Memory ran out. The rows before stay loaded, and the lease of the one in hand may stand.
    Memory,
}

impl From<Memory> for LoadFault {
    ghost use Rattle.std.specs.Prelude.{◌≡◌};
    ghost use Rattle.shard_dump.specs.declared.faults.LoadFault.TheVariants as faults;

    ghost from_gives = { λ _ fault. fault ≡ faults.Memory };

    fn from(_memory: Memory) -> LoadFault {
        LoadFault::Memory
    }
}
