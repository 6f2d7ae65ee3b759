//! Files of a database that tell no lie: all reads are answered from memory. A file behind it, where there
//! is one, gets each write too.
#![tactic(auto)]

ghost use Rattle.std.specs.Prelude.{ℕ, ◌≡◌, ◌≤◌, ◌<◌, length, slice_index, [], true, false, refl, is_ok, OnOk, OnErr};
ghost use Rattle.sqlite_disk.specs.Disk.{Holds, Torn, Mixed, Cut, CountsFault};
ghost use Rattle.sqlite_disk.specs.Refusal.{finds_no_room};

pub use stored::StoreDisk;

mod behind;
mod stored;

use sqlite_disk::{Disk, Tally};
use std::alloc::{AllocError, Global};
use std::io;

/// A file whose bytes lie in memory. A crash leaves what a read returns. A call that finds no memory
/// fails and is counted, as a full disk fails, and leaves the bytes as they were. Nothing is written
/// behind its end but zeros and what a caller writes.
#[derive(Drop)]
pub struct MemoryDisk {
    bytes: Vec<u8>,
    faults: u64,
}

impl MemoryDisk {
    /// An empty file.
    pub fn new(alloc: Global) -> MemoryDisk
        ensures { result.bytes.items ≡ [] }
    {
        MemoryDisk {
            bytes: Vec::new(alloc),
            faults: 0,
        }
    }
}

impl Disk for MemoryDisk {
    ghost seen = { λ disk. disk.bytes.items };

    ghost may_leave = { λ disk found. found ≡ disk.bytes.items };

    ghost is_usable = { λ _. true };

    ghost faults = { λ disk. disk.faults };

    ghost is_clean = { λ _. true };

    ghost tally_of = { λ disk. record { caught = 0; refused = 0 } };

    ghost key_of = { λ _. 0 };

    ghost is_fair = { λ _ _. true };

    ghost fair_if_clean = { λ _ _ _. refl };

    ghost seen_may_stay = { λ disk. refl };

    fn mixes(&self) -> bool {
        false
    }

    fn key(&self) -> u64 {
        0
    }

    fn tally(&self) -> Tally {
        Tally {
            caught: 0,
            refused: 0,
        }
    }

    fn may_be_used(&self) -> bool {
        true
    }

    fn len(&mut self) -> io::Result<usize> {
        Ok(self.bytes.len())
    }

    fn read_at(&mut self, at: usize, buf: &mut [u8]) -> io::Result<()> {
        if at > self.bytes.len() || buf.len() > self.bytes.len() - at {
            return Err(io::ErrorKind::UnexpectedEof.into());
        }
        buf.copy_from_slice(&self.bytes[at..at + buf.len()]);
        Ok(())
    }

    /// What is read is what was written, and has the digest that is wanted: it isn't taken anew.
    fn read_checked(&mut self, _key: u64, _want: u64, at: usize, buf: &mut [u8]) -> io::Result<()> {
        self.read_at(at, buf)
    }

    fn write_at(&mut self, at: usize, bytes: &[u8]) -> io::Result<()> {
        counted(overwrite(&mut self.bytes, at, bytes), &mut self.faults)
    }

    fn set_len(&mut self, len: usize) -> io::Result<()> {
        counted(resize(&mut self.bytes, len), &mut self.faults)
    }

    fn sync(&mut self) -> io::Result<()> {
        Ok(())
    }
}

// The outcome of a write, which is counted among the faults where no memory was found.
fn counted(outcome: Result<(), AllocError>, faults: &mut u64) -> io::Result<()>
    ensures variant { is_ok result ≡ is_ok outcome }
    ensures kind { finds_no_room result ≡ false }
    ensures faults { CountsFault result faults.old faults.new }
{
    if outcome.is_err() {
        *faults = faults.saturating_add(1);
        return Err(io::Error::from(io::ErrorKind::OutOfMemory));
    }
    Ok(())
}

// Cuts the file to this length, or puts zeros behind it.
fn resize(file: &mut Vec<u8>, len: usize) -> Result<(), AllocError>
    ensures len { OnOk result (length file.new.items ≡ len) }
    ensures others { Cut len file.old.items file.new.items }
    ensures zeros { OnOk result ((i : ℕ) → length file.old.items ≤ i → i < len
        → slice_index file.new.items i ≡ 0) }
    ensures kept { OnErr result (file.new.items ≡ file.old.items) }
{
    file.resize(len, 0)
}

// Writes the bytes at this place. A file that ends before it is first filled with zeros.
fn overwrite(file: &mut Vec<u8>, at: usize, bytes: &[u8]) -> Result<(), AllocError>
    ensures written { OnOk result (Holds file.new.items at bytes.now) }
    ensures others { Torn at (length bytes.now) file.old.items file.new.items }
    ensures mixed { Mixed at bytes.now file.old.items file.new.items }
    ensures zeros { OnOk result ((i : ℕ) → length file.old.items ≤ i → i < at
        → slice_index file.new.items i ≡ 0) }
    ensures kept { OnErr result (file.new.items ≡ file.old.items) }
{
    let end = at.checked_add(bytes.len()).ok_or(AllocError)?;
    if end > file.len() {
        resize(file, end)?;
    }
    file[at..end].copy_from_slice(bytes);
    Ok(())
}
