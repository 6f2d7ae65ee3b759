// A file of a database, in memory, and with its bytes in a file too where there is one.
ghost use Rattle.std.specs.Prelude.{◌≡◌, ◌+◌, ◌^◌, ◌<◌, length, [], None, IsSome, true, refl, is_ok, is_some, IsTrue, IfOk, OnOk};
ghost use Rattle.std.specs.Option.{ForSome};
ghost use Rattle.sqlite_disk.specs.Disk.{Torn, Mixed, Cut, CountsFault, Holds};
ghost use Rattle.sqlite_disk.specs.Tally.{CountsRefusal};
ghost use Rattle.memory_disk.specs.Copies.{usable_in, faults_in, mixing_in, tally_in, Reaches, IsLong, IsDurable, IsSettled};

use crate::{MemoryDisk, behind, counted, overwrite};
use sqlite_disk::{Disk, Tally};
use sqlite_std_file::File;
use std::alloc::Global;
use std::io;

/// A file of a database whose bytes lie in memory, and in a file as well where it was made of one. Each
/// read is answered from memory, so that none gives anything but what was written. Each write, cut and
/// sync goes to the file first.
///
/// So what this process reads doesn't rest on the file. What the next process finds does, and of that
/// nothing is said here.
#[derive(Drop)]
pub struct StoreDisk {
    file: Option<File>,
    copy: MemoryDisk,
}

impl StoreDisk {
    /// An empty one, in memory alone.
    pub fn new(alloc: Global) -> StoreDisk
        ensures alone { result.file ≡ None }
        ensures empty { result.copy.bytes.items ≡ [] }
    {
        StoreDisk {
            file: None,
            copy: MemoryDisk::new(alloc),
        }
    }

    /// Reads the file into memory. The error is that of the file, or that there was no memory.
    pub fn of(alloc: Global, file: File) -> io::Result<StoreDisk>
        requires { IsTrue (⟦<File as Disk>⟧.is_usable file) }
        ensures usable { IfOk result (λ disk. IsTrue (usable_in ⟦<File as Disk>⟧ disk.file)) }
        ensures behind { IfOk result (λ disk. IsSome disk.file) }
        ensures copied { IfOk result (λ disk. ForSome disk.file (λ read.
            IsTrue (⟦<File as Disk>⟧.is_clean read)
            → disk.copy.bytes.items ≡ ⟦<File as Disk>⟧.seen file)) }
    {
        let mut file = file;
        let copy = copy_of(alloc, &mut file)?;
        Ok(StoreDisk {
            file: Some(file),
            copy,
        })
    }

    /// Reads the file behind it back, if there is one, and makes it last on the disk. Ok says that it holds
    /// what is read here. The error is that of the file, `InvalidData` where it holds anything else, or that
    /// there was no memory. The bytes in memory stay as they are.
    pub fn settle(&mut self, alloc: Global) -> io::Result<()>
        requires { IsTrue (usable_in ⟦<File as Disk>⟧ self.old.file) }
        ensures settled { OnOk result
            (IsSettled ⟦<File as Disk>⟧ self.new.copy.bytes.items self.new.file) }
        ensures same { self.new.copy ≡ self.old.copy }
        ensures behind { is_some self.new.file ≡ is_some self.old.file }
    {
        behind::settle(alloc, &mut self.file, self.copy.bytes.as_slice())
    }
}

// A copy in memory of a file.
pub(crate) fn copy_of<D: Disk>(alloc: Global, file: &mut D) -> io::Result<MemoryDisk>
    requires { IsTrue (D.Disk.is_usable file.old) }
    ensures usable { OnOk result (IsTrue (D.Disk.is_usable file.new)) }
    ensures seen { OnOk result (D.Disk.seen file.new ≡ D.Disk.seen file.old) }
    ensures copied { IfOk result (λ copy. IsTrue (D.Disk.is_clean file.new)
        → copy.bytes.items ≡ D.Disk.seen file.old) }
{
    let len = file.len()?;
    let mut copy = MemoryDisk::new(alloc);
    copy.set_len(len)?;
    file.read_at(0, copy.bytes.as_mut_slice())?;
    Ok(copy)
}

impl Disk for StoreDisk {
    ghost seen = { λ disk. disk.copy.bytes.items };

    ghost may_leave = { λ disk found. found ≡ disk.copy.bytes.items };

    ghost is_usable = { λ disk. usable_in ⟦<File as Disk>⟧ disk.file };

    ghost faults = { λ disk. faults_in ⟦<File as Disk>⟧ disk.file + disk.copy.faults };

    ghost is_clean = { λ _. true };

    ghost tally_of = { λ disk. tally_in ⟦<File as Disk>⟧ disk.file };

    ghost key_of = { λ _. 0 };

    ghost is_fair = { λ _ _. true };

    ghost fair_if_clean = { λ _ _ _. refl };

    ghost seen_may_stay = { λ disk. refl };

    ghost is_mixing = { λ disk. mixing_in ⟦<File as Disk>⟧ disk.file };

    fn mixes(&self) -> bool {
        behind::mixes(&self.file)
    }

    fn key(&self) -> u64 {
        0
    }

    fn tally(&self) -> Tally {
        Tally {
            caught: 0,
            refused: behind::refused(&self.file),
        }
    }

    fn may_be_used(&self) -> bool {
        behind::is_usable(&self.file)
    }

    fn len(&mut self) -> io::Result<usize> {
        self.copy.len()
    }

    fn read_at(&mut self, at: usize, buf: &mut [u8]) -> io::Result<()> {
        self.copy.read_at(at, buf)
    }

    fn read_checked(&mut self, key: u64, want: u64, at: usize, buf: &mut [u8]) -> io::Result<()> {
        self.copy.read_checked(key, want, at, buf)
    }

    /// The file has the bytes too.
    fn write_at(&mut self, at: usize, bytes: &[u8]) -> io::Result<()>
        requires { IsTrue (usable_in ⟦<File as Disk>⟧ self.old.file) }
        ensures reaches { OnOk result (Reaches ⟦<File as Disk>⟧ at bytes.now self.new.file) }
        ensures written { OnOk result (0 < length bytes.now
            → Holds self.new.copy.bytes.items at bytes.now) }
        ensures faults { CountsFault result
            (faults_in ⟦<File as Disk>⟧ self.old.file + self.old.copy.faults)
            (faults_in ⟦<File as Disk>⟧ self.new.file + self.new.copy.faults) }
        ensures others { Torn at (length bytes.now)
            self.old.copy.bytes.items self.new.copy.bytes.items }
        ensures tally { CountsRefusal result
            (tally_in ⟦<File as Disk>⟧ self.old.file)
            (tally_in ⟦<File as Disk>⟧ self.new.file) }
        ensures usable { IsTrue (usable_in ⟦<File as Disk>⟧ self.new.file) }
        ensures mixing { mixing_in ⟦<File as Disk>⟧ self.new.file
            ≡ mixing_in ⟦<File as Disk>⟧ self.old.file }
        ensures mixed { at + length bytes.now < 2 ^ 64
            → Mixed at bytes.now self.old.copy.bytes.items self.new.copy.bytes.items }
    {
        behind::write_at(&mut self.file, at, bytes)?;
        counted(
            overwrite(&mut self.copy.bytes, at, bytes),
            &mut self.copy.faults,
        )
    }

    /// The file has this length too.
    fn set_len(&mut self, len: usize) -> io::Result<()>
        requires { IsTrue (usable_in ⟦<File as Disk>⟧ self.old.file) }
        ensures reaches { OnOk result (IsLong ⟦<File as Disk>⟧ len self.new.file) }
        ensures len { OnOk result (length self.new.copy.bytes.items ≡ len) }
        ensures faults { CountsFault result
            (faults_in ⟦<File as Disk>⟧ self.old.file + self.old.copy.faults)
            (faults_in ⟦<File as Disk>⟧ self.new.file + self.new.copy.faults) }
        ensures others { Cut len self.old.copy.bytes.items self.new.copy.bytes.items }
        ensures tally { CountsRefusal result
            (tally_in ⟦<File as Disk>⟧ self.old.file)
            (tally_in ⟦<File as Disk>⟧ self.new.file) }
        ensures usable { IsTrue (usable_in ⟦<File as Disk>⟧ self.new.file) }
    {
        behind::set_len(&mut self.file, len)?;
        self.copy.set_len(len)
    }

    /// A crash leaves no more of the file than it shows.
    fn sync(&mut self) -> io::Result<()>
        requires { IsTrue (usable_in ⟦<File as Disk>⟧ self.old.file) }
        ensures reaches { OnOk result (IsDurable ⟦<File as Disk>⟧ self.old.file self.new.file) }
        ensures faults { CountsFault result
            (faults_in ⟦<File as Disk>⟧ self.old.file + self.old.copy.faults)
            (faults_in ⟦<File as Disk>⟧ self.new.file + self.new.copy.faults) }
        ensures seen { self.new.copy.bytes.items ≡ self.old.copy.bytes.items }
        ensures tally { CountsRefusal result
            (tally_in ⟦<File as Disk>⟧ self.old.file)
            (tally_in ⟦<File as Disk>⟧ self.new.file) }
        ensures usable { usable_in ⟦<File as Disk>⟧ self.new.file ≡ is_ok result }
    {
        behind::sync(&mut self.file)
    }
}
