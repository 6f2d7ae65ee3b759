// The files of a database, which are read into memory as they are opened.
ghost use Rattle.std.specs.Prelude.{◌≡◌, IsTrue, IfOk};
ghost use Rattle.memory_disk.specs.Copies.{IsSettled};
ghost use Rattle.sqlite_keeper.specs.Closings.{AreWhole};

use crate::base::Base;
use memory_disk::StoreDisk;
use sql_keeper::KeepFault;
use sqlite::{Connection, File, FileStore, Files, Options, Unknown};
use sqlite_disk::Disk;
use sqlite_std_file::OpenError;
use sqlite_tables::fault_of;
use std::alloc::Global;
use std::hash::{BuildHasher, RandomState};
use std::rt::HostRuntime;
use std::{io, str};

// How long a page of a database in memory is. A commit takes the digest of each page that it writes, and
// copies it some times. So it costs less by pages of 1,024 bytes than by those of 4,096 that a new file
// gets.
const SHORT_PAGE: usize = 1024;

// How the one page of an empty database with short pages begins: with the header of the file and that of
// a page with no rows. All behind it is zeros.
const SHORT_HEAD: [u8; 108] = [
    83, 81, 76, 105, 116, 101, 32, 102, 111, 114, 109, 97, 116, 32, 51, 0, 4, 0, 2, 2, 0, 64, 32,
    32, 0, 0, 0, 0, 0, 0, 0, 1, 0, 0, 0, 0, 0, 0, 0, 0, 0, 0, 0, 1, 0, 0, 0, 4, 0, 0, 0, 0, 0, 0,
    0, 0, 0, 0, 0, 1, 0, 0, 0, 0, 0, 0, 0, 0, 0, 0, 0, 0, 0, 0, 0, 0, 0, 0, 0, 0, 0, 0, 0, 0, 0, 0,
    0, 0, 0, 0, 0, 0, 0, 0, 0, 0, 0, 46, 118, 136, 13, 0, 0, 0, 0, 4, 0, 0,
];

// A file in memory of an empty database with short pages.
pub(crate) fn short_paged(alloc: Global) -> Result<StoreDisk, KeepFault>
    ensures { IfOk result (λ disk. IsTrue (⟦<StoreDisk as Disk>⟧.is_usable disk)) }
{
    let mut disk = StoreDisk::new(alloc);
    match put_short_page(&mut disk) {
        Ok(()) => Ok(disk),
        Err(error) => Err(read_fault(error)),
    }
}

// Writes the page of an empty database with short pages.
fn put_short_page(disk: &mut StoreDisk) -> io::Result<()>
    requires { IsTrue (⟦<StoreDisk as Disk>⟧.is_usable disk.old) }
    ensures { IsTrue (⟦<StoreDisk as Disk>⟧.is_usable disk.new) }
{
    disk.write_at(0, &SHORT_HEAD)?;
    disk.set_len(SHORT_PAGE)
}

// The same options, where as many bytes are kept in as many more pages.
pub(crate) fn in_short_pages(options: Options) -> Options {
    Options {
        cache_pages: 8_000,
        spill_pages: 8_000,
        checkpoint_frames: 4_000,
        seed: options.seed,
    }
}

// The database of the file at a path, which is made where it is missing, read into memory. From then on
// each read is answered from there: it gives what the file held when it was read, and what was written
// since.
pub(crate) fn open_file(
    rt: &HostRuntime,
    path: &[u8],
) -> Result<Connection<FileStore<StoreDisk>>, KeepFault> {
    let files = files_at(rt, path)?;
    let options = Options::new(random(rt)?);
    match Connection::open_files(rt.alloc(), files, options) {
        Ok(conn) => Ok(conn),
        Err((error, _)) => Err(fault_of(error)),
    }
}

// The file at a path and its log, read into memory. A name that `sqlite` doesn't take for a path is
// refused.
fn files_at(rt: &HostRuntime, path: &[u8]) -> Result<Files<StoreDisk>, KeepFault>
    ensures log { IfOk result (λ files. IsTrue (⟦<StoreDisk as Disk>⟧.is_usable files.log)) }
    ensures db { IfOk result (λ files. IsTrue (⟦<StoreDisk as Disk>⟧.is_usable files.db)) }
{
    let Ok(path) = str::from_utf8(path) else {
        return Err(KeepFault::Failed);
    };
    if path == ":memory:" || path.starts_with("file:") {
        return Err(KeepFault::Failed);
    }
    match sqlite_std_file::open(rt, path, Unknown) {
        Ok(files) => copied(rt.alloc(), files),
        Err(OpenError::OutOfMemory) => Err(KeepFault::Memory),
        Err(OpenError::Io(error)) => Err(read_fault(error)),
        Err(_) => Err(KeepFault::Failed),
    }
}

// The two files, read into memory.
fn copied(alloc: Global, files: Files<File>) -> Result<Files<StoreDisk>, KeepFault>
    requires log { IsTrue (⟦<File as Disk>⟧.is_usable files.log) }
    requires db { IsTrue (⟦<File as Disk>⟧.is_usable files.db) }
    ensures log { IfOk result (λ copies. IsTrue (⟦<StoreDisk as Disk>⟧.is_usable copies.log)) }
    ensures db { IfOk result (λ copies. IsTrue (⟦<StoreDisk as Disk>⟧.is_usable copies.db)) }
{
    let Files { log, db } = files;
    match StoreDisk::of(alloc, log) {
        Ok(log) => match StoreDisk::of(alloc, db) {
            Ok(db) => Ok(Files { log, db }),
            Err(error) => Err(read_fault(error)),
        },
        Err(error) => Err(read_fault(error)),
    }
}

// Ends a database, and gives its two files, which were read back.
pub(crate) fn close_base(
    alloc: Global,
    base: Base<FileStore<StoreDisk>>,
) -> Result<Files<StoreDisk>, KeepFault>
    ensures whole { IfOk result (AreWhole ⟦<StoreDisk as Disk>⟧ base) }
    ensures log { IfOk result (λ files.
        IsSettled ⟦<File as Disk>⟧ files.log.copy.bytes.items files.log.file) }
    ensures db { IfOk result (λ files.
        IsSettled ⟦<File as Disk>⟧ files.db.copy.bytes.items files.db.file) }
{
    let Files { log, db } = base.close()?;
    let log = settled(alloc, log)?;
    let db = settled(alloc, db)?;
    Ok(Files { log, db })
}

// The same file, which was read back.
fn settled(alloc: Global, disk: StoreDisk) -> Result<StoreDisk, KeepFault>
    requires { IsTrue (⟦<StoreDisk as Disk>⟧.is_usable disk) }
    ensures same { IfOk result (λ found. found.copy ≡ disk.copy) }
    ensures settled { IfOk result (λ found.
        IsSettled ⟦<File as Disk>⟧ found.copy.bytes.items found.file) }
{
    let mut disk = disk;
    match disk.settle(alloc) {
        Ok(()) => Ok(disk),
        Err(error) => Err(read_fault(error)),
    }
}

// A fault of opening or reading a file, of which want of memory is told apart.
fn read_fault(error: io::Error) -> KeepFault {
    match error.kind() {
        io::ErrorKind::OutOfMemory => KeepFault::Memory,
        _ => KeepFault::Failed,
    }
}

// A number for the salts of a log.
fn random(rt: &HostRuntime) -> Result<u64, KeepFault> {
    match RandomState::new(rt) {
        Ok(state) => Ok(state.hash_one(&0u8)),
        Err(_) => Err(KeepFault::Failed),
    }
}
