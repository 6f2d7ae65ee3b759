// The file behind a copy in memory, where there is one.
ghost use Rattle.std.specs.Prelude.{◌≡◌, ◌+◌, IsTrue, Some, is_ok, is_some, OnOk};
ghost use Rattle.sqlite_disk.specs.Disk.{CountsFault};
ghost use Rattle.memory_disk.specs.Copies.{usable_in, faults_in, refused_in, mixing_in, Reaches, IsLong, IsDurable, IsSettled, CountsFull};

use crate::stored::copy_of;
use sqlite_disk::Disk;
use std::alloc::Global;
use std::io;

// Whether no sync of it has failed.
pub(crate) fn is_usable<D: Disk>(file: &Option<D>) -> bool
    ensures { result ≡ usable_in D.Disk file.now }
{
    match file {
        Some(file) => file.may_be_used(),
        None => true,
    }
}

// How many of its calls a full disk refused.
pub(crate) fn refused<D: Disk>(file: &Option<D>) -> u64
    ensures { result ≡ refused_in D.Disk file.now }
{
    match file {
        Some(file) => file.tally().refused,
        None => 0,
    }
}

// Whether a crash leaves each byte of a torn write in it old or new.
pub(crate) fn mixes<D: Disk>(file: &Option<D>) -> bool
    ensures { result ≡ mixing_in D.Disk file.now }
{
    match file {
        Some(file) => file.mixes(),
        None => false,
    }
}

// Writes the bytes at this place.
pub(crate) fn write_at<D: Disk>(file: &mut Option<D>, at: usize, bytes: &[u8]) -> io::Result<()>
    requires { IsTrue (usable_in D.Disk file.old) }
    ensures reaches { OnOk result (Reaches D.Disk at bytes.now file.new) }
    ensures faults { CountsFault result (faults_in D.Disk file.old) (faults_in D.Disk file.new) }
    ensures full { CountsFull result (refused_in D.Disk file.old) (refused_in D.Disk file.new) }
    ensures usable { IsTrue (usable_in D.Disk file.new) }
    ensures mixing { mixing_in D.Disk file.new ≡ mixing_in D.Disk file.old }
{
    match file {
        Some(file) => file.write_at(at, bytes),
        None => Ok(()),
    }
}

// Gives it this length.
pub(crate) fn set_len<D: Disk>(file: &mut Option<D>, len: usize) -> io::Result<()>
    requires { IsTrue (usable_in D.Disk file.old) }
    ensures reaches { OnOk result (IsLong D.Disk len file.new) }
    ensures faults { CountsFault result (faults_in D.Disk file.old) (faults_in D.Disk file.new) }
    ensures full { CountsFull result (refused_in D.Disk file.old) (refused_in D.Disk file.new) }
    ensures usable { IsTrue (usable_in D.Disk file.new) }
{
    match file {
        Some(file) => file.set_len(len),
        None => Ok(()),
    }
}

// A crash leaves no more of it than it shows.
pub(crate) fn sync<D: Disk>(file: &mut Option<D>) -> io::Result<()>
    requires { IsTrue (usable_in D.Disk file.old) }
    ensures reaches { OnOk result (IsDurable D.Disk file.old file.new) }
    ensures faults { CountsFault result (faults_in D.Disk file.old) (faults_in D.Disk file.new) }
    ensures full { CountsFull result (refused_in D.Disk file.old) (refused_in D.Disk file.new) }
    ensures usable { usable_in D.Disk file.new ≡ is_ok result }
{
    match file {
        Some(file) => file.sync(),
        None => Ok(()),
    }
}

// Finds these bytes in it, and no others, and makes them last there.
pub(crate) fn settle<D: Disk>(alloc: Global, file: &mut Option<D>, bytes: &[u8]) -> io::Result<()>
    requires { IsTrue (usable_in D.Disk file.old) }
    ensures settled { OnOk result (IsSettled D.Disk bytes.now file.new) }
    ensures behind { is_some file.new ≡ is_some file.old }
{
    match file {
        Some(file) => settle_one(alloc, file, bytes),
        None => Ok(()),
    }
}

// Finds these bytes in the file, and no others, and makes them last there.
fn settle_one<D: Disk>(alloc: Global, file: &mut D, bytes: &[u8]) -> io::Result<()>
    requires { IsTrue (D.Disk.is_usable file.old) }
    ensures { OnOk result (IsSettled D.Disk bytes.now (Some file.new)) }
{
    let found = copy_of(alloc, file)?;
    if found.bytes.as_slice() != bytes {
        return Err(io::ErrorKind::InvalidData.into());
    }
    file.sync()
}
