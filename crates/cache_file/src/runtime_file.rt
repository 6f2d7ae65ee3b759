ghost use Rattle.std.specs.Prelude.{◌≡◌, ◌≢◌, ◌≤◌, ℕ, None, Some, Ok, Err, IfOk, IfErr, IfSome, IfNone, IsSome, OnOk, OnErr};
ghost use Rattle.std.specs.IoError.{error_kind};
ghost use Rattle.std.specs.declared.io.ErrorKind.TheVariants.{NotFound, OutOfMemory};
ghost use Rattle.iq_outside.specs.declared.failures.ReadStop.TheVariants as stops;
ghost use Rattle.iq_outside.specs.Outside.{Rose, count_up};
ghost use Rattle.cache_file.specs.Files.{IsAbsent, IsTold, SameTexts, SameElsewhere, untold};

use crate::files::CacheFile;
use iq_outside::{Failed, ReadStop};
use std::alloc::Global;
use std::fs::{self, File, Files, Metadata, OpenFile};
use std::io::{self, ErrorKind, Read, Write};
use std::marker::Model;

/// The files of a runtime. It tells nothing of their texts. Contracts see the count of faults.
#[derive(Drop)]
pub struct RuntimeFile<'a, R: Files> {
    rt: &'a R,
    faults: u64,
}

impl<'a, R: Files> Model for RuntimeFile<'a, R> {
    ghost use Rattle.std.specs.Prelude.{ℕ};

    ghost Value = { ℕ };

    ghost view = { λ file. file.faults };
}

impl<'a, R: Files> RuntimeFile<'a, R> {
    /// The files of this runtime.
    pub fn new(rt: &'a R) -> RuntimeFile<'a, R>
        ensures { result ≡ 0 }
    {
        RuntimeFile { rt, faults: 0 }
    }

    /// How often it failed.
    pub fn faults(&self) -> u64
        ensures { result ≡ self.now }
    {
        self.faults
    }
}

impl<'a, R: Files> CacheFile for RuntimeFile<'a, R> {
    ghost text_at = { untold };

    ghost faults = { λ faults. faults };

    /// Reads the file whole. A path that isn't UTF-8 is a fault, and so are what is no ordinary file, and
    /// each error of the system but that there is no such file and that memory ran out.
    fn read(&mut self, alloc: Global, path: &[u8]) -> Result<Option<Vec<u8>>, ReadStop>
        ensures text { IfOk result (λ found. IfSome found
            (λ text. IsTold (untold self.old path.now) text.items)) }
        ensures none { IfOk result (λ found. IfNone found (IsAbsent (untold self.old path.now))) }
        ensures keeps { SameTexts (untold self.old) (untold self.new) }
        ensures failed_rose { result ≡ Err stops.Failed → Rose self.old self.new }
        ensures no_fault { (result ≢ Err stops.Failed) → self.new ≡ self.old }
        ensures never_falls { self.old ≤ self.new }

        ensures failed { result ≡ Err stops.Failed → self.new ≡ count_up self.old }
    {
        let answer = found_in(text_in(alloc, self.rt, path));
        if let Err(ReadStop::Failed) = &answer {
            self.faults = self.faults.saturating_add(1);
        }
        answer
    }

    /// Makes a new file beside the old one, whose name is the path and `.new`. Writes the text to it, has
    /// the system bring it to the disk, and then gives it the path. Each error is a fault, and so are a
    /// path that isn't UTF-8 and want of memory. What is at one of the two names stays, and is a fault,
    /// where it is neither empty nor the front of a cache: rows, say, or a pipe. At the new name a link
    /// stays too, and what was left there of an earlier write is removed. What another program puts there
    /// later is a fault, and stays. The new file is removed after an error, where that can be done.
    fn write(&mut self, alloc: Global, path: &[u8], text: &[u8]) -> Result<(), Failed>
        ensures saved { OnOk result (IsTold (untold self.new path.now) text.now) }
        ensures tells { OnOk result
            (IsSome (untold self.old path.now) → IsSome (untold self.new path.now)) }
        ensures others { OnOk result
            (SameElsewhere path.now (untold self.old) (untold self.new)) }
        ensures keeps { OnErr result (SameTexts (untold self.old) (untold self.new)) }
        ensures failed_rose { OnErr result (Rose self.old self.new) }
        ensures no_fault { OnOk result (self.new ≡ self.old) }
        ensures never_falls { self.old ≤ self.new }

        ensures err { OnErr result (self.new ≡ count_up self.old) }
    {
        if put(alloc, self.rt, path, text).is_ok() {
            return Ok(());
        }
        self.faults = self.faults.saturating_add(1);
        Err(Failed)
    }
}

// What a read answers, by the system's answer.
fn found_in(answer: io::Result<Vec<u8>>) -> Result<Option<Vec<u8>>, ReadStop>
    ensures found { IfOk answer (λ text. result ≡ Ok (Some text)) }
    ensures no_file { IfErr answer (λ error. error_kind error ≡ NotFound → result ≡ Ok None) }
    ensures memory { IfErr answer
        (λ error. error_kind error ≡ OutOfMemory → result ≡ Err stops.Memory) }
    ensures failed { IfErr answer (λ error. (error_kind error ≢ NotFound)
        → (error_kind error ≢ OutOfMemory) → result ≡ Err stops.Failed) }
{
    match answer {
        Ok(text) => Ok(Some(text)),
        Err(error) if error.kind() == ErrorKind::NotFound => Ok(None),
        Err(error) if error.kind() == ErrorKind::OutOfMemory => Err(ReadStop::Memory),
        Err(_) => Err(ReadStop::Failed),
    }
}

// The path as text, which the system takes.
fn path_text(path: &[u8]) -> io::Result<&str> {
    match str::from_utf8(path) {
        Ok(text) => Ok(text),
        Err(_) => Err(io::Error::from(ErrorKind::InvalidInput)),
    }
}

// All that the file has. Only an ordinary file is read: a pipe, say, may have no end.
fn text_in<R: Files>(alloc: Global, rt: &R, path: &[u8]) -> io::Result<Vec<u8>> {
    let path = path_text(path)?;
    if !fs::metadata(rt, path)?.is_file() {
        return Err(io::Error::from(ErrorKind::InvalidInput));
    }
    let mut file = fs::open(rt, path)?;
    let mut text = Vec::new(alloc);
    file.read_to_end(&mut text)?;
    Ok(text)
}

// Writes a new file, and puts it in the place of the old one.
fn put<R: Files>(alloc: Global, rt: &R, path: &[u8], text: &[u8]) -> io::Result<()> {
    let path = path_text(path)?;
    if !may_be_replaced(rt, path)? {
        return Err(io::Error::from(ErrorKind::AlreadyExists));
    }
    let mut new = String::new(alloc);
    new.push_str(path)?;
    new.push_str(".new")?;
    remove_leftover(rt, new.as_str())?;
    put_by(rt, new.as_str(), path, text)
}

// Whether a cache may take this path: there is nothing, or what gives way to one.
fn may_be_replaced<R: Files>(rt: &R, path: &str) -> io::Result<bool> {
    match fs::metadata(rt, path) {
        Ok(found) => gives_way(rt, path, &found),
        Err(error) if error.kind() == ErrorKind::NotFound => Ok(true),
        Err(error) => Err(error),
    }
}

// Removes what an earlier write left at this path. A link isn't followed: what else is there stays.
fn remove_leftover<R: Files>(rt: &R, path: &str) -> io::Result<()> {
    match fs::symlink_metadata(rt, path) {
        Ok(found) => {
            if !gives_way(rt, path, &found)? {
                return Err(io::Error::from(ErrorKind::AlreadyExists));
            }
            fs::remove_file(rt, path)
        }
        Err(error) if error.kind() == ErrorKind::NotFound => Ok(()),
        Err(error) => Err(error),
    }
}

// Whether what was found there gives way to a cache: an ordinary file that is empty or begins as one.
fn gives_way<R: Files>(rt: &R, path: &str, found: &Metadata) -> io::Result<bool> {
    Ok(found.is_file() && (found.len() == 0 || begins_as_cache(rt, path)?))
}

// Whether the file begins as the text of a cache does.
fn begins_as_cache<R: Files>(rt: &R, path: &str) -> io::Result<bool> {
    let mut file = fs::open(rt, path)?;
    let mut front = [0u8; 8];
    match file.read_exact(&mut front) {
        Ok(()) => Ok(front == *b"iqcache "),
        Err(error) if error.kind() == ErrorKind::UnexpectedEof => Ok(false),
        Err(error) => Err(error),
    }
}

// Makes the file `new`, where nothing is, and brings the text to `path` by it. After an error it is gone.
fn put_by<R: Files>(rt: &R, new: &str, path: &str, text: &[u8]) -> io::Result<()> {
    let file = File::create_new(rt, new)?;
    let answer = bring(rt, file, text, new, path);
    if answer.is_err() {
        let _ = fs::remove_file(rt, new);
    }
    answer
}

// Writes the text to the file, brings it to the disk, and renames it from `new` to `path`.
fn bring<R: Files>(
    rt: &R,
    mut file: R::File,
    text: &[u8],
    new: &str,
    path: &str,
) -> io::Result<()> {
    file.write_all(text)?;
    file.sync_all()?;
    drop(file);
    fs::rename(rt, new, path)
}
