//! Plays each case of the folder that it is started in and of the folder `cases` in it, and prints whether all
//! went as written.
//!
//! A case is `NAME.iq`, what standard input holds, and `NAME.out`, what must be printed. The script is replayed
//! in pieces of 1, 5 and 4,096 bytes, on one shard, and has to end without a fault.
//!
//! Where there is a file `NAME.set`, it says what is run in place of this. It has a block of lines for each run,
//! with an empty line between two blocks. These lines set a run up:
//!
//! - `words replay`: the words behind the program's name, each behind one space. The run is made for each such
//!   line, of which there must be one.
//! - `pieces 1 5`: how many bytes are read or taken at once. The run is made for each number, of which there
//!   must be one.
//! - `room 30`: how many bytes can be printed in all; 4,096 without it.
//! - `reads fail 2 3`, `writes fail 1`, `keeper fails 3`, `door fails 1`, `file fails 2`: which calls fail, counted
//!   from 1. The start of the keeper and the binding of the door are their first calls. The file is that of a
//!   cache, at the path `cache`. It isn't there when the run begins.
//! - `client says quit;`: a connection, and what it sends. Here and below `;` stands for CR LF.
//!
//! Each other line tells how the run must end, and there must be a line `ends`:
//!
//! - `ends done`, or with what the program writes to standard error in place of `done`.
//! - `written 60`: only so many bytes are printed, the first of `NAME.out`. All are without it.
//! - `started yes`, `started no`: whether the store began.
//! - `commits 2`, `histories 1`, `earlier 1`, `served 3`, `closed 3`: how many commits, histories, earlier loads, ends
//!   of connections and closed connections are kept.
//! - `saved 95`: how many bytes the file of the cache has then, where 0 says that it isn't there either.
//! - `unread 14`: how many bytes of standard input were left there.
//! - `client told STORED;`, `client ended quit`: what a connection was told, and how it ended.
#![tactic(auto)]

use std::process::ExitCode;
use std::sync::Wait;
use std::thread::Threads;
use std::{fs, io};

mod endings;
mod outsides;
mod runs;
mod settings;

/// What is run, and how it must end, where no settings lie beside a script.
const PLAIN: &str =
    "words replay\npieces 1 5 4096\nends done\nstarted yes\nhistories 1\nserved 0\nunread 0\n";

fn main(rt: HostRuntime) -> ExitCode {
    match run_folder(&rt, &rt, ".").and(run_folder(&rt, &rt, "cases")) {
        Ok(()) => ExitCode::SUCCESS,
        Err(_) => ExitCode::FAILURE,
    }
}

/// Plays the cases of a folder, in the order of their names, and prints a line for each.
fn run_folder(
    rt: &HostRuntime,
    threads: &(impl Threads + Wait + Sync),
    folder: &str,
) -> io::Result<()> {
    for name in names(rt, folder)? {
        if is_as_written(rt, threads, folder, name.as_str())? {
            println!(rt; "{name}: as written")?;
        } else {
            println!(rt; "{name}: other than written")?;
        }
    }
    Ok(())
}

/// The names of the cases, in order.
fn names(rt: &HostRuntime, folder: &str) -> io::Result<Vec<String>> {
    let mut names = Vec::new(rt.alloc());
    for entry in fs::read_dir(rt, folder)? {
        if let Some(name) = entry?.file_name().strip_suffix(".iq") {
            names.push(String::from_str(rt.alloc(), name)?)?;
        }
    }
    names.sort()?;
    Ok(names)
}

/// Whether each run of a case goes as written.
fn is_as_written(
    rt: &HostRuntime,
    threads: &(impl Threads + Wait + Sync),
    folder: &str,
    name: &str,
) -> io::Result<bool> {
    let input = fs::read(rt, format!(in rt.alloc(); "{folder}/{name}.iq")?.as_str())?;
    let wanted = fs::read(rt, format!(in rt.alloc(); "{folder}/{name}.out")?.as_str())?;
    let settings = settings_of(rt, folder, name)?;
    match runs::are_met(
        threads,
        rt.alloc(),
        settings.as_str(),
        input.as_slice(),
        wanted.as_slice(),
    ) {
        Ok(are_met) => Ok(are_met),
        Err(_) => Err(io::Error::from(io::ErrorKind::OutOfMemory)),
    }
}

/// The settings of a case.
fn settings_of(rt: &HostRuntime, folder: &str, name: &str) -> io::Result<String> {
    let path = format!(in rt.alloc(); "{folder}/{name}.set")?;
    if fs::exists(rt, path.as_str())? {
        fs::read_to_string(rt, path.as_str())
    } else {
        Ok(String::from_str(rt.alloc(), PLAIN)?)
    }
}
