//! The program: the words behind its name, standard input, standard output, connections over TCP, and an
//! exit status. The rows of its store lie in an SQL database: in memory, or in the file that `--db` names.
//! The cache of a server lies in the file that `--warm` names, while the server doesn't run.
#![tactic(auto)]

use cache_file::RuntimeFile;
use iq_outside::{OpenGate, ReaderSource, RuntimeClock, TcpDoor, WriterSink};
use sqlite_keeper::SqliteKeeper;
use std::process::ExitCode;
use std::{env, io};
use top_run::{Status, run};

fn main(rt: HostRuntime) -> ExitCode {
    let status = match words(&rt) {
        Ok(words) => {
            // Standard input and standard output have no buffer.
            let mut source = ReaderSource::new(rt.stdin());
            let mut sink = WriterSink::new(rt.stdout());
            let keeper = SqliteKeeper::new(&rt);
            let mut file = RuntimeFile::new(&rt);
            let mut door = TcpDoor::new(&rt);
            let clock = RuntimeClock::new(&rt);
            let mut end = run(
                &rt,
                rt.alloc(),
                words.as_slice(),
                &mut source,
                &mut sink,
                keeper,
                &mut file,
                &mut door,
                &clock,
                &OpenGate,
            );
            // What isn't copied into the file stays in its log, where the next start finds it.
            let _ = end.keeper.close();
            end.status
        }
        Err(status) => status,
    };
    tell(&rt, status);
    ExitCode::from(status.exit_code())
}

/// The words behind the program's name, or how it ends without them.
fn words(rt: &HostRuntime) -> Result<Vec<Vec<u8>>, Status> {
    let mut words = Vec::new(rt.alloc());
    let mut at_name = true;
    for word in env::args(rt).map_err(|error| ended_by(&error))? {
        if at_name {
            at_name = false;
            continue;
        }
        if words.push(word.into_bytes()).is_err() {
            return Err(Status::Memory);
        }
    }
    Ok(words)
}

/// How the program ends where its words can't be read. A word that isn't UTF-8 is a faulty one.
fn ended_by(error: &io::Error) -> Status {
    match error.kind() {
        io::ErrorKind::OutOfMemory => Status::Memory,
        _ => Status::Usage,
    }
}

/// Writes the one line of a fault to standard error.
fn tell(rt: &HostRuntime, status: Status) {
    if status != Status::Done {
        // There is nowhere left to tell that a write failed.
        let _ = eprintln!(rt; "{status}");
    }
}
