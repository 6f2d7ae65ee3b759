// The program's command line, as `clap` is told of it.
ghost use Rattle.std.specs.Prelude.{◌≡◌, IfOk, false};
ghost use Rattle.clap.specs.Words.{app_of, rule_of};
ghost use Rattle.run_words.specs.Program.{program, db_rule, values_rule, warm_rule};

use clap::{Arg, Command};
use std::alloc::{AllocError, Global};

// What the five values of `work` and of `warm` are called, and those of `serve`.
static WORK_VALUES: [&str; 5] = ["members", "sessions", "workers", "shards", "seed"];

static SERVE_VALUES: [&str; 5] = ["addr", "conns", "workers", "shards", "members"];

/// The program, with its four commands.
pub(crate) fn program<'a>(alloc: Global) -> Result<Command<'a>, AllocError>
    ensures { IfOk result (λ command. app_of command ≡ program) }
{
    let replay = Command::new(alloc, "replay")
        .about("Runs the script on standard input")
        .arg(db_path(alloc))?;
    let work = Command::new(alloc, "work")
        .about("Draws a load from a seed and runs it on workers")
        .arg(db_path(alloc))?
        .arg(five_values(alloc, &WORK_VALUES))?;
    let serve = Command::new(alloc, "serve")
        .about(
            "Serves connections on workers: so many, or any number where <conns> is the word forever",
        )
        .arg(db_path(alloc))?
        .arg(warm_path(alloc))?
        .arg(five_values(alloc, &SERVE_VALUES))?;
    let warm = Command::new(alloc, "warm")
        .about(
            "Runs a load, and then the next one over a cache that takes over what is still right",
        )
        .arg(db_path(alloc))?
        .arg(five_values(alloc, &WORK_VALUES))?;
    Command::new(alloc, "iq")
        .about("A cache that never shows an answer older than a session may see")
        .version("0.1.0")
        .no_binary_name(true)
        .subcommand_required(true)
        .subcommand(replay)?
        .subcommand(work)?
        .subcommand(serve)?
        .subcommand(warm)
}

// The path of the file in which the rows lie.
fn db_path<'a>(alloc: Global) -> Arg<'a>
    ensures rule { rule_of result ≡ db_rule }
    ensures local { result.global ≡ false }
{
    Arg::new(alloc, "db")
        .long("db")
        .value_name("path")
        .help("Keeps the rows in this SQLite file")
}

// The path of the file of a cache.
fn warm_path<'a>(alloc: Global) -> Arg<'a>
    ensures rule { rule_of result ≡ warm_rule }
    ensures local { result.global ≡ false }
{
    Arg::new(alloc, "warm").long("warm").value_name("path").help(
        "Takes the cache over from this file, and writes it there at the end",
    )
}

// Five values, which help calls by these names.
fn five_values<'a>(alloc: Global, names: &'a [&'a str; 5]) -> Arg<'a>
    ensures rule { rule_of result ≡ values_rule }
    ensures local { result.global ≡ false }
{
    Arg::new(alloc, "values")
        .value_names(names.as_slice())
        .num_args(5)
        .required(true)
}
