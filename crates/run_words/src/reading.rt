// How the words are read.
ghost use Rattle.std.specs.Prelude.{◌≡◌, ◌≢◌, ◌↔◌, ◌≤◌, ℕ, List, ◌∷◌, length, map, All, Some, None, Err, IfOk, IfSome, IfNone, IsTrue, MatchResult, slice_get, codes, option_map};
ghost use Rattle.std.specs.Str.{IsUtf8};
ghost use Rattle.clap.specs.Words.{kind_of, subcommand_rows_of};
ghost use Rattle.sql_keeper.specs.declared.keepers.Place.{Place};
ghost use Rattle.run_inputs.specs.declared.loads.WorkSpec.{WorkSpec};
ghost use Rattle.run_inputs.specs.Words.{AreWork};
ghost use Rattle.run_words.specs.declared.words.Conns.{Conns};
ghost use Rattle.run_words.specs.declared.words.ServeSpec.{ServeSpec};
ghost use Rattle.run_words.specs.declared.words.Words.{Words};
ghost use Rattle.run_words.specs.Words.{AreCommand, AreConns, AreServe, AreServeNumbers, AreWarm, AreWords, CanBeNamed, path_in, warm_path};
ghost use Rattle.run_words.specs.Reading.{place_in, AreGiven, AreReadAs, AreSaid, IsRead, IsRefused, IsSaid};

use crate::program::program;
use crate::words::{Conns, ServeSpec, Words, WordsFault};
use clap::error::ErrorKind;
use clap::{ArgMatches, Error};
use rows_model::Value;
use run_inputs::{WorkSpec, number_within, work_words};
use sql_keeper::Place;
use std::alloc::{AllocError, Global};
use std::str;

/// The command that the words behind the program's name ask for. Those of the table in
/// `specs/Words.antt` are read as they stand. Others are read as `clap` reads a simple command with
/// one level of subcommands, and what it reads is held to the same ranges.
///
/// `Usage` comes where they say no command, also where a word isn't UTF-8, whatever memory there
/// is. `Memory` comes where memory ran out, and then each word is UTF-8.
pub fn read_words(alloc: Global, words: &[Vec<u8>]) -> Result<Words, WordsFault>
    ensures read { IfOk result (IsRead (map (λ word. word.items) words.now)) }
    ensures usage { result ≡ Err WordsFault.Usage → (command : Words) →
        AreReadAs (map (λ word. word.items) words.now) command → ⊥ }
    ensures memory { result ≡ Err WordsFault.Memory →
        All IsUtf8 (map (λ word. word.items) words.now) }
    ensures accepts { (command : Words) → AreWords (map (λ word. word.items) words.now) command →
        MatchResult result (AreWords (map (λ word. word.items) words.now))
        (λ fault. fault ≡ WordsFault.Memory) }
{
    let texts = texts_of(alloc, words)?;
    read_texts(alloc, texts.as_slice())
}

// What clap says of the words.
fn read_texts<'a>(alloc: Global, texts: &'a [&'a str]) -> Result<Words, WordsFault>
    ensures said { IfOk result (IsSaid (map (λ text. text.now) texts.now)) }
    ensures usage { result ≡ Err WordsFault.Usage → (command : Words) →
        AreSaid (map (λ text. text.now) texts.now) command → ⊥ }
{
    let program = program(alloc)?;
    match program.try_get_matches_from(texts) {
        Ok(matches) => match command_of(alloc, &matches)? {
            Some(command) => Ok(command),
            None => Err(WordsFault::Usage),
        },
        Err(error) => text_by(alloc, &error),
    }
}

// The words as texts.
fn texts_of<'a>(alloc: Global, words: &'a [Vec<u8>]) -> Result<Vec<&'a str>, WordsFault>
    ensures texts { IfOk result (λ texts.
        map (λ text. text.now) texts.items ≡ map (λ word. word.items) words.entry.now) }
    ensures utf8 { IfOk result (λ _. All IsUtf8 (map (λ word. word.items) words.entry.now)) }
    ensures usage { result ≡ Err WordsFault.Usage →
        All IsUtf8 (map (λ word. word.items) words.entry.now) → ⊥ }
    ensures memory { result ≡ Err WordsFault.Memory →
        All IsUtf8 (map (λ word. word.items) words.entry.now) }
{
    let mut texts = Vec::new(alloc);
    for word in words {
        let Ok(text) = str::from_utf8(word) else {
            return Err(WordsFault::Usage);
        };
        let Ok(()) = texts.push(text) else {
            return Err(unlisted(words));
        };
    }
    Ok(texts)
}

// Why the words are no list of texts, where there is no memory for one: a word isn't UTF-8, or else
// memory ran out.
fn unlisted(words: &[Vec<u8>]) -> WordsFault
    ensures usage { result ≡ WordsFault.Usage →
        All IsUtf8 (map (λ word. word.items) words.now) → ⊥ }
    ensures memory { result ≡ WordsFault.Memory →
        All IsUtf8 (map (λ word. word.items) words.now) }
{
    for word in words {
        let Ok(_) = str::from_utf8(word) else {
            return WordsFault::Usage;
        };
    }
    WordsFault::Memory
}

// What clap's refusal comes to: the text that the words ask for, or a fault.
fn text_by(alloc: Global, error: &Error) -> Result<Words, WordsFault>
    ensures { IsRefused (kind_of error.now) result }
{
    match error.kind() {
        ErrorKind::DisplayHelp | ErrorKind::DisplayVersion => Ok(Words::Page {
            text: format!(in alloc; "{error}")?.into_bytes(),
        }),
        ErrorKind::OutOfMemory => Err(WordsFault::Memory),
        _ => Err(WordsFault::Usage),
    }
}

// The command that the subcommand is, with its values, and with the place and the file of a cache
// that it names.
fn command_of(alloc: Global, matches: &ArgMatches<'_>) -> Result<Option<Words>, AllocError>
    ensures found { IfOk result (λ found. IfSome found
        (AreGiven (subcommand_rows_of matches.now))) }
    ensures none { IfOk result (λ found. IfNone found ((command : Words) →
        AreGiven (subcommand_rows_of matches.now) command → ⊥)) }
{
    let Some((name, inner)) = matches.subcommand() else {
        return Ok(None);
    };
    let Some(place) = place_named(alloc, inner.get_str("db"))? else {
        return Ok(None);
    };
    let values = inner.get_raw("values").unwrap_or(&[]);
    command_named(alloc, name, values, place, inner.get_str("warm"))
}

// The place that this path names, a fresh one without it, or none where it names none.
fn place_named(alloc: Global, path: Option<&str>) -> Result<Option<Place>, AllocError>
    ensures found { IfOk result (λ found. IfSome found (λ place.
        (place ≡ place_in (option_map (λ text. text.now) path.entry)) × CanBeNamed place)) }
    ensures none { IfOk result (λ found. IfNone found
        (CanBeNamed (place_in (option_map (λ text. text.now) path.entry)) → ⊥)) }
{
    let Some(path) = path else {
        return Ok(Some(Place::Fresh));
    };
    if !is_plain_text(path.as_bytes()) {
        return Ok(None);
    }
    let path = Vec::from_slice(alloc, path.as_bytes())?;
    Ok(Some(Place::File {
        path: Value::from(path),
    }))
}

// The command of this name at this place, with these values behind it, and with the file of a cache
// at this path.
fn command_named(
    alloc: Global,
    name: &str,
    values: &[&str],
    place: Place,
    warm: Option<&str>,
) -> Result<Option<Words>, AllocError>
    ensures found { IfOk result (λ found. IfSome found
        (AreCommand (name.now ∷ map (λ value. value.now) values.now) place)) }
    ensures path { IfOk result (λ found. IfSome found (λ command.
        warm_path command ≡ option_map (λ path. path.now) warm.entry)) }
    ensures none { IfOk result (λ found. IfNone found ((command : Words) →
        AreCommand (name.now ∷ map (λ value. value.now) values.now) place command →
        warm_path command ≡ option_map (λ path. path.now) warm.entry → ⊥)) }
{
    match name {
        "serve" => match serve_of(alloc, values, warm)? {
            Some(spec) => Ok(Some(Words::Serve { place, spec })),
            None => Ok(None),
        },
        _ if warm.is_some() => Ok(None),
        "replay" if values.is_empty() => Ok(Some(Words::Replay { place })),
        "work" => match work_of(alloc, values)? {
            Some(spec) => Ok(Some(Words::Work { place, spec })),
            None => Ok(None),
        },
        "warm" => match warm_of(alloc, values)? {
            Some(spec) => Ok(Some(Words::Warm { place, spec })),
            None => Ok(None),
        },
        _ => Ok(None),
    }
}

// The load of which these are the numbers.
fn work_of(alloc: Global, values: &[&str]) -> Result<Option<WorkSpec>, AllocError>
    ensures found { IfOk result (λ found. IfSome found
        (AreWork (codes "work" ∷ map (λ value. value.now) values.now))) }
    ensures none { IfOk result (λ found. IfNone found ((spec : WorkSpec) →
        AreWork (codes "work" ∷ map (λ value. value.now) values.now) spec → ⊥)) }
{
    let mut words = Vec::with_capacity(alloc, 1 + values.len())?;
    words.push(Vec::from_slice(alloc, b"work")?)?;
    for value in values {
        words.push(Vec::from_slice(alloc, value.as_bytes())?)?;
    }
    Ok(work_words(words.as_slice()))
}

// The load of `warm` of which these are the numbers.
fn warm_of(alloc: Global, values: &[&str]) -> Result<Option<WorkSpec>, AllocError>
    ensures found { IfOk result (λ found. IfSome found
        (AreWarm (codes "warm" ∷ map (λ value. value.now) values.now))) }
    ensures none { IfOk result (λ found. IfNone found ((spec : WorkSpec) →
        AreWarm (codes "warm" ∷ map (λ value. value.now) values.now) spec → ⊥)) }
{
    work_of(alloc, values)
}

// What is served, where these are the address and the numbers, with the file of a cache at this
// path.
fn serve_of(
    alloc: Global,
    values: &[&str],
    warm: Option<&str>,
) -> Result<Option<ServeSpec>, AllocError>
    ensures found { IfOk result (λ found. IfSome found
        (AreServe (codes "serve" ∷ map (λ value. value.now) values.now))) }
    ensures path { IfOk result (λ found. IfSome found (λ spec.
        path_in spec.warm ≡ option_map (λ path. path.now) warm.entry)) }
    ensures none { IfOk result (λ found. IfNone found ((spec : ServeSpec) →
        AreServe (codes "serve" ∷ map (λ value. value.now) values.now) spec →
        path_in spec.warm ≡ option_map (λ path. path.now) warm.entry → ⊥)) }
{
    let Some(spec) = cold_of(alloc, values)? else {
        return Ok(None);
    };
    match warm {
        Some(path) => with_file(alloc, spec, path),
        None => Ok(Some(spec)),
    }
}

// The same with the file of a cache at this path, or none where a server without an end would have
// one, or where the path can't be named.
fn with_file(
    alloc: Global,
    mut spec: ServeSpec,
    path: &str,
) -> Result<Option<ServeSpec>, AllocError>
    ensures found { IfOk result (λ found. IfSome found (λ made. (words : List (List ℕ)) →
        AreServe words spec → AreServe words made)) }
    ensures path { IfOk result (λ found. IfSome found (λ made.
        path_in made.warm ≡ Some path.now)) }
    ensures none { IfOk result (λ found. IfNone found ((words : List (List ℕ)) →
        AreServe words spec → (other : ServeSpec) → AreServe words other →
        path_in other.warm ≡ Some path.now → ⊥)) }
{
    if !is_plain_text(path.as_bytes()) {
        return Ok(None);
    }
    let Some(_) = spec.conns.most() else {
        return Ok(None);
    };
    spec.warm = Some(Vec::from_slice(alloc, path.as_bytes())?);
    Ok(Some(spec))
}

// What is served without the file of a cache, where these are the address and the numbers.
fn cold_of(alloc: Global, values: &[&str]) -> Result<Option<ServeSpec>, AllocError>
    ensures found { IfOk result (λ found. IfSome found
        (AreServe (codes "serve" ∷ map (λ value. value.now) values.now))) }
    ensures cold { IfOk result (λ found. IfSome found (λ spec. spec.warm ≡ None)) }
    ensures none { IfOk result (λ found. IfNone found ((spec : ServeSpec) →
        AreServe (codes "serve" ∷ map (λ value. value.now) values.now) spec → ⊥)) }
{
    let [addr, conns, workers, shards, members] = values else {
        return Ok(None);
    };
    if !is_plain_text(addr.as_bytes()) {
        return Ok(None);
    }
    let addr = Vec::from_slice(alloc, addr.as_bytes())?;
    Ok(spec_of(addr, conns, workers, shards, members))
}

// Whether an address or a path may be written so: the text isn't empty and doesn't begin with a hyphen.
fn is_plain_text(text: &[u8]) -> bool
    ensures { IsTrue result ↔ ((1 ≤ length text.now) × (slice_get text.now 0 ≢ Some 45)) }
{
    match text {
        [first, ..] => *first != b'-',
        [] => false,
    }
}

// What is served at this address, where these are the other words.
fn spec_of(
    addr: Vec<u8>,
    conns: &str,
    workers: &str,
    shards: &str,
    members: &str,
) -> Option<ServeSpec>
    ensures addr { IfSome result (λ spec. spec.addr ≡ addr) }
    ensures cold { IfSome result (λ spec. spec.warm ≡ None) }
    ensures found { IfSome result
        (λ spec. AreServeNumbers conns.now workers.now shards.now members.now spec) }
    ensures none { IfNone result ((spec : ServeSpec) →
        AreServeNumbers conns.now workers.now shards.now members.now spec → ⊥) }
{
    Some(ServeSpec {
        addr,
        conns: conns_of(conns)?,
        workers: number_within(workers.as_bytes(), 1, 1_024)?,
        shards: number_within(shards.as_bytes(), 1, 64)?,
        members: number_within(members.as_bytes(), 1, 100_000)?,
        warm: None,
    })
}

// How many connections are served, where this is the word: the word `forever`, or a number.
fn conns_of(word: &str) -> Option<Conns>
    ensures found { IfSome result (AreConns word.now) }
    ensures none { IfNone result ((conns : Conns) → AreConns word.now conns → ⊥) }
{
    if word == "forever" {
        return Some(Conns::Forever);
    }
    Some(Conns::Number(number_within(word.as_bytes(), 1, 1_000_000)?))
}
