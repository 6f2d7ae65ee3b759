ghost use Rattle.std.specs.Prelude.{◌≡◌, ◌≢◌, false, ◌≤◌, ◌<◌, ◌-◌, ◌^◌, ◌↔◌, ◌∷◌, [], Option, None, OnOk, IsTrue, IsSome, codes, map, IfOk, IfErr, OnErr, vec_capacity};
ghost use Rattle.std.specs.Bool.{IsFalse};
ghost use Rattle.rows_model.specs.Rows.{Tables};
ghost use Rattle.run_inputs.specs.Fit.{IsPlayable};
ghost use Rattle.core_history.specs.Cores.{shards_in, origin_of};
ghost use Rattle.sql_keeper.specs.declared.keepers.Place.{Place};
ghost use Rattle.run_words.specs.declared.words.Words.{Words};
ghost use Rattle.run_words.specs.Words.{AreWords};
ghost use Rattle.top_run.specs.declared.runs.Status.{Status};
ghost use Rattle.top_run.specs.Runs.{Ended, Held, Input, told_by, moment, seen, held_at, left_at, IsRead, IsOpened, RoseWhere, CountsWhere, is_read_fault, is_write_fault, is_door_fault};
ghost use Rattle.iq_outside.specs.Outside.{Rose};
ghost use Rattle.top_run.specs.Commands.{AreEarlier, AreLines, AreNoCommand, AreSaved, CommandEnded};
ghost use Rattle.top_run.specs.Begins.{files_seen};
ghost use Rattle.top_run.specs.Serves.{course_of};
ghost use Rattle.door_workers.specs.Attending.{seen_at};
ghost use Rattle.top_run.specs.Plays.{IsNew, IsFinished, IsStopped, IsUnread, at_write};

use crate::endings::{ended_run, not_started, start_status};
use crate::plays::{Stop, Tally, play_acts};
use crate::printing::{last_line, print};
use crate::serves::serve;
use crate::texts::tell;
use crate::warms::warm;
use crate::works::work;
use cache_file::CacheFile;
use conn_server::LineEnd;
use core_history::Core;
use iq_outside::{Clock, Door, Gate, ReadStop, Sink, Source, read_up_to};
use key_shard::Step;
use rows_model::Rows;
use run_inputs::{Script, ScriptFault, ScriptKind};
use run_words::{Words, WordsFault, read_words};
use sql_keeper::{CommitLog, Keeper, NoStore, Place};
use std::alloc::Global;
use std::sync::Wait;
use std::thread::Threads;

/// The longest script, in bytes.
const LONGEST_TEXT: usize = 16_777_216;

/// How a run ended.
#[derive(Clone, Copy, PartialEq, Eq)]
pub enum Status {
    /// All was read, run and printed, and no line said FAULT.
    Done,
    /// The words aren't those of a command.
    Usage,
    /// The text isn't a script: this line, from 1, is the first that has a fault, and this is the
    /// first kind of fault that it has.
    Script { line: u64, kind: ScriptKind },
    /// A read failed.
    ReadFault,
    /// A write failed.
    WriteFault,
    /// The server's door couldn't be bound, or it failed later. The lines that it had given are served.
    DoorFault,
    /// The store's keeper didn't start, or it failed later: then all was run and printed, and of a
    /// script some line said FAULT. Of a server it didn't start.
    KeepFault,
    /// This is the least shard that has no token left to draw. All sessions of the load were run, and its
    /// summary was printed.
    Spent { shard: u32 },
    /// The server's cache couldn't be written to its file. All was served, and the last line was written.
    FileFault,
    /// Memory ran out.
    Memory,
}

/// What a load left that ended before another began: the rows that it began with, the transactions that were
/// committed, the earliest first, and each shard's history.
#[derive(Drop)]
pub struct Phase {
    pub opening: Rows,
    pub log: CommitLog,
    pub histories: Vec<Vec<Step>>,
}

/// How a run ended, and what it leaves. Of a run with two loads `opening`, `log` and `histories` are what the
/// second leaves, and `earlier` what the first left; where the second never began the three are as where
/// nothing was run.
#[derive(Drop)]
pub struct RunEnd<K> {
    pub status: Status,
    /// The keeper of the store.
    pub keeper: K,
    /// The rows that the run began with, or `None` where it never began.
    pub opening: Option<Rows>,
    /// The transactions that were committed, the earliest first.
    pub log: CommitLog,
    /// Each shard's history, or none where nothing was run. A server's shards roll: of each there are the
    /// steps that it has in memory at the end, the last of its history.
    pub histories: Vec<Vec<Step>>,
    /// How each line that was served ended, in the order in which they were handed back. A server that serves
    /// any number of them keeps none.
    pub ends: Vec<LineEnd>,
    /// What a load left that ended before: of the first one of `warm`, if it began. Of other commands there is
    /// none.
    pub earlier: Vec<Phase>,
    /// How many bytes the sink took. It stands still at its type's end.
    pub written: u64,
}

/// Replays a script over a store with this keeper, at this place: the script comes from the source, and a
/// line a turn and a last line go to the sink. A turn is a session's, a tick of the clock, or a step of
/// the sweeper. It starts no thread, and waits only where the source or the sink does.
///
/// The script is read whole before anything is printed; of a text that is too long 16,777,217 bytes
/// are taken. The bytes printed are always the first of what the whole run prints. A keeper that fails
/// in a turn is told as FAULT, and the run goes on. At a write that fails, or where memory runs out,
/// it stops at once. What comes before the keeper is started leaves it as it was, and a run that began
/// is never thrown away.
pub fn replay<S: Source, W: Sink, K: Keeper>(
    alloc: Global,
    place: &Place,
    source: &mut S,
    sink: &mut W,
    keeper: K,
) -> RunEnd<K>
    ensures is_command { result.status ≢ Status.Usage }
    ensures no_ends { result.ends.items ≡ [] }
    ensures none_earlier { result.earlier.items ≡ [] }
    ensures ended { let held = held_at place.now (K.holds keeper place.now) in
        let before = seen (told_by S.Source source.old) W.Sink K.Keeper sink.old keeper in
        let after = seen (told_by S.Source source.new) W.Sink K.Keeper sink.new result.keeper in
        Ended result.status held before after (left_at result) result.written }
    ensures started { IsSome result.opening → K.is_started result.keeper }
    ensures unstarted { result.opening ≡ None → K.is_started result.keeper → K.is_started keeper }
    ensures reads { RoseWhere S.faults (is_read_fault result.status) source.old source.new }
    ensures writes { RoseWhere W.faults (is_write_fault result.status) sink.old sink.new }
    ensures done { result.status ≡ Status.Done → K.faults result.keeper ≡ K.faults keeper }
    ensures faultless { K.faults result.keeper ≡ K.faults keeper → K.faults keeper < 2 ^ 64 - 1 →
        result.status ≢ Status.KeepFault }
    ensures source_never_falls { S.faults source.old ≤ S.faults source.new }
    ensures sink_never_falls { W.faults sink.old ≤ W.faults sink.new }
    ensures keeper_never_falls { K.faults keeper ≤ K.faults result.keeper }
{
    match read_script(alloc, source) {
        Ok(script) => start_script(alloc, place, script, sink, keeper),
        Err(status) => not_started(alloc, status, keeper),
    }
}

/// Runs a command over a store with this keeper. Behind the command's name `--db <path>` names the file
/// in which the rows lie, which are those that it has; without it they are made afresh.
///
/// The word `replay` replays the script that the source gives, as the call `replay` does. The words
/// `work <members> <sessions> <workers> <shards> <seed>` run a load that is drawn from the seed: each
/// worker runs its sessions in a thread of its own over one cache; then the kept log and histories are
/// audited, and a summary of three lines goes to the sink. All numbers in it but the bypasses and the
/// rejections are counted in what is kept, and these two in what the sessions were told. Nothing is read
/// then. Where a call of the keeper failed, the status is `KeepFault`; else the keeper's count of faults is
/// as before, and it is `Spent` where a shard has no token left; else it tells what the audit found. At a
/// write that fails, or where memory runs out, no summary stands whole; what a load that began has kept is
/// never thrown away. The call may wait.
///
/// The words `warm` and these five numbers run that load, write its summary, and then a line for each shard:
/// `dump`, the shard's number, how many of its entries are still right, and how many bytes they have as text.
/// These entries are loaded into the shards of a new cache, beside the same store with an empty log. There the
/// load of the next seed is run, and its summary is written. `earlier` has what the first load left. A failed
/// call of the keeper is told behind the second summary, and so is a shard without a token left: of the first
/// load's shards, and then of the second's. Where the run stops before the second load, `opening`, `log` and
/// `histories` have nothing.
///
/// The words `serve <addr> <conns> <workers> <shards> <members>` serve the lines that the door gives at this
/// address: the workers accept and serve them in turn, until so many were accepted or no more come. Where
/// `<conns>` is the word `forever` no number of them ends the server, and `ends` stays empty. `ready` goes to
/// the sink once the door is bound, and `served` with the number of lines at the end. A line that ends with a
/// fault ends alone, and `ends` tells of it: where the door gives only fresh lines, and tells those handed
/// back, each of them was served to its end, also where `ends` is empty. A keeper that fails later is told to the client.
/// Where the door fails, no more lines are accepted, and those that it gave are served to their end. The
/// server's shards give up their early steps as they go on: `histories` has the last ones of each.
///
/// Behind `serve` and the words of `--db`, `--warm <path>` names a file of the cache. The server takes its
/// entries over, if it has the cache of so many shards and each value in it is what the store answers: a line
/// `warm` with their number is written before `ready`. Else a line `cold` says why, and the cache is new. Once all
/// lines were served and the last line was written, the cache is written to this file: the entries of each shard
/// that are right for the rows. If that fails the status is `FileFault`, and the file has what it had.
///
/// The words that ask for help or for the version write that text. Words that can't be read are a faulty
/// command line, and nothing is read, written or started.
pub fn run<
    S: Source,
    W: Sink,
    K: Keeper + Send,
    F: CacheFile,
    D: Door,
    C: Clock,
    G: Gate,
    R: Threads + Wait + Sync,
>(
    rt: &R,
    alloc: Global,
    words: &[Vec<u8>],
    source: &mut S,
    sink: &mut W,
    keeper: K,
    file: &mut F,
    door: &mut D,
    clock: &C,
    gate: &G,
) -> RunEnd<K>
    ensures usage { result.status ≡ Status.Usage →
        AreNoCommand (map (λ word. word.items) words.now) }
    ensures ended { let tells = seen_at D.bound D.lines D.faults D.ended D.closed in
        let before = seen (told_by S.Source source.old) W.Sink K.Keeper sink.old keeper in
        let after = seen (told_by S.Source source.new) W.Sink K.Keeper sink.new result.keeper in
        let files = files_seen F.CacheFile in
        CommandEnded (map (λ word. word.items) words.now) result.status (λ place.
        course_of (held_at place (K.holds keeper place)) before after
        (tells door.old) (tells door.new) (files file.old) (files file.new) result) }
    ensures started { IsSome result.opening → K.is_started result.keeper }
    ensures unstarted { result.opening ≡ None → result.earlier.items ≡ [] →
        K.is_started result.keeper → K.is_started keeper }
    ensures earlier { AreEarlier (map (λ word. word.items) words.now) result.earlier.items }
    ensures saves { AreSaved (map (λ word. word.items) words.now) result.status
        (K.rows result.keeper) (left_at result) (F.text_at file.old) (F.text_at file.new) }
    ensures file_fault { result.status ≡ Status.FileFault →
        Rose (F.faults file.old) (F.faults file.new) }
    ensures file_never_falls { F.faults file.old ≤ F.faults file.new }
    ensures reads { RoseWhere S.faults (is_read_fault result.status) source.old source.new }
    ensures writes { RoseWhere W.faults (is_write_fault result.status) sink.old sink.new }
    ensures doors { RoseWhere D.faults (is_door_fault result.status) door.old door.new }
    ensures lines { D.fresh door.old → AreLines (map (λ word. word.items) words.now)
        result.ends.items (D.closed door.old) (D.closed door.new) }
    ensures done { (place : Place) →
        AreWords (map (λ word. word.items) words.now) (Words.Replay place) →
        result.status ≡ Status.Done → K.faults result.keeper ≡ K.faults keeper }
    ensures faultless { K.faults result.keeper ≡ K.faults keeper → K.faults keeper < 2 ^ 64 - 1 →
        result.status ≢ Status.KeepFault }
    ensures source_never_falls { S.faults source.old ≤ S.faults source.new }
    ensures sink_never_falls { W.faults sink.old ≤ W.faults sink.new }
    ensures door_never_falls { D.faults door.old ≤ D.faults door.new }
    ensures keeper_never_falls { K.faults keeper ≤ K.faults result.keeper }
{
    match read_words(alloc, words) {
        Ok(Words::Replay { place }) => replay(alloc, &place, source, sink, keeper),
        Ok(Words::Work { place, spec }) => {
            work(rt, alloc, &place, &spec, sink, keeper, clock, gate)
        }
        Ok(Words::Warm { place, spec }) => {
            warm(rt, alloc, &place, &spec, sink, keeper, clock, gate)
        }
        Ok(Words::Serve { place, spec }) => {
            serve(
                rt, alloc, &place, &spec, sink, keeper, file, door, clock, gate,
            )
        }
        Ok(Words::Page { text }) => tell(alloc, text.as_slice(), sink, keeper),
        Err(WordsFault::Usage) => not_started(alloc, Status::Usage, keeper),
        Err(WordsFault::Memory) => not_started(alloc, Status::Memory, keeper),
    }
}

/// Reads the script that the source gives, or tells how the run ends without one.
fn read_script<S: Source>(alloc: Global, source: &mut S) -> Result<Script, Status>
    ensures read { IfOk result (λ script.
        IsRead (S.left source.old) (S.left source.new) script.shape script.acts) }
    ensures playable { IfOk result (λ script. IsPlayable script.shape script.acts) }
    ensures unread { IfErr result (λ status.
        IsUnread status (S.left source.old) (S.left source.new)) }
    ensures no_fault { OnOk result (S.faults source.new ≡ S.faults source.old) }
    ensures counts { IfErr result (λ status.
        RoseWhere S.faults (is_read_fault status) source.old source.new) }
    ensures never_falls { S.faults source.old ≤ S.faults source.new }
{
    let read = match read_up_to(alloc, source, LONGEST_TEXT + 1) {
        Ok(read) => read,
        Err(ReadStop::Failed) => return Err(Status::ReadFault),
        Err(ReadStop::Memory) => return Err(Status::Memory),
    };
    match Script::parse(alloc, read.text.as_slice()) {
        Ok(script) => Ok(script),
        Err(ScriptFault::Bad { line, kind }) => Err(Status::Script { line, kind }),
        Err(ScriptFault::Memory) => Err(Status::Memory),
    }
}

/// Runs a script and prints its lines. Room for the histories is there before the keeper starts, so
/// that nothing that the run did is lost for want of memory.
fn start_script<W: Sink, K: Keeper>(
    alloc: Global,
    place: &Place,
    script: Script,
    sink: &mut W,
    keeper: K,
) -> RunEnd<K>
    requires { IsPlayable script.shape script.acts }
    ensures ended { (unread read : Input) →
        IsRead unread.left read.left script.shape script.acts →
        let before = seen unread W.Sink K.Keeper sink.old keeper in
        let after = seen read W.Sink K.Keeper sink.new result.keeper in
        Ended result.status (held_at place.now (K.holds keeper place.now)) before after
        (left_at result) result.written }
    ensures other { result.status ≢ Status.Usage }
    ensures no_ends { result.ends.items ≡ [] }
    ensures none_earlier { result.earlier.items ≡ [] }
    ensures no_read_fault { IsFalse (is_read_fault result.status) }
    ensures started { IsSome result.opening → K.is_started result.keeper }
    ensures unstarted { result.opening ≡ None → K.is_started result.keeper → K.is_started keeper }
    ensures writes { CountsWhere W.faults (is_write_fault result.status) sink.old sink.new }
    ensures keeper_never_falls { K.faults keeper ≤ K.faults result.keeper }
{
    let Ok(histories) = Vec::with_capacity(alloc, script.shape().shards as usize) else {
        return not_started(alloc, Status::Memory, keeper);
    };
    match Core::new(alloc, keeper, place, script.shape()) {
        Ok(core) => play_core(alloc, core, script, sink, histories),
        Err(NoStore { keeper, cause }) => not_started(alloc, start_status(cause), keeper),
    }
}

/// Plays a script on a new core, and takes the core apart.
fn play_core<W: Sink, K: Keeper>(
    alloc: Global,
    core: Core<K>,
    script: Script,
    sink: &mut W,
    histories: Vec<Vec<Step>>,
) -> RunEnd<K>
    requires playable { IsPlayable script.shape script.acts }
    requires new { IsNew core script.shape }
    requires none { histories.items ≡ [] }
    requires room { script.shape.shards ≤ vec_capacity histories }
    ensures ended { (unread read : Input) (rows : Option Tables) (held : Held) →
        IsRead unread.left read.left script.shape script.acts →
        IsOpened held script.shape core.store.ledger.opening core.store.known_rows →
        let before = moment unread (W.taken sink.old) (W.faults sink.old) rows core.store.faults in
        let after = seen read W.Sink K.Keeper sink.new result.keeper in
        Ended result.status held before after (left_at result) result.written }
    ensures other { result.status ≢ Status.Usage }
    ensures no_ends { result.ends.items ≡ [] }
    ensures none_earlier { result.earlier.items ≡ [] }
    ensures no_read_fault { IsFalse (is_read_fault result.status) }
    ensures started { K.is_started result.keeper }
    ensures began { IsSome result.opening }
    ensures writes { CountsWhere W.faults (is_write_fault result.status) sink.old sink.new }
    ensures keeper_never_falls { core.store.faults ≤ K.faults result.keeper }
{
    let mut core = core;
    let mut tally = Tally {
        written: 0,
        faulted: false,
    };
    let ended = play_script(alloc, &mut core, script, sink, &mut tally);
    ended_run(alloc, core, ended, tally, histories)
}

/// Plays a script on a new core, and prints the last line.
fn play_script<W: Sink, K: Keeper>(
    alloc: Global,
    core: &mut Core<K>,
    script: Script,
    sink: &mut W,
    tally: &mut Tally,
) -> Result<(), Stop>
    requires playable { IsPlayable script.shape script.acts }
    requires new { IsNew core.old script.shape }
    requires nothing { tally.old ≡ record { written = 0; faulted = false } }
    ensures all { OnOk result (IsFinished core.new
        (origin_of script.shape core.old) script.acts
        (W.taken sink.old) (W.taken sink.new) tally.new) }
    ensures some { OnErr result (IsStopped core.new
        (origin_of script.shape core.old) script.acts
        (W.taken sink.old) (W.taken sink.new) tally.new) }
    ensures counts { RoseWhere W.faults (at_write result) sink.old sink.new }
    ensures never_falls { W.faults sink.old ≤ W.faults sink.new }
{
    play_acts(core, script.into_acts(), sink, tally)?;
    let line = last_line(alloc, core)?;
    print(sink, &mut tally.written, line.as_slice())?;
    Ok(())
}
