// What whole runs tell who makes them.
ghost use Rattle.std.specs.Prelude.{◌≡◌, ◌≢◌, ◌<◌, ◌-◌, ◌^◌, [], All, map, Some, None, IfSome, IsSome};
ghost use Rattle.sql_keeper.specs.Fresh.{Covered};
ghost use Rattle.top_run.specs.Runs.{told_by, moment, seen, histories_at, left_at};
ghost use Rattle.top_run.specs.Begins.{files_seen};
ghost use Rattle.top_run.specs.Serves.{phase_left};
ghost use Rattle.cache_file.specs.Files.{SameTexts};
ghost use Rattle.callers.specs.Shards.{MeetsItsFloor};
ghost use Rattle.std.specs.Option.{ForSome};
ghost use Rattle.sql_keeper.specs.declared.keepers.Place.{Place};
ghost use Rattle.rows_model.specs.Rows.{Tables};
ghost use Rattle.callers.specs.Runs.{IsFreshRun, IsRunAt, IsCleanLoad, IsFreshLoad, HaveTakenOverRight, IsDoneServer, HasSavedRight, HitsHoldCommits, IsUnharmed, AreAlike, IsBeginning};
ghost use Rattle.run_inputs.specs.declared.loads.WorkSpec.{WorkSpec};
ghost use Rattle.run_words.specs.Words.{AreWords};
ghost use Rattle.run_words.specs.declared.words.ServeSpec.{ServeSpec};
ghost use Rattle.run_words.specs.declared.words.Words.{Words};
ghost use Rattle.callers.specs.Writes.{HitsAfterWrites};
ghost use Rattle.callers.specs.Drops.{IsSweptRun};

use crate::shards::hits_meet_their_floors;
use cache_file::CacheFile;
use core_history::laws::{runs_are_determined, runs_go_on, sweeps_are_final};
use iq_outside::{Clock, Door, Gate, ListDoor, Sink, Source};
use run_inputs::texts_tell_scripts;
use sql_keeper::{Keeper, MapKeeper, Place, Telling};
use std::alloc::Global;
use std::sync::Wait;
use std::thread::Threads;
use top_run::{RunEnd, Status, replay, run};

/// No hit is stale over a keeper that tells its rows for good, whichever of its calls fail, and whatever the
/// source, the sink and the script are. Where the run began, it began with the rows of as many members as
/// the script says, and the keeper's rows are those after the log. The program's keeper over SQL is such a
/// keeper, and so is one of rows in lists.
pub fn run_fresh<S: Source, W: Sink, K: Telling>(
    alloc: Global,
    source: &mut S,
    sink: &mut W,
    keeper: K,
) -> RunEnd<K>
    ensures { IfSome result.opening (λ opening.
        IsFreshRun (S.left source.old) (S.left source.new) opening (K.rows result.keeper)
        result.log.items (histories_at result)) }
{
    replay(alloc, &Place::Fresh, source, sink, keeper)
}

/// No hit is stale over a keeper that tells its rows for good, wherever these lie: in memory or in a file.
/// Where the run began, it began with the rows that the place held, if these are told. A fresh place held
/// as many members as the script says, and no links. The keeper's rows are those after the log.
pub fn run_telling<S: Source, W: Sink, K: Telling>(
    alloc: Global,
    place: &Place,
    source: &mut S,
    sink: &mut W,
    keeper: K,
) -> RunEnd<K>
    ensures { IfSome result.opening (λ opening.
        (rows : Tables) × (K.rows result.keeper ≡ Some rows)
        × IsRunAt place.now (K.holds keeper place.now) (S.left source.old) (S.left source.new)
        opening result.log.items (histories_at result) rows) }
{
    replay(alloc, place, source, sink, keeper)
}

/// No hit is stale over any keeper that tells its rows at the end, wherever these lie. Where the run began, it
/// began with the rows that the place held, if these are told. A fresh place held as many members as the
/// script says, and no links. The rows at the end are those after the log.
pub fn run_at<S: Source, W: Sink, K: Keeper>(
    alloc: Global,
    place: &Place,
    source: &mut S,
    sink: &mut W,
    keeper: K,
) -> RunEnd<K>
    ensures { IfSome result.opening (λ opening. ForSome (K.rows result.keeper)
        (IsRunAt place.now (K.holds keeper place.now) (S.left source.old) (S.left source.new)
        opening result.log.items (histories_at result))) }
{
    replay(alloc, place, source, sink, keeper)
}

/// Once a writer has released a key, each hit on it holds the writer's commit, if that touches the key.
pub fn run_holding_commits<S: Source, W: Sink, K: Telling>(
    alloc: Global,
    source: &mut S,
    sink: &mut W,
    keeper: K,
) -> RunEnd<K>
    ensures { IfSome result.opening (λ opening.
        HitsHoldCommits opening result.log.items (histories_at result)) }
{
    run_fresh(alloc, source, sink, keeper)
}

/// Who reads behind a writer is served what that left. Where a writer's release put a value, or shifted
/// the number of an entry, and each step since has left that entry, a get of the key with a floor of at
/// most its stamp is a hit of that value, for each session that holds no quarantine of the key. The
/// stamp is the number of the writer's commit, and the value is the key's answer after as many commits.
pub fn run_serving_writes<S: Source, W: Sink, K: Telling>(
    alloc: Global,
    source: &mut S,
    sink: &mut W,
    keeper: K,
) -> RunEnd<K>
    ensures { IfSome result.opening (λ opening.
        HitsAfterWrites opening result.log.items (histories_at result)) }
{
    replay(alloc, &Place::Fresh, source, sink, keeper)
}

/// What the sweeper drops in a run is final, whatever the keeper does: at the end the quarantine that it
/// dropped doesn't stand, and each later hit on the key holds all that was committed before the drop,
/// and the commit of the session whose quarantine it was, if that has one.
pub fn run_swept<S: Source, W: Sink, K: Keeper>(
    alloc: Global,
    source: &mut S,
    sink: &mut W,
    keeper: K,
) -> RunEnd<K>
    ensures { IsSome result.opening →
        IsSweptRun (S.left source.old) (S.left source.new) result.log.items (histories_at result) }
{
    sweeps_are_final();
    replay(alloc, &Place::Fresh, source, sink, keeper)
}

/// No reader of a run is served a value older than its floor, whatever the keeper does.
pub fn run_above_floors<S: Source, W: Sink, K: Keeper>(
    alloc: Global,
    source: &mut S,
    sink: &mut W,
    keeper: K,
) -> RunEnd<K>
    ensures { All (λ history. All MeetsItsFloor history) (histories_at result) }
{
    hits_meet_their_floors();
    replay(alloc, &Place::Fresh, source, sink, keeper)
}

/// No transaction of a run was committed without a quarantine on each key that it touches, whatever the
/// keeper does.
pub fn run_covered<S: Source, W: Sink, K: Keeper>(
    alloc: Global,
    source: &mut S,
    sink: &mut W,
    keeper: K,
) -> RunEnd<K>
    ensures { Covered result.log.items (histories_at result) }
{
    replay(alloc, &Place::Fresh, source, sink, keeper)
}

/// Words that are refused leave the source, the sink, the keeper and each file as they are.
pub fn run_refused<
    S: Source,
    W: Sink,
    K: Keeper + Send,
    F: CacheFile,
    D: Door,
    C: Clock,
    G: Gate,
    R: Threads + Wait + Sync,
>(
    rt: &R,
    alloc: Global,
    words: &[Vec<u8>],
    source: &mut S,
    sink: &mut W,
    keeper: K,
    file: &mut F,
    door: &mut D,
    clock: &C,
    gate: &G,
) -> RunEnd<K>
    ensures same { result.status ≡ Status.Usage →
        seen (told_by S.Source source.new) W.Sink K.Keeper sink.new result.keeper
        ≡ seen (told_by S.Source source.old) W.Sink K.Keeper sink.old keeper }
    ensures files { result.status ≡ Status.Usage →
        SameTexts (F.text_at file.old) (F.text_at file.new) }
{
    run(
        rt, alloc, words, source, sink, keeper, file, door, clock, gate,
    )
}

/// A load that ends Done left nothing stale, whatever its threads did, where the keeper tells its rows: its
/// audit was clean then. Each commit was covered, and the summary was written whole. Where the words name no
/// file besides, the load began with as many members as they say, and no links.
pub fn run_load<
    S: Source,
    W: Sink,
    K: Keeper + Send,
    F: CacheFile,
    D: Door,
    C: Clock,
    G: Gate,
    R: Threads + Wait + Sync,
>(
    rt: &R,
    alloc: Global,
    words: &[Vec<u8>],
    source: &mut S,
    sink: &mut W,
    keeper: K,
    file: &mut F,
    door: &mut D,
    clock: &C,
    gate: &G,
) -> RunEnd<K>
    ensures { (place : Place) (spec : WorkSpec) →
        AreWords (map (λ word. word.items) words.now) (Words.Work place spec) →
        result.status ≡ Status.Done →
        let before = seen (told_by S.Source source.old) W.Sink K.Keeper sink.old keeper in
        let after = seen (told_by S.Source source.new) W.Sink K.Keeper sink.new result.keeper in
        IsCleanLoad place spec before after (left_at result) result.written }
{
    run(
        rt, alloc, words, source, sink, keeper, file, door, clock, gate,
    )
}

/// Two loads that end Done: the second took over exactly what was still right in the first one's cache. Where the
/// keeper tells its rows neither left anything stale, and a hit on what was taken over has the value that the
/// first cache held, unless the second load wrote to its key.
pub fn run_two_loads<
    S: Source,
    W: Sink,
    K: Keeper + Send,
    F: CacheFile,
    D: Door,
    C: Clock,
    G: Gate,
    R: Threads + Wait + Sync,
>(
    rt: &R,
    alloc: Global,
    words: &[Vec<u8>],
    source: &mut S,
    sink: &mut W,
    keeper: K,
    file: &mut F,
    door: &mut D,
    clock: &C,
    gate: &G,
) -> RunEnd<K>
    ensures { (place : Place) (spec : WorkSpec) →
        AreWords (map (λ word. word.items) words.now) (Words.Warm place spec) →
        result.status ≡ Status.Done → HaveTakenOverRight spec (K.rows result.keeper)
        (map phase_left result.earlier.items) (left_at result) }
{
    run(
        rt, alloc, words, source, sink, keeper, file, door, clock, gate,
    )
}

/// A load that ends Done left nothing stale, whatever its threads did, over a keeper that tells its rows for
/// good: its audit was clean. Each commit was covered, and the summary was written whole. Where the words name
/// no file the load began with as many members as they say, and no links.
pub fn run_telling_load<
    S: Source,
    W: Sink,
    K: Telling + Send,
    F: CacheFile,
    D: Door,
    C: Clock,
    G: Gate,
    R: Threads + Wait + Sync,
>(
    rt: &R,
    alloc: Global,
    words: &[Vec<u8>],
    source: &mut S,
    sink: &mut W,
    keeper: K,
    file: &mut F,
    door: &mut D,
    clock: &C,
    gate: &G,
) -> RunEnd<K>
    ensures { (place : Place) (spec : WorkSpec) →
        AreWords (map (λ word. word.items) words.now) (Words.Work place spec) →
        result.status ≡ Status.Done →
        IsFreshLoad place spec (W.taken sink.old) (W.taken sink.new) (left_at result)
        result.written }
{
    run(
        rt, alloc, words, source, sink, keeper, file, door, clock, gate,
    )
}

/// A server of these words over a door in memory that ends Done served as many connections as were asked for, or
/// all that there were, as it did where the words say `forever`: the sink took `ready` and how many they were.
/// Before `ready` it took how the cache began, where the words name a file for that, and it is true: as many rows
/// were taken over as the file has, or why there were none. How each of a number of connections ended is told.
/// Of each shard there are the last steps of a legal history. How many calls of the keeper failed is what its
/// count of faults tells.
pub fn run_server<
    S: Source,
    W: Sink,
    K: Keeper + Send,
    F: CacheFile,
    C: Clock,
    G: Gate,
    R: Threads + Wait + Sync,
>(
    rt: &R,
    alloc: Global,
    words: &[Vec<u8>],
    source: &mut S,
    sink: &mut W,
    keeper: K,
    file: &mut F,
    door: &mut ListDoor,
    clock: &C,
    gate: &G,
) -> RunEnd<K>
    ensures { (place : Place) (spec : ServeSpec) →
        AreWords (map (λ word. word.items) words.now) (Words.Serve place spec) →
        result.status ≡ Status.Done → IsDoneServer spec (W.taken sink.old) (W.taken sink.new)
        (files_seen F.CacheFile file.old) (files_seen F.CacheFile file.new)
        (K.faults keeper) (K.faults result.keeper) (K.rows result.keeper) (left_at result)
        door.new.ended result.ends.items result.written }
{
    run(
        rt, alloc, words, source, sink, keeper, file, door, clock, gate,
    )
}

/// A server over a keeper that tells its rows for good, whose words name a file for its cache, leaves there what
/// the next one may take over. Where it ends Done, and the file tells what it has, that is the text of a cache
/// with a dump of each shard. That has exactly the entries whose value is their key's answer on the rows after
/// the log. No other file is touched.
pub fn run_saving_server<
    S: Source,
    W: Sink,
    K: Telling + Send,
    F: CacheFile,
    D: Door,
    C: Clock,
    G: Gate,
    R: Threads + Wait + Sync,
>(
    rt: &R,
    alloc: Global,
    words: &[Vec<u8>],
    source: &mut S,
    sink: &mut W,
    keeper: K,
    file: &mut F,
    door: &mut D,
    clock: &C,
    gate: &G,
) -> RunEnd<K>
    ensures { (place : Place) (spec : ServeSpec) →
        AreWords (map (λ word. word.items) words.now) (Words.Serve place spec) →
        result.status ≡ Status.Done → IfSome spec.warm (λ path.
        HasSavedRight path.items spec (left_at result) (F.text_at file.old) (F.text_at file.new)) }
{
    run(
        rt, alloc, words, source, sink, keeper, file, door, clock, gate,
    )
}

/// Two runs of one text over keepers in memory that both end Done put the same bytes into their sinks,
/// in whatever pieces these are read and written, and leave the same opening rows, log and histories.
/// What a run printed that stopped begins what a whole one prints: where the first ended Done, and no call
/// failed of the keeper of the second, the sink of the second took the first part of what that of the
/// first took, however the second ended.
pub fn run_twice<S: Source, T: Source, W: Sink, V: Sink>(
    alloc: Global,
    source: &mut S,
    second: &mut T,
    sink: &mut W,
    other: &mut V,
    keepers: (MapKeeper, MapKeeper),
) -> (RunEnd<MapKeeper>, RunEnd<MapKeeper>)
    requires told { IsSome (S.left source.old) }
    requires one_text { T.left second.old ≡ S.left source.old }
    requires empty { W.taken sink.old ≡ Some [] }
    requires empty_too { V.taken other.old ≡ Some [] }
    ensures alike { let after = moment (told_by S.Source source.new)
        (W.taken sink.new) (W.faults sink.new) result.0.keeper.rows result.0.keeper.faults in
        let after_too = moment (told_by T.Source second.new)
        (V.taken other.new) (V.faults other.new) result.1.keeper.rows result.1.keeper.faults in
        result.0.status ≡ Status.Done → result.1.status ≡ Status.Done →
        AreAlike after after_too (left_at result.0) (left_at result.1)
        result.0.written result.1.written }
    ensures begins { result.0.status ≡ Status.Done → keepers.1.faults < 2 ^ 64 - 1 →
        result.1.keeper.faults ≡ keepers.1.faults →
        IsBeginning (V.taken other.new) (W.taken sink.new) }
{
    texts_tell_scripts();
    runs_are_determined();
    runs_go_on();
    let first = replay(alloc, &Place::Fresh, source, sink, keepers.0);
    let then = replay(alloc, &Place::Fresh, second, other, keepers.1);
    (first, then)
}

/// A run in which none of the three counts of faults rose ended Done, Script or Memory.
pub fn run_unharmed<S: Source, W: Sink, K: Keeper>(
    alloc: Global,
    source: &mut S,
    sink: &mut W,
    keeper: K,
) -> RunEnd<K>
    requires reads { S.faults source.old < 2 ^ 64 - 1 }
    requires writes { W.faults sink.old < 2 ^ 64 - 1 }
    requires keeps { K.faults keeper < 2 ^ 64 - 1 }
    ensures { S.faults source.new ≡ S.faults source.old →
        W.faults sink.new ≡ W.faults sink.old →
        K.faults result.keeper ≡ K.faults keeper → IsUnharmed result.status }
{
    replay(alloc, &Place::Fresh, source, sink, keeper)
}

/// Where a run never began, nothing was printed, and the keeper's rows are as before. So is its count of
/// faults, unless it was the keeper that failed, at its start.
pub fn run_not_begun<S: Source, W: Sink, K: Keeper>(
    alloc: Global,
    source: &mut S,
    sink: &mut W,
    keeper: K,
) -> RunEnd<K>
    ensures unprinted { result.opening ≡ None → W.taken sink.new ≡ W.taken sink.old }
    ensures none_written { result.opening ≡ None → result.written ≡ 0 }
    ensures rows { result.opening ≡ None → K.rows result.keeper ≡ K.rows keeper }
    ensures count { result.opening ≡ None → result.status ≢ Status.KeepFault →
        K.faults result.keeper ≡ K.faults keeper }
    ensures log { result.opening ≡ None → result.log.items ≡ [] }
{
    replay(alloc, &Place::Fresh, source, sink, keeper)
}
