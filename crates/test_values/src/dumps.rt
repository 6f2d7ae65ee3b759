//! Which entries of a shard are dumped, beside the store that it caches, and how they are loaded.
ghost use Rattle.std.specs.Prelude.{◌≡◌, ◌<◌, ◌≤◌, []};

use crate::dump_helps::{new_shard, profile, read, says, store};
use key_shard::{Got, Grant, How, QAnswer, Shard, Step};
use lease_table::Mode;
use rows_model::{Change, Name, QKey, Sid, Txn};
use shard_dump::{LoadFault, are_answers, dump, dump_answered, load};
use sql_keeper::{KeepFault, MapKeeper, Place, Store};
use std::alloc::Global;
use std::process::Abort;

/// A store of three members over a keeper in memory.
fn opened(rt: &impl Abort, alloc: Global) -> Store<MapKeeper>
    ensures { result.ledger.log ≡ [] }
{
    opened_over(rt, alloc, MapKeeper::new(Vec::new(alloc)))
}

/// A store of three members over this keeper.
fn opened_over(rt: &impl Abort, alloc: Global, keeper: MapKeeper) -> Store<MapKeeper>
    ensures { result.ledger.log ≡ [] }
{
    match Store::new(alloc, keeper, &Place::Fresh, 3, 100) {
        Ok(store) => store,
        Err(none) => panic!(rt; "{:?}", none.cause),
    }
}

fn begun(rt: &impl Abort, store: &mut Store<MapKeeper>) -> Sid {
    match store.begin(true) {
        Ok(sid) => sid,
        Err(_) => panic!(rt; "no memory"),
    }
}

fn granted(rt: &impl Abort, shard: &mut Shard, key: QKey, who: Sid) -> Grant
    ensures { shard.new.terms ≡ shard.old.terms }
{
    match shard.quarantine(key, who, Mode::Invalidate, 0, 0) {
        Ok(QAnswer::Granted { grant, old: _ }) => grant,
        _ => panic!(rt; "not granted"),
    }
}

/// Renames a member under a grant of its profile, which comes back.
fn rename(
    rt: &impl Abort,
    alloc: Global,
    store: &mut Store<MapKeeper>,
    shard: &mut Shard,
    id: u32,
) -> Grant
    requires { 1 ≤ id }
    ensures { shard.new.terms ≡ shard.old.terms }
{
    let who = begun(rt, store);
    let grant = granted(rt, shard, profile(id), who);
    let Some(name) = Name::of(b"al") else {
        panic!(rt; "no name");
    };
    let Ok(txn) = Txn::of(alloc, &[Change::Rename { a: id, name }]) else {
        panic!(rt; "no transaction");
    };
    let grants = [grant];
    match store.commit(who, txn, &grants) {
        Ok(_) => {
            let [grant] = grants;
            grant
        }
        Err(_) => panic!(rt; "no commit"),
    }
}

/// The text of a shard in which profile:1 and profile:3 are cached, and profile:1 was renamed under a
/// quarantine that is released only then.
fn dumped(rt: &impl Abort, alloc: Global, rows: &mut Store<MapKeeper>) -> Vec<u8> {
    let mut shard = new_shard(rt, alloc, 0, 1, 1);
    store(rt, alloc, &mut shard, profile(1), "m1 0 0", 0);
    store(rt, alloc, &mut shard, profile(3), "m3 0 0", 0);
    let grant = rename(rt, alloc, rows, &mut shard, 1);
    let text = dump(alloc, &shard, rows.log());
    let _ = shard.release(grant, How::Drop);
    match text {
        Ok(text) => text,
        Err(_) => panic!(rt; "no memory"),
    }
}

#[test]
fn leaves_out_what_a_later_commit_touches(rt: HostRuntime) {
    let mut rows = opened(&rt, rt.alloc());
    let text = dumped(&rt, rt.alloc(), &mut rows);
    assert!(rt; text.as_slice() == b"iqdump 1 0 1 1\nprofile:3 6\nm3 0 0\nend\n".as_slice());
    says(&rt, &read(&rt, rt.alloc(), &text), 0, 1, &[(3, "m3 0 0")]);
}

/// A shard with an entry that isn't what the store answers, and behind it one that is.
fn half_right(rt: &impl Abort, alloc: Global) -> Shard
    ensures one_of { result.terms.no < result.terms.count }
    ensures shards { result.terms.count ≡ 1 }
    ensures room { result.terms.room ≡ 4 }
{
    let mut shard = new_shard(rt, alloc, 0, 1, 1);
    store(rt, alloc, &mut shard, profile(1), "m9 0 0", 0);
    store(rt, alloc, &mut shard, profile(3), "m3 0 0", 0);
    shard
}

#[test]
fn dumps_what_the_store_answers(rt: HostRuntime) {
    let mut rows = opened(&rt, rt.alloc());
    let shard = half_right(&rt, rt.alloc());
    match dump_answered(rt.alloc(), &shard, &mut rows) {
        Ok(text) => {
            assert!(rt;
                text.as_slice() == b"iqdump 1 0 1 1\nprofile:3 6\nm3 0 0\nend\n".as_slice()
            );
        }
        Err(_) => panic!(rt; "no text"),
    }
    assert!(rt; rows.failed() == 0);
}

#[test]
fn tells_a_call_that_fails_as_it_asks(rt: HostRuntime) {
    let mut fails = Vec::new(rt.alloc());
    if fails.push(3).is_err() {
        panic!(rt; "no memory");
    }
    let mut rows = opened_over(&rt, rt.alloc(), MapKeeper::new(fails));
    let shard = half_right(&rt, rt.alloc());
    assert!(rt;
        matches!(
            dump_answered(rt.alloc(), &shard, &mut rows),
            Err(KeepFault::Failed)
        )
    );
    assert!(rt; rows.failed() == 1);
}

/// Loads the rows of a text into a new shard whose first token is this, once the store has been asked for
/// them.
fn loaded(
    rt: &impl Abort,
    alloc: Global,
    rows: &mut Store<MapKeeper>,
    text: &[u8],
    place: (u32, u32, u64),
) -> (Result<u64, LoadFault>, Shard)
    requires one_of { place.0 < place.1 }
    requires tokens { 1 ≤ place.2 }
    requires log { rows.old.ledger.log ≡ [] }
{
    let (no, count, first) = place;
    let mut shard = new_shard(rt, alloc, no, count, first);
    let read = read(rt, alloc, text).rows.into_rows();
    match are_answers(rows, read.as_slice()) {
        Ok(true) if read.len() <= 4 => {
            let loaded_rows = load(rows, &mut shard, read, 0);
            (loaded_rows, shard)
        }
        _ => panic!(rt; "not the store's answers"),
    }
}

/// Whether the key's entry is this text, with stamp 0.
fn hits(rt: &impl Abort, shard: &mut Shard, id: u32, text: &str) {
    match shard.get(profile(id), Sid { number: 9 }, 0, 0) {
        Ok(Got::Hit { value, stamp }) => {
            assert!(rt; value.bytes() == text.as_bytes() && stamp == 0);
        }
        _ => panic!(rt; "no hit"),
    }
}

#[test]
fn loads_what_was_dumped_beside_the_same_store(rt: HostRuntime) {
    let mut old = opened(&rt, rt.alloc());
    let text = dumped(&rt, rt.alloc(), &mut old);
    let Ok((mut new, _, _)) = old.rebase() else {
        panic!(rt; "no memory");
    };
    let (loaded_rows, mut shard) = loaded(&rt, rt.alloc(), &mut new, &text, (0, 1, 1));
    assert!(rt; loaded_rows == Ok(1));
    assert!(rt; matches!(shard.history(), [Step::Lease { .. }, Step::Stored { .. }]));
    hits(&rt, &mut shard, 3, "m3 0 0");
    assert!(rt; begun(&rt, &mut new).number == 3);
}

#[test]
fn a_changed_dump_is_not_the_store_s_answers(rt: HostRuntime) {
    let mut rows = opened(&rt, rt.alloc());
    let said = read(
        &rt,
        rt.alloc(),
        b"iqdump 1 0 1 2\nprofile:1 6\nm1 0 0\nprofile:3 6\nn3 0 0\nend\n",
    );
    assert!(rt; are_answers(&mut rows, said.rows.as_slice()) == Ok(false));
}

#[test]
fn tells_a_stranger_before_all(rt: HostRuntime) {
    let mut rows = opened(&rt, rt.alloc());
    let text =
        b"iqdump 1 0 1 3\nprofile:1 6\nm1 0 0\nprofile:3 6\nm3 0 0\nprofile:2 6\nm2 0 0\nend\n";
    let (loaded_rows, shard) = loaded(&rt, rt.alloc(), &mut rows, text, (1, 2, 1));
    assert!(rt; loaded_rows == Err(LoadFault::Stranger { row: 2 }) && shard.history().is_empty());
    assert!(rt; begun(&rt, &mut rows).number == 1);
}

#[test]
fn keeps_the_rows_before_the_one_without_a_token(rt: HostRuntime) {
    let mut rows = opened(&rt, rt.alloc());
    let text = b"iqdump 1 0 1 2\nprofile:1 6\nm1 0 0\nprofile:2 6\nm2 0 0\nend\n";
    let last = 18_446_744_073_709_551_615;
    let (loaded_rows, mut shard) = loaded(&rt, rt.alloc(), &mut rows, text, (0, 1, last - 1));
    assert!(rt; loaded_rows == Err(LoadFault::Spent { next: last }));
    hits(&rt, &mut shard, 1, "m1 0 0");
    assert!(rt; shard.peek(&profile(2)).is_none());
}
