// What is asked of a shard. What stands there before is on lists of friends, and what is asked for is
// profiles, so that no two are on one key.
use crate::times::Unmeasured;
use key_shard::{Got, Grant, How, QAnswer, Rel, Renewal, SetAnswer, Shard};
use lease_table::Mode;
use rows_model::{Kind, QKey, Sid, Value};
use std::alloc::Global;

/// How long a lease lives.
const LIFE: u64 = 1000;

/// The time: what is given at 0 is due.
pub const NOW: u64 = LIFE;

const READER: Sid = Sid { number: 1 };

const WRITER: Sid = Sid { number: 2 };

fn friends(id: u32) -> QKey {
    QKey {
        kind: Kind::Friends,
        id,
    }
}

fn profile(id: u32) -> QKey {
    QKey {
        kind: Kind::Profile,
        id,
    }
}

/// A shard alone with room for so many entries, and at least for one.
pub fn new_shard(alloc: Global, room: u32) -> Result<Shard, Unmeasured> {
    Ok(Shard::new(alloc, 0, 1, room.max(1), LIFE, 1)?)
}

/// Leaves so many quarantines standing, which were given at that time.
pub fn leave_quarantines(shard: &mut Shard, count: u32, now: u64) -> Result<(), Unmeasured> {
    for id in 0..count {
        quarantine(shard, friends(id), now)?.let_go();
    }
    Ok(())
}

/// Leaves so many quarantines standing that are due, and puts their grants into the list.
pub fn hold_quarantines(
    shard: &mut Shard,
    grants: &mut Vec<Grant>,
    count: u32,
) -> Result<(), Unmeasured> {
    for id in 0..count {
        let grant = quarantine(shard, friends(id), 0)?;
        if let Err(failed) = grants.push(grant) {
            failed.value.let_go();
            return Err(Unmeasured);
        }
    }
    Ok(())
}

/// Lets go of the grants.
pub fn let_go_each(grants: Vec<Grant>) {
    let mut left = grants;
    while let Some(grant) = left.pop() {
        grant.let_go();
    }
    left.destroy_empty();
}

/// Leaves so many leases to read standing.
pub fn leave_leases(shard: &mut Shard, count: u32) -> Result<(), Unmeasured> {
    for id in 0..count {
        let _token = lease(shard, friends(id))?;
    }
    Ok(())
}

/// Leaves so many entries.
pub fn leave_entries(alloc: Global, shard: &mut Shard, count: u32) -> Result<(), Unmeasured> {
    for id in 0..count {
        store(alloc, shard, friends(id))?;
    }
    Ok(())
}

/// So many requests of readers: of ten one misses, one sets and eight hit.
pub fn read(alloc: Global, shard: &mut Shard, count: u32) -> Result<(), Unmeasured> {
    for id in 0..count / 10 {
        store(alloc, shard, profile(id))?;
        hit(shard, profile(id))?;
    }
    Ok(())
}

/// So many requests of writers: of two one quarantines a key and one releases it.
pub fn write(shard: &mut Shard, count: u32) -> Result<(), Unmeasured> {
    for id in 0..count / 2 {
        let grant = quarantine(shard, profile(id), NOW)?;
        match shard.release(grant, How::Drop) {
            Rel::Released { evicted: _ } => {}
            Rel::Gone => return Err(Unmeasured),
        }
    }
    Ok(())
}

/// So many requests: of three one quarantines a key so that it is due at once, one finds what is due first
/// and one drops it.
pub fn tend(shard: &mut Shard, count: u32) -> Result<(), Unmeasured> {
    for id in 0..count / 3 {
        quarantine(shard, profile(id), 0)?.let_go();
        sweep_one(shard)?;
    }
    Ok(())
}

/// So many requests of a sweeper: of two one finds what is due first and one drops it.
pub fn sweep(shard: &mut Shard, count: u32) -> Result<(), Unmeasured> {
    for _ in 0..count / 2 {
        sweep_one(shard)?;
    }
    Ok(())
}

/// Two requests for each grant, in their order: one finds what is due first, and one renews the quarantine of
/// the grant, which is due then and no longer after.
pub fn renew(shard: &mut Shard, grants: &[Grant]) -> Result<(), Unmeasured> {
    for grant in grants.iter() {
        match shard.expired(NOW) {
            Some(due) if due.token == grant.token() => {}
            _ => return Err(Unmeasured),
        }
        match shard.renew(grant, NOW)? {
            Renewal::Renewed { deadline: _ } => {}
            Renewal::Gone => return Err(Unmeasured),
        }
    }
    match shard.expired(NOW) {
        Some(_) => Err(Unmeasured),
        None => Ok(()),
    }
}

fn quarantine(shard: &mut Shard, key: QKey, now: u64) -> Result<Grant, Unmeasured> {
    match shard.quarantine(key, WRITER, Mode::Invalidate, 0, now)? {
        QAnswer::Granted { grant, old: _ } => Ok(grant),
        QAnswer::Held => Err(Unmeasured),
        QAnswer::Refused { holder: _, mode: _ } => Err(Unmeasured),
    }
}

/// Misses, and answers the token of the lease.
fn lease(shard: &mut Shard, key: QKey) -> Result<u64, Unmeasured> {
    match shard.get(key, READER, 0, NOW)? {
        Got::Lease { token } => Ok(token),
        Got::Hit { .. } | Got::Again { .. } | Got::Own => Err(Unmeasured),
    }
}

/// Misses and sets.
fn store(alloc: Global, shard: &mut Shard, key: QKey) -> Result<(), Unmeasured> {
    let token = lease(shard, key)?;
    let value = Value::of(alloc, b"m1 0 0")?;
    match shard.set(key, token, value, 0, NOW)? {
        SetAnswer::Stored { evicted: _ } => Ok(()),
        SetAnswer::Void => Err(Unmeasured),
    }
}

/// Hits eight times.
fn hit(shard: &mut Shard, key: QKey) -> Result<(), Unmeasured> {
    for _ in 0..8 {
        match shard.get(key, READER, 0, NOW)? {
            Got::Hit { .. } => {}
            Got::Lease { .. } | Got::Again { .. } | Got::Own => return Err(Unmeasured),
        }
    }
    Ok(())
}

/// Finds the quarantine that is due first, and drops its key.
fn sweep_one(shard: &mut Shard) -> Result<(), Unmeasured> {
    let Some(due) = shard.expired(NOW) else {
        return Err(Unmeasured);
    };
    if !shard.is_home(&due.key) {
        return Err(Unmeasured);
    }
    match shard.sweep_drop(due.key, due.token) {
        Rel::Released { evicted: _ } => Ok(()),
        Rel::Gone => Err(Unmeasured),
    }
}
