use crate::asks::{ask_each, linked_rows};
use crate::shards::{
    NOW, hold_quarantines, leave_entries, leave_leases, leave_quarantines, let_go_each, new_shard,
    read, renew, sweep, tend, write,
};
use crate::times::{Unmeasured, used};
use key_shard::{Grant, Shard};
use rows_model::Memory;
use std::alloc::Global;
use std::time::CpuClock;

/// How much there is of each thing.
#[derive(Clone, Copy)]
pub struct Scale {
    /// How many requests are made at first, and then ten times as many.
    pub few: u32,
    /// How many quarantines or leases are left standing.
    pub standing: u32,
    /// How many entries a full shard has.
    pub entries: u32,
    /// How many members the rows have.
    pub members: u32,
}

/// What is measured.
pub const FULL: Scale = Scale {
    few: 100_000,
    standing: 100_000,
    entries: 65_536,
    members: 100_000,
};

/// What is tried.
pub const SMALL: Scale = Scale {
    few: 1000,
    standing: 100,
    entries: 64,
    members: 100,
};

/// How many entries a shard has room for that isn't to be full.
const ROOM: u32 = 1024;

/// A kind of requests, with what stands beside them.
#[derive(Clone, Copy)]
pub enum Measure {
    Readers,
    Quarantines,
    Leases,
    Entries,
    Asks,
    Tends,
    Sweeps,
    Renewals,
    Writers,
}

pub const ALL: [Measure; 9] = [
    Measure::Readers,
    Measure::Quarantines,
    Measure::Leases,
    Measure::Entries,
    Measure::Asks,
    Measure::Tends,
    Measure::Sweeps,
    Measure::Writers,
    Measure::Renewals,
];

impl Measure {
    pub fn name(self) -> &'static str {
        match self {
            Measure::Readers => "(a) readers alone",
            Measure::Quarantines => "(b) readers beside quarantines",
            Measure::Leases => "(c) readers beside leases",
            Measure::Entries => "(d) readers in a full shard",
            Measure::Asks => "(e) answers from the rows",
            Measure::Tends => "(f) sweeps beside quarantines",
            Measure::Sweeps => "(g) sweeps where all are due",
            Measure::Writers => "(h) writers beside quarantines",
            Measure::Renewals => "(i) renewals where all are due",
        }
    }

    /// One request is made of this kind where so many are of readers alone: of each quarantine that is due
    /// there are two, and 10,000 and 100,000 are due at once.
    pub fn share(self) -> u32 {
        match self {
            Measure::Sweeps | Measure::Renewals => 5,
            _ => 1,
        }
    }
}

/// How many nanoseconds of the processor the requests take, without what is set up before. The shard is put
/// behind those that are kept, so that the next one doesn't have its memory.
pub fn took<C: CpuClock>(
    rt: &C,
    alloc: Global,
    measure: Measure,
    scale: &Scale,
    requests: u32,
    kept: &mut Vec<Shard>,
) -> Result<u64, Unmeasured> {
    match measure {
        Measure::Asks => asks_took(rt, alloc, scale.members, requests),
        Measure::Renewals => renewals_took(rt, alloc, requests, kept),
        _ => {
            let mut shard = new_shard(alloc, room_of(measure, scale))?;
            set_up(alloc, &mut shard, measure, scale, requests)?;
            let before = used(rt)?;
            make(alloc, &mut shard, measure, requests)?;
            let nanos = used(rt)?.saturating_sub(before);
            kept.push(shard).map_err(Memory::from)?;
            Ok(nanos)
        }
    }
}

fn asks_took<C: CpuClock>(
    rt: &C,
    alloc: Global,
    members: u32,
    requests: u32,
) -> Result<u64, Unmeasured> {
    let rows = linked_rows(alloc, members)?;
    let before = used(rt)?;
    ask_each(alloc, &rows, members, requests)?;
    Ok(used(rt)?.saturating_sub(before))
}

fn renewals_took<C: CpuClock>(
    rt: &C,
    alloc: Global,
    requests: u32,
    kept: &mut Vec<Shard>,
) -> Result<u64, Unmeasured> {
    let mut shard = new_shard(alloc, ROOM)?;
    let mut grants = Vec::new(alloc);
    let took = held_and_renewed(rt, &mut shard, &mut grants, requests / 2);
    let_go_each(grants);
    kept.push(shard).map_err(Memory::from)?;
    took
}

/// The nanoseconds in which so many quarantines that are due are found and renewed in turn.
fn held_and_renewed<C: CpuClock>(
    rt: &C,
    shard: &mut Shard,
    grants: &mut Vec<Grant>,
    count: u32,
) -> Result<u64, Unmeasured> {
    hold_quarantines(shard, grants, count)?;
    let before = used(rt)?;
    renew(shard, grants)?;
    Ok(used(rt)?.saturating_sub(before))
}

fn room_of(measure: Measure, scale: &Scale) -> u32 {
    match measure {
        Measure::Entries => scale.entries,
        _ => ROOM,
    }
}

/// Leaves in the shard what is to stand beside the requests.
fn set_up(
    alloc: Global,
    shard: &mut Shard,
    measure: Measure,
    scale: &Scale,
    requests: u32,
) -> Result<(), Unmeasured> {
    match measure {
        Measure::Quarantines | Measure::Tends | Measure::Writers => {
            leave_quarantines(shard, scale.standing, NOW)
        }
        Measure::Leases => leave_leases(shard, scale.standing),
        Measure::Entries => leave_entries(alloc, shard, scale.entries),
        Measure::Sweeps => leave_quarantines(shard, requests / 2, 0),
        Measure::Readers | Measure::Asks | Measure::Renewals => Ok(()),
    }
}

/// Makes so many requests.
fn make(
    alloc: Global,
    shard: &mut Shard,
    measure: Measure,
    requests: u32,
) -> Result<(), Unmeasured> {
    match measure {
        Measure::Tends => tend(shard, requests),
        Measure::Sweeps => sweep(shard, requests),
        Measure::Writers => write(shard, requests),
        _ => read(alloc, shard, requests),
    }
}
