ghost use Rattle.std.specs.Prelude.{◌≡◌, ℕ, ◌≤◌, true, false, List, [], Option, IfSome, length, vec_capacity};
ghost use Rattle.std.specs.Thread.{IsSync};
ghost use Rattle.iq_outside.specs.Outside.{Rose, LineRecord};
ghost use Rattle.door_workers.specs.Attending.{HaveComeWith, WasAttended, is_over, seen_at};
ghost use Rattle.door_workers.specs.DoorSeen.{DoorSeen};
ghost use Rattle.door_workers.specs.Ends.{AreServed};

use crate::attending::{Attending, Lent};
use crate::kept::Kept;
use crate::names::DoorName;
use crate::progress::Progress;
use conn_server::{LineEnd, serve_line};
use iq_outside::{Door, Line};
use plain_ops::PlainBox;
use session_client::Desk;
use std::alloc::Global;
use std::marker::Brand;
use std::mem;
use std::sync::ledger::{Blank, Share};
use std::sync::{Mutex, Wait};
use std::thread::{Threads, join};

/// What the workers left.
#[derive(Drop)]
pub struct Attended {
    /// How many lines were served. It stands still at its type's end.
    pub served: u64,
    /// How each line ended, in the order in which the lines were handed back. It is empty where no number
    /// of connections was enough.
    pub ends: Vec<LineEnd>,
    /// Whether the door failed.
    pub failed: bool,
}

/// Accepts connections from the door until so many were accepted, or no more come, or the door fails.
/// Where `conns` is `None` no number of them is enough. Each is served and handed back to the door. As
/// many workers as there are desks do so at the same time, each on its desk and in a thread of its own,
/// and all are joined. All share the plain map. The door has a lock, under which a worker accepts a line
/// or hands one back; it serves a line and ends it for the peer without the lock. The caller works at the
/// last desk itself, and does the work for which no thread can be started. It may wait.
///
/// `ends` is empty. Where a number of connections is enough, it has room for an entry for each of them, and
/// becomes the list of the ends, in the order in which the lines were handed back: a connection that ends
/// by a fault is an entry like any other. Where none is, it stays empty, and nothing that is kept grows
/// with the number of connections. Where the door gives only fresh lines, and tells those handed back, each
/// was served to its end. Beyond what serving a line takes no memory is taken, but what a thread needs.
pub fn serve_all<D: Door, K: Desk + Send, R: Threads + Wait + Sync>(
    rt: &R,
    alloc: Global,
    desks: &mut [K],
    plain: &PlainBox,
    door: &mut D,
    conns: Option<u32>,
    ends: Vec<LineEnd>,
) -> Attended
    requires some { 1 ≤ length desks.old }
    requires none { ends.items ≡ [] }
    requires room { IfSome conns (λ most. most ≤ vec_capacity ends) }
    ensures attended { let tells = seen_at D.bound D.lines D.faults D.ended D.closed in
        WasAttended conns (tells door.old) (tells door.new)
        result.ends.items result.served result.failed }
    ensures failed { result.failed ≡ true → Rose (D.faults door.old) (D.faults door.new) }
    ensures no_fault { result.failed ≡ false → D.faults door.new ≡ D.faults door.old }
    ensures never_falls { D.faults door.old ≤ D.faults door.new }
    ensures stays_fresh { D.fresh door.old → D.fresh door.new }
    ensures handed_back { D.fresh door.old →
        AreServed conns result.ends.items (D.closed door.old) (D.closed door.new) }
{
    let mut so_far = Progress::new(conns, ends);
    let ledger = Blank::new(desks.len() as u64);
    let lent = Lent { door };
    let lent = attend::<D, K, Brand, R>(rt, alloc, desks, plain, ledger, lent, &mut so_far);
    let Lent { door: _ } = lent;
    Attended {
        served: so_far.accepted,
        ends: so_far.ends,
        failed: so_far.failed,
    }
}

/// Puts the door under a lock and lets the workers attend it, with a part of the ledger for each. When
/// all have ended the caller attends it alone, so that nothing is left to accept.
fn attend<'a, D: Door, K: Desk + Send, N: DoorName + Send + Sync, R: Threads + Wait + Sync>(
    rt: &R,
    alloc: Global,
    desks: &mut [K],
    plain: &PlainBox,
    ledger: Blank,
    lent: Lent<'a, D>,
    so_far: &mut Progress,
) -> Lent<'a, D>
    requires some { 1 ≤ length desks.old }
    requires ledger { (ledger.name ≡ N.name) × (ledger.parts ≡ N.parts) }
    requires one_each { ledger.parts ≡ length desks.old }
    requires door { lent.door.ghost_name ≡ N.door }
    requires first { HaveComeWith N.first N.most
        (seen_at D.bound D.lines D.faults D.ended D.closed lent.door.now) so_far.old 0 }
    requires fresh { N.fresh → D.fresh lent.door.now }
    requires handed_back { N.fresh →
        AreServed N.most so_far.old.ends.items N.closed (D.closed lent.door.now) }
    ensures same_door { result.door.ghost_name ≡ lent.entry.door.ghost_name }
    ensures stands { HaveComeWith N.first N.most
        (seen_at D.bound D.lines D.faults D.ended D.closed result.door.now) so_far.new 0 }
    ensures over { is_over so_far.new ≡ true }
    ensures stays_fresh { N.fresh → D.fresh result.door.now }
    ensures handed_back { N.fresh →
        AreServed N.most so_far.new.ends.items N.closed (D.closed result.door.now) }
{
    let (out, mine) = ledger.open::<N>();
    let begun = mem::replace(so_far, Progress::new(None, Vec::new(alloc)));
    let at = Attending {
        lent,
        so_far: begun,
    };
    let lock = Mutex::new(Kept { at, out });
    let all = work_from(rt, &alloc, &lock, mine, desks, plain);
    let mut at = lock.into_inner().into_attending(all);
    attend_alone(rt, alloc, &mut at, &mut desks[0], plain);
    let Attending { lent, so_far: done } = at;
    *so_far = done;
    lent
}

/// Attends the door at each of the desks: at the first in a thread of its own, beside those behind it.
/// The last one needs no thread. The share comes back as it was.
fn work_from<D: Door, K: Desk + Send, N: DoorName + Send + Sync, R: Threads + Wait + Sync>(
    rt: &R,
    alloc: &Global,
    lock: &Mutex<Kept<'_, D, N>>,
    mine: Share<N>,
    desks: &mut [K],
    plain: &PlainBox,
) -> Share<N>
    requires some { 1 ≤ length desks.old }
    requires parts { length desks.old ≤ mine.parts }
    requires none { mine.amount ≡ 0 }
    ensures parts { result.parts ≡ mine.parts }
    ensures none { result.amount ≡ 0 }
{
    let mut mine = mine;
    if desks.len() < 2 {
        work(rt, *alloc, lock, &mut mine, &mut desks[0], plain);
        return mine;
    }
    let part = mine.split_off(1, 0);
    let (front, back) = desks.split_at_mut(1);
    let (mut all, others) = join(
        rt,
        move || -> Share<N>
            requires { (part.parts ≡ 1) × (part.amount ≡ 0) × (1 ≤ length front.now) }
            ensures { (result.parts ≡ 1) × (result.amount ≡ 0) }
        { work_one(rt, *alloc, lock, part, front, plain) },
        move || -> Share<N>
            requires { IsSync R.row × (mine.amount ≡ 0) × (1 ≤ length back.now)
                × (length back.now ≤ mine.parts) }
            ensures { (result.parts ≡ mine.parts) × (result.amount ≡ 0) }
        { work_from(rt, alloc, lock, mine, back, plain) },
    );
    all.merge(others);
    all
}

/// Attends the door at the first desk.
fn work_one<D: Door, K: Desk, N: DoorName, R: Wait>(
    rt: &R,
    alloc: Global,
    lock: &Mutex<Kept<'_, D, N>>,
    mine: Share<N>,
    desks: &mut [K],
    plain: &PlainBox,
) -> Share<N>
    requires some { 1 ≤ length desks.old }
    requires part { 1 ≤ mine.parts }
    requires none { mine.amount ≡ 0 }
    ensures part { result.parts ≡ mine.parts }
    ensures none { result.amount ≡ 0 }
{
    let mut mine = mine;
    work(rt, alloc, lock, &mut mine, &mut desks[0], plain);
    mine
}

/// Accepts lines under the lock and serves each without it, until none is to be accepted.
fn work<D: Door, K: Desk, N: DoorName, R: Wait>(
    rt: &R,
    alloc: Global,
    lock: &Mutex<Kept<'_, D, N>>,
    mine: &mut Share<N>,
    desk: &mut K,
    plain: &PlainBox,
)
    requires part { 1 ≤ mine.old.parts }
    requires none { mine.old.amount ≡ 0 }
    ensures part { mine.new.parts ≡ mine.old.parts }
    ensures none { mine.new.amount ≡ 0 }
{
    let mut seat = plain.desk(rt);
    for _ in rt.forever() {
        let accepted = lock.lock(rt).accept(mine);
        let Some(mut line) = accepted else {
            return;
        };
        let end = serve_line(alloc, &mut line, desk, &mut seat);
        line.finish();
        lock.lock(rt).hand_back(line, end, mine);
    }
}

/// Accepts lines and serves them, with no lock, until none is to be accepted.
fn attend_alone<D: Door, K: Desk, R: Wait>(
    rt: &R,
    alloc: Global,
    at: &mut Attending<'_, D>,
    desk: &mut K,
    plain: &PlainBox,
)
    requires stands { (first : DoorSeen) × (most : Option ℕ) × HaveComeWith first most
        (seen_at D.bound D.lines D.faults D.ended D.closed at.old.lent.door.now) at.old.so_far 0 }
    ensures same_door { at.new.lent.door.ghost_name ≡ at.old.lent.door.ghost_name }
    ensures stands { (first : DoorSeen) (most : Option ℕ) →
        HaveComeWith first most (seen_at D.bound D.lines D.faults D.ended D.closed at.old.lent.door.now)
        at.old.so_far 0 →
        HaveComeWith first most (seen_at D.bound D.lines D.faults D.ended D.closed at.new.lent.door.now)
        at.new.so_far 0 }
    ensures over { is_over at.new.so_far ≡ true }
    ensures stays_fresh { D.fresh at.old.lent.door.now → D.fresh at.new.lent.door.now }
    ensures handed_back { D.fresh at.old.lent.door.now →
        (before : Option (List LineRecord)) →
        AreServed at.old.so_far.most at.old.so_far.ends.items before
        (D.closed at.old.lent.door.now) →
        AreServed at.old.so_far.most at.new.so_far.ends.items before
        (D.closed at.new.lent.door.now) }
{
    let mut seat = plain.desk(rt);
    for _ in rt.forever() {
        let Some(mut line) = at.accept() else {
            return;
        };
        let end = serve_line(alloc, &mut line, desk, &mut seat);
        line.finish();
        at.hand_back(line, end);
    }
    unreachable!()
}
