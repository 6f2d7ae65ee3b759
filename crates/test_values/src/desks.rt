//! A shard on which tests make calls, and what it answers as a text.
ghost use Rattle.std.specs.Prelude.{◌≤◌, ◌<◌};

use key_shard::{Got, Grant, QAnswer, Raising, Rel, Renewal, SetAnswer, Shard, ShardFault};
use lease_table::Mode;
use rows_model::{Memory, QKey, Sid, Value};
use std::alloc::{AllocError, Global};
use std::mem;
use std::process::Abort;

/// A shard, the grant that the test holds, and one that it laid aside.
pub struct Desk {
    pub shard: Shard,
    pub held: Option<Grant>,
    pub aside: Option<Grant>,
}

impl Desk {
    /// A desk over a new shard.
    pub fn new(rt: &impl Abort, alloc: Global, no: u32, count: u32, room: u32, first: u64) -> Desk
        requires one_of { no < count }
        requires roomy { 1 ≤ room }
        requires tokens { 1 ≤ first }
    {
        match Shard::new(alloc, no, count, room, 100, first) {
            Ok(shard) => Desk::over(shard),
            Err(_) => panic!(rt; "no memory"),
        }
    }

    /// A desk over a new shard that rolls, with room for so many entries.
    pub fn rolling(rt: &impl Abort, alloc: Global, room: u32, first: u64) -> Desk
        requires roomy { 1 ≤ room }
        requires tokens { 1 ≤ first }
    {
        match Shard::rolling(alloc, 0, 1, room, 100, first) {
            Ok(shard) => Desk::over(shard),
            Err(_) => panic!(rt; "no memory"),
        }
    }

    fn over(shard: Shard) -> Desk {
        Desk {
            shard,
            held: None,
            aside: None,
        }
    }

    /// Takes the grant, which is to be there.
    pub fn take(&mut self, rt: &impl Abort) -> Grant {
        match mem::replace(&mut self.held, None) {
            Some(grant) => grant,
            None => panic!(rt; "no grant"),
        }
    }

    /// Holds the grant, in the place of any that was held.
    pub fn hold(&mut self, grant: Grant) {
        if let Some(other) = mem::replace(&mut self.held, Some(grant)) {
            other.let_go();
        }
    }

    /// Lays aside what is held, holds what lay there, and tells the token of that.
    pub fn change_hands(&mut self, alloc: Global) -> Result<String, AllocError> {
        mem::swap(&mut self.held, &mut self.aside);
        match &self.held {
            Some(grant) => format!(in alloc; "{}", grant.token()),
            None => format!(in alloc; "none"),
        }
    }

    /// The shard. A grant that is held or laid aside is let go.
    pub fn into_shard(self) -> Shard {
        let Desk { shard, held, aside } = self;
        if let Some(grant) = held {
            grant.let_go();
        }
        if let Some(grant) = aside {
            grant.let_go();
        }
        shard
    }

    pub fn close(self) {
        let _ = self.into_shard();
    }

    /// Tells the answer to a quarantine of a key for a session, and holds the grant, which is to be for
    /// these.
    pub fn asked(
        &mut self,
        rt: &impl Abort,
        alloc: Global,
        key: QKey,
        who: Sid,
        answer: QAnswer,
    ) -> Result<String, AllocError> {
        match answer {
            QAnswer::Granted { grant, old } => {
                assert!(rt; grant.key() == key && grant.sid() == who);
                let text = given_text(alloc, "granted", grant.token(), old);
                self.hold(grant);
                text
            }
            QAnswer::Held => format!(in alloc; "held"),
            QAnswer::Refused { holder, mode } => {
                format!(in alloc; "refused by {} {mode:?}", holder.number)
            }
        }
    }

    /// Tells the answer to a raise, and holds the grant that comes back. Raised it is to refresh.
    pub fn raised(
        &mut self,
        rt: &impl Abort,
        alloc: Global,
        answer: Raising,
    ) -> Result<String, AllocError> {
        match answer {
            Raising::Raised { grant, old } => {
                assert!(rt; matches!(grant.mode(), Mode::Refresh));
                let text = given_text(alloc, "raised", grant.token(), old);
                self.hold(grant);
                text
            }
            Raising::Shared { grant, holder } => {
                assert!(rt; matches!(grant.mode(), Mode::Invalidate));
                self.hold(grant);
                format!(in alloc; "shared with {}", holder.number)
            }
            Raising::Gone => format!(in alloc; "gone"),
        }
    }
}

fn text_of(alloc: Global, value: &Value) -> Result<String, AllocError> {
    String::from_utf8_lossy(alloc, value.bytes())
}

fn given_text(
    alloc: Global,
    word: &str,
    token: u64,
    old: Option<(Value, u64)>,
) -> Result<String, AllocError> {
    match old {
        Some((value, stamp)) => {
            format!(in alloc; "{word} {token} over {} {stamp}", text_of(alloc, &value)?)
        }
        None => format!(in alloc; "{word} {token}"),
    }
}

pub fn fault_text(alloc: Global, fault: ShardFault) -> Result<String, AllocError> {
    match fault {
        ShardFault::Stranger { shard } => format!(in alloc; "stranger {shard}"),
        ShardFault::Spent { next } => format!(in alloc; "spent {next}"),
        ShardFault::Memory => format!(in alloc; "no memory"),
    }
}

/// Tells the answer to a get.
pub fn got_text(alloc: Global, answer: Result<Got, ShardFault>) -> Result<String, AllocError> {
    match answer {
        Ok(Got::Hit { value, stamp }) => {
            format!(in alloc; "hit {} {stamp}", text_of(alloc, &value)?)
        }
        Ok(Got::Lease { token }) => format!(in alloc; "lease {token}"),
        Ok(Got::Again { standing }) => format!(in alloc; "again {standing:?}"),
        Ok(Got::Own) => format!(in alloc; "own"),
        Err(fault) => fault_text(alloc, fault),
    }
}

/// Tells the answer to a set.
pub fn set_text(
    alloc: Global,
    answer: Result<SetAnswer, ShardFault>,
) -> Result<String, AllocError> {
    match answer {
        Ok(SetAnswer::Stored { evicted: None }) => format!(in alloc; "stored"),
        Ok(SetAnswer::Stored { evicted: Some(key) }) => format!(in alloc; "stored for {}", key.id),
        Ok(SetAnswer::Void) => format!(in alloc; "void"),
        Err(fault) => fault_text(alloc, fault),
    }
}

/// Tells the answer to a renewal.
pub fn renewal_text(alloc: Global, answer: Result<Renewal, Memory>) -> Result<String, AllocError> {
    match answer {
        Ok(Renewal::Renewed { deadline }) => format!(in alloc; "renewed until {deadline}"),
        Ok(Renewal::Gone) => format!(in alloc; "gone"),
        Err(_) => format!(in alloc; "no memory"),
    }
}

/// Tells the answer to a release.
pub fn rel_text(alloc: Global, answer: Rel) -> Result<String, AllocError> {
    match answer {
        Rel::Released { evicted: None } => format!(in alloc; "released"),
        Rel::Released { evicted: Some(key) } => format!(in alloc; "released for {}", key.id),
        Rel::Gone => format!(in alloc; "gone"),
    }
}
