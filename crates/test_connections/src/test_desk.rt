// A desk of one shard and no store, which ails and is swept after so many commands.
ghost use Rattle.std.specs.Prelude.{◌≡◌, Some, None};
ghost use Rattle.lease_table.specs.declared.records.Mode.TheVariants as Mode;
ghost use Rattle.key_shard.specs.Answers.{FitsMode, FitsShift};
ghost use Rattle.session_client.specs.Belongs.{Belongs};
ghost use Rattle.session_client.specs.Desks.{IsProper};
ghost use Rattle.session_client.specs.declared.replies.Reply.TheVariants as Reply;
ghost use Rattle.session_client.specs.declared.replies.Wanted.TheVariants as wanted;
ghost use Rattle.key_shard.specs.declared.replies.Rel.{Rel};

use key_shard::{Back, Grant, How, Shard};
use lease_table::Mode;
use rows_model::{Memory, QKey, Sid, Txn, Value};
use session_client::{Desk, Fault, Grants, Reply, Wanted};
use sql_keeper::{AfterFault, Answer, CommitFault};
use std::alloc::Global;
use std::test::Fail;

/// What befalls a desk between two commands.
#[derive(Clone, Copy)]
pub enum Turn {
    /// It ails, and for this reason commits nothing.
    Ails { fault: CommitFault },
    /// It ails no longer.
    Recovers,
    /// A sweep ends the quarantine of this token, and its client doesn't hear of it.
    Swept { key: QKey, token: u64 },
    /// Session 9 quarantines the key, to refresh it.
    Taken { key: QKey },
}

/// A desk whose store answers each question with this text and the stamp 7, and commits each
/// transaction. An ailing one doesn't make a request of which that may be told.
#[derive(Drop)]
pub struct TestDesk {
    text: Value,
    shard: Shard,
    begun: u64,
    commits: u64,
    /// Why an ailing desk commits nothing.
    ails: Option<CommitFault>,
    /// How many commands were answered.
    answered: u64,
    /// What befalls it, each once so many commands were answered.
    turns: &'static [(u64, Turn)],
}

impl TestDesk {
    pub fn new(alloc: Global, turns: &'static [(u64, Turn)]) -> Result<TestDesk, Fail> {
        Ok(TestDesk {
            text: Value::of(alloc, b"5")?,
            shard: Shard::new(alloc, 0, 1, 80, 100, 1)?,
            begun: 0,
            commits: 0,
            ails: None,
            answered: 0,
            turns,
        })
    }

    fn meet(&mut self, turn: Turn) {
        match turn {
            Turn::Ails { fault } => self.ails = Some(fault),
            Turn::Recovers => self.ails = None,
            Turn::Swept { key, token } => {
                if self.shard.is_home(&key) {
                    let _ = self.shard.sweep_drop(key, token);
                }
            }
            Turn::Taken { key } => {
                let other = Sid { number: 9 };
                if let Ok(answer) = self.shard.quarantine(key, other, Mode::Refresh, 0, 0) {
                    Reply::Quar { answer }.let_go();
                }
            }
        }
    }

    fn ask(&self, key: QKey) -> Reply
        ensures { (who : Sid) → Belongs who (wanted.Ask key) result }
    {
        if self.ails.is_some() {
            return Reply::Fault { fault: Fault::Keep };
        }
        match self.text.copy() {
            Ok(value) => Reply::Answer {
                answer: Answer {
                    key,
                    value,
                    stamp: 7,
                },
            },
            Err(_) => Reply::Fault {
                fault: Fault::Memory,
            },
        }
    }

    fn staged(&self, key: QKey, txn: Txn) -> Reply
        ensures { (who : Sid) → Belongs who (wanted.Staged key txn) result }
    {
        if self.ails.is_some() {
            let fault = AfterFault::Rejected { index: 2 };
            return Reply::NotStaged { fault, txn };
        }
        match self.text.copy() {
            Ok(value) => Reply::Staged { value, txn },
            Err(_) => Reply::NotStaged {
                fault: AfterFault::Memory,
                txn,
            },
        }
    }

    fn get(&mut self, who: Sid, key: QKey, floor: u64) -> Reply
        ensures { Belongs who (wanted.Get key floor) result }
    {
        let fault = Fault::Spent;
        if self.ails.is_some() {
            return Reply::Fault { fault };
        }
        match self.shard.get(key, who, floor, 0) {
            Ok(got) => Reply::Got { got },
            Err(_) => Reply::Fault { fault },
        }
    }

    fn set(&mut self, key: QKey, token: u64, value: Value, stamp: u64) -> Reply
        ensures { (who : Sid) → Belongs who (wanted.Set key token value stamp) result }
    {
        let fault = Fault::Memory;
        if self.ails.is_some() {
            return Reply::Fault { fault };
        }
        match self.shard.set(key, token, value, stamp, 0) {
            Ok(answer) => Reply::Set { answer },
            Err(_) => Reply::Fault { fault },
        }
    }

    fn quarantine(&mut self, who: Sid, key: QKey, mode: Mode, by: i32) -> Reply
        requires { FitsShift mode by }
        ensures invalidate { mode ≡ Mode.Invalidate → Belongs who (wanted.QaReg key) result }
        ensures refresh { mode ≡ Mode.Refresh → Belongs who (wanted.QaRead key) result }
        ensures delta { mode ≡ Mode.Delta → Belongs who (wanted.Delta key by) result }
    {
        let fault = Fault::Spent;
        if self.ails.is_some() {
            return Reply::Fault { fault };
        }
        match self.shard.quarantine(key, who, mode, by, 0) {
            Ok(answer) => Reply::Quar { answer },
            Err(_) => Reply::Fault { fault },
        }
    }

    fn commit(&mut self, txn: Txn, grants: Grants) -> Reply
        ensures { (who : Sid) → Belongs who (wanted.Commit txn grants) result }
    {
        if let Some(fault) = self.ails {
            return Reply::NotCommitted { fault, txn, grants };
        }
        self.commits = self.commits.saturating_add(1);
        Reply::Committed {
            number: self.commits,
            txn,
            grants,
        }
    }

    fn put(&mut self, grant: Grant, value: Value, stamp: u64) -> Reply
        requires { grant.mode ≡ Mode.Refresh }
        ensures { (who : Sid) → Belongs who (wanted.Sar grant (Some value) stamp) result }
    {
        if self.ails.is_some() {
            return Reply::SarBack { grant };
        }
        match self.shard.replace(grant, value, stamp) {
            Ok(answer) => Reply::Rel { answer },
            Err(Back { grant, value: _ }) => Reply::SarBack { grant },
        }
    }

    fn replace(&mut self, grant: Grant, value: Option<Value>, stamp: u64) -> Reply
        requires { IsProper (wanted.Sar grant value stamp) }
        ensures { (who : Sid) → Belongs who (wanted.Sar grant value stamp) result }
    {
        match value {
            Some(value) => self.put(grant, value, stamp),
            None => self.release(grant, How::Drop),
        }
    }

    fn release(&mut self, grant: Grant, how: How) -> Reply
        requires { FitsMode grant.mode how }
        ensures { (its_answer : Rel) × (result ≡ Reply.Rel its_answer) }
    {
        Reply::Rel {
            answer: self.shard.release(grant, how),
        }
    }
}

impl Desk for TestDesk {
    ghost begun = { λ desk. None };

    fn begin(&mut self, _writes: bool) -> Result<Sid, Memory> {
        if self.ails.is_some() {
            return Err(Memory);
        }
        self.begun = self.begun.saturating_add(1);
        Ok(Sid { number: self.begun })
    }

    fn call(&mut self, who: Sid, wanted: Wanted) -> Reply {
        match wanted {
            Wanted::Get { key, floor } => self.get(who, key, floor),
            Wanted::Ask { key } => self.ask(key),
            Wanted::Staged { key, txn } => self.staged(key, txn),
            Wanted::Set {
                key,
                token,
                value,
                stamp,
            } => self.set(key, token, value, stamp),
            Wanted::QaReg { key } => self.quarantine(who, key, Mode::Invalidate, 0),
            Wanted::QaRead { key } => self.quarantine(who, key, Mode::Refresh, 0),
            Wanted::Delta { key, by } => self.quarantine(who, key, Mode::Delta, by),
            Wanted::Commit { txn, grants } => self.commit(txn, grants),
            Wanted::End => Reply::End { was: true },
            Wanted::Dar { grant } => self.release(grant, How::Drop),
            Wanted::Sar {
                grant,
                value,
                stamp,
            } => self.replace(grant, value, stamp),
            Wanted::Apply { grant, stamp } => self.release(grant, How::Shift { stamp }),
            Wanted::Abort { grant } => self.release(grant, How::Keep),
            // No connection asks for these.
            Wanted::Raise { grant } => Reply::RaiseBack { grant },
            Wanted::Renew { grant } => Reply::Renew {
                grant,
                answer: None,
            },
            Wanted::Nothing => Reply::Nothing,
        }
    }

    fn tend(&mut self) {
        self.answered = self.answered.saturating_add(1);
        let turns = self.turns;
        for (after, turn) in turns.iter() {
            if *after == self.answered {
                self.meet(*turn);
            }
        }
    }
}
