ghost use Rattle.std.specs.Prelude.{◌≡◌, ◌≢◌, ◌<◌, ◌≤◌, ℕ, true, List, Some, None, length};
ghost use Rattle.std.specs.List.{insert};
ghost use Rattle.std.specs.Option.{option_map};
ghost use Rattle.rows_model.specs.declared.keys.Sid.{Sid};
ghost use Rattle.rows_model.specs.Delta.{is_count};
ghost use Rattle.lease_table.specs.declared.records.Mode.TheVariants.{Refresh, Delta};
ghost use Rattle.key_shard.specs.Permit.{Permit};
ghost use Rattle.session_client.specs.Desks.{Exchange};
ghost use Rattle.session_client.specs.declared.replies.Wanted.TheVariants as wanted;
ghost use Rattle.mc_text.specs.declared.commands.Command.TheVariants as commands;
ghost use Rattle.conn_server.specs.Clients.{grant_on, grants_but};
ghost use Rattle.conn_server.specs.Refusals.{refused};
ghost use Rattle.conn_server.specs.Requests.{commits, stamp_of, with_grants};
ghost use Rattle.conn_server.specs.Closing.{MayAbort, aborted};
ghost use Rattle.conn_server.specs.Answers.{first_stage, is_writer, Asks, Makes, Begins, Aborts, HasFirst, HasFirstIn, with_calls};

use crate::clients::{Client, Present, Stage};
use crate::tellings::{
    tell_answer, tell_lookup, tell_not_committed, tell_quarantine, tell_release, tell_set,
    tell_staged,
};
use key_shard::Grant;
use mc_text::{Command, LineReply, Role};
use rows_model::{QKey, Sid, Txn, Value};
use session_client::{Desk, Reply, Wanted};
use std::mem;

impl Client {
    /// Answers a command, which isn't `quit`: by an error, or by what a desk replies to the request
    /// that the command makes.
    #[inline(always)]
    pub(crate) fn answer<D: Desk>(&mut self, desk: &mut D, said: Command) -> LineReply
        requires { said ≢ commands.Quit }
        ensures answers { Asks (D.record_of desk.old) (D.record_of desk.new) self.old said result self.new }
        ensures untended { D.tends desk.new ≡ D.tends desk.old }
    {
        match self.refusal(&said) {
            Some(error) => error,
            None => self.carry_out(desk, said),
        }
    }

    /// Does what a command asks that isn't refused.
    #[inline(always)]
    fn carry_out<D: Desk>(&mut self, desk: &mut D, said: Command) -> LineReply
        requires goes_on { said ≢ commands.Quit }
        requires passes { refused self.old said ≡ None }
        ensures answers { Asks (D.record_of desk.old) (D.record_of desk.new) self.old said result self.new }
        ensures untended { D.tends desk.new ≡ D.tends desk.old }
    {
        match said {
            Command::Begin { role } => self.begin(desk, role),
            Command::IqGet {
                key: Some(key),
                sid: _,
                floor,
            } => self.get(desk, key, floor),
            Command::Ask {
                key: Some(key),
                sid: _,
            } => self.ask(desk, key),
            Command::Stage {
                key: Some(key),
                sid: _,
                txn,
            } => self.stage(desk, key, txn),
            Command::IqSet {
                key: Some(key),
                flags: _,
                exptime: _,
                bytes: _,
                token,
                stamp,
                block,
            } => self.set(desk, key, token, stamp, block),
            Command::QaReg {
                key: Some(key),
                sid: _,
            } => self.invalidate(desk, key),
            Command::QaRead {
                key: Some(key),
                sid: _,
            } => self.refresh(desk, key),
            Command::IqDelta {
                key: Some(key),
                sid: _,
                by,
            } => self.shift(desk, key, by),
            Command::Sql { sid: _, txn } => self.commit(desk, txn),
            Command::Dar {
                key: Some(key),
                sid: _,
            } => self.drop_value(desk, key),
            Command::Sar {
                key: Some(key),
                flags: _,
                exptime: _,
                bytes: _,
                sid: _,
                block,
            } => self.put(desk, key, block),
            Command::IqCommit {
                key: Some(key),
                sid: _,
            } => self.apply(desk, key),
            Command::IqAbort { sid: _ } => self.abort(desk),
            _ => unreachable!(),
        }
    }

    /// Begins a session, in place of the present one.
    fn begin<D: Desk>(&mut self, desk: &mut D, role: Role) -> LineReply
        ensures answers { (calls : List Exchange)
            × (D.record_of desk.new ≡ with_calls calls (D.record_of desk.old))
            × Begins self.old role calls result self.new }
        ensures untended { D.tends desk.new ≡ D.tends desk.old }
    {
        match desk.begin(is_writer(role)) {
            Ok(sid) => {
                let stage = first_stage(role);
                self.present = Some(Present { sid, stage });
                LineReply::Session { sid }
            }
            Err(_) => LineReply::Memory,
        }
    }

    /// Looks a key up in the cache.
    #[inline(always)]
    fn get<D: Desk>(&self, desk: &mut D, key: QKey, floor: u64) -> LineReply
        ensures answers { (sid : Sid) → Makes (D.record_of desk.old) (D.record_of desk.new) self.now
            (wanted.Get key floor) (commands.IqGet (Some key) sid floor) result self.now }
        ensures untended { D.tends desk.new ≡ D.tends desk.old }
    {
        tell_lookup(key, desk.get(self.asker(), key, floor))
    }

    /// Asks the store for the answer to a key.
    fn ask<D: Desk>(&self, desk: &mut D, key: QKey) -> LineReply
        ensures answers { (sid : Sid) → Makes (D.record_of desk.old) (D.record_of desk.new) self.now
            (wanted.Ask key) (commands.Ask (Some key) sid) result self.now }
        ensures untended { D.tends desk.new ≡ D.tends desk.old }
    {
        tell_answer(desk.call(self.asker(), Wanted::Ask { key }))
    }

    /// Asks the store for the answer to a key after a transaction.
    fn stage<D: Desk>(&self, desk: &mut D, key: QKey, txn: Txn) -> LineReply
        ensures answers { (sid : Sid) → Makes (D.record_of desk.old) (D.record_of desk.new) self.now
            (wanted.Staged key txn) (commands.Stage (Some key) sid txn) result self.now }
        ensures untended { D.tends desk.new ≡ D.tends desk.old }
    {
        tell_staged(key, desk.call(self.asker(), Wanted::Staged { key, txn }))
    }

    /// Stores a value under a lease.
    fn set<D: Desk>(
        &self,
        desk: &mut D,
        key: QKey,
        token: u64,
        stamp: u64,
        block: Value,
    ) -> LineReply
        ensures answers { (flags exptime bytes : ℕ) →
            Makes (D.record_of desk.old) (D.record_of desk.new) self.now
            (wanted.Set key token block stamp)
            (commands.IqSet (Some key) flags exptime bytes token stamp block) result self.now }
        ensures untended { D.tends desk.new ≡ D.tends desk.old }
    {
        let wanted = Wanted::Set {
            key,
            token,
            value: block,
            stamp,
        };
        tell_set(desk.call(self.asker(), wanted))
    }

    /// Quarantines a key, to drop its value.
    fn invalidate<D: Desk>(&mut self, desk: &mut D, key: QKey) -> LineReply
        requires { length self.old.grants.items < 64 }
        ensures answers { (sid : Sid) → Makes (D.record_of desk.old) (D.record_of desk.new) self.old
            (wanted.QaReg key) (commands.QaReg (Some key) sid) result self.new }
        ensures untended { D.tends desk.new ≡ D.tends desk.old }
    {
        let heard = desk.call(self.asker(), Wanted::QaReg { key });
        tell_quarantine(&mut self.grants, false, heard)
    }

    /// Quarantines a key, to put a new value in place of the old one.
    fn refresh<D: Desk>(&mut self, desk: &mut D, key: QKey) -> LineReply
        requires { length self.old.grants.items < 64 }
        ensures answers { (sid : Sid) → Makes (D.record_of desk.old) (D.record_of desk.new) self.old
            (wanted.QaRead key) (commands.QaRead (Some key) sid) result self.new }
        ensures untended { D.tends desk.new ≡ D.tends desk.old }
    {
        let heard = desk.call(self.asker(), Wanted::QaRead { key });
        tell_quarantine(&mut self.grants, true, heard)
    }

    /// Quarantines a key, to add a number to a count.
    fn shift<D: Desk>(&mut self, desk: &mut D, key: QKey, by: i32) -> LineReply
        requires room { length self.old.grants.items < 64 }
        requires count { is_count key ≡ true }
        ensures answers { (sid : Sid) → Makes (D.record_of desk.old) (D.record_of desk.new) self.old
            (wanted.Delta key by) (commands.IqDelta (Some key) sid by) result self.new }
        ensures untended { D.tends desk.new ≡ D.tends desk.old }
    {
        let heard = desk.call(self.asker(), Wanted::Delta { key, by });
        tell_quarantine(&mut self.grants, false, heard)
    }

    /// Commits a transaction at the store, with the grants of the session.
    fn commit<D: Desk>(&mut self, desk: &mut D, txn: Txn) -> LineReply
        ensures answers { (sid : Sid) → Makes (D.record_of desk.old) (D.record_of desk.new) self.old
            (wanted.Commit txn self.old.grants) (commands.Sql sid txn) result self.new }
        ensures untended { D.tends desk.new ≡ D.tends desk.old }
    {
        let who = self.asker();
        let grants = self.grants.lend();
        match desk.call(who, Wanted::Commit { txn, grants }) {
            Reply::Committed {
                number,
                txn: _,
                grants,
            } => {
                mem::replace(&mut self.grants, grants).let_go();
                self.present = committed(self.present, number);
                LineReply::Committed { commit: number }
            }
            Reply::NotCommitted {
                fault,
                txn: _,
                grants,
            } => {
                mem::replace(&mut self.grants, grants).let_go();
                tell_not_committed(fault)
            }
            other => {
                other.let_go();
                unreachable!()
            }
        }
    }

    /// Takes out the grant that was given first on a key, and tells its place, from 0.
    fn take_on(&mut self, key: &QKey) -> (usize, Grant)
        requires { HasFirst key.now self.old.grants.items }
        ensures grant { grant_on key.now self.old.grants.items ≡ Some result.1 }
        ensures others { self.new
            ≡ with_grants self.old (grants_but key.now self.old.grants.items) }
        ensures place { result.0 ≤ length self.new.grants.items }
        ensures vacant { length self.new.grants.items < self.new.grants.room }
        ensures back { insert self.new.grants.items result.0 result.1 ≡ self.old.grants.items }
    {
        let place = self.place_on(key).unwrap();
        (place, self.grants.take(place))
    }

    /// Releases the quarantine of a key, and drops the value.
    fn drop_value<D: Desk>(&mut self, desk: &mut D, key: QKey) -> LineReply
        requires { HasFirst key self.old.grants.items }
        ensures answers { (grant : Permit) × (grant_on key self.old.grants.items ≡ Some grant)
            × ((sid : Sid) → Makes (D.record_of desk.old) (D.record_of desk.new) self.old
            (wanted.Dar grant) (commands.Dar (Some key) sid) result self.new) }
        ensures untended { D.tends desk.new ≡ D.tends desk.old }
    {
        let who = self.asker();
        let (_, grant) = self.take_on(&key);
        tell_release(LineReply::Deleted, desk.call(who, Wanted::Dar { grant }))
    }

    /// Releases the quarantine of a key, with a new value. For want of memory the grant is still held,
    /// in its place.
    fn put<D: Desk>(&mut self, desk: &mut D, key: QKey, block: Value) -> LineReply
        requires { HasFirstIn Refresh key self.old.grants.items }
        ensures answers { (grant : Permit) × (grant_on key self.old.grants.items ≡ Some grant)
            × ((flags exptime bytes : ℕ) (sid : Sid) →
            Makes (D.record_of desk.old) (D.record_of desk.new) self.old
            (wanted.Sar grant (Some block) (stamp_of self.old.present))
            (commands.Sar (Some key) flags exptime bytes sid block) result self.new) }
        ensures untended { D.tends desk.new ≡ D.tends desk.old }
    {
        let who = self.asker();
        let stamp = self.stamp();
        let (place, grant) = self.take_on(&key);
        let value = Some(block);
        match desk.call(
            who,
            Wanted::Sar {
                grant,
                value,
                stamp,
            },
        ) {
            Reply::SarBack { grant } => {
                self.grants.put_back(place, grant);
                LineReply::Memory
            }
            heard => tell_release(LineReply::Stored, heard),
        }
    }

    /// Releases the quarantine of a key, and adds the number of the quarantine to the count.
    fn apply<D: Desk>(&mut self, desk: &mut D, key: QKey) -> LineReply
        requires { HasFirstIn Delta key self.old.grants.items }
        ensures answers { (grant : Permit) × (grant_on key self.old.grants.items ≡ Some grant)
            × ((sid : Sid) → Makes (D.record_of desk.old) (D.record_of desk.new) self.old
            (wanted.Apply grant (stamp_of self.old.present))
            (commands.IqCommit (Some key) sid) result self.new) }
        ensures untended { D.tends desk.new ≡ D.tends desk.old }
    {
        let who = self.asker();
        let stamp = self.stamp();
        let (_, grant) = self.take_on(&key);
        tell_release(
            LineReply::Stored,
            desk.call(who, Wanted::Apply { grant, stamp }),
        )
    }

    /// Ends the session and releases its grants. It stays the present one.
    fn abort<D: Desk>(&mut self, desk: &mut D) -> LineReply
        requires { MayAbort self.old.present }
        ensures answers { (calls : List Exchange)
            × (D.record_of desk.new ≡ with_calls calls (D.record_of desk.old))
            × Aborts self.old calls result self.new }
        ensures untended { D.tends desk.new ≡ D.tends desk.old }
    {
        let count = self.give_up(desk);
        self.present = aborted(self.present);
        LineReply::Released { count }
    }
}

/// Whether a session of this role writes.
fn is_writer(role: Role) -> bool
    ensures { result ≡ is_writer role }
{
    match role {
        Role::Read => false,
        Role::Write => true,
    }
}

/// Where a session of this role begins.
fn first_stage(role: Role) -> Stage
    ensures { result ≡ first_stage role }
{
    match role {
        Role::Read => Stage::Reading,
        Role::Write => Stage::Open,
    }
}

/// A session that has committed.
fn committed(present: Option<Present>, number: u64) -> Option<Present>
    ensures { result ≡ commits number present }
{
    let stage = Stage::Committed { number };
    present.map(|present| Present { stage, ..present })
}

/// A session that was aborted. A commit can't be undone.
pub(crate) fn aborted(present: Option<Present>) -> Option<Present>
    ensures { result ≡ option_map aborted present }
{
    let mut present = present?;
    if present.stage == Stage::Open {
        present.stage = Stage::Aborted;
    }
    Some(present)
}
