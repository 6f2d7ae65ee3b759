ghost use Rattle.std.specs.Prelude.{◌≡◌, ◌↔◌, Bool, true, false, List, [], ◌∷◌, IsTrue, IfOk, OnErr, MatchResult, None};
ghost use Rattle.rows_model.specs.Changes.{footprint};
ghost use Rattle.session_client.specs.Desks.{IsProper};
ghost use Rattle.session_client.specs.Plans.{IsPlan, changes_of, without_key, writes};
ghost use Rattle.session_client.specs.Wants.{wants, done_by, is_nothing};

use crate::plans::Plan;
use crate::readers::Reader;
use crate::replies::{Outcome, Reply, Wanted};
use crate::stages::Next;
use crate::writers::Writer;
use lease_table::Mode;
use rows_model::{Memory, QKey, Sid, Txn, footprint};
use std::alloc::Global;

/// What a session does: it reads a key, or it writes.
pub enum Course {
    Read(Reader),
    Write(Writer),
}

/// A session on its way through its plan. It says what it wants next, and is told what came of it.
pub struct Session {
    sid: Sid,
    plan: Plan,
    /// Whether a request is out.
    out: bool,
    course: Course,
}

impl Session {
    ghost use Rattle.session_client.specs.Belongs.{Belongs};
    ghost use Rattle.session_client.specs.Follows.{plan_of, sid_of, IsReady, IsAwaited, IsRefreshing, Follows};
    ghost use Rattle.session_client.specs.declared.replies.Reply.{Reply};

    /// The session of this number, that was told nothing so far. It takes the keys that its transaction
    /// touches and room for their grants and old values.
    pub fn new(alloc: Global, sid: Sid, plan: Plan) -> Result<Session, Memory>
        requires { IsPlan plan }
        ensures plan { IfOk result (λ session. plan_of session ≡ plan) }
        ensures sid { IfOk result (λ session. sid_of session ≡ sid) }
        ensures ready { IfOk result (λ session. IsReady session) }
        ensures follows { IfOk result (λ session. Follows session false []) }
    {
        Ok(Session {
            sid,
            out: false,
            course: course_of(alloc, &plan)?,
            plan,
        })
    }

    /// What the session is to do.
    pub fn plan(&self) -> &Plan
        ensures { result.now ≡ plan_of self.now }
    {
        &self.plan
    }

    /// The number of the session.
    pub fn sid(&self) -> Sid
        ensures { result ≡ sid_of self.now }
    {
        self.sid
    }

    /// The next request of the plan, for which the last one must have been told. It hands over the
    /// grants and the transaction that it needs, and the reply brings them back. The session waits for
    /// that reply from now on. It takes no memory.
    pub fn wants(&mut self) -> Wanted
        requires { IsReady self.old }
        ensures plan { plan_of self.new ≡ plan_of self.old }
        ensures sid { sid_of self.new ≡ sid_of self.old }
        ensures wanted { (short : Bool) (heard : List Reply) → Follows self.old short heard →
            result ≡ wants (plan_of self.old) short heard }
        ensures follows { (short : Bool) (heard : List Reply) → Follows self.old short heard →
            Follows self.new short heard }
        ensures awaits { (short : Bool) (heard : List Reply) (reply : Reply) →
            Follows self.old short heard →
            (IsAwaited self.new reply ↔ Belongs (sid_of self.old) result reply) }
        ensures proper { (short : Bool) (heard : List Reply) → Follows self.old short heard →
            IsProper result }
    {
        self.out = true;
        match &mut self.course {
            Course::Read(reader) => reader.wants(),
            Course::Write(writer) => writer.wants(),
        }
    }

    /// Whether the reply belongs to the request that is out. It takes no memory.
    pub fn takes(&self, reply: &Reply) -> bool
        ensures { IsTrue result ↔ IsAwaited self.now reply.now }
    {
        if !self.out && !self.is_over() {
            return false;
        }
        match &self.course {
            Course::Read(reader) => reader.takes(reply),
            Course::Write(writer) => writer.takes(self.sid, self.plan.changes(), reply),
        }
    }

    /// Whether the session is at its end.
    fn is_over(&self) -> bool
        ensures { result ≡ is_over self.now.course }
    {
        match &self.course {
            Course::Read(reader) => reader.is_over(),
            Course::Write(writer) => writer.is_over(),
        }
    }

    /// Takes in the reply to the request that is out. Memory is taken alone where the reply tells of the
    /// commit and brings a grant to refresh, since the new values are made then. Where there is none the
    /// reply is taken all the same: the session drops the value of each grant, in order, and has failed
    /// with want of memory.
    pub fn hear(&mut self, reply: Reply) -> Result<(), Memory>
        requires { IsAwaited self.old reply }
        ensures plan { plan_of self.new ≡ plan_of self.old }
        ensures sid { sid_of self.new ≡ sid_of self.old }
        ensures ready { IsReady self.new }
        ensures follows { (short : Bool) (heard : List Reply) → Follows self.old short heard →
            MatchResult result (λ _. Follows self.new short (reply ∷ heard))
            (λ _. Follows self.new true (reply ∷ heard)) }
        ensures memory { OnErr result (IsRefreshing reply) }
    {
        self.out = false;
        match &mut self.course {
            Course::Read(reader) => {
                reader.hear(reply);
                Ok(())
            }
            Course::Write(writer) => writer.hear(reply),
        }
    }

    /// How the session ended: `None` exactly where a request is still wanted or out. It takes no memory.
    pub fn done(&self) -> Option<Outcome>
        ensures done { (short : Bool) (heard : List Reply) → IsReady self.now →
            Follows self.now short heard → result ≡ done_by (plan_of self.now) short heard }
        ensures wanting { (short : Bool) (heard : List Reply) → IsReady self.now →
            Follows self.now short heard → result ≡ None →
            is_nothing (wants (plan_of self.now) short heard) ≡ false }
        ensures going { (IsReady self.now → ⊥) → result ≡ None }
    {
        match &self.course {
            Course::Read(reader) => reader.done(),
            Course::Write(writer) => writer.done(),
        }
    }

    /// Puts the session away, with the grants that it has. Their quarantines are not ended by that, and
    /// stand until others end them. It takes no memory.
    pub fn let_go(self) {
        let Session {
            sid: _,
            plan: _,
            out: _,
            course,
        } = self;
        match course {
            Course::Read(_) => {}
            Course::Write(writer) => writer.let_go(),
        }
    }
}

ghost use Rattle.std.specs.Prelude.{◌<◌, ◌^◌, length};
ghost use Rattle.session_client.specs.Follows.{Goes, CourseIsReady, is_over};
ghost use Rattle.session_client.specs.Wants.{Writing, writing_of};
ghost use Rattle.session_client.specs.Writers.{Suits, then_as};
ghost use Rattle.session_client.specs.declared.plans.Plan.{Plan};

/// The keys without one of them.
fn without_key(alloc: Global, key: &QKey, keys: &[QKey]) -> Result<Vec<QKey>, Memory>
    ensures { IfOk result (λ rest. rest.items ≡ without_key key.now keys.now) }
{
    Ok(
        keys.iter()
            .filter(|other| key != *other)
            .copied()
            .collect(alloc)?,
    )
}

/// The course of a session that writes in this mode, quarantines these keys, and then does this.
fn writing(
    alloc: Global,
    mode: Mode,
    keys: Vec<QKey>,
    next: Next,
    txn: &Txn,
) -> Result<Course, Memory>
    requires few { length keys.items < 2 ^ 32 }
    requires suits { Suits next mode }
    ensures ready { IfOk result CourseIsReady }
    ensures goes { let way : Writing = record {
      mode = mode;
      keys = keys.items;
      txn = txn.now;
      next = then_as next;
    } in
        IfOk result (λ course. (plan : Plan) → changes_of plan ≡ txn.now → writing_of plan ≡ way →
        writes plan ≡ true → Goes plan course false []) }
{
    Ok(Course::Write(Writer::new(alloc, mode, keys, next, txn.copy()?)?))
}

/// The course of a plan.
#[tactic(auto, using(crate::proofs::RoomLemmas::footprint_few, crate::proofs::RoomLemmas::without_few))]
fn course_of(alloc: Global, plan: &Plan) -> Result<Course, Memory>
    requires { IsPlan plan.now }
    ensures ready { IfOk result CourseIsReady }
    ensures goes { IfOk result (λ course. Goes plan.now course false []) }
{
    match plan {
        Plan::Read { key, floor } => Ok(Course::Read(Reader::new(*key, *floor))),
        Plan::Write { mode, txn } => {
            writing(alloc, *mode, footprint(alloc, txn)?, Next::Commit, txn)
        }
        Plan::Look { mode, key, txn } => {
            let next = Next::Look { key: *key };
            writing(alloc, *mode, footprint(alloc, txn)?, next, txn)
        }
        Plan::Quit { mode, txn } => {
            writing(alloc, *mode, footprint(alloc, txn)?, Next::Quit, txn)
        }
        Plan::Skip { key, txn } => {
            let keys = footprint(alloc, txn)?;
            let keys = without_key(alloc, key, keys.as_slice())?;
            writing(alloc, Mode::Invalidate, keys, Next::Commit, txn)
        }
        Plan::Raise { txn } => {
            let keys = footprint(alloc, txn)?;
            writing(alloc, Mode::Invalidate, keys, Next::Raise, txn)
        }
        Plan::Renew { mode, txn } => {
            writing(alloc, *mode, footprint(alloc, txn)?, Next::Renew, txn)
        }
    }
}
