ghost use Rattle.std.specs.Prelude.{◌≡◌, ℕ, Bool, true, Err, List, Option, None, IfOk, OnErr};
ghost use Rattle.rows_model.specs.declared.keys.Sid.{Sid};
ghost use Rattle.session_client.specs.declared.replies.Fault.TheVariants as fault;
ghost use Rattle.session_client.specs.declared.replies.Reply.TheVariants as Reply;
ghost use Rattle.session_client.specs.declared.replies.Wanted.TheVariants as wanted;
ghost use Rattle.session_client.specs.Belongs.{Belongs, get_reply};
ghost use Rattle.session_client.specs.Desks.{IsNew, IsProper, Exchange, Began, Asked, with_member, one_more};
ghost use Rattle.session_client.specs.Desks.{AreIn, IsLatest, BeginsSeen};

use crate::replies::{Fault, Reply, Wanted};
use key_shard::Got;
use rows_model::{Memory, QKey, Sid};

/// Where sessions begin and make their requests: the cache and the store behind one face.
///
/// Contracts see `begun`, the sessions that the desk began, and `record`, the calls that it answered,
/// each the latest first, or `None` where it doesn't tell them. Whether it tells them never changes,
/// and nothing leaves the lists. A begin that is refused and the sweep aren't in the record.
///
/// A desk may also tell `seen`, the sessions among these that a step of a shard names. Then it tells
/// `latest`, the session that it began last, and whether that may write. No session leaves `seen`.
/// `is_spent` says that some shard may have no more tokens. It stays so, and is so from the start where
/// the desk tells nothing of it.
///
/// A desk may tell `tends`, the number of steps of its sweep so far, from its making on. Only `tend`
/// takes one. It may tell `worker`, the number of the worker whose desk it is, which never changes.
pub trait Desk {
    ghost begun: { Self → Option (List Sid) };

    ghost record_of: { Self → Option (List Exchange) } = { λ desk. None };

    ghost seen: { Self → Option (List Sid) } = { λ desk. None };

    ghost latest: { Self → Option (Sid × Bool) } = { λ desk. None };

    ghost is_spent: { Self → Bool } = { λ desk. true };

    ghost tends: { Self → Option ℕ } = { λ desk. None };

    ghost worker: { Self → Option ℕ } = { λ desk. None };

    /// Begins a session and gives its number, which no session had that the desk began before. One
    /// that writes may commit once; another never does. For want of memory no session begins.
    fn begin(&mut self, writes: bool) -> Result<Sid, Memory>
        ensures new { IfOk result (λ sid. IsNew sid (begun self.old)) }
        ensures begun { IfOk result (λ sid. begun self.new ≡ with_member sid (begun self.old)) }
        ensures recorded { IfOk result (λ sid.
            record_of self.new ≡ with_member (Began writes sid) (record_of self.old)) }
        ensures err { OnErr result (begun self.new ≡ begun self.old) }
        ensures err_recorded { OnErr result (record_of self.new ≡ record_of self.old) }
        ensures tends { tends self.new ≡ tends self.old }
        ensures worker { worker self.new ≡ worker self.old }
        ensures latest { IfOk result (λ sid. IsLatest sid writes (seen self.new) (latest self.new)) }
        ensures seen_kept { AreIn (seen self.old) (seen self.new) }
        ensures seen_begun { AreIn (seen self.new) (begun self.new) }
        ensures spent_kept { is_spent self.old ≡ true → is_spent self.new ≡ true };

    /// Makes a request of a session. The reply is one that belongs to it.
    fn call(&mut self, sid: Sid, wanted: Wanted) -> Reply
        requires { IsProper wanted }
        ensures belongs { Belongs sid wanted result }
        ensures begun { begun self.new ≡ begun self.old }
        ensures recorded { record_of self.new
            ≡ with_member (Asked sid wanted result) (record_of self.old) }
        ensures tends { tends self.new ≡ tends self.old }
        ensures worker { worker self.new ≡ worker self.old }
        ensures first { BeginsSeen (latest self.old) sid wanted result (seen self.new) }
        ensures seen_kept { AreIn (seen self.old) (seen self.new) }
        ensures seen_begun { AreIn (seen self.new) (begun self.new) }
        ensures spent { result ≡ Reply.Fault fault.Spent → is_spent self.new ≡ true }
        ensures spent_kept { is_spent self.old ≡ true → is_spent self.new ≡ true };

    /// Looks a key up for a session: the call for `Wanted::Get`, whose reply is told by its answer alone,
    /// or by its fault.
    fn get(&mut self, sid: Sid, key: QKey, floor: u64) -> Result<Got, Fault>
        ensures belongs { Belongs sid (wanted.Get key floor) (get_reply result) }
        ensures begun { begun self.new ≡ begun self.old }
        ensures recorded { record_of self.new
            ≡ with_member (Asked sid (wanted.Get key floor) (get_reply result)) (record_of self.old) }
        ensures tends { tends self.new ≡ tends self.old }
        ensures worker { worker self.new ≡ worker self.old }
        ensures first { BeginsSeen (latest self.old) sid (wanted.Get key floor) (get_reply result)
            (seen self.new) }
        ensures seen_kept { AreIn (seen self.old) (seen self.new) }
        ensures seen_begun { AreIn (seen self.new) (begun self.new) }
        ensures spent { result ≡ Err fault.Spent → is_spent self.new ≡ true }
        ensures spent_kept { is_spent self.old ≡ true → is_spent self.new ≡ true }
    {
        match self.call(sid, Wanted::Get { key, floor }) {
            Reply::Got { got } => Ok(got),
            Reply::Fault { fault } => Err(fault),
            other => {
                other.let_go();
                unreachable!()
            }
        }
    }

    /// Takes one step of the desk's own sweep for leases that are due to be ended.
    fn tend(&mut self)
        ensures begun { begun self.new ≡ begun self.old }
        ensures recorded { record_of self.new ≡ record_of self.old }
        ensures tended { tends self.new ≡ one_more (tends self.old) }
        ensures worker { worker self.new ≡ worker self.old }
        ensures seen_kept { AreIn (seen self.old) (seen self.new) }
        ensures seen_begun { AreIn (seen self.new) (begun self.new) }
        ensures spent_kept { is_spent self.old ≡ true → is_spent self.new ≡ true };
}
