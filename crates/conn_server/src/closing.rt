ghost use Rattle.std.specs.Prelude.{◌≡◌, ◌≤◌, List, []};
ghost use Rattle.session_client.specs.Desks.{Exchange, IsProper};
ghost use Rattle.session_client.specs.declared.replies.Reply.TheVariants as replies;
ghost use Rattle.key_shard.specs.declared.replies.Rel.{Rel};
ghost use Rattle.conn_server.specs.Answers.{GivenUp, with_calls};
ghost use Rattle.conn_server.specs.Closing.{HoldsNothing, Leaves, MayAbort, Releases, ended_by, release_way};

use crate::answers::aborted;
use crate::clients::{Client, Stage};
use key_shard::{Grant, Rel};
use rows_model::Sid;
use session_client::{Desk, Grants, Reply, Wanted};

/// A client that was given up, and holds nothing any more. Only `Client::leave` makes one.
pub struct Gone {
    client: Client,
}

impl Gone {
    /// Lets go of what is known of the client. It takes no memory.
    pub(crate) fn let_go(self) {
        let Gone { client } = self;
        client.let_go();
    }
}

impl Client {
    /// Gives the client's session up, and releases the grants that it holds. It takes no memory.
    pub(crate) fn leave<D: Desk>(self, desk: &mut D) -> Gone
        ensures given_up { GivenUp (D.record_of desk.old) (D.record_of desk.new) self }
        ensures untended { D.tends desk.new ≡ D.tends desk.old }
        ensures nothing { HoldsNothing result.client }
    {
        let mut client = self;
        let _ = client.give_up(desk);
        client.present = aborted(client.present);
        Gone { client }
    }

    /// Ends the session at the store unless it has committed, releases its grants in the order in
    /// which they were given, and tells how many of their quarantines ended. A session that only reads
    /// has nothing to end. It takes no memory.
    pub(crate) fn give_up<D: Desk>(&mut self, desk: &mut D) -> u64
        ensures leaves { (calls : List Exchange)
            × (D.record_of desk.new ≡ with_calls calls (D.record_of desk.old))
            × Leaves self.old.present self.old.grants.items calls result }
        ensures untended { D.tends desk.new ≡ D.tends desk.old }
        ensures present { self.new.present ≡ self.old.present }
        ensures released { MayAbort self.old.present → self.new.grants.items ≡ [] }
        ensures room { self.new.grants.room ≡ self.old.grants.room }
    {
        let Some(present) = self.present else {
            return 0;
        };
        let committed = match present.stage {
            Stage::Reading => return 0,
            Stage::Committed { .. } => true,
            Stage::Open | Stage::Aborted => {
                desk.call(present.sid, Wanted::End).let_go();
                false
            }
        };
        release_all(&mut self.grants, desk, present.sid, committed)
    }
}

/// Releases the grants of a session in their order, and tells how many of their quarantines ended.
/// Where it has committed the values are dropped.
fn release_all<D: Desk>(grants: &mut Grants, desk: &mut D, who: Sid, committed: bool) -> u64
    ensures releases { (calls : List Exchange)
        × (D.record_of desk.new ≡ with_calls calls (D.record_of desk.old))
        × Releases who (release_way committed) grants.old.items calls result }
    ensures untended { D.tends desk.new ≡ D.tends desk.old }
    ensures none { grants.new.items ≡ [] }
    ensures room { grants.new.room ≡ grants.old.room }
{
    let mut count = 0;
    for _ in 0..grants.len() {
        let wanted = release_of(grants.take(0), committed);
        count += ended_by(desk.call(who, wanted));
    }
    count
}

/// The release of a grant: where its session has committed the value is dropped.
fn release_of(grant: Grant, committed: bool) -> Wanted
    ensures way { result ≡ release_way committed grant }
    ensures proper { IsProper result }
{
    if committed {
        Wanted::Dar { grant }
    } else {
        Wanted::Abort { grant }
    }
}

/// How many quarantines a release ended.
fn ended_by(heard: Reply) -> u64
    ensures most { result ≤ 1 }
    ensures told { (answer : Rel) → heard ≡ replies.Rel answer → result ≡ ended_by answer }
{
    match heard {
        Reply::Rel {
            answer: Rel::Released { .. },
        } => 1,
        Reply::Rel { answer: Rel::Gone } => 0,
        other => {
            other.let_go();
            0
        }
    }
}
