ghost use Rattle.std.specs.Prelude.{◌≡◌, ◌≤◌, ◌<◌, ◌↔◌, List, [], ◌∷◌, IsTrue};
ghost use Rattle.expiry_sweeper.specs.Sweeps.{BelongsTo};

use crate::replies::{SweepReply, SweepWanted};
use lease_table::Due;
use rows_model::Sid;

/// Where a sweeper stands.
#[derive(Clone, Copy)]
enum Stage {
    /// It looks for a quarantine that is past its deadline.
    Scanning,
    /// It found one, whose session is to be ended.
    Ending { due: Due },
    /// The session is ended, and the quarantine is to be dropped.
    Dropping { due: Due },
}

/// A sweeper goes round the shards for ever. It looks for a quarantine that is past its deadline, ends
/// the session that holds it, and then drops the key; where a shard has none, it goes on to the next.
/// It says what it wants next, and is told what came of it.
#[derive(Clone, Copy)]
pub struct Sweeper {
    shards: u32,
    /// The shard that is being swept.
    shard: u32,
    stage: Stage,
    ghost within: { shard < shards },
}

impl Sweeper {
    ghost use Rattle.expiry_sweeper.specs.Sweeps.{sweep_wants, BelongsTo, IsWithin};
    ghost use Rattle.expiry_sweeper.specs.Follows.{shards_of, wanted_of, Follows};
    ghost use Rattle.expiry_sweeper.specs.declared.replies.SweepReply.{SweepReply};

    /// A sweeper of so many shards, which begins at shard 0. It takes no memory.
    pub fn new(shards: u32) -> Sweeper
        requires { 1 ≤ shards }
        ensures shards { shards_of result ≡ shards }
        ensures follows { Follows result [] }
    {
        Sweeper {
            shards,
            shard: 0,
            stage: Stage::Scanning,
        }
    }

    /// How many shards it sweeps.
    pub fn shards(&self) -> u32
        ensures { result ≡ shards_of self.now }
    {
        self.shards
    }

    /// What it wants next: after a quarantine was found, to end its session; then to drop the key; then
    /// to scan the same shard again. Where none was found, to scan the next shard, and shard 0 after
    /// the last. It takes no memory.
    pub fn wants(&self) -> SweepWanted
        ensures wanted { (replies : List SweepReply) → Follows self.now replies
            → result ≡ sweep_wants (shards_of self.now) replies }
        ensures by_stage { result ≡ wanted_of self.now }
        ensures within { IsWithin (shards_of self.now) result }
    {
        match self.stage {
            Stage::Scanning => SweepWanted::Scan { shard: self.shard },
            Stage::Ending { due } => SweepWanted::End { sid: due.sid },
            Stage::Dropping { due } => SweepWanted::Drop {
                key: due.key,
                token: due.token,
            },
        }
    }

    /// Whether the reply belongs to what is wanted. It takes no memory.
    pub fn takes(&self, reply: &SweepReply) -> bool
        ensures { IsTrue result ↔ BelongsTo (wanted_of self.now) reply.now }
    {
        match self.stage {
            Stage::Scanning => is_of_shard(reply, self.shard),
            Stage::Ending { due } => is_of_session(reply, due.sid),
            Stage::Dropping { .. } => matches!(reply, SweepReply::Dropped { .. }),
        }
    }

    /// Takes in the reply to what is wanted. It takes no memory.
    pub fn hear(&mut self, reply: SweepReply)
        requires { BelongsTo (wanted_of self.old) reply }
        ensures shards { shards_of self.new ≡ shards_of self.old }
        ensures follows { (replies : List SweepReply) → Follows self.old replies
            → Follows self.new (reply ∷ replies) }
    {
        match reply {
            SweepReply::Found { shard: _, due } => self.stage = Stage::Ending { due },
            SweepReply::NoneFound { .. } => self.go_on(),
            SweepReply::Ended { closed: _ } => {
                if let Stage::Ending { due } = self.stage {
                    self.stage = Stage::Dropping { due };
                }
            }
            SweepReply::Dropped { answer: _ } => self.stage = Stage::Scanning,
        }
    }

    /// Goes on to the next shard, and to shard 0 after the last.
    fn go_on(&mut self)
        requires { wanted_of self.old ≡ SweepWanted.Scan self.old.shard }
        ensures shards { shards_of self.new ≡ shards_of self.old }
        ensures follows { (replies : List SweepReply) → Follows self.old replies
            → Follows self.new (SweepReply.NoneFound self.old.shard ∷ replies) }
    {
        let next = self.shard + 1;
        self.shard = if next < self.shards { next } else { 0 };
    }
}

/// Whether a reply tells of a scan of this shard.
fn is_of_shard(reply: &SweepReply, shard: u32) -> bool
    ensures { IsTrue result ↔ BelongsTo (SweepWanted.Scan shard) reply.now }
{
    match reply {
        SweepReply::Found { shard: place, .. } | SweepReply::NoneFound { shard: place } => *place
            == shard,
        SweepReply::Ended { .. } | SweepReply::Dropped { .. } => false,
    }
}

/// Whether a reply tells that this session was ended.
fn is_of_session(reply: &SweepReply, sid: Sid) -> bool
    ensures { IsTrue result ↔ BelongsTo (SweepWanted.End sid) reply.now }
{
    match reply {
        SweepReply::Ended { closed } => closed.sid() == sid,
        SweepReply::Found { .. } | SweepReply::NoneFound { .. } | SweepReply::Dropped { .. } =>
            false,
    }
}
