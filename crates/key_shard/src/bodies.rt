ghost use Rattle.std.specs.Prelude.{◌≡◌, ◌≢◌, OnOk, OnErr, IfErr};
ghost use Rattle.rows_model.specs.Placement.{shard_of};
ghost use Rattle.key_shard.specs.Answers.{Answers};
ghost use Rattle.key_shard.specs.Kept.{IsKept, IsQuiet, shown, steps_of, terms_of};
ghost use Rattle.key_shard.specs.Past.{deadline_at};
ghost use Rattle.key_shard.specs.Shards.{stepped};

use crate::histories::History;
use crate::outs::Outs;
use crate::replies::ShardFault;
use crate::steps::Step;
use entry_table::Entries;
use lease_table::Leases;
use rows_model::{Memory, QKey, shard_number};

/// What a shard is made of.
#[derive(Drop)]
pub struct Body {
    pub no: u32,
    pub count: u32,
    /// How long a lease lives, in ticks of the clock that is handed in.
    pub life: u64,
    pub first: u64,
    /// The next token.
    pub next: u64,
    pub entries: Entries,
    pub leases: Leases,
    pub out: Outs,
    /// How many places of the history are kept free for the grants that are out.
    pub promised: usize,
    pub history: History,
}

impl Body {
    /// Refuses a key of another shard.
    pub fn check_home(&self, key: &QKey) -> Result<(), ShardFault>
        requires { IsKept self.now }
        ensures home { OnOk result (shard_of key.now self.now.count ≡ self.now.no) }
        ensures stranger { IfErr result (λ fault. (shard_of key.now self.now.count ≢ self.now.no)
            × (fault ≡ ShardFault.Stranger (shard_of key.now self.now.count))) }
    {
        let shard = shard_number(key, self.count);
        if shard == self.no {
            Ok(())
        } else {
            Err(ShardFault::Stranger { shard })
        }
    }

    /// When a lease that is given now is past its deadline.
    pub fn deadline(&self, now: u64) -> u64
        ensures { result ≡ deadline_at (terms_of self.now) now }
    {
        now.saturating_add(self.life)
    }

    /// Writes down a step that changes nothing else.
    pub fn note(&mut self, step: Step) -> Result<(), Memory>
        requires kept { IsKept self.old }
        requires quiet { IsQuiet step }
        requires answers { Answers (terms_of self.old) (steps_of self.old) step }
        ensures kept { IsKept self.new }
        ensures ok { OnOk result (shown self.new ≡ stepped (shown self.old) step) }
        ensures err { OnErr result (shown self.new ≡ shown self.old) }
    {
        self.history.make_room(self.promised, 1)?;
        self.history.push(step);
        Ok(())
    }
}
