ghost use Rattle.std.specs.Prelude.{◌≡◌, ◌||◌, OnOk, IfOk, All};
ghost use Rattle.key_shard.specs.Answers.{Legal};
ghost use Rattle.sql_keeper.specs.Fresh.{quarantines};
ghost use Rattle.run_audit.specs.declared.holds.Hold.{Hold};
ghost use Rattle.run_audit.specs.Findings.{histories_in, AreWhole};
ghost use Rattle.run_audit.specs.Grants.{has_hold, HasGrants, AddsGrants};

use crate::holds::Hold;
use key_shard::{Shard, Step};
use rows_model::Memory;
use std::alloc::Global;
use std::collections::BTreeSet;

/// Who was granted a quarantine, and on which key.
pub type Grants = BTreeSet<Hold>;

/// What was granted in the histories of these shards, each of which is legal.
pub fn grants_in(alloc: Global, shards: &[Shard]) -> Result<Grants, Memory>
    requires { AreWhole shards.now }
    ensures grants { IfOk result (λ grants. HasGrants (histories_in shards.now) grants) }
    ensures legal { OnOk result (All (λ shard. Legal shard.terms shard.history) shards.now) }
{
    let mut grants = BTreeSet::new(alloc);
    for shard in shards {
        add_grants(&mut grants, shard.history())?;
    }
    Ok(grants)
}

/// Adds what was granted in a history.
fn add_grants(grants: &mut Grants, history: &[Step]) -> Result<(), Memory>
    ensures { OnOk result (AddsGrants history.now grants.old grants.new) }
{
    for step in history {
        add_grant(grants, step)?;
    }
    Ok(())
}

/// Adds what the step granted, if it did.
fn add_grant(grants: &mut Grants, step: &Step) -> Result<(), Memory>
    ensures { OnOk result ((hold : Hold) → has_hold hold grants.new
        ≡ (has_hold hold grants.old || quarantines hold.key hold.sid step.now)) }
{
    if let Step::Granted { key, sid, .. } = step {
        grants.insert(Hold {
            sid: *sid,
            key: *key,
        })?;
    }
    Ok(())
}
