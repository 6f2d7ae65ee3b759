ghost use Rattle.std.specs.Prelude.{ℕ, List};
ghost use Rattle.key_shard.specs.declared.steps.Step.{Step};
ghost use Rattle.log_word.specs.Passes.{WordView};

use shard_lock::HubName;
use std::marker::Brand;

/// Names, beside what the locks of a hub keep, the word that their passes are of, and what there was
/// when the hub was made: the steps that each shard had made, the latest first, how many sessions the
/// store had begun, and how many calls its keeper had failed.
///
/// The name is picked where a caller that is generic in it is called, at the type `Brand`, once the
/// word is there.
pub trait BoundName: HubName {
    ghost word: { WordView };

    ghost before: { ℕ → List Step };

    ghost begun: { ℕ };

    ghost failed: { ℕ };
}

impl BoundName for Brand {
    ghost use Rattle.std.specs.Prelude.{[]};
    ghost use Rattle.bound_hub.specs.Names.{no_word};

    ghost word = { no_word };

    ghost before = { λ no. [] };

    ghost begun = { 0 };

    ghost failed = { 0 };
}
