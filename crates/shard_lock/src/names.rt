ghost use Rattle.std.specs.Prelude.{ℕ, Option};
ghost use Rattle.rows_model.specs.Rows.{Tables};
ghost use Rattle.key_shard.specs.Past.{Terms};

use sql_keeper::Start;
use std::marker::{Brand, PhantomData};
use std::sync::ledger::Ledger;

/// Names what the locks of a hub keep: for each shard's number what it was made with, the store's
/// opening rows and cap, the rows that its keeper told when the store was handed in, if it told any, and
/// the count of faults at which that keeper stood when it was started. What a shard was made with says
/// whether it is whole or rolls. It also names a ledger, which has a part for each shard.
///
/// The name is picked where a caller that is generic in it is called, at the type `Brand`.
pub trait HubName: Ledger {
    ghost terms: { ℕ → Terms };

    ghost opening: { Tables };

    ghost cap: { ℕ };

    ghost known_rows: { Option Tables };

    ghost start: { Option ℕ };
}

impl HubName for Brand {
    ghost use Rattle.std.specs.Prelude.{[], false, None};

    ghost terms = { λ no. record { no = no; count = 1; room = 1; life = 1; first = 1; rolls = false } };

    ghost opening = { record { members = []; links = []; blocks = [] } };

    ghost cap = { 0 };

    ghost known_rows = { None };

    ghost start = { None };
}

/// Names the count of faults at the start of a hub's keeper.
#[derive(Drop)]
pub struct StartOf<H: HubName> {
    of: PhantomData<H>,
}

impl<H: HubName> Start for StartOf<H> {
    ghost count = { H.start };
}
