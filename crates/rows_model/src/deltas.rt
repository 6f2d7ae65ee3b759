ghost use Rattle.std.specs.Prelude.{◌≡◌, ◌≤◌, length};
ghost use Rattle.rows_model.specs.Delta.{delta_of, is_count, is_counting, step_by, sum_of};
ghost use Rattle.rows_model.specs.DeltaIsAnswer.{DeltaIsAnswer};

use crate::changes::{Change, Txn};
use crate::keys::{Kind, QKey};
use crate::refreshing::{Circle, IdStep};

/// What the transaction adds to the answer to the key, where that is a count, and 0 for another key.
/// It depends on the changes alone, whether these apply or not. It takes no memory.
#[tactic(auto, unfolding(crate::specs::Delta::delta_of))]
pub fn delta_of(key: &QKey, txn: &Txn) -> i32
    ensures { result ≡ delta_of key.now txn.now }
{
    match key.kind {
        Kind::NFriends => sum_of(Circle::Befriended, key.id, txn.changes()),
        Kind::NPending => sum_of(Circle::Inviting, key.id, txn.changes()),
        Kind::Profile | Kind::Friends | Kind::Pending | Kind::Blocked => 0,
    }
}

/// The count that answers a key before a transaction, shifted by what the transaction adds, is the
/// answer after it, on all rows on which it applies.
pub fn delta_is_answer()
    ensures { DeltaIsAnswer }
{}

impl Kind {
    /// Whether keys of this kind are answered by a count.
    pub fn is_count(self) -> bool
        ensures { result ≡ is_counting self }
    {
        matches!(self, Kind::NFriends | Kind::NPending)
    }
}

impl QKey {
    /// Whether the answer to the key is a count.
    pub fn is_count(&self) -> bool
        ensures { result ≡ is_count self.now }
    {
        self.kind.is_count()
    }
}

impl IdStep {
    // What the step adds to the count of the ids.
    fn by(self) -> i32
        ensures { result ≡ step_by self }
    {
        match self {
            IdStep::Stay => 0,
            IdStep::Put { .. } => 1,
            IdStep::Take { .. } => -1,
        }
    }
}

// What the changes add to the count of a circle.
fn sum_of(circle: Circle, id: u32, changes: &[Change]) -> i32
    requires { length changes.now ≤ 8 }
    ensures { result ≡ sum_of circle id changes.now }
{
    let mut sum = 0;
    for change in changes {
        sum += circle.step(id, change).by();
    }
    sum
}
