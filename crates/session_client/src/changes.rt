ghost use Rattle.std.specs.Prelude.{◌≡◌, ◌↔◌, IsTrue};

use rows_model::Change;

/// Whether two changes are one.
fn is_same(change: &Change, other: &Change) -> bool
    ensures { IsTrue result ↔ (change.now ≡ other.now) }
{
    match (change, other) {
        (Change::Invite { a, b }, Change::Invite { a: c, b: d })
        | (Change::Accept { a, b }, Change::Accept { a: c, b: d })
        | (Change::Reject { a, b }, Change::Reject { a: c, b: d })
        | (Change::Thaw { a, b }, Change::Thaw { a: c, b: d })
        | (Change::Block { a, b }, Change::Block { a: c, b: d }) => a == c && b == d,
        (Change::Rename { a, name }, Change::Rename { a: c, name: d }) => {
            a == c && name.bytes() == d.bytes()
        }
        _ => false,
    }
}

/// Whether the changes are the same, in the same order.
pub fn are_same(changes: &[Change], others: &[Change]) -> bool
    ensures { IsTrue result ↔ (changes.now ≡ others.now) }
{
    match (changes, others) {
        ([], []) => true,
        ([change, changes @ ..], [other, others @ ..]) => {
            is_same(change, other) && are_same(changes, others)
        }
        _ => false,
    }
}
