ghost use Rattle.std.specs.Prelude.{◌≡◌, ◌++◌, ◌≤◌, length, fold, count_by, IfOk, OnOk};
ghost use Rattle.std.specs.List.{list_any};
ghost use Rattle.rows_model.specs.Key.{same_key};
ghost use Rattle.rows_model.specs.Changes.{keys_of, foot_of, has_key, touches, is_key_before, with_key, footprint};
ghost use Rattle.rows_model.specs.Footprint.{FootprintsAreExact};
ghost use Rattle.rows_model.specs.Untouched.{UntouchedKeepsItsAnswer};
ghost use Rattle.rows_model.specs.RowsStayFit.{RowsStayFit};

use crate::changes::{Change, Txn};
use crate::keys::{Kind, QKey};
use crate::refusals::Memory;
use std::alloc::{AllocError, Global};

// The kinds of keys in which a friendship is seen.
const FRIENDS: &[Kind] = &[Kind::Profile, Kind::Friends, Kind::NFriends];

// The kinds of keys in which an invitation to the member is seen.
const PENDING: &[Kind] = &[Kind::Profile, Kind::Pending, Kind::NPending];

// The kinds of keys in which it is seen that an invitation to the member is accepted.
const ACCEPTED: &[Kind] = &[
    Kind::Profile,
    Kind::Friends,
    Kind::Pending,
    Kind::NFriends,
    Kind::NPending,
];

/// The keys that the transaction touches, ascending and without repeats: those whose answers it
/// may alter. They depend on the changes alone, whether these apply or not.
pub fn footprint(alloc: Global, txn: &Txn) -> Result<Vec<QKey>, Memory>
    ensures { IfOk result (λ keys. keys.items ≡ footprint txn.now) }
{
    let mut keys = Vec::new(alloc);
    for change in txn.changes() {
        let foot = Foot::of(change);
        put_keys(&mut keys, foot.first, foot.of_first)?;
        put_keys(&mut keys, foot.second, foot.of_second)?;
    }
    Ok(keys)
}

/// Whether the key is one that the transaction touches. It takes no memory.
pub fn touches(txn: &Txn, key: &QKey) -> bool
    ensures { result ≡ touches txn.now key.now }
{
    any_touches(txn.changes(), key)
}

/// Whether the key is one that these changes touch, which need be no transaction yet. It takes no memory.
pub fn any_touches(changes: &[Change], key: &QKey) -> bool
    ensures { result ≡ touches changes.now key.now }
{
    changes.iter().any(|change| Foot::of(change).has(key))
}

/// A footprint ascends, and has just the keys that are touched.
pub fn footprints_are_exact()
    ensures { FootprintsAreExact }
{}

/// A key that a transaction doesn't touch has one answer before and after it, on all rows on which
/// it applies.
pub fn untouched_keeps_its_answer()
    ensures { UntouchedKeepsItsAnswer }
{}

/// The rows are fit after changes that apply to fit ones.
pub fn rows_stay_fit()
    ensures { RowsStayFit }
{}

// The keys that a change touches: of its first member, and of its second.
#[derive(Drop)]
struct Foot {
    first: u32,
    of_first: &'static [Kind],
    second: u32,
    of_second: &'static [Kind],
}

impl Foot {
    fn of(change: &Change) -> Foot
        ensures { keys_of result.first result.of_first.now ++ keys_of result.second result.of_second.now
            ≡ foot_of change.now }
    {
        match *change {
            Change::Invite { a, b } | Change::Reject { a, b } => Foot::new(a, &[], b, PENDING),
            Change::Accept { a, b } => Foot::new(a, FRIENDS, b, ACCEPTED),
            Change::Thaw { a, b } => Foot::new(a, FRIENDS, b, FRIENDS),
            Change::Rename { a, .. } => Foot::new(a, &[Kind::Profile], a, &[]),
            Change::Block { a, .. } => Foot::new(a, &[Kind::Blocked], a, &[]),
        }
    }

    fn new(first: u32, of_first: &'static [Kind], second: u32, of_second: &'static [Kind]) -> Foot
        ensures first { result.first ≡ first }
        ensures of_first { result.of_first.now ≡ of_first.now }
        ensures second { result.second ≡ second }
        ensures of_second { result.of_second.now ≡ of_second.now }
    {
        Foot {
            first,
            of_first,
            second,
            of_second,
        }
    }

    #[tactic(auto, using(crate::proofs::FootLemmas::has_both))]
    fn has(&self, key: &QKey) -> bool
        ensures { result ≡ has_key key.now (keys_of self.now.first self.now.of_first.now
            ++ keys_of self.now.second self.now.of_second.now) }
    {
        has_kind(key, self.first, self.of_first) || has_kind(key, self.second, self.of_second)
    }
}

// Whether the key is of this member and of one of these kinds.
fn has_kind(key: &QKey, id: u32, kinds: &[Kind]) -> bool
    ensures { result ≡ list_any (λ kind. same_key key.now (record { kind = kind; id = id }))
        kinds.now }
{
    kinds
        .iter()
        .any(|kind| is_same(key, &QKey { kind: *kind, id }))
}

// Whether two keys are one.
fn is_same(key: &QKey, other: &QKey) -> bool
    ensures { result ≡ same_key key.now other.now }
{
    key == other
}

// Puts these keys of a member among the keys, in their places.
fn put_keys(keys: &mut Vec<QKey>, id: u32, kinds: &[Kind]) -> Result<(), AllocError>
    ensures { OnOk result (keys.new.items ≡ fold with_key keys.old.items (keys_of id kinds.now)) }
{
    for kind in kinds {
        put_key(keys, QKey { kind: *kind, id })?;
    }
    Ok(())
}

// Puts the key among the keys, in its place, unless it is there.
fn put_key(keys: &mut Vec<QKey>, key: QKey) -> Result<(), AllocError>
    ensures { OnOk result (keys.new.items ≡ with_key keys.old.items key) }
{
    if holds(keys, &key) {
        return Ok(());
    }
    let place = place_of(keys, &key);
    keys.insert(place, key)?;
    Ok(())
}

// Whether the key is among the keys.
fn holds(keys: &[QKey], key: &QKey) -> bool
    ensures { result ≡ has_key key.now keys.now }
{
    keys.iter().any(|other| is_same(key, other))
}

// How many of the keys stand before this one.
fn place_of(keys: &[QKey], key: &QKey) -> usize
    ensures place { result ≡ count_by (is_key_before key.now) keys.now }
    ensures bound { result ≤ length keys.now }
{
    keys.iter().filter(|other| is_before(other, key)).count()
}

// Whether a key stands before another.
fn is_before(key: &QKey, later: &QKey) -> bool
    ensures { result ≡ is_key_before later.now key.now }
{
    key < later
}
