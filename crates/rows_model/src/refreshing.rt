ghost use Rattle.std.specs.Prelude.{◌≡◌, length, map, fold, filter, ◌==◌, count_by, nat_lt, option_map, IfOk, if◌then◌else◌, Some, None, ◌++◌, ◌∷◌, ◌≤◌};
ghost use Rattle.rows_model.specs.Refresh.{small_number, ids_from, words_of, ids_in, person_of, person_in, step_in, counted, has_id, without_id, listed, count_after, named, is_dash, refreshed_profile, refreshed_ids, refreshed_count, refreshed};
ghost use Rattle.rows_model.specs.RefreshIsAnswer.{RefreshIsAnswer};

use crate::changes::{Change, Txn};
use crate::footprints::touches;
use crate::keys::{Kind, QKey};
use crate::names::Name;
use crate::numbers::number_of;
use crate::queries::{id_list, number, profile_of};
use crate::refusals::Memory;
use crate::values::Value;
use std::alloc::{AllocError, Global};

/// What the key's old value becomes by the transaction, made without the rows. It is `None` exactly
/// where `old` isn't of the key's form, a count would pass below 0 or reach 2^32, an id to be put
/// in is there already, an id to be taken out isn't there, or `old` is `-`, the profile of no
/// member, and the transaction touches the key.
#[tactic(auto, unfolding(crate::specs::Refresh::refreshed))]
pub fn refresh(alloc: Global, key: &QKey, old: &Value, txn: &Txn) -> Result<Option<Value>, Memory>
    ensures { IfOk result (λ new. new ≡ refreshed key.now old.now txn.now) }
{
    match key.kind {
        Kind::Profile => refresh_profile(alloc, key.id, old, txn),
        Kind::Friends => refresh_ids(alloc, Circle::Befriended, key.id, old, txn),
        Kind::Pending => refresh_ids(alloc, Circle::Inviting, key.id, old, txn),
        Kind::NFriends => refresh_count(alloc, Circle::Befriended, key.id, old, txn),
        Kind::NPending => refresh_count(alloc, Circle::Inviting, key.id, old, txn),
        Kind::Blocked => refresh_ids(alloc, Circle::Barred, key.id, old, txn),
    }
}

// The members with whom a member has to do in one way.
#[derive(Clone, Copy)]
pub(crate) enum Circle {
    // Its friends.
    Befriended,
    // Those who invited it and wait for an answer.
    Inviting,
    // Those whom it has blocked.
    Barred,
}

// What a change does to the ids of a circle.
#[derive(Clone, Copy)]
pub(crate) enum IdStep {
    Stay,
    Put { id: u32 },
    Take { id: u32 },
}

// What the profile of a member tells.
#[derive(Clone, Copy)]
struct Person {
    name: Name,
    friends: u32,
    pending: u32,
}

impl Circle {
    // What the change does to this circle of the member.
    pub(crate) fn step(self, id: u32, change: &Change) -> IdStep
        ensures { result ≡ step_in self id change.now }
    {
        match (self, *change) {
            (Circle::Befriended, Change::Accept { a, b }) if a == id => IdStep::Put { id: b },
            (Circle::Befriended, Change::Accept { a, b }) if b == id => IdStep::Put { id: a },
            (Circle::Befriended, Change::Thaw { a, b }) if a == id => IdStep::Take { id: b },
            (Circle::Befriended, Change::Thaw { a, b }) if b == id => IdStep::Take { id: a },
            (Circle::Inviting, Change::Invite { a, b }) if b == id => IdStep::Put { id: a },
            (Circle::Inviting, Change::Accept { a, b }) if b == id => IdStep::Take { id: a },
            (Circle::Inviting, Change::Reject { a, b }) if b == id => IdStep::Take { id: a },
            (Circle::Barred, Change::Block { a, b }) if a == id => IdStep::Put { id: b },
            _ => IdStep::Stay,
        }
    }
}

impl IdStep {
    // The count after the step.
    fn counted(self, count: u32) -> Option<u32>
        ensures { result ≡ counted self count }
    {
        match self {
            IdStep::Stay => Some(count),
            IdStep::Put { .. } => count.checked_add(1),
            IdStep::Take { .. } => count.checked_sub(1),
        }
    }

    // Makes the step in the ids, if it fits them.
    fn make(self, ids: &mut Vec<u32>) -> Result<bool, AllocError>
        ensures { IfOk result (λ fits. listed self ids.old.items
            ≡ (if fits then Some ids.new.items else None)) }
    {
        match self {
            IdStep::Stay => Ok(true),
            IdStep::Put { id } => {
                if has_id(ids, id) {
                    return Ok(false);
                }
                let place = place_of(ids, id);
                ids.insert(place, id)?;
                Ok(true)
            }
            IdStep::Take { id } => {
                if !has_id(ids, id) {
                    return Ok(false);
                }
                *ids = without_id(*ids.allocator(), ids, id)?;
                Ok(true)
            }
        }
    }
}

// Whether the id is among the ids.
pub(crate) fn has_id(ids: &[u32], id: u32) -> bool
    ensures { result ≡ has_id id ids.now }
{
    ids.iter().any(|other| *other == id)
}

// How many of the ids are below this one.
fn place_of(ids: &[u32], id: u32) -> usize
    ensures place { result ≡ count_by (λ other. nat_lt other id) ids.now }
    ensures bound { result ≤ length ids.now }
{
    ids.iter().filter(|other| **other < id).count()
}

// The ids but for this one.
fn without_id(alloc: Global, ids: &[u32], id: u32) -> Result<Vec<u32>, AllocError>
    ensures { IfOk result (λ rest. rest.items ≡ without_id id ids.now) }
{
    ids.iter()
        .copied()
        .filter(|other| *other != id)
        .collect(alloc)
}

// The profile after the transaction.
fn refresh_profile(alloc: Global, id: u32, old: &Value, txn: &Txn) -> Result<Option<Value>, Memory>
    ensures { IfOk result (λ new. new ≡ refreshed_profile id old.now txn.now) }
{
    if is_dash(old.bytes()) {
        let key = QKey {
            kind: Kind::Profile,
            id,
        };
        return if touches(txn, &key) {
            Ok(None)
        } else {
            Ok(Some(old.copy()?))
        };
    }
    let Some(person) = person_in(alloc, old.bytes())? else {
        return Ok(None);
    };
    let changes = txn.changes();
    let Some(friends) = count_after(Circle::Befriended, id, changes, person.friends) else {
        return Ok(None);
    };
    let Some(pending) = count_after(Circle::Inviting, id, changes, person.pending) else {
        return Ok(None);
    };
    let name = name_after(id, changes, person.name);
    let text = profile_of(alloc, &name, u64::from(friends), u64::from(pending))?;
    Ok(Some(text))
}

// The list of ids after the transaction.
fn refresh_ids(
    alloc: Global,
    circle: Circle,
    id: u32,
    old: &Value,
    txn: &Txn,
) -> Result<Option<Value>, Memory>
    ensures { IfOk result (λ new. new ≡ refreshed_ids circle id old.now txn.now) }
{
    let Some(mut ids) = ids_in(alloc, old.bytes())? else {
        return Ok(None);
    };
    for change in txn.changes() {
        if !circle.step(id, change).make(&mut ids)? {
            return Ok(None);
        }
    }
    Ok(Some(id_list(alloc, ids.as_slice())?))
}

// The count after the transaction.
fn refresh_count(
    alloc: Global,
    circle: Circle,
    id: u32,
    old: &Value,
    txn: &Txn,
) -> Result<Option<Value>, Memory>
    ensures { IfOk result (λ new. new ≡ refreshed_count circle id old.now txn.now) }
{
    let Some(count) = small_number(old.bytes()) else {
        return Ok(None);
    };
    let Some(after) = count_after(circle, id, txn.changes(), count) else {
        return Ok(None);
    };
    Ok(Some(number(alloc, u64::from(after))?))
}

// The count of a circle after the changes.
fn count_after(circle: Circle, id: u32, changes: &[Change], old: u32) -> Option<u32>
    ensures { result ≡ count_after circle id changes.now old }
{
    let mut count = old;
    for change in changes {
        count = circle.step(id, change).counted(count)?;
    }
    Some(count)
}

// The member's name after the changes.
fn name_after(id: u32, changes: &[Change], old: Name) -> Name
    ensures { result ≡ fold (named id) old changes.now }
{
    let mut name = old;
    for change in changes {
        if let Change::Rename { a, name: new } = *change
            && a == id
        {
            name = new;
        }
    }
    name
}

// Whether this is the profile of no member.
fn is_dash(text: &[u8]) -> bool
    ensures { result ≡ is_dash text.now }
{
    matches!(text, [b'-'])
}

// The person that a profile tells.
#[tactic(auto, unfolding(crate::specs::Refresh::person_in))]
fn person_in(alloc: Global, text: &[u8]) -> Result<Option<Person>, AllocError>
    ensures { IfOk result (λ person. person ≡ person_in text.now) }
{
    let words = words_of(alloc, text, b' ')?;
    Ok(person_of(words.as_slice()))
}

// The person that these words tell.
fn person_of(words: &[&[u8]]) -> Option<Person>
    ensures { result ≡ person_of (map (λ word. word.now) words.now) }
{
    let [name, friends, pending] = words else {
        return None;
    };
    let name = Name::of(name)?;
    let friends = small_number(friends)?;
    let pending = small_number(pending)?;
    Some(Person {
        name,
        friends,
        pending,
    })
}

// The ascending ids that the text lists with commas between.
fn ids_in(alloc: Global, text: &[u8]) -> Result<Option<Vec<u32>>, AllocError>
    ensures { IfOk result (λ ids. option_map (λ list. list.items) ids ≡ ids_in text.now) }
{
    if text.is_empty() {
        return Ok(Some(Vec::new(alloc)));
    }
    let words = words_of(alloc, text, b',')?;
    ids_of(alloc, words.as_slice())
}

// The ids that these words are, if they ascend.
fn ids_of(alloc: Global, words: &[&[u8]]) -> Result<Option<Vec<u32>>, AllocError>
    ensures { IfOk result (λ ids. option_map (λ list. list.items) ids
        ≡ ids_from 0 (map (λ word. word.now) words.now)) }
{
    let mut ids = Vec::new(alloc);
    let mut least = 0;
    for word in words {
        let Some(id) = small_number(word) else {
            return Ok(None);
        };
        if u64::from(id) < least {
            return Ok(None);
        }
        ids.push(id)?;
        least = u64::from(id) + 1;
    }
    Ok(Some(ids))
}

// The words of the text between bytes of this kind.
fn words_of(alloc: Global, text: &[u8], byte: u8) -> Result<Vec<&[u8]>, AllocError>
    ensures { IfOk result (λ words. map (λ word. word.now) words.items ≡ words_of byte text.now) }
{
    text.split(|other| *other == byte).collect(alloc)
}

// The number below 2^32 that the text is.
#[tactic(auto, unfolding(crate::specs::Refresh::small_number))]
fn small_number(text: &[u8]) -> Option<u32>
    ensures { result ≡ small_number text.now }
{
    u32::try_from(number_of(text)?).ok()
}

/// The answer to a key before a transaction, refreshed by it, is the answer after it, on all rows
/// on which it applies.
pub fn refresh_is_answer()
    ensures { RefreshIsAnswer }
{}
