ghost use Rattle.std.specs.Prelude.{◌≡◌, ◌∷◌, ◌++◌, map, filter, IfOk, decimal};
ghost use Rattle.rows_model.specs.declared.keys.Kind.TheVariants.{Profile};
ghost use Rattle.rows_model.specs.Query.{answer, answer_of, befriends, invites, other_end, friend_ids, inviter_ids, id_list, AnswersAscend};

use crate::keys::{Kind, QKey};
use crate::names::Name;
use crate::numbers::push_decimal;
use crate::refusals::Memory;
use crate::rows::{Link, Rows};
use crate::values::Value;
use std::alloc::{AllocError, Global};

/// What the rows answer to the key.
#[tactic(auto, unfolding(crate::specs::Query::answer))]
pub fn ask(alloc: Global, rows: &Rows, key: &QKey) -> Result<Value, Memory>
    ensures { IfOk result (λ value. value ≡ answer key.now rows.now) }
{
    match key.kind {
        Kind::Profile => profile(alloc, rows, key.id),
        Kind::Friends => id_list(alloc, friend_ids(alloc, rows, key.id)?.as_slice()),
        Kind::Pending => id_list(alloc, inviter_ids(alloc, rows, key.id)?.as_slice()),
        Kind::NFriends => number(alloc, rows.friend_count(key.id)),
        Kind::NPending => number(alloc, rows.pending_count(key.id)),
        Kind::Blocked => id_list(alloc, rows.blocked_by(key.id)),
    }
}

// The member's name, and the counts of its friends and of those who wait for its answer.
fn profile(alloc: Global, rows: &Rows, id: u32) -> Result<Value, Memory>
    ensures { IfOk result (λ value. value ≡ answer_of Kind.Profile id rows.now) }
{
    let Some(member) = rows.member(id) else {
        return Value::of(alloc, b"-");
    };
    profile_of(
        alloc,
        &member.name,
        rows.friend_count(id),
        rows.pending_count(id),
    )
}

/// The text of a profile: the name and the two counts, with spaces between.
pub fn profile_of(alloc: Global, name: &Name, friends: u64, pending: u64) -> Result<Value, Memory>
    ensures { IfOk result (λ value. value
        ≡ name.now ++ 32 ∷ decimal friends ++ 32 ∷ decimal pending) }
{
    let mut text = Vec::from_slice(alloc, name.bytes())?;
    text.push(b' ')?;
    push_decimal(&mut text, friends)?;
    text.push(b' ')?;
    push_decimal(&mut text, pending)?;
    Value::shared(text)
}

// The ids of the member's friends, in the order of the links.
fn friend_ids(alloc: Global, rows: &Rows, id: u32) -> Result<Vec<u32>, AllocError>
    ensures { IfOk result (λ ids. ids.items ≡ friend_ids id rows.now) }
{
    friends_among(alloc, rows.links_of(id), id)
}

// The ids of the member's friends by these links.
fn friends_among(alloc: Global, links: &[Link], id: u32) -> Result<Vec<u32>, AllocError>
    ensures { IfOk result (λ ids. ids.items
        ≡ map (other_end id) (filter (befriends id) links.now)) }
{
    links
        .iter()
        .filter(|link| link.befriends(id))
        .map(|link| link.other_end(id))
        .collect(alloc)
}

// The ids of those who invited the member, in the order of the links.
fn inviter_ids(alloc: Global, rows: &Rows, id: u32) -> Result<Vec<u32>, AllocError>
    ensures { IfOk result (λ ids. ids.items ≡ inviter_ids id rows.now) }
{
    inviters_among(alloc, rows.links_of(id), id)
}

// The ids of those who invited the member by these links.
fn inviters_among(alloc: Global, links: &[Link], id: u32) -> Result<Vec<u32>, AllocError>
    ensures { IfOk result (λ ids. ids.items
        ≡ map (λ link. link.a) (filter (invites id) links.now)) }
{
    links
        .iter()
        .filter(|link| link.invites(id))
        .map(|link| link.a)
        .collect(alloc)
}

/// The text of a list of ids: each in decimal, with commas between.
pub fn id_list(alloc: Global, ids: &[u32]) -> Result<Value, Memory>
    ensures { IfOk result (λ value. value ≡ id_list ids.now) }
{
    let mut text = Vec::new(alloc);
    for id in ids {
        if !text.is_empty() {
            text.push(b',')?;
        }
        push_decimal(&mut text, u64::from(*id))?;
    }
    Value::shared(text)
}

/// The text of a count: its number in decimal.
pub fn number(alloc: Global, number: u64) -> Result<Value, Memory>
    ensures { IfOk result (λ value. value ≡ decimal number) }
{
    let mut text = Vec::new(alloc);
    push_decimal(&mut text, number)?;
    Value::shared(text)
}

/// The ids in the answers about a member ascend, since the links and the blocks are in order.
pub fn answers_ascend()
    ensures { AnswersAscend }
{}
