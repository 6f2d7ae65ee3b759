// The texts of answers, out of the pairs that name a member first and those that name it second.
ghost use Rattle.std.specs.Prelude.{◌≡◌, ◌++◌, ◌∷◌, ◌≤◌, count_by, length, decimal, IfOk};
ghost use Rattle.rows_model.specs.Query.{id_list};
ghost use Rattle.sqlite_tables.specs.declared.pairs.PairState.TheVariants.{Pending, Friend, Block};
ghost use Rattle.sqlite_keeper.specs.Texts.{has_state, firsts, seconds, friends_told};

use rows_model::{Memory, Name, Value, id_list, number, profile_of};
use sqlite_tables::{Pair, PairState};
use std::alloc::{AllocError, Global};

// The pairs that name a member first, and those that name it second, each by their two ids.
#[derive(Drop)]
pub(crate) struct Around {
    pub(crate) from: Vec<Pair>,
    pub(crate) to: Vec<Pair>,
}

// The name, and how many friends and pending invitations these pairs tell.
pub(crate) fn profile_text(alloc: Global, name: &Name, around: &Around) -> Result<Value, Memory>
    ensures { IfOk result (λ value. value
        ≡ name.now ++ 32 ∷ decimal (friends_told around.now.from.items around.now.to.items)
        ++ 32 ∷ decimal (count_by (has_state Pending) around.now.to.items)) }
{
    let pending = count(around.to.as_slice(), PairState::Pending);
    profile_of(alloc, name, friends_told(around), pending as u64)
}

// The friends with smaller ids stand in the pairs to the member, the others in those from it.
pub(crate) fn friends_text(alloc: Global, around: &Around) -> Result<Value, Memory>
    ensures { IfOk result (λ value. value
        ≡ id_list (firsts Friend around.now.to.items ++ seconds Friend around.now.from.items)) }
{
    let mut ids = firsts(alloc, around.to.as_slice(), PairState::Friend)?;
    let others = seconds(alloc, around.from.as_slice(), PairState::Friend)?;
    ids.extend_from_slice(others.as_slice())?;
    id_list(alloc, ids.as_slice())
}

// How many friends the pairs tell.
pub(crate) fn friend_count_text(alloc: Global, around: &Around) -> Result<Value, Memory>
    ensures { IfOk result (λ value. value
        ≡ decimal (friends_told around.now.from.items around.now.to.items)) }
{
    number(alloc, friends_told(around))
}

// The ids of those who invited a member, out of the pairs to it.
pub(crate) fn pending_text(alloc: Global, to: &[Pair]) -> Result<Value, Memory>
    ensures { IfOk result (λ value. value ≡ id_list (firsts Pending to.now)) }
{
    let ids = firsts(alloc, to, PairState::Pending)?;
    id_list(alloc, ids.as_slice())
}

// How many they are.
pub(crate) fn pending_count_text(alloc: Global, to: &[Pair]) -> Result<Value, Memory>
    ensures { IfOk result (λ value. value ≡ decimal (count_by (has_state Pending) to.now)) }
{
    number(alloc, count(to, PairState::Pending) as u64)
}

// The ids of those whom a member has blocked, out of the pairs from it.
pub(crate) fn blocked_text(alloc: Global, from: &[Pair]) -> Result<Value, Memory>
    ensures { IfOk result (λ value. value ≡ id_list (seconds Block from.now)) }
{
    let ids = seconds(alloc, from, PairState::Block)?;
    id_list(alloc, ids.as_slice())
}

fn friends_told(around: &Around) -> u64
    ensures { result ≡ friends_told around.now.from.items around.now.to.items }
{
    let to = count(around.to.as_slice(), PairState::Friend);
    let from = count(around.from.as_slice(), PairState::Friend);
    (to + from) as u64
}

// Whether the pair has this state.
pub(crate) fn has_state(pair: &Pair, state: PairState) -> bool
    ensures { result ≡ has_state state pair.now }
{
    pair.state.number() == state.number()
}

// How many of the pairs have this state.
fn count(pairs: &[Pair], state: PairState) -> usize
    ensures count { result ≡ count_by (has_state state) pairs.now }
    ensures few { result ≤ length pairs.now }
{
    pairs.iter().filter(|pair| has_state(pair, state)).count()
}

// The first ids of the pairs that have this state.
fn firsts(alloc: Global, pairs: &[Pair], state: PairState) -> Result<Vec<u32>, AllocError>
    ensures { IfOk result (λ ids. ids.items ≡ firsts state pairs.now) }
{
    pairs
        .iter()
        .filter(|pair| has_state(pair, state))
        .map(|pair| pair.a)
        .collect(alloc)
}

// The second ids of the pairs that have this state.
fn seconds(alloc: Global, pairs: &[Pair], state: PairState) -> Result<Vec<u32>, AllocError>
    ensures { IfOk result (λ ids. ids.items ≡ seconds state pairs.now) }
{
    pairs
        .iter()
        .filter(|pair| has_state(pair, state))
        .map(|pair| pair.b)
        .collect(alloc)
}
