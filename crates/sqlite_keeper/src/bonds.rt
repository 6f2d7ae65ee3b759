// Whether a change applies to the rows as a transaction sees them.
ghost use Rattle.std.specs.Prelude.{◌≡◌, ◌==◌, ◌&&◌, not, nat_lt, IfOk, OnOk};
ghost use Rattle.rows_model.specs.Rows.{Fit};
ghost use Rattle.rows_model.specs.Changes.{applies, is_member, is_linked, is_invited, are_friends, has_blocked};
ghost use Rattle.sqlite_tables.specs.Lists.{tables_of, pairs_between};
ghost use Rattle.sqlite_tables.specs.Calls.{OnLists, Leaves};
ghost use Rattle.sqlite_keeper.specs.Bonds.{reaches, reaches_as, reaches_linked, paired_as, are_two, IsTallied};
ghost use Rattle.sqlite.specs.Held.{state};

use crate::texts::has_state;
use rows_model::Change;
use sql_keeper::KeepFault;
use sqlite::{Alter, Transaction};
use sqlite_tables::{Pair, PairState, links_between, name_of};
use std::alloc::Global;

const MOST_LINKS: usize = 1_000_000;

const MOST_BLOCKS: usize = 1_000_000;

// How many links and how many blocks there are.
#[derive(Clone, Copy)]
pub(crate) struct Tally {
    pub(crate) links: usize,
    pub(crate) blocks: usize,
}

// The pair of two members that names the one first, or none, and the one that names the other first.
#[derive(Drop)]
struct Sides {
    there: Vec<Pair>,
    back: Vec<Pair>,
}

// Whether the change applies.
pub(crate) fn applies<S: Alter>(
    alloc: Global,
    tx: &mut Transaction<'_, S>,
    tally: Tally,
    change: &Change,
) -> Result<bool, KeepFault>
    ensures same_reference { tx.new.conn.ghost_name ≡ tx.old.conn.ghost_name }
    ensures told { OnLists S.Store tx.old.conn.now tx.new.conn.now (λ lists.
        Fit (tables_of lists) → IsTallied tally (tables_of lists)
        → IfOk result (λ can. can ≡ applies change.now (tables_of lists))) }
    ensures same { OnLists S.Store tx.old.conn.now tx.new.conn.now (λ _.
        OnOk result ((state S.Store tx.new.conn.now).now ≡ (state S.Store tx.old.conn.now).now)) }
    ensures leaves { Leaves S.Store tx.old.conn.now tx.new.conn.now }
{
    match *change {
        Change::Invite { a, b } => can_invite(alloc, tx, tally.links, a, b),
        Change::Accept { a, b } => is_invited(alloc, tx, a, b),
        Change::Reject { a, b } => is_invited(alloc, tx, a, b),
        Change::Thaw { a, b } => are_friends(alloc, tx, a, b),
        Change::Rename { a, .. } => is_member(tx, a),
        Change::Block { a, b } => can_block(alloc, tx, tally.blocks, a, b),
    }
}

// Whether the invitation of `b` by `a` waits for an answer.
fn is_invited<S: Alter>(
    alloc: Global,
    tx: &mut Transaction<'_, S>,
    a: u32,
    b: u32,
) -> Result<bool, KeepFault>
    ensures same_reference { tx.new.conn.ghost_name ≡ tx.old.conn.ghost_name }
    ensures told { OnLists S.Store tx.old.conn.now tx.new.conn.now (λ lists.
        IfOk result (λ is. is ≡ is_invited a b (tables_of lists))) }
    ensures same { OnLists S.Store tx.old.conn.now tx.new.conn.now (λ _.
        OnOk result ((state S.Store tx.new.conn.now).now ≡ (state S.Store tx.old.conn.now).now)) }
    ensures leaves { Leaves S.Store tx.old.conn.now tx.new.conn.now }
{
    is_paired(alloc, tx, a, b, PairState::Pending)
}

// Whether the two are friends. Their pair names the smaller id first.
fn are_friends<S: Alter>(
    alloc: Global,
    tx: &mut Transaction<'_, S>,
    a: u32,
    b: u32,
) -> Result<bool, KeepFault>
    ensures same_reference { tx.new.conn.ghost_name ≡ tx.old.conn.ghost_name }
    ensures told { OnLists S.Store tx.old.conn.now tx.new.conn.now (λ lists. Fit (tables_of lists)
        → IfOk result (λ are. are ≡ are_friends a b (tables_of lists))) }
    ensures same { OnLists S.Store tx.old.conn.now tx.new.conn.now (λ _.
        OnOk result ((state S.Store tx.new.conn.now).now ≡ (state S.Store tx.old.conn.now).now)) }
    ensures leaves { Leaves S.Store tx.old.conn.now tx.new.conn.now }
{
    if a < b {
        is_paired(alloc, tx, a, b, PairState::Friend)
    } else {
        is_paired(alloc, tx, b, a, PairState::Friend)
    }
}

// Whether `a` may invite `b`: nothing pairs them, in either direction.
fn can_invite<S: Alter>(
    alloc: Global,
    tx: &mut Transaction<'_, S>,
    links: usize,
    a: u32,
    b: u32,
) -> Result<bool, KeepFault>
    ensures same_reference { tx.new.conn.ghost_name ≡ tx.old.conn.ghost_name }
    ensures told { OnLists S.Store tx.old.conn.now tx.new.conn.now (λ lists.
        IfOk result (λ can. can ≡ (are_two a b (tables_of lists)
        && not (is_linked a b (tables_of lists)) && not (has_blocked a b (tables_of lists))
        && not (has_blocked b a (tables_of lists)) && nat_lt links 1000000))) }
    ensures same { OnLists S.Store tx.old.conn.now tx.new.conn.now (λ _.
        OnOk result ((state S.Store tx.new.conn.now).now ≡ (state S.Store tx.old.conn.now).now)) }
    ensures leaves { Leaves S.Store tx.old.conn.now tx.new.conn.now }
{
    if links >= MOST_LINKS || !are_two(tx, a, b)? {
        return Ok(false);
    }
    Ok(pairs_between(alloc, tx, a, b)?.are_free(a, b))
}

// Whether `a` may block `b`: nothing pairs them but, maybe, a block of `a` by `b`.
fn can_block<S: Alter>(
    alloc: Global,
    tx: &mut Transaction<'_, S>,
    blocks: usize,
    a: u32,
    b: u32,
) -> Result<bool, KeepFault>
    ensures same_reference { tx.new.conn.ghost_name ≡ tx.old.conn.ghost_name }
    ensures told { OnLists S.Store tx.old.conn.now tx.new.conn.now (λ lists.
        IfOk result (λ can. can ≡ (are_two a b (tables_of lists)
        && not (is_linked a b (tables_of lists)) && not (has_blocked a b (tables_of lists))
        && nat_lt blocks 1000000))) }
    ensures same { OnLists S.Store tx.old.conn.now tx.new.conn.now (λ _.
        OnOk result ((state S.Store tx.new.conn.now).now ≡ (state S.Store tx.old.conn.now).now)) }
    ensures leaves { Leaves S.Store tx.old.conn.now tx.new.conn.now }
{
    if blocks >= MOST_BLOCKS || !are_two(tx, a, b)? {
        return Ok(false);
    }
    Ok(pairs_between(alloc, tx, a, b)?.are_unlinked(a, b))
}

impl Sides {
    // Whether nothing pairs the two.
    fn are_free(&self, a: u32, b: u32) -> bool
        ensures { result ≡ (not (reaches b self.now.there.items)
            && not (reaches a self.now.back.items)) }
    {
        !reaches(self.there.as_slice(), b) && !reaches(self.back.as_slice(), a)
    }

    // Whether nothing pairs the two but, maybe, a block of the first by the second.
    fn are_unlinked(&self, a: u32, b: u32) -> bool
        ensures { result ≡ (not (reaches b self.now.there.items)
            && not (reaches_linked a self.now.back.items)) }
    {
        !reaches(self.there.as_slice(), b) && !reaches_linked(self.back.as_slice(), a)
    }
}

// Whether these are two different members.
fn are_two<S: Alter>(tx: &mut Transaction<'_, S>, a: u32, b: u32) -> Result<bool, KeepFault>
    ensures same_reference { tx.new.conn.ghost_name ≡ tx.old.conn.ghost_name }
    ensures told { OnLists S.Store tx.old.conn.now tx.new.conn.now (λ lists.
        IfOk result (λ two. two ≡ are_two a b (tables_of lists))) }
    ensures same { OnLists S.Store tx.old.conn.now tx.new.conn.now (λ _.
        OnOk result ((state S.Store tx.new.conn.now).now ≡ (state S.Store tx.old.conn.now).now)) }
    ensures leaves { Leaves S.Store tx.old.conn.now tx.new.conn.now }
{
    if a == b || !is_member(tx, a)? {
        return Ok(false);
    }
    is_member(tx, b)
}

// Whether some member has this id.
fn is_member<S: Alter>(tx: &mut Transaction<'_, S>, id: u32) -> Result<bool, KeepFault>
    ensures same_reference { tx.new.conn.ghost_name ≡ tx.old.conn.ghost_name }
    ensures told { OnLists S.Store tx.old.conn.now tx.new.conn.now (λ lists.
        IfOk result (λ is. is ≡ is_member id (tables_of lists))) }
    ensures same { OnLists S.Store tx.old.conn.now tx.new.conn.now (λ _.
        OnOk result ((state S.Store tx.new.conn.now).now ≡ (state S.Store tx.old.conn.now).now)) }
    ensures leaves { Leaves S.Store tx.old.conn.now tx.new.conn.now }
{
    Ok(name_of(tx, id)?.is_some())
}

// Whether the pair of `a` and `b`, in this order, has this state.
fn is_paired<S: Alter>(
    alloc: Global,
    tx: &mut Transaction<'_, S>,
    a: u32,
    b: u32,
    wanted: PairState,
) -> Result<bool, KeepFault>
    ensures same_reference { tx.new.conn.ghost_name ≡ tx.old.conn.ghost_name }
    ensures told { OnLists S.Store tx.old.conn.now tx.new.conn.now (λ lists.
        IfOk result (λ is. is ≡ paired_as wanted a b lists.pairs)) }
    ensures same { OnLists S.Store tx.old.conn.now tx.new.conn.now (λ _.
        OnOk result ((state S.Store tx.new.conn.now).now ≡ (state S.Store tx.old.conn.now).now)) }
    ensures leaves { Leaves S.Store tx.old.conn.now tx.new.conn.now }
{
    let between = links_between(alloc, tx, a, b)?;
    Ok(reaches_as(between.as_slice(), b, wanted))
}

// The pairs of the two.
fn pairs_between<S: Alter>(
    alloc: Global,
    tx: &mut Transaction<'_, S>,
    a: u32,
    b: u32,
) -> Result<Sides, KeepFault>
    ensures same_reference { tx.new.conn.ghost_name ≡ tx.old.conn.ghost_name }
    ensures there { OnLists S.Store tx.old.conn.now tx.new.conn.now (λ lists.
        IfOk result (λ sides. sides.there.items ≡ pairs_between a b lists)) }
    ensures back { OnLists S.Store tx.old.conn.now tx.new.conn.now (λ lists.
        IfOk result (λ sides. sides.back.items ≡ pairs_between b a lists)) }
    ensures same { OnLists S.Store tx.old.conn.now tx.new.conn.now (λ _.
        OnOk result ((state S.Store tx.new.conn.now).now ≡ (state S.Store tx.old.conn.now).now)) }
    ensures leaves { Leaves S.Store tx.old.conn.now tx.new.conn.now }
{
    let there = links_between(alloc, tx, a, b)?;
    let back = links_between(alloc, tx, b, a)?;
    Ok(Sides { there, back })
}

// Whether one of the pairs is to `b`.
fn reaches(pairs: &[Pair], b: u32) -> bool
    ensures { result ≡ reaches b pairs.now }
{
    pairs.iter().any(|pair| pair.b == b)
}

// Whether one of the pairs is to `b`, and has this state.
fn reaches_as(pairs: &[Pair], b: u32, state: PairState) -> bool
    ensures { result ≡ reaches_as state b pairs.now }
{
    pairs
        .iter()
        .any(|pair| has_state(pair, state) && pair.b == b)
}

// Whether one of the pairs is to `b`, and is a link.
fn reaches_linked(pairs: &[Pair], b: u32) -> bool
    ensures { result ≡ reaches_linked b pairs.now }
{
    pairs
        .iter()
        .any(|pair| !has_state(pair, PairState::Block) && pair.b == b)
}
