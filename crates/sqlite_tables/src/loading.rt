ghost use Rattle.std.specs.Prelude.{◌≡◌, ◌≤◌, ◌<◌, ◌<ℤ◌, ◌++◌, [], ◌∷◌, map, All, AllPairs, IsPermutation, IsTrue, IfOk, IfErr, OnOk, ◌⊎◌};
ghost use Rattle.sqlite_trees.specs.View.{doubt};
ghost use Rattle.sqlite_trees.specs.Tree.{rowid};
ghost use Rattle.sqlite.specs.declared.types.Value.TheVariants.{Int};
ghost use Rattle.sqlite.specs.State.{HasCleanDisk, Shown, FailsToQuery, IsTooLate, KeepsCommit};
ghost use Rattle.sqlite.specs.Held.{state};
ghost use Rattle.sqlite_tables.specs.Lists.{HasTables, HoldLists, HaveRowids, IsPairBefore, AscendAsRows, member_values, pair_values, shown_member, shown_pair};

use crate::faults::fault_of;
use crate::pairs::{Pair, PairState, number_at, push};
use rows_model::{Member, Memory, Name};
use sql_keeper::KeepFault;
use sqlite::types::ValueRef;
use sqlite::{Alter, Error, Row, Transaction};
use std::alloc::Global;

/// What a database holds: the members by id, and the links and blocks by their two ids.
#[derive(Drop)]
pub struct Found {
    pub members: Vec<Member>,
    pub pairs: Vec<Pair>,
}

// The rows that a text with no parameters shows.
fn ask_all<S: Alter>(tx: &mut Transaction<'_, S>, sql: &str) -> Result<Vec<Row>, Error>
    ensures same_reference { tx.new.conn.ghost_name ≡ tx.old.conn.ghost_name }
    ensures shown { HasCleanDisk (state S.Store tx.new.conn.now) → IfOk result (λ rows.
        Shown sql.now [] (state S.Store tx.old.conn.now)
        (state S.Store tx.new.conn.now) rows.items) }
    ensures refused { HasCleanDisk (state S.Store tx.new.conn.now) → IfErr result (λ e.
        FailsToQuery sql.now [] (state S.Store tx.old.conn.now) (state S.Store tx.new.conn.now) e
        ⊎ IsTooLate sql.now [] (state S.Store tx.old.conn.now) (state S.Store tx.new.conn.now) e) }
    ensures clean { doubt (state S.Store tx.old.conn.now).is_clean
        ≤ doubt (state S.Store tx.new.conn.now).is_clean }
{
    tx.query_all(sql, &[])
}

// The member that a row tells of.
fn member_in(row: &Row) -> Result<Member, KeepFault>
    ensures { IfOk result (λ member. row.now ≡ member_values member) }
{
    if row.column_count() != 2 {
        return Err(KeepFault::Failed);
    }
    let id = number_at(row, 0)?;
    match row.get_ref(1) {
        Ok(ValueRef::Text(text)) => match Name::of(text) {
            Some(name) => Ok(Member { id, name }),
            None => Err(KeepFault::Failed),
        },
        _ => Err(KeepFault::Failed),
    }
}

// The pair that a row tells of.
fn pair_of(row: &Row) -> Result<Pair, KeepFault>
    ensures { IfOk result (λ pair. row.now ≡ pair_values pair) }
{
    if row.column_count() != 3 {
        return Err(KeepFault::Failed);
    }
    let a = number_at(row, 0)?;
    let b = number_at(row, 1)?;
    match PairState::of(number_at(row, 2)?) {
        Some(state) => Ok(Pair { a, b, state }),
        None => Err(KeepFault::Failed),
    }
}

// The number that a row is.
fn rowid_in(row: &Row) -> Result<i64, KeepFault>
    ensures { IfOk result (λ number. row.now ≡ Int number ∷ []) }
{
    if row.column_count() != 1 {
        return Err(KeepFault::Failed);
    }
    match row.get(0) {
        Ok(number) => Ok(number),
        Err(error) => Err(fault_of(error)),
    }
}

// Whether an id is above those of members that ascend.
fn is_above(members: &[Member], id: u32) -> bool
    ensures { IsTrue result → AllPairs (λ one later. one.id < later.id) members.now
        → All (λ one. one.id < id) members.now }
{
    match members.last() {
        Some(last) => last.id < id,
        None => true,
    }
}

// Puts a member behind the others, whose ids have to be smaller.
fn put_above(members: &mut Vec<Member>, member: Member) -> Result<(), KeepFault>
    ensures put { OnOk result (members.new.items ≡ members.old.items ++ member ∷ []) }
    ensures above { OnOk result (AllPairs (λ one later. one.id < later.id) members.old.items
        → AllPairs (λ one later. one.id < later.id) members.new.items) }
{
    if !is_above(members.as_slice(), member.id) {
        return Err(KeepFault::Failed);
    }
    push_member(members, member)?;
    Ok(())
}

fn push_member(members: &mut Vec<Member>, member: Member) -> Result<(), Memory>
    ensures { OnOk result (members.new.items ≡ members.old.items ++ member ∷ []) }
{
    members.push(member)?;
    Ok(())
}

// The members that the rows tell of, if their ids ascend.
fn members_in(alloc: Global, rows: &[Row]) -> Result<Vec<Member>, KeepFault>
    ensures told { IfOk result (λ members. rows.now ≡ map member_values members.items) }
    ensures ascend { IfOk result (λ members.
        AllPairs (λ one later. one.id < later.id) members.items) }
{
    let mut members = Vec::new(alloc);
    for row in rows {
        put_above(&mut members, member_in(row)?)?;
    }
    Ok(members)
}

// Whether two ids stand behind those of pairs that ascend.
fn is_behind(pairs: &[Pair], pair: &Pair) -> bool
    ensures { IsTrue result → AllPairs IsPairBefore pairs.now
        → All (λ one. IsPairBefore one pair.now) pairs.now }
{
    match pairs.last() {
        Some(last) => last.a < pair.a || last.a == pair.a && last.b < pair.b,
        None => true,
    }
}

// Puts a pair behind the others, which have to stand before it.
fn put_behind(pairs: &mut Vec<Pair>, pair: Pair) -> Result<(), KeepFault>
    ensures put { OnOk result (pairs.new.items ≡ pairs.old.items ++ pair ∷ []) }
    ensures behind { OnOk result (AllPairs IsPairBefore pairs.old.items
        → AllPairs IsPairBefore pairs.new.items) }
{
    if !is_behind(pairs.as_slice(), &pair) {
        return Err(KeepFault::Failed);
    }
    push(pairs, pair)?;
    Ok(())
}

// The pairs that the rows tell of, if they ascend.
fn ascending_pairs(alloc: Global, rows: &[Row]) -> Result<Vec<Pair>, KeepFault>
    ensures told { IfOk result (λ pairs. rows.now ≡ map pair_values pairs.items) }
    ensures ascend { IfOk result (λ pairs. AllPairs IsPairBefore pairs.items) }
{
    let mut pairs = Vec::new(alloc);
    for row in rows {
        put_behind(&mut pairs, pair_of(row)?)?;
    }
    Ok(pairs)
}

// Whether a number is larger than those of numbers that ascend.
fn is_larger(numbers: &[i64], number: i64) -> bool
    ensures { IsTrue result → AllPairs (λ m n. m <ℤ n) numbers.now
        → All (λ n. n <ℤ number) numbers.now }
{
    match numbers.last() {
        Some(last) => *last < number,
        None => true,
    }
}

fn push_number(numbers: &mut Vec<i64>, number: i64) -> Result<(), Memory>
    ensures { OnOk result (numbers.new.items ≡ numbers.old.items ++ number ∷ []) }
{
    numbers.push(number)?;
    Ok(())
}

// Puts a number behind the others, which have to be smaller.
fn put_larger(numbers: &mut Vec<i64>, number: i64) -> Result<(), KeepFault>
    ensures put { OnOk result (numbers.new.items ≡ numbers.old.items ++ number ∷ []) }
    ensures larger { OnOk result (AllPairs (λ m n. m <ℤ n) numbers.old.items
        → AllPairs (λ m n. m <ℤ n) numbers.new.items) }
{
    if !is_larger(numbers.as_slice(), number) {
        return Err(KeepFault::Failed);
    }
    push_number(numbers, number)?;
    Ok(())
}

// The numbers that the rows are, if they ascend.
fn ascending_numbers(alloc: Global, rows: &[Row]) -> Result<Vec<i64>, KeepFault>
    ensures told { IfOk result (λ numbers. rows.now ≡ map (λ n. Int n ∷ []) numbers.items) }
    ensures ascend { IfOk result (λ numbers. AllPairs (λ m n. m <ℤ n) numbers.items) }
{
    let mut numbers = Vec::new(alloc);
    for row in rows {
        put_larger(&mut numbers, rowid_in(row)?)?;
    }
    Ok(numbers)
}

// Tests that the rows are numbers that ascend.
fn test_numbers(alloc: Global, rows: &[Row]) -> Result<(), KeepFault>
    ensures { OnOk result (AscendAsRows rows.now) }
{
    ascending_numbers(alloc, rows)?;
    Ok(())
}

// The members of a database that has the tables.
fn found_members<S: Alter>(
    alloc: Global,
    tx: &mut Transaction<'_, S>,
) -> Result<Vec<Member>, KeepFault>
    ensures same_reference { tx.new.conn.ghost_name ≡ tx.old.conn.ghost_name }
    ensures found { HasCleanDisk (state S.Store tx.new.conn.now)
        → HasTables (state S.Store tx.old.conn.now).now.schema → IfOk result (λ members.
        IsPermutation (map member_values members.items)
        (map shown_member ((state S.Store tx.old.conn.now).now.trees 0))) }
    ensures ascend { IfOk result (λ members.
        AllPairs (λ one later. one.id < later.id) members.items) }
    ensures same { HasCleanDisk (state S.Store tx.new.conn.now)
        → HasTables (state S.Store tx.old.conn.now).now.schema
        → OnOk result ((state S.Store tx.new.conn.now).now ≡ (state S.Store tx.old.conn.now).now) }
    ensures kept { HasCleanDisk (state S.Store tx.new.conn.now)
        → HasTables (state S.Store tx.old.conn.now).now.schema
        → KeepsCommit (state S.Store tx.old.conn.now) (state S.Store tx.new.conn.now) }
    ensures clean { doubt (state S.Store tx.old.conn.now).is_clean
        ≤ doubt (state S.Store tx.new.conn.now).is_clean }
{
    match ask_all(tx, "SELECT id, name FROM member ORDER BY id") {
        Ok(rows) => members_in(alloc, rows.as_slice()),
        Err(error) => Err(fault_of(error)),
    }
}

// The links and blocks of a database that has the tables.
fn found_pairs<S: Alter>(alloc: Global, tx: &mut Transaction<'_, S>) -> Result<Vec<Pair>, KeepFault>
    ensures same_reference { tx.new.conn.ghost_name ≡ tx.old.conn.ghost_name }
    ensures found { HasCleanDisk (state S.Store tx.new.conn.now)
        → HasTables (state S.Store tx.old.conn.now).now.schema → IfOk result (λ pairs.
        IsPermutation (map pair_values pairs.items)
        (map shown_pair ((state S.Store tx.old.conn.now).now.trees 1))) }
    ensures ascend { IfOk result (λ pairs. AllPairs IsPairBefore pairs.items) }
    ensures same { HasCleanDisk (state S.Store tx.new.conn.now)
        → HasTables (state S.Store tx.old.conn.now).now.schema
        → OnOk result ((state S.Store tx.new.conn.now).now ≡ (state S.Store tx.old.conn.now).now) }
    ensures kept { HasCleanDisk (state S.Store tx.new.conn.now)
        → HasTables (state S.Store tx.old.conn.now).now.schema
        → KeepsCommit (state S.Store tx.old.conn.now) (state S.Store tx.new.conn.now) }
    ensures clean { doubt (state S.Store tx.old.conn.now).is_clean
        ≤ doubt (state S.Store tx.new.conn.now).is_clean }
{
    match ask_all(tx, "SELECT a, b, st FROM link ORDER BY a, b") {
        Ok(rows) => ascending_pairs(alloc, rows.as_slice()),
        Err(error) => Err(fault_of(error)),
    }
}

// Tests that no two rows of the links have one rowid.
fn test_rowids<S: Alter>(alloc: Global, tx: &mut Transaction<'_, S>) -> Result<(), KeepFault>
    ensures same_reference { tx.new.conn.ghost_name ≡ tx.old.conn.ghost_name }
    ensures found { HasCleanDisk (state S.Store tx.new.conn.now)
        → HasTables (state S.Store tx.old.conn.now).now.schema
        → OnOk result (HaveRowids ((state S.Store tx.old.conn.now).now.trees 1)) }
    ensures same { HasCleanDisk (state S.Store tx.new.conn.now)
        → HasTables (state S.Store tx.old.conn.now).now.schema
        → OnOk result ((state S.Store tx.new.conn.now).now ≡ (state S.Store tx.old.conn.now).now) }
    ensures kept { HasCleanDisk (state S.Store tx.new.conn.now)
        → HasTables (state S.Store tx.old.conn.now).now.schema
        → KeepsCommit (state S.Store tx.old.conn.now) (state S.Store tx.new.conn.now) }
    ensures clean { doubt (state S.Store tx.old.conn.now).is_clean
        ≤ doubt (state S.Store tx.new.conn.now).is_clean }
{
    match ask_all(tx, "SELECT rowid FROM link ORDER BY rowid") {
        Ok(rows) => test_numbers(alloc, rows.as_slice()),
        Err(error) => Err(fault_of(error)),
    }
}

/// The lists that a database with the store's tables holds, with or without the index. `Failed`
/// where it holds none: an id or a state is out of range, a name is no member's name, or two rows
/// have the same ids or the same rowid.
pub fn found_lists<S: Alter>(alloc: Global, tx: &mut Transaction<'_, S>) -> Result<Found, KeepFault>
    ensures same_reference { tx.new.conn.ghost_name ≡ tx.old.conn.ghost_name }
    ensures found { HasCleanDisk (state S.Store tx.new.conn.now)
        → HasTables (state S.Store tx.old.conn.now).now.schema → IfOk result (λ found.
        HoldLists (state S.Store tx.old.conn.now).now.trees
        (record { members = found.members.items; pairs = found.pairs.items })) }
    ensures same { HasCleanDisk (state S.Store tx.new.conn.now)
        → HasTables (state S.Store tx.old.conn.now).now.schema
        → OnOk result ((state S.Store tx.new.conn.now).now ≡ (state S.Store tx.old.conn.now).now) }
    ensures kept { HasCleanDisk (state S.Store tx.new.conn.now)
        → HasTables (state S.Store tx.old.conn.now).now.schema
        → KeepsCommit (state S.Store tx.old.conn.now) (state S.Store tx.new.conn.now) }
    ensures clean { doubt (state S.Store tx.old.conn.now).is_clean
        ≤ doubt (state S.Store tx.new.conn.now).is_clean }
{
    let members = found_members(alloc, tx)?;
    let pairs = found_pairs(alloc, tx)?;
    test_rowids(alloc, tx)?;
    Ok(Found { members, pairs })
}
