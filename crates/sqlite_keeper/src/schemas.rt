// Whether a database has the two tables of the store, as this keeper makes them.
ghost use Rattle.std.specs.Prelude.{◌≡◌, [], ◌∷◌, ◌⊎◌, false, Some, None, IsTrue};
ghost use Rattle.sqlite_tables.specs.Schema.{empty_schema, member_table, link_table, link_key, link_by_b};
ghost use Rattle.sqlite_tables.specs.Lists.{HasTables};
ghost use Rattle.sqlite_keeper.specs.Schemas.{state_rule, strict_column, link_index};

use crate::checks::is_state_rule;
use sqlite_schema::code::Terms;
use sqlite_schema::schema::{Column, Index, Kind, Schema, Table};
use sqlite_value::keys::Collation;
use sqlite_value::value::Value;

// Whether nothing was ever made in the database.
pub(crate) fn is_blank(schema: &Schema) -> bool
    ensures { IsTrue result → schema.now ≡ empty_schema }
{
    schema.tables.as_slice().is_empty()
        && schema.indexes.as_slice().is_empty()
        && schema.views.as_slice().is_empty()
}

// Whether the database has the two tables, with the index or without it, and nothing else.
pub(crate) fn has_tables(schema: &Schema) -> bool
    ensures { IsTrue result → HasTables schema.now }
{
    if !schema.views.as_slice().is_empty() {
        return false;
    }
    are_tables(schema.tables.as_slice()) && are_indexes(schema.indexes.as_slice())
}

// Whether the tables are those of the members and of the links.
fn are_tables(tables: &[Table]) -> bool
    ensures { IsTrue result → tables.now ≡ member_table ∷ link_table ∷ [] }
{
    match tables {
        [member, link] => is_member_table(member) && is_link_table(link),
        _ => false,
    }
}

// Whether the indexes are that of the key of the links, and, if it is there, the one by their second id.
fn are_indexes(indexes: &[Index]) -> bool
    ensures { IsTrue result
        → (indexes.now ≡ link_key ∷ []) ⊎ (indexes.now ≡ link_key ∷ link_by_b ∷ []) }
{
    match indexes {
        [key] => is_link_key(key),
        [key, second] => is_link_key(key) && is_link_by_b(second),
        _ => false,
    }
}

fn is_link_key(index: &Index) -> bool
    ensures { IsTrue result → index.now ≡ link_key }
{
    is_index(index, b"sqlite_autoindex_link_1", 2, &[1, 2], true)
}

fn is_link_by_b(index: &Index) -> bool
    ensures { IsTrue result → index.now ≡ link_by_b }
{
    is_index(index, b"link_by_b", 3, &[2, 1], false)
}

fn is_index(index: &Index, name: &[u8], tree: u32, columns: &[usize], is_unique: bool) -> bool
    ensures { IsTrue result → index.now ≡ link_index name.now tree columns.now is_unique }
{
    index.name.as_slice() == name
        && index.tree == tree
        && index.table == 1
        && index.columns.as_slice() == columns
        && index.order.digits == 0
        && index.is_unique == is_unique
}

fn is_member_table(table: &Table) -> bool
    ensures { IsTrue result → table.now ≡ member_table }
{
    is_named(table, b"member", 0)
        && are_member_columns(table.columns.as_slice())
        && has_member_key(table)
        && is_plain(table)
}

// Whether a table has this name and this tree.
fn is_named(table: &Table, name: &[u8], tree: u32) -> bool
    ensures name { IsTrue result → table.now.name ≡ name.now }
    ensures tree { IsTrue result → table.now.tree ≡ tree }
{
    table.name.as_slice() == name && table.tree == tree
}

// Whether the id is the key, and no rule is stated beside that.
fn has_member_key(table: &Table) -> bool
    ensures key { IsTrue result → table.now.key ≡ Some 0 }
    ensures primary { IsTrue result → table.now.primary ≡ 0 ∷ [] }
    ensures uniques { IsTrue result → table.now.uniques ≡ [] }
    ensures orders { IsTrue result → table.now.orders ≡ [] }
    ensures checks { IsTrue result → table.now.checks ≡ [] }
{
    table.key == Some(0)
        && table.primary.as_slice() == [0].as_slice()
        && table.uniques.as_slice().is_empty()
        && table.orders.as_slice().is_empty()
        && table.checks.roots.as_slice().is_empty()
}

fn are_member_columns(columns: &[Column]) -> bool
    ensures { IsTrue result → columns.now ≡ member_table.columns }
{
    match columns {
        [id, name] => {
            is_column(id, b"id", Kind::Integer, false) && is_column(name, b"name", Kind::Text, true)
        }
        _ => false,
    }
}

fn is_link_table(table: &Table) -> bool
    ensures { IsTrue result → table.now ≡ link_table }
{
    is_named(table, b"link", 1)
        && are_link_columns(table.columns.as_slice())
        && has_link_key(table)
        && has_pair_key(table)
        && are_state_rule(&table.checks)
        && is_plain(table)
}

// Whether the key is the pair of the two ids, and so none that is the rowid.
fn has_link_key(table: &Table) -> bool
    ensures key { IsTrue result → table.now.key ≡ None }
    ensures primary { IsTrue result → table.now.primary ≡ 1 ∷ 2 ∷ [] }
{
    table.key.is_none() && table.primary.as_slice() == [1, 2].as_slice()
}

fn are_link_columns(columns: &[Column]) -> bool
    ensures { IsTrue result → columns.now ≡ link_table.columns }
{
    match columns {
        [a, b, state] => {
            is_column(a, b"a", Kind::Integer, true)
                && is_column(b, b"b", Kind::Integer, true)
                && is_column(state, b"st", Kind::Integer, true)
        }
        _ => false,
    }
}

// Whether the one rule is that a state is one of the three numbers.
fn are_state_rule(checks: &Terms) -> bool
    ensures { IsTrue result → checks.now ≡ state_rule ∷ [] }
{
    let nodes = checks.nodes.as_slice();
    match checks.roots.as_slice() {
        [root] => nodes.len() >= 4 && is_state_rule(nodes, *root),
        _ => false,
    }
}

// Whether the one thing that is unique is the pair of the two ids, in plain order.
fn has_pair_key(table: &Table) -> bool
    ensures uniques { IsTrue result → table.now.uniques ≡ link_table.uniques }
    ensures orders { IsTrue result → table.now.orders ≡ link_table.orders }
{
    let keys = match table.uniques.as_slice() {
        [key] => matches!(key.as_slice(), [1, 2]),
        _ => false,
    };
    let orders = match table.orders.as_slice() {
        [order] => order.digits == 0,
        _ => false,
    };
    keys && orders
}

fn is_column(column: &Column, name: &[u8], kind: Kind, not_null: bool) -> bool
    ensures { IsTrue result → column.now ≡ strict_column name.now kind not_null }
{
    column.name.as_slice() == name
        && column.kind == kind
        && column.is_strict
        && column.not_null == not_null
        && matches!(column.default, Value::Null)
        && column.collation == Collation::Binary
}

// Whether the table refers to no other, has no default that is computed, and counts no rowids.
fn is_plain(table: &Table) -> bool
    ensures references { IsTrue result → table.now.references ≡ [] }
    ensures computed { IsTrue result → table.now.computed ≡ [] }
    ensures stamps { IsTrue result → table.now.stamps ≡ member_table.stamps }
    ensures is_counted { IsTrue result → table.now.is_counted ≡ false }
{
    table.references.as_slice().is_empty()
        && table.computed.as_slice().is_empty()
        && table.stamps.places.as_slice().is_empty()
        && table.stamps.terms.roots.as_slice().is_empty()
        && table.stamps.formats.as_slice().is_empty()
        && !table.is_counted
}
