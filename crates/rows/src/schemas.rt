//! Tests whether a schema is that of the table, part by part.
ghost use Rattle.std.specs.Prelude.{◌≡◌, ◌↔◌, ◌∷◌, [], IsTrue, codes, None, false};
ghost use Rattle.sqlite_value.specs.Keys.{plain};
ghost use Rattle.sqlite.specs.declared.types.Value.TheVariants.{Null};
ghost use Rattle.rows.specs.Entries.{text_column, no_stamps, entry, entry_index, entry_schema};

use sqlite_items::Items;
use sqlite_schema::code::Terms;
use sqlite_schema::schema::{Column, Index, Kind, Schema, Stamps, Table};
use sqlite_value::keys::{Collation, Order};
use sqlite_value::value::Value;

fn is_null(value: &Value) -> bool
    ensures { IsTrue result ↔ (value.now ≡ Null) }
{
    match value {
        Value::Null => true,
        _ => false,
    }
}

fn is_text_column(column: &Column, name: &[u8]) -> bool
    ensures { IsTrue result ↔ (column.now ≡ text_column name.now) }
{
    column.name.as_slice() == name
        && column.kind == Kind::Text
        && column.is_strict
        && column.not_null
        && is_null(&column.default)
        && column.collation == Collation::Binary
}

fn are_columns(columns: &[Column]) -> bool
    ensures { IsTrue result ↔ (columns.now ≡ text_column (codes "key") ∷ text_column (codes "body") ∷ []) }
{
    match columns {
        [key, body] => is_text_column(key, b"key") && is_text_column(body, b"body"),
        _ => false,
    }
}

fn is_first(places: &[usize]) -> bool
    ensures { IsTrue result ↔ (places.now ≡ 1 ∷ []) }
{
    match places {
        [place] => *place == 1,
        _ => false,
    }
}

fn is_one_first(keys: &[Items<usize>]) -> bool
    ensures { IsTrue result ↔ (keys.now ≡ (1 ∷ []) ∷ []) }
{
    match keys {
        [places] => is_first(places.as_slice()),
        _ => false,
    }
}

fn is_one_plain(orders: &[Order]) -> bool
    ensures { IsTrue result ↔ (orders.now ≡ plain ∷ []) }
{
    match orders {
        [order] => order.digits == 0,
        _ => false,
    }
}

fn has_no_terms(terms: &Terms) -> bool
    ensures { IsTrue result ↔ (terms.now ≡ []) }
{
    terms.roots.is_empty()
}

fn has_no_stamps(stamps: &Stamps) -> bool
    ensures { IsTrue result ↔ (stamps.now ≡ no_stamps) }
{
    stamps.places.is_empty() && has_no_terms(&stamps.terms) && stamps.formats.is_empty()
}

// The first column is the primary key, and no other rule is unique.
fn is_keyed(table: &Table) -> bool
    ensures { IsTrue result ↔ (table.now ≡ record table.now {
      key = None;
      primary = 1 ∷ [];
      uniques = (1 ∷ []) ∷ [];
      orders = plain ∷ [];
    }) }
{
    table.key.is_none()
        && is_first(table.primary.as_slice())
        && is_one_first(table.uniques.as_slice())
        && is_one_plain(table.orders.as_slice())
}

// The table has no check, no reference, no computed default and no count.
fn has_no_rules(table: &Table) -> bool
    ensures { IsTrue result ↔ (table.now ≡ record table.now {
      checks = [];
      references = [];
      computed = [];
      stamps = no_stamps;
      is_counted = false;
    }) }
{
    has_no_terms(&table.checks)
        && table.references.is_empty()
        && table.computed.is_empty()
        && has_no_stamps(&table.stamps)
        && !table.is_counted
}

fn is_entry(table: &Table) -> bool
    ensures { IsTrue result ↔ (table.now ≡ entry) }
{
    table.name.as_slice() == b"entry".as_slice()
        && table.tree == 0
        && are_columns(table.columns.as_slice())
        && is_keyed(table)
        && has_no_rules(table)
}

fn is_entry_index(index: &Index) -> bool
    ensures { IsTrue result ↔ (index.now ≡ entry_index) }
{
    index.name.as_slice() == b"sqlite_autoindex_entry_1".as_slice()
        && index.tree == 1
        && index.table == 0
        && is_first(index.columns.as_slice())
        && index.order.digits == 0
        && index.is_unique
}

fn is_one_entry(tables: &[Table]) -> bool
    ensures { IsTrue result ↔ (tables.now ≡ entry ∷ []) }
{
    match tables {
        [table] => is_entry(table),
        _ => false,
    }
}

fn is_one_entry_index(indexes: &[Index]) -> bool
    ensures { IsTrue result ↔ (indexes.now ≡ entry_index ∷ []) }
{
    match indexes {
        [index] => is_entry_index(index),
        _ => false,
    }
}

/// Returns whether the schema is that of the table, with no other table, index or view.
pub fn is_entry_schema(schema: &Schema) -> bool
    ensures { IsTrue result ↔ (schema.now ≡ entry_schema) }
{
    if !is_one_entry(schema.tables.as_slice()) {
        return false;
    }
    if !is_one_entry_index(schema.indexes.as_slice()) {
        return false;
    }
    schema.views.is_empty()
}
