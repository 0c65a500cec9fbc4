// A table as a program declares it, and whether parts of a schema are those of such tables: their
// columns, keys and indexes.
ghost use Rattle.std.specs.Prelude.{◌≡◌, ◌↔◌, [], ◌∷◌, None, Some, false, IfOk, IsTrue};
ghost use Rattle.sqlite_value.specs.Keys.{plain};
ghost use Rattle.sqlite_value.specs.declared.value.Value.TheVariants.{Null};
ghost use Rattle.office_schema.specs.Schema.{column_of, columns_of, index_of, table_by, HasKey};

use sqlite_items::Items;
use sqlite_schema::code::Terms;
use sqlite_schema::schema::{Column, Index, Kind, Stamps, Table};
use sqlite_value::keys::{Collation, Order};
use sqlite_value::value::Value;
use std::alloc::{AllocError, Global};

/// A table: its name, the tree of its rows, its key, and the names and kinds of its columns. All
/// columns are STRICT and NOT NULL.
#[derive(Clone, Copy)]
pub struct Declared {
    pub name: &'static str,
    pub tree: u32,
    pub key: TableKey,
    pub columns: &'static [(&'static str, Kind)],
}

/// The columns of a table that are its key.
#[derive(Clone, Copy)]
pub enum TableKey {
    /// The first column, which is the row's number.
    Number,
    /// The first two columns.
    Pair,
    /// The first two columns; and no two rows agree in the next three.
    PairAndTriple,
}

// Returns whether this is the table with this name, tree and key, and with columns of these names
// and kinds.
pub(crate) fn is_table(
    alloc: Global,
    table: &Table,
    name: &str,
    tree: u32,
    key: TableKey,
    columns: &[(&str, Kind)],
) -> Result<bool, AllocError>
    ensures { IfOk result
        (λ is. IsTrue is ↔ (table.now ≡ table_by key name.now tree (columns_of columns.now))) }
{
    Ok(
        has_key(table, key)
            && are_columns(table.columns.as_slice(), columns)
            && table.name.as_slice() == name.as_bytes()
            && table.tree == tree
            && is_plain(alloc, table)?,
    )
}

// Returns whether these are the columns of these names and kinds, in this order.
fn are_columns(columns: &[Column], wanted: &[(&str, Kind)]) -> bool
    ensures { IsTrue result ↔ (columns.now ≡ columns_of wanted.now) }
{
    match (columns, wanted) {
        ([], []) => true,
        ([column, columns @ ..], [(name, kind), wanted @ ..]) => {
            is_column(column, *kind, name.as_bytes()) && are_columns(columns, wanted)
        }
        _ => false,
    }
}

fn is_column(column: &Column, kind: Kind, name: &[u8]) -> bool
    ensures { IsTrue result ↔ (column.now ≡ column_of kind name.now) }
{
    column.name.as_slice() == name
        && column.kind == kind
        && column.is_strict
        && column.not_null
        && is_null(&column.default)
        && column.collation == Collation::Binary
}

fn is_null(value: &Value) -> bool
    ensures { IsTrue result ↔ (value.now ≡ Null) }
{
    match value {
        Value::Null => true,
        _ => false,
    }
}

fn has_key(table: &Table, key: TableKey) -> bool
    ensures { IsTrue result ↔ HasKey key table.now }
{
    match key {
        TableKey::Number => has_first_key(table),
        TableKey::Pair => has_pair_key(table),
        TableKey::PairAndTriple => has_seat_keys(table),
    }
}

fn has_first_key(table: &Table) -> bool
    ensures { IsTrue result ↔ ((table.now.key ≡ Some 0) × (table.now.primary ≡ 0 ∷ [])
        × (table.now.uniques ≡ []) × (table.now.orders ≡ [])) }
{
    is_first(table.key)
        && is_zero(table.primary.as_slice())
        && table.uniques.is_empty()
        && table.orders.is_empty()
}

fn has_pair_key(table: &Table) -> bool
    ensures { IsTrue result ↔ ((table.now.key ≡ None) × (table.now.primary ≡ 1 ∷ 2 ∷ [])
        × (table.now.uniques ≡ (1 ∷ 2 ∷ []) ∷ []) × (table.now.orders ≡ plain ∷ [])) }
{
    table.key.is_none()
        && is_pair(table.primary.as_slice())
        && has_one_pair(table.uniques.as_slice())
        && has_one_plain(table.orders.as_slice())
}

fn has_seat_keys(table: &Table) -> bool
    ensures { IsTrue result ↔ ((table.now.key ≡ None) × (table.now.primary ≡ 1 ∷ 2 ∷ [])
        × (table.now.uniques ≡ (1 ∷ 2 ∷ []) ∷ (3 ∷ 4 ∷ 5 ∷ []) ∷ [])
        × (table.now.orders ≡ plain ∷ plain ∷ [])) }
{
    table.key.is_none()
        && is_pair(table.primary.as_slice())
        && has_pair_and_triple(table.uniques.as_slice())
        && has_two_plain(table.orders.as_slice())
}

fn is_first(key: Option<usize>) -> bool
    ensures { IsTrue result ↔ (key ≡ Some 0) }
{
    match key {
        Some(at) => at == 0,
        None => false,
    }
}

fn is_zero(places: &[usize]) -> bool
    ensures { IsTrue result ↔ (places.now ≡ 0 ∷ []) }
{
    let [first] = places else {
        return false;
    };
    *first == 0
}

fn is_pair(places: &[usize]) -> bool
    ensures { IsTrue result ↔ (places.now ≡ 1 ∷ 2 ∷ []) }
{
    let [first, second] = places else {
        return false;
    };
    *first == 1 && *second == 2
}

fn has_one_pair(uniques: &[Items<usize>]) -> bool
    ensures { IsTrue result ↔ (uniques.now ≡ (1 ∷ 2 ∷ []) ∷ []) }
{
    let [key] = uniques else {
        return false;
    };
    is_pair(key.as_slice())
}

fn has_pair_and_triple(uniques: &[Items<usize>]) -> bool
    ensures { IsTrue result ↔ (uniques.now ≡ (1 ∷ 2 ∷ []) ∷ (3 ∷ 4 ∷ 5 ∷ []) ∷ []) }
{
    let [key, seat] = uniques else {
        return false;
    };
    is_pair(key.as_slice()) && is_triple(seat.as_slice())
}

fn is_triple(places: &[usize]) -> bool
    ensures { IsTrue result ↔ (places.now ≡ 3 ∷ 4 ∷ 5 ∷ []) }
{
    let [first, second, third] = places else {
        return false;
    };
    *first == 3 && *second == 4 && *third == 5
}

fn has_one_plain(orders: &[Order]) -> bool
    ensures { IsTrue result ↔ (orders.now ≡ plain ∷ []) }
{
    let [order] = orders else {
        return false;
    };
    order.digits == 0
}

fn has_two_plain(orders: &[Order]) -> bool
    ensures { IsTrue result ↔ (orders.now ≡ plain ∷ plain ∷ []) }
{
    let [first, second] = orders else {
        return false;
    };
    first.digits == 0 && second.digits == 0
}

// Returns whether a table has no CHECK, no reference, no computed default and no AUTOINCREMENT.
fn is_plain(alloc: Global, table: &Table) -> Result<bool, AllocError>
    ensures { IfOk result (λ is. IsTrue is ↔ ((table.now.checks ≡ []) × (table.now.references ≡ [])
        × (table.now.computed ≡ [])
        × (table.now.stamps ≡ record { places = []; terms = []; formats = [] })
        × (table.now.is_counted ≡ false))) }
{
    Ok(
        has_no_terms(alloc, &table.checks)?
            && table.references.is_empty()
            && table.computed.is_empty()
            && is_timeless(alloc, &table.stamps)?
            && !table.is_counted,
    )
}

// Returns whether no default reads the time.
fn is_timeless(alloc: Global, stamps: &Stamps) -> Result<bool, AllocError>
    ensures { IfOk result
        (λ is. IsTrue is ↔ (stamps.now ≡ record { places = []; terms = []; formats = [] })) }
{
    Ok(stamps.places.is_empty() && has_no_terms(alloc, &stamps.terms)? && stamps.formats.is_empty())
}

fn has_no_terms(alloc: Global, terms: &Terms) -> Result<bool, AllocError>
    ensures { IfOk result (λ is. IsTrue is ↔ (terms.now ≡ [])) }
{
    let lent = terms.lend(alloc)?;
    Ok(lent.roots.is_empty())
}

/// Returns whether this is the index, of this name and tree, of a key that is the first two columns
/// of the table of the tree `table`.
pub fn is_pair_index(index: &Index, name: &[u8], tree: u32, table: u32) -> bool
    ensures { IsTrue result ↔ (index.now ≡ index_of name.now tree table (1 ∷ 2 ∷ [])) }
{
    is_index(index, name, tree, table) && is_pair(index.columns.as_slice())
}

/// Returns whether this is the index, of this name and tree, that keeps the third, fourth and fifth
/// columns of the table of the tree `table` apart.
pub fn is_seat_index(index: &Index, name: &[u8], tree: u32, table: u32) -> bool
    ensures { IsTrue result ↔ (index.now ≡ index_of name.now tree table (3 ∷ 4 ∷ 5 ∷ [])) }
{
    is_index(index, name, tree, table) && is_triple(index.columns.as_slice())
}

fn is_index(index: &Index, name: &[u8], tree: u32, table: u32) -> bool
    ensures { IsTrue result ↔ (index.now ≡ index_of name.now tree table index.now.columns) }
{
    index.name.as_slice() == name
        && index.tree == tree
        && index.table == table
        && index.order.digits == 0
        && index.is_unique
}
