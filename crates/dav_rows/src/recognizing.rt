//! Recognizes the tables of the store.
ghost use Rattle.std.specs.Prelude.{◌≡◌, ◌↔◌, [], ◌∷◌, true, map, codes, IsTrue};
ghost use Rattle.sqlite.specs.Collation.TheVariants.{Binary};
ghost use Rattle.sqlite.specs.declared.types.Value.TheVariants.{Null};
ghost use Rattle.dav_rows.specs.Tables.{key, filled_by, HasNoRules, numbered, resource_columns, extent_columns, property_columns, lock_columns, state_columns, note_columns, rows_tables, rows_schema, older_tables, older_schema, no_schema};

use sqlite_schema::schema::{Column, Kind, Schema, Table};
use sqlite_value::keys::Collation;
use sqlite_value::value::Value;

/// Whether the database has the tables of the store, and nothing else.
pub(crate) fn is_ours(schema: &Schema) -> bool
    ensures { IsTrue result ↔ (schema.now ≡ rows_schema) }
{
    are_ours(schema.tables.as_slice()) && schema.indexes.is_empty() && schema.views.is_empty()
}

/// Whether the database has the tables of version 1, and nothing else.
pub(crate) fn is_older(schema: &Schema) -> bool
    ensures { IsTrue result ↔ (schema.now ≡ older_schema) }
{
    are_older(schema.tables.as_slice()) && schema.indexes.is_empty() && schema.views.is_empty()
}

/// Whether the database has no table, index or view.
pub(crate) fn is_blank(schema: &Schema) -> bool
    ensures { IsTrue result ↔ (schema.now ≡ no_schema) }
{
    schema.tables.is_empty() && schema.indexes.is_empty() && schema.views.is_empty()
}

fn are_ours(tables: &[Table]) -> bool
    ensures { IsTrue result ↔ (tables.now ≡ rows_tables) }
{
    tables.len() == 6
        && is_resource(&tables[0])
        && is_extent(&tables[1])
        && is_property(&tables[2])
        && is_lock(&tables[3])
        && is_state(&tables[4])
        && is_note(&tables[5])
}

fn are_older(tables: &[Table]) -> bool
    ensures { IsTrue result ↔ (tables.now ≡ older_tables) }
{
    tables.len() == 5
        && is_resource(&tables[0])
        && is_extent(&tables[1])
        && is_property(&tables[2])
        && is_lock(&tables[3])
        && is_state(&tables[4])
}

fn is_resource(table: &Table) -> bool
    ensures { IsTrue result ↔ (table.now ≡ numbered (codes "resource") 0 resource_columns) }
{
    is_numbered(
        table,
        "resource",
        0,
        &[
            ("parent", Kind::Integer),
            ("name", Kind::Text),
            ("directory", Kind::Integer),
            ("size", Kind::Integer),
            ("version", Kind::Integer),
            ("created", Kind::Integer),
            ("modified", Kind::Integer),
        ],
    )
}

fn is_extent(table: &Table) -> bool
    ensures { IsTrue result ↔ (table.now ≡ numbered (codes "extent") 1 extent_columns) }
{
    is_numbered(
        table,
        "extent",
        1,
        &[
            ("resource", Kind::Integer),
            ("place", Kind::Integer),
            ("pieces", Kind::Blob),
        ],
    )
}

fn is_property(table: &Table) -> bool
    ensures { IsTrue result ↔ (table.now ≡ numbered (codes "property") 2 property_columns) }
{
    is_numbered(
        table,
        "property",
        2,
        &[
            ("resource", Kind::Integer),
            ("namespace", Kind::Text),
            ("name", Kind::Text),
            ("element", Kind::Blob),
        ],
    )
}

fn is_lock(table: &Table) -> bool
    ensures { IsTrue result ↔ (table.now ≡ numbered (codes "lock") 3 lock_columns) }
{
    is_numbered(
        table,
        "lock",
        3,
        &[
            ("token", Kind::Text),
            ("path", Kind::Text),
            ("lock", Kind::Blob),
        ],
    )
}

fn is_state(table: &Table) -> bool
    ensures { IsTrue result ↔ (table.now ≡ numbered (codes "state") 4 state_columns) }
{
    is_numbered(
        table,
        "state",
        4,
        &[
            ("counter", Kind::Integer),
            ("time", Kind::Integer),
            ("batch", Kind::Integer),
            ("digest_key", Kind::Integer),
        ],
    )
}

fn is_note(table: &Table) -> bool
    ensures { IsTrue result ↔ (table.now ≡ numbered (codes "note") 5 note_columns) }
{
    is_numbered(
        table,
        "note",
        5,
        &[
            ("kind", Kind::Integer),
            ("owner", Kind::Integer),
            ("value", Kind::Blob),
        ],
    )
}

/// Whether the table has the name, the tree, and these columns behind its number.
fn is_numbered(table: &Table, name: &str, tree: u32, columns: &[(&str, Kind)]) -> bool
    ensures { IsTrue result ↔ (table.now ≡ numbered name.now tree (map filled_by columns.now)) }
{
    table.name.as_slice() == name.as_bytes()
        && table.tree == tree
        && are_columns(table.columns.as_slice(), columns)
        && table.key == Some(0)
        && is_first(table.primary.as_slice())
        && has_no_rules(table)
}

/// Whether it is the place 0 alone.
fn is_first(places: &[usize]) -> bool
    ensures { IsTrue result ↔ (places.now ≡ 0 ∷ []) }
{
    places.len() == 1 && places[0] == 0
}

fn has_no_rules(table: &Table) -> bool
    ensures { IsTrue result ↔ HasNoRules table.now }
{
    table.uniques.is_empty()
        && table.orders.is_empty()
        && table.checks.roots.is_empty()
        && table.references.is_empty()
        && table.computed.is_empty()
        && table.stamps.places.is_empty()
        && table.stamps.terms.roots.is_empty()
        && table.stamps.formats.is_empty()
        && !table.is_counted
}

/// Whether the first column is the number, and the others are these, which are never NULL.
fn are_columns(columns: &[Column], others: &[(&str, Kind)]) -> bool
    ensures { IsTrue result ↔ (columns.now ≡ key ∷ map filled_by others.now) }
{
    columns.len() > 0
        && is_column(&columns[0], "number", Kind::Integer, false)
        && are_filled(&columns[1..], others)
}

fn are_filled(columns: &[Column], wanted: &[(&str, Kind)]) -> bool
    ensures { IsTrue result ↔ (columns.now ≡ map filled_by wanted.now) }
{
    if columns.len() != wanted.len() {
        return false;
    }
    'columns: for at in 0..wanted.len() {
        if !is_column(&columns[at], wanted[at].0, wanted[at].1, true) {
            return false;
        }
    }
    true
}

fn is_column(column: &Column, name: &str, kind: Kind, not_null: bool) -> bool
    ensures { IsTrue result
        ↔ (column.now ≡ record { name = name.now; kind = kind; is_strict = true; not_null = not_null; default = Null; collation = Binary }) }
{
    column.name.as_slice() == name.as_bytes()
        && column.kind == kind
        && column.is_strict
        && column.not_null == not_null
        && matches!(&column.default, Value::Null)
        && column.collation == Collation::Binary
}
