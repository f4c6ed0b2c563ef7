//! Whether a schema is that of the tables and nothing else.

ghost use Rattle.std.specs.Prelude.{◌≡◌, [], ◌∷◌, true, codes, IsTrue};
ghost use Rattle.sqlite_value.specs.declared.value.Value.TheVariants.{Null};
ghost use Rattle.sqlite_value.specs.declared.keys.Collation.TheVariants.{Binary};
ghost use Rattle.s3_tables.specs.Schema as spec;
ghost use Rattle.s3_tables.specs.Listed as listed;

use sqlite_items::Items;
use sqlite_schema::code::Terms;
use sqlite_schema::schema::{Column, Index, Kind, Schema, Table};
use sqlite_value::keys::{Collation, Order};
use sqlite_value::value::Value;

// ---- columns

fn is_column(column: &Column, name: &[u8], kind: Kind, not_null: bool) -> bool
    ensures { IsTrue result → column.now ≡ record { name = name.now; kind = kind; is_strict = true; not_null = not_null; default = Null; collation = Binary } }
{
    column.name.as_slice() == name
        && column.kind == kind
        && column.is_strict
        && column.not_null == not_null
        && matches!(column.default, Value::Null)
        && column.collation == Collation::Binary
}

fn is_row(column: &Column) -> bool
    ensures { IsTrue result → column.now ≡ spec.row_column }
{
    is_column(column, b"row", Kind::Integer, false)
}

fn is_number(column: &Column, name: &[u8]) -> bool
    ensures { IsTrue result → column.now ≡ spec.integers name.now }
{
    is_column(column, name, Kind::Integer, true)
}

fn is_blob(column: &Column, name: &[u8]) -> bool
    ensures { IsTrue result → column.now ≡ spec.blobs name.now }
{
    is_column(column, name, Kind::Blob, true)
}

fn are_of_buckets(columns: &[Column]) -> bool
    ensures { IsTrue result → columns.now ≡ spec.row_column ∷ spec.bucket_list }
{
    match columns {
        [row, name, made, mode] => {
            is_row(row)
                && is_blob(name, b"name")
                && is_number(made, b"made")
                && is_number(mode, b"mode")
        }
        _ => false,
    }
}

// The first columns of a table whose rows stand under a key.
fn are_at_a_key(row: &Column, bucket: &Column, key: &Column) -> bool
    ensures { IsTrue result → (row.now ≡ spec.row_column) × (bucket.now ≡ spec.blobs (codes "bucket")) × (key.now ≡ spec.blobs (codes "key")) }
{
    is_row(row) && is_blob(bucket, b"bucket") && is_blob(key, b"key")
}

fn are_version_numbers(number: &Column, id: &Column, moment: &Column, marker: &Column) -> bool
    ensures { IsTrue result → (number.now ≡ spec.integers (codes "number")) × (id.now ≡ spec.integers (codes "id")) × (moment.now ≡ spec.integers (codes "moment")) × (marker.now ≡ spec.integers (codes "marker")) }
{
    is_number(number, b"number")
        && is_number(id, b"id")
        && is_number(moment, b"moment")
        && is_number(marker, b"marker")
}

fn are_version_contents(tag: &Column, kept: &Column, size: &Column, bodies: &Column) -> bool
    ensures { IsTrue result → (tag.now ≡ spec.blobs (codes "tag")) × (kept.now ≡ spec.blobs (codes "kept")) × (size.now ≡ spec.integers (codes "size")) × (bodies.now ≡ spec.blobs (codes "bodies")) }
{
    is_blob(tag, b"tag")
        && is_blob(kept, b"kept")
        && is_number(size, b"size")
        && is_blob(bodies, b"bodies")
}

fn are_of_versions(columns: &[Column]) -> bool
    ensures { IsTrue result → columns.now ≡ spec.row_column ∷ spec.version_list }
{
    match columns {
        [
            row,
            bucket,
            key,
            number,
            id,
            moment,
            marker,
            tag,
            kept,
            size,
            bodies,
        ] => {
            if !are_at_a_key(row, bucket, key) {
                return false;
            }
            if !are_version_numbers(number, id, moment, marker) {
                return false;
            }
            are_version_contents(tag, kept, size, bodies)
        }
        _ => false,
    }
}

fn are_upload_contents(id: &Column, moment: &Column, kept: &Column) -> bool
    ensures { IsTrue result → (id.now ≡ spec.integers (codes "id")) × (moment.now ≡ spec.integers (codes "moment")) × (kept.now ≡ spec.blobs (codes "kept")) }
{
    is_number(id, b"id") && is_number(moment, b"moment") && is_blob(kept, b"kept")
}

fn are_of_uploads(columns: &[Column]) -> bool
    ensures { IsTrue result → columns.now ≡ spec.row_column ∷ spec.upload_list }
{
    match columns {
        [row, bucket, key, id, moment, kept] => {
            if !are_at_a_key(row, bucket, key) {
                return false;
            }
            are_upload_contents(id, moment, kept)
        }
        _ => false,
    }
}

fn are_at_a_part(row: &Column, upload: &Column, part: &Column) -> bool
    ensures { IsTrue result → (row.now ≡ spec.row_column) × (upload.now ≡ spec.integers (codes "upload")) × (part.now ≡ spec.integers (codes "part")) }
{
    is_row(row) && is_number(upload, b"upload") && is_number(part, b"part")
}

fn are_part_contents(digest: &Column, moment: &Column, size: &Column, bodies: &Column) -> bool
    ensures { IsTrue result → (digest.now ≡ spec.blobs (codes "digest")) × (moment.now ≡ spec.integers (codes "moment")) × (size.now ≡ spec.integers (codes "size")) × (bodies.now ≡ spec.blobs (codes "bodies")) }
{
    is_blob(digest, b"digest")
        && is_number(moment, b"moment")
        && is_number(size, b"size")
        && is_blob(bodies, b"bodies")
}

fn are_of_parts(columns: &[Column]) -> bool
    ensures { IsTrue result → columns.now ≡ spec.row_column ∷ spec.part_list }
{
    match columns {
        [row, upload, part, digest, moment, size, bodies] => {
            if !are_at_a_part(row, upload, part) {
                return false;
            }
            are_part_contents(digest, moment, size, bodies)
        }
        _ => false,
    }
}

fn are_of_store(columns: &[Column]) -> bool
    ensures { IsTrue result → columns.now ≡ spec.row_column ∷ spec.store_list }
{
    match columns {
        [row, form, number] => {
            is_row(row) && is_number(form, b"form") && is_number(number, b"number")
        }
        _ => false,
    }
}

// ---- keys, and the orders of their indexes

fn is_one_key(keys: &[Items<usize>], places: &[usize]) -> bool
    ensures { IsTrue result → keys.now ≡ places.now ∷ [] }
{
    match keys {
        [key] => key.as_slice() == places,
        _ => false,
    }
}

fn are_two_keys(keys: &[Items<usize>], first: &[usize], second: &[usize]) -> bool
    ensures { IsTrue result → keys.now ≡ first.now ∷ second.now ∷ [] }
{
    match keys {
        [one, two] => one.as_slice() == first && two.as_slice() == second,
        _ => false,
    }
}

fn is_one_plain(orders: &[Order]) -> bool
    ensures { IsTrue result → orders.now ≡ spec.bucket_orders }
{
    match orders {
        [order] => order.digits == 0,
        _ => false,
    }
}

fn are_of_version_keys(orders: &[Order]) -> bool
    ensures { IsTrue result → orders.now ≡ spec.version_orders }
{
    match orders {
        [number, id] => number.digits == 64 && id.digits == 0,
        _ => false,
    }
}

// ---- tables

fn has_no_terms(terms: &Terms) -> bool
    ensures { IsTrue result → terms.now ≡ [] }
{
    terms.roots.is_empty()
}

fn has_no_rules(table: &Table) -> bool
    ensures { IsTrue result → (table.now.checks ≡ []) × (table.now.references ≡ []) × (table.now.computed ≡ []) × (table.now.stamps ≡ spec.store_table.stamps) × (table.now.is_counted ≡ spec.store_table.is_counted) }
{
    has_no_terms(&table.checks)
        && table.references.is_empty()
        && table.computed.is_empty()
        && table.stamps.places.is_empty()
        && has_no_terms(&table.stamps.terms)
        && table.stamps.formats.is_empty()
        && !table.is_counted
}

// With these columns, keys and orders, whatever they are.
fn is_table(table: &Table, name: &[u8], tree: u32) -> bool
    ensures { IsTrue result → table.now ≡ record { name = name.now; tree = tree; columns = table.now.columns; key = spec.store_table.key; primary = spec.store_table.primary; uniques = table.now.uniques; orders = table.now.orders; checks = []; references = []; computed = []; stamps = spec.store_table.stamps; is_counted = spec.store_table.is_counted } }
{
    table.name.as_slice() == name
        && table.tree == tree
        && table.key == Some(0)
        && table.primary.as_slice() == [0].as_slice()
        && has_no_rules(table)
}

fn is_of_buckets(table: &Table) -> bool
    ensures { IsTrue result → table.now ≡ record spec.bucket_table { tree = 0 } }
{
    is_table(table, b"buckets", 0)
        && are_of_buckets(table.columns.as_slice())
        && is_one_key(table.uniques.as_slice(), &[2])
        && is_one_plain(table.orders.as_slice())
}

fn is_of_versions(table: &Table) -> bool
    ensures { IsTrue result → table.now ≡ record spec.version_table { tree = 2 } }
{
    is_table(table, b"versions", 2)
        && are_of_versions(table.columns.as_slice())
        && are_two_keys(table.uniques.as_slice(), &[2, 3, 4], &[2, 3, 5])
        && are_of_version_keys(table.orders.as_slice())
}

fn is_of_uploads(table: &Table) -> bool
    ensures { IsTrue result → table.now ≡ record spec.upload_table { tree = 5 } }
{
    is_table(table, b"uploads", 5)
        && are_of_uploads(table.columns.as_slice())
        && is_one_key(table.uniques.as_slice(), &[2, 3, 4])
        && is_one_plain(table.orders.as_slice())
}

fn is_of_parts(table: &Table) -> bool
    ensures { IsTrue result → table.now ≡ record spec.part_table { tree = 7 } }
{
    is_table(table, b"parts", 7)
        && are_of_parts(table.columns.as_slice())
        && is_one_key(table.uniques.as_slice(), &[2, 3])
        && is_one_plain(table.orders.as_slice())
}

fn is_of_store(table: &Table) -> bool
    ensures { IsTrue result → table.now ≡ record spec.store_table { tree = 9 } }
{
    is_table(table, b"store", 9)
        && are_of_store(table.columns.as_slice())
        && table.uniques.is_empty()
        && table.orders.is_empty()
}

fn are_tables(tables: &[Table]) -> bool
    ensures { IsTrue result → tables.now ≡ listed.table_list }
{
    match tables {
        [buckets, versions, uploads, parts, store] => {
            is_of_buckets(buckets)
                && is_of_versions(versions)
                && is_of_uploads(uploads)
                && is_of_parts(parts)
                && is_of_store(store)
        }
        _ => false,
    }
}

// ---- indexes

fn is_index(
    index: &Index,
    name: &[u8],
    tree: u32,
    table: u32,
    columns: &[usize],
    digits: u64,
) -> bool
    ensures { IsTrue result → index.now ≡ record { name = name.now; tree = tree; table = table; columns = columns.now; order = record { digits = digits }; is_unique = true } }
{
    index.name.as_slice() == name
        && index.tree == tree
        && index.table == table
        && index.columns.as_slice() == columns
        && index.order.digits == digits
        && index.is_unique
}

fn are_of_objects(name: &Index, number: &Index, id: &Index) -> bool
    ensures { IsTrue result → (name.now ≡ listed.name_index) × (number.now ≡ listed.number_index) × (id.now ≡ listed.id_index) }
{
    is_index(name, b"sqlite_autoindex_buckets_1", 1, 0, &[2], 0)
        && is_index(number, b"sqlite_autoindex_versions_1", 3, 2, &[2, 3, 4], 64)
        && is_index(id, b"sqlite_autoindex_versions_2", 4, 2, &[2, 3, 5], 0)
}

fn are_of_multipart(upload: &Index, part: &Index) -> bool
    ensures { IsTrue result → (upload.now ≡ listed.upload_index) × (part.now ≡ listed.part_index) }
{
    is_index(upload, b"sqlite_autoindex_uploads_1", 6, 5, &[2, 3, 4], 0)
        && is_index(part, b"sqlite_autoindex_parts_1", 8, 7, &[2, 3], 0)
}

fn are_indexes(indexes: &[Index]) -> bool
    ensures { IsTrue result → indexes.now ≡ listed.index_list }
{
    match indexes {
        [name, number, id, upload, part] => {
            if !are_of_objects(name, number, id) {
                return false;
            }
            are_of_multipart(upload, part)
        }
        _ => false,
    }
}

/// Whether the schema has the tables and their indexes, column by column, and nothing else.
pub(crate) fn is_ours(schema: &Schema) -> bool
    ensures { IsTrue result → schema.now ≡ spec.schema }
{
    if !are_tables(schema.tables.as_slice()) {
        return false;
    }
    if !are_indexes(schema.indexes.as_slice()) {
        return false;
    }
    schema.views.is_empty()
}
