//! Laws of what trees store.

ghost use Rattle.std.specs.Prelude.{◌≡◌};
ghost use Rattle.sqlite_trees.specs.Tree.{Trees};
ghost use Rattle.s3_rows.specs.Columns.{Tables};
ghost use Rattle.s3_stored_rows.specs.Unique.{AreUnique};
ghost use Rattle.s3_tables.specs.Stored.{Stores, tables_in};

/// A law, with nothing to run: trees that store tables store no others, and those are what is read in them.
pub fn stored_tables_are_one()
    ensures one { (db : Trees) (t u : Tables) → Stores db t → Stores db u → t ≡ u }
    ensures shown { (db : Trees) (t : Tables) → Stores db t → tables_in db ≡ t }
{}

/// A law, with nothing to run: what the schema keeps unique stands in stored tables once, and their rowids rise.
pub fn stored_rows_are_unique()
    ensures { (db : Trees) (t : Tables) → Stores db t → AreUnique t }
{}
