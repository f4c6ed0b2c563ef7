//! A query over the tables, which changes nothing.

ghost use Rattle.std.specs.Prelude.{IsTrue, IfOk, OnOk};
ghost use Rattle.sqlite.specs.State.{HasCleanDisk, Shown};
ghost use Rattle.sqlite.specs.Given.{IsPlain};
ghost use Rattle.sqlite.specs.Listing.{understood};
ghost use Rattle.sqlite.specs.Values.{bound};
ghost use Rattle.sqlite.specs.Held.{state};
ghost use Rattle.s3_tables.specs.Schema.{schema};
ghost use Rattle.s3_tables.specs.Keeping.{Keeps, Serves, Reads};

use sqlite::{Alter, Connection, Error, Row};
use sqlite_value::value::ValueRef;

/// All rows that a query shows.
pub(crate) fn query_in<S: Alter>(
    conn: &mut Connection<S>,
    sql: &str,
    params: &[ValueRef<'_>],
) -> Result<Vec<Row>, Error>
    requires plain { IsPlain (understood schema sql.now) }
    requires keeps { HasCleanDisk (state S.Store conn.old) → Keeps (state S.Store conn.old) }
    requires open { HasCleanDisk (state S.Store conn.old) → IsTrue (state S.Store conn.old).is_open }
    ensures shown { HasCleanDisk (state S.Store conn.new) → IfOk result (λ rows. Serves (state S.Store conn.old) × Shown sql.now (bound params.now) (state S.Store conn.old) (state S.Store conn.new) rows.items) }
    ensures stays { HasCleanDisk (state S.Store conn.new) → OnOk result (IsTrue (state S.Store conn.new).is_open) }
    ensures reads { Reads (state S.Store conn.old) (state S.Store conn.new) }
{
    conn.query_all(sql, params)
}
