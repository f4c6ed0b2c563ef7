//! Changes that are made together.

ghost use Rattle.std.specs.Prelude.{IsTrue};
ghost use Rattle.sqlite.specs.State.{HasCleanDisk};
ghost use Rattle.sqlite.specs.Held.{state};
ghost use Rattle.s3_tables.specs.Keeping.{Keeps, Steps};
ghost use Rattle.s3_stored_rows.specs.Changes.{after_all};

use crate::changing::change_all;
use s3_stored_rows::Change;
use sqlite::{Alter, Connection, Error, ErrorCode};

/// Makes all changes in one transaction, or none.
pub(crate) fn apply_in<S: Alter>(conn: &mut Connection<S>, changes: &[Change]) -> Result<(), Error>
    requires keeps { HasCleanDisk (state S.Store conn.old) → Keeps (state S.Store conn.old) }
    requires open { HasCleanDisk (state S.Store conn.old) → IsTrue (state S.Store conn.old).is_open }
    ensures { Steps (after_all changes.now) (state S.Store conn.old) (state S.Store conn.new) result }
{
    if !conn.is_autocommit() {
        return Err(Error::SqliteFailure(ErrorCode::TransactionState));
    }
    let mut tx = conn.transaction();
    change_all(&mut tx, changes)?;
    tx.commit()
}
