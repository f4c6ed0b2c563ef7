//! What puts one more value in a list or a tree, whatever its type. Where there is no memory, what is handed back is dropped
//! here, and so is a value that is replaced.
ghost use Rattle.std.specs.Prelude.{◌≡◌, Some, [], ◌∷◌, ◌++◌, IfOk, OnOk, OnErr};
ghost use Rattle.std.specs.BTreeMap.{Updates, IsUnchanged};

use s3_terms::NoMemory;
use std::collections::BTreeMap;

/// Adds a row, where it could be made, behind the rows there. `NoMemory` leaves them as they were.
pub(crate) fn push<T: Drop>(rows: &mut Vec<T>, made: Result<T, NoMemory>) -> Result<(), NoMemory>
    ensures ok { (row : T) → IfOk made (λ is. is ≡ row) → OnOk result (rows.new.items ≡ rows.old.items ++ row ∷ []) }
    ensures err { OnErr result (rows.new.items ≡ rows.old.items) }
{
    match made {
        Ok(row) => match rows.push(row) {
            Ok(()) => Ok(()),
            Err(failed) => {
                drop(failed);
                Err(NoMemory)
            }
        },
        Err(failed) => Err(failed),
    }
}

/// Puts a value, where it could be made, under a key, in the place of the one that is there. `NoMemory` leaves the tree as
/// it was.
pub(crate) fn put<K: Ord + Drop, V: Drop>(
    tree: &mut BTreeMap<K, V>,
    key: K,
    made: Result<V, NoMemory>,
) -> Result<(), NoMemory>
    ensures ok { (value : V) → IfOk made (λ is. is ≡ value) → OnOk result (Updates K.cmp tree.old tree.new key (Some value)) }
    ensures err { OnErr result (IsUnchanged tree.old tree.new) }
{
    match made {
        Ok(value) => match tree.insert(key, value) {
            Ok(former) => {
                drop(former);
                Ok(())
            }
            Err(failed) => {
                drop(failed);
                Err(NoMemory)
            }
        },
        Err(failed) => {
            drop(key);
            Err(failed)
        }
    }
}
