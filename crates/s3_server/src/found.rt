//! What the log of a server tells of its folder, once that was opened.

ghost use Rattle.std.specs.Prelude.{◌≡◌, ◌∷◌, [], ◌++◌, IfOk, option_map};
ghost use Rattle.s3_documents.specs.Printed.{fields_of, value_of};
ghost use Rattle.s3_documents.specs.Tree.{leaves, number, tree_text};
ghost use Rattle.s3_text.specs.Characters.{line_feed};
ghost use Rattle.s3_server.specs.Found.{found_fields};

use s3_documents::{Field, Leaf, Printer};
use s3_keepers::FoundAmounts;
use s3_terms::NoMemory;
use std::alloc::Global;

// What the line takes whose folder has no long path.
const ROOM: usize = 256;

/// The line that tells what was found in the folder at a path, and how many microseconds its opening took, where a clock told
/// that.
pub(crate) fn found_line(
    alloc: Global,
    path: &str,
    found: FoundAmounts,
    microseconds: Option<u64>,
) -> Result<Vec<u8>, NoMemory>
    ensures { IfOk result (λ line. line.items ≡ tree_text (leaves (found_fields path.now found microseconds)) ++ line_feed ∷ []) }
{
    let mut line = document_of(alloc, path, found, microseconds)?;
    line.push(b'\n')?;
    Ok(line)
}

// The document that tells this, and nothing else.
fn document_of(
    alloc: Global,
    path: &str,
    found: FoundAmounts,
    microseconds: Option<u64>,
) -> Result<Vec<u8>, NoMemory>
    ensures { IfOk result (λ text. text.items ≡ tree_text (leaves (found_fields path.now found microseconds))) }
{
    let mut printer = Printer::new(alloc, ROOM)?;
    printer.fields(&fields_told(path, found, microseconds))?;
    Ok(printer.finish()?)
}

fn fields_told(path: &str, found: FoundAmounts, microseconds: Option<u64>) -> [Field<'_>; 5]
    ensures { fields_of result ≡ found_fields path.now found microseconds }
{
    [
        Field {
            name: "opened",
            value: Leaf::Text(path),
        },
        Field {
            name: "versions",
            value: Leaf::Number(found.versions),
        },
        Field {
            name: "bytes",
            value: Leaf::Number(found.bytes),
        },
        Field {
            name: "free",
            value: Leaf::Number(found.free),
        },
        Field {
            name: "microseconds",
            value: count_leaf(microseconds),
        },
    ]
}

// A number, if there is one.
fn count_leaf<'a>(count: Option<u64>) -> Leaf<'a>
    ensures { value_of result ≡ option_map number count }
{
    match count {
        Some(count) => Leaf::Number(count),
        None => Leaf::Absent,
    }
}
