//! The number that stands for the id of a version.

ghost use Rattle.std.specs.Option.{SomeIff};
ghost use Rattle.s3_columns.specs.Columns.{HasColumn, id_column};

use s3_names::VersionId;

/// The number that stands for the id of a version: -1 for `null`, and else its number. `None` where the number is 2^63 or
/// more.
pub fn write_id(id: VersionId) -> Option<i64>
    ensures { SomeIff result (HasColumn id) (id_column id) }
{
    match id {
        VersionId::Null => Some(-1),
        VersionId::Numbered(number) => i64::try_from(number).ok(),
    }
}
