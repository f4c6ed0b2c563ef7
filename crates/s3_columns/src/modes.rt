//! The number that stands for the versioning of a bucket.
ghost use Rattle.std.specs.Prelude.{◌≡◌, ◌≢◌, MatchOption};
ghost use Rattle.s3_versions.specs.declared.version.Versioning.{Versioning};
ghost use Rattle.s3_columns.specs.Columns.{mode_column, versioning_in};

use s3_versions::Versioning;

/// The number that stands for the versioning of a bucket: 0 where it is unversioned, 1 where versioning is enabled, and 2 where
/// it is suspended.
pub fn write_mode(versioning: Versioning) -> i64
    ensures { result ≡ mode_column versioning }
{
    match versioning {
        Versioning::Unversioned => 0,
        Versioning::Enabled => 1,
        Versioning::Suspended => 2,
    }
}

/// The versioning that a number stands for; `None` where it stands for none.
pub fn read_mode(column: i64) -> Option<Versioning>
    ensures value { MatchOption result
        ((versioning : Versioning) → column ≢ mode_column versioning)
        (λ versioning. column ≡ mode_column versioning) }
    ensures total { MatchOption result
        (versioning_in column ≡ Versioning.Unversioned)
        (λ versioning. versioning_in column ≡ versioning) }
{
    match column {
        0 => Some(Versioning::Unversioned),
        1 => Some(Versioning::Enabled),
        2 => Some(Versioning::Suspended),
        _ => None,
    }
}
