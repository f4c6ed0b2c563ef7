//! The key of the row before, as rows are told one after another.
ghost use Rattle.std.specs.Prelude.{◌≡◌};
ghost use Rattle.std.specs.Option.{option_copied};
ghost use Rattle.s3_rows.specs.VersionListLaws.{is_last};

/// Whether this is the key that was told last, if one was.
pub(crate) fn is_last(last: Option<&[u8]>, key: &[u8]) -> bool
    ensures { result ≡ is_last (option_copied last.entry) key.now }
{
    match last {
        None => false,
        Some(last) => last == key,
    }
}
