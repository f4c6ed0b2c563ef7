//! Which options a folder may stand beside.

ghost use Rattle.std.specs.Prelude.{◌≡◌, option_map};
ghost use Rattle.s3_settings.specs.Settings.{are_together, isnt_map};

/// Whether these options may stand together: a folder doesn't keep maps.
pub(crate) fn are_together(folder: Option<&str>, records: Option<&str>) -> bool
    ensures { result ≡ are_together (option_map (λ text. text.now) folder.entry) (option_map (λ text. text.now) records.entry) }
{
    match folder {
        Some(_) => isnt_map(records),
        None => true,
    }
}

// Whether an option doesn't name maps.
fn isnt_map(records: Option<&str>) -> bool
    ensures { result ≡ isnt_map (option_map (λ text. text.now) records.entry) }
{
    match records {
        Some(text) => text != "map",
        None => true,
    }
}
