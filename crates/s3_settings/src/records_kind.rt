//! How a server keeps its records.

ghost use Rattle.std.specs.Prelude.{◌≡◌, option_map};
ghost use Rattle.s3_settings.specs.Settings.{records_asked, records_named};

/// How a server keeps its records.
#[derive(Clone, Copy)]
pub enum RecordsKind {
    /// In maps.
    Map,
    /// In tables of SQLite.
    Sql,
}

/// The kind that an option names, `map` or `sql`, and maps without it; `None` where it names none.
pub(crate) fn records_asked(option: Option<&str>) -> Option<RecordsKind>
    ensures { result ≡ records_asked (option_map (λ text. text.now) option.entry) }
{
    match option {
        Some(text) => records_named(text),
        None => Some(RecordsKind::Map),
    }
}

// The kind of this name.
fn records_named(text: &str) -> Option<RecordsKind>
    ensures { result ≡ records_named text.now }
{
    match text {
        "map" => Some(RecordsKind::Map),
        "sql" => Some(RecordsKind::Sql),
        _ => None,
    }
}
