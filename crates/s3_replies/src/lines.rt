//! The lines of a reply's head, written one after another.

ghost use Rattle.std.specs.Prelude.{◌≡◌, ◌+◌, ◌*◌, ◌≤◌, if◌then◌else◌, ◌++◌, [], ◌∷◌, length, map, option_map, decimal};
ghost use Rattle.s3_replies.specs.Lines.{status_line, print_lines, flag, optional, quoted, value_of, value_length, room_with, metadata_line, tells_checksum, tells_freshness, is_overridden, type_left, checksum_line, entries_by, entries_told, line_if, line_room, told_of, all_told};
ghost use Rattle.s3_versions.specs.Metadata.{metadata_size};

use crate::room::Room;
use itoa::Buffer;
use s3_integrity::Checksum;
use s3_terms::Status;
use s3_versions::MetadataEntry;

/// Appends the status line, of 45 bytes at most.
#[tactic(auto, unfolding(crate::specs::Lines::status_line))]
pub(crate) fn write_status<R: Room>(out: &mut R, status: Status)
    requires { R.size out.old + 45 ≤ R.capacity out.old }
    ensures items { R.written out.new ≡ R.written out.old ++ status_line status }
    ensures bound { R.size out.new ≤ R.size out.old + 45 }
    ensures capacity { R.capacity out.old ≤ R.capacity out.new }
{
    let mut digits = Buffer::new();
    out.write(b"HTTP/1.1 ");
    out.write(digits.format(status.number()).as_bytes());
    out.write(b" ");
    out.write(status.reason().as_bytes());
    out.write(b"\r\n");
}

/// Appends a header line.
#[tactic(auto, unfolding(crate::specs::Lines::print_lines))]
pub(crate) fn write_line<R: Room>(out: &mut R, name: &str, value: &[u8])
    requires { R.size out.old + length name.now + length value.now + 4 ≤ R.capacity out.old }
    ensures items { R.written out.new ≡ R.written out.old ++ print_lines ((name.now, value.now) ∷ []) }
    ensures len { R.size out.new
        ≡ R.size out.old + length name.now + length value.now + 4 }
    ensures capacity { R.capacity out.old ≤ R.capacity out.new }
{
    out.write(name.as_bytes());
    out.write(b": ");
    out.write(value);
    out.write(b"\r\n");
}

/// Appends the line where the test holds.
#[tactic(auto, unfolding(crate::specs::Lines::print_lines))]
pub(crate) fn write_flag<R: Room>(out: &mut R, name: &str, value: &str, test: bool)
    requires { R.size out.old + length name.now + length value.now + 4 ≤ R.capacity out.old }
    ensures items { R.written out.new ≡ R.written out.old ++ print_lines (flag name.now value.now test) }
    ensures bound { R.size out.new
        ≤ R.size out.old + length name.now + length value.now + 4 }
    ensures capacity { R.capacity out.old ≤ R.capacity out.new }
{
    if test {
        write_line(out, name, value.as_bytes());
    }
}

/// Appends the line where there is a value; else nothing.
#[tactic(auto, unfolding(crate::specs::Lines::print_lines))]
pub(crate) fn write_optional<R: Room>(out: &mut R, name: &str, value: Option<&[u8]>)
    requires { R.size out.old + length name.now + value_length (value_of value) + 4 ≤ R.capacity out.old }
    ensures items { R.written out.new
        ≡ R.written out.old ++ print_lines (optional name.now (value_of value.entry)) }
    ensures bound { R.size out.new
        ≤ R.size out.old + length name.now + value_length (value_of value.entry) + 4 }
    ensures short { R.size out.new ≤ R.size out.old + room_with (length name.now + 4) (value_of value.entry) }
    ensures capacity { R.capacity out.old ≤ R.capacity out.new }
{
    if let Some(value) = value {
        write_line(out, name, value);
    }
}

/// Appends the line with the text in double quotes, where there is one.
#[tactic(auto, unfolding(crate::specs::Lines::print_lines))]
pub(crate) fn write_quoted<R: Room>(out: &mut R, name: &str, text: Option<&[u8]>)
    requires { R.size out.old + length name.now + value_length (value_of text) + 6 ≤ R.capacity out.old }
    ensures items { R.written out.new ≡ R.written out.old
        ++ print_lines (optional name.now (option_map quoted (value_of text.entry))) }
    ensures bound { R.size out.new
        ≤ R.size out.old + length name.now + value_length (value_of text.entry) + 6 }
    ensures short { R.size out.new ≤ R.size out.old + room_with (length name.now + 6) (value_of text.entry) }
    ensures capacity { R.capacity out.old ≤ R.capacity out.new }
{
    if let Some(text) = text {
        out.write(name.as_bytes());
        out.write(b": \"");
        out.write(text);
        out.write(b"\"\r\n");
    }
}

/// Appends the line with the number, where the test holds.
pub(crate) fn write_number<R: Room>(out: &mut R, name: &str, number: u64, test: bool)
    requires { R.size out.old + length name.now + 24 ≤ R.capacity out.old }
    ensures items { R.written out.new
        ≡ R.written out.old ++ print_lines (flag name.now (decimal number) test) }
    ensures bound { R.size out.new ≤ R.size out.old + length name.now + 24 }
    ensures capacity { R.capacity out.old ≤ R.capacity out.new }
{
    let mut digits = Buffer::new();
    write_flag(out, name, digits.format(number), test);
}

/// Which entries of metadata a head tells.
#[derive(Clone, Copy)]
pub(crate) enum Entries {
    /// All.
    All,
    /// All but those that tell a checksum.
    ButChecksums,
    /// Those that tell how long a cache may use what it keeps: `cache-control` and `expires`.
    Freshness,
}

impl Entries {
    /// Those of an object, whose checksums may be told.
    pub(crate) fn shown(tells_checksums: bool) -> Entries
        ensures { result ≡ entries_by tells_checksums }
    {
        if tells_checksums {
            Entries::All
        } else {
            Entries::ButChecksums
        }
    }

    /// Whether the entry is one of these.
    fn has(self, entry: &MetadataEntry) -> bool
        ensures { entries_told self (entry.now ∷ []) ≡ if result then entry.now ∷ [] else [] }
    {
        match self {
            Entries::All => true,
            Entries::ButChecksums => !tells_checksum(entry),
            Entries::Freshness => tells_freshness(entry),
        }
    }
}

/// Whether the entry tells a checksum of an object's bytes.
fn tells_checksum(entry: &MetadataEntry) -> bool
    ensures { result ≡ tells_checksum entry.now }
{
    entry.name().starts_with(b"x-amz-checksum-")
}

/// Whether the entry tells how long a cache may use what it keeps (RFC 9111, sections 5.2 and 5.3).
fn tells_freshness(entry: &MetadataEntry) -> bool
    ensures { result ≡ tells_freshness entry.now }
{
    entry.name() == b"cache-control".as_slice() || entry.name() == b"expires".as_slice()
}

/// Appends a header line whose name is one of bytes.
#[tactic(auto, unfolding(crate::specs::Lines::print_lines))]
fn write_pair<R: Room>(out: &mut R, name: &[u8], value: &[u8])
    requires { R.size out.old + length name.now + length value.now + 4 ≤ R.capacity out.old }
    ensures items { R.written out.new ≡ R.written out.old ++ print_lines ((name.now, value.now) ∷ []) }
    ensures len { R.size out.new
        ≡ R.size out.old + length name.now + length value.now + 4 }
    ensures capacity { R.capacity out.old ≤ R.capacity out.new }
{
    out.write(name);
    out.write(b": ");
    out.write(value);
    out.write(b"\r\n");
}

/// Appends the line of a checksum, where there is one.
#[tactic(auto, using(crate::proofs::LineLemmas::short_name), unfolding(crate::specs::Lines::print_lines))]
pub(crate) fn write_checksum<R: Room>(out: &mut R, sum: Option<Checksum>)
    requires { R.size out.old + 72 ≤ R.capacity out.old }
    ensures items { R.written out.new ≡ R.written out.old ++ print_lines (line_if (option_map checksum_line sum)) }
    ensures bound { R.size out.new ≤ R.size out.old + 72 }
    ensures short { R.size out.new ≤ R.size out.old + line_room (option_map checksum_line sum) }
    ensures capacity { R.capacity out.old ≤ R.capacity out.new }
{
    if let Some(sum) = sum {
        let text = sum.text();
        write_pair(out, sum.algorithm().header(), text.as_bytes());
    }
}

/// Appends the line of an entry of metadata, by its whole name.
#[tactic(auto, unfolding(crate::specs::Lines::print_lines))]
fn write_entry<R: Room>(out: &mut R, entry: &MetadataEntry)
    requires { R.size out.old + length entry.now.name + length entry.now.value + 4 ≤ R.capacity out.old }
    ensures items { R.written out.new ≡ R.written out.old ++ print_lines (metadata_line entry.now ∷ []) }
    ensures len { R.size out.new
        ≡ R.size out.old + length entry.now.name + length entry.now.value + 4 }
    ensures capacity { R.capacity out.old ≤ R.capacity out.new }
{
    write_pair(out, entry.name(), entry.value());
}

/// Whether a line of this name stands among these.
pub(crate) fn is_overridden(overrides: &[MetadataEntry], name: &[u8]) -> bool
    ensures { result ≡ is_overridden overrides.now name.now }
{
    match overrides {
        [] => false,
        [entry, rest @ ..] => entry.name() == name || is_overridden(rest, name),
    }
}

/// The media type, unless another one stands in its place.
pub(crate) fn type_left<'a>(overrides: &[MetadataEntry], kind: &'a [u8]) -> Option<&'a [u8]>
    ensures { value_of result ≡ type_left overrides.now kind.now }
{
    if is_overridden(overrides, b"content-type") {
        return None;
    }
    Some(kind)
}

/// Whether the entry is told: it is one of those, and none of the overrides stands in its place.
fn is_told(entry: &MetadataEntry, tells: Entries, overrides: &[MetadataEntry]) -> bool
    ensures { told_of tells overrides.now (entry.now ∷ []) ≡ if result then entry.now ∷ [] else [] }
{
    !is_overridden(overrides, entry.name()) && tells.has(entry)
}

/// Appends the line of an entry of metadata, where it is told.
#[tactic(auto, unfolding(crate::specs::Lines::print_lines))]
fn write_told<R: Room>(
    out: &mut R,
    entry: &MetadataEntry,
    tells: Entries,
    overrides: &[MetadataEntry],
)
    requires { R.size out.old + metadata_size (told_of tells overrides.now (entry.now ∷ []))
        + 4 * length (told_of tells overrides.now (entry.now ∷ [])) ≤ R.capacity out.old }
    ensures items { R.written out.new
        ≡ R.written out.old ++ print_lines (map metadata_line (told_of tells overrides.now (entry.now ∷ []))) }
    ensures bound { R.size out.new ≤ R.size out.old + metadata_size (told_of tells overrides.now (entry.now ∷ []))
        + 4 * length (told_of tells overrides.now (entry.now ∷ [])) }
    ensures capacity { R.capacity out.old ≤ R.capacity out.new }
{
    if is_told(entry, tells, overrides) {
        write_entry(out, entry);
    }
}

/// Appends the lines of the entries of metadata that are told. The cost is linear in both lists.
#[tactic(auto, unfolding(crate::specs::Lines::print_lines))]
fn write_metadata<R: Room>(
    out: &mut R,
    metadata: &[MetadataEntry],
    tells: Entries,
    overrides: &[MetadataEntry],
)
    requires { R.size out.old + metadata_size (told_of tells overrides.now metadata.now)
        + 4 * length (told_of tells overrides.now metadata.now) ≤ R.capacity out.old }
    ensures items { R.written out.new
        ≡ R.written out.old ++ print_lines (map metadata_line (told_of tells overrides.now metadata.now)) }
    ensures bound { R.size out.new ≤ R.size out.old + metadata_size (told_of tells overrides.now metadata.now)
        + 4 * length (told_of tells overrides.now metadata.now) }
    ensures capacity { R.capacity out.old ≤ R.capacity out.new }
{
    if let [entry, rest @ ..] = metadata {
        write_told(out, entry, tells, overrides);
        write_metadata(out, rest, tells, overrides);
    }
}

/// Appends the lines of the entries of metadata that are told, and behind them those that stand in the place of some of them.
pub(crate) fn write_all_metadata<R: Room>(
    out: &mut R,
    metadata: &[MetadataEntry],
    overrides: &[MetadataEntry],
    tells: Entries,
)
    requires { R.size out.old + metadata_size (all_told tells overrides.now metadata.now)
        + 4 * length (all_told tells overrides.now metadata.now) ≤ R.capacity out.old }
    ensures items { R.written out.new
        ≡ R.written out.old ++ print_lines (map metadata_line (all_told tells overrides.now metadata.now)) }
    ensures bound { R.size out.new ≤ R.size out.old + metadata_size (all_told tells overrides.now metadata.now)
        + 4 * length (all_told tells overrides.now metadata.now) }
    ensures capacity { R.capacity out.old ≤ R.capacity out.new }
{
    write_metadata(out, metadata, tells, overrides);
    write_metadata(out, overrides, tells, &[]);
}
