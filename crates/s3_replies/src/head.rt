//! The head of a reply: its status line and its header lines.

ghost use Rattle.std.specs.Prelude.{◌≡◌, ◌≤◌, ◌+◌, [], ◌++◌};
ghost use Rattle.s3_replies.specs.Head.{fields_of, bare, opening_lines, version_lines, body_lines, print_head, HasRoomFor, version_room, body_room, head_room};
ghost use Rattle.s3_replies.specs.Lines.{print_lines};

use crate::date::DateText;
use crate::lines::{
    Entries, write_all_metadata, write_checksum, write_flag, write_line, write_number,
    write_optional, write_quoted, write_status,
};
use crate::room::Room;
use s3_integrity::Checksum;
use s3_terms::{Dialect, Status};
use s3_text::number_digits;
use s3_versions::MetadataEntry;

/// No head is longer.
pub(crate) const HEAD_MAX: usize = 7_935;

/// How a message fared, who answers it, and when: what each head has to say; and how a document behind it is spelled.
#[derive(Clone, Copy)]
pub(crate) struct Opening {
    pub status: Status,
    /// The number of the entry, 0 where there is none.
    pub number: u64,
    /// The connection ends with the reply.
    pub closes: bool,
    /// The date of HTTP at which the reply is made.
    pub date: DateText,
    /// How the document of the reply is spelled.
    pub dialect: Dialect,
    /// Whether the checksums are told that are kept with an object whose bytes are all shown.
    pub tells_checksums: bool,
    /// The checksum of what is stored, if one was found.
    pub checksum: Option<Checksum>,
}

/// What a head says, in the order of its lines. Contracts see it as `fields_of` it.
#[derive(Drop)]
pub(crate) struct Head<'a> {
    pub status: Status,
    /// The date of HTTP at which the reply is made.
    pub date: &'a [u8],
    /// The connection ends with the reply.
    pub closes: bool,
    /// The number of the entry, 0 where there is none.
    pub number: u64,
    pub version_id: Option<&'a [u8]>,
    /// The id of the version that was copied.
    pub source_version_id: Option<&'a [u8]>,
    pub is_delete_marker: bool,
    /// The region of a bucket.
    pub region: Option<&'a [u8]>,
    pub location: Option<&'a [u8]>,
    /// The tag, without its double quotes.
    pub tag: Option<&'a [u8]>,
    /// The checksum of what is stored.
    pub checksum: Option<Checksum>,
    /// The date of HTTP at which the object was made.
    pub modified: Option<&'a [u8]>,
    pub accepts_ranges: bool,
    pub content_range: Option<&'a [u8]>,
    pub content_type: Option<&'a [u8]>,
    /// What is kept with an object, sorted by name.
    pub metadata: &'a [MetadataEntry],
    /// What stands in the place of some of that.
    pub overrides: &'a [MetadataEntry],
    /// Which entries of both it tells.
    pub tells: Entries,
    /// The size of the body, also where that is not sent.
    pub size: u64,
}

impl<'a> Head<'a> {
    /// A head that says what every head has to say, of an empty body.
    pub(crate) fn bare(opening: &'a Opening) -> Head<'a>
        ensures { fields_of result ≡ bare opening.now }
    {
        Head {
            status: opening.status,
            date: opening.date.as_bytes(),
            closes: opening.closes,
            number: opening.number,
            version_id: None,
            source_version_id: None,
            is_delete_marker: false,
            region: None,
            location: None,
            tag: None,
            checksum: None,
            modified: None,
            accepts_ranges: false,
            content_range: None,
            content_type: None,
            metadata: &[],
            overrides: &[],
            tells: Entries::All,
            size: 0,
        }
    }

    /// Appends the head: at most `head_room` bytes, and never more than `HEAD_MAX`.
    pub(crate) fn print<R: Room>(&self, out: &mut R)
        requires fits { HasRoomFor (fields_of self.now) }
        requires room { R.size out.old + HEAD_MAX ≤ R.capacity out.old }
        ensures items { R.written out.new ≡ R.written out.old ++ print_head (fields_of self.now) }
        ensures bound { R.size out.new ≤ R.size out.old + HEAD_MAX }
        ensures short { R.size out.new ≤ R.size out.old + head_room (fields_of self.now) }
        ensures capacity { R.capacity out.old ≤ R.capacity out.new }
    {
        write_status(out, self.status);
        self.write_opening(out);
        self.write_version(out);
        self.write_body_lines(out);
        out.write(b"\r\n");
    }

    /// Appends the lines that say who answers, and when: 92 bytes at most.
    fn write_opening<R: Room>(&self, out: &mut R)
        requires fits { HasRoomFor (fields_of self.now) }
        requires room { R.size out.old + 92 ≤ R.capacity out.old }
        ensures items { R.written out.new
            ≡ R.written out.old ++ print_lines (opening_lines (fields_of self.now)) }
        ensures bound { R.size out.new ≤ R.size out.old + 92 }
        ensures capacity { R.capacity out.old ≤ R.capacity out.new }
    {
        write_line(out, "Date", self.date);
        write_flag(out, "Connection", "close", self.closes);
        write_line(out, "x-amz-request-id", &number_digits(self.number));
    }

    /// Appends the lines that tell of a bucket, an object or its version: 444 bytes at most, and no more than what they say needs.
    fn write_version<R: Room>(&self, out: &mut R)
        requires fits { HasRoomFor (fields_of self.now) }
        requires room { R.size out.old + 444 ≤ R.capacity out.old }
        ensures items { R.written out.new
            ≡ R.written out.old ++ print_lines (version_lines (fields_of self.now)) }
        ensures bound { R.size out.new ≤ R.size out.old + 444 }
        ensures short { R.size out.new ≤ R.size out.old + version_room (fields_of self.now) }
        ensures capacity { R.capacity out.old ≤ R.capacity out.new }
    {
        write_optional(out, "x-amz-version-id", self.version_id);
        write_optional(out, "x-amz-copy-source-version-id", self.source_version_id);
        write_flag(out, "x-amz-delete-marker", "true", self.is_delete_marker);
        write_optional(out, "x-amz-bucket-region", self.region);
        write_optional(out, "Location", self.location);
        write_quoted(out, "ETag", self.tag);
        write_checksum(out, self.checksum);
        write_optional(out, "Last-Modified", self.modified);
    }

    /// Appends the lines that tell of a body: 7,352 bytes at most, and no more than what they say needs.
    fn write_body_lines<R: Room>(&self, out: &mut R)
        requires fits { HasRoomFor (fields_of self.now) }
        requires room { R.size out.old + 7_352 ≤ R.capacity out.old }
        ensures items { R.written out.new
            ≡ R.written out.old ++ print_lines (body_lines (fields_of self.now)) }
        ensures bound { R.size out.new ≤ R.size out.old + 7_352 }
        ensures short { R.size out.new ≤ R.size out.old + body_room (fields_of self.now) }
        ensures capacity { R.capacity out.old ≤ R.capacity out.new }
    {
        write_flag(out, "Accept-Ranges", "bytes", self.accepts_ranges);
        write_optional(out, "Content-Range", self.content_range);
        write_optional(out, "Content-Type", self.content_type);
        write_all_metadata(out, self.metadata, self.overrides, self.tells);
        write_number(out, "Content-Length", self.size, self.status.tells_size());
    }
}
