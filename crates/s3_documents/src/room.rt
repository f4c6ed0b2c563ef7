//! How much room a print takes at most, as JSON and in XML, found without a look at the bytes.
ghost use Rattle.std.specs.Prelude.{◌≡◌, ◌<◌, ◌≤◌, ◌+◌, ◌*◌, ◌^◌, true, [], ◌∷◌, map, length};
ghost use Rattle.std.specs.List.{flat_map, list_all};
ghost use Rattle.s3_names.specs.Tags.{is_tag_character};
ghost use Rattle.s3_documents.specs.Printed.{fields_tokens, row_tokens, all_tokens, branches_tokens, field_of, fields_of, room_of, IsRoomFor};
ghost use Rattle.s3_documents.specs.Tree.{rows as rows_under};
ghost use Rattle.s3_documents.specs.Xml.{fields_events};
ghost use Rattle.s3_documents.specs.declared.xml.Manner.{Manner};
ghost use Rattle.s3_xml.specs.Printed.{markup};

use crate::printer::{Field, Leaf, Row};
use crate::xml::Entry;
use s3_names::Tag;

/// A byte of a text is escaped by at most six, and UriEncoded by three, of which none is escaped.
const ESCAPED_MAX: usize = 6;

/// Two quotes, a colon and a comma stand round a text.
const QUOTES: usize = 4;

/// No number takes more, with what stands round it, if each digit of it were escaped.
const NUMBER_MAX: usize = 121;

/// Neither truth takes more, in the same way.
const TRUTH_MAX: usize = 31;

/// No moment is longer, with its quotes and its comma, if each byte of it were escaped.
const MOMENT_MAX: usize = 147;

/// Two brackets or two braces, with their commas.
const BRACKETS: usize = 4;

/// A row of which is known how much room it takes, in any manner.
pub(crate) trait Bounded: Row + Entry {
    /// No less than the row takes.
    fn room(&self) -> usize
        ensures json { IsRoomFor result (room_of (row_tokens (Self.told self.now))) }
        ensures xml { (manner : Manner) → IsRoomFor result (length (markup (Self.events manner self.now))) };
}

/// The room for rows under a name, as JSON.
#[tactic(auto, using(crate::proofs::RoomLemmas::rows_room, crate::proofs::RoomLemmas::key_room))]
pub(crate) fn room_of_rows<R: Bounded>(name: &str, list: &[R]) -> usize
    ensures { IsRoomFor result (room_of (branches_tokens ((name.now, rows_under (map R.told list.now)) ∷ []))) }
{
    room_of_text(name.len())
        .saturating_add(BRACKETS)
        .saturating_add(room_of_all(list))
}

/// The room for fields.
#[tactic(auto, using(crate::proofs::RoomLemmas::fields_from, crate::proofs::XmlRoomLemmas::some_fields_room))]
pub(crate) fn room_of_fields(fields: &[Field<'_>]) -> usize
    ensures json { IsRoomFor result (room_of (fields_tokens (fields_of fields.now))) }
    ensures xml { (manner : Manner) → IsRoomFor result (length (markup (fields_events manner (fields_of fields.now)))) }
{
    let mut room = 0usize;
    for field in fields {
        room = room.saturating_add(room_of_field(field));
    }
    room
}

/// The room for a text of so many bytes, as a value or as a name.
pub(crate) fn room_of_text(len: usize) -> usize
    ensures { IsRoomFor result (6 * len + 4) }
{
    len.saturating_mul(ESCAPED_MAX).saturating_add(QUOTES)
}

/// What is known of each version: a tag is short, and a size has few digits. It takes no time.
pub(crate) fn known_of(tag: &Tag, size: u64)
    ensures bound { length tag.now ≤ 38 }
    ensures characters { list_all is_tag_character tag.now ≡ true }
    ensures small { size < 2 ^ 64 }
{
    tag.check();
}

/// The room for rows, without what stands round them.
#[tactic(auto, using(crate::proofs::RoomLemmas::rows_from, crate::proofs::XmlRoomLemmas::entries_room))]
pub(crate) fn room_of_all<R: Bounded>(list: &[R]) -> usize
    ensures json { IsRoomFor result (room_of (all_tokens (map R.told list.now))) }
    ensures xml { (manner : Manner) → IsRoomFor result (length (markup (flat_map (R.events manner) list.now))) }
{
    let mut room = 0usize;
    for row in list {
        room = room.saturating_add(row.room());
    }
    room
}

#[tactic(auto, using(crate::proofs::RoomLemmas::token_rooms, crate::proofs::XmlRoomLemmas::field_rooms))]
fn room_of_field(field: &Field<'_>) -> usize
    ensures json { IsRoomFor result (room_of (fields_tokens (field_of field.now))) }
    ensures xml { (manner : Manner) → IsRoomFor result (length (markup (fields_events manner (field_of field.now)))) }
{
    let name = room_of_text(field.name.len());
    match field.value {
        Leaf::Text(text) => name.saturating_add(room_of_text(text.len())),
        Leaf::Encodable(text) => name.saturating_add(room_of_text(text.len())),
        Leaf::Number(_number) => name.saturating_add(NUMBER_MAX),
        Leaf::Truth(_) => name.saturating_add(TRUTH_MAX),
        Leaf::Moment(_) => name.saturating_add(MOMENT_MAX),
        Leaf::Absent => 0,
    }
}
