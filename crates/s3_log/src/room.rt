//! Room in which texts are put one behind another.

ghost use Rattle.s3_log.specs.Room.{Puts};

/// Puts a text at a place, if it fits there, and answers where it ends, which is behind the room where it doesn't fit.
pub(crate) fn put(room: &mut [u8], at: usize, text: &[u8]) -> usize
    ensures { Puts text.now at room.old room.new result }
{
    let end = at.saturating_add(text.len());
    if end <= room.len() {
        room[at..end].copy_from_slice(text);
    }
    end
}
