//! What prints itself into the room that waits for it.

ghost use Rattle.std.specs.Prelude.{◌≡◌, ℕ, ◌+◌, ◌≤◌, List, ◌++◌};
ghost use Rattle.std.specs.Vec.{vec_len, vec_capacity};
ghost use Rattle.s3_outbox.specs.Pending.{bytes_of};

use s3_bodies::Body;

/// A reply that is printed where it waits to be sent.
pub trait PrintedReply {
    /// Whether a text is the whole reply.
    ghost is_printed: { Self → List ℕ → Type 0 };

    /// Appends the head of the reply, for which there is memory, and gives the body that stands behind it.
    fn print(self, out: &mut Vec<u8>) -> Option<Body>
        requires room { vec_len out.old + 8_192 ≤ vec_capacity out.old }
        ensures printed { (head : List ℕ) × (out.new.items ≡ out.old.items ++ head)
            × is_printed self (head ++ bytes_of result) }
        ensures capacity { vec_capacity out.old ≤ vec_capacity out.new };
}
