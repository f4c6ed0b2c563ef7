//! What a connection has written, on its way out.

ghost use Rattle.std.specs.Prelude.{◌≡◌, ◌<◌, ◌≤◌, ℕ, List, [], ◌++◌, length, take, drop, IfOk, OnErr};
ghost use Rattle.std.specs.Io.Slices.{io_slices_bytes};
ghost use Rattle.s3_config.specs.Settings.{Settings};
ghost use Rattle.s3_session.specs.Output.{Past};

use crate::session::Session;
use s3_terms::NoMemory;
use std::alloc::Global;
use std::io::IoSlice;

impl Session {
    ghost use Rattle.s3_session.specs.Session as rules;
    ghost use Rattle.s3_session.specs.Stands as inside;

    /// A beginning of what it has written and not sent, as long as it stands together; it is empty only where all is
    /// sent. It takes no memory.
    pub fn out(&self) -> &[u8]
        ensures beginning { take (length result.now) (rules.unsent_of self.now) ≡ result.now }
        ensures within { length result.now ≤ length (rules.unsent_of self.now) }
        ensures empty { result.now ≡ [] → rules.unsent_of self.now ≡ [] }
    {
        self.outbox.out()
    }

    /// The same in the parts in which it lies, for one write: a text, and up to three blocks of the body behind it.
    pub fn parts(&self) -> [IoSlice<'_>; 4]
        ensures beginning { take (length (io_slices_bytes result)) (rules.unsent_of self.now) ≡ io_slices_bytes result }
        ensures within { length (io_slices_bytes result) ≤ length (rules.unsent_of self.now) }
        ensures empty { io_slices_bytes result ≡ [] → rules.unsent_of self.now ≡ [] }
    {
        self.outbox.parts()
    }

    /// Says that so many bytes in front were sent. They are dropped, a body goes with its last byte, and the memory of
    /// replies is given back with the last byte of all; a command that waits keeps the room for its reply. It takes no
    /// memory.
    pub fn sent(&mut self, count: usize)
        requires within { count ≤ length (rules.unsent_of self.old) }
        ensures stands { (settings : Settings) (past : Past) (sent : List ℕ) → inside.Stands self.old settings past sent
            → inside.Stands self.new settings past (sent ++ take count (rules.unsent_of self.old)) }
        ensures left { rules.unsent_of self.new ≡ drop count (rules.unsent_of self.old) }
        ensures standing { rules.standing_of self.new ≡ rules.standing_of self.old }
        ensures end { self.new.is_ended ≡ self.old.is_ended }
    {
        self.outbox.sent(count);
        self.outbox.give_back();
    }

    /// A copy of all that it has written and not sent.
    ///
    /// # Errors
    ///
    /// `NoMemory` where something is unsent and memory runs out.
    pub fn all(&self, alloc: Global) -> Result<Vec<u8>, NoMemory>
        ensures all { IfOk result (λ all. all.items ≡ rules.unsent_of self.now) }
        ensures memory { OnErr result (0 < length (rules.unsent_of self.now)) }
    {
        self.outbox.all(alloc)
    }
}
