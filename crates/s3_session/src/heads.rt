//! The head of the message at hand.

ghost use Rattle.std.specs.Prelude.{◌≡◌, ℕ, true, false, List, is_none, IfSome};
ghost use Rattle.s3_config.specs.Settings.{Settings};
ghost use Rattle.s3_http_heads.specs.Find.{skip_pairs};
ghost use Rattle.s3_http_heads.specs.Head.{HasNoHead};
ghost use Rattle.s3_http_heads.specs.Search.{Holds, is_lost};
ghost use Rattle.s3_session.specs.Output.{Past, is_dead, is_waiting};
ghost use Rattle.s3_session.specs.Session.{moment_at, standing_of};
ghost use Rattle.s3_session.specs.Stands.{Stands};
ghost use Rattle.s3_session.specs.Verified.{HeadVerifies, HoldsVerified, RefusedTakes};

use crate::session::Session;
use s3_http_heads::{searches_find, verdict_is_exact, verdicts_stay};

impl Session {
    /// What has come of the head of the message at hand, until that is answered. `None` where memory ran out for it. Where memory
    /// ran out for the message alone, this is the text of a head, so that none that is malformed goes unrefused for that. It
    /// takes no memory.
    pub fn head(&self) -> Option<&[u8]>
        ensures text { (bytes : List ℕ) → Holds self.now.search bytes → IfSome result (λ text. text.now ≡ skip_pairs bytes) }
        ensures lost { is_none result ≡ is_lost self.now.search }

        // Where memory ran out for its message, it isn't malformed.
        ensures died { (settings : Settings) (past : Past) (sent : List ℕ) → Stands self.now settings past sent
            → is_dead (standing_of self.now) ≡ true → IfSome result (λ text. ¬ (HasNoHead text.now)) }
    {
        self.search.text()
    }

    /// Whether the signature of the message at hand was verified, for the log of a server. It is told until the message is
    /// answered, also where a later rule, the body or the command refuses the message.
    ///
    /// Where memory ran out for the message, false may be told of a signature that verifies. It takes no memory.
    pub fn is_verified(&self) -> bool
        ensures verified { (settings : Settings) (past : Past) (sent : List ℕ) → Stands self.now settings past sent
            → result ≡ true → HoldsVerified settings self.now }
        ensures told { (settings : Settings) (past : Past) (sent : List ℕ) → Stands self.now settings past sent
            → is_dead (standing_of self.now) ≡ false → HoldsVerified settings self.now → result ≡ true }

        // So it is wherever the head of the message at hand verifies.
        ensures at_hand { (settings : Settings) (past : Past) (sent : List ℕ) (stands : Stands self.now settings past sent)
            → is_dead (standing_of self.now) ≡ false → HeadVerifies settings stands.left (moment_at self.now.stage) → result ≡ true }

        // Where memory ran out for that message, no rule refuses its head, or its routing takes memory.
        ensures died { (settings : Settings) (past : Past) (sent : List ℕ) → Stands self.now settings past sent
            → is_dead (standing_of self.now) ≡ true → result ≡ true → (h : HoldsVerified settings self.now) → RefusedTakes settings h.verifies.0 h.moment }
        ensures waits { (settings : Settings) (past : Past) (sent : List ℕ) → Stands self.now settings past sent
            → is_waiting (standing_of self.now) ≡ true → result ≡ true }
    {
        verdicts_stay();
        verdict_is_exact();
        searches_find();
        self.signer.is_verified
    }
}
