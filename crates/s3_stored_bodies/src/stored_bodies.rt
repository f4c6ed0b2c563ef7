//! What every keeper of bodies promises.
ghost use Rattle.std.specs.Prelude.{◌≡◌, ◌↔◌, ℕ, ◌<◌, ◌≤◌, ◌^◌, List, [], ◌∷◌, Bool, true, Some, None, length, IfOk, OnOk, OnErr};
ghost use Rattle.std.specs.FinMap as map;
ghost use Rattle.s3_stored_bodies.specs.Numbers.{Contents, bytes_under, named_more, named_less, KeepsNamed, StillOutlive};

use s3_bodies::Body;
use s3_terms::NoMemory;
use std::alloc::Global;

/// What keeps the bodies has failed, for good: they can't be settled any more.
#[derive(Clone, Copy)]
pub struct NotSettled;

/// A keeper of bodies under numbers, which counts the rows that name each number. The bytes under a number don't change,
/// and they go with the last row that names it.
///
/// Each call but `settle` has `NoMemory` as its only error, and leaves all as it was then. A keeper may hold all in memory
/// (`is_in_memory`). A call tells where such a keeper can have the error; where it tells nothing, that can come at any
/// time.
///
/// Bodies are settled together, before the rows that name them are committed. What was settled outlives a crash until it is let
/// go, also where no row names it any more: rows that a crash may leave could name it.
pub trait StoredBodies {
    // The bytes under each number.
    ghost contents: { Self → Contents };

    // How many rows name each number.
    ghost uses: { Self → ℕ → ℕ };

    // Whether the keeper holds all in memory, so that what needs no more room never lacks it.
    ghost is_in_memory: { Bool };

    // The bytes that one may find under numbers who opens the bodies again after a crash now. There are none where a crash leaves
    // nothing, and nothing is said of a disk that doesn't give back what was written to it.
    ghost leaves: { Self → Contents → Type 0 };

    // That one finds these bytes under this number who opens the bodies again after a crash, whatever it leaves.
    ghost outlives: { Self → ℕ → List ℕ → Type 0 };

    /// That what outlives a crash is in what that leaves. It costs nothing.
    fn outlive_crashes(&self)
        ensures { (left : Contents) → leaves self.now left → (number : ℕ) (bytes : List ℕ)
            → outlives self.now number bytes → map.get left number ≡ Some bytes };

    /// Has all that stands under numbers outlive a crash.
    ///
    /// # Errors
    ///
    /// `NotSettled` where what keeps the bodies has failed, for good: none is kept any more. Want of memory doesn't do that, and no
    /// clause tells when it is so.
    fn settle(&mut self) -> Result<(), NotSettled>
        ensures settled { OnOk result ((number : ℕ) (bytes : List ℕ) → map.get (contents self.new) number ≡ Some bytes → outlives self.new number bytes) }
        ensures outlives { StillOutlive outlives self.old self.new }
        ensures contents { contents self.new ≡ contents self.old }
        ensures uses { uses self.new ≡ uses self.old };

    /// Lets go what no row names: it need not outlive a crash any more, and its room may be written again. It takes no memory.
    fn let_go(&mut self)
        ensures outlives { (number : ℕ) (bytes : List ℕ) → map.get (contents self.old) number ≡ Some bytes → outlives self.old number bytes → outlives self.new number bytes }
        ensures contents { contents self.new ≡ contents self.old }
        ensures uses { uses self.new ≡ uses self.old };

    /// Keeps a body for one row, and answers the number under which it stands, which is below 2^63. Nothing stood under
    /// that number, or these bytes did.
    fn keep(&mut self, alloc: Global, body: Body) -> Result<u64, NoMemory>
        ensures contents { IfOk result (λ number. contents self.new ≡ map.insert (contents self.old) number body) }
        ensures uses { IfOk result (λ number. uses self.new ≡ named_more (number ∷ []) (uses self.old)) }
        ensures new_or_same { IfOk result (λ number. (bytes : List ℕ) → map.get (contents self.old) number ≡ Some bytes → bytes ≡ body) }
        ensures below { IfOk result (λ number. number < 2 ^ 63) }
        ensures err { OnErr result (contents self.new ≡ contents self.old) }
        ensures err_uses { OnErr result (uses self.new ≡ uses self.old) }
        ensures outlives { StillOutlive outlives self.old self.new };

    /// Lets one more row name a number that is named already. A keeper in memory has an error only where 2^63 rows name
    /// it.
    fn share(&mut self, number: u64) -> Result<(), NoMemory>
        requires { 0 < uses self.old number }
        ensures contents { contents self.new ≡ contents self.old }
        ensures uses { IfOk result (λ _. uses self.new ≡ named_more (number ∷ []) (uses self.old)) }
        ensures err_uses { OnErr result (uses self.new ≡ uses self.old) }
        ensures memory { OnErr result (is_in_memory ≡ true → 2 ^ 63 ≤ uses self.old number) }
        ensures outlives { StillOutlive outlives self.old self.new };

    /// Takes back that one row names a number. With the last one the body goes; its memory goes with the last copy of it
    /// that somebody has. It takes no memory. Where the body was settled it still outlives a crash, until it is let go.
    fn give_up(&mut self, number: u64)
        requires { 0 < uses self.old number }
        ensures uses { uses self.new ≡ named_less (number ∷ []) (uses self.old) }
        ensures contents { KeepsNamed (uses self.new) (contents self.old) (contents self.new) }
        ensures outlives { StillOutlive outlives self.old self.new };

    /// The body under a number that is named. Its bytes are shared and not copied, where the keeper has them in memory. A
    /// keeper in memory has an error only where there are any bytes.
    fn body(&mut self, alloc: Global, number: u64) -> Result<Body, NoMemory>
        requires { 0 < uses self.old number }
        ensures value { IfOk result (λ body. body ≡ bytes_under (contents self.old) number) }
        ensures contents { contents self.new ≡ contents self.old }
        ensures uses { uses self.new ≡ uses self.old }
        ensures memory { OnErr result (is_in_memory ≡ true → 0 < length (bytes_under (contents self.old) number)) }
        ensures outlives { StillOutlive outlives self.old self.new };

    /// How many bytes the body under a number has that is named.
    fn size(&self, number: u64) -> u64
        requires { 0 < uses self.now number }
        ensures { result ≡ length (bytes_under (contents self.now) number) };

    // A number is named exactly where bytes stand under it.
    ghost named_where_there: { (bodies : Self) (number : ℕ) → (uses bodies number ≡ 0) ↔ (map.get (contents bodies) number ≡ None) };
}
