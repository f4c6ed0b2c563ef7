//! How much of the events of a connection is kept.

ghost use Rattle.std.specs.Prelude.{◌≡◌};
ghost use Rattle.s3_simulation.specs.Trying.{all_if, count_kept, left_of, share_of, up_to_if};
ghost use Rattle.s3_simulation.specs.Trimmed.{keeps_end, keeps_turns};

// How much of the events of a connection is kept, of those that are still to come.
#[derive(Clone, Copy, Drop)]
pub(crate) enum Kept {
    // None of them.
    Nothing,
    // All of them.
    All,
    // So many bytes, and its turns.
    UpTo(usize),
}

impl Kept {
    // All, where a message is sound.
    pub(crate) fn all_if(is_sound: bool) -> Kept
        ensures { share_of result ≡ all_if is_sound }
    {
        if is_sound { Kept::All } else { Kept::Nothing }
    }

    // All up to this place, where a message is sound.
    pub(crate) fn up_to_if(is_sound: bool, place: usize) -> Kept
        ensures { share_of result ≡ up_to_if is_sound place }
    {
        if is_sound {
            Kept::UpTo(place)
        } else {
            Kept::Nothing
        }
    }

    // How many of so many bytes are kept.
    pub(crate) fn count(self, size: usize) -> usize
        ensures { result ≡ count_kept (share_of self) size }
    {
        match self {
            Kept::Nothing => 0,
            Kept::All => size,
            Kept::UpTo(place) => place.min(size),
        }
    }

    // What is kept of what comes behind so many bytes.
    pub(crate) fn behind(self, size: usize) -> Kept
        ensures { share_of result ≡ left_of (share_of self) size }
    {
        match self {
            Kept::UpTo(place) => Kept::UpTo(place.saturating_sub(size)),
            Kept::Nothing | Kept::All => self,
        }
    }

    // Whether turns are kept.
    pub(crate) fn keeps_turns(self) -> bool
        ensures { result ≡ keeps_turns (share_of self) }
    {
        match self {
            Kept::Nothing => false,
            Kept::All | Kept::UpTo(_) => true,
        }
    }

    // Whether the end is kept.
    pub(crate) fn keeps_end(self) -> bool
        ensures { result ≡ keeps_end (share_of self) }
    {
        match self {
            Kept::All => true,
            Kept::Nothing | Kept::UpTo(_) => false,
        }
    }
}
