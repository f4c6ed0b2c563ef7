//! Who adds to a history, and what others know of it.
ghost use Rattle.std.specs.Prelude.{◌≡◌, ◌++◌, ◌∷◌, [], ◌⊎◌, IfSome};
ghost use mathlib.Core.List.{IsPrefix};
ghost use Rattle.logbook.specs.Pages.{nib, may_write};
ghost use Rattle.s3_history.specs.Log.{head_of};

use crate::log::{
    AddsLine, Chained, Describes, Draft, Drafted, FindsEnd, Line, MakesWord, Silent, Untraded,
};
use logbook::{Offer, Pen, Seen, Start, Word};
use std::marker::Model;
use std::snapshot::Snapshot;

/// Who adds to a history. It has a word of its own, however long the history is. Contracts see which history it is, and
/// its entries.
#[derive(Drop)]
pub struct Recorder<E> {
    head: Word<Line<E>, u64, Chained>,
    seen: Seen<Line<E>, u64, Chained>,
    pen: Pen,
}

impl<E> Model for Recorder<E> {
    ghost use Rattle.s3_history.specs.Log.{Trace, trace_of, IsAtEnd};

    ghost Value = { Trace E };

    ghost view = { λ recorder. trace_of recorder.seen.book recorder.seen.log };

    ghost invariant = { λ recorder. IsAtEnd recorder.seen.book recorder.seen.log recorder.head recorder.pen.book recorder.pen.nib };
}

impl<E> Recorder<E> {
    /// A new history, with no entry. `None` never comes, though no contract can say so.
    pub fn new() -> Option<Recorder<E>>
        ensures { IfSome result (λ recorder. recorder.entries ≡ []) }
    {
        let (mut seen, mut opening, _second) = Seen::open(Start::alone(), 0, 0);
        let head = Word::tracked(0, &mut opening);
        let mut pen = seen.no_pen();
        let mut silent: Offer<Line<E>, u64, Chained, Untraded> = seen.plain::<Untraded, (), Silent>(
            &(),
        );
        let found = head.compare_exchange::<MakesWord, Untraded>(
            0,
            1,
            &mut seen,
            &mut silent,
            &mut pen,
        );
        if found != 0 {
            return None;
        }
        let _made: Word<Line<E>, u64, Chained> = Word::tracked(0, &mut pen);
        Some(Recorder { head, seen, pen })
    }

    /// Adds the entry that `D` tells of a value. It takes no memory and can't fail.
    pub fn record<X, D: Describes<X, E>>(&mut self, about: &X)
        ensures origin { self.new.origin ≡ self.old.origin }
        ensures entry { self.new.entries ≡ self.old.entries ++ D.entry about.now ∷ [] }
    {
        let draft = Draft {
            about: Snapshot::of(about),
            pen: new_pen(&self.head, &self.seen),
        };
        let mut offer: Offer<Line<E>, u64, Chained, Untraded> = self
            .seen
            .plain::<Untraded, Draft<X>, Drafted<D>>(&draft);
        let Draft { about: _, pen } = draft;
        self.head
            .compare_exchange::<AddsLine, Untraded>(
                0,
                1,
                &mut self.seen,
                &mut offer,
                &mut self.pen,
            );
        self.pen = pen;
    }

    /// What is known of the history now: all of it.
    pub fn prefix(&self) -> Prefix<E>
        ensures { result ≡ self.now }
    {
        Prefix {
            seen: self.seen.again(),
        }
    }

    /// What is known of the history begins it.
    pub fn check(&mut self, known: &Prefix<E>)
        requires { known.now.origin ≡ self.old.origin }
        ensures same { self.new ≡ self.old }
        ensures begins { IsPrefix known.now.entries self.old.entries }
    {
        let mut view = self.seen.again();
        view.learn(&known.seen);
        let mut silent: Offer<Line<E>, u64, Chained, Untraded> = view.plain::<Untraded, (), Silent>(
            &(),
        );
        self.head
            .compare_exchange::<FindsEnd, Untraded>(0, 1, &mut view, &mut silent, &mut self.pen);
    }
}

// The pen of a new word, which a line to come uses.
fn new_pen<E>(head: &Word<Line<E>, u64, Chained>, seen: &Seen<Line<E>, u64, Chained>) -> Pen
    requires { head.now ≡ head_of seen.now.book }
    ensures book { result.book ≡ seen.now.book }
    ensures fresh { result.nib ≡ nib may_write result.nib.key 0 }
{
    let mut view = seen.again();
    let mut pen = view.no_pen();
    let mut silent: Offer<Line<E>, u64, Chained, Untraded> = view.plain::<Untraded, (), Silent>(
        &(),
    );
    head.compare_exchange::<MakesWord, Untraded>(0, 1, &mut view, &mut silent, &mut pen);
    let _made: Word<Line<E>, u64, Chained> = Word::tracked(0, &mut pen);
    pen
}

/// What is known of a history: a beginning of it. It has no bytes. Contracts see which history it is, and the entries of
/// that beginning.
#[derive(Drop)]
pub struct Prefix<E> {
    seen: Seen<Line<E>, u64, Chained>,
}

impl<E> Model for Prefix<E> {
    ghost use Rattle.s3_history.specs.Log.{Trace, trace_of};

    ghost Value = { Trace E };

    ghost view = { λ known. trace_of known.seen.book known.seen.log };
}

impl<E> Prefix<E> {
    /// The same once more.
    pub fn again(&self) -> Prefix<E>
        ensures { result ≡ self.now }
    {
        Prefix {
            seen: self.seen.again(),
        }
    }

    /// Takes in what another knows of the same history.
    pub fn learn(&mut self, other: &Prefix<E>)
        requires { other.now.origin ≡ self.old.origin }
        ensures origin { self.new.origin ≡ self.old.origin }
        ensures kept { IsPrefix self.old.entries self.new.entries }
        ensures learned { IsPrefix other.now.entries self.new.entries }
    {
        self.seen.learn(&other.seen);
    }

    /// Of two beginnings of one history one begins the other.
    pub fn meet(&self, other: &Prefix<E>)
        requires { other.now.origin ≡ self.now.origin }
        ensures { IsPrefix self.now.entries other.now.entries ⊎ IsPrefix other.now.entries self.now.entries }
    {
        let mut both = self.seen.again();
        both.learn(&other.seen);
    }
}
