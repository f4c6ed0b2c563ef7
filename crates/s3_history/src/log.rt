//! The log that a history is: its lines, the rule that they keep, and the steps that a recorder takes.
ghost use Rattle.std.specs.Prelude.{◌≡◌};

use logbook::{Gain, Pen, Plain, Play, Rule};
use std::marker::PhantomData;
use std::snapshot::Snapshot;

/// A line of the log: the entry that it tells, and the key of the word that the line after it uses. No value of it is made.
pub struct Line<E> {
    pub entry: Option<E>,
    pub next: u64,
}

/// The rule that every log keeps.
pub struct Chained;

impl<E> Rule<Line<E>, u64> for Chained {
    ghost use Rattle.std.specs.Prelude.{[]};
    ghost use base.Fml.{ftrue};
    ghost use Rattle.s3_history.specs.Log.{IsChained};

    ghost holds = { λ cells log. IsChained cells log };

    ghost first = { [] };

    ghost hinted = { λ number log. Unit {0} };

    ghost shows = { λ log. [] };

    ghost keeps = { λ names log. ftrue };

    ghost moves = { λ asked before after answer. Unit {0} };
}

/// A step that trades nothing with its caller.
pub struct Untraded;

impl<E> Gain<Line<E>, u64> for Untraded {
    ghost use base.Fml.{ftrue};

    ghost after = { λ names log answer. ftrue };
}

/// The step that makes a word for a line to come.
pub struct MakesWord;

impl<E> Play<Line<E>, u64> for MakesWord {
    ghost use Rattle.s3_history.specs.Log.{WordMade};

    ghost then = { WordMade };
}

/// The step that adds a line.
pub struct AddsLine;

impl<E> Play<Line<E>, u64> for AddsLine {
    ghost use Rattle.s3_history.specs.Log.{LineAdded};

    ghost then = { LineAdded };
}

/// The step that finds that nothing stands behind the recorder's last line.
pub struct FindsEnd;

impl<E> Play<Line<E>, u64> for FindsEnd {
    ghost use Rattle.s3_history.specs.Log.{EndFound};

    ghost then = { EndFound };
}

/// Which entry a value stands for.
pub trait Describes<X, E> {
    ghost entry: { X → E };
}

/// A value stands for itself.
pub struct AsItself;

impl<X> Describes<X, X> for AsItself {
    ghost entry = { λ value. value };
}

/// What a line is made of: what its entry is told of, and the pen of the word that the line after it uses.
pub struct Draft<X> {
    pub about: Snapshot<X>,
    pub pen: Pen,
}

/// The line that is asked for, with the entry that `D` tells.
pub struct Drafted<D>(PhantomData<D>);

impl<X, E, D: Describes<X, E>> Plain<Draft<X>, Line<E>, u64> for Drafted<D> {
    ghost use Rattle.std.specs.Prelude.{None, Some};

    ghost ask = { λ draft. record { entry = Some (D.entry draft.about.value); next = draft.pen.nib.key } };

    ghost state = { λ draft. None };
}

/// No line is asked for.
pub struct Silent;

impl<E> Plain<(), Line<E>, u64> for Silent {
    ghost use Rattle.std.specs.Prelude.{None};

    ghost ask = { λ nothing. record { entry = None; next = 0 } };

    ghost state = { λ nothing. None };
}
