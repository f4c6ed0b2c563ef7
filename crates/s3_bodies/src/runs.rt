//! Runs of blocks, one behind another.

ghost use Rattle.std.specs.Prelude.{◌≡◌, ℕ, ◌<◌, ◌≤◌, List, [], ◌++◌, length, slice_index_or, IfOk, MatchResult};
ghost use Rattle.std.specs.List.Sorted.{IsNonDecreasingBy};
ghost use Rattle.s3_bodies.specs.Pieces.{IsPieceAt};
ghost use Rattle.s3_bodies.specs.Runs.{HaveEnds, bytes_of_runs};

use crate::blocks::Blocks;
use crate::piece::Piece;
use crate::shared::{InPieces, Shared};
use s3_terms::NoMemory;
use std::alloc::Global;
use std::marker::Model;

/// A part of shared blocks, and how many bytes there are up to its end in all.
#[derive(Drop)]
pub(crate) struct Run {
    pub(crate) bytes: Shared<Blocks>,
    pub(crate) end: u64,
}

/// Runs one behind another. Contracts see the list of their bytes.
#[derive(Drop)]
pub(crate) struct Runs {
    runs: Vec<Run>,
    size: u64,
}

impl Model for Runs {
    ghost use Rattle.std.specs.Prelude.{◌≡◌, ℕ, List, length};
    ghost use Rattle.s3_bodies.specs.Runs.{HaveEnds, bytes_of_runs};

    ghost Value = { List ℕ };

    ghost view = { λ r. bytes_of_runs r.runs.items };

    ghost invariant = { λ r. HaveEnds 0 r.runs.items × (r.size ≡ length (bytes_of_runs r.runs.items)) };
}

// How many of the runs end before a place, or at it.
fn count_before(runs: &[Run], at: u64) -> usize
    requires { IsNonDecreasingBy (λ (run : Run). run.end) runs.now }
    ensures bound { result ≤ length runs.now }
    ensures before { (k : ℕ) (d : Run) → k < result → (slice_index_or runs.now k d).end ≤ at }
    ensures behind { (k : ℕ) (d : Run) → result ≤ k → k < length runs.now → at < (slice_index_or runs.now k d).end }
{
    runs.partition_point(|run| run.end <= at)
}

// The run in which a place is, and where it is in that.
fn found(runs: &[Run], at: u64) -> (&Shared<Blocks>, u64)
    requires ends { HaveEnds 0 runs.now }
    requires inside { at < length (bytes_of_runs runs.now) }
    ensures inside { result.1 < length result.0.now }
    ensures pieces { (piece : List ℕ) → IsPieceAt result.1 result.0.now piece → IsPieceAt at (bytes_of_runs runs.now) piece }
{
    let index = count_before(runs, at);
    let run = &runs[index];
    let begin = run.end - run.bytes.size();
    (&run.bytes, at - begin)
}

impl Runs {
    /// No runs, which take no memory.
    pub(crate) fn new(alloc: Global) -> Runs
        ensures { result ≡ [] }
    {
        Runs {
            runs: Vec::new(alloc),
            size: 0,
        }
    }

    /// Puts a run behind the others.
    pub(crate) fn push(&mut self, bytes: Shared<Blocks>) -> Result<(), NoMemory>
        ensures { MatchResult result
            (λ _. self.new ≡ self.old ++ bytes)
            (λ _. self.new ≡ self.old) }
    {
        let Some(end) = self.size.checked_add(bytes.size()) else {
            return Err(NoMemory);
        };
        self.runs.push(Run { bytes, end })?;
        self.size = end;
        Ok(())
    }

    /// What lies in one run from a place on, which is shared.
    pub(crate) fn run_at(&self, at: u64) -> Result<Shared<Blocks>, NoMemory>
        requires { at < length self.now }
        ensures { IfOk result (λ run. IsPieceAt at self.now run) }
    {
        let (run, from) = found(self.runs.as_slice(), at);
        let size = run.size() - from;
        Ok(run.copy()?.slice(from, size))
    }
}

/// A place is found by halves.
impl InPieces for Runs {
    ghost bytes = { λ runs. runs };

    fn size(&self) -> u64 {
        self.size
    }

    fn piece(&self, at: u64) -> Piece<'_> {
        let (run, from) = found(self.runs.as_slice(), at);
        run.piece(from).in_run(run, from)
    }
}
