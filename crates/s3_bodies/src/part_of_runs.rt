//! A part of shared runs.

ghost use Rattle.std.specs.Prelude.{◌≡◌, ◌<◌, ◌++◌, length, IfOk, OnOk};
ghost use Rattle.s3_bodies.specs.Pieces.{IsPieceAt};

use crate::blocks::Blocks;
use crate::runs::Runs;
use crate::shared::Shared;
use s3_terms::NoMemory;

impl Shared<Runs> {
    // What lies in one run from a place on, which is shared.
    fn run_at(&self, at: u64) -> Result<Shared<Blocks>, NoMemory>
        requires { at < length self.now }
        ensures { IfOk result (λ run. IsPieceAt at self.now run) }
    {
        let run = self.whole.run_at(self.from + at)?;
        let size = run.size().min(self.size - at);
        Ok(run.slice(0, size))
    }

    // Puts runs with the same bytes behind others.
    pub(crate) fn add_to(&self, runs: &mut Runs) -> Result<(), NoMemory>
        ensures { OnOk result (runs.new ≡ runs.old ++ self.now) }
    {
        let mut at = 0;
        while at < self.size() {
            let run = self.run_at(at)?;
            at += run.size();
            runs.push(run)?;
        }
        Ok(())
    }
}
