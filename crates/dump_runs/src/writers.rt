//! What a run writes to, and what came of it so far.
#![tactic(auto)]

ghost use Rattle.std.specs.Prelude.{◌≡◌, ◌⊎◌, ◌||◌, false};
ghost use Rattle.dump_io.specs.declared.lines.failure.Failure.TheVariants.{Memory};
ghost use Rattle.dump_io.specs.lines.Failing.{IsCaused, IsReading};
ghost use Rattle.dump_runs.specs.Plays.{Written};

use bson_to_json::Guarded;
use dump_commands::counts::Counts;
use dump_commands::state::kept::Kept;
use dump_io::lines::failure::Failure;
use std::io::Write;
use std::marker::Model;

/// What a run writes to.
#[derive(Drop)]
pub struct Writers<D: Write + Drop, A: Write + Drop, W: Write + Drop> {
    /// takes documents, and what else is made of them
    pub out: Guarded<D>,
    /// takes documents that stand alone
    pub alone: Guarded<A>,
    /// takes findings and counts
    pub report: Guarded<W>,
}

impl<D: Write + Drop, A: Write + Drop, W: Write + Drop> Model for Writers<D, A, W> {
    ghost Value = { Written };

    ghost view = { λ w. record {
      out = D.contents w.out.inner;
      alone = A.contents w.alone.inner;
      report = W.contents w.report.inner;
      has_failed = w.out.failed || w.alone.failed || w.report.failed;
    } };
}

impl<D: Write + Drop, A: Write + Drop, W: Write + Drop> Writers<D, A, W> {
    /// Writers to which nothing is written yet.
    pub fn new(out: D, alone: A, report: W) -> Writers<D, A, W>
        ensures contents { (result.out ≡ D.contents out) × (result.alone ≡ A.contents alone) × (result.report ≡ W.contents report) }
        ensures failed { result.has_failed ≡ false }
    {
        Writers {
            out: Guarded::new(out),
            alone: Guarded::new(alone),
            report: Guarded::new(report),
        }
    }

    /// Whether a write failed.
    fn has_failed(&self) -> bool
        ensures { result ≡ self.now.has_failed }
    {
        self.out.has_failed() || self.alone.has_failed() || self.report.has_failed()
    }

    /// Why a call failed that wrote to these. It isn't told that writing failed where no write did: of memory alone nothing is promised. A number
    /// over its range counts as out of memory, too.
    pub fn cause_of(&self, failure: Failure) -> Failure
        ensures caused { IsCaused self.now.has_failed result }
        ensures given { (result ≡ Memory) ⊎ (result ≡ failure) }
        ensures memory { failure ≡ Memory → result ≡ Memory }
        ensures failed { ¬ IsReading result }
    {
        match failure {
            Failure::Writing(error) if self.has_failed() => Failure::Writing(error),
            Failure::Memory | Failure::TooLarge | Failure::Writing(_) | Failure::Reading(_) => {
                Failure::Memory
            }
        }
    }
}

/// What came of an input so far.
#[derive(Drop)]
pub struct Tally<'a> {
    /// what was read of it
    pub counts: Counts,
    /// what was written, of the inputs before it, too
    pub kept: Kept<'a>,
}
