//! Documents that stand alone: bytes were passed over before them, or others that stand alone, and no documents go on after them.
#![tactic(auto)]

ghost use Rattle.std.specs.Prelude.{◌≡◌, ◌≤◌, IfErr, IfOk, MatchBool, OnErr, OnOk, length, take};
ghost use Rattle.dump_io.specs.input.Reading.{IsWindow, Stays, ahead_of};
ghost use Rattle.dump_io.specs.lines.Failing.{IsReading};
ghost use Rattle.dump_runs.specs.Plays.{held};
ghost use Rattle.dump_runs.specs.dumps.Run.{IsWritten};
ghost use Rattle.dump_runs.specs.dumps.Steps.{HaltsAside, LooksApart, SetsAside};
ghost use Rattle.raw_resync.specs.Seeking.{IsWork};

use crate::dumps::source::Source;
use crate::writers::{Tally, Writers};
use dump_commands::command::Command;
use dump_commands::job::Job;
use dump_io::lines::failure::{Failure, in_range};
use dump_io::lines::find::Finding;
use dump_io::lines::write::put;
use std::alloc::Global;
use std::io::{Read, Write};

/// Whether the first document ahead, of `len` bytes, in which this is found, stands alone.
pub fn stands_alone<R: Read + Drop>(
    alloc: Global,
    job: Job<'_>,
    finding: Finding,
    len: usize,
    source: &mut Source<'_, R>,
) -> Result<bool, Failure>
    requires { IsWindow source.old.window × IsWork source.old.work × (len ≤ length (ahead_of source.old.window)) }
    ensures looks { IfOk result (LooksApart job.entry finding source.old source.new len) }
    ensures fails { IfErr result (λ _. Stays source.old.left source.new.left source.old.window source.new.window) }
    ensures same { source.new.name ≡ source.old.name }
{
    if !source.is_broken() || !is_written(job.command, finding) {
        return Ok(false);
    }
    source.stands_alone(alloc, job.limits, len)
}

/// Whether a command writes documents in which this is found.
fn is_written(command: Command<'_>, finding: Finding) -> bool
    ensures { MatchBool result (IsWritten command.entry finding) (¬ IsWritten command.entry finding) }
{
    command.keeps() && matches!(finding, Finding::Canonical | Finding::Breached)
}

/// Writes the first document ahead, of `len` bytes, to those that stand alone, counts it and passes it.
pub fn set_aside<'a, R: Read + Drop, D: Write + Drop, A: Write + Drop, W: Write + Drop>(
    len: usize,
    source: &mut Source<'a, R>,
    writers: &mut Writers<D, A, W>,
    tally: &mut Tally<'a>,
) -> Result<(), Failure>
    requires { IsWindow source.old.window × (len ≤ length (ahead_of source.old.window)) }
    ensures passed { OnOk result (SetsAside len source.old source.new (held writers.old tally.old) (held writers.new tally.new)) }
    ensures halts { OnErr result (HaltsAside (take len (ahead_of source.old.window)) (held writers.old tally.old) (held writers.new tally.new)) }
    ensures failed { IfErr result (λ failure. ¬ IsReading failure) }
{
    put(&mut writers.alone, source.front(len))?;
    let counted = in_range(tally.counts.with_alone(len))?;
    source.pass(len, true)?;
    tally.counts = counted;
    Ok(())
}
