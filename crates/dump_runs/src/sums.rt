//! Writes what was counted: after one input, and after all.
#![tactic(auto)]

ghost use Rattle.std.specs.Prelude.{◌≡◌, Option, IfErr, IfOk, OnErr, OnOk};
ghost use Rattle.std.specs.Io.KnownBytes.{Appends};
ghost use Rattle.dump_io.specs.lines.Failing.{IsReading};
ghost use Rattle.dump_io.specs.lines.Fronts.{AppendsFront};
ghost use Rattle.std.specs.Option.{option_map};
ghost use Rattle.dump_commands.specs.diff.Sides.{Sides};
ghost use Rattle.dump_io.specs.input.Done.{cut_of};
ghost use Rattle.dump_runs.specs.Summed.{AreCompared, WritesCompared, WritesComparedFront, sum_of, uncompared_text};
ghost use Rattle.dump_runs.specs.Sums as says;
ghost use Rattle.dump_runs.specs.Sums.{WritesAll, WritesAllFront, all_line, compared_by, gathered_lines, input_line, last_line, line_of_input};
ghost use Rattle.dump_runs.specs.declared.reading.Reading.TheVariants.{Dumps};

use crate::batch::Totals;
use crate::reading::Reading;
use dump_commands::command::Summaries;
use dump_commands::counts::Counts;
use dump_commands::diff::last::uncompared_line;
use dump_commands::diff::pairs::{Compared, compare};
use dump_commands::diff::tell::{Telling, put_differences};
use dump_commands::job::Job;
use dump_commands::state::kept::Kept;
use dump_commands::summary::{put_summary, put_text_summary};
use dump_io::input::done::Cut;
use dump_io::input::inputs::Inputs;
use dump_io::lines::failure::Failure;
use dump_io::lines::style::Style;
use dump_io::lines::write::put;
use std::alloc::{AllocError, Global};
use std::io::Write;

/// Writes what was counted of one input, if that is asked for.
pub fn put_counts<W: Write>(
    alloc: Global,
    reading: Reading<'_>,
    name: &str,
    counts: &Counts,
    report: &mut W,
) -> Result<(), Failure>
    ensures written { OnOk result (Appends (W.contents report.old) (W.contents report.new) (line_of_input reading.entry name.now counts.now)) }
    ensures front { OnErr result (AppendsFront (W.contents report.old) (W.contents report.new) (line_of_input reading.entry name.now counts.now)) }
    ensures failed { IfErr result (λ failure. ¬ IsReading failure) }
{
    match reading {
        Reading::Dumps(job) => put_input(alloc, job, name, counts, report),
        Reading::Texts(_) => Ok(()),
    }
}

/// What is found of the documents of two inputs, where these are compared. A count over its range, which no documents that are in memory reach,
/// counts as out of memory.
pub fn compare_all<'a, 'b>(
    alloc: Global,
    reading: Reading<'_>,
    totals: &'b Totals<'a>,
) -> Result<Option<Compared<'a, 'b>>, AllocError>
    ensures { IfOk result (AreCompared (compared_by reading.entry (sum_of totals.entry.now))) }
{
    let Reading::Dumps(job) = reading else {
        return Ok(None);
    };
    if job.command.comparing().is_none() || totals.cut.is_some() {
        return Ok(None);
    }
    match compare(alloc, totals.tally.kept.sides()) {
        Ok(compared) => Ok(Some(compared)),
        Err(_) => Err(AllocError),
    }
}

/// Whether some document isn't the same in both inputs, where documents are compared.
pub fn differ(compared: &Option<Compared<'_, '_>>) -> bool
    ensures { (all : Option Sides) → AreCompared all compared.now → result ≡ says.differ all }
{
    match compared {
        Some(compared) => compared.differences.is_different(),
        None => false,
    }
}

/// Writes what is told of all inputs: of two that are compared which documents differ, and what was counted, if that is asked for.
pub fn put_all_counts<I: Inputs, W: Write>(
    alloc: Global,
    reading: Reading<'_>,
    inputs: &I,
    totals: &Totals<'_>,
    compared: &Option<Compared<'_, '_>>,
    report: &mut W,
) -> Result<(), Failure>
    requires { AreCompared (compared_by reading (sum_of totals.now)) compared.now }
    ensures written { OnOk result (WritesAll reading.entry (I.bytes_of inputs.now) (sum_of totals.now) (W.contents report.old) (W.contents report.new)) }
    ensures front { OnErr result (WritesAllFront reading.entry (I.bytes_of inputs.now) (sum_of totals.now) (W.contents report.old) (W.contents report.new)) }
    ensures failed { IfErr result (λ failure. ¬ IsReading failure) }
{
    match reading {
        Reading::Dumps(job) => {
            put_compared(alloc, job, inputs, totals, compared, report)?;
            put_all(alloc, job, totals, report)
        }
        Reading::Texts(job) => put_text_summary(
            alloc,
            job.style,
            job.limit,
            &totals.counts,
            report,
        ),
    }
}

/// Writes which documents of two inputs differ, where the command compares them; or that an input isn't read to its end.
fn put_compared<I: Inputs, W: Write>(
    alloc: Global,
    job: Job<'_>,
    inputs: &I,
    totals: &Totals<'_>,
    compared: &Option<Compared<'_, '_>>,
    report: &mut W,
) -> Result<(), Failure>
    requires { AreCompared (compared_by (Dumps job) (sum_of totals.now)) compared.now }
    ensures written { OnOk result (WritesCompared job.entry (I.bytes_of inputs.now) (sum_of totals.now) (W.contents report.old) (W.contents report.new)) }
    ensures front { OnErr result (WritesComparedFront job.entry (I.bytes_of inputs.now) (sum_of totals.now) (W.contents report.old) (W.contents report.new)) }
    ensures failed { IfErr result (λ failure. ¬ IsReading failure) }
{
    let Some(comparing) = job.command.comparing() else {
        return Ok(());
    };
    let Some(compared) = compared else {
        return put_uncompared(alloc, job.style, &totals.cut, report);
    };
    let telling = Telling {
        limits: job.limits,
        style: job.style,
        comparing,
    };
    let sides = totals.tally.kept.sides();
    put_differences(alloc, telling, inputs, sides, compared, report)
}

/// Writes that inputs aren't compared, if this one isn't read to its end.
fn put_uncompared<W: Write>(
    alloc: Global,
    style: Style,
    cut: &Option<Cut<'_>>,
    report: &mut W,
) -> Result<(), Failure>
    ensures written { OnOk result (Appends (W.contents report.old) (W.contents report.new) (uncompared_text style (option_map cut_of cut.now))) }
    ensures front { OnErr result (AppendsFront (W.contents report.old) (W.contents report.new) (uncompared_text style (option_map cut_of cut.now))) }
    ensures failed { IfErr result (λ failure. ¬ IsReading failure) }
{
    let Some(cut) = cut else {
        return Ok(());
    };
    let line = uncompared_line(alloc, style, cut.name)?;
    put(report, &line)
}

/// Writes what was counted of one dump, if the command tells that.
fn put_input<W: Write>(
    alloc: Global,
    job: Job<'_>,
    name: &str,
    counts: &Counts,
    report: &mut W,
) -> Result<(), Failure>
    ensures written { OnOk result
        (Appends (W.contents report.old) (W.contents report.new) (input_line job.entry name.now counts.now)) }
    ensures front { OnErr result
        (AppendsFront (W.contents report.old) (W.contents report.new) (input_line job.entry name.now counts.now)) }
    ensures failed { IfErr result (λ failure. ¬ IsReading failure) }
{
    match job.command.profile().summaries {
        Summaries::Each => {
            let job = Job { limit: None, ..job };
            put_summary(alloc, job, Some(name), counts, 0, report)
        }
        Summaries::Last | Summaries::Never => Ok(()),
    }
}

/// Writes the lines of what was gathered of all dumps, and what was counted, if the command tells that.
fn put_all<W: Write>(
    alloc: Global,
    job: Job<'_>,
    totals: &Totals<'_>,
    report: &mut W,
) -> Result<(), Failure>
    ensures written { OnOk result
        (Appends (W.contents report.old) (W.contents report.new) (all_line job.entry totals.now.counts totals.now.tally.kept)) }
    ensures front { OnErr result
        (AppendsFront (W.contents report.old) (W.contents report.new) (all_line job.entry totals.now.counts totals.now.tally.kept)) }
    ensures failed { IfErr result (λ failure. ¬ IsReading failure) }
{
    put_gathered(alloc, job, &totals.tally.kept, report)?;
    put_last(alloc, job, totals, report)
}

/// Writes the lines of what was gathered of all dumps.
fn put_gathered<W: Write>(
    alloc: Global,
    job: Job<'_>,
    kept: &Kept<'_>,
    report: &mut W,
) -> Result<(), Failure>
    ensures written { OnOk result (Appends (W.contents report.old) (W.contents report.new) (gathered_lines job.entry kept.now)) }
    ensures front { OnErr result (AppendsFront (W.contents report.old) (W.contents report.new) (gathered_lines job.entry kept.now)) }
    ensures failed { IfErr result (λ failure. ¬ IsReading failure) }
{
    let lines = kept.lines(alloc, job.style, job.command)?;
    put(report, &lines)
}

/// Writes what was counted of all dumps, if the command tells that.
fn put_last<W: Write>(
    alloc: Global,
    job: Job<'_>,
    totals: &Totals<'_>,
    report: &mut W,
) -> Result<(), Failure>
    ensures written { OnOk result
        (Appends (W.contents report.old) (W.contents report.new) (last_line job.entry totals.now.counts totals.now.tally.kept)) }
    ensures front { OnErr result
        (AppendsFront (W.contents report.old) (W.contents report.new) (last_line job.entry totals.now.counts totals.now.tally.kept)) }
    ensures failed { IfErr result (λ failure. ¬ IsReading failure) }
{
    match job.command.profile().summaries {
        Summaries::Each | Summaries::Last => {
            let kept = totals.tally.kept.count();
            put_summary(alloc, job, None, &totals.counts, kept, report)
        }
        Summaries::Never => Ok(()),
    }
}
