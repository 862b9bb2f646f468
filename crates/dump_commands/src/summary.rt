//! Writes the line that tells what was counted.
#![tactic(auto)]

ghost use Rattle.std.specs.Prelude.{◌≡◌, IfErr, IfOk, OnErr, OnOk, map};
ghost use Rattle.std.specs.Option.{option_copied};
ghost use Rattle.std.specs.Io.KnownBytes.{Appends};
ghost use Rattle.dump_io.specs.lines.Failing.{IsReading};
ghost use Rattle.dump_io.specs.lines.Fronts.{AppendsFront};
ghost use Rattle.dump_commands.specs.Commands.{summary_line};
ghost use Rattle.dump_commands.specs.Summary.{count_of, counts_line, kept_line, text_summary};

pub(crate) mod counted;
pub(crate) mod lines;

use crate::counts::Counts;
use crate::job::Job;
use counted::{Count, counted, text_counted};
use dump_io::lines::failure::Failure;
use dump_io::lines::style::Style;
use dump_io::lines::write::put;
use lines::{counts_object, counts_words, kept_object, kept_words};
use std::alloc::{AllocError, Global};
use std::io::Write;

/// Writes the line that tells what a command counted of an input, or of all.
pub fn put_summary<W: Write>(
    alloc: Global,
    job: Job<'_>,
    name: Option<&str>,
    counts: &Counts,
    kept: u64,
    report: &mut W,
) -> Result<(), Failure>
    ensures written { OnOk result (Appends (W.contents report.old) (W.contents report.new)
        (summary_line job.entry.style (option_copied name.entry) job.entry.limit job.entry.command counts.now kept)) }
    ensures front { OnErr result (AppendsFront (W.contents report.old) (W.contents report.new)
        (summary_line job.entry.style (option_copied name.entry) job.entry.limit job.entry.command counts.now kept)) }
    ensures failed { IfErr result (λ failure. ¬ IsReading failure) }
{
    if matches!(job.style, Style::Quiet) {
        return Ok(());
    }
    let all = counted(alloc, job.limit, job.command, counts, kept)?;
    if job.command.keeps() {
        let text = kept_text(alloc, job.style, name, counts, kept, &all)?;
        return put(report, &text);
    }
    put_counts(alloc, job.style, name, counts.documents, &all, report)
}

/// The line that tells what a command that keeps documents counted.
fn kept_text(
    alloc: Global,
    style: Style,
    name: Option<&str>,
    counts: &Counts,
    kept: u64,
    others: &[Count],
) -> Result<Vec<u8>, AllocError>
    ensures { IfOk result (λ text. text.items ≡ kept_line style (option_copied name.entry) counts.now kept (map count_of others.now)) }
{
    match style {
        Style::Words => kept_words(alloc, name, counts, kept, others),
        Style::Json => kept_object(alloc, name, counts, kept, others),
        Style::Quiet => Ok(Vec::new(alloc)),
    }
}

/// Writes the line that tells what was counted of texts.
pub fn put_text_summary<W: Write>(
    alloc: Global,
    style: Style,
    limit: Option<u64>,
    counts: &Counts,
    report: &mut W,
) -> Result<(), Failure>
    ensures written { OnOk result (Appends (W.contents report.old) (W.contents report.new) (text_summary style limit counts.now)) }
    ensures front { OnErr result (AppendsFront (W.contents report.old) (W.contents report.new) (text_summary style limit counts.now)) }
    ensures failed { IfErr result (λ failure. ¬ IsReading failure) }
{
    if matches!(style, Style::Quiet) {
        return Ok(());
    }
    let all = text_counted(alloc, limit, counts)?;
    put_counts(alloc, style, None, counts.documents, &all, report)
}

/// Writes the line that tells these counts of an input, or of all.
fn put_counts<W: Write>(
    alloc: Global,
    style: Style,
    name: Option<&str>,
    documents: u64,
    counts: &[Count],
    report: &mut W,
) -> Result<(), Failure>
    ensures written { OnOk result (Appends (W.contents report.old) (W.contents report.new)
        (counts_line style (option_copied name.entry) documents (map count_of counts.now))) }
    ensures front { OnErr result (AppendsFront (W.contents report.old) (W.contents report.new)
        (counts_line style (option_copied name.entry) documents (map count_of counts.now))) }
    ensures failed { IfErr result (λ failure. ¬ IsReading failure) }
{
    let text = match style {
        Style::Words => counts_words(alloc, name, documents, counts)?,
        Style::Json => counts_object(alloc, name, documents, counts)?,
        Style::Quiet => Vec::new(alloc),
    };
    put(report, &text)
}
