//! Prints lines of documents: those of the commands that do, and what any command reports of one.
#![tactic(auto)]

ghost use Rattle.std.specs.Prelude.{◌≡◌, ℕ, List, IfErr, IfOk, OnErr, OnOk, map};
ghost use Rattle.std.specs.Option.{option_copied, option_map};
ghost use Rattle.std.specs.Io.KnownBytes.{Appends};
ghost use Rattle.dump_io.specs.lines.Fronts.{AppendsFront};
ghost use Rattle.dump_commands.specs.Reporting.{HasOthers, HasOthersFront, Lists, ListsFront, lines_of_repeats};
ghost use Rattle.dump_commands.specs.elements.Listing.{HasListingFront, ListsDocument};
ghost use Rattle.dump_io.specs.lines.Find.{account_of};
ghost use Rattle.dump_commands.specs.state.Forms.{repeat_at};
ghost use Rattle.dump_io.specs.lines.Origins.{origin_of};
ghost use Rattle.dump_io.specs.lines.Failing.{IsReading};
ghost use Rattle.dump_commands.specs.Reporting as says;

use crate::command::{Breaches, Command, Profile, Summaries};
use crate::elements::listing::list_levels;
use crate::elements::showing::show_piece;
use dump_io::lines::failure::Failure;
use dump_io::lines::find::{Finding, Found, Told};
use dump_io::lines::object::{repeat_object, told_object};
use dump_io::lines::origin::Origin;
use dump_io::lines::style::Style;
use dump_io::lines::text::{line_of, repeat_line, sized, told_line};
use dump_io::lines::write::put;
use raw_view::RawDocument;
use std::alloc::{AllocError, Global};
use std::io::Write;

/// A command that prints lines of each document.
#[derive(Clone, Copy)]
pub enum Report {
    /// a line for each that isn't canonical
    Check,
    /// the elements of each, at every level
    List,
    /// the bytes of each and what they are: of what begins in this number of its first bytes, or of all
    Show(Option<u64>),
    /// how many there are, and of how many bytes, by their lengths alone
    Count,
    /// where each begins, and how many bytes it has, by its length alone
    Sizes,
}

impl Report {
    /// What is so of it, whatever it finds.
    pub fn profile(self) -> Profile
        ensures { result ≡ says.report_profile self }
    {
        let (looks, breaches, summaries) = match self {
            Report::Check => (true, Breaches::Found, Summaries::Each),
            Report::List | Report::Show(_) => (true, Breaches::Ignored, Summaries::Never),
            Report::Count => (false, Breaches::Ignored, Summaries::Each),
            Report::Sizes => (false, Breaches::Ignored, Summaries::Never),
        };
        Profile {
            looks,
            breaches,
            summaries,
        }
    }
}

/// The first line of such a command on a document that begins there, in which this was found; empty where it has none.
fn report_line(
    alloc: Global,
    command: Report,
    style: Style,
    at: Origin<'_>,
    bytes: &[u8],
    told: &Option<Told<'_>>,
) -> Result<Vec<u8>, AllocError>
    ensures { IfOk result (λ text. text.items ≡ says.report_line command style (origin_of at.entry) bytes.now (option_map account_of told.now)) }
{
    match command {
        Report::Check => text_of(alloc, style, at, told),
        Report::Count => Ok(Vec::new(alloc)),
        Report::List | Report::Show(_) | Report::Sizes => {
            let head = sized(alloc, bytes.len(), told)?;
            line_of(alloc, at.name, at.offset, &head)
        }
    }
}

/// Writes the lines of such a command on a document at this offset after the first: of `list` one for each element, at every level, of
/// `show` those of its bytes.
fn put_others<W: Write>(
    alloc: Global,
    command: Report,
    offset: u64,
    bytes: &[u8],
    report: &mut W,
) -> Result<(), Failure>
    ensures listed { OnOk result ((lines : List ℕ) × HasOthers command offset bytes.now lines × Appends (W.contents report.old) (W.contents report.new) lines) }
    ensures front { OnErr result ((lines : List ℕ) × HasOthersFront command offset bytes.now lines × Appends (W.contents report.old) (W.contents report.new) lines) }
    ensures failed { IfErr result (λ failure. ¬ IsReading failure) }
{
    match command {
        Report::List => put_elements(alloc, bytes, report),
        Report::Show(most) => show_piece(alloc, most, offset, bytes, report),
        Report::Check | Report::Count | Report::Sizes => Ok(()),
    }
}

/// The first line that the command reports of a document that begins there, in which this was found; empty where it has none.
pub fn first_line(
    alloc: Global,
    command: Command<'_>,
    style: Style,
    at: Origin<'_>,
    bytes: &[u8],
    found: &Found<'_>,
) -> Result<Vec<u8>, AllocError>
    ensures { IfOk result (λ text. text.items
        ≡ says.first_line command.entry style (origin_of at.entry) bytes.now found.now.finding (option_map account_of found.now.told)) }
{
    match command {
        Command::Prints(command) => report_line(alloc, command, style, at, bytes, &found.told),
        Command::Gathers(_) | Command::Writes(_) => damage_line(alloc, style, at, found),
    }
}

/// The line of a document that is damaged or too deep; empty of any other.
fn damage_line(
    alloc: Global,
    style: Style,
    at: Origin<'_>,
    found: &Found<'_>,
) -> Result<Vec<u8>, AllocError>
    ensures { IfOk result (λ text. text.items ≡ says.damage_line style (origin_of at.entry) found.now.finding (option_map account_of found.now.told)) }
{
    match found.finding {
        Finding::Damaged | Finding::TooDeep => text_of(alloc, style, at, &found.told),
        Finding::Canonical | Finding::Breached | Finding::Unvalidated => Ok(Vec::new(alloc)),
    }
}

/// The line of a document of which this is told; empty where nothing is.
fn text_of(
    alloc: Global,
    style: Style,
    at: Origin<'_>,
    told: &Option<Told<'_>>,
) -> Result<Vec<u8>, AllocError>
    ensures { IfOk result (λ text. text.items ≡ says.told_line style (origin_of at.entry) (option_map account_of told.now)) }
{
    let Some(told) = told else {
        return Ok(Vec::new(alloc));
    };
    match style {
        Style::Words => told_line(alloc, at.name, at.offset, told),
        Style::Json => told_object(alloc, at.name, at.offset, told),
        Style::Quiet => Ok(Vec::new(alloc)),
    }
}

/// Writes the lines that the command reports of a document at this offset after the first.
pub fn put_listing<W: Write>(
    alloc: Global,
    command: Command<'_>,
    offset: u64,
    bytes: &[u8],
    report: &mut W,
) -> Result<(), Failure>
    ensures listed { OnOk result ((lines : List ℕ) × Lists command.entry offset bytes.now lines × Appends (W.contents report.old) (W.contents report.new) lines) }
    ensures front { OnErr result ((lines : List ℕ) × ListsFront command.entry offset bytes.now lines × Appends (W.contents report.old) (W.contents report.new) lines) }
    ensures failed { IfErr result (λ failure. ¬ IsReading failure) }
{
    match command {
        Command::Prints(command) => put_others(alloc, command, offset, bytes, report),
        Command::Gathers(_) | Command::Writes(_) => Ok(()),
    }
}

/// Lists the elements of a document; none where it has no envelope.
fn put_elements<W: Write>(alloc: Global, bytes: &[u8], report: &mut W) -> Result<(), Failure>
    ensures listed { OnOk result ((lines : List ℕ) × ListsDocument bytes.now lines × Appends (W.contents report.old) (W.contents report.new) lines) }
    ensures front { OnErr result ((lines : List ℕ) × HasListingFront bytes.now lines × Appends (W.contents report.old) (W.contents report.new) lines) }
    ensures failed { IfErr result (λ failure. ¬ IsReading failure) }
{
    let Ok(document) = RawDocument::from_bytes(bytes) else {
        return Ok(());
    };
    list_levels(alloc, document, report)
}

/// Writes the line of a document whose form came before, where there is a first one of that form.
pub fn put_repeat<W: Write>(
    alloc: Global,
    style: Style,
    origin: Origin<'_>,
    first: Option<Origin<'_>>,
    report: &mut W,
) -> Result<(), Failure>
    ensures written { OnOk result (Appends (W.contents report.old) (W.contents report.new)
        (lines_of_repeats style (repeat_at (origin_of origin.entry) (option_map origin_of first.entry)))) }
    ensures front { OnErr result (AppendsFront (W.contents report.old) (W.contents report.new)
        (lines_of_repeats style (repeat_at (origin_of origin.entry) (option_map origin_of first.entry)))) }
    ensures failed { IfErr result (λ failure. ¬ IsReading failure) }
{
    let Some(first) = first else {
        return Ok(());
    };
    let text = match style {
        Style::Words => repeat_line(alloc, origin, first)?,
        Style::Json => repeat_object(alloc, origin, first)?,
        Style::Quiet => Vec::new(alloc),
    };
    put(report, &text)
}
