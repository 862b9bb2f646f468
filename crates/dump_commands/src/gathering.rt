//! Gathers something of documents, and prints it at the end.
#![tactic(auto)]

ghost use Rattle.std.specs.Prelude.{◌≡◌, IfErr, IfOk, OnOk};
ghost use Rattle.dump_commands.specs.Gathering as says;
ghost use Rattle.dump_commands.specs.Gathering.{CountsFields, Gathers, Sees};
ghost use Rattle.dump_commands.specs.state.Gathered.{KeepsWritten, gathered_of};
ghost use Rattle.dump_io.specs.lines.Failing.{IsReading};
ghost use Rattle.dump_io.specs.lines.Origins.{origin_of};

use crate::command::{Breaches, Command, Profile, Summaries};
use crate::diff::sides::{Comparing, side_at};
use crate::elements::having::had_in;
use crate::making::Making;
use crate::state::gathered::{Gathered, Measure};
use crate::state::kept::Kept;
use crate::state::seen::missing_lines;
use crate::state::tokens_of;
use dump_io::lines::failure::Failure;
use dump_io::lines::find::Finding;
use dump_io::lines::origin::Origin;
use dump_io::lines::style::Style;
use raw_tree::Limits;
use std::alloc::Global;

/// A command that gathers something of all documents.
#[derive(Clone, Copy)]
pub enum Gathering<'a> {
    /// what their elements have under each path
    Fields,
    /// what their lengths show, each by its length alone
    Measure(Measure),
    /// how those of two inputs differ
    Differences(Comparing<'a>),
}

impl<'a> Gathering<'a> {
    /// What is so of it, whatever it finds.
    pub fn profile(self) -> Profile
        ensures { result ≡ says.gathering_profile self.entry }
    {
        let (looks, summaries) = match self {
            Gathering::Fields | Gathering::Differences(_) => (true, Summaries::Last),
            Gathering::Measure(measure) => (false, measure.summaries()),
        };
        Profile {
            looks,
            breaches: Breaches::Ignored,
            summaries,
        }
    }

    /// How two inputs are compared, if they are.
    pub fn comparing(self) -> Option<Comparing<'a>>
        ensures { result ≡ says.comparing_of self.entry }
    {
        match self {
            Gathering::Differences(comparing) => Some(comparing),
            Gathering::Fields | Gathering::Measure(_) => None,
        }
    }
}

/// Gathers what the command gathers of a document in which this was found.
pub fn count_fields<'a>(
    alloc: Global,
    command: Command<'_>,
    limits: Limits,
    finding: Finding,
    origin: Origin<'a>,
    bytes: &[u8],
    kept: &mut Kept<'a>,
) -> Result<(), Failure>
    ensures counted { OnOk result (CountsFields limits command.entry (origin_of origin.entry) bytes.now finding kept.old kept.new) }
    ensures written { KeepsWritten kept.old kept.new }
    ensures failed { IfErr result (λ failure. ¬ IsReading failure) }
{
    match command {
        Command::Prints(_) => Ok(()),
        Command::Gathers(gathering) => {
            gather(alloc, gathering, limits, finding, origin, bytes, kept)
        }
        Command::Writes(making) => see(alloc, making, finding, bytes, kept),
    }
}

/// Gathers what such a command gathers of a document in which this was found.
fn gather<'a>(
    alloc: Global,
    gathering: Gathering<'_>,
    limits: Limits,
    finding: Finding,
    origin: Origin<'a>,
    bytes: &[u8],
    kept: &mut Kept<'a>,
) -> Result<(), Failure>
    ensures counted { OnOk result (Gathers limits gathering.entry (origin_of origin.entry) bytes.now finding kept.old kept.new) }
    ensures written { KeepsWritten kept.old kept.new }
    ensures failed { IfErr result (λ failure. ¬ IsReading failure) }
{
    match (gathering, finding) {
        (Gathering::Fields, Finding::Canonical | Finding::Breached) => {
            let tokens = tokens_of(alloc, bytes, limits)?;
            kept.add_document(alloc, origin, bytes, &tokens)
        }
        (Gathering::Differences(comparing), Finding::Canonical | Finding::Breached) => {
            let side = side_at(alloc, limits, comparing.by, origin, bytes)?;
            kept.add_side(comparing.is_old(origin), side)
        }
        (
            Gathering::Fields | Gathering::Differences(_),
            Finding::Damaged | Finding::TooDeep | Finding::Unvalidated,
        ) => Ok(()),
        (Gathering::Measure(measure), _) => kept.measure(alloc, measure, origin, bytes),
    }
}

/// Sees which of the paths that pick elements lead to one in a document in which this was found.
fn see(
    alloc: Global,
    making: Making<'_>,
    finding: Finding,
    bytes: &[u8],
    kept: &mut Kept<'_>,
) -> Result<(), Failure>
    ensures counted { OnOk result (Sees making.entry bytes.now finding kept.old kept.new) }
    ensures written { KeepsWritten kept.old kept.new }
    ensures failed { IfErr result (λ failure. ¬ IsReading failure) }
{
    match (making.picking(), finding) {
        (Some(picking), Finding::Canonical | Finding::Breached) => {
            let flags = had_in(alloc, bytes, picking)?;
            kept.see(alloc, &flags)
        }
        (Some(_), Finding::Damaged | Finding::TooDeep | Finding::Unvalidated) | (None, _) => Ok(()),
    }
}

/// The lines that tell what the command gathered.
pub fn lines_of(
    alloc: Global,
    style: Style,
    command: Command<'_>,
    gathered: &Gathered<'_>,
) -> Result<Vec<u8>, Failure>
    ensures lines { IfOk result (λ text. text.items ≡ says.lines_of style command.entry (gathered_of gathered.now)) }
    ensures failed { IfErr result (λ failure. ¬ IsReading failure) }
{
    match command {
        Command::Prints(_) => Ok(Vec::new(alloc)),
        Command::Gathers(Gathering::Fields) => gathered.paths.lines(alloc),
        Command::Gathers(Gathering::Measure(measure)) => {
            gathered.measure_lines(alloc, style, measure)
        }
        Command::Gathers(Gathering::Differences(_)) => Ok(Vec::new(alloc)),
        Command::Writes(making) => match making.picking() {
            Some(picking) => Ok(missing_lines(alloc, style, picking.paths, &gathered.seen)?),
            None => Ok(Vec::new(alloc)),
        },
    }
}
