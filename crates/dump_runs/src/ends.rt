//! How a run over an input ends, and the exit status of a run over all.
#![tactic(auto)]

ghost use Rattle.std.specs.Prelude.{◌≡◌, MatchBool};
ghost use Rattle.dump_runs.specs.Status as says;
ghost use Rattle.dump_runs.specs.Status.{FindsDamage, HasDamage, IsFailureStatus, IsStatus};

use crate::reading::Reading;
use dump_commands::command::{Breaches, Command};
use dump_commands::counts::Counts;
use dump_io::input::status::Status;
use dump_io::lines::failure::{Failure, ReadFailure};
use std::io::ErrorKind;

/// How a run over an input ends.
#[derive(Drop)]
pub enum Ended {
    /// with all that is asked for
    Whole,
    /// before the end of the input, which could be read on
    Cut,
    /// reading fails
    Failed(ReadFailure),
}

impl Ended {
    /// Whether the input could be read on, where it wasn't read to its end.
    pub fn goes_on(&self) -> Option<bool>
        ensures { result ≡ says.goes_on self.now }
    {
        match self {
            Ended::Whole => None,
            Ended::Cut => Some(true),
            Ended::Failed(_) => Some(false),
        }
    }
}

/// How a run over all inputs ends that fails, after these counts. A pipe whose reader is gone changes nothing. Reading that fails doesn't come
/// here: it ends one input alone (`Ended::Failed`).
pub fn status_of_failure(
    reading: Reading<'_>,
    counts: Counts,
    differs: bool,
    failure: &Failure,
) -> Status
    ensures { IsFailureStatus reading.entry counts differs failure.now result }
{
    match failure {
        Failure::Memory => Status::Memory,
        Failure::TooLarge => Status::Output,
        Failure::Writing(error) | Failure::Reading(error) => {
            if error.kind() == ErrorKind::BrokenPipe {
                status_of(reading, counts, differs)
            } else {
                Status::Output
            }
        }
    }
}

/// How a run ends with these counts.
pub fn status_of(reading: Reading<'_>, counts: Counts, differs: bool) -> Status
    ensures { IsStatus reading.entry counts differs result }
{
    if counts.files > 0 || counts.passed_over > 0 {
        Status::Input
    } else if differs || is_damage(reading, counts) {
        Status::Damage
    } else {
        Status::Done
    }
}

/// Whether what was read makes the status one of damage.
fn is_damage(reading: Reading<'_>, counts: Counts) -> bool
    ensures { MatchBool result (HasDamage reading.entry counts) (¬ HasDamage reading.entry counts) }
{
    match reading {
        Reading::Dumps(job) => finds_damage(job.command, counts),
        Reading::Texts(_) => counts.damaged > 0,
    }
}

/// Whether what a command read makes its status one of damage.
fn finds_damage(command: Command<'_>, counts: Counts) -> bool
    ensures { MatchBool result (FindsDamage command.entry counts) (¬ FindsDamage command.entry counts) }
{
    let breaches = command.profile().breaches;
    counts.damaged > 0
        || counts.too_deep > 0
        || (matches!(breaches, Breaches::Found) && counts.breached > 0)
}
