//! What is written before the documents of all inputs.
#![tactic(auto)]

ghost use Rattle.std.specs.Prelude.{◌≡◌, MatchOption, None, Some, OnErr, OnOk};
ghost use Rattle.std.specs.Io.KnownBytes.{Appends};
ghost use Rattle.dump_io.specs.lines.Fronts.{AppendsFront};
ghost use Rattle.dump_io.specs.declared.input.done.Lack.TheVariants.{Failed};
ghost use Rattle.bsonraw_dump.specs.files.Headers.{EndsUnread, header_for, picking_in};

use dump_commands::command::Command;
use dump_commands::picking::{Picking, put_header};
use dump_io::input::done::{Done, Lack};
use dump_io::input::status::Status;
use dump_io::lines::failure::Failure;
use dump_runs::Reading;
use std::io::{ErrorKind, Write};

/// Writes what comes before the documents of all inputs: the header of rows.
pub fn begin<D: Write>(rt: &HostRuntime, reading: Reading<'_>, out: &mut D) -> Result<(), Failure>
    ensures written { OnOk result (Appends (D.contents out.old) (D.contents out.new) (header_for reading.entry)) }
    ensures front { OnErr result (AppendsFront (D.contents out.old) (D.contents out.new) (header_for reading.entry)) }
{
    match picking_of(reading) {
        Some(picking) => put_header(rt.alloc(), picking, out),
        None => Ok(()),
    }
}

/// Which elements are picked.
pub fn picking_of<'a>(reading: Reading<'a>) -> Option<Picking<'a>>
    ensures { MatchOption result (picking_in reading.entry ≡ None) (λ picking. picking_in reading.entry ≡ Some picking) }
{
    match reading.command() {
        Some(Command::Writes(making)) => making.picking(),
        Some(Command::Prints(_) | Command::Gathers(_)) | None => None,
    }
}

/// How a run ends that fails before its first input, when nothing is found yet.
pub fn ended_by<'a>(failure: Failure) -> Done<'a>
    ensures status { EndsUnread failure result.status }
    ensures lack { result.lack ≡ Some (Failed failure) }
{
    Done {
        status: status_unread(&failure),
        lack: Some(Lack::Failed(failure)),
    }
}

/// The status of a run that fails before its first input. A pipe whose reader is gone ends it quietly.
fn status_unread(failure: &Failure) -> Status
    ensures { EndsUnread failure.now result }
{
    match failure {
        Failure::Memory => Status::Memory,
        Failure::TooLarge => Status::Output,
        Failure::Writing(error) | Failure::Reading(error) => {
            if error.kind() == ErrorKind::BrokenPipe {
                Status::Done
            } else {
                Status::Output
            }
        }
    }
}
