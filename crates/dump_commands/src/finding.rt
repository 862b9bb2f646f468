//! What a command finds in one document.
#![tactic(auto)]

ghost use Rattle.std.specs.Prelude.{◌≤◌, IfOk, length};
ghost use Rattle.std.specs.Option.{option_map};
ghost use Rattle.dump_io.specs.lines.Find.{account_of};
ghost use Rattle.dump_io.specs.lines.Origins.{origin_of};
ghost use Rattle.dump_commands.specs.Findings.{FindsFor, FindsIf, IsJudged};

use crate::command::Command;
use crate::reporting::first_line;
use crate::texts::told_with;
use dump_io::lines::find::{Finding, Found, find};
use dump_io::lines::origin::Origin;
use dump_io::lines::style::Style;
use raw_tree::Limits;
use std::alloc::{AllocError, Global};

/// What a command finds in a document, and the first line that it reports of that.
#[derive(Drop)]
pub struct Judged {
    /// what is found
    pub finding: Finding,
    /// the line; empty where there is none
    pub line: Vec<u8>,
}

/// What a command finds in the bytes of a document that begins there, within limits, and the first line that it reports.
pub fn judge(
    alloc: Global,
    command: Command<'_>,
    limits: Limits,
    style: Style,
    at: Origin<'_>,
    bytes: &[u8],
) -> Result<Judged, AllocError>
    requires { length bytes.now ≤ limits.bytes }
    ensures { IfOk result (IsJudged limits command.entry style (origin_of at.entry) bytes.now) }
{
    let found = found_in(alloc, command, limits, bytes)?;
    let line = first_line(alloc, command, style, at, bytes, &found)?;
    Ok(Judged {
        finding: found.finding,
        line,
    })
}

/// What a command finds in the bytes of a document, within limits: those that go by lengths look into none.
fn found_in<'a>(
    alloc: Global,
    command: Command<'_>,
    limits: Limits,
    bytes: &'a [u8],
) -> Result<Found<'a>, AllocError>
    requires { length bytes.now ≤ limits.bytes }
    ensures { IfOk result
        (λ found. FindsFor limits command.entry bytes.now found.finding (option_map account_of found.told)) }
{
    match command {
        Command::Prints(_) | Command::Gathers(_) => {
            found_if(alloc, command.profile().looks, limits, bytes)
        }
        Command::Writes(making) => {
            let found = find(alloc, limits, bytes)?;
            told_with(alloc, making.texts(), bytes, found)
        }
    }
}

/// What is found in the bytes of a document, within limits, if they are looked into.
fn found_if<'a>(
    alloc: Global,
    looks: bool,
    limits: Limits,
    bytes: &'a [u8],
) -> Result<Found<'a>, AllocError>
    requires { length bytes.now ≤ limits.bytes }
    ensures { IfOk result
        (λ found. FindsIf looks limits bytes.now found.finding (option_map account_of found.told)) }
{
    if looks {
        find(alloc, limits, bytes)
    } else {
        Ok(Found {
            finding: Finding::Unvalidated,
            told: None,
        })
    }
}
