//! Passes the part that is next in an input: a document, or bytes up to the next place where documents go on.
#![tactic(auto)]

ghost use Rattle.std.specs.Prelude.{◌≡◌, ◌≤◌, Option, IfOk, IfErr, OnErr, false, length, take, true};
ghost use Rattle.dump_io.specs.input.Cut.{IsPiece};
ghost use Rattle.dump_io.specs.input.Reading.{GoesAhead, IsWindow, Stays, ahead_of};
ghost use Rattle.dump_io.specs.input.Resync.{TellsPart};
ghost use Rattle.dump_io.specs.lines.Failing.{IsReading};
ghost use Rattle.dump_io.specs.lines.Find.{Account};
ghost use Rattle.dump_commands.specs.Findings.{FindsFor};
ghost use Rattle.dump_runs.specs.Plays.{held};
ghost use Rattle.dump_runs.specs.dumps.Steps.{GivesPiece, HaltsNext, HaltsPiece, IsPieceOf, PassesNext, next_of, reach_of};
ghost use Rattle.raw_resync.specs.Seeking.{IsWork};

use crate::dumps::alone::{set_aside, stands_alone};
use crate::dumps::found::findings_of;
use crate::dumps::gap::pass_gap;
use crate::dumps::source::Source;
use crate::style::style_at;
use crate::writers::{Tally, Writers};
use dump_commands::finding::{Judged, judge};
use dump_commands::gathering::count_fields;
use dump_commands::job::Job;
use dump_commands::making::emit;
use dump_commands::reporting::{put_listing, put_repeat};
use dump_io::input::ending::Ending;
use dump_io::input::window::Next;
use dump_io::lines::failure::{Failure, in_range};
use dump_io::lines::find::Finding;
use dump_io::lines::origin::Origin;
use dump_io::lines::write::put;
use std::alloc::Global;
use std::io::{Read, Write};

/// What is next in an input.
#[derive(Clone, Copy)]
pub enum Step {
    /// a part, which is passed
    Passed,
    /// its end
    End,
    /// bytes that no document begins with, where none are passed over
    Left(Ending),
}

/// A document of an input, at its length.
#[derive(Drop)]
struct Piece<'a, 'b> {
    /// where it begins
    at: Origin<'a>,
    /// its bytes
    bytes: &'b [u8],
    /// what is found in it
    judged: Judged,
}

/// Looks what is next in an input, and passes it where it is a document, or where bytes may be passed over.
pub fn pass_next<'a, R: Read + Drop, D: Write + Drop, A: Write + Drop, W: Write + Drop>(
    alloc: Global,
    job: Job<'a>,
    source: &mut Source<'a, R>,
    writers: &mut Writers<D, A, W>,
    tally: &mut Tally<'a>,
) -> Result<Step, Failure>
    requires { IsWindow source.old.window × IsWork source.old.work }
    ensures passed { IfOk result (PassesNext job.entry source.old source.new (held writers.old tally.old) (held writers.new tally.new)) }
    ensures halts { OnErr result (HaltsNext job.entry source.old (held writers.old tally.old) (held writers.new tally.new)) }
    ensures fails { IfErr result (λ failure. IsReading failure → GoesAhead source.old.left source.new.left source.old.window source.new.window
        × (source.new.name ≡ source.old.name) × (held writers.new tally.new ≡ held writers.old tally.old)) }
{
    let next = source.next(job.limits.bytes)?;
    match next {
        Next::Document(len) => pass_document(alloc, job, len, source, writers, tally),
        Next::Nothing => Ok(Step::End),
        Next::End(ending) => {
            if !job.resync {
                return Ok(Step::Left(ending));
            }
            pass_gap(alloc, job, ending, source, writers, tally)?;
            Ok(Step::Passed)
        }
    }
}

/// Passes the first document ahead, of `len` bytes. Where bytes may be passed over, it has to be without damage, or its length has to be
/// believed; else bytes are passed over.
fn pass_document<'a, R: Read + Drop, D: Write + Drop, A: Write + Drop, W: Write + Drop>(
    alloc: Global,
    job: Job<'a>,
    len: usize,
    source: &mut Source<'a, R>,
    writers: &mut Writers<D, A, W>,
    tally: &mut Tally<'a>,
) -> Result<Step, Failure>
    requires { IsWindow source.old.window × IsWork source.old.work × (len ≤ length (ahead_of source.old.window))
        × IsPiece job.limits.bytes (take len (ahead_of source.old.window)) }
    ensures passed { IfOk result (PassesNext job.entry source.old source.new (held writers.old tally.old) (held writers.new tally.new)) }
    ensures halts { OnErr result (HaltsNext job.entry source.old (held writers.old tally.old) (held writers.new tally.new)) }
    ensures fails { IfErr result (λ failure. IsReading failure → GoesAhead source.old.left source.new.left source.old.window source.new.window
        × (source.new.name ≡ source.old.name) × (held writers.new tally.new ≡ held writers.old tally.old)) }
{
    let at = source.at();
    let style = style_at(job.style, job.limit, tally.counts);
    let judged = judge(alloc, job.command, job.limits, style, at, source.front(len))?;
    let finding = judged.finding;
    if !is_taken(alloc, job, finding, len, source)? {
        pass_gap(alloc, job, Ending::WrongLength(len), source, writers, tally)?;
        return Ok(Step::Passed);
    }
    if stands_alone(alloc, job, finding, len, source)? {
        set_aside(len, source, writers, tally)?;
        return Ok(Step::Passed);
    }
    let piece = Piece {
        at,
        bytes: source.front(len),
        judged,
    };
    let findings = pass(alloc, job, piece, writers, tally)?;
    let counted = in_range(tally.counts.with(len, finding, findings))?;
    source.pass(len, false)?;
    tally.counts = counted;
    Ok(Step::Passed)
}

/// Whether the first document ahead, of `len` bytes, in which this is found, is taken at its length. Where bytes may be passed over, a damaged one
/// isn't if its length isn't believed.
fn is_taken<R: Read + Drop>(
    alloc: Global,
    job: Job<'_>,
    finding: Finding,
    len: usize,
    source: &mut Source<'_, R>,
) -> Result<bool, Failure>
    requires { IsWindow source.old.window × IsWork source.old.work × (len ≤ length (ahead_of source.old.window))
        × IsPiece job.limits.bytes (take len (ahead_of source.old.window))
        × ((told : Option Account) × FindsFor job.limits job.command (take len (ahead_of source.old.window)) finding told) }
    ensures told { IfOk result (λ taken. TellsPart job.entry.limits job.entry.resync (reach_of source.old) (reach_of source.new) (next_of len taken)) }
    ensures asked { IfOk result (λ taken. taken ≡ false → job.entry.resync ≡ true) }
    ensures fails { IfErr result (λ _. Stays source.old.left source.new.left source.old.window source.new.window) }
    ensures same { (source.new.name ≡ source.old.name) × (source.new.broken ≡ source.old.broken) }
{
    if !job.resync || !finding.may_be_damaged() {
        return Ok(true);
    }
    let is_doubted = source.is_doubted(alloc, job.limits, len)?;
    Ok(!is_doubted)
}

/// Writes what the command gives of a document, and returns how many findings that is.
fn pass<'a, D: Write + Drop, A: Write + Drop, W: Write + Drop>(
    alloc: Global,
    job: Job<'a>,
    piece: Piece<'a, '_>,
    writers: &mut Writers<D, A, W>,
    tally: &mut Tally<'a>,
) -> Result<u64, Failure>
    requires { IsPieceOf job tally.old.counts piece }
    ensures gives { IfOk result (GivesPiece job.entry piece.entry (held writers.old tally.old) (held writers.new tally.new)) }
    ensures halts { OnErr result (HaltsPiece job.entry piece.entry (held writers.old tally.old) (held writers.new tally.new)) }
    ensures failed { IfErr result (λ failure. ¬ IsReading failure) }
{
    let finding = piece.judged.finding;
    let style = style_at(job.style, job.limit, tally.counts);
    put(&mut writers.report, &piece.judged.line)?;
    put_listing(
        alloc,
        job.command,
        piece.at.offset,
        piece.bytes,
        &mut writers.report,
    )?;
    let first = emit(
        alloc,
        job.command,
        job.limits,
        piece.at,
        finding,
        piece.bytes,
        &mut writers.out,
        &mut tally.kept,
    )?;
    put_repeat(alloc, style, piece.at, first, &mut writers.report)?;
    count_fields(
        alloc,
        job.command,
        job.limits,
        finding,
        piece.at,
        piece.bytes,
        &mut tally.kept,
    )?;
    Ok(findings_of(job.command, finding, first.is_some()))
}
