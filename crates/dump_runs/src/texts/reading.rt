//! Reads the documents of an input of texts, and writes their bytes.
#![tactic(auto)]

ghost use Rattle.std.specs.Prelude.{◌≡◌, ◌≢◌, ◌⊎◌, ◌+◌, length, IfErr, IfOk, MatchBool, OnErr, OnOk, true, false};
ghost use Rattle.dump_io.specs.input.Reading.{IsWindow, ahead_of, offset_of};
ghost use Rattle.dump_io.specs.lines.Failing.{IsCaused, IsReading};
ghost use Rattle.dump_runs.specs.Plays.{held};
ghost use Rattle.dump_runs.specs.Status.{FailsToRead};
ghost use Rattle.dump_runs.specs.texts.Reading.{GoesOnTo};
ghost use Rattle.dump_runs.specs.texts.Run.{HaltsTexts, ReadsTexts};
ghost use Rattle.dump_runs.specs.texts.Steps.{FailsAt, PassesBehind, PassesTexts};
ghost use Rattle.dump_runs.specs.declared.texts.piece.Went.TheVariants.{Document};

use crate::ends::Ended;
use crate::reading::TextJob;
use crate::texts::cursor::{Cursor, NextText};
use crate::texts::piece::{TextInput, Went, pass_next};
use crate::writers::{Tally, Writers};
use bson_to_json::Guarded;
use dump_io::lines::failure::{Failure, ReadFailure};
use std::alloc::Global;
use std::io::{Read, Write};

/// Reads the documents of an input of texts, one after the other or the items of one array, writes their bytes, and reports in a
/// line what is wrong with a text. A fault ends the run, unless it is asked to go on: after the text, where that is whole, else at
/// the next line that begins with a brace.
///
/// It is told that reading failed where a read did, and that writing failed where a write did.
pub fn read_texts<R: Read + Drop, D: Write + Drop, A: Write + Drop, W: Write + Drop>(
    alloc: Global,
    job: TextJob,
    name: &str,
    reader: &mut Guarded<R>,
    writers: &mut Writers<D, A, W>,
    tally: &mut Tally<'_>,
) -> Result<Ended, Failure>
    ensures reads { IfOk result (ReadsTexts job name.now (R.remaining reader.old.inner) (held writers.old tally.old) (held writers.new tally.new)) }
    ensures read { IfOk result (λ ended. FailsToRead ended → reader.new.failed ≡ true) }
    ensures halts { OnErr result (HaltsTexts job name.now (R.remaining reader.old.inner) (held writers.old tally.old) (held writers.new tally.new)) }
    ensures caused { IfErr result (IsCaused writers.new.has_failed) }
    ensures failed { IfErr result (λ failure. ¬ IsReading failure) }
{
    match pass_texts(alloc, job, name, reader, writers, tally) {
        Ok(Ended::Failed(failure)) => {
            if !reader.has_failed() {
                return Err(Failure::Memory);
            }
            let Some(counts) = tally.counts.with_left(0) else {
                return Err(Failure::Memory);
            };
            tally.counts = counts;
            Ok(Ended::Failed(failure))
        }
        Ok(ended) => Ok(ended),
        Err(failure) => Err(writers.cause_of(failure)),
    }
}

/// Does so, and doesn't count yet where reading failed.
fn pass_texts<R: Read, D: Write + Drop, A: Write + Drop, W: Write + Drop>(
    alloc: Global,
    job: TextJob,
    name: &str,
    reader: &mut R,
    writers: &mut Writers<D, A, W>,
    tally: &mut Tally<'_>,
) -> Result<Ended, Failure>
    ensures passed { IfOk result (PassesTexts job name.now (R.remaining reader.old) (R.remaining reader.new) (held writers.old tally.old) (held writers.new tally.new)) }
    ensures halts { OnErr result (HaltsTexts job name.now (R.remaining reader.old) (held writers.old tally.old) (held writers.new tally.new)) }
    ensures failed { IfErr result (λ failure. ¬ IsReading failure) }
{
    let mut cursor = Cursor::new(alloc);
    for _ in 0..u64::MAX {
        let next = match cursor.find_text(reader) {
            Ok(NextText::End) => return Ok(Ended::Whole),
            Ok(next) => next,
            Err(failure) => return stopped(&cursor, failure),
        };
        let input = TextInput { name, job };
        let went = pass_next(alloc, input, next, &mut cursor, writers, tally)?;
        if stops(job.keep_going, went) {
            return Ok(Ended::Cut);
        }
        if let Err(failure) = pass_behind(went, reader, &mut cursor) {
            return stopped(&cursor, failure);
        }
    }
    Err(Failure::TooLarge)
}

/// Whether a run stops after this.
fn stops(keep_going: bool, went: Went) -> bool
    ensures { MatchBool result ((went ≢ Document) × (keep_going ≡ false)) ((went ≡ Document) ⊎ (keep_going ≡ true)) }
{
    match went {
        Went::Document => false,
        Went::Refused | Went::Astray => !keep_going,
    }
}

/// That reading failed, and after how many bytes.
fn stopped(cursor: &Cursor, failure: Failure) -> Result<Ended, Failure>
    requires { IsReading failure → IsWindow cursor.now.window }
    ensures stops { IfOk result (λ end. IsReading failure × FailsAt (offset_of cursor.now.window + length (ahead_of cursor.now.window)) end) }
    ensures failed { IfErr result (λ failure. ¬ IsReading failure) }
{
    match failure {
        Failure::Reading(error) => Ok(Ended::Failed(ReadFailure {
            at: cursor.window.end()?,
            error,
        })),
        other => Err(other),
    }
}

/// Passes the bytes after what was passed, where that was no whole text.
fn pass_behind<R: Read>(went: Went, reader: &mut R, cursor: &mut Cursor) -> Result<(), Failure>
    requires { IsWindow cursor.old.window }
    ensures passed { OnOk result (PassesBehind went (R.remaining reader.old) (R.remaining reader.new) cursor.old cursor.new) }
    ensures fails { IfErr result (λ failure. IsReading failure → GoesOnTo (R.remaining reader.old) (R.remaining reader.new) cursor.old cursor.new) }
{
    match went {
        Went::Astray => cursor.pass_gap(reader),
        Went::Document | Went::Refused => Ok(()),
    }
}
