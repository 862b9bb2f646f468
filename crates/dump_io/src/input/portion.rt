//! Which documents of an input are asked for.
#![tactic(auto)]

ghost use Rattle.std.specs.Prelude.{◌≡◌, ◌≢◌, ℕ, List, Some, [], IfErr, MatchBool, OnOk};
ghost use Rattle.dump_io.specs.input.InFront.{GoesUpTo, HasPassedFront, IsAllInFront, IsInFront, PassesAllDocuments, PassesBytes, PassesDocuments};
ghost use Rattle.dump_io.specs.input.Reading.{IsWindow, ahead_of, offset_of};
ghost use Rattle.dump_io.specs.lines.Failing.{IsReading};

use crate::input::window::{Next, Window, look_ahead};
use crate::lines::failure::Failure;
use std::io::Read;

/// Which documents of an input are asked for.
#[derive(Clone, Copy)]
pub struct Portion {
    /// those from this offset on
    pub at: u64,
    /// how many of these are left out at first
    pub skip: u64,
    /// how many follow at most; `None`: all
    pub take: Option<u64>,
}

impl Portion {
    /// Whether `count` documents are all that is asked for.
    pub fn is_enough(self, count: u64) -> bool
        ensures { MatchBool result (self.take ≡ Some count) (self.take ≢ Some count) }
    {
        self.take == Some(count)
    }

    /// Passes over what is before the documents that are asked for. A document has at most `most` bytes.
    pub fn pass_front<R: Read>(
        self,
        most: usize,
        reader: &mut R,
        window: &mut Window,
    ) -> Result<(), Failure>
        requires { IsWindow window.old × (ahead_of window.old ≡ []) × (offset_of window.old ≡ 0) }
        ensures passed { OnOk result ((front : List ℕ) × HasPassedFront front (R.remaining reader.old) (R.remaining reader.new) window.new
            × IsAllInFront self most (R.remaining reader.old) front) }
        ensures fails { IfErr result (λ failure. IsReading failure
            → (front : List ℕ) × HasPassedFront front (R.remaining reader.old) (R.remaining reader.new) window.new × IsInFront self most (R.remaining reader.old) front) }
    {
        pass_bytes(self.at, reader, window)?;
        pass_documents(self.skip, most, reader, window)
    }
}

/// Passes over `count` bytes, or all that the input has.
fn pass_bytes<R: Read>(count: u64, reader: &mut R, window: &mut Window) -> Result<(), Failure>
    requires { IsWindow window.old }
    ensures passed { OnOk result (PassesBytes count (R.remaining reader.old) (R.remaining reader.new) window.old window.new) }
    ensures fails { IfErr result (λ failure. IsReading failure
        → GoesUpTo count (R.remaining reader.old) (R.remaining reader.new) window.old window.new) }
{
    let mut left = count;
    'bytes: while left > 0 {
        if !window.look(reader, 1)? {
            return Ok(());
        }
        let part = left.min(window.ahead().len() as u64);
        window.pass(part as usize)?;
        left -= part;
    }
    Ok(())
}

/// Passes over `count` documents of at most `most` bytes each, at their lengths, or those before the first place where none begins.
fn pass_documents<R: Read>(
    count: u64,
    most: usize,
    reader: &mut R,
    window: &mut Window,
) -> Result<(), Failure>
    requires { IsWindow window.old }
    ensures passed { OnOk result (PassesAllDocuments most count (R.remaining reader.old) (R.remaining reader.new) window.old window.new) }
    ensures fails { IfErr result (λ failure. IsReading failure
        → PassesDocuments most count (R.remaining reader.old) (R.remaining reader.new) window.old window.new) }
{
    'documents: for _ in 0..count {
        let Next::Document(len) = look_ahead(reader, window, 0, most)? else {
            return Ok(());
        };
        window.pass(len)?;
    }
    Ok(())
}
