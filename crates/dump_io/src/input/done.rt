//! How runs over inputs end.
#![tactic(auto)]

ghost use Rattle.std.specs.Prelude.{IfErr};
ghost use Rattle.std.specs.Io.KnownBytes.{Keeps};
ghost use Rattle.dump_io.specs.lines.Failing.{IsReading};

use crate::input::status::Status;
use crate::lines::failure::Failure;
use std::io::Write;

/// An input that wasn't read to its end.
#[derive(Clone, Copy)]
pub struct Cut<'a> {
    /// its name
    pub name: &'a str,
    /// whether bytes could be passed over in it
    pub goes_on: bool,
}

/// Why not all was written.
#[derive(Drop)]
pub enum Lack<'a> {
    /// an input wasn't read to its end
    Cut(Cut<'a>),
    /// the run failed
    Failed(Failure),
}

/// How a run over inputs ends.
#[derive(Drop)]
pub struct Done<'a> {
    /// the exit status
    pub status: Status,
    /// why not all was written, if it wasn't
    pub lack: Option<Lack<'a>>,
}

/// Flushes a writer.
pub fn flush<W: Write>(writer: &mut W) -> Result<(), Failure>
    ensures kept { Keeps (W.contents writer.old) (W.contents writer.new) }
    ensures failed { IfErr result (λ failure. ¬ IsReading failure) }
{
    match writer.flush() {
        Ok(()) => Ok(()),
        Err(error) => Err(Failure::Writing(error)),
    }
}
