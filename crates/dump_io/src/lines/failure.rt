ghost use Rattle.std.specs.Prelude.{◌≡◌, IfErr, IfOk, IsNone, OnErr, Some};
ghost use Rattle.dump_io.specs.lines.Failing.{IsReading};
ghost use Rattle.dump_io.specs.declared.lines.failure.Failure.TheVariants.{TooLarge};

use std::alloc::AllocError;
use std::io;

/// Why a step of a run fails. Reading that fails ends one input, the others end the run over all.
#[derive(Drop)]
pub enum Failure {
    /// memory ran out
    Memory,
    /// a number would be over its range: more is read or found than can be counted
    TooLarge,
    /// reading failed
    Reading(io::Error),
    /// writing failed
    Writing(io::Error),
}

impl From<AllocError> for Failure {
    ghost use Rattle.dump_io.specs.declared.lines.failure.Failure.TheVariants.{Memory};

    ghost from_gives = { λ _ failure. failure ≡ Memory };

    fn from(_: AllocError) -> Failure {
        Failure::Memory
    }
}

/// Reading failed, after this number of bytes of an input.
#[derive(Drop)]
pub struct ReadFailure {
    /// how many bytes were read
    pub at: u64,
    /// why no more were
    pub error: io::Error,
}

/// A number, unless it is over its range.
pub fn in_range<T: Copy>(number: Option<T>) -> Result<T, Failure>
    ensures same { IfOk result (λ n. number ≡ Some n) }
    ensures none { OnErr result (IsNone number) }
    ensures failed { IfErr result (λ failure. ¬ IsReading failure) }
    ensures large { IfErr result (λ failure. failure ≡ TooLarge) }
{
    match number {
        Some(number) => Ok(number),
        None => Err(Failure::TooLarge),
    }
}
