//! Findings that are reported while an output is written.
#![tactic(auto)]

ghost use Rattle.std.specs.Prelude.{◌≡◌};
ghost use Rattle.bsonraw_dump.specs.files.Findings.{FailsAs};

use crate::files::tell::clear_line;
use std::io;
use std::io::{ErrorKind, Write};

/// A writer of findings. If they go elsewhere than the output, a pipe of theirs that has no reader fails as any other writer does: the
/// output, which isn't whole then, may have one.
#[derive(Drop)]
pub struct Findings<'a, W> {
    pub rt: &'a HostRuntime,
    /// Where findings go.
    pub writer: W,
    /// Whether a line of standard error may be on the screen, which is cleared first.
    pub clears: bool,
    /// Whether that is elsewhere than the output.
    pub is_apart: bool,
}

/// How a write of findings fails that failed so.
fn failure(is_apart: bool, error: io::Error) -> io::Error
    ensures { FailsAs is_apart error result }
{
    if is_apart && error.kind() == ErrorKind::BrokenPipe {
        return io::Error::other("nobody reads the findings");
    }
    error
}

impl<W: Write> Write for Findings<'_, W> {
    ghost contents = { λ findings. W.contents findings.writer };

    fn write(&mut self, buf: &[u8]) -> io::Result<usize> {
        if self.clears {
            clear_line(self.rt);
        }
        match self.writer.write(buf) {
            Ok(len) => Ok(len),
            Err(error) => Err(failure(self.is_apart, error)),
        }
    }

    fn flush(&mut self) -> io::Result<()> {
        match self.writer.flush() {
            Ok(()) => Ok(()),
            Err(error) => Err(failure(self.is_apart, error)),
        }
    }
}
