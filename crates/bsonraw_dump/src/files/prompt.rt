//! Writes that are seen soon, so that a run that is ended has shown what it found.
#![tactic(auto)]

ghost use Rattle.std.specs.Prelude.{◌≡◌};
ghost use Rattle.bsonraw_dump.specs.files.Writers.{IsUnwritten};

use crate::files::tell::clear_line;
use std::io;
use std::io::Write;
use std::time::{Duration, Instant};

/// A writer that is flushed with each write, or with the first one of each second. A flush that fails is reported by the next call: what
/// came before it was taken.
#[derive(Drop)]
pub struct Prompt<'a, W> {
    rt: &'a HostRuntime,
    writer: W,
    often: bool,
    /// whether a line of standard error may be on the screen, which is cleared first
    clears: bool,
    last: Option<Instant>,
    failed: Option<io::Error>,
}

impl<'a, W> Prompt<'a, W> {
    /// The writer, flushed with each write if it is `often`, else once a second.
    pub fn new(rt: &'a HostRuntime, writer: W, often: bool, clears: bool) -> Prompt<'a, W>
        ensures { IsUnwritten writer often clears result }
    {
        Prompt {
            rt,
            writer,
            often,
            clears,
            last: None,
            failed: None,
        }
    }

    /// Whether it is time to flush.
    fn is_due(&mut self) -> bool
        ensures { self.new.writer ≡ self.old.writer }
    {
        if self.often {
            return true;
        }
        let Ok(now) = Instant::now(self.rt) else {
            return false;
        };
        let is_due = match self.last {
            Some(last) => now.duration_since(last) >= Duration::from_secs(1),
            None => true,
        };
        if is_due {
            self.last = Some(now);
        }
        is_due
    }
}

impl<W: Write> Write for Prompt<'_, W> {
    ghost contents = { λ prompt. W.contents prompt.writer };

    fn write(&mut self, buf: &[u8]) -> io::Result<usize> {
        if let Some(error) = self.failed.take() {
            return Err(error);
        }
        if self.clears {
            clear_line(self.rt);
        }
        let len = self.writer.write(buf)?;
        if self.is_due() {
            self.failed = self.writer.flush().err();
        }
        Ok(len)
    }

    fn flush(&mut self) -> io::Result<()> {
        match self.failed.take() {
            Some(error) => Err(error),
            None => self.writer.flush(),
        }
    }
}
