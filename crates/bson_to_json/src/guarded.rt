//! Readers and writers that know whether a read or a write failed.
#![tactic(auto)]

ghost use Rattle.std.specs.Prelude.{◌≡◌, false, true, OnErr, OnOk};
ghost use Rattle.std.specs.Io.{ReadsAtMost, WritesAtMost};
ghost use Rattle.std.specs.Io.KnownBytes.{Appends, Keeps, ReadConsumes, WriteAppends};
ghost use Rattle.bson_to_json.specs.Guarding.{MarksRead, MarksWrite, failed_of, inner_of};
ghost use Rattle.bson_to_json.specs.Written.{AppendsFront};

use std::io;
use std::io::{ErrorKind, Read, Write};

/// A reader or a writer, and whether a read or a write of it failed. Nothing else says so: the field is set in this file
/// alone. A read or a write that was interrupted didn't fail, unless `write_json` tried `u64::MAX` times and gave up. A flush
/// that was interrupted failed.
/// ```
/// let document = RawDocument::from_bytes(b"\x05\0\0\0\0")?;
/// let style = Style { format: Format::Relaxed, layout: Layout::OneLine };
/// let mut out = Guarded::new(Vec::new(alloc));
/// assert!(rt; write_json(alloc, document, style, Limits { bytes: 5, depth: 1 }, &mut out).is_ok());
/// assert!(rt; !out.has_failed());
/// assert_eq!(rt; out.into_inner().as_slice(), b"{}".as_slice());
/// ```
#[derive(Drop)]
pub struct Guarded<T> {
    /// what reads or writes
    inner: T,
    /// whether it failed
    failed: bool,
}

impl<T> Guarded<T> {
    /// Guards a reader or a writer, of which nothing failed yet.
    pub fn new(inner: T) -> Guarded<T>
        ensures inner { inner_of result ≡ inner }
        ensures failed { failed_of result ≡ false }
    {
        Guarded {
            inner,
            failed: false,
        }
    }

    /// Whether a read or a write failed.
    pub fn has_failed(&self) -> bool
        ensures { result ≡ failed_of self.now }
    {
        self.failed
    }

    /// The reader or the writer that was guarded.
    pub fn into_inner(self) -> T
        ensures { result ≡ inner_of self }
    {
        self.inner
    }
}

impl<W: Write> Guarded<W> {
    /// Writes these bytes, as `write_all` does. If it fails, a prefix of them was written, and `has_failed` says so. It gives up
    /// after `u64::MAX` writes.
    pub(crate) fn put_all(&mut self, bytes: &[u8]) -> io::Result<()>
        ensures written { OnOk result (Appends (W.contents self.old.inner) (W.contents self.new.inner) bytes.now) }
        ensures front { OnErr result (AppendsFront (W.contents self.old.inner) (W.contents self.new.inner) bytes.now) }
        ensures same { OnOk result (self.new.failed ≡ self.old.failed) }
        ensures caused { OnErr result (self.new.failed ≡ true) }
    {
        let mut rest = bytes;
        'calls: for _ in 0..u64::MAX {
            if rest.is_empty() {
                return Ok(());
            }
            match self.write(rest) {
                Ok(0) => return Err(io::Error::from(ErrorKind::WriteZero)),
                Ok(len) => rest = &rest[len..],
                Err(error) => {
                    if error.kind() != ErrorKind::Interrupted {
                        return Err(error);
                    }
                }
            }
        }
        self.failed = true;
        Err(io::Error::from(ErrorKind::TimedOut))
    }
}

impl<R: Read> Read for Guarded<R> {
    ghost remaining = { λ guarded. R.remaining (inner_of guarded) };

    /// Reads bytes. A read failed if it returns an error, unless it was interrupted.
    fn read(&mut self, buf: &mut [u8]) -> io::Result<usize>
        ensures bound { ReadsAtMost result buf.new }
        ensures bytes { ReadConsumes (R.remaining (inner_of self.old)) (R.remaining (inner_of self.new)) result buf.new }
        ensures marks { MarksRead (failed_of self.old) (failed_of self.new) result }
    {
        let result = self.inner.read(buf);
        if let Err(error) = &result {
            if error.kind() != ErrorKind::Interrupted {
                self.failed = true;
            }
        }
        result
    }
}

impl<W: Write> Write for Guarded<W> {
    ghost contents = { λ guarded. W.contents (inner_of guarded) };

    /// Writes some of these bytes. A write failed if it took none of them, unless it was interrupted or there are none.
    fn write(&mut self, buf: &[u8]) -> io::Result<usize>
        ensures bound { WritesAtMost result buf.now }
        ensures bytes { WriteAppends (W.contents (inner_of self.old)) (W.contents (inner_of self.new)) result buf.now }
        ensures marks { MarksWrite (failed_of self.old) (failed_of self.new) buf.now result }
    {
        let result = self.inner.write(buf);
        match &result {
            Ok(len) => {
                if *len == 0 && !buf.is_empty() {
                    self.failed = true;
                }
            }
            Err(error) => {
                if error.kind() != ErrorKind::Interrupted {
                    self.failed = true;
                }
            }
        }
        result
    }

    /// Flushes. A flush failed if it returns an error.
    fn flush(&mut self) -> io::Result<()>
        ensures bytes { Keeps (W.contents (inner_of self.old)) (W.contents (inner_of self.new)) }
        ensures same { OnOk result (failed_of self.new ≡ failed_of self.old) }
        ensures failed { OnErr result (failed_of self.new ≡ true) }
    {
        let result = self.inner.flush();
        if result.is_err() {
            self.failed = true;
        }
        result
    }
}
