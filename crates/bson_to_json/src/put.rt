//! Writes bytes.
#![tactic(auto)]

ghost use Rattle.std.specs.Prelude.{◌++◌, replicate, OnErr, OnOk};
ghost use Rattle.std.specs.Io.KnownBytes.{Appends};
ghost use Rattle.bson_to_json.specs.Written.{AppendsFront};

use std::io;
use std::io::Write;

/// The number of bytes that are written in one call.
const BLOCK: usize = 64;

/// Writes these bytes, as `write_all` does. If it fails, a prefix of them was written.
pub fn put_all<W: Write>(out: &mut W, bytes: &[u8]) -> io::Result<()>
    ensures written { OnOk result (Appends (W.contents out.old) (W.contents out.new) bytes.now) }
    ensures front { OnErr result (AppendsFront (W.contents out.old) (W.contents out.new) bytes.now) }
{
    let mut rest = bytes;
    'calls: for _ in 0..u64::MAX {
        if rest.is_empty() {
            return Ok(());
        }
        match out.write(rest) {
            Ok(0) => return Err(io::Error::from(io::ErrorKind::WriteZero)),
            Ok(len) => rest = &rest[len..],
            Err(error) => {
                if error.kind() != io::ErrorKind::Interrupted {
                    return Err(error);
                }
            }
        }
    }
    Err(io::Error::from(io::ErrorKind::TimedOut))
}

/// Writes these bytes.
#[inline(always)]
pub(crate) fn put<W: Write>(out: &mut W, bytes: &[u8]) -> io::Result<()>
    ensures { OnOk result (Appends (W.contents out.old) (W.contents out.new) bytes.now) }
{
    out.write_all(bytes)
}

/// Writes this text.
#[inline(always)]
pub(crate) fn put_words<W: Write>(out: &mut W, words: &str) -> io::Result<()>
    ensures { OnOk result (Appends (W.contents out.old) (W.contents out.new) words.now) }
{
    out.write_all(words.as_bytes())
}

/// Writes these bytes between two texts.
#[inline]
pub(crate) fn put_bytes_between<W: Write>(
    out: &mut W,
    before: &str,
    bytes: &[u8],
    behind: &str,
) -> io::Result<()>
    ensures { OnOk result
        (Appends (W.contents out.old) (W.contents out.new) (before.now ++ (bytes.now ++ behind.now))) }
{
    put_words(out, before)?;
    put(out, bytes)?;
    put_words(out, behind)
}

/// Writes this text between two others.
#[inline]
pub(crate) fn put_between<W: Write>(
    out: &mut W,
    before: &str,
    text: &str,
    behind: &str,
) -> io::Result<()>
    ensures { OnOk result
        (Appends (W.contents out.old) (W.contents out.new) (before.now ++ (text.now ++ behind.now))) }
{
    put_words(out, before)?;
    put_words(out, text)?;
    put_words(out, behind)
}

/// Writes a byte `count` times.
pub(crate) fn put_repeated<W: Write>(out: &mut W, byte: u8, count: usize) -> io::Result<()>
    ensures { OnOk result (Appends (W.contents out.old) (W.contents out.new) (replicate count byte)) }
{
    let block = [byte; BLOCK];
    let mut left = count;
    'writing: while left > BLOCK {
        put(out, &block)?;
        left -= BLOCK;
    }
    put(out, &block[..left])
}
