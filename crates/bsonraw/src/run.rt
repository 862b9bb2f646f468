ghost use Rattle.std.specs.Prelude.{◌≡◌, ◌≢◌, ◌⊎◌, OnOk};
ghost use Rattle.std.specs.Io.KnownBytes.{Appends, Keeps, IsAtEnd};
ghost use Rattle.bsonraw.specs.Print.{IsCommand, usage_line};
ghost use Rattle.bsonraw.specs.Run.{Answers};

use crate::answer::answer;
use crate::command::{Command, USAGE};
use crate::status::Status;
use std::alloc::Global;
use std::io;
use std::io::{Read, Write};

/// Reads the text to its end, writes the command's output and returns its exit status; 5 if reading or writing
/// failed. The usage of an unknown command is written before anything is read.
pub fn run<R: Read, W: Write>(alloc: Global, command: &str, reader: &mut R, writer: &mut W) -> u8
    ensures answered { IsCommand command.now → result ≢ 4 → result ≢ 5 →
        Answers command.now (R.remaining reader.old) (R.remaining reader.new)
        (W.contents writer.old) (W.contents writer.new) result }

    // Without memory for the output nothing is written. Nothing is written before all is read.
    ensures no_memory { result ≡ 4 → Keeps (W.contents writer.old) (W.contents writer.new) }
    ensures read_first { IsCommand command.now →
        Keeps (W.contents writer.old) (W.contents writer.new) ⊎ IsAtEnd (R.remaining reader.new) }

    // For an unknown command the usage is printed, whatever the reader holds.
    ensures usage { ¬ IsCommand command.now → result ≢ 5 →
        (result ≡ 3) × Appends (W.contents writer.old) (W.contents writer.new) usage_line }
    ensures unread { ¬ IsCommand command.now → reader.new ≡ reader.old }
{
    match Command::from_name(command) {
        Some(_) => answered(alloc, command, reader, writer),
        None => written(writer, USAGE.as_bytes(), Status::Usage.code()),
    }
}

/// Reads the text to its end and writes the command's output.
fn answered<R: Read, W: Write>(alloc: Global, command: &str, reader: &mut R, writer: &mut W) -> u8
    ensures answered { result ≢ 4 → result ≢ 5 →
        Answers command.now (R.remaining reader.old) (R.remaining reader.new)
        (W.contents writer.old) (W.contents writer.new) result }
    ensures no_memory { result ≡ 4 → Keeps (W.contents writer.old) (W.contents writer.new) }
    ensures read_first { Keeps (W.contents writer.old) (W.contents writer.new)
        ⊎ IsAtEnd (R.remaining reader.new) }
{
    let mut text = Vec::new(alloc);
    if reader.read_to_end(&mut text).is_err() {
        return Status::Io.code();
    }
    let (status, output) = answer(alloc, command, &text);
    written(writer, &output, status)
}

/// Writes the output. The status is the output's own, or 5 if writing failed.
fn written<W: Write>(writer: &mut W, output: &[u8], status: u8) -> u8
    ensures { result ≢ 5 → (result ≡ status)
        × Appends (W.contents writer.old) (W.contents writer.new) output.now }
{
    match put(writer, output) {
        Ok(()) => status,
        Err(_) => Status::Io.code(),
    }
}

fn put<W: Write>(writer: &mut W, output: &[u8]) -> io::Result<()>
    ensures { OnOk result (Appends (W.contents writer.old) (W.contents writer.new) output.now) }
{
    writer.write_all(output)?;
    writer.flush()
}
