ghost use Rattle.std.specs.Prelude.{◌≡◌, ◌⊎◌, IfOk};
ghost use Rattle.std.specs.String.{string_bytes};
ghost use Rattle.bsonraw.specs.Print.{IsRefusal, LacksMemory, Prints, PrintsBytes, PrintsText, refusal_line};
ghost use Rattle.bsonraw.specs.Status.{code_of};

use crate::canon::canon_document;
use crate::check::check_document;
use crate::command::{Command, USAGE};
use crate::digits::without_blanks;
use crate::list::list_document;
use crate::printed::{Printed, one_line};
use crate::status::Status;
use hex::FromHexError;
use raw_bson::{ErrorKind, RawDocument, Reason};
use std::alloc::{AllocError, Global};

/// What the program prints of a text for a command's name, and its exit status: what the command prints, or how the
/// program is used. If memory runs out, it is nothing, with status 4.
pub fn answer(alloc: Global, command: &str, text: &[u8]) -> (u8, Vec<u8>)
    ensures { Prints command.now text.now result.0 result.1.items
        ⊎ LacksMemory result.0 result.1.items }
{
    match of_name(alloc, command, text) {
        Ok(Printed { status, output }) => (status.code(), output.into_bytes()),
        Err(AllocError) => (Status::NoMemory.code(), Vec::new(alloc)),
    }
}

/// What the command of a name prints of a text, or the usage line.
fn of_name(alloc: Global, name: &str, text: &[u8]) -> Result<Printed, AllocError>
    ensures { IfOk result
        (λ p. Prints name.now text.now (code_of p.status) (string_bytes p.output)) }
{
    match Command::from_name(name) {
        Some(command) => of_text(alloc, command, text),
        None => one_line(alloc, Status::Usage, USAGE),
    }
}

/// What a command prints of a text: of the document that it spells in hex, or why it spells none.
fn of_text(alloc: Global, command: Command, text: &[u8]) -> Result<Printed, AllocError>
    ensures { IfOk result
        (λ p. PrintsText command text.now (code_of p.status) (string_bytes p.output)) }
{
    let digits = without_blanks(alloc, text)?;
    match hex::decode(alloc, digits.as_slice()) {
        Ok(bytes) => of_bytes(alloc, command, &bytes),
        Err(FromHexError::OutOfMemory) => Err(AllocError),
        Err(_) => one_line(alloc, Status::BadHex, "bad hex\n"),
    }
}

/// What a command prints of bytes: of the document that they are, or why they are none.
fn of_bytes(alloc: Global, command: Command, bytes: &[u8]) -> Result<Printed, AllocError>
    ensures { IfOk result
        (λ p. PrintsBytes command bytes.now (code_of p.status) (string_bytes p.output)) }
{
    match RawDocument::from_bytes(bytes) {
        Ok(document) => match command {
            Command::List => list_document(alloc, document),
            Command::Canon => canon_document(alloc, document),
            Command::Check => check_document(alloc, document),
        },
        Err(error) => match error.kind {
            ErrorKind::MalformedValue { reason } => refused(alloc, reason),
            ErrorKind::Utf8EncodingError(_) | ErrorKind::OutOfMemory => unreachable!(),
        },
    }
}

/// The line of bytes that are no document, with the number of the reason.
fn refused(alloc: Global, reason: Reason) -> Result<Printed, AllocError>
    requires { IsRefusal reason }
    ensures { IfOk result
        (λ p. (code_of p.status ≡ 1) × (string_bytes p.output ≡ refusal_line reason)) }
{
    let line = match reason {
        Reason::TooShort => "refused 1\n",
        Reason::LengthIncorrect => "refused 2\n",
        Reason::NotTerminated => "refused 3\n",
        Reason::Overflowed
        | Reason::InvalidTag(_)
        | Reason::StringHeadShort(_)
        | Reason::NegativeLength
        | Reason::StringTooSmall
        | Reason::StringPastEnd(..)
        | Reason::StringNotTerminated
        | Reason::PastEnd(..)
        | Reason::DocumentTooSmall(_)
        | Reason::NestedNotTerminated
        | Reason::LengthHeadShort(_)
        | Reason::NoTerminator
        | Reason::BadBoolean(_)
        | Reason::OldNoInner
        | Reason::AddOverflow
        | Reason::OldWrongInner
        | Reason::CodeTooSmall
        | Reason::InteriorNul
        | Reason::TooLong
        | Reason::TooManyBytes
        | Reason::TooDeep => unreachable!(),
    };
    one_line(alloc, Status::Fault, line)
}
