ghost use Rattle.std.specs.Prelude.{◌≡◌, ℕ, List, IfOk, IfErr};
ghost use Rattle.std.specs.Option.{option_copied};
ghost use Rattle.std.specs.String.{string_bytes};
ghost use Rattle.raw_bson.specs.Document.{bytes_of};
ghost use Rattle.bsonraw.specs.Form.{HasForm, LacksForm, limit_text};
ghost use Rattle.bsonraw.specs.Print.{PrintsForm, form_limits};
ghost use Rattle.bsonraw.specs.Status.{code_of};

use crate::fault::push_fault;
use crate::printed::{Printed, one_line};
use crate::status::Status;
use raw_bson::{
    Error, ErrorKind, Limits, RawDocument, RawDocumentBuf, Reason, document_from_raw_within,
};
use std::alloc::{AllocError, Global};

/// The limits of a document whose canonical form is asked for.
fn limits() -> Limits
    ensures { result ≡ form_limits }
{
    Limits {
        bytes: 16_777_216,
        depth: 500,
    }
}

/// The canonical form of a document in hex, or why there is none.
pub fn canon_document(alloc: Global, document: RawDocument<'_>) -> Result<Printed, AllocError>
    ensures { IfOk result
        (λ p. PrintsForm (bytes_of document.entry) (code_of p.status) (string_bytes p.output)) }
{
    match canonical_form(alloc, document) {
        Ok(form) => form_line(alloc, form.as_bytes()),
        Err(error) => without_form(alloc, &error),
    }
}

/// The canonical form of a document within the limits.
fn canonical_form(alloc: Global, document: RawDocument<'_>) -> raw_bson::Result<RawDocumentBuf>
    ensures form { IfOk result (HasForm (bytes_of document.entry)) }
    ensures refused { IfErr result (LacksForm (bytes_of document.entry)) }
{
    let tree = document_from_raw_within(alloc, document, limits())?;
    RawDocumentBuf::from_document(alloc, &tree)
}

/// The line of a canonical form, in hex.
fn form_line(alloc: Global, form: &[u8]) -> Result<Printed, AllocError>
    ensures { (b : List ℕ) → HasForm b form.now → IfOk result
        (λ p. PrintsForm b (code_of p.status) (string_bytes p.output)) }
{
    let mut output = hex::encode(alloc, form)?;
    output.push_str("\n")?;
    let status = Status::Done;
    Ok(Printed { status, output })
}

/// The line of an error that says a limit: of writing, of bytes, or of depth.
fn limit_line(error: &Error) -> Option<&'static str>
    ensures { option_copied result ≡ limit_text error.now.kind }
{
    match error.kind {
        ErrorKind::MalformedValue {
            reason: Reason::TooLong,
        } => Some("refused 5\n"),
        ErrorKind::MalformedValue {
            reason: Reason::TooManyBytes,
        } => Some("refused 6\n"),
        ErrorKind::MalformedValue {
            reason: Reason::TooDeep,
        } => Some("refused 7\n"),
        _ => None,
    }
}

/// Why a document has no canonical form that can be printed: a limit, or its first fault.
fn without_form(alloc: Global, error: &Error) -> Result<Printed, AllocError>
    ensures { (b : List ℕ) → LacksForm b error.now → IfOk result
        (λ p. PrintsForm b (code_of p.status) (string_bytes p.output)) }
{
    if let Some(line) = limit_line(error) {
        return one_line(alloc, Status::Fault, line);
    }
    let mut output = String::new(alloc);
    push_fault(alloc, &mut output, error)?;
    let status = Status::Fault;
    Ok(Printed { status, output })
}
