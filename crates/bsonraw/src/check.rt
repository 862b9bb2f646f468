ghost use Rattle.std.specs.Prelude.{◌≡◌, ◌++◌, IfOk, OnOk};
ghost use Rattle.std.specs.String.{string_bytes};
ghost use Rattle.raw_bson.specs.Document.{bytes_of};
ghost use Rattle.bsonraw.specs.Print.{PrintsBreach, breach_line, path_text};
ghost use Rattle.bsonraw.specs.Status.{code_of};

use crate::printed::{Printed, one_line};
use crate::status::Status;
use raw_bson::{Breach, RawDocument, validate};
use std::alloc::{AllocError, Global};

/// Whether a document is canonical; or its first breach.
pub fn check_document(alloc: Global, document: RawDocument<'_>) -> Result<Printed, AllocError>
    ensures { IfOk result
        (λ p. PrintsBreach (bytes_of document.entry) (code_of p.status) (string_bytes p.output)) }
{
    match validate(alloc, document) {
        Ok(None) => one_line(alloc, Status::Done, "canonical\n"),
        Ok(Some(breach)) => breach_printed(alloc, &breach),
        Err(_) => Err(AllocError),
    }
}

/// The line of a breach.
fn breach_printed(alloc: Global, breach: &Breach) -> Result<Printed, AllocError>
    ensures status { IfOk result (λ p. code_of p.status ≡ 1) }
    ensures output { IfOk result
        (λ p. string_bytes p.output ≡ breach_line breach.now.path.items breach.now.cause) }
{
    let cause = breach.cause;
    let mut output = String::new(alloc);
    write!(output, "breach {cause} ")?;
    push_path(&mut output, &breach.path)?;
    output.push_str("\n")?;
    let status = Status::Fault;
    Ok(Printed { status, output })
}

/// The numbers of a path, joined by dots.
fn push_path(output: &mut String, path: &[usize]) -> Result<(), AllocError>
    ensures { OnOk result (string_bytes output.new ≡ string_bytes output.old ++ path_text path.now) }
{
    let Some((first, others)) = path.split_first() else {
        return Ok(());
    };
    write!(output, "{first}")?;
    for number in others {
        write!(output, ".{number}")?;
    }
    Ok(())
}
