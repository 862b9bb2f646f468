ghost use Rattle.std.specs.Prelude.{◌≡◌, ◌++◌, IfOk, OnOk};
ghost use Rattle.std.specs.String.{string_bytes};
ghost use Rattle.raw_bson.specs.Document.{bytes_of};
ghost use Rattle.raw_bson.specs.ElementSteps.{frame_of};
ghost use Rattle.bsonraw.specs.Print.{PrintsWalk, frame_line};
ghost use Rattle.bsonraw.specs.Status.{code_of};

use crate::fault::push_fault;
use crate::key::key_digits;
use crate::printed::Printed;
use crate::status::Status;
use raw_bson::{RawDocument, RawElement};
use std::alloc::{AllocError, Global};

/// A line for each element, and one that says how they end.
pub fn list_document(alloc: Global, document: RawDocument<'_>) -> Result<Printed, AllocError>
    ensures { IfOk result
        (λ p. PrintsWalk (bytes_of document.entry) (code_of p.status) (string_bytes p.output)) }
{
    let mut output = String::new(alloc);
    for item in document.iter_elements(alloc) {
        match item {
            Ok(element) => push_element(alloc, &mut output, element)?,
            Err(error) => {
                push_fault(alloc, &mut output, &error)?;
                let status = Status::Fault;
                return Ok(Printed { status, output });
            }
        }
    }
    output.push_str("end\n")?;
    let status = Status::Done;
    Ok(Printed { status, output })
}

/// The line of an element: tag, key and length.
fn push_element(
    alloc: Global,
    output: &mut String,
    element: RawElement<'_>,
) -> Result<(), AllocError>
    ensures { OnOk result (string_bytes output.new ≡ string_bytes output.old
        ++ frame_line (frame_of element.entry)) }
{
    let tag = hex::encode(alloc, [element.element_type().to_tag()])?;
    let key = key_digits(alloc, element.key())?;
    let len = element.len();
    writeln!(output, "{tag} {key} {len}")
}
