ghost use Rattle.std.specs.Prelude.{◌≡◌, ◌≢◌, ◌++◌, ℕ, List, Option, OnOk};
ghost use Rattle.std.specs.String.{string_bytes};
ghost use Rattle.raw_bson.specs.Errors.{TellsFault};
ghost use Rattle.raw_bson.specs.Frame.{Fault, Stopped};
ghost use Rattle.bsonraw.specs.Print.{end_line};

use crate::key::key_digits;
use raw_bson::{Error, ErrorKind};
use std::alloc::{AllocError, Global};

/// Appends the line of a fault: kind and key. Fails if the error is out of memory, or memory runs out.
pub fn push_fault(alloc: Global, output: &mut String, error: &Error) -> Result<(), AllocError>
    ensures line { (fault : Fault) (key : Option (List ℕ)) → TellsFault error.now fault key →
        OnOk result
        (string_bytes output.new ≡ string_bytes output.old ++ end_line (Stopped fault key)) }
    ensures memory { OnOk result (error.now.kind ≢ ErrorKind.OutOfMemory) }
{
    let kind = match &error.kind {
        ErrorKind::MalformedValue { .. } => "malformed",
        ErrorKind::Utf8EncodingError(_) => "utf8",
        ErrorKind::OutOfMemory => return Err(AllocError),
    };
    match error.key() {
        Some(key) => {
            let key = key_digits(alloc, key)?;
            writeln!(output, "fault {kind} {key}")
        }
        None => writeln!(output, "fault {kind} none"),
    }
}
