ghost use Rattle.std.specs.Prelude.{◌≡◌, IfErr, IfOk};
ghost use Rattle.raw_bson.specs.Document.{bytes_of};
ghost use Rattle.raw_bson.specs.Envelope.{IsEnvelope, Refuses};

use raw_bson::{ErrorKind, RawDocument, Reason};

/// A view of the bytes, or the first reason for which they are no document.
pub fn document_of<'a>(bytes: &'a [u8]) -> Result<RawDocument<'a>, Reason>
    ensures same { IfOk result (λ document. bytes_of document ≡ bytes.now) }
    ensures sound { IfOk result (λ _. IsEnvelope bytes.now) }
    ensures refused { IfErr result (Refuses bytes.now) }
{
    match RawDocument::from_bytes(bytes) {
        Ok(document) => Ok(document),
        Err(error) => match error.kind {
            ErrorKind::MalformedValue { reason } => Err(reason),
            ErrorKind::Utf8EncodingError(_) | ErrorKind::OutOfMemory => unreachable!(),
        },
    }
}
