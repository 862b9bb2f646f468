ghost use Rattle.std.specs.Prelude.{◌≡◌};
ghost use Rattle.bsonraw_c.specs.Dumps.{HasNone, IsWithin, ReadsNext, place_behind, reason_of_none};

use crate::answers::FaultCode;
use crate::codes::Status;
use crate::fault::Fault;
use raw_bson::{NoDocument, RawDocument, Reason};

/// A document of several, one after another, and where the next one begins.
#[repr(C)]
#[derive(Clone, Copy)]
pub struct Reader {
    /// where the document begins
    pub document_at: u64,
    /// how many bytes it has; 0 where there is none
    pub document_len: u64,
    /// where the next document begins
    pub next: u64,
    /// the last fault that was met
    pub fault: Fault,
}

/// Goes on to the next document of bytes that hold documents one after another.
#[unsafe(no_mangle)]
pub extern "C" fn bsonraw_reader_read(reader: &mut Reader, bytes: &[u8]) -> i32
    ensures { ReadsNext bytes.now reader.old reader.new result }
{
    let next = reader.next as usize;
    if bytes.len() < next {
        reader.leave(bytes);
        return Status::BadOffset.number();
    }
    if bytes.len() == next {
        reader.leave(bytes);
        return Status::Nothing.number();
    }
    match RawDocument::split_first(bytes.split_at(next).1) {
        Ok((document, _)) => {
            let len = document.as_bytes().len();
            reader.document_at = next as u64;
            reader.document_len = len as u64;
            reader.next = (next + len) as u64;
            Status::Done.number()
        }
        Err(why) => {
            reader.leave(bytes);
            reader.next = behind_damage(bytes.len(), next, why) as u64;
            reader.fault = Fault {
                why: FaultCode::malformed(reason_of(why)),
                offset: next as u64,
            };
            Status::NoDocument.number()
        }
    }
}

impl Reader {
    /// At no document.
    fn leave(&mut self, bytes: &[u8])
        ensures none { HasNone bytes.now self.new }
        ensures next { self.new.next ≡ self.old.next }
        ensures fault { self.new.fault ≡ self.old.fault }
    {
        self.document_at = bytes.len() as u64;
        self.document_len = 0;
    }
}

/// Where the next document may begin after the damaged one at this offset of `end` bytes.
fn behind_damage(end: usize, offset: usize, why: NoDocument) -> usize
    requires { IsWithin end offset why }
    ensures { result ≡ place_behind end offset why }
{
    match why {
        NoDocument::NotTerminated(len) => offset + len,
        NoDocument::TooShort | NoDocument::LengthIncorrect => end,
    }
}

/// Why there is no document, as a reason.
fn reason_of(why: NoDocument) -> Reason
    ensures { result ≡ reason_of_none why }
{
    match why {
        NoDocument::TooShort => Reason::TooShort,
        NoDocument::LengthIncorrect => Reason::LengthIncorrect,
        NoDocument::NotTerminated(_) => Reason::NotTerminated,
    }
}
