//! A dump that is split into its documents.
ghost use Rattle.std.specs.Prelude.{◌≡◌, ◌++◌, [], map, IfOk, IfErr, MatchOption, Some, None};
ghost use Rattle.raw_bson.specs.Document.{bytes_of};
ghost use Rattle.raw_bson.specs.Errors.{IsOutOfMemory};
ghost use Rattle.raw_bson.specs.Folds.{joined};
ghost use Rattle.bson_uses.specs.Dump.{RefusesRest};

use raw_bson::{NoDocument, RawDocument, Result};
use std::alloc::Global;

/// What a dump was split into: its documents, what is left where the next document should begin, and why none
/// does.
#[derive(Drop)]
pub struct Dump<'a> {
    /// the documents, in order
    pub documents: Vec<RawDocument<'a>>,
    /// what is left; empty if the dump ends with a document
    pub rest: &'a [u8],
    /// why no document is there
    pub error: Option<NoDocument>,
}

impl<'a> Dump<'a> {
    /// The documents of a whole dump, or why something is left.
    pub fn whole(self) -> std::result::Result<Vec<RawDocument<'a>>, NoDocument>
        ensures whole { IfOk result (λ ds. (self.entry.error ≡ None) × (ds ≡ self.entry.documents)) }
        ensures left { IfErr result (λ why. self.entry.error ≡ Some why) }
    {
        match self.error {
            Some(why) => Err(why),
            None => Ok(self.documents),
        }
    }
}

/// The documents at the front of the bytes, end to end, and why there are no more; or out of memory.
/// ```
/// let dump = split_dump(alloc, b"\x05\0\0\0\0\x05\0\0\0\0\x05\0")?;
/// assert!(rt; dump.documents.len() == 2 && dump.rest == b"\x05\0".as_slice());
/// assert_eq!(rt; dump.error, Some(NoDocument::TooShort));
/// ```
pub fn split_dump<'a>(alloc: Global, bytes: &'a [u8]) -> Result<Dump<'a>>
    ensures pieces { IfOk result
        (λ dump. joined (map bytes_of dump.documents.items) ++ dump.rest.now ≡ bytes.now) }
    ensures whole { IfOk result
        (λ dump. MatchOption dump.error (dump.rest.now ≡ []) (RefusesRest dump.rest.now)) }
    ensures err { IfErr result IsOutOfMemory }
{
    let mut documents = Vec::new(alloc);
    let mut rest = bytes;
    while !rest.is_empty() {
        match RawDocument::split_first(rest) {
            Ok((document, behind)) => {
                documents.push(document)?;
                rest = behind;
            }
            Err(why) => {
                return Ok(Dump {
                    documents,
                    rest,
                    error: Some(why),
                });
            }
        }
    }
    Ok(Dump {
        documents,
        rest,
        error: None,
    })
}
