//! Documents whose texts are replaced if they aren't UTF-8.
#![tactic(auto)]

ghost use Rattle.std.specs.Prelude.{◌≡◌, ◌≤◌, IfErr, IfOk, IfSome, length, vec_len};
ghost use Rattle.std.specs.Option.{option_map};
ghost use Rattle.raw_form.specs.Replacing.{IsWithin, TellsReplaced};
ghost use Rattle.raw_form.specs.ReplacingSteps.{ExceedsAll, TellsMade};
ghost use Rattle.raw_view.specs.Document.{bytes_of};
ghost use Rattle.raw_view.specs.Frame.Number.{max_length};

use crate::code_len::CodeLen;
use crate::held::{put_end, put_opening};
use crate::replaced::{Open, Put, put_kept};
use raw_tree::Limits;
use raw_view::{Elements, Error, ErrorKind, Holder, RawDocument, Result};
use std::alloc::{AllocError, Global};
use std::mem;

/// What a document becomes that may have `depth` levels; `None` if it has more, or a fault that is no text. The error is
/// out of memory, or that what it becomes is too long.
fn replaced_to(alloc: Global, document: RawDocument<'_>, depth: usize) -> Result<Option<Vec<u8>>>
    ensures made { IfOk result (λ made. TellsMade depth (bytes_of document.entry) (option_map (λ m. m.items) made)) }
    ensures fits { IfOk result (λ made. IfSome made (λ m. vec_len m ≤ max_length)) }
    ensures err { IfErr result (ExceedsAll depth (bytes_of document.entry)) }
{
    if depth == 0 {
        return Ok(None);
    }
    let mut out = Vec::with_capacity(alloc, document.as_bytes().len())?;
    put_opening(&mut out, Holder::Document)?;
    let mut waiting: Vec<Open<'_>> = Vec::new(alloc);
    let mut level = Open {
        elements: Elements::new(document),
        start: 0,
        code_len: CodeLen::none(),
    };
    'levels: loop {
        let Some(next) = level.elements.next() else {
            put_end(&mut out, level.start, &level.code_len)?;
            let Some(outer) = waiting.pop() else {
                return Ok(Some(out));
            };
            level = outer;
            continue 'levels;
        };
        let Ok(element) = next else {
            return Ok(None);
        };
        match put_kept(alloc, &mut out, element)? {
            Put::Whole => {}
            Put::Fault => return Ok(None),
            Put::Inside(inner) => {
                if waiting.len() + 1 == depth {
                    return Ok(None);
                }
                let outer = mem::replace(&mut level, inner);
                if waiting.push(outer).is_err() {
                    return Err(Error::out_of_memory());
                }
            }
        }
    }
}

/// The document with U+FFFD in place of what isn't UTF-8 in the texts of its values, as `String::from_utf8_lossy` has it, and
/// with its lengths made right; all else stays as it is. `None` if it has another fault, also a key or a regular expression that
/// isn't UTF-8, more levels than allowed, or would have more bytes than allowed or than 2147483647. BSON 1.1, `document`.
///
/// Not in the contract: the call takes time in proportion to the bytes, and no depth fills the stack.
/// ```
/// let document = RawDocument::from_bytes(b"\x0E\0\0\0\x02a\0\x02\0\0\0\xFF\0\0")?;
/// let kept = with_replaced_texts(alloc, document, Limits { bytes: 1000, depth: 10 })?;
/// assert!(rt; kept.is_some_and(|kept| kept.as_slice() == b"\x10\0\0\0\x02a\0\x04\0\0\0\xEF\xBF\xBD\0\0".as_slice()));
/// ```
pub fn with_replaced_texts(
    alloc: Global,
    document: RawDocument<'_>,
    limits: Limits,
) -> std::result::Result<Option<Vec<u8>>, AllocError>
    ensures told { IfOk result (TellsReplaced limits (bytes_of document.entry)) }
    ensures sound { IfOk result (IsWithin limits) }
{
    match replaced_to(alloc, document, limits.depth) {
        Ok(Some(made)) if made.len() <= limits.bytes => Ok(Some(made)),
        Ok(_) => Ok(None),
        Err(error) => match error.kind {
            ErrorKind::OutOfMemory => Err(AllocError),
            _ => Ok(None),
        },
    }
}
