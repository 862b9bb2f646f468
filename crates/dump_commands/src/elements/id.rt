//! What shows the `_id` of a document.
#![tactic(auto)]

ghost use Rattle.std.specs.Prelude.{◌≡◌, IfOk};
ghost use Rattle.dump_commands.specs.elements.Id.{ShowsId};

use crate::elements::pick::first_with;
use dump_io::lines::value::push_value;
use raw_view::RawDocument;
use std::alloc::{AllocError, Global};

/// What shows the first `_id` of a document; empty where it has none that can be read.
pub fn shown_id(alloc: Global, bytes: &[u8]) -> Result<Vec<u8>, AllocError>
    ensures { IfOk result (λ text. ShowsId bytes.now text.items) }
{
    let mut text = Vec::new(alloc);
    let Ok(document) = RawDocument::from_bytes(bytes) else {
        return Ok(text);
    };
    let Some(element) = first_with(document, "_id") else {
        return Ok(text);
    };
    let Ok(value) = element.resolve() else {
        return Ok(text);
    };
    push_value(alloc, &mut text, value)?;
    Ok(text)
}
