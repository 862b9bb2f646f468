//! What shows a text that isn't UTF-8.
#![tactic(auto)]

ghost use Rattle.std.specs.Prelude.{◌≡◌, ◌++◌, IfOk, OnOk};
ghost use Rattle.dump_commands.specs.elements.Listing.{ShowsText};
ghost use Rattle.dump_io.specs.lines.Values.{sized_text};
ghost use Rattle.hex.specs.Hex.{encode_lower};
ghost use Rattle.raw_view.specs.Frame.ElementSteps.{frame_of};

use dump_io::lines::text::{push_number, push_words};
use raw_form::bad_text;
use raw_view::RawElement;
use std::alloc::{AllocError, Global};

/// Texts longer than this aren't shown.
const SHORT: usize = 64;

/// How many bytes the text of an element has that isn't UTF-8, and if they are few these as hex digits; nothing where it has none.
pub fn shown_text(alloc: Global, element: RawElement<'_>) -> Result<Vec<u8>, AllocError>
    ensures { IfOk result (λ shown. ShowsText (frame_of element.entry) shown.items) }
{
    let mut shown = Vec::new(alloc);
    if let Some(bad) = bad_text(element) {
        push_bytes(alloc, &mut shown, bad.text)?;
    }
    Ok(shown)
}

fn push_bytes(alloc: Global, line: &mut Vec<u8>, bytes: &[u8]) -> Result<(), AllocError>
    ensures { OnOk result
        (line.new.items ≡ line.old.items ++ sized_text bytes.now (encode_lower bytes.now)) }
{
    push_words(line, ", ")?;
    push_number(line, bytes.len() as u64)?;
    push_words(line, " bytes")?;
    if bytes.len() > SHORT {
        return Ok(());
    }
    push_words(line, ": ")?;
    push_words(line, hex::encode(alloc, bytes)?.as_str())
}
