//! Puts the runs of elements.
#![tactic(auto)]

ghost use Rattle.std.specs.Prelude.{◌≡◌, ◌*◌, ◌+◌, ◌-◌, ◌<◌, ◌^◌, ◌∷◌, [], ◌++◌, ℕ, List, Option, codes, length, IfErr, IfOk, OnOk};
ghost use Rattle.dump_io.specs.lines.Failing.{IsReading};
ghost use Rattle.dump_commands.specs.elements.Listing.{ShowsText};
ghost use Rattle.dump_io.specs.lines.Find as find;
ghost use Rattle.raw_view.specs.Frame.{IsFrame};
ghost use Rattle.raw_view.specs.Frame.Kind.{kind_text};
ghost use Rattle.raw_view.specs.Frame.ElementSteps.{frame_of};
ghost use Rattle.raw_view.specs.Frame.Format.{tagged};
ghost use Rattle.dump_commands.specs.elements.Runs as sheets;
ghost use Rattle.dump_commands.specs.elements.Runs.{Writes, fault_run, run_of};
ghost use Rattle.dump_commands.specs.elements.Showing.{TellsFrame, length_run};
ghost use Rattle.dump_commands.specs.elements.Showing as says;

use crate::elements::hexed::split_at_most;
use crate::elements::listing::push_fault;
use crate::elements::page::{Page, Run, push_run};
use crate::elements::text::shown_text;
use crate::elements::values::push_value;
use dump_io::lines::failure::Failure;
use dump_io::lines::quote::push_quoted;
use dump_io::lines::text::{push_number, push_words};
use dump_io::lines::value::push_kind;
use raw_view::{BorrowedError, ElementType, RawElement, RawLevel};
use std::alloc::{AllocError, Global};

/// Longer keys aren't shown.
const SHORT: usize = 64;

/// Puts bytes that are this.
pub fn push_worded(
    depth: usize,
    bytes: &[u8],
    is_fault: bool,
    words: &str,
    page: &mut Page,
) -> Result<(), Failure>
    requires { depth < 2 ^ 32 }
    ensures put { OnOk result (Writes page.old page.new
        (record { bytes = bytes.now; depth = depth; is_fault = is_fault; text = words.now } ∷ [])) }
    ensures failed { IfErr result (λ failure. ¬ IsReading failure) }
{
    page.words.clear();
    push_words(&mut page.words, words)?;
    let run = Run {
        bytes,
        depth,
        is_fault,
    };
    push_run(page, run, 0)
}

/// The tag, the key of this length with its 0, and the others.
pub fn split_head(bytes: &[u8], len: usize) -> (&[u8], &[u8], &[u8])
    requires { len < 2 ^ 63 }
    ensures { (tag : ℕ) (key others : List ℕ) → bytes.now ≡ tagged tag key others → length key ≡ len
        → (result.0.now ≡ tag ∷ []) × (result.1.now ≡ key ++ 0 ∷ []) × (result.2.now ≡ others) }
{
    let (tag, behind) = split_at_most(bytes, 1);
    let (key, others) = split_at_most(behind, len + 1);
    (tag, key, others)
}

/// Puts the tag and the key of an element, with which these bytes begin.
fn push_head(
    depth: usize,
    rest: &[u8],
    element: RawElement<'_>,
    is_fault: bool,
    page: &mut Page,
) -> Result<(), Failure>
    requires { depth < 2 ^ 32 }
    ensures put { (r : List ℕ) → IsFrame rest.now (frame_of element.entry) r → OnOk result (Writes page.old page.new
        (says.head_runs is_fault depth (frame_of element.entry))) }
    ensures failed { IfErr result (λ failure. ¬ IsReading failure) }
{
    let (tag, key, _) = split_head(rest, element.key().len());
    push_kind_run(depth, tag, element.element_type(), is_fault, page)?;
    push_key(depth, element.key(), key, page)?;
    Ok(())
}

/// Puts the tag of a kind.
fn push_kind_run(
    depth: usize,
    tag: &[u8],
    kind: ElementType,
    is_fault: bool,
    page: &mut Page,
) -> Result<(), Failure>
    requires { depth < 2 ^ 32 }
    ensures put { OnOk result (Writes page.old page.new
        (record { bytes = tag.now; depth = depth; is_fault = is_fault; text = kind_text kind } ∷ [])) }
    ensures failed { IfErr result (λ failure. ¬ IsReading failure) }
{
    page.words.clear();
    push_kind(&mut page.words, kind)?;
    let run = Run {
        bytes: tag,
        depth,
        is_fault,
    };
    push_run(page, run, 0)
}

/// Puts a key with its 0.
pub fn push_key(depth: usize, key: &str, bytes: &[u8], page: &mut Page) -> Result<(), Failure>
    requires { depth < 2 ^ 32 }
    ensures put { OnOk result (Writes page.old page.new (run_of depth bytes.now (says.key_text key.now) ∷ [])) }
    ensures failed { IfErr result (λ failure. ¬ IsReading failure) }
{
    page.words.clear();
    push_key_words(&mut page.words, key)?;
    let run = Run {
        bytes,
        depth,
        is_fault: false,
    };
    push_run(page, run, 0)
}

/// Appends a key, or how many bytes it has.
fn push_key_words(words: &mut Vec<u8>, key: &str) -> Result<(), AllocError>
    ensures { OnOk result (words.new.items ≡ words.old.items ++ says.key_text key.now) }
{
    if key.len() > SHORT {
        push_words(words, "key, ")?;
        push_number(words, key.len() as u64)?;
        return push_words(words, " bytes");
    }
    push_words(words, "key ")?;
    push_quoted(words, key)
}

/// Puts the runs of an element, with which these bytes begin, without those of the level that its value holds, and returns that level.
pub fn push_element<'a>(
    alloc: Global,
    depth: usize,
    rest: &[u8],
    element: RawElement<'a>,
    page: &mut Page,
) -> Result<Option<RawLevel<'a>>, Failure>
    requires { (depth < 2 ^ 32) × ((r : List ℕ) × IsFrame rest.now (frame_of element) r) }
    ensures put { IfOk result (λ inner. (runs : List sheets.Run) × TellsFrame depth (frame_of element.entry) runs inner × Writes page.old page.new runs) }
    ensures failed { IfErr result (λ failure. ¬ IsReading failure) }
{
    match element.resolve() {
        Ok(value) => {
            push_head(depth, rest, element, false, page)?;
            push_value(alloc, depth, element, value, page)?;
            Ok(value.level())
        }
        Err(error) => {
            push_head(depth, rest, element, true, page)?;
            push_faulty(alloc, depth, element, &error, page)?;
            Ok(None)
        }
    }
}

/// Puts the payload of an element whose value is at fault.
fn push_faulty(
    alloc: Global,
    depth: usize,
    element: RawElement<'_>,
    error: &BorrowedError<'_>,
    page: &mut Page,
) -> Result<(), Failure>
    requires { depth < 2 ^ 32 }
    ensures put { OnOk result ((shown : List ℕ) × ShowsText (frame_of element.entry) shown × Writes page.old page.new
        (fault_run depth (frame_of element.entry).payload (codes "damaged: " ++ find.kind_text error.now.kind ++ shown) ∷ [])) }
    ensures failed { IfErr result (λ failure. ¬ IsReading failure) }
{
    let shown = shown_text(alloc, element)?;
    page.words.clear();
    push_fault(&mut page.words, error)?;
    page.words.extend_from_slice(&shown)?;
    let run = Run {
        bytes: element.payload(),
        depth,
        is_fault: true,
    };
    push_run(page, run, 0)?;
    Ok(())
}

/// Puts the length with which these bytes begin.
pub fn push_length(page: &mut Page, depth: usize, bytes: &[u8]) -> Result<(), Failure>
    requires { depth < 2 ^ 32 }
    ensures put { OnOk result (Writes page.old page.new (length_run depth bytes.now ∷ [])) }
    ensures failed { IfErr result (λ failure. ¬ IsReading failure) }
{
    let head = split_at_most(bytes, 4).0;
    page.words.clear();
    push_length_words(&mut page.words, head)?;
    let run = Run {
        bytes: head,
        depth,
        is_fault: false,
    };
    push_run(page, run, 0)
}

/// Appends what the four bytes of a length say.
fn push_length_words(words: &mut Vec<u8>, head: &[u8]) -> Result<(), AllocError>
    ensures { OnOk result (words.new.items ≡ words.old.items ++ says.length_text head.now) }
{
    let [a, b, c, d] = head else {
        return push_words(words, "length");
    };
    push_words(words, "length: ")?;
    let low = u64::from(*a) + 256 * u64::from(*b);
    push_number(
        words,
        low + 65_536 * u64::from(*c) + 16_777_216 * u64::from(*d),
    )
}
