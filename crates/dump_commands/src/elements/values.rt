//! Puts the runs of values.
#![tactic(auto)]

ghost use Rattle.std.specs.Prelude.{◌≡◌, ◌-◌, ◌<◌, ◌^◌, ◌∷◌, [], ℕ, List, drop, length, IfErr, OnOk};
ghost use Rattle.dump_io.specs.lines.Failing.{IsReading};
ghost use Rattle.dump_io.specs.lines.Values.{ShowsBehind};
ghost use Rattle.raw_view.specs.Frame.ElementSteps.{frame_of};
ghost use Rattle.raw_view.specs.Meaning.Value.{held_value, value_of};
ghost use Rattle.dump_commands.specs.elements.Runs.{Writes, run_of};
ghost use Rattle.dump_commands.specs.elements.Showing.{payload_runs, value_runs};
ghost use Rattle.dump_commands.specs.elements.Showing as says;

use crate::elements::hexed::split_at_most;
use crate::elements::page::{Page, Run, push_run};
use crate::elements::runs::push_length;
use dump_io::lines::failure::Failure;
use dump_io::lines::value::push_behind;
use raw_view::{ElementType, Holder, RawBsonRef, RawElement, RawLevel};
use std::alloc::Global;

/// Puts the runs of a value, without those of the level that it holds.
pub fn push_value(
    alloc: Global,
    depth: usize,
    element: RawElement<'_>,
    value: RawBsonRef<'_>,
    page: &mut Page,
) -> Result<(), Failure>
    requires { depth < 2 ^ 32 }
    ensures put { OnOk result ((shown : List ℕ) × ShowsBehind (value_of value.entry) shown × Writes page.old page.new
        (value_runs depth (frame_of element.entry) (value_of value.entry) (drop 2 shown))) }
    ensures failed { IfErr result (λ failure. ¬ IsReading failure) }
{
    match value.level() {
        None => {
            let (kind, payload) = (element.element_type(), element.payload());
            push_payload(alloc, depth, kind, payload, value, page)?;
            Ok(())
        }
        Some(level) => push_beside(alloc, depth, element, value, level, page),
    }
}

/// Puts the runs of a value that are beside the level that it holds: of a code with scope the length and the code.
fn push_beside(
    alloc: Global,
    depth: usize,
    element: RawElement<'_>,
    value: RawBsonRef<'_>,
    level: RawLevel<'_>,
    page: &mut Page,
) -> Result<(), Failure>
    requires { (depth < 2 ^ 32) × (value_of value ≡ held_value level) }
    ensures put { OnOk result ((shown : List ℕ) × ShowsBehind (value_of value.entry) shown × Writes page.old page.new
        (value_runs depth (frame_of element.entry) (value_of value.entry) (drop 2 shown))) }
    ensures failed { IfErr result (λ failure. ¬ IsReading failure) }
{
    match level.holder {
        Holder::Document => Ok(()),
        Holder::Array => Ok(()),
        Holder::Code(_) => {
            let payload = element.payload();
            let len = payload
                .len()
                .saturating_sub(level.document.as_bytes().len());
            let own = split_at_most(payload, len).0;
            push_payload(alloc, depth, element.element_type(), own, value, page)?;
            Ok(())
        }
    }
}

/// Puts the bytes of a value of this kind: its length, if it begins with one, and the others.
fn push_payload(
    alloc: Global,
    depth: usize,
    kind: ElementType,
    bytes: &[u8],
    value: RawBsonRef<'_>,
    page: &mut Page,
) -> Result<(), Failure>
    requires { depth < 2 ^ 32 }
    ensures put { OnOk result ((shown : List ℕ) × ShowsBehind (value_of value.entry) shown × Writes page.old page.new
        (payload_runs depth kind bytes.now (drop 2 shown))) }
    ensures failed { IfErr result (λ failure. ¬ IsReading failure) }
{
    if !begins_with_length(kind) {
        return push_said(alloc, depth, bytes, value, page);
    }
    push_length(page, depth, bytes)?;
    push_said(alloc, depth, split_at_most(bytes, 4).1, value, page)?;
    Ok(())
}

/// Puts bytes, and says which value they are.
fn push_said(
    alloc: Global,
    depth: usize,
    bytes: &[u8],
    value: RawBsonRef<'_>,
    page: &mut Page,
) -> Result<(), Failure>
    requires { depth < 2 ^ 32 }
    ensures put { OnOk result ((shown : List ℕ) × ShowsBehind (value_of value.entry) shown × Writes page.old page.new
        (run_of depth bytes.now (drop 2 shown) ∷ [])) }
    ensures failed { IfErr result (λ failure. ¬ IsReading failure) }
{
    page.words.clear();
    push_behind(alloc, &mut page.words, value)?;
    let run = Run {
        bytes,
        depth,
        is_fault: false,
    };
    push_run(page, run, 2)
}

/// Whether a value of this kind begins with a length. BSON 1.1, `string`, `binary`, `code_w_s`.
fn begins_with_length(kind: ElementType) -> bool
    ensures { result ≡ says.begins_with_length kind }
{
    matches!(
        kind,
        ElementType::String
            | ElementType::Binary
            | ElementType::DbPointer
            | ElementType::JavaScriptCode
            | ElementType::Symbol
            | ElementType::JavaScriptCodeWithScope
    )
}
