//! The lines of paths, with what was counted of each.
#![tactic(auto)]

ghost use Rattle.std.specs.Prelude.{◌≡◌, ◌<◌, ◌+◌, ◌++◌, IfErr, OnOk};
ghost use Rattle.dump_commands.specs.state.Fields.{first_text, kind_words, kinds_text, numbers_text, row_line};
ghost use Rattle.dump_io.specs.lines.Failing.{IsReading};
ghost use Rattle.dump_io.specs.lines.Origins.{origin_of};

use crate::state::rows::{Row, place_of};
use dump_io::lines::failure::Failure;
use dump_io::lines::origin::Origin;
use dump_io::lines::quote::push_quoted;
use dump_io::lines::text::{push_number, push_words};
use dump_io::lines::value::push_kind;
use raw_view::ElementType;
use std::alloc::AllocError;

/// After the text, how many values there are of each kind.
fn push_kinds(text: &mut Vec<u8>, row: &Row) -> Result<(), AllocError>
    ensures { OnOk result (text.new.items ≡ text.old.items ++ kinds_text row.now) }
{
    let kinds: &[ElementType] = &[
        ElementType::Double,
        ElementType::String,
        ElementType::EmbeddedDocument,
        ElementType::Array,
        ElementType::Binary,
        ElementType::Undefined,
        ElementType::ObjectId,
        ElementType::Boolean,
        ElementType::DateTime,
        ElementType::Null,
        ElementType::RegularExpression,
        ElementType::DbPointer,
        ElementType::JavaScriptCode,
        ElementType::Symbol,
        ElementType::JavaScriptCodeWithScope,
        ElementType::Int32,
        ElementType::Timestamp,
        ElementType::Int64,
        ElementType::Decimal128,
        ElementType::MaxKey,
        ElementType::MinKey,
    ];
    for kind in kinds {
        push_kind_count(text, row, *kind)?;
    }
    Ok(())
}

/// After the text, how many values there are of this kind, if there are any.
fn push_kind_count(text: &mut Vec<u8>, row: &Row, kind: ElementType) -> Result<(), AllocError>
    ensures { OnOk result (text.new.items ≡ text.old.items ++ kind_words row.now kind) }
{
    let count = row.kinds[place_of(u32::from(kind.to_tag()))];
    if count > 0 {
        push_kind(text, kind)?;
        push_words(text, ": ")?;
        push_number(text, count)?;
        push_words(text, ", ")?;
    }
    Ok(())
}

/// After the text, the line of a path. One that isn't UTF-8, which no element of a sound document has, counts as out of memory.
pub fn push_row(
    text: &mut Vec<u8>,
    path: &[u8],
    first: Origin<'_>,
    row: &Row,
) -> Result<(), Failure>
    ensures line { OnOk result (text.new.items ≡ text.old.items ++ row_line path.now (origin_of first.entry) row.now) }
    ensures failed { IfErr result (λ failure. ¬ IsReading failure) }
{
    let Ok(path) = str::from_utf8(path) else {
        return Err(Failure::Memory);
    };
    push_quoted(text, path)?;
    push_words(text, ": ")?;
    push_kinds(text, row)?;
    push_numbers(text, row)?;
    push_first(text, first)?;
    Ok(())
}

/// After the text, in how many documents the values are, and how many bytes the longest of them has.
#[tactic(auto, unfolding(crate::specs::state::Fields::numbers_text))]
fn push_numbers(text: &mut Vec<u8>, row: &Row) -> Result<(), AllocError>
    ensures { OnOk result (text.new.items ≡ text.old.items ++ numbers_text row.now) }
{
    push_words(text, "documents: ")?;
    push_number(text, row.documents)?;
    push_words(text, ", longest: ")?;
    push_number(text, row.longest as u64)
}

/// After the text, where the first document begins that has a path.
#[tactic(auto, unfolding(crate::specs::state::Fields::first_text))]
fn push_first(text: &mut Vec<u8>, first: Origin<'_>) -> Result<(), AllocError>
    ensures { OnOk result (text.new.items ≡ text.old.items ++ first_text (origin_of first.entry)) }
{
    push_words(text, ", first: ")?;
    push_quoted(text, first.name)?;
    push_words(text, ":")?;
    push_number(text, first.offset)?;
    push_words(text, "\n")
}
