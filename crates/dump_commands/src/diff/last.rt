//! The line that tells what comes of two inputs: how many documents there are of each kind, or why they aren't compared.
#![tactic(auto)]

ghost use Rattle.std.specs.Prelude.{◌≡◌, ◌++◌, IfOk, OnOk};
ghost use Rattle.dump_commands.specs.Summary.{count_text, next_text};
ghost use Rattle.dump_commands.specs.diff.Lines as says;
ghost use Rattle.dump_commands.specs.diff.Lines.{differences_members};
ghost use Rattle.dump_io.specs.declared.lines.style.Style.TheVariants.{Json, Words};
ghost use Rattle.dump_io.specs.lines.Told.{Grows};

use crate::diff::pairs::Differences;
use dump_io::lines::object::{begun, ended, put_number, put_text};
use dump_io::lines::quote::quotation;
use dump_io::lines::style::Style;
use dump_io::lines::text::{push_number, push_words};
use json::Writer;
use std::alloc::{AllocError, Global};

/// The line that tells how many documents there are of each kind.
pub fn differences_line(
    alloc: Global,
    style: Style,
    differences: Differences,
) -> Result<Vec<u8>, AllocError>
    ensures { IfOk result (λ text. text.items ≡ says.differences_line style differences) }
{
    match style {
        Style::Words => differences_words(alloc, differences),
        Style::Json => differences_object(alloc, differences),
        Style::Quiet => Ok(Vec::new(alloc)),
    }
}

fn differences_words(alloc: Global, differences: Differences) -> Result<Vec<u8>, AllocError>
    ensures { IfOk result (λ text. text.items ≡ says.differences_line Words differences) }
{
    let mut text = Vec::new(alloc);
    push_count(&mut text, "same", differences.same)?;
    push_next(&mut text, "changed", differences.changed)?;
    push_next(&mut text, "removed", differences.removed)?;
    push_next(&mut text, "added", differences.added)?;
    push_words(&mut text, "\n")?;
    Ok(text)
}

/// After the text, a number after its name.
fn push_count(text: &mut Vec<u8>, name: &str, number: u64) -> Result<(), AllocError>
    ensures { OnOk result (text.new.items ≡ text.old.items ++ count_text (name.now, number)) }
{
    push_words(text, name)?;
    push_words(text, ": ")?;
    push_number(text, number)
}

/// The same after another one.
fn push_next(text: &mut Vec<u8>, name: &str, number: u64) -> Result<(), AllocError>
    ensures { OnOk result (text.new.items ≡ text.old.items ++ next_text (name.now, number)) }
{
    push_words(text, ", ")?;
    push_count(text, name, number)
}

fn differences_object(alloc: Global, differences: Differences) -> Result<Vec<u8>, AllocError>
    ensures { IfOk result (λ text. text.items ≡ says.differences_line Json differences) }
{
    let mut object = begun(alloc)?;
    put_differences(&mut object, differences)?;
    ended(object)
}

fn put_differences(object: &mut Writer, differences: Differences) -> Result<(), AllocError>
    ensures { OnOk result (Grows object.old object.new (differences_members differences)) }
{
    put_number(object, "same", differences.same)?;
    put_number(object, "changed", differences.changed)?;
    put_number(object, "removed", differences.removed)?;
    put_number(object, "added", differences.added)
}

/// The line that tells why inputs aren't compared: the one of this name isn't read to its end.
pub fn uncompared_line(alloc: Global, style: Style, name: &str) -> Result<Vec<u8>, AllocError>
    ensures { IfOk result (λ text. text.items ≡ says.uncompared_line style name.now) }
{
    match style {
        Style::Words => uncompared_words(alloc, name),
        Style::Json => uncompared_object(alloc, name),
        Style::Quiet => Ok(Vec::new(alloc)),
    }
}

fn uncompared_words(alloc: Global, name: &str) -> Result<Vec<u8>, AllocError>
    ensures { IfOk result (λ text. text.items ≡ says.uncompared_line Words name.now) }
{
    let mut text = quotation(alloc, name)?;
    push_words(&mut text, ": not read to its end, so nothing is compared\n")?;
    Ok(text)
}

fn uncompared_object(alloc: Global, name: &str) -> Result<Vec<u8>, AllocError>
    ensures { IfOk result (λ text. text.items ≡ says.uncompared_line Json name.now) }
{
    let mut object = begun(alloc)?;
    put_text(&mut object, "file", name)?;
    put_text(&mut object, "finding", "not compared")?;
    ended(object)
}
