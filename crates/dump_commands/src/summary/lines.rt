//! The lines that tell what was counted.
#![tactic(auto)]

ghost use Rattle.std.specs.Prelude.{◌≡◌, ◌++◌, IfOk, OnOk, flat_map, map};
ghost use Rattle.std.specs.Option.{option_copied};
ghost use Rattle.dump_io.specs.lines.Told.{Grows};
ghost use Rattle.dump_commands.specs.Summary.{count_members, count_of, count_text, counts_line, first_counts, kept_line, kept_text, name_members, name_text, next_text, some_text, things_text};
ghost use Rattle.dump_io.specs.declared.lines.style.Style.TheVariants.{Json, Words};

use crate::counts::Counts;
use crate::summary::counted::Count;
use dump_io::lines::object::{begun, ended, put_number, put_text};
use dump_io::lines::quote::push_quoted;
use dump_io::lines::text::{push_number, push_words};
use json::Writer;
use std::alloc::{AllocError, Global};

/// Appends a number to the text, after its name.
fn push_count(text: &mut Vec<u8>, name: &str, number: u64) -> Result<(), AllocError>
    ensures { OnOk result (text.new.items ≡ text.old.items ++ count_text (name.now, number)) }
{
    push_words(text, name)?;
    push_words(text, ": ")?;
    push_number(text, number)
}

fn push_counts(text: &mut Vec<u8>, counts: &[Count]) -> Result<(), AllocError>
    ensures { OnOk result (text.new.items ≡ text.old.items ++ flat_map next_text (map count_of counts.now)) }
{
    for count in counts {
        push_words(text, ", ")?;
        push_count(text, count.name, count.number)?;
    }
    Ok(())
}

fn push_name(text: &mut Vec<u8>, name: Option<&str>) -> Result<(), AllocError>
    ensures { OnOk result
        (text.new.items ≡ text.old.items ++ name_text (option_copied name.entry)) }
{
    match name {
        Some(name) => {
            push_quoted(text, name)?;
            push_words(text, ": ")
        }
        None => Ok(()),
    }
}

/// The line that tells these counts of an input, or of all.
pub fn counts_words(
    alloc: Global,
    name: Option<&str>,
    documents: u64,
    counts: &[Count],
) -> Result<Vec<u8>, AllocError>
    ensures { IfOk result (λ text. text.items ≡ counts_line Words (option_copied name.entry) documents (map count_of counts.now)) }
{
    let mut text = Vec::new(alloc);
    push_name(&mut text, name)?;
    push_count(&mut text, "documents", documents)?;
    push_counts(&mut text, counts)?;
    push_words(&mut text, "\n")?;
    Ok(text)
}

/// Appends a number to the text, after its name, unless it is 0.
fn push_some(text: &mut Vec<u8>, name: &str, number: u64) -> Result<(), AllocError>
    ensures { OnOk result (text.new.items ≡ text.old.items ++ some_text (name.now, number)) }
{
    match number {
        0 => Ok(()),
        _ => {
            push_words(text, ", ")?;
            push_count(text, name, number)
        }
    }
}

fn push_some_counts(text: &mut Vec<u8>, counts: &[Count]) -> Result<(), AllocError>
    ensures { OnOk result (text.new.items ≡ text.old.items ++ flat_map some_text (map count_of counts.now)) }
{
    for count in counts {
        push_some(text, count.name, count.number)?;
    }
    Ok(())
}

/// Appends a number and what it counts, named by its singular.
fn push_things(text: &mut Vec<u8>, number: u64, one: &str) -> Result<(), AllocError>
    ensures { OnOk result (text.new.items ≡ text.old.items ++ things_text number one.now) }
{
    push_number(text, number)?;
    push_words(text, one)?;
    match number {
        1 => Ok(()),
        _ => push_words(text, "s"),
    }
}

/// What a command that keeps documents tells first.
fn push_kept(text: &mut Vec<u8>, counts: &Counts, kept: u64) -> Result<(), AllocError>
    ensures { OnOk result (text.new.items ≡ text.old.items ++ kept_text counts.now kept) }
{
    push_number(text, kept)?;
    push_words(text, " kept; ")?;
    push_things(text, counts.regions, " damaged region")?;
    push_words(text, ", ")?;
    push_things(text, counts.lost, " byte")?;
    push_words(text, " lost")
}

/// The line that tells what a command that keeps documents counted.
pub fn kept_words(
    alloc: Global,
    name: Option<&str>,
    counts: &Counts,
    kept: u64,
    others: &[Count],
) -> Result<Vec<u8>, AllocError>
    ensures { IfOk result (λ text. text.items ≡ kept_line Words (option_copied name.entry) counts.now kept (map count_of others.now)) }
{
    let mut text = Vec::new(alloc);
    push_name(&mut text, name)?;
    push_kept(&mut text, counts, kept)?;
    push_some(&mut text, "documents", counts.documents)?;
    push_some_counts(&mut text, others)?;
    push_words(&mut text, "\n")?;
    Ok(text)
}

fn put_counts(object: &mut Writer, counts: &[Count]) -> Result<(), AllocError>
    ensures { OnOk result
        (Grows object.old object.new (flat_map count_members (map count_of counts.now))) }
{
    for count in counts {
        put_number(object, count.name, count.number)?;
    }
    Ok(())
}

fn put_name(object: &mut Writer, name: Option<&str>) -> Result<(), AllocError>
    ensures { OnOk result (Grows object.old object.new (name_members (option_copied name.entry))) }
{
    match name {
        Some(name) => put_text(object, "file", name),
        None => Ok(()),
    }
}

/// The same as an object of JSON.
pub fn counts_object(
    alloc: Global,
    name: Option<&str>,
    documents: u64,
    counts: &[Count],
) -> Result<Vec<u8>, AllocError>
    ensures { IfOk result (λ text. text.items ≡ counts_line Json (option_copied name.entry) documents (map count_of counts.now)) }
{
    let mut object = begun(alloc)?;
    put_name(&mut object, name)?;
    put_number(&mut object, "documents", documents)?;
    put_counts(&mut object, counts)?;
    ended(object)
}

fn put_first(object: &mut Writer, counts: &Counts, kept: u64) -> Result<(), AllocError>
    ensures { OnOk result (Grows object.old object.new (flat_map count_members (first_counts counts.now kept))) }
{
    put_number(object, "kept", kept)?;
    put_number(object, "damaged regions", counts.regions)?;
    put_number(object, "bytes lost", counts.lost)
}

/// The same as an object of JSON.
pub fn kept_object(
    alloc: Global,
    name: Option<&str>,
    counts: &Counts,
    kept: u64,
    others: &[Count],
) -> Result<Vec<u8>, AllocError>
    ensures { IfOk result (λ text. text.items ≡ kept_line Json (option_copied name.entry) counts.now kept (map count_of others.now)) }
{
    let mut object = begun(alloc)?;
    put_name(&mut object, name)?;
    put_number(&mut object, "documents", counts.documents)?;
    put_first(&mut object, counts, kept)?;
    put_counts(&mut object, others)?;
    ended(object)
}
