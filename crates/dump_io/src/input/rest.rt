//! What is told where no document begins: in words, and as an object of JSON.
#![tactic(auto)]

ghost use Rattle.std.specs.Prelude.{◌≡◌, ◌++◌, IfOk, OnOk};
ghost use Rattle.dump_io.specs.input.Endings.{all_members, all_text, ending_members, ending_text, rest_members, rest_text};
ghost use Rattle.dump_io.specs.lines.Told.{Grows, head_members, object_line};
ghost use Rattle.dump_io.specs.declared.input.rest.Rest.TheVariants.{PassedOver};

use crate::input::ending::Ending;
use crate::input::resync::Skip;
use crate::lines::object::{begin_at, ended, put_number, put_signed, put_text};
use crate::lines::text::{push_number, push_signed, push_words};
use json::Writer;
use std::alloc::{AllocError, Global};

/// What becomes of bytes where no document begins.
#[derive(Clone, Copy)]
pub enum Rest {
    /// they are passed over
    PassedOver(Skip),
    /// they aren't read; this is their number, up to the end of the input
    NotRead(u64),
}

/// Why no document is at the front of what is left, and what becomes of the bytes, in words.
pub fn ending_words(alloc: Global, ending: Ending, rest: Rest) -> Result<Vec<u8>, AllocError>
    ensures { IfOk result (λ text. text.items ≡ ending_text ending ++ rest_text rest) }
{
    let mut text = why_ended(alloc, ending)?;
    push_rest(&mut text, rest)?;
    Ok(text)
}

fn why_ended(alloc: Global, ending: Ending) -> Result<Vec<u8>, AllocError>
    ensures { IfOk result (λ text. text.items ≡ ending_text ending) }
{
    match ending {
        Ending::CutOff(count) => {
            let mut text = Vec::from_slice(alloc, b"cut off: only ")?;
            push_number(&mut text, count as u64)?;
            push_words(&mut text, " bytes of a document")?;
            Ok(text)
        }
        Ending::Unsound(len) => {
            let mut text = Vec::from_slice(alloc, b"unsound length ")?;
            push_signed(&mut text, i64::from(len))?;
            Ok(text)
        }
        Ending::WrongLength(len) => {
            let mut text = Vec::from_slice(alloc, b"wrong length ")?;
            push_number(&mut text, len as u64)?;
            Ok(text)
        }
    }
}

fn push_rest(text: &mut Vec<u8>, rest: Rest) -> Result<(), AllocError>
    ensures { OnOk result (text.new.items ≡ text.old.items ++ rest_text rest) }
{
    push_words(text, ": ")?;
    match rest {
        Rest::PassedOver(skip) => {
            push_number(text, skip.count)?;
            push_words(text, " bytes passed over")?;
            push_words(text, all_words(skip.all))
        }
        Rest::NotRead(count) => {
            push_number(text, count)?;
            push_words(text, " bytes not read, --resync goes on")
        }
    }
}

/// Whether each place in what is passed over was checked, in words.
fn all_words(all: bool) -> &'static str
    ensures { result.now ≡ all_text all }
{
    match all {
        true => "",
        false => ", not each place checked",
    }
}

/// Puts the members that tell why no document is at the front of what is left.
fn put_ending(object: &mut Writer, ending: Ending) -> Result<(), AllocError>
    ensures { OnOk result (Grows object.old object.new (ending_members ending)) }
{
    match ending {
        Ending::CutOff(count) => {
            put_text(object, "finding", "cut off")?;
            put_number(object, "bytes", count as u64)
        }
        Ending::Unsound(len) => {
            put_text(object, "finding", "unsound length")?;
            put_signed(object, "length", i64::from(len))
        }
        Ending::WrongLength(len) => {
            put_text(object, "finding", "wrong length")?;
            put_number(object, "length", len as u64)
        }
    }
}

/// Puts the members that tell what becomes of the bytes.
fn put_rest(object: &mut Writer, rest: Rest) -> Result<(), AllocError>
    ensures { OnOk result (Grows object.old object.new (rest_members rest)) }
{
    match rest {
        Rest::PassedOver(skip) => put_skip(object, skip),
        Rest::NotRead(count) => put_number(object, "not read", count),
    }
}

fn put_skip(object: &mut Writer, skip: Skip) -> Result<(), AllocError>
    ensures { OnOk result (Grows object.old object.new (rest_members (PassedOver skip))) }
{
    put_number(object, "passed over", skip.count)?;
    put_all(object, skip.all)
}

/// Puts the member that tells whether each place in what is passed over was checked, if one wasn't.
fn put_all(object: &mut Writer, all: bool) -> Result<(), AllocError>
    ensures { OnOk result (Grows object.old object.new (all_members all)) }
{
    match all {
        true => Ok(()),
        false => put_text(object, "checked", "not each place"),
    }
}

/// The line of a place at which no document begins.
pub fn ending_object(
    alloc: Global,
    name: &str,
    offset: u64,
    ending: Ending,
    rest: Rest,
) -> Result<Vec<u8>, AllocError>
    ensures { IfOk result (λ text. text.items
        ≡ object_line (head_members name.now offset ++ ending_members ending ++ rest_members rest)) }
{
    let mut object = begin_at(alloc, name, offset)?;
    put_ending(&mut object, ending)?;
    put_rest(&mut object, rest)?;
    ended(object)
}
