//! Reads documents again, and shows what makes them differ.
#![tactic(auto)]

ghost use Rattle.std.specs.Prelude.{◌≡◌, ◌≢◌, ◌++◌, ◌<◌, None, Some, IfErr, IfOk, OnOk};
ghost use Rattle.std.specs.Option.{option_map};
ghost use Rattle.std.specs.Char.{digit_char};
ghost use Rattle.std.specs.String.{string_bytes};
ghost use Rattle.raw_view.specs.declared.error.ErrorKind.TheVariants.{OutOfMemory};
ghost use Rattle.dump_commands.specs.diff.Again.{IsFormAgain, ShowsKey, ShowsPaths, safe_char, safe_text};
ghost use Rattle.dump_commands.specs.diff.Sides.{side_of};
ghost use Rattle.dump_commands.specs.elements.Changes.{listing_by};
ghost use Rattle.dump_io.specs.lines.Failing.{IsReading};

use crate::diff::sides::Side;
use crate::elements::changes::{Changes, changed_paths};
use crate::elements::pick::picked;
use bson_to_json::{Format, Layout, Style, to_json};
use dump_io::input::inputs::Inputs;
use dump_io::lines::failure::Failure;
use raw_form::canonical_within;
use raw_tree::Limits;
use raw_view::{ErrorKind, RawDocument};
use sha2::{Digest, Sha256};
use std::alloc::{AllocError, Global};

/// The canonical form of a document that is read again; `None` if it can't be read, or is another one than before.
pub fn form_again<I: Inputs>(
    alloc: Global,
    inputs: &I,
    limits: Limits,
    side: &Side<'_>,
) -> Result<Option<Vec<u8>>, AllocError>
    ensures { IfOk result (λ form. IsFormAgain limits (I.bytes_of inputs.now side.now.place.name.now) (side_of side.now) (option_map (λ f. f.items) form)) }
{
    let place = side.place;
    let Some(bytes) = inputs.again(alloc, place.name, place.offset, side.size)? else {
        return Ok(None);
    };
    let form = match canonical_within(alloc, &bytes, limits) {
        Ok(form) => form,
        Err(error) => return none_of(&error.kind),
    };
    if Sha256::digest(&form) == side.form {
        Ok(Some(form))
    } else {
        Ok(None)
    }
}

/// No form, unless memory ran out.
fn none_of(kind: &ErrorKind) -> Result<Option<Vec<u8>>, AllocError>
    ensures none { IfOk result (λ form. (form ≡ None) × (kind.now ≢ OutOfMemory)) }
{
    match kind {
        ErrorKind::OutOfMemory => Err(AllocError),
        _ => Ok(None),
    }
}

/// What shows the key of a document with this form; `None` if the form isn't known. What has a barrier counts as out of memory.
pub fn shown_key(
    alloc: Global,
    depth: usize,
    paths: &str,
    form: &Option<Vec<u8>>,
) -> Result<Option<String>, AllocError>
    ensures { IfOk result (λ json. ShowsKey paths.now (option_map (λ f. f.items) form.now) (option_map string_bytes json)) }
{
    let Some(form) = form else {
        return Ok(None);
    };
    Ok(Some(key_json(alloc, depth, paths, form)?))
}

/// The elements of a form to which paths lead, as canonical Extended JSON.
fn key_json(alloc: Global, depth: usize, paths: &str, form: &[u8]) -> Result<String, AllocError>
    ensures { IfOk result (λ json. ShowsKey paths.now (Some form.now) (Some (string_bytes json))) }
{
    let Ok(document) = RawDocument::from_bytes(form) else {
        return Err(AllocError);
    };
    let picked = picked(alloc, document, paths)?;
    let Ok(document) = RawDocument::from_bytes(&picked) else {
        return Err(AllocError);
    };
    let style = Style {
        format: Format::Canonical,
        layout: Layout::OneLine,
    };
    let limits = Limits {
        bytes: picked.len(),
        depth,
    };
    match to_json(alloc, document, style, limits) {
        Ok(text) => Ok(text),
        Err(_) => Err(AllocError),
    }
}

/// The paths at which two forms differ; `None` if one of them isn't known.
pub fn shown_paths(
    alloc: Global,
    old: &Option<Vec<u8>>,
    new: &Option<Vec<u8>>,
) -> Result<Option<Changes>, Failure>
    ensures paths { IfOk result (λ paths. ShowsPaths (option_map (λ f. f.items) old.now) (option_map (λ f. f.items) new.now) (option_map listing_by paths)) }
    ensures failed { IfErr result (λ failure. ¬ IsReading failure) }
{
    match (old, new) {
        (Some(old), Some(new)) => Ok(Some(changed_paths(alloc, old, new)?)),
        _ => Ok(None),
    }
}

/// After the text, a text of JSON, without a character that a terminal obeys.
pub fn push_safe(text: &mut Vec<u8>, json: &str) -> Result<(), AllocError>
    ensures { OnOk result (text.new.items ≡ text.old.items ++ safe_text json.now) }
{
    for char in json.chars() {
        push_char(text, char)?;
    }
    Ok(())
}

fn push_char(text: &mut Vec<u8>, char: char) -> Result<(), AllocError>
    ensures { OnOk result (text.new.items ≡ text.old.items ++ safe_char char) }
{
    if char.is_control() {
        let byte = char as u32 as u8;
        let (high, low) = (hex_digit(byte / 16), hex_digit(byte % 16));
        return text.extend_from_slice(&[b'\\', b'u', b'0', b'0', high, low]);
    }
    let mut room = [0; 4];
    text.extend_from_slice(char.encode_utf8(&mut room).as_bytes())
}

/// A digit in hex.
fn hex_digit(value: u8) -> u8
    requires { value < 16 }
    ensures { result ≡ digit_char value }
{
    if value < 10 {
        b'0' + value
    } else {
        b'a' + (value - 10)
    }
}
