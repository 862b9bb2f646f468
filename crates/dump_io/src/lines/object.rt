//! What is found in documents, as objects of JSON, a line each.
#![tactic(auto)]

ghost use Rattle.std.specs.Prelude.{◌≡◌, ◌++◌, ◌∷◌, [], List, Some, decimal, IfOk, map, OnOk};
ghost use Rattle.std.specs.Fmt.{signed_decimal};
ghost use Rattle.std.specs.Option.{option_copied};
ghost use Rattle.json.specs.Token.{Token, begin_object, end_object, key, number, string};
ghost use Rattle.raw_tree.specs.Barriers.{step_of};
ghost use Rattle.dump_io.specs.lines.Told.{error_members, first_members, head_members, key_token, keys_members, members_of, number_member, number_token, numbers_members, object_line, reason_members, report_line, spot_members, text_or_null, Grows};
ghost use Rattle.dump_io.specs.lines.Find.{account_of, explanation_of, spot_of};
ghost use Rattle.dump_io.specs.lines.Origins.{origin_of};
ghost use Rattle.dump_io.specs.declared.lines.style.Style.TheVariants.{Json};

use crate::lines::find::Told;
use crate::lines::origin::Origin;
use crate::lines::reason::Why;
use json::Writer;
use raw_tree::{PathStep, Place};
use std::alloc::{AllocError, Global};

/// An object that is begun.
pub fn begun(alloc: Global) -> Result<Writer, AllocError>
    ensures { IfOk result (λ object. (object.before ≡ []) × (object.tokens ≡ begin_object ∷ [])) }
{
    let mut object = Writer::new(Vec::new(alloc));
    object.begin_object()?;
    Ok(object)
}

/// The line of an object to which these members were put.
pub fn ended(object: Writer) -> Result<Vec<u8>, AllocError>
    ensures { (members : List Token) → object.before ≡ [] → object.tokens ≡ begin_object ∷ members
        → IfOk result (λ text. text.items ≡ object_line members) }
{
    let mut object = object;
    object.end_object()?;
    let mut text = object.into_inner();
    text.push(b'\n')?;
    Ok(text)
}

/// Puts a member that is a number.
pub fn put_number(object: &mut Writer, name: &str, value: u64) -> Result<(), AllocError>
    ensures { OnOk result (Grows object.old object.new (key name.now ∷ number (decimal value) ∷ [])) }
{
    object.key(name)?;
    object.u64(value)
}

/// Puts a member that is a number with a sign.
pub fn put_signed(object: &mut Writer, name: &str, value: i64) -> Result<(), AllocError>
    ensures { OnOk result
        (Grows object.old object.new (key name.now ∷ number (signed_decimal value) ∷ [])) }
{
    object.key(name)?;
    object.i64(value)
}

/// Puts a member that is a text.
pub fn put_text(object: &mut Writer, name: &str, value: &str) -> Result<(), AllocError>
    ensures { OnOk result (Grows object.old object.new (key name.now ∷ string value.now ∷ [])) }
{
    object.key(name)?;
    object.string(value)
}

/// Puts the numbers of a path, from the outermost level on.
fn push_numbers(object: &mut Writer, path: &[PathStep<'_>]) -> Result<(), AllocError>
    ensures { OnOk result (Grows object.old object.new (map number_token (map step_of path.now))) }
{
    for step in path {
        object.u64(step.number as u64)?;
    }
    Ok(())
}

/// Puts a key, or null.
fn put_key(object: &mut Writer, key: Option<&str>) -> Result<(), AllocError>
    ensures { OnOk result (Grows object.old object.new (text_or_null (option_copied key.entry) ∷ [])) }
{
    match key {
        Some(key) => object.string(key),
        None => object.null(),
    }
}

/// Puts the keys of a path, from the outermost level on.
fn push_keys(object: &mut Writer, path: &[PathStep<'_>]) -> Result<(), AllocError>
    ensures { OnOk result (Grows object.old object.new (map key_token (map step_of path.now))) }
{
    for step in path {
        put_key(object, step.key)?;
    }
    Ok(())
}

/// Puts the member with the numbers of a path.
fn put_numbers(object: &mut Writer, path: &[PathStep<'_>]) -> Result<(), AllocError>
    ensures { OnOk result (Grows object.old object.new (numbers_members (map step_of path.now))) }
{
    object.key("path")?;
    object.begin_array()?;
    push_numbers(object, path)?;
    object.end_array()
}

/// Puts the member with the keys of a path.
fn put_keys(object: &mut Writer, path: &[PathStep<'_>]) -> Result<(), AllocError>
    ensures { OnOk result (Grows object.old object.new (keys_members (map step_of path.now))) }
{
    object.key("keys")?;
    object.begin_array()?;
    push_keys(object, path)?;
    object.end_array()
}

/// Puts the members of a place.
fn put_place(object: &mut Writer, place: &Place<'_>) -> Result<(), AllocError>
    ensures { OnOk result
        (Grows object.old object.new (spot_members (Some (spot_of place.now)))) }
{
    put_numbers(object, &place.path)?;
    put_keys(object, &place.path)?;
    put_number(object, "byte", place.offset as u64)
}

/// Puts the members that tell of a document.
fn put_told(object: &mut Writer, told: &Told<'_>) -> Result<(), AllocError>
    ensures { OnOk result (Grows object.old object.new (members_of (account_of told.now))) }
{
    put_text(object, "finding", told.word)?;
    if let Some(place) = &told.place {
        put_place(object, place)?;
    }
    match told.reason {
        Some(why) => put_why(object, why),
        None => Ok(()),
    }
}

/// Puts the members that tell why a document is damaged.
fn put_why(object: &mut Writer, why: Why) -> Result<(), AllocError>
    ensures { OnOk result (Grows object.old object.new (reason_members (Some (explanation_of why)))) }
{
    put_text(object, "reason", why.words)?;
    put_some(object, "number", why.number)?;
    put_some(object, "left", why.left)
}

/// Puts a member that is a number, if there is one.
pub fn put_some(object: &mut Writer, name: &str, value: Option<u64>) -> Result<(), AllocError>
    ensures { OnOk result (Grows object.old object.new (number_member name.now value)) }
{
    match value {
        Some(value) => put_number(object, name, value),
        None => Ok(()),
    }
}

/// An object that is begun with the name of an input and an offset in it.
pub fn begin_at(alloc: Global, name: &str, offset: u64) -> Result<Writer, AllocError>
    ensures { IfOk result (λ object. (object.before ≡ [])
        × (object.tokens ≡ begin_object ∷ head_members name.now offset)) }
{
    let mut object = begun(alloc)?;
    put_text(&mut object, "file", name)?;
    put_number(&mut object, "offset", offset)?;
    Ok(object)
}

/// The line that tells this of a document.
pub fn told_object(
    alloc: Global,
    name: &str,
    offset: u64,
    told: &Told<'_>,
) -> Result<Vec<u8>, AllocError>
    ensures { IfOk result
        (λ text. text.items ≡ report_line Json name.now offset (account_of told.now)) }
{
    let mut object = begin_at(alloc, name, offset)?;
    put_told(&mut object, told)?;
    ended(object)
}

/// Puts the members that tell of the first document of a form.
fn put_first(object: &mut Writer, first: Origin<'_>) -> Result<(), AllocError>
    ensures { OnOk result (Grows object.old object.new (first_members (origin_of first.entry))) }
{
    put_text(object, "finding", "repeat")?;
    put_text(object, "first file", first.name)?;
    put_number(object, "first offset", first.offset)
}

/// The line of a document that repeats the form of the first one.
pub fn repeat_object(
    alloc: Global,
    origin: Origin<'_>,
    first: Origin<'_>,
) -> Result<Vec<u8>, AllocError>
    ensures { IfOk result (λ text. text.items
        ≡ object_line (head_members origin.entry.name.now origin.entry.offset ++ first_members (origin_of first.entry))) }
{
    let mut object = begin_at(alloc, origin.name, origin.offset)?;
    put_first(&mut object, first)?;
    ended(object)
}

/// The line of what goes wrong with a file.
pub fn error_object(
    alloc: Global,
    name: &str,
    at: Option<u64>,
    text: &str,
) -> Result<Vec<u8>, AllocError>
    ensures { IfOk result (λ line. line.items ≡ object_line (error_members name.now at text.now)) }
{
    let mut object = begun(alloc)?;
    put_text(&mut object, "file", name)?;
    put_some(&mut object, "offset", at)?;
    put_text(&mut object, "error", text)?;
    ended(object)
}
