//! The lines of documents that differ in two inputs.
#![tactic(auto)]

ghost use Rattle.std.specs.Prelude.{◌≡◌, ◌++◌, IfOk, OnOk, map};
ghost use Rattle.std.specs.Option.{option_map};
ghost use Rattle.std.specs.String.{string_bytes};
ghost use Rattle.json.specs.Token.{string};
ghost use Rattle.dump_commands.specs.diff.Lines as says;
ghost use Rattle.dump_commands.specs.diff.Lines.{change_members, details_of, key_members, key_words, more_members, new_members, new_words, paths_members, paths_words, texts_members};
ghost use Rattle.dump_commands.specs.diff.Pairs.{change_of};
ghost use Rattle.dump_commands.specs.elements.Changes.{items_of, listing_by};
ghost use Rattle.dump_io.specs.lines.Origins.{origin_of};
ghost use Rattle.dump_io.specs.lines.Told.{Grows, head_members, object_line};

use crate::diff::again::push_safe;
use crate::diff::pairs::Change;
use crate::elements::changes::{Changes, changes_words};
use dump_io::lines::object::{begun, ended, put_number, put_text};
use dump_io::lines::origin::Origin;
use dump_io::lines::style::Style;
use dump_io::lines::text::{line_of, push_number, push_words};
use json::Writer;
use std::alloc::{AllocError, Global};

/// What is known of a document beside what is found of it.
#[derive(Drop)]
pub struct Details {
    /// what shows its key
    pub json: Option<String>,
    /// the paths at which it differs
    pub paths: Option<Changes>,
}

/// What is found of a document, in a word.
fn word_of(change: Change<'_, '_>) -> &'static str
    ensures { result.now ≡ says.word_of (change_of change.entry) }
{
    match change {
        Change::Changed(_) => "changed",
        Change::Removed => "removed",
        Change::Added => "added",
    }
}

/// The line of a document that begins there.
pub fn change_line(
    alloc: Global,
    style: Style,
    at: Origin<'_>,
    change: Change<'_, '_>,
    details: &Details,
) -> Result<Vec<u8>, AllocError>
    ensures { IfOk result (λ text. text.items ≡ says.change_line style (origin_of at.entry) (change_of change.entry) (details_of details.now)) }
{
    match style {
        Style::Words => {
            let words = change_words(alloc, change, details)?;
            line_of(alloc, at.name, at.offset, &words)
        }
        Style::Json => change_object(alloc, at, change, details),
        Style::Quiet => Ok(Vec::new(alloc)),
    }
}

fn change_words(
    alloc: Global,
    change: Change<'_, '_>,
    details: &Details,
) -> Result<Vec<u8>, AllocError>
    ensures { IfOk result (λ text. text.items ≡ says.change_words (change_of change.entry) (details_of details.now)) }
{
    let mut text = Vec::new(alloc);
    push_words(&mut text, word_of(change))?;
    push_key(&mut text, &details.json)?;
    push_new(&mut text, change)?;
    push_paths(alloc, &mut text, &details.paths)?;
    Ok(text)
}

/// After the text, what shows the key of a document, or that it has none, or isn't read again.
fn push_key(text: &mut Vec<u8>, json: &Option<String>) -> Result<(), AllocError>
    ensures { OnOk result (text.new.items ≡ text.old.items ++ key_words (option_map string_bytes json.now)) }
{
    match json {
        Some(json) if json.as_str() == "{}" => push_words(text, " (no key)"),
        Some(json) => {
            push_words(text, " ")?;
            push_safe(text, json.as_str())
        }
        None => push_words(text, " (not read again)"),
    }
}

/// After the text, where the partner of a document that is changed begins.
fn push_new(text: &mut Vec<u8>, change: Change<'_, '_>) -> Result<(), AllocError>
    ensures { OnOk result (text.new.items ≡ text.old.items ++ new_words (change_of change.entry)) }
{
    match change {
        Change::Changed(new) => {
            push_words(text, ", now at ")?;
            push_number(text, new.place.offset)
        }
        Change::Removed | Change::Added => Ok(()),
    }
}

/// After the text, the paths at which a document differs, if they are known.
fn push_paths(alloc: Global, text: &mut Vec<u8>, paths: &Option<Changes>) -> Result<(), AllocError>
    ensures { OnOk result (text.new.items ≡ text.old.items ++ paths_words (option_map listing_by paths.now)) }
{
    match paths {
        Some(paths) => {
            let words = changes_words(alloc, paths)?;
            push_words(text, ": ")?;
            text.extend_from_slice(&words)
        }
        None => Ok(()),
    }
}

fn change_object(
    alloc: Global,
    at: Origin<'_>,
    change: Change<'_, '_>,
    details: &Details,
) -> Result<Vec<u8>, AllocError>
    ensures { IfOk result (λ text. text.items
        ≡ object_line (head_members at.entry.name.now at.entry.offset ++ change_members (change_of change.entry) (details_of details.now))) }
{
    let mut object = begun(alloc)?;
    put_text(&mut object, "file", at.name)?;
    put_number(&mut object, "offset", at.offset)?;
    put_change(&mut object, change, details)?;
    ended(object)
}

/// Puts what is told of a document.
fn put_change(
    object: &mut Writer,
    change: Change<'_, '_>,
    details: &Details,
) -> Result<(), AllocError>
    ensures { OnOk result (Grows object.old object.new (change_members (change_of change.entry) (details_of details.now))) }
{
    put_text(object, "finding", word_of(change))?;
    put_key(object, &details.json)?;
    put_new(object, change)?;
    put_paths(object, &details.paths)
}

/// Puts where a document of OLD that is changed is in NEW.
fn put_new(object: &mut Writer, change: Change<'_, '_>) -> Result<(), AllocError>
    ensures { OnOk result (Grows object.old object.new (new_members (change_of change.entry))) }
{
    match change {
        Change::Changed(new) => {
            put_text(object, "new file", new.place.name)?;
            put_number(object, "new offset", new.place.offset)
        }
        Change::Removed | Change::Added => Ok(()),
    }
}

/// Puts what shows the key of a document, or null if it isn't known.
fn put_key(object: &mut Writer, json: &Option<String>) -> Result<(), AllocError>
    ensures { OnOk result (Grows object.old object.new (key_members (option_map string_bytes json.now))) }
{
    match json {
        Some(json) => put_text(object, "key", json.as_str()),
        None => {
            object.key("key")?;
            object.null()
        }
    }
}

/// Puts the paths at which a document differs, if they are known.
fn put_paths(object: &mut Writer, paths: &Option<Changes>) -> Result<(), AllocError>
    ensures { OnOk result (Grows object.old object.new (paths_members (option_map listing_by paths.now))) }
{
    match paths {
        Some(paths) => {
            put_texts(object, &paths.paths)?;
            put_more(object, paths.more)
        }
        None => Ok(()),
    }
}

/// Puts the member with the paths.
fn put_texts(object: &mut Writer, texts: &[Vec<u8>]) -> Result<(), AllocError>
    ensures { OnOk result (Grows object.old object.new (texts_members (items_of texts.now))) }
{
    object.key("paths")?;
    object.begin_array()?;
    push_texts(object, texts)?;
    object.end_array()
}

/// Puts how many more paths there are, if there are any.
fn put_more(object: &mut Writer, more: usize) -> Result<(), AllocError>
    ensures { OnOk result (Grows object.old object.new (more_members more)) }
{
    if more > 0 {
        return put_number(object, "more paths", more as u64);
    }
    Ok(())
}

/// Puts texts. One that isn't UTF-8, which no path of a sound document is, counts as out of memory.
fn push_texts(object: &mut Writer, texts: &[Vec<u8>]) -> Result<(), AllocError>
    ensures { OnOk result (Grows object.old object.new (map string (items_of texts.now))) }
{
    for text in texts {
        let Ok(text) = str::from_utf8(text) else {
            return Err(AllocError);
        };
        object.string(text)?;
    }
    Ok(())
}
