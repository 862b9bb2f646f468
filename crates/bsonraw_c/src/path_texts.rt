//! Paths of reports as texts.

ghost use Rattle.std.specs.Prelude.{◌≡◌, ℕ, None, Some, List, length};
ghost use Rattle.std.specs.Option.{option_copied, option_map};
ghost use Rattle.raw_bson.specs.Document.{bytes_of};
ghost use Rattle.raw_bson.specs.ElementSteps.{frame_of};
ghost use Rattle.raw_bson.specs.Meaning.{Meaning, Means};
ghost use Rattle.raw_form.specs.Barriers.{step_of};
ghost use Rattle.raw_form.specs.Places.{Step};
ghost use Rattle.bsonraw_c.specs.PathTexts.{AreSteps, IsPathText, Leads, PutsPath, key_suffix, level_of, path_text, piece, step_text};
ghost use Rattle.bsonraw_c.specs.TextRooms.{Grows};

use crate::quoting::put_quoted;
use crate::text_room::{end_text, put_number, put_part};
use crate::view::document_of;
use raw_bson::{RawDocument, RawElement};
use raw_form::PathStep;

/// How many steps of each end are shown of a path of more than twice as many.
const SHOWN: usize = 10;

/// A step of a path, and the level inside what it leads to.
#[derive(Clone, Copy)]
struct Reached<'a> {
    step: PathStep<'a>,
    inside: Option<RawDocument<'a>>,
}

/// Puts the text of a path into the room, as far as it fits, with a 0 after it. Returns how many bytes the text has.
#[unsafe(no_mangle)]
pub extern "C" fn bsonraw_path_text(bytes: &[u8], path: &[usize], text: &mut [u8]) -> usize
    ensures { PutsPath bytes.now path.now text.old text.new result }
{
    let count = put_path(text, bytes, path);
    end_text(text, count);
    count
}

/// Puts the text of a path in these bytes. Returns how many bytes it has.
fn put_path(room: &mut [u8], bytes: &[u8], path: &[usize]) -> usize
    ensures { (text : List ℕ) × IsPathText bytes.now path.now text × Grows text room.old 0 room.new result }
{
    match document_of(bytes) {
        Ok(document) => put_steps(room, document, path),
        Err(_) => 0,
    }
}

/// Puts the steps of a path in this document. Returns how many bytes their text has.
fn put_steps(room: &mut [u8], document: RawDocument<'_>, path: &[usize]) -> usize
    ensures { (steps : List Step) × AreSteps (Some (bytes_of document.entry)) path.now steps
        × Grows (path_text (length path.now) steps) room.old 0 room.new result }
{
    let mut level = Some(document);
    let mut count = 0;
    for index in 0..path.len() {
        let inner = match level {
            Some(inner) => inner,
            None => return count,
        };
        let reached = reach(inner, path[index]);
        level = reached.inside;
        count = put_shown(room, count, path.len(), index, reached.step);
    }
    count
}

/// Where a number leads in a level.
fn reach<'a>(level: RawDocument<'a>, number: usize) -> Reached<'a>
    ensures { Leads (bytes_of level.entry) number (step_of result.step) (option_map bytes_of result.inside) }
{
    match level.element_at(number) {
        Ok(Some(element)) => Reached {
            step: PathStep {
                number,
                key: Some(element.key()),
            },
            inside: inside_of(element),
        },
        Ok(None) => Reached::end(number, None),
        Err(stop) => Reached::end(number, stop.key),
    }
}

impl<'a> Reached<'a> {
    /// The end of a level, with the key of the stop there, if it has one.
    fn end(number: usize, key: Option<&'a str>) -> Reached<'a>
        ensures step { step_of result.step ≡ record { number = number; key = option_copied key.entry } }
        ensures none { option_map bytes_of result.inside ≡ None }
    {
        Reached {
            step: PathStep { number, key },
            inside: None,
        }
    }
}

/// The level that an element holds, if it holds one.
fn inside_of<'a>(element: RawElement<'a>) -> Option<RawDocument<'a>>
    ensures { (m : Meaning) × Means (frame_of element.entry) m × (option_map bytes_of result ≡ level_of m) }
{
    match element.resolve() {
        Ok(value) => match value.level() {
            Some(level) => Some(level.document),
            None => None,
        },
        Err(_) => None,
    }
}

/// Puts the step after `index` others of a path of `total` numbers, if it is one of the first ten or of the last ten; two points
/// for all others.
fn put_shown(room: &mut [u8], count: usize, total: usize, index: usize, step: PathStep<'_>) -> usize
    ensures { Grows (piece total index (step_of step.entry)) room.old count room.new result }
{
    if index < SHOWN || index >= total.saturating_sub(SHOWN) {
        return put_step(room, count, step);
    }
    if index == SHOWN {
        return put_part(room, count, b"/..");
    }
    count
}

fn put_step(room: &mut [u8], count: usize, step: PathStep<'_>) -> usize
    ensures { Grows (step_text (step_of step.entry)) room.old count room.new result }
{
    let begun = put_part(room, count, b"/");
    let numbered = put_number(room, begun, step.number);
    put_key(room, numbered, step.key)
}

/// Puts a key after a colon, if there is one.
fn put_key(room: &mut [u8], count: usize, key: Option<&str>) -> usize
    ensures { Grows (key_suffix (option_copied key.entry)) room.old count room.new result }
{
    let Some(key) = key else {
        return count;
    };
    let begun = put_part(room, count, b":");
    put_quoted(room, begun, key)
}
