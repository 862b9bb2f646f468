//! Which paths lead to an element in some document.
#![tactic(auto)]

ghost use Rattle.std.specs.Prelude.{◌≡◌, ◌++◌, ◌∷◌, [], cond, drop, false, get_or, true, IfOk, OnOk};
ghost use Rattle.dump_commands.specs.elements.Pick.{comma, parts};
ghost use Rattle.dump_commands.specs.state.Seen.{either, missing_line, missing_members};
ghost use Rattle.dump_commands.specs.state.Seen as says;
ghost use Rattle.dump_io.specs.declared.lines.style.Style.TheVariants.{Json, Words};
ghost use Rattle.dump_io.specs.lines.Told.{Grows};

use dump_io::lines::object::{begun, ended, put_text};
use dump_io::lines::quote::push_quoted;
use dump_io::lines::style::Style;
use dump_io::lines::text::push_words;
use json::Writer;
use std::alloc::{AllocError, Global};

/// Of each path whether a document has it, or one before does.
pub fn joined(alloc: Global, flags: &[bool], seen: &[bool]) -> Result<Vec<bool>, AllocError>
    ensures { IfOk result (λ all. all.items ≡ either flags.now seen.now) }
{
    let mut all = Vec::new(alloc);
    let mut left = seen;
    let mut rest = flags;
    'flags: while let [flag, more @ ..] = rest {
        push_flag(&mut all, *flag, left)?;
        left = without_first(left);
        rest = more;
    }
    Ok(all)
}

/// Puts whether a path was had after the others: by this document, or as the first of the flags before says.
fn push_flag(all: &mut Vec<bool>, flag: bool, before: &[bool]) -> Result<(), AllocError>
    ensures { OnOk result (all.new.items ≡ all.old.items ++ cond flag true (get_or before.now 0 false) ∷ []) }
{
    all.push(flag || first_or(before, false))?;
    Ok(())
}

/// The first of these, or what is said where there is none.
fn first_or(flags: &[bool], none: bool) -> bool
    ensures { result ≡ get_or flags.now 0 none }
{
    match flags {
        [first, ..] => *first,
        [] => none,
    }
}

/// All but the first.
fn without_first(flags: &[bool]) -> &[bool]
    ensures { result.now ≡ drop 1 flags.now }
{
    match flags {
        [_, rest @ ..] => rest,
        [] => flags,
    }
}

/// The lines of those of these paths that no document has.
pub fn missing_lines(
    alloc: Global,
    style: Style,
    paths: &str,
    seen: &[bool],
) -> Result<Vec<u8>, AllocError>
    ensures { IfOk result (λ text. text.items ≡ says.missing_lines style (parts comma paths.now) seen.now) }
{
    let mut text = Vec::new(alloc);
    let mut left = seen;
    let mut rest = paths;
    'paths: while let Some((path, more)) = rest.split_once(',') {
        push_missing(alloc, &mut text, style, path, first_or(left, true))?;
        left = without_first(left);
        rest = more;
    }
    push_missing(alloc, &mut text, style, rest, first_or(left, true))?;
    Ok(text)
}

/// Puts the line of a path after the text, if no document has it.
fn push_missing(
    alloc: Global,
    text: &mut Vec<u8>,
    style: Style,
    path: &str,
    had: bool,
) -> Result<(), AllocError>
    ensures { OnOk result (text.new.items ≡ text.old.items ++ cond had [] (missing_line style path.now)) }
{
    if had {
        return Ok(());
    }
    match style {
        Style::Words => push_missing_words(text, path),
        Style::Json => {
            let line = missing_object(alloc, path)?;
            text.extend_from_slice(&line)
        }
        Style::Quiet => Ok(()),
    }
}

fn push_missing_words(text: &mut Vec<u8>, path: &str) -> Result<(), AllocError>
    ensures { OnOk result (text.new.items ≡ text.old.items ++ missing_line Words path.now) }
{
    push_words(text, "no document has ")?;
    push_quoted(text, path)?;
    push_words(text, "\n")
}

/// The line of a path that no document has, as an object of JSON.
fn missing_object(alloc: Global, path: &str) -> Result<Vec<u8>, AllocError>
    ensures { IfOk result (λ text. text.items ≡ missing_line Json path.now) }
{
    let mut object = begun(alloc)?;
    put_missing(&mut object, path)?;
    ended(object)
}

fn put_missing(object: &mut Writer, path: &str) -> Result<(), AllocError>
    ensures { OnOk result (Grows object.old object.new (missing_members path.now)) }
{
    put_text(object, "path", path)?;
    put_text(object, "finding", "no document has it")
}
