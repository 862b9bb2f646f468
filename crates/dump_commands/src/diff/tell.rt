//! Tells which documents of two inputs differ.
#![tactic(auto)]

ghost use Rattle.std.specs.Prelude.{◌≡◌, ◌++◌, ℕ, List, IfErr, IfOk, OnErr, OnOk, map};
ghost use Rattle.std.specs.Io.KnownBytes.{Appends};
ghost use Rattle.std.specs.Option.{option_map};
ghost use Rattle.dump_commands.specs.diff.Lines as says;
ghost use Rattle.dump_commands.specs.diff.Lines.{AreLines, HasLinesFront, IsChangedLine, IsKeyLine, IsLine, TellsDifferences, TellsFront};
ghost use Rattle.dump_commands.specs.diff.Pairs.{IsCompared, change_of, told_by};
ghost use Rattle.dump_commands.specs.diff.Sides.{side_of, sides_of};
ghost use Rattle.dump_io.specs.lines.Failing.{IsReading};

use crate::diff::again::{form_again, shown_key, shown_paths};
use crate::diff::last::differences_line;
use crate::diff::lines::{Details, change_line};
use crate::diff::pairs::{Change, Compared, Differences, Told};
use crate::diff::sides::{Comparing, Side, Sides};
use dump_io::input::inputs::Inputs;
use dump_io::lines::failure::Failure;
use dump_io::lines::style::Style;
use dump_io::lines::write::put;
use raw_tree::Limits;
use std::alloc::{AllocError, Global};
use std::io::Write;

/// How it is told which documents differ.
#[derive(Clone, Copy)]
pub struct Telling<'a> {
    /// what a document may cost
    pub limits: Limits,
    /// how lines are printed
    pub style: Style,
    /// how the inputs are compared
    pub comparing: Comparing<'a>,
}

/// Writes a line for each document that isn't the same in both inputs, and how many there are of each kind.
pub fn put_differences<I: Inputs, W: Write>(
    alloc: Global,
    telling: Telling<'_>,
    inputs: &I,
    sides: &Sides<'_>,
    compared: &Compared<'_, '_>,
    report: &mut W,
) -> Result<(), Failure>
    requires { IsCompared (sides_of sides.now) compared.now }
    ensures written { OnOk result ((text : List ℕ) × TellsDifferences telling.entry (I.bytes_of inputs.now) (sides_of sides.now) text
        × Appends (W.contents report.old) (W.contents report.new) text) }
    ensures front { OnErr result ((text : List ℕ) × TellsFront telling.entry (I.bytes_of inputs.now) (sides_of sides.now) text
        × Appends (W.contents report.old) (W.contents report.new) text) }
    ensures failed { IfErr result (λ failure. ¬ IsReading failure) }
{
    if is_quiet(telling.style) {
        return Ok(());
    }
    let differences = compared.differences;
    put_all(alloc, telling, inputs, &compared.told, differences, report)
}

/// Whether nothing is printed.
fn is_quiet(style: Style) -> bool
    ensures { result ≡ says.is_quiet style }
{
    match style {
        Style::Words | Style::Json => false,
        Style::Quiet => true,
    }
}

/// Writes the lines of documents, and how many there are of each kind.
fn put_all<I: Inputs, W: Write>(
    alloc: Global,
    telling: Telling<'_>,
    inputs: &I,
    told: &[Told<'_, '_>],
    differences: Differences,
    report: &mut W,
) -> Result<(), Failure>
    ensures written { OnOk result ((lines : List ℕ) × AreLines telling.entry (I.bytes_of inputs.now) (map told_by told.now) lines
        × Appends (W.contents report.old) (W.contents report.new) (lines ++ says.differences_line telling.entry.style differences)) }
    ensures front { OnErr result ((text : List ℕ) × HasLinesFront telling.entry (I.bytes_of inputs.now) (says.differences_line telling.entry.style differences)
        (map told_by told.now) text × Appends (W.contents report.old) (W.contents report.new) text) }
    ensures failed { IfErr result (λ failure. ¬ IsReading failure) }
{
    for one in told {
        let line = line_of(alloc, telling, inputs, *one)?;
        put(report, &line)?;
    }
    let last = differences_line(alloc, telling.style, differences)?;
    put(report, &last)
}

/// The line of a document of which something is found.
fn line_of<I: Inputs>(
    alloc: Global,
    telling: Telling<'_>,
    inputs: &I,
    told: Told<'_, '_>,
) -> Result<Vec<u8>, Failure>
    ensures line { IfOk result (λ line. IsLine telling.entry (I.bytes_of inputs.now) (told_by told.entry) line.items) }
    ensures failed { IfErr result (λ failure. ¬ IsReading failure) }
{
    match told.change {
        Change::Changed(new) => changed_line(alloc, telling, inputs, told.side, new),
        Change::Removed => Ok(key_line(alloc, telling, inputs, told.side, Change::Removed)?),
        Change::Added => Ok(key_line(alloc, telling, inputs, told.side, Change::Added)?),
    }
}

/// The line of a document that has no partner.
fn key_line<I: Inputs>(
    alloc: Global,
    telling: Telling<'_>,
    inputs: &I,
    side: &Side<'_>,
    change: Change<'_, '_>,
) -> Result<Vec<u8>, AllocError>
    ensures { IfOk result (λ line. IsKeyLine telling.entry (I.bytes_of inputs.now) (side_of side.now) (change_of change.entry) line.items) }
{
    let form = form_again(alloc, inputs, telling.limits, side)?;
    let json = shown_key(alloc, telling.limits.depth, telling.comparing.by, &form)?;
    let details = Details { json, paths: None };
    change_line(alloc, telling.style, side.place, change, &details)
}

/// The line of a document of OLD that is changed, and this one of NEW is its partner.
fn changed_line<I: Inputs>(
    alloc: Global,
    telling: Telling<'_>,
    inputs: &I,
    side: &Side<'_>,
    new: &Side<'_>,
) -> Result<Vec<u8>, Failure>
    ensures line { IfOk result (λ line. IsChangedLine telling.entry (I.bytes_of inputs.now) (side_of side.now) (side_of new.now) line.items) }
    ensures failed { IfErr result (λ failure. ¬ IsReading failure) }
{
    let before = form_again(alloc, inputs, telling.limits, side)?;
    let after = form_again(alloc, inputs, telling.limits, new)?;
    let form = first_known(&before, &after);
    let json = shown_key(alloc, telling.limits.depth, telling.comparing.by, form)?;
    let paths = shown_paths(alloc, &before, &after)?;
    let details = Details { json, paths };
    let change = Change::Changed(new);
    Ok(change_line(alloc, telling.style, side.place, change, &details)?)
}

/// The first of these forms that is known.
fn first_known<'f>(before: &'f Option<Vec<u8>>, after: &'f Option<Vec<u8>>) -> &'f Option<Vec<u8>>
    ensures { option_map (λ form. form.items) result.now
        ≡ says.first_known (option_map (λ form. form.items) before.now) (option_map (λ form. form.items) after.now) }
{
    match before {
        Some(_) => before,
        None => after,
    }
}
