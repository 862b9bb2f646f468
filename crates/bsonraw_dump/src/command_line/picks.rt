//! The commands that print documents as Extended JSON: `json` and `pick`.
#![tactic(auto)]

use crate::command_line::args::{switch, writing};
use crate::command_line::builder::CommandBuilder;
use bson_to_json::{Format, Layout, Style as JsonStyle};
use clap::{Arg, ArgAction, ArgMatches};
use dump_commands::picking::{Choice, Form, Picking, Separator};
use std::alloc::{AllocError, Global};

/// A command that prints documents as Extended JSON.
fn printing<'a>(alloc: Global, command: CommandBuilder<'a>) -> CommandBuilder<'a> {
    let canonical = "Prints each number and time with its kind";
    let indent = "Prints a line for each member, indented by two spaces a level";
    command
        .arg(switch(alloc, "canonical", canonical))
        .arg_or_none(switch(alloc, "indent", indent).visible_alias("pretty"))
}

/// The command that writes documents as JSON.
pub(super) fn documents_as_json<'a>(alloc: Global) -> CommandBuilder<'a> {
    let about = "Writes each document without damage as MongoDB Extended JSON v2, a line each";
    writing(
        alloc,
        printing(alloc, CommandBuilder::new(alloc, "json", about)),
    )
}

/// An option for a table, beside which there is no other form.
fn table<'a>(
    alloc: Global,
    name: &'a str,
    help: &'a str,
    other: &'a str,
) -> Result<Arg<'a>, AllocError> {
    switch(alloc, name, help)
        .conflicts_with(other)?
        .conflicts_with("bson")?
        .conflicts_with("canonical")?
        .conflicts_with("indent")
}

/// The command that writes the elements of some paths.
pub(super) fn picks<'a>(alloc: Global) -> CommandBuilder<'a> {
    let paths = Arg::new(alloc, "PATHS")
        .help("Keys with dots between them, as items.0.name, and commas between the paths")
        .required(true)
        .action(ArgAction::Set);
    let csv = "Writes a header, and for each document a row of the values at PATHS, with commas";
    let without = "Writes each document without these elements, in place of them";
    let about = "Writes these elements of each document without damage, as json does";
    let command = CommandBuilder::new(alloc, "pick", about)
        .arg(switch(alloc, "without", without))
        .arg(switch(alloc, "bson", "Writes them as a dump"))
        .arg_or_none(table(alloc, "csv", csv, "tsv"))
        .arg_or_none(table(alloc, "tsv", "The same with tabs", "csv"))
        .arg(paths);
    writing(alloc, printing(alloc, command))
}

pub(super) fn json_style_of(matches: &ArgMatches<'_>) -> JsonStyle {
    JsonStyle {
        format: if matches.get_flag("canonical") {
            Format::Canonical
        } else {
            Format::Relaxed
        },
        layout: if matches.get_flag("indent") {
            Layout::Indented
        } else {
            Layout::OneLine
        },
    }
}

/// Whether one of these paths has a step that stands for all items of an array.
pub fn leads_to_items(paths: &str) -> bool {
    paths
        .split(',')
        .any(|path| path.split('.').any(|step| step == "[]"))
}

fn form_of(matches: &ArgMatches<'_>) -> Form {
    if matches.get_flag("bson") {
        Form::Dump
    } else if matches.get_flag("csv") {
        Form::Row(Separator::Comma)
    } else if matches.get_flag("tsv") {
        Form::Row(Separator::Tab)
    } else {
        Form::Json(json_style_of(matches))
    }
}

pub(super) fn picking_of<'a>(matches: &ArgMatches<'a>) -> Picking<'a> {
    let paths = matches.get_str("PATHS").unwrap_or("");
    Picking {
        paths,
        choice: if matches.get_flag("without") {
            Choice::Others
        } else if leads_to_items(paths) {
            Choice::InPlace
        } else {
            Choice::Named
        },
        form: form_of(matches),
    }
}
