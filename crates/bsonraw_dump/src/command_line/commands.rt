//! The table of the commands: how each is named, what it does, what it may be given, what it asks for then, and where it prints.
//! `bin/words/bsonraw_dump.txt` has what the command line says of them: `checks/words.py` writes it.
#![tactic(auto)]

use crate::command_line::args::{
    LARGEST, color, files, findings, limits, number, output, reading, shown, switch, wholes,
    writing,
};
use crate::command_line::builder::CommandBuilder;
use crate::command_line::picks::{documents_as_json, json_style_of, picking_of, picks};
use crate::command_line::shows::{show_of, shows};
use crate::command_line::task::limits_of;
use clap::{Arg, ArgAction, ArgMatches};
use dump_commands::command::Command;
use dump_commands::diff::sides::Comparing;
use dump_commands::gathering::Gathering;
use dump_commands::making::{Making, Spelling};
use dump_commands::reporting::Report;
use dump_commands::state::gathered::Measure;
use dump_commands::texts::Texts;
use std::alloc::{AllocError, Global};

/// What a command prints, and where.
#[derive(Clone, Copy)]
pub enum Printing {
    /// documents, into the output; what it finds goes to standard error
    Documents,
    /// lines, which may be many
    Lines,
    /// few lines, which are shown as soon as they are there
    Soon,
    /// lines, as a page for a browser
    Page,
}

/// What the command of this name asks for, with what was given to it, and what it prints; nothing of the one that reads texts.
pub fn asked_by<'a>(name: &str, matches: &ArgMatches<'a>) -> Option<(Command<'a>, Printing)> {
    match name {
        "check" => prints(Report::Check, Printing::Soon),
        "list" => prints(Report::List, Printing::Lines),
        "show" if matches.get_flag("html") => prints(show_of(matches), Printing::Page),
        "show" => prints(show_of(matches), Printing::Lines),
        "count" => Some((count_of(matches), Printing::Soon)),
        "sizes" => prints(Report::Sizes, Printing::Lines),
        "largest" => gathers(Gathering::Measure(largest_of(matches))),
        "split" => gathers(Gathering::Measure(parts_of(matches))),
        "fields" => gathers(Gathering::Fields),
        "diff" => Some((
            Command::Gathers(Gathering::Differences(comparing_of(matches))),
            Printing::Lines,
        )),
        "canon" => writes(Making::Canon),
        "sound" => writes(Making::Sound(texts_of(matches))),
        "unique" => writes(Making::Unique(spelling_of(matches))),
        "json" => writes(Making::Json(json_style_of(matches))),
        "pick" => writes(Making::Pick(picking_of(matches))),
        _ => None,
    }
}

fn prints<'a>(report: Report, printing: Printing) -> Option<(Command<'a>, Printing)> {
    Some((Command::Prints(report), printing))
}

fn gathers<'a>(gathering: Gathering<'a>) -> Option<(Command<'a>, Printing)> {
    Some((Command::Gathers(gathering), Printing::Soon))
}

fn writes<'a>(making: Making<'a>) -> Option<(Command<'a>, Printing)> {
    Some((Command::Writes(making), Printing::Documents))
}

/// The command line as a whole, of this version.
pub fn command_line<'a>(alloc: Global, version: &'a str) -> Result<clap::Command<'a>, AllocError> {
    let about = "Checks dumps: BSON documents one after the other";
    let line = CommandBuilder::of_program(alloc, "bsonraw-dump", version, about);
    with_json(alloc, with_copies(alloc, with_reports(alloc, line))).finish()
}

/// A command line with the commands that print what they find.
fn with_reports<'a>(alloc: Global, line: CommandBuilder<'a>) -> CommandBuilder<'a> {
    line.subcommand(checks(alloc))
        .subcommand(lists(alloc))
        .subcommand(shows(alloc))
        .subcommand(counts(alloc))
        .subcommand(sizes(alloc))
        .subcommand(largest(alloc))
        .subcommand(splits(alloc))
        .subcommand(fields(alloc))
        .subcommand(differences(alloc))
}

/// A command line with the commands that write documents anew, as BSON.
fn with_copies<'a>(alloc: Global, line: CommandBuilder<'a>) -> CommandBuilder<'a> {
    line.subcommand(forms(alloc))
        .subcommand(sounds(alloc))
        .subcommand(uniques(alloc))
}

/// A command line with the commands that write or read JSON.
fn with_json<'a>(alloc: Global, line: CommandBuilder<'a>) -> CommandBuilder<'a> {
    line.subcommand(documents_as_json(alloc))
        .subcommand(picks(alloc))
        .subcommand(texts(alloc))
}

/// The command that checks documents.
fn checks<'a>(alloc: Global) -> CommandBuilder<'a> {
    let about = "Names each document that isn't canonical, and counts";
    reading(
        alloc,
        findings(alloc, CommandBuilder::new(alloc, "check", about)),
    )
}

/// The command that lists elements.
fn lists<'a>(alloc: Global) -> CommandBuilder<'a> {
    let about = "Lists the elements of each document, at every level";
    reading(
        alloc,
        CommandBuilder::new(alloc, "list", about).arg(color(alloc)),
    )
}

/// The command that counts documents.
fn counts<'a>(alloc: Global) -> CommandBuilder<'a> {
    let about = "Counts documents and bytes by their lengths alone, and checks none";
    let sizes = "Also counts the documents from each power of two bytes to the next";
    let command = CommandBuilder::new(alloc, "count", about).arg(switch(alloc, "sizes", sizes));
    reading(alloc, findings(alloc, command))
}

fn count_of<'a>(matches: &ArgMatches<'_>) -> Command<'a> {
    if matches.get_flag("sizes") {
        Command::Gathers(Gathering::Measure(Measure::Histogram))
    } else {
        Command::Prints(Report::Count)
    }
}

/// The command that prints where documents begin.
fn sizes<'a>(alloc: Global) -> CommandBuilder<'a> {
    let about = "Prints where each document begins and how many bytes it has, by its length alone";
    reading(alloc, CommandBuilder::new(alloc, "sizes", about))
}

/// How many of the longest documents are named at most.
const MOST_NAMED: u64 = 1000;

/// The command that names the longest documents.
fn largest<'a>(alloc: Global) -> CommandBuilder<'a> {
    let about = "Prints where the longest documents begin, with their lengths and _id";
    let most = "Prints at most N documents; 10 if it isn't given";
    let command = CommandBuilder::new(alloc, "largest", about);
    reading(
        alloc,
        command.arg(number(alloc, "most", "N", 1, MOST_NAMED, most).short('n')),
    )
}

/// How many of the longest documents are named where no number is given.
const NAMED: usize = 10;

fn largest_of(matches: &ArgMatches<'_>) -> Measure {
    Measure::Largest(matches.get_one("most").unwrap_or(NAMED))
}

/// The command that divides a dump.
fn splits<'a>(alloc: Global) -> CommandBuilder<'a> {
    let about = "Prints --at OFFSET --take N for each of the parts of a FILE";
    let parts = "Divides it into at most N parts, of about as many bytes each";
    let command = CommandBuilder::new(alloc, "split", about);
    reading(
        alloc,
        command.arg(number(alloc, "parts", "N", 1, LARGEST, parts).required(true)),
    )
}

/// The number of parts, in place of which `divided` puts how many bytes each has.
fn parts_of(matches: &ArgMatches<'_>) -> Measure {
    Measure::Parts(matches.get_one("parts").unwrap_or(1))
}

/// The command that counts elements.
fn fields<'a>(alloc: Global) -> CommandBuilder<'a> {
    let about =
        "Counts the elements of documents without damage by their paths, with kinds and lengths";
    let paths = "Counts elements of at most N paths; 10000 if it isn't given";
    let command = CommandBuilder::new(alloc, "fields", about);
    reading(
        alloc,
        command.arg(number(alloc, "paths", "N", 0, LARGEST, paths)),
    )
}

/// The command that compares two dumps.
fn differences<'a>(alloc: Global) -> CommandBuilder<'a> {
    let about =
        "Names documents that were removed, changed or added; takes 280 bytes of memory a document at most";
    let by = Arg::new(alloc, "by")
        .long("by")
        .value_name("PATHS")
        .help("Compares documents with the same values at PATHS; _id if it isn't given")
        .action(ArgAction::Set);
    let command = CommandBuilder::new(alloc, "diff", about)
        .usage("bsonraw-dump diff [OPTIONS] OLD NEW")
        .arg(by);
    let help =
        "OLD and NEW; if one is a pipe or -, standard input, no paths are shown, and no keys of what it alone has";
    wholes(alloc, shown(alloc, command), help)
}

/// The paths by which documents are compared where none are given.
const ID: &str = "_id";

/// How two inputs are compared; the name of OLD is put in later.
fn comparing_of<'a>(matches: &ArgMatches<'a>) -> Comparing<'a> {
    Comparing {
        by: matches.get_str("by").unwrap_or(ID),
        old: "",
    }
}

/// The command that writes canonical forms.
fn forms<'a>(alloc: Global) -> CommandBuilder<'a> {
    let about = "Writes the canonical form of each document without damage";
    writing(alloc, CommandBuilder::new(alloc, "canon", about))
}

/// The command that leaves out damaged documents.
fn sounds<'a>(alloc: Global) -> CommandBuilder<'a> {
    let about = "Writes each document without damage, unchanged";
    let replace =
        "Also keeps documents with no fault but texts that aren't UTF-8, with U+FFFD in these";
    let command = CommandBuilder::new(alloc, "sound", about).arg(switch(
        alloc,
        "replace-bad-text",
        replace,
    ));
    writing(alloc, command)
}

/// What comes of texts that aren't UTF-8.
fn texts_of(matches: &ArgMatches<'_>) -> Texts {
    if matches.get_flag("replace-bad-text") {
        Texts::Replaced(limits_of(matches))
    } else {
        Texts::Checked
    }
}

/// The command that writes each canonical form once.
fn uniques<'a>(alloc: Global) -> CommandBuilder<'a> {
    let repeats =
        "Names each document whose form came before, with the first of that form; takes 170 bytes a form at most";
    let as_is = "Writes the first document of each form unchanged, in place of the form";
    let about = "Writes each canonical form once; takes 100 bytes of memory a form at most";
    let command = CommandBuilder::new(alloc, "unique", about)
        .arg(switch(alloc, "repeats", repeats))
        .arg(switch(alloc, "as-is", as_is));
    writing(alloc, command)
}

fn spelling_of(matches: &ArgMatches<'_>) -> Spelling {
    if matches.get_flag("as-is") {
        Spelling::Original
    } else {
        Spelling::Canonical
    }
}

/// The command that reads texts.
fn texts<'a>(alloc: Global) -> CommandBuilder<'a> {
    let about = "Writes the documents of texts of MongoDB Extended JSON v2, one after the other";
    let keep_going = "Continues after a fault, and leaves out its document";
    let bytes = "A document of over N bytes is too long; 16793600 if it isn't given";
    let command = findings(alloc, CommandBuilder::new(alloc, "bson", about)).arg(output(alloc));
    limits(alloc, command, bytes)
        .arg(switch(alloc, "keep-going", keep_going))
        .arg(files(alloc, "Texts; nothing or -: standard input"))
}
