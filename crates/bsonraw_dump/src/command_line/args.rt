//! What several commands may be given.
#![tactic(auto)]

use crate::command_line::builder::CommandBuilder;
use clap::builder::ValueParser;
use clap::{Arg, ArgAction};
use std::alloc::Global;

/// How findings are printed.
const FORMS: &[&str] = &["words", "json"];

pub(super) fn files<'a>(alloc: Global, help: &'a str) -> Arg<'a> {
    Arg::new(alloc, "FILE")
        .help(help)
        .num_args(0..)
        .action(ArgAction::Append)
}

pub(super) fn output<'a>(alloc: Global) -> Arg<'a> {
    Arg::new(alloc, "output")
        .short('o')
        .long("output")
        .value_name("OUTPUT")
        .help("Written in place of standard output, at the end and as a whole; -: standard output")
        .action(ArgAction::Set)
}

/// How findings are printed, with the short form of one of the ways, or that they aren't; and how many.
pub(super) fn findings<'a>(alloc: Global, command: CommandBuilder<'a>) -> CommandBuilder<'a> {
    let limit = "Prints the first N findings only; the last line says how many others there are";
    shown(alloc, command).arg(number(alloc, "limit", "N", 0, u64::MAX, limit))
}

/// How findings are printed.
pub(super) fn shown<'a>(alloc: Global, command: CommandBuilder<'a>) -> CommandBuilder<'a> {
    let form = Arg::new(alloc, "findings")
        .long("findings")
        .value_name("FORM")
        .value_parser(FORMS)
        .help("Prints what is found as words, or as objects of JSON, a line each")
        .action(ArgAction::Set);
    let quiet = "Prints no findings and no counts; the exit status says what was found";
    command
        .arg(form)
        .arg(switch(alloc, "json", "As --findings=json"))
        .arg(switch(alloc, "quiet", quiet).short('q'))
        .arg(color(alloc))
}

pub(super) fn switch<'a>(alloc: Global, name: &'a str, help: &'a str) -> Arg<'a> {
    Arg::new(alloc, name)
        .long(name)
        .help(help)
        .action(ArgAction::SetTrue)
}

/// The most that a limit can be: no length of a document is over it.
pub(super) const LARGEST: u64 = 2_147_483_647;

/// When lines are in colors.
const WHEN: &[&str] = &["auto", "always", "never"];

pub(super) fn color<'a>(alloc: Global) -> Arg<'a> {
    Arg::new(alloc, "color")
        .long("color")
        .value_name("WHEN")
        .value_parser(WHEN)
        .help(
            "Prints lines in colors; auto if it isn't given: on a terminal, unless NO_COLOR is set",
        )
        .action(ArgAction::Set)
}

/// An option whose value is a number, from the least on that there may be.
pub(super) fn number<'a>(
    alloc: Global,
    name: &'a str,
    value: &'a str,
    least: u64,
    most: u64,
    help: &'a str,
) -> Arg<'a> {
    Arg::new(alloc, name)
        .long(name)
        .value_name(value)
        .value_parser(ValueParser::unsigned(least, most))
        .help(help)
        .action(ArgAction::Set)
}

/// An option whose value is a number of bytes or of documents, which may have a unit.
fn size<'a>(alloc: Global, name: &'a str, value: &'a str, help: &'a str) -> Arg<'a> {
    Arg::new(alloc, name)
        .long(name)
        .value_name(value)
        .help(help)
        .action(ArgAction::Set)
}

/// What a document may cost; the help says what comes of one that has more bytes.
pub(super) fn limits<'a>(
    alloc: Global,
    command: CommandBuilder<'a>,
    bytes: &'a str,
) -> CommandBuilder<'a> {
    let depth = "A document of more than N levels is too deep; 500 if it isn't given";
    command
        .arg(number(alloc, "max-bytes", "N", 5, LARGEST, bytes))
        .arg(number(alloc, "max-depth", "N", 1, LARGEST, depth))
}

/// Which documents of an input are asked for.
fn portion<'a>(alloc: Global, command: CommandBuilder<'a>, take: &'a str) -> CommandBuilder<'a> {
    let at = "Reads each FILE from this offset on, as 4096, 0x1000, 4K, 48M or 2G";
    let skip = "Passes over the first N documents of each FILE, by their lengths";
    command
        .arg(size(alloc, "at", "OFFSET", at))
        .arg(size(alloc, "skip", "N", skip))
        .arg(size(alloc, "take", "N", take))
}

/// A command that reads FILEs.
pub(super) fn reading<'a>(alloc: Global, command: CommandBuilder<'a>) -> CommandBuilder<'a> {
    reading_few(alloc, command, "Reads at most N documents of each FILE")
}

/// The same, with what is said of the option that says how many documents are read.
pub(super) fn reading_few<'a>(
    alloc: Global,
    command: CommandBuilder<'a>,
    take: &'a str,
) -> CommandBuilder<'a> {
    let help = "Dumps; nothing or -: standard input";
    wholes(alloc, portion(alloc, command, take), help)
}

/// A command that reads FILEs, of which the help says this, from their beginnings on.
pub(super) fn wholes<'a>(
    alloc: Global,
    command: CommandBuilder<'a>,
    help: &'a str,
) -> CommandBuilder<'a> {
    let resync = "Continues after an unsound length, at the next document that counts";
    let bytes = "A length over N bytes is unsound; 16793600 if it isn't given";
    limits(alloc, command, bytes)
        .arg(switch(alloc, "resync", resync))
        .arg(files(alloc, help))
}

/// Where documents go that stand alone.
fn alone<'a>(alloc: Global) -> Arg<'a> {
    Arg::new(alloc, "alone")
        .long("alone")
        .value_name("ALONE")
        .help(
            "Takes the documents that --resync finds alone, unchanged; without it they are left out",
        )
        .action(ArgAction::Set)
}

/// A command that writes documents.
pub(super) fn writing<'a>(alloc: Global, command: CommandBuilder<'a>) -> CommandBuilder<'a> {
    let command = findings(alloc, command).arg(output(alloc));
    reading(alloc, command.arg(alone(alloc)))
}
