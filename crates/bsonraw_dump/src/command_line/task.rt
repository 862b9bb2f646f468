//! The command line.
#![tactic(auto)]

use crate::command_line::commands::{Printing, asked_by, command_line};
use crate::command_line::numbers::number_in;
use crate::files::colors::When;
use clap::error::ErrorKind;
use clap::{ArgMatches, Error};
use dump_commands::command::Command;
use dump_commands::job::Job;
use dump_commands::reporting::Report;
use dump_io::input::portion::Portion;
use dump_io::lines::find::most_allowed;
use dump_io::lines::style::Style;
use dump_runs::{Reading, TextJob};
use raw_tree::Limits;
use std::alloc::Global;

/// What the arguments ask for.
#[derive(Drop)]
pub struct Task<'a> {
    /// what is asked of the inputs
    pub reading: Reading<'a>,
    /// what is printed, and where
    pub printing: Printing,
    /// the file that is written in place of standard output
    pub output: Option<&'a str>,
    /// the file that documents are written to that stand alone
    pub alone: Option<&'a str>,
    /// what is read; nothing and `-` are standard input
    pub inputs: Vec<&'a str>,
    /// when lines are in colors
    pub color: When,
    /// whether inputs are texts of hex digits in place of bytes
    pub hex: bool,
}

/// When lines are in colors.
fn color_of(matches: &ArgMatches<'_>) -> When {
    match matches.get_str("color") {
        Some("always") => When::Always,
        Some("never") => When::Never,
        _ => When::Auto,
    }
}

/// Of how many paths elements are counted where no number is given.
const PATHS: usize = 10_000;

fn style_of(matches: &ArgMatches<'_>) -> Style {
    if matches.get_flag("quiet") {
        Style::Quiet
    } else if matches.get_flag("json") || matches.get_str("findings") == Some("json") {
        Style::Json
    } else {
        Style::Words
    }
}

/// What a document may cost, as it was given.
pub fn limits_of(matches: &ArgMatches<'_>) -> Limits {
    let usual = most_allowed();
    Limits {
        bytes: matches.get_one("max-bytes").unwrap_or(usual.bytes),
        depth: matches.get_one("max-depth").unwrap_or(usual.depth),
    }
}

/// An error of the command line of the program of this version, in these words.
pub fn refusal(alloc: Global, version: &str, words: &str) -> Error {
    match command_line(alloc, version) {
        Ok(mut line) => line
            .error(ErrorKind::ValueValidation, words)
            .unwrap_or_else(|error| Error::from(error)),
        Err(error) => Error::from(error),
    }
}

/// The number of bytes or of documents that an option was given.
fn size_of(
    alloc: Global,
    version: &str,
    matches: &ArgMatches<'_>,
    option: &str,
) -> Result<Option<u64>, Error> {
    let Some(text) = matches.get_str(option) else {
        return Ok(None);
    };
    match number_in(text) {
        Some(number) => Ok(Some(number)),
        None => {
            let value = if option == "at" { "OFFSET" } else { "N" };
            let words = format!(in alloc;
                "invalid value '{text}' for '--{option} <{value}>': not a number, as 4096, 0x1000, 4K, 48M or 2G"
            )?;
            Err(refusal(alloc, version, words.as_str()))
        }
    }
}

/// Which documents of each input are asked for.
fn portion_of(
    alloc: Global,
    version: &str,
    command: Command<'_>,
    matches: &ArgMatches<'_>,
) -> Result<Portion, Error> {
    let take = size_of(alloc, version, matches, "take")?;
    Ok(Portion {
        at: size_of(alloc, version, matches, "at")?.unwrap_or(0),
        skip: size_of(alloc, version, matches, "skip")?.unwrap_or(0),
        take: take.or(taken_by(command)),
    })
}

/// How many documents of each input a command takes where no number is given.
fn taken_by(command: Command<'_>) -> Option<u64> {
    match command {
        Command::Prints(Report::Show(_)) => Some(1),
        Command::Prints(_) | Command::Gathers(_) | Command::Writes(_) => None,
    }
}

/// The task of a command that was given, which reads dumps. What a command may not be given is as if it wasn't.
fn task_of<'a>(
    alloc: Global,
    version: &str,
    command: Command<'a>,
    printing: Printing,
    matches: &ArgMatches<'a>,
) -> Result<Task<'a>, Error> {
    Ok(Task {
        reading: Reading::Dumps(Job {
            command,
            style: style_of(matches),
            resync: matches.get_flag("resync"),
            repeats: matches.get_flag("repeats"),
            limit: matches.get_one("limit"),
            limits: limits_of(matches),
            portion: portion_of(alloc, version, command, matches)?,
            paths: matches.get_one("paths").unwrap_or(PATHS),
        }),
        printing,
        output: output_of(matches),
        alone: matches.get_str("alone"),
        inputs: inputs_of(alloc, matches)?,
        color: color_of(matches),
        hex: matches.get_flag("hex"),
    })
}

/// The file that is written in place of standard output.
fn output_of<'a>(matches: &ArgMatches<'a>) -> Option<&'a str> {
    matches.get_str("output").filter(|name| *name != "-")
}

/// The names of what is read.
fn inputs_of<'a>(alloc: Global, matches: &ArgMatches<'a>) -> Result<Vec<&'a str>, Error> {
    let mut inputs = Vec::new(alloc);
    if let Some(names) = matches.get_strs("FILE") {
        for name in names {
            inputs.push(*name)?;
        }
    }
    Ok(inputs)
}

/// The task of the command that reads texts.
fn text_task<'a>(alloc: Global, matches: &ArgMatches<'a>) -> Result<Task<'a>, Error> {
    Ok(Task {
        reading: Reading::Texts(TextJob {
            style: style_of(matches),
            keep_going: matches.get_flag("keep-going"),
            limits: limits_of(matches),
            limit: matches.get_one("limit"),
        }),
        printing: Printing::Documents,
        output: output_of(matches),
        alone: None,
        inputs: inputs_of(alloc, matches)?,
        color: color_of(matches),
        hex: false,
    })
}

/// What the matches of a command line ask for.
fn task_in<'a>(
    alloc: Global,
    version: &str,
    matches: &ArgMatches<'a>,
) -> Result<Option<Task<'a>>, Error> {
    let Some((name, inner)) = matches.subcommand() else {
        return Ok(None);
    };
    let task = match asked_by(name, inner) {
        Some((command, printing)) => task_of(alloc, version, command, printing, inner)?,
        None => text_task(alloc, inner)?,
    };
    Ok(Some(task))
}

/// What the words of a command line ask for, of the program of this version.
pub fn parsed<'a>(
    alloc: Global,
    version: &'a str,
    words: &'a [String],
) -> Result<Option<Task<'a>>, Error> {
    let matches = command_line(alloc, version)?.try_get_matches_from(words)?;
    task_in(alloc, version, &matches)
}
