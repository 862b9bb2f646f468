//! The command that shows the bytes of documents.
#![tactic(auto)]

use crate::command_line::args::{color, reading_few, switch};
use crate::command_line::builder::CommandBuilder;
use clap::ArgMatches;
use dump_commands::reporting::Report;
use std::alloc::Global;

/// In how many first bytes of a document what is shown begins, where not all is.
const SHOWN: u64 = 65_536;

/// The command that shows bytes.
pub fn shows<'a>(alloc: Global) -> CommandBuilder<'a> {
    let about = "Shows the bytes of a document, with what they are, at every level";
    let whole = "Shows all of a long document, and of long values";
    let hex = "Reads hex digits in place of bytes; white space is ignored";
    let html = "Prints a page for a browser";
    let take = "Shows at most N documents of each FILE; 1 if it isn't given";
    let command = CommandBuilder::new(alloc, "show", about)
        .arg(switch(alloc, "whole", whole))
        .arg(switch(alloc, "hex", hex))
        .arg(switch(alloc, "html", html))
        .arg(color(alloc));
    reading_few(alloc, command, take)
}

pub fn show_of(matches: &ArgMatches<'_>) -> Report {
    Report::Show(if matches.get_flag("whole") {
        None
    } else {
        Some(SHOWN)
    })
}
