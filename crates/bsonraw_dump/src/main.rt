//! Checks dumps, files of BSON documents one after the other, and writes their documents anew.
//!
//! - `command_line`: the words of the command line, the names of files in them, and what they ask for (`parsed`).
//! - `files`: inputs and how far they are read, the output, which takes the place of another file, and lines on standard error.
//! - `program`: from the words to what is asked of inputs; `run`: does that, and gives the exit status.
//!
//! Begin at `all` in `program.rt`. An option is added in `command_line/args.rt`, and read in `command_line/task.rt`; the table
//! of commands is `command_line/commands.rt`. What is proved of a run is below, in `dump_runs`: here are the files, the terminal and
//! the environment, of which no contract can speak. Change them with `bin/test outputs` at hand, which sees that OUTPUT is put in
//! place if and only if all went well.
#![tactic(auto)]

mod asked;
mod command_line;
mod files;
mod program;
mod run;
mod version;

use std::process::ExitCode;

fn main(rt: HostRuntime) -> ExitCode {
    ExitCode::from(program::all(&rt).code())
}
