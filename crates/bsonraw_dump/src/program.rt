//! Does what the arguments ask for.
#![tactic(auto)]

use crate::asked::{compared, divided, wrong_inputs, wrong_with};
use crate::command_line::{Names, Task, Words, copied, expanded, given_words, parsed, refusal};
use crate::files::inputs::Unread;
use crate::files::tell::{tell, tell_words};
use crate::run::{Run, start};
use crate::version::VERSION;
use dump_io::input::status::Status;
use dump_io::lines::style::Style;
use dump_runs::Reading;
use std::alloc::{AllocError, Global};
use std::io;

/// Does what the arguments ask for.
pub fn all(rt: &HostRuntime) -> Status {
    let Ok(words) = given_words(rt) else {
        tell_words(rt, Style::Words, "not enough memory");
        return Status::Memory;
    };
    if let Some(wrong) = &words.wrong {
        return misplaced(rt, wrong.as_str());
    }
    match parsed(rt.alloc(), VERSION, &words.words) {
        Ok(Some(task)) => with_words(rt, &task, &words),
        Ok(None) => Status::Usage,
        Err(error) if error.use_stderr() => refused(rt, &words, &error),
        Err(error) => printed(rt, &error, Status::Done),
    }
}

/// Tells of an argument that isn't UTF-8, and isn't a FILE.
fn misplaced(rt: &HostRuntime, name: &str) -> Status {
    let error = io::Error::other("it can't be left out");
    tell(rt, Style::Words, name, None, &error);
    Status::Usage
}

/// Prints what is wrong with the arguments, without what a terminal would obey in them.
fn refused(rt: &HostRuntime, words: &Words, error: &clap::Error) -> Status {
    let Ok(shown) = words.shown(rt.alloc()) else {
        tell_words(rt, Style::Words, "not enough memory");
        return Status::Memory;
    };
    match parsed(rt.alloc(), VERSION, &shown) {
        Err(error) => printed(rt, &error, Status::Usage),
        Ok(_) => {
            tell_words(
                rt,
                Style::Words,
                error.kind().as_str().unwrap_or("wrong arguments"),
            );
            Status::Usage
        }
    }
}

/// Prints why the arguments ask for nothing: help that was asked for, or what is wrong with them.
fn printed(rt: &HostRuntime, error: &clap::Error, status: Status) -> Status {
    match error.print(rt) {
        Ok(()) => status,
        Err(_) => Status::Output,
    }
}

/// Does a task, unless an argument that isn't UTF-8 isn't a FILE.
fn with_words(rt: &HostRuntime, task: &Task<'_>, words: &Words) -> Status {
    if let Some(name) = words.misplaced(&task.inputs) {
        return misplaced(rt, name);
    }
    if let Some(wrong) = wrong_with(rt, task) {
        let error = refusal(rt.alloc(), VERSION, wrong);
        return printed(rt, &error, Status::Usage);
    }
    with_names(rt, task, words).unwrap_or(Status::Memory)
}

/// The command that was given, as it is typed to read standard input in place of what isn't read.
fn typed(alloc: Global, words: &Words, names: &Names) -> Result<String, AllocError> {
    let command = words.words.get(1).map_or("..", |word| word.as_str());
    let others = match command {
        "pick" => " PATHS",
        "diff" if names.first_is_read() => " OLD -",
        "diff" => " - NEW",
        _ => "",
    };
    format!(in alloc; "bsonraw-dump {command}{others}")
}

/// How a file is read whose name isn't UTF-8.
fn way_of(alloc: Global, typed: &str) -> Result<String, AllocError> {
    format!(in alloc; "not read; use: {typed} < FILE")
}

/// How the packed files of a folder are read, of which there are `count`.
fn way_of_packed(alloc: Global, typed: &str, count: usize) -> Result<String, AllocError> {
    let others = count.saturating_sub(1);
    let more = if others > 0 {
        format!(in alloc; ", nor are {others} others")?
    } else {
        String::new(alloc)
    };
    format!(in alloc;
        "not read{more}; use: find FOLDER -name '*.bson.gz' | while read -r f; do gzip -dc \"$f\" | {typed}; done"
    )
}

/// Does a task whose inputs are named as on the command line.
fn with_names(rt: &HostRuntime, task: &Task<'_>, words: &Words) -> Result<Status, AllocError> {
    let names = match task.reading {
        Reading::Dumps(_) => expanded(rt, &task.inputs)?,
        Reading::Texts(_) => copied(rt, &task.inputs)?,
    };
    let typed = typed(rt.alloc(), words, &names)?;
    let way = way_of(rt.alloc(), typed.as_str())?;
    let way_of_packed = way_of_packed(rt.alloc(), typed.as_str(), names.packed.len())?;
    let mut inputs = Vec::new(rt.alloc());
    for name in &names.names {
        inputs.push(name.as_str())?;
    }
    if inputs.is_empty() {
        inputs.push("-")?;
    }
    if let Some(wrong) = wrong_inputs(rt, task, &inputs) {
        let error = refusal(rt.alloc(), VERSION, wrong);
        return Ok(printed(rt, &error, Status::Usage));
    }
    Ok(start(
        rt,
        &Run {
            reading: compared(divided(rt, task), &inputs),
            printing: task.printing,
            output: task.output,
            alone: task.alone,
            inputs,
            unread: Unread {
                names: &names.unread,
                words: way.as_str(),
                packed: &names.packed,
                packed_words: way_of_packed.as_str(),
            },
            color: task.color,
            hex: task.hex,
        },
    ))
}
