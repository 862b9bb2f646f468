//! What is asked, as far as the files that are there decide it.
#![tactic(auto)]

use crate::command_line::{Task, leads_to_items};
use crate::files::inputs::{are_one_pipe, is_there, node_of, size_of};
use dump_commands::command::Command;
use dump_commands::diff::sides::Comparing;
use dump_commands::gathering::Gathering;
use dump_commands::job::Job;
use dump_commands::picking::{Choice, Form, Picking};
use dump_commands::state::gathered::Measure;
use dump_runs::Reading;

/// What is wrong with the arguments, if the files that are there show it.
pub fn wrong_with(rt: &HostRuntime, task: &Task<'_>) -> Option<&'static str> {
    let Reading::Dumps(job) = task.reading else {
        return None;
    };
    match job.command {
        Command::Writes(making) => wrong_paths(rt, task, making.picking()?),
        Command::Gathers(Gathering::Measure(Measure::Parts(_)))
            if !may_be_divided(rt, &task.inputs) => {
            Some("not one FILE: split divides a file, and no pipe, folder or several files")
        }
        Command::Gathers(Gathering::Differences(comparing)) => wrong_keys(comparing.by),
        Command::Prints(_) | Command::Gathers(_) => None,
    }
}

/// What is wrong with the paths that pick elements.
fn wrong_paths(rt: &HostRuntime, task: &Task<'_>, picking: Picking<'_>) -> Option<&'static str> {
    let is_row = matches!(picking.form, Form::Row(_));
    if task.inputs.is_empty() && node_of(rt, picking.paths).is_some() {
        Some(
            "no PATHS: the only argument is a FILE; PATHS come before it, and - after PATHS is standard input",
        )
    } else if is_row && keeps_shape(picking) {
        Some("--csv and --tsv take PATHS without [], and no --without")
    } else if has_long_path(picking) {
        Some("PATHS has a path of more than 500 steps")
    } else {
        None
    }
}

/// What is wrong with the paths by which documents are compared.
fn wrong_keys(by: &str) -> Option<&'static str> {
    if leads_to_items(by) || by.split(',').any(|path| path.is_empty()) {
        Some("--by takes PATHS without [], and none that is empty")
    } else {
        None
    }
}

/// Whether paths lead to all elements with their keys, where they are.
fn keeps_shape(picking: Picking<'_>) -> bool {
    !matches!(picking.choice, Choice::Named)
}

/// How many steps a path may have that leads to all elements with its keys: there is a call of a function for each.
const STEPS: usize = 500;

/// Whether paths that lead to all elements with their keys have more steps than such a path may have.
fn has_long_path(picking: Picking<'_>) -> bool {
    keeps_shape(picking)
        && picking
            .paths
            .split(',')
            .any(|path| path.split('.').count() > STEPS)
}

/// The only input; `-` where none is named.
fn only<'a>(inputs: &[&'a str]) -> Option<&'a str> {
    match inputs {
        [] => Some("-"),
        [name] => Some(*name),
        _ => None,
    }
}

/// Whether there is one input, which is a file, or isn't there.
fn may_be_divided(rt: &HostRuntime, inputs: &[&str]) -> bool {
    match only(inputs) {
        Some(name) => size_of(rt, &[name]).is_some() || !is_there(rt, name),
        None => false,
    }
}

/// What is asked of the inputs, where the number of parts that a file is divided into became the number of bytes of each.
pub fn divided<'a>(rt: &HostRuntime, task: &Task<'a>) -> Reading<'a> {
    let Reading::Dumps(job) = task.reading else {
        return task.reading;
    };
    let Command::Gathers(Gathering::Measure(Measure::Parts(parts))) = job.command else {
        return task.reading;
    };
    let size = match only(&task.inputs) {
        Some(name) => size_of(rt, &[name]).unwrap_or(0),
        None => 0,
    };
    let stretch = size.div_ceil(parts.max(1)).max(1);
    Reading::Dumps(Job {
        command: Command::Gathers(Gathering::Measure(Measure::Parts(stretch))),
        ..job
    })
}

/// How two inputs are compared, if they are.
fn comparing_of<'a>(reading: Reading<'a>) -> Option<Comparing<'a>> {
    match reading {
        Reading::Dumps(job) => job.command.comparing(),
        Reading::Texts(_) => None,
    }
}

/// What is wrong with these inputs, which the words of a task name, where two are compared. Each word names one: a folder may have more.
pub fn wrong_inputs(rt: &HostRuntime, task: &Task<'_>, inputs: &[&str]) -> Option<&'static str> {
    comparing_of(task.reading)?;
    match inputs {
        [old, new] if *old == *new || are_one_pipe(rt, *old, *new) => {
            Some("OLD and NEW are the same FILE")
        }
        [_, _] if task.inputs.len() == 2 => None,
        _ => Some("not two FILEs: diff compares OLD with NEW, and no folder of several dumps"),
    }
}

/// What is asked of the inputs, with the name of the first, where two are compared.
pub fn compared<'a>(reading: Reading<'a>, inputs: &[&'a str]) -> Reading<'a> {
    let Reading::Dumps(job) = reading else {
        return reading;
    };
    let (Some(comparing), [old, ..]) = (job.command.comparing(), inputs) else {
        return reading;
    };
    let comparing = Comparing {
        old: *old,
        ..comparing
    };
    Reading::Dumps(Job {
        command: Command::Gathers(Gathering::Differences(comparing)),
        ..job
    })
}
