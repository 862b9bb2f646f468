//! Runs a command over inputs.
#![tactic(auto)]

use crate::command_line::Printing;
use crate::files::alone::{Alone, failed};
use crate::files::browser::Browser;
use crate::files::colors::{Colors, When, are_colored};
use crate::files::findings::Findings;
use crate::files::header::{begin, ended_by};
use crate::files::inputs::{Files, Unread, are_one, node_of, size_of};
use crate::files::output::{BLOCK, Fill, into_file};
use crate::files::prompt::Prompt;
use crate::files::tell::{tell, tell_words};
use crate::files::watch::Progress;
use dump_io::input::done::{Done, Lack};
use dump_io::input::status::Status;
use dump_io::lines::failure::Failure;
use dump_io::lines::find::most_allowed;
use dump_io::lines::style::Style;
use dump_runs::{Reading, Writers, run_all};
use std::fs::File;
use std::io::{BufWriter, ErrorKind, IsTerminal, Write};
use std::{env, io};

/// What is asked of inputs.
#[derive(Drop)]
pub struct Run<'a> {
    /// what they hold, and what is asked of them
    pub reading: Reading<'a>,
    /// what is printed, and where
    pub printing: Printing,
    /// the file that is written in place of standard output
    pub output: Option<&'a str>,
    /// the file that documents are written to that stand alone
    pub alone: Option<&'a str>,
    /// what is read; `-` is standard input
    pub inputs: Vec<&'a str>,
    /// which of them can't be opened
    pub unread: Unread<'a>,
    /// when lines are in colors
    pub color: When,
    /// whether inputs are texts of hex digits in place of bytes
    pub hex: bool,
}

/// Does what is asked of these inputs.
pub fn start(rt: &HostRuntime, run: &Run<'_>) -> Status {
    if let Some(name) = run.output {
        return into_file(rt, run, name);
    }
    if run.reading.writes_documents() && rt.stdout().is_terminal() {
        let words = "standard output is a terminal; redirect it, or name an OUTPUT by -o";
        tell_words(rt, run.reading.style(), words);
        return Status::Usage;
    }
    let Ok(mut out) = BufWriter::with_capacity(rt.alloc(), BLOCK, rt.stdout()) else {
        tell_words(rt, run.reading.style(), "not enough memory");
        return Status::Memory;
    };
    match run.printing {
        Printing::Soon => {
            let is_file = node_of(rt, "/dev/stdout").is_some();
            let clears = rt.stdout().is_terminal() && shows_progress(rt, run);
            let lines = colored(rt, run, out, rt.stdout().is_terminal());
            let mut out = Prompt::new(rt, lines, !is_file, clears);
            each(rt, run, &mut io::sink(), &mut out).status
        }
        Printing::Lines => {
            let mut lines = colored(rt, run, out, rt.stdout().is_terminal());
            each(rt, run, &mut io::sink(), &mut lines).status
        }
        Printing::Page => page(rt, run, out),
        Printing::Documents => {
            let mut findings = Findings {
                rt,
                writer: colored(rt, run, rt.stderr(), rt.stderr().is_terminal()),
                clears: shows_progress(rt, run),
                is_apart: !are_one(rt, "/dev/stdout", "/dev/stderr"),
            };
            each(rt, run, &mut out, &mut findings).status
        }
    }
}

/// Prints lines as a page for a browser.
fn page<W: Write + Drop>(rt: &HostRuntime, run: &Run<'_>, out: W) -> Status {
    let mut page = Browser {
        writer: out,
        alloc: rt.alloc(),
    };
    if let Err(error) = page.begin() {
        return unwritten(rt, run, error);
    }
    let status = each(rt, run, &mut io::sink(), &mut page).status;
    match page.end() {
        Ok(()) => status,
        Err(error) => unwritten(rt, run, error),
    }
}

/// Tells that a page can't be written.
fn unwritten(rt: &HostRuntime, run: &Run<'_>, error: io::Error) -> Status {
    tell_failure(rt, run, &Failure::Writing(error));
    Status::Output
}

/// The writer of lines, which are in colors where that is asked for.
fn colored<W>(rt: &HostRuntime, run: &Run<'_>, writer: W, is_terminal: bool) -> Colors<W> {
    let is_text = matches!(run.reading.style(), Style::Words);
    Colors {
        writer,
        on: is_text && are_colored(rt, run.color, is_terminal),
        alloc: rt.alloc(),
    }
}

impl<'a> Fill<'a> for Run<'a> {
    fn style(&self) -> Style {
        self.reading.style()
    }

    fn way_on(&self) -> &'static str {
        self.reading.way_on()
    }

    fn fill(&self, rt: &HostRuntime, data: &mut BufWriter<File>) -> Done<'a> {
        let mut findings = Findings {
            rt,
            writer: colored(rt, self, rt.stderr(), rt.stderr().is_terminal()),
            clears: shows_progress(rt, self),
            is_apart: true,
        };
        each(rt, self, data, &mut findings)
    }
}

/// Runs the command over each input, and reports a failure.
fn each<'a, D: Write, W: Write>(
    rt: &HostRuntime,
    run: &Run<'a>,
    data: &mut D,
    report: &mut W,
) -> Done<'a> {
    let Some(name) = run.alone else {
        return told(rt, run, over_each(rt, run, data, &mut io::sink(), report));
    };
    match Alone::open(rt, run.reading.style(), name) {
        Ok(mut alone) => {
            let done = over_each(rt, run, data, &mut alone, report);
            told(rt, run, alone.end(rt, done))
        }
        Err(error) => {
            tell(rt, run.reading.style(), name, None, &error);
            failed(error)
        }
    }
}

/// Reports a failure of a run.
fn told<'a>(rt: &HostRuntime, run: &Run<'_>, done: Done<'a>) -> Done<'a> {
    if let Some(Lack::Failed(failure)) = &done.lack {
        tell_failure(rt, run, failure);
    }
    done
}

/// Runs the command over each input.
fn over_each<'a, D: Write, A: Write, W: Write>(
    rt: &HostRuntime,
    run: &Run<'a>,
    data: &mut D,
    alone: &mut A,
    report: &mut W,
) -> Done<'a> {
    let shows = shows_progress(rt, run);
    let size = if shows {
        size_of(rt, &run.inputs)
    } else {
        None
    };
    let progress = Progress::new(rt, shows, size);
    let inputs = files_of(&*rt, &*run, &progress);
    let mut writers = Writers::new(data, alone, report);
    write_all(rt, run, &inputs, &mut writers)
}

/// Writes what comes before the documents of all inputs, and runs the command over each input.
fn write_all<'a, D: Write + Drop, A: Write + Drop, W: Write + Drop>(
    rt: &HostRuntime,
    run: &Run<'a>,
    inputs: &Files<'_, '_>,
    writers: &mut Writers<D, A, W>,
) -> Done<'a> {
    if let Err(failure) = begin(rt, run.reading, &mut writers.out) {
        return ended_by(writers.cause_of(failure));
    }
    run_all(rt.alloc(), run.reading, inputs, &run.inputs, writers)
}

/// Whether it is shown how far the reading has come: not where documents or lines are written to the same terminal.
fn shows_progress(rt: &HostRuntime, run: &Run<'_>) -> bool {
    let is_soon = matches!(run.printing, Printing::Soon);
    let is_apart = is_soon || run.output.is_some() || !rt.stdout().is_terminal();
    is_apart && is_shown(rt, run.reading.style())
}

fn files_of<'a, 'b>(
    rt: &'a HostRuntime,
    run: &'b Run<'_>,
    progress: &'b Progress<'a>,
) -> Files<'a, 'b> {
    Files {
        rt,
        style: run.reading.style(),
        progress,
        most: match run.reading {
            Reading::Dumps(job) => Some(job.limits.bytes.max(most_allowed().bytes)),
            Reading::Texts(_) => None,
        },
        written: match run.output {
            None => node_of(rt, "/dev/stdout"),
            Some(_) => None,
        },
        unread: run.unread,
        hex: run.hex,
        goes_on: match run.reading {
            Reading::Dumps(job) => job.resync,
            Reading::Texts(job) => job.keep_going,
        },
    }
}

/// Whether standard error is a terminal that can write over a line, where lines are asked for.
fn is_shown(rt: &HostRuntime, style: Style) -> bool {
    let is_dumb = env::var(rt, "TERM").is_ok_and(|kind| kind.as_str() == "dumb");
    rt.stderr().is_terminal() && !is_dumb && !matches!(style, Style::Quiet)
}

/// Tells why a run failed. A pipe whose reader is gone ends it quietly.
fn tell_failure(rt: &HostRuntime, run: &Run<'_>, failure: &Failure) {
    let style = run.reading.style();
    let output = run.output.unwrap_or("standard output");
    match failure {
        Failure::Memory => tell_words(rt, style, "not enough memory"),
        Failure::TooLarge => tell(
            rt,
            style,
            output,
            None,
            &io::Error::from(ErrorKind::FileTooLarge),
        ),
        Failure::Writing(error) | Failure::Reading(error) => {
            if error.kind() != ErrorKind::BrokenPipe {
                tell(rt, style, output, None, error);
            }
        }
    }
}
