//! What each command of `bsonraw-dump` makes of one document: what it writes to the output, what it reports, and what it gathers.
//!
//! - `command` has the groups of commands, and says how one is added; `job` has what is asked of one.
//! - `reporting` has the commands that print lines of documents, and the lines that others print of what they leave out; `finding` says what is
//!   found in a document, and `summary` tells what was counted. `elements` lists the elements, shows their bytes, and picks those at
//!   paths.
//! - `gathering` has the commands that gather something of all documents.
//! - `making` has the commands that write the document, its canonical form, or its JSON; `picking` says what is picked of it, `texts` keeps a
//!   damaged one, with its texts replaced, and `writing` writes it.
//! - `state` is what is carried from one document to the next: how many were written, the forms that were seen, the counts of elements, what lengths show.
//!
//! Begin at `judge` in `finding.rt` and `emit` in `making.rt`. To change what a command writes, change `Reporting.antt`, `Gathering.antt` or
//! `Making.antt` in `specs/` first. Nothing is read here: a document comes as a slice with its place. `dump_runs` has the readers and the order
//! of documents, and calls for each `judge`, `put_listing`, `emit`, `put_repeat` and `count_fields`, in this order (`pass` in `dumps/piece.rt`).
#![tactic(auto)]

pub mod command;
pub mod counts;
pub mod diff;
mod elements;
pub mod finding;
pub mod gathering;
pub mod job;
pub mod making;
pub mod picking;
pub mod reporting;
pub mod state;
pub mod summary;
pub mod texts;
mod writing;
