//! Runs of `bsonraw-dump` over its inputs, in order: dumps, which the commands read, and texts of documents, which `bson` reads.
//!
//! - `batch`: `run_all` runs over all inputs, writes what was counted, and says how that ended.
//! - `dumps`: `run` cuts one input into documents, and hands each to its command.
//! - `texts`: `read_texts` cuts one input into texts, and writes the document of each.
//!
//! Begin at `run_all` in `batch.rt`: its contract says what was read, written, reported and counted of all inputs, and the exit status
//! (`specs/Status.antt`; `dump_io` has the numbers, and `bsonraw_dump` the status of arguments and of OUTPUT).
//! What one input gives is a list of events, in order (`specs/Plays.antt`). To change what a part of an input gives, change `events_of`
//! in `specs/dumps/Run.antt` or `specs/texts/Run.antt` first. What a command makes of a document is `dump_commands`; how bytes are read
//! and lines are spelled is `dump_io`. Files are opened in `bsonraw_dump` alone.
#![tactic(auto)]

mod batch;
mod dumps;
mod ends;
mod reading;
mod style;
mod sums;
mod texts;
mod writers;

pub use batch::run_all;
pub use reading::{Reading, TextJob};
pub use writers::Writers;
