//! Documents as MongoDB Extended JSON v2, within limits; and single values: numbers, times and texts.
//!
//! Begin at `print` in `print.rt`, which walks over a document and writes its text block by block. `level.rt`
//! writes what is around the members of a level, `leaf.rt` single values. Numbers and times are in `doubles.rt`,
//! `decimals.rt` and `dates.rt`, over the arrays of `short_text.rt`, and texts in `quote.rt`. `sink.rt` has what
//! takes a text block by block, `guarded.rt` a writer that knows whether a write failed, and `document.rt` the calls
//! for users.
//!
//! In `specs/`, `Json.antt` says which text a document has, `Leaves.antt` which one a single value has, with
//! `Doubles.antt`, `Dates.antt` and `Decimals.antt`; `Errors.antt` says why a document isn't printed.
//!
//! The dump programs, `bsonraw_c` and `json_round_trip` rest on this crate. `json_round_trip` proves that what is
//! printed is read back as the same document: a change of a text also changes `values_from_json` or that proof.
#![tactic(auto)]

mod dates;
mod decimals;
mod document;
mod doubles;
mod error;
mod guarded;
mod leaf;
mod level;
mod plain;
mod print;
mod put;
mod quote;
mod short_text;
mod sink;
mod style;

pub use dates::time_text;
pub use decimals::decimal128_text;
pub use document::{measured_json, to_json, write_json};
pub use error::{ToJsonError, WriteJsonError};
pub use guarded::Guarded;
pub use short_text::ShortText;
pub use sink::Measured;
pub use style::{Format, Layout, Style};
// For the lines of `dump_io` alone.
#[doc(hidden)]
pub use put::put_all;
