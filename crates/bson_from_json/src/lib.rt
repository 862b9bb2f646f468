//! BSON documents from MongoDB Extended JSON v2. A text is read once, token by token, into the bytes of a document.
//!
//! Begin at `from_json` in `reading.rt`, and there at `Reader::read`, a loop over the members of the innermost
//! level. `wrapped.rt` reads wrappers, `typed.rt` objects that begin with `$type`, `number.rt` numbers, and
//! `levels.rt` writes the bytes. `values_from_json` reads single values.
//!
//! In `specs/`, `Texts.antt` says which documents a text writes; `Lib.antt` passes on what `values_from_json` says
//! of single values. The other files are helpers of the proofs.
//!
//! `bsonraw_c`, `dump_runs` and `json_round_trip` rest on this crate. How a text is read may change, as long as the
//! contract of `from_json` stays.
#![tactic(auto)]

mod levels;
mod number;
mod reading;
mod typed;
mod unfinished;
mod wrapped;

pub use reading::from_json;
pub use values_from_json::{JsonError, JsonReason, Wrapper, decimal128_of, millis_of};
