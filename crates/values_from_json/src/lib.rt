//! Single values from MongoDB Extended JSON v2: its numbers, its wrappers that hold no other values, and why a
//! text can't be read. `bson_from_json` puts the values into documents.
//!
//! Begin at `Source` in `source.rt`, which takes the value of each wrapper from the tokens of a text; `binary.rt` has
//! those of `$binary`.
//! `decimal.rt`, `date.rt` and `leaves.rt` read the text of a string; `fault.rt` finds what is wrong at a place.
//!
//! In `specs/`, `Meaning.antt` says which tree a JSON value means, `Wrapped.antt` has a line for each wrapper, and
//! `Numbers.antt`, `Times.antt` and `DecimalTexts.antt` say which texts write a number or a time.
//!
//! `bson_from_json` rests on this crate, and through it `bson_from_json`, the programs and `bsonraw_c`;
//! `json_round_trip` proves that it reads what `bson_to_json` writes. `proofs/Face.antt` has the lemmas that
//! crates above may cite.
#![tactic(auto)]

mod binary;
mod date;
mod decimal;
mod error;
mod fault;
mod leaves;
pub mod place;
mod source;
mod space;
mod wrapper;

pub use date::millis_of;
pub use decimal::decimal128_of;
pub use error::{JsonError, JsonReason, error_at};
pub use fault::Wanted;
pub use leaves::{double_of, integer_of};
pub use source::{Source, is_nul_free};
pub use wrapper::{Wrapper, wrapper_of_key};
