//! Reads trees of BSON values from bytes, writes the bytes of values and trees, and walks over all levels of
//! a document to find its first fault or to say whether it is canonical.
//!
//! Begin at `read` in `reader.rt` for trees from bytes, at `write` in `writer.rt` for bytes from trees, and at
//! `Walk::next` in `walk.rt` for walks. `walk/faults.rt` finds first faults by a walk, and `validator/within.rt`
//! first breaches. `put.rt` appends elements and values.
//!
//! In `specs/`, `reader/Reading.antt` says which tree bytes are read as, `Canonical.antt` which documents are
//! canonical, `CanonicalForm.antt` states the main theorem, `walk/First.antt` says where in a document
//! something is first, as a fault or a breach, and `walk/Visits.antt` lists the elements of all levels.
//!
//! `raw_form`, `raw_resync`, `raw_bson`, the JSON crates, the programs and `bsonraw_c` rest on this crate.
//! What is `#[doc(hidden)]` below is for them alone. `proofs/Face.antt` has the lemmas that they may cite;
//! any other lemma may change.
#![tactic(auto)]

mod put;
mod reader;
mod validator;
mod walk;
mod writer;

pub use put::payload::{is_nul_free, is_value_nul_free, payload_len};
pub use put::total::total_len;
// For `raw_bson`, `raw_form` and `bson_from_json` alone. They write into vectors that have room; the caller
// makes sure of that.
#[doc(hidden)]
pub use put::{put_element, put_head, put_raw_element, put_string, put_unset, set_len};
pub use reader::levels::copied_pointer;
pub use reader::limits::{Limits, document_from_raw_within};
pub use reader::steps::Steps;
pub use reader::{
    bson_from_element, bson_from_raw, document_from_raw, document_from_raw_counted, list_from_raw,
};
pub use validator::breach::{Breach, Cause};
pub use validator::validate;
pub use validator::within::{PlacedBreach, ValidateError, validate_within};
// For `raw_form` alone, which continues where a validation ended.
#[doc(hidden)]
pub use validator::within::{Found, validate_to_depth};
pub use walk::barrier::{Barrier, BarrierKind};
#[doc(hidden)]
pub use walk::depth::MostWaiting;
#[doc(hidden)]
pub use walk::element::{element_at, next_element};
pub use walk::faults::first_fault_within;
#[doc(hidden)]
pub use walk::faults::{FIRST, Start, first_behind};
// For `raw_form` and `bson_to_json`, which produce output for each event of a walk.
#[doc(hidden)]
pub use walk::level::{Level, Waiting, behind};
pub use walk::place::{PathStep, Place};
#[doc(hidden)]
pub use walk::room::put_at;
#[doc(hidden)]
pub use walk::{Event, Walk, WalkError};
pub use writer::{encode, encode_list};
