//! Where documents continue in a damaged dump, and how much may be spent on finding out.
//!
//! Begin at `seek` in `search.rt`, which tries one place after another. `check.rt` decides whether documents
//! continue at a place, `key.rt` whether what is before it says that it is inside a document, `probe.rt` whether a
//! piece of the input is an undamaged document, `charge.rt` what that costs, and `work.rt` whether there is enough
//! for it. `length.rt` decides whether the elements of a damaged document explain its length.
//!
//! In `specs/`, `Pieces.antt` cuts bytes into documents, `Resync.antt` says which documents count and which lengths
//! aren't believed, `Charge.antt` says what a look costs, `Searches.antt` which places are looked at and what is
//! charged for all of them, and `Seeking.antt` what a search returns for part of an input.
//!
//! `dump_io`, `dump_runs` and `bsonraw_c` rest on this crate. How a search goes on may change, as long as the
//! contracts of `seek` and `explain_length` stay; `proofs/Face.antt` has the lemmas that crates above may cite.
#![tactic(auto)]

mod charge;
mod check;
mod key;
mod length;
mod probe;
mod search;
mod work;

pub use check::Part;
pub use key::BEFORE_PLACE;
pub use length::{Length, explain_length};
pub use search::{Places, Sought, seek};
pub use work::Work;
