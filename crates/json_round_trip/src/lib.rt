//! Documents to MongoDB Extended JSON and back: what is printed of a document in the canonical format is read as
//! that document, with exceptions that `specs/Returning.antt` lists.
//!
//! Begin at `round_trip` in `trip.rt`, which prints and reads, and at `ClosesCircle` in `specs/Closing.antt`, the
//! law. `proofs/leaves` has the proof for each kind of value that holds no others.
//!
//! The crate is over `bson_to_json` and `bson_from_json`, and nothing rests on it. A change of what is printed or of
//! what is read has to keep it proved.
#![tactic(auto)]

pub mod laws;
mod trip;

pub use trip::{RoundTripError, round_trip};
