//! A store of canonical documents, each once, in the order in which they first came. Documents have the same tree
//! if and only if they have the same canonical bytes, so comparing bytes is enough.
//!
//! Begin at `Shelf::put` in `shelf.rt`. `specs/Shelves.antt` defines a shelf and what a put does;
//! `proofs/Stored.antt` adds one document to a shelf.
//!
//! The crate is over `raw_bson`, and only `bson_uses` and `bson_tests` use it.
#![tactic(auto)]

mod put_error;
mod shelf;

pub use put_error::PutError;
pub use shelf::Shelf;
