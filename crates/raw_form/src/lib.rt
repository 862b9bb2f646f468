//! Canonical forms and tokens of documents, made from views without a tree. It also passes on the first faults and
//! the validation of `raw_tree`.
//!
//! Begin at `form_within` in `canonical.rt`: it copies a canonical document and has `rewrite` write any other.
//! `rewritten.rt` says which elements of a level stay and under which keys, `last.rt` finds the last element of
//! each repeated key. `flatten.rt` makes tokens. `replacing.rt` writes a document with its texts replaced that
//! aren't UTF-8, `replaced.rt` an element of it.
//!
//! In `specs/`, `FormsWithin.antt`, `Tokens.antt` and `Replacing.antt` are what users need; the other files are
//! helpers of the proofs.
//!
//! `raw_bson` doesn't rest on this crate; `bsonraw_c` and the dump crates do. How a form is found may change
//! freely, as long as the contracts of `canonical_within` and `flatten_within` stay.
#![tactic(auto)]

mod canonical;
mod code_len;
mod flatten;
mod held;
mod last;
mod replaced;
mod replacing;
mod rewriting;
mod rewritten;
mod texts;
mod token;

pub use canonical::canonical_within;
pub use flatten::{FlattenError, flatten_within};
pub use replacing::with_replaced_texts;
pub use texts::{BadText, bad_text};
pub use token::Token;

// What users of this crate need of `raw_tree`.
pub use raw_tree::{
    Barrier, BarrierKind, PathStep, Place, PlacedBreach, ValidateError, first_fault_within,
    validate_within,
};
