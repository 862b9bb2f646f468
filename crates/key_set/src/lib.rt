//! Sets of borrowed keys. They find a repeated key in n log n steps, whatever the keys are.
//!
//! Begin at `KeySet::add` in `key_set.rt`. A few keys are in a list with a filter (`filter.rt`, `listed.rt`).
//! More keys have an index: fingerprints of their hashes (`fingerprints.rt`), and an ordered map if someone
//! chose keys with the same hash (`indexed_keys.rt`).
//!
//! `specs/KeySets.antt` defines what a set holds and what `add` returns.
//!
//! This crate rests on no other. `raw_tree` rests on it for validation, and `raw_form` for canonical forms.
//! How keys are found may change freely, as long as the contracts of `KeySet` stay; `proofs/Face.antt` has
//! the lemmas that crates above may cite.
#![tactic(auto)]

mod filter;
mod fingerprints;
mod indexed_keys;
mod key_set;
mod listed;

// (the caller keeps the list that the sets of nested levels share)
pub use key_set::KeySet;
