//! What is kept of documents from one to the next: how many were written, the digests of their forms, and what was gathered of elements and of
//! lengths.
#![tactic(auto)]

mod fields;
pub mod gathered;
pub mod kept;
mod measure_lines;
pub mod measures;
mod path_lines;
pub mod paths;
mod rows;
pub(crate) mod seen;

pub use fields::tokens_of;
