//! Runs over inputs of texts of documents, whose bytes are written.
#![tactic(auto)]

mod cursor;
mod fault;
mod piece;
mod reading;

pub use reading::read_texts;
