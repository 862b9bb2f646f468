//! What is found in a document, and the lines that say it: words, or objects of JSON.
#![tactic(auto)]

pub mod failure;
pub mod find;
pub mod object;
pub mod origin;
pub mod quote;
pub mod reason;
pub mod style;
pub mod text;
pub mod value;
pub mod write;
