//! The command line: its words, the names of files in them, and what they ask for.
#![tactic(auto)]

mod args;
mod builder;
mod commands;
mod folders;
mod names;
mod numbers;
mod picks;
mod shows;
mod task;
mod words;

pub use commands::Printing;
pub use folders::listing;
pub use names::{Names, copied, expanded};
pub use picks::leads_to_items;
pub use task::{Task, parsed, refusal};
pub use words::{Words, given_words};
