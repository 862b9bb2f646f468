//! Which documents of two inputs differ: what is gathered of each, which belong together, and the lines that tell it.
#![tactic(auto)]

mod again;
pub mod last;
pub mod lines;
pub mod pairs;
pub mod sides;
pub mod tell;
mod twins;
