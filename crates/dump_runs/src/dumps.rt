//! Runs of commands over dumps, files of BSON documents one after the other.
#![tactic(auto)]

mod alone;
mod found;
mod gap;
mod piece;
pub mod run;
pub mod source;
