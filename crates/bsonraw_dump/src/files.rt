//! The files of a run: its inputs, how far their reading has come, what they look like that aren't dumps; the output, which
//! takes the place of another; and what is reported of them on standard error.
#![tactic(auto)]

pub mod alone;
pub mod browser;
mod bytes;
pub mod colors;
mod digits;
pub mod findings;
mod guess;
pub mod header;
pub mod inputs;
pub mod output;
pub mod prompt;
pub mod tell;
pub mod watch;
