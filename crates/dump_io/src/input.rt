//! Inputs as they are read: what is ahead, where documents go on, where a text ends.
#![tactic(auto)]

pub mod done;
pub mod ending;
pub mod inputs;
pub mod portion;
pub mod position;
pub mod rest;
pub mod resync;
pub mod scan;
pub mod status;
pub mod turn;
pub mod window;
