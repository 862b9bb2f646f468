//! The version of the program.
#![tactic(auto)]

/// The version, and the commit that it is built from: bin/install and bin/package write it into the copy that they build.
pub const VERSION: &str = "2.0.0 (unreleased)";
