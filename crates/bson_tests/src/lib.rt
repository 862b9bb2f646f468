//! Tests of the libraries through their public calls: views, buffers, trees, forms, JSON and the shelf. They are not
//! in those crates, so that none is proved twice; they are in one crate, since each crate of tests first reads all
//! the libraries that it uses. `crates/calls` has the worked examples of single calls.
//!
//! Begin at `tables.rt`, which says what is returned for the shared documents, at `texts/values.rt`, which says what
//! is printed, at `memory/trees.rt`, `memory/buffers.rt` and `memory/validation.rt`, and at `trees/depth.rt` for a
//! million levels. What tests share is in `fixtures`: `Checks`, which most of them use, is in `fixtures/checks.rt`.
//!
//! `bin/test` runs each test of the module `memory` alone, with each request for memory failing in turn. No other
//! crate uses this one.
#![tactic(auto)]

#[cfg(test)]
mod ample;
#[cfg(test)]
mod any_errors;
#[cfg(test)]
mod appends;
#[cfg(test)]
mod fixtures;
#[cfg(test)]
mod memory;
#[cfg(test)]
mod models;
#[cfg(test)]
mod reasons;
#[cfg(test)]
mod tables;
#[cfg(test)]
mod texts;
#[cfg(test)]
mod trees;
#[cfg(test)]
mod walks;
