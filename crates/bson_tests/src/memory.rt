//! Tests that `bin/test` runs alone, with each request for memory failing in turn. Each call returns what it
//! returns with ample memory, or out of memory where that is possible.

mod asserts;
pub(crate) mod buffers;
pub(crate) mod copies;
pub(crate) mod errors;
mod from_json;
mod kinds;
mod look_ups;
mod no_memory;
pub(crate) mod pairs;
mod parts;
pub(crate) mod replacing;
mod requests;
mod shelf;
mod to_json;
pub(crate) mod trees;
pub(crate) mod validation;
pub(crate) mod writing;
