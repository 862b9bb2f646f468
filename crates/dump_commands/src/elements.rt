//! The elements of a document: those of every level, a line each, and the document of those that paths name.
#![tactic(auto)]

pub mod cell;
pub mod changes;
pub mod chosen;
pub mod cut;
pub mod having;
pub mod hexed;
pub mod id;
pub mod level;
pub mod listing;
pub mod page;
pub mod pick;
pub mod refusals;
pub mod row;
pub mod runs;
pub mod showing;
pub mod stops;
pub mod text;
pub mod values;
