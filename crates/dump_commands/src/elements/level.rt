//! Levels of a document whose bytes are shown.
#![tactic(auto)]

ghost use Rattle.std.specs.Prelude.{◌≤◌, ◌*◌, length};
ghost use Rattle.raw_view.specs.Document.{bytes_of};

use raw_view::{RawDocument, RawLevel};

/// A level of which elements, or its end, are left.
#[derive(Clone, Copy)]
pub struct Level<'a> {
    /// its bytes
    pub document: RawDocument<'a>,
    /// where what is left of them begins
    pub offset: usize,
    ghost within: { (4 ≤ offset) × (offset ≤ length (bytes_of document)) },
}

/// What comes next in a level.
#[derive(Clone, Copy)]
pub enum Next<'a> {
    /// its end
    End,
    /// an element whose value holds no level
    Element,
    /// an element, and the level that its value holds
    Inside(RawLevel<'a>),
}
