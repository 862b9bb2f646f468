//! Where documents begin.
#![tactic(auto)]

/// Where a document begins.
#[derive(Clone, Copy)]
pub struct Origin<'a> {
    /// the name of its input
    pub name: &'a str,
    /// the offset in it
    pub offset: u64,
}
