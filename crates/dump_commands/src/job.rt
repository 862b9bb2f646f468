//! What is asked of inputs.
#![tactic(auto)]

use crate::command::Command;
use dump_io::input::portion::Portion;
use dump_io::lines::style::Style;
use raw_tree::Limits;

/// What is asked of inputs.
#[derive(Clone, Copy)]
pub struct Job<'a> {
    /// what is asked of their documents
    pub command: Command<'a>,
    /// how what is found is printed
    pub style: Style,
    /// whether bytes are passed over where no document begins
    pub resync: bool,
    /// what a document may cost
    pub limits: Limits,
    /// which documents of each are asked for
    pub portion: Portion,
    /// whether documents that repeat the form of another are told
    pub repeats: bool,
    /// of how many paths elements are counted at most
    pub paths: usize,
    /// how many findings are printed at most
    pub limit: Option<u64>,
}
