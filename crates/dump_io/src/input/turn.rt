//! What may come between the texts of documents, which follow one another or are the items of one array.
#![tactic(auto)]

ghost use Rattle.std.specs.Prelude.{◌≡◌};
ghost use Rattle.dump_io.specs.input.Between.{TurnsTo, turn_after_document, turn_after_gap};
ghost use Rattle.dump_io.specs.input.Between as says;

use crate::input::scan::is_space;

/// What may come next.
#[derive(Clone, Copy)]
pub enum Turn {
    /// a document, the bracket of an array, or the end of the input
    First,
    /// a document or the end of the input
    Next,
    /// an item of the array, or its end
    Item,
    /// an item of the array
    More,
    /// a comma or the end of the array
    Comma,
    /// the end of the input
    Last,
}

impl Turn {
    /// What may come after one byte more between documents; `None` if the byte can't be there.
    pub fn behind(self, byte: u8) -> Option<Turn>
        ensures { TurnsTo self byte result }
    {
        if is_space(byte) {
            return Some(self);
        }
        match self {
            Turn::First if byte == b'[' => Some(Turn::Item),
            Turn::Comma if byte == b',' => Some(Turn::More),
            Turn::Item | Turn::Comma if byte == b']' => Some(Turn::Last),
            _ => None,
        }
    }

    /// Whether a document may come.
    pub fn may_begin(self) -> bool
        ensures { result ≡ says.may_begin self }
    {
        match self {
            Turn::First | Turn::Next | Turn::Item | Turn::More => true,
            Turn::Comma | Turn::Last => false,
        }
    }

    /// Whether the input may end.
    pub fn may_end(self) -> bool
        ensures { result ≡ says.may_end self }
    {
        match self {
            Turn::First | Turn::Next | Turn::Last => true,
            Turn::Item | Turn::More | Turn::Comma => false,
        }
    }

    /// What may come after a document.
    pub fn behind_document(self) -> Turn
        ensures { result ≡ turn_after_document self }
    {
        match self {
            Turn::First | Turn::Next | Turn::Last => Turn::Next,
            Turn::Item | Turn::More | Turn::Comma => Turn::Comma,
        }
    }

    /// What may come after bytes that are passed over.
    pub fn behind_gap(self) -> Turn
        ensures { result ≡ turn_after_gap self }
    {
        match self {
            Turn::First | Turn::Next | Turn::Last => Turn::Next,
            Turn::Item | Turn::More | Turn::Comma => Turn::Item,
        }
    }
}
