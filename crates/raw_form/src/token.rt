//! Tokens of elements.
#![tactic(auto)]

ghost use Rattle.std.specs.Prelude.{◌≡◌, ◌+◌, ◌<◌, ◌^◌, ◌∷◌, [], length};
ghost use Rattle.raw_form.specs.Flattening.{with_inside};
ghost use Rattle.raw_form.specs.Tokens.{IsTokenOf, filled_from};
ghost use Rattle.raw_view.specs.Frame.ElementSteps.{frame_of};

use raw_view::RawElement;

/// An element, by its offsets from the first byte of the document. The tokens of the elements inside it follow its
/// own.
#[repr(C)]
#[derive(Clone, Copy, Debug, PartialEq, Eq)]
pub struct Token {
    /// the element's tag
    pub tag: u32,
    /// the number of levels around its own
    pub depth: u32,
    /// where the key begins
    pub key_at: u32,
    /// the length of the key in bytes, without its 0
    pub key_len: u32,
    /// where the payload begins
    pub payload_at: u32,
    /// the length of the payload in bytes
    pub payload_len: u32,
    /// the number of tokens inside
    pub inside: u32,
}

impl Token {
    /// The token of the element at `offset`, with none inside yet.
    #[inline(always)]
    pub(crate) fn new(depth: u32, offset: usize, element: RawElement<'_>) -> Token
        requires { offset + (2 + (length (frame_of element).key + length (frame_of element).payload)) < 2 ^ 32 }
        ensures { IsTokenOf depth offset (frame_of element.entry) 0 result }
    {
        let key_len = element.key().len() as u32;
        Token {
            tag: element.element_type().to_tag() as u32,
            depth,
            key_at: offset as u32 + 1,
            key_len,
            payload_at: offset as u32 + 2 + key_len,
            payload_len: element.len() as u32,
            inside: 0,
        }
    }
}

/// Sets the number of tokens inside the one at `place`, if the room has that place.
pub(crate) fn set_inside(tokens: &mut [Token], place: usize, inside: usize)
    requires { inside < 2 ^ 32 }
    ensures { tokens.new ≡ with_inside place inside tokens.old }
{
    if place < tokens.len() {
        let token = tokens[place];
        tokens[place] = Token {
            inside: inside as u32,
            ..token
        };
    }
}
