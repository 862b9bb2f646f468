//! Texts of values that aren't UTF-8.
#![tactic(auto)]

ghost use Rattle.std.specs.Prelude.{◌≡◌, ◌<◌, ◌≤◌, ◌++◌, ℕ, List, IfNone, IfSome, length};
ghost use Rattle.raw_form.specs.Replacing.{HasBadText, string_at};
ghost use Rattle.raw_view.specs.Frame.ElementSteps.{frame_of};
ghost use Rattle.raw_view.specs.Frame.Format.{string_payload};
ghost use Rattle.raw_view.specs.Frame.Number.{max_length};

use raw_view::{ElementType, ErrorKind, RawElement};

/// The text of a value that isn't UTF-8.
#[derive(Clone, Copy, Debug, PartialEq, Eq)]
pub struct BadText<'a> {
    /// its bytes
    pub text: &'a [u8],
    /// what is after it and its 0 in the value: the identifier of a pointer, or the scope of a code
    pub rest: &'a [u8],
}

/// The text of a value that isn't UTF-8, if that is its fault: of a string, a symbol, a code with a scope or without,
/// or the namespace of a pointer.
/// ```
/// let document = RawDocument::from_bytes(b"\x0E\0\0\0\x02a\0\x02\0\0\0\xFF\0\0")?;
/// for element in document.iter_elements(alloc) {
///     assert_eq!(rt; bad_text(element?), Some(BadText { text: b"\xFF", rest: b"" }));
/// }
/// ```
pub fn bad_text(element: RawElement<'_>) -> Option<BadText<'_>>
    ensures text { IfSome result (λ bad. HasBadText (frame_of element.entry).kind (frame_of element.entry).payload bad.text.now bad.rest.now) }
    ensures none { IfNone result ((text rest : List ℕ) → ¬ HasBadText (frame_of element.entry).kind (frame_of element.entry).payload text rest) }
{
    let Err(error) = element.resolve() else {
        return None;
    };
    let ErrorKind::Utf8EncodingError(_) = &error.kind else {
        return None;
    };
    Some(parts_of(string_in(element.element_type(), element.payload())))
}

/// Where the string begins in a payload of this kind: after the length of a code with scope, else at the front.
fn string_in(kind: ElementType, payload: &[u8]) -> &[u8]
    requires { 4 ≤ length payload.now }
    ensures { result.now ≡ string_at kind payload.now }
{
    match kind {
        ElementType::JavaScriptCodeWithScope => payload.split_at(4).1,
        _ => payload,
    }
}

/// The text of the string at the front, and what follows its 0.
fn parts_of(bytes: &[u8]) -> BadText<'_>
    requires { (text rest : List ℕ) × (length text < max_length) × (bytes.now ≡ string_payload text ++ rest) }
    ensures { (text rest : List ℕ) → length text < max_length → bytes.now ≡ string_payload text ++ rest → (result.text.now ≡ text) × (result.rest.now ≡ rest) }
{
    let len = i32::from_le_bytes([bytes[0], bytes[1], bytes[2], bytes[3]]) as usize;
    BadText {
        text: &bytes[4..3 + len],
        rest: &bytes[4 + len..],
    }
}
