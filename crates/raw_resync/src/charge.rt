//! What a damaged document costs.
#![tactic(auto)]

ghost use Rattle.std.specs.Prelude.{◌≡◌, ◌≤◌, ◌<◌, ◌+◌, ◌^◌, ◌⊎◌, IfNone, IfSome, MatchBool, drop, length};
ghost use Rattle.bson_model.specs.Bytes.{NulFree};
ghost use Rattle.raw_view.specs.Document.{bytes_of};
ghost use Rattle.raw_tree.specs.WithinLimits as within;
ghost use Rattle.raw_tree.specs.Barriers.{IsBarrier, steps_of};
ghost use Rattle.raw_resync.specs.Pieces.{said_len};
ghost use Rattle.raw_resync.specs.Charge.{IsBehindText, IsBehindZero, IsOfText, IsOfValue, LooksAt, LooksAtRegex};

use memchr::memchr;
use raw_tree::{Barrier, BarrierKind};
use raw_view::{ErrorKind, RawDocument};

/// The tag of a regular expression.
const REGULAR_EXPRESSION: u8 = 11;

/// The tag of a code with a scope.
const CODE_WITH_SCOPE: u8 = 15;

/// The greatest number of bytes that a value with texts has besides those that its length counts.
const AROUND: usize = 16;

/// The bytes after the first 0.
fn behind_zero(bytes: &[u8]) -> Option<&[u8]>
    ensures found { IfSome result (λ rest. IsBehindZero bytes.now rest.now) }
    ensures none { IfNone result (NulFree bytes.now) }
{
    let at = memchr(0, bytes)?;
    Some(bytes.split_at(at + 1).1)
}

/// The number of bytes of a document that are looked at from its first fault on: the tag and the key of the
/// element at fault, its payload if a text in it is read up to the fault, and the texts of a regular expression.
pub(crate) fn looked_at(document: RawDocument<'_>, barrier: &Barrier<'_>) -> usize
    requires { barrier.now.place.offset ≤ length (bytes_of document) }
    ensures looks { (x : within.Barrier) → IsBarrier barrier.now.kind x
        → LooksAt x (steps_of barrier.now.place) (drop barrier.now.place.offset (bytes_of document.entry)) result }
    ensures within { barrier.now.place.offset + result ≤ length (bytes_of document.entry) }
{
    let rest = document.as_bytes().split_at(barrier.place.offset).1;
    let Some((tag, text)) = rest.split_first() else {
        return 0;
    };
    let Some(behind) = behind_zero(text) else {
        return rest.len();
    };
    let key = rest.len() - behind.len();
    if *tag == REGULAR_EXPRESSION {
        return key + looked_at_regex(behind);
    }
    if is_of_value(*tag, barrier) {
        return rest.len().min(key + length_in_front(behind) + AROUND);
    }
    key
}

/// The number of bytes of a regular expression that are looked at, from its pattern on.
fn looked_at_regex(bytes: &[u8]) -> usize
    ensures { LooksAtRegex bytes.now result }
{
    let Some(options) = behind_zero(bytes) else {
        return bytes.len();
    };
    match behind_zero(options) {
        Some(rest) => bytes.len() - rest.len(),
        None => bytes.len(),
    }
}

/// Whether a text of a value with this tag is read up to the fault.
fn is_of_value(tag: u8, barrier: &Barrier<'_>) -> bool
    ensures { (x : within.Barrier) → IsBarrier barrier.now.kind x
        → MatchBool result (IsOfValue tag x (steps_of barrier.now.place)) (¬ IsOfValue tag x (steps_of barrier.now.place)) }
{
    match barrier.place.key() {
        Some(_) => is_behind_text(tag, &barrier.kind),
        None => false,
    }
}

/// Whether the fault is a text that isn't UTF-8, or comes after the code of a code with scope.
fn is_behind_text(tag: u8, kind: &BarrierKind<'_>) -> bool
    ensures { (x : within.Barrier) → IsBarrier kind.now x → MatchBool result (IsBehindText tag x) (¬ IsBehindText tag x) }
{
    if tag == CODE_WITH_SCOPE {
        return true;
    }
    is_of_text(kind)
}

/// Whether the fault is a text that isn't UTF-8.
fn is_of_text(kind: &BarrierKind<'_>) -> bool
    ensures { (x : within.Barrier) → IsBarrier kind.now x → MatchBool result (IsOfText x) (¬ IsOfText x) }
{
    match kind {
        BarrierKind::Fault(error) => matches!(error.kind, ErrorKind::Utf8EncodingError(_)),
        BarrierKind::TooManyBytes | BarrierKind::TooDeep => false,
    }
}

/// The length that the first four bytes say; 0 if there are fewer bytes.
fn length_in_front(bytes: &[u8]) -> usize
    ensures front { (result ≡ said_len bytes.now) ⊎ (length bytes.now < 4) }
    ensures few { result < 2 ^ 32 }
{
    match bytes.first_chunk::<4>() {
        Some(head) => u32::from_le_bytes(*head) as usize,
        None => 0,
    }
}
