//! The length of a document to which bytes are added.
ghost use Rattle.std.specs.Prelude.{◌≡◌, ◌≤◌, ◌<◌, ◌+◌, pos, IfSome, IfNone};
ghost use Rattle.raw_view.specs.Frame.Number.{max_length};

/// The sum of `len` and `added`, as the length of a document; `None` if it is over 2147483647, the greatest
/// length that a header can say. BSON 1.1, `document`.
#[inline(always)]
pub fn total_len(len: usize, added: usize) -> Option<i32>
    ensures some { IfSome result
        (λ total. (total ≡ pos (len + added)) × (len + added ≤ max_length)) }
    ensures none { IfNone result (max_length < len + added) }
{
    let total = len.checked_add(added)?;
    i32::try_from(total).ok()
}
