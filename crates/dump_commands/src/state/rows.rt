//! What was counted of the elements under one path.
#![tactic(auto)]

ghost use Rattle.std.specs.Prelude.{◌≡◌, ◌<◌, ◌+◌, ◌^◌, ◌≤◌, None, Some, false, cond, IfErr, IfSome, IsNone, OnOk, nat_eq};
ghost use Rattle.dump_commands.specs.state.Fields.{count_value, kind_place, no_row};
ghost use Rattle.dump_io.specs.lines.Failing.{IsReading};

use dump_io::lines::failure::{Failure, in_range};

/// What was counted of the values under a path.
#[derive(Clone, Copy)]
pub struct Row {
    /// how many there are of each kind, at the place of the kind
    pub kinds: [u64; 22],
    /// how many documents they are in
    pub documents: u64,
    /// the number of the last of these, counted from 1
    pub last: u64,
    /// how many bytes the longest of them has
    pub longest: u32,
}

/// The place of a kind with this tag in a row.
pub fn place_of(tag: u32) -> usize
    ensures place { result ≡ kind_place tag }
    ensures within { result < 22 }
{
    if tag < 20 {
        tag as usize
    } else if tag == 127 {
        20
    } else {
        21
    }
}

impl Row {
    /// Nothing was counted.
    pub fn new() -> Row
        ensures { result ≡ no_row }
    {
        Row {
            kinds: [0; 22],
            documents: 0,
            last: 0,
            longest: 0,
        }
    }

    /// How many documents there are with the one with this number; `None` where they would be over the range of a count.
    fn documents_with(&self, document: u64) -> Option<u64>
        ensures with { IfSome result (λ n. n ≡ cond (nat_eq self.now.last document) self.now.documents (self.now.documents + 1)) }
        ensures none { IsNone result → (2 ^ 64 ≤ self.now.documents + 1) × (nat_eq self.now.last document ≡ false) }
    {
        if self.last == document {
            Some(self.documents)
        } else {
            self.documents.checked_add(1)
        }
    }

    /// Counts a value more of the document with this number, with this tag and of `size` bytes. Fails if a count would be over its range.
    pub fn count(&mut self, document: u64, tag: u32, size: u32) -> Result<(), Failure>
        ensures counted { OnOk result (self.new ≡ count_value document tag size self.old) }
        ensures failed { IfErr result (λ failure. ¬ IsReading failure) }
    {
        let place = place_of(tag);
        self.kinds[place] = in_range(self.kinds[place].checked_add(1))?;
        self.documents = in_range(self.documents_with(document))?;
        self.last = document;
        self.longest = self.longest.max(size);
        Ok(())
    }
}
