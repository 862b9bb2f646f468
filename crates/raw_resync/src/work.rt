//! The cost of searches.
#![tactic(auto)]

ghost use Rattle.std.specs.Prelude.{◌≡◌, ◌≤◌, ◌<◌, ◌+◌, ◌*◌, ◌^◌, MatchBool, max};
ghost use Rattle.raw_resync.specs.Charge.{HasRoom, charged};
ghost use Rattle.raw_resync.specs.Seeking.{IsWork, no_work};

/// The greatest number of bytes that are charged for each byte before the furthest end of a look.
const MOST_FOR_EACH: u128 = 8;

/// What the searches of an input have cost so far. The fields are wide enough for any sum.
#[derive(Clone, Copy, Debug, PartialEq, Eq)]
pub struct Work {
    /// how many bytes were charged
    pub spent: u128,
    /// the offset in the input of the furthest end of a piece that was looked into
    pub reach: u128,
}

impl Work {
    /// No search yet.
    pub fn new() -> Work
        ensures { result ≡ no_work }
    {
        Work { spent: 0, reach: 0 }
    }

    /// Whether there is enough for a look at `len` bytes that end at this offset of the input.
    pub(crate) fn has_room(&self, len: usize, end: u128) -> bool
        requires { IsWork self.now × (end < 2 ^ 66) }
        ensures { MatchBool result (HasRoom self.now len end) (¬ HasRoom self.now len end) }
    {
        self.spent + (len as u128) < MOST_FOR_EACH * self.reach.max(end)
    }

    /// Charges `count` bytes for a look that ends at this offset of the input.
    pub(crate) fn charge(&mut self, count: usize, end: u128)
        requires { IsWork self.old × (end < 2 ^ 66) × (self.old.spent + count ≤ 8 * max self.old.reach end) }
        ensures charged { self.new ≡ charged self.old count end }
        ensures work { IsWork self.new }
    {
        self.spent += count as u128;
        self.reach = self.reach.max(end);
    }
}
