//! How deep levels may be nested.
#![tactic(auto)]

ghost use Rattle.std.specs.Prelude.{◌≡◌, ◌≤◌, ◌<◌, suc, IfSome, IfNone, IsFalse, IsTrue};

use std::marker::Model;

/// How many levels may wait for the innermost one. A level for which more would wait is too deep. A clause
/// sees the number.
#[derive(Drop)]
pub struct MostWaiting {
    count: usize,
}

impl Model for MostWaiting {
    ghost use Rattle.std.specs.Prelude.{ℕ};

    ghost Value = { ℕ };

    ghost view = { λ a. a.count };
}

impl MostWaiting {
    /// For at most `depth` levels; `None` if the outermost level is already too deep.
    #[inline(always)]
    pub fn of(depth: usize) -> Option<MostWaiting>
        ensures some { IfSome result (λ most. suc most ≡ depth) }
        ensures none { IfNone result (depth ≡ 0) }
    {
        let count = depth.checked_sub(1)?;
        Some(MostWaiting { count })
    }

    /// Whether the next level is too deep if `waiting` levels and this one wait for it.
    #[inline(always)]
    pub(crate) fn is_reached(&self, waiting: usize) -> bool
        ensures yes { IsTrue result → self.now ≤ waiting }
        ensures no { IsFalse result → waiting < self.now }
    {
        waiting >= self.count
    }
}
