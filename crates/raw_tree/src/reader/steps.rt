//! How many elements a conversion reads.

ghost use Rattle.std.specs.Prelude.{◌≡◌, ◌<◌, ◌+◌};
ghost use Rattle.raw_tree.specs.walk.Looking.{HasLooked, frames_in};
ghost use Rattle.raw_view.specs.Frame.Number.{max_length};

use crate::walk::level::{Next, look};
use raw_view::Elements;
use std::marker::Model;

/// How many elements a conversion has read, at all levels. A clause sees the number.
#[derive(Drop)]
pub struct Steps {
    count: usize,
}

impl Model for Steps {
    ghost use Rattle.std.specs.Prelude.{ℕ};

    ghost Value = { ℕ };

    ghost view = { λ a. a.count };
}

impl Steps {
    pub(crate) fn new() -> Steps
        ensures { result ≡ 0 }
    {
        Steps { count: 0 }
    }

    /// The number of elements.
    pub fn count(&self) -> usize
        ensures { result ≡ self.now }
    {
        self.count
    }

    /// Looks at what is next in a level, and counts the element if there is one. No other call counts.
    #[inline(always)]
    pub(crate) fn look<'a>(&mut self, elements: &mut Elements<'a>) -> Next<'a>
        requires { self.old < max_length }
        ensures looked { HasLooked elements.old elements.new result }
        ensures counted { self.new ≡ self.old + frames_in result }
    {
        let next = look(elements);
        self.count += framed_for(&next);
        next
    }
}

/// How many elements a look reads: one, even if it means a fault; none for the final 0 or a stop.
#[inline(always)]
fn framed_for(next: &Next<'_>) -> usize
    ensures { result ≡ frames_in next.now }
{
    match next {
        Next::End | Next::Fault(None, _) => 0,
        Next::Whole(..) | Next::Inside(..) | Next::Fault(Some(_), _) => 1,
    }
}
