//! What takes a text block by block.
#![tactic(auto)]

ghost use Rattle.std.specs.Prelude.{◌≡◌, ◌≤◌, ℕ, Bool, List, [], false, length, Some, IfErr, OnErr, OnOk};
ghost use Rattle.bson_to_json.specs.Causes.{FailsAs};
ghost use Rattle.bson_to_json.specs.Written.{Grows, GrowsFront};

use crate::guarded::Guarded;
use std::alloc::Global;
use std::io;
use std::io::Write;

/// Why a text wasn't taken whole.
#[derive(Debug, Drop)]
pub(crate) enum Failure {
    OutOfMemory,
    Writing(io::Error),
}

/// Takes a text block by block.
pub(crate) trait Sink {
    // it keeps texts of at most this many bytes, and was given this text
    ghost has: { Self → ℕ → List ℕ → Type 0 };

    // whether writing to it failed
    ghost has_failed: { Self → Bool };

    /// Takes a block. If it fails, it has taken a prefix of the block.
    fn accept(&mut self, block: &[u8]) -> Result<(), Failure>
        ensures taken { OnOk result (Grows has self.old self.new block.now) }
        ensures front { OnErr result (GrowsFront has self.old self.new block.now) }
        ensures same { OnOk result (has_failed self.new ≡ has_failed self.old) }
        ensures caused { IfErr result (FailsAs (has_failed self.old) (has_failed self.new)) };
}

impl<W: Write> Sink for Guarded<W> {
    ghost has = { λ w _ text. W.contents w.inner ≡ Some text };

    ghost has_failed = { λ w. w.failed };

    fn accept(&mut self, block: &[u8]) -> Result<(), Failure> {
        match self.put_all(block) {
            Ok(()) => Ok(()),
            Err(error) => Err(Failure::Writing(error)),
        }
    }
}

impl Sink for Vec<u8> {
    ghost has = { λ bytes _ text. bytes.items ≡ text };

    ghost has_failed = { λ _. false };

    fn accept(&mut self, block: &[u8]) -> Result<(), Failure> {
        match self.extend_from_slice(block) {
            Ok(()) => Ok(()),
            Err(_) => Err(Failure::OutOfMemory),
        }
    }
}

/// The length of a text, and the text if it isn't longer than requested.
#[derive(Debug, Drop)]
pub struct Measured {
    pub len: usize,
    pub text: Option<String>,
}

/// Counts a text, and keeps it as long as it has at most `most` bytes.
#[derive(Drop)]
pub(crate) struct Counted {
    pub(crate) most: usize,
    pub(crate) len: usize,
    pub(crate) text: Vec<u8>,
}

impl Counted {
    /// For a text of which nothing was given yet.
    pub(crate) fn new(alloc: Global, most: usize) -> Counted
        ensures most { result.most ≡ most }
        ensures len { result.len ≡ 0 }
        ensures text { result.text.items ≡ [] }
    {
        Counted {
            most,
            len: 0,
            text: Vec::new(alloc),
        }
    }
}

impl Sink for Counted {
    ghost has = { λ c most text. (c.most ≡ most) × (c.len ≡ length text) × (length text ≤ most → c.text.items ≡ text) };

    ghost has_failed = { λ _. false };

    fn accept(&mut self, block: &[u8]) -> Result<(), Failure> {
        let Some(len) = self.len.checked_add(block.len()) else {
            return Err(Failure::OutOfMemory);
        };
        if len <= self.most && self.text.extend_from_slice(block).is_err() {
            return Err(Failure::OutOfMemory);
        }
        self.len = len;
        Ok(())
    }
}
