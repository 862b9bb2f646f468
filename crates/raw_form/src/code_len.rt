//! The length of the code to which a scope belongs.
#![tactic(auto)]

ghost use Rattle.std.specs.Prelude.{◌≡◌, ◌<◌, ◌^◌, ◌+◌, None, Some};

use std::marker::Model;

/// The length of a code, if there is one, in four bytes.
#[derive(Drop)]
pub(crate) struct CodeLen {
    /// the length plus one; 0 if there is no code
    more: u32,
}

impl Model for CodeLen {
    ghost use Rattle.std.specs.Prelude.{ℕ, Option};
    ghost use Rattle.raw_form.specs.CodeLens.{len_of};

    ghost Value = { Option ℕ };

    ghost view = { λ a. len_of a.more };
}

impl CodeLen {
    /// There is no code.
    pub(crate) fn none() -> CodeLen
        ensures { result ≡ None }
    {
        CodeLen { more: 0 }
    }

    /// The code has `len` bytes.
    pub(crate) fn of(len: u32) -> CodeLen
        requires { len + 1 < 2 ^ 32 }
        ensures { result ≡ Some len }
    {
        CodeLen { more: len + 1 }
    }

    /// The length, if there is a code.
    pub(crate) fn get(&self) -> Option<u32>
        ensures { result ≡ self.now }
    {
        self.more.checked_sub(1)
    }
}
