//! Keys in a list.
#![tactic(auto)]

ghost use Rattle.std.specs.Prelude.{◌≡◌, ◌++◌, ◌∷◌, [], OnOk, OnErr, position};
ghost use Rattle.std.specs.Str.{bytes_eq};

use std::alloc::AllocError;

/// Puts a key last in the list.
#[inline(always)]
pub(crate) fn list<'a>(listed: &mut Vec<&'a str>, key: &'a str) -> Result<(), AllocError>
    ensures listed { OnOk result (listed.new.items ≡ listed.old.items ++ key.entry ∷ []) }
    ensures same { OnErr result (listed.new.items ≡ listed.old.items) }
{
    match listed.push(key) {
        Ok(()) => Ok(()),
        Err(_) => Err(AllocError),
    }
}

/// The place of a key among these.
pub(crate) fn place_of(keys: &[&str], key: &str) -> Option<usize>
    ensures { result ≡ position (λ k. bytes_eq key.now k.now) keys.now }
{
    keys.iter().position(|listed| key == *listed)
}
