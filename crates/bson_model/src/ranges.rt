//! Numbers are in the ranges of their types: facts that a proof can cite. Nothing is read. Part of `laws`.

ghost use Rattle.std.specs.Prelude.{◌<◌, ◌^◌};
ghost use Rattle.bson_model.specs.Bytes.{AreBytes};

/// Each element of a slice of bytes is a byte. Programs never need it; proofs do.
pub fn attest_bytes(bytes: &[u8])
    ensures { AreBytes bytes.now }
{}

/// A number of 32 bits is below 2 ^ 32. Programs never need it; proofs do.
pub fn attest_u32(number: u32)
    ensures { number < 2 ^ 32 }
{}

/// A number of 64 bits is below 2 ^ 64. Programs never need it; proofs do.
pub fn attest_u64(number: u64)
    ensures { number < 2 ^ 64 }
{}
