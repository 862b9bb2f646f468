ghost use Rattle.std.specs.Prelude.{◌≡◌};

/// The version of this interface: 20000 for 2.0.0. The last four digits are raised with what is added to it, the others
/// with what is changed.
#[unsafe(no_mangle)]
pub extern "C" fn bsonraw_version() -> u32
    ensures { result ≡ 20000 }
{
    20000
}
