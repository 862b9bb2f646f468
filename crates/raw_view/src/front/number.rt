//! Numbers at the front of bytes.
ghost use Rattle.std.specs.Prelude.{◌≡◌, ◌≤◌, length, take};
ghost use Rattle.raw_view.specs.Frame.Number.{IsLe32, IsLe64, IsUnsigned32, IsUnsigned64};

/// The bytes as an array of N.
pub(crate) fn array_of<const N: usize>(bytes: &[u8]) -> [u8; N]
    requires { length bytes.now ≡ N }
    ensures { result ≡ bytes.now }
{
    *bytes.as_array::<N>().unwrap()
}

/// The signed number whose four bytes are at the front.
pub(crate) fn front_i32(bytes: &[u8]) -> i32
    requires { 4 ≤ length bytes.now }
    ensures { IsLe32 (take 4 bytes.now) result }
{
    i32::from_le_bytes([bytes[0], bytes[1], bytes[2], bytes[3]])
}

/// The signed number of four bytes.
pub(crate) fn i32_of(bytes: &[u8]) -> i32
    requires { length bytes.now ≡ 4 }
    ensures { IsLe32 bytes.now result }
{
    i32::from_le_bytes(array_of(bytes))
}

/// The signed number of eight bytes.
pub(crate) fn i64_of(bytes: &[u8]) -> i64
    requires { length bytes.now ≡ 8 }
    ensures { IsLe64 bytes.now result }
{
    i64::from_le_bytes(array_of(bytes))
}

/// The unsigned number of four bytes.
pub(crate) fn u32_of(bytes: &[u8]) -> u32
    requires { length bytes.now ≡ 4 }
    ensures { IsUnsigned32 bytes.now result }
{
    u32::from_le_bytes(array_of(bytes))
}

/// The unsigned number of eight bytes.
pub(crate) fn u64_of(bytes: &[u8]) -> u64
    requires { length bytes.now ≡ 8 }
    ensures { IsUnsigned64 bytes.now result }
{
    u64::from_le_bytes(array_of(bytes))
}
