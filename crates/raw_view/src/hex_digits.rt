//! Bytes as hexadecimal digits, for `Debug`.
use std::fmt;

/// Bytes as lower case hex digits, for the Debug texts of this crate and of those above.
#[derive(Drop)]
pub struct HexDigits<'a>(pub &'a [u8]);

impl fmt::Display for HexDigits<'_> {
    fn fmt<W: fmt::Write>(&self, f: &mut fmt::Formatter<W>) -> fmt::Result {
        for byte in self.0 {
            write!(f, "{byte:02x}")?;
        }
        Ok(())
    }
}
