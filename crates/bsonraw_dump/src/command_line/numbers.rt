//! Numbers of bytes and of documents, as they are typed.
#![tactic(auto)]

/// The number that a text says: in hexadecimal after `0x`, else in decimal, which may have a unit after it: K is 1,024, M is 1,024 K, and
/// G is 1,024 M.
pub(super) fn number_in(text: &str) -> Option<u64> {
    if let Some(digits) = text.strip_prefix("0x") {
        return value_of(digits.as_bytes(), true);
    }
    match text.as_bytes() {
        [digits @ .., b'K' | b'k'] => value_of(digits, false)?.checked_mul(1 << 10),
        [digits @ .., b'M' | b'm'] => value_of(digits, false)?.checked_mul(1 << 20),
        [digits @ .., b'G' | b'g'] => value_of(digits, false)?.checked_mul(1 << 30),
        digits => value_of(digits, false),
    }
}

/// The number that these digits say, in hexadecimal or in decimal.
fn value_of(digits: &[u8], is_hex: bool) -> Option<u64> {
    if digits.is_empty() {
        return None;
    }
    let radix = if is_hex { 16 } else { 10 };
    let mut number: u64 = 0;
    for digit in digits {
        let value = digit_of(*digit, is_hex)?;
        number = number.checked_mul(radix)?.checked_add(u64::from(value))?;
    }
    Some(number)
}

/// What a digit stands for.
fn digit_of(digit: u8, is_hex: bool) -> Option<u8> {
    match digit {
        b'0'..=b'9' => digit.checked_sub(b'0'),
        b'a'..=b'f' if is_hex => digit.checked_sub(b'a' - 10),
        b'A'..=b'F' if is_hex => digit.checked_sub(b'A' - 10),
        _ => None,
    }
}
