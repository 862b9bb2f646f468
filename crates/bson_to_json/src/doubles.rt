//! Doubles as text.
#![tactic(auto)]

ghost use Rattle.std.specs.Prelude.{◌≡◌, ℕ, List, from_bits, OnOk};
ghost use Rattle.std.specs.Float.{binary64, float_is_finite};
ghost use Rattle.std.specs.Io.KnownBytes.{Appends};
ghost use Rattle.bson_to_json.specs.Doubles.{IsDoubleJson, IsDoubleText, wrapped_double};

use crate::put::{put_between, put_words};
use crate::style::Format;
use ryu::Buffer;
use std::io;
use std::io::Write;

/// The bits of infinity. Without the sign, the bits of NaNs are greater.
const INFINITY: u64 = 0x7ff0_0000_0000_0000;

/// The number with these bits as text, and whether it is finite.
fn text_of(bits: u64, digits: &mut Buffer) -> (bool, &str)
    ensures finite { result.0 ≡ float_is_finite (from_bits binary64 bits) }
    ensures text { IsDoubleText (from_bits binary64 bits) result.1.now }
{
    if bits % (1 << 63) > INFINITY {
        return (false, "NaN");
    }
    let number = f64::from_bits(bits);
    if number.is_finite() {
        return (true, digits.format_finite(number));
    }
    let text = if number.is_sign_negative() {
        "-Infinity"
    } else {
        "Infinity"
    };
    (false, text)
}

/// Writes a number in an object that gives its kind.
fn put_wrapped<W: Write>(out: &mut W, text: &str) -> io::Result<()>
    ensures { OnOk result
        (Appends (W.contents out.old) (W.contents out.new) (wrapped_double text.now)) }
{
    put_between(out, "{\"$numberDouble\":\"", text, "\"}")
}

/// Writes the number with these bits.
pub(crate) fn put_double<W: Write>(out: &mut W, format: Format, bits: u64) -> io::Result<()>
    ensures { OnOk result ((text : List ℕ) × IsDoubleJson format (from_bits binary64 bits) text
        × Appends (W.contents out.old) (W.contents out.new) text) }
{
    let mut digits = Buffer::new();
    let (is_finite, text) = text_of(bits, &mut digits);
    match format {
        Format::Canonical => put_wrapped(out, text),
        Format::Relaxed => {
            if is_finite {
                put_words(out, text)
            } else {
                put_wrapped(out, text)
            }
        }
    }
}
