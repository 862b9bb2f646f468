//! Times as text.
#![tactic(auto)]

ghost use Rattle.std.specs.Prelude.{◌≡◌, ◌<◌, ◌+◌, ◌∷◌, ◌↔◌, ℕ, List, IfSome, IsSome, OnOk, pos, ◌+ℤ◌};
ghost use Rattle.std.specs.Io.KnownBytes.{Appends};
ghost use Rattle.bson_to_json.specs.Dates.{HasInstantText, IsDateJson, IsInstantText, second_text, three_digits};
ghost use Rattle.bson_to_json.specs.ShortTexts.{short_bytes};

use crate::put::{put_between, put_bytes_between};
use crate::short_text::ShortText;
use crate::style::Format;
use itoa::Buffer;
use jiff_core::civil::Date;
use std::io;
use std::io::Write;

/// The first millisecond of the year 0.
const FIRST_MILLIS: i64 = -62_167_219_200_000;

/// The last millisecond of the year 9999.
const LAST_MILLIS: i64 = 253_402_300_799_999;

/// The number of milliseconds of a day.
const DAY: u64 = 86_400_000;

/// The number of milliseconds from the first day of `Date` to 1 January 1970.
const EPOCH: i64 = 4_371_587 * 86_400_000;

/// A number below 10 as a digit.
fn digit(number: u64) -> u8
    requires { number < 10 }
    ensures { result ≡ 48 + number }
{
    b'0' + number as u8
}

/// A day and a second of that day, as in `2012-12-24T12:15:30`.
fn seconds(year: u64, month: u64, day: u64, second: u64) -> [u8; 19]
    requires year { year < 10000 }
    requires month { month < 100 }
    requires day { day < 100 }
    requires second { second < 86400 }
    ensures { result ≡ second_text year month day second }
{
    let (hour, minute, second) = (second / 3600, second / 60 % 60, second % 60);
    [
        digit(year / 1000),
        digit(year / 100 % 10),
        digit(year / 10 % 10),
        digit(year % 10),
        b'-',
        digit(month / 10),
        digit(month % 10),
        b'-',
        digit(day / 10),
        digit(day % 10),
        b'T',
        digit(hour / 10),
        digit(hour % 10),
        b':',
        digit(minute / 10),
        digit(minute % 10),
        b':',
        digit(second / 10),
        digit(second % 10),
    ]
}

/// The milliseconds after a second, as in `.501`.
fn fraction(millis: u64) -> [u8; 4]
    requires { millis < 1000 }
    ensures { result ≡ 46 ∷ three_digits millis }
{
    [
        b'.',
        digit(millis / 100),
        digit(millis / 10 % 10),
        digit(millis % 10),
    ]
}

/// The number of milliseconds from the first day of `Date` to a time of the years 0 to 9999.
fn since_first_day(millis: i64) -> u64
    requires { HasInstantText millis }
    ensures { millis +ℤ pos 377705116800000 ≡ pos result }
{
    (millis + EPOCH) as u64
}

/// A time of the years 0 to 9999 in ISO 8601.
fn instant_text(millis: i64) -> ShortText
    requires { HasInstantText millis }
    ensures { IsInstantText millis (short_bytes result) }
{
    let since = since_first_day(millis);
    let date = Date::from_days_since_min((since / DAY) as u32);
    let year = u64::from(date.year.unsigned_abs());
    let second = since % DAY / 1000;
    let front = seconds(year, u64::from(date.month), u64::from(date.day), second);
    let whole = ShortText::new().with(&front);
    match since % 1000 {
        0 => whole.with(b"Z"),
        rest => whole.with(&fraction(rest)).with(b"Z"),
    }
}

/// A time, given in milliseconds since 1970, in ISO 8601, as `2012-12-24T12:15:30.501Z`, without a fraction if that
/// is 0; `None` if it isn't in the years 0 to 9999. It takes no memory.
/// ```
/// let Some(text) = time_text(1356351330501) else { unreachable!() };
/// assert_eq!(rt; text.as_bytes(), b"2012-12-24T12:15:30.501Z".as_slice());
/// ```
pub fn time_text(millis: i64) -> Option<ShortText>
    ensures some { IfSome result (λ text. IsInstantText millis (short_bytes text)) }
    ensures has_text { IsSome result ↔ HasInstantText millis }
{
    if millis < FIRST_MILLIS || LAST_MILLIS < millis {
        return None;
    }
    Some(instant_text(millis))
}

/// Writes a time, given in milliseconds since 1970.
pub(crate) fn put_date<W: Write>(out: &mut W, format: Format, millis: i64) -> io::Result<()>
    ensures { OnOk result ((text : List ℕ) × IsDateJson format millis text
        × Appends (W.contents out.old) (W.contents out.new) text) }
{
    if format == Format::Relaxed && 0 <= millis && millis <= LAST_MILLIS {
        let text = instant_text(millis);
        return put_bytes_between(out, "{\"$date\":\"", text.as_bytes(), "\"}");
    }
    let mut digits = Buffer::new();
    put_between(
        out,
        "{\"$date\":{\"$numberLong\":\"",
        digits.format(millis),
        "\"}}",
    )
}
