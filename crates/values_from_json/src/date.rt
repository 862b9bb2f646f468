//! Times in ISO 8601, in the form of RFC 3339.
ghost use Rattle.std.specs.Prelude.{◌≡◌, ◌<◌, ◌+◌, ◌*◌, ◌∷◌, ◌++◌, ℕ, ℤ, List, IfSome, None, MatchOption, pos, ◌+ℤ◌, ◌-ℤ◌, ◌*ℤ◌};
ghost use Rattle.jiff_core.specs.Calendar.{IsCivilDate, days_from_civil, IsBetween, IsEpochDay};
ghost use Rattle.values_from_json.specs.Times.{two_digits as digits_of_two, four_digits as digits_of_four, date_text, time_text, IsDistance, WritesClock, WritesFraction, WritesTime, WritesZone, BeginsWithLetter, IsAhead, digit_of};

use jiff_core::civil::Date;

const DAY: i64 = 86_400_000;

/// Takes a number of two digits.
fn two_digits(text: &[u8]) -> Option<(u32, &[u8])>
    ensures some { IfSome result (λ found. (found.0 < 100) × (text.now ≡ digits_of_two found.0 ++ found.1.now)) }
    ensures only { (n : ℕ) (rest : List ℕ) → n < 100 → text.now ≡ digits_of_two n ++ rest
        → MatchOption result ⊥ (λ found. (n ≡ found.0) × (rest ≡ found.1.now)) }
{
    match text {
        [tens @ b'0'..=b'9', ones @ b'0'..=b'9', rest @ ..] => {
            let number = u32::from(*tens - b'0') * 10 + u32::from(*ones - b'0');
            Some((number, rest))
        }
        _ => None,
    }
}

/// Takes a number of four digits.
fn four_digits(text: &[u8]) -> Option<(u32, &[u8])>
    ensures some { IfSome result (λ found. (found.0 < 10000) × (text.now ≡ digits_of_four found.0 ++ found.1.now)) }
    ensures only { (n : ℕ) (rest : List ℕ) → n < 10000 → text.now ≡ digits_of_four n ++ rest
        → MatchOption result ⊥ (λ found. (n ≡ found.0) × (rest ≡ found.1.now)) }
{
    let (hundreds, rest) = two_digits(text)?;
    let (number, rest) = two_digits(rest)?;
    Some((hundreds * 100 + number, rest))
}

/// Takes this byte.
fn byte(text: &[u8], byte: u8) -> Option<&[u8]>
    ensures some { IfSome result (λ rest. text.now ≡ byte ∷ rest.now) }
    ensures only { (rest : List ℕ) → text.now ≡ byte ∷ rest → MatchOption result ⊥ (λ found. rest ≡ found.now) }
{
    match text {
        [found, rest @ ..] if *found == byte => Some(rest),
        _ => None,
    }
}

/// Takes this capital letter, or the small one.
fn letter(text: &[u8], capital: u8) -> Option<&[u8]>
    requires { capital < 128 }
    ensures some { IfSome result (λ rest. BeginsWithLetter capital text.now rest.now) }
    ensures only { (rest : List ℕ) → BeginsWithLetter capital text.now rest → MatchOption result ⊥ (λ found. rest ≡ found.now) }
{
    match text {
        [found, rest @ ..] if *found == capital || *found == capital + 32 => Some(rest),
        _ => None,
    }
}

/// Takes a date, as days from 1 January 1970.
fn days(text: &[u8]) -> Option<(i32, &[u8])>
    ensures date { IfSome result (λ found. (year month day : ℕ) × (year < 10000) × IsCivilDate (pos year) month day
        × (text.now ≡ date_text year month day ++ found.1.now) × (found.0 ≡ days_from_civil (pos year) month day)) }
    ensures only { (year month day : ℕ) (rest : List ℕ) → year < 10000 → IsCivilDate (pos year) month day → text.now ≡ date_text year month day ++ rest
        → MatchOption result ⊥ (λ found. rest ≡ found.1.now) }
    ensures bound { IfSome result (λ found. IsEpochDay found.0) }
{
    let (year, rest) = four_digits(text)?;
    let (month, rest) = two_digits(byte(rest, b'-')?)?;
    let (day, rest) = two_digits(byte(rest, b'-')?)?;
    let date = match Date::new(year as i16, month as i8, day as i8) {
        Ok(date) => date,
        Err(_) => return None,
    };
    Some((date.to_unix_epoch_day(), rest))
}

/// Takes a time of day, as seconds.
fn seconds(text: &[u8]) -> Option<(u32, &[u8])>
    ensures some { IfSome result (λ found. (hour minute second : ℕ) × (hour < 24) × (minute < 60) × (second < 60)
        × (text.now ≡ time_text hour minute second ++ found.1.now) × (found.0 ≡ (hour * 60 + minute) * 60 + second)) }
    ensures only { (hour minute second : ℕ) (rest : List ℕ) → hour < 24 → minute < 60 → second < 60
        → text.now ≡ time_text hour minute second ++ rest → MatchOption result ⊥ (λ found. rest ≡ found.1.now) }
{
    let (hour, rest) = two_digits(text)?;
    let (minute, rest) = two_digits(byte(rest, b':')?)?;
    let (second, rest) = two_digits(byte(rest, b':')?)?;
    if hour < 24 && minute < 60 && second < 60 {
        Some(((hour * 60 + minute) * 60 + second, rest))
    } else {
        None
    }
}

/// Takes a digit.
fn digit(text: &[u8]) -> Option<(u32, &[u8])>
    ensures some { IfSome result (λ found. (found.0 < 10) × (text.now ≡ digit_of found.0 ∷ found.1.now)) }
    ensures only { (n : ℕ) (rest : List ℕ) → n < 10 → text.now ≡ digit_of n ∷ rest → MatchOption result ⊥ (λ found. rest ≡ found.1.now) }
{
    match text {
        [digit @ b'0'..=b'9', rest @ ..] => Some((u32::from(*digit - b'0'), rest)),
        _ => None,
    }
}

/// Takes a fraction of a second of one to three digits, if one is next, as milliseconds.
fn fraction(text: &[u8]) -> Option<(u32, &[u8])>
    ensures fraction { IfSome result (λ found. (fraction : List ℕ) × WritesFraction fraction found.0 × (text.now ≡ fraction ++ found.1.now)) }
    ensures only { (part : ℕ) (fraction rest : List ℕ) (ahead : ℤ) → WritesFraction fraction part → WritesZone rest ahead
        → text.now ≡ fraction ++ rest → MatchOption result ⊥ (λ found. rest ≡ found.1.now) }
    ensures bound { IfSome result (λ found. found.0 < 1000) }
{
    let Some(rest) = byte(text, b'.') else {
        return Some((0, text));
    };
    let (tenths, rest) = digit(rest)?;
    let Some((hundredths, rest)) = digit(rest) else {
        return Some((tenths * 100, rest));
    };
    let Some((thousandths, rest)) = digit(rest) else {
        return Some((tenths * 100 + hundredths * 10, rest));
    };
    Some((tenths * 100 + hundredths * 10 + thousandths, rest))
}

/// The minutes that hours and minutes write, with a colon between them or without one.
fn distance(text: &[u8]) -> Option<u32>
    ensures distance { IfSome result (λ minutes. IsDistance text.now minutes) }
    ensures none { result ≡ None → (minutes : ℕ) → ¬ IsDistance text.now minutes }
    ensures bound { IfSome result (λ minutes. minutes < 1440) }
{
    let (hour, rest) = two_digits(text)?;
    let rest = match rest {
        [b':', rest @ ..] => rest,
        _ => rest,
    };
    let (minute, rest) = two_digits(rest)?;
    if hour < 24 && minute < 60 && rest.is_empty() {
        Some(hour * 60 + minute)
    } else {
        None
    }
}

/// How many minutes the clocks of a zone are ahead of UTC: `Z` or `z`, or a sign, hours and minutes.
fn zone(text: &[u8]) -> Option<i64>
    ensures zone { IfSome result (λ ahead. WritesZone text.now ahead) }
    ensures none { result ≡ None → (ahead : ℤ) → ¬ WritesZone text.now ahead }
    ensures bound { IfSome result IsAhead }
{
    if let Some(behind) = byte(text, b'+') {
        let minutes = distance(behind)?;
        return Some(i64::from(minutes));
    }
    if let Some(behind) = byte(text, b'-') {
        let minutes = distance(behind)?;
        return Some(-i64::from(minutes));
    }
    let rest = letter(text, b'Z')?;
    if rest.is_empty() { Some(0) } else { None }
}

/// The milliseconds of a time of day, and how many minutes its clocks are ahead of UTC.
fn clock(text: &[u8]) -> Option<(u32, i64)>
    ensures clock { IfSome result (λ found. WritesClock text.now found.0 found.1) }
    ensures none { result ≡ None → (millis : ℕ) (ahead : ℤ) → ¬ WritesClock text.now millis ahead }
    ensures bound { IfSome result (λ found. (found.0 < 86400000) × IsAhead found.1) }
{
    let (seconds, rest) = seconds(text)?;
    let (millis, rest) = fraction(rest)?;
    let ahead = zone(rest)?;
    Some((seconds * 1000 + millis, ahead))
}

/// The milliseconds since 1970 of a day and a time of day, by clocks that are `ahead` minutes ahead of UTC.
fn instant(days: i64, millis: i64, ahead: i64) -> i64
    requires days { IsEpochDay days }
    requires millis { IsBetween (pos 0) (pos 86399999) millis }
    requires ahead { IsAhead ahead }
    ensures { result ≡ ((days *ℤ pos 86400000) +ℤ millis) -ℤ (ahead *ℤ pos 60000) }
{
    days * DAY + millis - ahead * 60_000
}

/// The milliseconds since 1970 of the time that a text writes, as `2012-12-24T12:15:30.501Z`.
/// ```
/// assert_eq!(rt; millis_of(b"2012-12-24T12:15:30.501Z"), Some(1356351330501));
/// ```
pub fn millis_of(text: &[u8]) -> Option<i64>
    ensures some { IfSome result (λ millis. WritesTime text.now millis) }
    ensures none { result ≡ None → (z : ℤ) → ¬ WritesTime text.now z }
{
    let (days, rest) = days(text)?;
    let (millis, ahead) = clock(letter(rest, b'T')?)?;
    Some(instant(i64::from(days), i64::from(millis), ahead))
}
