//! Times.
ghost use Rattle.std.specs.Prelude.{◌≡◌, ◌↔◌, ◌+◌, ◌<◌, ◌≤◌, ◌++◌, ℕ, List, All, IfOk, IsTrue, MatchOption, OnOk, length};
ghost use Rattle.x509_names.specs.Printable.{ArePrintable, IsPrintable};
ghost use Rattle.x509_names.specs.Time.{Digits, HasTime, IsClock, IsDate, IsDigit, IsTime, IsTimeText, NoTime, century, days_in, is_leap, number_at, separated, written};

use crate::printed::Printed;
use octet_core::Text;
use std::alloc::{AllocError, Global};

const UTC_TIME: u8 = 0x17;

const GENERALIZED_TIME: u8 = 0x18;

/// Whether each octet is one of the digits `0` to `9`.
fn are_digits(octets: &[u8]) -> bool
    ensures { IsTrue result ↔ All IsDigit octets.now }
{
    octets.iter().all(|octet| *octet >= b'0' && *octet <= b'9')
}

/// The digits of an element of this tag, where its value is so many digits and a `Z` after them.
fn element_digits(element: &[u8], tag: u8, count: usize) -> Option<&[u8]>
    requires { count < 127 }
    ensures { MatchOption result ((d : List ℕ) → Digits tag count element.now d → ⊥)
        (λ d. Digits tag count element.now d.now) }
{
    if element.len() != count + 3 || element[0] != tag || usize::from(element[1]) != count + 1 {
        return None;
    }
    let digits = &element[2..count + 2];
    if element[count + 2] != b'Z' || !are_digits(digits) {
        return None;
    }
    Some(digits)
}

/// The number of the two digits at place `i`.
fn number_at(digits: &[u8], i: usize) -> u32
    requires all { All IsDigit digits.now }
    requires within { i + 1 < length digits.now }
    ensures number { result ≡ number_at i digits.now }
    ensures small { result < 100 }
{
    10 * u32::from(digits[i] - b'0') + u32::from(digits[i + 1] - b'0')
}

/// The century of a year of two digits: 1950 to 2049 (RFC 5280 section 4.1.2.5.1).
fn century_of(digits: &[u8]) -> [u8; 2]
    requires all { All IsDigit digits.now }
    requires within { 1 < length digits.now }
    ensures { result ≡ century digits.now }
{
    if number_at(digits, 0) < 50 {
        *b"20"
    } else {
        *b"19"
    }
}

/// The digits `YYYYMMDDHHMMSS` of a time.
fn digits_of(time: &[u8]) -> Option<[u8; 14]>
    ensures { MatchOption result (NoTime time.now) (λ d. HasTime time.now d) }
{
    let mut digits = [b'0'; 14];
    if let Some(all) = element_digits(time, GENERALIZED_TIME, 14) {
        digits.copy_from_slice(all);
        return Some(digits);
    }
    let short = element_digits(time, UTC_TIME, 12)?;
    digits[..2].copy_from_slice(&century_of(short));
    digits[2..].copy_from_slice(short);
    Some(digits)
}

/// Adds three texts with a character between them.
fn push_separated(
    printed: &mut Printed,
    between: u8,
    first: &[u8],
    second: &[u8],
    third: &[u8],
) -> Result<(), AllocError>
    requires between { IsPrintable between }
    requires first { ArePrintable first.now }
    requires second { ArePrintable second.now }
    requires third { ArePrintable third.now }
    ensures { OnOk result
        (printed.new ≡ printed.old ++ separated between first.now second.now third.now) }
{
    printed.push_printable(first)?;
    printed.push(between)?;
    printed.push_printable(second)?;
    printed.push(between)?;
    printed.push_printable(third)
}

/// Adds `YYYY-MM-DD HH:MM:SS UTC`.
fn push_time(printed: &mut Printed, digits: &[u8]) -> Result<(), AllocError>
    requires printable { ArePrintable digits.now }
    requires all { length digits.now ≡ 14 }
    ensures { OnOk result (printed.new ≡ printed.old ++ written digits.now) }
{
    push_separated(printed, b'-', &digits[0..4], &digits[4..6], &digits[6..8])?;
    printed.push(b' ')?;
    push_separated(
        printed,
        b':',
        &digits[8..10],
        &digits[10..12],
        &digits[12..14],
    )?;
    printed.push_printable(b" UTC")
}

/// The text `YYYY-MM-DD HH:MM:SS UTC` of a time (RFC 5280 section 4.1.2.5), a whole DER element: a UTCTime of 13 octets or
/// a GeneralizedTime of 15, digits and a `Z` after them. Where it is no such time, `#` and its digits. Whether there is
/// such a day is not tested: `is_time` tells. The only error is out of memory.
pub fn time_text(alloc: Global, time: &[u8]) -> Result<Text, AllocError>
    ensures text { IfOk result (λ t. IsTimeText time.now t) }
    ensures printable { IfOk result ArePrintable }
{
    let mut printed = Printed::new(alloc);
    match digits_of(time) {
        Some(digits) => push_time(&mut printed, &digits)?,
        None => printed.push_hex(time)?,
    }
    Ok(printed.into_text())
}

/// Whether the year has a 29th of February.
fn is_leap(year: u32) -> bool
    ensures { result ≡ is_leap year }
{
    year % 4 == 0 && (year % 100 != 0 || year % 400 == 0)
}

/// How many days this month of the year has.
fn days_in(year: u32, month: u32) -> u32
    ensures { result ≡ days_in year month }
{
    match month {
        2 if is_leap(year) => 29,
        2 => 28,
        4 | 6 | 9 | 11 => 30,
        _ => 31,
    }
}

/// Whether the day of `YYYYMMDDHHMMSS` is one of the calendar.
fn is_date(digits: &[u8]) -> bool
    requires digits { All IsDigit digits.now }
    requires all { length digits.now ≡ 14 }
    ensures { IsTrue result ↔ IsDate digits.now }
{
    let year = 100 * number_at(digits, 0) + number_at(digits, 2);
    let month = number_at(digits, 4);
    let day = number_at(digits, 6);
    month >= 1 && month <= 12 && day >= 1 && day <= days_in(year, month)
}

/// Whether the hour, minute and second of `YYYYMMDDHHMMSS` are ones of a day.
fn is_clock(digits: &[u8]) -> bool
    requires digits { All IsDigit digits.now }
    requires all { length digits.now ≡ 14 }
    ensures { IsTrue result ↔ IsClock digits.now }
{
    number_at(digits, 8) < 24 && number_at(digits, 10) < 60 && number_at(digits, 12) < 60
}

/// Whether this whole DER element is a time that exists: a UTCTime of 13 octets or a GeneralizedTime of 15, digits and
/// a `Z` after them, whose month is 1 to 12, whose day is one of that month in the Gregorian calendar, and whose hour is
/// below 24, minute and second below 60. `time_text` writes such a time as `YYYY-MM-DD HH:MM:SS UTC`.
pub fn is_time(time: &[u8]) -> bool
    ensures { IsTrue result ↔ IsTime time.now }
{
    match digits_of(time) {
        Some(digits) => is_date(&digits) && is_clock(&digits),
        None => false,
    }
}
