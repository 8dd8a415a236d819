//! Texts and numbers among the arguments.
ghost use Rattle.std.specs.Prelude.{◌≤◌, IfOk, OkIff};
ghost use Rattle.std.specs.Str.Parse.{IsNumeral, digits_value, without_leading_plus};

use crate::arguments_error::ArgumentsError;
use clap::ArgMatches;
use std::alloc::Global;
use terminal_text::InQuotes;

/// The most rounds of PBKDF2.
const MOST_ROUNDS: u32 = 100_000_000;

/// The most days, which are a hundred years.
const MOST_DAYS: u32 = 36_500;

/// The number of rounds, which the text writes in decimal, with or without a plus. `Wrong` where it
/// writes none from 1 to 100,000,000.
pub fn rounds_of(alloc: Global, text: &str) -> Result<u32, ArgumentsError>
    ensures fit { IfOk result (λ n. (1 ≤ n) × (n ≤ 100000000)) }
    ensures exact { OkIff result
        (IsNumeral 10 (without_leading_plus text.now)
        × (1 ≤ digits_value 10 (without_leading_plus text.now))
        × (digits_value 10 (without_leading_plus text.now) ≤ 100000000))
        (digits_value 10 (without_leading_plus text.now)) }
{
    match text.parse::<u32>() {
        Ok(rounds) if rounds >= 1 && rounds <= MOST_ROUNDS => Ok(rounds),
        _ => Err(not_a_number(alloc, "rounds", "1 to 100000000", text)),
    }
}

/// The number of days, which the text writes in decimal, with or without a plus. `Wrong` where it writes none from 0 to 36,500.
pub fn days_of(alloc: Global, text: &str) -> Result<u32, ArgumentsError>
    ensures fit { IfOk result (λ n. n ≤ 36500) }
    ensures exact { OkIff result
        (IsNumeral 10 (without_leading_plus text.now)
        × (digits_value 10 (without_leading_plus text.now) ≤ 36500))
        (digits_value 10 (without_leading_plus text.now)) }
{
    match text.parse::<u32>() {
        Ok(days) if days <= MOST_DAYS => Ok(days),
        _ => Err(not_a_number(alloc, "expires-within", "0 to 36500", text)),
    }
}

/// The error of an option whose text is none of its numbers.
fn not_a_number(alloc: Global, option: &str, bounds: &str, text: &str) -> ArgumentsError {
    let given = InQuotes(text);
    ArgumentsError::told(format!(in alloc;
        "--{option} takes a whole number from {bounds}, and not {given}"
    ))
}

/// The text of an argument that has one.
pub fn text_of<'a>(matches: &ArgMatches<'a>, name: &str) -> Result<&'a str, ArgumentsError> {
    match matches.get_str(name) {
        Some(text) => Ok(text),
        None => Err(ArgumentsError::new("an argument is missing")),
    }
}

/// The number of an option of that name. `Wrong` where its text writes none from 0 to
/// 18,446,744,073,709,551,615.
pub fn number_of(
    alloc: Global,
    matches: &ArgMatches<'_>,
    name: &str,
) -> Result<u64, ArgumentsError> {
    let text = text_of(matches, name)?;
    match text.parse::<u64>() {
        Ok(number) => Ok(number),
        Err(_) => Err(not_a_number(alloc, name, "0 to 18446744073709551615", text)),
    }
}
