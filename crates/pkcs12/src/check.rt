//! The subcommand `check`: opens a store, and says what is in it.
use crate::reading::{given_to, opened_within};
use pkcs12_arguments::Reading;
use pkcs12_inspection::{json, summary};
use pkcs12_opening::{AnyStore, Failure, Given, Surroundings, algorithms_of, listing_of, printed};
use std::alloc::{AllocError, Global};
use std::rt::Runtime;

/// What `check` says of an opened store.
fn described(
    alloc: Global,
    given: &Given,
    opened: &AnyStore,
    in_json: bool,
) -> Result<String, AllocError> {
    let found = listing_of(alloc, &opened.safe)?;
    let algorithms = algorithms_of(alloc, given, opened)?;
    if in_json {
        return json(alloc, &found, &algorithms);
    }
    let mut text = summary(alloc, &found)?;
    algorithms.add_text(&mut text)?;
    Ok(text)
}

/// Opens the store, and prints what is in it.
pub fn run_check<R: Runtime + AllocGlobal>(
    rt: &R,
    around: Surroundings,
    asked: &Reading<'_>,
) -> Result<(), Failure> {
    let given = given_to(rt, asked)?;
    let opened = opened_within(rt, around, &given, asked)?;
    let text = described(rt.alloc(), &given, &opened, asked.in_json)?;
    printed(rt.alloc(), rt.print(text.as_str()))
}
