//! The store of the subcommands that write nothing.
use pkcs12_arguments::Reading;
use pkcs12_opening::{
    AnyStore, Failure, Given, Surroundings, inputs_differ, opened, read_given, tell_long_work,
    tell_old_parts,
};
use std::rt::Runtime;

/// Reads the store and its password.
pub fn given_to<R: Runtime + AllocGlobal>(rt: &R, asked: &Reading<'_>) -> Result<Given, Failure> {
    inputs_differ(rt, asked.store, asked.password, None)?;
    read_given(rt, asked.store, asked.password, asked.limit, asked.accepted)
}

/// Opens the store, and says on the standard error what of it is old.
pub fn opened_within<R: Runtime + AllocGlobal>(
    rt: &R,
    around: Surroundings,
    given: &Given,
    asked: &Reading<'_>,
) -> Result<AnyStore, Failure> {
    tell_long_work(rt, around, given.store.as_slice(), None);
    let opened = opened(rt.alloc(), given, asked.limit, asked.accepted)?;
    tell_old_parts(rt, given, &opened)?;
    Ok(opened)
}
