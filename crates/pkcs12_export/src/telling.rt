//! What is said of an export that is done.
use pkcs12_arguments::Export;
use pkcs12_inspection::{Listing, summary, warnings};
use pkcs12_opening::{Failure, Surroundings};

/// Says what was exported: all of it where somebody looks or asked for it or something was skipped,
/// and else the warnings alone.
pub fn tell_exported<R: Eprint + AllocGlobal>(
    rt: &R,
    around: Surroundings,
    asked: &Export<'_>,
    found: &Listing,
) -> Result<(), Failure> {
    let is_told = around.at_terminal || asked.verbose || !found.others.is_empty();
    let text = if is_told {
        summary(rt.alloc(), found)?
    } else {
        warnings(rt.alloc(), found)?
    };
    // The files are there: that nobody hears of it is no failure.
    match rt.eprint(text.as_str()) {
        Ok(()) | Err(_) => Ok(()),
    }
}
