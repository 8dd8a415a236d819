//! What is in an opened store.
ghost use Rattle.std.specs.Prelude.{◌≡◌, length, IfOk};
ghost use Rattle.pkcs12_inspection.specs.Listed.{others_in};
ghost use Rattle.transfer.specs.Opening.{all_certificates};

use pkcs12_inspection::Listing;
use std::alloc::{AllocError, Global};
use transfer::OpenedSafe;

/// What is in an opened store: a label for each of its X.509 certificates and encrypted private keys, and its other bags.
pub fn listing_of(alloc: Global, opened: &OpenedSafe) -> Result<Listing, AllocError>
    ensures certificates { IfOk result
        (λ l. length l.certificates ≡ length (all_certificates opened.now.contents)) }
    ensures others { IfOk result
        (λ l. length l.others ≡ length (others_in opened.now.contents)) }
{
    let mut found = Listing::new(alloc);
    for index in 0..opened.number_of_contents() {
        found.add_bags(alloc, opened.bags(index))?;
    }
    Ok(found)
}
