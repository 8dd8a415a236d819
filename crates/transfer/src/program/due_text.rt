//! The text that is due for what a store was transferred to.
ghost use Rattle.std.specs.Prelude.{◌≡◌, IfOk};
ghost use Rattle.frame.specs.DueText.{joined};
ghost use Rattle.transfer.specs.DueText.{out};

use asn1_core::{Items, Octets};
use frame::add_lines;
use std::alloc::{AllocError, Global};

/// The lines that are due for these certificates and documents.
pub(crate) fn due_lines(
    alloc: Global,
    certificates: &[Octets],
    documents: &[Octets],
) -> Result<Items<Octets>, AllocError>
    ensures { IfOk result (λ lines. joined lines ≡ out certificates.now documents.now) }
{
    let mut lines = Items::new(alloc);
    add_lines(alloc, "cert ", certificates, &mut lines)?;
    add_lines(alloc, "key ", documents, &mut lines)?;
    Ok(lines)
}
