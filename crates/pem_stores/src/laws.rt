//! Laws of what a store is made of.
ghost use Rattle.pem_stores.specs.Laws.{CertificatesAreKept, StoresKeepTexts};

use create_core::laws::created_stores_open;

/// What `entries_of_texts` returns has a certificate exactly where the PEM text has it: none is lost, and none is added.
pub fn certificates_are_kept()
    ensures { CertificatesAreKept }
{}

/// A store that `create` makes of what `entries_of_texts` returns opens to the private key of the one PEM text, and to the certificates of
/// the other: none is lost, and none is added.
pub fn stores_keep_texts()
    ensures { StoresKeepTexts }
{
    created_stores_open();
}
