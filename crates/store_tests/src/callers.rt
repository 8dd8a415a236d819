//! The caller of the page of `p12`.
ghost use Rattle.std.specs.Prelude.{◌≡◌, ◌<◌, ◌^◌, List, length, true, IfOk, IfSome};
ghost use Rattle.p12.specs.Collected.{StoreHolds, certificates_among, store_agrees};
ghost use Rattle.p12.specs.Pfx.{IsStore};
ghost use Rattle.p12.specs.declared.pfx.PFX.{PFX};
ghost use Rattle.p12.specs.declared.safe_bag.SafeBag.{SafeBag};

use asn1_core::{Items, Octets};
use p12::{Error, PFX};
use std::alloc::Global;

/// The X.509 certificates of a store whose MAC agrees under the password; none where it does not agree, or is not there.
pub fn certificates(
    alloc: Global,
    octets: &[u8],
    password: &str,
) -> Result<Option<Items<Octets>>, Error>
    requires { length password.now < 2 ^ 57 }
    ensures { IfOk result (λ found. IfSome found (λ certificates. (store : PFX)
        × (bags : List SafeBag) × IsStore octets.now store
        × (store_agrees password.now store ≡ true)
        × StoreHolds password.now store bags × (certificates ≡ certificates_among bags))) }
{
    let store = PFX::parse(alloc, octets)?;
    if store.mac_data.is_none() || !store.verify_mac(alloc, password)? {
        return Ok(None);
    }
    Ok(Some(store.cert_x509_bags(alloc, password)?))
}
