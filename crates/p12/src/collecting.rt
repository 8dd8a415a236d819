//! The bags of a store, and what is in them, in order (RFC 7292 sections 4.1 and 4.2).
ghost use Rattle.std.specs.Prelude.{◌≡◌, ◌++◌, ◌<◌, ◌-◌, ◌^◌, All, length, IfOk, IfErr, OnOk};
ghost use Rattle.p12.specs.Collected.{FirstFault, HoldAll, Refuses, certificates_among, keys_among, sdsi_among};
ghost use Rattle.p12.specs.ContentInfo.{SealFits};
ghost use Rattle.p12.specs.SafeBag.{BagFits};

use crate::content_info::ContentInfo;
use crate::error::Error;
use crate::safe_bag::{SafeBag, SafeBagKind};
use asn1_core::{Items, Octets, Text};
use std::alloc::Global;

/// Moves bags after those that are there.
fn append(bags: &mut Items<SafeBag>, more: Items<SafeBag>) -> Result<(), Error>
    ensures ok { OnOk result (bags.new ≡ bags.old ++ more) }
    ensures err { IfErr result (λ e. e ≡ Error.Memory) }
{
    for bag in more.into_vec() {
        bags.push(bag)?;
    }
    Ok(())
}

/// The bags of contents, in order.
pub(crate) fn all_bags(
    alloc: Global,
    contents: &[ContentInfo],
    password: &str,
) -> Result<Items<SafeBag>, Error>
    requires fit { All SealFits contents.now }
    requires password { length password.now < 2 ^ 57 }
    ensures ok { IfOk result (HoldAll password.now contents.now) }
    ensures err { IfErr result (Refuses (FirstFault password.now contents.now)) }
{
    let mut bags = Items::new(alloc);
    for content in contents {
        match content.bags(alloc, password) {
            Ok(more) => append(&mut bags, more)?,
            Err(refusal) => return Err(refusal),
        }
    }
    Ok(bags)
}

/// The plain octets of the encrypted keys among bags, in order; those that do not open are passed over.
pub(crate) fn opened_keys(
    alloc: Global,
    bags: &[SafeBag],
    password: &str,
) -> Result<Items<Octets>, Error>
    requires fit { All BagFits bags.now }
    requires password { length password.now < 2 ^ 57 }
    ensures ok { IfOk result (λ keys. keys ≡ keys_among password.now bags.now) }
    ensures err { IfErr result (λ e. e ≡ Error.Memory) }
{
    let mut keys = Items::new(alloc);
    for bag in bags {
        if let SafeBagKind::Pkcs8ShroudedKeyBag(key) = &bag.bag {
            let algorithm = &key.encryption_algorithm;
            let ciphertext = key.encrypted_data.as_slice();
            if let Some(octets) = algorithm.decrypt_text(alloc, ciphertext, password)? {
                keys.push(octets)?;
            }
        }
    }
    Ok(keys)
}

/// The DER of the X.509 certificates among bags, in order.
pub(crate) fn certificates_of(alloc: Global, bags: &[SafeBag]) -> Result<Items<Octets>, Error>
    ensures ok { IfOk result (λ certificates. certificates ≡ certificates_among bags.now) }
    ensures err { IfErr result (λ e. e ≡ Error.Memory) }
{
    let mut certificates = Items::new(alloc);
    for bag in bags {
        if let Some(certificate) = bag.bag.get_x509_cert(alloc)? {
            certificates.push(certificate)?;
        }
    }
    Ok(certificates)
}

/// The texts of the SDSI certificates among bags, in order.
pub(crate) fn sdsi_texts_of(alloc: Global, bags: &[SafeBag]) -> Result<Items<Text>, Error>
    ensures ok { IfOk result (λ texts. texts ≡ sdsi_among bags.now) }
    ensures err { IfErr result (λ e. e ≡ Error.Memory) }
{
    let mut texts = Items::new(alloc);
    for bag in bags {
        if let Some(text) = bag.bag.get_sdsi_cert(alloc)? {
            texts.push(text)?;
        }
    }
    Ok(texts)
}
