//! Making a store of a key and its certificates.
ghost use Rattle.std.specs.Prelude.{◌≡◌, ◌<◌, ◌≤◌, ◌-◌, ◌^◌, ◌++◌, ◌∷◌, [], List, ℕ, length, IfErr, IfOk, OnOk};
ghost use Rattle.std.specs.Result.{IsErrOf};
ghost use Rattle.p12.specs.Building.{DrawsSalts, FailsToDraw, IsCiphertext, IsOuterText, IsTooLong, IsTooLongStore, RefusesStore, SealsBags, certificate_bag, certificate_bags, key_bag, own_attributes, seen_entry, seen_salts, store_over};
ghost use Rattle.asn1_core.specs.Der.{IsShort};
ghost use Rattle.p12.specs.Canonical.{bags_canon};
ghost use Rattle.p12.specs.Pfx.{OpeningFits, StoreFits};

use crate::attribute::PKCS12Attribute;
use crate::building::{ITERATIONS, algorithm_under, draw_salt, seal_bags};
use crate::cert_bag::CertBag;
use crate::content_info::ContentInfo;
use crate::encrypted_data::{EncryptedContentInfo, EncryptedData};
use crate::encrypted_private_key_info::EncryptedPrivateKeyInfo;
use crate::error::Error;
use crate::mac_data::MacData;
use crate::pfx::PFX;
use crate::safe_bag::{SafeBag, SafeBagKind};
use asn1_core::{Items, Octets, Text};
use mac_modes::Draw;
use sha1::Sha1;
use std::alloc::Global;

/// The version of a store (RFC 7292 section 4).
const VERSION: u8 = 3;

/// Whose certificate, key and further certificates a store holds, and the name of both.
#[derive(Clone, Copy, Drop)]
pub(crate) struct EntryParts<'p> {
    pub(crate) certificate: &'p [u8],
    pub(crate) key: &'p [u8],
    pub(crate) others: &'p [Octets],
    pub(crate) name: &'p str,
}

/// The salts of a store.
#[derive(Drop)]
pub(crate) struct DrawnSalts {
    pub(crate) key: [u8; 8],
    pub(crate) certificates: [u8; 8],
    pub(crate) mac: [u8; 8],
}

/// Draws the salts for the key, for the certificates and for the MAC. `Rng` exactly where the draw fails.
pub(crate) fn draw_salts<D: Draw>(draw: &mut D) -> Result<DrawnSalts, Error>
    ensures ok { IfOk result (λ d. DrawsSalts (D.left draw.old) (D.left draw.new)
        (λ s. s ≡ seen_salts d)) }
    ensures err { IfErr result
        (FailsToDraw (D.faults draw.old) (D.faults draw.new) (D.left draw.old) 24) }
    ensures count { D.faults draw.old ≤ D.faults draw.new }
    ensures no_fault { OnOk result (D.faults draw.new ≡ D.faults draw.old) }
    ensures last { D.faults draw.old < D.faults draw.new → IsErrOf result Error.Rng }
{
    let key = draw_salt(draw)?;
    let certificates = draw_salt(draw)?;
    let mac = draw_salt(draw)?;
    Ok(DrawnSalts {
        key,
        certificates,
        mac,
    })
}

/// The name, and the SHA-1 of the certificate.
fn own_attributes(alloc: Global, entry: EntryParts<'_>) -> Result<Items<PKCS12Attribute>, Error>
    ensures ok { IfOk result (λ found. found ≡ own_attributes (seen_entry entry.entry)) }
    ensures err { IfErr result (λ e. e ≡ Error.Memory) }
{
    let name = Text::from_text(alloc, entry.name)?;
    let key_id = Octets::from_slice(alloc, &Sha1::digest(entry.certificate))?;
    let mut attributes = Items::new(alloc);
    attributes.push(PKCS12Attribute::FriendlyName(name))?;
    attributes.push(PKCS12Attribute::LocalKeyId(key_id))?;
    Ok(attributes)
}

/// The bag of a certificate.
fn certificate_bag(
    alloc: Global,
    certificate: &[u8],
    attributes: Items<PKCS12Attribute>,
) -> Result<SafeBag, Error>
    ensures ok { IfOk result (λ g. g ≡ certificate_bag attributes certificate.now) }
    ensures err { IfErr result (λ e. e ≡ Error.Memory) }
{
    Ok(SafeBag {
        bag: SafeBagKind::CertBag(CertBag::X509(Octets::from_slice(alloc, certificate)?)),
        attributes,
    })
}

/// Puts the bag of a certificate after the others.
fn add_certificate(
    alloc: Global,
    bags: &mut Items<SafeBag>,
    certificate: &[u8],
    attributes: Items<PKCS12Attribute>,
) -> Result<(), Error>
    ensures ok { OnOk result
        (bags.new ≡ bags.old ++ certificate_bag attributes certificate.now ∷ []) }
    ensures err { IfErr result (λ e. e ≡ Error.Memory) }
{
    let bag = certificate_bag(alloc, certificate, attributes)?;
    Ok(bags.push(bag)?)
}

/// The bags of the certificates, that of the key first.
fn certificate_bags(alloc: Global, entry: EntryParts<'_>) -> Result<Items<SafeBag>, Error>
    ensures ok { IfOk result (λ bags. bags ≡ certificate_bags (seen_entry entry.entry)) }
    ensures err { IfErr result (λ e. e ≡ Error.Memory) }
{
    let attributes = own_attributes(alloc, entry)?;
    let mut bags = Items::new(alloc);
    add_certificate(alloc, &mut bags, entry.certificate, attributes)?;
    for other in entry.others {
        add_certificate(alloc, &mut bags, other.as_slice(), Items::new(alloc))?;
    }
    Ok(bags)
}

/// The bags of the certificates, encrypted under a salt.
fn sealed_certificates(
    alloc: Global,
    entry: EntryParts<'_>,
    password: &[u8],
    salt: &[u8],
) -> Result<EncryptedContentInfo, Error>
    requires password { length password.now < 2 ^ 59 }
    requires salt { length salt.now ≡ 8 }
    ensures ok { IfOk result
        (SealsBags password.now (certificate_bags (seen_entry entry.entry)) salt.now) }
    ensures short { OnOk result (IsShort (bags_canon (certificate_bags (seen_entry entry.entry)))) }
    ensures fitting { OnOk result
        (¬ (IsTooLong (bags_canon (certificate_bags (seen_entry entry.entry))))) }
    ensures err { IfErr result (RefusesStore (seen_entry entry.entry)) }
{
    let bags = certificate_bags(alloc, entry)?;
    seal_bags(alloc, bags.as_slice(), password, salt)
}

/// The bag of the key, encrypted under a salt.
fn key_bag(
    alloc: Global,
    entry: EntryParts<'_>,
    password: &[u8],
    salt: &[u8],
) -> Result<SafeBag, Error>
    requires password { length password.now < 2 ^ 59 }
    requires salt { length salt.now ≡ 8 }
    ensures ok { IfOk result (λ g. (v : List ℕ)
        × IsCiphertext password.now salt.now (seen_entry entry.entry).key v
        × (g ≡ key_bag (seen_entry entry.entry) salt.now v)) }
    ensures fitting { OnOk result (¬ (IsTooLong (seen_entry entry.entry).key)) }
    ensures err { IfErr result (RefusesStore (seen_entry entry.entry)) }
{
    let attributes = own_attributes(alloc, entry)?;
    let encryption_algorithm = algorithm_under(alloc, salt)?;
    let encrypted_data = encryption_algorithm.encrypt_pbe(alloc, entry.key, password)?;
    Ok(SafeBag {
        bag: SafeBagKind::Pkcs8ShroudedKeyBag(EncryptedPrivateKeyInfo {
            encryption_algorithm,
            encrypted_data,
        }),
        attributes,
    })
}

/// The text of the list of bags that holds the key alone, encrypted under a salt.
fn key_list_text(
    alloc: Global,
    entry: EntryParts<'_>,
    password: &[u8],
    salt: &[u8],
) -> Result<Octets, Error>
    requires password { length password.now < 2 ^ 59 }
    requires salt { length salt.now ≡ 8 }
    ensures ok { IfOk result (λ t. (v : List ℕ)
        × IsCiphertext password.now salt.now (seen_entry entry.entry).key v
        × (t ≡ bags_canon (key_bag (seen_entry entry.entry) salt.now v ∷ []))) }
    ensures fitting { OnOk result (¬ (IsTooLong (seen_entry entry.entry).key)) }
    ensures err { IfErr result (RefusesStore (seen_entry entry.entry)) }
{
    let key = key_bag(alloc, entry, password, salt)?;
    SafeBag::all_to_der(alloc, &[key])
}

/// The text of the two contents: the certificates encrypted, and the key.
pub(crate) fn outer_text(
    alloc: Global,
    entry: EntryParts<'_>,
    password: &[u8],
    salts: &DrawnSalts,
) -> Result<Octets, Error>
    requires { length password.now < 2 ^ 59 }
    ensures ok { IfOk result
        (IsOuterText password.now (seen_entry entry.entry) (seen_salts salts.now)) }
    ensures fitting { OnOk result (¬ (IsTooLongStore (seen_entry entry.entry))) }
    ensures err { IfErr result (RefusesStore (seen_entry entry.entry)) }
{
    let key = key_list_text(alloc, entry, password, &salts.key)?;
    let sealed = sealed_certificates(alloc, entry, password, &salts.certificates)?;
    let mut contents = Items::new(alloc);
    contents.push(ContentInfo::EncryptedData(EncryptedData {
        encrypted_content_info: sealed,
    }))?;
    contents.push(ContentInfo::Data(key))?;
    ContentInfo::all_to_der(alloc, contents.as_slice())
}

/// The store over a text, whose MAC is under a salt. The only refusal is `Memory`.
pub(crate) fn store_over(
    alloc: Global,
    text: Octets,
    password: &[u8],
    salt: &[u8],
) -> Result<PFX, Error>
    requires text { length text < 2 ^ 32 }
    requires password { length password.now < 2 ^ 59 }
    requires salt { length salt.now ≡ 8 }
    ensures ok { IfOk result (λ s. s ≡ store_over password.now salt.now text) }
    ensures fits { IfOk result (StoreFits (2 ^ 32 - 1)) }
    ensures opening { IfOk result OpeningFits }
    ensures err { IfErr result (λ e. e ≡ Error.Memory) }
{
    let mac = MacData::with_salt(alloc, text.as_slice(), password, salt, ITERATIONS)?;
    Ok(PFX {
        version: VERSION,
        auth_safe: ContentInfo::Data(text),
        mac_data: Some(mac),
    })
}
