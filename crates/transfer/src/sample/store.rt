//! The sample's store.
ghost use Rattle.std.specs.Prelude.{◌≡◌, ◌*◌, ◌<◌, ◌^◌, List, ℕ, length, IfOk, OnOk};
ghost use Rattle.asn1_core.specs.Sets.{Each};
ghost use Rattle.p12.specs.Canonical.{bags_canon, contents_canon};
ghost use Rattle.transfer.specs.Sample.{IsKeyBag, IsSampleStore, OpensTo, SealsKey, behind_keys, behind_store, certificate_bag, certificate_bags, encrypted_content, starts, store_of, triple_des_once, two_contents};

use crate::sample::generator::Generator;
use crate::sample::material::next_material;
use asn1_core::{Items, Octets};
use octet_core::laws::are_octets;
use p12::{
    AlgorithmIdentifier, CertBag, ContentInfo, EncryptedContentInfo, EncryptedData,
    EncryptedPrivateKeyInfo, Error, MacData, PFX, Pkcs12PbeParams, SafeBag, SafeBagKind,
    bmp_string,
};
use std::alloc::Global;

/// The password of the store, and the new one.
pub(crate) const PASSWORD: &str = "sample";

/// Triple DES in one round.
fn triple_des_once(alloc: Global, salt: &[u8]) -> Result<AlgorithmIdentifier, Error>
    ensures { IfOk result (λ a. a ≡ triple_des_once salt.now) }
{
    Ok(AlgorithmIdentifier::PbeWithSHAAnd3KeyTripleDESCBC(Pkcs12PbeParams {
        salt: Octets::from_slice(alloc, salt)?,
        iterations: 1,
    }))
}

/// The bag of a certificate.
fn certificate_bag(alloc: Global, certificate: &[u8]) -> Result<SafeBag, Error>
    ensures { IfOk result (λ g. g ≡ certificate_bag certificate.now) }
{
    Ok(SafeBag {
        bag: SafeBagKind::CertBag(CertBag::X509(Octets::from_slice(alloc, certificate)?)),
        attributes: Items::new(alloc),
    })
}

/// The bags of the certificates that a generator makes for so many keys.
fn certificate_bags(alloc: Global, keys: u32, seed: u32) -> Result<Items<SafeBag>, Error>
    ensures { IfOk result (λ bags. bags ≡ certificate_bags (starts seed keys)) }
{
    let mut generator = Generator::new(seed);
    let mut bags = Items::new(alloc);
    let mut left = keys;
    while left > 0 {
        let material = next_material(&mut generator);
        bags.push(certificate_bag(alloc, &material.certificate)?)?;
        left -= 1;
    }
    Ok(bags)
}

/// The bag of a key, encrypted under a salt.
fn key_bag(alloc: Global, salt: &[u8], key: &[u8]) -> Result<SafeBag, Error>
    requires { length salt.now ≡ 8 }
    ensures { IfOk result (SealsKey salt.now key.now) }
{
    let encryption_algorithm = triple_des_once(alloc, salt)?;
    let encrypted_data = encryption_algorithm.encrypt_text(alloc, key, PASSWORD)?;
    are_octets(encrypted_data.as_slice());
    Ok(SafeBag {
        bag: SafeBagKind::Pkcs8ShroudedKeyBag(EncryptedPrivateKeyInfo {
            encryption_algorithm,
            encrypted_data,
        }),
        attributes: Items::new(alloc),
    })
}

/// The bags of the next keys of a generator.
fn key_bags(alloc: Global, keys: u32, generator: &mut Generator) -> Result<Items<SafeBag>, Error>
    ensures bags { IfOk result (λ bags. Each IsKeyBag (starts generator.old.state keys) bags) }
    ensures state { OnOk result (generator.new.state ≡ behind_keys generator.old.state keys) }
{
    let mut bags = Items::new(alloc);
    let mut left = keys;
    while left > 0 {
        let material = next_material(generator);
        bags.push(key_bag(alloc, &material.salt, &material.key)?)?;
        left -= 1;
    }
    Ok(bags)
}

/// The content of the bags of the certificates, encrypted under a salt.
fn certificates_content(
    alloc: Global,
    certificates: &[SafeBag],
    salt: &[u8],
) -> Result<ContentInfo, Error>
    requires { length salt.now ≡ 8 }
    ensures { IfOk result (λ t. (c : List ℕ) × OpensTo salt.now (bags_canon certificates.now) c
        × (t ≡ encrypted_content salt.now c)) }
{
    let plain = SafeBag::all_to_der(alloc, certificates)?;
    let algorithm = triple_des_once(alloc, salt)?;
    let encrypted_content = algorithm.encrypt_text(alloc, plain.as_slice(), PASSWORD)?;
    are_octets(encrypted_content.as_slice());
    Ok(ContentInfo::EncryptedData(EncryptedData {
        encrypted_content_info: EncryptedContentInfo {
            content_encryption_algorithm: algorithm,
            encrypted_content,
        },
    }))
}

/// The text of the two contents: the bags of the certificates, encrypted under a salt, and those of the keys.
fn two_contents(
    alloc: Global,
    certificates: &[SafeBag],
    salt: &[u8],
    keys: &[SafeBag],
) -> Result<Octets, Error>
    requires { length salt.now ≡ 8 }
    ensures text { IfOk result (λ t. (c : List ℕ) × OpensTo salt.now (bags_canon certificates.now) c
        × (t ≡ contents_canon (two_contents salt.now c keys.now))) }
    ensures short { IfOk result (λ t. length t < 2 ^ 32) }
{
    let encrypted = certificates_content(alloc, certificates, salt)?;
    let plain = SafeBag::all_to_der(alloc, keys)?;
    let mut contents = Items::new(alloc);
    contents.push(encrypted)?;
    contents.push(ContentInfo::Data(plain))?;
    ContentInfo::all_to_der(alloc, contents.as_slice())
}

/// The store of these contents, with its MAC.
fn store_of(alloc: Global, outer: Octets, salt: &[u8]) -> Result<PFX, Error>
    requires outer { length outer < 2 ^ 32 }
    requires salt { length salt.now ≡ 8 }
    ensures { IfOk result (λ s. s ≡ store_of outer salt.now) }
{
    let password = bmp_string(alloc, PASSWORD)?;
    let mac = MacData::with_salt(alloc, outer.as_slice(), password.as_slice(), salt, 1)?;
    Ok(PFX {
        version: 3,
        auth_safe: ContentInfo::Data(outer),
        mac_data: Some(mac),
    })
}

/// The store of so many keys. The generator then is in front of the octets to be drawn.
pub(crate) fn sample_store(
    alloc: Global,
    keys: u32,
    generator: &mut Generator,
) -> Result<PFX, Error>
    requires { generator.old.state ≡ keys }
    ensures store { IfOk result (IsSampleStore keys) }
    ensures state { OnOk result (generator.new.state ≡ behind_store keys) }
{
    let certificates = certificate_bags(alloc, keys, keys)?;
    let bags = key_bags(alloc, keys, generator)?;
    let mut content_salt = [0; 8];
    let mut mac_salt = [0; 8];
    generator.fill(&mut content_salt);
    generator.fill(&mut mac_salt);
    let outer = two_contents(
        alloc,
        certificates.as_slice(),
        &content_salt,
        bags.as_slice(),
    )?;
    store_of(alloc, outer, &mac_salt)
}
