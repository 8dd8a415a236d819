//! The callers of README.md.
ghost use Rattle.std.specs.Prelude.{◌≡◌, List, ℕ, IfOk};
ghost use Rattle.octet_core.specs.Draw.{DrawsIvAndSalt};
ghost use Rattle.pkcs5.specs.Generation.{recommended};
ghost use Rattle.pkcs8.specs.KeyTypes.{IsUnlocked, OfKey};
ghost use Rattle.pkcs8.specs.Sealing.{IsSealed};
ghost use Rattle.pkcs8.specs.Seen.{AnyPrivateKey, IsPrivateKey};
ghost use Rattle.pkcs8.specs.declared.error.Error.TheVariants.{Memory};

use super::KEY;
use super::documents::SEALED;
use crate::values::oid;
use asn1_core::{ObjectIdentifier, Octets};
use octet_core::Draw;
use pkcs8::{DecodePrivateKey, EncodePrivateKey, Error, PrivateKeyInfoRef, Result, SecretDocument};
use std::alloc::Global;

/// The octets of a private key whose algorithm is this one.
fn key_octets<'a>(algorithm: ObjectIdentifier, text: &'a [u8]) -> Result<&'a [u8]>
    ensures { IfOk result (λ o. (k : AnyPrivateKey) × IsPrivateKey text.now k
        × (k.algorithm.oid ≡ algorithm) × (k.private_key ≡ o.now)) }
{
    let key = PrivateKeyInfoRef::try_from(text)?;
    key.algorithm.assert_algorithm_oid(algorithm)?;
    Ok(key.private_key.as_bytes())
}

/// A key type of one's own: the octets of a private key.
#[derive(Drop)]
struct KeyOctets {
    octets: Octets,
}

impl DecodePrivateKey for KeyOctets {
    ghost holds = { λ i k. k.octets ≡ i.private_key };

    ghost refuses = { λ i e. e ≡ Memory };

    fn from_pkcs8_info(alloc: Global, info: PrivateKeyInfoRef<'_>) -> Result<KeyOctets> {
        let octets = Octets::from_slice(alloc, info.private_key.as_bytes())?;
        Ok(KeyOctets { octets })
    }
}

/// The key of that type in these octets of DER.
fn loaded(alloc: Global, text: &[u8]) -> Result<KeyOctets>
    ensures { IfOk result (λ k. (i : AnyPrivateKey) × IsPrivateKey text.now i
        × (k.octets ≡ i.private_key)) }
{
    KeyOctets::from_pkcs8_der(alloc, text)
}

/// The key of a type of one's own, out of the document of another program under a password.
fn opened<K: DecodePrivateKey>(alloc: Global, document: &[u8], password: &[u8]) -> Result<K>
    ensures { IfOk result (λ k. (m : List ℕ) × IsUnlocked document.now password.now m
        × OfKey (λ i. K.holds i k) m) }
{
    K::from_pkcs8_encrypted_der(alloc, document, password)
}

/// The document of a key of a type of one's own under scrypt, with an initialization vector and a salt that are drawn.
pub fn sealed<K: EncodePrivateKey, D: Draw>(
    alloc: Global,
    draw: &mut D,
    key: &K,
    password: &[u8],
) -> Result<SecretDocument>
    ensures { IfOk result (λ d. (m : List ℕ) × K.text key.now m × DrawsIvAndSalt (D.left draw.old)
        (D.left draw.new)
        (λ iv salt. IsSealed (recommended iv salt) password.now m d.document.octets)) }
{
    key.to_pkcs8_encrypted_der(alloc, draw, password)
}

/// The octets of that key.
const KEY_OCTETS: &[u8] =
    b"\x04\x20\x17\xed\x9c\x73\xe9\xdb\x64\x9e\xc1\x89\xa6\x12\x83\x1c\x5f\xc5\x70\x23\x82\x07\xc1\xaa\x9d\xfb\xd2\xc5\x3e\x3f\xf5\xe5\xea\x85";

#[test]
fn a_key_of_ones_own_has_the_octets(rt: HostRuntime) {
    let key = loaded(rt.alloc(), KEY).expect(&rt, "a key");
    let unlocked: KeyOctets = opened(rt.alloc(), SEALED, b"hunter42").expect(&rt, "a key");
    assert!(rt; key.octets.as_slice() == KEY_OCTETS && unlocked.octets.as_slice() == KEY_OCTETS);
}

#[test]
fn the_octets_of_a_key_of_an_algorithm(rt: HostRuntime) {
    let ed25519 = oid(&rt, "1.3.101.112");
    let unknown = Error::PublicKey(spki::Error::OidUnknown { oid: ed25519 });
    assert!(rt;
        key_octets(ed25519, KEY) == Ok(KEY_OCTETS)
            && key_octets(oid(&rt, "1.3.101.110"), KEY) == Err(unknown)
    );
}
