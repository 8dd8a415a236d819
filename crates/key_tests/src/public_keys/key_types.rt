//! Key and signature types that keep what they were made of, through each trait of such types.
ghost use Rattle.std.specs.Prelude.{◌≡◌, ◌⊎◌, Some};
ghost use Rattle.asn1_core.specs.declared.error.Error.TheVariants as below;
ghost use Rattle.der_core.specs.BitString.{seen_bits};
ghost use Rattle.spki.specs.declared.error.Error.TheVariants as errors;

use super::algorithms::owned_algorithm;
use super::{EC, P_256_ALGORITHM, PUB, read};
use asn1_core::ObjectIdentifier;
use der_core::{BitString, Document, Encode, Null};
use sha2::{Digest, Sha256};
use spki::{
    AlgorithmIdentifier, AssociatedAlgorithmIdentifier, DecodePublicKey, DigestWriter,
    DynAssociatedAlgorithmIdentifier, DynSignatureAlgorithmIdentifier, EncodePublicKey, Error,
    Result, SignatureAlgorithmIdentifier, SignatureBitStringEncoding, SubjectPublicKeyInfoOwned,
    SubjectPublicKeyInfoRef,
};
use std::alloc::Global;
use std::fs;
use std::process::Abort;
use std::rt::Files;

/// A key that keeps its text.
#[derive(PartialEq, Drop)]
struct KeptKey {
    document: Document,
}

impl DecodePublicKey for KeptKey {
    ghost holds = { λ i k. Unit {0} };

    ghost refuses = { λ i e. Unit {0} };

    fn from_spki(alloc: Global, spki: SubjectPublicKeyInfoRef<'_>) -> Result<KeptKey> {
        match Document::encode_msg(alloc, &spki) {
            Ok(document) => Ok(KeptKey { document }),
            Err(e) => Err(Error::from(e)),
        }
    }
}

impl EncodePublicKey for KeptKey {
    ghost text = { λ k b. b ≡ k.document.octets };

    ghost refuses = { λ k e. e ≡ errors.Memory };

    fn to_public_key_der(&self, alloc: Global) -> Result<Document> {
        match self.document.try_clone(alloc) {
            Ok(document) => Ok(document),
            Err(e) => Err(Error::from(e)),
        }
    }
}

/// id-ecPublicKey (RFC 5480 section 2.1.1).
const EC_PUBLIC_KEY: ObjectIdentifier = ObjectIdentifier {
    octets: [
        0x2a, 0x86, 0x48, 0xce, 0x3d, 2, 1, 0, 0, 0, 0, 0, 0, 0, 0, 0, 0, 0, 0, 0, 0, 0, 0, 0, 0,
        0, 0, 0, 0, 0, 0, 0, 0, 0, 0, 0, 0, 0, 0,
    ],
    size: 7,
};

/// secp256r1 (RFC 5480 section 2.1.1.1).
const P_256: ObjectIdentifier = ObjectIdentifier {
    octets: [
        0x2a, 0x86, 0x48, 0xce, 0x3d, 3, 1, 7, 0, 0, 0, 0, 0, 0, 0, 0, 0, 0, 0, 0, 0, 0, 0, 0, 0,
        0, 0, 0, 0, 0, 0, 0, 0, 0, 0, 0, 0, 0, 0,
    ],
    size: 8,
};

/// ecdsa-with-SHA256 (RFC 5758 section 3.2).
const ECDSA_WITH_SHA256: ObjectIdentifier = ObjectIdentifier {
    octets: [
        0x2a, 0x86, 0x48, 0xce, 0x3d, 4, 3, 2, 0, 0, 0, 0, 0, 0, 0, 0, 0, 0, 0, 0, 0, 0, 0, 0, 0,
        0, 0, 0, 0, 0, 0, 0, 0, 0, 0, 0, 0, 0, 0,
    ],
    size: 8,
};

impl AssociatedAlgorithmIdentifier for KeptKey {
    ghost use Rattle.std.specs.Prelude.{[], ◌∷◌, refl};
    ghost use Rattle.std.proofs.lemmas.Bool.{leb-true};
    ghost use Rattle.octet_core.specs.Padded.{padded};
    ghost use Rattle.octet_core.specs.PaddedLaws.{is_padded};
    ghost use Rattle.asn1_core.specs.Oid.{built};

    type Params = ObjectIdentifier;

    ghost ALGORITHM_IDENTIFIER = { record {
      oid = built (padded 39 (0x2a ∷ 0x86 ∷ 0x48 ∷ 0xce ∷ 0x3d ∷ 2 ∷ 1 ∷ [])) 7
          (is_padded 39 (0x2a ∷ 0x86 ∷ 0x48 ∷ 0xce ∷ 0x3d ∷ 2 ∷ 1 ∷ []) (leb-true 7 39 refl), refl);
      parameters = Some (built (padded 39 (0x2a ∷ 0x86 ∷ 0x48 ∷ 0xce ∷ 0x3d ∷ 3 ∷ 1 ∷ 7 ∷ [])) 8 (
        is_padded 39 (0x2a ∷ 0x86 ∷ 0x48 ∷ 0xce ∷ 0x3d ∷ 3 ∷ 1 ∷ 7 ∷ [])
            (leb-true 8 39 refl),
        refl,
      ));
    } };

    const ALGORITHM_IDENTIFIER: AlgorithmIdentifier<ObjectIdentifier> = AlgorithmIdentifier {
        oid: EC_PUBLIC_KEY,
        parameters: Some(P_256),
    };
}

/// A signature of two octets.
struct KeptSignature([u8; 2]);

impl SignatureBitStringEncoding for KeptSignature {
    ghost bits = { λ s. seen_bits 0 s.0 };

    ghost unwritten = { λ s e. (e ≡ below.Overlength) ⊎ (e ≡ below.Memory) };

    fn to_bitstring(&self, alloc: Global) -> std::result::Result<BitString, asn1_core::Error> {
        BitString::new(alloc, 0, &self.0)
    }
}

impl SignatureAlgorithmIdentifier for KeptKey {
    ghost use Rattle.std.specs.Prelude.{None, [], ◌∷◌, refl};
    ghost use Rattle.std.proofs.lemmas.Bool.{leb-true};
    ghost use Rattle.octet_core.specs.Padded.{padded};
    ghost use Rattle.octet_core.specs.PaddedLaws.{is_padded};
    ghost use Rattle.asn1_core.specs.Oid.{built};

    type Params = Null;

    ghost SIGNATURE_ALGORITHM_IDENTIFIER = { record {
      oid = built (padded 39 (0x2a ∷ 0x86 ∷ 0x48 ∷ 0xce ∷ 0x3d ∷ 4 ∷ 3 ∷ 2 ∷ [])) 8 (
        is_padded 39 (0x2a ∷ 0x86 ∷ 0x48 ∷ 0xce ∷ 0x3d ∷ 4 ∷ 3 ∷ 2 ∷ [])
            (leb-true 8 39 refl),
        refl,
      );
      parameters = None;
    } };

    const SIGNATURE_ALGORITHM_IDENTIFIER: AlgorithmIdentifier<Null> = AlgorithmIdentifier {
        oid: ECDSA_WITH_SHA256,
        parameters: None,
    };
}

/// The kept key of a text.
fn kept(rt: &impl Abort, alloc: Global, text: &[u8]) -> KeptKey {
    KeptKey::from_public_key_der(alloc, text).expect(rt, "a key")
}

/// Whether a key is stored as the text.
fn is_stored(rt: &impl Abort, alloc: Global, key: &KeptKey, text: &[u8]) -> bool {
    let document = key.to_public_key_der(alloc).expect(rt, "memory");
    document.as_bytes() == text
}

/// Whether it comes back out of a file.
fn is_read_back<R: Abort + Files>(rt: &R, alloc: Global, key: &KeptKey) -> bool {
    let path = "spki_kept_key.der";
    let written = key.write_public_key_der_file(rt, alloc, path);
    let read = KeptKey::read_public_key_der_file(rt, alloc, path).expect(rt, "a key");
    written.is_ok() && read == *key && fs::remove_file(rt, path).is_ok()
}

/// Whether it gives the public key of the text.
fn gives_public_key(rt: &impl Abort, alloc: Global, key: &KeptKey, text: &[u8]) -> bool {
    let given = SubjectPublicKeyInfoOwned::from_key(alloc, key).expect(rt, "a public key");
    let expected = SubjectPublicKeyInfoOwned::from_public_key_der(alloc, text);
    given == expected.expect(rt, "a public key")
}

/// The texts of two keys.
static TEXTS: [&[u8]; 2] = [PUB, EC];

#[test]
fn a_kept_key_comes_back_equal(rt: HostRuntime) {
    let alloc = rt.alloc();
    for text in &TEXTS {
        let key = kept(&rt, alloc, text);
        assert!(rt;
            is_stored(&rt, alloc, &key, text)
                && is_read_back(&rt, alloc, &key)
                && gives_public_key(&rt, alloc, &key, text)
        );
    }
}

#[test]
fn a_text_of_no_key_is_refused(rt: HostRuntime) {
    let alloc = rt.alloc();
    let path = "spki_no_key.der";
    let malformed = Some(Error::Asn1(asn1_core::Error::Malformed));
    assert!(rt;
        KeptKey::from_public_key_der(alloc, &[0x30, 0]).err() == malformed
            && fs::write(&rt, path, &[0x30, 0][..]).is_ok()
            && KeptKey::read_public_key_der_file(&rt, alloc, path).err() == malformed
            && fs::remove_file(&rt, path).is_ok()
    );
}

#[test]
fn a_missing_file_is_refused(rt: HostRuntime) {
    let read = KeptKey::read_public_key_der_file(&rt, rt.alloc(), "spki_no_such_key.der");
    assert!(rt; read.err() == Some(Error::Asn1(asn1_core::Error::File)));
}

#[test]
fn a_missing_folder_is_refused(rt: HostRuntime) {
    let alloc = rt.alloc();
    let key = kept(&rt, alloc, PUB);
    let written = key.write_public_key_der_file(&rt, alloc, "no_such_folder/key.der");
    assert!(rt; written == Err(Error::Asn1(asn1_core::Error::File)));
}

/// The algorithm of its signatures.
const SIGNATURE_ALGORITHM: &[u8] = b"\x30\x0a\x06\x08\x2a\x86\x48\xce\x3d\x04\x03\x02";

#[test]
fn the_algorithm_of_a_type(rt: HostRuntime) {
    let alloc = rt.alloc();
    let found = kept(&rt, alloc, PUB).algorithm_identifier(alloc);
    let expected = owned_algorithm(&rt, alloc, P_256_ALGORITHM);
    assert!(rt; found.expect(&rt, "an algorithm") == expected);
}

#[test]
fn the_algorithm_of_a_types_signatures(rt: HostRuntime) {
    let alloc = rt.alloc();
    let found = kept(&rt, alloc, PUB).signature_algorithm_identifier(alloc);
    let expected = owned_algorithm(&rt, alloc, SIGNATURE_ALGORITHM);
    assert!(rt; found.expect(&rt, "an algorithm") == expected);
}

#[test]
fn the_bits_of_a_signature(rt: HostRuntime) {
    let bits = KeptSignature([1, 2])
        .to_bitstring(rt.alloc())
        .expect(&rt, "memory");
    assert!(rt; bits.unused_bits() == 0 && bits.raw_bytes() == &[1, 2][..]);
}

#[test]
fn a_digest_takes_what_is_written(rt: HostRuntime) {
    let key = read(&rt, PUB);
    let mut digest = Sha256::new();
    key.encode(&mut DigestWriter(&mut digest))
        .expect(&rt, "no refusal");
    assert!(rt; Ok(digest.finalize()) == key.fingerprint_bytes());
}

#[test]
fn debug_shows_no_digest(rt: HostRuntime) {
    let mut digest = Sha256::new();
    let writer = DigestWriter(&mut digest);
    let shown = format!(in rt.alloc(); "{writer:?}").expect(&rt, "memory");
    assert!(rt; shown.as_str() == "DigestWriter { .. }");
}
