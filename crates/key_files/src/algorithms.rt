//! The algorithms of private keys that are told apart.
ghost use Rattle.std.specs.Prelude.{◌≡◌, IsTrue};
ghost use Rattle.asn1_core.specs.Oid.{oid_octets};
ghost use Rattle.key_files.specs.Algorithms.{ec_public_key, kind_of, rsa_encryption};

use asn1_core::ObjectIdentifier;

/// The value octets of the identifier rsaEncryption (RFC 8017 appendix A.1).
pub(crate) const RSA_ENCRYPTION: [u8; 9] = [0x2a, 0x86, 0x48, 0x86, 0xf7, 0x0d, 0x01, 0x01, 0x01];

/// The same of id-ecPublicKey (RFC 5480 section 2.1.1).
pub(crate) const EC_PUBLIC_KEY: [u8; 7] = [0x2a, 0x86, 0x48, 0xce, 0x3d, 0x02, 0x01];

/// The algorithms whose private keys have octets that are looked into, and all others.
#[derive(Clone, Copy, Debug, PartialEq, Eq)]
pub(crate) enum AlgorithmKind {
    Rsa,
    Ec,
    Other,
}

/// Which of these an identifier is.
pub(crate) fn kind_of(identifier: &ObjectIdentifier) -> AlgorithmKind
    ensures { result ≡ kind_of identifier.now }
{
    let octets = identifier.as_bytes();
    if octets == RSA_ENCRYPTION.as_slice() {
        AlgorithmKind::Rsa
    } else if octets == EC_PUBLIC_KEY.as_slice() {
        AlgorithmKind::Ec
    } else {
        AlgorithmKind::Other
    }
}
