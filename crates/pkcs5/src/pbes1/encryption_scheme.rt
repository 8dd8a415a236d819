//! The schemes of PBES1.
ghost use Rattle.std.specs.Prelude.{◌≡◌};
ghost use Rattle.asn1_core.specs.Der.{oid};
ghost use Rattle.asn1_core.specs.Gives.{Gives};
ghost use Rattle.asn1_core.specs.Oid.{oid_octets};
ghost use Rattle.asn1_core.specs.Reading.{UnknownOid, known};
ghost use Rattle.pkcs5.specs.Pbes1.{pbe_cipher, pbe_digest, pbe_oid};
ghost use Rattle.pkcs5.specs.Reading.{pbe_named};

use crate::pbes1::identifiers::{
    PBE_WITH_MD2_AND_DES_CBC_OID, PBE_WITH_MD2_AND_RC2_CBC_OID, PBE_WITH_MD5_AND_DES_CBC_OID,
    PBE_WITH_MD5_AND_RC2_CBC_OID, PBE_WITH_SHA1_AND_DES_CBC_OID, PBE_WITH_SHA1_AND_RC2_CBC_OID,
};
use asn1_core::{Error, Length, ObjectIdentifier, Writer};
use der_core::Encode;

/// A scheme of PBES1 (RFC 8018 appendix A.3): a hash function and a cipher.
#[derive(Clone, Copy, Debug, PartialEq, Eq, Drop)]
pub enum EncryptionScheme {
    /// MD2 and DES in CBC mode.
    PbeWithMd2AndDesCbc,
    /// MD2 and RC2 in CBC mode.
    PbeWithMd2AndRc2Cbc,
    /// MD5 and DES in CBC mode.
    PbeWithMd5AndDesCbc,
    /// MD5 and RC2 in CBC mode.
    PbeWithMd5AndRc2Cbc,
    /// SHA-1 and DES in CBC mode.
    PbeWithSha1AndDesCbc,
    /// SHA-1 and RC2 in CBC mode.
    PbeWithSha1AndRc2Cbc,
}

/// The hash function of a scheme.
#[derive(Clone, Copy, Debug, PartialEq, Eq, Drop)]
pub enum DigestAlgorithm {
    /// MD2.
    Md2,
    /// MD5.
    Md5,
    /// SHA-1.
    Sha1,
}

/// The cipher of a scheme.
#[derive(Clone, Copy, Debug, PartialEq, Eq, Drop)]
pub enum SymmetricCipher {
    /// DES in CBC mode.
    DesCbc,
    /// RC2 in CBC mode.
    Rc2Cbc,
}

impl EncryptionScheme {
    /// The cipher.
    pub fn cipher(self) -> SymmetricCipher
        ensures { result ≡ pbe_cipher self }
    {
        match self {
            Self::PbeWithMd2AndDesCbc | Self::PbeWithMd5AndDesCbc | Self::PbeWithSha1AndDesCbc => {
                SymmetricCipher::DesCbc
            }
            Self::PbeWithMd2AndRc2Cbc | Self::PbeWithMd5AndRc2Cbc | Self::PbeWithSha1AndRc2Cbc => {
                SymmetricCipher::Rc2Cbc
            }
        }
    }

    /// The hash function.
    pub fn digest(self) -> DigestAlgorithm
        ensures { result ≡ pbe_digest self }
    {
        match self {
            Self::PbeWithMd2AndDesCbc | Self::PbeWithMd2AndRc2Cbc => DigestAlgorithm::Md2,
            Self::PbeWithMd5AndDesCbc | Self::PbeWithMd5AndRc2Cbc => DigestAlgorithm::Md5,
            Self::PbeWithSha1AndDesCbc | Self::PbeWithSha1AndRc2Cbc => DigestAlgorithm::Sha1,
        }
    }

    /// The identifier of the scheme.
    pub fn oid(self) -> ObjectIdentifier
        ensures { oid_octets result ≡ pbe_oid self }
    {
        match self {
            Self::PbeWithMd2AndDesCbc => PBE_WITH_MD2_AND_DES_CBC_OID,
            Self::PbeWithMd2AndRc2Cbc => PBE_WITH_MD2_AND_RC2_CBC_OID,
            Self::PbeWithMd5AndDesCbc => PBE_WITH_MD5_AND_DES_CBC_OID,
            Self::PbeWithMd5AndRc2Cbc => PBE_WITH_MD5_AND_RC2_CBC_OID,
            Self::PbeWithSha1AndDesCbc => PBE_WITH_SHA1_AND_DES_CBC_OID,
            Self::PbeWithSha1AndRc2Cbc => PBE_WITH_SHA1_AND_RC2_CBC_OID,
        }
    }
}

impl TryFrom<ObjectIdentifier> for EncryptionScheme {
    type Error = Error;

    ghost try_from_gives = { λ o r. Gives (λ s. s) r (known pbe_named UnknownOid o) };

    /// The scheme of this identifier. `OidUnknown` exactly where it is none of the six.
    fn try_from(oid: ObjectIdentifier) -> Result<EncryptionScheme, Error> {
        if oid == PBE_WITH_MD2_AND_DES_CBC_OID {
            Ok(EncryptionScheme::PbeWithMd2AndDesCbc)
        } else if oid == PBE_WITH_MD2_AND_RC2_CBC_OID {
            Ok(EncryptionScheme::PbeWithMd2AndRc2Cbc)
        } else if oid == PBE_WITH_MD5_AND_DES_CBC_OID {
            Ok(EncryptionScheme::PbeWithMd5AndDesCbc)
        } else if oid == PBE_WITH_MD5_AND_RC2_CBC_OID {
            Ok(EncryptionScheme::PbeWithMd5AndRc2Cbc)
        } else if oid == PBE_WITH_SHA1_AND_DES_CBC_OID {
            Ok(EncryptionScheme::PbeWithSha1AndDesCbc)
        } else if oid == PBE_WITH_SHA1_AND_RC2_CBC_OID {
            Ok(EncryptionScheme::PbeWithSha1AndRc2Cbc)
        } else {
            Err(Error::OidUnknown { oid })
        }
    }
}

/// The text of the scheme's identifier.
impl Encode for EncryptionScheme {
    ghost canon = { λ s. oid (pbe_oid s) };

    ghost writable = { λ s. Unit {0} };

    fn encoded_len(&self) -> Result<Length, Error> {
        self.oid().encoded_len()
    }

    fn encode<W: Writer>(&self, w: &mut W) -> Result<(), Error> {
        self.oid().encode(w)
    }
}
