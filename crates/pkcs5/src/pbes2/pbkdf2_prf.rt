//! The pseudorandom functions of PBKDF2.
ghost use Rattle.std.specs.Prelude.{◌≡◌, Some, [], refl};
ghost use Rattle.asn1_core.specs.Gives.{Gives};
ghost use Rattle.asn1_core.specs.Oid.{oid_octets};
ghost use Rattle.asn1_core.specs.Reading.{UnknownOid, known};
ghost use Rattle.asn1_core.specs.Texts.{seen_option};
ghost use Rattle.spki.specs.Seen.{borrowed_any, borrowed_algorithm};
ghost use Rattle.pkcs5.specs.Kinds.{prf_oid};
ghost use Rattle.pkcs5.specs.Pbkdf2Params.{stated_prf};
ghost use Rattle.pkcs5.specs.Pbkdf2Prf.{PrfOf, prf_content, SpellsPrf};
ghost use Rattle.pkcs5.specs.PrfLaws.{pbkdf2_prf_of-exact, prf_canonical, prf_spelled};
ghost use Rattle.pkcs5.specs.SameLaws.{prf_same};
ghost use Rattle.pkcs5.specs.declared.pbes2.pbkdf2_prf.Pbkdf2Prf.{Pbkdf2Prf};
ghost use Rattle.pkcs5.specs.Reading.{prf_named, null_or_none, prf_in, pbkdf2_prf_of};

use crate::pbes2::identifiers::{
    HMAC_WITH_SHA1_OID, HMAC_WITH_SHA224_OID, HMAC_WITH_SHA256_OID, HMAC_WITH_SHA384_OID,
    HMAC_WITH_SHA512_OID,
};
use asn1_core::{Error, Header, Length, ObjectIdentifier, Reader, Tag, Writer};
use der_core::{
    AnyRef, Canonical, Compared, DecodeValue, EncodeValue, FixedTag, Null, Sequence, Spelled,
    pair_len, write_pair,
};
use spki::{AlgorithmIdentifier, AlgorithmIdentifierRef};

/// A pseudorandom function of PBKDF2 (RFC 8018 appendix B.1).
#[derive(Clone, Copy, Debug, PartialEq, Eq, Drop)]
pub enum Pbkdf2Prf {
    /// HMAC over SHA-1.
    HmacWithSha1,
    /// HMAC over SHA-224.
    HmacWithSha224,
    /// HMAC over SHA-256.
    HmacWithSha256,
    /// HMAC over SHA-384.
    HmacWithSha384,
    /// HMAC over SHA-512.
    HmacWithSha512,
}

impl Pbkdf2Prf {
    /// The identifier of the function.
    pub fn oid(self) -> ObjectIdentifier
        ensures { oid_octets result ≡ prf_oid self }
    {
        match self {
            Self::HmacWithSha1 => HMAC_WITH_SHA1_OID,
            Self::HmacWithSha224 => HMAC_WITH_SHA224_OID,
            Self::HmacWithSha256 => HMAC_WITH_SHA256_OID,
            Self::HmacWithSha384 => HMAC_WITH_SHA384_OID,
            Self::HmacWithSha512 => HMAC_WITH_SHA512_OID,
        }
    }

    /// The function where it is written: HMAC over SHA-1 is left out of parameters, which then name none.
    pub(crate) fn stated(self) -> Option<Pbkdf2Prf>
        ensures { result ≡ stated_prf self }
    {
        match self {
            Pbkdf2Prf::HmacWithSha1 => None,
            other => Some(other),
        }
    }
}

impl Default for Pbkdf2Prf {
    ghost use Rattle.pkcs5.specs.declared.pbes2.pbkdf2_prf.Pbkdf2Prf.TheVariants.{HmacWithSha1};

    ghost is_default = { λ f. f ≡ HmacWithSha1 };

    /// HMAC over SHA-1, which is the function of parameters that name none (RFC 8018 appendix A.2).
    fn default() -> Self {
        Self::HmacWithSha1
    }
}

/// The function of this identifier. `OidUnknown` exactly where it names none.
fn prf_named(oid: ObjectIdentifier) -> Result<Pbkdf2Prf, Error>
    ensures { Gives (λ f. f) result (known prf_named UnknownOid oid) }
{
    if oid == HMAC_WITH_SHA1_OID {
        Ok(Pbkdf2Prf::HmacWithSha1)
    } else if oid == HMAC_WITH_SHA224_OID {
        Ok(Pbkdf2Prf::HmacWithSha224)
    } else if oid == HMAC_WITH_SHA256_OID {
        Ok(Pbkdf2Prf::HmacWithSha256)
    } else if oid == HMAC_WITH_SHA384_OID {
        Ok(Pbkdf2Prf::HmacWithSha384)
    } else if oid == HMAC_WITH_SHA512_OID {
        Ok(Pbkdf2Prf::HmacWithSha512)
    } else {
        Err(Error::OidUnknown { oid })
    }
}

/// That there are no parameters but NULL. `Malformed` exactly where there are others.
fn expect_null(parameters: &Option<AnyRef<'_>>) -> Result<(), Error>
    ensures { Gives (λ u. u) result (null_or_none (seen_option borrowed_any parameters.now)) }
{
    if let Some(parameters) = parameters {
        parameters.decode_as::<Null>()?;
    }
    Ok(())
}

impl TryFrom<AlgorithmIdentifierRef<'_>> for Pbkdf2Prf {
    type Error = Error;

    ghost try_from_gives = { λ a r. Gives (λ f. f) r (prf_in (borrowed_algorithm a)) };

    /// The function that an algorithm is. `Malformed` exactly where it has parameters other than NULL; else
    /// `OidUnknown` with its identifier exactly where that names none.
    fn try_from(algorithm: AlgorithmIdentifierRef<'_>) -> Result<Pbkdf2Prf, Error> {
        expect_null(&algorithm.parameters)?;
        prf_named(algorithm.oid)
    }
}

/// The algorithm of a function, with NULL.
impl<'a> From<Pbkdf2Prf> for AlgorithmIdentifierRef<'a> {
    ghost from_gives = { λ f a. (oid_octets a.oid ≡ prf_oid f)
        × (seen_option borrowed_any a.parameters ≡ Some (5, [])) };

    fn from(prf: Pbkdf2Prf) -> AlgorithmIdentifierRef<'a> {
        AlgorithmIdentifier {
            oid: prf.oid(),
            parameters: Some(AnyRef::from(Null)),
        }
    }
}

impl FixedTag for Pbkdf2Prf {
    ghost TAG = { record { first = 0x30; is_tag = refl } };

    const TAG: Tag = Tag::SEQUENCE;
}

impl<'a> DecodeValue<&'a [u8]> for Pbkdf2Prf {
    ghost Seen = { Pbkdf2Prf };

    ghost seen = { λ f. f };

    ghost value = { λ t. pbkdf2_prf_of };

    ghost text = { λ t. PrfOf };

    fn decode_value<R: Reader<&'a [u8]>>(r: &mut R, header: Header) -> Result<Pbkdf2Prf, Error> {
        let mut ahead = *r;
        let algorithm = AlgorithmIdentifierRef::decode_value(&mut ahead, header)?;
        let prf = Pbkdf2Prf::try_from(algorithm)?;
        *r = ahead;
        Ok(prf)
    }

    ghost exact = { λ t. pbkdf2_prf_of-exact };
}

impl EncodeValue for Pbkdf2Prf {
    ghost content = { prf_content };

    ghost writable = { λ f. Unit {0} };

    fn value_len(&self) -> Result<Length, Error> {
        pair_len(&self.oid(), &Null)
    }

    fn encode_value<W: Writer>(&self, w: &mut W) -> Result<(), Error> {
        write_pair(w, &self.oid(), &Null)
    }
}

impl<'a> Sequence<&'a [u8]> for Pbkdf2Prf {
    ghost sequence = { refl };
}

impl<'a> Canonical<&'a [u8]> for Pbkdf2Prf {
    ghost canonical = { λ f h. prf_canonical f };
}

impl<'a> Spelled<&'a [u8]> for Pbkdf2Prf {
    ghost spell = { SpellsPrf };

    ghost spelled = { prf_spelled };
}

impl<'a> Compared<&'a [u8]> for Pbkdf2Prf {
    ghost compared = { λ f g. prf_same f g };
}
