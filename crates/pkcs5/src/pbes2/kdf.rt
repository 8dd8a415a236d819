//! Key derivation functions of PBES2.
ghost use Rattle.std.specs.Prelude.{◌≡◌, ◌↔◌, IfSome, IsSome, IsTrue, true, refl};
ghost use Rattle.asn1_core.specs.Gives.{Gives};
ghost use Rattle.asn1_core.specs.Oid.{oid_octets};
ghost use Rattle.asn1_core.specs.Texts.{seen_option};
ghost use Rattle.spki.specs.Seen.{borrowed_any, borrowed_algorithm};
ghost use Rattle.pkcs5.specs.Error.{InvalidOf};
ghost use Rattle.pkcs5.specs.Kdf.{KdfOf, kdf_content, IsKdf, SpellsKdf};
ghost use Rattle.pkcs5.specs.KdfLaws.{kdf_of-exact, kdf_canonical, kdf_spelled};
ghost use Rattle.pkcs5.specs.Kinds.{IsScrypt, is_pbkdf2, kdf_oid, stated_length};
ghost use Rattle.pkcs5.specs.SameLaws.{kdf_same};
ghost use Rattle.pkcs5.specs.declared.pbes2.kdf.Kdf.{Kdf};
ghost use Rattle.pkcs5.specs.declared.pbes2.kdf.Kdf.TheVariants.{Pbkdf2, Scrypt};
ghost use Rattle.pkcs5.specs.Reading.{kdf_with, kdf_in, kdf_of};

use crate::error;
use crate::pbes2::identifiers::{PBKDF2_OID, SCRYPT_OID};
use crate::pbes2::pbkdf2_params::Pbkdf2Params;
use crate::pbes2::scrypt_params::ScryptParams;
use asn1_core::{Error, Header, Length, ObjectIdentifier, Reader, Tag, Writer};
use der_core::{
    AnyRef, Canonical, Compared, DecodeValue, EncodeValue, FixedTag, Sequence, Spelled, pair_len,
    write_pair,
};
use spki::{AlgorithmIdentifierRef, read_algorithm_as};

/// A key derivation function with its parameters (RFC 8018 appendix A.4).
///
/// ```text
/// AlgorithmIdentifier ::= SEQUENCE { algorithm OBJECT IDENTIFIER, parameters ANY }
/// ```
#[derive(Clone, Copy, Debug, PartialEq, Eq, Drop)]
pub enum Kdf {
    /// PBKDF2 (RFC 8018 section 5.2).
    Pbkdf2(Pbkdf2Params),
    /// scrypt (RFC 7914).
    Scrypt(ScryptParams),
}

impl Kdf {
    /// The length of the derived key in octets, where it is stated.
    pub fn key_length(&self) -> Option<u16>
        ensures { result ≡ stated_length self.now }
    {
        match self {
            Self::Pbkdf2(params) => params.key_length,
            Self::Scrypt(params) => params.key_length,
        }
    }

    /// The identifier of the function.
    pub fn oid(&self) -> ObjectIdentifier
        ensures { oid_octets result ≡ kdf_oid self.now }
    {
        match self {
            Self::Pbkdf2(_) => PBKDF2_OID,
            Self::Scrypt(_) => SCRYPT_OID,
        }
    }

    /// The refusal of the function's parameters.
    pub fn to_alg_params_invalid(&self) -> error::Error
        ensures { InvalidOf (kdf_oid self.now) result }
    {
        error::Error::AlgorithmParametersInvalid { oid: self.oid() }
    }

    /// The parameters of PBKDF2, where this is that function.
    pub fn pbkdf2(&self) -> Option<&Pbkdf2Params>
        ensures value { IfSome result (λ v. Pbkdf2 v.now ≡ self.now) }
        ensures some { IsSome result ↔ (is_pbkdf2 self.now ≡ true) }
    {
        match self {
            Self::Pbkdf2(params) => Some(params),
            Self::Scrypt(_) => None,
        }
    }

    /// The parameters of scrypt, where this is that function.
    pub fn scrypt(&self) -> Option<&ScryptParams>
        ensures value { IfSome result (λ v. Scrypt v.now ≡ self.now) }
        ensures some { IsSome result ↔ IsScrypt self.now }
    {
        match self {
            Self::Pbkdf2(_) => None,
            Self::Scrypt(params) => Some(params),
        }
    }

    /// Whether this is PBKDF2.
    pub fn is_pbkdf2(&self) -> bool
        ensures { result ≡ is_pbkdf2 self.now }
    {
        match self {
            Self::Pbkdf2(_) => true,
            Self::Scrypt(_) => false,
        }
    }

    /// Whether this is scrypt.
    pub fn is_scrypt(&self) -> bool
        ensures { IsTrue result ↔ IsScrypt self.now }
    {
        match self {
            Self::Pbkdf2(_) => false,
            Self::Scrypt(_) => true,
        }
    }
}

/// The function of PBKDF2 with these parameters.
impl From<Pbkdf2Params> for Kdf {
    ghost from_gives = { λ v k. k ≡ Pbkdf2 v };

    fn from(params: Pbkdf2Params) -> Kdf {
        Kdf::Pbkdf2(params)
    }
}

/// The function of scrypt with these parameters.
impl From<ScryptParams> for Kdf {
    ghost from_gives = { λ v k. k ≡ Scrypt v };

    fn from(params: ScryptParams) -> Kdf {
        Kdf::Scrypt(params)
    }
}

/// The function of this identifier with these parameters. `OidUnknown` exactly where the identifier names none; else
/// the refusals of the parameters.
fn kdf_with(oid: ObjectIdentifier, parameters: &AnyRef<'_>) -> Result<Kdf, Error>
    ensures { Gives (λ k. k) result (kdf_with oid (borrowed_any parameters.now)) }
{
    if oid == PBKDF2_OID {
        return Ok(Kdf::Pbkdf2(Pbkdf2Params::try_from(*parameters)?));
    }
    if oid == SCRYPT_OID {
        return Ok(Kdf::Scrypt(ScryptParams::try_from(*parameters)?));
    }
    Err(Error::OidUnknown { oid })
}

impl TryFrom<AlgorithmIdentifierRef<'_>> for Kdf {
    type Error = Error;

    ghost try_from_gives = { λ a r. Gives (λ k. k) r (kdf_in (borrowed_algorithm a)) };

    /// The function that an algorithm is. `Malformed` exactly where it has no parameters; else `OidUnknown` with its
    /// identifier exactly where that names none; else the refusals of the parameters.
    #[tactic(auto, unfolding(crate::specs::Reading::kdf_in))]
    fn try_from(algorithm: AlgorithmIdentifierRef<'_>) -> Result<Kdf, Error> {
        match &algorithm.parameters {
            Some(parameters) => kdf_with(algorithm.oid, parameters),
            None => Err(Error::Malformed),
        }
    }
}

impl FixedTag for Kdf {
    ghost TAG = { record { first = 0x30; is_tag = refl } };

    const TAG: Tag = Tag::SEQUENCE;
}

impl<'a> DecodeValue<&'a [u8]> for Kdf {
    ghost Seen = { Kdf };

    ghost seen = { λ k. k };

    ghost value = { λ t. kdf_of };

    ghost text = { λ t. KdfOf };

    /// Refusals as of the algorithm; octets after its parameters are `Malformed` last.
    fn decode_value<R: Reader<&'a [u8]>>(r: &mut R, header: Header) -> Result<Kdf, Error> {
        read_algorithm_as(r, header)
    }

    ghost exact = { λ t. kdf_of-exact };
}

impl EncodeValue for Kdf {
    ghost content = { kdf_content };

    ghost writable = { IsKdf };

    fn value_len(&self) -> Result<Length, Error> {
        match self {
            Self::Pbkdf2(params) => pair_len(&PBKDF2_OID, params),
            Self::Scrypt(params) => pair_len(&SCRYPT_OID, params),
        }
    }

    fn encode_value<W: Writer>(&self, w: &mut W) -> Result<(), Error> {
        match self {
            Self::Pbkdf2(params) => write_pair(w, &PBKDF2_OID, params),
            Self::Scrypt(params) => write_pair(w, &SCRYPT_OID, params),
        }
    }
}

impl<'a> Sequence<&'a [u8]> for Kdf {
    ghost sequence = { refl };
}

impl<'a> Canonical<&'a [u8]> for Kdf {
    ghost canonical = { kdf_canonical };
}

impl<'a> Spelled<&'a [u8]> for Kdf {
    ghost spell = { SpellsKdf };

    ghost spelled = { kdf_spelled };
}

impl<'a> Compared<&'a [u8]> for Kdf {
    ghost compared = { kdf_same ⟦<Kdf as PartialEq>⟧.eq (λ v w. refl) (λ v w. refl) (λ v w. refl)
        (λ v w. refl) };
}
