//! The parameters of PBKDF2.
ghost use Rattle.std.specs.Prelude.{◌≡◌, ◌<◌, ◌≤◌, ◌⊎◌, length, None, MatchResult, refl};
ghost use Rattle.asn1_core.specs.Gives.{Gives};
ghost use Rattle.spki.specs.Seen.{borrowed_any};
ghost use Rattle.pkcs5.specs.Error.{InvalidOf};
ghost use Rattle.pkcs5.specs.Identifiers.{pbkdf2_oid};
ghost use Rattle.pkcs5.specs.Pbkdf2Params.{pbkdf2_params, Pbkdf2ParamsOf, pbkdf2_params_content, ArePbkdf2Params, SpellsPbkdf2Params};
ghost use Rattle.pkcs5.specs.Pbkdf2ParamsLaws.{pbkdf2_params_of-exact, pbkdf2_params_canonical, pbkdf2_params_spelled};
ghost use Rattle.pkcs5.specs.SameLaws.{pbkdf2_params_same};
ghost use Rattle.pkcs5.specs.declared.pbes2.pbkdf2_params.Pbkdf2Params.{Pbkdf2Params};
ghost use Rattle.pkcs5.specs.declared.pbes2.pbkdf2_prf.Pbkdf2Prf.TheVariants.{HmacWithSha256};
ghost use Rattle.pkcs5.specs.Reading.{prf_or_default, pbkdf2_params_of, pbkdf2_params_in};

use crate::error;
use crate::pbes2::identifiers::PBKDF2_OID;
use crate::pbes2::pbkdf2_prf::Pbkdf2Prf;
use crate::pbes2::salt::Salt;
use asn1_core::{Error, Header, Length, Reader, SliceReader, Tag, Writer};
use der_core::{
    AnyRef, Canonical, Compared, Decode, DecodeValue, Encode, EncodeValue, FixedTag, Pair,
    Sequence, Spelled, pair_len, write_pair,
};

/// The parameters of PBKDF2 (RFC 8018 appendix A.2).
///
/// ```text
/// PBKDF2-params ::= SEQUENCE {
///     salt CHOICE {
///         specified OCTET STRING,
///         otherSource AlgorithmIdentifier {{PBKDF2-SaltSources}}
///     },
///     iterationCount INTEGER (1..MAX),
///     keyLength INTEGER (1..MAX) OPTIONAL,
///     prf AlgorithmIdentifier {{PBKDF2-PRFs}} DEFAULT algid-hmacWithSHA1 }
/// ```
///
/// The salt is always given here.
#[derive(Clone, Copy, Debug, PartialEq, Eq, Drop)]
pub struct Pbkdf2Params {
    /// The salt.
    pub salt: Salt,
    /// The number of rounds; 0 rounds run like 1.
    pub iteration_count: u32,
    /// The length of the derived key in octets, where it is stated.
    pub key_length: Option<u16>,
    /// The pseudorandom function.
    pub prf: Pbkdf2Prf,
}

/// The refusal of parameters of PBKDF2.
fn invalid() -> error::Error
    ensures { InvalidOf pbkdf2_oid result }
{
    error::Error::AlgorithmParametersInvalid { oid: PBKDF2_OID }
}

impl Pbkdf2Params {
    /// The largest number of rounds that new parameters may have.
    pub const MAX_ITERATION_COUNT: u32 = 100_000_000;

    /// Parameters with HMAC over SHA-256, this many rounds and this salt, which state no key length.
    /// `AlgorithmParametersInvalid` with the identifier of PBKDF2 exactly where the rounds are more than 100,000,000
    /// or the salt has more than 32 octets.
    pub fn hmac_sha256(iteration_count: u32, salt: &[u8]) -> error::Result<Pbkdf2Params>
        ensures { MatchResult result
            (λ v. (v ≡ pbkdf2_params salt.now iteration_count None HmacWithSha256)
            × (iteration_count ≤ 100000000) × (length salt.now ≤ 32))
            (λ e. InvalidOf pbkdf2_oid e
            × ((100000000 < iteration_count) ⊎ (32 < length salt.now))) }
    {
        if iteration_count > Self::MAX_ITERATION_COUNT {
            return Err(invalid());
        }
        match Salt::new(salt) {
            Ok(salt) => Ok(Pbkdf2Params {
                salt,
                iteration_count,
                key_length: None,
                prf: Pbkdf2Prf::HmacWithSha256,
            }),
            Err(_) => Err(invalid()),
        }
    }
}

/// The function that parameters name, or HMAC over SHA-1 where they name none.
fn prf_or_default(prf: Option<Pbkdf2Prf>) -> Pbkdf2Prf
    ensures { result ≡ prf_or_default prf }
{
    match prf {
        Some(prf) => prf,
        None => Pbkdf2Prf::HmacWithSha1,
    }
}

/// The parameters whose value octets these are.
fn read_params(value: &[u8]) -> Result<Pbkdf2Params, Error>
    ensures { Gives (λ v. v) result (pbkdf2_params_of value.now) }
{
    let mut inner = SliceReader::new(value);
    let salt = Salt::decode(&mut inner)?;
    let iteration_count = u32::decode(&mut inner)?;
    let key_length = Option::<u16>::decode(&mut inner)?;
    let prf = Option::<Pbkdf2Prf>::decode(&mut inner)?;
    inner.finish()?;
    Ok(Pbkdf2Params {
        salt,
        iteration_count,
        key_length,
        prf: prf_or_default(prf),
    })
}

impl TryFrom<AnyRef<'_>> for Pbkdf2Params {
    type Error = Error;

    ghost try_from_gives = { λ a r. Gives (λ v. v) r (pbkdf2_params_in (borrowed_any a)) };

    /// The parameters that an element is. `Malformed` or `OidUnknown` exactly where it is none, as decoding of its
    /// text.
    fn try_from(element: AnyRef<'_>) -> Result<Pbkdf2Params, Error> {
        element.decode_as::<Pbkdf2Params>()
    }
}

impl FixedTag for Pbkdf2Params {
    ghost TAG = { record { first = 0x30; is_tag = refl } };

    const TAG: Tag = Tag::SEQUENCE;
}

impl<'a> DecodeValue<&'a [u8]> for Pbkdf2Params {
    ghost Seen = { Pbkdf2Params };

    ghost seen = { λ v. v };

    ghost value = { λ t. pbkdf2_params_of };

    ghost text = { λ t. Pbkdf2ParamsOf };

    /// Refusals in the order of the parts: each is `Malformed` where it is not as its row says; an unknown function
    /// is `OidUnknown`; octets after the function are `Malformed`.
    fn decode_value<R: Reader<&'a [u8]>>(r: &mut R, header: Header) -> Result<Pbkdf2Params, Error> {
        let mut ahead = *r;
        let value = ahead.read_slice(header.length)?;
        let params = read_params(value)?;
        *r = ahead;
        Ok(params)
    }

    ghost exact = { λ t. pbkdf2_params_of-exact };
}

impl EncodeValue for Pbkdf2Params {
    ghost content = { pbkdf2_params_content };

    ghost writable = { ArePbkdf2Params };

    fn value_len(&self) -> Result<Length, Error> {
        let front = Pair(&self.salt, &self.iteration_count);
        let front = Pair(&front, &self.key_length);
        pair_len(&front, &self.prf.stated())
    }

    fn encode_value<W: Writer>(&self, w: &mut W) -> Result<(), Error> {
        let front = Pair(&self.salt, &self.iteration_count);
        let front = Pair(&front, &self.key_length);
        write_pair(w, &front, &self.prf.stated())
    }
}

impl<'a> Sequence<&'a [u8]> for Pbkdf2Params {
    ghost sequence = { refl };
}

impl<'a> Canonical<&'a [u8]> for Pbkdf2Params {
    ghost canonical = { λ v h. pbkdf2_params_canonical v h };
}

impl<'a> Spelled<&'a [u8]> for Pbkdf2Params {
    ghost spell = { SpellsPbkdf2Params };

    ghost spelled = { pbkdf2_params_spelled };
}

impl<'a> Compared<&'a [u8]> for Pbkdf2Params {
    ghost compared = { λ v w. pbkdf2_params_same v w };
}
