//! The parameters of PBES1.
ghost use Rattle.std.specs.Prelude.{◌≡◌, ◌≢◌, ℕ, List, length, MatchResult, refl};
ghost use Rattle.asn1_core.specs.Der.{el};
ghost use Rattle.asn1_core.specs.Gives.{Gives};
ghost use Rattle.asn1_core.specs.declared.error.Error.TheVariants.{Malformed};
ghost use Rattle.spki.specs.Seen.{borrowed_any};
ghost use Rattle.pkcs5.specs.Pbes1.{PbeSaltOf, PbeParamsOf, pbe_params_content, ArePbeParams};
ghost use Rattle.pkcs5.specs.Pbes1Laws.{pbe_salt_of-exact, pbe_params_of-exact, pbe_params_canonical, pbe_params_spelled};
ghost use Rattle.pkcs5.specs.SameLaws.{pbe_params_same};
ghost use Rattle.pkcs5.specs.declared.pbes1.parameters.Parameters.{Parameters};
ghost use Rattle.pkcs5.specs.Reading.{pbe_salt_of, pbe_params_of, pbe_params_in};

use asn1_core::{Error, Header, Length, Reader, SliceReader, Tag, Writer};
use der_core::{
    AnyRef, Canonical, Compared, Decode, DecodeValue, EncodeValue, FixedTag, Sequence, Spelled,
    pair_len, write_pair,
};

/// The length of a salt of PBES1 in octets.
pub const SALT_LENGTH: usize = 8;

/// The parameters of PBES1 (RFC 8018 appendix A.3).
///
/// ```text
/// PBEParameter ::= SEQUENCE {
///    salt OCTET STRING (SIZE(8)),
///    iterationCount INTEGER }
/// ```
#[derive(Clone, Copy, Debug, PartialEq, Eq, Drop)]
pub struct Parameters {
    /// The salt.
    pub salt: [u8; 8],
    /// The number of rounds.
    pub iteration_count: u16,
}

/// The octets of a salt. `Malformed` exactly where they are not 8.
fn salt_from(octets: &[u8]) -> Result<[u8; 8], Error>
    ensures { MatchResult result (λ s. (s ≡ octets.now) × (length octets.now ≡ 8))
        (λ e. (e ≡ Malformed)
        × (length octets.now ≢ 8)) }
{
    match <[u8; SALT_LENGTH]>::try_from(octets) {
        Ok(salt) => Ok(salt),
        Err(_) => Err(Error::Malformed),
    }
}

/// A salt as OCTET STRING.
#[derive(Clone, Copy)]
struct PbeSalt {
    octets: [u8; 8],
}

impl FixedTag for PbeSalt {
    ghost TAG = { record { first = 4; is_tag = refl } };

    const TAG: Tag = Tag::OCTET_STRING;
}

impl<'a> DecodeValue<&'a [u8]> for PbeSalt {
    ghost Seen = { List ℕ };

    ghost seen = { λ s. s.octets };

    ghost value = { λ t. pbe_salt_of };

    ghost text = { λ t. PbeSaltOf };

    fn decode_value<R: Reader<&'a [u8]>>(r: &mut R, header: Header) -> Result<PbeSalt, Error> {
        let mut ahead = *r;
        let octets = ahead.read_slice(header.length)?;
        let octets = salt_from(octets)?;
        *r = ahead;
        Ok(PbeSalt { octets })
    }

    ghost exact = { λ t. pbe_salt_of-exact };
}

impl EncodeValue for PbeSalt {
    ghost content = { λ s. s.octets };

    ghost writable = { λ s. length s.octets ≡ 8 };

    fn value_len(&self) -> Result<Length, Error> {
        Ok(Length {
            value: self.octets.len() as u32,
        })
    }

    fn encode_value<W: Writer>(&self, w: &mut W) -> Result<(), Error> {
        w.write(&self.octets)
    }
}

impl TryFrom<AnyRef<'_>> for Parameters {
    type Error = Error;

    ghost try_from_gives = { λ a r. Gives (λ v. v) r (pbe_params_in (borrowed_any a)) };

    /// The parameters that an element is. `Malformed` exactly where it is none.
    fn try_from(element: AnyRef<'_>) -> Result<Parameters, Error> {
        element.decode_as::<Parameters>()
    }
}

/// The parameters whose value octets these are.
fn read_parameters(value: &[u8]) -> Result<Parameters, Error>
    ensures { Gives (λ v. v) result (pbe_params_of value.now) }
{
    let mut inner = SliceReader::new(value);
    let salt = PbeSalt::decode(&mut inner)?.octets;
    let iteration_count = u16::decode(&mut inner)?;
    inner.finish()?;
    Ok(Parameters {
        salt,
        iteration_count,
    })
}

impl FixedTag for Parameters {
    ghost TAG = { record { first = 0x30; is_tag = refl } };

    const TAG: Tag = Tag::SEQUENCE;
}

impl<'a> DecodeValue<&'a [u8]> for Parameters {
    ghost Seen = { Parameters };

    ghost seen = { λ v. v };

    ghost value = { λ t. pbe_params_of };

    ghost text = { λ t. PbeParamsOf };

    fn decode_value<R: Reader<&'a [u8]>>(r: &mut R, header: Header) -> Result<Parameters, Error> {
        let mut ahead = *r;
        let value = ahead.read_slice(header.length)?;
        let parameters = read_parameters(value)?;
        *r = ahead;
        Ok(parameters)
    }

    ghost exact = { λ t. pbe_params_of-exact };
}

impl EncodeValue for Parameters {
    ghost content = { pbe_params_content };

    ghost writable = { ArePbeParams };

    fn value_len(&self) -> Result<Length, Error> {
        pair_len(&PbeSalt { octets: self.salt }, &self.iteration_count)
    }

    fn encode_value<W: Writer>(&self, w: &mut W) -> Result<(), Error> {
        write_pair(w, &PbeSalt { octets: self.salt }, &self.iteration_count)
    }
}

impl<'a> Sequence<&'a [u8]> for Parameters {
    ghost sequence = { refl };
}

impl<'a> Canonical<&'a [u8]> for Parameters {
    ghost canonical = { λ v h. pbe_params_canonical v h };
}

impl<'a> Spelled<&'a [u8]> for Parameters {
    ghost spell = { λ b v. b ≡ el 0x30 (pbe_params_content v) };

    ghost spelled = { pbe_params_spelled };
}

impl<'a> Compared<&'a [u8]> for Parameters {
    ghost compared = { λ v w. pbe_params_same v w };
}
