//! Salts.
ghost use Rattle.std.specs.Prelude.{◌≡◌, ◌<◌, ◌≤◌, ℕ, List, length, IfOk, IfErr, MatchResult, nat_eq, refl};
ghost use Rattle.std.specs.Cmp.Lexicographic.{pointwise};
ghost use Rattle.std.specs.Cmp.Rules.{comparing};
ghost use Rattle.std.proofs.Common.{rules};
ghost use Rattle.asn1_core.specs.Der.{octets};
ghost use Rattle.der_core.specs.SameLaws.{octets_same};
ghost use Rattle.pkcs5.specs.Salt.{IsSalt, SaltOf};
ghost use Rattle.pkcs5.specs.Pbkdf2ParamsLaws.{salt_of-exact, salt_canonical, salt_spelled};
ghost use Rattle.pkcs5.specs.Reading.{salt_of};

use asn1_core::{Error, Header, Length, Reader, Tag, Writer};
use der_core::{Canonical, Compared, DecodeValue, EncodeValue, FixedTag, Spelled};
use octet_core::ShortOctets;
use std::convert::AsSlice;
use std::marker::Model;

/// A salt (RFC 8018 section 4.1) of at most 32 octets, as OCTET STRING.
#[derive(Clone, Copy, Debug)]
pub struct Salt {
    octets: ShortOctets<32>,
}

impl Model for Salt {
    ghost use Rattle.std.specs.Prelude.{ℕ, List};

    ghost Value = { List ℕ };

    ghost view = { λ s. s.octets };

    ghost inverse = { λ d. record { octets = d } };
}

impl Salt {
    /// The largest number of octets of a salt.
    pub const MAX_LEN: usize = 32;

    /// The salt of these octets. `Malformed` exactly where they are more than 32.
    pub fn new(octets: &[u8]) -> Result<Salt, Error>
        ensures ok { IfOk result (λ s. (s ≡ octets.now) × (length octets.now ≤ 32)) }
        ensures err { IfErr result (λ e. (e ≡ Error.Malformed) × (32 < length octets.now)) }
    {
        if octets.len() > Self::MAX_LEN {
            return Err(Error::Malformed);
        }
        Ok(Salt {
            octets: ShortOctets::new(octets),
        })
    }

    /// The salt of these 16 octets.
    pub(crate) fn of_16(octets: &[u8; 16]) -> Salt
        ensures { result ≡ octets.now }
    {
        Salt {
            octets: ShortOctets::new(octets),
        }
    }

    /// The octets.
    pub fn as_bytes(&self) -> &[u8]
        ensures value { result.now ≡ self.now }
        ensures short { length self.now ≤ 32 }
    {
        self.octets.as_slice()
    }

    /// The number of octets.
    pub fn len(&self) -> Length
        ensures value { result.value ≡ length self.now }
        ensures short { length self.now ≤ 32 }
    {
        Length {
            value: self.octets.len() as u32,
        }
    }
}

impl PartialEq for Salt {
    ghost eq = { pointwise nat_eq };

    ghost laws = { Prim.search (comparing, rules) };

    fn eq(&self, other: &Salt) -> bool {
        self.octets == other.octets
    }
}

impl Eq for Salt {
    ghost laws = { Prim.search (comparing, rules) };
}

impl AsSlice<u8> for Salt {
    ghost items = { λ s. s };

    fn as_slice(&self) -> &[u8] {
        self.as_bytes()
    }
}

/// The salt of these octets. `Malformed` exactly where they are more than 32.
impl TryFrom<&[u8]> for Salt {
    type Error = Error;

    ghost use Rattle.asn1_core.specs.declared.error.Error.TheVariants.{Malformed};

    ghost try_from_gives = { λ b r. MatchResult r (λ s. (s ≡ b.now)
        × (length b.now ≤ 32)) (λ e. (e ≡ Malformed) × (32 < length b.now)) };

    fn try_from(octets: &[u8]) -> Result<Salt, Error> {
        Salt::new(octets)
    }
}

impl FixedTag for Salt {
    ghost TAG = { record { first = 4; is_tag = refl } };

    const TAG: Tag = Tag::OCTET_STRING;
}

impl<'a> DecodeValue<&'a [u8]> for Salt {
    ghost Seen = { List ℕ };

    ghost seen = { λ s. s };

    ghost value = { λ t. salt_of };

    ghost text = { λ t. SaltOf };

    fn decode_value<R: Reader<&'a [u8]>>(r: &mut R, header: Header) -> Result<Salt, Error> {
        let mut ahead = *r;
        let octets = ahead.read_slice(header.length)?;
        let salt = Salt::new(octets)?;
        *r = ahead;
        Ok(salt)
    }

    ghost exact = { λ t. salt_of-exact };
}

impl EncodeValue for Salt {
    ghost content = { λ s. s };

    ghost writable = { IsSalt };

    fn value_len(&self) -> Result<Length, Error> {
        Ok(self.len())
    }

    fn encode_value<W: Writer>(&self, w: &mut W) -> Result<(), Error> {
        w.write(self.as_bytes())
    }
}

impl<'a> Canonical<&'a [u8]> for Salt {
    ghost canonical = { salt_canonical };
}

impl<'a> Spelled<&'a [u8]> for Salt {
    ghost spell = { λ b s. b ≡ octets s };

    ghost spelled = { salt_spelled };
}

impl<'a> Compared<&'a [u8]> for Salt {
    ghost compared = { octets_same };
}
