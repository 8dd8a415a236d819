//! Versions of private keys.
ghost use Rattle.std.specs.Prelude.{◌≡◌, ◌↔◌, ℕ, refl, IsTrue};
ghost use Rattle.asn1_core.specs.Der.{shortest, uint};
ghost use Rattle.asn1_core.specs.Reading.{uint_of};
ghost use Rattle.asn1_core.specs.Texts.{UintOf};
ghost use Rattle.asn1_core.specs.NumberLaws.{uint_of-exact};
ghost use Rattle.der_core.specs.StringLaws.{uint_canonical};
ghost use Rattle.pkcs8.specs.declared.version.Version.TheVariants.{V2};
ghost use Rattle.pkcs8.specs.Version.{version_number, IsVersionOf};
ghost use Rattle.pkcs8.specs.VersionLaws.{version_small, version_same, version_spelled};

use crate::error::Error;
use asn1_core::{
    Header, Length, Reader, Tag, Writer, uint_value, uint_value_len, write_uint_value,
};
use der_core::{Canonical, Compared, DecodeValue, EncodeValue, FixedTag, Spelled};

/// The version of a private key (RFC 5958 section 2), an INTEGER.
///
/// ```text
/// Version ::= INTEGER { v1(0), v2(1) } (v1, ..., v2)
/// ```
#[derive(Clone, Copy, Debug, PartialEq, Eq, Drop)]
pub enum Version {
    /// Without a public key.
    V1 = 0,
    /// With one.
    V2 = 1,
}

impl Version {
    /// Whether a private key of this version has a public key.
    pub fn has_public_key(self) -> bool
        ensures { IsTrue result ↔ (self ≡ V2) }
    {
        match self {
            Version::V1 => false,
            Version::V2 => true,
        }
    }
}

impl TryFrom<u8> for Version {
    type Error = Error;

    ghost try_from_gives = { IsVersionOf };

    /// The version of this number. `Asn1(Malformed)` exactly where it is over 1.
    fn try_from(number: u8) -> Result<Version, Error> {
        match number {
            0 => Ok(Version::V1),
            1 => Ok(Version::V2),
            _ => Err(Error::Asn1(asn1_core::Error::Malformed)),
        }
    }
}

impl From<Version> for u8 {
    ghost from_gives = { λ v n. n ≡ version_number v };

    fn from(version: Version) -> u8 {
        match version {
            Version::V1 => 0,
            Version::V2 => 1,
        }
    }
}

impl FixedTag for Version {
    ghost TAG = { record { first = 2; is_tag = refl } };

    const TAG: Tag = Tag::INTEGER;
}

impl<'a> DecodeValue<&'a [u8]> for Version {
    ghost Seen = { ℕ };

    ghost seen = { version_number };

    ghost value = { λ t. uint_of 1 };

    ghost text = { λ t. UintOf 1 };

    fn decode_value<R: Reader<&'a [u8]>>(
        r: &mut R,
        header: Header,
    ) -> Result<Version, asn1_core::Error> {
        let mut ahead = *r;
        let octets = ahead.read_slice(header.length)?;
        let number = uint_value(1, octets)?;
        *r = ahead;
        if number == 0 {
            Ok(Version::V1)
        } else {
            Ok(Version::V2)
        }
    }

    ghost exact = { λ t. uint_of-exact 1 };
}

impl EncodeValue for Version {
    ghost content = { λ v. shortest (version_number v) };

    ghost writable = { λ v. Unit {0} };

    fn value_len(&self) -> Result<Length, asn1_core::Error> {
        Ok(uint_value_len(u64::from(u8::from(*self))))
    }

    fn encode_value<W: Writer>(&self, w: &mut W) -> Result<(), asn1_core::Error> {
        write_uint_value(w, u64::from(u8::from(*self)))
    }
}

impl<'a> Canonical<&'a [u8]> for Version {
    ghost canonical = { λ v h. uint_canonical 1 (version_number v) (version_small v) };
}

impl<'a> Spelled<&'a [u8]> for Version {
    ghost spell = { λ b v. b ≡ uint (version_number v) };

    ghost spelled = { version_spelled };
}

impl<'a> Compared<&'a [u8]> for Version {
    ghost compared = { version_same ⟦<Version as PartialEq>⟧.eq refl refl refl refl };
}
