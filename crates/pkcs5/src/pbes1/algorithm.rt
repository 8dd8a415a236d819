//! Algorithms of PBES1.
ghost use Rattle.std.specs.Prelude.{◌≡◌, refl};
ghost use Rattle.asn1_core.specs.Der.{el};
ghost use Rattle.asn1_core.specs.Gives.{Gives};
ghost use Rattle.asn1_core.specs.Oid.{oid_octets};
ghost use Rattle.spki.specs.Seen.{borrowed_any, borrowed_algorithm};
ghost use Rattle.pkcs5.specs.Pbes1.{ArePbeParams, PbeOf, pbe_content, pbe_oid};
ghost use Rattle.pkcs5.specs.Pbes1Laws.{pbe_of-exact, pbe_canonical, pbe_spelled};
ghost use Rattle.pkcs5.specs.SameLaws.{pbe_same};
ghost use Rattle.pkcs5.specs.declared.pbes1.algorithm.Algorithm.{Algorithm};
ghost use Rattle.pkcs5.specs.Reading.{pbe_in, pbe_of, pbe_with};

use crate::pbes1::encryption_scheme::EncryptionScheme;
use crate::pbes1::parameters::Parameters;
use asn1_core::{Error, Header, Length, ObjectIdentifier, Reader, Tag, Writer};
use der_core::{
    AnyRef, Canonical, Compared, DecodeValue, EncodeValue, FixedTag, Sequence, Spelled, pair_len,
    write_pair,
};
use spki::{AlgorithmIdentifierRef, read_algorithm_as};

/// A scheme of PBES1 with its parameters (RFC 8018 appendix A.3), as an algorithm.
#[derive(Clone, Copy, Debug, PartialEq, Eq, Drop)]
pub struct Algorithm {
    /// The scheme.
    pub encryption: EncryptionScheme,
    /// Its parameters.
    pub parameters: Parameters,
}

impl Algorithm {
    /// The identifier of the scheme.
    pub fn oid(&self) -> ObjectIdentifier
        ensures { oid_octets result ≡ pbe_oid self.now.encryption }
    {
        self.encryption.oid()
    }
}

/// The algorithm of this identifier with these parameters. `Malformed` exactly where it is none.
#[tactic(auto, unfolding(crate::specs::Reading::pbe_with))]
pub(crate) fn algorithm_with(
    oid: ObjectIdentifier,
    parameters: &AnyRef<'_>,
) -> Result<Algorithm, Error>
    ensures { Gives (λ a. a) result (pbe_with oid (borrowed_any parameters.now)) }
{
    let Ok(encryption) = EncryptionScheme::try_from(oid) else {
        return Err(Error::Malformed);
    };
    let parameters = Parameters::try_from(*parameters)?;
    Ok(Algorithm {
        encryption,
        parameters,
    })
}

impl TryFrom<AlgorithmIdentifierRef<'_>> for Algorithm {
    type Error = Error;

    ghost try_from_gives = { λ a r. Gives (λ v. v) r (pbe_in (borrowed_algorithm a)) };

    /// The algorithm of PBES1 that an algorithm is. `Malformed` exactly where it is none.
    #[tactic(auto, unfolding(crate::specs::Reading::pbe_in))]
    fn try_from(algorithm: AlgorithmIdentifierRef<'_>) -> Result<Algorithm, Error> {
        match &algorithm.parameters {
            Some(parameters) => algorithm_with(algorithm.oid, parameters),
            None => Err(Error::Malformed),
        }
    }
}

impl FixedTag for Algorithm {
    ghost TAG = { record { first = 0x30; is_tag = refl } };

    const TAG: Tag = Tag::SEQUENCE;
}

impl<'a> DecodeValue<&'a [u8]> for Algorithm {
    ghost Seen = { Algorithm };

    ghost seen = { λ a. a };

    ghost value = { λ t. pbe_of };

    ghost text = { λ t. PbeOf };

    /// `Malformed` exactly where the text is not that of an algorithm of PBES1.
    fn decode_value<R: Reader<&'a [u8]>>(r: &mut R, header: Header) -> Result<Algorithm, Error> {
        read_algorithm_as(r, header)
    }

    ghost exact = { λ t. pbe_of-exact };
}

impl EncodeValue for Algorithm {
    ghost content = { pbe_content };

    ghost writable = { λ a. ArePbeParams a.parameters };

    fn value_len(&self) -> Result<Length, Error> {
        pair_len(&self.oid(), &self.parameters)
    }

    fn encode_value<W: Writer>(&self, w: &mut W) -> Result<(), Error> {
        write_pair(w, &self.oid(), &self.parameters)
    }
}

impl<'a> Sequence<&'a [u8]> for Algorithm {
    ghost sequence = { refl };
}

impl<'a> Canonical<&'a [u8]> for Algorithm {
    ghost canonical = { λ a h. pbe_canonical a h };
}

impl<'a> Spelled<&'a [u8]> for Algorithm {
    ghost spell = { λ b a. b ≡ el 0x30 (pbe_content a) };

    ghost spelled = { pbe_spelled };
}

impl<'a> Compared<&'a [u8]> for Algorithm {
    ghost compared = { λ v w. pbe_same v w };
}
