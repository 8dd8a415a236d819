//! Algorithm identifiers: the type, its forms, tests of its identifiers, its text and its order.
ghost use Rattle.std.specs.Prelude.{◌≡◌, ◌≢◌, Some, None, MatchResult, IfOk, IfErr, refl};
ghost use Rattle.asn1_core.specs.Der.{el};
ghost use Rattle.asn1_core.specs.Gives.{Gives, GivesAs, Parses, ParsesIn};
ghost use Rattle.asn1_core.specs.Reading.{whole};
ghost use Rattle.asn1_core.specs.Texts.{Oid, seen_option};
ghost use Rattle.asn1_core.specs.declared.error.Error.TheVariants as below;
ghost use Rattle.der_core.specs.Any.{seen_any};
ghost use Rattle.der_core.specs.Optional.{canon_option, writable_option};
ghost use Rattle.der_core.specs.Order.{octet_cmp};
ghost use Rattle.spki.specs.declared.algorithm.AlgorithmIdentifier.{AlgorithmIdentifier};
ghost use Rattle.spki.specs.declared.error.Error.TheVariants as errors;
ghost use Rattle.spki.specs.Error.{raised};
ghost use Rattle.spki.specs.Algorithm.{algorithm, algorithm_of, AlgorithmOf, algorithm_content, SpellsAlgorithm};
ghost use Rattle.spki.specs.AlgorithmOids.{ParametersOid, Oids, AssertsParameters, AssertsOids};
ghost use Rattle.spki.specs.Seen.{borrowed_algorithm, owned_algorithm, IsAlgorithm};
ghost use Rattle.spki.specs.SameLaws.{algorithm_same};
ghost use Rattle.spki.specs.AlgorithmLaws.{algorithm_of-exact, algorithm_canonical, algorithm_spelled};

use crate::error;
use asn1_core::{Error, Header, Length, ObjectIdentifier, Reader, SliceReader, Tag, Writer};
use der_core::{
    Any, AnyRef, Canonical, Choice, Compared, ContentOrd, Decode, DecodeValue, DerOrd, ElementText,
    Encode, EncodeValue, FixedTag, Sequence, Spelled, ValueOrd, pair_cmp, pair_len, write_pair,
};
use std::alloc::Global;
use std::cmp::Ordering;

/// An algorithm and its parameters (RFC 5280 section 4.1.1.2).
///
/// ```text
/// AlgorithmIdentifier  ::=  SEQUENCE  {
///      algorithm               OBJECT IDENTIFIER,
///      parameters              ANY DEFINED BY algorithm OPTIONAL  }
/// ```
#[derive(Clone, Copy, Debug, PartialEq, Eq, PartialOrd, Ord, Hash, Drop)]
pub struct AlgorithmIdentifier<Params> {
    /// The algorithm.
    pub oid: ObjectIdentifier,
    /// Its parameters, where it has any.
    pub parameters: Option<Params>,
}

/// An algorithm with any parameters, borrowed.
pub type AlgorithmIdentifierRef<'a> = AlgorithmIdentifier<AnyRef<'a>>;

/// An algorithm whose parameters are an identifier, as that of a named curve.
pub type AlgorithmIdentifierWithOid = AlgorithmIdentifier<ObjectIdentifier>;

/// An algorithm with any parameters, in memory of its own.
pub type AlgorithmIdentifierOwned = AlgorithmIdentifier<Any>;

// ---- forms

/// The algorithm whose text these octets are. `Malformed` exactly where they are none.
fn read_whole<'a>(bytes: &'a [u8]) -> Result<AlgorithmIdentifierRef<'a>, Error>
    ensures { Parses below.Malformed IsAlgorithm borrowed_algorithm bytes.now result }
{
    AlgorithmIdentifierRef::from_der(bytes)
}

impl<'a, Params: Choice<&'a [u8]>> TryFrom<&'a [u8]> for AlgorithmIdentifier<Params> {
    type Error = error::Error;

    ghost try_from_gives = { λ b r.
        GivesAs raised ⊥ ⟦<AlgorithmIdentifier<Params> as Decode<&'a [u8]>>⟧.seen r
        (whole (⟦<AlgorithmIdentifier<Params> as Decode<&'a [u8]>>⟧.at) b.now) };

    /// The algorithm whose text these octets are. `Asn1(Malformed)` exactly where they are none, `OidUnknown` where an identifier
    /// is met first that the parameters do not know.
    fn try_from(bytes: &'a [u8]) -> error::Result<AlgorithmIdentifier<Params>> {
        match Self::from_der(bytes) {
            Ok(algorithm) => Ok(algorithm),
            Err(e) => Err(error::Error::from(e)),
        }
    }
}

impl AlgorithmIdentifierOwned {
    /// The algorithm whose text these octets are. `Asn1(Malformed)` exactly where they are none, and `Memory`.
    pub fn from_der(alloc: Global, bytes: &[u8]) -> error::Result<AlgorithmIdentifierOwned>
        ensures { ParsesIn errors.Memory (errors.Asn1 below.Malformed) IsAlgorithm owned_algorithm
            bytes.now result }
    {
        let borrowed = read_whole(bytes)?;
        Ok(borrowed.ref_to_owned(alloc)?)
    }

    /// The same, borrowed.
    pub fn owned_to_ref(&self) -> AlgorithmIdentifierRef<'_>
        ensures { borrowed_algorithm result ≡ owned_algorithm self.now }
    {
        let parameters = match &self.parameters {
            Some(parameters) => Some(parameters.owned_to_ref()),
            None => None,
        };
        AlgorithmIdentifier {
            oid: self.oid,
            parameters,
        }
    }

    /// An equal value in memory of its own. The only refusal is `Memory`.
    pub fn try_clone(&self, alloc: Global) -> error::Result<AlgorithmIdentifierOwned>
        ensures ok { IfOk result (λ a. owned_algorithm a ≡ owned_algorithm self.now) }
        ensures err { IfErr result (λ e. e ≡ errors.Memory) }
    {
        let parameters = match &self.parameters {
            Some(parameters) => Some(parameters.try_clone(alloc)?),
            None => None,
        };
        Ok(AlgorithmIdentifier {
            oid: self.oid,
            parameters,
        })
    }
}

impl<'a> AlgorithmIdentifierRef<'a> {
    /// The same in memory of its own. The only refusal is `Memory`.
    pub fn ref_to_owned(&self, alloc: Global) -> Result<AlgorithmIdentifierOwned, Error>
        ensures ok { IfOk result (λ a. owned_algorithm a ≡ borrowed_algorithm self.now) }
        ensures err { IfErr result (λ e. e ≡ below.Memory) }
    {
        let parameters = match &self.parameters {
            Some(parameters) => Some(parameters.ref_to_owned(alloc)?),
            None => None,
        };
        Ok(AlgorithmIdentifier {
            oid: self.oid,
            parameters,
        })
    }
}

// ---- identifiers

/// That an identifier is this one; `OidUnknown` with the identifier exactly where it is another.
#[tactic(auto, using(asn1_core::specs::Oid::oid_decides))]
fn expect_oid(
    oid: ObjectIdentifier,
    expected_oid: ObjectIdentifier,
) -> error::Result<ObjectIdentifier>
    ensures { MatchResult result (λ o. (o ≡ expected_oid) × (oid ≡ expected_oid))
        (λ e. (e ≡ errors.OidUnknown oid) × (oid ≢ expected_oid)) }
{
    if oid == expected_oid {
        Ok(expected_oid)
    } else {
        Err(error::Error::OidUnknown { oid })
    }
}

impl<Params> AlgorithmIdentifier<Params> {
    /// That the algorithm is this one. `OidUnknown` with the algorithm's identifier exactly where it is another.
    pub fn assert_algorithm_oid(
        &self,
        expected_oid: ObjectIdentifier,
    ) -> error::Result<ObjectIdentifier>
        ensures { MatchResult result (λ o. (o ≡ expected_oid) × (self.now.oid ≡ expected_oid))
            (λ e. (e ≡ errors.OidUnknown self.now.oid) × (self.now.oid ≢ expected_oid)) }
    {
        expect_oid(self.oid, expected_oid)
    }
}

/// The identifier that an element is. `Malformed` exactly where it is none.
fn element_oid(element: &AnyRef<'_>) -> Result<ObjectIdentifier, Error>
    ensures { Parses below.Malformed Oid (λ o. o)
        (el element.now.tag.first element.now.value.now) result }
{
    element.decode_as::<ObjectIdentifier>()
}

impl<'a> AlgorithmIdentifierRef<'a> {
    /// The parameters. `AlgorithmParametersMissing` exactly where there are none.
    pub fn parameters_any(&self) -> error::Result<AnyRef<'a>>
        ensures { MatchResult result
            (λ p. seen_option (λ a. seen_any a.tag.first a.value.now) self.now.parameters
            ≡ Some (seen_any p.tag.first p.value.now))
            (λ e. (e ≡ errors.AlgorithmParametersMissing) × (self.now.parameters ≡ None)) }
    {
        match self.parameters {
            Some(parameters) => Ok(parameters),
            None => Err(error::Error::AlgorithmParametersMissing),
        }
    }

    /// The identifier that the parameters are. `AlgorithmParametersMissing` exactly where there are none, `Asn1(Malformed)`
    /// exactly where they are there and no identifier.
    pub fn parameters_oid(&self) -> error::Result<ObjectIdentifier>
        ensures { ParametersOid
            (seen_option (λ a. seen_any a.tag.first a.value.now) self.now.parameters) result }
    {
        match &self.parameters {
            Some(parameters) => match element_oid(parameters) {
                Ok(oid) => Ok(oid),
                Err(e) => Err(error::Error::from(e)),
            },
            None => Err(error::Error::AlgorithmParametersMissing),
        }
    }

    /// That the parameters are this identifier. Refusals as in `parameters_oid`, and `OidUnknown` with the identifier that the
    /// parameters are exactly where it is another.
    pub fn assert_parameters_oid(
        &self,
        expected_oid: ObjectIdentifier,
    ) -> error::Result<ObjectIdentifier>
        ensures { AssertsParameters expected_oid
            (seen_option (λ a. seen_any a.tag.first a.value.now) self.now.parameters) result }
    {
        let actual = self.parameters_oid()?;
        expect_oid(actual, expected_oid)
    }

    /// That the algorithm and its parameters are these identifiers. `OidUnknown` with the algorithm's identifier exactly where it
    /// is another; else the refusals of `assert_parameters_oid`.
    pub fn assert_oids(
        &self,
        algorithm: ObjectIdentifier,
        parameters: ObjectIdentifier,
    ) -> error::Result<()>
        ensures { AssertsOids self.now.oid
            (seen_option (λ a. seen_any a.tag.first a.value.now) self.now.parameters) algorithm
            parameters result }
    {
        self.assert_algorithm_oid(algorithm)?;
        self.assert_parameters_oid(parameters)?;
        Ok(())
    }

    /// Both identifiers, where parameters that are NULL count as none. `Malformed` exactly where there are others and they are no
    /// identifier.
    pub fn oids(&self) -> Result<(ObjectIdentifier, Option<ObjectIdentifier>), Error>
        ensures { Oids self.now.oid
            (seen_option (λ a. seen_any a.tag.first a.value.now) self.now.parameters) result }
    {
        match &self.parameters {
            None => Ok((self.oid, None)),
            Some(parameters) => {
                if parameters.is_null() {
                    return Ok((self.oid, None));
                }
                Ok((self.oid, Some(element_oid(parameters)?)))
            }
        }
    }
}

// ---- the text

/// The algorithm whose value octets these are.
fn algorithm_in<'a, Params: Choice<&'a [u8]>>(
    value: &'a [u8],
) -> Result<AlgorithmIdentifier<Params>, Error>
    ensures { Gives (λ a. algorithm a.oid (seen_option Params.seen a.parameters)) result
        (algorithm_of Params.can Params.at value.now) }
{
    let mut inner = SliceReader::new(value);
    let oid = ObjectIdentifier::decode(&mut inner)?;
    let parameters = Option::<Params>::decode(&mut inner)?;
    inner.finish()?;
    Ok(AlgorithmIdentifier { oid, parameters })
}

impl<Params> FixedTag for AlgorithmIdentifier<Params> {
    ghost TAG = { record { first = 0x30; is_tag = refl } };

    const TAG: Tag = Tag::SEQUENCE;
}

impl<'a, Params: Choice<&'a [u8]>> DecodeValue<&'a [u8]> for AlgorithmIdentifier<Params> {
    ghost Seen = { AlgorithmIdentifier Params.Seen };

    ghost seen = { λ a. algorithm a.oid (seen_option Params.seen a.parameters) };

    ghost value = { λ t. algorithm_of Params.can Params.at };

    ghost text = { λ t. AlgorithmOf Params.text };

    fn decode_value<R: Reader<&'a [u8]>>(
        r: &mut R,
        header: Header,
    ) -> Result<AlgorithmIdentifier<Params>, Error> {
        let mut ahead = *r;
        let value = ahead.read_slice(header.length)?;
        let algorithm = algorithm_in(value)?;
        *r = ahead;
        Ok(algorithm)
    }

    ghost exact = { λ t. algorithm_of-exact Params.can Params.text Params.at Params.exact
        Params.whole };
}

impl<Params: Encode> EncodeValue for AlgorithmIdentifier<Params> {
    ghost content = { λ a. algorithm_content Params.canon a.oid a.parameters };

    ghost writable = { λ a. writable_option Params.writable a.parameters };

    fn value_len(&self) -> Result<Length, Error> {
        pair_len(&self.oid, &self.parameters)
    }

    fn encode_value<W: Writer>(&self, w: &mut W) -> Result<(), Error> {
        write_pair(w, &self.oid, &self.parameters)
    }
}

impl<'a, Params: Choice<&'a [u8]> + Encode> Sequence<&'a [u8]> for AlgorithmIdentifier<Params> {
    ghost sequence = { refl };
}

impl<'a, Params: Canonical<&'a [u8]>> Canonical<&'a [u8]> for AlgorithmIdentifier<Params> {
    ghost canonical = { λ a h. algorithm_canonical Params.seen Params.text Params.canon
        Params.writable Params.canonical a.oid a.parameters h };
}

impl<'a, Params: Spelled<&'a [u8]>> Spelled<&'a [u8]> for AlgorithmIdentifier<Params> {
    ghost spell = { λ b a. SpellsAlgorithm Params.spell b a.oid a.parameters };

    ghost spelled = { λ b a. algorithm_spelled Params.seen Params.text Params.writable Params.spell
        Params.spelled b a.oid a.parameters };
}

impl<'a, Params: Choice<&'a [u8]> + Compared<&'a [u8]>> Compared<&'a [u8]>
    for AlgorithmIdentifier<Params> {
    ghost compared = { λ v w. algorithm_same Params.Decode.seen Params.eq Params.compared v.oid
        w.oid v.parameters w.parameters };
}

// ---- the order

impl<Params: DerOrd + ElementText> ValueOrd for AlgorithmIdentifier<Params> {
    ghost value_order = { λ a b. octet_cmp (algorithm_content Params.canon a.oid a.parameters)
        (algorithm_content Params.canon b.oid b.parameters) };

    fn value_cmp(&self, other: &AlgorithmIdentifier<Params>) -> Result<Ordering, Error> {
        pair_cmp(&self.oid, &self.parameters, &other.oid, &other.parameters)
    }
}

impl<Params: DerOrd + ElementText> ContentOrd for AlgorithmIdentifier<Params> {
    ghost ordered = { λ a b. refl };
}
