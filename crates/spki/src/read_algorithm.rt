//! Values that are made of an algorithm as it is read.
ghost use Rattle.std.specs.Prelude.{◌≡◌, ◌+◌, length, Result};
ghost use Rattle.asn1_core.specs.Gives.{Gives, ReadsAs};
ghost use Rattle.asn1_core.specs.Reading.{Fault, valued};
ghost use Rattle.spki.specs.Made.{IsMaking, made_of};
ghost use Rattle.spki.specs.Seen.{AnyAlgorithm};

use crate::algorithm::{AlgorithmIdentifier, AlgorithmIdentifierRef};
use asn1_core::{Error, Header, ObjectIdentifier, Reader, SliceReader};
use der_core::{AnyRef, Decode};

/// What `T::try_from` makes of the algorithm whose value octets these are.
fn read_value_as<'a, T>(value: &'a [u8]) -> Result<T, Error>
where
    T: TryFrom<AlgorithmIdentifierRef<'a>, Error = Error> + Drop,
    ensures { (make : AnyAlgorithm → Result T Fault) → IsMaking T.try_from_gives make
        → Gives (λ v. v) result (made_of make value.now) }
{
    let mut inner = SliceReader::new(value);
    let oid = ObjectIdentifier::decode(&mut inner)?;
    let parameters = Option::<AnyRef<'a>>::decode(&mut inner)?;
    let made = T::try_from(AlgorithmIdentifier { oid, parameters })?;
    inner.finish()?;
    Ok(made)
}

/// Takes the value octets of an algorithm after this header, and returns what `T::try_from` makes of it: the body of
/// `decode_value` for a type whose text is an algorithm. `Malformed` where the identifier or the parameters are none;
/// then what `T::try_from` refuses; then `Malformed` where octets are left after the parameters. A refusal does not
/// move the reader.
pub fn read_algorithm_as<'a, T, R>(r: &mut R, header: Header) -> Result<T, Error>
where
    T: TryFrom<AlgorithmIdentifierRef<'a>, Error = Error> + Drop,
    R: Reader<&'a [u8]>,
    ensures read { (make : AnyAlgorithm → Result T Fault) → IsMaking T.try_from_gives make
        → ReadsAs (valued (made_of make) header.length.value) (λ v. v) (R.left r.old)
        (R.left r.new) result }
    ensures place { R.taken r.new + length (R.left r.new)
        ≡ R.taken r.old + length (R.left r.old) }
{
    let mut ahead = *r;
    let value = ahead.read_slice(header.length)?;
    let made = read_value_as(value)?;
    *r = ahead;
    Ok(made)
}
