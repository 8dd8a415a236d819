//! Laws of types that are read and written, each a trait with no function, which generic code takes as a bound.
ghost use Rattle.std.specs.Prelude.{◌≡◌, ◌↔◌, ◌⊎◌, ◌++◌, ℕ, List, length, true, Ok};
ghost use Rattle.asn1_core.specs.Reading.{whole};
ghost use Rattle.asn1_core.specs.Gives.{Gives};
ghost use Rattle.asn1_core.specs.Der.{el, IsShort};
ghost use Rattle.asn1_core.specs.Sets.{Other};
ghost use Rattle.der_core.specs.Tied.{Tied};
ghost use Rattle.der_core.specs.TiedLaws.{tied_fixed};

use crate::decode::{Choice, Decode, DecodeValue};
use crate::encode::Encode;
use crate::tagged::FixedTag;
use asn1_core::{Error, Header, Reader};
use std::convert::AsSlice;

/// A type that is read by its tag and value, or whole, with one result.
pub trait WholeElement<S: AsSlice<u8>>: Choice<S> + DecodeValue<S> {
    ghost tied: { Tied Self.Decode.seen Self.at Self.can Self.DecodeValue.seen Self.value };
}

/// A type of which what is written is a text of the value.
pub trait Canonical<S: AsSlice<u8>>: Choice<S> + Encode {
    ghost canonical: { (v : Self) → Self.writable v → Self.text (Self.canon v) (Self.seen v) };
}

/// A type whose texts are known by the values that they are of: `spell` says which octets spell a value.
///
/// The law `spelled`: octets are a text of the value exactly where it can be written and they spell it.
pub trait Spelled<S: AsSlice<u8>>: Canonical<S> {
    ghost spell: { List ℕ → Self → Type 0 };

    ghost spelled: { (b : List ℕ) (v : Self) → Self.text b (Self.seen v)
        ↔ (Self.writable v × spell b v) };
}

/// A type whose values are equal exactly where the same is seen of them.
pub trait Compared<S: AsSlice<u8>>: Decode<S> + PartialEq {
    ghost compared: { (v w : Self) → (Self.seen v ≡ Self.seen w → Self.eq v w ≡ true)
        × (Self.eq v w ≡ true → Self.seen v ≡ Self.seen w) };
}

impl<'a, T: DecodeValue<&'a [u8]> + FixedTag> WholeElement<&'a [u8]> for T {
    ghost tied = { tied_fixed T.seen T.TAG.first T.value };
}

/// What reading the whole element returns, of whose header these value octets are all that is left.
pub fn read_as<S: AsSlice<u8>, R: Reader<S>, T: WholeElement<S>>(
    r: &mut R,
    header: Header,
) -> Result<T, Error>
    requires { header.length.value ≡ length (R.left r.old) }
    ensures { Gives T.Decode.seen result (whole T.at (el header.tag.first (R.left r.old))) }
{
    if !T::can_decode(header.tag) {
        return Err(Error::Malformed);
    }
    T::decode_value(r, header)
}

/// A law: a text is read exactly where the words of its type have it, and it has at most one value.
pub fn texts_are_read<S: AsSlice<u8>, T: Choice<S>>(bytes: &[u8])
    ensures { (v : T.Seen) → (whole T.at bytes.now ≡ Ok v)
        ↔ (T.text bytes.now v × IsShort bytes.now) }
{
    let _ = bytes;
}

/// A law: the octets that are read as a value are those that are written of it and its other spellings, of at most 2^32 - 1 octets.
pub fn exact_spellings<S: AsSlice<u8>, T: Spelled<S>>(bytes: &[u8], v: &T)
    ensures written { whole T.at bytes.now ≡ Ok (T.seen v.now) → T.writable v.now }
    ensures exact { T.writable v.now → (whole T.at bytes.now ≡ Ok (T.seen v.now))
        ↔ (IsShort bytes.now
        × ((bytes.now ≡ T.canon v.now) ⊎ Other T.spell T.canon bytes.now v.now)) }
{
    let _ = bytes;
    let _ = v;
}

/// A law: no text begins another one, and a text has one value.
pub fn texts_are_parted<S: AsSlice<u8>, T: Choice<S>>()
    ensures { (b c x y : List ℕ) (v w : T.Seen) → T.text b v → T.text c w → IsShort b → IsShort c
        → b ++ x ≡ c ++ y → (b ≡ c) × (v ≡ w) × (x ≡ y) }
{}

/// A law: what is written of a value is read as that value.
pub fn canon_is_read<S: AsSlice<u8>, T: Canonical<S>>(v: &T)
    ensures { T.writable v.now → IsShort (T.canon v.now) → whole T.at (T.canon v.now)
        ≡ Ok (T.seen v.now) }
{
    let _ = v;
}
