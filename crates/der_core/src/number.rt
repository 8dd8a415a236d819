//! Numbers: INTEGERs that are not negative and fit their types.
ghost use Rattle.std.specs.Prelude.{◌≡◌, ◌≤◌, ◌+◌, ℕ, Bool, true, length, refl, IfOk};
ghost use Rattle.asn1_core.specs.Reading.{valued, uint_of};
ghost use Rattle.asn1_core.specs.Texts.{UintOf};
ghost use Rattle.asn1_core.specs.Gives.{ReadsAs};
ghost use Rattle.asn1_core.specs.NumberLaws.{uint_of-exact};
ghost use Rattle.asn1_core.specs.Der.{shortest, uint};
ghost use Rattle.der_core.specs.StringLaws.{uint_canonical, uint_spelled};
ghost use Rattle.der_core.specs.SameLaws.{number_same};
ghost use Rattle.der_core.specs.Order.{octet_cmp};

use crate::decode::DecodeValue;
use crate::encode::EncodeValue;
use crate::laws::{Canonical, Compared, Spelled};
use crate::order::{ContentOrd, ValueOrd};
use crate::tagged::FixedTag;
use asn1_core::{
    Error, Header, Length, Reader, Tag, Writer, number_octets, uint_value, uint_value_len,
    write_uint_value,
};
use std::cmp::Ordering;

/// The value of a number of at most `max`.
fn number_value<'a, R: Reader<&'a [u8]>>(r: &mut R, header: Header, max: u64) -> Result<u64, Error>
    ensures read { ReadsAs (valued (uint_of max) header.length.value) (λ n. n) (R.left r.old)
        (R.left r.new) result }
    ensures place { R.taken r.new + length (R.left r.new) ≡ R.taken r.old + length (R.left r.old) }
    ensures small { IfOk result (λ n. n ≤ max) }
{
    let mut ahead = *r;
    let octets = ahead.read_slice(header.length)?;
    let n = uint_value(max, octets)?;
    *r = ahead;
    Ok(n)
}

/// The order of the value octets of two numbers, which is not that of the numbers where one has more octets.
fn number_cmp(a: u64, b: u64) -> Ordering
    ensures { result ≡ octet_cmp (shortest a) (shortest b) }
{
    let (one, from) = number_octets(a);
    let (other, other_from) = number_octets(b);
    one[from..].cmp(&other[other_from..])
}

/// A type of numbers from 0 to `MAX`. It is not for other crates: the four types below are all that have it.
pub trait Number: Copy + Drop + PartialEq {
    ghost MAX: { ℕ };

    ghost number: { Self → ℕ };

    /// The largest number.
    const MAX: u64;

    /// The number.
    fn widened(self) -> u64
        ensures value { result ≡ number self }
        ensures small { result ≤ Self.MAX };

    /// The value of this number.
    fn narrowed(n: u64) -> Self
        requires { n ≤ Self.MAX }
        ensures { number result ≡ n };

    ghost told: { (v w : Self) → (Self.number v ≡ Self.number w → Self.eq v w ≡ true)
        × (Self.eq v w ≡ true → Self.number v ≡ Self.number w) };
}

impl Number for u8 {
    ghost MAX = { 255 };

    ghost number = { λ n. n };

    const MAX: u64 = 255;

    fn widened(self) -> u64 {
        u64::from(self)
    }

    fn narrowed(n: u64) -> u8 {
        n as u8
    }

    ghost told = { number_same };
}

impl Number for u16 {
    ghost MAX = { 65535 };

    ghost number = { λ n. n };

    const MAX: u64 = 65535;

    fn widened(self) -> u64 {
        u64::from(self)
    }

    fn narrowed(n: u64) -> u16 {
        n as u16
    }

    ghost told = { number_same };
}

impl Number for u32 {
    ghost MAX = { 4294967295 };

    ghost number = { λ n. n };

    const MAX: u64 = 4294967295;

    fn widened(self) -> u64 {
        u64::from(self)
    }

    fn narrowed(n: u64) -> u32 {
        n as u32
    }

    ghost told = { number_same };
}

impl Number for u64 {
    ghost MAX = { 18446744073709551615 };

    ghost number = { λ n. n };

    const MAX: u64 = 18446744073709551615;

    fn widened(self) -> u64 {
        self
    }

    fn narrowed(n: u64) -> u64 {
        n
    }

    ghost told = { number_same };
}

impl<N: Number> FixedTag for N {
    ghost TAG = { record { first = 2; is_tag = refl } };

    const TAG: Tag = Tag::INTEGER;
}

impl<'a, N: Number> DecodeValue<&'a [u8]> for N {
    ghost Seen = { ℕ };

    ghost seen = { N.number };

    ghost value = { λ t. uint_of N.MAX };

    ghost text = { λ t. UintOf N.MAX };

    fn decode_value<R: Reader<&'a [u8]>>(r: &mut R, header: Header) -> Result<N, Error> {
        Ok(N::narrowed(number_value(r, header, N::MAX)?))
    }

    ghost exact = { λ t. uint_of-exact N.MAX };
}

impl<N: Number> EncodeValue for N {
    ghost content = { λ n. shortest (N.number n) };

    ghost writable = { λ n. N.number n ≤ N.MAX };

    fn value_len(&self) -> Result<Length, Error> {
        Ok(uint_value_len(self.widened()))
    }

    fn encode_value<W: Writer>(&self, w: &mut W) -> Result<(), Error> {
        write_uint_value(w, self.widened())
    }
}

impl<'a, N: Number> Canonical<&'a [u8]> for N {
    ghost canonical = { λ n h. uint_canonical N.MAX (N.number n) h };
}

impl<'a, N: Number> Spelled<&'a [u8]> for N {
    ghost spell = { λ b n. b ≡ uint (N.number n) };

    ghost spelled = { λ b n. uint_spelled N.MAX b (N.number n) };
}

impl<N: Number> ValueOrd for N {
    ghost value_order = { λ a b. octet_cmp (shortest (N.number a)) (shortest (N.number b)) };

    fn value_cmp(&self, other: &N) -> Result<Ordering, Error> {
        Ok(number_cmp(self.widened(), other.widened()))
    }
}

impl<N: Number> ContentOrd for N {
    ghost ordered = { λ a b. refl };
}

impl<'a, N: Number> Compared<&'a [u8]> for N {
    ghost compared = { N.told };
}
