//! Orders of algorithms and public keys, by their octets.
use super::{SHORT, read};
use der_core::{DerOrd, ValueOrd};
use spki::AlgorithmIdentifierRef;
use std::cmp::Ordering;
use std::process::Abort;

/// How two values are ordered, by their values and by their texts.
fn orders<T: ValueOrd + DerOrd>(rt: &impl Abort, one: &T, other: &T) -> (Ordering, Ordering) {
    let values = one.value_cmp(other).expect(rt, "an order");
    (values, one.der_cmp(other).expect(rt, "an order"))
}

/// Whether the algorithms of two texts are ordered so.
fn algorithms_stand(
    rt: &impl Abort,
    one: &[u8],
    other: &[u8],
    order: (Ordering, Ordering),
) -> bool {
    let one = AlgorithmIdentifierRef::try_from(one).expect(rt, "an algorithm");
    let other = AlgorithmIdentifierRef::try_from(other).expect(rt, "an algorithm");
    orders(rt, &one, &other) == order
}

/// Whether the public keys of two texts are ordered so.
fn keys_stand(rt: &impl Abort, one: &[u8], other: &[u8], order: (Ordering, Ordering)) -> bool {
    orders(rt, &read(rt, one), &read(rt, other)) == order
}

/// The algorithm of Ed25519.
const ED25519: &[u8] = b"\x30\x05\x06\x03\x2b\x65\x70";

const LESS: (Ordering, Ordering) = (Ordering::Less, Ordering::Less);

const EQUAL: (Ordering, Ordering) = (Ordering::Equal, Ordering::Equal);

#[test]
fn orders_of_algorithms(rt: HostRuntime) {
    let with_null = b"\x30\x07\x06\x03\x2b\x65\x70\x05\x00";
    // a shorter identifier with parameters: 06 02 is before 06 03, 30 06 after 30 05
    let shorter = b"\x30\x06\x06\x02\x2a\x03\x05\x00";
    assert!(rt;
        algorithms_stand(&rt, ED25519, ED25519, EQUAL)
            && algorithms_stand(&rt, ED25519, with_null, LESS)
            && algorithms_stand(&rt, shorter, ED25519, (Ordering::Less, Ordering::Greater))
    );
}

#[test]
fn orders_of_keys(rt: HostRuntime) {
    // a shorter and greater key: 00 ff is after 00 01, 30 0c before 30 0d
    let greater = b"\x30\x0c\x30\x05\x06\x03\x2b\x65\x70\x03\x03\x00\xff\xff";
    // the algorithm of X25519, which is before that of Ed25519
    let x25519 = b"\x30\x0d\x30\x05\x06\x03\x2b\x65\x6e\x03\x04\x00\x0f\x0f\x0f";
    assert!(rt;
        keys_stand(&rt, SHORT, SHORT, EQUAL)
            && keys_stand(&rt, greater, SHORT, (Ordering::Greater, Ordering::Less))
            && keys_stand(&rt, x25519, SHORT, LESS)
    );
}
