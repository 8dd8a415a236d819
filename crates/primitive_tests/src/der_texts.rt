//! Octets that the standard's grammar takes or refuses, X.690's own examples among them.
use crate::answers::prints;
use asn1_core::{
    Error, ObjectIdentifier, Reader, SliceReader, Tag, read_bmp, read_ia5, read_identifier,
    read_inner, read_raw, read_uint,
};
use std::alloc::Global;

/// Octets, the greatest number that is taken, and the number that they are read as, if they are one.
static NUMBERS: [(&[u8], u64, Option<u64>); 8] = [
    (&[2, 2, 0, 0xff], u64::MAX, Some(255)),
    (&[2, 1, 0], 0xff, Some(0)),
    (
        &[2, 9, 0, 0xff, 0xff, 0xff, 0xff, 0xff, 0xff, 0xff, 0xff],
        u64::MAX,
        Some(u64::MAX),
    ),
    (&[2, 0], u64::MAX, None),
    (&[2, 2, 0, 1], u64::MAX, None),
    (&[2, 1, 0xff], u64::MAX, None),
    (&[2, 2, 1, 0], 0xff, None),
    (&[0x82, 1, 0], 0xff, None),
];

/// Whether the octets are read as this number of at most `max`, or refused where it is none.
fn is_uint(octets: &[u8], max: u64, number: Option<u64>) -> bool {
    let mut r = SliceReader::new(octets);
    read_uint(&mut r, max) == number.ok_or(Error::Malformed)
}

#[test]
fn integers_have_the_fewest_octets(rt: HostRuntime) {
    for (octets, max, number) in &NUMBERS {
        assert!(rt; is_uint(octets, *max, *number), "{octets:?}");
    }
}

/// Whether the reader is refused an element of this tag, and stays where it was.
fn is_refused(octets: &[u8], tag: Tag) -> bool {
    let mut r = SliceReader::new(octets);
    read_inner(&mut r, tag).is_err() && r.position() == 0
}

#[test]
fn lengths_have_the_fewest_octets(rt: HostRuntime) {
    assert!(rt;
        is_refused(&[4, 0x81, 5, 1, 2, 3, 4, 5], Tag::OCTET_STRING)
            && is_refused(&[0x30, 0x80, 0, 0], Tag::SEQUENCE)
    );
}

#[test]
fn an_element_is_read_inside(rt: HostRuntime) {
    let mut r = SliceReader::new(&[4, 5, 1, 2, 3, 4, 5, 9]);
    let value = read_inner(&mut r, Tag::OCTET_STRING).expect(&rt, "an octet string");
    assert!(rt; value.rest == &[1, 2, 3, 4, 5][..] && r.rest == &[9][..] && r.position() == 7);
}

#[test]
fn a_length_of_128_takes_two_octets(rt: HostRuntime) {
    let mut large = [7; 131];
    large[0] = 4;
    large[1] = 0x81;
    large[2] = 0x80;
    let mut r = SliceReader::new(&large);
    let read = read_raw(&mut r).expect(&rt, "an element");
    assert!(rt; read == large.as_slice() && r.is_finished());
}

/// Whether the octets are read as an identifier, of these octets.
fn is_next(r: &mut SliceReader<'_>, octets: &[u8]) -> bool {
    match read_identifier(r) {
        Ok(identifier) => identifier.as_bytes() == octets,
        Err(_) => false,
    }
}

#[test]
fn identifiers_of_the_standard_are_read(rt: HostRuntime) {
    // 2.999 and 1.2.840.113549.1.7.1
    let mut r = SliceReader::new(&[
        6, 2, 0x88, 0x37, 6, 9, 0x2a, 0x86, 0x48, 0x86, 0xf7, 0x0d, 1, 7, 1,
    ]);
    assert!(rt;
        is_next(&mut r, &[0x88, 0x37])
            && is_next(&mut r, &[0x2a, 0x86, 0x48, 0x86, 0xf7, 0x0d, 1, 7, 1])
    );
}

#[test]
fn identifiers_are_compared(rt: HostRuntime) {
    let one = ObjectIdentifier::constant(&[0x88, 0x37]);
    let other = ObjectIdentifier::constant(&[0x2a, 0x86, 0x48, 0x86, 0xf7, 0x0d, 1, 7, 1]);
    assert!(rt; one != other && ObjectIdentifier::from_bytes(&[0x88, 0x37]) == Ok(one));
}

/// Octets of no identifier.
static OF_NONE: [&[u8]; 5] = [
    &[0x80, 1],
    &[0x2b, 0x80],
    &[0x90, 0x80, 0x80, 0x80, 0],
    &[],
    &[1; 40],
];

#[test]
fn octets_of_no_identifier_are_refused(rt: HostRuntime) {
    for octets in &OF_NONE {
        assert!(rt;
            ObjectIdentifier::from_bytes(octets) == Err(Error::Malformed),
            "{octets:?}"
        );
    }
    assert!(rt; ObjectIdentifier::from_bytes(&[1; 39]).is_ok());
}

/// Whether the text has these octets, and its identifier prints it again.
fn is_text_of(alloc: Global, text: &str, octets: &[u8]) -> bool {
    let Ok(identifier) = ObjectIdentifier::new(text) else {
        return false;
    };
    identifier.as_bytes() == octets && prints(alloc, &identifier, text)
}

/// Texts of identifiers, and their octets: those of `openssl asn1parse -genstr OID:..`.
static TEXTS: [(&str, &[u8]); 4] = [
    ("2.999", &[0x88, 0x37]),
    ("1.39", &[0x4f]),
    (
        "2.4294967215.1.268435455",
        &[0x8f, 0xff, 0xff, 0xff, 0x7f, 1, 0xff, 0xff, 0xff, 0x7f],
    ),
    (
        "0.1.1.1.1.1.1.1.1.1.1.1.1.1.1.1.1.1.1.1.1.1.1.1.1.1.1.1.1.1.1.1.1.1.1.1.1.1.1.1",
        &[1; 39],
    ),
];

#[test]
fn texts_of_identifiers(rt: HostRuntime) {
    for (text, octets) in &TEXTS {
        assert!(rt; is_text_of(rt.alloc(), text, octets), "{text}");
    }
    assert!(rt; "2.999".parse::<ObjectIdentifier>() == ObjectIdentifier::from_arcs(&[2, 999]));
}

/// Texts of no identifier: more are lines of `tests/vectors/grammars.txt`.
static TEXTS_OF_NONE: [&str; 7] = [
    "1.02",
    "1..2",
    ".1.2",
    "1.+2",
    // its first subidentifier is 2^32
    "2.4294967216",
    // 40 octets, of 41 arcs and of 40
    "0.1.1.1.1.1.1.1.1.1.1.1.1.1.1.1.1.1.1.1.1.1.1.1.1.1.1.1.1.1.1.1.1.1.1.1.1.1.1.1.1",
    "0.1.1.1.1.1.1.1.1.1.1.1.1.1.1.1.1.1.1.1.1.1.1.1.1.1.1.1.1.1.1.1.1.1.1.1.1.1.1.128",
];

#[test]
fn texts_of_no_identifier(rt: HostRuntime) {
    for text in &TEXTS_OF_NONE {
        assert!(rt;
            ObjectIdentifier::new(text) == Err(Error::Malformed),
            "{text}"
        );
    }
}

/// Whether the identifier has these arcs, and is made of them.
fn has_arcs(identifier: ObjectIdentifier, arcs: &[u32]) -> bool {
    for at in 0..arcs.len() {
        if identifier.arc(at) != Some(arcs[at]) {
            return false;
        }
    }
    identifier.arc(arcs.len()).is_none()
        && identifier.arc_count() == arcs.len()
        && ObjectIdentifier::from_arcs(arcs) == Ok(identifier)
}

#[test]
fn an_identifier_has_arcs(rt: HostRuntime) {
    let rsadsi = ObjectIdentifier::constant(&[0x2a, 0x86, 0x48, 0x86, 0xf7, 0x0d]);
    assert!(rt; has_arcs(rsadsi, &[1, 2, 840, 113549]));
}

/// Arcs of no identifier.
static ARCS_OF_NONE: [&[u32]; 6] = [&[], &[1], &[1, 40], &[3, 1], &[2, 4294967216], &[1; 41]];

#[test]
fn arcs_of_no_identifier(rt: HostRuntime) {
    for arcs in &ARCS_OF_NONE {
        assert!(rt;
            ObjectIdentifier::from_arcs(arcs) == Err(Error::Malformed),
            "{arcs:?}"
        );
    }
    assert!(rt; ObjectIdentifier::from_arcs(&[2, 4294967215]).is_ok());
}

#[test]
fn refusals_are_printed(rt: HostRuntime) {
    let alloc = rt.alloc();
    let oid = ObjectIdentifier::constant(&[0x88, 0x37]);
    assert!(rt;
        prints(alloc, &Error::Malformed, "malformed DER")
            && prints(alloc, &Error::OidUnknown { oid }, "unknown OID: 2.999")
            && prints(alloc, &Error::Overlength, "length overflow")
            && prints(alloc, &Error::NoRoom, "no room")
            && prints(alloc, &Error::File, "file failure")
            && prints(alloc, &Error::Memory, "out of memory")
    );
}

/// Whether the tag has this octet, and is read of it.
fn has_octet(tag: Tag, octet: u8) -> bool {
    tag.octet() == octet && Tag::from_octet(octet) == Ok(tag)
}

#[test]
fn tags_have_the_octets_of_the_standard(rt: HostRuntime) {
    assert!(rt;
        has_octet(Tag::INTEGER, 0x02)
            && has_octet(Tag::BIT_STRING, 0x03)
            && has_octet(Tag::OCTET_STRING, 0x04)
            && has_octet(Tag::NULL, 0x05)
            && has_octet(Tag::OBJECT_IDENTIFIER, 0x06)
            && has_octet(Tag::IA5_STRING, 0x16)
            && has_octet(Tag::BMP_STRING, 0x1e)
            && has_octet(Tag::SEQUENCE, 0x30)
            && has_octet(Tag::SET, 0x31)
            && has_octet(Tag::CONTEXT_0, 0xa0)
            && has_octet(Tag::PRIMITIVE_CONTEXT_0, 0x80)
            && Tag::from_octet(0xbf) == Err(Error::Malformed)
    );
}

/// Whether the octets are an IA5String of this text.
fn is_ia5(alloc: Global, octets: &[u8], text: &str) -> bool {
    match read_ia5(alloc, &mut SliceReader::new(octets)) {
        Ok(read) => read.as_str() == text,
        Err(_) => false,
    }
}

/// Whether the octets are a BMPString of this text.
fn is_bmp(alloc: Global, octets: &[u8], text: &str) -> bool {
    match read_bmp(alloc, &mut SliceReader::new(octets)) {
        Ok(read) => read.as_str() == text,
        Err(_) => false,
    }
}

/// Whether the octets are no BMPString.
fn is_no_bmp(alloc: Global, octets: &[u8]) -> bool {
    read_bmp(alloc, &mut SliceReader::new(octets)).is_err()
}

#[test]
fn texts_of_characters_are_read(rt: HostRuntime) {
    let alloc = rt.alloc();
    // U+1D11E by its pair of surrogates (RFC 2781, section 2.1 has the rule)
    assert!(rt;
        is_ia5(alloc, &[0x16, 2, 0x68, 0x69], "hi")
            && is_bmp(
                alloc,
                &[0x1e, 6, 0, 0x61, 0xd8, 0x34, 0xdd, 0x1e],
                "a\u{1d11e}"
            )
    );
}

/// Whether the octets are no IA5String, and the reader stays in front of them.
fn is_no_ia5(alloc: Global, octets: &[u8]) -> bool {
    let mut r = SliceReader::new(octets);
    read_ia5(alloc, &mut r).is_err() && r.position() == 0
}

#[test]
fn octets_of_no_characters_are_refused(rt: HostRuntime) {
    let alloc = rt.alloc();
    assert!(rt;
        is_no_ia5(alloc, &[0x16, 1, 0x80])
            && is_no_bmp(alloc, &[0x1e, 2, 0xd8, 0x34])
            && is_no_bmp(alloc, &[0x1e, 3, 0, 0x61, 0])
    );
}
