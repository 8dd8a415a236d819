//! Octets of OpenSSL (`openssl asn1parse -genstr`), and calls of each generic impl at a concrete type.
use crate::answers::{gives, refuses};
use asn1_core::{Error, Length, ObjectIdentifier, Reader, SliceReader, SliceWriter, Tag};
use der_core::{
    Any, AnyRef, BitString, BitStringRef, ContextSpecific, Decode, DerOrd, Document, Encode, Null,
    OctetString, OctetStringRef, Pair, SecretDocument, TagMode, Tagged, ValueOrd, canon_is_read,
    exact_spellings, pair_cmp, pair_len, texts_are_parted, texts_are_read, write_pair,
};
use std::alloc::Global;
use std::cmp::Ordering;
use std::fs;
use std::process::Abort;

/// A key of Ed25519 (RFC 8410 section 4) as a SEQUENCE of its algorithm and a BIT STRING.
const KEY: [u8; 44] = [
    0x30, 0x2a, 0x30, 0x05, 0x06, 0x03, 0x2b, 0x65, 0x70, 0x03, 0x21, 0x00, 0x4d, 0x29, 0x16, 0x7f,
    0x3f, 0x19, 0x12, 0xa6, 0xf7, 0xad, 0xfa, 0x29, 0x3a, 0x05, 0x1a, 0x15, 0xc0, 0x5e, 0xc6, 0x7b,
    0x8f, 0x17, 0x26, 0x7b, 0x1c, 0x55, 0x50, 0xdc, 0xe8, 0x53, 0xbd, 0x0d,
];

const ED25519: [u8; 3] = [0x2b, 0x65, 0x70];

/// Whether the octets are the text that is written of the value, and as long as it says.
fn is_written<T: Encode>(rt: &impl Abort, alloc: Global, value: &T, octets: &[u8]) -> bool {
    let text = value.to_der(alloc).expect(rt, "a text");
    let len = value.encoded_len().expect(rt, "a length");
    text.as_slice() == octets && len.value as usize == octets.len()
}

/// Whether the octets are read as this value.
fn is_read<'a, T: Decode<&'a [u8]> + PartialEq>(octets: &'a [u8], value: T) -> bool {
    gives(T::from_der(octets), &value)
}

/// Whether the octets are no text of the type.
fn is_refused<'a, T: Decode<&'a [u8]>>(octets: &'a [u8]) -> bool {
    refuses(T::from_der(octets), Error::Malformed)
}

#[test]
fn numbers_are_read_in_the_fewest_octets(rt: HostRuntime) {
    assert!(rt; is_read(&[2, 2, 0, 0xff], 255u64) && is_read(&[2, 2, 1, 0], 256u16));
    assert!(rt;
        is_refused::<u64>(&[2, 0])
            && is_refused::<u64>(&[2, 2, 0, 1])
            && is_refused::<u64>(&[2, 1, 0xff])
            && is_refused::<u8>(&[2, 2, 1, 0])
            && is_refused::<u32>(&[2, 1, 0, 0])
    );
}

#[test]
fn bit_strings_and_null_are_read(rt: HostRuntime) {
    let empty = BitStringRef::new(0, &[]).expect(&rt, "a bit string");
    let one = BitStringRef::new(7, &[0xff]).expect(&rt, "a bit string");
    assert!(rt;
        is_read(&[3, 1, 0], empty)
            && is_read(&[3, 2, 7, 0xff], one)
            && one.unused_bits() == 7
            && one.raw_bytes() == &[0xff][..]
            && is_read(&[5, 0], Null)
    );
    assert!(rt;
        is_refused::<BitStringRef<'_>>(&[3, 0])
            && is_refused::<BitStringRef<'_>>(&[3, 1, 1])
            && is_refused::<BitStringRef<'_>>(&[3, 2, 8, 0])
            && is_refused::<Null>(&[5, 1, 0])
    );
}

/// Whether the value is read next.
fn is_next<'a, T: Decode<&'a [u8]> + PartialEq>(r: &mut SliceReader<'a>, value: T) -> bool {
    gives(T::decode(r), &value)
}

#[test]
fn a_public_key_is_read_part_by_part(rt: HostRuntime) {
    let whole = AnyRef::from_der(&KEY).expect(&rt, "an element");
    let algorithm = AnyRef::new(Tag::SEQUENCE, &KEY[4..9]).expect(&rt, "an element");
    let key = BitStringRef::new(0, &KEY[12..]).expect(&rt, "a bit string");
    let mut r = SliceReader::new(whole.value());
    assert!(rt;
        whole.tag() == Tag::SEQUENCE
            && !whole.is_null()
            && is_next(&mut r, algorithm)
            && is_next(&mut r, key)
            && is_next::<Option<AnyRef<'_>>>(&mut r, None)
            && ObjectIdentifier::try_from(algorithm) == Err(Error::Malformed)
    );
}

#[test]
fn an_element_that_may_be_missing_is_left_for_another_type(rt: HostRuntime) {
    let mut r = SliceReader::new(&KEY[4..9]);
    assert!(rt; is_next::<Option<ContextSpecific<Null>>>(&mut r, None) && r.position() == 0);
    let identifier = ObjectIdentifier::constant(&ED25519);
    assert!(rt; is_next(&mut r, Some(AnyRef::from(&identifier))));
}

#[test]
fn an_element_is_decoded_as_what_it_is(rt: HostRuntime) {
    let identifier = ObjectIdentifier::constant(&ED25519);
    let number = AnyRef::new(Tag::INTEGER, &[5]).expect(&rt, "an element");
    assert!(rt;
        gives(AnyRef::from(&identifier).decode_as(), &identifier)
            && gives(number.decode_as(), &5u8)
            && refuses(number.decode_as::<Null>(), Error::Malformed)
            && Tagged::tag(&5u8) == Tag::INTEGER
            && AnyRef::from(Null).is_null()
    );
}

#[test]
fn values_are_written_as_openssl_writes_them(rt: HostRuntime) {
    let alloc = rt.alloc();
    let most = [2, 9, 0, 0xff, 0xff, 0xff, 0xff, 0xff, 0xff, 0xff, 0xff];
    assert!(rt;
        is_written(&rt, alloc, &128u8, &[2, 2, 0, 0x80])
            && is_written(&rt, alloc, &127u16, &[2, 1, 0x7f])
            && is_written(&rt, alloc, &5u32, &[2, 1, 5])
            && is_written(&rt, alloc, &u64::MAX, &most)
            && is_written(&rt, alloc, &Null, &[5, 0])
            && is_written(&rt, alloc, &Some(Null), &[5, 0])
    );
}

/// The value under a tag of its context.
fn tagged<T>(tag_number: u8, tag_mode: TagMode, value: T) -> ContextSpecific<T> {
    ContextSpecific {
        tag_number,
        tag_mode,
        value,
    }
}

#[test]
fn values_under_a_tag_of_their_context_are_written(rt: HostRuntime) {
    let alloc = rt.alloc();
    let explicit = tagged(1, TagMode::Explicit, 5u8);
    let implicit = tagged(1, TagMode::Implicit, 5u8);
    let high = tagged(31, TagMode::Explicit, 5u8);
    assert!(rt;
        is_written(&rt, alloc, &explicit, &[0xa1, 3, 2, 1, 5])
            && is_read(&[0xa1, 3, 2, 1, 5], explicit)
            && is_written(&rt, alloc, &implicit, &[0x81, 1, 5])
            && is_refused::<ContextSpecific<u8>>(&[0x81, 1, 5])
            && refuses(high.to_der(alloc), Error::Malformed)
    );
    let sequence = Any::new(alloc, Tag::SEQUENCE, &[2, 1, 1, 1, 1, 0xff]).expect(&rt, "memory");
    let constructed = tagged(2, TagMode::Implicit, sequence);
    assert!(rt; is_written(&rt, alloc, &constructed, &[0xa2, 6, 2, 1, 1, 1, 1, 0xff]));
}

#[test]
fn octet_strings_are_owned_or_borrowed(rt: HostRuntime) {
    let alloc = rt.alloc();
    let string = OctetString::new(alloc, b"ab").expect(&rt, "memory");
    let borrowed = OctetStringRef::new(b"ab").expect(&rt, "a string");
    assert!(rt;
        is_written(&rt, alloc, &string, &[4, 2, 0x61, 0x62])
            && gives(OctetString::from_der(alloc, &[4, 2, 0x61, 0x62]), &string)
            && gives(string.try_clone(alloc), &string)
            && string.owned_to_ref() == borrowed
            && gives(borrowed.ref_to_owned(alloc), &string)
    );
}

#[test]
fn bit_strings_are_owned_or_borrowed(rt: HostRuntime) {
    let alloc = rt.alloc();
    let bits = BitString::new(alloc, 0, b"abc").expect(&rt, "memory");
    let borrowed = BitStringRef::new(0, b"abc").expect(&rt, "a bit string");
    assert!(rt;
        is_written(&rt, alloc, &bits, &[3, 4, 0, 0x61, 0x62, 0x63])
            && gives(
                BitString::from_der(alloc, &[3, 4, 0, 0x61, 0x62, 0x63]),
                &bits
            )
            && gives(bits.try_clone(alloc), &bits)
            && bits.unused_bits() == 0
            && bits.raw_bytes() == b"abc".as_slice()
            && bits.owned_to_ref() == borrowed
            && gives(borrowed.ref_to_owned(alloc), &bits)
    );
}

#[test]
fn at_most_seven_bits_of_a_last_octet_are_unused(rt: HostRuntime) {
    let alloc = rt.alloc();
    assert!(rt;
        refuses(BitString::new(alloc, 8, b"abc"), Error::Malformed)
            && refuses(BitString::new(alloc, 1, &[]), Error::Malformed)
    );
}

#[test]
fn elements_are_owned_or_borrowed(rt: HostRuntime) {
    let alloc = rt.alloc();
    let string = OctetStringRef::new(b"ab").expect(&rt, "a string");
    let any = Any::encode_from(alloc, &string).expect(&rt, "memory");
    let borrowed = AnyRef::from(string);
    assert!(rt;
        any.tag() == Tag::OCTET_STRING
            && any.value() == b"ab".as_slice()
            && gives(Any::from_der(alloc, &[4, 2, 0x61, 0x62]), &any)
            && gives(any.try_clone(alloc), &any)
            && any.owned_to_ref() == borrowed
            && gives(borrowed.ref_to_owned(alloc), &any)
    );
}

/// Whether the text of the one value is in this order to the text of the other.
fn texts_stand<T: DerOrd + Drop>(one: T, order: Ordering, other: T) -> bool {
    gives(one.der_cmp(&other), &order)
}

/// Whether the value octets of the one value are in this order to those of the other.
fn values_stand<T: ValueOrd + Drop>(one: T, order: Ordering, other: T) -> bool {
    gives(one.value_cmp(&other), &order)
}

#[test]
fn texts_are_ordered_as_octets(rt: HostRuntime) {
    // 02 01 7f and 02 02 00 80
    assert!(rt;
        texts_stand(127u8, Ordering::Less, 128)
            && values_stand(127u8, Ordering::Greater, 128)
            && texts_stand(Some(1u64), Ordering::Greater, None)
            && texts_stand(Null, Ordering::Equal, Null)
    );
    let identifier = ObjectIdentifier::constant(&ED25519);
    let order = pair_cmp(&identifier, &Some(Null), &identifier, &None);
    assert!(rt; gives(order, &Ordering::Greater));
}

#[test]
fn texts_of_strings_are_ordered_as_octets(rt: HostRuntime) {
    let short = OctetStringRef::new(b"b").expect(&rt, "a string");
    let long = OctetStringRef::new(b"ab").expect(&rt, "a string");
    assert!(rt;
        texts_stand(short, Ordering::Less, long)
            && values_stand(short, Ordering::Greater, long)
            && short > long
    );
}

#[test]
fn texts_of_bits_are_ordered_as_octets(rt: HostRuntime) {
    let bits = BitStringRef::new(7, &[0x80]).expect(&rt, "bits");
    let more = BitStringRef::new(0, &[0x80]).expect(&rt, "bits");
    assert!(rt; texts_stand(bits, Ordering::Greater, more) && bits > more);
}

#[test]
fn elements_are_ordered_by_their_tags(rt: HostRuntime) {
    let alloc = rt.alloc();
    let one = Any::new(alloc, Tag::NULL, &[]).expect(&rt, "memory");
    let other = Any::new(alloc, Tag::SEQUENCE, &[]).expect(&rt, "memory");
    assert!(rt; texts_stand(one, Ordering::Less, other));
}

#[test]
fn texts_stand_one_behind_the_other(rt: HostRuntime) {
    let oid = ObjectIdentifier::constant(&ED25519);
    let mut buffer = [0; 7];
    let mut w = SliceWriter::new(&mut buffer);
    assert!(rt;
        gives(pair_len(&oid, &Some(Null)), &Length::new(7))
            && write_pair(&mut w, &oid, &Some(Null)).is_ok()
    );
    assert!(rt; w.finish() == &[6, 3, 0x2b, 0x65, 0x70, 5, 0][..]);
    let mut w = SliceWriter::new(&mut buffer[..6]);
    let three = Pair(&Pair(&oid, &Null), &5u8);
    let octets = [6, 3, 0x2b, 0x65, 0x70, 5, 0, 2, 1, 5];
    assert!(rt;
        refuses(write_pair(&mut w, &oid, &Some(Null)), Error::NoRoom)
            && is_written(&rt, rt.alloc(), &three, &octets)
    );
}

#[test]
fn laws_at_concrete_types(rt: HostRuntime) {
    texts_are_read::<&[u8], AnyRef<'_>>(&KEY);
    texts_are_read::<&[u8], ContextSpecific<u8>>(&KEY);
    exact_spellings::<&[u8], u8>(&[2, 1, 5], &5);
    texts_are_parted::<&[u8], Null>();
    canon_is_read::<&[u8], BitStringRef<'_>>(&BitStringRef::new(0, &[1]).expect(&rt, "bits"));
}

#[test]
fn documents_are_whole_sequences(rt: HostRuntime) {
    let alloc = rt.alloc();
    let document = Document::from_der(alloc, &KEY).expect(&rt, "a document");
    let any = AnyRef::from_der(&KEY).expect(&rt, "an element");
    assert!(rt;
        document.as_bytes() == &KEY[..]
            && gives(document.try_clone(alloc), &document)
            && gives(document.decode_msg(), &any)
            && gives(Document::encode_msg(alloc, &any), &document)
    );
}

#[test]
fn other_elements_and_broken_ones_are_no_documents(rt: HostRuntime) {
    let alloc = rt.alloc();
    assert!(rt;
        Document::from_der(alloc, &[0x30, 0]).is_ok()
            && refuses(Document::from_der(alloc, &[4, 0]), Error::Malformed)
            && refuses(Document::from_der(alloc, &[0x30, 0, 0]), Error::Malformed)
            && refuses(Document::encode_msg(alloc, &Null), Error::Malformed)
    );
}

#[test]
fn secret_documents_are_whole_sequences(rt: HostRuntime) {
    let alloc = rt.alloc();
    let secret = SecretDocument::from_der(alloc, &KEY).expect(&rt, "a document");
    let any = AnyRef::from_der(&KEY).expect(&rt, "an element");
    assert!(rt;
        gives(secret.decode_msg(), &any)
            && gives(SecretDocument::encode_msg(alloc, &any), &secret)
            && gives(secret.try_clone(alloc), &secret)
    );
}

#[test]
fn secret_documents_are_printed_without_their_octets(rt: HostRuntime) {
    let secret = SecretDocument::from_der(rt.alloc(), &KEY).expect(&rt, "a document");
    let shown = format!(in rt.alloc(); "{secret:?}").expect(&rt, "memory");
    assert!(rt; shown.as_str() == "SecretDocument");
}

#[test]
fn documents_are_read_from_the_file_that_they_were_written_to(rt: HostRuntime) {
    let alloc = rt.alloc();
    let path = "der_core_document.der";
    let document = Document::from_der(alloc, &KEY).expect(&rt, "a document");
    let secret = SecretDocument::from_der(alloc, &KEY).expect(&rt, "a document");
    assert!(rt;
        document.write_der_file(&rt, path).is_ok()
            && gives(Document::read_der_file(&rt, alloc, path), &document)
            && gives(SecretDocument::read_der_file(&rt, alloc, path), &secret)
            && refuses(
                secret.write_der_file(&rt, "no_such_folder/x.der"),
                Error::File
            )
            && fs::remove_file(&rt, path).is_ok()
    );
}

#[test]
fn files_of_other_elements_and_missing_files_are_refused(rt: HostRuntime) {
    let alloc = rt.alloc();
    let path = "der_core_no_document.der";
    assert!(rt;
        fs::write(&rt, path, &[4, 0][..]).is_ok()
            && refuses(Document::read_der_file(&rt, alloc, path), Error::Malformed)
            && fs::remove_file(&rt, path).is_ok()
            && refuses(Document::read_der_file(&rt, alloc, path), Error::File)
    );
}
