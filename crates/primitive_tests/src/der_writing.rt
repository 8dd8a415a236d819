//! Texts that are written, against octets of the standards and of OpenSSL.
use asn1_core::{
    Error, Items, Length, Octets, SliceWriter, Tag, VecWriter, Writer, element_len, write_bmp,
    write_element, write_header, write_ia5, write_set_of, write_uint,
};
use std::alloc::Global;

/// Numbers at the bounds of so many octets.
static NUMBERS: [u64; 8] = [0, 127, 128, 255, 256, 32767, 32768, u64::MAX];

#[test]
fn numbers_are_written_in_the_fewest_octets(rt: HostRuntime) {
    // `openssl asn1parse -genstr INTEGER:..`
    let mut w = VecWriter::new(rt.alloc());
    for n in &NUMBERS {
        write_uint(&mut w, *n).expect(&rt, "room");
    }
    let written = w.into_octets();
    assert!(rt;
        written.as_slice()
            == &[
                2, 1, 0, 2, 1, 0x7f, 2, 2, 0, 0x80, 2, 2, 0, 0xff, 2, 2, 1, 0, 2, 2, 0x7f, 0xff, 2,
                3, 0, 0x80, 0, 2, 9, 0, 0xff, 0xff, 0xff, 0xff, 0xff, 0xff, 0xff, 0xff
            ][..]
    );
}

/// Whether the writer has no room for the octets.
fn lacks_room(w: &mut SliceWriter<'_>, octets: &[u8]) -> bool {
    w.write(octets) == Err(Error::NoRoom)
}

/// Whether the writer takes the octets.
fn has_room(w: &mut SliceWriter<'_>, octets: &[u8]) -> bool {
    w.write(octets).is_ok()
}

#[test]
fn a_buffer_takes_what_it_has_room_for(rt: HostRuntime) {
    let mut buffer = [9; 5];
    let mut w = SliceWriter::new(&mut buffer);
    assert!(rt; write_element(&mut w, Tag::OCTET_STRING, &[1, 2]).is_ok());
    assert!(rt;
        lacks_room(&mut w, &[3, 4])
            && has_room(&mut w, &[3])
            && has_room(&mut w, &[])
            && lacks_room(&mut w, &[4])
    );
    assert!(rt; w.finish() == &[4, 2, 1, 2, 3][..]);
}

/// Whether these are the octets in front of a SEQUENCE of so many value octets.
fn is_header(alloc: Global, length: u32, octets: &[u8]) -> bool {
    let mut w = VecWriter::new(alloc);
    let written = write_header(&mut w, Tag::SEQUENCE, Length::new(length));
    written.is_ok() && w.into_octets().as_slice() == octets
}

/// Lengths, and the octets in front of a SEQUENCE of so many value octets (X.690 sections 8.1.3 and 10.1).
static HEADERS: [(u32, &[u8]); 5] = [
    (127, &[0x30, 0x7f]),
    (128, &[0x30, 0x81, 0x80]),
    (256, &[0x30, 0x82, 1, 0]),
    (0x1_0000, &[0x30, 0x83, 1, 0, 0]),
    (0x100_0000, &[0x30, 0x84, 1, 0, 0, 0]),
];

#[test]
fn lengths_are_written_in_the_fewest_octets(rt: HostRuntime) {
    for (length, octets) in &HEADERS {
        assert!(rt; is_header(rt.alloc(), *length, octets), "{length}");
    }
}

#[test]
fn an_element_has_a_length_below_2_to_the_32nd(rt: HostRuntime) {
    assert!(rt;
        element_len(Length::new(0xffff_fff9)) == Ok(Length::new(0xffff_ffff))
            && element_len(Length::new(0xffff_fffa)) == Err(Error::Overlength)
    );
}

#[test]
fn texts_of_characters_are_written(rt: HostRuntime) {
    let mut w = VecWriter::new(rt.alloc());
    // `openssl asn1parse -genstr FORMAT:UTF8,BMP:..`, and for U+1D11E its surrogates of RFC 2781 section 2.1
    assert!(rt;
        write_ia5(&mut w, "hi").is_ok()
            && write_ia5(&mut w, "h\u{ef}") == Err(Error::Malformed)
            && write_bmp(&mut w, "a\u{e9}\u{1d11e}").is_ok()
    );
    assert!(rt;
        w.into_octets().as_slice()
            == &[
                0x16, 2, 0x68, 0x69, 0x1e, 8, 0, 0x61, 0, 0xe9, 0xd8, 0x34, 0xdd, 0x1e
            ][..]
    );
}

/// The elements of a SET, out of order.
static ELEMENTS: [&[u8]; 5] = [&[4, 1, 2], &[2, 1, 5], &[4, 1, 1], &[4, 0], &[4, 1, 1]];

#[test]
fn a_set_is_written_in_ascending_order(rt: HostRuntime) {
    // the order of `openssl asn1parse -genconf` for a SET of these elements
    let alloc = rt.alloc();
    let mut elements = Items::new(alloc);
    for element in &ELEMENTS {
        elements
            .push(Octets::from_slice(alloc, element).expect(&rt, "octets"))
            .expect(&rt, "room");
    }
    let mut w = VecWriter::new(alloc);
    write_set_of(alloc, &mut w, &elements).expect(&rt, "room");
    assert!(rt;
        w.into_octets().as_slice() == &[0x31, 14, 2, 1, 5, 4, 0, 4, 1, 1, 4, 1, 1, 4, 1, 2][..]
    );
}
