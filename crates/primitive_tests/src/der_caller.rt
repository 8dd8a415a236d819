//! The caller of the page of `asn1_core`.
use asn1_core::{
    Error, Octets, Reader, SliceReader, Tag, VecWriter, read_inner, read_uint, write_uint,
};
use std::alloc::Global;

/// The number in `SEQUENCE { number INTEGER }`, which is the whole of these octets.
pub fn number_in(octets: &[u8]) -> Result<u64, Error> {
    let mut r = SliceReader::new(octets);
    let mut body = read_inner(&mut r, Tag::SEQUENCE)?;
    let number = read_uint(&mut body, u64::MAX)?;
    body.finish()?;
    r.finish()?;
    Ok(number)
}

/// The encoding of an INTEGER.
pub fn number_written(alloc: Global, number: u64) -> Result<Octets, Error> {
    let mut w = VecWriter::new(alloc);
    write_uint(&mut w, number)?;
    Ok(w.into_octets())
}

/// Whether the number is written as these octets.
fn is_written(alloc: Global, number: u64, octets: &[u8]) -> bool {
    match number_written(alloc, number) {
        Ok(written) => written.as_slice() == octets,
        Err(_) => false,
    }
}

#[test]
fn a_number_is_read_and_written(rt: HostRuntime) {
    assert!(rt; number_in(b"\x30\x04\x02\x02\x01\x00") == Ok(256));
    assert!(rt; number_in(b"\x30\x05\x02\x03\x00\x01\x00") == Err(Error::Malformed));
    assert!(rt; is_written(rt.alloc(), 256, b"\x02\x02\x01\x00"));
}
