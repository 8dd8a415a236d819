//! Texts that are written: each is the text of the grammar in RFC 7292, put together by hand.

use crate::calls;
use crate::stores_read::RC2;
use asn1_core::{Octets, SliceReader, VecWriter};
use p12::{AlgorithmIdentifier, EncryptedPrivateKeyInfo, Error, PKCS12Attribute, Pkcs12PbeParams};
use std::alloc::Global;

/// What is written of an algorithm that is read.
fn algorithm_again(alloc: Global, text: &[u8]) -> Result<Octets, Error> {
    let mut w = VecWriter::new(alloc);
    calls::algorithm(alloc, text)?.write(alloc, &mut w)?;
    Ok(w.into_octets())
}

/// PBES2 whose pseudorandom function has no NULL.
const WITHOUT_NULL: &[u8] =
    b"\x30\x5d\x06\x09\x2a\x86\x48\x86\xf7\x0d\x01\x05\x0d\x30\x50\x30\x2f\x06\x09\x2a\x86\x48\
    \x86\xf7\x0d\x01\x05\x0c\x30\x22\x04\x10\x0c\x12\xaa\x39\xd7\x43\xd1\x63\x3d\xdb\xb6\x15\
    \xa5\xec\x1b\x6a\x02\x02\x08\x00\x30\x0a\x06\x08\x2a\x86\x48\x86\xf7\x0d\x02\x09\x30\x1d\
    \x06\x09\x60\x86\x48\x01\x65\x03\x04\x01\x2a\x04\x10\xba\xba\x52\x27\x2b\x5a\x30\x26\x3d\
    \x62\xf8\x1a\xe2\x7a\xd7\x68";

/// The same with it, as it is written.
const WITH_NULL: &[u8] =
    b"\x30\x5f\x06\x09\x2a\x86\x48\x86\xf7\x0d\x01\x05\x0d\x30\x52\x30\x31\x06\x09\x2a\x86\x48\
    \x86\xf7\x0d\x01\x05\x0c\x30\x24\x04\x10\x0c\x12\xaa\x39\xd7\x43\xd1\x63\x3d\xdb\xb6\x15\
    \xa5\xec\x1b\x6a\x02\x02\x08\x00\x30\x0c\x06\x08\x2a\x86\x48\x86\xf7\x0d\x02\x09\x05\x00\
    \x30\x1d\x06\x09\x60\x86\x48\x01\x65\x03\x04\x01\x2a\x04\x10\xba\xba\x52\x27\x2b\x5a\x30\
    \x26\x3d\x62\xf8\x1a\xe2\x7a\xd7\x68";

/// Texts of algorithms, and how each is written.
static ALGORITHMS: [(&[u8], &[u8]); 3] = [
    (RC2, RC2),
    (
        b"\x30\x07\x06\x05\x2b\x0e\x03\x02\x1a",
        b"\x30\x09\x06\x05\x2b\x0e\x03\x02\x1a\x05\x00",
    ),
    (WITHOUT_NULL, WITH_NULL),
];

#[test]
fn algorithms_are_written(rt: HostRuntime) {
    for (read, written) in &ALGORITHMS {
        assert!(rt; calls::gives(algorithm_again(rt.alloc(), read), written));
    }
}

/// What is written of the parameters of an algorithm.
fn parameters_again(alloc: Global, params: &Pkcs12PbeParams) -> Result<Octets, Error> {
    let mut w = VecWriter::new(alloc);
    params.write(alloc, &mut w)?;
    Ok(w.into_octets())
}

/// Whether the parameters of the algorithm under RC2 are written as they were read.
fn are_parameters_written(alloc: Global) -> bool {
    match calls::algorithm(alloc, RC2) {
        Ok(AlgorithmIdentifier::PbewithSHAAnd40BitRC2CBC(params)) => {
            calls::gives(parameters_again(alloc, &params), &RC2[14..])
        }
        _ => false,
    }
}

#[test]
fn the_parameters_of_an_algorithm_are_written(rt: HostRuntime) {
    assert!(rt; are_parameters_written(rt.alloc()));
}

/// What is written of an encrypted key.
fn key_text(alloc: Global) -> Result<Octets, Error> {
    let key = EncryptedPrivateKeyInfo {
        encryption_algorithm: AlgorithmIdentifier::Sha1,
        encrypted_data: Octets::from_slice(alloc, b"foo")?,
    };
    let mut w = VecWriter::new(alloc);
    key.write(alloc, &mut w)?;
    Ok(w.into_octets())
}

#[test]
fn an_encrypted_key_is_written(rt: HostRuntime) {
    let wanted = b"\x30\x10\x30\x09\x06\x05\x2b\x0e\x03\x02\x1a\x05\x00\x04\x03\x66\x6f\x6f";
    assert!(rt; calls::gives(key_text(rt.alloc()), wanted));
}

/// What is written of an attribute that is read.
fn attribute_again(alloc: Global, text: &[u8]) -> Result<Octets, Error> {
    let mut w = VecWriter::new(alloc);
    PKCS12Attribute::parse(alloc, &mut SliceReader::new(text))?.write(alloc, &mut w)?;
    Ok(w.into_octets())
}

#[test]
fn a_set_of_names_is_written_with_the_last(rt: HostRuntime) {
    let two = b"\x30\x15\x06\x09\x2a\x86\x48\x86\xf7\x0d\x01\x09\x14\x31\x08\x1e\x02\x00\x61\x1e\
        \x02\x00\x62";
    let last = b"\x30\x11\x06\x09\x2a\x86\x48\x86\xf7\x0d\x01\x09\x14\x31\x04\x1e\x02\x00\x62";
    assert!(rt; calls::gives(attribute_again(rt.alloc(), two), last));
}
