//! Rows of the grammar (RFC 7292 section 4; RFC 5652 sections 6.1 and 8) that are read and then written. The texts are parts of
//! the stores of `stores_read`.

use crate::calls;
use crate::stores_read::{ENCRYPTED_KEY, NAMED_BAG, SEALED_STORE, STORE};
use asn1_core::{ObjectIdentifier, Octets, SliceReader, VecWriter};
use p12::{
    CertBag, ContentInfo, DigestInfo, EncryptedContentInfo, EncryptedData, Error, MacData, PFX,
    SafeBag, SafeBagKind,
};
use std::alloc::Global;

/// A part of the grammar that is read and then written.
trait ReadAndWritten: Sized + Drop {
    fn read(alloc: Global, r: &mut SliceReader<'_>) -> Result<Self, Error>;

    fn written(&self, alloc: Global, w: &mut VecWriter) -> Result<(), asn1_core::Error>;
}

impl ReadAndWritten for CertBag {
    fn read(alloc: Global, r: &mut SliceReader<'_>) -> Result<CertBag, Error> {
        CertBag::parse(alloc, r)
    }

    fn written(&self, alloc: Global, w: &mut VecWriter) -> Result<(), asn1_core::Error> {
        self.write(alloc, w)
    }
}

impl ReadAndWritten for ContentInfo {
    fn read(alloc: Global, r: &mut SliceReader<'_>) -> Result<ContentInfo, Error> {
        ContentInfo::parse(alloc, r)
    }

    fn written(&self, alloc: Global, w: &mut VecWriter) -> Result<(), asn1_core::Error> {
        self.write(alloc, w)
    }
}

impl ReadAndWritten for DigestInfo {
    fn read(alloc: Global, r: &mut SliceReader<'_>) -> Result<DigestInfo, Error> {
        DigestInfo::parse(alloc, r)
    }

    fn written(&self, alloc: Global, w: &mut VecWriter) -> Result<(), asn1_core::Error> {
        self.write(alloc, w)
    }
}

impl ReadAndWritten for EncryptedContentInfo {
    fn read(alloc: Global, r: &mut SliceReader<'_>) -> Result<EncryptedContentInfo, Error> {
        EncryptedContentInfo::parse(alloc, r)
    }

    fn written(&self, alloc: Global, w: &mut VecWriter) -> Result<(), asn1_core::Error> {
        self.write(alloc, w)
    }
}

impl ReadAndWritten for EncryptedData {
    fn read(alloc: Global, r: &mut SliceReader<'_>) -> Result<EncryptedData, Error> {
        EncryptedData::parse(alloc, r)
    }

    fn written(&self, alloc: Global, w: &mut VecWriter) -> Result<(), asn1_core::Error> {
        self.write(alloc, w)
    }
}

impl ReadAndWritten for MacData {
    fn read(alloc: Global, r: &mut SliceReader<'_>) -> Result<MacData, Error> {
        MacData::parse(alloc, r)
    }

    fn written(&self, alloc: Global, w: &mut VecWriter) -> Result<(), asn1_core::Error> {
        self.write(alloc, w)
    }
}

impl ReadAndWritten for SafeBag {
    fn read(alloc: Global, r: &mut SliceReader<'_>) -> Result<SafeBag, Error> {
        SafeBag::parse(alloc, r)
    }

    fn written(&self, alloc: Global, w: &mut VecWriter) -> Result<(), asn1_core::Error> {
        self.write(alloc, w)
    }
}

/// What is written of a row that is read.
fn again<T: ReadAndWritten>(alloc: Global, text: &[u8]) -> Result<Octets, Error> {
    let mut w = VecWriter::new(alloc);
    T::read(alloc, &mut SliceReader::new(text))?.written(alloc, &mut w)?;
    Ok(w.into_octets())
}

/// Whether a row is read, and written as wanted.
fn is_written<T: ReadAndWritten>(alloc: Global, text: &[u8], wanted: &[u8]) -> bool {
    calls::gives(again::<T>(alloc, text), wanted)
}

#[test]
fn rows_are_written_as_they_were_read(rt: HostRuntime) {
    let alloc = rt.alloc();
    let digest = &SEALED_STORE[131..166];
    assert!(rt; is_written::<DigestInfo>(alloc, digest, digest));
    let mac = &SEALED_STORE[129..];
    assert!(rt; is_written::<MacData>(alloc, mac, mac));
    let encrypted_content = &SEALED_STORE[45..129];
    assert!(rt; is_written::<EncryptedContentInfo>(alloc, encrypted_content, encrypted_content));
    let encrypted_data = &SEALED_STORE[40..129];
    assert!(rt; is_written::<EncryptedData>(alloc, encrypted_data, encrypted_data));
    for content in [&SEALED_STORE[25..129], &SEALED_STORE[6..129]] {
        assert!(rt; is_written::<ContentInfo>(alloc, content, content));
    }
    let certificate = &NAMED_BAG[17..37];
    assert!(rt; is_written::<CertBag>(alloc, certificate, certificate));
    assert!(rt; is_written::<SafeBag>(alloc, SORTED_BAG, SORTED_BAG));
}

/// The MAC of `SEALED_STORE` in one round, whose count is left out.
const MAC_WITHOUT_COUNT: &[u8] =
    b"\x30\x2d\x30\x21\x30\x09\x06\x05\x2b\x0e\x03\x02\x1a\x05\x00\x04\x14\x5f\x73\x79\
    \xad\xe1\x22\x64\x29\x77\xf1\x23\xae\x10\xf9\xf1\x5c\xde\xb0\xbc\xc3\x04\x08\x01\
    \x02\x03\x04\x05\x06\x07\x08";

/// `NAMED_BAG` with its attributes in ascending order.
const SORTED_BAG: &[u8] =
    b"\x30\x4a\x06\x0b\x2a\x86\x48\x86\xf7\x0d\x01\x0c\x0a\x01\x03\xa0\x14\x30\x12\x06\
    \x0a\x2a\x86\x48\x86\xf7\x0d\x01\x09\x16\x01\xa0\x04\x04\x02\x30\x00\x31\x25\x30\
    \x10\x06\x09\x2a\x86\x48\x86\xf7\x0d\x01\x09\x15\x31\x03\x04\x01\x07\x30\x11\x06\
    \x09\x2a\x86\x48\x86\xf7\x0d\x01\x09\x14\x31\x04\x1e\x02\x00\x62";

/// A bag with an empty set of attributes.
const BAG_WITH_EMPTY_SET: &[u8] =
    b"\x30\x25\x06\x0b\x2a\x86\x48\x86\xf7\x0d\x01\x0c\x0a\x01\x03\xa0\x14\x30\x12\x06\
    \x0a\x2a\x86\x48\x86\xf7\x0d\x01\x09\x16\x01\xa0\x04\x04\x02\x30\x00\x31\x00";

/// The same with none.
const BAG_WITHOUT_SET: &[u8] =
    b"\x30\x23\x06\x0b\x2a\x86\x48\x86\xf7\x0d\x01\x0c\x0a\x01\x03\xa0\x14\x30\x12\x06\
    \x0a\x2a\x86\x48\x86\xf7\x0d\x01\x09\x16\x01\xa0\x04\x04\x02\x30\x00";

#[test]
fn other_spellings_are_written_canonically(rt: HostRuntime) {
    let alloc = rt.alloc();
    assert!(rt; is_written::<MacData>(alloc, MAC_WITHOUT_COUNT, &SEALED_STORE[129..]));
    assert!(rt; is_written::<SafeBag>(alloc, NAMED_BAG, SORTED_BAG));
    assert!(rt; is_written::<SafeBag>(alloc, BAG_WITH_EMPTY_SET, BAG_WITHOUT_SET));
}

/// What is written of the value of a bag of this kind.
fn kind_again(alloc: Global, kind: &[u8], value: &[u8]) -> Result<Octets, Error> {
    let kind = ObjectIdentifier::from_bytes(kind)?;
    let mut w = VecWriter::new(alloc);
    SafeBagKind::parse(alloc, &mut SliceReader::new(value), kind)?.write(alloc, &mut w)?;
    Ok(w.into_octets())
}

/// The octets of the identifiers of the kinds of bags, and values of these kinds (RFC 7292 section 4.2).
static KINDS: [(&[u8], &[u8]); 3] = [
    (
        b"\x2a\x86\x48\x86\xf7\x0d\x01\x0c\x0a\x01\x02",
        ENCRYPTED_KEY,
    ),
    (
        b"\x2a\x86\x48\x86\xf7\x0d\x01\x0c\x0a\x01\x03",
        b"\x30\x12\x06\x0a\x2a\x86\x48\x86\xf7\x0d\x01\x09\x16\x01\xa0\x04\x04\x02\x30\x00",
    ),
    (b"\x2a\x86\x48\x86\xf7\x0d\x01\x0c\x0a\x01\x04", b"\x05\x00"),
];

#[test]
fn values_of_bags_are_written_as_they_were_read(rt: HostRuntime) {
    for (kind, value) in &KINDS {
        assert!(rt; calls::gives(kind_again(rt.alloc(), kind, value), value));
    }
}

/// What `to_der` gives of a content that is read as a whole text.
fn content_again(alloc: Global, text: &[u8]) -> Result<Octets, Error> {
    ContentInfo::from_der(alloc, text)?.to_der(alloc)
}

/// What `to_der` gives of an encrypted content.
fn encrypted_content_again(alloc: Global, text: &[u8]) -> Result<Octets, Error> {
    EncryptedContentInfo::parse(alloc, &mut SliceReader::new(text))?.to_der(alloc)
}

/// What `to_der` gives of a store.
fn store_again(alloc: Global, text: &[u8]) -> Result<Octets, Error> {
    PFX::parse(alloc, text)?.to_der(alloc)
}

/// What `write` writes of a store.
fn store_written(alloc: Global, text: &[u8]) -> Result<Octets, Error> {
    let mut w = VecWriter::new(alloc);
    PFX::parse(alloc, text)?.write(alloc, &mut w)?;
    Ok(w.into_octets())
}

#[test]
fn whole_texts_are_written_as_they_were_read(rt: HostRuntime) {
    let alloc = rt.alloc();
    let content = &SEALED_STORE[6..129];
    assert!(rt; calls::gives(content_again(alloc, content), content));
    let encrypted_content = &SEALED_STORE[45..129];
    assert!(rt;
        calls::gives(
            encrypted_content_again(alloc, encrypted_content),
            encrypted_content
        )
    );
    for store in [STORE, SEALED_STORE] {
        assert!(rt; calls::gives(store_again(alloc, store), store));
        assert!(rt; calls::gives(store_written(alloc, store), store));
    }
}

/// Whether these octets are refused as no store.
fn is_no_store(alloc: Global, text: &[u8]) -> bool {
    matches!(calls::store(alloc, text), Err(Error::Malformed))
}

/// Whether the store with one octet more is refused.
fn is_longer_refused(alloc: Global) -> bool {
    let Ok(mut longer) = Octets::from_slice(alloc, STORE) else {
        return false;
    };
    longer.push(0).is_ok() && is_no_store(alloc, longer.as_slice())
}

#[test]
fn no_front_of_a_store_is_one_nor_a_store_with_an_octet_more(rt: HostRuntime) {
    let alloc = rt.alloc();
    for len in 0..STORE.len() {
        assert!(rt; is_no_store(alloc, &STORE[..len]));
    }
    assert!(rt; is_longer_refused(alloc));
}
