//! Parts of stores that are copied: each copy has what was read.

use crate::calls;
use crate::stores_read::{ENCRYPTED_KEY, sealed_content, sha1_mac};
use asn1_core::SliceReader;
use p12::{
    ContentInfo, DigestInfo, EncryptedContentInfo, EncryptedData, EncryptedPrivateKeyInfo, Error,
    MacData, OtherAttribute, OtherBag, OtherContext, PKCS12Attribute, SafeBag, SafeBagKind,
};
use std::alloc::Global;

/// Whether this is a copy of a digest.
fn is_digest(copy: Result<DigestInfo, Error>, read: &DigestInfo) -> bool {
    match copy {
        Ok(copy) => copy.digest == read.digest,
        Err(_) => false,
    }
}

/// Whether the digest of a MAC is copied.
fn is_digest_copied(alloc: Global, answer: Result<MacData, Error>) -> bool {
    match answer {
        Ok(mac) => is_digest(mac.mac.try_clone(alloc), &mac.mac),
        Err(_) => false,
    }
}

/// Whether this is a copy of a key.
fn is_key(copy: Result<EncryptedPrivateKeyInfo, Error>, read: &EncryptedPrivateKeyInfo) -> bool {
    match copy {
        Ok(copy) => copy.encrypted_data == read.encrypted_data,
        Err(_) => false,
    }
}

/// Whether a key is copied.
fn is_key_copied(alloc: Global, answer: Result<EncryptedPrivateKeyInfo, Error>) -> bool {
    match answer {
        Ok(key) => is_key(key.try_clone(alloc), &key),
        Err(_) => false,
    }
}

/// Whether this is a copy of an encrypted content.
fn is_encrypted_data(copy: Result<EncryptedData, Error>, read: &EncryptedData) -> bool {
    match copy {
        Ok(copy) => copy.encrypted_content_info.encrypted_content
            == read.encrypted_content_info.encrypted_content,
        Err(_) => false,
    }
}

/// The same without its version.
fn is_encrypted_content(
    copy: Result<EncryptedContentInfo, Error>,
    read: &EncryptedContentInfo,
) -> bool {
    match copy {
        Ok(copy) => copy.encrypted_content == read.encrypted_content,
        Err(_) => false,
    }
}

/// Whether an encrypted content is copied, as a whole and without its version.
fn is_sealed_content_copied(alloc: Global, answer: Result<ContentInfo, Error>) -> bool {
    match answer {
        Ok(ContentInfo::EncryptedData(read)) => {
            let info = &read.encrypted_content_info;
            is_encrypted_data(read.try_clone(alloc), &read)
                && is_encrypted_content(info.try_clone(alloc), info)
        }
        _ => false,
    }
}

#[test]
fn copies_of_encrypted_parts_have_what_was_read(rt: HostRuntime) {
    let alloc = rt.alloc();
    assert!(rt; is_digest_copied(alloc, sha1_mac(alloc)));
    assert!(rt; is_key_copied(alloc, calls::encrypted_key(alloc, ENCRYPTED_KEY)));
    assert!(rt; is_sealed_content_copied(alloc, sealed_content(alloc)));
}

/// The identifier 1.2 and NULL: the text of a content, and of a bag, of another kind.
const OTHER: &[u8] = b"\x30\x07\x06\x01\x2a\xa0\x02\x05\x00";

/// Whether this is a copy of a content of another kind.
fn is_other_content(copy: Result<OtherContext, Error>, read: &OtherContext) -> bool {
    match copy {
        Ok(copy) => copy.content == read.content,
        Err(_) => false,
    }
}

/// Whether such a content is copied.
fn is_other_content_copied(alloc: Global) -> bool {
    match ContentInfo::parse(alloc, &mut SliceReader::new(OTHER)) {
        Ok(ContentInfo::OtherContext(read)) => is_other_content(read.try_clone(alloc), &read),
        _ => false,
    }
}

/// Whether this is a copy of a bag of another kind.
fn is_other_bag(copy: Result<OtherBag, Error>, read: &OtherBag) -> bool {
    match copy {
        Ok(copy) => copy.bag_value == read.bag_value,
        Err(_) => false,
    }
}

/// Whether such a bag is copied.
fn is_other_bag_copied(alloc: Global, kind: &SafeBagKind) -> bool {
    match kind {
        SafeBagKind::OtherBagKind(read) => is_other_bag(read.try_clone(alloc), read),
        _ => false,
    }
}

/// Whether the bag that is read is.
fn is_read_bag_copied(alloc: Global) -> bool {
    match SafeBag::parse(alloc, &mut SliceReader::new(OTHER)) {
        Ok(read) => is_other_bag_copied(alloc, &read.bag),
        Err(_) => false,
    }
}

/// The same as the text of an attribute.
const OTHER_ATTRIBUTE: &[u8] = b"\x30\x07\x06\x01\x2a\x31\x02\x05\x00";

/// Whether this is a copy of an attribute of one value.
fn is_other_attribute(copy: Result<OtherAttribute, Error>, read: &OtherAttribute) -> bool {
    match copy {
        Ok(copy) => copy.values.len() == 1 && copy.values.get(0) == read.values.get(0),
        Err(_) => false,
    }
}

/// Whether such an attribute is copied.
fn is_other_attribute_copied(alloc: Global) -> bool {
    match PKCS12Attribute::parse(alloc, &mut SliceReader::new(OTHER_ATTRIBUTE)) {
        Ok(PKCS12Attribute::Other(read)) => is_other_attribute(read.try_clone(alloc), &read),
        _ => false,
    }
}

#[test]
fn copies_of_other_parts_have_what_was_read(rt: HostRuntime) {
    let alloc = rt.alloc();
    assert!(rt; is_other_content_copied(alloc));
    assert!(rt; is_read_bag_copied(alloc));
    assert!(rt; is_other_attribute_copied(alloc));
}
