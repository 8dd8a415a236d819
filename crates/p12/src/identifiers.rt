//! The object identifiers of PKCS#12.
use asn1_core::ObjectIdentifier;

/// id-sha1 (RFC 8017 appendix B.1).
pub(crate) const SHA1: ObjectIdentifier = ObjectIdentifier {
    octets: [
        0x2b, 0x0e, 0x03, 0x02, 0x1a, 0, 0, 0, 0, 0, 0, 0, 0, 0, 0, 0, 0, 0, 0, 0, 0, 0, 0, 0, 0,
        0, 0, 0, 0, 0, 0, 0, 0, 0, 0, 0, 0, 0, 0,
    ],
    size: 5,
};

/// id-sha256 (RFC 8017 appendix B.1).
pub(crate) const SHA256: ObjectIdentifier = ObjectIdentifier {
    octets: [
        0x60, 0x86, 0x48, 0x01, 0x65, 0x03, 0x04, 0x02, 0x01, 0, 0, 0, 0, 0, 0, 0, 0, 0, 0, 0, 0,
        0, 0, 0, 0, 0, 0, 0, 0, 0, 0, 0, 0, 0, 0, 0, 0, 0, 0,
    ],
    size: 9,
};

/// id-data (RFC 5652 section 4).
pub(crate) const DATA: ObjectIdentifier = ObjectIdentifier {
    octets: [
        0x2a, 0x86, 0x48, 0x86, 0xf7, 0x0d, 0x01, 0x07, 0x01, 0, 0, 0, 0, 0, 0, 0, 0, 0, 0, 0, 0,
        0, 0, 0, 0, 0, 0, 0, 0, 0, 0, 0, 0, 0, 0, 0, 0, 0, 0,
    ],
    size: 9,
};

/// id-encryptedData (RFC 5652 section 8).
pub(crate) const ENCRYPTED_DATA: ObjectIdentifier = ObjectIdentifier {
    octets: [
        0x2a, 0x86, 0x48, 0x86, 0xf7, 0x0d, 0x01, 0x07, 0x06, 0, 0, 0, 0, 0, 0, 0, 0, 0, 0, 0, 0,
        0, 0, 0, 0, 0, 0, 0, 0, 0, 0, 0, 0, 0, 0, 0, 0, 0, 0,
    ],
    size: 9,
};

/// friendlyName (RFC 2985 section 5.5.1).
pub(crate) const FRIENDLY_NAME: ObjectIdentifier = ObjectIdentifier {
    octets: [
        0x2a, 0x86, 0x48, 0x86, 0xf7, 0x0d, 0x01, 0x09, 0x14, 0, 0, 0, 0, 0, 0, 0, 0, 0, 0, 0, 0,
        0, 0, 0, 0, 0, 0, 0, 0, 0, 0, 0, 0, 0, 0, 0, 0, 0, 0,
    ],
    size: 9,
};

/// localKeyId (RFC 2985 section 5.5.2).
pub(crate) const LOCAL_KEY_ID: ObjectIdentifier = ObjectIdentifier {
    octets: [
        0x2a, 0x86, 0x48, 0x86, 0xf7, 0x0d, 0x01, 0x09, 0x15, 0, 0, 0, 0, 0, 0, 0, 0, 0, 0, 0, 0,
        0, 0, 0, 0, 0, 0, 0, 0, 0, 0, 0, 0, 0, 0, 0, 0, 0, 0,
    ],
    size: 9,
};

/// x509Certificate (RFC 7292 section 4.2.3).
pub(crate) const X509_CERTIFICATE: ObjectIdentifier = ObjectIdentifier {
    octets: [
        0x2a, 0x86, 0x48, 0x86, 0xf7, 0x0d, 0x01, 0x09, 0x16, 0x01, 0, 0, 0, 0, 0, 0, 0, 0, 0, 0,
        0, 0, 0, 0, 0, 0, 0, 0, 0, 0, 0, 0, 0, 0, 0, 0, 0, 0, 0,
    ],
    size: 10,
};

/// sdsiCertificate (RFC 7292 section 4.2.3).
pub(crate) const SDSI_CERTIFICATE: ObjectIdentifier = ObjectIdentifier {
    octets: [
        0x2a, 0x86, 0x48, 0x86, 0xf7, 0x0d, 0x01, 0x09, 0x16, 0x02, 0, 0, 0, 0, 0, 0, 0, 0, 0, 0,
        0, 0, 0, 0, 0, 0, 0, 0, 0, 0, 0, 0, 0, 0, 0, 0, 0, 0, 0,
    ],
    size: 10,
};

/// pkcs8ShroudedKeyBag (RFC 7292 section 4.2.2).
pub(crate) const SHROUDED_KEY_BAG: ObjectIdentifier = ObjectIdentifier {
    octets: [
        0x2a, 0x86, 0x48, 0x86, 0xf7, 0x0d, 0x01, 0x0c, 0x0a, 0x01, 0x02, 0, 0, 0, 0, 0, 0, 0, 0,
        0, 0, 0, 0, 0, 0, 0, 0, 0, 0, 0, 0, 0, 0, 0, 0, 0, 0, 0, 0,
    ],
    size: 11,
};

/// certBag (RFC 7292 section 4.2.3).
pub(crate) const CERT_BAG: ObjectIdentifier = ObjectIdentifier {
    octets: [
        0x2a, 0x86, 0x48, 0x86, 0xf7, 0x0d, 0x01, 0x0c, 0x0a, 0x01, 0x03, 0, 0, 0, 0, 0, 0, 0, 0,
        0, 0, 0, 0, 0, 0, 0, 0, 0, 0, 0, 0, 0, 0, 0, 0, 0, 0, 0, 0,
    ],
    size: 11,
};

/// pbeWithSHAAnd3-KeyTripleDES-CBC (RFC 7292 appendix C).
pub(crate) const PBE_WITH_SHA1_AND_3KEY_TRIPLE_DES_CBC: ObjectIdentifier = ObjectIdentifier {
    octets: [
        0x2a, 0x86, 0x48, 0x86, 0xf7, 0x0d, 0x01, 0x0c, 0x01, 0x03, 0, 0, 0, 0, 0, 0, 0, 0, 0, 0,
        0, 0, 0, 0, 0, 0, 0, 0, 0, 0, 0, 0, 0, 0, 0, 0, 0, 0, 0,
    ],
    size: 10,
};

/// pbeWithSHAAnd40BitRC2-CBC (RFC 7292 appendix C).
pub(crate) const PBE_WITH_SHA1_AND_40BIT_RC2_CBC: ObjectIdentifier = ObjectIdentifier {
    octets: [
        0x2a, 0x86, 0x48, 0x86, 0xf7, 0x0d, 0x01, 0x0c, 0x01, 0x06, 0, 0, 0, 0, 0, 0, 0, 0, 0, 0,
        0, 0, 0, 0, 0, 0, 0, 0, 0, 0, 0, 0, 0, 0, 0, 0, 0, 0, 0,
    ],
    size: 10,
};
