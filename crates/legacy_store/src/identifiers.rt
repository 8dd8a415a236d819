//! Object identifiers of the algorithms of old stores.
use asn1_core::ObjectIdentifier;

/// pbeWithSHAAnd2-KeyTripleDES-CBC (RFC 7292 appendix C).
pub(crate) const PBE_WITH_SHA1_AND_2KEY_TRIPLE_DES_CBC: ObjectIdentifier = ObjectIdentifier {
    octets: [
        0x2a, 0x86, 0x48, 0x86, 0xf7, 0x0d, 0x01, 0x0c, 0x01, 0x04, 0, 0, 0, 0, 0, 0, 0, 0, 0, 0,
        0, 0, 0, 0, 0, 0, 0, 0, 0, 0, 0, 0, 0, 0, 0, 0, 0, 0, 0,
    ],
    size: 10,
};

/// pbeWithSHAAnd128BitRC2-CBC (RFC 7292 appendix C).
pub(crate) const PBE_WITH_SHA1_AND_128BIT_RC2_CBC: ObjectIdentifier = ObjectIdentifier {
    octets: [
        0x2a, 0x86, 0x48, 0x86, 0xf7, 0x0d, 0x01, 0x0c, 0x01, 0x05, 0, 0, 0, 0, 0, 0, 0, 0, 0, 0,
        0, 0, 0, 0, 0, 0, 0, 0, 0, 0, 0, 0, 0, 0, 0, 0, 0, 0, 0,
    ],
    size: 10,
};

/// id-sha224 (RFC 8017 appendix B.1).
pub(crate) const SHA224: ObjectIdentifier = ObjectIdentifier {
    octets: [
        0x60, 0x86, 0x48, 0x01, 0x65, 0x03, 0x04, 0x02, 0x04, 0, 0, 0, 0, 0, 0, 0, 0, 0, 0, 0, 0,
        0, 0, 0, 0, 0, 0, 0, 0, 0, 0, 0, 0, 0, 0, 0, 0, 0, 0,
    ],
    size: 9,
};

/// id-sha384 (RFC 8017 appendix B.1).
pub(crate) const SHA384: ObjectIdentifier = ObjectIdentifier {
    octets: [
        0x60, 0x86, 0x48, 0x01, 0x65, 0x03, 0x04, 0x02, 0x02, 0, 0, 0, 0, 0, 0, 0, 0, 0, 0, 0, 0,
        0, 0, 0, 0, 0, 0, 0, 0, 0, 0, 0, 0, 0, 0, 0, 0, 0, 0,
    ],
    size: 9,
};

/// id-sha512 (RFC 8017 appendix B.1).
pub(crate) const SHA512: ObjectIdentifier = ObjectIdentifier {
    octets: [
        0x60, 0x86, 0x48, 0x01, 0x65, 0x03, 0x04, 0x02, 0x03, 0, 0, 0, 0, 0, 0, 0, 0, 0, 0, 0, 0,
        0, 0, 0, 0, 0, 0, 0, 0, 0, 0, 0, 0, 0, 0, 0, 0, 0, 0,
    ],
    size: 9,
};

/// id-PBMAC1 (RFC 8018 appendix A.5).
pub(crate) const PBMAC1: ObjectIdentifier = ObjectIdentifier {
    octets: [
        0x2a, 0x86, 0x48, 0x86, 0xf7, 0x0d, 0x01, 0x05, 0x0e, 0, 0, 0, 0, 0, 0, 0, 0, 0, 0, 0, 0,
        0, 0, 0, 0, 0, 0, 0, 0, 0, 0, 0, 0, 0, 0, 0, 0, 0, 0,
    ],
    size: 9,
};

/// id-data (RFC 5652 section 4).
pub(crate) const DATA: ObjectIdentifier = ObjectIdentifier {
    octets: [
        0x2a, 0x86, 0x48, 0x86, 0xf7, 0x0d, 0x01, 0x07, 0x01, 0, 0, 0, 0, 0, 0, 0, 0, 0, 0, 0, 0,
        0, 0, 0, 0, 0, 0, 0, 0, 0, 0, 0, 0, 0, 0, 0, 0, 0, 0,
    ],
    size: 9,
};

/// id-encryptedData (RFC 5652 section 8).
pub(crate) const ENCRYPTED_DATA: ObjectIdentifier = ObjectIdentifier {
    octets: [
        0x2a, 0x86, 0x48, 0x86, 0xf7, 0x0d, 0x01, 0x07, 0x06, 0, 0, 0, 0, 0, 0, 0, 0, 0, 0, 0, 0,
        0, 0, 0, 0, 0, 0, 0, 0, 0, 0, 0, 0, 0, 0, 0, 0, 0, 0,
    ],
    size: 9,
};
