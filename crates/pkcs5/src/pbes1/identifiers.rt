//! The object identifiers of PBES1 (RFC 8018 appendix A.3).
use asn1_core::ObjectIdentifier;

/// MD2 and DES in CBC mode.
pub const PBE_WITH_MD2_AND_DES_CBC_OID: ObjectIdentifier = ObjectIdentifier {
    octets: [
        0x2a, 0x86, 0x48, 0x86, 0xf7, 0x0d, 0x01, 0x05, 0x01, 0, 0, 0, 0, 0, 0, 0, 0, 0, 0, 0, 0,
        0, 0, 0, 0, 0, 0, 0, 0, 0, 0, 0, 0, 0, 0, 0, 0, 0, 0,
    ],
    size: 9,
};

/// MD5 and DES in CBC mode.
pub const PBE_WITH_MD5_AND_DES_CBC_OID: ObjectIdentifier = ObjectIdentifier {
    octets: [
        0x2a, 0x86, 0x48, 0x86, 0xf7, 0x0d, 0x01, 0x05, 0x03, 0, 0, 0, 0, 0, 0, 0, 0, 0, 0, 0, 0,
        0, 0, 0, 0, 0, 0, 0, 0, 0, 0, 0, 0, 0, 0, 0, 0, 0, 0,
    ],
    size: 9,
};

/// MD2 and RC2 in CBC mode.
pub const PBE_WITH_MD2_AND_RC2_CBC_OID: ObjectIdentifier = ObjectIdentifier {
    octets: [
        0x2a, 0x86, 0x48, 0x86, 0xf7, 0x0d, 0x01, 0x05, 0x04, 0, 0, 0, 0, 0, 0, 0, 0, 0, 0, 0, 0,
        0, 0, 0, 0, 0, 0, 0, 0, 0, 0, 0, 0, 0, 0, 0, 0, 0, 0,
    ],
    size: 9,
};

/// MD5 and RC2 in CBC mode.
pub const PBE_WITH_MD5_AND_RC2_CBC_OID: ObjectIdentifier = ObjectIdentifier {
    octets: [
        0x2a, 0x86, 0x48, 0x86, 0xf7, 0x0d, 0x01, 0x05, 0x06, 0, 0, 0, 0, 0, 0, 0, 0, 0, 0, 0, 0,
        0, 0, 0, 0, 0, 0, 0, 0, 0, 0, 0, 0, 0, 0, 0, 0, 0, 0,
    ],
    size: 9,
};

/// SHA-1 and DES in CBC mode.
pub const PBE_WITH_SHA1_AND_DES_CBC_OID: ObjectIdentifier = ObjectIdentifier {
    octets: [
        0x2a, 0x86, 0x48, 0x86, 0xf7, 0x0d, 0x01, 0x05, 0x0a, 0, 0, 0, 0, 0, 0, 0, 0, 0, 0, 0, 0,
        0, 0, 0, 0, 0, 0, 0, 0, 0, 0, 0, 0, 0, 0, 0, 0, 0, 0,
    ],
    size: 9,
};

/// SHA-1 and RC2 in CBC mode.
pub const PBE_WITH_SHA1_AND_RC2_CBC_OID: ObjectIdentifier = ObjectIdentifier {
    octets: [
        0x2a, 0x86, 0x48, 0x86, 0xf7, 0x0d, 0x01, 0x05, 0x0b, 0, 0, 0, 0, 0, 0, 0, 0, 0, 0, 0, 0,
        0, 0, 0, 0, 0, 0, 0, 0, 0, 0, 0, 0, 0, 0, 0, 0, 0, 0,
    ],
    size: 9,
};
