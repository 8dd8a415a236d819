//! The object identifiers of PBES2.
use asn1_core::ObjectIdentifier;

/// PBES2 (RFC 8018 appendix A.4): encryption under a password by a key derivation function and a cipher.
pub const PBES2_OID: ObjectIdentifier = ObjectIdentifier {
    octets: [
        0x2a, 0x86, 0x48, 0x86, 0xf7, 0x0d, 0x01, 0x05, 0x0d, 0, 0, 0, 0, 0, 0, 0, 0, 0, 0, 0, 0,
        0, 0, 0, 0, 0, 0, 0, 0, 0, 0, 0, 0, 0, 0, 0, 0, 0, 0,
    ],
    size: 9,
};

/// PBKDF2 (RFC 8018 appendix A.2).
pub const PBKDF2_OID: ObjectIdentifier = ObjectIdentifier {
    octets: [
        0x2a, 0x86, 0x48, 0x86, 0xf7, 0x0d, 0x01, 0x05, 0x0c, 0, 0, 0, 0, 0, 0, 0, 0, 0, 0, 0, 0,
        0, 0, 0, 0, 0, 0, 0, 0, 0, 0, 0, 0, 0, 0, 0, 0, 0, 0,
    ],
    size: 9,
};

/// HMAC over SHA-1 (RFC 8018 appendix B.1.1).
pub const HMAC_WITH_SHA1_OID: ObjectIdentifier = ObjectIdentifier {
    octets: [
        0x2a, 0x86, 0x48, 0x86, 0xf7, 0x0d, 0x02, 0x07, 0, 0, 0, 0, 0, 0, 0, 0, 0, 0, 0, 0, 0, 0,
        0, 0, 0, 0, 0, 0, 0, 0, 0, 0, 0, 0, 0, 0, 0, 0, 0,
    ],
    size: 8,
};

/// HMAC over SHA-224 (RFC 8018 appendix B.1.2).
pub const HMAC_WITH_SHA224_OID: ObjectIdentifier = ObjectIdentifier {
    octets: [
        0x2a, 0x86, 0x48, 0x86, 0xf7, 0x0d, 0x02, 0x08, 0, 0, 0, 0, 0, 0, 0, 0, 0, 0, 0, 0, 0, 0,
        0, 0, 0, 0, 0, 0, 0, 0, 0, 0, 0, 0, 0, 0, 0, 0, 0,
    ],
    size: 8,
};

/// HMAC over SHA-256 (RFC 8018 appendix B.1.2).
pub const HMAC_WITH_SHA256_OID: ObjectIdentifier = ObjectIdentifier {
    octets: [
        0x2a, 0x86, 0x48, 0x86, 0xf7, 0x0d, 0x02, 0x09, 0, 0, 0, 0, 0, 0, 0, 0, 0, 0, 0, 0, 0, 0,
        0, 0, 0, 0, 0, 0, 0, 0, 0, 0, 0, 0, 0, 0, 0, 0, 0,
    ],
    size: 8,
};

/// HMAC over SHA-384 (RFC 8018 appendix B.1.2).
pub const HMAC_WITH_SHA384_OID: ObjectIdentifier = ObjectIdentifier {
    octets: [
        0x2a, 0x86, 0x48, 0x86, 0xf7, 0x0d, 0x02, 0x0a, 0, 0, 0, 0, 0, 0, 0, 0, 0, 0, 0, 0, 0, 0,
        0, 0, 0, 0, 0, 0, 0, 0, 0, 0, 0, 0, 0, 0, 0, 0, 0,
    ],
    size: 8,
};

/// HMAC over SHA-512 (RFC 8018 appendix B.1.2).
pub const HMAC_WITH_SHA512_OID: ObjectIdentifier = ObjectIdentifier {
    octets: [
        0x2a, 0x86, 0x48, 0x86, 0xf7, 0x0d, 0x02, 0x0b, 0, 0, 0, 0, 0, 0, 0, 0, 0, 0, 0, 0, 0, 0,
        0, 0, 0, 0, 0, 0, 0, 0, 0, 0, 0, 0, 0, 0, 0, 0, 0,
    ],
    size: 8,
};

/// AES with keys of 128 bits in CBC mode (RFC 8018 appendix B.2.5).
pub const AES_128_CBC_OID: ObjectIdentifier = ObjectIdentifier {
    octets: [
        0x60, 0x86, 0x48, 0x01, 0x65, 0x03, 0x04, 0x01, 0x02, 0, 0, 0, 0, 0, 0, 0, 0, 0, 0, 0, 0,
        0, 0, 0, 0, 0, 0, 0, 0, 0, 0, 0, 0, 0, 0, 0, 0, 0, 0,
    ],
    size: 9,
};

/// AES with keys of 192 bits in CBC mode (RFC 8018 appendix B.2.5).
pub const AES_192_CBC_OID: ObjectIdentifier = ObjectIdentifier {
    octets: [
        0x60, 0x86, 0x48, 0x01, 0x65, 0x03, 0x04, 0x01, 0x16, 0, 0, 0, 0, 0, 0, 0, 0, 0, 0, 0, 0,
        0, 0, 0, 0, 0, 0, 0, 0, 0, 0, 0, 0, 0, 0, 0, 0, 0, 0,
    ],
    size: 9,
};

/// AES with keys of 256 bits in CBC mode (RFC 8018 appendix B.2.5).
pub const AES_256_CBC_OID: ObjectIdentifier = ObjectIdentifier {
    octets: [
        0x60, 0x86, 0x48, 0x01, 0x65, 0x03, 0x04, 0x01, 0x2a, 0, 0, 0, 0, 0, 0, 0, 0, 0, 0, 0, 0,
        0, 0, 0, 0, 0, 0, 0, 0, 0, 0, 0, 0, 0, 0, 0, 0, 0, 0,
    ],
    size: 9,
};

/// scrypt (RFC 7914 section 7).
pub const SCRYPT_OID: ObjectIdentifier = ObjectIdentifier {
    octets: [
        0x2b, 0x06, 0x01, 0x04, 0x01, 0xda, 0x47, 0x04, 0x0b, 0, 0, 0, 0, 0, 0, 0, 0, 0, 0, 0, 0,
        0, 0, 0, 0, 0, 0, 0, 0, 0, 0, 0, 0, 0, 0, 0, 0, 0, 0,
    ],
    size: 9,
};

/// AES with keys of 128 bits in GCM (RFC 5084 section 3.2).
pub const AES_128_GCM_OID: ObjectIdentifier = ObjectIdentifier {
    octets: [
        0x60, 0x86, 0x48, 0x01, 0x65, 0x03, 0x04, 0x01, 0x06, 0, 0, 0, 0, 0, 0, 0, 0, 0, 0, 0, 0,
        0, 0, 0, 0, 0, 0, 0, 0, 0, 0, 0, 0, 0, 0, 0, 0, 0, 0,
    ],
    size: 9,
};

/// AES with keys of 256 bits in GCM (RFC 5084 section 3.2).
pub const AES_256_GCM_OID: ObjectIdentifier = ObjectIdentifier {
    octets: [
        0x60, 0x86, 0x48, 0x01, 0x65, 0x03, 0x04, 0x01, 0x2e, 0, 0, 0, 0, 0, 0, 0, 0, 0, 0, 0, 0,
        0, 0, 0, 0, 0, 0, 0, 0, 0, 0, 0, 0, 0, 0, 0, 0, 0, 0,
    ],
    size: 9,
};

/// Triple DES in CBC mode (RFC 8018 appendix B.2.2).
pub const DES_EDE3_CBC_OID: ObjectIdentifier = ObjectIdentifier {
    octets: [
        0x2a, 0x86, 0x48, 0x86, 0xf7, 0x0d, 0x03, 0x07, 0, 0, 0, 0, 0, 0, 0, 0, 0, 0, 0, 0, 0, 0,
        0, 0, 0, 0, 0, 0, 0, 0, 0, 0, 0, 0, 0, 0, 0, 0, 0,
    ],
    size: 8,
};

/// DES in CBC mode (RFC 8018 appendix B.2.1).
pub const DES_CBC_OID: ObjectIdentifier = ObjectIdentifier {
    octets: [
        0x2b, 0x0e, 0x03, 0x02, 0x07, 0, 0, 0, 0, 0, 0, 0, 0, 0, 0, 0, 0, 0, 0, 0, 0, 0, 0, 0, 0,
        0, 0, 0, 0, 0, 0, 0, 0, 0, 0, 0, 0, 0, 0,
    ],
    size: 5,
};
