//! PBES2 (RFC 8018 section 6.2): a key derivation function and a cipher.

mod cipher;
mod encryption_key;
mod encryption_scheme;
mod identifiers;
mod kdf;
mod parameters;
mod pbkdf2_params;
mod pbkdf2_prf;
mod salt;
mod scrypt_params;

pub use encryption_key::EncryptionKey;
pub use encryption_scheme::EncryptionScheme;
pub use identifiers::{
    AES_128_CBC_OID, AES_128_GCM_OID, AES_192_CBC_OID, AES_256_CBC_OID, AES_256_GCM_OID,
    DES_CBC_OID, DES_EDE3_CBC_OID, HMAC_WITH_SHA1_OID, HMAC_WITH_SHA224_OID, HMAC_WITH_SHA256_OID,
    HMAC_WITH_SHA384_OID, HMAC_WITH_SHA512_OID, PBES2_OID, PBKDF2_OID, SCRYPT_OID,
};
pub use kdf::Kdf;
pub use parameters::Parameters;
pub use pbkdf2_params::Pbkdf2Params;
pub use pbkdf2_prf::Pbkdf2Prf;
pub use salt::Salt;
pub use scrypt_params::ScryptParams;
