//! How long a store may be, and how much memory scrypt may take.

/// The most octets that a store may have, and so each of its parts.
pub(crate) const STORE_LIMIT: usize = 16_777_215;

/// The most octets of memory that scrypt may take to derive the key of one text: 64 MiB. With r = 8 this is enough for N = 2^15.
pub const SCRYPT_MEMORY_LIMIT: u128 = 67_108_864;
