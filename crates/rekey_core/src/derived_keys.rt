//! Keys that are derived before the parts are sealed.
ghost use Rattle.std.specs.Prelude.{◌≡◌, IfSome, map};
ghost use Rattle.pkcs5.specs.Opening.{sha256_key};

use asn1_core::Items;
use pkcs5::pbes2::{EncryptionKey, Salt};

/// The keys of 32 octets that PBKDF2 with HMAC-SHA-256 derives from a password in this number of rounds, one for each
/// of these salts (RFC 8018 section 5.2).
#[derive(Drop)]
pub(crate) struct DerivedKeys<'a> {
    pub(crate) password: &'a str,
    pub(crate) rounds: u32,
    pub(crate) salts: Items<Salt>,
    pub(crate) keys: Items<EncryptionKey>,
    ghost are_derived: { keys ≡ map (λ salt. sha256_key rounds password.now salt) salts },
}

/// One of them, by its place.
#[derive(Clone, Copy, Drop)]
pub(crate) struct DerivedKey<'a> {
    pub(crate) among: &'a DerivedKeys<'a>,
    pub(crate) place: usize,
}

impl<'a> DerivedKey<'a> {
    /// The key, where it was derived from this password in these rounds under this salt.
    pub(crate) fn key_from(
        &self,
        password: &str,
        rounds: u32,
        salt: &[u8],
    ) -> Option<&'a EncryptionKey>
        ensures { IfSome result (λ key. key.now ≡ sha256_key rounds password.now salt.now) }
    {
        let among = self.among;
        let Some(own) = among.salts.get(self.place) else {
            return None;
        };
        let Some(key) = among.keys.get(self.place) else {
            return None;
        };
        if among.rounds == rounds && own.as_bytes() == salt && among.password == password {
            Some(key)
        } else {
            None
        }
    }
}
