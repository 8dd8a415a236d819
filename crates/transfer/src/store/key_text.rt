//! The opened text of an encrypted key (RFC 5958 section 2).
ghost use Rattle.std.specs.Prelude.{◌≡◌, ◌≤◌, length, None, IfSome};
ghost use Rattle.transfer.specs.InPlace.{IsOpenedKey};
ghost use Rattle.transfer.specs.Limits.{store_limit};
ghost use Rattle.transfer.specs.Opening.{NoKeyText};

use pkcs8::PrivateKeyInfoRef;

/// A private key that was opened, beside the text that it was read from.
#[derive(Drop)]
pub(crate) struct OpenedKey<'a> {
    pub(crate) text: &'a [u8],
    pub(crate) key: PrivateKeyInfoRef<'a>,
}

/// The private key whose text these octets are, if they are one.
pub(crate) fn opened_key(text: &[u8]) -> Option<OpenedKey<'_>>
    requires { length text.now ≤ store_limit }
    ensures some { IfSome result (λ k. IsOpenedKey k × (k.text.now ≡ text.now)) }
    ensures none { result ≡ None → NoKeyText text.now }
{
    match PrivateKeyInfoRef::try_from(text) {
        Ok(key) => Some(OpenedKey { text, key }),
        Err(_) => None,
    }
}
