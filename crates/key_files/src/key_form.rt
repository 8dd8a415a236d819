//! The forms of private keys in PEM files.
ghost use Rattle.std.specs.Prelude.{◌≡◌, codes};
ghost use Rattle.key_files.specs.Blocks.{form_of, is_key_label};

/// The forms of private keys, by the labels of their blocks.
#[derive(Clone, Copy, Debug, PartialEq, Eq)]
pub enum KeyForm {
    /// `PRIVATE KEY`: PrivateKeyInfo (RFC 5958).
    Plain,
    /// `ENCRYPTED PRIVATE KEY`: EncryptedPrivateKeyInfo (RFC 5958).
    Encrypted,
    /// `RSA PRIVATE KEY`: RSAPrivateKey (RFC 8017).
    Rsa,
    /// `EC PRIVATE KEY`: ECPrivateKey (RFC 5915).
    Ec,
    /// Any other label.
    Other,
}

/// Whether a label is that of a private key: it ends with `PRIVATE KEY`.
pub(crate) fn is_key_label(label: &[u8]) -> bool
    ensures { result ≡ is_key_label label.now }
{
    label.ends_with(b"PRIVATE KEY")
}

/// The form of the private key in a block of this label.
pub fn form_of(label: &[u8]) -> KeyForm
    ensures { result ≡ form_of label.now }
{
    if label == b"PRIVATE KEY".as_slice() {
        KeyForm::Plain
    } else if label == b"ENCRYPTED PRIVATE KEY".as_slice() {
        KeyForm::Encrypted
    } else if label == b"RSA PRIVATE KEY".as_slice() {
        KeyForm::Rsa
    } else if label == b"EC PRIVATE KEY".as_slice() {
        KeyForm::Ec
    } else {
        KeyForm::Other
    }
}
