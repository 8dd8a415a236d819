//! What of a store is older than what is written today.
use crate::json_text::add_comma;
use crate::old_cipher::OldCipher;
use std::alloc::{AllocError, Global};
use std::fmt::Write;

/// What was old in a store that is opened.
#[derive(Clone, Copy)]
pub struct OldParts {
    /// Whether it is in BER.
    ber: bool,
    /// Whether it was made with no password at all.
    no_password: bool,
    /// Whether a content is under RC2 with 40 bits.
    short_content: bool,
    /// Whether a private key is under RC2 with 40 bits.
    short_key: bool,
    /// Whether something is under RC2 with 128 bits.
    long_rc2: bool,
    /// Whether something is under Triple DES with two keys.
    two_keys: bool,
}

impl OldParts {
    /// Nothing yet.
    pub fn new() -> OldParts {
        OldParts {
            ber: false,
            no_password: false,
            short_content: false,
            short_key: false,
            long_rc2: false,
            two_keys: false,
        }
    }

    /// Notes the encoding of the store, and whether it has a password.
    pub fn note_store(&mut self, ber: bool, no_password: bool) {
        self.ber = ber;
        self.no_password = no_password;
    }

    /// Notes the cipher of a content.
    pub fn note_content(&mut self, cipher: OldCipher) {
        match cipher {
            OldCipher::Rc2Of40 => self.short_content = true,
            OldCipher::Rc2Of128 => self.long_rc2 = true,
            OldCipher::TwoKeyTripleDes => self.two_keys = true,
        }
    }

    /// Notes the cipher of a private key.
    pub fn note_key(&mut self, cipher: OldCipher) {
        match cipher {
            OldCipher::Rc2Of40 => self.short_key = true,
            OldCipher::Rc2Of128 => self.long_rc2 = true,
            OldCipher::TwoKeyTripleDes => self.two_keys = true,
        }
    }

    /// What is said of each, and its name in JSON.
    fn said(&self) -> [(bool, &'static str, &'static str); 6] {
        [
            (
                self.ber,
                "BER",
                "the store is in BER, an older form than DER",
            ),
            (
                self.no_password,
                "no password",
                "the store was made with no password at all, so anybody who has a copy can open it",
            ),
            (
                self.short_content,
                "certificates under 40-bit RC2",
                "the certificates of this store were under 40-bit RC2, which does not protect them from anybody who has a copy",
            ),
            (
                self.short_key,
                "private key under 40-bit RC2",
                "a private key of this store was under 40-bit RC2, which does not protect it from anybody who has a copy: replace the key",
            ),
            (
                self.long_rc2,
                "128-bit RC2",
                "something in this store was under 128-bit RC2, which few programs open any more",
            ),
            (
                self.two_keys,
                "two-key Triple DES",
                "something in this store was under Triple DES with two keys, which few programs open any more",
            ),
        ]
    }

    /// Whether something is old.
    pub fn has_some(&self) -> bool {
        self.ber
            || self.no_password
            || self.short_content
            || self.short_key
            || self.long_rc2
            || self.two_keys
    }

    /// A line for each, for the standard error.
    pub fn lines(&self, alloc: Global) -> Result<String, AllocError> {
        let mut text = String::new(alloc);
        for (is_so, _, sentence) in self.said() {
            if is_so {
                writeln!(text, "pkcs12: {sentence}")?;
            }
        }
        Ok(text)
    }

    /// Adds a line for each to what `check` says.
    pub fn add_text(&self, text: &mut String) -> Result<(), AllocError> {
        for (is_so, _, sentence) in self.said() {
            if is_so {
                writeln!(text, "old: {sentence}")?;
            }
        }
        Ok(())
    }

    /// Adds an array in JSON with the name of each.
    pub fn add_json(&self, text: &mut String) -> Result<(), AllocError> {
        text.push_str(",\n  \"old\": [")?;
        let mut count = 0usize;
        for (is_so, name, _) in self.said() {
            if is_so {
                add_comma(text, count)?;
                write!(text, "\"{name}\"")?;
                count = count.saturating_add(1);
            }
        }
        text.push_str("]")
    }
}
