//! The algorithms that a store was made with.
use crate::algorithm_name::{InRounds, InUse};
use crate::inspection::contents_in;
use crate::json_text::add_comma;
use crate::old_cipher::OldCipher;
use crate::old_parts::OldParts;
use crate::pbmac1::Pbmac1;
use p12::{AlgorithmView, BagView, BagsView, ContentView, ContentsView, MacView, StoreView};
use pkcs5::pbes2::{EncryptionScheme, Kdf, Pbkdf2Prf};
use std::alloc::{AllocError, Global};
use std::fmt::Write;
use terminal_text::JsonString;

/// The most algorithms that are told apart.
const MOST_LINES: usize = 20;

/// The algorithms that a store was made with, with their rounds, as text.
#[derive(Drop)]
pub struct Algorithms {
    /// Those under which something is encrypted, each once, in store order.
    encryption: Vec<String>,
    /// Whether there are more of them.
    has_more: bool,
    mac: Option<String>,
    /// Whether the store has no MAC.
    is_bare: bool,
    /// Whether one of them is of before AES and SHA-256.
    has_old: bool,
    old: OldParts,
}

/// Whether an algorithm is Triple DES or DES, or made with SHA-1.
fn is_old(algorithm: &AlgorithmView<'_>) -> bool {
    match algorithm {
        AlgorithmView::Pbes2(parameters) => {
            let cipher = parameters.encryption;
            let is_sha1 = match &parameters.kdf {
                Kdf::Pbkdf2(params) => params.prf == Pbkdf2Prf::HmacWithSha1,
                Kdf::Scrypt(_) => false,
            };
            is_sha1
                || matches!(
                    cipher,
                    EncryptionScheme::DesCbc { .. } | EncryptionScheme::DesEde3Cbc { .. }
                )
        }
        AlgorithmView::Sha1 | AlgorithmView::Rc2 { .. } | AlgorithmView::TripleDes { .. } => true,
        AlgorithmView::Sha256 => false,
        AlgorithmView::Other { .. } => OldCipher::of(algorithm).is_some(),
    }
}

/// What a MAC is made with.
fn mac_text(alloc: Global, mac: &MacView<'_>) -> Result<String, AllocError> {
    if let Some(pbmac1) = Pbmac1::of(&mac.algorithm) {
        return format!(in alloc; "{pbmac1}");
    }
    let digest = InUse(&mac.algorithm);
    let rounds = InRounds(u64::from(mac.iterations));
    format!(in alloc; "HMAC with {digest}, {rounds}")
}

impl Algorithms {
    /// Those of the MAC and of the contents of a store.
    pub fn of(alloc: Global, store: &[u8]) -> Result<Algorithms, AllocError> {
        let mut found = Algorithms {
            encryption: Vec::new(alloc),
            has_more: false,
            mac: None,
            is_bare: false,
            has_old: false,
            old: OldParts::new(),
        };
        let Ok(view) = StoreView::parse(store) else {
            return Ok(found);
        };
        found.is_bare = view.mac_data.is_none();
        if let Some(mac) = &view.mac_data {
            found.mac = Some(mac_text(alloc, mac)?);
            found.has_old = is_old(&mac.algorithm);
        }
        if let Some(contents) = contents_in(&view) {
            found.add_contents(alloc, contents)?;
        }
        Ok(found)
    }

    /// Adds those of the contents that are still to come.
    fn add_contents(
        &mut self,
        alloc: Global,
        mut contents: ContentsView<'_>,
    ) -> Result<(), AllocError> {
        while let Some(content) = contents.next() {
            if let ContentView::Encrypted { algorithm, .. } = &content {
                self.add(alloc, algorithm)?;
                if let Some(cipher) = OldCipher::of(algorithm) {
                    self.old.note_content(cipher);
                }
            }
        }
        Ok(())
    }

    /// Adds those of the private keys among the bags that are still to come.
    pub fn add_bags(&mut self, alloc: Global, mut bags: BagsView<'_>) -> Result<(), AllocError> {
        while let Some(bag) = bags.next() {
            if let BagView::Shrouded { algorithm, .. } = &bag {
                self.add(alloc, algorithm)?;
                if let Some(cipher) = OldCipher::of(algorithm) {
                    self.old.note_key(cipher);
                }
            }
        }
        Ok(())
    }

    /// Adds an algorithm, where it is not there yet.
    fn add(&mut self, alloc: Global, algorithm: &AlgorithmView<'_>) -> Result<(), AllocError> {
        self.has_old = self.has_old || is_old(algorithm);
        let text = format!(in alloc; "{}", InUse(algorithm))?;
        if self
            .encryption
            .iter()
            .any(|each| each.as_str() == text.as_str())
        {
            return Ok(());
        }
        if self.encryption.len() >= MOST_LINES {
            self.has_more = true;
            return Ok(());
        }
        self.encryption.push(text)?;
        Ok(())
    }

    /// Notes of the opened store whether it is in BER, and whether it was made with no password at all.
    pub fn note_store(&mut self, ber: bool, no_password: bool) {
        self.old.note_store(ber, no_password);
    }

    /// What of the store is old, and that it has no MAC, a line for each kind of thing, for the standard error.
    pub fn old_lines(&self, alloc: Global) -> Result<String, AllocError> {
        let mut text = self.old.lines(alloc)?;
        if self.is_bare {
            text.push_str(
                "pkcs12: the store has no MAC, so nothing tells whether somebody changed it\n",
            )?;
        }
        Ok(text)
    }

    /// Adds a line for each of them, one for each old thing, and one that says how the store is written under newer ones.
    pub fn add_text(&self, text: &mut String) -> Result<(), AllocError> {
        for name in &self.encryption {
            writeln!(text, "encrypted under: {name}")?;
        }
        if self.has_more {
            writeln!(text, "encrypted under: further algorithms")?;
        }
        match &self.mac {
            Some(mac) => writeln!(text, "MAC: {mac}"),
            None if self.is_bare => writeln!(text, "MAC: none"),
            None => Ok(()),
        }?;
        self.old.add_text(text)?;
        if !self.has_old && !self.old.has_some() {
            return Ok(());
        }
        if self.is_bare {
            // `rekey` takes no store without a MAC.
            return writeln!(
                text,
                "old: create makes a store under AES-256 and SHA-256 of what export writes"
            );
        }
        writeln!(
            text,
            "old: rekey --upgrade writes the store under AES-256 and SHA-256"
        )
    }

    /// Adds the members of an object in JSON that say the same.
    pub fn add_json(&self, text: &mut String) -> Result<(), AllocError> {
        text.push_str(",\n  \"algorithms\": [")?;
        for (place, name) in self.encryption.iter().enumerate() {
            add_comma(text, place)?;
            write!(text, "{}", JsonString(name.as_str()))?;
        }
        text.push_str("],\n  \"mac\": ")?;
        match &self.mac {
            Some(mac) => write!(text, "{}", JsonString(mac.as_str())),
            None => text.push_str("null"),
        }?;
        self.old.add_json(text)
    }
}
