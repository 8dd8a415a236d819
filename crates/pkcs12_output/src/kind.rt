//! The names of the files that are written.
use std::alloc::{AllocError, Global};

/// The name of the one file that has everything.
pub const ALL: &str = "all.pem";

/// The most characters of a friendly name that are taken into the name of a file.
const MOST: usize = 64;

/// What a file holds.
#[derive(Clone, Copy)]
pub enum Kind {
    Certificate,
    Key,
}

impl Kind {
    /// How the names of its files begin.
    pub fn name(self) -> &'static str {
        match self {
            Kind::Certificate => "cert",
            Kind::Key => "key",
        }
    }

    /// What is between the dashes of its PEM text (RFC 7468 sections 5 and 11).
    pub fn label(self) -> &'static str {
        match self {
            Kind::Certificate => "CERTIFICATE",
            Kind::Key => "ENCRYPTED PRIVATE KEY",
        }
    }
}

/// Whether a character is taken into the name of a file as it is.
fn is_safe(c: char) -> bool {
    c.is_ascii_alphanumeric() || c == '.' || c == '-' || c == '_'
}

/// Adds a friendly name as a part of a file's name, after a dash: the first 64 characters, with `_`
/// for those that a shell or a file system could take for more than a letter.
fn add_name(text: &mut String, name: &str) -> Result<(), AllocError> {
    if name.is_empty() {
        return Ok(());
    }
    text.push('-')?;
    for c in name.chars().take(MOST) {
        text.push(if is_safe(c) { c } else { '_' })?;
    }
    Ok(())
}

/// The name of a file by its kind and number, by the friendly name where one is given, and with this suffix. No two files have
/// one name, since no two of a kind have one number.
pub fn file_name(
    alloc: Global,
    kind: Kind,
    number: usize,
    friendly_name: Option<&str>,
    suffix: &str,
) -> Result<String, AllocError> {
    let kind = kind.name();
    let mut text = format!(in alloc; "{kind}-{number}")?;
    if let Some(name) = friendly_name {
        add_name(&mut text, name)?;
    }
    text.push('.')?;
    text.push_str(suffix)?;
    Ok(text)
}

/// The name without its ending `.pem` or `.der`, where it has one.
fn stem(name: &str) -> Option<&str> {
    match name.strip_suffix(".pem") {
        Some(stem) => Some(stem),
        None => name.strip_suffix(".der"),
    }
}

/// The kind of a file that `export` may have written, by its name; None for a name that it does not
/// write, and for that of the one file.
pub fn kind_of(name: &str) -> Option<Kind> {
    let stem = stem(name)?;
    let (kind, rest) = match stem.strip_prefix("cert-") {
        Some(rest) => (Kind::Certificate, rest),
        None => match stem.strip_prefix("chain-") {
            Some(rest) => (Kind::Certificate, rest),
            None => (Kind::Key, stem.strip_prefix("key-")?),
        },
    };
    let number = match rest.split_once('-') {
        Some((number, _)) => number,
        None => rest,
    };
    if number.is_empty() || !number.bytes().all(|c| c.is_ascii_digit()) {
        return None;
    }
    Some(kind)
}

/// Whether `export` may have written a file of this name.
pub fn is_exported_name(name: &str) -> bool {
    name == ALL || kind_of(name).is_some()
}
