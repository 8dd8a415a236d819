//! What `export` writes, and where.

/// How files are written.
#[derive(Clone, Copy)]
pub enum Format {
    Pem,
    Der,
}

impl Format {
    /// The ending of a file's name.
    pub fn suffix(self) -> &'static str {
        match self {
            Format::Pem => "pem",
            Format::Der => "der",
        }
    }
}

/// Which part of a store is written.
#[derive(Clone, Copy, PartialEq)]
pub enum Part {
    Whole,
    Keys,
    Certificates,
}

/// Which files there are.
#[derive(Clone, Copy, PartialEq)]
pub enum Layout {
    /// One for each certificate and private key, by its number.
    Numbered,
    /// The same, with its friendly name.
    Named,
    /// One with all.
    OneFile,
}

/// What is written, and where.
#[derive(Clone, Copy)]
pub struct Target<'a> {
    /// The path of the folder that is made.
    pub out: &'a str,
    pub format: Format,
    pub part: Part,
    pub layout: Layout,
    /// Whether the chain of each private key is written too.
    pub chain: bool,
    /// Whether a folder that is there is replaced.
    pub force: bool,
}
