//! What a store is made of, as the files have it.
use crate::certificates::certificates_of_file;
use crate::input::read_input;
use crate::keys::key_of_file;
use asn1_core::Octets;
use create_core::{CertificateEntry, KeyEntry};
use pem_stores::{KeyOpening, OwnEntry, Owned, further_of, own_entry};
use pkcs12_arguments::{Create, Pair};
use pkcs12_opening::{Ending, Failure};
use std::alloc::{AllocError, Global};
use std::fmt::Write;
use std::rt::Files;
use terminal_text::Printable;

/// What a store is made of, and what is to be said of it.
#[derive(Drop)]
pub struct Entries {
    pub keys: Vec<KeyEntry>,
    pub certificates: Vec<CertificateEntry>,
    /// A line for each thing that could not be told, or may not be meant.
    pub warnings: String,
}

/// The entries of the keys, and the certificates beside them, while the files are read.
#[derive(Drop)]
struct Gathered {
    keys: Vec<KeyEntry>,
    further: Vec<Octets>,
    warnings: String,
}

/// The failure of certificates of which none is the key's.
fn of_another_key(alloc: Global, pair: &Pair<'_>) -> Failure {
    let key = Printable(pair.key);
    let certificate = Printable(pair.certificate);
    let text = format!(in alloc; "no certificate in {certificate} is of the private key in {key}");
    Failure::told(Ending::Usage, text).advised(
        "Give the certificate of each --key by the --certificate of the same place.",
    )
}

impl Gathered {
    /// Adds a key with its certificate; the certificates beside that are further ones.
    fn add_entry(&mut self, own: OwnEntry) -> Result<(), AllocError> {
        self.keys.push(own.entry)?;
        for other in own.others {
            self.further.push(other)?;
        }
        Ok(())
    }

    /// Reads the files of a key and of its certificate.
    fn add_pair<R: Files + Input + AllocGlobal>(
        &mut self,
        rt: &R,
        pair: &Pair<'_>,
        opening: KeyOpening<'_>,
    ) -> Result<(), Failure> {
        let alloc = rt.alloc();
        let text = read_input(rt, pair.key)?;
        let key = key_of_file(alloc, pair.key, text.as_slice(), opening)?;
        let text = read_input(rt, pair.certificate)?;
        let certificates = certificates_of_file(alloc, pair.certificate, text.as_slice())?;
        let own = match own_entry(alloc, key, certificates, pair.name)? {
            Owned::Own(own) => own,
            Owned::Untold(own) => {
                let shown = Printable(pair.certificate);
                let key = Printable(pair.key);
                writeln!(
                    self.warnings,
                    "pkcs12: warning: whether the certificate in {shown} is of the private key in {key} cannot be told from the files"
                )?;
                own
            }
            Owned::Nowhere => return Err(of_another_key(alloc, pair)),
        };
        Ok(self.add_entry(own)?)
    }

    /// The entries, with the further certificates in their order.
    fn into_entries(self, alloc: Global) -> Result<Entries, AllocError> {
        let further = further_of(alloc, self.keys.as_slice(), self.further.as_slice())?;
        let mut warnings = self.warnings;
        let apart = further.apart;
        if apart > 0 {
            writeln!(
                warnings,
                "pkcs12: warning: certificates that are in the chain of no private key: {apart}; they are in the store, after the others"
            )?;
        }
        Ok(Entries {
            keys: self.keys,
            certificates: further.certificates,
            warnings,
        })
    }
}

/// Reads the files that are asked for, and returns what the store is made of. `password` opens the private keys that are encrypted, each in
/// at most so many rounds.
pub fn entries_of<R: Files + Input + AllocGlobal>(
    rt: &R,
    asked: &Create<'_>,
    password: Option<&str>,
    limit: u32,
) -> Result<Entries, Failure> {
    let alloc = rt.alloc();
    let opening = KeyOpening { password, limit };
    let mut gathered = Gathered {
        keys: Vec::new(alloc),
        further: Vec::new(alloc),
        warnings: String::new(alloc),
    };
    for pair in &asked.pairs {
        gathered.add_pair(rt, pair, opening)?;
    }
    for chain in &asked.chains {
        let text = read_input(rt, *chain)?;
        for certificate in certificates_of_file(alloc, *chain, text.as_slice())? {
            gathered.further.push(certificate)?;
        }
    }
    Ok(gathered.into_entries(alloc)?)
}
