//! The files of the output folder.
use crate::exported::Exported;
use asn1_core::Octets;
use command_base::Attributes;
use pem_text::pem_of;
use pkcs12_arguments::{Format, Layout, Part, Target};
use pkcs12_inspection::Label;
use pkcs12_output::{ALL, Folder, Kind, NewFolder, file_name, sync_folder};
use std::alloc::Global;
use std::fs::{File, OpenOptions};
use std::io;
use std::io::Write;
use std::os::unix::fs::OpenOptionsExt;
use std::rt::Files;
use transfer::Transferred;

/// What is written, and where: into the folder at `part`, which becomes this one.
#[derive(Clone, Copy)]
pub struct Output<'a> {
    pub folder: &'a Folder<'a>,
    pub part: &'a NewFolder,
    pub target: &'a Target<'a>,
}

/// Where files of a kind are written.
#[derive(Clone, Copy)]
struct Place<'a> {
    output: Output<'a>,
    kind: Kind,
}

/// The attributes of files of a kind, where they are not those of any new file.
fn attributes_of(folder: &Folder<'_>, kind: Kind) -> Option<Attributes> {
    let kept = folder.kept?;
    match kind {
        Kind::Certificate => kept.certificates,
        Kind::Key => kept.keys,
    }
}

/// Gives a new file what is kept.
fn keep(place: Place<'_>, file: &File) -> io::Result<()> {
    if let Some(kept) = attributes_of(place.output.folder, place.kind) {
        return kept.give(file);
    }
    match place.output.folder.kept {
        Some(kept) if kept.folder.passes_group_on() => {
            let made = Attributes::of_file(&file.metadata()?);
            made.with_group_of(kept.folder).give(file)
        }
        _ => Ok(()),
    }
}

/// Makes a file that was not there, which only its owner may read.
fn create<R: Files<File = File>>(rt: &R, path: &str) -> io::Result<File> {
    OpenOptions::new()
        .write(true)
        .create_new(true)
        .mode(0o600)
        .open(rt, path)
}

/// Gives a file that is written what is kept, and brings it to the disk.
fn finish(place: Place<'_>, file: &File) -> io::Result<()> {
    keep(place, file)?;
    file.sync_all()
}

/// Writes a file that was not there, which only its owner may read unless more is kept.
fn write_new<R: Files<File = File> + AllocGlobal>(
    rt: &R,
    place: Place<'_>,
    name: &str,
    octets: &[u8],
) -> io::Result<()> {
    let part = place.output.part.as_str();
    let path = format!(in rt.alloc(); "{part}/{name}")?;
    let mut file = create(rt, path.as_str())?;
    file.write_all(octets)?;
    finish(place, &file)
}

/// The PEM text of one of these.
fn pem(alloc: Global, kind: Kind, octets: &[u8]) -> io::Result<Octets> {
    match pem_of(alloc, kind.label(), octets) {
        Ok(text) => Ok(text),
        Err(_) => Err(io::Error::from(io::ErrorKind::OutOfMemory)),
    }
}

/// Writes one of them under its number.
fn write_one<R: Files<File = File> + AllocGlobal>(
    rt: &R,
    place: Place<'_>,
    number: usize,
    label: Option<&Label>,
    octets: &[u8],
) -> io::Result<()> {
    let target = place.output.target;
    let friendly_name = match target.layout {
        Layout::Named => label.and_then(|label| label.friendly_name()),
        Layout::Numbered | Layout::OneFile => None,
    };
    let suffix = target.format.suffix();
    let name = file_name(rt.alloc(), place.kind, number, friendly_name, suffix)?;
    match target.format {
        Format::Der => write_new(rt, place, name.as_str(), octets),
        Format::Pem => {
            let text = pem(rt.alloc(), place.kind, octets)?;
            write_new(rt, place, name.as_str(), text.as_slice())
        }
    }
}

/// Writes each of these.
fn write_each<R: Files<File = File> + AllocGlobal>(
    rt: &R,
    place: Place<'_>,
    each: &[Octets],
    labels: &[Label],
) -> io::Result<()> {
    for (i, octets) in each.iter().enumerate() {
        write_one(rt, place, i, labels.get(i), octets.as_slice())?;
    }
    Ok(())
}

/// Adds the PEM text of each of these to the file.
fn add_each<R: Files<File = File> + AllocGlobal>(
    rt: &R,
    file: &mut File,
    kind: Kind,
    each: &[Octets],
) -> io::Result<()> {
    for octets in each {
        file.write_all(pem(rt.alloc(), kind, octets.as_slice())?.as_slice())?;
    }
    Ok(())
}

/// Writes all of these into one file: the private keys, and then the certificates.
fn write_all<R: Files<File = File> + AllocGlobal>(
    rt: &R,
    place: Place<'_>,
    certificates: &[Octets],
    documents: &[Octets],
) -> io::Result<()> {
    let part = place.output.part.as_str();
    let path = format!(in rt.alloc(); "{part}/{ALL}")?;
    let mut file = create(rt, path.as_str())?;
    add_each(rt, &mut file, Kind::Key, documents)?;
    add_each(rt, &mut file, Kind::Certificate, certificates)?;
    finish(place, &file)
}

/// The certificates that are written.
fn certificates_of(part: Part, transferred: &Transferred) -> &[Octets] {
    match part {
        Part::Keys => &[],
        Part::Whole | Part::Certificates => transferred.certificates.as_slice(),
    }
}

impl<'a> Output<'a> {
    fn of_kind(self, kind: Kind) -> Place<'a> {
        Place { output: self, kind }
    }

    /// Writes the certificates and the private keys, as the target asks for them.
    pub fn write<R: Files<File = File> + AllocGlobal>(
        self,
        rt: &R,
        exported: &Exported,
    ) -> io::Result<()> {
        let certificates = certificates_of(self.target.part, &exported.transferred);
        let documents = exported.transferred.documents.as_slice();
        if matches!(self.target.layout, Layout::OneFile) {
            return write_all(rt, self.of_kind(Kind::Key), certificates, documents);
        }
        let labels = exported.found.certificates.as_slice();
        write_each(rt, self.of_kind(Kind::Certificate), certificates, labels)?;
        let labels = exported.found.keys.as_slice();
        write_each(rt, self.of_kind(Kind::Key), documents, labels)
    }

    /// Writes the chain of the private key of this number, as PEM text.
    pub fn write_chain<R: Files<File = File> + AllocGlobal>(
        self,
        rt: &R,
        number: usize,
        text: &[u8],
    ) -> io::Result<()> {
        let name = format!(in rt.alloc(); "chain-{number}.pem")?;
        write_new(rt, self.of_kind(Kind::Certificate), name.as_str(), text)
    }

    /// Gives the folder what is kept of the one that it replaces, and brings it to the disk.
    pub fn end<R: Files<File = File> + AllocGlobal>(self, rt: &R) -> io::Result<()> {
        if let Some(kept) = &self.folder.kept {
            self.part.give(rt, *kept)?;
        }
        sync_folder(rt, self.part.as_str())
    }
}
