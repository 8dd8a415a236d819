//! The lines of an inventory.
ghost use Rattle.std.specs.Prelude.{◌≡◌, ◌++◌, ℕ, List, Some, IfOk, OnOk};
ghost use Rattle.std.specs.List.{slice_get};
ghost use Rattle.hex.specs.Hex.{encode_lower};
ghost use Rattle.std.specs.String.{string_bytes};
ghost use Rattle.asn1_core.specs.Der.{IsShort};
ghost use Rattle.asn1_core.specs.Texts.{seen_option};
ghost use Rattle.frame.specs.DueText.{joined};
ghost use Rattle.inventory_core.specs.Gathering.{HaveShortKeys};
ghost use Rattle.spki.specs.Spelling.{public_key_text};
ghost use Rattle.inventory_core.specs.Lines.{AreLines, CertificateLine, ChainLine, KeyLine, fingerprint, numbers};
ghost use Rattle.inventory_core.specs.Sheet.{Holds};
ghost use Rattle.inventory_core.specs.View.{seen_all, seen_certificate};

use crate::certificate::CertificateView;
use crate::first_ids::{first_ids, start_of};
use crate::sheet::Sheet;
use crate::subject_index::SubjectIndex;
use octet_core::{Items, Octets, Text};
use std::alloc::{AllocError, Global};
use std::fmt::Write;

/// The lower-case digits of the SHA-256 digest of a certificate's key.
///
/// Caller: the key has a text of at most 2^32 - 1 octets, as each key that was read.
fn fingerprint_of(alloc: Global, certificate: &CertificateView<'_>) -> Result<String, AllocError>
    requires { IsShort (public_key_text (seen_certificate certificate.now).key) }
    ensures { IfOk result (λ text. string_bytes text
        ≡ encode_lower (fingerprint (seen_certificate certificate.now))) }
{
    let digest = certificate.spki.fingerprint_bytes().unwrap();
    hex::encode(alloc, digest)
}

/// The line of the certificate of this number.
fn certificate_line(
    alloc: Global,
    index: &SubjectIndex<'_>,
    j: usize,
    certificate: &Option<CertificateView<'_>>,
) -> Result<Text, AllocError>
    requires number { slice_get (seen_all index.now.certificates.now) j
        ≡ Some (seen_option seen_certificate certificate.now) }
    requires short { HaveShortKeys (seen_all index.now.certificates.now) }
    ensures { IfOk result (λ line. CertificateLine (seen_all index.now.certificates.now) j
        (seen_option seen_certificate certificate.now) line) }
{
    let Some(certificate) = certificate else {
        return Ok(Text::from_string(format!(in alloc; "cert {j} - -\n")?));
    };
    let digits = fingerprint_of(alloc, certificate)?;
    let above = index.parent_of(j);
    let line = format!(in alloc; "cert {j} {digits} {above}\n")?;
    Ok(Text::from_string(line))
}

/// The lines of all certificates.
pub(crate) fn certificate_lines(
    alloc: Global,
    index: &SubjectIndex<'_>,
) -> Result<Items<Text>, AllocError>
    requires { HaveShortKeys (seen_all index.now.certificates.now) }
    ensures { IfOk result (λ lines. AreLines (CertificateLine
        (seen_all index.now.certificates.now)) 0 (seen_all index.now.certificates.now) lines) }
{
    let certificates = index.certificates();
    let mut lines = Items::new(alloc);
    for j in 0..certificates.len() {
        lines.push(certificate_line(alloc, index, j, &certificates[j])?)?;
    }
    Ok(lines)
}

/// The numbers, a space before each.
fn add_numbers(text: &mut String, ks: &[usize]) -> Result<(), AllocError>
    ensures { OnOk result (string_bytes text.new ≡ string_bytes text.old ++ numbers ks.now) }
{
    for k in ks {
        write!(text, " {k}")?;
    }
    Ok(())
}

/// The line of a key whose chain begins with this certificate.
fn chain_line(
    alloc: Global,
    index: &SubjectIndex<'_>,
    i: usize,
    start: Option<usize>,
) -> Result<Text, AllocError>
    ensures { IfOk result (λ line. ChainLine (seen_all index.now.certificates.now) i start line) }
{
    let Some(start) = start else {
        return Ok(Text::from_string(format!(in alloc; "key {i} -\n")?));
    };
    let chain = index.chain_from(alloc, start)?;
    let mut line = format!(in alloc; "key {i}")?;
    add_numbers(&mut line, chain.as_slice())?;
    line.push_str("\n")?;
    Ok(Text::from_string(line))
}

/// Adds the lines of all keys.
pub(crate) fn add_key_lines(
    alloc: Global,
    index: &SubjectIndex<'_>,
    certificate_ids: &[Option<Octets>],
    key_ids: &[Option<Octets>],
    lines: &mut Items<Text>,
) -> Result<(), AllocError>
    ensures { OnOk result ((more : List (List ℕ)) × (lines.new ≡ lines.old ++ more)
        × AreLines (KeyLine (seen_all index.now.certificates.now) certificate_ids.now) 0
        key_ids.now more) }
{
    let firsts = first_ids(alloc, certificate_ids)?;
    for i in 0..key_ids.len() {
        let start = start_of(&firsts, &key_ids[i]);
        lines.push(chain_line(alloc, index, i, start)?)?;
    }
    Ok(())
}

/// Adds the lines of all certificates to a sheet.
pub(crate) fn write_certificates(
    alloc: Global,
    index: &SubjectIndex<'_>,
    sheet: &mut Sheet,
) -> Result<(), AllocError>
    requires { HaveShortKeys (seen_all index.now.certificates.now) }
    ensures lines { OnOk result ((lines : List (List ℕ)) × AreLines (CertificateLine
        (seen_all index.now.certificates.now)) 0 (seen_all index.now.certificates.now) lines
        × ((all : List ℕ)
        → Holds sheet.old.length sheet.old.room (string_bytes sheet.old.text) all
        → Holds sheet.new.length sheet.new.room (string_bytes sheet.new.text)
        (all ++ joined lines))) }
    ensures room { sheet.new.room ≡ sheet.old.room }
{
    let certificates = index.certificates();
    for j in 0..certificates.len() {
        let line = certificate_line(alloc, index, j, &certificates[j])?;
        sheet.add(line.as_str())?;
    }
    Ok(())
}

/// Adds the lines of all keys to a sheet.
pub(crate) fn write_keys(
    alloc: Global,
    index: &SubjectIndex<'_>,
    certificate_ids: &[Option<Octets>],
    key_ids: &[Option<Octets>],
    sheet: &mut Sheet,
) -> Result<(), AllocError>
    ensures lines { OnOk result ((lines : List (List ℕ)) × AreLines (KeyLine
        (seen_all index.now.certificates.now) certificate_ids.now) 0 key_ids.now lines
        × ((all : List ℕ)
        → Holds sheet.old.length sheet.old.room (string_bytes sheet.old.text) all
        → Holds sheet.new.length sheet.new.room (string_bytes sheet.new.text)
        (all ++ joined lines))) }
    ensures room { sheet.new.room ≡ sheet.old.room }
{
    let firsts = first_ids(alloc, certificate_ids)?;
    for i in 0..key_ids.len() {
        let start = start_of(&firsts, &key_ids[i]);
        let line = chain_line(alloc, index, i, start)?;
        sheet.add(line.as_str())?;
    }
    Ok(())
}
