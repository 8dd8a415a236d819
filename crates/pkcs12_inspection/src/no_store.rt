//! What a file is that is not a store in DER.
use crate::detail::Detail;
use crate::not_der::not_der;
use asn1_core::{Reader, SliceReader};
use p12::StoreView;
use std::alloc::{AllocError, Global};
use std::str::from_utf8;
use terminal_text::Printable;

/// How PEM text begins (RFC 7468).
const PEM: [u8; 11] = *b"-----BEGIN ";

/// How the first line of PEM text ends.
const DASHES: [u8; 5] = *b"-----";

/// How Java's older stores begin.
const JKS: [u8; 4] = [0xfe, 0xed, 0xfe, 0xed];

/// The tag of a SEQUENCE, with which a store begins.
const SEQUENCE: u8 = 0x30;

const DECODE: &str = "\
Decode it:
    sed '/-----/d' FILE | openssl base64 -d >STORE.p12";

const NOT_PEM: &str = "\
Certificates and keys in PEM are what export writes. To make a store of them:
    openssl pkcs12 -export -in FILE -out STORE.p12";

const KEYTOOL: &str = "\
Make a PKCS#12 store of it:
    keytool -importkeystore -srckeystore FILE -destkeystore STORE.p12 -deststoretype PKCS12";

const AGAIN: &str = "Copy it again, whole, from where it came.";

/// The label of PEM text that begins here: what is between `-----BEGIN ` and the next dashes.
fn label_in(octets: &[u8]) -> Option<&str> {
    let rest = octets.strip_prefix(PEM.as_slice())?;
    let end = rest
        .windows(DASHES.len())
        .position(|five| five == DASHES.as_slice())?;
    from_utf8(rest.get(..end)?).ok()
}

/// The label of the first PEM text in a file.
fn pem_label(octets: &[u8]) -> Option<&str> {
    let start = octets
        .windows(PEM.len())
        .position(|start| start == PEM.as_slice())?;
    label_in(octets.get(start..)?)
}

fn pem(alloc: Global, label: &str) -> Result<Detail, AllocError> {
    let shown = Printable(label);
    let text = format!(in alloc;
        "the file is PEM text of the kind {shown}, and not a store in DER"
    )?;
    let advice = if label == "PKCS12" { DECODE } else { NOT_PEM };
    Detail::advised(alloc, text, advice)
}

/// What a file is that begins with no SEQUENCE.
fn no_sequence(alloc: Global, octets: &[u8]) -> Result<Option<Detail>, AllocError> {
    if octets.is_empty() {
        let text = String::from_str(alloc, "the file is empty")?;
        return Ok(Some(Detail::advised(alloc, text, AGAIN)?));
    }
    if octets.starts_with(&JKS) {
        let text = String::from_str(alloc, "the file is a JKS store of Java")?;
        return Ok(Some(Detail::advised(alloc, text, KEYTOOL)?));
    }
    match pem_label(octets) {
        Some(label) => Ok(Some(pem(alloc, label)?)),
        None => Ok(None),
    }
}

/// How many octets the element in front has, with its header; None where no header is there.
fn stated_len(octets: &[u8]) -> Option<u64> {
    let mut reader = SliceReader::new(octets);
    match reader.header() {
        Ok(header) => Some(u64::from(header.length.value()).saturating_add(
            reader.position() as u64,
        )),
        Err(_) => None,
    }
}

/// What is said where fewer or more octets are there than the store has.
fn other_len(alloc: Global, octets: &[u8]) -> Result<Option<Detail>, AllocError> {
    let Some(stated) = stated_len(octets) else {
        return Ok(None);
    };
    let there = octets.len() as u64;
    if there < stated {
        let text = format!(in alloc;
            "the store has {stated} octets and the file {there}: it is cut short"
        )?;
        return Ok(Some(Detail::advised(alloc, text, AGAIN)?));
    }
    let after = there.saturating_sub(stated);
    if after == 0 || StoreView::parse(&octets[..stated as usize]).is_err() {
        return Ok(None);
    }
    let text = format!(in alloc;
        "the store has {stated} octets, and the file {after} more after it"
    )?;
    let advice = format!(in alloc;
        "Take the store alone, if you know what is after it:\n    head -c {stated} FILE >STORE.p12"
    )?;
    Ok(Some(Detail {
        text,
        advice: Some(advice),
    }))
}

/// What says that octets are in BER, where they are: `first` is the number of their first octet. Where BER is read too, they are damaged.
pub fn in_ber(
    alloc: Global,
    octets: &[u8],
    first: usize,
    der_only: bool,
) -> Result<Option<String>, AllocError> {
    match not_der(octets) {
        Some(sign) => {
            let form = sign.form.name();
            let at = first.saturating_add(sign.at);
            let why = if der_only {
                "only DER is read"
            } else {
                "is damaged"
            };
            Ok(Some(format!(in alloc;
                "the store is in BER, and {why}: {form} begins at octet {at}"
            )?))
        }
        None => Ok(None),
    }
}

/// What a file is that is not a store, in DER or, without `der_only`, in BER; None where nothing is known of it.
pub fn malformed(
    alloc: Global,
    octets: &[u8],
    der_only: bool,
) -> Result<Option<Detail>, AllocError> {
    if octets.first() != Some(&SEQUENCE) {
        return no_sequence(alloc, octets);
    }
    match in_ber(alloc, octets, 0, der_only)? {
        Some(text) => Ok(Some(Detail::of(text))),
        None => other_len(alloc, octets),
    }
}
