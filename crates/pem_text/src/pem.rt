//! The text of a structure.
ghost use Rattle.std.specs.Prelude.{◌≡◌, ◌++◌, IfOk, IfErr, OnOk, codes};
ghost use Rattle.std.specs.String.{string_bytes};
ghost use Rattle.base64.specs.Engines.{standard};
ghost use Rattle.base64.specs.GeneralPurpose.{encode_of};
ghost use Rattle.pem_text.specs.Pem.{Says, boundary, in_lines, pem};

use asn1_core::{Error, Octets};
use base64::engine::general_purpose::STANDARD;
use std::alloc::{AllocError, Global};

/// How many octets a line of the body has, in 64 characters; the last may have fewer.
const LINE: usize = 48;

/// How many octets the boundaries have without their labels.
const BOUNDARIES: usize = 32;

/// How many octets the text has, so that its memory is taken once.
fn text_len(label: &str, octets: &[u8]) -> usize {
    let characters = octets.len().div_ceil(3).saturating_mul(4);
    let labels = label.len().saturating_mul(2);
    characters
        .saturating_add(octets.len().div_ceil(LINE))
        .saturating_add(labels)
        .saturating_add(BOUNDARIES)
}

/// Adds the octets in Base64, in lines of 64 characters, each ended by a line feed.
fn add_lines(octets: &[u8], text: &mut String) -> Result<(), AllocError>
    ensures { OnOk result (string_bytes text.new
        ≡ string_bytes text.old ++ in_lines (encode_of standard octets.now)) }
{
    for line in octets.chunks(LINE) {
        STANDARD.encode_string(line, text)?;
        text.push('\n')?;
    }
    Ok(())
}

/// Adds a line with an encapsulation boundary.
fn add_boundary(before: &str, label: &str, text: &mut String) -> Result<(), AllocError>
    ensures { OnOk result
        (string_bytes text.new ≡ string_bytes text.old ++ boundary before.now label.now) }
{
    text.push_str(before)?;
    text.push_str(label)?;
    text.push_str("-----\n")
}

/// The text of these octets under this label. The only refusal is `Memory`.
pub fn pem_of(alloc: Global, label: &str, octets: &[u8]) -> Result<Octets, Error>
    ensures ok { IfOk result (λ t. t ≡ pem label.now octets.now) }
    ensures read_back { IfOk result (λ t. Says t label.now octets.now) }
    ensures err { IfErr result (λ e. e ≡ Error.Memory) }
{
    let mut text = String::with_capacity(alloc, text_len(label, octets))?;
    add_boundary("-----BEGIN ", label, &mut text)?;
    add_lines(octets, &mut text)?;
    add_boundary("-----END ", label, &mut text)?;
    Ok(Octets::from_vec(text.into_bytes()))
}
