//! Reading the blocks of a text.
ghost use Rattle.std.specs.Prelude.{◌≡◌, ◌++◌, ◌∷◌, [], Ok, IfOk, IfErr, IfSome, MatchOption, OnOk, ◌<◌, ◌≤◌, filter, length, position, ◌==◌, None, Some};
ghost use Rattle.std.specs.List.{position_or_len};
ghost use Rattle.pem_text.specs.Reading.{IsCause, begun, blocks, decoded, first_of, inside, is_blank, is_character, label_in, rest_of, step, without_end_blanks};

use crate::block::{Block, PemError};
use asn1_core::Octets;
use base64::DecodeAllocError;
use base64::engine::general_purpose::STANDARD;
use std::alloc::{AllocError, Global};

/// A block whose end has not come yet: its label, and the characters of its lines.
#[derive(Drop)]
struct Part {
    label: Octets,
    body: Octets,
}

/// Whether this is white space within a line.
fn is_blank(c: u8) -> bool
    ensures { result ≡ is_blank c }
{
    c == b' ' || c == b'\t' || c == b'\r' || c == 0x0b || c == 0x0c
}

/// The line without the white space at its end.
fn without_end_blanks(line: &[u8]) -> &[u8]
    ensures { result.now ≡ without_end_blanks line.now }
{
    let mut line = line;
    while let Some((last, front)) = line.split_last() {
        if !is_blank(*last) {
            break;
        }
        line = front;
    }
    line
}

/// The label of a line that is a boundary which begins so.
fn label_of<'a>(before: &[u8], line: &'a [u8]) -> Option<&'a [u8]>
    ensures { MatchOption result (label_in before.now line.now ≡ None)
        (λ l. label_in before.now line.now ≡ Some l.now) }
{
    let rest = line.strip_prefix(before)?;
    without_end_blanks(rest).strip_suffix(b"-----")
}

/// Where the first line feed is.
fn first_feed(text: &[u8]) -> Option<usize>
    ensures at { result ≡ position (λ c. c == 10) text.now }
    ensures within { IfSome result (λ i. i < length text.now) }
{
    text.iter().position(|c| *c == b'\n')
}

/// How many octets the first line has.
fn line_len(text: &[u8]) -> usize
    ensures at { result ≡ position_or_len (λ c. c == 10) text.now }
    ensures within { result ≤ length text.now }
{
    match first_feed(text) {
        Some(end) => end,
        None => text.len(),
    }
}

/// The first line, and what comes after it.
fn first_line(text: &[u8]) -> (&[u8], &[u8])
    ensures line { result.0.now ≡ first_of text.now }
    ensures rest { result.1.now ≡ rest_of text.now }
{
    let end = line_len(text);
    let next = (end + 1).min(text.len());
    (&text[..end], &text[next..])
}

/// Adds the characters of a line that are no white space.
fn add_characters(body: &mut Octets, line: &[u8]) -> Result<(), AllocError>
    ensures { OnOk result (body.new ≡ body.old ++ filter is_character line.now) }
{
    for c in line {
        if !is_blank(*c) {
            body.push(*c)?;
        }
    }
    Ok(())
}

/// The block whose lines have all come.
fn block_of(alloc: Global, part: Part) -> Result<Block, PemError>
    ensures ok { IfOk result (λ b. decoded part ≡ Ok b) }
    ensures err { IfErr result (λ e. IsCause (decoded part) e) }
{
    match STANDARD.decode(alloc, part.body.as_slice()) {
        Ok(octets) => Ok(Block {
            label: part.label,
            octets: Octets::from_vec(octets),
        }),
        Err(DecodeAllocError::DecodeError(_)) => Err(PemError::Base64(part.label)),
        Err(DecodeAllocError::OutOfMemory) => Err(PemError::Memory),
    }
}

/// One block more.
fn add_block(blocks: &mut Vec<Block>, block: Block) -> Result<(), AllocError>
    ensures { OnOk result (blocks.new.items ≡ blocks.old.items ++ block ∷ []) }
{
    blocks.push(block)?;
    Ok(())
}

/// The block that a line begins, if it does.
fn begun(alloc: Global, line: &[u8]) -> Result<Option<Part>, AllocError>
    ensures { IfOk result (λ p. p ≡ begun line.now) }
{
    match label_of(b"-----BEGIN ", line) {
        Some(label) => Ok(Some(Part {
            label: Octets::from_slice(alloc, label)?,
            body: Octets::new(alloc),
        })),
        None => Ok(None),
    }
}

/// What a line inside a block leaves open.
fn line_inside(
    alloc: Global,
    blocks: &mut Vec<Block>,
    part: Part,
    line: &[u8],
) -> Result<Option<Part>, PemError>
    ensures ok { IfOk result (λ p. inside blocks.old.items part line.now
        ≡ Ok (record { blocks = blocks.new.items; part = p })) }
    ensures err { IfErr result (λ e. IsCause (inside blocks.old.items part line.now) e) }
{
    match label_of(b"-----END ", line) {
        Some(label) if label == part.label.as_slice() => {
            add_block(blocks, block_of(alloc, part)?)?;
            Ok(None)
        }
        Some(_) => Err(PemError::OtherEnd(part.label)),
        None if label_of(b"-----BEGIN ", line).is_some() => Err(PemError::NoEnd(part.label)),
        None => {
            let mut part = part;
            add_characters(&mut part.body, line)?;
            Ok(Some(part))
        }
    }
}

/// Reads one line, and returns the block that is open after it.
fn read_line(
    alloc: Global,
    blocks: &mut Vec<Block>,
    part: Option<Part>,
    line: &[u8],
) -> Result<Option<Part>, PemError>
    ensures ok { IfOk result (λ p. step blocks.old.items part line.now
        ≡ Ok (record { blocks = blocks.new.items; part = p })) }
    ensures err { IfErr result (λ e. IsCause (step blocks.old.items part line.now) e) }
{
    match part {
        Some(part) => line_inside(alloc, blocks, part, line),
        None => Ok(begun(alloc, line)?),
    }
}

/// The blocks of a text, in order. What is before, between and after them is passed over, and so is white space in them.
pub fn blocks_of(alloc: Global, text: &[u8]) -> Result<Vec<Block>, PemError>
    ensures ok { IfOk result (λ v. blocks text.now ≡ Ok v.items) }
    ensures err { IfErr result (λ e. IsCause (blocks text.now) e) }
{
    let mut blocks = Vec::new(alloc);
    let mut part = None;
    let mut rest = text;
    while !rest.is_empty() {
        let (line, after) = first_line(rest);
        part = match read_line(alloc, &mut blocks, part, line) {
            Ok(next) => next,
            Err(error) => return Err(error),
        };
        rest = after;
    }
    match part {
        Some(part) => Err(PemError::NoEnd(part.label)),
        None => Ok(blocks),
    }
}
