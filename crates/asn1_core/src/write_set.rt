//! Writing sets.
ghost use Rattle.std.specs.Prelude.{◌≡◌, map, length, IfOk, IfErr, OnOk, MatchResult};
ghost use Rattle.std.specs.Result.{IsErrOf};
ghost use Rattle.asn1_core.specs.Der.{joined, set, IsShort};
ghost use Rattle.asn1_core.specs.Sets.{in_order};
ghost use Rattle.asn1_core.specs.Writing.{Writes, IsOverlong, in_memory};

use crate::error::Error;
use crate::header::Length;
use crate::tag::Tag;
use crate::write::{element_len, write_header};
use crate::writer::Writer;
use octet_core::{Items, Octets};
use std::alloc::Global;

/// The octets of the elements, in the order given.
fn given_texts(alloc: Global, elements: &Items<Octets>) -> Result<Vec<&[u8]>, Error>
    ensures ok { IfOk result (λ texts. map (λ t. t.now) texts.items ≡ elements.now) }
    ensures err { IfErr result (λ e. e ≡ Error.Memory) }
{
    let mut texts = Vec::new(alloc);
    for element in elements.as_slice() {
        texts.push(element.as_slice())?;
    }
    Ok(texts)
}

/// The octets of the elements, in ascending order.
fn ascending(alloc: Global, elements: &Items<Octets>) -> Result<Vec<&[u8]>, Error>
    ensures ok { IfOk result (λ texts. map (λ t. t.now) texts.items ≡ in_order elements.now) }
    ensures err { IfErr result (λ e. e ≡ Error.Memory) }
{
    let mut texts = given_texts(alloc, elements)?;
    texts.sort_unstable();
    Ok(texts)
}

/// How many octets the texts are together. `Overlength` exactly where they are more than 2^32 - 1.
fn joined_len(texts: &[&[u8]]) -> Result<Length, Error>
    ensures { MatchResult result
        (λ n. n.value ≡ length (joined (map (λ t. t.now) texts.now)))
        (λ e. (e ≡ Error.Overlength) × IsOverlong (length (joined (map (λ t. t.now) texts.now)))) }
{
    let mut total = 0;
    for text in texts {
        if text.len() > 0xffff_ffff - total {
            return Err(Error::Overlength);
        }
        total += text.len();
    }
    Ok(Length {
        value: total as u32,
    })
}

fn write_all<W: Writer>(w: &mut W, texts: &[&[u8]]) -> Result<(), Error>
    ensures { Writes W.sink ⊥ ⊥ (joined (map (λ t. t.now) texts.now)) w.old result w.new }
{
    for text in texts {
        w.write(text)?;
    }
    Ok(())
}

/// Writes a set of these texts, in the order given.
fn write_set<W: Writer>(w: &mut W, texts: &[&[u8]]) -> Result<(), Error>
    ensures writes { Writes W.sink ⊥
        (IsOverlong (length (set (joined (map (λ t. t.now) texts.now)))))
        (set (joined (map (λ t. t.now) texts.now))) w.old result w.new }
    ensures short { OnOk result (IsShort (set (joined (map (λ t. t.now) texts.now)))) }
    ensures unmoved { IsErrOf result Error.Overlength → w.new ≡ w.old }
{
    let length = joined_len(texts)?;
    element_len(length)?;
    write_header(w, Tag::SET, length)?;
    write_all(w, texts)
}

/// Writes a SET OF (X.690 sections 8.12 and 11.6) of these elements, each a whole text, in ascending order of their octets; a text that
/// another one begins with comes before it, and equal ones stay. `Overlength` where the set would have more than 2^32 - 1 octets,
/// and nothing is written then; `Memory` when out of memory; else the writer's refusals.
pub fn write_set_of<W: Writer>(
    alloc: Global,
    w: &mut W,
    elements: &Items<Octets>,
) -> Result<(), Error>
    ensures writes { Writes (in_memory W.sink) ⊥
        (IsOverlong (length (set (joined (in_order elements.now)))))
        (set (joined (in_order elements.now))) w.old result w.new }
    ensures short { OnOk result (IsShort (set (joined (in_order elements.now)))) }
    ensures unmoved { IsErrOf result Error.Overlength → w.new ≡ w.old }
{
    let texts = ascending(alloc, elements)?;
    write_set(w, &texts)
}
