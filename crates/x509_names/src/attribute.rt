//! Attributes of names.
ghost use Rattle.std.specs.Prelude.{◌≡◌, ◌<◌, ◌++◌, length, map, MatchOption, None, OnOk, Some};
ghost use Rattle.asn1_core.specs.Gives.{Gives, ReadsAs};
ghost use Rattle.x509_names.specs.Names.{attribute_text, name_in, numbers_text, seen_attribute, seen_row, type_name};
ghost use Rattle.x509_names.specs.NamesReading.{attribute_all, attribute_at};
ghost use Rattle.x509_names.specs.Printable.{ArePrintable};

use crate::printed::Printed;
use crate::value::push_value;
use asn1_core::{Error, ObjectIdentifier, Reader, SliceReader, Tag, read_inner, read_raw};
use std::alloc::{AllocError, Global};

/// An attribute of a name (RFC 5280 section 4.1.2.4, AttributeTypeAndValue): its type, the octets of an identifier, and
/// its value as a whole element.
#[derive(Clone, Copy, Drop)]
pub(crate) struct Attribute<'a> {
    kind: &'a [u8],
    value: &'a [u8],
}

/// The octets of the identifier of a type, and its name.
#[derive(Clone, Copy, Drop)]
pub(crate) struct TypeName {
    octets: &'static [u8],
    name: &'static str,
}

/// The types that have names here, as OpenSSL has them (RFC 4514 section 3, and further ones).
static NAMES: [TypeName; 18] = [
    TypeName {
        octets: &[0x55, 4, 3],
        name: "CN",
    },
    TypeName {
        octets: &[0x55, 4, 4],
        name: "SN",
    },
    TypeName {
        octets: &[0x55, 4, 5],
        name: "serialNumber",
    },
    TypeName {
        octets: &[0x55, 4, 6],
        name: "C",
    },
    TypeName {
        octets: &[0x55, 4, 7],
        name: "L",
    },
    TypeName {
        octets: &[0x55, 4, 8],
        name: "ST",
    },
    TypeName {
        octets: &[0x55, 4, 9],
        name: "street",
    },
    TypeName {
        octets: &[0x55, 4, 10],
        name: "O",
    },
    TypeName {
        octets: &[0x55, 4, 11],
        name: "OU",
    },
    TypeName {
        octets: &[0x55, 4, 12],
        name: "title",
    },
    TypeName {
        octets: &[0x55, 4, 13],
        name: "description",
    },
    TypeName {
        octets: &[0x55, 4, 17],
        name: "postalCode",
    },
    TypeName {
        octets: &[0x55, 4, 42],
        name: "GN",
    },
    TypeName {
        octets: &[0x55, 4, 43],
        name: "initials",
    },
    TypeName {
        octets: &[0x55, 4, 46],
        name: "dnQualifier",
    },
    TypeName {
        octets: &[0x09, 0x92, 0x26, 0x89, 0x93, 0xf2, 0x2c, 0x64, 1, 1],
        name: "UID",
    },
    TypeName {
        octets: &[0x09, 0x92, 0x26, 0x89, 0x93, 0xf2, 0x2c, 0x64, 1, 25],
        name: "DC",
    },
    TypeName {
        octets: &[0x2a, 0x86, 0x48, 0x86, 0xf7, 0x0d, 1, 9, 1],
        name: "emailAddress",
    },
];

/// The name of a type, where one of these rows has it.
#[tactic(auto, using(crate::proofs::NameTexts::row_found, crate::proofs::NameTexts::row_passed, crate::proofs::NameTexts::rows_passed))]
fn name_among(rows: &[TypeName], kind: &[u8]) -> Option<&'static str>
    ensures { MatchOption result (name_in (map seen_row rows.now) kind.now ≡ None)
        (λ name. name_in (map seen_row rows.now) kind.now ≡ Some name.now) }
{
    for row in rows {
        if kind == row.octets {
            return Some(row.name);
        }
    }
    None
}

/// The name of a type, where it has one here.
#[tactic(auto, using(crate::proofs::Numbers::name_printable), unfolding(crate::specs::Names::type_name))]
fn name_of(kind: &[u8]) -> Option<&'static str>
    ensures { MatchOption result (type_name kind.now ≡ None)
        (λ name. (type_name kind.now ≡ Some name.now) × ArePrintable name.now) }
{
    name_among(&NAMES, kind)
}

/// Adds the numbers of an identifier, with points between them. Where the octets are no identifier, `#` and their
/// digits.
#[tactic(auto, using(crate::proofs::Numbers::arcs_printable), unfolding(crate::specs::Names::numbers_text))]
fn push_numbers(alloc: Global, printed: &mut Printed, kind: &[u8]) -> Result<(), AllocError>
    ensures { OnOk result (printed.new ≡ printed.old ++ numbers_text kind.now) }
{
    match ObjectIdentifier::from_bytes(kind) {
        Ok(identifier) => {
            let text = format!(in alloc; "{identifier}")?;
            printed.push_printable(text.as_bytes())
        }
        Err(_) => printed.push_hex(kind),
    }
}

/// A type and a value, to the end.
#[tactic(auto, using(crate::proofs::CertificateFronts::ended_fails), unfolding(crate::specs::NamesReading::attribute_all))]
fn read_pair<'a>(body: SliceReader<'a>) -> Result<Attribute<'a>, Error>
    ensures { Gives seen_attribute result (attribute_all body.entry.rest.now) }
{
    let mut body = body;
    let kind = read_inner(&mut body, Tag::OBJECT_IDENTIFIER)?;
    let value = read_raw(&mut body)?;
    body.finish()?;
    Ok(Attribute {
        kind: kind.rest,
        value,
    })
}

impl<'a> Attribute<'a> {
    /// The attribute that comes next.
    #[tactic(auto, unfolding(crate::specs::NamesReading::attribute_at))]
    pub(crate) fn read(r: &mut SliceReader<'a>) -> Result<Attribute<'a>, Error>
        ensures exact { ReadsAs attribute_at seen_attribute r.old.rest.now r.new.rest.now result }
        ensures shorter { OnOk result (length r.new.rest.now < length r.old.rest.now) }
    {
        let mut ahead = *r;
        let body = read_inner(&mut ahead, Tag::SEQUENCE)?;
        let attribute = read_pair(body)?;
        *r = ahead;
        Ok(attribute)
    }

    /// Adds `TYPE=VALUE`.
    #[tactic(auto, unfolding(crate::specs::Names::attribute_text))]
    pub(crate) fn push(&self, alloc: Global, printed: &mut Printed) -> Result<(), AllocError>
        ensures { OnOk result
            (printed.new ≡ printed.old ++ attribute_text (seen_attribute self.now)) }
    {
        match name_of(self.kind) {
            Some(name) => {
                printed.push_printable(name.as_bytes())?;
                printed.push(b'=')?;
                push_value(alloc, printed, self.value)
            }
            None => {
                push_numbers(alloc, printed, self.kind)?;
                printed.push(b'=')?;
                printed.push_hex(self.value)
            }
        }
    }
}
