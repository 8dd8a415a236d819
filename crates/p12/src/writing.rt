//! Canonical texts, made in memory from the inside out.
ghost use Rattle.std.specs.Prelude.{◌≡◌, ℕ, List, ◌++◌, map, length, IsTrue, All, None, OnOk, MatchResult};
ghost use Rattle.asn1_core.specs.Der.{IsElement, IsShort, el, joined, seq, set, uint};
ghost use Rattle.asn1_core.specs.Oid.{oid_octets};
ghost use Rattle.asn1_core.specs.Unicode.{is_ascii_text, text_units};
ghost use Rattle.asn1_core.specs.Writing.{IsOverlong};
ghost use Rattle.der_core.specs.Optional.{canon_option, writable_option};
ghost use Rattle.p12.specs.Canonical.{set_of};
ghost use Rattle.p12.specs.Writing.{EncodesText, MakesText, RefusesText, WritesText};

use crate::error;
use asn1_core::{
    Error, Items, ObjectIdentifier, Octets, Reader, SliceReader, Tag, VecWriter, Writer,
    number_octets, read_raw, write_bmp, write_element, write_ia5, write_set_of,
};
use der_core::Encode;
use std::alloc::Global;

/// The most octets that a text has.
pub(crate) const MOST_OCTETS: usize = 0xffff_ffff;

/// A part of a text, or a whole one.
pub(crate) trait GrammarRow {
    // the octets that are written
    ghost canon: { Self → List ℕ };

    // whether they can be
    ghost writable: { Self → Type 0 };

    /// The octets in memory of their own. `Malformed` only where they cannot be written, `Overlength` only where they
    /// are more than 2^32 - 1, and `Memory`.
    fn text(&self, alloc: Global) -> Result<Octets, Error>
        ensures { MakesText (writable self.now) (canon self.now) result };
}

/// An element of this tag, whose value is these octets.
#[derive(Drop)]
pub(crate) struct Held<'p> {
    pub(crate) tag: Tag,
    pub(crate) octets: &'p [u8],
}

impl<'p> GrammarRow for Held<'p> {
    ghost canon = { λ h. el h.tag.first h.octets.now };

    ghost writable = { λ h. Unit {0} };

    fn text(&self, alloc: Global) -> Result<Octets, Error> {
        let mut w = VecWriter::new(alloc);
        write_element(&mut w, self.tag, self.octets)?;
        Ok(w.into_octets())
    }
}

/// An INTEGER.
#[derive(Drop)]
pub(crate) struct Number(pub(crate) u64);

impl GrammarRow for Number {
    ghost canon = { λ n. uint n.0 };

    ghost writable = { λ n. Unit {0} };

    fn text(&self, alloc: Global) -> Result<Octets, Error> {
        let (octets, from) = number_octets(self.0);
        Held {
            tag: Tag::INTEGER,
            octets: &octets[from..],
        }
        .text(alloc)
    }
}

/// A text as an IA5String.
#[derive(Drop)]
pub(crate) struct Ia5<'p>(pub(crate) &'p str);

impl<'p> GrammarRow for Ia5<'p> {
    ghost canon = { λ t. el 0x16 t.0.now };

    ghost writable = { λ t. IsTrue (is_ascii_text t.0.now) };

    fn text(&self, alloc: Global) -> Result<Octets, Error> {
        let mut w = VecWriter::new(alloc);
        write_ia5(&mut w, self.0)?;
        Ok(w.into_octets())
    }
}

/// A text as a BMPString.
#[derive(Drop)]
pub(crate) struct Bmp<'p>(pub(crate) &'p str);

impl<'p> GrammarRow for Bmp<'p> {
    ghost canon = { λ t. el 0x1e (text_units t.0.now) };

    ghost writable = { λ t. Unit {0} };

    fn text(&self, alloc: Global) -> Result<Octets, Error> {
        let mut w = VecWriter::new(alloc);
        write_bmp(&mut w, self.0)?;
        Ok(w.into_octets())
    }
}

impl GrammarRow for ObjectIdentifier {
    ghost canon = { λ o. el 0x06 (oid_octets o) };

    ghost writable = { λ o. Unit {0} };

    fn text(&self, alloc: Global) -> Result<Octets, Error> {
        Held {
            tag: Tag::OBJECT_IDENTIFIER,
            octets: self.as_bytes(),
        }
        .text(alloc)
    }
}

/// That these octets are one whole element.
fn check_element(octets: &[u8]) -> Result<(), Error>
    ensures { MatchResult result (λ _. IsElement octets.now × IsShort octets.now)
        (λ e. (e ≡ Error.Malformed) × (¬ (IsElement octets.now × IsShort octets.now))) }
{
    let mut r = SliceReader::new(octets);
    match read_raw(&mut r) {
        Ok(_) => r.finish(),
        Err(_) => Err(Error::Malformed),
    }
}

/// Octets that are written as they are: one whole element.
impl GrammarRow for Octets {
    ghost canon = { λ o. o };

    ghost writable = { IsElement };

    fn text(&self, alloc: Global) -> Result<Octets, Error> {
        if self.len() > MOST_OCTETS {
            return Err(Error::Overlength);
        }
        check_element(self.as_slice())?;
        Ok(self.try_clone(alloc)?)
    }
}

/// The text of a type that is written by itself.
#[derive(Drop)]
pub(crate) struct Encoded<'p, E>(pub(crate) &'p E);

impl<'p, E: Encode> GrammarRow for Encoded<'p, E> {
    ghost canon = { λ e. E.canon e.0.now };

    ghost writable = { λ e. E.writable e.0.now };

    fn text(&self, alloc: Global) -> Result<Octets, Error> {
        self.0.to_der(alloc)
    }
}

/// Nothing for None.
impl<A: GrammarRow> GrammarRow for Option<A> {
    ghost canon = { canon_option A.canon };

    ghost writable = { writable_option A.writable };

    fn text(&self, alloc: Global) -> Result<Octets, Error> {
        match self {
            Some(row) => row.text(alloc),
            None => Ok(Octets::new(alloc)),
        }
    }
}

/// Puts octets after others, where both together are short.
fn join(front: Octets, behind: &[u8]) -> Result<Octets, Error>
    requires front { IsShort front }
    requires behind { IsShort behind.now }
    ensures { MakesText (Unit {0}) (front ++ behind.now) result }
{
    if front.len() + behind.len() > MOST_OCTETS {
        return Err(Error::Overlength);
    }
    let mut all = front;
    all.extend(behind)?;
    Ok(all)
}

/// One row after another.
#[derive(Drop)]
pub(crate) struct Both<'p, A, B>(pub(crate) &'p A, pub(crate) &'p B);

impl<'p, A: GrammarRow, B: GrammarRow> GrammarRow for Both<'p, A, B> {
    ghost canon = { λ p. A.canon p.0.now ++ B.canon p.1.now };

    ghost writable = { λ p. A.writable p.0.now × B.writable p.1.now };

    fn text(&self, alloc: Global) -> Result<Octets, Error> {
        let front = self.0.text(alloc)?;
        let behind = self.1.text(alloc)?;
        join(front, behind.as_slice())
    }
}

/// An element of this tag that holds a row.
#[derive(Drop)]
pub(crate) struct Within<'p, A> {
    pub(crate) tag: Tag,
    pub(crate) row: &'p A,
}

impl<'p, A: GrammarRow> GrammarRow for Within<'p, A> {
    ghost canon = { λ x. el x.tag.first (A.canon x.row.now) };

    ghost writable = { λ x. A.writable x.row.now };

    fn text(&self, alloc: Global) -> Result<Octets, Error> {
        let value = self.row.text(alloc)?;
        Held {
            tag: self.tag,
            octets: value.as_slice(),
        }
        .text(alloc)
    }
}

/// Rows, one after another.
#[derive(Drop)]
pub(crate) struct Each<'p, T>(pub(crate) &'p [T]);

impl<'p, T: GrammarRow> GrammarRow for Each<'p, T> {
    ghost canon = { λ l. joined (map T.canon l.0.now) };

    ghost writable = { λ l. All T.writable l.0.now };

    fn text(&self, alloc: Global) -> Result<Octets, Error> {
        let rows = self.0;
        let mut all = Octets::new(alloc);
        for row in rows {
            let text = row.text(alloc)?;
            all = join(all, text.as_slice())?;
        }
        Ok(all)
    }
}

/// The texts of rows.
fn texts_of<T: GrammarRow>(alloc: Global, rows: &[T]) -> Result<Items<Octets>, Error>
    ensures { MatchResult result
        (λ texts. (texts ≡ map T.canon rows.now) × All T.writable rows.now)
        (λ e. RefusesText (All T.writable rows.now) (joined (map T.canon rows.now)) e) }
{
    let mut texts = Items::new(alloc);
    for row in rows {
        texts.push(row.text(alloc)?)?;
    }
    Ok(texts)
}

/// A SET OF rows, in ascending order of their octets.
#[derive(Drop)]
pub(crate) struct SetOf<'p, T>(pub(crate) &'p [T]);

impl<'p, T: GrammarRow> GrammarRow for SetOf<'p, T> {
    ghost canon = { λ l. set_of (map T.canon l.0.now) };

    ghost writable = { λ l. All T.writable l.0.now };

    fn text(&self, alloc: Global) -> Result<Octets, Error> {
        let texts = texts_of(alloc, self.0)?;
        let mut w = VecWriter::new(alloc);
        write_set_of(alloc, &mut w, &texts)?;
        Ok(w.into_octets())
    }
}

/// A SEQUENCE of two rows.
pub(crate) fn sequence<A: GrammarRow, B: GrammarRow>(
    alloc: Global,
    first: &A,
    second: &B,
) -> Result<Octets, Error>
    ensures { MakesText (A.writable first.now × B.writable second.now)
        (seq (A.canon first.now ++ B.canon second.now)) result }
{
    Within {
        tag: Tag::SEQUENCE,
        row: &Both(first, second),
    }
    .text(alloc)
}

/// Writes a row whole.
pub(crate) fn write_row<T: GrammarRow, W: Writer>(
    row: &T,
    alloc: Global,
    w: &mut W,
) -> Result<(), Error>
    ensures writes { WritesText W.sink (T.writable row.now) (T.canon row.now) w.old result w.new }
    ensures short { OnOk result (IsShort (T.canon row.now)) }
    ensures lawful { OnOk result (T.writable row.now) }
{
    let text = row.text(alloc)?;
    w.write(text.as_slice())
}

/// The text of a row, by the errors of this crate.
pub(crate) fn der_of<T: GrammarRow>(row: &T, alloc: Global) -> Result<Octets, error::Error>
    ensures { EncodesText (T.writable row.now) (T.canon row.now) result }
{
    Ok(row.text(alloc)?)
}
