//! Contents.
ghost use Rattle.std.specs.Prelude.{◌+◌, ◌≡◌, ◌-◌, ◌<◌, ◌≤◌, ◌^◌, ℕ, length, OnOk, IfOk, IfErr, All, IfSome};
ghost use Rattle.asn1_core.specs.Gives.{Gives, GivesIn, ReadsAs, ReadsIn};
ghost use Rattle.asn1_core.specs.Reading.{many, whole};
ghost use Rattle.p12.specs.ContentInfo.{ContentText, content_oid, encrypted_of, held_salt, plain_pbe, IsContents, NoContents, SealFits, plain_of};
ghost use Rattle.p12.specs.Error.{MalformedOnly, Reads};
ghost use Rattle.p12.specs.Reading.{data_all, encrypted_all, other_content_all, content_all, content_at, contents_at};
ghost use Rattle.asn1_core.specs.Oid.{oid_octets};
ghost use Rattle.asn1_core.specs.declared.error.Error.TheVariants as asn1;
ghost use Rattle.p12.specs.ContentView.{EndsAt, seen_content};
ghost use Rattle.p12.specs.declared.content_info.ContentInfo.{ContentInfo};
ghost use Rattle.asn1_core.specs.Der.{IsShort};
ghost use Rattle.p12.specs.Canonical.{WritableContent, content_canon, contents_canon};
ghost use Rattle.p12.specs.Writing.{EncodesText, WritesText};
ghost use Rattle.p12.specs.Collected.{ContentFault, HoldsBags, Refuses, plain_text};

use crate::algorithm_identifier::AlgorithmView;
use crate::encrypted_data::{EncryptedContentInfo, EncryptedData, encrypted_data_view};
use crate::error::Error;
use crate::identifiers::{DATA, ENCRYPTED_DATA};
use crate::place::Place;
use crate::safe_bag::SafeBag;
use crate::writing::{Each, Within, der_of, write_row};
use asn1_core::{
    Items, ObjectIdentifier, Octets, Reader, SliceReader, Tag, Writer, read_identifier, read_inner,
    read_raw,
};
use std::alloc::Global;

/// A content of another kind than those of stores: its identifier, and the one element that it holds.
#[derive(Debug, Drop)]
pub struct OtherContext {
    pub content_type: ObjectIdentifier,
    pub content: Octets,
}

/// A content of a store (RFC 7292 section 4.1; RFC 5652 section 3).
///
/// ```text
/// ContentInfo ::= SEQUENCE { contentType OBJECT IDENTIFIER, content [0] EXPLICIT ANY }
/// ```
#[derive(Debug, Drop)]
pub enum ContentInfo {
    Data(Octets),
    EncryptedData(EncryptedData),
    OtherContext(OtherContext),
}

/// A content of a store, which it lends from the octets that were parsed; `at` says where it is in them. A contract sees the
/// content in memory of its own.
#[derive(Clone, Copy, Debug, Drop)]
pub enum ContentView<'a> {
    Plain {
        content: &'a [u8],
        at: Place,
    },
    Encrypted {
        algorithm: AlgorithmView<'a>,
        content: &'a [u8],
        at: Place,
    },
    Other {
        content_type: ObjectIdentifier,
        content: &'a [u8],
    },
}

fn plain_view<'a>(
    mut body: SliceReader<'a>,
    end: usize,
) -> Result<ContentView<'a>, asn1_core::Error>
    requires { length body.rest.now ≤ end }
    ensures exact { Gives seen_content result (data_all body.entry.rest.now) }
    ensures ends { IfOk result (EndsAt end) }
{
    let mut explicit = read_inner(&mut body, Tag::CONTEXT_0)?;
    let content = read_inner(&mut explicit, Tag::OCTET_STRING)?.rest;
    explicit.finish()?;
    body.finish()?;
    let at = Place::ending_at(end, content);
    Ok(ContentView::Plain { content, at })
}

fn encrypted_view<'a>(
    mut body: SliceReader<'a>,
    end: usize,
) -> Result<ContentView<'a>, asn1_core::Error>
    requires { length body.rest.now ≤ end }
    ensures exact { Gives seen_content result (encrypted_all body.entry.rest.now) }
    ensures ends { IfOk result (EndsAt end) }
{
    let mut explicit = read_inner(&mut body, Tag::CONTEXT_0)?;
    let encrypted = match encrypted_data_view(&mut explicit) {
        Ok(encrypted) => encrypted,
        Err(error) => return Err(error),
    };
    explicit.finish()?;
    body.finish()?;
    let at = Place::ending_at(end, encrypted.content);
    Ok(ContentView::Encrypted {
        algorithm: encrypted.algorithm,
        content: encrypted.content,
        at,
    })
}

fn other_view<'a>(
    content_type: ObjectIdentifier,
    mut body: SliceReader<'a>,
) -> Result<ContentView<'a>, asn1_core::Error>
    ensures exact { Gives seen_content result (other_content_all content_type body.entry.rest.now) }
    ensures ends { IfOk result (λ v. (n : ℕ) → EndsAt n v) }
{
    let mut explicit = read_inner(&mut body, Tag::CONTEXT_0)?;
    let content = read_raw(&mut explicit)?;
    explicit.finish()?;
    body.finish()?;
    Ok(ContentView::Other {
        content_type,
        content,
    })
}

fn view_of<'a>(
    content_type: ObjectIdentifier,
    body: SliceReader<'a>,
    end: usize,
) -> Result<ContentView<'a>, asn1_core::Error>
    requires { length body.rest.now ≤ end }
    ensures exact { Gives seen_content result (content_all content_type body.entry.rest.now) }
    ensures ends { IfOk result (EndsAt end) }
{
    if content_type == DATA {
        plain_view(body, end)
    } else if content_type == ENCRYPTED_DATA {
        encrypted_view(body, end)
    } else {
        other_view(content_type, body)
    }
}

/// The content that comes next in what is left of `total` octets, in which its place is counted.
#[tactic(auto, unfolding(crate::specs::Reading::content_at))]
pub(crate) fn content_view<'a>(
    r: &mut SliceReader<'a>,
    total: usize,
) -> Result<ContentView<'a>, asn1_core::Error>
    requires { length r.old.rest.now ≤ total }
    ensures exact { ReadsAs content_at seen_content r.old.rest.now r.new.rest.now result }
    ensures place { r.new.read + length r.new.rest.now ≡ r.old.read + length r.old.rest.now }
    ensures shorter { OnOk result (length r.new.rest.now < length r.old.rest.now) }
    ensures ends { IfOk result (EndsAt (total - length r.new.rest.now)) }
{
    let mut ahead = *r;
    let mut body = read_inner(&mut ahead, Tag::SEQUENCE)?;
    let end = total - ahead.rest.len();
    let content_type = read_identifier(&mut body)?;
    let content = match view_of(content_type, body, end) {
        Ok(content) => content,
        Err(error) => return Err(error),
    };
    *r = ahead;
    Ok(content)
}

impl<'a> ContentView<'a> {
    /// The same in memory of its own. The only refusal is `Memory`.
    pub(crate) fn owned(&self, alloc: Global) -> Result<ContentInfo, asn1_core::Error>
        ensures ok { IfOk result (λ c. c ≡ seen_content self.now) }
        ensures err { IfErr result (λ e. e ≡ asn1.Memory) }
    {
        Ok(match self {
            ContentView::Plain { content, .. } => {
                ContentInfo::Data(Octets::from_slice(alloc, content)?)
            }
            ContentView::Encrypted {
                algorithm,
                content,
                ..
            } => ContentInfo::EncryptedData(EncryptedData {
                encrypted_content_info: EncryptedContentInfo {
                    encrypted_content: Octets::from_slice(alloc, content)?,
                    content_encryption_algorithm: algorithm.owned(alloc)?,
                },
            }),
            ContentView::Other {
                content_type,
                content,
            } => ContentInfo::OtherContext(OtherContext {
                content_type: *content_type,
                content: Octets::from_slice(alloc, content)?,
            }),
        })
    }
}

pub(crate) fn content_in_front(
    alloc: Global,
    r: &mut SliceReader<'_>,
) -> Result<ContentInfo, asn1_core::Error>
    ensures exact { ReadsIn content_at (λ x. x) r.old.rest.now r.new.rest.now result }
    ensures place { r.new.read + length r.new.rest.now ≡ r.old.read + length r.old.rest.now }
    ensures shorter { OnOk result (length r.new.rest.now < length r.old.rest.now) }
{
    let mut ahead = *r;
    let view = match content_view(&mut ahead, r.rest.len()) {
        Ok(view) => view,
        Err(error) => return Err(error),
    };
    let content = view.owned(alloc)?;
    *r = ahead;
    Ok(content)
}

fn contents(
    alloc: Global,
    mut body: SliceReader<'_>,
) -> Result<Items<ContentInfo>, asn1_core::Error>
    ensures { GivesIn (λ x. x) result (many content_at body.entry.rest.now) }
{
    let mut items = Items::new(alloc);
    while !body.is_finished() {
        let item = content_in_front(alloc, &mut body)?;
        items.push(item)?;
    }
    Ok(items)
}

#[tactic(auto, unfolding(crate::specs::Reading::contents_at))]
fn all_contents(alloc: Global, bytes: &[u8]) -> Result<Items<ContentInfo>, asn1_core::Error>
    ensures { GivesIn (λ x. x) result (whole contents_at bytes.now) }
{
    let mut r = SliceReader::new(bytes);
    let body = read_inner(&mut r, Tag::SEQUENCE)?;
    let items = contents(alloc, body)?;
    r.finish()?;
    Ok(items)
}

impl ContentInfo {
    /// The content that comes next. `Malformed` exactly where none does; the other refusal is `Memory`. A refusal does
    /// not move the reader.
    pub fn parse(alloc: Global, r: &mut SliceReader<'_>) -> Result<ContentInfo, Error>
        ensures stands { Reads ContentText r.old.rest.now r.new.rest.now result }
        ensures place { r.new.read + length r.new.rest.now ≡ r.old.read + length r.old.rest.now }
    {
        Ok(content_in_front(alloc, r)?)
    }

    /// The contents that these octets list (AuthenticatedSafe, RFC 7292 section 4.1). `Malformed` exactly where they are no
    /// list of contents; the other refusal is `Memory`.
    pub fn parse_all(alloc: Global, bytes: &[u8]) -> Result<Items<ContentInfo>, Error>
        ensures ok { IfOk result (λ x. IsContents bytes.now x) }
        ensures err { IfErr result (λ e. MalformedOnly e (NoContents bytes.now)) }
    {
        Ok(all_contents(alloc, bytes)?)
    }
}

impl OtherContext {
    /// An equal value in memory of its own. The only refusal is `Memory`.
    pub fn try_clone(&self, alloc: Global) -> Result<OtherContext, Error>
        ensures ok { IfOk result (λ v. v ≡ self.now) }
        ensures err { IfErr result (λ e. e ≡ Error.Memory) }
    {
        Ok(OtherContext {
            content_type: self.content_type,
            content: self.content.try_clone(alloc)?,
        })
    }
}

impl ContentInfo {
    /// An equal value in memory of its own. The only refusal is `Memory`.
    pub fn try_clone(&self, alloc: Global) -> Result<ContentInfo, Error>
        ensures ok { IfOk result (λ v. v ≡ self.now) }
        ensures err { IfErr result (λ e. e ≡ Error.Memory) }
    {
        Ok(match self {
            ContentInfo::Data(octets) => ContentInfo::Data(octets.try_clone(alloc)?),
            ContentInfo::EncryptedData(encrypted) => {
                ContentInfo::EncryptedData(encrypted.try_clone(alloc)?)
            }
            ContentInfo::OtherContext(other) => ContentInfo::OtherContext(other.try_clone(alloc)?),
        })
    }
}

impl ContentInfo {
    /// The identifier of the content's kind.
    pub fn oid(&self) -> ObjectIdentifier
        ensures { oid_octets result ≡ content_oid self.now }
    {
        match self {
            ContentInfo::Data(_) => DATA,
            ContentInfo::EncryptedData(_) => ENCRYPTED_DATA,
            ContentInfo::OtherContext(other) => other.content_type,
        }
    }

    /// The plain octets under a password, which comes as `bmp_string` gives it: those of a plain content as they are, those of an
    /// encrypted one as `decrypt_pbe` gives them. None exactly for a content of another kind, and where `decrypt_pbe` gives none. The
    /// only refusal is `Memory`.
    ///
    /// Caller: the encrypted octets are fewer than 2^32, password and salt fewer than 2^59 each.
    pub fn data(&self, alloc: Global, password: &[u8]) -> Result<Option<Octets>, Error>
        requires content { length (encrypted_of self.now) < 2 ^ 32 }
        requires salt { length (held_salt self.now) < 2 ^ 59 }
        requires password { length password.now < 2 ^ 59 }
        ensures value { IfOk result (λ m. m ≡ plain_pbe password.now self.now) }
        ensures err { IfErr result (λ e. e ≡ Error.Memory) }
    {
        match self {
            ContentInfo::Data(octets) => Ok(Some(octets.try_clone(alloc)?)),
            ContentInfo::EncryptedData(encrypted) => encrypted.data(alloc, password),
            ContentInfo::OtherContext(_) => Ok(None),
        }
    }
}

/// The content that these octets are.
fn whole_content(alloc: Global, der: &[u8]) -> Result<ContentInfo, asn1_core::Error>
    ensures { GivesIn (λ x. x) result (whole content_at der.now) }
{
    let mut r = SliceReader::new(der);
    let content = content_in_front(alloc, &mut r)?;
    r.finish()?;
    Ok(content)
}

impl ContentInfo {
    /// Writes the content. `Malformed` only where its algorithm cannot be written, or a content of another kind is
    /// not one whole element. `Overlength` only where the text has more than 2^32 - 1 octets, `Memory` when out of
    /// memory, else the writer's refusals; a front of the text was written then.
    pub fn write<W: Writer>(&self, alloc: Global, w: &mut W) -> Result<(), asn1_core::Error>
        ensures writes { WritesText W.sink (WritableContent self.now)
            (content_canon self.now) w.old result w.new }
        ensures short { OnOk result (IsShort (content_canon self.now)) }
        ensures lawful { OnOk result (WritableContent self.now) }
    {
        write_row(self, alloc, w)
    }

    /// The text that `write` writes, in memory of its own. `Malformed` as there, `TooLong` only where it has more than
    /// 2^32 - 1 octets, and `Memory`.
    pub fn to_der(&self, alloc: Global) -> Result<Octets, Error>
        ensures { EncodesText (WritableContent self.now) (content_canon self.now) result }
    {
        der_of(self, alloc)
    }

    /// The text that lists these contents (AuthenticatedSafe, RFC 7292 section 4), which `parse_all` reads: what the outer
    /// content of a store holds. `Malformed` only where one of them cannot be written, `TooLong` only where the text has
    /// more than 2^32 - 1 octets, and `Memory`.
    pub fn all_to_der(alloc: Global, contents: &[ContentInfo]) -> Result<Octets, Error>
        ensures { EncodesText (All WritableContent contents.now) (contents_canon contents.now)
            result }
    {
        let list = Within {
            tag: Tag::SEQUENCE,
            row: &Each(contents),
        };
        der_of(&list, alloc)
    }

    /// The content whose whole text these octets are. `Malformed` only where they are the text of none, and `Memory`.
    pub fn from_der(alloc: Global, der: &[u8]) -> Result<ContentInfo, Error>
        ensures ok { IfOk result (λ c. ContentText der.now c × IsShort der.now) }
        ensures err { IfErr result (λ e. MalformedOnly e
            ((c : ContentInfo) → ContentText der.now c × IsShort der.now → ⊥)) }
    {
        Ok(whole_content(alloc, der)?)
    }
}

impl ContentInfo {
    /// The plain octets of a content; none where it does not open.
    pub(crate) fn plain_text(&self, alloc: Global, password: &str) -> Result<Option<Octets>, Error>
        requires fits { SealFits self.now }
        requires password { length password.now < 2 ^ 57 }
        ensures value { IfOk result (λ m. m ≡ plain_text password.now self.now) }
        ensures short { length (plain_of self.now) < 2 ^ 32
            → IfOk result (λ m. IfSome m (λ text. length text < 2 ^ 32)) }
        ensures err { IfErr result (λ e. e ≡ Error.Memory) }
    {
        match self {
            ContentInfo::Data(octets) => Ok(Some(octets.try_clone(alloc)?)),
            ContentInfo::EncryptedData(data) => {
                let info = &data.encrypted_content_info;
                let algorithm = &info.content_encryption_algorithm;
                algorithm.decrypt_text(alloc, info.encrypted_content.as_slice(), password)
            }
            ContentInfo::OtherContext(_) => Ok(None),
        }
    }

    /// The bags of a content. `Invalid` where it does not open, `Malformed` where it opens to octets that list no bags.
    pub(crate) fn bags(&self, alloc: Global, password: &str) -> Result<Items<SafeBag>, Error>
        requires fits { SealFits self.now }
        requires password { length password.now < 2 ^ 57 }
        ensures ok { IfOk result (HoldsBags password.now self.now) }
        ensures err { IfErr result (Refuses (ContentFault password.now self.now)) }
    {
        match self.plain_text(alloc, password)? {
            Some(octets) => SafeBag::parse_all(alloc, octets.as_slice()),
            None => Err(Error::Invalid),
        }
    }
}
