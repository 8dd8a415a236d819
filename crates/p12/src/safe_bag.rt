//! Bags.
ghost use Rattle.std.specs.Prelude.{◌+◌, ◌≡◌, ◌-◌, ◌<◌, ◌≤◌, ◌^◌, ℕ, length, OnOk, IfOk, IfErr, All};
ghost use Rattle.asn1_core.specs.Gives.{Gives, GivesIn, ReadsAs, ReadsIn};
ghost use Rattle.asn1_core.specs.Reading.{many, whole};
ghost use Rattle.p12.specs.SafeBag.{BagText, KindText, kind_oid, KindFits, key_of, x509_of, sdsi_of, first_name, first_key_id, IsBags, NoBags};
ghost use Rattle.p12.specs.Error.{MalformedOnly, Reads};
ghost use Rattle.p12.specs.Reading.{cert_kind_all, shrouded_all, other_kind_all, kind_all, kind_at, bag_at, bags_at};
ghost use Rattle.asn1_core.specs.Oid.{oid_octets};
ghost use Rattle.p12.specs.BagView.{AreParts, BagEndsAt, BagLies, IsBagView, seen_bag, seen_parts};
ghost use Rattle.asn1_core.specs.declared.error.Error.TheVariants as asn1;
ghost use Rattle.asn1_core.specs.Der.{IsShort};
ghost use Rattle.p12.specs.Canonical.{WritableKind, kind_canon, WritableBag, bag_canon, bags_canon};
ghost use Rattle.p12.specs.Writing.{WritesText, EncodesText};

use crate::algorithm_identifier::AlgorithmView;
use crate::attribute::{PKCS12Attribute, attribute_list, attributes_view};
use crate::cert_bag::{CertBag, CertView, certificate_view};
use crate::encrypted_private_key_info::{EncryptedPrivateKeyInfo, encrypted_key_view};
use crate::error::Error;
use crate::identifiers::{CERT_BAG, SHROUDED_KEY_BAG};
use crate::place::Place;
use crate::writing::{Each, Within, der_of, write_row};
use asn1_core::{
    Items, ObjectIdentifier, Octets, Reader, SliceReader, Tag, Text, Writer, read_identifier,
    read_inner, read_raw,
};
use std::alloc::Global;

/// A bag of another kind: its identifier, and the one element that it holds.
#[derive(Debug, Drop)]
pub struct OtherBag {
    pub bag_id: ObjectIdentifier,
    pub bag_value: Octets,
}

/// What a bag holds.
#[derive(Debug, Drop)]
pub enum SafeBagKind {
    /// An encrypted private key (RFC 7292 section 4.2.2).
    Pkcs8ShroudedKeyBag(EncryptedPrivateKeyInfo),
    /// A certificate (RFC 7292 section 4.2.3).
    CertBag(CertBag),
    OtherBagKind(OtherBag),
}

/// A bag and its attributes, in the order read (RFC 7292 section 4.2).
///
/// ```text
/// SafeBag ::= SEQUENCE { bagId OBJECT IDENTIFIER, bagValue [0] EXPLICIT ANY, bagAttributes SET OF PKCS12Attribute OPTIONAL }
/// ```
#[derive(Debug, Drop)]
pub struct SafeBag {
    pub bag: SafeBagKind,
    pub attributes: Items<PKCS12Attribute>,
}

/// A bag, which it lends from the octets that were parsed; `at` says where the encrypted octets of a key are in them. A contract
/// sees the bag in memory of its own.
#[derive(Clone, Copy, Debug, Drop)]
pub enum BagView<'a> {
    X509(&'a [u8]),
    Sdsi(&'a [u8]),
    Shrouded {
        algorithm: AlgorithmView<'a>,
        content: &'a [u8],
        at: Place,
    },
    Other {
        bag_id: ObjectIdentifier,
        bag_value: &'a [u8],
    },
}

/// A bag, and the octets in which its attributes are, which it lends from the octets that were parsed.
#[derive(Clone, Copy, Drop)]
pub struct BagParts<'a> {
    pub bag: BagView<'a>,
    pub(crate) attributes: &'a [u8],
}

fn certificate_kind<'a>(mut body: SliceReader<'a>) -> Result<BagView<'a>, asn1_core::Error>
    ensures exact { Gives seen_bag result (cert_kind_all body.entry.rest.now) }
    ensures lawful { IfOk result IsBagView }
    ensures ends { IfOk result (λ v. (n : ℕ) → BagEndsAt n v) }
{
    let certificate = certificate_view(&mut body)?;
    body.finish()?;
    match certificate {
        CertView::X509(octets) => Ok(BagView::X509(octets)),
        CertView::Sdsi(text) => Ok(BagView::Sdsi(text)),
    }
}

fn shrouded_kind<'a>(mut body: SliceReader<'a>, end: usize) -> Result<BagView<'a>, asn1_core::Error>
    requires { length body.rest.now ≤ end }
    ensures exact { Gives seen_bag result (shrouded_all body.entry.rest.now) }
    ensures lawful { IfOk result IsBagView }
    ensures ends { IfOk result (BagEndsAt end) }
{
    let key = match encrypted_key_view(&mut body) {
        Ok(key) => key,
        Err(error) => return Err(error),
    };
    body.finish()?;
    let at = Place::ending_at(end, key.content);
    Ok(BagView::Shrouded {
        algorithm: key.algorithm,
        content: key.content,
        at,
    })
}

fn other_kind<'a>(
    bag_id: ObjectIdentifier,
    mut body: SliceReader<'a>,
) -> Result<BagView<'a>, asn1_core::Error>
    ensures exact { Gives seen_bag result (other_kind_all bag_id body.entry.rest.now) }
    ensures lawful { IfOk result IsBagView }
    ensures ends { IfOk result (λ v. (n : ℕ) → BagEndsAt n v) }
{
    let bag_value = read_raw(&mut body)?;
    body.finish()?;
    Ok(BagView::Other { bag_id, bag_value })
}

fn kind_view<'a>(
    bag_id: ObjectIdentifier,
    body: SliceReader<'a>,
    end: usize,
) -> Result<BagView<'a>, asn1_core::Error>
    requires { length body.rest.now ≤ end }
    ensures exact { Gives seen_bag result (kind_all bag_id body.entry.rest.now) }
    ensures lawful { IfOk result IsBagView }
    ensures ends { IfOk result (BagEndsAt end) }
{
    if bag_id == CERT_BAG {
        certificate_kind(body)
    } else if bag_id == SHROUDED_KEY_BAG {
        shrouded_kind(body, end)
    } else {
        other_kind(bag_id, body)
    }
}

/// The bag that comes next in what is left of `total` octets, in which its place is counted.
#[tactic(auto, unfolding(crate::specs::Reading::bag_at))]
pub(crate) fn bag_view<'a>(
    r: &mut SliceReader<'a>,
    total: usize,
) -> Result<BagParts<'a>, asn1_core::Error>
    requires { length r.old.rest.now ≤ total }
    ensures exact { ReadsAs bag_at seen_parts r.old.rest.now r.new.rest.now result }
    ensures lawful { IfOk result AreParts }
    ensures place { r.new.read + length r.new.rest.now ≡ r.old.read + length r.old.rest.now }
    ensures shorter { OnOk result (length r.new.rest.now < length r.old.rest.now) }
    ensures lies { IfOk result (λ p. BagLies total r.old.rest.now r.new.rest.now p.bag) }
{
    let mut ahead = *r;
    let mut body = read_inner(&mut ahead, Tag::SEQUENCE)?;
    let bag_id = read_identifier(&mut body)?;
    let value = read_inner(&mut body, Tag::CONTEXT_0)?;
    let end = total - ahead.rest.len() - body.rest.len();
    let bag = match kind_view(bag_id, value, end) {
        Ok(bag) => bag,
        Err(error) => return Err(error),
    };
    let attributes = attributes_view(body)?;
    *r = ahead;
    Ok(BagParts { bag, attributes })
}

impl<'a> BagView<'a> {
    /// The same in memory of its own. The only refusal is `Memory`.
    fn owned(&self, alloc: Global) -> Result<SafeBagKind, asn1_core::Error>
        requires { IsBagView self.now }
        ensures ok { IfOk result (λ b. b ≡ seen_bag self.now) }
        ensures err { IfErr result (λ e. e ≡ asn1.Memory) }
    {
        Ok(match self {
            BagView::X509(octets) => SafeBagKind::CertBag(CertView::X509(octets).owned(alloc)?),
            BagView::Sdsi(text) => SafeBagKind::CertBag(CertView::Sdsi(text).owned(alloc)?),
            BagView::Shrouded {
                algorithm,
                content,
                ..
            } => SafeBagKind::Pkcs8ShroudedKeyBag(EncryptedPrivateKeyInfo {
                encrypted_data: Octets::from_slice(alloc, content)?,
                encryption_algorithm: algorithm.owned(alloc)?,
            }),
            BagView::Other { bag_id, bag_value } => SafeBagKind::OtherBagKind(OtherBag {
                bag_id: *bag_id,
                bag_value: Octets::from_slice(alloc, bag_value)?,
            }),
        })
    }
}

/// The value of a bag that comes next: an element whose tag its kind has.
fn kind_in_front(
    alloc: Global,
    r: &mut SliceReader<'_>,
    bag_id: ObjectIdentifier,
) -> Result<SafeBagKind, asn1_core::Error>
    ensures exact { ReadsIn (kind_at bag_id) (λ x. x) r.old.rest.now r.new.rest.now result }
    ensures place { r.new.read + length r.new.rest.now ≡ r.old.read + length r.old.rest.now }
{
    let mut ahead = *r;
    let element = read_raw(&mut ahead)?;
    let view = match kind_view(bag_id, SliceReader::new(element), element.len()) {
        Ok(view) => view,
        Err(error) => return Err(error),
    };
    let bag = view.owned(alloc)?;
    *r = ahead;
    Ok(bag)
}

#[tactic(auto, using(crate::proofs::Refusals::only_memory))]
pub(crate) fn bag_in_front(
    alloc: Global,
    r: &mut SliceReader<'_>,
) -> Result<SafeBag, asn1_core::Error>
    ensures exact { ReadsIn bag_at (λ x. x) r.old.rest.now r.new.rest.now result }
    ensures place { r.new.read + length r.new.rest.now ≡ r.old.read + length r.old.rest.now }
    ensures shorter { OnOk result (length r.new.rest.now < length r.old.rest.now) }
{
    let mut ahead = *r;
    let view = match bag_view(&mut ahead, r.rest.len()) {
        Ok(view) => view,
        Err(error) => return Err(error),
    };
    let bag = view.bag.owned(alloc)?;
    let attributes = attribute_list(alloc, SliceReader::new(view.attributes))?;
    *r = ahead;
    Ok(SafeBag { bag, attributes })
}

fn bags(alloc: Global, mut body: SliceReader<'_>) -> Result<Items<SafeBag>, asn1_core::Error>
    ensures { GivesIn (λ x. x) result (many bag_at body.entry.rest.now) }
{
    let mut items = Items::new(alloc);
    while !body.is_finished() {
        let item = bag_in_front(alloc, &mut body)?;
        items.push(item)?;
    }
    Ok(items)
}

#[tactic(auto, unfolding(crate::specs::Reading::bags_at))]
fn all_bags(alloc: Global, bytes: &[u8]) -> Result<Items<SafeBag>, asn1_core::Error>
    ensures { GivesIn (λ x. x) result (whole bags_at bytes.now) }
{
    let mut r = SliceReader::new(bytes);
    let body = read_inner(&mut r, Tag::SEQUENCE)?;
    let items = bags(alloc, body)?;
    r.finish()?;
    Ok(items)
}

impl SafeBag {
    /// The bag that comes next. `Malformed` exactly where none does; the other refusal is `Memory`. A refusal does
    /// not move the reader.
    pub fn parse(alloc: Global, r: &mut SliceReader<'_>) -> Result<SafeBag, Error>
        ensures stands { Reads BagText r.old.rest.now r.new.rest.now result }
        ensures place { r.new.read + length r.new.rest.now ≡ r.old.read + length r.old.rest.now }
    {
        Ok(bag_in_front(alloc, r)?)
    }

    /// The bags that these octets list (SafeContents, RFC 7292 section 4.2). `Malformed` exactly where they are no list of
    /// bags; the other refusal is `Memory`.
    pub fn parse_all(alloc: Global, bytes: &[u8]) -> Result<Items<SafeBag>, Error>
        ensures ok { IfOk result (λ x. IsBags bytes.now x) }
        ensures err { IfErr result (λ e. MalformedOnly e (NoBags bytes.now)) }
    {
        Ok(all_bags(alloc, bytes)?)
    }
}

/// Equal attributes in memory of their own.
fn copied(alloc: Global, attributes: &[PKCS12Attribute]) -> Result<Items<PKCS12Attribute>, Error>
    ensures ok { IfOk result (λ copies. copies ≡ attributes.now) }
    ensures err { IfErr result (λ e. e ≡ Error.Memory) }
{
    let mut copies = Items::new(alloc);
    for attribute in attributes {
        copies.push(attribute.try_clone(alloc)?)?;
    }
    Ok(copies)
}

impl OtherBag {
    /// An equal value in memory of its own. The only refusal is `Memory`.
    pub fn try_clone(&self, alloc: Global) -> Result<OtherBag, Error>
        ensures ok { IfOk result (λ v. v ≡ self.now) }
        ensures err { IfErr result (λ e. e ≡ Error.Memory) }
    {
        Ok(OtherBag {
            bag_id: self.bag_id,
            bag_value: self.bag_value.try_clone(alloc)?,
        })
    }
}

impl SafeBagKind {
    /// An equal value in memory of its own. The only refusal is `Memory`.
    pub fn try_clone(&self, alloc: Global) -> Result<SafeBagKind, Error>
        ensures ok { IfOk result (λ v. v ≡ self.now) }
        ensures err { IfErr result (λ e. e ≡ Error.Memory) }
    {
        Ok(match self {
            SafeBagKind::Pkcs8ShroudedKeyBag(key) => {
                SafeBagKind::Pkcs8ShroudedKeyBag(key.try_clone(alloc)?)
            }
            SafeBagKind::CertBag(certificate) => SafeBagKind::CertBag(certificate.try_clone(
                alloc,
            )?),
            SafeBagKind::OtherBagKind(other) => SafeBagKind::OtherBagKind(other.try_clone(alloc)?),
        })
    }
}

impl SafeBag {
    /// An equal value in memory of its own. The only refusal is `Memory`.
    pub fn try_clone(&self, alloc: Global) -> Result<SafeBag, Error>
        ensures ok { IfOk result (λ v. v ≡ self.now) }
        ensures err { IfErr result (λ e. e ≡ Error.Memory) }
    {
        Ok(SafeBag {
            bag: self.bag.try_clone(alloc)?,
            attributes: copied(alloc, self.attributes.as_slice())?,
        })
    }
}

impl SafeBagKind {
    /// The value of a bag with this identifier, as it is inside the bag's `[0]`. `Malformed` exactly where none does; the
    /// other refusal is `Memory`. A refusal does not move the reader.
    pub fn parse(
        alloc: Global,
        r: &mut SliceReader<'_>,
        bag_id: ObjectIdentifier,
    ) -> Result<SafeBagKind, Error>
        ensures stands { Reads (KindText bag_id) r.old.rest.now r.new.rest.now result }
        ensures place { r.new.read + length r.new.rest.now ≡ r.old.read + length r.old.rest.now }
    {
        Ok(kind_in_front(alloc, r, bag_id)?)
    }

    /// The identifier of the bag's kind.
    pub fn oid(&self) -> ObjectIdentifier
        ensures { oid_octets result ≡ kind_oid self.now }
    {
        match self {
            SafeBagKind::Pkcs8ShroudedKeyBag(_) => SHROUDED_KEY_BAG,
            SafeBagKind::CertBag(_) => CERT_BAG,
            SafeBagKind::OtherBagKind(other) => other.bag_id,
        }
    }

    /// The DER of an X.509 certificate; None exactly for another bag. The only refusal is `Memory`.
    pub fn get_x509_cert(&self, alloc: Global) -> Result<Option<Octets>, Error>
        ensures value { IfOk result (λ c. c ≡ x509_of self.now) }
        ensures err { IfErr result (λ e. e ≡ Error.Memory) }
    {
        match self {
            SafeBagKind::CertBag(CertBag::X509(octets)) => Ok(Some(octets.try_clone(alloc)?)),
            _ => Ok(None),
        }
    }

    /// The text of an SDSI certificate; None exactly for another bag. The only refusal is `Memory`.
    pub fn get_sdsi_cert(&self, alloc: Global) -> Result<Option<Text>, Error>
        ensures value { IfOk result (λ c. c ≡ sdsi_of self.now) }
        ensures err { IfErr result (λ e. e ≡ Error.Memory) }
    {
        match self {
            SafeBagKind::CertBag(CertBag::SDSI(text)) => Ok(Some(text.try_clone(alloc)?)),
            _ => Ok(None),
        }
    }

    /// The plain octets of an encrypted key under a password, which comes as `bmp_string` gives it. None exactly for another bag,
    /// and where `decrypt_pbe` gives none. The only refusal is `Memory`.
    ///
    /// Caller: an encrypted key has fewer than 2^32 octets, its salt and the password fewer than 2^59 each.
    pub fn get_key(&self, alloc: Global, password: &[u8]) -> Result<Option<Octets>, Error>
        requires fits { KindFits self.now }
        requires password { length password.now < 2 ^ 59 }
        ensures value { IfOk result (λ m. m ≡ key_of password.now self.now) }
        ensures err { IfErr result (λ e. e ≡ Error.Memory) }
    {
        match self {
            SafeBagKind::Pkcs8ShroudedKeyBag(key) => key.decrypt(alloc, password),
            SafeBagKind::CertBag(_) | SafeBagKind::OtherBagKind(_) => Ok(None),
        }
    }
}

/// The first friendly name among attributes.
fn first_name(alloc: Global, attributes: &[PKCS12Attribute]) -> Result<Option<Text>, Error>
    ensures value { IfOk result (λ n. n ≡ first_name attributes.now) }
    ensures err { IfErr result (λ e. e ≡ Error.Memory) }
{
    for attribute in attributes {
        if let PKCS12Attribute::FriendlyName(name) = attribute {
            return Ok(Some(name.try_clone(alloc)?));
        }
    }
    Ok(None)
}

/// The first local key id among attributes.
fn first_key_id(alloc: Global, attributes: &[PKCS12Attribute]) -> Result<Option<Octets>, Error>
    ensures value { IfOk result (λ i. i ≡ first_key_id attributes.now) }
    ensures err { IfErr result (λ e. e ≡ Error.Memory) }
{
    for attribute in attributes {
        if let PKCS12Attribute::LocalKeyId(key_id) = attribute {
            return Ok(Some(key_id.try_clone(alloc)?));
        }
    }
    Ok(None)
}

impl SafeBag {
    /// The first friendly name among the attributes; None exactly where there is none. The only refusal is `Memory`.
    pub fn friendly_name(&self, alloc: Global) -> Result<Option<Text>, Error>
        ensures value { IfOk result (λ n. n ≡ first_name self.now.attributes) }
        ensures err { IfErr result (λ e. e ≡ Error.Memory) }
    {
        first_name(alloc, self.attributes.as_slice())
    }

    /// The first local key id among the attributes; None exactly where there is none. The only refusal is `Memory`.
    pub fn local_key_id(&self, alloc: Global) -> Result<Option<Octets>, Error>
        ensures value { IfOk result (λ i. i ≡ first_key_id self.now.attributes) }
        ensures err { IfErr result (λ e. e ≡ Error.Memory) }
    {
        first_key_id(alloc, self.attributes.as_slice())
    }
}

impl BagParts<'_> {
    /// The attributes in memory of their own.
    #[tactic(auto, using(crate::proofs::Refusals::is_memory))]
    fn attributes(&self, alloc: Global) -> Result<Items<PKCS12Attribute>, Error>
        requires { AreParts self.now }
        ensures value { IfOk result (λ a. a ≡ (seen_parts self.now).attributes) }
        ensures err { IfErr result (λ e. e ≡ Error.Memory) }
    {
        Ok(attribute_list(alloc, SliceReader::new(self.attributes))?)
    }

    /// The first friendly name among the attributes; None exactly where there is none. The only refusal is `Memory`.
    ///
    /// Caller: a walk over bags lent these parts.
    pub fn friendly_name(&self, alloc: Global) -> Result<Option<Text>, Error>
        requires { AreParts self.now }
        ensures value { IfOk result (λ n. n ≡ first_name (seen_parts self.now).attributes) }
        ensures err { IfErr result (λ e. e ≡ Error.Memory) }
    {
        let attributes = self.attributes(alloc)?;
        first_name(alloc, attributes.as_slice())
    }

    /// The first local key id among the attributes; None exactly where there is none. The only refusal is `Memory`.
    ///
    /// Caller: a walk over bags lent these parts.
    pub fn local_key_id(&self, alloc: Global) -> Result<Option<Octets>, Error>
        requires { AreParts self.now }
        ensures value { IfOk result (λ i. i ≡ first_key_id (seen_parts self.now).attributes) }
        ensures err { IfErr result (λ e. e ≡ Error.Memory) }
    {
        let attributes = self.attributes(alloc)?;
        first_key_id(alloc, attributes.as_slice())
    }
}

impl SafeBagKind {
    /// Writes the value inside of a bag. `Malformed` only where its algorithm or its SDSI text cannot be
    /// written, or the value of another kind is not one whole element. `Overlength` only where the text has more than
    /// 2^32 - 1 octets, `Memory` when out of memory, else the writer's refusals; a front of the text was written then.
    pub fn write<W: Writer>(&self, alloc: Global, w: &mut W) -> Result<(), asn1_core::Error>
        ensures writes { WritesText W.sink (WritableKind self.now)
            (kind_canon self.now) w.old result w.new }
        ensures short { OnOk result (IsShort (kind_canon self.now)) }
        ensures lawful { OnOk result (WritableKind self.now) }
    {
        write_row(self, alloc, w)
    }
}

impl SafeBag {
    /// Writes the bag, its attributes in ascending order of their octets, and no set where there are none. `Malformed`
    /// only where its value or an attribute cannot be written. `Overlength` only where the text has more than
    /// 2^32 - 1 octets, `Memory` when out of memory, else the writer's refusals; a front of the text was written then.
    pub fn write<W: Writer>(&self, alloc: Global, w: &mut W) -> Result<(), asn1_core::Error>
        ensures writes { WritesText W.sink (WritableBag self.now)
            (bag_canon self.now) w.old result w.new }
        ensures short { OnOk result (IsShort (bag_canon self.now)) }
        ensures lawful { OnOk result (WritableBag self.now) }
    {
        write_row(self, alloc, w)
    }

    /// The text that lists these bags (SafeContents, RFC 7292 section 4.2), which `parse_all` reads: what a content holds.
    /// `Malformed` only where one of them cannot be written, `TooLong` only where the text has more than 2^32 - 1
    /// octets, and `Memory`.
    pub fn all_to_der(alloc: Global, bags: &[SafeBag]) -> Result<Octets, Error>
        ensures { EncodesText (All WritableBag bags.now) (bags_canon bags.now) result }
    {
        let list = Within {
            tag: Tag::SEQUENCE,
            row: &Each(bags),
        };
        der_of(&list, alloc)
    }
}
