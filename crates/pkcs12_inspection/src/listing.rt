//! The certificates and private keys of a store by what their attributes say of them, and the bags
//! that are not exported.
ghost use Rattle.std.specs.Prelude.{◌≡◌, ℕ, List, [], ◌∷◌, IfOk, OnOk, map, option_map, option_and_then, position};
ghost use Rattle.std.specs.BTreeMap as tree;
ghost use Rattle.std.specs.Cmp.Lexicographic.{slice_cmp};
ghost use Rattle.std.specs.Ordering.{nat_cmp};
ghost use Rattle.p12.specs.BagView.{AreParts, seen_parts};
ghost use Rattle.pkcs12_inspection.specs.Listed.{Adds};
ghost use Rattle.pkcs12_inspection.specs.Pairs.{first_of, has_key_id, pair_of};

use crate::certificate_shape::has_certificate_shape;
use crate::other_bag::OtherBag;
use crate::out_of_memory::out_of_memory;
use asn1_core::{Items, Octets, Text};
use p12::{BagParts, BagView, BagsView};
use std::alloc::{AllocError, Global};
use std::collections::BTreeMap;
use std::fmt;
use terminal_text::{Hexadecimal, InQuotes};

/// What the attributes of a certificate or private key say of it (RFC 2985 section 5.5). Writers
/// give a private key and its certificate the same local key id.
#[derive(Drop)]
pub struct Label {
    friendly_name: Option<Text>,
    local_key_id: Option<Octets>,
    /// Whether the bag is meant for a certificate and its octets are none.
    is_no_certificate: bool,
}

/// Whether the bag is meant for a certificate and has other octets.
fn is_no_certificate(bag: &BagView<'_>) -> bool {
    match bag {
        BagView::X509(octets) => !has_certificate_shape(octets),
        _ => false,
    }
}

/// The first friendly name of a bag.
fn friendly_name_of(alloc: Global, bag: &BagParts<'_>) -> Result<Option<Text>, AllocError>
    requires { AreParts bag.now }
{
    match bag.friendly_name(alloc) {
        Ok(name) => Ok(name),
        Err(error) => Err(out_of_memory(error)),
    }
}

/// The first local key id of a bag.
fn local_key_id_of(alloc: Global, bag: &BagParts<'_>) -> Result<Option<Octets>, AllocError>
    requires { AreParts bag.now }
{
    match bag.local_key_id(alloc) {
        Ok(id) => Ok(id),
        Err(error) => Err(out_of_memory(error)),
    }
}

impl Label {
    /// The label of a bag: the first attribute of each kind.
    ///
    /// Caller: a walk over bags lent these parts.
    pub fn of(alloc: Global, bag: &BagParts<'_>) -> Result<Label, AllocError>
        requires { AreParts bag.now }
    {
        Ok(Label {
            friendly_name: friendly_name_of(alloc, bag)?,
            local_key_id: local_key_id_of(alloc, bag)?,
            is_no_certificate: is_no_certificate(&bag.bag),
        })
    }

    /// Whether there is neither a name nor a key id.
    pub fn is_empty(&self) -> bool {
        self.friendly_name.is_none() && self.local_key_id.is_none()
    }

    pub fn friendly_name(&self) -> Option<&str> {
        match &self.friendly_name {
            Some(name) => Some(name.as_str()),
            None => None,
        }
    }

    pub fn local_key_id(&self) -> Option<&[u8]>
        ensures { option_map (λ id. id.now) result ≡ self.now.local_key_id }
    {
        match &self.local_key_id {
            Some(id) => Some(id.as_slice()),
            None => None,
        }
    }

    /// Whether what is exported as a certificate is none.
    pub fn is_no_certificate(&self) -> bool {
        self.is_no_certificate
    }
}

impl fmt::Display for Label {
    fn fmt<W: fmt::Write>(&self, f: &mut fmt::Formatter<W>) -> fmt::Result {
        if let Some(name) = self.friendly_name() {
            write!(f, "friendly name {}", InQuotes(name))?;
            if self.local_key_id.is_some() {
                f.write_str(", ")?;
            }
        }
        if let Some(id) = self.local_key_id() {
            write!(f, "local key id {}", Hexadecimal(id))?;
        }
        Ok(())
    }
}

/// What a store has, each in store order: so certificate 0 is the one that goes to the file
/// `cert-0`.
#[derive(Drop)]
pub struct Listing {
    pub certificates: Items<Label>,
    pub keys: Items<Label>,
    pub others: Items<OtherBag>,
}

impl Listing {
    /// The listing of a store without bags.
    pub fn new(alloc: Global) -> Listing
        ensures certificates { result.certificates ≡ [] }
        ensures others { result.others ≡ [] }
    {
        Listing {
            certificates: Items::new(alloc),
            keys: Items::new(alloc),
            others: Items::new(alloc),
        }
    }

    /// Adds the bags of a content that are still to come: a label for each X.509 certificate and each encrypted private key among
    /// them. A bag takes no memory beyond its label.
    pub fn add_bags(&mut self, alloc: Global, mut bags: BagsView<'_>) -> Result<(), AllocError>
        ensures { OnOk result (Adds self.old self.new bags.entry.left) }
    {
        while let Some(bag) = bags.next_parts() {
            self.add(alloc, &bag)?;
        }
        Ok(())
    }

    /// Adds a bag.
    fn add(&mut self, alloc: Global, bag: &BagParts<'_>) -> Result<(), AllocError>
        requires { AreParts bag.now }
        ensures { OnOk result (Adds self.old self.new (seen_parts bag.now ∷ [])) }
    {
        match &bag.bag {
            BagView::X509(_) => self.certificates.push(Label::of(alloc, bag)?)?,
            BagView::Shrouded { .. } => self.keys.push(Label::of(alloc, bag)?)?,
            BagView::Sdsi(_) => self.others.push(OtherBag::SdsiCertificate)?,
            BagView::Other { bag_id, .. } => self.others.push(OtherBag::of(*bag_id))?,
        }
        Ok(())
    }

    /// For each private key the place of the first certificate that has its local key id: the pair
    /// belongs together.
    pub fn pairs(&self, alloc: Global) -> Result<Vec<Option<usize>>, AllocError>
        ensures { IfOk result (λ pairs. pairs.items
            ≡ map (pair_of self.now.certificates) self.now.keys) }
    {
        let places = first_places(alloc, self.certificates.as_slice())?;
        let mut pairs = Vec::new(alloc);
        for key in self.keys.as_slice() {
            pairs.push(place_of(&places, key))?;
        }
        Ok(pairs)
    }
}

/// Takes note of the place of a certificate whose local key id has none yet.
fn note_place<'a>(
    places: &mut BTreeMap<&'a [u8], usize>,
    label: &'a Label,
    place: usize,
) -> Result<(), AllocError>
    ensures { OnOk result ((id : List ℕ) → tree.get_by (λ k. slice_cmp nat_cmp id k.now) places.new
        ≡ first_of (tree.get_by (λ k. slice_cmp nat_cmp id k.now) places.old)
        (has_key_id id label.now) place) }
{
    if let Some(id) = label.local_key_id() {
        if !places.contains_key(id) {
            places.insert(id, place)?;
        }
    }
    Ok(())
}

/// The place of the first certificate of each local key id.
fn first_places(alloc: Global, labels: &[Label]) -> Result<BTreeMap<&[u8], usize>, AllocError>
    ensures { IfOk result (λ m. (id : List ℕ) → tree.get_by (λ k. slice_cmp nat_cmp id k.now) m
        ≡ position (has_key_id id) labels.now) }
{
    let mut places = BTreeMap::new(alloc);
    for (place, label) in labels.iter().enumerate() {
        note_place(&mut places, label, place)?;
    }
    Ok(places)
}

/// The place of the key's certificate, where there is one.
fn place_of(places: &BTreeMap<&[u8], usize>, key: &Label) -> Option<usize>
    ensures { result ≡ option_and_then
        (λ id. tree.get_by (λ k. slice_cmp nat_cmp id k.now) places.now) key.now.local_key_id }
{
    match key.local_key_id() {
        Some(id) => places.get(id).copied(),
        None => None,
    }
}
