//! The bags of a content, walked over in the octets that they were read from.
ghost use Rattle.std.specs.Prelude.{◌≡◌, ◌+◌, ◌-◌, ◌≤◌, ◌<◌, ℕ, [], length, OnOk, OnErr, IfOk, IfErr, IfSome, IfNone};
ghost use Rattle.asn1_core.specs.Gives.{ReadsAs, Gives};
ghost use Rattle.asn1_core.specs.Reading.{many, whole};
ghost use Rattle.p12.specs.SafeBag.{IsBags, NoBags};
ghost use Rattle.p12.specs.BagView.{AreParts, GoesBy, ListsBags, NextBag, bags_of, seen_parts};
ghost use Rattle.p12.specs.Reading.{bag_at, bags_at};
ghost use Rattle.p12.specs.Walk.{Passes};

use crate::error::Error;
use crate::safe_bag::{BagParts, BagView, SafeBag, bag_in_front, bag_view};
use asn1_core::{Reader, SliceReader, Tag, read_inner};
use std::alloc::{AllocError, Global};
use std::marker::Model;

/// The bags that octets list, which a walk lends one after the other. A contract sees what is still to come.
#[derive(Debug, Drop)]
pub struct BagsView<'a> {
    bytes: &'a [u8],
    rest: &'a [u8],
}

impl<'a> Model for BagsView<'a> {
    ghost use Rattle.p12.specs.Walk.{Walk, walk_over, IsWalk};
    ghost use Rattle.p12.specs.Reading.{bag_at};
    ghost use Rattle.p12.specs.declared.safe_bag.SafeBag.{SafeBag};

    ghost Value = { Walk SafeBag };

    ghost view = { λ s. walk_over bag_at s.bytes.now s.rest.now };

    ghost invariant = { λ s. IsWalk bag_at s.bytes.now s.rest.now };
}

/// That bags come one after the other, to the end.
fn check(mut body: SliceReader<'_>) -> Result<(), asn1_core::Error>
    ensures { Passes result (many bag_at body.entry.rest.now) }
{
    while !body.is_finished() {
        let total = body.rest.len();
        match bag_view(&mut body, total) {
            Ok(_) => {}
            Err(error) => return Err(error),
        }
    }
    Ok(())
}

#[tactic(auto, unfolding(crate::specs::Reading::bags_at))]
fn all_bags<'a>(bytes: &'a [u8]) -> Result<BagsView<'a>, asn1_core::Error>
    ensures exact { Gives (λ w. w.left) result (whole bags_at bytes.now) }
    ensures front { IfOk result (λ w. w.bytes ≡ bytes.now) }
{
    let mut r = SliceReader::new(bytes);
    let body = read_inner(&mut r, Tag::SEQUENCE)?;
    check(body)?;
    r.finish()?;
    Ok(BagsView {
        bytes,
        rest: body.rest,
    })
}

impl<'a> BagsView<'a> {
    /// The bags that these octets list. `Malformed` exactly where they are no list of bags. This takes no memory.
    pub fn parse(bytes: &'a [u8]) -> Result<BagsView<'a>, Error>
        ensures ok { IfOk result (λ w. IsBags bytes.now w.left × (w.bytes ≡ bytes.now)) }
        ensures err { IfErr result (λ e. (e ≡ Error.Malformed) × NoBags bytes.now) }
    {
        Ok(all_bags(bytes)?)
    }

    /// The bags that these octets list, which were read before: their header is read, and nothing is checked again.
    ///
    /// Caller: the octets list bags.
    pub fn of_listed(bytes: &'a [u8]) -> BagsView<'a>
        requires { ListsBags bytes.now }
        ensures are { result.left ≡ bags_of bytes.now }
        ensures bytes { result.bytes ≡ bytes.now }
    {
        let mut r = SliceReader::new(bytes);
        match read_inner(&mut r, Tag::SEQUENCE) {
            Ok(body) => BagsView {
                bytes,
                rest: body.rest,
            },
            Err(_) => unreachable!(),
        }
    }

    /// The next bag, without its attributes; None exactly after the last.
    pub fn next(&mut self) -> Option<BagView<'a>>
        ensures some { IfSome result (NextBag self.old self.new) }
        ensures none { IfNone result ((self.old.left ≡ []) × (self.new ≡ self.old)) }
    {
        if self.rest.is_empty() {
            return None;
        }
        let mut r = SliceReader::new(self.rest);
        match bag_view(&mut r, self.bytes.len()) {
            Ok(parts) => {
                self.rest = r.rest;
                Some(parts.bag)
            }
            Err(_) => unreachable!(),
        }
    }

    /// The next bag, with the octets in which its attributes are; None exactly after the last. This takes no memory.
    pub fn next_parts(&mut self) -> Option<BagParts<'a>>
        ensures some { IfSome result
            (λ parts. AreParts parts × GoesBy self.old self.new (seen_parts parts)) }
        ensures none { IfNone result ((self.old.left ≡ []) × (self.new ≡ self.old)) }
    {
        if self.rest.is_empty() {
            return None;
        }
        let mut r = SliceReader::new(self.rest);
        match bag_view(&mut r, self.bytes.len()) {
            Ok(parts) => {
                self.rest = r.rest;
                Some(parts)
            }
            Err(_) => unreachable!(),
        }
    }

    /// The next bag and its attributes, in memory of its own; None exactly after the last. Where there is no memory the walk is not
    /// moved.
    pub fn next_owned(&mut self, alloc: Global) -> Result<Option<SafeBag>, AllocError>
        ensures some { IfOk result (λ next. IfSome next (GoesBy self.old self.new)) }
        ensures none { IfOk result
            (λ next. IfNone next ((self.old.left ≡ []) × (self.new ≡ self.old))) }
        ensures unchanged { OnErr result (self.new ≡ self.old) }
    {
        if self.rest.is_empty() {
            return Ok(None);
        }
        let mut r = SliceReader::new(self.rest);
        match bag_in_front(alloc, &mut r) {
            Ok(bag) => {
                self.rest = r.rest;
                Ok(Some(bag))
            }
            // `parse` has read the bag before, so it is not malformed.
            Err(_) => Err(AllocError),
        }
    }
}
