//! The contents of a store, walked over in the octets that they were read from.
ghost use Rattle.std.specs.Prelude.{◌≡◌, ◌+◌, ◌-◌, ◌≤◌, ◌<◌, ℕ, [], length, OnOk, IfOk, IfErr, IfSome, IfNone};
ghost use Rattle.asn1_core.specs.Gives.{ReadsAs, Gives};
ghost use Rattle.asn1_core.specs.Reading.{many, whole};
ghost use Rattle.p12.specs.ContentInfo.{IsContents, NoContents};
ghost use Rattle.p12.specs.ContentView.{NextContent};
ghost use Rattle.p12.specs.Reading.{content_at, contents_at};
ghost use Rattle.p12.specs.Walk.{Passes};

use crate::content_info::{ContentView, content_view};
use crate::error::Error;
use asn1_core::{Reader, SliceReader, Tag, read_inner};
use std::marker::Model;

/// The contents that octets list, which a walk lends one after the other. A contract sees what is still to come.
#[derive(Debug, Drop)]
pub struct ContentsView<'a> {
    bytes: &'a [u8],
    rest: &'a [u8],
}

impl<'a> Model for ContentsView<'a> {
    ghost use Rattle.p12.specs.Walk.{Walk, walk_over, IsWalk};
    ghost use Rattle.p12.specs.Reading.{content_at};
    ghost use Rattle.p12.specs.declared.content_info.ContentInfo.{ContentInfo};

    ghost Value = { Walk ContentInfo };

    ghost view = { λ s. walk_over content_at s.bytes.now s.rest.now };

    ghost invariant = { λ s. IsWalk content_at s.bytes.now s.rest.now };
}

/// That contents come one after the other, to the end.
fn check(mut body: SliceReader<'_>) -> Result<(), asn1_core::Error>
    ensures { Passes result (many content_at body.entry.rest.now) }
{
    while !body.is_finished() {
        let total = body.rest.len();
        match content_view(&mut body, total) {
            Ok(_) => {}
            Err(error) => return Err(error),
        }
    }
    Ok(())
}

#[tactic(auto, unfolding(crate::specs::Reading::contents_at))]
fn all_contents<'a>(bytes: &'a [u8]) -> Result<ContentsView<'a>, asn1_core::Error>
    ensures exact { Gives (λ w. w.left) result (whole contents_at bytes.now) }
    ensures front { IfOk result (λ w. w.bytes ≡ bytes.now) }
{
    let mut r = SliceReader::new(bytes);
    let body = read_inner(&mut r, Tag::SEQUENCE)?;
    check(body)?;
    r.finish()?;
    Ok(ContentsView {
        bytes,
        rest: body.rest,
    })
}

impl<'a> ContentsView<'a> {
    /// The contents that these octets list. `Malformed` exactly where they are no list of contents. This takes no memory.
    pub fn parse(bytes: &'a [u8]) -> Result<ContentsView<'a>, Error>
        ensures ok { IfOk result (λ w. IsContents bytes.now w.left × (w.bytes ≡ bytes.now)) }
        ensures err { IfErr result (λ e. (e ≡ Error.Malformed) × NoContents bytes.now) }
    {
        Ok(all_contents(bytes)?)
    }

    /// The next content; None exactly after the last.
    pub fn next(&mut self) -> Option<ContentView<'a>>
        ensures some { IfSome result (NextContent self.old self.new) }
        ensures none { IfNone result ((self.old.left ≡ []) × (self.new ≡ self.old)) }
    {
        if self.rest.is_empty() {
            return None;
        }
        let mut r = SliceReader::new(self.rest);
        match content_view(&mut r, self.bytes.len()) {
            Ok(content) => {
                self.rest = r.rest;
                Some(content)
            }
            Err(_) => unreachable!(),
        }
    }
}
