//! The MAC of a store.
ghost use Rattle.std.specs.Prelude.{◌+◌, ◌≡◌, ◌<◌, ◌≤◌, ◌^◌, length, OnOk, IfOk, IfErr, true};
ghost use Rattle.std.specs.Result.{IsErrOf};
ghost use Rattle.asn1_core.specs.Gives.{Gives, ReadsAs};
ghost use Rattle.p12.specs.MacData.{MacText, is_mac_digest, mac_agrees, mac_of, mac_steps, mac_value};
ghost use Rattle.pkcs12_kdf.specs.Mac.{mac_under};
ghost use Rattle.pkcs12_kdf.specs.Password.{bmp_password};
ghost use Rattle.p12.specs.declared.algorithm_identifier.AlgorithmIdentifier.TheVariants as algorithm;
ghost use Rattle.p12.specs.MacView.{seen_mac};
ghost use Rattle.p12.specs.Error.{Reads};
ghost use Rattle.asn1_core.specs.declared.error.Error.TheVariants as asn1;
ghost use Rattle.p12.specs.Reading.{iterations_all, mac_at};
ghost use Rattle.asn1_core.specs.Der.{IsShort};
ghost use Rattle.p12.specs.Canonical.{WritableMac, mac_canon};
ghost use Rattle.p12.specs.Writing.{WritesText};
ghost use Rattle.p12.specs.Building.{DrawsSalt, RefusesDrawn};

use crate::algorithm_identifier::{AlgorithmIdentifier, AlgorithmView};
use crate::building::{ITERATIONS, draw_salt};
use crate::digest_info::{DigestInfo, digest_view};
use crate::error::Error;
use crate::mac::{agrees_under, made_under};
use crate::password::bmp_string;
use crate::writing::write_row;
use asn1_core::{Octets, Reader, SliceReader, Tag, Writer, read_inner, read_uint};
use mac_modes::{Draw, HashFn, Sha1, Sha256};
use std::alloc::Global;
use std::marker::Brand;
use std::sync::ledger::{Blank, Ledger};
use steps::Steps;

/// The MAC of a store (RFC 7292 section 4): its digest, the salt, and how many rounds derive its key.
///
/// ```text
/// MacData ::= SEQUENCE { mac DigestInfo, macSalt OCTET STRING, iterations INTEGER DEFAULT 1 }
/// ```
#[derive(Debug, Drop)]
pub struct MacData {
    pub mac: DigestInfo,
    pub salt: Octets,
    pub iterations: u32,
}

/// The MAC of a store, which it lends from the octets that were parsed. A contract sees the MAC in memory of its own.
#[derive(Clone, Copy, Debug, Drop)]
pub struct MacView<'a> {
    pub algorithm: AlgorithmView<'a>,
    pub digest: &'a [u8],
    pub salt: &'a [u8],
    pub iterations: u32,
}

/// The count at the end of the MAC: 1 where it is left out.
fn iterations_of(mut body: SliceReader<'_>) -> Result<u32, asn1_core::Error>
    ensures { Gives (λ n. n) result (iterations_all body.entry.rest.now) }
{
    if body.is_finished() {
        return Ok(1);
    }
    let iterations = read_uint(&mut body, 0xffff_ffff)?;
    body.finish()?;
    Ok(iterations as u32)
}

#[tactic(auto, unfolding(crate::specs::Reading::mac_at))]
pub(crate) fn mac_view<'a>(r: &mut SliceReader<'a>) -> Result<MacView<'a>, asn1_core::Error>
    ensures exact { ReadsAs mac_at seen_mac r.old.rest.now r.new.rest.now result }
    ensures place { r.new.read + length r.new.rest.now ≡ r.old.read + length r.old.rest.now }
{
    let mut ahead = *r;
    let mut body = read_inner(&mut ahead, Tag::SEQUENCE)?;
    let mac = match digest_view(&mut body) {
        Ok(mac) => mac,
        Err(error) => return Err(error),
    };
    let salt = read_inner(&mut body, Tag::OCTET_STRING)?.rest;
    let iterations = iterations_of(body)?;
    *r = ahead;
    Ok(MacView {
        algorithm: mac.algorithm,
        digest: mac.digest,
        salt,
        iterations,
    })
}

impl<'a> MacView<'a> {
    /// The same in memory of its own. The only refusal is `Memory`.
    pub(crate) fn owned(&self, alloc: Global) -> Result<MacData, asn1_core::Error>
        ensures ok { IfOk result (λ m. m ≡ seen_mac self.now) }
        ensures err { IfErr result (λ e. e ≡ asn1.Memory) }
    {
        let digest = Octets::from_slice(alloc, self.digest)?;
        let salt = Octets::from_slice(alloc, self.salt)?;
        Ok(MacData {
            mac: DigestInfo {
                digest_algorithm: self.algorithm.owned(alloc)?,
                digest,
            },
            salt,
            iterations: self.iterations,
        })
    }
}

impl MacData {
    /// The MAC that comes next. `Malformed` exactly where none does; the other refusal is `Memory`. A refusal does
    /// not move the reader.
    pub fn parse(alloc: Global, r: &mut SliceReader<'_>) -> Result<MacData, Error>
        ensures stands { Reads MacText r.old.rest.now r.new.rest.now result }
        ensures place { r.new.read + length r.new.rest.now ≡ r.old.read + length r.old.rest.now }
    {
        let mut ahead = *r;
        let view = match mac_view(&mut ahead) {
            Ok(view) => view,
            Err(error) => return Err(error.into()),
        };
        let mac = view.owned(alloc)?;
        *r = ahead;
        Ok(mac)
    }
}

impl MacData {
    /// An equal value in memory of its own. The only refusal is `Memory`.
    pub fn try_clone(&self, alloc: Global) -> Result<MacData, Error>
        ensures ok { IfOk result (λ v. v ≡ self.now) }
        ensures err { IfErr result (λ e. e ≡ Error.Memory) }
    {
        let salt = self.salt.try_clone(alloc)?;
        Ok(MacData {
            mac: self.mac.try_clone(alloc)?,
            salt,
            iterations: self.iterations,
        })
    }
}

impl MacData {
    /// The MAC, its parts lent.
    pub fn view(&self) -> MacView<'_>
        ensures { seen_mac result ≡ self.now }
    {
        MacView {
            algorithm: self.mac.digest_algorithm.view(),
            digest: self.mac.digest.as_slice(),
            salt: self.salt.as_slice(),
            iterations: self.iterations,
        }
    }
}

impl<'a> MacView<'a> {
    /// `MacData::verify_mac_counted` of a MAC that is lent: its password comes as `bmp_string` gives it. The only refusal is
    /// `Memory`.
    ///
    /// Caller: password and salt have fewer than 2^59 octets each.
    #[tactic(auto, unfolding(crate::specs::MacData::mac_agrees, crate::specs::MacData::mac_value))]
    pub fn verify_mac_counted<L: Ledger>(
        &self,
        alloc: Global,
        content: &[u8],
        password: &[u8],
        steps: &mut Steps<L>,
    ) -> Result<bool, Error>
        requires password { length password.now < 2 ^ 59 }
        requires salt { length self.now.salt.now < 2 ^ 59 }
        ensures value { IfOk result
            (λ agrees. agrees ≡ mac_agrees (seen_mac self.now) password.now content.now) }
        ensures err { IfErr result (λ e. e ≡ Error.Memory) }
        ensures steps { OnOk result (steps.new ≡ steps.old + mac_steps (seen_mac self.now)) }
        ensures at_most { (steps.old ≤ steps.new)
            × (steps.new ≤ steps.old + mac_steps (seen_mac self.now)) }
    {
        match &self.algorithm {
            AlgorithmView::Sha1 => agrees_under::<Sha1, L>(self, alloc, content, password, steps),
            AlgorithmView::Sha256 => {
                agrees_under::<Sha256, L>(self, alloc, content, password, steps)
            }
            AlgorithmView::Rc2 { .. }
            | AlgorithmView::TripleDes { .. }
            | AlgorithmView::Pbes2(_)
            | AlgorithmView::Other { .. } => Ok(false),
        }
    }

    /// Whether the MAC of the content under the password is the digest: `verify_mac_counted` under `bmp_string` of the
    /// password. The only refusal is `Memory`.
    ///
    /// Caller: the content has fewer than 2^32 octets, the password fewer than 2^57, the salt fewer than 2^59.
    pub fn verify_counted<L: Ledger>(
        &self,
        alloc: Global,
        content: &[u8],
        password: &str,
        steps: &mut Steps<L>,
    ) -> Result<bool, Error>
        requires content { length content.now < 2 ^ 32 }
        requires password { length password.now < 2 ^ 57 }
        requires salt { length self.now.salt.now < 2 ^ 59 }
        ensures value { IfOk result
            (λ agrees. agrees ≡ mac_agrees (seen_mac self.now)
            (bmp_password password.now) content.now) }
        ensures err { IfErr result (λ e. e ≡ Error.Memory) }
        ensures steps { OnOk result (steps.new ≡ steps.old + mac_steps (seen_mac self.now)) }
        ensures at_most { (steps.old ≤ steps.new)
            × (steps.new ≤ steps.old + mac_steps (seen_mac self.now)) }
    {
        let units = bmp_string(alloc, password)?;
        self.verify_mac_counted(alloc, content, units.as_slice(), steps)
    }
}

impl MacData {
    /// Whether the MAC of the content under a password, which comes as `bmp_string` gives it, is the digest: true exactly where the
    /// algorithm is SHA-1 or SHA-256, the count at least 1, and the MAC under that hash equal to the digest. The only refusal is
    /// `Memory`. One step is taken for each hash of a round: the count under these two algorithms, and otherwise none.
    ///
    /// Caller: the content has fewer than 2^32 octets, password and salt fewer than 2^59 each.
    pub fn verify_mac_counted<L: Ledger>(
        &self,
        alloc: Global,
        content: &[u8],
        password: &[u8],
        steps: &mut Steps<L>,
    ) -> Result<bool, Error>
        requires content { length content.now < 2 ^ 32 }
        requires password { length password.now < 2 ^ 59 }
        requires salt { length self.now.salt < 2 ^ 59 }
        ensures value { IfOk result
            (λ agrees. agrees ≡ mac_agrees self.now password.now content.now) }
        ensures err { IfErr result (λ e. e ≡ Error.Memory) }
        ensures steps { OnOk result (steps.new ≡ steps.old + mac_steps self.now) }
        ensures at_most { (steps.old ≤ steps.new) × (steps.new ≤ steps.old + mac_steps self.now) }
    {
        self.view()
            .verify_mac_counted(alloc, content, password, steps)
    }

    fn verify_mac_from<L: Ledger>(
        &self,
        alloc: Global,
        content: &[u8],
        password: &[u8],
        blank: Blank,
    ) -> Result<bool, Error>
        requires name { blank.name ≡ L.name }
        requires parts { blank.parts ≡ L.parts }
        requires some { 0 < blank.parts }
        requires content { length content.now < 2 ^ 32 }
        requires password { length password.now < 2 ^ 59 }
        requires salt { length self.now.salt < 2 ^ 59 }
        ensures value { IfOk result
            (λ agrees. agrees ≡ mac_agrees self.now password.now content.now) }
        ensures err { IfErr result (λ e. e ≡ Error.Memory) }
    {
        let mut steps = Steps::<L>::open(blank);
        self.verify_mac_counted(alloc, content, password, &mut steps)
    }

    /// `verify_mac_counted` where nothing is counted. Caller: as there.
    pub fn verify_mac(&self, alloc: Global, content: &[u8], password: &[u8]) -> Result<bool, Error>
        requires content { length content.now < 2 ^ 32 }
        requires password { length password.now < 2 ^ 59 }
        requires salt { length self.now.salt < 2 ^ 59 }
        ensures value { IfOk result
            (λ agrees. agrees ≡ mac_agrees self.now password.now content.now) }
        ensures err { IfErr result (λ e. e ≡ Error.Memory) }
    {
        self.verify_mac_from::<Brand>(alloc, content, password, Blank::new(1))
    }

    /// `with_salt` under the hash `H`, which is that of the digest's algorithm.
    fn with_salt_under<H: HashFn>(
        alloc: Global,
        digest_algorithm: AlgorithmIdentifier,
        content: &[u8],
        password: &[u8],
        salt: &[u8],
        iterations: u32,
    ) -> Result<MacData, Error>
        requires block { H.BLOCK ≡ 64 }
        requires hash { mac_value digest_algorithm ≡ mac_under H.digest H.OUTPUT }
        requires digest { is_mac_digest digest_algorithm ≡ true }
        requires iterations { 1 ≤ iterations }
        requires password { length password.now < 2 ^ 59 }
        requires salt { length salt.now < 2 ^ 59 }
        ensures value { IfOk result
            (λ m. m ≡ mac_of digest_algorithm password.now content.now salt.now iterations) }
        ensures agrees { IfOk result (λ m. mac_agrees m password.now content.now ≡ true) }
        ensures err { IfErr result (λ e. e ≡ Error.Memory) }
    {
        let digest = made_under::<H>(alloc, content, password, salt, iterations)?;
        let salt = Octets::from_slice(alloc, salt)?;
        Ok(MacData {
            mac: DigestInfo {
                digest_algorithm,
                digest,
            },
            salt,
            iterations,
        })
    }

    /// The MAC of a content under SHA-1, with this salt and count. It agrees for this content and password. The only refusal is
    /// `Memory`.
    ///
    /// Caller: at least one round, a content of fewer than 2^32 octets, password and salt of fewer than 2^59 octets each.
    #[tactic(auto, unfolding(crate::specs::MacData::mac_value))]
    pub fn with_salt(
        alloc: Global,
        content: &[u8],
        password: &[u8],
        salt: &[u8],
        iterations: u32,
    ) -> Result<MacData, Error>
        requires iterations { 1 ≤ iterations }
        requires content { length content.now < 2 ^ 32 }
        requires password { length password.now < 2 ^ 59 }
        requires salt { length salt.now < 2 ^ 59 }
        ensures value { IfOk result
            (λ m. m ≡ mac_of algorithm.Sha1 password.now content.now salt.now iterations) }
        ensures agrees { IfOk result (λ m. mac_agrees m password.now content.now ≡ true) }
        ensures err { IfErr result (λ e. e ≡ Error.Memory) }
    {
        let algorithm = AlgorithmIdentifier::Sha1;
        MacData::with_salt_under::<Sha1>(alloc, algorithm, content, password, salt, iterations)
    }

    /// `with_salt` under SHA-256. Refusal and caller's conditions as there.
    #[tactic(auto, unfolding(crate::specs::MacData::mac_value))]
    pub fn with_salt_sha256(
        alloc: Global,
        content: &[u8],
        password: &[u8],
        salt: &[u8],
        iterations: u32,
    ) -> Result<MacData, Error>
        requires iterations { 1 ≤ iterations }
        requires content { length content.now < 2 ^ 32 }
        requires password { length password.now < 2 ^ 59 }
        requires salt { length salt.now < 2 ^ 59 }
        ensures value { IfOk result
            (λ m. m ≡ mac_of algorithm.Sha256 password.now content.now salt.now iterations) }
        ensures agrees { IfOk result (λ m. mac_agrees m password.now content.now ≡ true) }
        ensures err { IfErr result (λ e. e ≡ Error.Memory) }
    {
        let algorithm = AlgorithmIdentifier::Sha256;
        MacData::with_salt_under::<Sha256>(alloc, algorithm, content, password, salt, iterations)
    }
}

impl MacData {
    /// Writes the MAC, with its count also where that is 1. `Malformed` only where the algorithm of its digest
    /// cannot be written. `Overlength` only where the text has more than 2^32 - 1 octets, `Memory` when out of memory,
    /// else the writer's refusals; a front of the text was written then.
    pub fn write<W: Writer>(&self, alloc: Global, w: &mut W) -> Result<(), asn1_core::Error>
        ensures writes { WritesText W.sink (WritableMac self.now)
            (mac_canon self.now) w.old result w.new }
        ensures short { OnOk result (IsShort (mac_canon self.now)) }
        ensures lawful { OnOk result (WritableMac self.now) }
    {
        write_row(self, alloc, w)
    }
}

impl MacData {
    /// The MAC of a content under SHA-1 in 2,048 rounds, with the next 8 octets of the draw as its salt. It agrees for
    /// this content and password. `Rng` exactly where the draw fails: over one that tells its octets, where fewer than
    /// 8 remain. The other refusal is `Memory`.
    ///
    /// Caller: a content of fewer than 2^32 octets, a password, as `bmp_string` gives it, of fewer than 2^59.
    pub fn new<D: Draw>(
        alloc: Global,
        content: &[u8],
        password: &[u8],
        draw: &mut D,
    ) -> Result<MacData, Error>
        requires content { length content.now < 2 ^ 32 }
        requires password { length password.now < 2 ^ 59 }
        ensures ok { IfOk result (λ m. DrawsSalt (D.left draw.old) (D.left draw.new)
            (λ salt. m ≡ mac_of algorithm.Sha1 password.now content.now salt 2048)) }
        ensures agrees { IfOk result (λ m. mac_agrees m password.now content.now ≡ true) }
        ensures err { IfErr result (RefusesDrawn ⊥ ⊥
            (D.faults draw.old) (D.faults draw.new) (D.left draw.old) 8) }
        ensures count { D.faults draw.old ≤ D.faults draw.new }
        ensures no_fault { OnOk result (D.faults draw.new ≡ D.faults draw.old) }
        ensures last { D.faults draw.old < D.faults draw.new → IsErrOf result Error.Rng }
    {
        let salt = draw_salt(draw)?;
        MacData::with_salt(alloc, content, password, &salt, ITERATIONS)
    }
}
