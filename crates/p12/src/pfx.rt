//! Stores.
ghost use Rattle.std.specs.Prelude.{◌+◌, ◌-◌, ◌^◌, ◌≡◌, length, OnOk, IfOk, IfErr, ◌<◌, List, ◌≤◌};
ghost use Rattle.std.specs.Result.{IsErrOf};
ghost use Rattle.asn1_core.specs.Gives.{Gives, ReadsAs};
ghost use Rattle.asn1_core.specs.Reading.{perhaps, whole};
ghost use Rattle.asn1_core.specs.Texts.{seen_option};
ghost use Rattle.p12.specs.ContentView.{ContentBetween, ContentStands};
ghost use Rattle.p12.specs.MacView.{seen_mac};
ghost use Rattle.p12.specs.StoreView.{seen_store};
ghost use Rattle.p12.specs.Pfx.{IsStore, NoStore, OpeningFits, StoreFits, MacFits};
ghost use Rattle.asn1_core.specs.declared.error.Error.TheVariants as asn1;
ghost use Rattle.p12.specs.Error.{MalformedOnly};
ghost use Rattle.p12.specs.Reading.{mac_at, pfx_at};
ghost use Rattle.asn1_core.specs.Der.{IsShort};
ghost use Rattle.p12.specs.Canonical.{WritableStore, store_canon};
ghost use Rattle.p12.specs.Writing.{EncodesText, WritesText};
ghost use Rattle.p12.specs.Collected.{Refuses, StoreFault, StoreHolds, at_most_one, certificates_among, keys_among, sdsi_among, store_agrees};
ghost use Rattle.p12.specs.ContentInfo.{SealFits};
ghost use Rattle.p12.specs.Building.{DrawsSalts, IsStoreOf, IsTooLongStore, RefusesDrawn, entry_of};
ghost use Rattle.pkcs12_kdf.specs.Password.{bmp_password};

use crate::collecting::{all_bags, certificates_of, opened_keys, sdsi_texts_of};
use crate::content_info::{ContentInfo, ContentView, content_view};
use crate::error::Error;
use crate::mac_data::{MacData, MacView, mac_view};
use crate::password::bmp_string;
use crate::safe_bag::SafeBag;
use crate::store::{EntryParts, draw_salts, outer_text, store_over};
use crate::writing::{der_of, write_row};
use asn1_core::{Items, Octets, Reader, SliceReader, Tag, Text, Writer, read_inner, read_uint};
use mac_modes::Draw;
use std::alloc::Global;

/// A store (RFC 7292 section 4): its version, the content that holds everything else, and its MAC, if there.
///
/// ```text
/// PFX ::= SEQUENCE { version INTEGER, authSafe ContentInfo, macData MacData OPTIONAL }
/// ```
#[derive(Debug, Drop)]
pub struct PFX {
    pub version: u8,
    pub auth_safe: ContentInfo,
    pub mac_data: Option<MacData>,
}

/// A store, which lends its parts from the octets that were parsed. A contract sees the store in memory of its own.
#[derive(Clone, Copy, Debug, Drop)]
pub struct StoreView<'a> {
    pub version: u8,
    pub auth_safe: ContentView<'a>,
    pub mac_data: Option<MacView<'a>>,
}

fn mac_if_there<'a>(mut body: SliceReader<'a>) -> Result<Option<MacView<'a>>, asn1_core::Error>
    ensures { Gives (seen_option seen_mac) result (perhaps mac_at body.entry.rest.now) }
{
    if body.is_finished() {
        return Ok(None);
    }
    let mac = match mac_view(&mut body) {
        Ok(mac) => mac,
        Err(error) => return Err(error),
    };
    body.finish()?;
    Ok(Some(mac))
}

#[tactic(auto, unfolding(crate::specs::Reading::pfx_at))]
fn store_view<'a>(r: &mut SliceReader<'a>) -> Result<StoreView<'a>, asn1_core::Error>
    ensures exact { ReadsAs pfx_at seen_store r.old.rest.now r.new.rest.now result }
    ensures stands { IfOk result (λ s. ContentStands r.old.rest.now s.auth_safe) }
    ensures within { IfOk result (λ s. ContentBetween 0 (length r.old.rest.now) s.auth_safe) }
{
    let mut ahead = *r;
    let mut body = read_inner(&mut ahead, Tag::SEQUENCE)?;
    let total = r.rest.len() - ahead.rest.len();
    let version = read_uint(&mut body, 0xff)?;
    let auth_safe = match content_view(&mut body, total) {
        Ok(auth_safe) => auth_safe,
        Err(error) => return Err(error),
    };
    let mac_data = match mac_if_there(body) {
        Ok(mac_data) => mac_data,
        Err(error) => return Err(error),
    };
    *r = ahead;
    Ok(StoreView {
        version: version as u8,
        auth_safe,
        mac_data,
    })
}

fn whole_store<'a>(bytes: &'a [u8]) -> Result<StoreView<'a>, asn1_core::Error>
    ensures exact { Gives seen_store result (whole pfx_at bytes.now) }
    ensures stands { IfOk result (λ s. ContentStands bytes.now s.auth_safe) }
    ensures within { IfOk result (λ s. ContentBetween 0 (length bytes.now) s.auth_safe) }
{
    let mut r = SliceReader::new(bytes);
    let store = match store_view(&mut r) {
        Ok(store) => store,
        Err(error) => return Err(error),
    };
    r.finish()?;
    Ok(store)
}

impl<'a> StoreView<'a> {
    /// The store of these octets. `Malformed` exactly where they are the text of none. This takes no memory.
    pub fn parse(bytes: &'a [u8]) -> Result<StoreView<'a>, Error>
        ensures ok { IfOk result (λ s. IsStore bytes.now (seen_store s)) }
        ensures stands { IfOk result (λ s. ContentStands bytes.now s.auth_safe) }
        ensures within { IfOk result (λ s. ContentBetween 0 (length bytes.now) s.auth_safe) }
        ensures err { IfErr result (λ e. (e ≡ Error.Malformed) × NoStore bytes.now) }
    {
        match whole_store(bytes) {
            Ok(store) => Ok(store),
            Err(error) => Err(error.into()),
        }
    }

    /// The same in memory of its own. The only refusal is `Memory`.
    fn owned(&self, alloc: Global) -> Result<PFX, asn1_core::Error>
        ensures ok { IfOk result (λ s. s ≡ seen_store self.now) }
        ensures err { IfErr result (λ e. e ≡ asn1.Memory) }
    {
        let mac_data = match &self.mac_data {
            Some(mac) => Some(mac.owned(alloc)?),
            None => None,
        };
        Ok(PFX {
            version: self.version,
            auth_safe: self.auth_safe.owned(alloc)?,
            mac_data,
        })
    }
}

impl PFX {
    /// The store of these octets. `Malformed` exactly where they are the text of none; the other refusal is `Memory`. Its parts
    /// have fewer than 2^32 octets, as the calls that open it want.
    #[tactic(auto, using(crate::proofs::HeldBags::short_fits, crate::proofs::HeldBags::opening_fits))]
    pub fn parse(alloc: Global, bytes: &[u8]) -> Result<PFX, Error>
        ensures ok { IfOk result (λ x. IsStore bytes.now x) }
        ensures fits { IfOk result (StoreFits (2 ^ 32 - 1)) }
        ensures opening { IfOk result OpeningFits }
        ensures err { IfErr result (λ e. MalformedOnly e (NoStore bytes.now)) }
    {
        let view = match StoreView::parse(bytes) {
            Ok(view) => view,
            Err(error) => return Err(error),
        };
        Ok(view.owned(alloc)?)
    }
}

impl PFX {
    /// An equal value in memory of its own. The only refusal is `Memory`.
    pub fn try_clone(&self, alloc: Global) -> Result<PFX, Error>
        ensures ok { IfOk result (λ v. v ≡ self.now) }
        ensures err { IfErr result (λ e. e ≡ Error.Memory) }
    {
        let mac_data = match &self.mac_data {
            Some(mac) => Some(mac.try_clone(alloc)?),
            None => None,
        };
        Ok(PFX {
            version: self.version,
            auth_safe: self.auth_safe.try_clone(alloc)?,
            mac_data,
        })
    }
}

impl PFX {
    /// Writes the store. `Malformed` only where its content or its MAC cannot be written. `Overlength` only where
    /// the text has more than 2^32 - 1 octets, `Memory` when out of memory, else the writer's refusals; a front of the
    /// text was written then.
    pub fn write<W: Writer>(&self, alloc: Global, w: &mut W) -> Result<(), asn1_core::Error>
        ensures writes { WritesText W.sink (WritableStore self.now)
            (store_canon self.now) w.old result w.new }
        ensures short { OnOk result (IsShort (store_canon self.now)) }
        ensures lawful { OnOk result (WritableStore self.now) }
    {
        write_row(self, alloc, w)
    }

    /// The text that `write` writes, in memory of its own. `Malformed` as there, `TooLong` only where it has more than
    /// 2^32 - 1 octets, and `Memory`.
    pub fn to_der(&self, alloc: Global) -> Result<Octets, Error>
        ensures { EncodesText (WritableStore self.now) (store_canon self.now) result }
    {
        der_of(self, alloc)
    }
}

impl PFX {
    /// The bags of all contents of the store under a password, in order; its MAC is not looked at. Contents, the outer one
    /// too, may be encrypted under Triple DES or PBES2. The first fault in the order of the store is returned: `Invalid` for a
    /// content that does not open, `Malformed` for octets that are no list of contents, or of bags. `Memory` may come at any
    /// point.
    ///
    /// Caller: an encrypted outer content has fewer than 2^32 encrypted octets, its salt fewer than 2^59, the password fewer than
    /// 2^57.
    pub fn bags(&self, alloc: Global, password: &str) -> Result<Items<SafeBag>, Error>
        requires fits { SealFits self.now.auth_safe }
        requires password { length password.now < 2 ^ 57 }
        ensures ok { IfOk result (StoreHolds password.now self.now) }
        ensures err { IfErr result (Refuses (StoreFault password.now self.now)) }
    {
        let Some(octets) = self.auth_safe.plain_text(alloc, password)? else {
            return Err(Error::Invalid);
        };
        let contents = ContentInfo::parse_all(alloc, octets.as_slice())?;
        all_bags(alloc, contents.as_slice(), password)
    }

    /// The DER of the X.509 certificates among the bags, in order. Refusals are those of `bags`.
    ///
    /// Caller: as for `bags`.
    pub fn cert_x509_bags(&self, alloc: Global, password: &str) -> Result<Items<Octets>, Error>
        requires fits { SealFits self.now.auth_safe }
        requires password { length password.now < 2 ^ 57 }
        ensures ok { IfOk result (λ certificates. (gs : List SafeBag)
            × StoreHolds password.now self.now gs × (certificates ≡ certificates_among gs)) }
        ensures err { IfErr result (Refuses (StoreFault password.now self.now)) }
    {
        let bags = self.bags(alloc, password)?;
        certificates_of(alloc, bags.as_slice())
    }

    /// `cert_x509_bags`, by its older name.
    ///
    /// Caller: as for `bags`.
    pub fn cert_bags(&self, alloc: Global, password: &str) -> Result<Items<Octets>, Error>
        requires fits { SealFits self.now.auth_safe }
        requires password { length password.now < 2 ^ 57 }
        ensures ok { IfOk result (λ certificates. (gs : List SafeBag)
            × StoreHolds password.now self.now gs × (certificates ≡ certificates_among gs)) }
        ensures err { IfErr result (Refuses (StoreFault password.now self.now)) }
    {
        self.cert_x509_bags(alloc, password)
    }

    /// The texts of the SDSI certificates among the bags, in order. Refusals are those of `bags`.
    ///
    /// Caller: as for `bags`.
    pub fn cert_sdsi_bags(&self, alloc: Global, password: &str) -> Result<Items<Text>, Error>
        requires fits { SealFits self.now.auth_safe }
        requires password { length password.now < 2 ^ 57 }
        ensures ok { IfOk result (λ texts. (gs : List SafeBag)
            × StoreHolds password.now self.now gs × (texts ≡ sdsi_among gs)) }
        ensures err { IfErr result (Refuses (StoreFault password.now self.now)) }
    {
        let bags = self.bags(alloc, password)?;
        sdsi_texts_of(alloc, bags.as_slice())
    }

    /// The plain octets of the encrypted private keys among the bags, in order. A key that does not open is passed over.
    /// Refusals are those of `bags`.
    ///
    /// Caller: as for `bags`.
    pub fn key_bags(&self, alloc: Global, password: &str) -> Result<Items<Octets>, Error>
        requires fits { SealFits self.now.auth_safe }
        requires password { length password.now < 2 ^ 57 }
        ensures ok { IfOk result (λ keys. (gs : List SafeBag)
            × StoreHolds password.now self.now gs × (keys ≡ keys_among password.now gs)) }
        ensures err { IfErr result (Refuses (StoreFault password.now self.now)) }
    {
        let bags = self.bags(alloc, password)?;
        opened_keys(alloc, bags.as_slice(), password)
    }

    /// Whether the MAC of the store agrees under a password: true too where there is none, and false where the outer content
    /// does not open. The only refusal is `Memory`.
    ///
    /// Caller: the password has fewer than 2^57 octets; where there is a MAC, its salt has fewer than 2^59 octets, and a plain
    /// outer content fewer than 2^32, and of an encrypted one what `bags` asks.
    pub fn verify_mac(&self, alloc: Global, password: &str) -> Result<bool, Error>
        requires mac { MacFits self.now }
        requires password { length password.now < 2 ^ 57 }
        ensures value { IfOk result (λ agrees. agrees ≡ store_agrees password.now self.now) }
        ensures err { IfErr result (λ e. e ≡ Error.Memory) }
    {
        let Some(mac) = &self.mac_data else {
            return Ok(true);
        };
        let Some(octets) = self.auth_safe.plain_text(alloc, password)? else {
            return Ok(false);
        };
        let units = bmp_string(alloc, password)?;
        mac.verify_mac(alloc, octets.as_slice(), units.as_slice())
    }
}

impl PFX {
    /// A store of a certificate, its private key, and further certificates, all DER, under a password. Its first
    /// content holds the certificates, that of the key first and the others in their order, encrypted under Triple DES;
    /// its second holds the key, encrypted likewise. Key and certificate carry `name` as friendly name, and the SHA-1 of
    /// the certificate as local key id. The MAC is under SHA-1. Each takes 2,048 rounds and a salt of 8 octets of the
    /// draw: the key first, then the certificates, then the MAC. No octet of certificates and key is looked at.
    ///
    /// `Rng` exactly where the draw fails: over one that tells its octets, where fewer than 24 remain. Then `TooLong`
    /// exactly where the encrypted key, the encrypted certificates or the list of contents would have more than
    /// 2^32 - 1 octets. The other refusal is `Memory`. Triple DES and SHA-1 are for programs that read nothing newer.
    ///
    /// Caller: the password has fewer than 2^57 octets.
    pub fn new_with_cas<D: Draw>(
        alloc: Global,
        cert_der: &[u8],
        key_der: &[u8],
        ca_der_list: &[Octets],
        password: &str,
        name: &str,
        draw: &mut D,
    ) -> Result<PFX, Error>
        requires { length password.now < 2 ^ 57 }
        ensures ok { IfOk result (λ s. DrawsSalts (D.left draw.old) (D.left draw.new)
            (IsStoreOf (bmp_password password.now)
            (entry_of cert_der.now key_der.now ca_der_list.now name.now)
            s)) }
        ensures fits { IfOk result (StoreFits (2 ^ 32 - 1)) }
        ensures opening { IfOk result OpeningFits }
        ensures fitting { OnOk result (¬ (IsTooLongStore
            (entry_of cert_der.now key_der.now ca_der_list.now name.now))) }
        ensures err { IfErr result (RefusesDrawn ⊥
            (IsTooLongStore
            (entry_of cert_der.now key_der.now ca_der_list.now name.now))
            (D.faults draw.old) (D.faults draw.new) (D.left draw.old) 24) }
        ensures count { D.faults draw.old ≤ D.faults draw.new }
        ensures no_fault { OnOk result (D.faults draw.new ≡ D.faults draw.old) }
        ensures last { D.faults draw.old < D.faults draw.new → IsErrOf result Error.Rng }
    {
        let entry = EntryParts {
            certificate: cert_der,
            key: key_der,
            others: ca_der_list,
            name,
        };
        let salts = draw_salts(draw)?;
        let units = bmp_string(alloc, password)?;
        let outer = outer_text(alloc, entry, units.as_slice(), &salts)?;
        store_over(alloc, outer, units.as_slice(), &salts.mac)
    }

    /// `new_with_cas` with one further certificate, or none. Refusals as there.
    ///
    /// Caller: the password has fewer than 2^57 octets.
    pub fn new<D: Draw>(
        alloc: Global,
        cert_der: &[u8],
        key_der: &[u8],
        ca_der: Option<&[u8]>,
        password: &str,
        name: &str,
        draw: &mut D,
    ) -> Result<PFX, Error>
        requires { length password.now < 2 ^ 57 }
        ensures ok { IfOk result (λ s. DrawsSalts (D.left draw.old) (D.left draw.new)
            (IsStoreOf (bmp_password password.now)
            (entry_of cert_der.now key_der.now
            (at_most_one (seen_option (λ c. c.now) ca_der.entry)) name.now)
            s)) }
        ensures fits { IfOk result (StoreFits (2 ^ 32 - 1)) }
        ensures opening { IfOk result OpeningFits }
        ensures fitting { OnOk result (¬ (IsTooLongStore
            (entry_of cert_der.now key_der.now
            (at_most_one (seen_option (λ c. c.now) ca_der.entry)) name.now))) }
        ensures err { IfErr result (RefusesDrawn ⊥
            (IsTooLongStore
            (entry_of cert_der.now key_der.now
            (at_most_one (seen_option (λ c. c.now) ca_der.entry)) name.now))
            (D.faults draw.old) (D.faults draw.new) (D.left draw.old) 24) }
        ensures count { D.faults draw.old ≤ D.faults draw.new }
        ensures no_fault { OnOk result (D.faults draw.new ≡ D.faults draw.old) }
        ensures last { D.faults draw.old < D.faults draw.new → IsErrOf result Error.Rng }
    {
        let mut others = Items::new(alloc);
        if let Some(certificate) = ca_der {
            others.push(Octets::from_slice(alloc, certificate)?)?;
        }
        PFX::new_with_cas(
            alloc,
            cert_der,
            key_der,
            others.as_slice(),
            password,
            name,
            draw,
        )
    }
}
