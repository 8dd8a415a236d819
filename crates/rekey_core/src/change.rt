//! The text of a store whose contents were sealed anew.
ghost use Rattle.std.specs.Prelude.{◌≡◌, ◌≤◌, ◌<◌, ◌^◌, ◌+◌, All, List, ℕ, length, IfOk, IfErr, true};
ghost use Rattle.p12.specs.AlgorithmView.{seen_algorithm};
ghost use Rattle.p12.specs.Canonical.{WritableContent, contents_canon, store_canon};
ghost use Rattle.p12.specs.MacData.{is_mac_digest, mac_of};
ghost use Rattle.p12.specs.MacView.{seen_mac};
ghost use Rattle.pkcs12_kdf.specs.Password.{bmp_password};
ghost use Rattle.rekey_core.specs.Kinds.{mac_for, mac_kind};
ghost use Rattle.rekey_core.specs.Making.{IsWritingRefusal, store_anew};
ghost use Rattle.rekey_core.specs.Sealing.{LongOnly};
ghost use Rattle.transfer.specs.Limits.{store_limit};
ghost use Rattle.transfer.specs.declared.store.error.TransferError.TheVariants as refusal;

use crate::kinds::{Kinds, MacAnew, Rounds};
use asn1_core::{Items, Octets};
use p12::{AlgorithmView, ContentInfo, Error, MacData, MacView, PFX, bmp_string};
use std::alloc::Global;
use transfer::TransferError;

/// The most octets that a store may have.
const STORE_LIMIT: usize = 16_777_215;

/// The error of writing values that can be written.
fn refusal_of(error: Error) -> TransferError
    requires { IsWritingRefusal error }
    ensures { LongOnly (error ≡ Error.TooLong) result }
{
    match error {
        Error::TooLong => TransferError::TooLong,
        Error::Memory => TransferError::Memory,
        Error::Malformed | Error::Invalid | Error::Rng => unreachable!(),
    }
}

/// What the MAC of a changed store is made with, where that of the old one is this.
pub(crate) fn mac_for(to: Kinds, mac: &MacView<'_>) -> MacAnew
    requires known { is_mac_digest (seen_algorithm mac.now.algorithm) ≡ true }
    requires rounds { 1 ≤ mac.now.iterations }
    ensures { mac_kind result ≡ mac_for to (seen_mac mac.now) }
{
    match to {
        Kinds::Renewed(rounds) => MacAnew::Sha256(rounds),
        Kinds::Kept => {
            let Some(rounds) = Rounds::new(mac.iterations) else {
                unreachable!()
            };
            match &mac.algorithm {
                AlgorithmView::Sha1 => MacAnew::Sha1(rounds),
                AlgorithmView::Sha256 => MacAnew::Sha256(rounds),
                AlgorithmView::Rc2 { .. }
                | AlgorithmView::TripleDes { .. }
                | AlgorithmView::Pbes2(_)
                | AlgorithmView::Other { .. } => unreachable!(),
            }
        }
    }
}

/// The MAC of a text. The only error is `Memory`.
fn mac_anew(
    alloc: Global,
    mac: MacAnew,
    text: &[u8],
    salt: &[u8],
    new: &str,
) -> Result<MacData, TransferError>
    requires text { length text.now < 2 ^ 32 }
    requires salt { length salt.now ≤ 16 }
    requires password { length new.now < 2 ^ 57 }
    ensures ok { IfOk result (λ m. m ≡ mac_of (mac_kind mac).digest (bmp_password new.now)
        text.now salt.now (mac_kind mac).count) }
    ensures err { IfErr result (λ e. e ≡ refusal.Memory) }
{
    let Ok(units) = bmp_string(alloc, new) else {
        return Err(TransferError::Memory);
    };
    let key = units.as_slice();
    let made = match mac {
        MacAnew::Sha1(rounds) => MacData::with_salt(alloc, text, key, salt, rounds.count()),
        MacAnew::Sha256(rounds) => {
            MacData::with_salt_sha256(alloc, text, key, salt, rounds.count())
        }
    };
    match made {
        Ok(mac) => Ok(mac),
        Err(_) => Err(TransferError::Memory),
    }
}

/// The text of the store of these contents, under this version, and with such a MAC. `TooLong` exactly where it would have more than 16,777,215 octets; the only other
/// error is `Memory`.
pub(crate) fn store_text(
    alloc: Global,
    version: u8,
    mac: MacAnew,
    contents: &[ContentInfo],
    salt: &[u8],
    new: &str,
) -> Result<Octets, TransferError>
    requires writable { All WritableContent contents.now }
    requires salt { length salt.now ≤ 16 }
    requires password { length new.now < 2 ^ 57 }
    ensures ok { IfOk result (λ b. (b ≡ store_canon (store_anew version
        (mac_kind mac) new.now salt.now contents.now)) × (length b ≤ store_limit)) }
    ensures err { IfErr result (LongOnly (store_limit
        < length (store_canon (store_anew version
        (mac_kind mac) new.now salt.now contents.now)))) }
{
    let text = match ContentInfo::all_to_der(alloc, contents) {
        Ok(text) => text,
        Err(e) => return Err(refusal_of(e)),
    };
    let mac = mac_anew(alloc, mac, text.as_slice(), salt, new)?;
    let store = PFX {
        version,
        auth_safe: ContentInfo::Data(text),
        mac_data: Some(mac),
    };
    let text = match store.to_der(alloc) {
        Ok(text) => text,
        Err(e) => return Err(refusal_of(e)),
    };
    if text.len() > STORE_LIMIT {
        return Err(TransferError::TooLong);
    }
    Ok(text)
}
