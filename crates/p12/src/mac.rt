//! The MAC of a store (RFC 7292 appendix B.4).
ghost use Rattle.std.specs.Prelude.{◌≡◌, ◌+◌, ◌≤◌, ◌<◌, ◌^◌, length, nat_lt, ◌&&◌, IfOk, IfErr, OnOk};
ghost use Rattle.std.specs.Str.{bytes_eq};
ghost use Rattle.pkcs12_kdf.specs.Mac.{mac_under};

use crate::error::Error;
use crate::mac_data::MacView;
use asn1_core::Octets;
use mac_modes::HashFn;
use pkcs12_kdf::Derivation;
use std::alloc::Global;
use std::sync::ledger::Ledger;
use steps::Steps;

/// Whether the count is at least 1, and the digest the MAC of the content under the hash `H`.
pub(crate) fn agrees_under<H: HashFn, L: Ledger>(
    mac: &MacView<'_>,
    alloc: Global,
    content: &[u8],
    password: &[u8],
    steps: &mut Steps<L>,
) -> Result<bool, Error>
    requires block { H.BLOCK ≡ 64 }
    requires password { length password.now < 2 ^ 59 }
    requires salt { length mac.now.salt.now < 2 ^ 59 }
    ensures value { IfOk result (λ agrees. agrees ≡ (nat_lt 0 mac.now.iterations
        && bytes_eq (mac_under H.digest H.OUTPUT password.now mac.now.salt.now mac.now.iterations content.now)
        mac.now.digest.now)) }
    ensures err { IfErr result (λ e. e ≡ Error.Memory) }
    ensures steps { OnOk result (steps.new ≡ steps.old + mac.now.iterations) }
    ensures at_most { (steps.old ≤ steps.new) × (steps.new ≤ steps.old + mac.now.iterations) }
{
    if mac.iterations == 0 {
        return Ok(false);
    }
    let derivation = Derivation {
        password,
        salt: mac.salt,
        rounds: u64::from(mac.iterations),
    };
    let made = derivation.mac_counted::<H, L>(alloc, content, steps)?;
    Ok(made.as_slice() == mac.digest)
}

/// The MAC of a content under the hash `H`, and a count of at least 1.
pub(crate) fn made_under<H: HashFn>(
    alloc: Global,
    content: &[u8],
    password: &[u8],
    salt: &[u8],
    iterations: u32,
) -> Result<Octets, Error>
    requires block { H.BLOCK ≡ 64 }
    requires rounds { 1 ≤ iterations }
    requires password { length password.now < 2 ^ 59 }
    requires salt { length salt.now < 2 ^ 59 }
    ensures value { IfOk result
        (λ mac. mac ≡ mac_under H.digest H.OUTPUT password.now salt.now iterations content.now) }
    ensures err { IfErr result (λ e. e ≡ Error.Memory) }
{
    let derivation = Derivation {
        password,
        salt,
        rounds: u64::from(iterations),
    };
    Ok(derivation.mac::<H>(alloc, content)?)
}
