//! Making a store.
ghost use Rattle.std.specs.Prelude.{◌≡◌, ◌≤◌, ◌<◌, ◌^◌, length, IfOk, IfErr, OnOk};
ghost use Rattle.std.specs.Result.{IsErrOf};
ghost use Rattle.create_core.specs.Created.{DrawsAndCreates, RefusesToCreate};

use crate::checking::{certificate_names_are_text, check_keys, key_names_are_text};
use crate::drawing::{draw_parts, draw_salt};
use crate::entry::{CertificateEntry, KeyEntry};
use crate::error::CreateError;
use crate::sealing::SealingKeys;
use crate::text::sealed_text;
use asn1_core::Octets;
use octet_core::Draw;
use std::alloc::Global;

/// Makes a PKCS#12 store (RFC 7292) of private keys with their certificates and of further certificates, under a
/// password, and returns its DER text.
///
/// One content holds the certificates, those of the keys first, encrypted; one holds the keys, each encrypted. Both are
/// under PBES2 (RFC 8018) with PBKDF2, HMAC-SHA-256 and AES-256-CBC, and the MAC is under SHA-256, each in `rounds`
/// rounds. A key and its certificate carry the SHA-1 of the certificate as local key id, and their name, if there is
/// one, as friendly name. No octet of a certificate is looked at.
///
/// `draw` gives 32 octets for each key (the IV, then the salt), then 32 for the certificates, then 8 for the MAC, all
/// before a key is derived. The keys are derived four at once.
///
/// The errors are those of `CreateError`, in their order; each comes exactly where it is the first cause, but `Memory`
/// may come in its place. On `Malformed` nothing was drawn. To open the store takes `rounds` steps for the MAC, for the
/// certificates and for each key (`laws::created_stores_open`).
///
/// Caller: at least one round, a password of fewer than 2^57 octets.
pub fn create<D: Draw>(
    alloc: Global,
    keys: &[KeyEntry],
    certificates: &[CertificateEntry],
    password: &str,
    rounds: u32,
    draw: &mut D,
) -> Result<Octets, CreateError>
    requires rounds { 1 ≤ rounds }
    requires password { length password.now < 2 ^ 57 }
    ensures created { IfOk result (DrawsAndCreates keys.now certificates.now password.now rounds
        (D.left draw.old) (D.left draw.new)) }
    ensures refused { IfErr result (RefusesToCreate keys.now certificates.now rounds
        (D.faults draw.old) (D.faults draw.new) (D.left draw.old)) }
    ensures undrawn { IfErr result (λ e. e ≡ CreateError.Malformed → draw.new ≡ draw.old) }
    ensures count { D.faults draw.old ≤ D.faults draw.new }
    ensures no_fault { OnOk result (D.faults draw.new ≡ D.faults draw.old) }
    ensures last { D.faults draw.old < D.faults draw.new → IsErrOf result CreateError.Rng }
{
    check_keys(keys)?;
    key_names_are_text(keys);
    certificate_names_are_text(certificates);
    let drawn = draw_parts(alloc, keys.len() + 1, draw)?;
    // The proofs name both outcomes of the calls here.
    let salt = match draw_salt(draw) {
        Ok(salt) => salt,
        Err(error) => return Err(error),
    };
    let sealing = SealingKeys::derive(alloc, password, rounds, drawn)?;
    match sealed_text(alloc, keys, certificates, &sealing, &salt) {
        Ok(text) => Ok(text),
        Err(error) => Err(error),
    }
}
