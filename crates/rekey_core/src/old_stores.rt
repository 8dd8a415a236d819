//! A store of renewed kinds, made of one that was opened in any way.
ghost use Rattle.std.specs.Prelude.{◌≡◌, ◌≤◌, ◌<◌, ◌^◌, List, ℕ, length, IfOk, IfErr, OnOk};
ghost use Rattle.std.specs.Result.{IsErrOf};
ghost use Rattle.octet_core.specs.Draw.{Lacks};
ghost use Rattle.p12.specs.ContentInfo.{IsContents};
ghost use Rattle.rekey_core.specs.Anew.{change_draws};
ghost use Rattle.rekey_core.specs.Kinds.{renewed_mac};
ghost use Rattle.rekey_core.specs.Making.{HeldOpen};
ghost use Rattle.rekey_core.specs.Opened.{DrawsTooLong, SealsDrawn};
ghost use Rattle.rekey_core.specs.Rekeyed.{IsUndrawn};
ghost use Rattle.rekey_core.specs.Unlocking.{Unlocking};
ghost use Rattle.rekey_core.specs.Upgraded.{UpgradeRefusedFor, seal_rounds};

use crate::kinds::{Kinds, MacAnew, Renewal};
use crate::password_change::sealed_parts;
use crate::sealing_limit::is_within;
use asn1_core::Octets;
use mac_modes::Draw;
use p12::ContentInfo;
use std::alloc::Global;
use transfer::{Opened, TransferError};

/// The text of a store of this version and of contents that were opened, whatever opened them, in the canonical encoding:
/// each part that was encrypted is under PBES2 with PBKDF2 over HMAC-SHA-256 and AES-256-CBC, and the MAC is of
/// HMAC-SHA-256, all in `renewal.rounds`, as `upgrade` makes them.
///
/// `opened` has the bags of each of the contents, and the plain octets of each encrypted key among them. `draw` gives as many
/// octets as for `upgrade`, in the same order. `WorkLimit` comes exactly where sealing would take more rounds than
/// `renewal.seal_limit`, and then nothing was drawn; then `Rng` where the draw fails, and `TooLong` where the text would have
/// more than 16,777,215 octets. The only other error is `Memory`. `laws::renewed_texts_open` says that the text opens again.
///
/// Caller: the password has fewer than 2^57 octets, and the contents opened to the bags and the keys.
pub fn renewed_store<D: Draw>(
    alloc: Global,
    renewal: Renewal,
    version: u8,
    contents: &[ContentInfo],
    opened: &Opened,
    new: &str,
    draw: &mut D,
) -> Result<Octets, TransferError>
    requires lists { (v : List ℕ) × IsContents v contents.now }
    requires open { (u : Unlocking) × HeldOpen u contents.now opened.now.contents opened.now.keys }
    requires password { length new.now < 2 ^ 57 }
    ensures sealed { IfOk result (SealsDrawn (Kinds.Renewed renewal.rounds) version
        (renewed_mac renewal.rounds) contents.now opened.now.contents opened.now.keys new.now
        (D.left draw.old) (D.left draw.new)) }
    ensures within { OnOk result
        (seal_rounds renewal.rounds contents.now opened.now.contents ≤ renewal.seal_limit) }
    ensures over { renewal.seal_limit < seal_rounds renewal.rounds contents.now opened.now.contents
        → IsErrOf result TransferError.WorkLimit }
    ensures refused { IfErr result (UpgradeRefusedFor (λ e. ⊥)
        (renewal.seal_limit < seal_rounds renewal.rounds contents.now opened.now.contents)
        (Lacks (D.faults draw.old) (D.faults draw.new) (D.left draw.old)
        (change_draws (Kinds.Renewed renewal.rounds) contents.now opened.now.contents))
        (DrawsTooLong (Kinds.Renewed renewal.rounds) version (renewed_mac renewal.rounds)
        contents.now opened.now.contents opened.now.keys (D.left draw.old) (D.left draw.new))) }
    ensures undrawn { IfErr result (λ e. IsUndrawn e → draw.new ≡ draw.old) }
    ensures count { D.faults draw.old ≤ D.faults draw.new }
    ensures no_fault { OnOk result (D.faults draw.new ≡ D.faults draw.old) }
    ensures last { D.faults draw.old < D.faults draw.new → IsErrOf result TransferError.Rng }
{
    if !is_within(renewal, contents, opened.contents.as_slice()) {
        return Err(TransferError::WorkLimit);
    }
    let to = Kinds::Renewed(renewal.rounds);
    let mac = MacAnew::Sha256(renewal.rounds);
    // The proofs name both outcomes of the call.
    match sealed_parts(alloc, to, version, mac, contents, opened, new, draw) {
        Ok(text) => Ok(text),
        Err(e) => Err(e),
    }
}
