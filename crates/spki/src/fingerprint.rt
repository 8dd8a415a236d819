//! The SHA-256 digest of a text.
ghost use Rattle.std.specs.Prelude.{◌≡◌, ◌++◌, List, ℕ, length, None, IfOk, IfErr, OnOk};
ghost use Rattle.sha2.specs.Sha256.{sha256};
ghost use Rattle.asn1_core.specs.Writing.{Cause, IsOverlong};

use crate::digest_writer::DigestWriter;
use asn1_core::Error;
use der_core::Encode;
use sha2::{Digest, Sha256};

/// A SHA-256 digest.
pub type FingerprintBytes = [u8; 32];

/// Feeds the text of a value to a digest.
fn feed<T: Encode, D: Digest>(value: &T, hasher: &mut D) -> Result<(), Error>
    ensures ok { OnOk result ((m : List ℕ) → D.holds hasher.old m
        → D.holds hasher.new (m ++ T.canon value.now)) }
    ensures lawful { OnOk result (T.writable value.now) }
    ensures err { IfErr result
        (λ e. Cause (¬ (T.writable value.now))
        (IsOverlong (length (T.canon value.now))) ⊥ None 0 0 0 e) }
{
    let mut writer = DigestWriter(hasher);
    value.encode(&mut writer)
}

/// The SHA-256 digest of the text of a value.
pub(crate) fn digest_of<T: Encode>(value: &T) -> Result<FingerprintBytes, Error>
    ensures ok { IfOk result (λ h. h ≡ sha256 (T.canon value.now)) }
    ensures lawful { OnOk result (T.writable value.now) }
    ensures err { IfErr result
        (λ e. Cause (¬ (T.writable value.now))
        (IsOverlong (length (T.canon value.now))) ⊥ None 0 0 0 e) }
{
    let mut hasher = Sha256::new();
    feed(value, &mut hasher)?;
    Ok(hasher.finalize())
}
