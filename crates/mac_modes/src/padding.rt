//! Padding to whole blocks (RFC 5652 section 6.3).
ghost use Rattle.std.specs.Prelude.{◌≡◌, ◌≢◌, ◌↔◌, List, ℕ, ◌<◌, ◌≤◌, ◌%◌, length, take, MatchResult, IsTrue, EachIndex, slice_index};
ghost use Rattle.mac_modes.specs.Padding.{padded};

use crate::mode_error::ModeError;

/// Whether each octet of `text` is `value`.
fn is_all(text: &[u8], value: u8) -> bool
    ensures { IsTrue result ↔ EachIndex text.now (λ k. slice_index text.now k ≡ value) }
{
    text.iter().all(|octet| *octet == value)
}

/// The length of the text that makes `text` with its padding to blocks of `size` octets. `BadPadding` exactly where
/// there is none.
pub(crate) fn unpadded_len(text: &[u8], size: usize) -> Result<usize, ModeError>
    requires low { 1 ≤ size }
    requires whole { length text.now % size ≡ 0 }
    requires some { size ≤ length text.now }
    ensures { MatchResult result
        (λ len. (len ≤ length text.now) × (padded (take len text.now) size ≡ text.now))
        (λ e. (e ≡ ModeError.BadPadding) × ((m : List ℕ) → padded m size ≢ text.now)) }
{
    let count = text[text.len() - 1];
    if count == 0 || count as usize > size {
        return Err(ModeError::BadPadding);
    }
    let end = text.len() - count as usize;
    if is_all(&text[end..], count) {
        Ok(end)
    } else {
        Err(ModeError::BadPadding)
    }
}
