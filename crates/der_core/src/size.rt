//! The bound on lengths.
ghost use Rattle.std.specs.Prelude.{◌≡◌, MatchResult};
ghost use Rattle.asn1_core.specs.Der.{IsHeader};
ghost use Rattle.asn1_core.specs.declared.error.Error.TheVariants.{Overlength};

use asn1_core::{Error, Length, element_len};

/// The length of a value of `n` octets. `Overlength` exactly where its element would have more than 2^32 - 1 octets.
pub(crate) fn checked_len(n: usize) -> Result<Length, Error>
    ensures { MatchResult result (λ k. (k.value ≡ n) × IsHeader n) (λ e. (e ≡ Overlength)
        × (¬ (IsHeader n))) }
{
    if n > 0xffff_ffff {
        return Err(Error::Overlength);
    }
    let length = Length::new(n as u32);
    element_len(length)?;
    Ok(length)
}
