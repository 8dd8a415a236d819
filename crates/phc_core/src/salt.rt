//! Salts.
ghost use Rattle.std.specs.Prelude.{◌≡◌, ℕ, ◌<◌, ◌≤◌, ◌⊎◌, List, length, IfOk, IfErr, nat_eq};
ghost use Rattle.std.specs.Cmp.Lexicographic.{pointwise};
ghost use Rattle.std.specs.Cmp.Rules.{comparing};
ghost use Rattle.std.proofs.Common.{rules};
ghost use Rattle.phc_core.specs.Salt.{IsSalt};
ghost use Rattle.phc_core.specs.PasswordHash.{base64};

use crate::error::Error;
use base64::engine::general_purpose::STANDARD_NO_PAD;
use octet_core::ShortOctets;
use std::marker::Model;

/// A salt: 8 to 48 octets.
#[derive(Clone, Copy, Debug)]
pub struct Salt {
    octets: ShortOctets<48>,
}

impl Model for Salt {
    ghost use Rattle.std.specs.Prelude.{ℕ, List, length, ◌≤◌};

    ghost Value = { List ℕ };

    ghost view = { λ s. s.octets };

    ghost invariant = { λ s. (8 ≤ length s.octets) × (length s.octets ≤ 48) };

    ghost inverse = { λ d. record { octets = d } };
}

impl Salt {
    /// The salt of these octets. `SaltInvalid` exactly where they are fewer than 8 or more than 48.
    pub fn new(octets: &[u8]) -> Result<Salt, Error>
        ensures ok { IfOk result (λ v. (v ≡ octets.now) × IsSalt octets.now) }
        ensures err { IfErr result (λ e. (e ≡ Error.SaltInvalid)
            × ((length octets.now < 8) ⊎ (48 < length octets.now))) }
    {
        if octets.len() < 8 || octets.len() > 48 {
            return Err(Error::SaltInvalid);
        }
        Ok(Salt {
            octets: ShortOctets::new(octets),
        })
    }

    /// The octets.
    pub fn as_ref(&self) -> &[u8]
        ensures value { result.now ≡ self.now }
        ensures least { 8 ≤ length self.now }
        ensures most { length self.now ≤ 48 }
    {
        self.octets.as_slice()
    }

    /// The salt that this field writes in Base64. `EncodingInvalid` exactly where it writes none.
    pub(crate) fn read(field: &str) -> Result<Salt, Error>
        ensures ok { IfOk result (λ v. IsSalt v × (field.now ≡ base64 v)) }
        ensures err { IfErr result (λ e. (e ≡ Error.EncodingInvalid)
            × ((v : List ℕ) → IsSalt v → field.now ≡ base64 v → ⊥)) }
    {
        if field.len() > 64 {
            return Err(Error::EncodingInvalid);
        }
        let mut octets = [0; 48];
        let Ok(size) = STANDARD_NO_PAD.decode_slice_unchecked(field.as_bytes(), &mut octets) else {
            return Err(Error::EncodingInvalid);
        };
        match Salt::new(&octets[..size]) {
            Ok(value) => Ok(value),
            Err(_) => Err(Error::EncodingInvalid),
        }
    }
}

impl PartialEq for Salt {
    ghost eq = { pointwise nat_eq };

    ghost laws = { Prim.search (comparing, rules) };

    fn eq(&self, other: &Salt) -> bool {
        self.octets == other.octets
    }
}

impl Eq for Salt {
    ghost laws = { Prim.search (comparing, rules) };
}
