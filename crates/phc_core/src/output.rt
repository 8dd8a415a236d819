//! Outputs.
ghost use Rattle.std.specs.Prelude.{◌≡◌, ℕ, ◌<◌, ◌≤◌, ◌⊎◌, List, length, IfOk, IfErr, nat_eq};
ghost use Rattle.std.specs.Cmp.Lexicographic.{pointwise};
ghost use Rattle.std.specs.Cmp.Rules.{comparing};
ghost use Rattle.std.proofs.Common.{rules};
ghost use Rattle.phc_core.specs.Output.{IsOutput};
ghost use Rattle.phc_core.specs.PasswordHash.{base64};

use crate::error::Error;
use base64::engine::general_purpose::STANDARD_NO_PAD;
use octet_core::ShortOctets;
use std::marker::Model;

/// The output of a password hash function: 10 to 64 octets.
#[derive(Clone, Copy, Debug)]
pub struct Output {
    octets: ShortOctets<64>,
}

impl Model for Output {
    ghost use Rattle.std.specs.Prelude.{ℕ, List, length, ◌≤◌};

    ghost Value = { List ℕ };

    ghost view = { λ s. s.octets };

    ghost invariant = { λ s. (10 ≤ length s.octets) × (length s.octets ≤ 64) };

    ghost inverse = { λ d. record { octets = d } };
}

impl Output {
    /// The output of these octets. `OutputSize` exactly where they are fewer than 10 or more than 64.
    pub fn new(octets: &[u8]) -> Result<Output, Error>
        ensures ok { IfOk result (λ v. (v ≡ octets.now) × IsOutput octets.now) }
        ensures err { IfErr result (λ e. (e ≡ Error.OutputSize)
            × ((length octets.now < 10) ⊎ (64 < length octets.now))) }
    {
        if octets.len() < 10 || octets.len() > 64 {
            return Err(Error::OutputSize);
        }
        Ok(Output {
            octets: ShortOctets::new(octets),
        })
    }

    /// The octets.
    pub fn as_ref(&self) -> &[u8]
        ensures value { result.now ≡ self.now }
        ensures least { 10 ≤ length self.now }
        ensures most { length self.now ≤ 64 }
    {
        self.octets.as_slice()
    }

    /// The number of octets, 10 to 64.
    pub fn len(&self) -> usize
        ensures { result ≡ length self.now }
    {
        self.octets.len()
    }

    /// The output that this field writes in Base64. `EncodingInvalid` exactly where it writes none.
    pub(crate) fn read(field: &str) -> Result<Output, Error>
        ensures ok { IfOk result (λ v. IsOutput v × (field.now ≡ base64 v)) }
        ensures err { IfErr result (λ e. (e ≡ Error.EncodingInvalid)
            × ((v : List ℕ) → IsOutput v → field.now ≡ base64 v → ⊥)) }
    {
        if field.len() > 86 {
            return Err(Error::EncodingInvalid);
        }
        let mut octets = [0; 66];
        let Ok(size) = STANDARD_NO_PAD.decode_slice_unchecked(field.as_bytes(), &mut octets) else {
            return Err(Error::EncodingInvalid);
        };
        match Output::new(&octets[..size]) {
            Ok(value) => Ok(value),
            Err(_) => Err(Error::EncodingInvalid),
        }
    }
}

impl PartialEq for Output {
    ghost eq = { pointwise nat_eq };

    ghost laws = { Prim.search (comparing, rules) };

    fn eq(&self, other: &Output) -> bool {
        self.octets == other.octets
    }
}

impl Eq for Output {
    ghost laws = { Prim.search (comparing, rules) };
}
