//! The costs of scrypt (RFC 7914 section 2), within bounds of this crate.

ghost use Rattle.std.specs.Prelude.{◌≡◌, ◌*◌, ◌^◌, OnOk, OnErr, IfOk, codes, Some};
ghost use Rattle.scrypt_core.specs.Params.{Lawful};

use std::error::Error;
use std::fmt;

/// The costs are not those that scrypt takes.
#[derive(Clone, Copy, PartialEq, Eq, Debug, Drop)]
pub struct InvalidParams;

impl fmt::Display for InvalidParams {
    ghost output = { λ _. Some (codes "InvalidParams") };

    fn fmt<W: fmt::Write>(&self, f: &mut fmt::Formatter<W>) -> fmt::Result {
        f.write_str("InvalidParams")
    }
}

impl Error for InvalidParams {}

/// Costs that scrypt takes: the number of turns, 2 to the power `log_n`, the block size `r` and the number `p` of
/// pieces.
#[derive(Clone, Copy, PartialEq, Eq, Debug)]
pub struct Params {
    log_n: u8,
    r: u32,
    p: u32,
    pub ghost lawful: { Lawful log_n r p },
}

impl Params {
    /// These costs. `InvalidParams` exactly where they do not all hold: `log_n` is 1 to 63 and below 16 * `r`; `r` and
    /// `p` are at least 1; `r` * `p` is below 2^30; 128 * `r` * 2^`log_n` and 128 * `r` * `p` are below 2^63.
    pub fn new(log_n: u8, r: u32, p: u32) -> Result<Params, InvalidParams>
        ensures value { IfOk result (λ params. (params.log_n ≡ log_n) × (params.r ≡ r)
            × (params.p ≡ p)) }
        ensures lawful { OnOk result (Lawful log_n r p) }
        ensures refused { OnErr result (Lawful log_n r p → ⊥) }
    {
        if log_n < 1 || r < 1 || p < 1 {
            return Err(InvalidParams);
        }
        // Beyond 55 the memory passes its bound.
        if log_n > 55 {
            return Err(InvalidParams);
        }
        let (n, r_64, p_64) = (1u64 << log_n, r as u64, p as u64);
        if log_n as u64 >= 16 * r_64 || r_64 * p_64 >= 0x4000_0000 {
            return Err(InvalidParams);
        }
        if r_64 > (0x7fff_ffff_ffff_ffff / 128) / n {
            return Err(InvalidParams);
        }
        Ok(Params { log_n, r, p })
    }

    /// The number of turns is 2 to this power.
    pub fn log_n(&self) -> u8
        ensures { result ≡ self.now.log_n }
    {
        self.log_n
    }

    /// The block size: ROMix works on 128 times so many octets.
    pub fn r(&self) -> u32
        ensures { result ≡ self.now.r }
    {
        self.r
    }

    /// The number of pieces that ROMix is made on.
    pub fn p(&self) -> u32
        ensures { result ≡ self.now.p }
    {
        self.p
    }
}
