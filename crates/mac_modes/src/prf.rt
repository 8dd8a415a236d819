//! The interface of a keyed function.
ghost use Rattle.std.specs.Prelude.{◌≡◌, ℕ, Bool, List, [], ◌++◌, length, drop, MatchResult, true, false, codes, Some};
ghost use Rattle.mac_modes.specs.Prf.{PrfSizes};

use std::error::Error;
use std::fmt;

/// The function does not take a key of this length.
#[derive(Clone, Copy, PartialEq, Eq, Debug, Drop)]
pub struct InvalidLength;

impl fmt::Display for InvalidLength {
    ghost output = { λ _. Some (codes "InvalidLength") };

    fn fmt<W: fmt::Write>(&self, f: &mut fmt::Formatter<W>) -> fmt::Result {
        f.write_str("InvalidLength")
    }
}

impl Error for InvalidLength {}

/// A function of a key and of a message that comes in pieces, each of any length. Its result depends on these two
/// alone: `holds` says which key and message a value has taken, and `prf` what it returns.
pub trait Prf: Sized + Drop {
    /// The length of a result in octets, 1 to 64.
    const OUTPUT: usize;

    ghost OUTPUT: { ℕ };

    // the function's own test of a key
    ghost takes_key: { List ℕ → Bool };

    // the function has taken this key and this message
    ghost holds: { Self → List ℕ → List ℕ → Type 0 };

    // the result at a key and a message
    ghost prf: { List ℕ → List ℕ → List ℕ };

    /// The function under a key, before its first piece. `InvalidLength` exactly where the function's own test
    /// refuses the key.
    fn new_from_slice(key: &[u8]) -> Result<Self, InvalidLength>
        ensures { MatchResult result
            (λ f. (takes_key key.now ≡ true) × holds f key.now []) (λ _. takes_key key.now
            ≡ false) };

    /// The function under the same key, before its first piece. It says so only of a function that was fed no piece
    /// yet, so no state of a hash has to be copied.
    fn copy(&self) -> Self
        ensures { (k : List ℕ) → holds self.now k [] → holds result k [] };

    /// Takes the next piece of the message.
    fn update(&mut self, piece: &[u8])
        ensures { (k m : List ℕ) → holds self.old k m → holds self.new k (m ++ piece.now) };

    /// Writes the result into the first `OUTPUT` octets of `out`. Those after stay as they were.
    fn finalize_into(self, out: &mut [u8; 64])
        ensures { (k m : List ℕ) → holds self k m → out.new ≡ prf k m ++ drop OUTPUT out.old };

    ghost sizes: { PrfSizes OUTPUT };

    ghost prf_length: { (k m : List ℕ) → length (prf k m) ≡ OUTPUT };
}

/// Writes the result at `message` into the first `P::OUTPUT` octets of `out`, under the key of a function that was
/// fed no piece yet. Those after stay as they were, and `keyed` can be used again.
pub fn answer_at<P: Prf>(keyed: &P, message: &[u8], out: &mut [u8; 64])
    ensures { (k : List ℕ) → P.holds keyed.now k [] → out.new
        ≡ P.prf k message.now ++ drop P.OUTPUT out.old }
{
    let mut function = keyed.copy();
    function.update(message);
    function.finalize_into(out);
}
