//! Readers of elements.
ghost use Rattle.std.specs.Prelude.{◌≡◌, ◌↔◌, ◌+◌, ℕ, List, [], IsTrue, length};
ghost use Rattle.asn1_core.specs.Reading.{peek_at, header_at, slice_at, is_ended};
ghost use Rattle.asn1_core.specs.Gives.{Gives, ReadsAs};

use crate::error::Error;
use crate::header::{Header, Length};
use crate::tag::Tag;
use std::convert::AsSlice;

/// A reader of elements, by the octets that it has left and how many it has taken. `S` is the type of the octets that it
/// lends. A refusal does not move it.
pub trait Reader<S: AsSlice<u8>>: Copy {
    ghost left: { Self → List ℕ };

    ghost taken: { Self → ℕ };

    /// How many octets were taken.
    fn position(&self) -> usize
        ensures { result ≡ taken self.now };

    /// Whether no octet is left.
    fn is_finished(&self) -> bool
        ensures { IsTrue result ↔ (left self.now ≡ []) };

    /// The tag that comes next, which stays there. `Malformed` exactly where none does.
    fn peek_tag(&self) -> Result<Tag, Error>
        ensures { Gives (λ t. t.first) result (peek_at (left self.now)) };

    /// Takes the header that comes next. `Malformed` exactly where none does, or that of an element which is too long.
    fn header(&mut self) -> Result<Header, Error>
        ensures read { ReadsAs header_at (λ h. record { tag = h.tag.first; size = h.length.value })
            (left self.old) (left self.new) result }
        ensures place { taken self.new + length (left self.new)
            ≡ taken self.old + length (left self.old) };

    /// Takes the next `len` octets. `Malformed` exactly where fewer are left.
    fn read_slice(&mut self, len: Length) -> Result<S, Error>
        ensures read { ReadsAs (slice_at len.value) S.items (left self.old) (left self.new) result }
        ensures place { taken self.new + length (left self.new)
            ≡ taken self.old + length (left self.old) };

    /// That no octet is left. `Malformed` exactly where one is.
    fn finish(&self) -> Result<(), Error>
        ensures { Gives (λ u. u) result (is_ended (left self.now)) };
}
