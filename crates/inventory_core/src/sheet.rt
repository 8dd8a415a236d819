//! A text of which no more is kept than there is room for.
ghost use Rattle.std.specs.Prelude.{◌≡◌, ◌++◌, [], List, ℕ, OnOk};
ghost use Rattle.std.specs.String.{string_bytes};
ghost use Rattle.inventory_core.specs.Sheet.{Holds, IsListed};

use crate::listed::Listed;
use octet_core::Text;
use std::alloc::{AllocError, Global};

/// A text that grows. Once it has more octets than the room they are counted, and no more are kept.
#[derive(Drop)]
pub(crate) struct Sheet {
    text: String,
    /// How many octets were added.
    length: usize,
    room: usize,
}

impl Sheet {
    /// An empty text, with room for so many octets.
    pub(crate) fn new(alloc: Global, room: usize) -> Sheet
        ensures holds { Holds result.length result.room (string_bytes result.text) [] }
        ensures room { result.room ≡ room }
    {
        Sheet {
            text: String::new(alloc),
            length: 0,
            room,
        }
    }

    /// Adds a text. `AllocError` where there is no memory for what is kept, or there are more octets than can be counted.
    pub(crate) fn add(&mut self, more: &str) -> Result<(), AllocError>
        ensures holds { OnOk result ((all : List ℕ)
            → Holds self.old.length self.old.room (string_bytes self.old.text) all
            → Holds self.new.length self.new.room (string_bytes self.new.text) (all ++ more.now)) }
        ensures room { self.new.room ≡ self.old.room }
    {
        let Some(length) = self.length.checked_add(more.len()) else {
            return Err(AllocError);
        };
        if length <= self.room {
            self.text.push_str(more)?;
        }
        self.length = length;
        Ok(())
    }

    /// The text, or its size.
    pub(crate) fn finish(self) -> Listed
        ensures { (all : List ℕ) → Holds self.length self.room (string_bytes self.text) all
            → IsListed self.room all result }
    {
        if self.length <= self.room {
            Listed::Table(Text::from_string(self.text))
        } else {
            Listed::Longer(self.length)
        }
    }
}
