//! The plain texts of contents, kept as one text.
ghost use Rattle.std.specs.Prelude.{◌≡◌, ◌<◌, ◌++◌, ◌∷◌, [], All, get_or, length, IfOk, IfErr, OnOk};
ghost use Rattle.p12.specs.BagView.{ListsBags, bags_of};
ghost use Rattle.transfer.specs.OpenedSafe.{ListsAt, bags_there};
ghost use Rattle.transfer.specs.Opening.{IsStoredKey};

use crate::limits::STORE_LIMIT;
use asn1_core::{Items, Octets};
use p12::{Place, SafeBag};
use std::alloc::{AllocError, Global};
use std::marker::Model;
use transfer::{OpenedSafe, TransferError};

/// The plain texts of contents, one after the other, each of which lists bags. A contract sees the bags of each content.
#[derive(Drop)]
pub(crate) struct BagTexts {
    text: Octets,
    /// Where the text of each content is.
    places: Items<Place>,
}

impl Model for BagTexts {
    ghost use Rattle.std.specs.Prelude.{◌≤◌, All, List, length};
    ghost use Rattle.p12.specs.declared.safe_bag.SafeBag.{SafeBag};
    ghost use Rattle.transfer.specs.Limits.{store_limit};
    ghost use Rattle.transfer.specs.OpenedSafe.{ListsAt, contents_at};

    ghost Value = { List (List SafeBag) };

    ghost view = { λ t. contents_at t.text t.places };

    ghost invariant = { λ t. (length t.text ≤ store_limit) × All (ListsAt t.text) t.places };
}

/// The bags that are at a place of a text, in memory of their own. The only error is out of memory.
fn owned_at(alloc: Global, text: &[u8], place: Place) -> Result<Items<SafeBag>, AllocError>
    requires { ListsAt text.now place }
    ensures { IfOk result (λ bags. bags ≡ bags_there text.now place) }
{
    match SafeBag::parse_all(alloc, &text[place.start..place.start + place.len]) {
        Ok(bags) => Ok(bags),
        // The text lists bags, so it is memory that is missing.
        Err(_) => Err(AllocError),
    }
}

impl BagTexts {
    /// None yet.
    pub(crate) fn new(alloc: Global) -> BagTexts
        ensures { result ≡ [] }
    {
        BagTexts {
            text: Octets::new(alloc),
            places: Items::new(alloc),
        }
    }

    /// How many contents there are.
    pub(crate) fn len(&self) -> usize
        ensures { result ≡ length self.now }
    {
        self.places.len()
    }

    /// Adds the text of a content. The only refusal is `Memory`.
    pub(crate) fn push(&mut self, text: &[u8]) -> Result<(), TransferError>
        requires { ListsBags text.now }
        ensures ok { OnOk result (self.new ≡ self.old ++ bags_of text.now ∷ []) }
        ensures err { IfErr result (λ e. e ≡ TransferError.Memory) }
    {
        let start = self.text.len();
        // Never so: the texts are no longer than what they were decrypted from, which is in the store.
        if text.len() > STORE_LIMIT - start {
            return Err(TransferError::Memory);
        }
        let place = Place {
            start,
            len: text.len(),
        };
        self.text.extend(text)?;
        self.places.push(place)?;
        Ok(())
    }

    /// The bags of a content, in memory of their own. The only error is out of memory.
    pub(crate) fn owned_bags(
        &self,
        alloc: Global,
        index: usize,
    ) -> Result<Items<SafeBag>, AllocError>
        requires { index < length self.now }
        ensures { IfOk result (λ bags. bags ≡ get_or self.now index []) }
    {
        owned_at(alloc, self.text.as_slice(), self.places.as_slice()[index])
    }

    /// The opened store of these bags, with these texts of private keys.
    pub(crate) fn with_keys(self, keys: Items<Octets>) -> OpenedSafe
        requires { All IsStoredKey keys }
        ensures contents { result.contents ≡ self }
        ensures keys { result.keys ≡ keys }
    {
        OpenedSafe::of_parts(self.text, self.places, keys)
    }
}
