//! An opened store that is kept as one text.
ghost use Rattle.std.specs.Prelude.{◌≡◌, ◌+◌, ◌*◌, ◌≤◌, ◌<◌, ◌^◌, All, ℕ, [], get_or, length, IfOk, IfErr, OnOk};
ghost use Rattle.std.specs.Result.{IsErrOf};
ghost use Rattle.octet_core.specs.Draw.{Lacks};
ghost use Rattle.transfer.specs.Limits.{rounds_limit};
ghost use Rattle.transfer.specs.OpenedSafe.{IsOpenedText, ListsAt, contents_at};
ghost use Rattle.transfer.specs.Opening.{HasVerdict, RefusedAfter, refused};
ghost use Rattle.transfer.specs.TransferError.{RefusedBy};
ghost use Rattle.transfer.specs.Transferred.{DrawsFor, IsDecided, SealsOpened};
ghost use Rattle.transfer.specs.Verdicts.{StoreOpens};
ghost use Rattle.transfer.specs.declared.store.error.TransferError.TheVariants as refusal;

use crate::store::bag_keys::open_keys;
use crate::store::bags::bags_at;
use crate::store::certificates::certificates_of;
use crate::store::copies::{copied, copied_places};
use crate::store::error::TransferError;
use crate::store::open::{OpenedContents, open_parts};
use crate::store::opened::Opened;
use crate::store::seal::seal_all;
use crate::store::transfer::Transferred;
use asn1_core::{Items, Octets};
use mac_modes::Draw;
use p12::{BagsView, Place, SafeBag};
use std::alloc::{AllocError, Global};
use std::marker::Model;
use std::sync::ledger::Ledger;
use steps::Steps;

/// An opened store that is kept as one text: its authenticated safe (RFC 7292 section 4.1), in which each content was opened where it
/// is. So it takes about as much memory as the store, however many bags there are, and as its private keys. A contract sees the bags
/// and the keys that `Opened` has.
#[derive(Drop)]
pub struct OpenedSafe {
    text: Octets,
    /// Where the bags of each content are in the text.
    places: Items<Place>,
    keys: Items<Octets>,
}

impl Model for OpenedSafe {
    ghost use Rattle.transfer.specs.OpenedSafe.{BagsAndKeys, IsOpenedText, contents_at};

    ghost Value = { BagsAndKeys };

    ghost view = { λ s. record { contents = contents_at s.text s.places; keys = s.keys } };

    ghost invariant = { λ s. IsOpenedText s.text s.places s.keys };
}

/// Opens the store under the password, as `open_store` does, and keeps it as one text.
///
/// `limit` is the most steps. The refusals are those of `open_store`.
///
/// Caller: the password has fewer than 2^57 octets.
pub fn open_safe<L: Ledger>(
    alloc: Global,
    store: &[u8],
    password: &str,
    limit: u64,
    steps: &mut Steps<L>,
) -> Result<OpenedSafe, TransferError>
    requires { length password.now < 2 ^ 57 }
    ensures opened { IfOk result
        (λ o. (n : ℕ) × StoreOpens store.now password.now o.contents o.keys n
        × (n ≤ limit) × (steps.new ≡ steps.old + n)) }
    ensures refused { IfErr result
        (RefusedAfter (λ e n. HasVerdict store.now password.now limit (refused e) n) steps.old
        steps.new) }
    ensures exact { IsDecided store.now password.now limit result }
    ensures at_most { (steps.old ≤ steps.new) × (steps.new ≤ steps.old + limit) }
{
    let opened = open_parts(alloc, store, password, limit, steps)?;
    let OpenedContents {
        text,
        places,
        mut budget,
    } = opened;
    let whole = text.as_slice();
    let keys = open_keys(
        alloc,
        whole,
        places.as_slice(),
        password,
        &mut budget,
        steps,
    )?;
    Ok(OpenedSafe { text, places, keys })
}

/// The bags that are still to come, in memory of their own.
fn owned_bags(alloc: Global, mut bags: BagsView<'_>) -> Result<Items<SafeBag>, AllocError>
    ensures { IfOk result (λ owned. owned ≡ bags.entry.left) }
{
    let mut owned = Items::new(alloc);
    while let Some(bag) = bags.next_owned(alloc)? {
        owned.push(bag)?;
    }
    Ok(owned)
}

/// The bags of contents, which are at these places, in memory of their own.
fn owned_contents(
    alloc: Global,
    text: &[u8],
    places: &[Place],
) -> Result<Items<Items<SafeBag>>, AllocError>
    requires { All (ListsAt text.now) places.now }
    ensures { IfOk result (λ contents. contents ≡ contents_at text.now places.now) }
{
    let mut contents = Items::new(alloc);
    for place in places {
        let bags = owned_bags(alloc, bags_at(text, *place))?;
        contents.push(bags)?;
    }
    Ok(contents)
}

impl OpenedSafe {
    /// The opened store whose contents list their bags at these places of the text, with these texts of private keys: of parts that
    /// another way of opening a store came to.
    ///
    /// Caller: the text has at most 16,777,215 octets, each place is in it and lists bags, and each key is the text of a private key.
    pub fn of_parts(text: Octets, places: Items<Place>, keys: Items<Octets>) -> OpenedSafe
        requires { IsOpenedText text places keys }
        ensures contents { result.contents ≡ contents_at text places }
        ensures keys { result.keys ≡ keys }
    {
        OpenedSafe { text, places, keys }
    }

    /// How many contents the store has.
    pub fn number_of_contents(&self) -> usize
        ensures { result ≡ length self.now.contents }
    {
        self.places.len()
    }

    /// The bags of a content, which are lent one after the other; `index` counts the contents from 0.
    ///
    /// Caller: there is a content with this index.
    pub fn bags(&self, index: usize) -> BagsView<'_>
        requires { index < length self.now.contents }
        ensures { result.left ≡ get_or self.now.contents index [] }
    {
        bags_at(self.text.as_slice(), self.places.as_slice()[index])
    }

    /// How many encrypted private keys the store has.
    pub fn number_of_keys(&self) -> usize
        ensures { result ≡ length self.now.keys }
    {
        self.keys.len()
    }

    /// The text of each encrypted private key (PrivateKeyInfo, RFC 5208), decrypted, in store order.
    pub fn keys(&self) -> &[Octets]
        ensures { result.now ≡ self.now.keys }
    {
        self.keys.as_slice()
    }

    /// An equal value in memory of its own. The only refusal is `Memory`.
    pub fn try_clone(&self, alloc: Global) -> Result<OpenedSafe, TransferError>
        ensures ok { IfOk result (λ o. o ≡ self.now) }
        ensures err { IfErr result (λ e. e ≡ refusal.Memory) }
    {
        Ok(OpenedSafe {
            text: self.text.try_clone(alloc)?,
            places: copied_places(alloc, self.places.as_slice())?,
            keys: copied(alloc, self.keys.as_slice())?,
        })
    }

    /// The opened store without its private keys.
    pub fn without_keys(self, alloc: Global) -> OpenedSafe
        ensures contents { result.contents ≡ self.contents }
        ensures keys { result.keys ≡ [] }
    {
        OpenedSafe {
            text: self.text,
            places: self.places,
            keys: Items::new(alloc),
        }
    }

    /// What `open_store` returns for the store: each bag in memory of its own. The only error is out of memory.
    pub fn into_opened(self, alloc: Global) -> Result<Opened, AllocError>
        ensures { IfOk result (λ o. (o.contents ≡ self.contents) × (o.keys ≡ self.keys)) }
    {
        let contents = owned_contents(alloc, self.text.as_slice(), self.places.as_slice())?;
        Ok(Opened {
            contents,
            keys: self.keys,
        })
    }

    /// What `seal_opened` returns for the opened store, which is taken over: its text takes no memory any more when its keys are
    /// sealed.
    ///
    /// Caller: the rounds are 1 to 100,000,000.
    pub fn seal<D: Draw>(
        self,
        alloc: Global,
        new_password: &[u8],
        rounds: u32,
        draw: &mut D,
    ) -> Result<Transferred, TransferError>
        requires { (1 ≤ rounds) × (rounds ≤ rounds_limit) }
        ensures sealed { IfOk result (λ t. SealsOpened rounds new_password.now (D.left draw.old)
            (D.left draw.new) self.contents self.keys t.certificates t.documents) }
        ensures refused { IfErr result (RefusedBy (λ e. ⊥)
            (Lacks (D.faults draw.old) (D.faults draw.new) (D.left draw.old)
            (32 * length self.keys))) }
        ensures exact { DrawsFor (D.left draw.old) (length self.keys) result }
        ensures count { D.faults draw.old ≤ D.faults draw.new }
        ensures no_fault { OnOk result (D.faults draw.new ≡ D.faults draw.old) }
        ensures last { D.faults draw.old < D.faults draw.new → IsErrOf result TransferError.Rng }
    {
        let OpenedSafe { text, places, keys } = self;
        let certificates = certificates_of(alloc, text.as_slice(), places.as_slice())?;
        drop(text);
        let documents = seal_all(alloc, keys.as_slice(), new_password, rounds, draw)?;
        Ok(Transferred {
            certificates,
            documents,
        })
    }
}
