//! Bags that are sealed anew.
ghost use Rattle.std.specs.Prelude.{◌≡◌, ◌≤◌, ◌<◌, ◌^◌, ◌+◌, ◌++◌, ◌∷◌, [], All, List, ℕ, length, IfOk, IfErr, OnOk, Some};
ghost use Rattle.p12.specs.Canonical.{WritableBag, bag_canon, bags_canon};
ghost use Rattle.rekey_core.specs.Sealing.{BagSealed, BagsSealed, CanSeal, LongOnly, Supplies, bag_draws, bags_draw};
ghost use Rattle.rekey_core.specs.Size.{blank_bag, blank_text};
ghost use Rattle.rekey_core.specs.Unlocking.{Unlocking};

use crate::algorithm::{Sealed, seal};
use crate::kinds::Kinds;
use crate::supply::Supply;
use asn1_core::{Items, Octets};
use p12::{EncryptedPrivateKeyInfo, Error, SafeBag, SafeBagKind};
use std::alloc::Global;
use transfer::TransferError;

/// A bag, its key sealed anew where it holds an encrypted one.
fn seal_bag(
    alloc: Global,
    to: Kinds,
    bag: &SafeBag,
    supply: &mut Supply<'_>,
    new: &str,
) -> Result<SafeBag, TransferError>
    requires open { (u : Unlocking) × (more : List (List ℕ)) × CanSeal to u
        × Supplies u (bag.now ∷ []) supply.old.keys.now more }
    requires room { bag_draws to bag.now ≤ length supply.old.drawn.now }
    requires password { length new.now < 2 ^ 57 }
    ensures sealed { IfOk result (λ h. (u : Unlocking) (more : List (List ℕ))
        → Supplies u (bag.now ∷ []) supply.old.keys.now more
        → (supply.new.keys.now ≡ more) × (z : List ℕ) × (supply.old.drawn.now
        ≡ z ++ supply.new.drawn.now)
        × BagSealed to u new.now z bag.now h) }
    ensures used { OnOk result (length supply.old.drawn.now
        ≡ bag_draws to bag.now + length supply.new.drawn.now) }
    ensures err { IfErr result (LongOnly ((u : Unlocking) (more : List (List ℕ))
        → Supplies u (bag.now ∷ []) supply.old.keys.now more
        → 2 ^ 32 ≤ length (bag_canon (blank_bag to u bag.now)))) }
{
    let copy = match bag.try_clone(alloc) {
        Ok(copy) => copy,
        Err(_) => return Err(TransferError::Memory),
    };
    let SafeBagKind::Pkcs8ShroudedKeyBag(key) = &bag.bag else {
        return Ok(copy);
    };
    let part = supply.next_part(to, &key.encryption_algorithm);
    let text = supply.next_key();
    let sealed = seal(
        alloc,
        to,
        &key.encryption_algorithm,
        &part,
        text.as_slice(),
        new,
    )?;
    let SafeBag { attributes, .. } = copy;
    let Sealed { algorithm, text } = sealed;
    Ok(SafeBag {
        bag: SafeBagKind::Pkcs8ShroudedKeyBag(EncryptedPrivateKeyInfo {
            encryption_algorithm: algorithm,
            encrypted_data: text,
        }),
        attributes,
    })
}

/// Bags, each key among them sealed anew.
pub(crate) fn seal_bags(
    alloc: Global,
    to: Kinds,
    bags: &[SafeBag],
    supply: &mut Supply<'_>,
    new: &str,
) -> Result<Items<SafeBag>, TransferError>
    requires open { (u : Unlocking) × (more : List (List ℕ)) × CanSeal to u
        × Supplies u bags.now supply.old.keys.now more }
    requires room { bags_draw to bags.now ≤ length supply.old.drawn.now }
    requires password { length new.now < 2 ^ 57 }
    ensures sealed { IfOk result (λ hs. (u : Unlocking) (more : List (List ℕ))
        → Supplies u bags.now supply.old.keys.now more
        → (supply.new.keys.now ≡ more) × BagsSealed to u new.now bags.now supply.old.drawn.now
        supply.new.drawn.now hs) }
    ensures used { OnOk result (length supply.old.drawn.now
        ≡ bags_draw to bags.now + length supply.new.drawn.now) }
    ensures err { IfErr result (LongOnly ((u : Unlocking) (more : List (List ℕ))
        → Supplies u bags.now supply.old.keys.now more
        → 2 ^ 32 ≤ length (blank_text to u bags.now))) }
{
    let mut made = Items::new(alloc);
    let mut rest = bags;
    while let Some((bag, back)) = rest.split_first() {
        let sealed = seal_bag(alloc, to, bag, supply, new)?;
        made.push(sealed)?;
        rest = back;
    }
    Ok(made)
}

/// The text of bags. `TooLong` only where it has 2^32 octets or more; the only other error is
/// `Memory`.
pub(crate) fn text_of(alloc: Global, bags: &[SafeBag]) -> Result<Octets, TransferError>
    requires { All WritableBag bags.now }
    ensures ok { IfOk result (λ t. (t ≡ bags_canon bags.now) × (length t < 2 ^ 32)) }
    ensures err { IfErr result (LongOnly (2 ^ 32 ≤ length (bags_canon bags.now))) }
{
    match SafeBag::all_to_der(alloc, bags) {
        Ok(text) => Ok(text),
        Err(Error::TooLong) => Err(TransferError::TooLong),
        Err(Error::Memory) => Err(TransferError::Memory),
        Err(Error::Malformed | Error::Invalid | Error::Rng) => unreachable!(),
    }
}
