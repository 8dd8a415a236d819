//! Contents that are sealed anew.
ghost use Rattle.std.specs.Prelude.{◌≡◌, ◌≤◌, ◌<◌, ◌^◌, ◌+◌, ◌++◌, ◌∷◌, [], All, List, ℕ, length, IfOk, IfErr, OnOk, Some};
ghost use Rattle.std.specs.List.{sum_by};
ghost use Rattle.asn1_core.specs.Sets.{Each};
ghost use Rattle.p12.specs.Canonical.{content_canon, contents_canon};
ghost use Rattle.p12.specs.declared.safe_bag.SafeBag.{SafeBag};
ghost use Rattle.rekey_core.specs.Anew.{content_draws};
ghost use Rattle.rekey_core.specs.Resealing.{EachDrawn};
ghost use Rattle.rekey_core.specs.Sealing.{CanSeal, ContentSealed, ContentsSealed, LongOnly, Supplies, SuppliesAll, bags_draw};
ghost use Rattle.rekey_core.specs.Size.{blank_content, blank_contents};
ghost use Rattle.rekey_core.specs.Unlocking.{HoldsBy, Unlocking};

use crate::algorithm::{Sealed, seal};
use crate::bags::{seal_bags, text_of};
use crate::kinds::Kinds;
use crate::supply::Supply;
use asn1_core::Items;
use p12::{ContentInfo, EncryptedContentInfo, EncryptedData, SafeBag};
use std::alloc::Global;
use transfer::TransferError;

/// A content that holds these bags, sealed anew with the keys among them.
fn seal_content(
    alloc: Global,
    to: Kinds,
    content: &ContentInfo,
    bags: &[SafeBag],
    supply: &mut Supply<'_>,
    new: &str,
) -> Result<ContentInfo, TransferError>
    requires open { (u : Unlocking) × (more : List (List ℕ)) × CanSeal to u
        × HoldsBy u content.now bags.now
        × Supplies u bags.now supply.old.keys.now more }
    requires room { content_draws to content.now + bags_draw to bags.now ≤ length supply.old.drawn.now }
    requires password { length new.now < 2 ^ 57 }
    ensures sealed { IfOk result (λ e. (u : Unlocking) (more : List (List ℕ))
        → HoldsBy u content.now bags.now → Supplies u bags.now supply.old.keys.now more
        → (supply.new.keys.now ≡ more) × (z : List ℕ) × (supply.old.drawn.now
        ≡ z ++ supply.new.drawn.now)
        × ContentSealed to u new.now z content.now e) }
    ensures used { OnOk result (length supply.old.drawn.now
        ≡ content_draws to content.now + bags_draw to bags.now + length supply.new.drawn.now) }
    ensures err { IfErr result (LongOnly ((u : Unlocking) (more : List (List ℕ))
        → HoldsBy u content.now bags.now → Supplies u bags.now supply.old.keys.now more
        → 2 ^ 32 ≤ length (content_canon (blank_content to u content.now bags.now)))) }
{
    match content {
        ContentInfo::Data(_) => {
            let bags = seal_bags(alloc, to, bags, supply, new)?;
            let text = text_of(alloc, bags.as_slice())?;
            Ok(ContentInfo::Data(text))
        }
        ContentInfo::EncryptedData(data) => {
            let algorithm = &data.encrypted_content_info.content_encryption_algorithm;
            let part = supply.next_part(to, algorithm);
            let bags = seal_bags(alloc, to, bags, supply, new)?;
            let text = text_of(alloc, bags.as_slice())?;
            let sealed = seal(alloc, to, algorithm, &part, text.as_slice(), new)?;
            let Sealed { algorithm, text } = sealed;
            Ok(ContentInfo::EncryptedData(EncryptedData {
                encrypted_content_info: EncryptedContentInfo {
                    content_encryption_algorithm: algorithm,
                    encrypted_content: text,
                },
            }))
        }
        ContentInfo::OtherContext(_) => unreachable!(),
    }
}

/// Contents that hold these bags, sealed anew in order.
pub(crate) fn seal_contents(
    alloc: Global,
    to: Kinds,
    contents: &[ContentInfo],
    bags: &[Items<SafeBag>],
    supply: &mut Supply<'_>,
    new: &str,
) -> Result<Items<ContentInfo>, TransferError>
    requires open { (u : Unlocking) × (more : List (List ℕ)) × CanSeal to u
        × Each (HoldsBy u) contents.now bags.now
        × SuppliesAll u bags.now supply.old.keys.now more }
    requires room { sum_by (content_draws to) contents.now + sum_by (bags_draw to) bags.now
        ≤ length supply.old.drawn.now }
    requires password { length new.now < 2 ^ 57 }
    ensures sealed { IfOk result (λ es. (u : Unlocking) (more : List (List ℕ))
        → Each (HoldsBy u) contents.now bags.now → SuppliesAll u bags.now supply.old.keys.now more
        → ContentsSealed to u new.now contents.now supply.old.drawn.now supply.new.drawn.now es) }
    ensures used { OnOk result (length supply.old.drawn.now
        ≡ sum_by (content_draws to) contents.now + sum_by (bags_draw to) bags.now + length
        supply.new.drawn.now) }
    ensures err { IfErr result (LongOnly ((u : Unlocking) (more : List (List ℕ))
        → Each (HoldsBy u) contents.now bags.now → SuppliesAll u bags.now supply.old.keys.now more
        → 2 ^ 32 ≤ length (contents_canon (blank_contents to u contents.now bags.now)))) }
{
    let mut made = Items::new(alloc);
    let mut rest = contents;
    let mut rest_bags = bags;
    while let Some((content, back)) = rest.split_first() {
        let Some((held, held_after)) = rest_bags.split_first() else {
            unreachable!()
        };
        let sealed = seal_content(alloc, to, content, held.as_slice(), supply, new)?;
        made.push(sealed)?;
        rest = back;
        rest_bags = held_after;
    }
    Ok(made)
}
