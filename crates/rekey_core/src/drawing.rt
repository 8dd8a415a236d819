//! The octets that one change of a store draws.
ghost use Rattle.std.specs.Prelude.{◌≡◌, ◌≤◌, ◌+◌, ◌++◌, List, ℕ, length, IfOk, IfErr, OnOk, sum, ◌<◌};
ghost use Rattle.std.specs.Result.{IsErrOf};
ghost use Rattle.std.specs.Io.KnownBytes.{Consumes};
ghost use Rattle.octet_core.specs.Draw.{Lacks};
ghost use Rattle.rekey_core.specs.Anew.{change_draws, content_draws, drawn_for};
ghost use Rattle.rekey_core.specs.Kinds.{kind_for, mac_salt};
ghost use Rattle.rekey_core.specs.Sealing.{bags_draw};
ghost use Rattle.transfer.specs.TransferError.{RefusedBy};
ghost use Rattle.transfer.specs.declared.store.error.TransferError.TheVariants as refusal;

use crate::algorithm::drawn_for;
use crate::kinds::Kinds;
use asn1_core::{Items, Octets};
use mac_modes::Draw;
use p12::{AlgorithmIdentifier, ContentInfo, SafeBag, SafeBagKind};
use std::alloc::Global;
use transfer::TransferError;

/// The octets of the salt of a MAC that keeps its kind, and of one of HMAC-SHA-256.
const KEPT_MAC_SALT: usize = 8;

const RENEWED_MAC_SALT: usize = 16;

/// How many octets the salt of the MAC has.
pub(crate) fn mac_salt(to: Kinds) -> usize
    ensures value { result ≡ mac_salt to }
    ensures few { result ≤ 16 }
{
    match to {
        Kinds::Kept => KEPT_MAC_SALT,
        Kinds::Renewed(_) => RENEWED_MAC_SALT,
    }
}

/// Makes room for the octets that are drawn for a part that was under this algorithm.
fn add_room(
    to: Kinds,
    algorithm: &AlgorithmIdentifier,
    room: &mut Octets,
) -> Result<(), TransferError>
    ensures ok { OnOk result (length room.new
        ≡ length room.old + drawn_for (kind_for to algorithm.now)) }
    ensures err { IfErr result (λ e. e ≡ refusal.Memory) }
{
    let blank = [0u8; 32];
    Ok(room.extend(&blank[..drawn_for(to, algorithm)])?)
}

/// Makes room for those of the keys among bags.
fn add_bags_room(to: Kinds, bags: &[SafeBag], room: &mut Octets) -> Result<(), TransferError>
    ensures ok { OnOk result (length room.new ≡ length room.old + bags_draw to bags.now) }
    ensures err { IfErr result (λ e. e ≡ refusal.Memory) }
{
    let mut rest = bags;
    while let Some((bag, back)) = rest.split_first() {
        if let SafeBagKind::Pkcs8ShroudedKeyBag(key) = &bag.bag {
            add_room(to, &key.encryption_algorithm, room)?;
        }
        rest = back;
    }
    Ok(())
}

/// Room for all octets that a change draws.
fn room_for(
    alloc: Global,
    to: Kinds,
    contents: &[ContentInfo],
    bags: &[Items<SafeBag>],
) -> Result<Octets, TransferError>
    ensures ok { IfOk result (λ r. length r ≡ change_draws to contents.now bags.now) }
    ensures err { IfErr result (λ e. e ≡ refusal.Memory) }
{
    let blank = [0u8; 16];
    let mut room = Octets::from_slice(alloc, &blank[..mac_salt(to)])?;
    let mut rest = contents;
    while let Some((content, back)) = rest.split_first() {
        if let ContentInfo::EncryptedData(data) = content {
            add_room(
                to,
                &data.encrypted_content_info.content_encryption_algorithm,
                &mut room,
            )?;
        }
        rest = back;
    }
    let mut rest_bags = bags;
    while let Some((held, back)) = rest_bags.split_first() {
        add_bags_room(to, held.as_slice(), &mut room)?;
        rest_bags = back;
    }
    Ok(room)
}

/// The octets that a change draws. `Rng` exactly where the draw fails.
pub(crate) fn draw_for<D: Draw>(
    alloc: Global,
    to: Kinds,
    contents: &[ContentInfo],
    bags: &[Items<SafeBag>],
    draw: &mut D,
) -> Result<Octets, TransferError>
    ensures ok { IfOk result (λ d. (length d ≡ change_draws to contents.now bags.now)
        × Consumes (D.left draw.old) (D.left draw.new) d) }
    ensures err { IfErr result (RefusedBy (λ e. ⊥) (Lacks (D.faults draw.old) (D.faults draw.new)
        (D.left draw.old) (change_draws to contents.now bags.now))) }
    ensures count { D.faults draw.old ≤ D.faults draw.new }
    ensures no_fault { OnOk result (D.faults draw.new ≡ D.faults draw.old) }
    ensures last { D.faults draw.old < D.faults draw.new → IsErrOf result TransferError.Rng }
{
    let mut drawn = room_for(alloc, to, contents, bags)?;
    match draw.fill(drawn.as_mut_slice()) {
        Ok(()) => Ok(drawn),
        Err(_) => Err(TransferError::Rng),
    }
}
