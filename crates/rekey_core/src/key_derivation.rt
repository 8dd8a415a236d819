//! The keys that one change of a store derives, before it seals a part.
ghost use Rattle.std.specs.Prelude.{◌≡◌, ◌≤◌, ◌<◌, ◌+◌, ◌++◌, ◌≢◌, All, Some, drop, length, map, take, IfOk, IfErr, OnOk};
ghost use Rattle.std.specs.List.{slice_get, sum_by};
ghost use Rattle.pkcs5.specs.Opening.{sha256_key};
ghost use Rattle.rekey_core.specs.Anew.{content_draws, drawn_for};
ghost use Rattle.rekey_core.specs.Kinds.{kind_for};
ghost use Rattle.rekey_core.specs.Deriving.{key_algorithms, keys_in, part_algorithms, rounds_and_salt, rounds_and_salts, seen_parts, seen_runs};
ghost use Rattle.rekey_core.specs.Sealing.{bags_draw};
ghost use Rattle.rekey_core.specs.declared.key_derivation.RoundsAndSalt.{RoundsAndSalt};
ghost use Rattle.transfer.specs.declared.store.error.TransferError.TheVariants as refusal;

use crate::algorithm::{IV, drawn_for, rounds_for};
use crate::derived_keys::DerivedKeys;
use crate::kinds::Kinds;
use asn1_core::Items;
use p12::{AlgorithmIdentifier, ContentInfo, SafeBag, SafeBagKind};
use pkcs5::pbes2::{EncryptionKey, Salt};
use std::alloc::Global;
use transfer::TransferError;

/// What the key of a part under PBES2 is derived from, with the new password.
#[derive(Clone, Copy, Drop)]
struct RoundsAndSalt {
    rounds: u32,
    salt: Salt,
}

/// Adds a part that was under this algorithm where it is sealed under PBES2, and returns the drawn octets after those of the part.
fn add_part<'a>(
    to: Kinds,
    algorithm: &AlgorithmIdentifier,
    drawn: &'a [u8],
    parts: &mut Items<RoundsAndSalt>,
) -> Result<&'a [u8], TransferError>
    requires { drawn_for (kind_for to algorithm.now) ≤ length drawn.now }
    ensures left { IfOk result
        (λ left. length drawn.now ≡ drawn_for (kind_for to algorithm.now) + length left.now) }
    ensures after { IfOk result (λ left. left.now ≡ drop (drawn_for (kind_for to algorithm.now)) drawn.now) }
    ensures part { OnOk result (seen_parts parts.new ≡ seen_parts parts.old
        ++ rounds_and_salt (kind_for to algorithm.now) (take (drawn_for (kind_for to algorithm.now)) drawn.now)) }
    ensures err { IfErr result (λ e. e ≡ refusal.Memory) }
{
    let (own, left) = drawn.split_at(drawn_for(to, algorithm));
    if let Some(rounds) = rounds_for(to, algorithm) {
        let Ok(salt) = Salt::new(&own[IV..]) else {
            unreachable!()
        };
        parts.push(RoundsAndSalt { rounds, salt })?;
    }
    Ok(left)
}

/// Adds the encrypted keys among bags, and returns the drawn octets after theirs.
fn add_keys<'a>(
    to: Kinds,
    bags: &[SafeBag],
    drawn: &'a [u8],
    parts: &mut Items<RoundsAndSalt>,
) -> Result<&'a [u8], TransferError>
    requires { bags_draw to bags.now ≤ length drawn.now }
    ensures left { IfOk result (λ left. length drawn.now ≡ bags_draw to bags.now + length left.now) }
    ensures after { IfOk result (λ left. left.now ≡ drop (bags_draw to bags.now) drawn.now) }
    ensures parts { OnOk result (seen_parts parts.new ≡ seen_parts parts.old
        ++ rounds_and_salts (key_algorithms to bags.now) drawn.now) }
    ensures err { IfErr result (λ e. e ≡ refusal.Memory) }
{
    let mut left = drawn;
    let mut rest = bags;
    while let Some((bag, back)) = rest.split_first() {
        if let SafeBagKind::Pkcs8ShroudedKeyBag(key) = &bag.bag {
            left = add_part(to, &key.encryption_algorithm, left, parts)?;
        }
        rest = back;
    }
    Ok(left)
}

/// The parts under PBES2 of contents that hold these bags, each with its drawn octets, in the order in which these were
/// drawn. The only error is `Memory`.
fn parts_of(
    alloc: Global,
    to: Kinds,
    contents: &[ContentInfo],
    bags: &[Items<SafeBag>],
    drawn: &[u8],
) -> Result<Items<RoundsAndSalt>, TransferError>
    requires { sum_by (content_draws to) contents.now + sum_by (bags_draw to) bags.now ≤ length drawn.now }
    ensures parts { IfOk result (λ parts. seen_parts parts
        ≡ rounds_and_salts (part_algorithms to contents.now bags.now) drawn.now) }
    ensures err { IfErr result (λ e. e ≡ refusal.Memory) }
{
    let mut parts = Items::new(alloc);
    let mut left = drawn;
    let mut rest = contents;
    let mut rest_bags = bags;
    while let Some((content, back)) = rest.split_first() {
        let Some((held, held_after)) = rest_bags.split_first() else {
            break;
        };
        if let ContentInfo::EncryptedData(data) = content {
            let algorithm = &data.encrypted_content_info.content_encryption_algorithm;
            left = add_part(to, algorithm, left, &mut parts)?;
        }
        left = add_keys(to, held.as_slice(), left, &mut parts)?;
        rest = back;
        rest_bags = held_after;
    }
    Ok(parts)
}

/// How many parts in front have as many rounds as the first.
fn run_length(parts: &[RoundsAndSalt]) -> usize
    requires { 0 < length parts.now }
    ensures some { 0 < result }
    ensures inside { result ≤ length parts.now }
    ensures equal { (first : RoundsAndSalt) → slice_get parts.now 0 ≡ Some first
        → All (λ p. p.rounds ≡ first.rounds) (take result parts.now) }
    ensures longest { (first next : RoundsAndSalt) → slice_get parts.now 0 ≡ Some first
        → slice_get parts.now result ≡ Some next → next.rounds ≢ first.rounds }
{
    let rounds = parts[0].rounds;
    let mut number = 1;
    while number < parts.len() && parts[number].rounds == rounds {
        number += 1;
    }
    number
}

/// The salts of parts. The only error is `Memory`.
fn salts_of(alloc: Global, parts: &[RoundsAndSalt]) -> Result<Items<Salt>, TransferError>
    ensures ok { IfOk result (λ salts. salts ≡ map (λ p. p.salt) parts.now) }
    ensures err { IfErr result (λ e. e ≡ refusal.Memory) }
{
    let mut salts = Items::new(alloc);
    for part in parts {
        salts.push(part.salt)?;
    }
    Ok(salts)
}

/// The keys under the password in this number of rounds, one for each salt. The only error is `Memory`.
fn keys_of(
    alloc: Global,
    password: &str,
    rounds: u32,
    salts: &[Salt],
) -> Result<Items<EncryptionKey>, TransferError>
    ensures ok { IfOk result (λ keys. keys
        ≡ map (λ salt. sha256_key rounds password.now salt) salts.now) }
    ensures err { IfErr result (λ e. e ≡ refusal.Memory) }
{
    match EncryptionKey::derive_each_pbkdf2_sha256(alloc, password.as_bytes(), salts, rounds) {
        Ok(keys) => Ok(keys),
        Err(_) => Err(TransferError::Memory),
    }
}

/// The keys of parts that have this number of rounds, which are derived four at once. The only error is `Memory`.
fn derive_run<'a>(
    alloc: Global,
    password: &'a str,
    rounds: u32,
    run: &[RoundsAndSalt],
) -> Result<DerivedKeys<'a>, TransferError>
    ensures rounds { IfOk result (λ made. made.rounds ≡ rounds) }
    ensures salts { IfOk result (λ made. made.salts ≡ map (λ p. p.salt) run.now) }
    ensures password { IfOk result (λ made. made.password.now ≡ password.now) }
    ensures err { IfErr result (λ e. e ≡ refusal.Memory) }
{
    let salts = salts_of(alloc, run)?;
    let keys = keys_of(alloc, password, rounds, salts.as_slice())?;
    Ok(DerivedKeys {
        password,
        rounds,
        salts,
        keys,
    })
}

/// Derives the keys of the parts under PBES2 of contents that hold these bags, each from the new password and its drawn
/// octets, in the order in which these were drawn. The keys of neighbours that have as many rounds come together, and
/// are derived four at once. The only error is `Memory`.
pub(crate) fn derive_for<'a>(
    alloc: Global,
    to: Kinds,
    contents: &[ContentInfo],
    bags: &[Items<SafeBag>],
    drawn: &[u8],
    new: &'a str,
) -> Result<Items<DerivedKeys<'a>>, TransferError>
    requires { sum_by (content_draws to) contents.now + sum_by (bags_draw to) bags.now ≤ length drawn.now }
    ensures parts { IfOk result (λ runs. seen_runs runs
        ≡ rounds_and_salts (part_algorithms to contents.now bags.now) drawn.now) }
    ensures password { IfOk result (All (λ run. run.password.now ≡ new.now)) }
    ensures keys { IfOk result (λ runs. keys_in runs
        ≡ map (λ part. sha256_key part.0 new.now part.1)
        (rounds_and_salts (part_algorithms to contents.now bags.now) drawn.now)) }
    ensures err { IfErr result (λ e. e ≡ refusal.Memory) }
{
    let parts = parts_of(alloc, to, contents, bags, drawn)?;
    let mut derived = Items::new(alloc);
    let mut rest = parts.as_slice();
    while let Some((first, _)) = rest.split_first() {
        let (run, back) = rest.split_at(run_length(rest));
        derived.push(derive_run(alloc, new, first.rounds, run)?)?;
        rest = back;
    }
    Ok(derived)
}
