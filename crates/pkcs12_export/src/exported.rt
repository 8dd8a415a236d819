//! What is exported of a store: reading the new password, the bounds, and the sealing.
ghost use Rattle.std.specs.Prelude.{◌≡◌, ◌≤◌, ◌*◌, ◌↔◌, ◌⊎◌, [], length, IfOk, IfErr, IfSome, IfNone, OnOk, IsTrue, None};
ghost use Rattle.std.specs.Option.{ForSome};
ghost use Rattle.transfer.specs.Opening.{all_certificates};
ghost use Rattle.transfer.specs.Transferred.{SealsOpened};
ghost use Rattle.pkcs12_export.specs.Exports.{Exports, FailsToExport, FailsToSeal, IsOutside, IsWithin, certificates_in, chains_in, keys_in};

use crate::sealing::{certificates_alone, sealed_store};
use command_base::Password;
use pkcs12_arguments::{Export, Part};
use pkcs12_inspection::{Listing, not_exported};
use pkcs12_opening::{
    Counted, Ending, Failure, Given, NewPassword, Surroundings, is_long_sealing,
    is_not_given_again, listing_of, opened, read_password, sealing_time, tell_old_parts,
    without_nul,
};
use std::alloc::Global;
use std::rt::{Env, Files};
use transfer::{OpenedSafe, Transferred};

/// The store's password as a new one.
fn same_password(
    alloc: Global,
    password: &Password,
    may_be_empty: bool,
) -> Result<NewPassword, Failure>
    ensures { IfOk result (λ p. length p ≡ 0 → IsTrue may_be_empty) }
{
    NewPassword::new(password.try_clone(alloc)?, may_be_empty)
}

/// Whether a new password that is not given has to be given from the beginning, since the script could not ask for it later.
pub fn needs_new_password<R: Files + Env + AllocGlobal>(rt: &R, asked: &Export<'_>) -> bool {
    let is_given = asked.same_password || asked.new_password.is_some();
    !is_given
        && asked.target.part != Part::Certificates
        && is_not_given_again(rt, asked.store, asked.password)
}

/// The new password, where one is given and private keys are written. `ReadFault` where it cannot be read; `PasswordUnusable` where it
/// is not UTF-8, has more than 1,024 octets or a NUL, or is empty and may not be.
pub fn new_password<R: Files + Env + Input + AllocGlobal>(
    rt: &R,
    asked: &Export<'_>,
    given: &Given,
) -> Result<Option<NewPassword>, Failure>
    ensures { IfOk result (λ o. IfSome o (λ p. length p ≡ 0 → IsTrue asked.now.allow_empty)) }
{
    if asked.target.part == Part::Certificates {
        return Ok(None);
    }
    if asked.same_password {
        return Ok(Some(same_password(rt.alloc(), &given.password, asked.allow_empty)?));
    }
    match asked.new_password {
        Some(origin) => {
            let password = read_password(rt, "new password", origin)?;
            without_nul(&password)?;
            Ok(Some(NewPassword::new(password, asked.allow_empty)?))
        }
        None => Ok(None),
    }
}

/// The failure of a store that has more than is exported.
fn has_more(alloc: Global, found: &Listing) -> Failure
    ensures { (result.ending ≡ Ending.NotExported) ⊎ (result.ending ≡ Ending.Memory) }
{
    Failure::told(
        Ending::NotExported,
        not_exported(alloc, found.others.as_slice()),
    )
}

/// The failure of a store that has nothing of the part that is asked for.
fn nothing_to_write(part: Part) -> Failure
    ensures { result.ending ≡ Ending.NotExported }
{
    let text = match part {
        Part::Whole => "the store has no certificate and no private key, so nothing was written",
        Part::Keys => "the store has no private key, so nothing was written",
        Part::Certificates => "the store has no certificate, so nothing was written",
    };
    Failure::new(Ending::NotExported, text).advised("To see what is in it: pkcs12 check STORE")
}

/// The failure of a store with too many certificates and private keys.
fn too_many_files(alloc: Global, certificates: usize, keys: usize, most: u64) -> Failure
    ensures { (result.ending ≡ Ending.TooManyFiles) ⊎ (result.ending ≡ Ending.Memory) }
{
    let certificates = Counted(certificates, "certificate");
    let keys = Counted(keys, "private key");
    let text = format!(in alloc;
        "the store has {certificates} and {keys}, and --most-files allows {most} files, with a chain for each key where --chain is given"
    );
    Failure::told(Ending::TooManyFiles, text)
}

/// Whether so many rounds for each of so many keys are within the limit.
fn is_within(keys: usize, rounds: u32, limit: u64) -> bool
    ensures { IsTrue result ↔ (keys * rounds ≤ limit) }
{
    keys as u128 * u128::from(rounds) <= u128::from(limit)
}

/// The failure of private keys that take too many rounds.
fn too_many_rounds(alloc: Global, keys: usize, rounds: u32, limit: u64) -> Failure
    ensures { (result.ending ≡ Ending.SealLimit) ⊎ (result.ending ≡ Ending.Memory) }
{
    let all = (keys as u128).saturating_mul(u128::from(rounds));
    let time = sealing_time(keys, rounds);
    let keys = Counted(keys, "private key");
    let text = format!(in alloc;
        "sealing {keys} takes {all} rounds, {rounds} for each, about {time}, and --seal-limit \
         allows {limit}"
    );
    Failure::told(Ending::SealLimit, text)
}

/// How many of so many certificates are in this part of the store.
#[tactic(auto, unfolding(crate::specs::Exports::certificates_in))]
fn certificates_in(part: Part, all: usize) -> usize
    ensures { result ≡ certificates_in part all }
{
    match part {
        Part::Keys => 0,
        Part::Whole | Part::Certificates => all,
    }
}

/// How many files of chains there may be for so many private keys.
#[tactic(auto, unfolding(crate::specs::Exports::chains_in))]
fn chains_in(chain: bool, keys: usize) -> usize
    ensures { result ≡ chains_in chain keys }
{
    if chain { keys } else { 0 }
}

/// That a store is exported within these bounds: it has no other bags, unless these are skipped; it has something of what is asked
/// for; the certificates and so many private keys, as far as they are asked for, are not too many files; and
/// these keys do not take too many rounds. The failure is that of the first bound that it is outside of.
fn within_bounds(
    alloc: Global,
    asked: &Export<'_>,
    found: &Listing,
    keys: usize,
) -> Result<(), Failure>
    ensures ok { OnOk result (IsWithin asked.now (length found.now.others)
        (length found.now.certificates) keys) }
    ensures err { IfErr result (λ f. (f.ending ≡ Ending.Memory)
        ⊎ IsOutside asked.now (length found.now.others) (length found.now.certificates) keys
        f.ending) }
{
    let bounds = asked.bounds;
    if !found.others.is_empty() && !bounds.skip_others {
        return Err(has_more(alloc, found));
    }
    let certificates = certificates_in(asked.target.part, found.certificates.len());
    if certificates == 0 && keys == 0 {
        return Err(nothing_to_write(asked.target.part));
    }
    let chains = chains_in(asked.target.chain, keys);
    let files = certificates as u128 + keys as u128 + chains as u128;
    if files > u128::from(bounds.most_files) {
        return Err(too_many_files(alloc, certificates, keys, bounds.most_files));
    }
    if !is_within(keys, asked.rounds, bounds.seal_limit) {
        return Err(too_many_rounds(alloc, keys, asked.rounds, bounds.seal_limit));
    }
    Ok(())
}

/// The opened store as far as it is written: where the certificates alone are, without its keys.
#[tactic(auto, unfolding(crate::specs::Exports::keys_in))]
fn part_of(alloc: Global, opened: OpenedSafe, part: Part) -> OpenedSafe
    ensures contents { result.contents ≡ opened.contents }
    ensures keys { result.keys ≡ keys_in part opened.keys }
{
    match part {
        Part::Certificates => opened.without_keys(alloc),
        Part::Whole | Part::Keys => opened,
    }
}

/// What is written of an opened store: its keys sealed under the new password, in the rounds that
/// are asked for. Without a new password it may have none.
fn sealed_anew<R: Files + Eprint + AllocGlobal + Drop>(
    rt: &R,
    around: Surroundings,
    asked: &Export<'_>,
    opened: OpenedSafe,
    new_password: &Option<NewPassword>,
) -> Result<Transferred, Failure>
    ensures sealed { IfOk result (λ t. IfSome new_password.now (λ q.
        SealsOpened asked.now.rounds q None None opened.contents opened.keys
        t.certificates t.documents)) }
    ensures keyless { IfOk result (λ t. IfNone new_password.now
        ((opened.keys ≡ []) × (t.documents ≡ [])
        × (t.certificates ≡ all_certificates opened.contents))) }
    ensures err { IfErr result (λ f. (f.ending ≡ Ending.Memory)
        ⊎ FailsToSeal new_password.now opened.keys f.ending) }
{
    match new_password {
        Some(new_password) => {
            let is_shown = around.at_terminal
                && is_long_sealing(opened.number_of_keys(), asked.rounds);
            sealed_store(rt, opened, new_password, asked.rounds, is_shown)
        }
        None => certificates_alone(rt.alloc(), opened),
    }
}

/// What is exported of a store, and what its bags are called.
#[derive(Drop)]
pub struct Exported {
    pub transferred: Transferred,
    pub found: Listing,
}

/// Opens a store and seals its private keys, over the system's random octets; both as far as they are asked for. The octets of the store
/// are freed when it is opened.
///
/// `Refused` where the store is refused within `asked.limit`, or there are no random octets. `NotExported`, `TooManyFiles` or `SealLimit`
/// where it is not within the bounds, in this order, and then `NewPasswordMissing` where it has private keys to seal and there is no new
/// password. Nothing is sealed in these cases. `Memory` may come in the place of each.
pub fn open_and_seal<R: Files + Eprint + AllocGlobal + Drop>(
    rt: &R,
    around: Surroundings,
    asked: &Export<'_>,
    given: Given,
    new_password: &Option<NewPassword>,
) -> Result<Exported, Failure>
    requires { ForSome new_password.now (λ q. length q ≡ 0 → IsTrue asked.now.allow_empty) }
    ensures ok { IfOk result (λ e. Exports asked.now new_password.now given.store.items
        given.password e.transferred.certificates e.transferred.documents) }
    ensures err { IfErr result (λ f. FailsToExport asked.now new_password.now
        given.store.items given.password f.ending) }
{
    let opened = opened(rt.alloc(), &given, asked.limit, asked.accepted)?;
    tell_old_parts(rt, &given, &opened)?;
    drop(given);
    let found = listing_of(rt.alloc(), &opened.safe)?;
    let opened = part_of(rt.alloc(), opened.safe, asked.target.part);
    within_bounds(rt.alloc(), asked, &found, opened.number_of_keys())?;
    let transferred = sealed_anew(rt, around, asked, opened, new_password)?;
    Ok(Exported { transferred, found })
}
