//! The subcommand `rekey`: changes the password of a store, and the algorithms where that is asked for.
ghost use Rattle.std.specs.Prelude.{◌≡◌, ◌⊎◌, ◌<◌, ℕ, IfOk, IfNone, IfSome, None};
ghost use Rattle.pkcs12_opening.specs.Ending.{ending_of_refusal};
ghost use Rattle.pkcs12_opening.specs.declared.ending.Ending.TheVariants.{Memory, Refused};
ghost use Rattle.transfer.specs.declared.store.error.TransferError.TheVariants.{Unsupported};
ghost use Rattle.rekey_core.specs.Rekeyed.{Rekeys};
ghost use Rattle.store_renewal.specs.Renewals.{RenewsOld};

use crate::new_work::too_much_work;
use asn1_core::Octets;
use octet_core::{Draw, FileDraw};
use p12::{BagView, BagsView};
use pkcs12_arguments::{Accepted, Rekey, UpgradeRounds};
use pkcs12_inspection::{Listing, OtherBag, counts};
use pkcs12_opening::{
    Attempt, Ending, Failure, Given, NewPassword, RANDOM, Surroundings, are_one, inputs_differ,
    is_not_given_again, listing_of, new_password_missing, opened, opened_store, output_differs,
    path_of_store, read_given, read_password, refused, tell_long_work, tell_old_parts, with_detail,
    without_nul,
};
use pkcs12_output::StoreFile;
use rekey_core::{Renewal, Rounds, rekey};
use std::alloc::{AllocError, Global};
use std::fs::File;
use std::marker::Brand;
use std::rt::{Env, Files, Runtime};
use std::sync::ledger::{Blank, Ledger};
use steps::Steps;
use store_renewal::upgrade_any;
use transfer::{OpenedSafe, TransferError};

/// A change of the password of a store.
#[derive(Clone, Copy)]
struct Change<'a> {
    given: &'a Given,
    new_password: &'a NewPassword,
    /// The rounds of the new algorithms, where these change too.
    upgrade: Option<Rounds>,
    limit: u64,
}

/// The changed store, with a step counter of its own.
fn changed_from<D: Draw, L: Ledger>(
    alloc: Global,
    change: &Change<'_>,
    draw: &mut D,
    blank: Blank,
) -> Result<Octets, TransferError>
    requires name { blank.name ≡ L.name }
    requires parts { blank.parts ≡ L.parts }
    requires some { 0 < blank.parts }
    ensures kept { IfNone change.now.upgrade (IfOk result (λ text. (before after : ℕ)
        × Rekeys change.now.given.now.store.items change.now.given.now.password
        change.now.new_password.now change.now.limit (D.left draw.old) (D.left draw.new)
        before after text)) }
    ensures renewed { IfSome change.now.upgrade (λ rounds. IfOk result
        (λ text. (before after : ℕ)
        × RenewsOld (record { rounds = rounds; seal_limit = change.now.limit })
        change.now.given.now.store.items change.now.given.now.password
        change.now.new_password.now change.now.limit (D.left draw.old) (D.left draw.new)
        before after text)) }
{
    let mut steps = Steps::<L>::open(blank);
    let store = change.given.store.as_slice();
    let old = change.given.password.as_str();
    let new = change.new_password.as_str();
    match change.upgrade {
        Some(rounds) => upgrade_any(
            alloc,
            store,
            old,
            new,
            Renewal {
                rounds,
                seal_limit: change.limit,
            },
            draw,
            change.limit,
            &mut steps,
        ),
        None => rekey(alloc, store, old, new, draw, change.limit, &mut steps),
    }
}

/// Why the store was not changed. It was opened before within the limit, so where an upgrade takes too much work, that is the
/// work of opening the new store.
fn failure_of(
    alloc: Global,
    change: &Change<'_>,
    before: &OpenedSafe,
    refusal: TransferError,
) -> Failure
    ensures { (result.ending ≡ ending_of_refusal refusal) ⊎ (result.ending ≡ Memory) }
{
    let given = change.given;
    let store = given.store.as_slice();
    match (refusal, change.upgrade) {
        (TransferError::WorkLimit, Some(rounds)) => too_much_work(
            alloc,
            store,
            before.number_of_keys(),
            rounds.count(),
            change.limit,
        ),
        _ => {
            let tried = Attempt {
                store,
                password: &given.password,
                limit: change.limit,
                accepted: Accepted::Old,
            };
            with_detail(alloc, refused(refusal), &tried)
        }
    }
}

/// The changed store, over the system's random octets.
fn changed<R: Files + AllocGlobal>(
    rt: &R,
    change: &Change<'_>,
    before: &OpenedSafe,
) -> Result<Octets, Failure>
    ensures kept { IfNone change.now.upgrade (IfOk result (λ text. (before after : ℕ)
        × Rekeys change.now.given.now.store.items change.now.given.now.password
        change.now.new_password.now change.now.limit None None before after text)) }
    ensures renewed { IfSome change.now.upgrade (λ rounds. IfOk result
        (λ text. (before after : ℕ)
        × RenewsOld (record { rounds = rounds; seal_limit = change.now.limit })
        change.now.given.now.store.items change.now.given.now.password
        change.now.new_password.now change.now.limit None None before after text)) }
{
    let mut draw = FileDraw::new(rt, RANDOM);
    match changed_from::<_, Brand>(rt.alloc(), change, &mut draw, Blank::new(1)) {
        Ok(text) => Ok(text),
        Err(refusal) => Err(failure_of(rt.alloc(), change, before, refusal)),
    }
}

/// Whether two bags are of one kind, and have the same octets where they are no encrypted keys.
fn are_alike(one: &BagView<'_>, other: &BagView<'_>) -> bool {
    match (one, other) {
        (BagView::X509(one), BagView::X509(other)) | (BagView::Sdsi(one), BagView::Sdsi(other)) =>
            one == other,
        (
            BagView::Other { bag_id, bag_value },
            BagView::Other {
                bag_id: other_id,
                bag_value: other_value,
            },
        ) => bag_id == other_id && bag_value == other_value,
        (BagView::Shrouded { .. }, BagView::Shrouded { .. }) => true,
        _ => false,
    }
}

/// Whether two lists have alike bags, and as many.
fn are_all_alike(mut bags: BagsView<'_>, mut others: BagsView<'_>) -> bool {
    while let Some(bag) = bags.next() {
        match others.next() {
            Some(other) if are_alike(&bag, &other) => {}
            Some(_) | None => return false,
        }
    }
    others.next().is_none()
}

/// Whether two opened stores have alike bags and the same private keys.
fn have_the_same(one: &OpenedSafe, other: &OpenedSafe) -> bool {
    let contents = one.number_of_contents();
    if one.keys() != other.keys() || contents != other.number_of_contents() {
        return false;
    }
    for index in 0..contents {
        if !are_all_alike(one.bags(index), other.bags(index)) {
            return false;
        }
    }
    true
}

/// Opens what was read back of the changed store under the new password, and compares it with the store that was changed.
fn compare(
    alloc: Global,
    found: &[u8],
    change: &Change<'_>,
    before: &OpenedSafe,
) -> Result<(), Failure> {
    let password = change.new_password.as_password();
    match opened_store(alloc, found, password, change.limit) {
        Ok(after) if have_the_same(before, &after) => Ok(()),
        Err(failure) if matches!(failure.ending, Ending::Memory) => Err(failure),
        _ => Err(Failure::new(
            Ending::WriteFault,
            "the changed store was not read back as it was written; the store is as it was",
        )),
    }
}

/// The failure of a store that is another one by the time that it would be replaced.
fn changed_meanwhile() -> Failure {
    Failure::new(
        Ending::WriteFault,
        "the store was changed by another program meanwhile, and is as that left it",
    )
}

/// Writes the changed store, and puts it in its place once it was read back and compared. A store that is replaced has to be
/// the one that was read.
fn write_changed<R: Files<File = File> + Eprint + AllocGlobal>(
    rt: &R,
    file: &StoreFile<'_>,
    change: &Change<'_>,
    before: &OpenedSafe,
    replaces_store: bool,
) -> Result<(), Failure> {
    let text = changed(rt, change, before)?;
    let written = file.written(rt, text.as_slice())?;
    match compare(rt.alloc(), written.octets.as_slice(), change, before) {
        Ok(()) if replaces_store && !file.holds(rt, change.given.store.as_slice()) => {
            file.abandon(rt, &written)?;
            Err(changed_meanwhile())
        }
        Ok(()) => Ok(file.place(rt, &written)?),
        Err(failure) => {
            file.abandon(rt, &written)?;
            Err(failure)
        }
    }
}

/// The new password, which `rekey` always needs.
fn new_password<R: Files + Env + Input + AllocGlobal>(
    rt: &R,
    asked: &Rekey<'_>,
    given: &Given,
) -> Result<NewPassword, Failure> {
    if asked.same_password {
        return NewPassword::new(given.password.try_clone(rt.alloc())?, asked.allow_empty);
    }
    match asked.new_password {
        Some(origin) => {
            let password = read_password(rt, "new password", origin)?;
            without_nul(&password)?;
            NewPassword::new(password, asked.allow_empty)
        }
        None => Err(Failure::new(Ending::NewPasswordMissing, "the new password was not given")),
    }
}

/// What was kept and what was changed.
fn changes(alloc: Global, asked: &Rekey<'_>) -> Result<String, AllocError> {
    let password = if asked.same_password {
        ""
    } else {
        "the password and "
    };
    match asked.upgrade {
        Some(rounds) => format!(in alloc;
            "kept: every certificate, private key, name, key id and other attribute\nchanged: {password}every salt; all that is encrypted is now under PBES2 with AES-256-CBC, PBKDF2 with HMAC-SHA-256 and {} rounds; the MAC is now HMAC-SHA-256 with as many",
            rounds.count
        ),
        None => String::from_str(
            alloc,
            "kept: every certificate, private key, name, key id and other attribute, and every count\nchanged: the password and every salt; what is under PBES2 is now under AES-256-CBC and HMAC-SHA-256",
        ),
    }
}

/// Says what was changed and what was kept, where somebody looks or asked for it.
fn tell<R: Eprint + AllocGlobal>(
    rt: &R,
    around: Surroundings,
    asked: &Rekey<'_>,
    found: &Listing,
) -> Result<(), Failure> {
    if !around.at_terminal && !asked.verbose {
        return Ok(());
    }
    let counts = counts(rt.alloc(), found)?;
    let changes = changes(rt.alloc(), asked)?;
    // The file is there: that nobody hears of it is no failure.
    match eprintln!(rt; "{counts}{changes}") {
        Ok(()) | Err(_) => Ok(()),
    }
}

/// Says that a store under PBES2 with such a password is not opened by Java, where the new one is.
fn warn_of_password<R: Eprint>(rt: &R, change: &Change<'_>) {
    if change.upgrade.is_none() || change.new_password.as_str().is_ascii() {
        return;
    }
    // A standard error that cannot be written to is no failure of the work.
    match eprintln!(rt;
        "pkcs12: warning: the new password is not ASCII, and Java opens no store under PBES2 with such a password"
    ) {
        Ok(()) | Err(_) => {}
    }
}

/// How many private keys are not encrypted.
fn clear_keys(found: &Listing) -> usize {
    let mut number = 0usize;
    for other in found.others.as_slice() {
        if matches!(other, OtherBag::PlainKey) {
            number = number.saturating_add(1);
        }
    }
    number
}

/// Says how many private keys an upgrade leaves without encryption.
fn warn_of_clear_keys<R: Eprint>(rt: &R, change: &Change<'_>, found: &Listing) {
    let number = clear_keys(found);
    if change.upgrade.is_none() || number == 0 {
        return;
    }
    // A standard error that cannot be written to is no failure of the work.
    match eprintln!(rt;
        "pkcs12: warning: private keys that are not encrypted, and stay so: {number}"
    ) {
        Ok(()) | Err(_) => {}
    }
}

/// The failure of an old store whose algorithms would stay.
fn is_kept_old() -> Failure
    ensures { result.ending ≡ Refused Unsupported }
{
    Failure::new(
        Ending::Refused(TransferError::Unsupported),
        "rekey keeps a store's algorithms, and this store has some that are read but never written",
    )
    .advised("To write the store under the algorithms of today:\n    --upgrade")
}

/// Opens the store, writes it under the new password into the file, and returns what it has.
fn write_rekeyed<R: Runtime<File = File> + AllocGlobal>(
    rt: &R,
    around: Surroundings,
    asked: &Rekey<'_>,
    file: &StoreFile<'_>,
    change: &Change<'_>,
) -> Result<Listing, Failure> {
    let store = change.given.store.as_slice();
    let rounds = change.upgrade.map(|rounds| rounds.count());
    tell_long_work(rt, around, store, rounds);
    let opened = opened(rt.alloc(), change.given, change.limit, Accepted::Old)?;
    if opened.is_old && rounds.is_none() {
        return Err(is_kept_old());
    }
    tell_old_parts(rt, change.given, &opened)?;
    let before = opened.safe;
    let found = listing_of(rt.alloc(), &before)?;
    warn_of_password(rt, change);
    warn_of_clear_keys(rt, change, &found);
    let replaces_store = are_one(rt, path_of_store(asked.store), asked.out);
    write_changed(rt, file, change, &before, replaces_store)?;
    Ok(found)
}

/// So many rounds, for the calls on stores.
fn rounds_of(asked: UpgradeRounds) -> Rounds
    ensures { result.count ≡ asked.count }
{
    match Rounds::new(asked.count) {
        Some(rounds) => rounds,
        None => unreachable!(),
    }
}

/// Reads the store and the passwords, and then does the same.
fn read_and_rekey<R: Runtime<File = File> + AllocGlobal>(
    rt: &R,
    around: Surroundings,
    asked: &Rekey<'_>,
    file: &StoreFile<'_>,
) -> Result<Listing, Failure> {
    let given = read_given(rt, asked.store, asked.password, asked.limit, Accepted::Old)?;
    let new_password = new_password(rt, asked, &given)?;
    let change = Change {
        given: &given,
        new_password: &new_password,
        upgrade: match asked.upgrade {
            Some(rounds) => Some(rounds_of(rounds)),
            None => None,
        },
        limit: asked.limit,
    };
    write_rekeyed(rt, around, asked, file, &change)
}

/// Changes the password of a store.
pub fn run_rekey<R: Runtime<File = File> + AllocGlobal>(
    rt: &R,
    around: Surroundings,
    asked: &Rekey<'_>,
) -> Result<(), Failure> {
    inputs_differ(rt, asked.store, asked.password, asked.new_password)?;
    output_differs(rt, asked.out, asked.password, asked.new_password)?;
    let file = StoreFile::find(rt, asked.out, asked.may_replace, around.process)?;
    let is_given = asked.same_password || asked.new_password.is_some();
    if !is_given && is_not_given_again(rt, asked.store, asked.password) {
        return Err(new_password_missing());
    }
    let found = read_and_rekey(rt, around, asked, &file)?;
    tell(rt, around, asked, &found)
}
