//! The exports, and the typed calls that they number.
ghost use Rattle.std.specs.Prelude.{◌≡◌, ◌≢◌, ◌≤◌, ◌⊎◌, Result, length};
ghost use Rattle.pkcs12_c.specs.Answers.{ChangeAnswers, CreateAnswers, ListAnswers, OpenAnswers, PasswordsFirst, StoreUpgraded, TransferAnswers, UpgradeAnswers};
ghost use Rattle.pkcs12_c.specs.Given.{given};
ghost use Rattle.pkcs12_c.specs.Refusal.{answer_number};
ghost use Rattle.pkcs12_c.specs.Room.{HasRoom, HasStoreRoom, key_draws, room_for};
ghost use Rattle.pkcs12_c.specs.declared.refusal.Refusal.{Refusal};

use crate::changed::changed;
use crate::create_pem::create_pem;
use crate::drawn::transferred;
use crate::filled::{filled, filled_within};
use crate::laws::stores_suffice;
use crate::listed::listed;
use crate::opening::opened;
use crate::password::password_of;
use crate::pem::{opened_text_of, pem_text_of};
use crate::refusal::{Refusal, number_of};
use crate::rounds::{ROUNDS, rounds_of};
use crate::upgraded::upgraded;
use rekey_core::Rounds;
use std::alloc::Global;
use transfer::TransferError;

/// The most octets of a store.
const STORE: usize = 16_777_215;

/// The transfer, as PEM text.
fn transfer_pem(
    alloc: Global,
    store: &[u8],
    password: &[u8],
    new_password: &[u8],
    rounds: u32,
    limit: u64,
    random: &[u8],
    output: &mut [u8],
    needed: &mut usize,
) -> Result<(), Refusal>
    ensures { TransferAnswers store.now password.now new_password.now random.now rounds limit
        output.old output.new needed.new result }
{
    *needed = 0;
    if rounds == 0 || rounds > ROUNDS {
        return Err(Refusal::Rounds);
    }
    let Some(password) = password_of(password) else {
        return Err(Refusal::Password);
    };
    match transferred(alloc, store, &password, new_password, rounds, limit, random) {
        Ok(made) => {
            match pem_text_of(
                alloc,
                made.certificates.as_slice(),
                made.documents.as_slice(),
            ) {
                Ok(text) => filled(text.as_slice(), output, needed),
                Err(_) => Err(Refusal::Store(TransferError::Memory)),
            }
        }
        Err(refusal) => Err(Refusal::Store(refusal)),
    }
}

/// The opened store, as PEM text.
fn open_pem(
    alloc: Global,
    store: &[u8],
    password: &[u8],
    limit: u64,
    output: &mut [u8],
    needed: &mut usize,
) -> Result<(), Refusal>
    ensures { OpenAnswers store.now password.now limit output.old output.new needed.new result }
{
    *needed = 0;
    let Some(password) = password_of(password) else {
        return Err(Refusal::Password);
    };
    match opened(alloc, store, &password, limit) {
        Ok(made) => match opened_text_of(alloc, made.contents.as_slice(), made.keys.as_slice()) {
            Ok(text) => filled(text.as_slice(), output, needed),
            Err(_) => Err(Refusal::Store(TransferError::Memory)),
        },
        Err(refusal) => Err(Refusal::Store(refusal)),
    }
}

/// The list of what the store holds.
fn list(
    alloc: Global,
    store: &[u8],
    password: &[u8],
    limit: u64,
    output: &mut [u8],
    needed: &mut usize,
) -> Result<(), Refusal>
    ensures { ListAnswers store.now password.now limit output.old output.new needed.new result }
{
    *needed = 0;
    let Some(password) = password_of(password) else {
        return Err(Refusal::Password);
    };
    match listed(alloc, store, &password, limit, output.len()) {
        Ok(table) => filled_within(&table, output, needed),
        Err(refusal) => Err(Refusal::Store(refusal)),
    }
}

/// The store under another password.
fn rekey(
    alloc: Global,
    store: &[u8],
    password: &[u8],
    new_password: &[u8],
    limit: u64,
    random: &[u8],
    output: &mut [u8],
    needed: &mut usize,
) -> Result<(), Refusal>
    ensures { ChangeAnswers store.now password.now new_password.now random.now limit
        output.old output.new needed.new result }
{
    *needed = 0;
    let Some(password) = password_of(password) else {
        return Err(Refusal::Password);
    };
    let Some(new_password) = password_of(new_password) else {
        return Err(Refusal::Password);
    };
    match changed(alloc, store, &password, &new_password, limit, random) {
        Ok(text) => filled(text.as_slice(), output, needed),
        Err(refusal) => Err(Refusal::Store(refusal)),
    }
}

/// The store under another password, with parts and a MAC of so many rounds.
fn upgrade_to(
    alloc: Global,
    store: &[u8],
    password: &[u8],
    new_password: &[u8],
    rounds: Rounds,
    limit: u64,
    random: &[u8],
    output: &mut [u8],
    needed: &mut usize,
) -> Result<(), Refusal>
    ensures { PasswordsFirst password.now new_password.now output.old output.new needed.new result
        (StoreUpgraded rounds store.now password.now new_password.now random.now limit
        output.old output.new needed.new result) }
{
    *needed = 0;
    let Some(password) = password_of(password) else {
        return Err(Refusal::Password);
    };
    let Some(new_password) = password_of(new_password) else {
        return Err(Refusal::Password);
    };
    match upgraded(
        alloc,
        store,
        &password,
        &new_password,
        rounds,
        limit,
        random,
    ) {
        Ok(text) => filled(text.as_slice(), output, needed),
        Err(refusal) => Err(Refusal::Store(refusal)),
    }
}

/// The store under another password and the algorithms of today.
fn upgrade(
    alloc: Global,
    store: &[u8],
    password: &[u8],
    new_password: &[u8],
    rounds: u32,
    limit: u64,
    random: &[u8],
    output: &mut [u8],
    needed: &mut usize,
) -> Result<(), Refusal>
    ensures { UpgradeAnswers store.now password.now new_password.now random.now rounds limit
        output.old output.new needed.new result }
{
    *needed = 0;
    let Some(rounds) = rounds_of(rounds) else {
        return Err(Refusal::Rounds);
    };
    upgrade_to(
        alloc,
        store,
        password,
        new_password,
        rounds,
        limit,
        random,
        output,
        needed,
    )
}

/// The version of the interface that `pkcs12.h` declares.
#[unsafe(no_mangle)]
pub extern "C" fn pkcs12_version() -> u32
    ensures { result ≡ 3 }
{
    3
}

/// `pkcs12_room` of `pkcs12.h`.
#[unsafe(no_mangle)]
pub extern "C" fn pkcs12_room(store_len: usize) -> usize
    ensures { result ≡ room_for store_len }
{
    if store_len > STORE {
        return 5 * STORE;
    }
    5 * store_len
}

/// `pkcs12_transfer_pem` of `pkcs12.h`.
#[unsafe(no_mangle)]
pub extern "C" fn pkcs12_transfer_pem(
    alloc: Global,
    store: &[u8],
    password: &[u8],
    new_password: &[u8],
    rounds: u32,
    limit: u64,
    random: &[u8],
    output: &mut [u8],
    needed: &mut usize,
) -> u32
    ensures answers { (r : Result (Unit {0}) Refusal) × (result ≡ answer_number r)
        × TransferAnswers store.now password.now new_password.now random.now rounds limit
        output.old output.new needed.new r }
    ensures room { HasRoom (length store.now) (length output.old) needed.new result }
    ensures random { length store.now ≤ length random.now → result ≢ 20 }
{
    stores_suffice();
    number_of(transfer_pem(
        alloc,
        store,
        password,
        new_password,
        rounds,
        limit,
        random,
        output,
        needed,
    ))
}

/// `pkcs12_open_pem` of `pkcs12.h`.
#[unsafe(no_mangle)]
pub extern "C" fn pkcs12_open_pem(
    alloc: Global,
    store: &[u8],
    password: &[u8],
    limit: u64,
    output: &mut [u8],
    needed: &mut usize,
) -> u32
    ensures answers { (r : Result (Unit {0}) Refusal) × (result ≡ answer_number r)
        × OpenAnswers store.now password.now limit output.old output.new needed.new r }
    ensures room { HasRoom (length store.now) (length output.old) needed.new result }
{
    stores_suffice();
    number_of(open_pem(alloc, store, password, limit, output, needed))
}

/// `pkcs12_list` of `pkcs12.h`.
#[unsafe(no_mangle)]
pub extern "C" fn pkcs12_list(
    alloc: Global,
    store: &[u8],
    password: &[u8],
    limit: u64,
    output: &mut [u8],
    needed: &mut usize,
) -> u32
    ensures { (r : Result (Unit {0}) Refusal) × (result ≡ answer_number r)
        × ListAnswers store.now password.now limit output.old output.new needed.new r }
{
    number_of(list(alloc, store, password, limit, output, needed))
}

/// `pkcs12_rekey` of `pkcs12.h`.
#[unsafe(no_mangle)]
pub extern "C" fn pkcs12_rekey(
    alloc: Global,
    store: &[u8],
    password: &[u8],
    new_password: &[u8],
    limit: u64,
    random: &[u8],
    output: &mut [u8],
    needed: &mut usize,
) -> u32
    ensures answers { (r : Result (Unit {0}) Refusal) × (result ≡ answer_number r)
        × ChangeAnswers store.now password.now new_password.now random.now limit
        output.old output.new needed.new r }
    ensures random { length store.now ≤ length random.now → result ≢ 20 }
{
    stores_suffice();
    number_of(rekey(
        alloc,
        store,
        password,
        new_password,
        limit,
        random,
        output,
        needed,
    ))
}

/// `pkcs12_upgrade` of `pkcs12.h`.
#[unsafe(no_mangle)]
pub extern "C" fn pkcs12_upgrade(
    alloc: Global,
    store: &[u8],
    password: &[u8],
    new_password: &[u8],
    rounds: u32,
    limit: u64,
    random: &[u8],
    output: &mut [u8],
    needed: &mut usize,
) -> u32
    ensures { (r : Result (Unit {0}) Refusal) × (result ≡ answer_number r)
        × UpgradeAnswers store.now password.now new_password.now random.now rounds limit
        output.old output.new needed.new r }
{
    number_of(upgrade(
        alloc,
        store,
        password,
        new_password,
        rounds,
        limit,
        random,
        output,
        needed,
    ))
}

/// `pkcs12_create_pem` of `pkcs12.h`.
#[unsafe(no_mangle)]
pub extern "C" fn pkcs12_create_pem(
    alloc: Global,
    key: &[u8],
    certificates: &[u8],
    key_password: &[u8],
    name: &[u8],
    password: &[u8],
    rounds: u32,
    limit: u32,
    random: &[u8],
    output: &mut [u8],
    needed: &mut usize,
) -> u32
    ensures answers { (r : Result (Unit {0}) Refusal) × (result ≡ answer_number r)
        × CreateAnswers (record {
          key = key.now;
          certificates = certificates.now;
          key_password = given key_password.now;
          name = given name.now;
          limit = limit;
          password = password.now;
          rounds = rounds;
        }) random.now output.old output.new needed.new r }
    ensures room { HasStoreRoom (length output.old) needed.new result }
    ensures random { key_draws ≤ length random.now → result ≢ 20 }
{
    number_of(create_pem(
        alloc,
        key,
        certificates,
        key_password,
        name,
        password,
        rounds,
        limit,
        random,
        output,
        needed,
    ))
}
