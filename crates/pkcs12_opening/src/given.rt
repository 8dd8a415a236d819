//! The store and its password, as they are read.
ghost use Rattle.std.specs.Prelude.{◌≤◌, ℕ, IfOk, IfErr};
ghost use Rattle.pkcs12_opening.specs.Opens.{FailsToOpen, Opens};

use crate::ending::{Ending, Failure};
use crate::input::is_read_once;
use crate::old_store::mac_steps;
use crate::opening::{AnyStore, opened_any_store, opened_bare_store, opened_store, read_store};
use crate::password::read_password;
use crate::refusal::{Attempt, with_detail};
use command_base::{Origin, Password};
use pkcs12_arguments::Accepted;
use std::alloc::Global;
use std::env;
use std::rt::{Env, Files};
use transfer::TransferError;

/// Where this variable is set, the script that started the program asks for a password that is
/// missing and runs it again, so the program itself keeps silent.
pub const ASKING: &str = "PKCS12_ASKING";

/// The octets of a store, which nothing has looked at, and its password.
#[derive(Drop)]
pub struct Given {
    pub store: Vec<u8>,
    pub password: Password,
}

fn password_missing() -> Failure {
    Failure::new(
        Ending::PasswordMissing,
        "the store's password was not given, and there is no terminal to ask at",
    )
}

/// `NewPasswordMissing`, where the script could not ask for it later.
pub fn new_password_missing() -> Failure {
    Failure::new(
        Ending::NewPasswordMissing,
        "the store or its password is read once alone, so the new password is needed from the \
         beginning",
    )
}

/// Whether the password can be read once alone.
fn is_password_read_once<R: Files>(rt: &R, origin: Origin<'_>) -> bool {
    match origin {
        Origin::File(path) => is_read_once(rt, path),
        Origin::Variable(_) => false,
        Origin::Standard => true,
    }
}

/// Whether the store or its password cannot be read again by a second run, where the script asks.
pub fn is_not_given_again<R: Files + Env + AllocGlobal>(
    rt: &R,
    store: &str,
    password: Option<Origin<'_>>,
) -> bool {
    match password {
        Some(origin) if env::var(rt, ASKING).is_ok() => {
            is_read_once(rt, store) || is_password_read_once(rt, origin)
        }
        Some(_) | None => false,
    }
}

/// Opens a store within the limit, in steps, if it is one of those that are accepted.
fn opened_by(
    alloc: Global,
    store: &[u8],
    password: &Password,
    limit: u64,
    accepted: Accepted,
) -> Result<AnyStore, Failure>
    ensures ok { IfOk result (λ o. (n : ℕ) × Opens accepted store.now password.now
        o.safe.contents o.safe.keys n × (n ≤ limit)) }
    ensures err { IfErr result
        (λ f. FailsToOpen accepted store.now password.now limit f.ending) }
{
    match accepted {
        Accepted::Modern => match opened_store(alloc, store, password, limit) {
            Ok(safe) => Ok(AnyStore {
                safe,
                is_old: false,
            }),
            Err(failure) => Err(failure),
        },
        Accepted::Old => opened_any_store(alloc, store, password, limit),
        Accepted::WithoutMac => opened_bare_store(alloc, store, password, limit),
    }
}

/// What refuses a store that has no password yet and did not open with no work at all: the cause that is seen so, else that the
/// password is missing.
fn refused_unasked(alloc: Global, failure: Failure, tried: &Attempt<'_>) -> Failure {
    match failure.ending {
        Ending::Refused(TransferError::WorkLimit) if mac_steps(alloc, tried.store) <= tried.limit =>
            password_missing(),
        Ending::Refused(TransferError::MacMismatch) => password_missing(),
        _ => with_detail(alloc, failure, tried),
    }
}

/// The store under the empty password, where it opens under any since it has no MAC and nothing in it is encrypted.
fn given_unasked(
    alloc: Global,
    store: Vec<u8>,
    limit: u64,
    accepted: Accepted,
) -> Result<Given, Failure> {
    let password = Password::empty(alloc);
    // Under this limit nothing is derived.
    match opened_by(alloc, store.as_slice(), &password, 0, accepted) {
        Ok(_) => Ok(Given { store, password }),
        Err(failure) => {
            let tried = Attempt {
                store: store.as_slice(),
                password: &password,
                limit,
                accepted,
            };
            Err(refused_unasked(alloc, failure, &tried))
        }
    }
}

/// Reads the store at the path, or for `-` on the standard input, and its password, where that has an origin. `limit` is the most
/// steps of opening it.
///
/// `ReadFault` where one of them cannot be read, `PasswordUnusable` where the password is not UTF-8 or has more than 1,024 octets.
/// Without an origin the password is empty where the store opens under any, having no MAC and nothing encrypted. Else it fails: as
/// `Refused` where the store is refused under any password, which takes no steps, and as `PasswordMissing` where it is not.
pub fn read_given<R: Files + Env + Input + AllocGlobal>(
    rt: &R,
    path: &str,
    origin: Option<Origin<'_>>,
    limit: u64,
    accepted: Accepted,
) -> Result<Given, Failure> {
    if origin.is_none() && is_read_once(rt, path) {
        return Err(password_missing());
    }
    let store = read_store(rt, path)?;
    let Some(origin) = origin else {
        return given_unasked(rt.alloc(), store, limit, accepted);
    };
    let password = read_password(rt, "password", origin)?;
    Ok(Given { store, password })
}

/// Opens a store within the limit, in steps, if it is one of those that are accepted. A refusal has what more
/// there is to say of it.
pub fn opened(
    alloc: Global,
    given: &Given,
    limit: u64,
    accepted: Accepted,
) -> Result<AnyStore, Failure>
    ensures ok { IfOk result (λ o. (n : ℕ) × Opens accepted given.now.store.items
        given.now.password o.safe.contents o.safe.keys n × (n ≤ limit)) }
    ensures err { IfErr result
        (λ f. FailsToOpen accepted given.now.store.items given.now.password limit f.ending) }
{
    let store = given.store.as_slice();
    match opened_by(alloc, store, &given.password, limit, accepted) {
        Ok(opened) => Ok(opened),
        Err(failure) => {
            let tried = Attempt {
                store,
                password: &given.password,
                limit,
                accepted,
            };
            Err(with_detail(alloc, failure, &tried))
        }
    }
}
