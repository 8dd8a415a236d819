//! The store.
ghost use Rattle.std.specs.Prelude.{◌≡◌, ◌≤◌, ◌⊎◌, IfOk, IfErr, None};
ghost use Rattle.create_core.specs.Created.{DrawsAndCreates};

use crate::entries::Entries;
use asn1_core::Octets;
use create_core::{CreateError, create};
use octet_core::FileDraw;
use pkcs12_opening::{Ending, Failure, NewPassword, RANDOM};
use std::alloc::AllocError;
use std::rt::Files;
use transfer::TransferError;

/// What a store is made of, its password, and its rounds.
#[derive(Clone, Copy)]
pub struct Material<'a> {
    pub entries: &'a Entries,
    pub password: &'a NewPassword,
    /// From 1 to 100,000,000.
    pub rounds: u32,
    ghost rounds_fit: { (1 ≤ rounds) × (rounds ≤ 100000000) },
}

/// The failure that a refusal is.
fn failure(error: CreateError) -> Failure
    ensures { (result.ending ≡ Ending.Memory)
        ⊎ (result.ending ≡ Ending.Refused TransferError.KeyMalformed)
        ⊎ (result.ending ≡ Ending.Refused TransferError.Rng)
        ⊎ (result.ending ≡ Ending.Refused TransferError.TooLong) }
{
    match error {
        CreateError::Malformed => Failure::new(
            Ending::Refused(TransferError::KeyMalformed),
            "a private key is no PKCS#8 key",
        ),
        CreateError::Rng => Failure::new(
            Ending::Refused(TransferError::Rng),
            "the system gave no random octets",
        ),
        CreateError::TooLong => Failure::new(
            Ending::Refused(TransferError::TooLong),
            "the store would have more than 16,777,215 octets",
        )
        .advised("Give fewer certificates."),
        CreateError::Memory => Failure::from(AllocError),
    }
}

/// The text of the store, over the system's random octets.
pub fn created<R: Files + AllocGlobal>(rt: &R, material: &Material<'_>) -> Result<Octets, Failure>
    ensures { IfOk result (DrawsAndCreates material.now.entries.now.keys.items
        material.now.entries.now.certificates.items material.now.password.now material.now.rounds
        None None) }
{
    let mut draw = FileDraw::new(rt, RANDOM);
    let entries = material.entries;
    match create(
        rt.alloc(),
        entries.keys.as_slice(),
        entries.certificates.as_slice(),
        material.password.as_str(),
        material.rounds,
        &mut draw,
    ) {
        Ok(text) => Ok(text),
        Err(error) => Err(failure(error)),
    }
}
