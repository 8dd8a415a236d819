//! A store that is made of PEM texts over random octets that are given.
ghost use Rattle.std.specs.Prelude.{◌≡◌, ◌≤◌, ◌<◌, ◌^◌, length, IfOk, IfErr};
ghost use Rattle.pkcs12_c.specs.Created.{CreatesDrawn, IsMade, IsRefusedCreation, RefusesToMake, asked_by};

use crate::password::Password;
use asn1_core::Octets;
use create_core::laws::created_stores_open;
use create_core::{CreateError, create};
use mac_modes::DrawnBytes;
use pem_stores::{KeyOpening, PemTexts, TextEntries, TextRefusal, entries_of_texts};
use std::alloc::Global;

/// What a store is made of, and how.
#[derive(Clone, Copy)]
pub struct Creation<'a> {
    pub texts: PemTexts<'a>,
    /// How a private key that is encrypted is opened.
    pub opening: KeyOpening<'a>,
    /// The password of the store.
    pub password: Password<'a>,
    /// Its rounds.
    pub rounds: u32,
}

/// Why no store is made.
#[derive(Clone, Copy)]
pub enum CreationRefusal {
    /// The texts give nothing that it is made of.
    Texts(TextRefusal),
    /// None is made of what they give.
    Making(CreateError),
}

/// The store of these entries.
fn made(
    alloc: Global,
    creation: &Creation<'_>,
    entries: &TextEntries,
    random: &[u8],
) -> Result<Octets, CreateError>
    requires rounds { 1 ≤ creation.now.rounds }
    requires password { length creation.now.password.text.now < 2 ^ 56 }
    ensures made { IfOk result (IsMade (asked_by creation.now) entries.now random.now) }
    ensures refused { IfErr result
        (RefusesToMake (asked_by creation.now) entries.now random.now) }
{
    let octets = Octets::from_slice(alloc, random)?;
    let mut draw = DrawnBytes::new(octets);
    created_stores_open();
    create(
        alloc,
        entries.keys.as_slice(),
        entries.further.certificates.as_slice(),
        creation.password.text,
        creation.rounds,
        &mut draw,
    )
}

/// The store that is asked for, made over these random octets.
///
/// Caller: at least one round, and a password of fewer than 2^56 octets.
pub fn created(
    alloc: Global,
    creation: &Creation<'_>,
    random: &[u8],
) -> Result<Octets, CreationRefusal>
    requires rounds { 1 ≤ creation.now.rounds }
    requires password { length creation.now.password.text.now < 2 ^ 56 }
    ensures created { IfOk result (CreatesDrawn (asked_by creation.now) random.now) }
    ensures refused { IfErr result (IsRefusedCreation (asked_by creation.now) random.now) }
{
    let entries = match entries_of_texts(alloc, &creation.texts, creation.opening) {
        Ok(entries) => entries,
        Err(refusal) => return Err(CreationRefusal::Texts(refusal)),
    };
    match made(alloc, creation, &entries, random) {
        Ok(text) => Ok(text),
        Err(error) => Err(CreationRefusal::Making(error)),
    }
}
