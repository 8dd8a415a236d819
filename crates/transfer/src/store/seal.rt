//! Sealing private keys anew, under octets that are drawn.
ghost use Rattle.std.specs.Io.KnownBytes.{Consumes};
ghost use Rattle.std.specs.Prelude.{◌≡◌, ◌≤◌, ◌<◌, ◌*◌, ◌^◌, ◌++◌, ℕ, List, All, length, IfOk, IfErr, OnOk};
ghost use Rattle.std.specs.Result.{IsErrOf};
ghost use Rattle.octet_core.specs.Draw.{Lacks};
ghost use Rattle.pkcs8.specs.declared.error.Error.TheVariants as errors;
ghost use Rattle.transfer.specs.Limits.{rounds_limit};
ghost use Rattle.transfer.specs.Document.{IsDocument, document_key};
ghost use Rattle.transfer.specs.InPlace.{IsOpenedKey, texts_of};
ghost use Rattle.transfer.specs.Opening.{IsStoredKey};
ghost use Rattle.sealing_core.specs.Drawn.{AreOf16, octets_of};
ghost use Rattle.transfer.specs.Sealing.{AreDrawn, SealsAll, document_keys};
ghost use Rattle.transfer.specs.TransferError.{RefusedBy};

use crate::store::error::TransferError;
use crate::store::key_text::{OpenedKey, opened_key};
use asn1_core::{Items, Octets};
use mac_modes::Draw;
use octet_core::laws::are_octets;
use pkcs5::pbes2::{EncryptionKey, Parameters};
use pkcs8::{Error, private_keys_are_written, short_keys_are_encrypted, written_keys_are_shortest};
use sealing_core::{DrawError, IvAndSalt, derive_keys, draw_each};
use std::alloc::{AllocError, Global};

/// The refusal to seal a key of a short text, which is running out of memory.
fn refusal_of(error: Error) -> TransferError
    requires { error ≡ errors.Memory }
    ensures { result ≡ TransferError.Memory }
{
    match error {
        Error::Memory => TransferError::Memory,
        Error::Asn1(_)
        | Error::EncryptedPrivateKey(_)
        | Error::KeyMalformed(_)
        | Error::ParametersMalformed
        | Error::PublicKey(_) => unreachable!(),
    }
}

/// Draws for this number of documents, in order.
fn draw_all<D: Draw>(
    alloc: Global,
    number: usize,
    draw: &mut D,
) -> Result<Items<IvAndSalt>, TransferError>
    ensures count { D.faults draw.old ≤ D.faults draw.new }
    ensures no_fault { OnOk result (D.faults draw.new ≡ D.faults draw.old) }
    ensures last { D.faults draw.old < D.faults draw.new → IsErrOf result TransferError.Rng }
    ensures lengths { IfOk result (λ drawn. All AreOf16 drawn × (length drawn ≡ number)) }
    ensures drawn { IfOk result
        (λ drawn. Consumes (D.left draw.old) (D.left draw.new) (octets_of drawn)) }
    ensures cause { IfErr result
        (RefusedBy (λ e. ⊥) (Lacks (D.faults draw.old) (D.faults draw.new) (D.left draw.old)
        (32 * number))) }
{
    match draw_each(alloc, number, draw) {
        Ok(drawn) => Ok(drawn),
        Err(DrawError::Rng) => Err(TransferError::Rng),
        Err(DrawError::Memory) => Err(TransferError::Memory),
    }
}

/// The document of a key under the key that was derived for it. The only refusal is `Memory`.
fn seal(
    alloc: Global,
    opened: &OpenedKey<'_>,
    rounds: u32,
    drawn: &IvAndSalt,
    derived: &EncryptionKey,
) -> Result<Octets, TransferError>
    requires key { IsOpenedKey opened.now }
    requires rounds { (1 ≤ rounds) × (rounds ≤ rounds_limit) }
    requires drawn { AreOf16 drawn.now }
    requires derived { (q : List ℕ) × (derived.now ≡ document_key rounds drawn.now.salt q) }
    ensures ok { IfOk result
        (λ document. (q : List ℕ) → derived.now ≡ document_key rounds drawn.now.salt q
        → IsDocument document rounds drawn.now.iv drawn.now.salt q opened.now.text.now) }
    ensures err { IfErr result (λ e. e ≡ TransferError.Memory) }
{
    let key = &opened.key;
    private_keys_are_written(key);
    written_keys_are_shortest();
    short_keys_are_encrypted(key);
    let salt = drawn.salt.as_bytes();
    let Ok(parameters) = Parameters::generate_pbkdf2_sha256_aes256cbc(rounds, salt, drawn.iv) else {
        unreachable!()
    };
    let document = match key.encrypt_with_key(alloc, parameters, derived) {
        Ok(document) => document,
        Err(error) => return Err(refusal_of(error)),
    };
    are_octets(document.as_bytes());
    Ok(Octets::from_slice(alloc, document.as_bytes())?)
}

/// The documents of keys, in order. The only refusal is `Memory`.
fn seal_each(
    alloc: Global,
    keys: &[OpenedKey<'_>],
    rounds: u32,
    drawn: &[IvAndSalt],
    derived: &[EncryptionKey],
) -> Result<Items<Octets>, TransferError>
    requires keys { All IsOpenedKey keys.now }
    requires rounds { (1 ≤ rounds) × (rounds ≤ rounds_limit) }
    requires drawn { All AreOf16 drawn.now × (length drawn.now ≡ length keys.now) }
    requires derived { (q : List ℕ) × (derived.now ≡ document_keys rounds q drawn.now) }
    ensures ok { IfOk result
        (λ documents. (q : List ℕ) → derived.now ≡ document_keys rounds q drawn.now
        → AreDrawn rounds q (texts_of keys.now) documents (octets_of drawn.now)) }
    ensures err { IfErr result (λ e. e ≡ TransferError.Memory) }
{
    let mut documents = Items::new(alloc);
    for index in 0..keys.len() {
        let document = seal(alloc, &keys[index], rounds, &drawn[index], &derived[index])?;
        documents.push(document)?;
    }
    Ok(documents)
}

/// Seals these keys, in order, under the octets of a draw, 32 for each. All of these are drawn before a key is sealed.
fn seal_group<D: Draw>(
    alloc: Global,
    keys: &[OpenedKey<'_>],
    new_password: &[u8],
    rounds: u32,
    draw: &mut D,
) -> Result<Items<Octets>, TransferError>
    requires keys { All IsOpenedKey keys.now }
    requires rounds { (1 ≤ rounds) × (rounds ≤ rounds_limit) }
    ensures count { D.faults draw.old ≤ D.faults draw.new }
    ensures no_fault { OnOk result (D.faults draw.new ≡ D.faults draw.old) }
    ensures last { D.faults draw.old < D.faults draw.new → IsErrOf result TransferError.Rng }
    ensures sealed { IfOk result (λ documents. SealsAll rounds new_password.now (D.left draw.old)
        (D.left draw.new) (texts_of keys.now) documents) }
    ensures cause { IfErr result
        (RefusedBy (λ e. ⊥) (Lacks (D.faults draw.old) (D.faults draw.new) (D.left draw.old)
        (32 * length keys.now))) }
{
    let drawn = draw_all(alloc, keys.len(), draw)?;
    let derived = derive_keys(alloc, new_password, rounds, drawn.as_slice())?;
    seal_each(alloc, keys, rounds, drawn.as_slice(), derived.as_slice())
}

/// Adds documents after others. The only refusal is `Memory`.
fn add_documents(documents: &mut Items<Octets>, more: Items<Octets>) -> Result<(), TransferError>
    ensures ok { OnOk result (documents.new ≡ documents.old ++ more) }
    ensures err { IfErr result (λ e. e ≡ TransferError.Memory) }
{
    for document in more.into_vec() {
        documents.push(document)?;
    }
    Ok(())
}

/// How many keys are sealed at once: as many as are derived at once.
const GROUP: usize = 4;

/// The private keys of these texts, each beside its text.
fn read_keys(alloc: Global, texts: &[Octets]) -> Result<Items<OpenedKey<'_>>, AllocError>
    requires { All IsStoredKey texts.now }
    ensures keys { IfOk result (λ keys. All IsOpenedKey keys) }
    ensures texts { IfOk result (λ keys. texts_of keys ≡ texts.now) }
{
    let mut keys = Items::new(alloc);
    for text in texts {
        match opened_key(text.as_slice()) {
            Some(key) => keys.push(key)?,
            None => unreachable!(),
        }
    }
    Ok(keys)
}

/// Seals the private keys of these texts, in order, under the octets of a draw, 32 for each. The octets of each group of keys are drawn
/// just before it is sealed, so a draw can tell how far the work is.
pub(crate) fn seal_all<D: Draw>(
    alloc: Global,
    texts: &[Octets],
    new_password: &[u8],
    rounds: u32,
    draw: &mut D,
) -> Result<Items<Octets>, TransferError>
    requires texts { All IsStoredKey texts.now }
    requires rounds { (1 ≤ rounds) × (rounds ≤ rounds_limit) }
    ensures count { D.faults draw.old ≤ D.faults draw.new }
    ensures no_fault { OnOk result (D.faults draw.new ≡ D.faults draw.old) }
    ensures last { D.faults draw.old < D.faults draw.new → IsErrOf result TransferError.Rng }
    ensures sealed { IfOk result (λ documents. SealsAll rounds new_password.now (D.left draw.old)
        (D.left draw.new) texts.now documents) }
    ensures cause { IfErr result
        (RefusedBy (λ e. ⊥) (Lacks (D.faults draw.old) (D.faults draw.new) (D.left draw.old)
        (32 * length texts.now))) }
{
    let mut documents = Items::new(alloc);
    for group in texts.chunks(GROUP) {
        let keys = read_keys(alloc, group)?;
        let sealed = seal_group(alloc, keys.as_slice(), new_password, rounds, draw)?;
        add_documents(&mut documents, sealed)?;
    }
    Ok(documents)
}
