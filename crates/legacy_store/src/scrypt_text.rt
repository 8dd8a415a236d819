//! Opening texts under PBES2 with scrypt (RFC 7914; RFC 8018 section 6.2), within a bound on memory.
ghost use Rattle.std.specs.Prelude.{◌≡◌, ◌+◌, ◌≤◌, length, take, IfOk, IfSome, IfNone, OnOk, Some, None, true};
ghost use Rattle.pkcs5.specs.Kinds.{key_size};
ghost use Rattle.pkcs5.specs.Opening.{opened, states_length};
ghost use Rattle.legacy_store.specs.Scrypt.{scrypt_cores, scrypt_fits, scrypt_memory, scrypt_opens, scrypt_steps};

use crate::limits::SCRYPT_MEMORY_LIMIT;
use asn1_core::Octets;
use pkcs5::Error;
use pkcs5::pbes2::{Kdf, Parameters, ScryptParams};
use scrypt_core::Params;
use std::alloc::{AllocError, Global};
use std::sync::ledger::Ledger;
use steps::Steps;

/// The most octets of memory that scrypt takes under these parameters.
fn memory(params: &ScryptParams) -> u128
    ensures { result ≡ scrypt_memory params.now }
{
    let block_size = u128::from(params.block_size);
    let turns = u128::from(params.cost_parameter);
    let pieces = u128::from(params.parallelization);
    128 * (block_size * turns) + 256 * (block_size * pieces)
}

/// Whether scrypt takes these costs, within the bound on memory.
fn fits(params: &ScryptParams) -> bool
    ensures { result ≡ scrypt_fits params.now }
{
    match Params::try_from(params) {
        Ok(_costs) => memory(params) <= SCRYPT_MEMORY_LIMIT,
        Err(_) => false,
    }
}

/// Whether a length of the key that is stated is the cipher's.
fn states_key(parameters: &Parameters) -> bool
    ensures { result ≡ states_length parameters.now.kdf (key_size parameters.now.encryption) }
{
    match parameters.kdf.key_length() {
        Some(stated) => usize::from(stated) == parameters.encryption.key_size(),
        None => true,
    }
}

/// Whether texts are opened under these parameters: the function is scrypt, a length of the key that is stated is the cipher's, and scrypt
/// takes the costs within `SCRYPT_MEMORY_LIMIT` octets of memory (RFC 7914 sections 5 and 6).
#[tactic(auto, unfolding(crate::specs::Scrypt::scrypt_derives))]
pub fn is_openable(parameters: &Parameters) -> bool
    ensures { result ≡ scrypt_opens parameters.now }
{
    match &parameters.kdf {
        Kdf::Pbkdf2(_) => false,
        Kdf::Scrypt(params) => states_key(parameters) && fits(params),
    }
}

/// How many Salsa20/8 cores scrypt computes: 2 * r in each of the 2 * N times that it mixes each of the p pieces.
fn cores(params: &ScryptParams) -> u128
    ensures { result ≡ scrypt_cores params.now }
{
    let turns = u128::from(params.cost_parameter);
    let block_size = u128::from(params.block_size);
    let pieces = u128::from(params.parallelization);
    4 * (turns * (block_size * pieces))
}

/// The steps of opening a text: one for each Salsa20/8 core that scrypt computes, and none under PBKDF2.
#[tactic(auto, unfolding(crate::specs::Scrypt::scrypt_steps))]
pub fn cost(parameters: &Parameters) -> u128
    ensures { result ≡ scrypt_steps parameters.now.kdf }
{
    match &parameters.kdf {
        Kdf::Pbkdf2(_) => 0,
        Kdf::Scrypt(params) => cores(params),
    }
}

/// Counts so many steps.
fn count_steps<L: Ledger>(number: u128, steps: &mut Steps<L>)
    ensures { steps.new ≡ steps.old + number }
{
    for _step in 0..number {
        steps.tick();
    }
}

/// Opens a text in place, and returns the length of the plain octets, which then are in its front. None where the ciphertext opens to none.
/// The only error is out of memory.
fn open_in_place<L: Ledger>(
    alloc: Global,
    parameters: &Parameters,
    password: &[u8],
    buffer: &mut [u8],
    steps: &mut Steps<L>,
) -> Result<Option<usize>, AllocError>
    requires { scrypt_opens parameters.now ≡ true }
    ensures some { IfOk result (λ m. IfSome m (λ n. (n ≤ length buffer.new)
        × (opened parameters.now password.now buffer.old ≡ Some (take n buffer.new)))) }
    ensures none { IfOk result
        (λ m. IfNone m (opened parameters.now password.now buffer.old ≡ None)) }
    ensures steps { OnOk result (steps.new ≡ steps.old + scrypt_steps parameters.now.kdf) }
    ensures at_most { (steps.old ≤ steps.new)
        × (steps.new ≤ steps.old + scrypt_steps parameters.now.kdf) }
{
    count_steps(cost(parameters), steps);
    match parameters.decrypt_in_place_len(alloc, password, buffer) {
        Ok(len) => Ok(Some(len)),
        Err(Error::DecryptFailed) => Ok(None),
        // The parameters were judged, so this is out of memory.
        Err(_) => Err(AllocError),
    }
}

/// The text, in memory of its own. None where the ciphertext opens to none. The only error is out of memory.
pub(crate) fn opened_scrypt<L: Ledger>(
    alloc: Global,
    parameters: &Parameters,
    ciphertext: &[u8],
    password: &[u8],
    steps: &mut Steps<L>,
) -> Result<Option<Octets>, AllocError>
    requires { scrypt_opens parameters.now ≡ true }
    ensures value { IfOk result (λ m. m ≡ opened parameters.now password.now ciphertext.now) }
    ensures short { IfOk result (λ m. IfSome m (λ text. length text ≤ length ciphertext.now)) }
    ensures steps { OnOk result (steps.new ≡ steps.old + scrypt_steps parameters.now.kdf) }
    ensures at_most { (steps.old ≤ steps.new)
        × (steps.new ≤ steps.old + scrypt_steps parameters.now.kdf) }
{
    let mut text = Octets::from_slice(alloc, ciphertext)?;
    match open_in_place(alloc, parameters, password, text.as_mut_slice(), steps)? {
        Some(len) => {
            text.truncate(len);
            Ok(Some(text))
        }
        None => Ok(None),
    }
}
