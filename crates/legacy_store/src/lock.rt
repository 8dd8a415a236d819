//! Locked texts of old stores.
ghost use Rattle.std.specs.Prelude.{◌≡◌, ◌+◌, ◌≤◌, ◌<◌, ◌^◌, length, IfOk, IfErr, IfSome, OnOk, Some, true};
ghost use Rattle.p12.specs.AlgorithmIdentifier.{salt_of};
ghost use Rattle.transfer.specs.Opening.{RefusedAfter};
ghost use Rattle.legacy_store.specs.Algorithm.{legacy_cost, legacy_unlock, p12_taken, p12_unlock, scheme_cost, scheme_openable, scheme_salt, scheme_taken, scheme_unlock, seen_scheme};
ghost use Rattle.legacy_store.specs.Budget.{Spends, TakesWithin};
ghost use Rattle.legacy_store.specs.Forms.{seen_forms};
ghost use Rattle.legacy_store.specs.Opening.{LegacyLockFault, SchemeLockFault};

use crate::budget::Budget;
use crate::old_text::opened_old;
use crate::scheme::Scheme;
use crate::scrypt_text::opened_scrypt;
use crate::secret::Secret;
use asn1_core::Octets;
use p12::AlgorithmIdentifier;
use std::alloc::{AllocError, Global};
use std::sync::ledger::Ledger;
use steps::Steps;
use transfer::TransferError;

/// The plain octets of a ciphertext, as p12 opens it. The only error is out of memory.
#[tactic(auto, unfolding(crate::specs::Algorithm::p12_unlock, crate::specs::Algorithm::p12_taken))]
fn decrypt_own<L: Ledger>(
    alloc: Global,
    algorithm: &AlgorithmIdentifier,
    ciphertext: &[u8],
    secret: &Secret<'_>,
    steps: &mut Steps<L>,
) -> Result<Option<Octets>, AllocError>
    requires ciphertext { length ciphertext.now < 2 ^ 32 }
    requires salt { length (salt_of algorithm.now) < 2 ^ 59 }
    requires password { length secret.now.text.now < 2 ^ 57 }
    requires units { length secret.now.units.now < 2 ^ 59 }
    ensures value { IfOk result
        (λ m. m ≡ p12_unlock (seen_forms secret.now) algorithm.now ciphertext.now) }
    ensures short { IfOk result (λ m. IfSome m (λ text. length text ≤ length ciphertext.now)) }
    ensures steps { OnOk result (steps.new ≡ steps.old + p12_taken algorithm.now ciphertext.now) }
    ensures at_most { (steps.old ≤ steps.new)
        × (steps.new ≤ steps.old + p12_taken algorithm.now ciphertext.now) }
{
    match algorithm {
        AlgorithmIdentifier::PbeWithSHAAnd3KeyTripleDESCBC(_) => {
            match algorithm.decrypt_pbe_counted(alloc, ciphertext, secret.units, steps) {
                Ok(text) => Ok(text),
                Err(_) => Err(AllocError),
            }
        }
        AlgorithmIdentifier::Pbes2(_) => {
            match algorithm.decrypt_text_counted(alloc, ciphertext, secret.text, steps) {
                Ok(text) => Ok(text),
                Err(_) => Err(AllocError),
            }
        }
        AlgorithmIdentifier::Sha1
        | AlgorithmIdentifier::Sha256
        | AlgorithmIdentifier::PbewithSHAAnd40BitRC2CBC(_)
        | AlgorithmIdentifier::OtherAlg(_) => Ok(None),
    }
}

/// The plain octets of a ciphertext under a scheme that can be opened. The only error is out of memory.
#[tactic(auto, unfolding(crate::specs::Algorithm::scheme_openable, crate::specs::Algorithm::scheme_unlock, crate::specs::Algorithm::scheme_taken, crate::specs::Algorithm::scheme_salt))]
fn decrypt<L: Ledger>(
    alloc: Global,
    scheme: &Scheme<'_>,
    ciphertext: &[u8],
    secret: &Secret<'_>,
    steps: &mut Steps<L>,
) -> Result<Option<Octets>, AllocError>
    requires ciphertext { length ciphertext.now < 2 ^ 32 }
    requires openable { scheme_openable secret.now.has_mac (seen_scheme scheme.now) ≡ true }
    requires salt { length (scheme_salt (seen_scheme scheme.now)) < 2 ^ 59 }
    requires password { length secret.now.text.now < 2 ^ 57 }
    requires units { length secret.now.units.now < 2 ^ 59 }
    ensures value { IfOk result
        (λ m. m ≡ scheme_unlock (seen_forms secret.now) (seen_scheme scheme.now) ciphertext.now) }
    ensures short { IfOk result (λ m. IfSome m (λ text. length text ≤ length ciphertext.now)) }
    ensures steps { OnOk result
        (steps.new ≡ steps.old + scheme_taken (seen_scheme scheme.now) ciphertext.now) }
    ensures at_most { (steps.old ≤ steps.new)
        × (steps.new ≤ steps.old + scheme_taken (seen_scheme scheme.now) ciphertext.now) }
{
    match scheme {
        Scheme::Old(old) => opened_old(alloc, old, ciphertext, secret.units, steps),
        Scheme::Scrypt(parameters) => {
            opened_scrypt(alloc, parameters, ciphertext, secret.text.as_bytes(), steps)
        }
        Scheme::Own(algorithm) => decrypt_own(alloc, algorithm, ciphertext, secret, steps),
    }
}

/// Opens a text that is locked under a scheme, by its share of the budget.
fn open_scheme<L: Ledger>(
    alloc: Global,
    scheme: &Scheme<'_>,
    ciphertext: &[u8],
    secret: &Secret<'_>,
    budget: &mut Budget,
    steps: &mut Steps<L>,
) -> Result<Octets, TransferError>
    requires ciphertext { length ciphertext.now < 2 ^ 32 }
    requires salt { length (scheme_salt (seen_scheme scheme.now)) < 2 ^ 59 }
    requires password { length secret.now.text.now < 2 ^ 57 }
    requires units { length secret.now.units.now < 2 ^ 59 }
    ensures opened { IfOk result (λ m.
        (scheme_unlock (seen_forms secret.now) (seen_scheme scheme.now) ciphertext.now ≡ Some m)
        × Spends budget.old budget.new (scheme_cost (seen_scheme scheme.now))
        × (steps.new ≡ steps.old + scheme_cost (seen_scheme scheme.now))) }
    ensures short { IfOk result (λ m. length m ≤ length ciphertext.now) }
    ensures refused { IfErr result (RefusedAfter
        (SchemeLockFault (seen_forms secret.now) budget.old.limit budget.old.spent
        (seen_scheme scheme.now) ciphertext.now (λ _ _ _. ⊥)) steps.old steps.new) }
    ensures at_most { TakesWithin budget.old steps.old steps.new }
{
    if !scheme.is_openable(secret.has_mac) {
        return Err(TransferError::Unsupported);
    }
    if scheme.count() == 0 {
        return Err(TransferError::ZeroIterations);
    }
    budget.share(scheme.cost())?;
    match decrypt(alloc, scheme, ciphertext, secret, steps) {
        Ok(Some(text)) => Ok(text),
        Ok(None) => Err(TransferError::DecryptFailed),
        Err(_) => Err(TransferError::Memory),
    }
}

/// Opens a locked text, by its share of the budget.
pub(crate) fn open_text<L: Ledger>(
    alloc: Global,
    algorithm: &AlgorithmIdentifier,
    ciphertext: &[u8],
    secret: &Secret<'_>,
    budget: &mut Budget,
    steps: &mut Steps<L>,
) -> Result<Octets, TransferError>
    requires ciphertext { length ciphertext.now < 2 ^ 32 }
    requires salt { length (salt_of algorithm.now) < 2 ^ 59 }
    requires password { length secret.now.text.now < 2 ^ 57 }
    requires units { length secret.now.units.now < 2 ^ 59 }
    ensures opened { IfOk result (λ m.
        (legacy_unlock (seen_forms secret.now) algorithm.now ciphertext.now ≡ Some m)
        × Spends budget.old budget.new (legacy_cost algorithm.now)
        × (steps.new ≡ steps.old + legacy_cost algorithm.now)) }
    ensures short { IfOk result (λ m. length m ≤ length ciphertext.now) }
    ensures refused { IfErr result (RefusedAfter
        (LegacyLockFault (seen_forms secret.now) budget.old.limit budget.old.spent algorithm.now
        ciphertext.now (λ _ _ _. ⊥)) steps.old steps.new) }
    ensures at_most { TakesWithin budget.old steps.old steps.new }
{
    let scheme = Scheme::of(algorithm);
    open_scheme(alloc, &scheme, ciphertext, secret, budget, steps)
}
