//! Entries.
ghost use Rattle.std.specs.Prelude.{◌≡◌, ◌≤◌, ◌+◌, ◌*◌, length, MatchOption, IfOk, IfErr};
ghost use Rattle.passdb_core.specs.Entry.{Entry, IsEntry, entry_text, fresh, phc_of, right, rounds_limit, test_steps};
ghost use Rattle.pbkdf2.specs.Algorithm.{derived, output_of};
ghost use Rattle.pbkdf2.specs.Pbkdf2.{block_count};
ghost use Rattle.phc_core.specs.PasswordHash.{Phc, phc_text};

use mac_modes::{Sha256, Sha512};
use octet_core::Text;
use pbkdf2::{Algorithm, Params, pbkdf2_hmac_counted};
use phc_core::{Error, Ident, Output, ParamsString, PasswordHash, Salt};
use std::alloc::Global;
use std::marker::Model;
use std::sync::ledger::Ledger;
use steps::Steps;

/// The most rounds of an entry, and so of fresh ones.
pub const ROUNDS_LIMIT: u32 = 10_000_000;

/// An entry of a password file: a password hash by an algorithm of PBKDF2, with salt and hash.
#[derive(Clone, Copy)]
pub(crate) struct Entry {
    algorithm: Algorithm,
    params: Params,
    written: ParamsString,
    salt: Salt,
    hash: Output,
}

impl Model for Entry {
    ghost use Rattle.passdb_core.specs.Entry as entry;

    ghost Value = { entry.Entry };

    ghost view = { λ e. record {
      method = e.algorithm;
      settings = e.params;
      params = e.written;
      salt = e.salt;
      hash = e.hash;
    } };

    ghost invariant = { λ e. entry.IsEntry
        (record {
          method = e.algorithm;
          settings = e.params;
          params = e.written;
          salt = e.salt;
          hash = e.hash;
        }) };

    ghost inverse = { λ e. record {
      algorithm = e.method;
      params = e.settings;
      written = e.params;
      salt = e.salt;
      hash = e.hash;
    } };
}

/// Fills `out` with what is derived from a password and a salt.
fn derive<L: Ledger>(
    algorithm: Algorithm,
    password: &[u8],
    salt: &[u8],
    rounds: u32,
    out: &mut [u8],
    steps: &mut Steps<L>,
)
    requires some { 1 ≤ rounds }
    requires short { length out.old ≤ 64 }
    ensures value { out.new ≡ derived algorithm password.now salt.now rounds (length out.old) }
    ensures steps { steps.new ≡ steps.old + rounds * block_count (length out.old)
        (output_of algorithm) }
{
    match algorithm {
        Algorithm::Pbkdf2Sha256 => {
            pbkdf2_hmac_counted::<Sha256, L>(password, salt, rounds, out, steps)
        }
        Algorithm::Pbkdf2Sha512 => {
            pbkdf2_hmac_counted::<Sha512, L>(password, salt, rounds, out, steps)
        }
    }
}

impl Entry {
    /// The entry of a password hash; `None` exactly where the hash is not one of an entry: with
    /// salt and hash, by an algorithm of PBKDF2, with parameters that it accepts and at most
    /// `ROUNDS_LIMIT` rounds.
    fn of(phc: &PasswordHash) -> Option<Entry>
        requires { Phc (phc_text phc.now) phc.now }
        ensures { MatchOption result ((e : Entry) → IsEntry e → phc.now ≡ phc_of e → ⊥)
            (λ e. IsEntry e × (phc.now ≡ phc_of e)) }
    {
        let Some(salt) = phc.salt else {
            return None;
        };
        let Some(hash) = phc.hash else {
            return None;
        };
        let Ok(algorithm) = Algorithm::new(phc.algorithm.as_str()) else {
            return None;
        };
        let Ok(params) = Params::try_from(phc) else {
            return None;
        };
        if params.rounds() > ROUNDS_LIMIT {
            return None;
        }
        Some(Entry {
            algorithm,
            params,
            written: phc.params,
            salt,
            hash,
        })
    }

    /// The entry that the text is; `None` exactly where it is not an entry.
    pub(crate) fn read(text: &str) -> Option<Entry>
        ensures { MatchOption result ((e : Entry) → IsEntry e → text.now ≡ entry_text e → ⊥)
            (λ e. IsEntry e × (text.now ≡ entry_text e)) }
    {
        let Ok(phc) = PasswordHash::new(text) else {
            return None;
        };
        Entry::of(&phc)
    }

    /// The fresh entry of a password under a salt.
    pub(crate) fn fresh<L: Ledger>(
        rounds: u32,
        password: &[u8],
        salt: &[u8; 16],
        steps: &mut Steps<L>,
    ) -> Entry
        requires some { 1000 ≤ rounds }
        requires few { rounds ≤ rounds_limit }
        ensures value { result ≡ fresh rounds password.now salt.now }
        ensures is { IsEntry result }
        ensures steps { steps.new ≡ steps.old + rounds }
    {
        let Ok(params) = Params::new(rounds) else {
            unreachable!();
        };
        let Ok(written) = ParamsString::try_from(params) else {
            unreachable!();
        };
        let Ok(kept) = Salt::new(salt) else {
            unreachable!();
        };
        let mut octets = [0u8; 32];
        derive(
            Algorithm::Pbkdf2Sha256,
            password,
            salt,
            rounds,
            &mut octets,
            steps,
        );
        let Ok(hash) = Output::new(&octets) else {
            unreachable!();
        };
        Entry {
            algorithm: Algorithm::Pbkdf2Sha256,
            params,
            written,
            salt: kept,
            hash,
        }
    }

    /// The rounds.
    pub(crate) fn rounds(&self) -> u32
        ensures value { result ≡ self.now.settings.rounds }
        ensures few { result ≤ rounds_limit }
    {
        self.params.rounds()
    }

    /// Whether this is the password of the entry.
    #[tactic(auto, unfolding(crate::specs::Entry::right))]
    pub(crate) fn is_right<L: Ledger>(&self, password: &[u8], steps: &mut Steps<L>) -> bool
        ensures value { result ≡ right self.now password.now }
        ensures steps { steps.new ≡ steps.old + test_steps self.now }
        ensures few { test_steps self.now ≤ 2 * rounds_limit }
    {
        let mut octets = [0u8; 64];
        let size = self.params.output_len();
        let rounds = self.params.rounds();
        derive(
            self.algorithm,
            password,
            self.salt.as_ref(),
            rounds,
            &mut octets[..size],
            steps,
        );
        &octets[..size] == self.hash.as_ref()
    }

    /// The entry's text. The only error is out of memory.
    pub(crate) fn to_text(&self, alloc: Global) -> Result<Text, Error>
        ensures is { IsEntry self.now }
        ensures ok { IfOk result (λ t. t ≡ entry_text self.now) }
        ensures err { IfErr result (λ e. e ≡ Error.Memory) }
    {
        let phc = PasswordHash {
            algorithm: Ident::from(self.algorithm),
            version: None,
            params: self.written,
            salt: Some(self.salt),
            hash: Some(self.hash),
        };
        phc.to_text(alloc)
    }
}
