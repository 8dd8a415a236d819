//! Making and testing password hashes.
ghost use Rattle.std.specs.Prelude.{◌≡◌, ◌≤◌, ◌<◌, ◌^◌, ◌↔◌, ℕ, List, length, IfErr, IfSome, IsErr, MatchResult, OnOk};
ghost use Rattle.std.specs.Io.KnownBytes.{Consumes, Keeps};
ghost use Rattle.std.specs.Result.{IsErrOf};
ghost use Rattle.octet_core.specs.Faults.{HasCause};
ghost use Rattle.pbkdf2.specs.Algorithm.{derived};
ghost use Rattle.pbkdf2.specs.Hashes.{hash_of, Customizes, HasSettings, RefusesSettings, Verifies};

use crate::algorithm::Algorithm;
use crate::hasher::Pbkdf2;
use crate::params::Params;
use crate::with_hmac::pbkdf2_hmac_with_params;
use mac_modes::Draw;
use phc_core::{
    CustomizedPasswordHasher, Decimal, Error, Ident, Output, ParamsString, PasswordHash,
    PasswordHasher, PasswordVerifier, Salt,
};

/// The output of a password under a salt.
#[tactic(auto, using(crate::proofs::Counts::few_blocks))]
fn output_of(algorithm: Algorithm, params: Params, password: &[u8], salt: &[u8]) -> Output
    ensures { result ≡ derived algorithm password.now salt.now params.rounds params.output_len }
{
    let mut octets = [0u8; 64];
    let len = params.output_len();
    pbkdf2_hmac_with_params(password, salt, algorithm, params, &mut octets[..len]);
    let Ok(output) = Output::new(&octets[..len]) else {
        unreachable!();
    };
    output
}

/// The hash of a password under a salt.
fn hash_with(algorithm: Algorithm, params: Params, password: &[u8], salt: Salt) -> PasswordHash
    ensures { result ≡ hash_of algorithm params password.now salt }
{
    let Ok(text) = ParamsString::try_from(params) else {
        unreachable!();
    };
    PasswordHash {
        algorithm: Ident::from(algorithm),
        version: None,
        params: text,
        salt: Some(salt),
        hash: Some(output_of(algorithm, params, password, salt.as_ref())),
    }
}

impl CustomizedPasswordHasher<PasswordHash> for Pbkdf2 {
    type Params = Params;

    ghost customizes = { λ h q salt id version s r. Customizes h.algorithm q salt id version s r };

    /// The hash of a password under a salt and these parameters, by the algorithm of this identifier, or by the hasher's
    /// own. `Algorithm` exactly where the identifier is there and names none; then `Version` exactly where a version is
    /// there; then `SaltInvalid` exactly where the salt has fewer than 8 or more than 48 octets.
    fn hash_password_customized(
        &self,
        password: &[u8],
        salt: &[u8],
        alg_id: Option<&str>,
        version: Option<Decimal>,
        params: Params,
    ) -> Result<PasswordHash, Error> {
        let algorithm = match alg_id {
            Some(id) => Algorithm::new(id)?,
            None => self.algorithm,
        };
        if version.is_some() {
            return Err(Error::Version);
        }
        match Salt::new(salt) {
            Ok(salt) => Ok(hash_with(algorithm, params, password, salt)),
            Err(refused) => Err(refused),
        }
    }
}

impl PasswordHasher<PasswordHash> for Pbkdf2 {
    ghost use Rattle.std.specs.Prelude.{None};

    ghost hashes = { λ h q salt r. Customizes h.algorithm q salt None None h.params r };

    /// The hash of a password under a salt, by the hasher's algorithm and parameters. `SaltInvalid` exactly where the salt
    /// has fewer than 8 or more than 48 octets.
    fn hash_password_with_salt(&self, password: &[u8], salt: &[u8]) -> Result<PasswordHash, Error> {
        self.hash_password_customized(password, salt, None, None, self.params)
    }
}

impl Pbkdf2 {
    /// The hash of a password under a salt of 16 octets that are drawn, by the hasher's algorithm and parameters. `Rng`
    /// only where the draw failed: where its count of faults rose, or is at its last value; over a draw that tells
    /// its octets exactly where fewer than 16 remain, and none is taken then.
    pub fn hash_password<D: Draw>(
        &self,
        draw: &mut D,
        password: &[u8],
    ) -> Result<PasswordHash, Error>
        ensures drawn { MatchResult result
            (λ h. (salt : List ℕ)
            × ((length salt ≡ 16) × Consumes (D.left draw.old) (D.left draw.new) salt
            × (h ≡ hash_of self.now.algorithm self.now.params password.now salt)))
            (λ e. (e ≡ Error.Rng) × Keeps (D.left draw.old) (D.left draw.new)) }
        ensures short { IfSome (D.left draw.old) (λ left. IsErr result ↔ (length left < 16)) }
        ensures cause { HasCause (D.faults draw.old) (D.faults draw.new) result }
        ensures no_fault { OnOk result (D.faults draw.new ≡ D.faults draw.old) }
        ensures last { D.faults draw.old < D.faults draw.new → IsErrOf result Error.Rng }
    {
        let mut octets = [0u8; 16];
        if draw.fill(&mut octets).is_err() {
            return Err(Error::Rng);
        }
        let Ok(salt) = Salt::new(&octets) else {
            unreachable!();
        };
        Ok(hash_with(self.algorithm, self.params, password, salt))
    }
}

impl<'a> TryFrom<&'a PasswordHash> for Params {
    type Error = Error;

    ghost try_from_gives = { λ h r. MatchResult r (HasSettings h.now) (RefusesSettings h.now) };

    /// The parameters of a hash. `Version` exactly where there is a version; then the refusals of its parameter list; then
    /// `OutputSize` exactly where it has an output of another length than the parameters say.
    fn try_from(hash: &'a PasswordHash) -> Result<Self, Error> {
        if hash.version.is_some() {
            return Err(Error::Version);
        }
        let params = match Params::try_from(&hash.params) {
            Ok(params) => params,
            Err(refused) => return Err(refused),
        };
        if let Some(output) = &hash.hash {
            if output.len() != params.output_len() {
                return Err(Error::OutputSize);
            }
        }
        Ok(params)
    }
}

impl PasswordVerifier<PasswordHash> for Pbkdf2 {
    ghost verifies = { λ _ q h r. Verifies q h r };

    /// Whether this is the password of the hash, by the algorithm and parameters of the hash. `PasswordInvalid` where it
    /// has no salt or no output; then the refusals of its parameters; then `Algorithm` exactly where its identifier names
    /// none; then `PasswordInvalid` exactly where the outputs differ.
    fn verify_password(&self, password: &[u8], hash: &PasswordHash) -> Result<(), Error> {
        let Some(salt) = hash.salt else {
            return Err(Error::PasswordInvalid);
        };
        let Some(expected) = hash.hash else {
            return Err(Error::PasswordInvalid);
        };
        let params = Params::try_from(hash)?;
        let algorithm = Algorithm::new(hash.algorithm.as_str())?;
        if output_of(algorithm, params, password, salt.as_ref()) != expected {
            return Err(Error::PasswordInvalid);
        }
        Ok(())
    }
}
