//! The parameters of PBES2: the type, parameters from their parts and from drawn octets, decryption and encryption, and the
//! text.
ghost use Rattle.std.specs.Prelude.{◌≡◌, ◌+◌, ◌≤◌, ◌<◌, ◌⊎◌, length, take, drop, IfOk, IfErr, OnErr, OnOk, MatchResult, refl};
ghost use Rattle.std.specs.Result.{IsErrOf};
ghost use Rattle.asn1_core.specs.Gives.{Gives};
ghost use Rattle.spki.specs.Seen.{borrowed_any};
ghost use Rattle.octet_core.specs.Draw.{DrawsIvAndSalt, Lacks};
ghost use Rattle.pkcs5.specs.Error.{InvalidOf};
ghost use Rattle.pkcs5.specs.Identifiers.{pbkdf2_oid, scrypt_oid};
ghost use Rattle.pkcs5.specs.Kinds.{IsDes, IsScrypt, key_size};
ghost use Rattle.pkcs5.specs.Parameters.{ParametersOf, parameters_content, AreParameters, SpellsParameters};
ghost use Rattle.pkcs5.specs.ParametersLaws.{parameters_of-exact, parameters_canonical, parameters_spelled};
ghost use Rattle.pkcs5.specs.Alike.{alike};
ghost use Rattle.pkcs5.specs.SameLaws.{kdf_same, cipher_same, parameters_same};
ghost use Rattle.pkcs5.specs.declared.error.Error.TheVariants as errors;
ghost use Rattle.pkcs5.specs.declared.pbes2.encryption_scheme.EncryptionScheme.TheVariants.{Aes128Cbc, Aes128Gcm, Aes256Cbc, Aes256Gcm};
ghost use Rattle.pkcs5.specs.declared.pbes2.parameters.Parameters.{Parameters};
ghost use Rattle.pkcs5.specs.Reading.{parameters_of, parameters_in};
ghost use Rattle.pkcs5.specs.Generation.{RefusesScrypt, TakesScrypt, by_pbkdf2, pbkdf2_sha256, recommended, scrypt_with};
ghost use Rattle.pkcs5.specs.Opening.{FitsKey, IsBehind, Opens, OpensBy, ciphertext_size, opening_steps};
ghost use Rattle.pkcs5.specs.Refusals.{LeftUnopened, RefusedAfter, RefusesToEncryptIn, RefusesToOpenByRounds, RefusesToOpenIn, RefusesToOpenInPlace, RefusesToSeal, RefusesUnderIn};

use crate::error;
use crate::pbes2::cipher::{decrypt_under, encrypt_under};
use crate::pbes2::encryption_key::EncryptionKey;
use crate::pbes2::encryption_scheme::EncryptionScheme;
use crate::pbes2::kdf::Kdf;
use crate::pbes2::pbkdf2_params::Pbkdf2Params;
use crate::pbes2::pbkdf2_prf::Pbkdf2Prf;
use crate::pbes2::salt::Salt;
use crate::pbes2::scrypt_params::ScryptParams;
use asn1_core::{Error, Header, Length, Octets, Reader, SliceReader, Tag, Writer};
use der_core::{
    AnyRef, Canonical, Compared, Decode, DecodeValue, EncodeValue, FixedTag, Sequence, Spelled,
    pair_len, write_pair,
};
use mac_modes::Draw;
use spki::AlgorithmIdentifierRef;
use std::alloc::Global;
use std::sync::ledger::Ledger;
use steps::Steps;

/// The parameters of PBES2 (RFC 8018 appendix A.4).
///
/// ```text
/// PBES2-params ::= SEQUENCE {
///     keyDerivationFunc AlgorithmIdentifier {{PBES2-KDFs}},
///     encryptionScheme AlgorithmIdentifier {{PBES2-Encs}} }
/// ```
///
/// Salt and initialization vector are for one text alone: draw new ones for each.
#[derive(Clone, Copy, Debug, PartialEq, Eq, Drop)]
pub struct Parameters {
    /// The key derivation function.
    pub kdf: Kdf,
    /// The cipher.
    pub encryption: EncryptionScheme,
}

// ---- from drawn octets, and from parts

/// The rounds of PBKDF2 that `generate_pbkdf2` states.
const PBKDF2_ROUNDS: u32 = 600_000;

/// The turns of scrypt, 2^14, that are recommended.
const SCRYPT_COST: u64 = 16_384;

/// The block size of scrypt that is recommended.
const SCRYPT_BLOCK_SIZE: u16 = 8;

/// The pieces of scrypt that are recommended.
const SCRYPT_PARALLELIZATION: u16 = 1;

/// An initialization vector and a salt of 16 octets each.
struct Drawn {
    iv: [u8; 16],
    salt: [u8; 16],
}

/// Draws an initialization vector, and then a salt. `Rng` exactly where the draw fails.
fn draw_both<D: Draw>(draw: &mut D) -> error::Result<Drawn>
    ensures ok { IfOk result (λ d. DrawsIvAndSalt (D.left draw.old) (D.left draw.new)
        (λ iv salt. (d.iv ≡ iv) × (d.salt ≡ salt))) }
    ensures err { IfErr result (λ e. (e ≡ errors.Rng)
        × Lacks (D.faults draw.old) (D.faults draw.new) (D.left draw.old) 32) }
    ensures count { D.faults draw.old ≤ D.faults draw.new }
    ensures no_fault { OnOk result (D.faults draw.new ≡ D.faults draw.old) }
    ensures last { D.faults draw.old < D.faults draw.new → IsErrOf result errors.Rng }
{
    let mut iv = [0u8; 16];
    let mut salt = [0u8; 16];
    match draw.fill(&mut iv) {
        Ok(()) => {}
        Err(_) => return Err(error::Error::Rng),
    }
    match draw.fill(&mut salt) {
        Ok(()) => Ok(Drawn { iv, salt }),
        Err(_) => Err(error::Error::Rng),
    }
}

impl Parameters {
    /// What is recommended: `generate_recommended`. `Rng` as there.
    pub fn generate<D: Draw>(draw: &mut D) -> error::Result<Parameters>
        ensures ok { IfOk result (λ p. DrawsIvAndSalt (D.left draw.old) (D.left draw.new)
            (λ iv salt. p ≡ recommended iv salt)) }
        ensures err { IfErr result (λ e. (e ≡ errors.Rng)
            × Lacks (D.faults draw.old) (D.faults draw.new) (D.left draw.old) 32) }
        ensures count { D.faults draw.old ≤ D.faults draw.new }
        ensures no_fault { OnOk result (D.faults draw.new ≡ D.faults draw.old) }
        ensures last { D.faults draw.old < D.faults draw.new → IsErrOf result errors.Rng }
    {
        Parameters::generate_recommended(draw)
    }

    /// scrypt with 2^14 turns, blocks of 8 and one piece, and AES-256-CBC, as `generate_scrypt`. `Rng` as there.
    pub fn generate_recommended<D: Draw>(draw: &mut D) -> error::Result<Parameters>
        ensures ok { IfOk result (λ p. DrawsIvAndSalt (D.left draw.old) (D.left draw.new)
            (λ iv salt. p ≡ recommended iv salt)) }
        ensures err { IfErr result (λ e. (e ≡ errors.Rng)
            × Lacks (D.faults draw.old) (D.faults draw.new) (D.left draw.old) 32) }
        ensures count { D.faults draw.old ≤ D.faults draw.new }
        ensures no_fault { OnOk result (D.faults draw.new ≡ D.faults draw.old) }
        ensures last { D.faults draw.old < D.faults draw.new → IsErrOf result errors.Rng }
    {
        Parameters::generate_scrypt(draw)
    }

    /// PBKDF2 over HMAC-SHA-256 in 600,000 rounds, and AES-256-CBC. The initialization vector is the next 16 octets
    /// of the draw, and the salt the 16 after it. `Rng` exactly where the draw fails: over one that tells its
    /// octets, where fewer than 32 remain.
    pub fn generate_pbkdf2<D: Draw>(draw: &mut D) -> error::Result<Parameters>
        ensures ok { IfOk result (λ p. DrawsIvAndSalt (D.left draw.old) (D.left draw.new)
            (λ iv salt. p ≡ by_pbkdf2 iv salt)) }
        ensures err { IfErr result (λ e. (e ≡ errors.Rng)
            × Lacks (D.faults draw.old) (D.faults draw.new) (D.left draw.old) 32) }
        ensures count { D.faults draw.old ≤ D.faults draw.new }
        ensures no_fault { OnOk result (D.faults draw.new ≡ D.faults draw.old) }
        ensures last { D.faults draw.old < D.faults draw.new → IsErrOf result errors.Rng }
    {
        let Drawn { iv, salt } = draw_both(draw)?;
        Ok(Parameters {
            kdf: Kdf::Pbkdf2(Pbkdf2Params {
                salt: Salt::of_16(&salt),
                iteration_count: PBKDF2_ROUNDS,
                key_length: None,
                prf: Pbkdf2Prf::HmacWithSha256,
            }),
            encryption: EncryptionScheme::Aes256Cbc { iv },
        })
    }

    /// scrypt with 2^14 turns, blocks of 8 and one piece, and AES-256-CBC. The initialization vector is the next 16
    /// octets of the draw, and the salt the 16 after it. `Rng` exactly where the draw fails: over one that tells its
    /// octets, where fewer than 32 remain.
    pub fn generate_scrypt<D: Draw>(draw: &mut D) -> error::Result<Parameters>
        ensures ok { IfOk result (λ p. DrawsIvAndSalt (D.left draw.old) (D.left draw.new)
            (λ iv salt. p ≡ recommended iv salt)) }
        ensures err { IfErr result (λ e. (e ≡ errors.Rng)
            × Lacks (D.faults draw.old) (D.faults draw.new) (D.left draw.old) 32) }
        ensures count { D.faults draw.old ≤ D.faults draw.new }
        ensures no_fault { OnOk result (D.faults draw.new ≡ D.faults draw.old) }
        ensures last { D.faults draw.old < D.faults draw.new → IsErrOf result errors.Rng }
    {
        let Drawn { iv, salt } = draw_both(draw)?;
        Ok(Parameters {
            kdf: Kdf::Scrypt(ScryptParams {
                salt: Salt::of_16(&salt),
                cost_parameter: SCRYPT_COST,
                block_size: SCRYPT_BLOCK_SIZE,
                parallelization: SCRYPT_PARALLELIZATION,
                key_length: None,
            }),
            encryption: EncryptionScheme::Aes256Cbc { iv },
        })
    }

    /// PBKDF2 over HMAC-SHA-256 in this number of rounds, and AES-128-CBC under an initialization vector of 16 octets.
    /// The length of the key is not stated. `AlgorithmParametersInvalid` with PBKDF2's identifier exactly where there
    /// are more than 100,000,000 rounds, or more than 32 octets of salt.
    pub fn generate_pbkdf2_sha256_aes128cbc(
        pbkdf2_iterations: u32,
        pbkdf2_salt: &[u8],
        aes_iv: [u8; 16],
    ) -> error::Result<Parameters>
        ensures ok { IfOk result
            (λ p. (p ≡ pbkdf2_sha256 pbkdf2_iterations pbkdf2_salt.now (Aes128Cbc aes_iv))
            × (pbkdf2_iterations ≤ 100000000) × (length pbkdf2_salt.now ≤ 32)) }
        ensures err { IfErr result (λ e. InvalidOf pbkdf2_oid e × ((100000000 < pbkdf2_iterations)
            ⊎ (32 < length pbkdf2_salt.now))) }
    {
        Ok(Parameters {
            kdf: Kdf::Pbkdf2(Pbkdf2Params::hmac_sha256(pbkdf2_iterations, pbkdf2_salt)?),
            encryption: EncryptionScheme::Aes128Cbc { iv: aes_iv },
        })
    }

    /// PBKDF2 over HMAC-SHA-256 in this number of rounds, and AES-256-CBC under an initialization vector of 16 octets.
    /// The length of the key is not stated. `AlgorithmParametersInvalid` with PBKDF2's identifier exactly where there
    /// are more than 100,000,000 rounds, or more than 32 octets of salt.
    pub fn generate_pbkdf2_sha256_aes256cbc(
        pbkdf2_iterations: u32,
        pbkdf2_salt: &[u8],
        aes_iv: [u8; 16],
    ) -> error::Result<Parameters>
        ensures ok { IfOk result
            (λ p. (p ≡ pbkdf2_sha256 pbkdf2_iterations pbkdf2_salt.now (Aes256Cbc aes_iv))
            × (pbkdf2_iterations ≤ 100000000) × (length pbkdf2_salt.now ≤ 32)) }
        ensures err { IfErr result (λ e. InvalidOf pbkdf2_oid e × ((100000000 < pbkdf2_iterations)
            ⊎ (32 < length pbkdf2_salt.now))) }
    {
        Ok(Parameters {
            kdf: Kdf::Pbkdf2(Pbkdf2Params::hmac_sha256(pbkdf2_iterations, pbkdf2_salt)?),
            encryption: EncryptionScheme::Aes256Cbc { iv: aes_iv },
        })
    }

    /// scrypt (RFC 7914 section 7) under these costs, and AES-128-CBC under an initialization vector of 16 octets. The
    /// length of the key is not stated. `AlgorithmParametersInvalid` with scrypt's identifier exactly where there are
    /// more than 32 octets of salt, or the block size or the number of pieces is over 65,535.
    pub fn generate_scrypt_aes128cbc(
        params: scrypt_core::Params,
        salt: &[u8],
        aes_iv: [u8; 16],
    ) -> error::Result<Parameters>
        ensures { MatchResult result
            (λ p. (p ≡ scrypt_with params salt.now (Aes128Cbc aes_iv))
            × TakesScrypt params salt.now)
            (λ e. InvalidOf scrypt_oid e × RefusesScrypt params salt.now) }
    {
        Ok(Parameters {
            kdf: Kdf::Scrypt(ScryptParams::from_params_and_salt(params, salt)?),
            encryption: EncryptionScheme::Aes128Cbc { iv: aes_iv },
        })
    }

    /// scrypt (RFC 7914 section 7) under these costs, and AES-256-CBC under an initialization vector of 16 octets. The
    /// length of the key is not stated. `AlgorithmParametersInvalid` with scrypt's identifier exactly where there are
    /// more than 32 octets of salt, or the block size or the number of pieces is over 65,535.
    pub fn generate_scrypt_aes256cbc(
        params: scrypt_core::Params,
        salt: &[u8],
        aes_iv: [u8; 16],
    ) -> error::Result<Parameters>
        ensures { MatchResult result
            (λ p. (p ≡ scrypt_with params salt.now (Aes256Cbc aes_iv))
            × TakesScrypt params salt.now)
            (λ e. InvalidOf scrypt_oid e × RefusesScrypt params salt.now) }
    {
        Ok(Parameters {
            kdf: Kdf::Scrypt(ScryptParams::from_params_and_salt(params, salt)?),
            encryption: EncryptionScheme::Aes256Cbc { iv: aes_iv },
        })
    }

    /// scrypt (RFC 7914 section 7) under these costs, and AES-128-GCM (RFC 5084 section 3.2) under a nonce of 12 octets.
    /// The length of the key is not stated. `AlgorithmParametersInvalid` with scrypt's identifier exactly where there
    /// are more than 32 octets of salt, or the block size or the number of pieces is over 65,535.
    pub fn scrypt_aes128gcm(
        params: scrypt_core::Params,
        salt: &[u8],
        gcm_nonce: [u8; 12],
    ) -> error::Result<Parameters>
        ensures { MatchResult result
            (λ p. (p ≡ scrypt_with params salt.now (Aes128Gcm gcm_nonce))
            × TakesScrypt params salt.now)
            (λ e. InvalidOf scrypt_oid e × RefusesScrypt params salt.now) }
    {
        Ok(Parameters {
            kdf: Kdf::Scrypt(ScryptParams::from_params_and_salt(params, salt)?),
            encryption: EncryptionScheme::Aes128Gcm { nonce: gcm_nonce },
        })
    }

    /// scrypt (RFC 7914 section 7) under these costs, and AES-256-GCM (RFC 5084 section 3.2) under a nonce of 12 octets.
    /// The length of the key is not stated. `AlgorithmParametersInvalid` with scrypt's identifier exactly where there
    /// are more than 32 octets of salt, or the block size or the number of pieces is over 65,535.
    pub fn scrypt_aes256gcm(
        params: scrypt_core::Params,
        salt: &[u8],
        gcm_nonce: [u8; 12],
    ) -> error::Result<Parameters>
        ensures { MatchResult result
            (λ p. (p ≡ scrypt_with params salt.now (Aes256Gcm gcm_nonce))
            × TakesScrypt params salt.now)
            (λ e. InvalidOf scrypt_oid e × RefusesScrypt params salt.now) }
    {
        Ok(Parameters {
            kdf: Kdf::Scrypt(ScryptParams::from_params_and_salt(params, salt)?),
            encryption: EncryptionScheme::Aes256Gcm { nonce: gcm_nonce },
        })
    }
}

// ---- decryption (RFC 8018 section 6.2.2)

impl Parameters {
    /// The text that a ciphertext opens to under a password, in memory of its own (RFC 8018 section 6.2.2).
    ///
    /// `AlgorithmParametersInvalid` with the identifier of the key derivation function exactly where a length of the
    /// key is stated that is not the cipher's, or scrypt refuses its costs. Then `DecryptFailed` exactly where the
    /// ciphertext opens to no text: in CBC it is empty, not whole blocks, or decrypts to a text with no padding; in
    /// GCM it has fewer than 16 octets, or its tag is not that of it. `Memory` may come at any point.
    pub fn decrypt(
        &self,
        alloc: Global,
        password: &[u8],
        ciphertext: &[u8],
    ) -> error::Result<Octets>
        ensures ok { IfOk result (λ m. FitsKey self.now
            × Opens self.now password.now ciphertext.now m) }
        ensures err { IfErr result (λ e. RefusesToOpenIn self.now password.now ciphertext.now e) }
    {
        let mut text = Vec::from_slice(alloc, ciphertext)?;
        let len = self.decrypt_in_place_len(alloc, password, &mut text)?;
        text.truncate(len);
        Ok(Octets::from_vec(text))
    }

    /// `decrypt_in_place_len` that returns the text.
    pub fn decrypt_in_place<'a>(
        &self,
        alloc: Global,
        password: &[u8],
        buffer: &'a mut [u8],
    ) -> error::Result<&'a [u8]>
        ensures ok { IfOk result (λ m. FitsKey self.now
            × Opens self.now password.now buffer.old m.now) }
        ensures err { IfErr result (λ e. RefusesToOpenInPlace self.now password.now buffer.old e) }
    {
        let len = self.decrypt_in_place_len(alloc, password, buffer)?;
        Ok(&buffer[..len])
    }

    /// Decrypts the ciphertext `buffer` in place under a password (RFC 8018 section 6.2.2), and returns the length in
    /// octets of the text that is now in its front; its padding comes after it, or its tag in GCM. It takes
    /// memory only where the function is scrypt.
    ///
    /// `AlgorithmParametersInvalid` with the identifier of the key derivation function exactly where a length of the
    /// key is stated that is not the cipher's, or scrypt refuses its costs. Then `DecryptFailed` exactly where the
    /// ciphertext opens to no text: in CBC it is empty, not whole blocks, or decrypts to a text with no padding; in
    /// GCM it has fewer than 16 octets, or its tag is not that of it. Where in CBC a padding is missing, the buffer
    /// then holds the decrypted blocks. Nothing is changed by the other refusals. `Memory` only where the function is
    /// scrypt.
    pub fn decrypt_in_place_len(
        &self,
        alloc: Global,
        password: &[u8],
        buffer: &mut [u8],
    ) -> error::Result<usize>
        ensures ok { IfOk result (λ len. FitsKey self.now
            × Opens self.now password.now buffer.old (take len buffer.new)) }
        ensures behind { IfOk result (λ len. (len ≤ length buffer.old)
            × IsBehind self.now.encryption buffer.old buffer.new len) }
        ensures err { IfErr result (λ e. RefusesToOpenInPlace self.now password.now buffer.old e) }
        ensures left { IfErr result
            (λ e. LeftUnopened self.now password.now buffer.old buffer.new e) }
    {
        let key = EncryptionKey::of_parameters(alloc, password, self)?;
        decrypt_under(&self.encryption, key.as_slice(), buffer)
    }

    /// `decrypt_in_place_len` that counts a step for each output of the pseudorandom function of PBKDF2: `max(r, 1)`
    /// times the blocks of the key for r rounds, on Ok and where the text does not open; none where the parameters
    /// are refused. It takes no memory.
    ///
    /// `AlgorithmParametersInvalid` with the identifier of the key derivation function exactly where a length of the
    /// key is stated that is not the cipher's; then `UnsupportedAlgorithm` with that of scrypt exactly where it is
    /// the function; then `DecryptFailed` exactly where the ciphertext opens to no text.
    pub fn decrypt_in_place_counted<L: Ledger>(
        &self,
        password: &[u8],
        buffer: &mut [u8],
        steps: &mut Steps<L>,
    ) -> error::Result<usize>
        ensures ok { IfOk result (λ len. FitsKey self.now
            × Opens self.now password.now buffer.old (take len buffer.new)) }
        ensures behind { IfOk result (λ len. (len ≤ length buffer.old)
            × IsBehind self.now.encryption buffer.old buffer.new len) }
        ensures by_rounds { OnOk result (¬ IsScrypt self.now.kdf) }
        ensures err { IfErr result (λ e. RefusesToOpenByRounds self.now password.now buffer.old e) }
        ensures left { IfErr result
            (λ e. LeftUnopened self.now password.now buffer.old buffer.new e) }
        ensures steps { OnOk result (steps.new ≡ steps.old + opening_steps self.now) }
        ensures refused { IfErr result
            (λ e. RefusedAfter (opening_steps self.now) steps.old steps.new e) }
    {
        let key = EncryptionKey::of_parameters_counted(password, self, steps)?;
        decrypt_under(&self.encryption, key.as_slice(), buffer)
    }
}

// ---- encryption (RFC 8018 section 6.2.1)

impl Parameters {
    /// Encrypts `plaintext` with the cipher of these parameters under `key`, which was derived before (RFC 8018
    /// section 6.2.1), and returns the ciphertext in memory of its own. Where `key` is the one that these
    /// parameters derive from a password, the ciphertext opens under that password. Its length is that of a
    /// ciphertext of `encrypt`. Caller: `key` has the length of the cipher's keys.
    ///
    /// `UnsupportedAlgorithm` with the cipher's identifier exactly where the cipher is DES; the other error is
    /// `Memory`.
    pub fn encrypt_under_key(
        &self,
        alloc: Global,
        key: &EncryptionKey,
        plaintext: &[u8],
    ) -> error::Result<Octets>
        requires { length key.now ≡ key_size self.now.encryption }
        ensures ok { IfOk result
            (λ c. OpensBy self.now.encryption key.now c plaintext.now) }
        ensures length { IfOk result
            (λ c. length c ≡ ciphertext_size self.now.encryption (length plaintext.now)) }
        ensures other_than_des { OnOk result (¬ IsDes self.now.encryption) }
        ensures err { IfErr result (λ e. RefusesUnderIn self.now.encryption e) }
    {
        let len = plaintext.len();
        let mut text = Vec::from_slice(alloc, plaintext)?;
        text.extend_from_slice(&[0; 16][..self.encryption.growth(len)])?;
        encrypt_under(&self.encryption, key.as_slice(), &mut text, len)?;
        Ok(Octets::from_vec(text))
    }

    /// The ciphertext of a text under a password, in memory of its own (RFC 8018 section 6.2.1). In CBC its length is
    /// the next greater multiple of a block, and in GCM 16 octets more than that of the text.
    ///
    /// `AlgorithmParametersInvalid` with the identifier of the key derivation function exactly where a length of the
    /// key is stated that is not the cipher's, or scrypt refuses its costs. Then `UnsupportedAlgorithm` with the
    /// cipher's identifier exactly where it is DES. `Memory` may come at any point.
    pub fn encrypt(&self, alloc: Global, password: &[u8], plaintext: &[u8]) -> error::Result<Octets>
        ensures ok { IfOk result (λ c. FitsKey self.now
            × Opens self.now password.now c plaintext.now) }
        ensures length { IfOk result
            (λ c. length c ≡ ciphertext_size self.now.encryption (length plaintext.now)) }
        ensures other_than_des { OnOk result (¬ IsDes self.now.encryption) }
        ensures err { IfErr result (λ e. RefusesToEncryptIn self.now e) }
    {
        let key = EncryptionKey::of_parameters(alloc, password, self)?;
        self.encrypt_under_key(alloc, &key, plaintext)
    }

    /// `encrypt_in_place_len` that returns the ciphertext.
    pub fn encrypt_in_place<'a>(
        &self,
        alloc: Global,
        password: &[u8],
        buffer: &'a mut [u8],
        pos: usize,
    ) -> error::Result<&'a [u8]>
        ensures ok { IfOk result (λ c. FitsKey self.now × Opens self.now password.now c.now
            (take pos buffer.old)) }
        ensures length { IfOk result (λ c. (length c.now ≤ length buffer.old)
            × (length c.now ≡ ciphertext_size self.now.encryption pos)) }
        ensures other_than_des { OnOk result (¬ IsDes self.now.encryption) }
        ensures err { IfErr result (λ e. RefusesToSeal self.now pos (length buffer.old) e) }
    {
        let len = self.encrypt_in_place_len(alloc, password, buffer, pos)?;
        Ok(&buffer[..len])
    }

    /// Encrypts the text `buffer[..pos]` in place under a password (RFC 8018 section 6.2.1), and returns the length
    /// of the ciphertext in octets, as `encrypt` has it; the octets after it stay as they were. It takes memory only
    /// where the function is scrypt.
    ///
    /// `AlgorithmParametersInvalid` with the identifier of the key derivation function exactly where a length of the
    /// key is stated that is not the cipher's, or scrypt refuses its costs. Then `UnsupportedAlgorithm` with the
    /// cipher's identifier exactly where it is DES; then `EncryptFailed` exactly where the ciphertext does not fit
    /// the buffer. Nothing is changed after a refusal. `Memory` only where the function is scrypt.
    pub fn encrypt_in_place_len(
        &self,
        alloc: Global,
        password: &[u8],
        buffer: &mut [u8],
        pos: usize,
    ) -> error::Result<usize>
        ensures ok { IfOk result (λ len. FitsKey self.now
            × Opens self.now password.now (take len buffer.new) (take pos buffer.old)) }
        ensures length { IfOk result (λ len. (len ≤ length buffer.old)
            × (len ≡ ciphertext_size self.now.encryption pos)) }
        ensures behind { IfOk result (λ len. drop len buffer.new ≡ drop len buffer.old) }
        ensures other_than_des { OnOk result (¬ IsDes self.now.encryption) }
        ensures err { IfErr result (λ e. RefusesToSeal self.now pos (length buffer.old) e) }
        ensures unchanged { OnErr result (buffer.new ≡ buffer.old) }
    {
        let key = EncryptionKey::of_parameters(alloc, password, self)?;
        encrypt_under(&self.encryption, key.as_slice(), buffer, pos)
    }
}

// ---- the text

impl TryFrom<AnyRef<'_>> for Parameters {
    type Error = Error;

    ghost try_from_gives = { λ a r. Gives (λ v. v) r (parameters_in (borrowed_any a)) };

    /// The parameters that an element is. `Malformed` or `OidUnknown` exactly where it is none, as decoding of its
    /// text.
    fn try_from(element: AnyRef<'_>) -> Result<Parameters, Error> {
        element.decode_as::<Parameters>()
    }
}

/// The parameters whose value octets these are.
fn read_parameters(value: &[u8]) -> Result<Parameters, Error>
    ensures { Gives (λ v. v) result (parameters_of value.now) }
{
    let mut inner = SliceReader::new(value);
    let function = AlgorithmIdentifierRef::decode(&mut inner)?;
    let cipher = AlgorithmIdentifierRef::decode(&mut inner)?;
    let kdf = Kdf::try_from(function)?;
    let encryption = EncryptionScheme::try_from(cipher)?;
    inner.finish()?;
    Ok(Parameters { kdf, encryption })
}

impl FixedTag for Parameters {
    ghost TAG = { record { first = 0x30; is_tag = refl } };

    const TAG: Tag = Tag::SEQUENCE;
}

impl<'a> DecodeValue<&'a [u8]> for Parameters {
    ghost Seen = { Parameters };

    ghost seen = { λ v. v };

    ghost value = { λ t. parameters_of };

    ghost text = { λ t. ParametersOf };

    /// Refusals in this order: `Malformed` where one of the two is no algorithm with any parameters; those of the key
    /// derivation function; those of the cipher; `Malformed` for octets after them.
    fn decode_value<R: Reader<&'a [u8]>>(r: &mut R, header: Header) -> Result<Parameters, Error> {
        let mut ahead = *r;
        let value = ahead.read_slice(header.length)?;
        let parameters = read_parameters(value)?;
        *r = ahead;
        Ok(parameters)
    }

    ghost exact = { λ t. parameters_of-exact };
}

impl EncodeValue for Parameters {
    ghost content = { parameters_content };

    ghost writable = { AreParameters };

    fn value_len(&self) -> Result<Length, Error> {
        pair_len(&self.kdf, &self.encryption)
    }

    fn encode_value<W: Writer>(&self, w: &mut W) -> Result<(), Error> {
        write_pair(w, &self.kdf, &self.encryption)
    }
}

impl<'a> Sequence<&'a [u8]> for Parameters {
    ghost sequence = { refl };
}

impl<'a> Canonical<&'a [u8]> for Parameters {
    ghost canonical = { parameters_canonical };
}

impl<'a> Spelled<&'a [u8]> for Parameters {
    ghost spell = { SpellsParameters };

    ghost spelled = { parameters_spelled };
}

impl<'a> Compared<&'a [u8]> for Parameters {
    ghost compared = { parameters_same ⟦<Kdf as PartialEq>⟧.eq
        (kdf_same ⟦<Kdf as PartialEq>⟧.eq (λ v w. refl) (λ v w. refl) (λ v w. refl) (λ v w. refl))
        alike cipher_same };
}
