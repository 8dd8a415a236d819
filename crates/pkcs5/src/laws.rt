//! Laws of texts, each the contract of a function that does nothing.
ghost use Rattle.std.specs.Prelude.{◌≡◌, ◌≤◌, ◌↔◌, ℕ, List, Ok};
ghost use Rattle.asn1_core.specs.Der.{IsShort, seq};
ghost use Rattle.asn1_core.specs.Reading.{whole};
ghost use Rattle.der_core.specs.Optional.{writable_option};
ghost use Rattle.pkcs5.specs.Cipher.{IsCipher, cipher_content};
ghost use Rattle.pkcs5.specs.Kdf.{IsKdf, SpellsKdf};
ghost use Rattle.pkcs5.specs.Parameters.{AreParameters, SpellsParameters};
ghost use Rattle.pkcs5.specs.Pbes1.{ArePbeParams, pbe_content};
ghost use Rattle.pkcs5.specs.Pbkdf2Params.{ArePbkdf2Params, SpellsPbkdf2Params};
ghost use Rattle.pkcs5.specs.Pbkdf2Prf.{SpellsPrf};
ghost use Rattle.pkcs5.specs.Scheme.{SchemeText, scheme_text, IsScheme, SpellsScheme};
ghost use Rattle.pkcs5.specs.ScryptParams.{AreScryptParams, scrypt_params_content};
ghost use Rattle.pkcs5.specs.declared.encryption_scheme.EncryptionScheme.{EncryptionScheme};
ghost use Rattle.pkcs5.specs.declared.pbes1.algorithm.Algorithm.{Algorithm};
ghost use Rattle.pkcs5.specs.declared.pbes2.encryption_scheme.EncryptionScheme.{EncryptionScheme as Cipher};
ghost use Rattle.pkcs5.specs.declared.pbes2.kdf.Kdf.{Kdf};
ghost use Rattle.pkcs5.specs.declared.pbes2.parameters.Parameters.{Parameters};
ghost use Rattle.pkcs5.specs.declared.pbes2.pbkdf2_params.Pbkdf2Params.{Pbkdf2Params};
ghost use Rattle.pkcs5.specs.declared.pbes2.pbkdf2_prf.Pbkdf2Prf.{Pbkdf2Prf};
ghost use Rattle.pkcs5.specs.declared.pbes2.scrypt_params.ScryptParams.{ScryptParams};
ghost use Rattle.pkcs5.specs.Reading.{cipher_at, kdf_at, parameters_at, pbe_at, pbkdf2_params_at, prf_at, scheme_at, scrypt_params_at};

use crate::encryption_scheme::EncryptionScheme;
use crate::pbes1;
use crate::pbes2::{Kdf, Parameters, Pbkdf2Params, ScryptParams};

/// A text of at most 2^32 - 1 octets is that of one scheme at most.
pub fn texts_have_one_scheme()
    ensures { (b : List ℕ) (s t : EncryptionScheme) → IsShort b → SchemeText b s → SchemeText b t
        → s ≡ t }
{}

/// What is written of a scheme is read as that scheme.
pub fn schemes_are_read_back()
    ensures { (s : EncryptionScheme) → IsScheme s → IsShort (scheme_text s)
        → whole scheme_at (scheme_text s) ≡ Ok s }
{}

/// The texts that are read as a pseudorandom function are its algorithm with NULL, and the same without.
pub fn prfs_are_spelled()
    ensures { (b : List ℕ) (v : Pbkdf2Prf) → whole prf_at b ≡ Ok v ↔ (SpellsPrf b v × IsShort b) }
{}

/// The texts that are read as parameters of PBKDF2 are the canonical text, and those with another spelling of the
/// function; HMAC over SHA-1 is left out or written.
pub fn pbkdf2_params_are_spelled()
    ensures { (b : List ℕ) (v : Pbkdf2Params) → whole pbkdf2_params_at b ≡ Ok v ↔ (ArePbkdf2Params v
        × SpellsPbkdf2Params b v × IsShort b) }
{}

/// The texts that are read as parameters of scrypt are the canonical one alone.
pub fn scrypt_params_are_spelled()
    ensures { (b : List ℕ) (v : ScryptParams) → whole scrypt_params_at b ≡ Ok v ↔ (AreScryptParams v
        × (b ≡ seq (scrypt_params_content v)) × IsShort b) }
{}

/// The texts that are read as a key derivation function are its identifier and a spelling of its parameters.
pub fn kdfs_are_spelled()
    ensures { (b : List ℕ) (v : Kdf) → whole kdf_at b ≡ Ok v
        ↔ (IsKdf v × SpellsKdf b v × IsShort b) }
{}

/// The texts that are read as a cipher are the canonical one alone.
pub fn ciphers_are_spelled()
    ensures { (b : List ℕ) (v : Cipher) → whole cipher_at b ≡ Ok v ↔ (IsCipher v
        × (b ≡ seq (cipher_content v)) × IsShort b) }
{}

/// The texts that are read as parameters of PBES2 are a spelling of the function, and the cipher.
pub fn parameters_are_spelled()
    ensures { (b : List ℕ) (v : Parameters) → whole parameters_at b ≡ Ok v ↔ (AreParameters v
        × SpellsParameters b v × IsShort b) }
{}

/// The texts that are read as an algorithm of PBES1 are the canonical one alone.
pub fn pbes1_algorithms_are_spelled()
    ensures { (b : List ℕ) (v : Algorithm) → whole pbe_at b ≡ Ok v ↔ (ArePbeParams v.parameters
        × (b ≡ seq (pbe_content v)) × IsShort b) }
{}

/// The texts that are read as a scheme are the identifier and a spelling of the parameters.
pub fn schemes_are_spelled()
    ensures { (b : List ℕ) (v : EncryptionScheme) → whole scheme_at b ≡ Ok v ↔ (IsScheme v
        × SpellsScheme b v × IsShort b) }
{}

/// A number of rounds fits its type.
fn rounds_fit(n: u32)
    ensures { n ≤ 4294967295 }
{
    let _ = n;
}

/// A key length fits its type.
fn length_fits(n: u16)
    ensures { n ≤ 65535 }
{
    let _ = n;
}

/// A key length fits its type, where there is one.
fn lengths_fit(n: Option<u16>)
    ensures { writable_option (λ n. n ≤ 65535) n }
{
    if let Some(n) = n {
        length_fits(n);
    }
}

/// Parameters of PBKDF2 have a text.
fn params_have_texts(params: &Pbkdf2Params)
    ensures { ArePbkdf2Params params.now }
{
    let _salt = params.salt.len();
    rounds_fit(params.iteration_count);
    lengths_fit(params.key_length);
}

/// A number of turns fits its type.
fn cost_fits(n: u64)
    ensures { n ≤ 18446744073709551615 }
{
    let _ = n;
}

/// Parameters of scrypt have a text.
fn scrypt_params_have_texts(params: &ScryptParams)
    ensures { AreScryptParams params.now }
{
    let _salt = params.salt.len();
    cost_fits(params.cost_parameter);
    length_fits(params.block_size);
    length_fits(params.parallelization);
    lengths_fit(params.key_length);
}

/// A key derivation function has a text.
fn kdfs_have_texts(kdf: &Kdf)
    ensures { IsKdf kdf.now }
{
    match kdf {
        Kdf::Pbkdf2(params) => params_have_texts(params),
        Kdf::Scrypt(params) => scrypt_params_have_texts(params),
    }
}

/// Parameters of PBES2 have a text.
fn parameters_have_texts(parameters: &Parameters)
    ensures { AreParameters parameters.now }
{
    kdfs_have_texts(&parameters.kdf);
    let _iv = parameters.encryption.iv();
}

/// An algorithm of PBES1 has a text.
fn pbes1_has_a_text(algorithm: &pbes1::Algorithm)
    ensures { ArePbeParams algorithm.now.parameters }
{
    let _salt: &[u8] = &algorithm.parameters.salt;
    length_fits(algorithm.parameters.iteration_count);
}

/// Each scheme has a text: its numbers fit their types, and its salt and its initialization vector or nonce have
/// their lengths. So writing one never returns `Malformed`.
pub fn schemes_have_texts(scheme: &EncryptionScheme)
    ensures { IsScheme scheme.now }
{
    match scheme {
        EncryptionScheme::Pbes1(algorithm) => pbes1_has_a_text(algorithm),
        EncryptionScheme::Pbes2(parameters) => parameters_have_texts(parameters),
    }
}
