//! Encryption schemes: the type, decryption and encryption, and the text.
ghost use Rattle.std.specs.Prelude.{◌≡◌, ◌≤◌, ◌<◌, ◌↔◌, length, take, drop, IfSome, IsSome, IfOk, IfErr, OnErr, OnOk, refl};
ghost use Rattle.std.specs.Result.{IsErrOf};
ghost use Rattle.asn1_core.specs.Gives.{Gives};
ghost use Rattle.asn1_core.specs.Oid.{oid_octets};
ghost use Rattle.asn1_core.specs.Reading.{whole};
ghost use Rattle.spki.specs.Seen.{borrowed_any, borrowed_algorithm};
ghost use Rattle.octet_core.specs.Draw.{DrawsIvAndSalt, Lacks};
ghost use Rattle.pkcs5.specs.Generation.{recommended};
ghost use Rattle.pkcs5.specs.declared.error.Error.TheVariants as errors;
ghost use Rattle.pkcs5.specs.Scheme.{IsPbes1, IsPbes2, scheme_oid, SchemeOf, scheme_content, IsScheme, SpellsScheme};
ghost use Rattle.pkcs5.specs.SchemeLaws.{scheme_of-exact, scheme_canonical, scheme_spelled};
ghost use Rattle.pkcs5.specs.Alike.{alike};
ghost use Rattle.pkcs5.specs.SameLaws.{kdf_same, cipher_same, parameters_same, scheme_same};
ghost use Rattle.pkcs5.specs.declared.encryption_scheme.EncryptionScheme.{EncryptionScheme};
ghost use Rattle.pkcs5.specs.declared.encryption_scheme.EncryptionScheme.TheVariants.{Pbes1, Pbes2};
ghost use Rattle.pkcs5.specs.Reading.{scheme_with, scheme_in, scheme_of, scheme_at};
ghost use Rattle.pkcs5.specs.SchemeOpening.{SchemeEncrypts, SchemeIsBehind, SchemeLeftUnopened, SchemeOpens, SchemeRefusesToEncryptIn, SchemeRefusesToOpenIn, SchemeRefusesToOpenInPlace, SchemeRefusesToSeal, SchemeSizes};

use crate::pbes2::{self, PBES2_OID};
use crate::{error, pbes1};
use asn1_core::{Error, Header, Length, ObjectIdentifier, Octets, Reader, Tag, Writer};
use der_core::{
    AnyRef, Canonical, Compared, Decode, DecodeValue, EncodeValue, FixedTag, Sequence, Spelled,
    pair_len, write_pair,
};
use mac_modes::Draw;
use spki::{AlgorithmIdentifierRef, read_algorithm_as};
use std::alloc::Global;

/// A scheme of encryption under a password (RFC 8018 section 6), as an algorithm with its parameters (appendices A.3
/// and A.4).
#[derive(Clone, Copy, Debug, PartialEq, Eq, Drop)]
pub enum EncryptionScheme {
    /// PBES1 (RFC 8018 section 6.1): read and written, but nothing is encrypted or decrypted by it.
    Pbes1(pbes1::Algorithm),
    /// PBES2 (RFC 8018 section 6.2).
    Pbes2(pbes2::Parameters),
}

impl EncryptionScheme {
    /// PBES2 with `pbes2::Parameters::generate`, whose refusals it has.
    pub fn generate<D: Draw>(draw: &mut D) -> error::Result<EncryptionScheme>
        ensures ok { IfOk result (λ s. DrawsIvAndSalt (D.left draw.old) (D.left draw.new)
            (λ iv salt. s ≡ Pbes2 (recommended iv salt))) }
        ensures err { IfErr result (λ e. (e ≡ errors.Rng)
            × Lacks (D.faults draw.old) (D.faults draw.new) (D.left draw.old) 32) }
        ensures count { D.faults draw.old ≤ D.faults draw.new }
        ensures no_fault { OnOk result (D.faults draw.new ≡ D.faults draw.old) }
        ensures last { D.faults draw.old < D.faults draw.new → IsErrOf result errors.Rng }
    {
        Ok(EncryptionScheme::Pbes2(pbes2::Parameters::generate(draw)?))
    }

    /// The identifier of the scheme.
    pub fn oid(&self) -> ObjectIdentifier
        ensures { oid_octets result ≡ scheme_oid self.now }
    {
        match self {
            Self::Pbes1(algorithm) => algorithm.oid(),
            Self::Pbes2(_) => PBES2_OID,
        }
    }

    /// The algorithm of PBES1, where this is one.
    pub fn pbes1(&self) -> Option<&pbes1::Algorithm>
        ensures value { IfSome result (λ v. Pbes1 v.now ≡ self.now) }
        ensures some { IsSome result ↔ IsPbes1 self.now }
    {
        match self {
            Self::Pbes1(algorithm) => Some(algorithm),
            Self::Pbes2(_) => None,
        }
    }

    /// The parameters of PBES2, where this is that scheme.
    pub fn pbes2(&self) -> Option<&pbes2::Parameters>
        ensures value { IfSome result (λ v. Pbes2 v.now ≡ self.now) }
        ensures some { IsSome result ↔ IsPbes2 self.now }
    {
        match self {
            Self::Pbes1(_) => None,
            Self::Pbes2(parameters) => Some(parameters),
        }
    }
}

/// The scheme of PBES1 that this algorithm is.
impl From<pbes1::Algorithm> for EncryptionScheme {
    ghost from_gives = { λ v s. s ≡ Pbes1 v };

    fn from(algorithm: pbes1::Algorithm) -> EncryptionScheme {
        EncryptionScheme::Pbes1(algorithm)
    }
}

/// PBES2 with these parameters.
impl From<pbes2::Parameters> for EncryptionScheme {
    ghost from_gives = { λ v s. s ≡ Pbes2 v };

    fn from(parameters: pbes2::Parameters) -> EncryptionScheme {
        EncryptionScheme::Pbes2(parameters)
    }
}

// ---- decryption and encryption

impl EncryptionScheme {
    /// The text that a ciphertext opens to under a password, in memory of its own (RFC 8018 section 6.2.2).
    ///
    /// `NoPbes1CryptSupport` exactly for PBES1. `AlgorithmParametersInvalid` with the identifier of the key
    /// derivation function exactly where a length of the key is stated that is not the cipher's, or scrypt refuses
    /// its costs. Then `DecryptFailed` exactly where the ciphertext opens to no text: in CBC it is empty, not whole
    /// blocks, or decrypts to a text with no padding; in GCM it has fewer than 16 octets, or its tag is not that of
    /// it. `Memory` may come at any point.
    pub fn decrypt(
        &self,
        alloc: Global,
        password: &[u8],
        ciphertext: &[u8],
    ) -> error::Result<Octets>
        ensures ok { IfOk result (λ m. SchemeOpens self.now password.now ciphertext.now m) }
        ensures err { IfErr result
            (λ e. SchemeRefusesToOpenIn self.now password.now ciphertext.now e) }
    {
        match self {
            Self::Pbes1(_) => Err(error::Error::NoPbes1CryptSupport),
            Self::Pbes2(parameters) => parameters.decrypt(alloc, password, ciphertext),
        }
    }

    /// `decrypt_in_place_len` that returns the text.
    pub fn decrypt_in_place<'a>(
        &self,
        alloc: Global,
        password: &[u8],
        buffer: &'a mut [u8],
    ) -> error::Result<&'a [u8]>
        ensures ok { IfOk result (λ m. SchemeOpens self.now password.now buffer.old m.now) }
        ensures err { IfErr result
            (λ e. SchemeRefusesToOpenInPlace self.now password.now buffer.old e) }
    {
        let len = self.decrypt_in_place_len(alloc, password, buffer)?;
        Ok(&buffer[..len])
    }

    /// Decrypts the ciphertext `buffer` in place under a password (RFC 8018 section 6.2.2), and returns the length in
    /// octets of the text that is now in its front; its padding comes after it, or its tag in GCM. It takes
    /// memory only where the function is scrypt.
    ///
    /// `NoPbes1CryptSupport` exactly for PBES1. `AlgorithmParametersInvalid` with the identifier of the key
    /// derivation function exactly where a length of the key is stated that is not the cipher's, or scrypt refuses
    /// its costs. Then `DecryptFailed` exactly where the ciphertext opens to no text: in CBC it is empty, not whole
    /// blocks, or decrypts to a text with no padding; in GCM it has fewer than 16 octets, or its tag is not that of
    /// it. Where in CBC a padding is missing, the buffer then holds the decrypted blocks. Nothing is changed by the
    /// other refusals. `Memory` only where the function is scrypt.
    pub fn decrypt_in_place_len(
        &self,
        alloc: Global,
        password: &[u8],
        buffer: &mut [u8],
    ) -> error::Result<usize>
        ensures ok { IfOk result
            (λ len. SchemeOpens self.now password.now buffer.old (take len buffer.new)) }
        ensures behind { IfOk result (λ len. (len ≤ length buffer.old)
            × SchemeIsBehind self.now buffer.old buffer.new len) }
        ensures err { IfErr result
            (λ e. SchemeRefusesToOpenInPlace self.now password.now buffer.old e) }
        ensures left { IfErr result
            (λ e. SchemeLeftUnopened self.now password.now buffer.old buffer.new e) }
    {
        match self {
            Self::Pbes1(_) => Err(error::Error::NoPbes1CryptSupport),
            Self::Pbes2(parameters) => parameters.decrypt_in_place_len(alloc, password, buffer),
        }
    }

    /// The ciphertext of a text under a password, in memory of its own (RFC 8018 section 6.2.1). In CBC its length is
    /// the next greater multiple of a block, and in GCM 16 octets more than that of the text.
    ///
    /// `NoPbes1CryptSupport` exactly for PBES1. `AlgorithmParametersInvalid` with the identifier of the key
    /// derivation function exactly where a length of the key is stated that is not the cipher's, or scrypt refuses
    /// its costs. Then `UnsupportedAlgorithm` with the cipher's identifier exactly where it is DES. `Memory` may come
    /// at any point.
    pub fn encrypt(&self, alloc: Global, password: &[u8], plaintext: &[u8]) -> error::Result<Octets>
        ensures ok { IfOk result (λ c. SchemeOpens self.now password.now c plaintext.now) }
        ensures length { IfOk result (λ c. SchemeSizes self.now (length plaintext.now) (length c)) }
        ensures other_than_des { OnOk result (SchemeEncrypts self.now) }
        ensures err { IfErr result (λ e. SchemeRefusesToEncryptIn self.now e) }
    {
        match self {
            Self::Pbes1(_) => Err(error::Error::NoPbes1CryptSupport),
            Self::Pbes2(parameters) => parameters.encrypt(alloc, password, plaintext),
        }
    }

    /// `encrypt_in_place_len` that returns the ciphertext.
    pub fn encrypt_in_place<'a>(
        &self,
        alloc: Global,
        password: &[u8],
        buffer: &'a mut [u8],
        pos: usize,
    ) -> error::Result<&'a [u8]>
        ensures ok { IfOk result
            (λ c. SchemeOpens self.now password.now c.now (take pos buffer.old)) }
        ensures length { IfOk result (λ c. (length c.now ≤ length buffer.old)
            × SchemeSizes self.now pos (length c.now)) }
        ensures other_than_des { OnOk result (SchemeEncrypts self.now) }
        ensures err { IfErr result (λ e. SchemeRefusesToSeal self.now pos (length buffer.old) e) }
    {
        let len = self.encrypt_in_place_len(alloc, password, buffer, pos)?;
        Ok(&buffer[..len])
    }

    /// Encrypts the text `buffer[..pos]` in place under a password (RFC 8018 section 6.2.1), and returns the length
    /// of the ciphertext in octets, as `encrypt` has it; the octets after it stay as they were. It takes memory only
    /// where the function is scrypt.
    ///
    /// `NoPbes1CryptSupport` exactly for PBES1. `AlgorithmParametersInvalid` with the identifier of the key
    /// derivation function exactly where a length of the key is stated that is not the cipher's, or scrypt refuses
    /// its costs. Then `UnsupportedAlgorithm` with the cipher's identifier exactly where it is DES; then
    /// `EncryptFailed` exactly where the ciphertext does not fit the buffer. Nothing is changed after a refusal.
    /// `Memory` only where the function is scrypt.
    pub fn encrypt_in_place_len(
        &self,
        alloc: Global,
        password: &[u8],
        buffer: &mut [u8],
        pos: usize,
    ) -> error::Result<usize>
        ensures ok { IfOk result (λ len. SchemeOpens self.now password.now (take len buffer.new)
            (take pos buffer.old)) }
        ensures length { IfOk result (λ len. (len ≤ length buffer.old)
            × SchemeSizes self.now pos len) }
        ensures behind { IfOk result (λ len. drop len buffer.new ≡ drop len buffer.old) }
        ensures other_than_des { OnOk result (SchemeEncrypts self.now) }
        ensures err { IfErr result (λ e. SchemeRefusesToSeal self.now pos (length buffer.old) e) }
        ensures unchanged { OnErr result (buffer.new ≡ buffer.old) }
    {
        match self {
            Self::Pbes1(_) => Err(error::Error::NoPbes1CryptSupport),
            Self::Pbes2(parameters) => parameters.encrypt_in_place_len(
                alloc, password, buffer, pos,
            ),
        }
    }
}

// ---- the text

/// The scheme of this identifier with these parameters. `Malformed` exactly where the identifier is neither PBES2 nor
/// one of PBES1; else the refusals of the parameters.
fn scheme_with(oid: ObjectIdentifier, parameters: &AnyRef<'_>) -> Result<EncryptionScheme, Error>
    ensures { Gives (λ s. s) result (scheme_with oid (borrowed_any parameters.now)) }
{
    if oid == PBES2_OID {
        let parameters = pbes2::Parameters::try_from(*parameters)?;
        return Ok(EncryptionScheme::Pbes2(parameters));
    }
    let algorithm = pbes1::algorithm_with(oid, parameters)?;
    Ok(EncryptionScheme::Pbes1(algorithm))
}

impl TryFrom<AlgorithmIdentifierRef<'_>> for EncryptionScheme {
    type Error = Error;

    ghost try_from_gives = { λ a r. Gives (λ s. s) r (scheme_in (borrowed_algorithm a)) };

    /// The scheme that an algorithm is. `Malformed` exactly where it has no parameters or is neither PBES2 nor one of
    /// PBES1; else the refusals of the parameters.
    #[tactic(auto, unfolding(crate::specs::Reading::scheme_in))]
    fn try_from(algorithm: AlgorithmIdentifierRef<'_>) -> Result<EncryptionScheme, Error> {
        match &algorithm.parameters {
            Some(parameters) => scheme_with(algorithm.oid, parameters),
            None => Err(Error::Malformed),
        }
    }
}

impl TryFrom<&[u8]> for EncryptionScheme {
    type Error = Error;

    ghost try_from_gives = { λ b r. Gives (λ s. s) r (whole scheme_at b.now) };

    /// The scheme whose text these octets are, as `from_der`.
    fn try_from(bytes: &[u8]) -> Result<EncryptionScheme, Error> {
        EncryptionScheme::from_der(bytes)
    }
}

impl FixedTag for EncryptionScheme {
    ghost TAG = { record { first = 0x30; is_tag = refl } };

    const TAG: Tag = Tag::SEQUENCE;
}

impl<'a> DecodeValue<&'a [u8]> for EncryptionScheme {
    ghost Seen = { EncryptionScheme };

    ghost seen = { λ s. s };

    ghost value = { λ t. scheme_of };

    ghost text = { λ t. SchemeOf };

    /// Refusals as of the algorithm; octets after its parameters are `Malformed` last.
    fn decode_value<R: Reader<&'a [u8]>>(
        r: &mut R,
        header: Header,
    ) -> Result<EncryptionScheme, Error> {
        read_algorithm_as(r, header)
    }

    ghost exact = { λ t. scheme_of-exact };
}

impl EncodeValue for EncryptionScheme {
    ghost content = { scheme_content };

    ghost writable = { IsScheme };

    fn value_len(&self) -> Result<Length, Error> {
        match self {
            Self::Pbes1(algorithm) => algorithm.value_len(),
            Self::Pbes2(parameters) => pair_len(&PBES2_OID, parameters),
        }
    }

    fn encode_value<W: Writer>(&self, w: &mut W) -> Result<(), Error> {
        match self {
            Self::Pbes1(algorithm) => algorithm.encode_value(w),
            Self::Pbes2(parameters) => write_pair(w, &PBES2_OID, parameters),
        }
    }
}

impl<'a> Sequence<&'a [u8]> for EncryptionScheme {
    ghost sequence = { refl };
}

impl<'a> Canonical<&'a [u8]> for EncryptionScheme {
    ghost canonical = { scheme_canonical };
}

impl<'a> Spelled<&'a [u8]> for EncryptionScheme {
    ghost spell = { SpellsScheme };

    ghost spelled = { scheme_spelled };
}

impl<'a> Compared<&'a [u8]> for EncryptionScheme {
    ghost compared = { scheme_same ⟦<EncryptionScheme as PartialEq>⟧.eq
        ⟦<pbes2::Parameters as PartialEq>⟧.eq (λ v w. refl)
        (parameters_same ⟦<pbes2::Kdf as PartialEq>⟧.eq
        (kdf_same ⟦<pbes2::Kdf as PartialEq>⟧.eq (λ v w. refl) (λ v w. refl) (λ v w. refl)
        (λ v w. refl)) alike cipher_same)
        (λ v w. refl) (λ v w. refl) (λ v w. refl) };
}
