//! The ciphers of PBES2.
ghost use Rattle.std.specs.Prelude.{◌≡◌, ◌≢◌, ◌≤◌, ◌+◌, Some, length, MatchResult, IfOk, refl};
ghost use Rattle.asn1_core.specs.Der.{seq};
ghost use Rattle.asn1_core.specs.Gives.{Gives};
ghost use Rattle.asn1_core.specs.Oid.{oid_octets};
ghost use Rattle.asn1_core.specs.Texts.{seen_option};
ghost use Rattle.asn1_core.specs.declared.error.Error.TheVariants.{Malformed};
ghost use Rattle.spki.specs.Seen.{borrowed_any, borrowed_algorithm};
ghost use Rattle.std.specs.Cmp.{partial_equiv_from_equiv, and_equiv, on_equiv, nat_eq_equiv};
ghost use Rattle.std.specs.Cmp.Lexicographic.{on_texts_equal};
ghost use Rattle.pkcs5.specs.Alike.{alike, kind_of};
ghost use Rattle.pkcs5.specs.Cipher.{IsCipher, cipher_content, CipherOf};
ghost use Rattle.pkcs5.specs.CipherLaws.{cipher_of-exact, cipher_canonical, cipher_spelled};
ghost use Rattle.pkcs5.specs.Error.{InvalidOf};
ghost use Rattle.pkcs5.specs.Kinds.{cipher_oid, key_size, iv_of, iv_size};
ghost use Rattle.pkcs5.specs.Opening.{ciphertext_size};
ghost use Rattle.pkcs5.specs.SameLaws.{cipher_same};
ghost use Rattle.pkcs5.specs.declared.pbes2.encryption_scheme.EncryptionScheme.{EncryptionScheme};
ghost use Rattle.pkcs5.specs.Reading.{cipher_named, cipher_with, cipher_in, cipher_of};

use crate::error;
use crate::pbes2::identifiers::{
    AES_128_CBC_OID, AES_128_GCM_OID, AES_192_CBC_OID, AES_256_CBC_OID, AES_256_GCM_OID,
    DES_CBC_OID, DES_EDE3_CBC_OID,
};
use asn1_core::{Error, Header, Length, ObjectIdentifier, Reader, Tag, Writer};
use der_core::{
    AnyRef, Canonical, Compared, DecodeValue, EncodeValue, FixedTag, OctetStringRef, Sequence,
    Spelled, pair_len, write_pair,
};
use spki::{AlgorithmIdentifier, AlgorithmIdentifierRef, read_algorithm_as};

/// A cipher with its initialization vector or nonce (RFC 8018 appendix B.2, RFC 5084 section 3.2), as an algorithm
/// whose parameters are that OCTET STRING.
#[derive(Clone, Copy, Debug, Drop)]
pub enum EncryptionScheme {
    /// AES with a key of 128 bits, in CBC mode.
    Aes128Cbc { iv: [u8; 16] },
    /// AES with a key of 192 bits, in CBC mode.
    Aes192Cbc { iv: [u8; 16] },
    /// AES with a key of 256 bits, in CBC mode.
    Aes256Cbc { iv: [u8; 16] },
    /// AES with a key of 128 bits, in Galois counter mode.
    Aes128Gcm { nonce: [u8; 12] },
    /// AES with a key of 256 bits, in Galois counter mode.
    Aes256Gcm { nonce: [u8; 12] },
    /// Triple DES with three keys, in CBC mode.
    DesEde3Cbc { iv: [u8; 8] },
    /// DES in CBC mode: a text is decrypted, and none is encrypted.
    DesCbc { iv: [u8; 8] },
}

impl EncryptionScheme {
    /// The length of the key in octets.
    pub fn key_size(&self) -> usize
        ensures value { result ≡ key_size self.now }
        ensures bounds { (8 ≤ result) × (result ≤ 32) }
    {
        match self {
            Self::Aes128Cbc { .. } => 16,
            Self::Aes192Cbc { .. } => 24,
            Self::Aes256Cbc { .. } => 32,
            Self::Aes128Gcm { .. } => 16,
            Self::Aes256Gcm { .. } => 32,
            Self::DesEde3Cbc { .. } => 24,
            Self::DesCbc { .. } => 8,
        }
    }

    /// The identifier of the cipher.
    pub fn oid(&self) -> ObjectIdentifier
        ensures { oid_octets result ≡ cipher_oid self.now }
    {
        match self {
            Self::Aes128Cbc { .. } => AES_128_CBC_OID,
            Self::Aes192Cbc { .. } => AES_192_CBC_OID,
            Self::Aes256Cbc { .. } => AES_256_CBC_OID,
            Self::Aes128Gcm { .. } => AES_128_GCM_OID,
            Self::Aes256Gcm { .. } => AES_256_GCM_OID,
            Self::DesEde3Cbc { .. } => DES_EDE3_CBC_OID,
            Self::DesCbc { .. } => DES_CBC_OID,
        }
    }

    /// The refusal of the cipher's parameters.
    pub fn to_alg_params_invalid(&self) -> error::Error
        ensures { InvalidOf (cipher_oid self.now) result }
    {
        error::Error::AlgorithmParametersInvalid { oid: self.oid() }
    }

    /// How many octets a ciphertext has more than its text, of `len` octets.
    pub(crate) fn growth(&self, len: usize) -> usize
        ensures value { len + result ≡ ciphertext_size self.now len }
        ensures least { result ≤ 16 }
    {
        match self {
            Self::Aes128Cbc { .. } | Self::Aes192Cbc { .. } | Self::Aes256Cbc { .. } => {
                16 - len % 16
            }
            Self::Aes128Gcm { .. } | Self::Aes256Gcm { .. } => 16,
            Self::DesEde3Cbc { .. } | Self::DesCbc { .. } => 8 - len % 8,
        }
    }

    /// The initialization vector or nonce.
    pub(crate) fn iv(&self) -> &[u8]
        ensures value { result.now ≡ iv_of self.now }
        ensures long { IsCipher self.now }
    {
        match self {
            Self::Aes128Cbc { iv } | Self::Aes192Cbc { iv } | Self::Aes256Cbc { iv } => iv,
            Self::Aes128Gcm { nonce } | Self::Aes256Gcm { nonce } => nonce,
            Self::DesEde3Cbc { iv } | Self::DesCbc { iv } => iv,
        }
    }

    /// A number for each kind of cipher.
    fn kind(&self) -> u8
        ensures { result ≡ kind_of self.now }
    {
        match self {
            Self::Aes128Cbc { .. } => 1,
            Self::Aes192Cbc { .. } => 2,
            Self::Aes256Cbc { .. } => 3,
            Self::Aes128Gcm { .. } => 4,
            Self::Aes256Gcm { .. } => 5,
            Self::DesEde3Cbc { .. } => 6,
            Self::DesCbc { .. } => 7,
        }
    }

    /// The initialization vector or nonce as OCTET STRING.
    #[tactic(auto, using(der_core::specs::StringLaws::small_header))]
    fn iv_string(&self) -> OctetStringRef<'_>
        ensures value { result.octets.now ≡ iv_of self.now }
        ensures long { IsCipher self.now }
    {
        OctetStringRef::new(self.iv()).unwrap()
    }
}

impl PartialEq for EncryptionScheme {
    ghost eq = { alike };

    ghost laws = { partial_equiv_from_equiv
        (and_equiv (on_equiv kind_of nat_eq_equiv) (on_texts_equal iv_of)) };

    fn eq(&self, other: &EncryptionScheme) -> bool {
        self.kind() == other.kind() && self.iv() == other.iv()
    }
}

impl Eq for EncryptionScheme {
    ghost laws = { and_equiv (on_equiv kind_of nat_eq_equiv) (on_texts_equal iv_of) };
}

/// So many octets. `Malformed` exactly where there are more or fewer.
fn exactly<const N: usize>(octets: &[u8]) -> Result<[u8; N], Error>
    ensures { MatchResult result (λ iv. (iv ≡ octets.now) × (length octets.now ≡ N))
        (λ e. (e ≡ Malformed)
        × (length octets.now ≢ N)) }
{
    match <[u8; N]>::try_from(octets) {
        Ok(iv) => Ok(iv),
        Err(_) => Err(Error::Malformed),
    }
}

/// The cipher of this identifier with this initialization vector or nonce. `OidUnknown` exactly where the identifier
/// names none; else `Malformed` exactly where the octets have not the cipher's length.
fn cipher_with(oid: ObjectIdentifier, octets: &[u8]) -> Result<EncryptionScheme, Error>
    ensures { Gives (λ c. c) result (cipher_with oid octets.now) }
{
    if oid == AES_128_CBC_OID {
        let iv = exactly::<16>(octets)?;
        Ok(EncryptionScheme::Aes128Cbc { iv })
    } else if oid == AES_192_CBC_OID {
        let iv = exactly::<16>(octets)?;
        Ok(EncryptionScheme::Aes192Cbc { iv })
    } else if oid == AES_256_CBC_OID {
        let iv = exactly::<16>(octets)?;
        Ok(EncryptionScheme::Aes256Cbc { iv })
    } else if oid == AES_128_GCM_OID {
        let nonce = exactly::<12>(octets)?;
        Ok(EncryptionScheme::Aes128Gcm { nonce })
    } else if oid == AES_256_GCM_OID {
        let nonce = exactly::<12>(octets)?;
        Ok(EncryptionScheme::Aes256Gcm { nonce })
    } else if oid == DES_EDE3_CBC_OID {
        let iv = exactly::<8>(octets)?;
        Ok(EncryptionScheme::DesEde3Cbc { iv })
    } else if oid == DES_CBC_OID {
        let iv = exactly::<8>(octets)?;
        Ok(EncryptionScheme::DesCbc { iv })
    } else {
        Err(Error::OidUnknown { oid })
    }
}

impl TryFrom<AlgorithmIdentifierRef<'_>> for EncryptionScheme {
    type Error = Error;

    ghost try_from_gives = { λ a r. Gives (λ c. c) r (cipher_in (borrowed_algorithm a)) };

    /// The cipher that an algorithm is. `Malformed` exactly where it has no parameters or they are no OCTET STRING;
    /// else `OidUnknown` with its identifier exactly where that names none; else `Malformed` exactly where the string
    /// has not the cipher's length.
    #[tactic(auto, unfolding(crate::specs::Reading::cipher_in))]
    fn try_from(algorithm: AlgorithmIdentifierRef<'_>) -> Result<EncryptionScheme, Error> {
        match algorithm.parameters {
            Some(parameters) => {
                let iv = parameters.decode_as::<OctetStringRef<'_>>()?;
                cipher_with(algorithm.oid, iv.as_bytes())
            }
            None => Err(Error::Malformed),
        }
    }
}

impl<'a> TryFrom<&'a EncryptionScheme> for AlgorithmIdentifierRef<'a> {
    type Error = Error;

    ghost try_from_gives = { λ c r. MatchResult r (λ a. (oid_octets a.oid ≡ cipher_oid c.now)
        × (seen_option borrowed_any a.parameters ≡ Some (4, iv_of c.now))) (λ e. ⊥) };

    /// The algorithm of a cipher: its identifier, and its initialization vector or nonce as OCTET STRING. Nothing is
    /// refused.
    fn try_from(cipher: &'a EncryptionScheme) -> Result<AlgorithmIdentifierRef<'a>, Error> {
        Ok(AlgorithmIdentifier {
            oid: cipher.oid(),
            parameters: Some(AnyRef::from(cipher.iv_string())),
        })
    }
}

impl FixedTag for EncryptionScheme {
    ghost TAG = { record { first = 0x30; is_tag = refl } };

    const TAG: Tag = Tag::SEQUENCE;
}

impl<'a> DecodeValue<&'a [u8]> for EncryptionScheme {
    ghost Seen = { EncryptionScheme };

    ghost seen = { λ c. c };

    ghost value = { λ t. cipher_of };

    ghost text = { λ t. CipherOf };

    /// Refusals as of the algorithm; octets after its parameters are `Malformed` last.
    fn decode_value<R: Reader<&'a [u8]>>(
        r: &mut R,
        header: Header,
    ) -> Result<EncryptionScheme, Error> {
        read_algorithm_as(r, header)
    }

    ghost exact = { λ t. cipher_of-exact };
}

impl EncodeValue for EncryptionScheme {
    ghost content = { cipher_content };

    ghost writable = { IsCipher };

    fn value_len(&self) -> Result<Length, Error> {
        pair_len(&self.oid(), &self.iv_string())
    }

    fn encode_value<W: Writer>(&self, w: &mut W) -> Result<(), Error> {
        write_pair(w, &self.oid(), &self.iv_string())
    }
}

impl<'a> Sequence<&'a [u8]> for EncryptionScheme {
    ghost sequence = { refl };
}

impl<'a> Canonical<&'a [u8]> for EncryptionScheme {
    ghost canonical = { cipher_canonical };
}

impl<'a> Spelled<&'a [u8]> for EncryptionScheme {
    ghost spell = { λ b c. b ≡ seq (cipher_content c) };

    ghost spelled = { cipher_spelled };
}

impl<'a> Compared<&'a [u8]> for EncryptionScheme {
    ghost compared = { cipher_same };
}
