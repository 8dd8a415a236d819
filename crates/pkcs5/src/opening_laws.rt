//! Laws of opening, each stated by the contract of a function that changes nothing.
ghost use Rattle.std.specs.Prelude.{◌≡◌, ◌<◌, ◌↔◌, ℕ, List, All, Some, length};
ghost use Rattle.pkcs5.specs.Cipher.{IsCipher};
ghost use Rattle.pkcs5.specs.Kinds.{IsScrypt};
ghost use Rattle.pkcs5.specs.Opening.{FitsKey, Opens, ciphertext_size, opened};
ghost use Rattle.pkcs5.specs.SchemeOpening.{SchemeOpens, SchemeRefusesToOpenIn, SchemeRefusesToOpenInPlace};
ghost use Rattle.pkcs5.specs.Refusals.{RefusesToOpenIn, RefusesToOpenInPlace};
ghost use Rattle.pkcs5.specs.declared.error.Error.{Error};
ghost use Rattle.pkcs5.specs.declared.error.Error.TheVariants as errors;
ghost use Rattle.pkcs5.specs.declared.encryption_scheme.EncryptionScheme.{EncryptionScheme};
ghost use Rattle.pkcs5.specs.declared.pbes2.parameters.Parameters.{Parameters};

/// A ciphertext opens to at most one text under the same parameters and password: so decryption of what encryption gave
/// is the text that was encrypted, and the only refusal that it may have is running out of memory; in place it has that one under
/// scrypt alone.
pub fn decryption_undoes_encryption()
    ensures text { (par : Parameters) (q c m n : List ℕ) → Opens par q c m → Opens par q c n
        → m ≡ n }
    ensures refused { (par : Parameters) (q c m : List ℕ) (e : Error) → FitsKey par
        → Opens par q c m
        → RefusesToOpenIn par q c e → e ≡ errors.Memory }
    ensures in_place { (par : Parameters) (q c m : List ℕ) (e : Error) → FitsKey par
        → Opens par q c m
        → RefusesToOpenInPlace par q c e → (e ≡ errors.Memory) × IsScrypt par.kdf }
{}

/// A ciphertext opens to at most one text under the same scheme and password, and where it opens running out of memory is
/// the only refusal, in place too.
pub fn scheme_decryption_undoes_encryption()
    ensures text { (scheme : EncryptionScheme) (q c m n : List ℕ) → SchemeOpens scheme q c m
        → SchemeOpens scheme q c n → m ≡ n }
    ensures refused { (scheme : EncryptionScheme) (q c m : List ℕ) (e : Error)
        → SchemeOpens scheme q c m
        → SchemeRefusesToOpenIn scheme q c e → e ≡ errors.Memory }
    ensures in_place { (scheme : EncryptionScheme) (q c m : List ℕ) (e : Error)
        → SchemeOpens scheme q c m
        → SchemeRefusesToOpenInPlace scheme q c e → e ≡ errors.Memory }
{}

/// The function that opens gives a text exactly where the ciphertext opens to it.
pub fn opening_is_a_function()
    ensures { (par : Parameters) (q c m : List ℕ) → (opened par q c ≡ Some m) ↔ Opens par q c m }
{}

/// The length of a ciphertext is that of its cipher: in CBC the next greater multiple of a block than the length of
/// its text, and in GCM 16 octets more.
pub fn ciphertext_length()
    ensures { (par : Parameters) (q c m : List ℕ) → Opens par q c m
        → length c ≡ ciphertext_size par.encryption (length m) }
{}

/// Two ciphertexts that open to the same text under the same parameters and password are the same: so what encryption
/// gives is the only ciphertext of its text.
pub fn one_ciphertext_opens_to_a_text()
    ensures { (par : Parameters) (q c d m : List ℕ) → All (λ octet. octet < 256) c
        → All (λ octet. octet < 256) d
        → IsCipher par.encryption → Opens par q c m → Opens par q d m → c ≡ d }
{}
