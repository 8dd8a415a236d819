//! Laws of texts, each the contract of a function that does nothing.
ghost use Rattle.std.specs.Prelude.{◌≡◌, ◌↔◌, ◌≤◌, ◌^◌, ℕ, List, length, Ok};
ghost use Rattle.asn1_core.specs.Der.{IsShort};
ghost use Rattle.asn1_core.specs.Reading.{left, whole, within};
ghost use Rattle.der_core.specs.BitString.{seen_bits};
ghost use Rattle.pkcs5.specs.Kinds.{IsDes};
ghost use Rattle.pkcs5.specs.Opening.{FitsKey};
ghost use Rattle.pkcs5.specs.Parameters.{AreParameters as ArePbes2};
ghost use Rattle.pkcs5.specs.Scheme.{IsScheme};
ghost use Rattle.pkcs5.specs.SchemeOpening.{SchemeOpens};
ghost use Rattle.pkcs5.specs.declared.encryption_scheme.EncryptionScheme.{EncryptionScheme};
ghost use Rattle.pkcs5.specs.declared.encryption_scheme.EncryptionScheme.TheVariants.{Pbes2};
ghost use Rattle.pkcs5.specs.declared.pbes2.parameters.Parameters.{Parameters};
ghost use Rattle.spki.specs.Seen.{borrowed_any};
ghost use Rattle.spki.specs.Spelling.{AreParameters};
ghost use Rattle.pkcs8.specs.EncryptedPrivateKeyInfo.{IsEncryptedKey, SpellsEncryptedKey, encrypted_key, encrypted_key_at};
ghost use Rattle.asn1_core.specs.Der.{octets};
ghost use Rattle.pkcs8.specs.PrivateKeyInfo.{AreAttributes, AreFurther};
ghost use Rattle.pkcs8.specs.Sealing.{IsSealed, RefusesToEncryptKey};
ghost use Rattle.pkcs8.specs.declared.error.Error.{Error};
ghost use Rattle.pkcs8.specs.declared.error.Error.TheVariants.{Memory};
ghost use Rattle.pkcs8.specs.declared.encrypted_private_key_info.EncryptedPrivateKeyInfo.{EncryptedPrivateKeyInfo};
ghost use Rattle.pkcs8.specs.Seen.{AnyPrivateKey, IsPrivateKey, seen_private_key};
ghost use Rattle.pkcs8.specs.Spelling.{AreBits, private_key_spelling, private_key_text};

use crate::private_key_info::PrivateKeyInfoRef;
use der_core::Encode;

/// A text is that of one private key at most.
pub fn texts_have_one_private_key()
    ensures { (b : List ℕ) (k l : AnyPrivateKey) → IsPrivateKey b k → IsPrivateKey b l → k ≡ l }
{}

/// The texts of a private key are its spellings, by the attributes and the further fields that are in them, and
/// nothing else is a text of it.
pub fn private_keys_are_spelled()
    ensures { (b : List ℕ) (k : AnyPrivateKey) → IsPrivateKey b k
        ↔ (AreParameters k.algorithm.parameters × AreBits k.public_key
        × ((x : List ℕ) × (y : List ℕ) × AreAttributes x × AreFurther y
        × (b ≡ private_key_spelling k x y))
        × IsShort b) }
{}

/// The text that is written of a private key is one of its texts.
pub fn private_keys_have_a_text()
    ensures { (k : AnyPrivateKey) → AreParameters k.algorithm.parameters → AreBits k.public_key
        → IsShort (private_key_text k) → IsPrivateKey (private_key_text k) k }
{}

/// What is written of a private key is its text without attributes and further fields.
pub fn private_keys_are_written<'a>(key: &PrivateKeyInfoRef<'a>)
    ensures { ⟦<PrivateKeyInfoRef<'a> as Encode>⟧.canon key.now
        ≡ private_key_text (seen_private_key borrowed_any (λ s. s.octets.now)
        (λ s. seen_bits s.unused_bits s.octets.now) key.now) }
{
    let _ = key;
}

/// The text that is written of a private key is no longer than any text of it.
pub fn written_keys_are_shortest()
    ensures { (b : List ℕ) (k : AnyPrivateKey) → IsPrivateKey b k
        → length (private_key_text k) ≤ length b }
{}

/// Under parameters that give a key, and to a cipher other than DES, a private key of which at most 2^31 octets are
/// written is encrypted: running out of memory is the one refusal.
pub fn short_keys_are_encrypted<'a>(key: &PrivateKeyInfoRef<'a>)
    ensures { (par : Parameters) (q : List ℕ) (e : Error) → ArePbes2 par → FitsKey par
        → ¬ IsDes par.encryption
        → length (⟦<PrivateKeyInfoRef<'a> as Encode>⟧.canon key.now) ≤ 2 ^ 31
        → RefusesToEncryptKey (⟦<PrivateKeyInfoRef<'a> as Encode>⟧.writable key.now) par q
        (⟦<PrivateKeyInfoRef<'a> as Encode>⟧.canon key.now) e → e ≡ Memory }
{
    let _ = key;
}

/// A text is that of one encrypted key at most.
pub fn texts_have_one_encrypted_key()
    ensures { (b : List ℕ) (k l : EncryptedPrivateKeyInfo (List ℕ)) → IsEncryptedKey b k
        → IsEncryptedKey b l → k ≡ l }
{}

/// The texts that are read as an encrypted key are those that a spelling of its scheme and its ciphertext make, and
/// nothing else.
pub fn encrypted_keys_are_spelled()
    ensures { (b : List ℕ) (s : EncryptionScheme) (c : List ℕ)
        → whole (encrypted_key_at (within 0x04 left)) b ≡ Ok (encrypted_key s c)
        ↔ (IsScheme s × SpellsEncryptedKey (λ t d. t ≡ octets d) b s c × IsShort b) }
{}

/// A sealed document is the text of an encrypted key, which opens under its password to what was sealed.
pub fn sealed_documents_open()
    ensures { (par : Parameters) (q m b : List ℕ) → ArePbes2 par → FitsKey par → IsShort b
        → IsSealed par q m b
        → (c : List ℕ) × IsEncryptedKey b (encrypted_key (Pbes2 par) c)
        × SchemeOpens (Pbes2 par) q c m }
{}
