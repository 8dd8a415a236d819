//! Laws of the definitions, each stated by the contract of a function that does nothing.
ghost use Rattle.std.specs.Prelude.{◌≡◌, ℕ, ◌≤◌, ◌<◌, ◌%◌, List, length, All};
ghost use Rattle.mac_modes.specs.Gcm.{gcm};
ghost use Rattle.mac_modes.specs.Cbc.{uncbc};
ghost use Rattle.mac_modes.specs.Padding.{padded};

use block_core::BlockCipher;

/// Two ciphertexts of whole blocks that decrypt to the same text are the same: so what `cbc_encrypt_padded` leaves is
/// the only ciphertext of its text.
pub fn ciphertext_is_unique<C: BlockCipher>()
    ensures { (s : C) (iv c d : List ℕ) → length iv ≡ C.BLOCK
        → All (λ octet. octet < 256) c → length c % C.BLOCK ≡ 0
        → All (λ octet. octet < 256) d → length d % C.BLOCK ≡ 0
        → uncbc (C.decryption s) C.BLOCK iv c ≡ uncbc (C.decryption s) C.BLOCK iv d → c ≡ d }
{}

/// Two texts that are the same with their padding are the same: so what `cbc_decrypt_padded` returns is the only text
/// of its ciphertext.
pub fn padded_text_is_unique()
    ensures { (n : ℕ) (m k : List ℕ) → 1 ≤ n → padded m n ≡ padded k n → m ≡ k }
{}

/// Two texts that GCM seals to the same are the same: so what `gcm_decrypt` returns is the only text of its
/// ciphertext and tag.
pub fn sealed_text_is_unique<C: BlockCipher>()
    ensures { C.BLOCK ≡ 16 → (s : C) (nonce m k : List ℕ) → length nonce ≡ 12
        → All (λ octet. octet < 256) nonce
        → gcm (C.encryption s) nonce m ≡ gcm (C.encryption s) nonce k → m ≡ k }
{}
