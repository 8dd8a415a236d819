//! The trait of block ciphers.

ghost use Rattle.std.specs.Prelude.{◌≡◌, ℕ, List, length};
ghost use Rattle.block_core.specs.BlockCipher.{CipherLaws};

/// A block cipher: under each key a permutation of the blocks, which have 1 to 16 octets.
pub trait BlockCipher: Sized {
    /// The octets of a block.
    const BLOCK: usize;

    /// The octets of a key.
    const KEY: usize;

    ghost BLOCK: { ℕ };

    ghost KEY: { ℕ };

    // the standard's permutation under a key, and its inverse
    ghost cipher: { List ℕ → List ℕ → List ℕ };

    ghost inverse: { List ℕ → List ℕ → List ℕ };

    // the permutation that a value computes, and its inverse
    ghost encryption: { Self → List ℕ → List ℕ };

    ghost decryption: { Self → List ℕ → List ℕ };

    ghost laws: { CipherLaws Self BLOCK encryption decryption };

    /// The cipher under `key`, which has `KEY` octets.
    fn new(key: &[u8]) -> Self
        requires { length key.now ≡ KEY }
        ensures forward { encryption result ≡ cipher key.now }
        ensures backward { decryption result ≡ inverse key.now };

    /// Encrypts `block`, which has `BLOCK` octets, in place.
    fn encrypt_block(&self, block: &mut [u8])
        requires { length block.old ≡ BLOCK }
        ensures { block.new ≡ encryption self.now block.old };

    /// Decrypts `block`, which has `BLOCK` octets, in place.
    fn decrypt_block(&self, block: &mut [u8])
        requires { length block.old ≡ BLOCK }
        ensures { block.new ≡ decryption self.now block.old };
}
