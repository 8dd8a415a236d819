//! DES (FIPS 46-3): the key schedule, on bits held as octets 0 and 1, and the cipher, on words.

ghost use Rattle.std.specs.Prelude.{◌≡◌, length, reverse};
ghost use Rattle.block_core.specs.Bits.{AreBits};
ghost use Rattle.block_core.specs.Des.{keys_of, round_keys, under_keys, des, inv_des};
ghost use Rattle.block_core.specs.DesWords.{keys_of_words};
ghost use Rattle.block_core.specs.DesLaws.{des_laws};

use crate::bits::{join, pick_bits, rotate, split, to_bits};
use crate::block_cipher::BlockCipher;
use crate::des_tables::{LEFT_SHIFTS, PERMUTED_CHOICE_1, PERMUTED_CHOICE_2};
use crate::des_words::{crypt, pack_keys};

/// The sixteen round keys of `key`, one after the other.
fn schedule(key: &[u8], keys: &mut [u8; 768])
    requires { length key.now ≡ 8 }
    ensures value { keys_of keys.new ≡ round_keys key.now }
    ensures bits { AreBits keys.new }
{
    let mut bits = [0u8; 64];
    to_bits(key, &mut bits);
    let mut chosen = [0u8; 56];
    pick_bits(&PERMUTED_CHOICE_1, &bits, &mut chosen);
    let mut c = [0u8; 28];
    let mut d = [0u8; 28];
    split(&chosen, &mut c, &mut d);
    for i in 0..16 {
        rotate(&mut c, LEFT_SHIFTS[i]);
        rotate(&mut d, LEFT_SHIFTS[i]);
        let mut pair = [0u8; 56];
        join(&c, &d, &mut pair);
        pick_bits(&PERMUTED_CHOICE_2, &pair, &mut keys[48 * i..48 * i + 48]);
    }
}

/// DES with a key of 8 octets, whose parity bits are not looked at.
#[derive(Drop)]
pub struct Des {
    keys: [u32; 32],
}

impl BlockCipher for Des {
    const BLOCK: usize = 8;

    const KEY: usize = 8;

    ghost BLOCK = { 8 };

    ghost KEY = { 8 };

    ghost cipher = { des };

    ghost inverse = { inv_des };

    ghost encryption = { λ s. under_keys (keys_of_words 16 s.keys) };

    ghost decryption = { λ s. under_keys (reverse (keys_of_words 16 s.keys)) };

    ghost laws = { des_laws Self (λ s. keys_of_words 16 s.keys) };

    fn new(key: &[u8]) -> Des {
        let mut bits = [0u8; 768];
        schedule(key, &mut bits);
        let mut keys = [0u32; 32];
        pack_keys(&bits, &mut keys);
        Des { keys }
    }

    fn encrypt_block(&self, block: &mut [u8]) {
        crypt(&self.keys, false, block);
    }

    fn decrypt_block(&self, block: &mut [u8]) {
        crypt(&self.keys, true, block);
    }
}
