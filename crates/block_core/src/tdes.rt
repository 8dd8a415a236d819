//! Triple DES (FIPS 46-3).

ghost use Rattle.block_core.specs.DesWords.{keys_of_words};
ghost use Rattle.block_core.specs.Tdes.{tdes, inv_tdes, under_three, back_under_three};
ghost use Rattle.block_core.specs.TdesLaws.{tdes_laws};

use crate::block_cipher::BlockCipher;
use crate::des::Des;

/// Triple DES with three keys of 8 octets: encryption with the first, decryption with the second, encryption with the
/// third.
#[derive(Drop)]
pub struct TdesEde3 {
    first: Des,
    second: Des,
    third: Des,
}

impl BlockCipher for TdesEde3 {
    const BLOCK: usize = 8;

    const KEY: usize = 24;

    ghost BLOCK = { 8 };

    ghost KEY = { 24 };

    ghost cipher = { tdes };

    ghost inverse = { inv_tdes };

    ghost encryption = { λ s. under_three (keys_of_words 16 s.first.keys)
        (keys_of_words 16 s.second.keys)
        (keys_of_words 16 s.third.keys) };

    ghost decryption = { λ s. back_under_three (keys_of_words 16 s.first.keys)
        (keys_of_words 16 s.second.keys)
        (keys_of_words 16 s.third.keys) };

    ghost laws = { tdes_laws Self (λ s. keys_of_words 16 s.first.keys)
        (λ s. keys_of_words 16 s.second.keys)
        (λ s. keys_of_words 16 s.third.keys) };

    fn new(key: &[u8]) -> TdesEde3 {
        let first = Des::new(&key[..8]);
        let second = Des::new(&key[8..16]);
        let third = Des::new(&key[16..24]);
        TdesEde3 {
            first,
            second,
            third,
        }
    }

    #[tactic(auto, unfolding(crate::specs::Tdes::under_three))]
    fn encrypt_block(&self, block: &mut [u8]) {
        self.first.encrypt_block(block);
        self.second.decrypt_block(block);
        self.third.encrypt_block(block);
    }

    #[tactic(auto, unfolding(crate::specs::Tdes::back_under_three))]
    fn decrypt_block(&self, block: &mut [u8]) {
        self.third.decrypt_block(block);
        self.second.encrypt_block(block);
        self.first.decrypt_block(block);
    }
}
