//! Long chains of blocks, each made of the one before, against the standards' steps written plainly: each entry of each table is
//! looked up, so that one that is misprinted both in the code and in the definition would show. The last block is OpenSSL's.

mod plain_aes;
mod plain_des;

use block_core::{Aes256, BlockCipher, TdesEde3, xor_into};
use plain_aes::PlainAes;

const CHAIN: usize = 20_000;

/// The octets 0 to 31.
fn counted() -> [u8; 32] {
    let mut key = [0u8; 32];
    for i in 0..32u8 {
        key[i as usize] = i;
    }
    key
}

/// Whether both ciphers encrypt the block alike, and decrypt it alike; it is then the encrypted one.
fn encrypt_alike(cipher: &Aes256, plain: &PlainAes, block: &mut [u8; 16]) -> bool {
    let mut back = *block;
    plain.decrypt(&mut back);
    let mut undone = *block;
    cipher.decrypt_block(&mut undone);
    let mut expected = *block;
    plain.encrypt(&mut expected);
    cipher.encrypt_block(block);
    undone == back && *block == expected
}

// head -c 320000 /dev/zero | openssl enc -aes-256-cbc -K KEY -iv BLOCK -nopad | tail -c 16
#[test]
fn a_chain_of_aes_is_that_of_the_plain_steps(rt: HostRuntime) {
    let key = counted();
    let cipher = Aes256::new(&key);
    let plain = PlainAes::new(&key);
    let mut block = 0x0011_2233_4455_6677_8899_aabb_ccdd_eeffu128.to_be_bytes();
    for _ in 0..CHAIN {
        assert!(rt; encrypt_alike(&cipher, &plain, &mut block));
    }
    assert!(rt; u128::from_be_bytes(block) == 0x0fb7_2386_5cc8_3eff_adff_7ad5_08f8_9fd1);
}

/// The block that the plain steps make of a block under the round keys of three keys.
fn encrypted_plainly(keys: &[[u64; 16]; 3], block: u64) -> u64 {
    let once = plain_des::crypt(&keys[0], false, block);
    let twice = plain_des::crypt(&keys[1], true, once);
    plain_des::crypt(&keys[2], false, twice)
}

// The same with 160000 octets and -des-ede3-cbc.
#[test]
fn a_chain_of_triple_des_is_that_of_the_plain_steps(rt: HostRuntime) {
    let cipher = TdesEde3::new(
        b"\x01\x23\x45\x67\x89\xab\xcd\xef\x23\x45\x67\x89\xab\xcd\xef\x01\x45\x67\x89\xab\xcd\xef\x01\x23",
    );
    let keys = [
        plain_des::round_keys(0x0123_4567_89ab_cdef),
        plain_des::round_keys(0x2345_6789_abcd_ef01),
        plain_des::round_keys(0x4567_89ab_cdef_0123),
    ];
    let mut block = 0x0123_4567_89ab_cdefu64.to_be_bytes();
    for _ in 0..CHAIN {
        let expected = encrypted_plainly(&keys, u64::from_be_bytes(block));
        cipher.encrypt_block(&mut block);
        assert!(rt; u64::from_be_bytes(block) == expected);
    }
    assert!(rt; u64::from_be_bytes(block) == 0x16ef_7ede_cfd5_688b);
}

#[test]
fn octets_are_xored(rt: HostRuntime) {
    let mut octets = [0x0f, 0xf0, 0xff];
    xor_into(&mut octets, &[0xff, 0x0f, 0xff]);
    assert!(rt; octets == [0xf0, 0xff, 0x00]);
}
