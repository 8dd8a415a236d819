//! Callers of `block_core`, as its page shows them.
ghost use Rattle.std.specs.Prelude.{◌≡◌, length};
ghost use Rattle.block_core.specs.Tdes.{tdes};

use block_core::{BlockCipher, TdesEde3};

fn encrypt_once(key: &[u8], block: &mut [u8])
    requires key { length key.now ≡ 24 }
    requires block { length block.old ≡ 8 }
    ensures { block.new ≡ tdes key.now block.old }
{
    let cipher = TdesEde3::new(key);
    cipher.encrypt_block(block);
}

fn there_and_back<C: BlockCipher>(cipher: &C, block: &mut [u8])
    requires { length block.old ≡ C.BLOCK }
    ensures { block.new ≡ block.old }
{
    cipher.encrypt_block(block);
    cipher.decrypt_block(block);
}

/// The keys of NIST SP 800-67 appendix B.
const KEYS: [u8; 24] = [
    0x01, 0x23, 0x45, 0x67, 0x89, 0xab, 0xcd, 0xef, 0x23, 0x45, 0x67, 0x89, 0xab, 0xcd, 0xef, 0x01,
    0x45, 0x67, 0x89, 0xab, 0xcd, 0xef, 0x01, 0x23,
];

#[test]
fn the_example_of_the_standard_is_encrypted(rt: HostRuntime) {
    let mut block = *b"The qufc";
    encrypt_once(&KEYS, &mut block);
    assert!(rt; block == [0xa8, 0x26, 0xfd, 0x8c, 0xe5, 0x3b, 0x85, 0x5f]);
}

#[test]
fn a_block_comes_back(rt: HostRuntime) {
    let mut block = *b"The qufc";
    there_and_back(&TdesEde3::new(&KEYS), &mut block);
    assert!(rt; block == *b"The qufc");
}
