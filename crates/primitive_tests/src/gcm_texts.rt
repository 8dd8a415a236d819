//! GCM: the second test case of the paper that NIST SP 800-38D is based on, refusals, and GHASH by single bits.

ghost use Rattle.std.specs.Prelude.{◌≤◌};

use block_core::{Aes128, Aes256, BlockCipher};
use mac_modes::{ModeError, gcm_decrypt, gcm_encrypt};

const SEALED: [u8; 32] =
    *b"\x03\x88\xda\xce\x60\xb6\xa3\x92\xf3\x28\xc2\xb9\x71\xb2\xfe\x78\xab\x6e\x47\xd4\x2c\xec\x13\xbd\xf5\x3a\x67\xb2\x12\x57\xbd\xdf";

/// What encryption under a key and a nonce of zeros returns, of the first `pos` octets.
fn sealed(buffer: &mut [u8], pos: usize) -> Result<usize, ModeError> {
    gcm_encrypt(&Aes128::new(&[0; 16]), &[0; 12], buffer, pos)
}

/// What decryption under a key and a nonce of zeros returns.
fn opened(buffer: &mut [u8]) -> Result<usize, ModeError> {
    gcm_decrypt(&Aes128::new(&[0; 16]), &[0; 12], buffer)
}

#[test]
fn gcm_seals_and_opens_the_text_of_the_standard(rt: HostRuntime) {
    let mut buffer = [0u8; 33];
    buffer[32] = 7;
    assert!(rt;
        sealed(&mut buffer, 16) == Ok(32) && buffer.starts_with(&SEALED) && buffer[32] == 7
    );
    let mut text = SEALED;
    assert!(rt; opened(&mut text) == Ok(16) && text.starts_with(&[0; 16]));
}

#[test]
fn gcm_without_room_leaves_the_buffer(rt: HostRuntime) {
    let mut narrow = [7u8; 31];
    assert!(rt;
        sealed(&mut narrow, 16) == Err(ModeError::NoRoom)
            && narrow == [7u8; 31]
            && sealed(&mut narrow, usize::MAX) == Err(ModeError::NoRoom)
    );
}

#[test]
fn a_text_that_gcm_refuses_is_left(rt: HostRuntime) {
    let mut short = [7u8; 15];
    assert!(rt; opened(&mut short) == Err(ModeError::BadLength) && short == [7u8; 15]);
    let mut flipped = SEALED;
    flipped[31] ^= 1;
    let before = flipped;
    assert!(rt; opened(&mut flipped) == Err(ModeError::BadTag) && flipped == before);
}

// The product of two blocks, bit by bit (NIST SP 800-38D section 6.3).
fn product(x: u128, h: u128) -> u128 {
    let mut sum = 0u128;
    let mut power = h;
    for i in 0..128u32 {
        if x >> (127 - i) & 1 == 1 {
            sum ^= power;
        }
        power = power >> 1 ^ power % 2 * (0xe1 << 120);
    }
    sum
}

fn counter_block(nonce: &[u8; 12], number: u32) -> [u8; 16] {
    let mut block = [0u8; 16];
    block[..12].copy_from_slice(nonce);
    block[12..].copy_from_slice(&number.to_be_bytes());
    block
}

// Encrypts the text in the front of the buffer, and writes its tag after it.
fn seal_plainly(cipher: &Aes256, nonce: &[u8; 12], buffer: &mut [u8; 64], len: usize)
    requires { len ≤ 48 }
{
    let mut zeros = [0u8; 16];
    cipher.encrypt_block(&mut zeros);
    let h = u128::from_be_bytes(zeros);
    let mut y = 0u128;
    for i in 0..3usize {
        let mut stream = counter_block(nonce, i as u32 + 2);
        cipher.encrypt_block(&mut stream);
        let mut block = [0u8; 16];
        for j in 0..16usize {
            let k = 16 * i + j;
            if k < len {
                buffer[k] ^= stream[j];
                block[j] = buffer[k];
            }
        }
        if 16 * i < len {
            y = product(y ^ u128::from_be_bytes(block), h);
        }
    }
    y = product(y ^ 8 * len as u128, h);
    let mut first = counter_block(nonce, 1);
    cipher.encrypt_block(&mut first);
    let tag = (y ^ u128::from_be_bytes(first)).to_be_bytes();
    for j in 0..16usize {
        buffer[len + j] = tag[j];
    }
}

/// Whether so many octets are encrypted as by single bits, and decrypted again.
fn agrees(cipher: &Aes256, len: usize) -> bool
    requires { len ≤ 48 }
{
    let nonce = [1, 2, 3, 4, 5, 6, 7, 8, 9, 10, 11, 12];
    let mut sealed = [0x5a; 64];
    let mut plainly = [0x5a; 64];
    seal_plainly(cipher, &nonce, &mut plainly, len);
    gcm_encrypt(cipher, &nonce, &mut sealed, len) == Ok(len + 16)
        && sealed == plainly
        && gcm_decrypt(cipher, &nonce, &mut sealed[..len + 16]) == Ok(len)
        && sealed.starts_with(&[0x5a; 48][..len])
}

#[test]
fn the_sixteen_products_are_ghash_by_single_bits(rt: HostRuntime) {
    let cipher = Aes256::new(&[0x42; 32]);
    assert!(rt; agrees(&cipher, 0) && agrees(&cipher, 1) && agrees(&cipher, 15));
    assert!(rt; agrees(&cipher, 16) && agrees(&cipher, 17) && agrees(&cipher, 33));
}
