//! Blocks under RC2.
use block_core::BlockCipher;
use legacy_ciphers::{Rc2Of40, Rc2Of128};

// Of RFC 2268 section 5.
#[test]
fn keys_of_128_bits(rt: HostRuntime) {
    let key = [
        0x88, 0xbc, 0xa9, 0x0e, 0x90, 0x87, 0x5a, 0x7f, 0x0f, 0x79, 0xc3, 0x84, 0x62, 0x7b, 0xaf,
        0xb2,
    ];
    let cipher = Rc2Of128::new(&key);
    let mut block = [0u8; 8];
    cipher.encrypt_block(&mut block);
    assert_eq!(rt; block, [0x22, 0x69, 0x55, 0x2a, 0xb0, 0xf8, 0x5c, 0xa6]);
    cipher.decrypt_block(&mut block);
    assert_eq!(rt; block, [0u8; 8]);
}

// Of OpenSSL 3.0.19: openssl enc -rc2-40-cbc -nopad, of its legacy provider, under an IV of zeros.
#[test]
fn keys_of_40_bits(rt: HostRuntime) {
    let cipher = Rc2Of40::new(&[1, 2, 3, 4, 5]);
    let mut block = [0x00, 0x11, 0x22, 0x33, 0x44, 0x55, 0x66, 0x77];
    cipher.encrypt_block(&mut block);
    assert_eq!(rt; block, [0xf3, 0xba, 0xe3, 0xa8, 0x99, 0x82, 0xf1, 0x9f]);
    cipher.decrypt_block(&mut block);
    assert_eq!(rt; block, [0x00, 0x11, 0x22, 0x33, 0x44, 0x55, 0x66, 0x77]);
}
