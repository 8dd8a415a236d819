//! CBC with padding: a vector of NIST SP 800-38A section F.2 with the padding block that OpenSSL puts after it, a text
//! under Triple DES that OpenSSL encrypted, and refusals. Both are decrypted by `tests/vectors/modes_and_keys_standards.txt`.
ghost use Rattle.std.specs.Prelude.{◌≡◌, ◌≤◌, length};

use block_core::{Aes128, BlockCipher, Des, TdesEde3};
use mac_modes::{ModeError, cbc_decrypt_padded, cbc_encrypt_padded};

/// The plaintext of SP 800-38A.
const TEXT: [u8; 64] = [
    0x6b, 0xc1, 0xbe, 0xe2, 0x2e, 0x40, 0x9f, 0x96, 0xe9, 0x3d, 0x7e, 0x11, 0x73, 0x93, 0x17, 0x2a,
    0xae, 0x2d, 0x8a, 0x57, 0x1e, 0x03, 0xac, 0x9c, 0x9e, 0xb7, 0x6f, 0xac, 0x45, 0xaf, 0x8e, 0x51,
    0x30, 0xc8, 0x1c, 0x46, 0xa3, 0x5c, 0xe4, 0x11, 0xe5, 0xfb, 0xc1, 0x19, 0x1a, 0x0a, 0x52, 0xef,
    0xf6, 0x9f, 0x24, 0x45, 0xdf, 0x4f, 0x9b, 0x17, 0xad, 0x2b, 0x41, 0x7b, 0xe6, 0x6c, 0x37, 0x10,
];

/// The initialization vector of SP 800-38A.
const IV: [u8; 16] = [
    0x00, 0x01, 0x02, 0x03, 0x04, 0x05, 0x06, 0x07, 0x08, 0x09, 0x0a, 0x0b, 0x0c, 0x0d, 0x0e, 0x0f,
];

/// An initialization vector for blocks of 8 octets.
const SHORT_IV: [u8; 8] = [0xf6, 0x9f, 0x24, 0x45, 0xdf, 0x4f, 0x9b, 0x17];

/// A key of DES.
const KEY: [u8; 8] = *b"\x01\x23\x45\x67\x89\xab\xcd\xef";

/// The octets in the front of a buffer that has room for padding.
fn buffer(octets: &[u8]) -> [u8; 96]
    requires { length octets.now ≤ 96 }
{
    let mut buffer = [0x55; 96];
    buffer[..octets.len()].copy_from_slice(octets);
    buffer
}

/// Whether the text is encrypted to the ciphertext, and the octets after stay.
fn seals<C: BlockCipher>(cipher: &C, iv: &[u8], text: &[u8], ciphertext: &[u8]) -> bool
    requires iv { length iv.now ≡ C.BLOCK }
    requires text { length text.now ≤ 96 }
    requires ciphertext { length ciphertext.now ≤ 96 }
{
    let mut sealed = buffer(text);
    let len = cbc_encrypt_padded(cipher, iv, &mut sealed, text.len());
    len == Ok(ciphertext.len()) && sealed.as_slice() == buffer(ciphertext).as_slice()
}

#[test]
fn cbc_of_aes_128_is_that_of_the_standard(rt: HostRuntime) {
    let cipher = Aes128::new(b"\x2b\x7e\x15\x16\x28\xae\xd2\xa6\xab\xf7\x15\x88\x09\xcf\x4f\x3c");
    let ciphertext =
        b"\x76\x49\xab\xac\x81\x19\xb2\x46\xce\xe9\x8e\x9b\x12\xe9\x19\x7d\x50\x86\xcb\x9b\x50\x72\x19\xee\x95\xdb\x11\x3a\x91\x76\x78\xb2\x73\xbe\xd6\xb8\xe3\xc1\x74\x3b\x71\x16\xe6\x9e\x22\x22\x95\x16\x3f\xf1\xca\xa1\x68\x1f\xac\x09\x12\x0e\xca\x30\x75\x86\xe1\xa7\x8c\xb8\x28\x07\x23\x0e\x13\x21\xd3\xfa\xe0\x0d\x18\xcc\x20\x12";
    assert!(rt; seals(&cipher, &IV, &TEXT, ciphertext));
}

#[test]
fn cbc_of_triple_des_is_that_of_openssl(rt: HostRuntime) {
    let cipher = TdesEde3::new(
        b"\x01\x23\x45\x67\x89\xab\xcd\xef\x23\x45\x67\x89\xab\xcd\xef\x01\x45\x67\x89\xab\xcd\xef\x01\x23",
    );
    let ciphertext =
        b"\x20\x79\xc3\xd5\x3a\xa7\x63\xe1\x93\xb7\x9e\x25\x69\xab\x52\x62\x51\x65\x70\x48\x1f\x25\xb5\x0f\x73\xc0\xbd\xa8\x5c\x8e\x0d\xa7\x37\x2c\xd9\x79\xe6\xde\x70\x3a";
    assert!(rt; seals(&cipher, &SHORT_IV, &TEXT[..37], ciphertext));
}

/// What the encryption under DES of the first `pos` octets returns.
fn sealed(buffer: &mut [u8], pos: usize) -> Result<usize, ModeError> {
    cbc_encrypt_padded(&Des::new(&KEY), &SHORT_IV, buffer, pos)
}

#[test]
fn a_whole_block_needs_room_for_a_block_of_padding(rt: HostRuntime) {
    let mut narrow = [7u8; 8];
    assert!(rt; sealed(&mut narrow, 8) == Err(ModeError::NoRoom) && narrow == [7u8; 8]);
    assert!(rt; sealed(&mut [7u8; 16], 8) == Ok(16));
}

/// Whether decryption under DES refuses these octets.
fn refuses(octets: &mut [u8], refusal: ModeError) -> bool {
    cbc_decrypt_padded(&Des::new(&KEY), &SHORT_IV, octets) == Err(refusal)
}

#[test]
fn no_text_of_cbc_is_empty_or_broken_off(rt: HostRuntime) {
    let mut broken = [7u8; 7];
    assert!(rt;
        refuses(&mut [], ModeError::BadLength)
            && refuses(&mut broken, ModeError::BadLength)
            && broken == [7u8; 7]
    );
}

#[test]
fn padding_is_read_whole(rt: HostRuntime) {
    // decrypts to 13 octets and 02 03 03
    let mut other = *b"\x2d\x12\x1f\x90\xfc\xf6\x86\x31\x21\x12\x1f\x41\x7c\xed\xf5\xb9";
    assert!(rt; refuses(&mut other, ModeError::BadPadding) && other.starts_with(&TEXT[..13]));
    // decrypts to eight octets 09
    let mut nine = *b"\x7b\xc9\x6f\xc0\xed\x32\x13\x7f";
    assert!(rt; refuses(&mut nine, ModeError::BadPadding) && nine == [9u8; 8]);
}
