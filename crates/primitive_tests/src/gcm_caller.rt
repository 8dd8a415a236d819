//! A caller of the crate, as `README.md` shows it.

ghost use Rattle.std.specs.Prelude.{◌≡◌, take, IfOk};
ghost use Rattle.block_core.specs.Aes.{aes_256};
ghost use Rattle.mac_modes.specs.Gcm.{gcm};

use block_core::{Aes256, BlockCipher};
use mac_modes::{ModeError, gcm_decrypt};

/// Opens a text in place.
fn open(key: &[u8; 32], nonce: &[u8; 12], buffer: &mut [u8]) -> Result<usize, ModeError>
    ensures { IfOk result (λ len. gcm (aes_256 key.now) nonce.now (take len buffer.new)
        ≡ buffer.old) }
{
    gcm_decrypt(&Aes256::new(key), nonce, buffer)
}

// the first case of the paper that NIST SP 800-38D is based on, with a key of 32 octets
#[test]
fn an_empty_text_is_opened(rt: HostRuntime) {
    let mut tag = *b"\x53\x0f\x8a\xfb\xc7\x45\x36\xb9\xa9\x63\xb4\xf1\xc4\xcb\x73\x8b";
    assert!(rt; open(&[0; 32], &[0; 12], &mut tag) == Ok(0));
}
