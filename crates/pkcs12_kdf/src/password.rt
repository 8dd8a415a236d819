//! The password of a store.
ghost use Rattle.std.specs.Prelude.{◌≡◌, ◌++◌, ◌+◌, ◌*◌, ◌≤◌, length, IfOk, OnOk};
ghost use Rattle.pkcs12_kdf.specs.Password.{units_of_char, bmp_password};

use octet_core::Octets;
use std::alloc::{AllocError, Global};

/// Adds a character's units, the higher octet of each first.
fn push_char(out: &mut Vec<u8>, character: char) -> Result<(), AllocError>
    ensures { OnOk result (out.new.items ≡ out.old.items ++ units_of_char character) }
{
    let mut pair = [0u16; 2];
    let units: &[u16] = character.encode_utf16(&mut pair);
    for unit in units {
        out.extend_from_slice(&unit.to_be_bytes())?;
    }
    Ok(())
}

/// A password as `Derivation` takes it (RFC 7292 appendix B.1): its UTF-16, the higher octet of each unit first, and two zero
/// octets after it, also for the empty password. These are at most four octets for each of the text, and two. The only refusal
/// is running out of memory.
pub fn utf16_password(alloc: Global, text: &str) -> Result<Octets, AllocError>
    ensures ok { IfOk result (λ q. q ≡ bmp_password text.now) }
    ensures size { IfOk result (λ q. length q ≤ 4 * length text.now + 2) }
{
    let mut octets = Vec::new(alloc);
    for character in text.chars() {
        push_char(&mut octets, character)?;
    }
    octets.extend_from_slice(&[0, 0])?;
    Ok(Octets::from_vec(octets))
}
