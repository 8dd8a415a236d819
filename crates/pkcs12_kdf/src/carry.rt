//! Addition of big-endian numbers of as many octets as a block has, in place.
ghost use Rattle.std.specs.Prelude.{◌≡◌, ℕ, ◌+◌, ◌*◌, ◌/◌, ◌%◌, ◌<◌, ◌≤◌, ◌^◌, length, map};
ghost use Rattle.pkcs12_kdf.specs.Numbers.{number, numbers};

/// Adds `addend` and 1 to the number in `block`, modulo 2 to the power of its bits.
fn add_to_block(block: &mut [u8], addend: &[u8])
    requires { length block.old ≡ length addend.now }
    ensures { number block.new
        ≡ (number block.old + number addend.now + 1) % 256 ^ length addend.now }
{
    let mut carry: u16 = 1;
    for i in (0..addend.len()).rev() {
        let sum = block[i] as u16 + addend[i] as u16 + carry;
        block[i] = (sum % 256) as u8;
        carry = sum / 256;
    }
}

/// Adds `addend` and 1 to the number in each block of as many octets, modulo 2 to the power of its bits: no carry passes from
/// one block to the next.
pub(crate) fn add_to_blocks(text: &mut [u8], addend: &[u8])
    requires { 0 < length addend.now }
    ensures { numbers (length addend.now) text.new
        ≡ map (λ x. (x + number addend.now + 1) % 256 ^ length addend.now)
        (numbers (length addend.now) text.old) }
{
    let size = addend.len();
    for k in 0..text.len() / size {
        add_to_block(&mut text[size * k..size * k + size], addend);
    }
}
