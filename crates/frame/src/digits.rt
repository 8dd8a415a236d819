//! Hexadecimal digits. The loops do the same for every octet and end at the last one alone, so that the compiler
//! makes vector instructions of them; two digits are read as one number, which it has an instruction for.
ghost use Rattle.std.specs.Prelude.{◌≡◌, ◌*◌, ◌/◌, ◌%◌, ◌<◌, ◌≤◌, length, slice_index, take, true, false, Ok, Some};
ghost use Rattle.std.specs.List.{AllPass};
ghost use Rattle.frame.specs.InputText.{IsHex};
ghost use Rattle.hex.specs.Hex.{decode_of, encode_lower, hex_digit_value, is_hex_digit, lower_digits};

/// Whether the octet is a hexadecimal digit of either case.
fn is_digit(octet: u8) -> bool
    ensures { result ≡ is_hex_digit octet }
{
    matches!(octet, b'0'..=b'9' | b'A'..=b'F' | b'a'..=b'f')
}

/// Whether all octets are hexadecimal digits.
pub fn are_digits(text: &[u8]) -> bool
    ensures every { result ≡ true → AllPass is_hex_digit text.now }
    ensures some { result ≡ false → AllPass is_hex_digit text.now → ⊥ }
{
    let mut all = true;
    for octet in text {
        all &= is_digit(*octet);
    }
    all
}

/// The value of a hexadecimal digit: `0` is 48, `A` 65 and `a` 97.
fn value(digit: u8) -> u8
    ensures value { is_hex_digit digit ≡ true → hex_digit_value digit ≡ Some result }
    ensures small { result < 16 }
{
    (digit % 16 + digit / 64 * 9) % 16
}

/// Writes the octets that the digits spell. Caller: they are digits, of either case, and twice as many as the octets.
pub fn decode_into(digits: &[u8], octets: &mut [u8])
    requires digits { AllPass is_hex_digit digits.now }
    requires twice { length digits.now ≡ 2 * length octets.old }
    ensures { decode_of digits.now ≡ Ok octets.new }
{
    let (pairs, _) = digits.as_chunks::<2>();
    for i in 0..octets.len() {
        let pair = u16::from_le_bytes(pairs[i]);
        octets[i] = value((pair % 256) as u8) * 16 + value((pair / 256) as u8);
    }
}

/// The most digits that are decoded at once.
const PIECE: usize = 4096;

/// Decodes the digits in front of the text in their own place: the octets that they spell then are in front of it.
/// Whether they are digits, all of them; where one is not, the front of the text may be overwritten.
pub(crate) fn decode_front(text: &mut [u8], count: usize) -> bool
    requires within { count ≤ length text.old }
    requires even { count % 2 ≡ 0 }
    ensures decoded { result ≡ true
        → IsHex (take count text.old) (take (count / 2) text.new) }
    ensures refused { result ≡ false → AllPass is_hex_digit (take count text.old) → ⊥ }
    ensures size { length text.new ≡ length text.old }
{
    let mut octets = [0u8; PIECE / 2];
    let mut done = 0;
    while done < count {
        let more = (count - done).min(PIECE);
        let piece = &text[done..done + more];
        if !are_digits(piece) {
            return false;
        }
        let decoded = &mut octets[..more / 2];
        decode_into(piece, decoded);
        text[done / 2..done / 2 + more / 2].copy_from_slice(decoded);
        done += more;
    }
    true
}

/// The lower-case digit of a value below 16: `0` is 48 and `a` 97.
fn digit(value: u8) -> u8
    requires { value < 16 }
    ensures { result ≡ slice_index lower_digits value }
{
    value + 48 + (value + 6) / 16 * 39
}

/// Writes the lower-case digits of the octets. Caller: there is room for exactly twice as many digits.
pub fn encode_into(octets: &[u8], digits: &mut [u8])
    requires { length digits.old ≡ 2 * length octets.now }
    ensures { digits.new ≡ encode_lower octets.now }
{
    for i in 0..octets.len() {
        let octet = octets[i];
        digits[2 * i] = digit(octet / 16);
        digits[2 * i + 1] = digit(octet % 16);
    }
}
