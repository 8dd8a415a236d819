//! AES-256 as FIPS 197 writes it: the steps of a round octet by octet, with products in the field, and no table that is written out.

ghost use Rattle.std.specs.Prelude.{◌≤◌};

/// An octet times x in the field (section 4.2.1).
fn times_x(a: u8) -> u8 {
    if a < 128 { a << 1 } else { (a << 1) ^ 0x1b }
}

fn product(a: u8, b: u8) -> u8 {
    let mut sum = 0;
    let mut power = b;
    for i in 0..8u8 {
        if a >> i & 1 == 1 {
            sum ^= power;
        }
        power = times_x(power);
    }
    sum
}

/// The S-box at `a` (section 5.1.1): the inverse in the field, which is `a` to the power 254, and then the affine transformation.
fn substitute(a: u8) -> u8 {
    let mut inverse = 1;
    for _ in 0..254 {
        inverse = product(inverse, a);
    }
    let mut sum = 0x63;
    for n in 0..5u32 {
        sum ^= inverse.rotate_left(n);
    }
    sum
}

/// The cipher under one key.
#[derive(Drop)]
pub struct PlainAes {
    sub: [u8; 256],
    inv_sub: [u8; 256],
    /// The fifteen round keys, of 16 octets each.
    keys: [u8; 240],
}

/// The key expansion (section 5.2) of eight words.
fn expanded(sub: &[u8; 256], key: &[u8; 32]) -> [u8; 240] {
    let mut keys = [0u8; 240];
    keys[..32].copy_from_slice(key);
    let mut constant = 1u8;
    for i in 8..60 {
        let mut last = [0u8; 4];
        last.copy_from_slice(&keys[4 * i - 4..4 * i]);
        for j in 0..4 {
            let octet = if i % 8 == 0 {
                last[(j + 1) % 4]
            } else {
                last[j]
            };
            let octet = if i % 4 == 0 {
                sub[octet as usize]
            } else {
                octet
            };
            keys[4 * i + j] = keys[4 * i + j - 32] ^ octet;
        }
        if i % 8 == 0 {
            keys[4 * i] ^= constant;
            constant = times_x(constant);
        }
    }
    keys
}

/// Each column times the matrix whose first row is `row`, and each further row that one rotated right (section 5.1.3).
fn mix(row: [u8; 4], s: &mut [u8; 16]) {
    let old = *s;
    for i in 0..16 {
        let column = i / 4 * 4;
        s[i] = 0;
        for j in 0..4 {
            s[i] ^= product(row[j], old[column + (i + j) % 4]);
        }
    }
}

impl PlainAes {
    pub fn new(key: &[u8; 32]) -> PlainAes {
        let mut sub = [0u8; 256];
        let mut inv_sub = [0u8; 256];
        for a in 0..=255u8 {
            let substitute = substitute(a);
            sub[a as usize] = substitute;
            inv_sub[substitute as usize] = a;
        }
        let keys = expanded(&sub, key);
        PlainAes { sub, inv_sub, keys }
    }

    fn add_round_key(&self, n: usize, s: &mut [u8; 16])
        requires { n ≤ 14 }
    {
        for i in 0..16 {
            s[i] ^= self.keys[16 * n + i];
        }
    }

    /// SubBytes and ShiftRows: row r is rotated left by r places.
    fn sub_and_shift(&self, s: &mut [u8; 16]) {
        let old = *s;
        for i in 0..16 {
            s[i] = self.sub[old[(5 * i) % 16] as usize];
        }
    }

    fn inv_sub_and_shift(&self, s: &mut [u8; 16]) {
        let old = *s;
        for i in 0..16 {
            s[i] = self.inv_sub[old[(13 * i) % 16] as usize];
        }
    }

    pub fn encrypt(&self, s: &mut [u8; 16]) {
        self.add_round_key(0, s);
        for i in 1..14 {
            self.sub_and_shift(s);
            mix([0x02, 0x03, 0x01, 0x01], s);
            self.add_round_key(i, s);
        }
        self.sub_and_shift(s);
        self.add_round_key(14, s);
    }

    pub fn decrypt(&self, s: &mut [u8; 16]) {
        self.add_round_key(14, s);
        for i in 1..14 {
            self.inv_sub_and_shift(s);
            self.add_round_key(14 - i, s);
            mix([0x0e, 0x0b, 0x0d, 0x09], s);
        }
        self.inv_sub_and_shift(s);
        self.add_round_key(0, s);
    }
}
