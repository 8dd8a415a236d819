//! Signs that octets are in BER, which DER does not have (X.690 sections 8.1.3 and 10.1, 10.2).
ghost use Rattle.std.specs.Prelude.{◌≤◌, IfSome, length};

/// What BER has and DER has not.
#[derive(Clone, Copy)]
pub enum Form {
    IndefiniteLength,
    StringInParts,
    LongLength,
}

impl Form {
    /// What it is called.
    pub fn name(self) -> &'static str {
        match self {
            Form::IndefiniteLength => "an element of indefinite length",
            Form::StringInParts => "a string in parts",
            Form::LongLength => "a length in more octets than it takes",
        }
    }
}

/// The first such sign, and the octet at which its element begins, counted from 0.
#[derive(Clone, Copy)]
pub struct NotDer {
    pub at: usize,
    pub form: Form,
}

enum Step<'a> {
    Found(Form),
    /// What comes after the element, or after its header where it has elements inside.
    After(&'a [u8]),
    End,
}

/// A length in the long form (X.690 section 8.1.3.5), of `count` octets.
fn long_length(count: u8, octets: &[u8]) -> Option<u64>
    ensures { IfSome result (λ _. count ≤ length octets.now) }
{
    if count > 4 || octets.len() < count as usize {
        return None;
    }
    let mut length: u64 = 0;
    for octet in &octets[..count as usize] {
        length = length % 0x0100_0000 * 0x100 + u64::from(*octet);
    }
    Some(length)
}

/// What comes after an element with this many octets of value, or after its header.
fn after(constructed: bool, length: u64, value: &[u8]) -> Step<'_> {
    if constructed {
        return Step::After(value);
    }
    if length > value.len() as u64 {
        return Step::End;
    }
    Step::After(&value[length as usize..])
}

fn step_over(octets: &[u8]) -> Step<'_> {
    let [tag, length, value @ ..] = octets else {
        return Step::End;
    };
    let (tag, length) = (*tag, *length);
    let constructed = tag & 0x20 != 0;
    if tag % 32 == 31 {
        return Step::End;
    }
    if length == 0x80 {
        return if constructed {
            Step::Found(Form::IndefiniteLength)
        } else {
            Step::End
        };
    }
    if constructed && is_string(tag) {
        return Step::Found(Form::StringInParts);
    }
    if length < 0x80 {
        return after(constructed, u64::from(length), value);
    }
    let count = length - 0x80;
    let Some(long) = long_length(count, value) else {
        return Step::End;
    };
    if is_too_long(count, long) {
        return Step::Found(Form::LongLength);
    }
    after(constructed, long, &value[count as usize..])
}

/// Whether the tag is that of a string type of the universal class, in parts.
fn is_string(tag: u8) -> bool {
    matches!(
        tag,
        0x23 | 0x24 | 0x2c | 0x33 | 0x34 | 0x36 | 0x3a | 0x3c | 0x3e
    )
}

/// Whether fewer than `count` octets would do for the length.
fn is_too_long(count: u8, length: u64) -> bool {
    length < 0x80
        || count == 2 && length < 0x100
        || count == 3 && length < 0x1_0000
        || count == 4 && length < 0x100_0000
}

/// The first sign of BER in these octets, which are walked as elements from the front.
pub fn not_der(octets: &[u8]) -> Option<NotDer> {
    let mut rest = octets;
    for _ in 0..octets.len() {
        match step_over(rest) {
            Step::Found(form) => {
                return Some(NotDer {
                    at: octets.len().saturating_sub(rest.len()),
                    form,
                });
            }
            Step::After(after) => rest = after,
            Step::End => return None,
        }
    }
    None
}
