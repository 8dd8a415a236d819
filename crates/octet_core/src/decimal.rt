//! Decimal numbers.
ghost use Rattle.std.specs.Prelude.{◌≡◌, ℕ, ◌<◌, ◌^◌, IfSome, IfNone, decimal};

/// The number below 2^64 that the word writes in decimal digits, with no sign and no leading zero; none exactly where it
/// writes none.
pub fn decimal_u64_of(word: &str) -> Option<u64>
    ensures found { IfSome result (λ n. (n < 2 ^ 64) × (word.now ≡ decimal n)) }
    ensures none { IfNone result ((n : ℕ) → n < 2 ^ 64 → word.now ≡ decimal n → ⊥) }
{
    let digits = word.as_bytes();
    if digits.is_empty() {
        return None;
    }
    if digits[0] == b'+' {
        return None;
    }
    if digits[0] == b'0' && digits.len() > 1 {
        return None;
    }
    word.parse().ok()
}

/// The number below 2^32 that the word writes in decimal digits, with no sign and no leading zero; none exactly where it
/// writes none.
pub fn decimal_of(word: &str) -> Option<u32>
    ensures found { IfSome result (λ n. (n < 2 ^ 32) × (word.now ≡ decimal n)) }
    ensures none { IfNone result ((n : ℕ) → n < 2 ^ 32 → word.now ≡ decimal n → ⊥) }
{
    let Some(number) = decimal_u64_of(word) else {
        return None;
    };
    if number > u32::MAX as u64 {
        return None;
    }
    Some(number as u32)
}
