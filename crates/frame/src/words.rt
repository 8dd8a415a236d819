//! The arguments of a command line, one after the other.
ghost use Rattle.std.specs.Prelude.{◌≡◌, ◌≤◌, ℕ, List, [], ◌∷◌, IfSome, IfNone, MatchOption, decimal, length, map};
ghost use Rattle.std.specs.String.{string_bytes};

use octet_core::decimal_u64_of;

/// The longest password, in octets.
pub const PASSWORD_LIMIT: usize = 1024;

/// The first argument, and those after it; `None` exactly where there is none.
pub fn next_word(words: &[String]) -> Option<(&str, &[String])>
    ensures { MatchOption result (map string_bytes words.now ≡ [])
        (λ r. map string_bytes words.now ≡ r.0.now ∷ map string_bytes r.1.now) }
{
    match words.split_first() {
        Some((word, rest)) => Some((word.as_str(), rest)),
        None => None,
    }
}

/// The arguments after a first argument that is this name; `None` exactly where the first argument is another, or there is none.
pub fn behind_name<'a>(words: &'a [String], name: &str) -> Option<&'a [String]>
    ensures found { IfSome result
        (λ rest. map string_bytes words.now ≡ name.now ∷ map string_bytes rest.now) }
    ensures none { IfNone result
        ((rest : List (List ℕ)) → map string_bytes words.now ≡ name.now ∷ rest → ⊥) }
{
    let (word, rest) = next_word(words)?;
    if word != name {
        return None;
    }
    Some(rest)
}

/// A first argument that may be a password, of at most 1,024 octets, and the arguments after it; `None` exactly where there is
/// none.
pub fn next_password(words: &[String]) -> Option<(&str, &[String])>
    ensures found { IfSome result (λ r. (map string_bytes words.now
        ≡ r.0.now ∷ map string_bytes r.1.now) × (length r.0.now ≤ 1024)) }
    ensures none { IfNone result ((password : List ℕ) (rest : List (List ℕ))
        → length password ≤ 1024 → map string_bytes words.now ≡ password ∷ rest → ⊥) }
{
    let (word, rest) = next_word(words)?;
    if word.len() > PASSWORD_LIMIT {
        return None;
    }
    Some((word, rest))
}

/// The number from `least` to `most` that a first argument writes in decimal digits, with no sign and no leading zero, and
/// the arguments after it; `None` exactly where there is none.
pub fn next_number(words: &[String], least: u64, most: u64) -> Option<(u64, &[String])>
    ensures found { IfSome result (λ r. (map string_bytes words.now
        ≡ decimal r.0 ∷ map string_bytes r.1.now) × (least ≤ r.0) × (r.0 ≤ most)) }
    ensures none { IfNone result ((n : ℕ) (rest : List (List ℕ)) → least ≤ n → n ≤ most
        → map string_bytes words.now ≡ decimal n ∷ rest → ⊥) }
{
    let (word, rest) = next_word(words)?;
    let n = decimal_u64_of(word)?;
    if n < least {
        return None;
    }
    if n > most {
        return None;
    }
    Some((n, rest))
}
