//! The rounds of PBKDF2.
ghost use Rattle.std.specs.Prelude.{◌≡◌, IfNone, IfSome};
ghost use Rattle.pkcs12_c.specs.Answers.{AreRounds};

use rekey_core::Rounds;

/// The most rounds of a document, or of a store.
pub const ROUNDS: u32 = 100_000_000;

/// So many rounds; none where they are not 1 to 100,000,000.
pub fn rounds_of(rounds: u32) -> Option<Rounds>
    ensures some { IfSome result (λ k. (k.count ≡ rounds) × AreRounds rounds) }
    ensures none { IfNone result (AreRounds rounds → ⊥) }
{
    if rounds > ROUNDS {
        return None;
    }
    Rounds::new(rounds)
}
