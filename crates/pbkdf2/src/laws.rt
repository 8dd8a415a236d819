//! Laws of PBKDF2, each stated by the contract of a function that does nothing.
ghost use Rattle.pbkdf2.specs.Hashes.{GivenIsNotRefused};
ghost use Rattle.pbkdf2.specs.Params.{WrittenIsReadBack};
ghost use Rattle.pbkdf2.specs.Pbkdf2.{HasItsLength, ShorterIsPrefix, ZeroIsOne};

/// For one function, salt and number of rounds a shorter output is a prefix of a longer one.
#[tactic(auto, using(crate::proofs::Xors::shorter_is_prefix))]
pub fn shorter_output_is_a_prefix()
    ensures { ShorterIsPrefix }
{}

/// PBKDF2 with zero rounds is that with one round.
#[tactic(auto, using(crate::proofs::Xors::zero_is_one))]
pub fn zero_rounds_is_one_round()
    ensures { ZeroIsOne }
{}

/// An output has as many octets as are asked for.
#[tactic(auto, using(crate::proofs::Xors::has_its_length))]
pub fn output_has_its_length()
    ensures { HasItsLength }
{}

/// Settings within their bounds are written as a parameter text, which gives them back: so a hash that was made is accepted.
pub fn written_settings_are_read_back()
    ensures { WrittenIsReadBack }
{}

/// A hash whose settings are given is not refused for them, whatever the refusal.
pub fn given_settings_are_not_refused()
    ensures { GivenIsNotRefused }
{}
