//! What the arguments ask for.
ghost use Rattle.std.specs.Prelude.{◌≤◌};
ghost use Rattle.std.specs.Option.{ForSome};
ghost use Rattle.passdb_core.specs.Digits.{digits_in};
ghost use Rattle.passdb_core.specs.Drawn.{IsDrawn};
ghost use Rattle.passdb_core.specs.Entry.{rounds_limit};

/// The arguments: the rounds of fresh entries, and the digits of the octets that are drawn in place
/// of those of the draw.
#[derive(Clone, Copy)]
pub(crate) struct Words<'a> {
    pub(crate) rounds: u32,
    pub(crate) digits: Option<&'a str>,
    ghost some_rounds: { 1000 ≤ rounds },
    ghost few_rounds: { rounds ≤ rounds_limit },
    ghost drawn: { ForSome (digits_in digits) IsDrawn },
}
