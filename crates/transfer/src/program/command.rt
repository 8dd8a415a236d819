//! What the arguments ask for.
ghost use Rattle.std.specs.Prelude.{◌≤◌, length};
ghost use Rattle.transfer.specs.Limits.{password_limit, rounds_limit};

/// The most rounds that documents are sealed with.
pub(crate) const ROUNDS_LIMIT: u64 = 100_000_000;

/// The passwords, the rounds of the documents, and the most steps.
#[derive(Clone, Copy)]
pub(crate) struct Words<'a> {
    pub(crate) password: &'a str,
    pub(crate) new_password: &'a str,
    pub(crate) rounds: u32,
    pub(crate) limit: u64,
    ghost short_password: { length password.now ≤ password_limit },
    ghost some_rounds: { 1 ≤ rounds },
    ghost few_rounds: { rounds ≤ rounds_limit },
}
