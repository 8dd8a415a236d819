//! What the arguments ask for.
ghost use Rattle.std.specs.Prelude.{◌≤◌, All, length, map};
ghost use Rattle.std.specs.String.{string_bytes};
ghost use Rattle.transfer.specs.Limits.{password_limit};

/// The arguments: the most steps of each change, and the passwords.
#[derive(Clone, Copy)]
pub(crate) struct Words<'a> {
    pub(crate) limit: u64,
    pub(crate) passwords: &'a [String],
    ghost two: { 2 ≤ length passwords.now },
    ghost few: { length passwords.now ≤ 17 },
    ghost short: { All (λ password. length password
        ≤ password_limit) (map string_bytes passwords.now) },
}
