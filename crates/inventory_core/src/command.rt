//! What the arguments ask for.
ghost use Rattle.std.specs.Prelude.{◌≤◌, length};
ghost use Rattle.transfer.specs.Limits.{password_limit};

/// The arguments: the password, and the most steps.
#[derive(Clone, Copy, Drop)]
pub(crate) struct Words<'a> {
    pub(crate) password: &'a str,
    pub(crate) limit: u64,
    ghost short_password: { length password.now ≤ password_limit },
}
