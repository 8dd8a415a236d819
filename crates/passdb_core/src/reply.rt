//! Replies.
ghost use Rattle.std.specs.Prelude.{◌≡◌};
ghost use Rattle.passdb_core.specs.Commands.{reply_name};

/// What a command found or did.
#[derive(Clone, Copy, Debug, PartialEq, Eq)]
pub enum Reply {
    /// The name has an entry now.
    Added,
    /// The name has an entry already.
    Exists,
    /// The password is the one of the name.
    Good,
    /// The password is the one of the name, and the entry was made anew, since it had fewer rounds
    /// than fresh ones.
    Renewed,
    /// The password is not the one of the name.
    Wrong,
    /// The name has no entry.
    Unknown,
    /// The name has another password now.
    Changed,
    /// The name has no entry any more.
    Removed,
}

impl Reply {
    /// The name in lower case, as the program writes it.
    pub fn name(self) -> &'static str
        ensures { result.now ≡ reply_name self }
    {
        match self {
            Reply::Added => "added",
            Reply::Exists => "exists",
            Reply::Good => "good",
            Reply::Renewed => "renewed",
            Reply::Wrong => "wrong",
            Reply::Unknown => "unknown",
            Reply::Changed => "changed",
            Reply::Removed => "removed",
        }
    }
}
