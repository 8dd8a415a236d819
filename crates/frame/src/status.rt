//! What a program returns.
ghost use Rattle.std.specs.Prelude.{◌≡◌, ◌≤◌, Some, length};
ghost use Rattle.frame.specs.Status.{status_code, status_name};

use std::fmt;

/// How a run of a program ended. Every program can end with `Done`, `Usage`, `ReadFault`, `WriteFault`,
/// `InputTooLong` and `Memory`. The others are refusals of some programs alone: each program says which of them it
/// returns, and when.
#[derive(Clone, Copy, Debug, PartialEq, Eq)]
pub enum Status {
    /// The work is done, and its text was written.
    Done,
    /// The arguments are those of no command.
    Usage,
    /// A read failed.
    ReadFault,
    /// A write failed.
    WriteFault,
    /// The input has more than 67,108,864 octets.
    InputTooLong,
    /// The input has not the form that the program reads.
    InputMalformed,
    /// There was no memory.
    Memory,
    /// What the input spells is not in the grammar of its format.
    Malformed,
    /// Something is of a kind, or encrypted by an algorithm, that is not opened.
    Unsupported,
    /// There is no MAC.
    MacMissing,
    /// The MAC is of an algorithm that is not tested.
    MacUnsupported,
    /// A count of iterations is 0.
    ZeroIterations,
    /// The work takes more steps than the limit.
    WorkLimit,
    /// The MAC does not agree under the password.
    MacMismatch,
    /// The MAC agrees, and what it is over is not in the grammar.
    ContentMalformed,
    /// An encrypted part does not open.
    DecryptFailed,
    /// The plain octets of a key are no private key.
    KeyMalformed,
    /// Octets could not be drawn.
    Rng,
    /// The input spells more octets than the format may have.
    TooLong,
}

impl Status {
    /// The number that the program ends with.
    pub fn code(self) -> u8
        ensures { result ≡ status_code self }
    {
        match self {
            Status::Done => 0,
            Status::Usage => 2,
            Status::ReadFault => 3,
            Status::WriteFault => 4,
            Status::InputTooLong => 5,
            Status::InputMalformed => 6,
            Status::Memory => 7,
            Status::Malformed => 10,
            Status::Unsupported => 11,
            Status::MacMissing => 12,
            Status::MacUnsupported => 13,
            Status::ZeroIterations => 14,
            Status::WorkLimit => 15,
            Status::MacMismatch => 16,
            Status::ContentMalformed => 17,
            Status::DecryptFailed => 18,
            Status::KeyMalformed => 19,
            Status::Rng => 20,
            Status::TooLong => 21,
        }
    }

    /// The name, which comes after `error: ` in the output.
    #[tactic(auto, unfolding(crate::specs::Status::status_name))]
    pub fn name(self) -> &'static str
        ensures is { result.now ≡ status_name self }
        ensures short { length result.now ≤ 16 }
    {
        match self {
            Status::Done => "Done",
            Status::Usage => "Usage",
            Status::ReadFault => "ReadFault",
            Status::WriteFault => "WriteFault",
            Status::InputTooLong => "InputTooLong",
            Status::InputMalformed => "InputMalformed",
            Status::Memory => "Memory",
            Status::Malformed => "Malformed",
            Status::Unsupported => "Unsupported",
            Status::MacMissing => "MacMissing",
            Status::MacUnsupported => "MacUnsupported",
            Status::ZeroIterations => "ZeroIterations",
            Status::WorkLimit => "WorkLimit",
            Status::MacMismatch => "MacMismatch",
            Status::ContentMalformed => "ContentMalformed",
            Status::DecryptFailed => "DecryptFailed",
            Status::KeyMalformed => "KeyMalformed",
            Status::Rng => "Rng",
            Status::TooLong => "TooLong",
        }
    }
}

impl fmt::Display for Status {
    ghost output = { λ s. Some (status_name s) };

    fn fmt<W: fmt::Write>(&self, f: &mut fmt::Formatter<W>) -> fmt::Result {
        f.write_str(self.name())
    }
}
