//! Of what kind the parts and the MAC of a changed store are.
ghost use Rattle.std.specs.Prelude.{◌≡◌, ◌<◌, ◌^◌, MatchOption};

/// A number of rounds, at least one.
#[derive(Clone, Copy, Drop)]
pub struct Rounds {
    count: u32,
    ghost some: { 0 < count },
    ghost fits: { count < 2 ^ 32 },
}

impl Rounds {
    /// So many rounds; `None` where there are none.
    pub fn new(count: u32) -> Option<Rounds>
        ensures { MatchOption result (count ≡ 0) (λ rounds. rounds.count ≡ count) }
    {
        if count == 0 {
            return None;
        }
        Some(Rounds { count })
    }

    /// How many there are.
    pub fn count(self) -> u32
        ensures { result ≡ self.count }
    {
        self.count
    }
}

/// What the MAC of a store is made with: a digest, in so many rounds.
#[derive(Clone, Copy, Drop)]
pub(crate) enum MacAnew {
    Sha1(Rounds),
    Sha256(Rounds),
}

/// The rounds of a store that is sealed anew, and how many of them sealing may take in all.
#[derive(Clone, Copy, Drop)]
pub struct Renewal {
    /// The rounds for each encrypted content, for each encrypted key and for the MAC.
    pub rounds: Rounds,
    /// The most rounds of all of them together.
    pub seal_limit: u64,
}

/// Of what kind the parts and the MAC of a changed store are.
#[derive(Clone, Copy, Drop)]
pub enum Kinds {
    /// A part that was under Triple DES is under Triple DES, with its count; one that was under PBES2 is under PBES2 with
    /// PBKDF2 over HMAC-SHA-256 and AES-256-CBC, with its count. The MAC has its digest and count.
    Kept,
    /// Each part is under PBES2 with PBKDF2 over HMAC-SHA-256 and AES-256-CBC, and the MAC is that of HMAC-SHA-256, all
    /// in so many rounds.
    Renewed(Rounds),
}
