//! Which stores are opened.
use clap::ArgMatches;

/// Which stores are opened.
#[derive(Clone, Copy, PartialEq, Eq)]
pub enum Accepted {
    /// Stores of today alone.
    Modern,
    /// Old stores too.
    Old,
    /// Old stores too, and stores without a MAC.
    WithoutMac,
}

impl Accepted {
    /// Those that these matches ask for.
    pub(crate) fn of(matches: &ArgMatches<'_>) -> Accepted {
        if matches.get_flag("modern-only") {
            Accepted::Modern
        } else if matches.get_flag("allow-no-mac") {
            Accepted::WithoutMac
        } else {
            Accepted::Old
        }
    }
}
