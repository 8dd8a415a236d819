//! What a store without a MAC comes to.

/// Whether a store has to have a MAC.
#[derive(Clone, Copy, Debug, PartialEq, Eq)]
pub enum MacRule {
    /// A store without a MAC is refused: `MacMissing`.
    Required,
    /// A store without a MAC is opened under the password; but what is under 40-bit RC2 in it is refused as `Unsupported`.
    Optional,
}
