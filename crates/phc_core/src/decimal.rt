//! Decimal numbers.

/// A decimal number of a PHC string.
pub type Decimal = u32;
