//! What comes of a table for which there is so much room.
use octet_core::Text;

/// A table that there is room for, or the size of one that there is not.
#[derive(Drop)]
pub enum Listed {
    Table(Text),
    /// How many octets the table has, which are more than the room.
    Longer(usize),
}
