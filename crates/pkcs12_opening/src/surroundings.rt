//! What the process tells of itself.

/// The number of the process, and whether its standard error is a terminal.
#[derive(Clone, Copy)]
pub struct Surroundings {
    pub process: u32,
    pub at_terminal: bool,
}
