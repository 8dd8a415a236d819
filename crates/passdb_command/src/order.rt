//! What is asked for one name.
ghost use Rattle.std.specs.Prelude.{◌≤◌};

use crate::request::Action;
use phc_core::Ident;

/// What is done with one name of a file.
#[derive(Clone, Copy, Drop)]
pub struct Order<'a> {
    pub file: &'a str,
    pub name: Ident,
    pub action: Action<'a>,
    pub rounds: u32,
    ghost some_rounds: { 1000 ≤ rounds },
    ghost few_rounds: { rounds ≤ 10000000 },
}
