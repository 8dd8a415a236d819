//! The work on the line of the input.
use crate::command::Words;
use crate::input_line::read_line;
use crate::listing::lines_of;
use frame::{Job, Status, TextError};
use octet_core::{Draw, Items, Text};
use std::alloc::Global;
use std::sync::ledger::Ledger;
use steps::Steps;

impl Job for Words<'_> {
    ghost use Rattle.std.specs.Prelude.{⊤};
    ghost use Rattle.inventory_core.specs.Answers.{ExactInventory, MakesInventory, RefusesInventory};
    ghost use Rattle.inventory_core.specs.Asked.{command_in};

    type Made = Items<Text>;

    ghost makes = { λ w e x text. MakesInventory (command_in w) e x text };

    ghost refuses = { λ w e x s. RefusesInventory (command_in w) e x s };

    ghost exact = { λ w e x s. ExactInventory (command_in w) x s };

    ghost limit = { λ w. w.limit };

    ghost keeps = { λ w x. ⊤ };

    ghost keeps_on = { λ w s. ⊤ };

    fn work<D: Draw, L: Ledger>(
        &self,
        alloc: Global,
        input: Vec<u8>,
        draw: &mut D,
        steps: &mut Steps<L>,
    ) -> Result<Items<Text>, Status> {
        let _ = draw;
        let store = match read_line(alloc, input) {
            Ok(store) => store,
            Err(TextError::Malformed) => return Err(Status::InputMalformed),
            Err(TextError::Memory) => return Err(Status::Memory),
        };
        match lines_of(alloc, store.as_slice(), self.password, self.limit, steps) {
            Ok(lines) => Ok(lines),
            Err(error) => Err(Status::from(error)),
        }
    }
}
