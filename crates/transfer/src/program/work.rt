//! The work on the store that the input spells.
ghost use Rattle.std.specs.Prelude.{◌≡◌, IfOk, IfErr};
ghost use Rattle.frame.specs.DueText.{joined};
ghost use Rattle.frame.specs.declared.status.Status.{Status};
ghost use Rattle.transfer.specs.DueText.{out};

use crate::program::command::Words;
use crate::program::due_text::due_lines;
use crate::store::transfer::{Transferred, transfer};
use asn1_core::{Items, Octets};
use frame::{Status, StoreJob};
use octet_core::Draw;
use std::alloc::Global;
use std::sync::ledger::Ledger;
use steps::Steps;

/// The lines that are due for what a store was transferred to, which is let go. The only other status is `Memory`.
fn lines_of(alloc: Global, transferred: Transferred) -> Result<Items<Octets>, Status>
    ensures made { IfOk result (λ lines. joined lines
        ≡ out transferred.certificates transferred.documents) }
    ensures memory { IfErr result (λ s. s ≡ Status.Memory) }
{
    match due_lines(
        alloc,
        transferred.certificates.as_slice(),
        transferred.documents.as_slice(),
    ) {
        Ok(lines) => Ok(lines),
        Err(_) => Err(Status::Memory),
    }
}

impl StoreJob for Words<'_> {
    ghost use Rattle.transfer.specs.Answers.{ExactStore, RefusesStore, TransfersStore};
    ghost use Rattle.transfer.specs.Asked.{IsUndrawn, command_in};

    type Made = Items<Octets>;

    ghost makes = { λ w e store text. TransfersStore (command_in w) e store text };

    ghost refuses = { λ w e store s. RefusesStore (command_in w) e store s };

    ghost exact = { λ w e store s. ExactStore (command_in w) e.draw.told store s };

    ghost limit = { λ w. w.limit };

    ghost keeps_on = { λ w s. IsUndrawn s };

    fn work<D: Draw, L: Ledger>(
        &self,
        alloc: Global,
        store: Octets,
        draw: &mut D,
        steps: &mut Steps<L>,
    ) -> Result<Items<Octets>, Status> {
        let decided = transfer(
            alloc,
            store.as_slice(),
            self.password,
            self.new_password.as_bytes(),
            self.rounds,
            draw,
            self.limit,
            steps,
        );
        // The lines are made where the store does not take memory any more.
        drop(store);
        match decided {
            Ok(transferred) => lines_of(alloc, transferred),
            Err(error) => Err(Status::from(error)),
        }
    }
}
