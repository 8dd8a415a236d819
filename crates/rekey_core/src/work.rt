//! The work on the store that the input spells.
ghost use Rattle.std.specs.Prelude.{◌≡◌, IfOk, map};
ghost use Rattle.std.specs.String.{string_bytes};

use crate::command::Words;
use crate::list::rekey_all;
use asn1_core::{Items, Octets, Text};
use frame::{Status, StoreJob, line_of};
use octet_core::Draw;
use std::alloc::{AllocError, Global};
use std::sync::ledger::Ledger;
use steps::Steps;

/// Copies of the passwords.
fn texts_of(alloc: Global, words: &[String]) -> Result<Items<Text>, AllocError>
    ensures { IfOk result (λ texts. texts ≡ map string_bytes words.now) }
{
    let mut texts = Items::new(alloc);
    for word in words {
        texts.push(Text::from_text(alloc, word.as_str())?)?;
    }
    Ok(texts)
}

impl StoreJob for Words<'_> {
    ghost use Rattle.rekey_core.specs.Answers.{ExactStore, MakesLine, RefusesStore, steps_limit};
    ghost use Rattle.rekey_core.specs.Asked.{KeepsDraw, command_in};

    type Made = Octets;

    ghost makes = { λ w e store text. MakesLine (command_in w) e store text };

    ghost refuses = { λ w e store s. RefusesStore (command_in w) e store s };

    ghost exact = { λ w e store s. ExactStore (command_in w) e.draw.told store s };

    ghost limit = { λ w. steps_limit (command_in w) };

    ghost keeps_on = { λ w s. KeepsDraw s };

    fn work<D: Draw, L: Ledger>(
        &self,
        alloc: Global,
        store: Octets,
        draw: &mut D,
        steps: &mut Steps<L>,
    ) -> Result<Octets, Status> {
        let Ok(passwords) = texts_of(alloc, self.passwords) else {
            return Err(Status::Memory);
        };
        match rekey_all(alloc, store.as_slice(), &passwords, draw, self.limit, steps) {
            Ok(changed) => match line_of(alloc, "store ", changed.as_slice()) {
                Ok(line) => Ok(line),
                Err(_) => Err(Status::Memory),
            },
            Err(error) => Err(Status::from(error)),
        }
    }
}
