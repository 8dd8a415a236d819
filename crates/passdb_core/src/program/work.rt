//! The work on the input.
ghost use Rattle.std.specs.Prelude.{◌≡◌, ◌⊎◌, ◌<◌, ◌≤◌, ◌+◌, ◌*◌, ◌^◌, ℕ, List, [], IfOk, IfErr, length, map};
ghost use Rattle.std.specs.Result.{IsErrOf};
ghost use Rattle.frame.specs.DueText.{joined};
ghost use Rattle.frame.specs.InputText.{IsHex};
ghost use Rattle.frame.specs.declared.status.Status.{Status};
ghost use Rattle.passdb_core.specs.Asked.{command_in};
ghost use Rattle.passdb_core.specs.Calls.{RunsShort};
ghost use Rattle.passdb_core.specs.Drawn.{IsDrawn};
ghost use Rattle.passdb_core.specs.Entry.{rounds_limit};
ghost use Rattle.passdb_core.specs.Program.{MakesLines, StopsAs};

use crate::command::Command;
use crate::database::Db;
use crate::error::DbError;
use crate::output::due_lines;
use crate::program::command::Words;
use crate::script::read_input;
use frame::{Job, Status, decode_into};
use octet_core::{Draw, DrawnBytes, Items, Octets};
use std::alloc::{AllocError, Global};
use std::sync::ledger::Ledger;
use steps::Steps;

/// The octets that the digits spell. The only error is out of memory.
fn octets_of(alloc: Global, digits: &str) -> Result<Octets, AllocError>
    requires { IsDrawn digits.now }
    ensures { IfOk result (λ octets. IsHex digits.now octets) }
{
    let text = digits.as_bytes();
    let mut octets = vec![in alloc; 0u8; text.len() / 2]?;
    decode_into(text, octets.as_mut_slice());
    Ok(Octets::from_vec(octets))
}

/// Does what the commands ask for, and makes the lines that are due then.
fn lines_of<D: Draw, L: Ledger>(
    alloc: Global,
    db: &mut Db,
    commands: &[Command<'_>],
    draw: &mut D,
    steps: &mut Steps<L>,
) -> Result<Items<Octets>, Status>
    ensures made { IfOk result (λ lines. MakesLines db.old (map command_in commands.now)
        (D.left draw.old) (D.left draw.new) steps.old steps.new (joined lines)) }
    ensures refused { IfErr result (StopsAs (RunsShort db.old (map command_in commands.now)
        (D.left draw.old) (D.left draw.new) (D.faults draw.old) (D.faults draw.new))) }
    ensures count { D.faults draw.old ≤ D.faults draw.new }
    ensures last { D.faults draw.old < D.faults draw.new → IsErrOf result Status.Rng }
    ensures at_most { (steps.old ≤ steps.new)
        × (steps.new ≤ steps.old + 3 * rounds_limit * length commands.now) }
{
    let replies = match db.obey_all(alloc, draw, commands, steps) {
        Ok(replies) => replies,
        Err(DbError::Rng) => return Err(Status::Rng),
        Err(_) => return Err(Status::Memory),
    };
    match due_lines(alloc, replies.as_slice(), db) {
        Ok(lines) => Ok(lines),
        Err(_) => Err(Status::Memory),
    }
}

impl Job for Words<'_> {
    ghost use Rattle.passdb_core.specs.Program.{DrawsOwn, ExactInput, MakesInput, RefusesInput, steps_limit};
    ghost use Rattle.passdb_core.specs.Words.{asked_in};

    type Made = Items<Octets>;

    ghost makes = { λ w e x text. MakesInput (asked_in w) e x text };

    ghost refuses = { λ w e x s. RefusesInput (asked_in w) e x s };

    ghost exact = { λ w e x s. ExactInput (asked_in w) e x s };

    ghost limit = { λ w. steps_limit };

    ghost keeps = { λ w x. DrawsOwn (asked_in w) x };

    ghost keeps_on = { λ w s. s ≡ Status.InputMalformed };

    fn work<D: Draw, L: Ledger>(
        &self,
        alloc: Global,
        input: Vec<u8>,
        draw: &mut D,
        steps: &mut Steps<L>,
    ) -> Result<Items<Octets>, Status> {
        let mut db = Db::empty(alloc, self.rounds);
        let commands = match read_input(alloc, &mut db, input.as_slice()) {
            Ok(commands) => commands,
            Err(DbError::Malformed) => return Err(Status::InputMalformed),
            Err(_) => return Err(Status::Memory),
        };
        match self.digits {
            None => lines_of(alloc, &mut db, commands.as_slice(), draw, steps),
            Some(digits) => {
                let octets = match octets_of(alloc, digits) {
                    Ok(octets) => octets,
                    Err(_) => return Err(Status::Memory),
                };
                let mut drawn = DrawnBytes::new(octets);
                lines_of(alloc, &mut db, commands.as_slice(), &mut drawn, steps)
            }
        }
    }
}
