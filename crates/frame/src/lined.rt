//! Jobs on a store that the input spells in one line or two.
ghost use Rattle.std.specs.Prelude.{◌≡◌, ◌⊎◌, ◌+◌, ◌<◌, ◌≤◌, ℕ, List, IfOk, IfErr};
ghost use Rattle.std.specs.Result.{IsErrOf};
ghost use Rattle.frame.specs.Calls.{Effects, effects};
ghost use Rattle.frame.specs.Lined.{ExactLined, HasLine, NeverMalformed, RefusesLined, Spells};
ghost use Rattle.frame.specs.Status.{Refused, status_in};
ghost use Rattle.frame.specs.Stream.{stream_of};
ghost use Rattle.frame.specs.declared.status.Status.{Status};

use crate::due_text::DueText;
use crate::input_text::{Spelled, TextError, read_text};
use crate::job::Job;
use crate::status::Status;
use octet_core::{Draw, DrawnBytes, Octets};
use std::alloc::Global;
use std::sync::ledger::Ledger;
use steps::Steps;

/// The work on the octets of a store, as [`Job`] is that on an input.
pub trait StoreJob {
    /// What is written where the work is done.
    type Made: DueText + Drop;

    // the work on a store ends so, with this text
    ghost makes: { Self → Effects → List ℕ → List ℕ → Type 0 };

    // the work on a store ends so, with this refusal
    ghost refuses: { Self → Effects → List ℕ → Status → Type 0 };

    // this status may come for a store, running out of memory apart
    ghost exact: { Self → Effects → List ℕ → Status → Type 0 };

    // the most steps of the work
    ghost limit: { Self → ℕ };

    // on such a status the draw was not touched
    ghost keeps_on: { Self → Status → Type 0 };

    /// Does the work on the store. A refusal is one of the program's own statuses other than `InputMalformed`, or
    /// `Memory`; where a draw failed it is `Rng`.
    fn work<D: Draw, L: Ledger>(
        &self,
        alloc: Global,
        store: Octets,
        draw: &mut D,
        steps: &mut Steps<L>,
    ) -> Result<Self::Made, Status>
        ensures made { let drawn = stream_of D.left D.faults draw.old draw.new in
            let e = effects drawn steps.old steps.new in
            IfOk result (λ m. makes self.now e store (Self.Made.text m)) }
        ensures refused { let drawn = stream_of D.left D.faults draw.old draw.new in
            let e = effects drawn steps.old steps.new in
            IfErr result (Refused (refuses self.now e store)) }
        ensures well_formed { IfErr result NeverMalformed }
        ensures exact { let drawn = stream_of D.left D.faults draw.old draw.new in
            let e = effects drawn steps.old steps.new in
            exact self.now e store (status_in result) ⊎ (status_in result ≡ Status.Memory) }
        ensures at_most { (steps.old ≤ steps.new) × (steps.new ≤ steps.old + limit self.now) }
        ensures count { D.faults draw.old ≤ D.faults draw.new }
        ensures failed_draw { D.faults draw.old < D.faults draw.new → IsErrOf result Status.Rng }
        ensures kept_on { keeps_on self.now (status_in result) → draw.new ≡ draw.old };
}

/// The job on an input that spells a store: a line of an even number of hexadecimal digits, and perhaps a second one,
/// whose octets are drawn in place of those of the draw. An input of another form is refused as `InputMalformed`.
#[derive(Drop)]
pub struct Lined<W> {
    /// The work on the store.
    pub job: W,
}

impl<W: StoreJob> Job for Lined<W> {
    type Made = W::Made;

    ghost makes = { λ w e x text. Spells x e (λ store f. W.makes w.job f store text) };

    ghost refuses = { λ w e x s. RefusesLined (λ store f t. W.refuses w.job f store t) x e s };

    ghost exact = { λ w e x s. ExactLined (λ store f t. W.exact w.job f store t) x e s };

    ghost limit = { λ w. W.limit w.job };

    ghost keeps = { λ w x. HasLine x };

    ghost keeps_on = { λ w s. W.keeps_on w.job s };

    fn work<D: Draw, L: Ledger>(
        &self,
        alloc: Global,
        input: Vec<u8>,
        draw: &mut D,
        steps: &mut Steps<L>,
    ) -> Result<W::Made, Status> {
        let spelled = match read_text(alloc, input) {
            Ok(spelled) => spelled,
            Err(TextError::Malformed) => return Err(Status::InputMalformed),
            Err(TextError::Memory) => return Err(Status::Memory),
        };
        let Spelled { store, line } = spelled;
        match line {
            Some(octets) => {
                let mut drawn = DrawnBytes::new(octets);
                self.job.work(alloc, store, &mut drawn, steps)
            }
            None => self.job.work(alloc, store, draw, steps),
        }
    }
}
