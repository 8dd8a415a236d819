//! The work of a program.
ghost use Rattle.std.specs.Prelude.{◌≡◌, ◌⊎◌, ◌<◌, ◌≤◌, ◌+◌, ℕ, List, IfOk, IfErr, length};
ghost use Rattle.std.specs.Result.{IsErrOf};
ghost use Rattle.frame.specs.Input.{input_limit};
ghost use Rattle.frame.specs.Calls.{Effects, effects};
ghost use Rattle.frame.specs.Status.{Refused, status_in};
ghost use Rattle.frame.specs.Stream.{stream_of};
ghost use Rattle.frame.specs.declared.status.Status.{Status};

use crate::due_text::DueText;
use crate::status::Status;
use octet_core::Draw;
use std::alloc::Global;
use std::sync::ledger::Ledger;
use steps::Steps;

/// The command that the arguments gave, as a value: its work on the whole input, after which a text is written or a
/// refusal named.
pub trait Job {
    /// What is written where the work is done.
    type Made: DueText + Drop;

    // the work on an input ends so, with this text
    ghost makes: { Self → Effects → List ℕ → List ℕ → Type 0 };

    // the work on an input ends so, with this refusal
    ghost refuses: { Self → Effects → List ℕ → Status → Type 0 };

    // this status may come for an input, running out of memory apart
    ghost exact: { Self → Effects → List ℕ → Status → Type 0 };

    // the most steps of the work
    ghost limit: { Self → ℕ };

    // on such an input the draw is not touched, whatever the status is
    ghost keeps: { Self → List ℕ → Type 0 };

    // on such a status the draw was not touched, whatever the input is
    ghost keeps_on: { Self → Status → Type 0 };

    /// Does the work on the input, which has at most 67,108,864 octets. A refusal is one of the program's own statuses, or
    /// `Memory`; where a draw failed it is `Rng`.
    fn work<D: Draw, L: Ledger>(
        &self,
        alloc: Global,
        input: Vec<u8>,
        draw: &mut D,
        steps: &mut Steps<L>,
    ) -> Result<Self::Made, Status>
        requires short { length input.items ≤ input_limit }
        ensures made { let drawn = stream_of D.left D.faults draw.old draw.new in
            let e = effects drawn steps.old steps.new in
            IfOk result (λ m. makes self.now e input.items (Self.Made.text m)) }
        ensures refused { let drawn = stream_of D.left D.faults draw.old draw.new in
            let e = effects drawn steps.old steps.new in
            IfErr result (Refused (refuses self.now e input.items)) }
        ensures exact { let drawn = stream_of D.left D.faults draw.old draw.new in
            let e = effects drawn steps.old steps.new in
            exact self.now e input.items (status_in result) ⊎ (status_in result ≡ Status.Memory) }
        ensures at_most { (steps.old ≤ steps.new) × (steps.new ≤ steps.old + limit self.now) }
        ensures count { D.faults draw.old ≤ D.faults draw.new }
        ensures failed_draw { D.faults draw.old < D.faults draw.new → IsErrOf result Status.Rng }
        ensures kept { keeps self.now input.items → draw.new ≡ draw.old }
        ensures kept_on { keeps_on self.now (status_in result) → draw.new ≡ draw.old };
}
