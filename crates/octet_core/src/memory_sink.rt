//! A sink in memory.
ghost use Rattle.std.specs.Prelude.{◌≡◌, [], length, min, Some, IfOk, OnOk, is_err};
ghost use Rattle.std.specs.Io.{WritesAtMost};
ghost use Rattle.octet_core.specs.Faults.{HasCause};
ghost use Rattle.octet_core.specs.Sink.{Writes};

use crate::failed::Failed;
use crate::items::{Items, copied_numbers};
use crate::sink::Sink;
use std::alloc::{AllocError, Global};
use std::marker::Model;

/// A sink that keeps what is written, in memory that it took when it was made. It fails exactly at the listed writes,
/// counted from 0, and for a piece that has octets where no room is left.
#[derive(Drop)]
pub struct MemorySink {
    bytes: Vec<u8>,
    room: usize,
    failing: Items<u64>,
    call: u64,
    faults: u64,
}

impl Model for MemorySink {
    ghost use Rattle.std.specs.Prelude.{ℕ, List, ◌≤◌, ◌+◌, length, vec_len, vec_capacity};
    ghost use Rattle.octet_core.specs.MemorySink.{SinkState};

    ghost Value = { SinkState };

    ghost view = { λ s. record {
      written = s.bytes.items;
      room = s.room;
      failing = s.failing;
      call = s.call;
      faults = s.faults;
    } };

    ghost invariant = { λ s. vec_len s.bytes + s.room ≤ vec_capacity s.bytes };
}

impl MemorySink {
    ghost use Rattle.octet_core.specs.MemorySink.{SinkState};

    /// A sink with room for `room` octets. The writes that `failing` lists fail. `AllocError` where there is no memory.
    pub fn new(alloc: Global, room: usize, failing: Items<u64>) -> Result<MemorySink, AllocError>
        ensures { IfOk result
            (λ s. s ≡ record {
              written = [];
              room = room;
              failing = failing;
              call = 0;
              faults = 0;
            }) }
    {
        let bytes = Vec::with_capacity(alloc, room)?;
        Ok(MemorySink {
            bytes,
            room,
            failing,
            call: 0,
            faults: 0,
        })
    }

    /// An equal sink, which has taken its memory as well. `AllocError` where there is none.
    pub fn try_clone(&self, alloc: Global) -> Result<MemorySink, AllocError>
        ensures { IfOk result (λ s. s ≡ self.now) }
    {
        let mut bytes = Vec::with_capacity(alloc, self.bytes.capacity())?;
        bytes.extend_from_slice(self.bytes.as_slice())?;
        Ok(MemorySink {
            bytes,
            room: self.room,
            failing: copied_numbers(alloc, &self.failing)?,
            call: self.call,
            faults: self.faults,
        })
    }

    /// What was written.
    pub fn octets(&self) -> &[u8]
        ensures { result.now ≡ self.now.written }
    {
        self.bytes.as_slice()
    }
}

impl Sink for MemorySink {
    ghost use Rattle.octet_core.specs.MemorySink.{SinkState, write_fails, after_write};

    ghost written = { λ s. Some s.written };

    ghost faults = { λ s. s.faults };

    fn write(&mut self, piece: &[u8]) -> Result<usize, Failed>
        ensures bound { WritesAtMost result piece.now }
        ensures octets { Writes (Some self.old.written) (Some self.new.written) result piece.now }
        ensures cause { HasCause self.old.faults self.new.faults result }
        ensures no_fault { OnOk result (self.new.faults ≡ self.old.faults) }
        ensures failed { is_err result ≡ write_fails self.old piece.now }
        ensures count { IfOk result (λ n. n ≡ min self.old.room (length piece.now)) }
        ensures after { self.new ≡ after_write self.old piece.now }
    {
        let failed = self.failing.as_slice().contains(&self.call);
        self.call = self.call.saturating_add(1);
        if failed || (!piece.is_empty() && self.room == 0) {
            self.faults = self.faults.saturating_add(1);
            return Err(Failed);
        }
        let count = self.room.min(piece.len());
        match self.bytes.extend_from_slice(&piece[..count]) {
            Ok(()) => {
                self.room -= count;
                Ok(count)
            }
            Err(_) => Err(Failed),
        }
    }
}
