//! A source over octets in memory.
ghost use Rattle.std.specs.Prelude.{◌≡◌, ◌<◌, length, Some, IfOk, OnOk, is_err};
ghost use Rattle.std.specs.Io.{ReadsAtMost};
ghost use Rattle.octet_core.specs.Faults.{HasCause};
ghost use Rattle.octet_core.specs.Source.{Reads};

use crate::failed::Failed;
use crate::items::{Items, copied_numbers};
use crate::octets::Octets;
use crate::source::Source;
use std::alloc::{AllocError, Global};
use std::marker::Model;

/// Octets that are read in pieces: at most `piece` at a time. It fails exactly at the listed reads, counted from 0.
#[derive(Drop)]
pub struct MemorySource {
    octets: Octets,
    at: usize,
    piece: usize,
    failing: Items<u64>,
    call: u64,
    faults: u64,
}

impl Model for MemorySource {
    ghost use Rattle.std.specs.Prelude.{ℕ, List, ◌≤◌, ◌<◌, length, drop};
    ghost use Rattle.octet_core.specs.MemorySource.{SourceState};

    ghost Value = { SourceState };

    ghost view = { λ s. record {
      rest = drop s.at s.octets;
      piece = s.piece;
      failing = s.failing;
      call = s.call;
      faults = s.faults;
    } };

    ghost invariant = { λ s. (s.at ≤ length s.octets) × (0 < s.piece) };
}

impl MemorySource {
    ghost use Rattle.octet_core.specs.MemorySource.{SourceState, read_fails, read_count, after_read};

    /// A source of these octets, which gives at most `piece` of them at a read. The reads that `failing` lists fail.
    /// Caller: `piece` is at least 1.
    pub fn new(octets: Octets, piece: usize, failing: Items<u64>) -> MemorySource
        requires { 0 < piece }
        ensures { result ≡ record {
          rest = octets;
          piece = piece;
          failing = failing;
          call = 0;
          faults = 0;
        } }
    {
        MemorySource {
            octets,
            at: 0,
            piece,
            failing,
            call: 0,
            faults: 0,
        }
    }

    /// An equal source in memory of its own. `AllocError` where there is no memory.
    pub fn try_clone(&self, alloc: Global) -> Result<MemorySource, AllocError>
        ensures { IfOk result (λ s. s ≡ self.now) }
    {
        Ok(MemorySource {
            octets: self.octets.try_clone(alloc)?,
            at: self.at,
            piece: self.piece,
            failing: copied_numbers(alloc, &self.failing)?,
            call: self.call,
            faults: self.faults,
        })
    }
}

impl Source for MemorySource {
    ghost use Rattle.octet_core.specs.MemorySource.{SourceState, read_fails, read_count, after_read};

    ghost left = { λ s. Some s.rest };

    ghost faults = { λ s. s.faults };

    fn read(&mut self, buf: &mut [u8]) -> Result<usize, Failed>
        ensures bound { ReadsAtMost result buf.new }
        ensures octets { Reads (Some self.old.rest) (Some self.new.rest) result buf.new }
        ensures cause { HasCause self.old.faults self.new.faults result }
        ensures no_fault { OnOk result (self.new.faults ≡ self.old.faults) }
        ensures failed { is_err result ≡ read_fails self.old }
        ensures count { IfOk result (λ n. n ≡ read_count self.old (length buf.old)) }
        ensures after { self.new ≡ after_read self.old (length buf.old) }
    {
        let failed = self.failing.as_slice().contains(&self.call);
        self.call = self.call.saturating_add(1);
        if failed {
            self.faults = self.faults.saturating_add(1);
            return Err(Failed);
        }
        let rest = &self.octets.as_slice()[self.at..];
        let count = self.piece.min(buf.len()).min(rest.len());
        buf[..count].copy_from_slice(&rest[..count]);
        self.at += count;
        Ok(count)
    }
}
