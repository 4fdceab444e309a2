// A sink in memory, which may be told to fail.
ghost use Rattle.std.specs.Prelude.{◌≡◌, ◌≤◌, [], OnErr, OnOk, Some, ◌++◌, ◌∷◌};
ghost use Rattle.std.specs.Io.KnownBytes.{append_known};
ghost use Rattle.tva_outside.specs.{Sink.IsWrote, Sink.bytes_taken, MemorySink.after_write, MemorySink.AnswersWrite};

use crate::calls::is_due;
use crate::{Sink, Wrote};
use std::alloc::{AllocError, Global};
use std::marker::Model;

/// A sink in memory, which tells its bytes. Contracts see these, how many bytes a write takes at
/// most, the numbers of the writes that are to fail, and how many writes were made and how many of
/// them failed. A write that finds no memory changes nothing, and is not counted among the writes.
#[derive(Drop)]
pub struct MemorySink {
    bytes: Vec<u8>,
    most: usize,
    failing: Vec<u32>,
    writes: u64,
    faults: u64,
}

impl Model for MemorySink {
    ghost use Rattle.std.specs.Prelude.{◌≤◌};
    ghost use Rattle.tva_outside.specs.SinkState.{SinkState};

    ghost Value = { SinkState };

    ghost view = { λ s. record { bytes = s.bytes.items; most = s.most; failing = s.failing.items; writes = s.writes; faults = s.faults } };

    ghost invariant = { λ s. 1 ≤ s.most };
}

impl MemorySink {
    /// A sink without bytes, which takes at most that many bytes at a write, and at which no write is
    /// to fail.
    pub fn new(alloc: Global, most: usize) -> MemorySink
        requires { 1 ≤ most }
        ensures { result ≡ record { bytes = []; most = most; failing = []; writes = 0; faults = 0 } }
    {
        MemorySink {
            bytes: Vec::new(alloc),
            most,
            failing: Vec::new(alloc),
            writes: 0,
            faults: 0,
        }
    }

    /// The write with that number, from 1, is to fail.
    pub fn fail_at(&mut self, call: u32) -> Result<(), AllocError>
        ensures ok { OnOk result (self.new ≡ record self.old { failing = self.old.failing ++ call ∷ [] }) }
        ensures err { OnErr result (self.new ≡ self.old) }
    {
        self.failing.push(call)?;
        Ok(())
    }

    /// The bytes written so far.
    pub fn bytes(&self) -> &[u8]
        ensures { result.now ≡ self.now.bytes }
    {
        &self.bytes
    }
}

impl Sink for MemorySink {
    ghost written = { λ s. Some s.bytes };

    ghost took = { λ s. s.bytes };

    ghost faults = { λ s. s.faults };

    fn write(&mut self, piece: &[u8]) -> Wrote
        ensures written { Some self.new.bytes ≡ append_known (Some self.old.bytes) (bytes_taken result piece.now) }
        ensures took { self.new.bytes ≡ self.old.bytes ++ bytes_taken result piece.now }
        ensures never_falls { self.old.faults ≤ self.new.faults }
        ensures answer { IsWrote piece.now self.old.faults self.new.faults result }
        ensures state { self.new ≡ after_write self.old piece.now result }
        ensures exact { AnswersWrite self.old piece.now result }
    {
        let number = self.writes.saturating_add(1);
        if is_due(&self.failing, number) {
            self.writes = number;
            self.faults = self.faults.saturating_add(1);
            return Wrote::Failed;
        }
        let count = self.most.min(piece.len());
        if self.bytes.extend_from_slice(&piece[..count]).is_err() {
            return Wrote::OutOfMemory;
        }
        self.writes = number;
        Wrote::Count(count)
    }
}
