// Standard output. What it took isn't told; its failures are counted.
ghost use Rattle.std.specs.Prelude.{◌≡◌, ◌≤◌, ◌++◌, [], None};
ghost use Rattle.tva_outside.specs.{Edge.faults_after_write, Sink.IsWrote, Sink.bytes_taken};
ghost use Rattle.tva_outside.specs.Writing.{AnswersTo, TakesSome};

use crate::seen::{Seen, nothing, with_bytes};
use crate::{Sink, Wrote};
use std::io::ErrorKind;
use std::marker::Model;
use std::{io, mem};

/// Standard output. Contracts see the count of failures, and the bytes that it took.
#[derive(Drop)]
pub struct StdSink<'a, R: Print> {
    rt: &'a R,
    faults: u64,
    seen: Seen<u8>,
}

impl<'a, R: Print> Model for StdSink<'a, R> {
    ghost use Rattle.tva_outside.specs.{Edge.OutputState, Seen.all_behind};

    ghost Value = { OutputState };

    ghost view = { λ s. record { faults = s.faults; took = all_behind s.seen.value } };
}

impl<'a, R: Print> StdSink<'a, R> {
    /// The runtime's standard output, at which nothing has failed, and which took nothing.
    pub fn new(rt: &'a R) -> StdSink<'a, R>
        ensures { result ≡ record { faults = 0; took = [] } }
    {
        StdSink {
            rt,
            faults: 0,
            seen: nothing(),
        }
    }
}

impl<'a, R: Print> Sink for StdSink<'a, R> {
    ghost written = { λ _. None };

    ghost took = { λ s. s.took };

    ghost faults = { λ s. s.faults };

    fn write(&mut self, piece: &[u8]) -> Wrote
        ensures took { self.new.took ≡ self.old.took ++ bytes_taken result piece.now }
        ensures never_falls { self.old.faults ≤ self.new.faults }
        ensures answer { IsWrote piece.now self.old.faults self.new.faults result }
        ensures counted { self.new.faults ≡ faults_after_write self.old.faults result }
    {
        let wrote = write_once(self.rt, piece);
        match wrote {
            Wrote::Count(count) => {
                let seen = mem::replace(&mut self.seen, nothing());
                self.seen = with_bytes(seen, &piece[..count]);
            }
            Wrote::Failed => self.faults = self.faults.saturating_add(1),
            Wrote::OutOfMemory => {}
        }
        wrote
    }
}

// One write of the runtime's, which is made again where a signal broke it off.
fn write_once<R: Print>(rt: &R, piece: &[u8]) -> Wrote
    ensures { TakesSome piece.now result }
{
    for _ in 0..u64::MAX {
        if let Some(wrote) = answer(piece, rt.write_some(piece)) {
            return wrote;
        }
    }
    Wrote::Failed
}

// What a write of the piece answers where the system's ended so; nothing, and the write is made again,
// where a signal broke it off. The system's want of memory is no failure; a write that takes nothing of a
// piece that isn't empty is one.
fn answer(piece: &[u8], written: io::Result<usize>) -> Option<Wrote>
    ensures { AnswersTo piece.now written result }
{
    let wrote = match written {
        Ok(0) if !piece.is_empty() => Wrote::Failed,
        Ok(count) => Wrote::Count(count),
        Err(error) if error.kind() == ErrorKind::Interrupted => return None,
        Err(error) if error.kind() == ErrorKind::OutOfMemory => Wrote::OutOfMemory,
        Err(_) => Wrote::Failed,
    };
    Some(wrote)
}
