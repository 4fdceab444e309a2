// Where the output goes.
ghost use Rattle.std.specs.Prelude.{◌≡◌, ◌≤◌, ◌++◌, List, [], ℕ};
ghost use Rattle.std.specs.{declared.option.Option.Option, Io.KnownBytes.append_known};
ghost use Rattle.tva_outside.specs.Sink.{IsWrote, IsSent, bytes_taken, sent};

/// What a write answers.
#[derive(Clone, Copy, Debug, PartialEq, Eq)]
pub enum Wrote {
    /// So many bytes of the piece were written, from its first on.
    Count(usize),
    /// The write failed, and nothing was written.
    Failed,
    /// There was no memory for the bytes, and nothing was written.
    OutOfMemory,
}

/// What `write_all` answers.
#[derive(Clone, Copy, Debug, PartialEq, Eq)]
pub enum Sent {
    /// All of the bytes were written.
    All,
    /// A write failed after so many bytes, which were written.
    Failed(usize),
    /// A write found no memory after so many bytes, which were written.
    OutOfMemory(usize),
}

/// A writer of bytes.
pub trait Sink {
    /// The bytes written so far, where the sink tells them.
    ghost written: { Self → Option (List ℕ) };

    /// The bytes that were taken: of each write that answered so many, the first so many of its piece.
    ghost took: { Self → List ℕ };

    /// How often a write has failed. The count rises at a failure alone, never falls, and stands still
    /// at 2^64-1.
    ghost faults: { Self → ℕ };

    /// Writes as many bytes of the piece as the sink takes at once, at least one where there are any.
    fn write(&mut self, piece: &[u8]) -> Wrote
        ensures written { written self.new ≡ append_known (written self.old) (bytes_taken result piece.now) }
        ensures took { took self.new ≡ took self.old ++ bytes_taken result piece.now }
        ensures never_falls { faults self.old ≤ faults self.new }
        ensures answer { IsWrote piece.now (faults self.old) (faults self.new) result };
}

/// Writes all of the bytes, in as many writes as it takes. It takes no memory of its own, and makes
/// no write where there are no bytes.
pub fn write_all<W: Sink>(sink: &mut W, bytes: &[u8]) -> Sent
    ensures written { W.written sink.new ≡ append_known (W.written sink.old) (sent result bytes.now) }
    ensures took { W.took sink.new ≡ W.took sink.old ++ sent result bytes.now }
    ensures never_falls { W.faults sink.old ≤ W.faults sink.new }
    ensures answer { IsSent bytes.now (W.faults sink.old) (W.faults sink.new) result }
    ensures untouched { bytes.now ≡ [] → sink.new ≡ sink.old }
{
    let mut done = 0;
    while done < bytes.len() {
        match sink.write(&bytes[done..]) {
            Wrote::Count(count) => done += count,
            Wrote::Failed => return Sent::Failed(done),
            Wrote::OutOfMemory => return Sent::OutOfMemory(done),
        }
    }
    Sent::All
}
