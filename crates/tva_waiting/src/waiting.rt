// The inputs of a node that are not taken yet, in the order of their taking.
ghost use Rattle.std.specs.Prelude.{◌≡◌, ◌≢◌, ◌<◌, ◌∷◌, ◌++◌, [], length, slice_index_or, true, false, IfOk, OnOk, OnErr};
ghost use Rattle.tva_run.specs.Joins.{put_in};
ghost use Rattle.tva_run.specs.Entries.{input_source, input_time};
ghost use Rattle.tva_run.specs.declared.kinds.Input.TheVariants.{FromTrace};
ghost use Rattle.tva_rows.specs.declared.rows.Row.{Row};
ghost use Rattle.tva_waiting.specs.Inputs.{HoldsInputs, arrived, first_time, is_row_first};

use crate::flights::Flight;
use crate::inbox::Inbox;
use crate::lanes::{Lanes, Turn};
use crate::memory::Memory;
use std::alloc::{AllocError, Global};
use std::marker::Model;
use tva_base::Time;
use tva_rows::{PackedRows, Row, what_from};

/// Inputs by time, and at one time by source.
#[derive(Drop)]
pub struct Waiting {
    lanes: Lanes,
}

impl Model for Waiting {
    ghost use Rattle.std.specs.Prelude.{List};
    ghost use Rattle.tva_run.specs.declared.kinds.Input.{Input};
    ghost use Rattle.tva_waiting.specs.Lanes.{AreWaiting, waiting_in};

    ghost Value = { List Input };

    ghost view = { λ w. waiting_in w.lanes };

    ghost invariant = { λ w. AreWaiting w.lanes };
}

impl Waiting {
    /// No inputs. The error is want of memory.
    pub fn new(alloc: Global) -> Result<Waiting, AllocError>
        ensures { IfOk result (λ waiting. waiting ≡ []) }
    {
        Ok(Waiting {
            lanes: Lanes::new(alloc)?,
        })
    }

    /// Makes room for `count` more rows. The error is want of memory.
    pub fn reserve(&mut self, count: usize) -> Result<(), AllocError>
        ensures { self.new ≡ self.old }
    {
        self.lanes.rows.reserve(count)
    }

    /// Puts the row at a place among rows in little memory at its place, behind all that it need not stand before,
    /// and notes it behind all in the inbox. The row is not made. The error is want of memory, and changes nothing.
    pub fn put_packed(
        &mut self,
        rows: &PackedRows,
        place: usize,
        inbox: &mut Inbox,
        keeps: Memory,
    ) -> Result<(), AllocError>
        requires within { place < length rows.now }
        requires held { HoldsInputs keeps inbox.old }
        ensures put { (row : Row) → OnOk result (self.new
            ≡ put_in input_time input_source (FromTrace (slice_index_or rows.now place row)) self.old) }
        ensures noted { (row : Row) → OnOk result (inbox.new.all ≡ inbox.old.all ++ FromTrace (slice_index_or rows.now place row) ∷ []) }
        ensures held { HoldsInputs keeps inbox.new }
        ensures err { OnErr result ((self.new ≡ self.old) × (inbox.new ≡ inbox.old)) }
    {
        let turn = self.lanes.turn_of(rows, place)?;
        inbox.note_packed(keeps, rows, place)?;
        self.lanes.put_turn(turn);
        Ok(())
    }

    /// Puts a packet that arrives at its place, behind all that it need not stand before, and notes it behind all
    /// in the inbox. The error is want of memory, and changes nothing.
    #[inline(always)]
    pub fn put_flight(
        &mut self,
        flight: Flight,
        inbox: &mut Inbox,
        keeps: Memory,
    ) -> Result<(), AllocError>
        requires { HoldsInputs keeps inbox.old }
        ensures put { OnOk result (self.new ≡ put_in input_time input_source (arrived flight) self.old) }
        ensures noted { OnOk result (inbox.new.all ≡ inbox.old.all ++ arrived flight ∷ []) }
        ensures held { HoldsInputs keeps inbox.new }
        ensures err { OnErr result ((self.new ≡ self.old) × (inbox.new ≡ inbox.old)) }
    {
        let place = self.lanes.room_for(flight.link())?;
        inbox.note_flight(keeps, &flight)?;
        self.lanes.put_flight(place, flight);
        Ok(())
    }

    /// When the next one comes, in nanoseconds.
    #[inline(always)]
    pub fn first_time(&self) -> Option<u64>
        ensures { result ≡ first_time self.now }
    {
        self.lanes.first_time()
    }

    /// Whether the next one is a row.
    #[inline(always)]
    pub fn is_row(&self) -> bool
        ensures { result ≡ is_row_first self.now }
    {
        self.lanes.is_row()
    }

    /// Takes the next one, which is a row.
    pub fn take_row(&mut self) -> Row
        requires { is_row_first self.old ≡ true }
        ensures { self.old ≡ FromTrace result ∷ self.new }
    {
        let turn = self.lanes.take_turn();
        Row {
            time: Time(turn.time),
            node: turn.node,
            what: what_from(self.lanes.layouts.as_slice(), turn.what),
        }
    }

    /// Takes the next one, which is a packet that arrives.
    #[inline(always)]
    pub fn take_flight(&mut self) -> Flight
        requires waits { self.old ≢ [] }
        requires flight { is_row_first self.old ≡ false }
        ensures { self.old ≡ arrived result ∷ self.new }
    {
        self.lanes.take_flight()
    }
}
