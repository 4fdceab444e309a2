// The rows of a trace in little memory.
ghost use Rattle.std.specs.Prelude.{◌≡◌, ◌<◌, ◌≤◌, [], ◌∷◌, ◌++◌, IfOk, OnErr, OnOk, length, slice_index_or};
ghost use Rattle.tva_shim.specs.declared.packets.Carried.TheVariants as carried;
ghost use Rattle.tva_rows.specs.{declared.rows.Row.Row, declared.rows.RowWhat.RowWhat, Raw.IsRaw};
ghost use Rattle.tva_rows.specs.Brief.{Grows, IsWhatHeld, what_in};
ghost use Rattle.tva_rows.specs.declared.rows.RowWhat.TheVariants as asks;

use crate::brief::{BriefRow, BriefWhat, brief_beside, brief_of, brief_raw, brief_shim, what_from};
use crate::rows::Row;
use std::alloc::{AllocError, Global};
use std::marker::Model;
use tva_base::{Flow, Time};
use tva_shim::Shim;

/// Rows, in at most 32 bytes each, and the layouts of their shims beside them. Contracts see them as
/// a list.
#[derive(Drop)]
pub struct PackedRows {
    rows: Vec<BriefRow>,
    layouts: Vec<u8>,
}

impl Model for PackedRows {
    ghost use Rattle.std.specs.Prelude.{List};
    ghost use Rattle.tva_rows.specs.{declared.rows.Row.Row, Brief.AreHeld, Brief.rows_in};

    ghost Value = { List Row };

    ghost view = { λ p. rows_in p.layouts.items p.rows.items };

    ghost invariant = { λ p. AreHeld p.layouts.items p.rows.items };
}

impl PackedRows {
    /// No rows.
    pub fn new(alloc: Global) -> PackedRows
        ensures { result ≡ [] }
    {
        PackedRows {
            rows: Vec::new(alloc),
            layouts: Vec::new(alloc),
        }
    }

    /// The rows of a list. The error is want of memory.
    pub fn from_rows(alloc: Global, rows: Vec<Row>) -> Result<PackedRows, AllocError>
        ensures { IfOk result (λ packed. packed ≡ rows.items) }
    {
        let mut packed = PackedRows::new(alloc);
        packed.reserve(rows.len())?;
        for row in rows {
            packed.push(row)?;
        }
        Ok(packed)
    }

    /// Makes room for so many rows more, without their shims. The error is want of memory.
    pub fn reserve(&mut self, count: usize) -> Result<(), AllocError>
        ensures { self.new ≡ self.old }
    {
        self.rows.reserve(count)
    }

    /// Puts a row last. An error is want of memory, and changes nothing.
    pub fn push(&mut self, row: Row) -> Result<(), AllocError>
        ensures ok { OnOk result (self.new ≡ self.old ++ row ∷ []) }
        ensures err { OnErr result (self.new ≡ self.old) }
    {
        let Row { time, node, what } = row;
        let what = brief_of(&mut self.layouts, &what)?;
        self.rows.push(BriefRow { time, what, node })?;
        Ok(())
    }

    /// Puts a row last that injects a packet with these bytes, at most 400, in place of a shim. An error is want of
    /// memory, and changes nothing.
    pub fn push_raw(
        &mut self,
        time: Time,
        node: u16,
        flow: Flow,
        payload: u16,
        bytes: &[u8],
    ) -> Result<(), AllocError>
        requires { length bytes.now ≤ 400 }
        ensures ok { OnOk result ((what : RowWhat) × IsRaw flow payload bytes.now what
            × (self.new ≡ self.old ++ record { time = time; node = node; what = what } ∷ [])) }
        ensures err { OnErr result (self.new ≡ self.old) }
    {
        let what = brief_raw(&mut self.layouts, flow, payload, bytes)?;
        self.rows.push(BriefRow { time, what, node })?;
        Ok(())
    }

    /// Puts a row last that injects a packet with a shim. An error is want of memory, and changes nothing.
    pub fn push_shim(
        &mut self,
        time: Time,
        node: u16,
        flow: Flow,
        payload: u16,
        shim: &Shim,
    ) -> Result<(), AllocError>
        ensures ok { OnOk result (self.new ≡ self.old
            ++ record { time = time; node = node; what = asks.Inject flow payload (carried.Shim shim.now) } ∷ []) }
        ensures err { OnErr result (self.new ≡ self.old) }
    {
        let what = brief_shim(&mut self.layouts, flow, payload, shim)?;
        self.rows.push(BriefRow { time, what, node })?;
        Ok(())
    }

    /// How many rows there are.
    pub fn len(&self) -> usize
        ensures { result ≡ length self.now }
    {
        self.rows.len()
    }

    /// The row at a place.
    pub fn get(&self, place: usize) -> Row
        requires { place < length self.now }
        ensures { result ≡ slice_index_or self.now place result }
    {
        let row = self.rows[place];
        Row {
            time: row.time,
            node: row.node,
            what: what_from(self.layouts.as_slice(), row.what),
        }
    }

    /// The number of the node of the row at a place.
    pub fn node_at(&self, place: usize) -> u16
        requires { place < length self.now }
        ensures { (row : Row) → result ≡ (slice_index_or self.now place row).node }
    {
        self.rows[place].node
    }

    /// When the row at a place comes.
    pub fn time_at(&self, place: usize) -> Time
        requires { place < length self.now }
        ensures { (row : Row) → result ≡ (slice_index_or self.now place row).time }
    {
        self.rows[place].time
    }

    /// What the row at a place asks, in brief over other layouts: the layout of its shim is put behind them. The
    /// error is want of memory, and leaves them as they were.
    pub fn brief_at(&self, place: usize, layouts: &mut Vec<u8>) -> Result<BriefWhat, AllocError>
        requires { place < length self.now }
        ensures grows { IfOk result (λ brief. Grows layouts.old.items layouts.new.items) }
        ensures held { IfOk result (λ brief. IsWhatHeld layouts.new.items brief) }
        ensures same { (row : Row) → IfOk result (λ brief. what_in layouts.new.items brief ≡ (slice_index_or self.now place row).what) }
        ensures err { OnErr result (layouts.new.items ≡ layouts.old.items) }
    {
        brief_beside(layouts, self.layouts.as_slice(), self.rows[place].what)
    }

    /// The rows as a list. The error is want of memory.
    pub fn to_rows(&self, alloc: Global) -> Result<Vec<Row>, AllocError>
        ensures { IfOk result (λ rows. rows.items ≡ self.now) }
    {
        let count = self.len();
        let mut rows = Vec::with_capacity(alloc, count)?;
        for place in 0..count {
            rows.push(self.get(place))?;
        }
        Ok(rows)
    }
}
