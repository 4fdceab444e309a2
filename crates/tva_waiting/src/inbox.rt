// The inputs that a node was given.
ghost use Rattle.std.specs.Prelude.{◌≡◌, ◌<◌, ◌++◌, ◌∷◌, [], length, slice_index_or, OnErr, OnOk};
ghost use Rattle.tva_rows.specs.declared.rows.Row.{Row};
ghost use Rattle.tva_run.specs.declared.kinds.Input.TheVariants.{FromTrace};
ghost use Rattle.tva_waiting.specs.Kept.{forgotten, held, nothing, with_more};
ghost use Rattle.tva_waiting.specs.Inputs.{HoldsInputs, arrived};

use crate::Kept;
use crate::flights::Flight;
use crate::memory::Memory;
use std::alloc::{AllocError, Global};
use std::marker::Model;
use std::snapshot::Snapshot;
use tva_rows::PackedRows;
use tva_run::{Input, Sending};

/// Of what an input is noted.
#[derive(Drop)]
pub(crate) enum Source {
    Packed(Snapshot<PackedRows>, Snapshot<usize>),
    Flight(Snapshot<Flight>),
}

/// An input that contracts see and memory doesn't hold: it takes no byte, and is not made.
#[derive(Drop)]
pub struct Noted {
    source: Source,
}

impl Model for Noted {
    ghost use Rattle.tva_run.specs.declared.kinds.Input.{Input};

    ghost Value = { Input };

    ghost use Rattle.tva_waiting.specs.Noted.{noted_of};

    ghost view = { λ n. noted_of n.source };
}

/// The inputs that a node was given, in that order, of which memory holds all or none. Contracts see all of
/// them, and how many are held no more.
#[derive(Drop)]
pub struct Inbox {
    whole: Kept<Input>,
    noted: Kept<Noted>,
}

impl Model for Inbox {
    ghost use Rattle.std.specs.Prelude.{◌≡◌, ◌++◌, length};
    ghost use Rattle.tva_run.specs.declared.kinds.Input.{Input};
    ghost use Rattle.tva_waiting.specs.Kept.{KeptList};

    ghost Value = { KeptList Input };

    ghost view = { λ inbox. record { all = inbox.noted.all ++ inbox.whole.all; gone = inbox.noted.gone; told = inbox.noted.told } };

    ghost invariant = { λ inbox. (inbox.whole.gone ≡ 0) × (inbox.noted.gone ≡ length inbox.noted.all) };
}

impl Inbox {
    /// Nothing was given.
    pub fn new(alloc: Global) -> Inbox
        ensures { result ≡ nothing }
    {
        Inbox {
            whole: Kept::new(alloc),
            noted: Kept::new(alloc),
        }
    }

    /// What memory holds.
    pub fn as_slice(&self) -> &[Input]
        ensures { result.now ≡ held self.now }
    {
        self.whole.as_slice()
    }

    /// Notes the row at a place among rows in little memory behind all that were given: where memory keeps all, with
    /// a copy of it. The error is want of memory, and changes nothing.
    #[inline(always)]
    pub fn note_packed(
        &mut self,
        keeps: Memory,
        rows: &PackedRows,
        place: usize,
    ) -> Result<(), AllocError>
        requires within { place < length rows.now }
        requires held { HoldsInputs keeps self.old }
        ensures noted { (row : Row) → OnOk result (self.new.all ≡ self.old.all ++ FromTrace (slice_index_or rows.now place row) ∷ []) }
        ensures held { HoldsInputs keeps self.new }
        ensures err { OnErr result (self.new ≡ self.old) }
    {
        match keeps {
            Memory::All => self.keep(Input::FromTrace(rows.get(place))),
            Memory::Nothing => self.note(&noted_packed(rows, place)),
        }
    }

    /// The same of a packet that arrives.
    #[inline(always)]
    pub fn note_flight(&mut self, keeps: Memory, flight: &Flight) -> Result<(), AllocError>
        requires { HoldsInputs keeps self.old }
        ensures noted { OnOk result (self.new.all ≡ self.old.all ++ arrived flight.now ∷ []) }
        ensures held { HoldsInputs keeps self.new }
        ensures err { OnErr result (self.new ≡ self.old) }
    {
        match keeps {
            Memory::All => self.keep(arrived(flight)),
            Memory::Nothing => self.note(&noted_flight(flight)),
        }
    }

    // Keeps an input behind all that are noted and kept.
    fn keep(&mut self, input: Input) -> Result<(), AllocError>
        ensures ok { OnOk result (self.new ≡ with_more self.old (input ∷ [])) }
        ensures err { OnErr result (self.new ≡ self.old) }
    {
        self.whole.push(input)?;
        Ok(())
    }

    // Notes an input behind all, where memory holds none.
    #[inline(always)]
    fn note(&mut self, noted: &Noted) -> Result<(), AllocError>
        requires { self.old.gone ≡ length self.old.all }
        ensures ok { OnOk result (self.new ≡ forgotten (with_more self.old (noted.now ∷ []))) }
        ensures err { OnErr result (self.new ≡ self.old) }
    {
        self.noted.note(noted)?;
        Ok(())
    }
}

fn noted_packed(rows: &PackedRows, place: usize) -> Noted
    requires { place < length rows.now }
    ensures { (row : Row) → result ≡ FromTrace (slice_index_or rows.now place row) }
{
    Noted {
        source: Source::Packed(Snapshot::of(rows), Snapshot::of(&place)),
    }
}

fn noted_flight(flight: &Flight) -> Noted
    ensures { result ≡ arrived flight.now }
{
    Noted {
        source: Source::Flight(Snapshot::of(flight)),
    }
}

// A copy as an input.
fn arrived(flight: &Flight) -> Input
    ensures { result ≡ arrived flight.now }
{
    let Sending {
        link,
        arrive,
        packet,
    } = flight.sending_of();
    Input::Arrival {
        time: arrive,
        link,
        packet,
    }
}
