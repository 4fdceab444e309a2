// What a node's links sent.
ghost use Rattle.std.specs.Prelude.{◌≡◌, ◌++◌, [], drop, length, OnErr, OnOk};
ghost use Rattle.tva_node.specs.Nodes.{KeepsAll};
ghost use Rattle.tva_node.specs.Outbox.{gone_sendings, with_sent};

use std::alloc::{AllocError, Global};
use std::marker::Model;
use tva_run::Sending;
use tva_waiting::{Flight, Kept, Memory};

/// All that a node's links sent, and what memory keeps of it: all, as it is; or what was not handed over
/// yet, as packets on their way, which are small and move.
#[derive(Drop)]
pub(crate) struct Outbox {
    keeps: Memory,
    whole: Kept<Sending>,
    flights: Kept<Flight>,
}

impl Model for Outbox {
    ghost use Rattle.std.specs.Prelude.{◌≡◌};
    ghost use Rattle.tva_node.specs.Outbox.{SentList, kept_of, sent_list};

    ghost Value = { SentList };

    ghost view = { λ b. sent_list b.keeps (kept_of b.keeps b.whole b.flights) };

    ghost invariant = { λ b. b.flights.told ≡ b.flights.gone };
}

impl Outbox {
    /// Nothing was sent.
    pub fn new(alloc: Global, keeps: Memory) -> Outbox
        ensures keeps { result.keeps ≡ keeps }
        ensures empty { (result.all ≡ []) × (result.gone ≡ 0) × (result.told ≡ 0) }
    {
        Outbox {
            keeps,
            whole: Kept::new(alloc),
            flights: Kept::new(alloc),
        }
    }

    /// What memory keeps.
    pub fn keeps(&self) -> Memory
        ensures { result ≡ self.now.keeps }
    {
        self.keeps
    }

    /// All that was sent, where memory keeps it, and else nothing.
    pub fn as_slice(&self) -> &[Sending]
        requires { KeepsAll self.now.keeps → self.now.gone ≡ 0 }
        ensures whole { KeepsAll self.now.keeps → result.now ≡ self.now.all }
        ensures none { (KeepsAll self.now.keeps → ⊥) → result.now ≡ [] }
    {
        match self.keeps {
            Memory::All => self.whole.as_slice(),
            Memory::Nothing => &[],
        }
    }

    /// Puts in what was sent. The error is want of memory, and changes nothing.
    #[inline(always)]
    pub fn push(&mut self, flight: Flight) -> Result<(), AllocError>
        ensures ok { OnOk result (self.new ≡ with_sent flight self.old) }
        ensures err { OnErr result (self.new ≡ self.old) }
    {
        match self.keeps {
            Memory::All => self.whole.push(flight.sending_of()),
            Memory::Nothing => self.flights.push(flight),
        }
    }

    /// Puts behind what stands in `sent` what was not handed over yet: copies, where memory keeps all, and else the
    /// packets themselves, which it has no more. The memory in which they stood stays with the outbox. The error is
    /// want of memory, and changes nothing here.
    pub fn hand_over(&mut self, alloc: Global, sent: &mut Vec<Flight>) -> Result<(), AllocError>
        ensures sent { OnOk result (sent.new.items ≡ sent.old.items ++ drop self.old.told self.old.all) }
        ensures same { (self.new.keeps ≡ self.old.keeps) × (self.new.all ≡ self.old.all) }
        ensures gone { OnOk result (self.new.gone ≡ gone_sendings self.old.keeps self.old) }
        ensures told { OnOk result (self.new.told ≡ length self.old.all) }
        ensures err { OnErr result (self.new ≡ self.old) }
    {
        match self.keeps {
            Memory::All => {
                copy_each(alloc, self.whole.news(), sent)?;
                self.whole.tell();
                Ok(())
            }
            Memory::Nothing => self.flights.pour(sent),
        }
    }
}

// Puts copies of sendings behind what stands in a list, as packets on their way.
fn copy_each(alloc: Global, sendings: &[Sending], list: &mut Vec<Flight>) -> Result<(), AllocError>
    ensures { OnOk result (list.new.items ≡ list.old.items ++ sendings.now) }
{
    list.reserve(sendings.len())?;
    for sending in sendings {
        list.push(Flight::of_sending(alloc, sending)?)?;
    }
    Ok(())
}
