// Memory for packets by value.
ghost use Rattle.std.specs.Prelude.{◌≡◌, ◌≤◌, ◌+◌, Some, OnOk};
ghost use Rattle.tva_port.specs.Counts.{hand_count};

use crate::hand::Hand;
use std::alloc::{AllocError, Global};
use std::marker::Model;
use tva_base::{Address, Flow, PacketId};
use tva_shim::{Carried, Packet};

/// Memory for packets, and room for further memory. Contracts see for how many packets it is, and for how many
/// there is room.
#[derive(Drop)]
pub struct Stock {
    places: Vec<Box<Packet>>,
}

impl Model for Stock {
    ghost use Rattle.std.specs.Prelude.{length, vec_capacity};
    ghost use Rattle.tva_port.specs.Counts.{StockData, stock_data};

    ghost Value = { StockData };

    ghost view = { λ w. stock_data (length w.places.items) (vec_capacity w.places) };
}

impl Stock {
    /// Memory for none.
    pub fn empty(alloc: Global) -> Stock
        ensures { result.count ≡ 0 }
    {
        Stock {
            places: Vec::new(alloc),
        }
    }

    /// Takes memory for so many packets more. The error is want of memory.
    pub fn add(&mut self, alloc: Global, count: usize) -> Result<(), AllocError>
        ensures count { OnOk result (self.new.count ≡ self.old.count + count) }
        ensures room { self.new.count ≤ self.new.room }
    {
        for _ in 0..count {
            self.places.push(Box::new(alloc, nobodys())?)?;
        }
        Ok(())
    }

    /// Puts a packet into a hand.
    pub fn hand_of(&mut self, packet: Packet) -> Hand
        requires { 1 ≤ self.old.count }
        ensures packet { result ≡ Some packet }
        ensures count { self.new.count + 1 ≡ self.old.count }
        ensures room { self.new.room ≡ self.old.room }
    {
        let Some(mut place) = self.places.pop() else {
            unreachable!()
        };
        *place = packet;
        Hand {
            packet: Some(place),
        }
    }

    /// The packet in a hand, whose memory comes back.
    pub fn packet_of(&mut self, hand: Hand) -> Option<Packet>
        requires { self.old.count + hand_count hand ≤ self.old.room }
        ensures packet { result ≡ hand }
        ensures count { self.new.count ≡ self.old.count + hand_count hand }
        ensures room { self.new.room ≡ self.old.room }
    {
        match hand.packet {
            Some(place) => {
                let packet = place.copied();
                self.places.push_reserved(place);
                Some(packet)
            }
            None => None,
        }
    }
}

// A packet that nobody made.
fn nobodys() -> Packet {
    let id = PacketId {
        node: 0,
        ordinal: 0,
    };
    let flow = Flow {
        src: Address(0),
        dst: Address(0),
    };
    Packet::made(id, flow, 0, Carried::Nothing)
}
