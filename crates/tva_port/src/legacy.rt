// The legacy packets of a link, first in, first out.
ghost use Rattle.std.specs.Prelude.{◌≡◌, ◌==◌, ◌+◌, ◌^◌, ◌≤◌, ◌<◌, nat_lt, ◌||◌, if◌then◌else◌, [], ◌∷◌, ◌++◌, length, drop, Some, None, IsSome, IfOk};
ghost use Rattle.tva_drr.specs.Queues.{first};
ghost use Rattle.tva_shim.specs.Packets.{PacketData, packet_length};
ghost use Rattle.tva_base.specs.declared.packet.Class.TheVariants.{Legacy};
ghost use Rattle.tva_port.specs.Decide.{start_or};
ghost use Rattle.tva_port.specs.declared.decision.Decision.TheVariants.{Idle};
ghost use Rattle.tva_port.specs.Hand.{AreOneAnswer, AreOneDecision, answer_by, decision_by};
ghost use Rattle.tva_port.specs.Lists.{LegacyData, legacy_data, lacks_room, legacy_answer, legacy_leaves};

use crate::hand::{Answer, Hand, Next, length_in};
use crate::held::{HeldPacket, start_held, take_held};
use circular_buffer::HeapCircularBuffer;
use std::alloc::{AllocError, Global};
use std::marker::Model;
use tva_base::Class;
use tva_drr::Measured;

/// Packets in the order in which they came, at most so many and of at most so many bytes in all.
/// All memory is taken when it is made.
#[derive(Drop)]
pub(crate) struct LegacyList {
    most: u32,
    bytes: u32,
    ring: HeapCircularBuffer<HeldPacket>,
}

impl Model for LegacyList {
    ghost use Rattle.std.specs.Prelude.{◌≡◌, ◌≤◌, ◌^◌, length};
    ghost use Rattle.tva_shim.specs.Packets.{packet_length};
    ghost use Rattle.tva_drr.specs.Queues.{bytes_in};
    ghost use Rattle.tva_port.specs.Lists.{LegacyData, legacy_data};

    ghost Value = { LegacyData };

    ghost view = { λ w. legacy_data w.ring.capacity w.most w.ring.items };

    ghost invariant = { λ w. (w.bytes ≡ bytes_in packet_length w.ring.items)
        × (w.bytes ≤ w.most)
        × (w.most ≤ 2 ^ 30) };
}

/// Whether one more packet has no place.
fn lacks_place(ring: &HeapCircularBuffer<HeldPacket>) -> bool
    ensures { result ≡ nat_lt ring.now.capacity (length ring.now.items + 1) }
{
    ring.capacity() < ring.len() + 1
}

impl LegacyList {
    /// A list without packets.
    pub fn with_limits(alloc: Global, places: u32, most: u32) -> Result<LegacyList, AllocError>
        requires { most ≤ 2 ^ 30 }
        ensures { IfOk result (λ list. list ≡ legacy_data places most []) }
    {
        let ring = HeapCircularBuffer::with_capacity(alloc, places as usize)?;
        Ok(LegacyList {
            most,
            bytes: 0,
            ring,
        })
    }

    /// Puts the packet in hand last, or leaves it there where its place or its bytes are too many.
    #[inline(always)]
    pub fn offer(&mut self, hand: &mut Hand) -> Answer
        requires held { IsSome hand.old }
        ensures answer { (packet : PacketData) → hand.old ≡ Some packet
            → answer_by result hand.new ≡ legacy_answer self.old packet }
        ensures held { AreOneAnswer result hand.new }
        ensures left { (packet : PacketData) → hand.old ≡ Some packet → self.new ≡ legacy_leaves self.old packet }
        ensures same { (self.new.places ≡ self.old.places) × (self.new.most ≡ self.old.most) }
        ensures sized { (packet : PacketData) → hand.old ≡ Some packet
            → (20 ≤ packet_length packet) × (packet_length packet ≤ 2048) }
    {
        let bytes = length_in(hand);
        if lacks_place(&self.ring) {
            return Answer::QueueFull;
        }
        if self.bytes + bytes > self.most {
            return Answer::QueueFull;
        }
        self.bytes += bytes;
        match self.ring.try_push_back(take_held(hand)) {
            Ok(()) => {}
            Err(_held) => unreachable!(),
        }
        Answer::Queued
    }

    /// Whether nothing waits.
    pub fn is_empty(&self) -> bool
        ensures { result ≡ (length self.now.packets == 0) }
    {
        self.ring.len() == 0
    }

    /// Starts the oldest packet.
    pub fn start(&mut self, hand: &mut Hand) -> Next
        requires empty { hand.old ≡ None }
        ensures value { decision_by result hand.new ≡ start_or Legacy (first self.old.packets) Idle }
        ensures held { AreOneDecision result hand.new }
        ensures left { self.new ≡ legacy_data self.old.places self.old.most (drop 1 self.old.packets) }
    {
        let taken = self.ring.pop_front();
        if let Some(held) = &taken {
            self.bytes -= held.length();
        }
        start_held(hand, taken, Class::Legacy)
    }
}
