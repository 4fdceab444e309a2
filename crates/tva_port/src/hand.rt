// A packet in the caller's hand.
ghost use Rattle.std.specs.Prelude.{◌≡◌, ◌≤◌, Some, None, IfOk, IsSome};
ghost use Rattle.tva_shim.specs.Packets.{PacketData, packet_length};
ghost use Rattle.tva_shim.specs.Shows.{key_of};
ghost use Rattle.tva_port.specs.Hand.{AreOneAnswer, AreOneDecision, answer_by, decision_by};

use crate::decision::Decision;
use std::alloc::{AllocError, Global};
use std::marker::Model;
use tva_base::{Address, Class, PacketId, Time};
use tva_drr::Offered;
use tva_shim::{Packet, length, queue_key};

/// A packet in the caller's hand, or none. The packet stands in memory of its own, which goes from hand to hand, so
/// it isn't moved. An empty hand has no memory. Contracts see the packet, if it holds one.
#[derive(Drop)]
pub struct Hand {
    pub packet: Option<Box<Packet>>,
}

impl Model for Hand {
    ghost use Rattle.std.specs.Prelude.{Option};
    ghost use Rattle.tva_shim.specs.Packets.{PacketData};
    ghost use Rattle.tva_port.specs.Held.{packet_in};

    ghost Value = { Option PacketData };

    ghost view = { λ h. packet_in h.packet };
}

impl Hand {
    /// An empty one, which takes no memory.
    #[inline(always)]
    pub fn empty() -> Hand
        ensures { result ≡ None }
    {
        Hand { packet: None }
    }

    /// One that holds a packet. The error is want of memory.
    #[inline(always)]
    pub fn of(alloc: Global, packet: Packet) -> Result<Hand, AllocError>
        ensures { IfOk result (λ hand. hand ≡ Some packet) }
    {
        Ok(Hand {
            packet: Some(Box::new(alloc, packet)?),
        })
    }

    /// The packet, out of its memory, which goes.
    #[inline(always)]
    pub fn into_packet(self) -> Option<Packet>
        ensures { result ≡ self }
    {
        match self.packet {
            Some(packet) => Some(Box::into_inner(packet)),
            None => None,
        }
    }
}

/// The answer to the offer of a packet that is in the caller's hand, and stays there where it is refused.
#[derive(Clone, Copy, Debug, PartialEq, Eq)]
pub enum Answer {
    Queued,
    NoQueue,
    QueueFull,
}

/// What a free link does: it puts a packet of a class, which starts, into the caller's hand; or a request
/// alone waits, and the link with it until that time, in nanoseconds; or nothing waits.
#[derive(Clone, Copy, Debug, PartialEq, Eq)]
pub enum Next {
    Start(Class),
    WaitUntil(Time),
    Idle,
}

/// The answer to an offer, with the packet that the hand holds.
#[inline(always)]
pub(crate) fn answer_by(answer: Answer, hand: Option<Packet>) -> Offered<Packet>
    requires { AreOneAnswer answer hand }
    ensures { result ≡ answer_by answer hand }
{
    match (answer, hand) {
        (Answer::NoQueue, Some(packet)) => Offered::NoQueue(packet),
        (Answer::QueueFull, Some(packet)) => Offered::QueueFull(packet),
        (_, _) => Offered::Queued,
    }
}

/// The decision of a free link, with the packet that the hand holds.
#[inline(always)]
pub fn decision_by(next: Next, hand: Option<Packet>) -> Decision
    requires { AreOneDecision next hand }
    ensures { result ≡ decision_by next hand }
{
    match (next, hand) {
        (Next::Start(class), Some(packet)) => Decision::Start(class, packet),
        (Next::WaitUntil(time), _) => Decision::WaitUntil(time),
        (_, _) => Decision::Idle,
    }
}

/// The number of the packet in hand, with the node that made it.
pub fn id_in(hand: &Hand) -> PacketId
    requires { IsSome hand.now }
    ensures { (packet : PacketData) → hand.now ≡ Some packet → result ≡ packet.id }
{
    match &hand.packet {
        Some(packet) => packet.id,
        None => unreachable!(),
    }
}

/// The length of the packet in hand, in bytes.
pub fn length_in(hand: &Hand) -> u32
    requires { IsSome hand.now }
    ensures value { (packet : PacketData) → hand.now ≡ Some packet → result ≡ packet_length packet }
    ensures short { result ≤ 2048 }
{
    match &hand.packet {
        Some(packet) => length(packet),
        None => unreachable!(),
    }
}

/// Where the packet in hand goes.
pub fn destination_in(hand: &Hand) -> Address
    requires { IsSome hand.now }
    ensures { (packet : PacketData) → hand.now ≡ Some packet → result ≡ packet.flow.dst }
{
    match &hand.packet {
        Some(packet) => packet.flow.dst,
        None => unreachable!(),
    }
}

/// The key under which the packet in hand is queued, as a packet of that class.
pub fn key_in(class: Class, hand: &Hand) -> u32
    requires { IsSome hand.now }
    ensures { (packet : PacketData) → hand.now ≡ Some packet → result ≡ key_of class packet }
{
    match &hand.packet {
        Some(packet) => queue_key(class, packet),
        None => unreachable!(),
    }
}
