// A packet that waits.
ghost use Rattle.std.specs.Prelude.{◌≡◌, ◌≤◌, Some, None, IsSome};
ghost use Rattle.tva_shim.specs.Packets.{PacketData, packet_length};
ghost use Rattle.tva_port.specs.Decide.{start_or};
ghost use Rattle.tva_port.specs.Hand.{AreOneAnswer, AreOneDecision, answer_by, decision_by};
ghost use Rattle.tva_port.specs.declared.decision.Decision.TheVariants.{Idle};

use crate::hand::{Answer, Hand, Next};
use std::marker::Model;
use tva_base::Class;
use tva_drr::{Measured, Offered};
use tva_shim::{Packet, length};

/// A packet that waits, with its length in bytes, which is measured once. Contracts see the packet.
#[derive(Drop)]
pub(crate) struct HeldPacket {
    pub packet: Box<Packet>,
    pub bytes: u32,
}

impl Model for HeldPacket {
    ghost use Rattle.std.specs.Prelude.{◌≡◌};
    ghost use Rattle.tva_shim.specs.Packets.{PacketData, packet_length};

    ghost Value = { PacketData };

    ghost view = { λ w. w.packet.value };

    ghost invariant = { λ w. w.bytes ≡ packet_length w.packet.value };
}

impl Measured for HeldPacket {
    ghost measure = { λ packet. packet_length packet };

    fn length(&self) -> u32 {
        self.bytes
    }
}

/// Takes the packet out of the hand, with its length.
#[inline(always)]
pub(crate) fn take_held(hand: &mut Hand) -> HeldPacket
    requires { IsSome hand.old }
    ensures packet { hand.old ≡ Some result }
    ensures left { hand.new ≡ None }
    ensures sized { (20 ≤ packet_length result) × (packet_length result ≤ 2048) }
{
    match hand.packet.take() {
        Some(packet) => {
            let bytes = length(&packet);
            HeldPacket { packet, bytes }
        }
        None => unreachable!(),
    }
}

/// Gives a packet that is refused back into the hand.
#[inline(always)]
pub(crate) fn back_into(hand: &mut Hand, offered: Offered<HeldPacket>) -> Answer
    requires { hand.old ≡ None }
    ensures answer { answer_by result hand.new ≡ offered }
    ensures held { AreOneAnswer result hand.new }
{
    match offered {
        Offered::Queued => Answer::Queued,
        Offered::NoQueue(held) => {
            hand.packet = Some(held.packet);
            Answer::NoQueue
        }
        Offered::QueueFull(held) => {
            hand.packet = Some(held.packet);
            Answer::QueueFull
        }
    }
}

/// Starts a packet that was taken, if one was.
#[inline(always)]
pub(crate) fn start_held(hand: &mut Hand, taken: Option<HeldPacket>, class: Class) -> Next
    requires { hand.old ≡ None }
    ensures value { decision_by result hand.new ≡ start_or class taken Idle }
    ensures held { AreOneDecision result hand.new }
{
    match taken {
        Some(held) => {
            hand.packet = Some(held.packet);
            Next::Start(class)
        }
        None => Next::Idle,
    }
}
