// Packets on their way from node to node.
ghost use Rattle.std.specs.Prelude.{◌≡◌, Some, None, IsSome, IfOk, IfSome};
ghost use Rattle.tva_shim.specs.Packets.{IsPacket, PacketData};
ghost use Rattle.tva_waiting.specs.Flights.{packet_of};

use std::alloc::{AllocError, Global};
use std::marker::Model;
use tva_base::{Flow, PacketId, Time, Upper};
use tva_port::Hand;
use tva_run::Sending;
use tva_shim::{Carried, Packet};

/// All that a packet without a shim says.
#[derive(Clone, Copy)]
pub(crate) struct Bare {
    pub id: PacketId,
    pub flow: Flow,
    pub hops: u8,
    pub payload: u16,
    pub upper: Upper,
    pub malformed: Option<u16>,
}

/// How a packet is on its way: by what it says, or in memory of its own.
#[derive(Drop)]
pub(crate) enum Form {
    Bare(Bare),
    Boxed(Box<Packet>),
}

/// A packet on its way, in little memory that moves. Contracts see the packet.
#[derive(Drop)]
pub struct Flown {
    form: Form,
}

impl Model for Flown {
    ghost use Rattle.tva_shim.specs.Packets.{PacketData};

    ghost Value = { PacketData };

    ghost use Rattle.tva_waiting.specs.Flights.{IsForm, packet_in};

    ghost view = { λ f. packet_in f.form };

    ghost invariant = { λ f. IsForm f.form };
}

impl Flown {
    // The packet in that hand. One without a shim lets go of its memory.
    #[inline(always)]
    fn of(hand: Hand) -> Flown
        requires { IsSome hand }
        ensures { (packet : PacketData) → hand ≡ Some packet → result ≡ packet }
    {
        match hand.packet {
            Some(packet) => match bare_of(&packet) {
                Some(bare) => Flown {
                    form: Form::Bare(bare),
                },
                None => Flown {
                    form: Form::Boxed(packet),
                },
            },
            None => unreachable!(),
        }
    }

    // The packet in a hand. The error is want of memory.
    #[inline(always)]
    fn into_hand(self, alloc: Global) -> Result<Hand, AllocError>
        ensures { IfOk result (λ hand. hand ≡ Some self) }
    {
        match self.form {
            Form::Bare(bare) => Hand::of(alloc, packet_of(bare)),
            Form::Boxed(packet) => Ok(Hand {
                packet: Some(packet),
            }),
        }
    }

    // The packet.
    #[inline(always)]
    fn into_packet(self) -> Packet
        ensures { result ≡ self }
    {
        match self.form {
            Form::Bare(bare) => packet_of(bare),
            Form::Boxed(packet) => Box::into_inner(packet),
        }
    }

    // The packet once more.
    fn copied(&self) -> Packet
        ensures { result ≡ self.now }
    {
        match &self.form {
            Form::Bare(bare) => packet_of(*bare),
            Form::Boxed(packet) => packet.copied(),
        }
    }
}

/// A packet that a link started and that is on its way: a sending that is small and moves. Contracts see the
/// sending.
#[derive(Drop)]
pub struct Flight {
    link: u16,
    arrive: Time,
    packet: Flown,
}

impl Model for Flight {
    ghost use Rattle.tva_run.specs.declared.kinds.Sending.{Sending};

    ghost Value = { Sending };

    ghost view = { λ f. record { link = f.link; arrive = f.arrive; packet = f.packet } };
}

impl Flight {
    /// The packet in hand, which the link of that number started, and which arrives at a time, in nanoseconds. A
    /// packet without a shim lets go of its memory.
    #[inline(always)]
    pub fn of(link: u16, arrive: Time, hand: Hand) -> Flight
        requires { IsSome hand }
        ensures { (packet : PacketData) → hand ≡ Some packet
            → result ≡ record { link = link; arrive = arrive; packet = packet } }
    {
        Flight {
            link,
            arrive,
            packet: Flown::of(hand),
        }
    }

    /// A packet on its way. The error is want of memory.
    pub fn of_packet(
        alloc: Global,
        link: u16,
        arrive: Time,
        packet: Packet,
    ) -> Result<Flight, AllocError>
        ensures { IfOk result (λ flight. flight ≡ record { link = link; arrive = arrive; packet = packet }) }
    {
        Ok(Flight {
            link,
            arrive,
            packet: Flown {
                form: Form::Boxed(Box::new(alloc, packet)?),
            },
        })
    }

    /// A copy of a sending. The error is want of memory.
    pub fn of_sending(alloc: Global, sending: &Sending) -> Result<Flight, AllocError>
        ensures { IfOk result (λ flight. flight ≡ sending.now) }
    {
        Flight::of_packet(alloc, sending.link, sending.arrive, sending.packet.copied())
    }

    /// A copy as a sending.
    pub fn sending_of(&self) -> Sending
        ensures { result ≡ self.now }
    {
        Sending {
            link: self.link,
            arrive: self.arrive,
            packet: self.packet.copied(),
        }
    }

    /// The number of the link that started it.
    #[inline(always)]
    pub fn link(&self) -> u16
        ensures { result ≡ self.now.link }
    {
        self.link
    }

    /// When it arrives at the link's other end, in nanoseconds.
    #[inline(always)]
    pub fn arrive(&self) -> Time
        ensures { result ≡ self.now.arrive }
    {
        self.arrive
    }

    /// The packet in a hand. The error is want of memory.
    #[inline(always)]
    pub fn into_hand(self, alloc: Global) -> Result<Hand, AllocError>
        ensures { IfOk result (λ hand. hand ≡ Some self.packet) }
    {
        self.packet.into_hand(alloc)
    }

    /// The packet.
    #[inline(always)]
    pub fn into_packet(self) -> Packet
        ensures { result ≡ self.packet }
    {
        self.packet.into_packet()
    }
}

// What a packet says, where it has no shim.
fn bare_of(packet: &Packet) -> Option<Bare>
    ensures same { IfSome result (λ bare. packet.now ≡ packet_of bare) }
    ensures sized { IfSome result (λ bare. IsPacket (packet_of bare)) }
{
    let malformed = match &packet.carried {
        Carried::Nothing => None,
        Carried::Malformed(bytes) => Some(*bytes),
        Carried::Shim(_) => return None,
    };
    Some(Bare {
        id: packet.id,
        flow: packet.flow,
        hops: packet.hops,
        payload: packet.payload,
        upper: packet.upper,
        malformed,
    })
}

// The packet without a shim that says this.
fn packet_of(bare: Bare) -> Packet
    requires { IsPacket (packet_of bare) }
    ensures { result ≡ packet_of bare }
{
    Packet {
        id: bare.id,
        flow: bare.flow,
        hops: bare.hops,
        payload: bare.payload,
        upper: bare.upper,
        carried: match bare.malformed {
            None => Carried::Nothing,
            Some(bytes) => Carried::Malformed(bytes),
        },
    }
}
