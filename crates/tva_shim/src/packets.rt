// Packets, their lengths and their classes.
ghost use Rattle.std.specs.Prelude.{◌≡◌, ◌≤◌, ◌+◌};
ghost use Rattle.tva_shim.specs.Packets.{IsCarried, IsWithinWidths, IsSizedPacket, class_by_shim, packet_length, carried_bytes, carried_size, made_packet, made_with, packet_data, IsUpper, Fills, upper_size};

use crate::kinds::Kind;
use crate::shims::{Shim, shim_bytes_of};
use std::marker::Model;
use std::mem::size_of;
use tva_base::{Class, Flow, PacketId, Upper};

/// What a packet carries below its payload: nothing, a shim, or so many bytes that are none.
#[derive(Debug, Drop)]
pub enum Carried {
    Nothing,
    Shim(Shim),
    Malformed(u16),
}

/// A packet: the node that made it with its number there, its source and destination, how many
/// routers it passed, the bytes of its payload, its shim, and its upper part, which is all of the
/// payload where there is one. A payload has at most 1,600 bytes, a malformed shim at most 400, a range
/// of a file at most 1,500, and a packet passes at most 32 routers.
#[derive(Debug, Drop)]
pub struct Packet {
    pub id: PacketId,
    pub flow: Flow,
    pub hops: u8,
    pub payload: u16,
    pub upper: Upper,
    pub carried: Carried,
}

// The upper part fits into what stands beside the payload.
const _: () = prove!(size_of::<Packet>() <= 480);

impl Model for Packet {
    ghost use Rattle.tva_shim.specs.Packets.{PacketData, IsPacket};

    ghost Value = { PacketData };

    ghost use Rattle.tva_shim.specs.Fields.{packet_of_fields};

    ghost view = { packet_of_fields };

    ghost invariant = { λ p. IsPacket (packet_of_fields p) };
}

impl Carried {
    /// The same once more.
    pub fn copied(&self) -> Carried
        ensures { result ≡ self.now }
    {
        match self {
            Carried::Nothing => Carried::Nothing,
            Carried::Shim(shim) => Carried::Shim(shim.copied()),
            Carried::Malformed(bytes) => Carried::Malformed(*bytes),
        }
    }
}

impl Packet {
    /// A packet of these parts without an upper part, within the bounds of its numbers.
    pub fn new(id: PacketId, flow: Flow, hops: u8, payload: u16, carried: Carried) -> Packet
        requires hops { hops ≤ 32 }
        requires payload { payload ≤ 1600 }
        requires carried { IsCarried carried }
        ensures { result ≡ packet_data id flow hops payload carried }
    {
        Packet {
            id,
            flow,
            hops,
            payload,
            carried,
            upper: Upper::Nothing,
        }
    }

    /// A packet as it is made, with an upper part: it passed no router.
    pub fn made_with(
        id: PacketId,
        flow: Flow,
        payload: u16,
        carried: Carried,
        upper: Upper,
    ) -> Packet
        requires payload { payload ≤ 1600 }
        requires carried { IsCarried carried }
        requires upper { IsUpper upper }
        requires fills { Fills upper payload }
        ensures { result ≡ made_with id flow payload carried upper }
    {
        Packet {
            id,
            flow,
            hops: 0,
            payload,
            carried,
            upper,
        }
    }

    /// A packet as it is made, without an upper part.
    pub fn made(id: PacketId, flow: Flow, payload: u16, carried: Carried) -> Packet
        requires payload { payload ≤ 1600 }
        requires carried { IsCarried carried }
        ensures { result ≡ made_packet id flow payload carried }
    {
        Packet::new(id, flow, 0, payload, carried)
    }

    /// The same packet once more.
    pub fn copied(&self) -> Packet
        ensures { result ≡ self.now }
    {
        Packet {
            id: self.id,
            flow: self.flow,
            hops: self.hops,
            payload: self.payload,
            carried: self.carried.copied(),
            upper: self.upper,
        }
    }
}

/// The bytes of an upper part, which are those of its packet's payload: a header of 8, and the range.
pub fn upper_size(upper: Upper) -> u16
    requires { IsUpper upper }
    ensures bytes { result ≡ upper_size upper }
    ensures fills { Fills upper result }
    ensures few { result ≤ 1508 }
{
    match upper {
        Upper::Nothing => 0,
        Upper::Data { bytes, .. } => 8 + bytes,
        Upper::Ack { .. } => 8,
    }
}

/// The length of a packet in bytes: a header of 20, its shim and its payload.
pub fn length(packet: &Packet) -> u32
    ensures layout { result ≡ packet_length packet.now }
    ensures counted { result ≡ 20 + carried_size packet.now.carried + packet.now.payload }
    ensures short { result ≤ 2048 }
    ensures sized { IsSizedPacket packet.now }
{
    20 + carried_bytes_of(&packet.carried) + u32::from(packet.payload)
}

// the bytes between the header and the payload
fn carried_bytes_of(carried: &Carried) -> u32
    ensures layout { result ≡ carried_bytes carried.now }
    ensures counted { result ≡ carried_size carried.now }
    ensures short { IsCarried carried.now → result ≤ 400 }
    ensures widths { IsCarried carried.now → IsWithinWidths carried.now }
{
    match carried {
        Carried::Nothing => 0,
        Carried::Shim(shim) => shim_bytes_of(shim),
        Carried::Malformed(bytes) => u32::from(*bytes),
    }
}

/// The class of a packet by its shim alone: legacy where it has none, a malformed one or a marked
/// one, else request for a request and regular for the other kinds.
pub fn class_of(packet: &Packet) -> Class
    ensures { result ≡ class_by_shim packet.now.carried }
{
    match &packet.carried {
        Carried::Shim(shim) if !shim.demoted => match &shim.kind {
            Kind::Request(_) => Class::Request,
            Kind::List(_) | Kind::Nonce(_) | Kind::Renewal(_) => Class::Regular,
        },
        _ => Class::Legacy,
    }
}
