// What names a packet, what it may bring, what a sender may send, and what became of an arrival.
ghost use Rattle.std.specs.Prelude.{◌≡◌};
ghost use Rattle.tva_base.specs.Orders.{grant_order};

use crate::addresses::Address;
use std::cmp::Ordering;

/// A time, in nanoseconds since the start of the replay.
#[derive(Clone, Copy, Debug, PartialEq, Eq, PartialOrd, Ord)]
pub struct Time(pub u64);

/// The source and the destination of a packet.
#[derive(Clone, Copy, Debug, PartialEq, Eq, PartialOrd, Ord)]
pub struct Flow {
    pub src: Address,
    pub dst: Address,
}

/// The node that made a packet or took it from the trace, and its number there, from 1.
#[derive(Clone, Copy, Debug, PartialEq, Eq)]
pub struct PacketId {
    pub node: u16,
    pub ordinal: u64,
}

/// What a packet has above its shim, within its payload: nothing; the bytes of a file from `first`
/// on, by the number of the transfer at the source; or that all bytes of the source's transfer of
/// that number came up to `next`.
#[derive(Clone, Copy, Debug, PartialEq, Eq)]
pub enum Upper {
    Nothing,
    Data {
        transfer: u16,
        first: u32,
        bytes: u16,
    },
    Ack {
        transfer: u16,
        next: u32,
    },
}

/// What a destination grants: `n` units of 1,024 bytes within `t` seconds.
#[derive(Clone, Copy, Debug, PartialEq, Eq, PartialOrd, Ord)]
pub struct Rights {
    pub n: u32,
    pub t: u8,
}

/// The rights of a flow from the router second in which its capability was minted.
#[derive(Clone, Copy, Debug, PartialEq, Eq, PartialOrd, Ord)]
pub struct Grant {
    pub flow: Flow,
    pub rights: Rights,
    pub second: u64,
}

/// Grants are ordered by their flows, then by their rights, then by their seconds: flows by their
/// sources first, and rights by their units first.
pub fn grants_are_ordered(a: &Grant, b: &Grant) -> Ordering
    ensures order { result ≡ grant_order a.now b.now }
    ensures same { result ≡ Ordering.Equal → a.now ≡ b.now }
{
    a.cmp(b)
}

/// In which order a link carries a packet: requests under their rate limit, then regular
/// packets, then the rest.
#[derive(Clone, Copy, Debug, PartialEq, Eq)]
pub enum Class {
    Request,
    Regular,
    Legacy,
}

/// Why a router doesn't take a packet as what it claims to be.
#[derive(Clone, Copy, Debug, PartialEq, Eq)]
pub enum Cause {
    NoCapability,
    Expired,
    BadHash,
    Superseded,
    OverN,
    CacheFull,
    UnknownNonce,
    PathFull,
    Malformed,
}

/// Why a packet isn't queued.
#[derive(Clone, Copy, Debug, PartialEq, Eq)]
pub enum DropCause {
    HopLimit,
    NoRoute,
    NoQueue,
    QueueFull,
}

/// Where a packet goes: to the link with that number, or nowhere.
#[derive(Clone, Copy, Debug, PartialEq, Eq)]
pub enum Outcome {
    Queued(u16),
    Dropped(DropCause),
}

/// What a router makes of an arrival. A charge is there exactly where it was authorised.
#[derive(Clone, Copy, Debug, PartialEq, Eq)]
pub struct Fate {
    pub class: Class,
    pub cause: Option<Cause>,
    pub charge: Option<Grant>,
    pub outcome: Outcome,
}
