// The events of a replay, as its report tells them.
use crate::packet::{Class, Fate, Outcome, PacketId, Time};

/// How a packet is sent. `Trace` is a packet that a trace row injects.
#[derive(Clone, Copy, Debug, PartialEq, Eq)]
pub enum ShapeKind {
    Request,
    List,
    Nonce,
    Renewal,
    Legacy,
    Trace,
}

/// What a host takes a received packet for.
#[derive(Clone, Copy, Debug, PartialEq, Eq)]
pub enum WhatKind {
    Stray,
    Demoted,
    Request,
    Renewal,
    Regular,
    Legacy,
}

/// What became of a packet's return info. `Ignored` is a grant that wasn't taken.
#[derive(Clone, Copy, Debug, PartialEq, Eq)]
pub enum BackKind {
    Nothing,
    Notice,
    Grant,
    Ignored,
}

/// The reply to a receipt. The length is in bytes.
#[derive(Clone, Copy, Debug, PartialEq, Eq)]
pub struct ReplyLine {
    pub id: PacketId,
    pub length: u32,
    pub shape: ShapeKind,
    pub back: BackKind,
    pub outcome: Outcome,
}

/// A range of a file that was delivered, in bytes: the number of the transfer at its source, where the
/// range begins, and how long it is.
#[derive(Clone, Copy, Debug, PartialEq, Eq)]
pub struct DataLine {
    pub transfer: u16,
    pub first: u32,
    pub bytes: u16,
}

/// What happened at a node. Lengths and payloads are in bytes, and `from` and `link` are
/// numbers of links. A packet with no link before it comes from the trace. `Ticked` is a tick for which
/// nothing is sent.
#[derive(Clone, Copy, Debug, PartialEq, Eq)]
pub enum Happened {
    Arrived {
        id: PacketId,
        length: u32,
        from: Option<u16>,
        fate: Fate,
    },
    Sent {
        id: PacketId,
        length: u32,
        shape: ShapeKind,
        outcome: Outcome,
    },
    Received {
        id: PacketId,
        length: u32,
        from: u16,
        payload: u16,
        what: WhatKind,
        back: BackKind,
        reply: Option<ReplyLine>,
        range: Option<DataLine>,
    },
    Started {
        id: PacketId,
        length: u32,
        link: u16,
        class: Class,
        end: Time,
    },
    Ticked,
}

/// What happened, when and at which node.
#[derive(Clone, Copy, Debug, PartialEq, Eq)]
pub struct Event {
    pub time: Time,
    pub node: u16,
    pub happened: Happened,
}

/// The sums of a report: of events, router arrivals, charges, arrivals with a cause other than
/// malformed, drops, starts, receipts, and payload bytes of receipts that aren't stray.
#[derive(Clone, Copy, Debug, PartialEq, Eq)]
pub struct Totals {
    pub events: u64,
    pub routed: u64,
    pub authorised: u64,
    pub demoted: u64,
    pub dropped: u64,
    pub started: u64,
    pub received: u64,
    pub bytes: u64,
}
