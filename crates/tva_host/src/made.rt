// What a host makes, and what it tells of a receipt.
use tva_base::{BackKind, ShapeKind, WhatKind};
use tva_shim::Packet;

/// A packet that a host made, to be queued, and how it is sent.
#[derive(Debug, Drop)]
pub struct Made {
    pub packet: Packet,
    pub shape: ShapeKind,
}

/// What a host takes a received packet for, what became of its return info, and the reply to be
/// queued, if there is one.
#[derive(Debug, Drop)]
pub struct Receipt {
    pub what: WhatKind,
    pub back: BackKind,
    pub reply: Option<Made>,
}
