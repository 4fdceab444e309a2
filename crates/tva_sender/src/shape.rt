// How a packet is sent.
use tva_base::{Caps, Rights};

/// What a packet shows of a grant: its nonce, rights and capabilities.
#[derive(Debug, Drop)]
pub struct Held {
    pub nonce: u64,
    pub rights: Rights,
    pub caps: Caps,
}

/// How a packet is sent: as a request, with the list of a grant, with its nonce alone, as a
/// renewal with the list, or without any of these.
#[derive(Debug, Drop)]
pub enum Shape {
    Request,
    List(Held),
    NonceOnly(u64),
    Renewal(Held),
    Legacy,
}
