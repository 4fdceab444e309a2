// What comes to a node, and what a node sends.
use tva_base::Time;
use tva_rows::Row;
use tva_shim::Packet;

/// What a node takes: a row of the trace at it, or a packet that arrives on the link of that number
/// at a time, in nanoseconds.
#[derive(Debug, Drop)]
pub enum Input {
    FromTrace(Row),
    Arrival {
        time: Time,
        link: u16,
        packet: Packet,
    },
}

/// A packet that a link started, with the number of the link and the time, in nanoseconds, at which
/// the packet arrives at the link's other end.
#[derive(Debug, Drop)]
pub struct Sending {
    pub link: u16,
    pub arrive: Time,
    pub packet: Packet,
}
