// A row of a trace.
use std::mem::size_of;
use tva_base::{Address, Flow, Time};
use tva_shim::Carried;

/// What a row asks of its node: to send bytes to a destination; to inject a packet as it stands; to
/// begin the transfer of a file in segments; or to send again what is next of one. Payloads are in
/// bytes, at most 1,600; a file has 1 to 100,000,000 bytes, and each of its segments 1 to 1,500.
#[derive(Debug, Drop)]
pub enum RowWhat {
    Send {
        dst: Address,
        payload: u16,
    },
    Inject {
        flow: Flow,
        payload: u16,
        carried: Carried,
    },
    File {
        dst: Address,
        size: u32,
        segment: u16,
    },
    Tick {
        dst: Address,
    },
}

/// A row: its time in nanoseconds, the number of its node, and what it asks.
#[derive(Debug, Drop)]
pub struct Row {
    pub time: Time,
    pub node: u16,
    pub what: RowWhat,
}

// A million rows take less than 600 MB.
const _: () = prove!(size_of::<Row>() < 600);
