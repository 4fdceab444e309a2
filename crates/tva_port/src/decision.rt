use tva_base::{Class, Time};
use tva_shim::Packet;

/// What a free link does: a packet of a class starts; or a request alone waits, and the link with it
/// until that time, in nanoseconds; or nothing waits.
#[derive(Debug, Drop)]
pub enum Decision {
    Start(Class, Packet),
    WaitUntil(Time),
    Idle,
}
