//! Shims and packets: what a packet carries, the bytes of a shim, and the changes that routers make.
//! Its contract promises that bytes are decoded exactly where they are the layout of a shim, which is
//! the only one, that encoding leaves that layout, and that each change is the stated one and leaves
//! the rest as it was.
#![tactic(auto)]

mod decoding;
mod encoding;
mod entries;
mod kinds;
mod laws;
mod limits;
mod numbers;
mod packets;
mod shims;
mod shows;

pub use decoding::decode;
pub use encoding::encode;
pub use entries::{Entries, Entry, PathFull};
pub use kinds::{Kind, ReturnInfo, Shown};
pub use laws::layouts_are_distinct;
pub use limits::{HOPS_MAX, MALFORMED_MAX, PAYLOAD_MAX, limits_hold, packets_are_short};
pub use packets::{Carried, Packet, class_of, length, upper_size};
pub use shims::Shim;
pub use shows::{inner_queue_key, queue_key};
