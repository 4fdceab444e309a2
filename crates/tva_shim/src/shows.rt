// What a packet shows to the nodes that it passes.
ghost use Rattle.std.specs.Prelude.{◌≡◌};
ghost use Rattle.tva_shim.specs.{Changes.last_tag, Shows.entries_in, Shows.key_of, Shows.inner_key_of};

use crate::kinds::Kind;
use crate::packets::{Carried, Packet};
use tva_base::Class;

/// The key under which a packet of the class is queued. Requests share a queue by the last nonzero
/// tag of their path, 0 where there is none, and regular packets by their destination (TVA). A legacy
/// packet needs no key, and has 0.
pub fn queue_key(class: Class, packet: &Packet) -> u32
    ensures { result ≡ key_of class packet.now }
{
    match class {
        Class::Request => u32::from(path_tag(&packet.carried)),
        Class::Regular => packet.flow.dst.0,
        Class::Legacy => 0,
    }
}

// The last nonzero tag of a request, else 0.
fn path_tag(carried: &Carried) -> u16
    ensures { result ≡ last_tag (entries_in carried.now) }
{
    match carried {
        Carried::Shim(shim) => match &shim.kind {
            Kind::Request(_) => shim.tag_key(),
            Kind::List(_) | Kind::Nonce(_) | Kind::Renewal(_) => 0,
        },
        Carried::Nothing | Carried::Malformed(_) => 0,
    }
}

/// The inner key under which a request is queued on a link with two levels: the last nonzero tag of
/// its path but one, 0 where there is none. A packet that is no request has 0.
pub fn inner_queue_key(packet: &Packet) -> u32
    ensures { result ≡ inner_key_of packet.now }
{
    match &packet.carried {
        Carried::Shim(shim) => match &shim.kind {
            Kind::Request(_) => u32::from(shim.inner_key()),
            Kind::List(_) | Kind::Nonce(_) | Kind::Renewal(_) => 0,
        },
        Carried::Nothing | Carried::Malformed(_) => 0,
    }
}
