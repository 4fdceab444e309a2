// The sizes within which packets stay. Definitions write them out, so that each stands where it is read.
ghost use Rattle.std.specs.Prelude.{◌≡◌, ◌≤◌, length};
ghost use Rattle.tva_shim.specs.declared.limits.TheConstants.{HOPS_MAX, MALFORMED_MAX, PAYLOAD_MAX};
ghost use Rattle.tva_shim.specs.{Shims.ShimData, Shims.IsShim, Layout.layout};
ghost use Rattle.tva_shim.specs.Packets.{PacketData, IsSizedPacket, packet_length};

/// The greatest length of a payload, in bytes.
pub const PAYLOAD_MAX: u16 = 1600;

/// The greatest length of a malformed shim, in bytes.
pub const MALFORMED_MAX: u16 = 400;

/// The number of routers that a packet passes at most.
pub const HOPS_MAX: u8 = 32;

/// The sizes are those that the definitions write out.
pub fn limits_hold()
    ensures payload { PAYLOAD_MAX ≡ 1600 }
    ensures malformed { MALFORMED_MAX ≡ 400 }
    ensures hops { HOPS_MAX ≡ 32 }
{}

/// No packet is longer than 2,020 bytes, and no shim than 297: a packet with a malformed shim of 400
/// bytes, and a request of version 2 with 16 entries and a grant of 16 capabilities, are the longest.
#[tactic(auto, using(crate::proofs::Lengths::shim_within, crate::proofs::Lengths::packet_within))]
pub fn packets_are_short()
    ensures packet { (p : PacketData) → IsSizedPacket p → packet_length p ≤ 2020 }
    ensures shim { (s : ShimData) → IsShim s → length (layout s) ≤ 297 }
{}
