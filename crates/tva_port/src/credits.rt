// What requests cost, and how the credit for them and the time of the next start change. Times are at
// most 10^15 ns, a cap at most 10^15 ns and a cost at most 2,048 * 10^9 ns, so each sum here and each
// time that a port answers is below 2^51, and 64 bits hold them.
ghost use Rattle.std.specs.Prelude.{◌≡◌, ◌+◌, ◌*◌, ◌≤◌};
ghost use Rattle.tva_base.specs.Plan.{AreLinkLimits};
ghost use Rattle.tva_shim.specs.Packets.{packet_length};
ghost use Rattle.tva_port.specs.Requests.{cost, cap};
ghost use Rattle.tva_port.specs.Steps.{grown, paid, freed, IsPaid};
ghost use Rattle.tva_port.specs.Hand.{decision_by};

use crate::hand::{Hand, Next};
use tva_base::{Class, LinkLimits};
use tva_shim::length;

/// What a request of so many bytes costs, in nanoseconds: at most 2,048 * 1,000 * 1,000,000.
pub(crate) fn cost_of(limits: &LinkLimits, bytes: u32) -> u64
    requires limits { AreLinkLimits limits.now }
    requires sized { bytes ≤ 2048 }
    ensures value { result ≡ cost limits.now bytes }
    ensures small { result ≤ 2048000000000 }
{
    u64::from(bytes) * limits.share * limits.ns_per_byte
}

/// The most credit that there can be, in nanoseconds: at most 1,000,000 * 1,000 * 1,000,000.
pub(crate) fn most_credit(limits: &LinkLimits) -> u64
    requires { AreLinkLimits limits.now }
    ensures value { result ≡ cap limits.now }
    ensures small { result ≤ 1000000000000000 }
{
    limits.burst * limits.share * limits.ns_per_byte
}

/// The credit after so many nanoseconds. It never passes its cap.
pub(crate) fn grow(limits: &LinkLimits, credit: u64, passed: u64) -> u64
    requires limits { AreLinkLimits limits.now }
    requires times { (credit ≤ cap limits.now) × (passed ≤ 1000000000000000) }
    ensures { result ≡ grown limits.now credit passed }
{
    most_credit(limits).min(credit + passed)
}

/// The credit after a decision, of which the packet is in hand. A request pays its cost at its start.
pub(crate) fn pay(limits: &LinkLimits, credit: u64, next: Next, hand: &Hand) -> u64
    requires limits { AreLinkLimits limits.now }
    requires covered { IsPaid limits.now credit (decision_by next hand.now) }
    ensures { result ≡ paid limits.now credit (decision_by next hand.now) }
{
    match (next, &hand.packet) {
        (Next::Start(Class::Request), Some(packet)) => credit - cost_of(limits, length(packet)),
        (_, _) => credit,
    }
}

/// When the link is free after a decision, of which the packet is in hand: it occupies the link for its bytes.
pub(crate) fn occupy(limits: &LinkLimits, free_at: u64, now: u64, next: Next, hand: &Hand) -> u64
    requires limits { AreLinkLimits limits.now }
    requires time { now ≤ 1000000000000000 }
    requires free { free_at ≤ now }
    ensures value { result ≡ freed limits.now free_at now (decision_by next hand.now) }
    ensures soon { result ≤ now + 2048000000 }
{
    match (next, &hand.packet) {
        (Next::Start(_), Some(packet)) => now + u64::from(length(packet)) * limits.ns_per_byte,
        (_, _) => free_at,
    }
}
