// What is queued and what starts, on the parts of a port.
ghost use Rattle.std.specs.Prelude.{◌≡◌, ◌≤◌, ◌<◌, ◌+◌, true, Some, None, IsSome, if◌then◌else◌};
ghost use Rattle.tva_base.specs.declared.limits.LinkLimits.{LinkLimits};
ghost use Rattle.tva_base.specs.Plan.{AreLinkLimits};
ghost use Rattle.tva_shim.specs.Packets.{PacketData, packet_length};
ghost use Rattle.tva_port.specs.Levels.{limits_in, next_in};
ghost use Rattle.tva_port.specs.Waiting.{waiting, queue_answer};
ghost use Rattle.tva_port.specs.Decide.{covered, wait_for, decide_on};
ghost use Rattle.tva_port.specs.Hand.{AreOneAnswer, AreOneDecision, answer_by, decision_by};
ghost use Rattle.tva_port.specs.Steps.{put_leaves, decision_leaves, IsPaid};

use crate::credits::cost_of;
use crate::fair::{offer_to, start_from};
use crate::hand::{Answer, Hand, Next};
use crate::held::HeldPacket;
use crate::legacy::LegacyList;
use crate::requests::RequestQueues;
use tva_base::{Class, LinkLimits, Time};
use tva_drr::FairQueues;

/// Whether there is a request at the head whose cost the credit covers.
fn is_covered(limits: &LinkLimits, credit: u64, requests: &RequestQueues) -> bool
    requires limits { AreLinkLimits limits.now }
    requires most { (limits_in requests.now).max ≡ 2048 }
    ensures covered { covered limits.now credit (next_in requests.now) ≡ (if result then next_in requests.now else None) }
    ensures some { result ≡ true → IsSome (next_in requests.now) }
    ensures sized { (packet : PacketData) → next_in requests.now ≡ Some packet
        → packet_length packet ≤ 2048 }
{
    match requests.head_length() {
        Some(bytes) => cost_of(limits, bytes) <= credit,
        None => false,
    }
}

/// How long a link rests that starts nothing: until the credit, which grows by one each nanosecond,
/// covers the request at the head.
fn rest(limits: &LinkLimits, credit: u64, now: u64, requests: &RequestQueues) -> Next
    requires limits { AreLinkLimits limits.now }
    requires most { (limits_in requests.now).max ≡ 2048 }
    requires time { now ≤ 1000000000000000 }
    ensures value { decision_by result None ≡ wait_for limits.now credit now (next_in requests.now) }
    ensures held { AreOneDecision result None }
{
    match requests.head_length() {
        Some(bytes) => {
            let lacking = cost_of(limits, bytes).saturating_sub(credit);
            Next::WaitUntil(Time(now + lacking))
        }
        None => Next::Idle,
    }
}

/// What a free link starts, which leaves its queue for the hand, or how long the link rests.
#[inline(always)]
pub(crate) fn start_next(
    limits: &LinkLimits,
    credit: u64,
    now: u64,
    requests: &mut RequestQueues,
    regulars: &mut FairQueues<HeldPacket>,
    legacy: &mut LegacyList,
    hand: &mut Hand,
) -> Next
    requires limits { AreLinkLimits limits.now }
    requires most { (limits_in requests.old).max ≡ 2048 }
    requires time { now ≤ 1000000000000000 }
    requires empty { hand.old ≡ None }
    ensures decision { decision_by result hand.new ≡ decide_on limits.now
        (waiting requests.old regulars.old legacy.old.packets) credit now }
    ensures held { AreOneDecision result hand.new }
    ensures left { waiting requests.new regulars.new legacy.new.packets
        ≡ decision_leaves (decision_by result hand.new) (waiting requests.old regulars.old legacy.old.packets) }
    ensures paid { IsPaid limits.now credit (decision_by result hand.new) }
    ensures sized { (packet : PacketData) → next_in requests.old ≡ Some packet
        → packet_length packet ≤ 2048 }
    ensures requests { limits_in requests.new ≡ limits_in requests.old }
    ensures regulars { regulars.new.limits ≡ regulars.old.limits }
    ensures legacy { (legacy.new.places ≡ legacy.old.places) × (legacy.new.most ≡ legacy.old.most) }
{
    if is_covered(limits, credit, requests) {
        return requests.start(hand);
    }
    if regulars.head_length().is_some() {
        return start_from(regulars, Class::Regular, hand);
    }
    if !legacy.is_empty() {
        return legacy.start(hand);
    }
    rest(limits, credit, now, requests)
}

/// Queues the packet in hand in its class, or leaves it there.
#[inline(always)]
pub(crate) fn put(
    requests: &mut RequestQueues,
    regulars: &mut FairQueues<HeldPacket>,
    legacy: &mut LegacyList,
    class: Class,
    key: u32,
    hand: &mut Hand,
) -> Answer
    requires requests { (limits_in requests.old).max ≡ 2048 }
    requires regulars { regulars.old.limits.max ≡ 2048 }
    requires held { IsSome hand.old }
    ensures answer { (packet : PacketData) (l : LinkLimits) → hand.old ≡ Some packet
        → l.legacy_ring ≡ legacy.old.places → l.legacy_bytes ≡ legacy.old.most
        → answer_by result hand.new
        ≡ queue_answer l (waiting requests.old regulars.old legacy.old.packets) class key packet }
    ensures held { AreOneAnswer result hand.new }
    ensures left { (packet : PacketData) (l : LinkLimits) → hand.old ≡ Some packet
        → l.legacy_ring ≡ legacy.old.places → l.legacy_bytes ≡ legacy.old.most
        → waiting requests.new regulars.new legacy.new.packets
        ≡ put_leaves l (waiting requests.old regulars.old legacy.old.packets) class key packet }
    ensures sized { (packet : PacketData) → hand.old ≡ Some packet
        → (20 ≤ packet_length packet) × (packet_length packet ≤ 2048) }
    ensures requests { limits_in requests.new ≡ limits_in requests.old }
    ensures regulars { regulars.new.limits ≡ regulars.old.limits }
    ensures legacy { (legacy.new.places ≡ legacy.old.places) × (legacy.new.most ≡ legacy.old.most) }
{
    match class {
        Class::Request => requests.offer(key, hand),
        Class::Regular => offer_to(regulars, key, hand),
        Class::Legacy => legacy.offer(hand),
    }
}
