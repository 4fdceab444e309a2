// The port of a link, for packets in hand.
ghost use Rattle.std.specs.Prelude.{◌≡◌, ℕ, ◌+◌, ◌*◌, ◌^◌, ◌≤◌, ◌<◌, ◌↔◌, max, true, false, List, Some, None, IsSome, [], ◌++◌, IfOk};
ghost use Rattle.tva_base.specs.declared.packet.Class.TheVariants.{Request, Regular};
ghost use Rattle.tva_base.specs.Plan.{AreLinkLimits};
ghost use Rattle.tva_drr.specs.Queues.{fair};
ghost use Rattle.tva_shim.specs.Packets.{PacketData, packet_length};
ghost use Rattle.tva_port.specs.Requests.{cap};
ghost use Rattle.tva_port.specs.Levels.{no_requests};
ghost use Rattle.tva_port.specs.Log.{Entry, free_after};
ghost use Rattle.tva_port.specs.Waiting.{waiting, waiting_after, next_request, queue_answer, queued_by, is_queued, IsEmpty, IsRequestAlone};
ghost use Rattle.tva_port.specs.Decide.{decision, is_start, started_by, RestsAt, MissesNone, NoneDueBefore, IsFirstCovered};
ghost use Rattle.tva_port.specs.Hand.{AreOneAnswer, AreOneDecision, answer_by, decision_by, kept_by};
ghost use Rattle.tva_port.specs.declared.decision.Decision.TheVariants.{Start, WaitUntil, Idle};
ghost use Rattle.tva_port.specs.Stands.{port_data, StandsFor};
ghost use Rattle.tva_port.specs.Bounds.{request_bound, regular_bound, AreServed, ServesAlike};
ghost use Rattle.tva_port.specs.Keeps.{IsWithinRate, start_times, AreRising, StaysWithinLimits};

use crate::credits::{grow, most_credit, occupy, pay};
use crate::hand::{Answer, Hand, Next};
use crate::held::HeldPacket;
use crate::legacy::LegacyList;
use crate::parts::{put, start_next};
use crate::requests::RequestQueues;
use std::alloc::{AllocError, Global};
use std::marker::Model;
use tva_base::{Class, LinkLimits, Time};
use tva_drr::FairQueues;

/// What waits for a link, and what it starts, where packets are in the caller's hand: they stay in their
/// memory, which goes from the hand into a queue and back. Contracts see the limits, the last time, the
/// credit of requests then, when the link is free, and what waits; and they speak of all packets queued
/// and started so far, for which these stand. No call but the first takes memory.
///
/// Of the starts so far it keeps one number, the credit. The debt after some starts is the greatest
/// sum of costs from one of them on, less the time since it. As time passes each of these falls alike,
/// so the greatest falls alike, down to 0; a further start adds its cost to each, and begins a sum of
/// its own that is no more than these. So the credit grows with time up to its cap, and pays a cost at
/// each start.
#[derive(Drop)]
pub struct HandPort {
    limits: LinkLimits,
    last: u64,
    credit: u64,
    free_at: u64,
    requests: RequestQueues,
    regulars: FairQueues<HeldPacket>,
    legacy: LegacyList,
}

impl Model for HandPort {
    ghost use Rattle.tva_port.specs.Waiting.{waiting};
    ghost use Rattle.tva_port.specs.Stands.{PortData, port_data};
    ghost use Rattle.tva_port.specs.Lists.{IsSound};

    ghost Value = { PortData };

    ghost view = { λ w. port_data w.limits w.last w.credit w.free_at
        (waiting w.requests w.regulars w.legacy.packets) };

    ghost invariant = { λ w. IsSound w.limits w.last w.credit w.free_at w.requests w.regulars w.legacy };
}

impl HandPort {
    /// The port of a free link with these limits, where nothing waits and the credit is at its cap.
    /// The error is want of memory.
    pub fn build(alloc: Global, limits: LinkLimits) -> Result<HandPort, AllocError>
        requires { AreLinkLimits limits }
        ensures value { IfOk result (λ port. port ≡ port_data limits 0 (cap limits) 0
            (waiting (no_requests limits) (fair limits.regular []) [])) }
        ensures stands { IfOk result (λ port. StandsFor port []) }
        // No start is missed, as long as nothing comes.
        ensures missed { IfOk result (λ port. (until : ℕ) → MissesNone limits until []) }
    {
        Ok(HandPort {
            limits,
            last: 0,
            credit: most_credit(&limits),
            free_at: 0,
            requests: RequestQueues::with_limits(alloc, &limits)?,
            regulars: FairQueues::with_limits(alloc, limits.regular)?,
            legacy: LegacyList::with_limits(alloc, limits.legacy_ring, limits.legacy_bytes)?,
        })
    }

    /// Queues the packet in hand, as one of a class, at a time, in nanoseconds, which never falls. A request
    /// and a regular packet are offered to the queues of their class under their key: they are refused
    /// with `NoQueue` where the key has no queue and all are given, and with `QueueFull` where
    /// items or bytes would be too many. On a link with two levels a request is offered under its
    /// key and, within it, under the tag before, which is found in the packet; `NoQueue` comes
    /// there where the key has no group, or the tag no queue in it, and all are given. A legacy
    /// packet goes last, whatever its key, and is refused with `QueueFull` exactly where too many
    /// packets or bytes would wait. The packet leaves the hand where it is queued. Where it is refused it
    /// stays there, and nothing changes but the last time.
    #[inline(always)]
    pub fn queue_from(&mut self, now: Time, class: Class, key: u32, hand: &mut Hand) -> Answer
        requires time { self.old.last ≤ now.0 }
        requires horizon { now.0 ≤ 1000000000000000 }
        requires held { IsSome hand.old }
        ensures answer { (log : List Entry) (packet : PacketData) → StandsFor self.old log → hand.old ≡ Some packet
            → answer_by result hand.new
            ≡ queue_answer self.old.limits (waiting_after self.old.limits log) class key packet }
        ensures held { AreOneAnswer result hand.new }
        ensures left { (packet : PacketData) → hand.old ≡ Some packet → hand.new ≡ kept_by result packet }
        ensures stands { (log : List Entry) (packet : PacketData) → StandsFor self.old log → hand.old ≡ Some packet
            → StandsFor self.new (log ++ queued_by (answer_by result hand.new) now.0 class key packet) }
        // No start is missed up to now, nor while the link is busy.
        ensures missed { (log : List Entry) (until : ℕ) (packet : PacketData) → StandsFor self.old log
            → hand.old ≡ Some packet → until ≤ max now.0 self.old.free_at → MissesNone self.old.limits until log
            → MissesNone self.old.limits until (log ++ queued_by (answer_by result hand.new) now.0 class key packet) }
        ensures refused { is_queued (answer_by result hand.new) ≡ false → self.new.waiting ≡ self.old.waiting }
        ensures last { self.new.last ≡ now.0 }
        ensures same { (self.new.limits ≡ self.old.limits) × (self.new.free_at ≡ self.old.free_at) }
    {
        self.credit = grow(&self.limits, self.credit, now.0 - self.last);
        self.last = now.0;
        put(
            &mut self.requests,
            &mut self.regulars,
            &mut self.legacy,
            class,
            key,
            hand,
        )
    }

    /// Decides what the link, which is free, does at a time, in nanoseconds, which never falls: a
    /// request starts where the credit covers its cost, else the next regular packet, else the oldest
    /// legacy packet; else the link waits until the first time at which the credit covers the request
    /// at the head, and is idle where nothing waits. TVA limits the rate of requests; the credit is
    /// this project's own form of it. A packet that starts is put into the hand, which is empty.
    #[inline(always)]
    pub fn decide_into(&mut self, now: Time, hand: &mut Hand) -> Next
        requires time { self.old.last ≤ now.0 }
        requires horizon { now.0 ≤ 1000000000000000 }
        requires free { self.old.free_at ≤ now.0 }
        requires empty { hand.old ≡ None }
        ensures decision { (log : List Entry) → StandsFor self.old log
            → decision_by result hand.new ≡ decision self.old.limits log now.0 }
        ensures held { AreOneDecision result hand.new }
        ensures stands { (log : List Entry) → StandsFor self.old log
            → StandsFor self.new (log ++ started_by (decision_by result hand.new) now.0) }
        ensures idle { (log : List Entry) → StandsFor self.old log
            → (((decision_by result hand.new) ≡ Idle) ↔ IsEmpty self.old.waiting) }
        ensures alone { (log : List Entry) (u : Time) → StandsFor self.old log
            → decision_by result hand.new ≡ WaitUntil u → (packet : PacketData) × IsRequestAlone self.old.waiting packet }
        // A wait ends at the first time at which the credit covers the next request.
        ensures wait { (log : List Entry) (u : Time) (packet : PacketData) → StandsFor self.old log
            → decision_by result hand.new ≡ WaitUntil u → next_request self.old.waiting ≡ Some packet
            → IsFirstCovered self.old.limits log packet now.0 u.0 }
        ensures later { (log : List Entry) (u : Time) → StandsFor self.old log
            → decision_by result hand.new ≡ WaitUntil u → now.0 < u.0 }
        // A link that starts nothing decides the same until the wait is over, or for good.
        ensures steady { (log : List Entry) (until : ℕ) → StandsFor self.old log → is_start (decision_by result hand.new) ≡ false
            → NoneDueBefore (decision_by result hand.new) self.new.free_at until → (time : ℕ) → now.0 ≤ time → time < until
            → decision self.old.limits log time ≡ (decision_by result hand.new) }
        // Until then, until the end of what started, or for good, nothing else starts.
        ensures rests { (log : List Entry) (until : ℕ) → StandsFor self.old log
            → NoneDueBefore (decision_by result hand.new) self.new.free_at until → (time : ℕ) → now.0 ≤ time → time < until
            → RestsAt self.old.limits (log ++ started_by (decision_by result hand.new) now.0) time }
        ensures missed { (log : List Entry) (until : ℕ) → StandsFor self.old log
            → MissesNone self.old.limits now.0 log → NoneDueBefore (decision_by result hand.new) self.new.free_at until
            → MissesNone self.old.limits until (log ++ started_by (decision_by result hand.new) now.0) }
        // Whatever others send, each packet whose bound is over by now has started within it.
        ensures served { (log : List Entry) → StandsFor self.old log → MissesNone self.old.limits now.0 log
            → AreServed self.old.limits Request (request_bound self.old.limits) now.0 (log ++ started_by (decision_by result hand.new) now.0)
            × AreServed self.old.limits Regular (regular_bound self.old.limits) now.0 (log ++ started_by (decision_by result hand.new) now.0) }
        // From any place so far to any other, two keys under which something waits all along start about
        // as many bytes as each other: less than a quantum and two greatest packets more.
        ensures alike { (log : List Entry) → StandsFor self.old log
            → ServesAlike self.old.limits (log ++ started_by (decision_by result hand.new) now.0) }
        // What starts occupies the link for some time, so that nothing starts twice at one time.
        ensures busy { is_start (decision_by result hand.new) ≡ true → now.0 < self.new.free_at }
        ensures occupied { (class : Class) (packet : PacketData) → decision_by result hand.new ≡ Start class packet
            → self.new.free_at ≡ now.0 + packet_length packet * self.old.limits.ns_per_byte }
        // 2,048 bytes take at most 2,048,000,000 ns.
        ensures soon { self.new.free_at ≤ now.0 + 2048000000 }
        ensures rested { is_start (decision_by result hand.new) ≡ false → (self.new.waiting ≡ self.old.waiting)
            × (self.new.free_at ≡ self.old.free_at) }
        ensures last { self.new.last ≡ now.0 }
        ensures same { self.new.limits ≡ self.old.limits }
    {
        self.credit = grow(&self.limits, self.credit, now.0 - self.last);
        self.last = now.0;
        let next = start_next(
            &self.limits,
            self.credit,
            now.0,
            &mut self.requests,
            &mut self.regulars,
            &mut self.legacy,
            hand,
        );
        self.credit = pay(&self.limits, self.credit, next, hand);
        self.free_at = occupy(&self.limits, self.free_at, now.0, next, hand);
        next
    }

    /// When the link is free: the end of the last start, in nanoseconds, or 0 where nothing started.
    pub fn free_at(&self) -> Time
        ensures value { result.0 ≡ self.now.free_at }
        ensures free { (log : List Entry) → StandsFor self.now log
            → result.0 ≡ free_after self.now.limits log }
        ensures soon { result.0 ≤ self.now.last + 2048000000 }
    {
        Time(self.free_at)
    }

    /// The limits of the link. Under them, whatever packets came: the requests that started from one
    /// time to another cost at most what a burst costs and the time between; no two packets started at
    /// one time; and at each moment no more packets and bytes waited than each class has room for.
    pub fn limits(&self) -> LinkLimits
        ensures value { result ≡ self.now.limits }
        ensures rate { (log : List Entry) → StandsFor self.now log
            → IsWithinRate self.now.limits log }
        ensures apart { (log : List Entry) → StandsFor self.now log → AreRising (start_times log) }
        ensures room { (log : List Entry) → StandsFor self.now log
            → StaysWithinLimits self.now.limits log }
    {
        self.limits
    }
}
