// The port of a link, for packets by value.
ghost use Rattle.std.specs.Prelude.{◌≡◌, ℕ, ◌+◌, ◌*◌, ◌^◌, ◌≤◌, ◌<◌, ◌↔◌, max, true, false, List, [], ◌++◌, IfOk};
ghost use Rattle.tva_base.specs.declared.packet.Class.TheVariants.{Request, Regular};
ghost use Rattle.tva_base.specs.Plan.{AreLinkLimits};
ghost use Rattle.tva_drr.specs.Queues.{fair};
ghost use Rattle.tva_shim.specs.Packets.{PacketData, packet_length};
ghost use Rattle.tva_port.specs.Requests.{cap};
ghost use Rattle.tva_port.specs.Counts.{places_in, request_places};
ghost use Rattle.tva_port.specs.Levels.{no_requests};
ghost use Rattle.tva_port.specs.Log.{Entry, free_after};
ghost use Rattle.tva_port.specs.Waiting.{waiting, waiting_after, next_request, queue_answer, queued_by, is_queued, IsEmpty, IsRequestAlone};
ghost use Rattle.tva_port.specs.Decide.{decision, is_start, started_by, RestsAt, MissesNone, NoneDueBefore, IsFirstCovered};
ghost use Rattle.tva_port.specs.declared.decision.Decision.TheVariants.{Start, WaitUntil, Idle};
ghost use Rattle.tva_port.specs.Stands.{port_data, StandsFor};
ghost use Rattle.tva_port.specs.Bounds.{request_bound, regular_bound, AreServed, ServesAlike};
ghost use Rattle.tva_port.specs.Keeps.{IsWithinRate, start_times, AreRising, StaysWithinLimits};

use crate::decision::Decision;
use crate::hand::{Hand, answer_by, decision_by};
use crate::hand_port::HandPort;
use crate::stock::Stock;
use std::alloc::{AllocError, Global};
use std::marker::Model;
use tva_base::{Class, LinkLimits, Time};
use tva_drr::Offered;
use tva_shim::Packet;

/// The same as `HandPort` for packets by value, which take no memory: it has some for each packet that may
/// wait, and for one more. All memory is taken when it is built.
#[derive(Drop)]
pub struct Port {
    inner: HandPort,
    stock: Stock,
}

impl Model for Port {
    ghost use Rattle.tva_port.specs.Stands.{PortData};
    ghost use Rattle.tva_port.specs.Stocked.{IsStocked};

    ghost Value = { PortData };

    ghost view = { λ w. w.inner };

    ghost invariant = { λ w. IsStocked w.inner w.stock };
}

impl Port {
    /// The port of a free link with these limits, where nothing waits and the credit is at its cap.
    /// The error is want of memory.
    pub fn build(alloc: Global, limits: LinkLimits) -> Result<Port, AllocError>
        requires { AreLinkLimits limits }
        ensures value { IfOk result (λ port. port ≡ port_data limits 0 (cap limits) 0
            (waiting (no_requests limits) (fair limits.regular []) [])) }
        ensures stands { IfOk result (λ port. StandsFor port []) }
        // No start is missed, as long as nothing comes.
        ensures missed { IfOk result (λ port. (until : ℕ) → MissesNone limits until []) }
    {
        let inner = HandPort::build(alloc, limits)?;
        let mut stock = Stock::empty(alloc);
        stock.add(alloc, places_in(&limits) + 1)?;
        Ok(Port { inner, stock })
    }

    /// Queues a packet of a class at a time, in nanoseconds, which never falls. A request and a
    /// regular packet are offered to the queues of their class under their key: they are refused
    /// with `NoQueue` where the key has no queue and all are given, and with `QueueFull` where
    /// items or bytes would be too many. On a link with two levels a request is offered under its
    /// key and, within it, under the tag before, which is found in the packet; `NoQueue` comes
    /// there where the key has no group, or the tag no queue in it, and all are given. A legacy
    /// packet goes last, whatever its key, and is refused with `QueueFull` exactly where too many
    /// packets or bytes would wait. A refusal hands the packet back, and changes nothing but the
    /// last time. It takes no memory.
    #[inline(always)]
    pub fn queue(&mut self, now: Time, class: Class, key: u32, packet: Packet) -> Offered<Packet>
        requires time { self.old.last ≤ now.0 }
        requires horizon { now.0 ≤ 1000000000000000 }
        ensures answer { (log : List Entry) → StandsFor self.old log
            → result ≡ queue_answer self.old.limits (waiting_after self.old.limits log) class key packet }
        ensures stands { (log : List Entry) → StandsFor self.old log
            → StandsFor self.new (log ++ queued_by result now.0 class key packet) }
        // No start is missed up to now, nor while the link is busy.
        ensures missed { (log : List Entry) (until : ℕ) → StandsFor self.old log
            → until ≤ max now.0 self.old.free_at → MissesNone self.old.limits until log
            → MissesNone self.old.limits until (log ++ queued_by result now.0 class key packet) }
        ensures refused { is_queued result ≡ false → self.new.waiting ≡ self.old.waiting }
        ensures last { self.new.last ≡ now.0 }
        ensures same { (self.new.limits ≡ self.old.limits) × (self.new.free_at ≡ self.old.free_at) }
    {
        let mut hand = self.stock.hand_of(packet);
        let answer = self.inner.queue_from(now, class, key, &mut hand);
        answer_by(answer, self.stock.packet_of(hand))
    }

    /// Decides what the link, which is free, does at a time, in nanoseconds, which never falls: a
    /// request starts where the credit covers its cost, else the next regular packet, else the oldest
    /// legacy packet; else the link waits until the first time at which the credit covers the request
    /// at the head, and is idle where nothing waits. TVA limits the rate of requests; the credit is
    /// this project's own form of it. It takes no memory.
    #[inline(always)]
    pub fn decide(&mut self, now: Time) -> Decision
        requires time { self.old.last ≤ now.0 }
        requires horizon { now.0 ≤ 1000000000000000 }
        requires free { self.old.free_at ≤ now.0 }
        ensures decision { (log : List Entry) → StandsFor self.old log
            → result ≡ decision self.old.limits log now.0 }
        ensures stands { (log : List Entry) → StandsFor self.old log
            → StandsFor self.new (log ++ started_by result now.0) }
        ensures idle { (log : List Entry) → StandsFor self.old log
            → ((result ≡ Idle) ↔ IsEmpty self.old.waiting) }
        ensures alone { (log : List Entry) (u : Time) → StandsFor self.old log
            → result ≡ WaitUntil u → (packet : PacketData) × IsRequestAlone self.old.waiting packet }
        // A wait ends at the first time at which the credit covers the next request.
        ensures wait { (log : List Entry) (u : Time) (packet : PacketData) → StandsFor self.old log
            → result ≡ WaitUntil u → next_request self.old.waiting ≡ Some packet
            → IsFirstCovered self.old.limits log packet now.0 u.0 }
        ensures later { (log : List Entry) (u : Time) → StandsFor self.old log
            → result ≡ WaitUntil u → now.0 < u.0 }
        // A link that starts nothing decides the same until the wait is over, or for good.
        ensures steady { (log : List Entry) (until : ℕ) → StandsFor self.old log → is_start result ≡ false
            → NoneDueBefore result self.new.free_at until → (time : ℕ) → now.0 ≤ time → time < until
            → decision self.old.limits log time ≡ result }
        // Until then, until the end of what started, or for good, nothing else starts.
        ensures rests { (log : List Entry) (until : ℕ) → StandsFor self.old log
            → NoneDueBefore result self.new.free_at until → (time : ℕ) → now.0 ≤ time → time < until
            → RestsAt self.old.limits (log ++ started_by result now.0) time }
        ensures missed { (log : List Entry) (until : ℕ) → StandsFor self.old log
            → MissesNone self.old.limits now.0 log → NoneDueBefore result self.new.free_at until
            → MissesNone self.old.limits until (log ++ started_by result now.0) }
        // Whatever others send, each packet whose bound is over by now has started within it.
        ensures served { (log : List Entry) → StandsFor self.old log → MissesNone self.old.limits now.0 log
            → AreServed self.old.limits Request (request_bound self.old.limits) now.0 (log ++ started_by result now.0)
            × AreServed self.old.limits Regular (regular_bound self.old.limits) now.0 (log ++ started_by result now.0) }
        // From any place so far to any other, two keys under which something waits all along start about
        // as many bytes as each other: less than a quantum and two greatest packets more.
        ensures alike { (log : List Entry) → StandsFor self.old log
            → ServesAlike self.old.limits (log ++ started_by result now.0) }
        // What starts occupies the link for some time, so that nothing starts twice at one time.
        ensures busy { is_start result ≡ true → now.0 < self.new.free_at }
        ensures occupied { (class : Class) (packet : PacketData) → result ≡ Start class packet
            → self.new.free_at ≡ now.0 + packet_length packet * self.old.limits.ns_per_byte }
        // 2,048 bytes take at most 2,048,000,000 ns.
        ensures soon { self.new.free_at ≤ now.0 + 2048000000 }
        ensures rested { is_start result ≡ false → (self.new.waiting ≡ self.old.waiting)
            × (self.new.free_at ≡ self.old.free_at) }
        ensures last { self.new.last ≡ now.0 }
        ensures same { self.new.limits ≡ self.old.limits }
    {
        let mut hand = Hand::empty();
        let next = self.inner.decide_into(now, &mut hand);
        decision_by(next, self.stock.packet_of(hand))
    }

    /// When the link is free: the end of the last start, in nanoseconds, or 0 where nothing started.
    pub fn free_at(&self) -> Time
        ensures value { result.0 ≡ self.now.free_at }
        ensures free { (log : List Entry) → StandsFor self.now log
            → result.0 ≡ free_after self.now.limits log }
        ensures soon { result.0 ≤ self.now.last + 2048000000 }
    {
        self.inner.free_at()
    }

    /// The limits of the link. Under them, whatever packets came: the requests that started from one
    /// time to another cost at most what a burst costs and the time between; no two packets started at
    /// one time; and at each moment no more packets and bytes waited than each class has room for.
    pub fn limits(&self) -> LinkLimits
        ensures value { result ≡ self.now.limits }
        ensures rate { (log : List Entry) → StandsFor self.now log
            → IsWithinRate self.now.limits log }
        ensures apart { (log : List Entry) → StandsFor self.now log → AreRising (start_times log) }
        ensures room { (log : List Entry) → StandsFor self.now log
            → StaysWithinLimits self.now.limits log }
    {
        self.inner.limits()
    }
}

/// How many packets may wait.
pub fn places_in(limits: &LinkLimits) -> usize
    requires { AreLinkLimits limits.now }
    ensures value { result ≡ places_in limits.now }
    ensures few { result ≤ 2 ^ 49 }
{
    request_places(limits)
        + limits.regular.queues as usize * limits.regular.ring as usize
        + limits.legacy_ring as usize
}

// How many requests may wait.
fn request_places(limits: &LinkLimits) -> usize
    requires { AreLinkLimits limits.now }
    ensures value { result ≡ request_places limits.now }
    ensures few { result ≤ 2 ^ 48 }
{
    let queues = limits.request.queues as usize;
    let ring = limits.request.ring as usize;
    match limits.request_inner {
        Some(inner) => queues * (inner as usize * ring),
        None => queues * ring,
    }
}
