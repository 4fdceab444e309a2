// What a node keeps, and its work.
ghost use Rattle.std.specs.Prelude.{◌≡◌, ◌≢◌, ◌≤◌, ◌<◌, ◌+◌, ◌∷◌, [], ◌++◌, min, max, map, Some, None, true, IfSome, IsSome, OnOk, length, get_or};
ghost use Rattle.tva_shim.specs.Packets.{PacketData, packet_length};
ghost use Rattle.tva_node.specs.declared.links.Link.{Link};
ghost use Rattle.tva_waiting.specs.Kept.{with_more};
ghost use Rattle.tva_base.specs.Plan.{AreRising, links_of};
ghost use Rattle.tva_node.specs.Pairs.{link_pair};
ghost use Rattle.tva_node.specs.Links.{asked_by, sooner, with_next};
ghost use Rattle.tva_node.specs.States.{BeginsWith, Keeps, Stands, state_of};
ghost use Rattle.tva_node.specs.Work.{DecidesAt, IsNoneBefore, IsStartable, TakesAt, end_on, is_due, link_of, queued_on, start_event, start_sending, work_time};

use crate::links::Links;
use crate::outbox::Outbox;
use crate::role::Role;
use std::alloc::{AllocError, Global};
use std::cmp;
use tva_base::{Class, Event, Happened, Outcome, Time};
use tva_port::{Hand, Next, id_in, length_in};
use tva_waiting::{Flight, Inbox, Kept, Waiting};

/// A node's inputs, its sendings and its events; its inputs that are not taken yet, and its links out by
/// their numbers; the time up to which it is worked and the horizon, in nanoseconds; its number, what it
/// is, and its allocator. What each window looks at stands in front.
#[derive(Drop)]
pub(crate) struct Parts {
    pub inbox: Inbox,
    pub outbox: Outbox,
    pub log: Kept<Event>,
    pub waiting: Waiting,
    pub links: Links,
    pub worked_to: u64,
    pub horizon: u64,
    pub number: u16,
    pub role: Role,
    pub alloc: Global,
}

impl Parts {
    /// Works what is to be done before a time and up to the horizon.
    pub fn advance(&mut self, until: u64) -> Result<(), AllocError>
        requires stands { Stands (state_of self.old) }
        ensures stands { OnOk result (Stands (state_of self.new)) }
        ensures upto { OnOk result (self.new.worked_to ≡ max self.old.worked_to (min until (self.old.horizon + 1))) }
        ensures keeps { Keeps (state_of self.old) (state_of self.new) }
    {
        let end = cmp::min(until, self.horizon + 1);
        while let Some(now) = self.work_before(end) {
            self.work_at(now)?;
        }
        self.rest_until(end);
        Ok(())
    }

    // The next time at which there is work.
    fn work_time(&self) -> Option<u64>
        ensures { result ≡ work_time self.now.waiting self.now.links }
    {
        sooner(self.waiting.first_time(), self.links.first())
    }

    /// The next time at which there is work, where it is no later than the horizon.
    pub fn work_within(&self) -> Option<u64>
        ensures some { IfSome result (λ now. (work_time self.now.waiting self.now.links ≡ Some now) × (now ≤ self.now.horizon)) }
        ensures none { result ≡ None → IsNoneBefore (self.now.horizon + 1) (work_time self.now.waiting self.now.links) }
    {
        match self.work_time() {
            Some(now) if now <= self.horizon => Some(now),
            _ => None,
        }
    }

    // The next time at which there is work, where it is before the end.
    fn work_before(&self, end: u64) -> Option<u64>
        ensures some { IfSome result (λ now. (work_time self.now.waiting self.now.links ≡ Some now) × (now < end)) }
        ensures none { result ≡ None → IsNoneBefore end (work_time self.now.waiting self.now.links) }
    {
        match self.work_time() {
            Some(now) if now < end => Some(now),
            _ => None,
        }
    }

    // Goes to a time before which there is nothing to do.
    fn rest_until(&mut self, end: u64)
        requires stands { Stands (state_of self.old) }
        requires end { end ≤ self.old.horizon + 1 }
        requires none { IsNoneBefore end (work_time self.old.waiting self.old.links) }
        ensures stands { Stands (state_of self.new) }
        ensures upto { self.new.worked_to ≡ max self.old.worked_to end }
        ensures keeps { Keeps (state_of self.old) (state_of self.new) }
    {
        self.worked_to = cmp::max(self.worked_to, end);
    }

    // Works one time, before which there is nothing to do.
    fn work_at(&mut self, now: u64) -> Result<(), AllocError>
        requires stands { Stands (state_of self.old) }
        requires horizon { now ≤ self.old.horizon }
        requires next { work_time self.old.waiting self.old.links ≡ Some now }
        ensures stands { OnOk result (Stands (state_of self.new)) }
        ensures upto { OnOk result (self.new.worked_to ≡ now + 1) }
        ensures on { OnOk result (self.old.worked_to < self.new.worked_to) }
        ensures keeps { Keeps (state_of self.old) (state_of self.new) }
    {
        self.work_each(now)?;
        self.worked_to = now + 1;
        Ok(())
    }

    // Takes all inputs of a time, then lets the links decide.
    fn work_each(&mut self, now: u64) -> Result<(), AllocError>
        requires { TakesAt (state_of self.old) now }
        ensures decided { OnOk result (DecidesAt (state_of self.new) now (length self.new.links)) }
        ensures keeps { Keeps (state_of self.old) (state_of self.new) }
    {
        self.take_all(now)?;
        self.decide_each(now)
    }

    // Takes all inputs of a time.
    fn take_all(&mut self, now: u64) -> Result<(), AllocError>
        requires { TakesAt (state_of self.old) now }
        ensures taken { OnOk result (DecidesAt (state_of self.new) now 0) }
        ensures keeps { Keeps (state_of self.old) (state_of self.new) }
    {
        while self.is_due(now) {
            self.take_one(now)?;
        }
        Ok(())
    }

    fn is_due(&self, now: u64) -> bool
        ensures { result ≡ is_due now self.now.waiting }
    {
        match self.waiting.first_time() {
            Some(time) => time == now,
            None => false,
        }
    }

    // Takes the next input, which comes at that time. A link on which it queues a packet is asked then.
    fn take_one(&mut self, now: u64) -> Result<(), AllocError>
        requires stands { TakesAt (state_of self.old) now }
        requires next { is_due now self.old.waiting ≡ true }
        ensures stands { OnOk result (TakesAt (state_of self.new) now) }
        ensures fewer { length self.new.waiting < length self.old.waiting }
        ensures keeps { Keeps (state_of self.old) (state_of self.new) }
    {
        if self.waiting.is_row() {
            let row = self.waiting.take_row();
            let happened = self.role.take_row(self.alloc, self.number, row)?;
            return self.note_taken(now, happened);
        }
        let flight = self.waiting.take_flight();
        let happened = self.role.take_flight(self.alloc, self.number, flight)?;
        self.note_taken(now, happened)
    }

    // Notes what happened as an input was taken. The link on which it queued a packet is asked then.
    #[inline(always)]
    fn note_taken(&mut self, now: u64, happened: Happened) -> Result<(), AllocError>
        requires { AreRising (links_of (map link_pair self.old.links)) }
        ensures log { OnOk result (self.new.log ≡ with_more self.old.log
            (record { time = record { 0 = now }; node = self.old.number; happened = happened } ∷ [])) }
        ensures links { OnOk result (self.new.links ≡ map (asked_by (queued_on happened) now) self.old.links) }
        ensures same { (self.new.role ≡ self.old.role) × (self.new.inbox ≡ self.old.inbox) × (self.new.waiting ≡ self.old.waiting)
            × (self.new.number ≡ self.old.number) × (self.new.horizon ≡ self.old.horizon) × (self.new.worked_to ≡ self.old.worked_to)
            × (self.new.outbox ≡ self.old.outbox) }
        ensures keeps { Keeps (state_of self.old) (state_of self.new) }
    {
        let queued = queued_on(&happened);
        self.log.push(Event {
            time: Time(now),
            node: self.number,
            happened,
        })?;
        self.links.ask(queued, now);
        Ok(())
    }

    // Lets each link decide that may have something to do, in the order of their numbers. Each decides
    // once at most.
    fn decide_each(&mut self, now: u64) -> Result<(), AllocError>
        requires { DecidesAt (state_of self.old) now 0 }
        ensures decided { OnOk result (DecidesAt (state_of self.new) now (length self.new.links)) }
        ensures keeps { Keeps (state_of self.old) (state_of self.new) }
    {
        for _ in 0..self.links.count() {
            let Some(place) = self.links.due(now) else {
                return Ok(());
            };
            self.ask_at(place, now)?;
        }
        Ok(())
    }

    // Lets the link in that place decide, where it is free.
    fn ask_at(&mut self, place: usize, now: u64) -> Result<(), AllocError>
        requires stands { DecidesAt (state_of self.old) now place }
        requires within { place < length self.old.links }
        ensures stands { OnOk result (DecidesAt (state_of self.new) now (place + 1)) }
        ensures keeps { Keeps (state_of self.old) (state_of self.new) }
    {
        let number = self.links.at(place).number;
        let free = self.role.free_at(number);
        if free.0 > now {
            self.links.put(place, Some(free.0));
            return Ok(());
        }
        let mut hand = Hand::empty();
        match self.role.decide(Time(now), number, &mut hand) {
            Next::Start(class) => self.note_start(place, now, class, hand),
            Next::WaitUntil(time) => {
                self.links.put(place, Some(time.0));
                Ok(())
            }
            Next::Idle => {
                self.links.put(place, None);
                Ok(())
            }
        }
    }

    // Notes that the link in that place starts the packet in hand.
    fn note_start(
        &mut self,
        place: usize,
        now: u64,
        class: Class,
        hand: Hand,
    ) -> Result<(), AllocError>
        requires within { place < length self.old.links }
        requires fits { (d : Link) → IsStartable now (get_or self.old.links place d) }
        requires held { IsSome hand }
        ensures links { (d : Link) (packet : PacketData) → hand ≡ Some packet → self.new.links
            ≡ with_next place (Some (end_on (get_or self.old.links place d) now packet)) self.old.links d }
        ensures log { (d : Link) (packet : PacketData) → hand ≡ Some packet → OnOk result (self.new.log.all
            ≡ self.old.log.all ++ start_event self.old.number (get_or self.old.links place d) now class packet ∷ []) }
        ensures outbox { (d : Link) (packet : PacketData) → hand ≡ Some packet → OnOk result (self.new.outbox.all
            ≡ self.old.outbox.all ++ start_sending (get_or self.old.links place d) now packet ∷ []) }
        ensures more { BeginsWith self.old.log.all self.new.log.all }
        ensures sent { BeginsWith self.old.outbox.all self.new.outbox.all }
        ensures same { (self.new.role ≡ self.old.role) × (self.new.inbox ≡ self.old.inbox) × (self.new.waiting ≡ self.old.waiting)
            × (self.new.number ≡ self.old.number) × (self.new.horizon ≡ self.old.horizon) × (self.new.worked_to ≡ self.old.worked_to) }
        ensures held { (self.new.outbox.keeps ≡ self.old.outbox.keeps) × (self.new.log.gone ≡ self.old.log.gone)
            × (self.new.outbox.gone ≡ self.old.outbox.gone) × (self.new.log.told ≡ self.old.log.told)
            × (self.new.outbox.told ≡ self.old.outbox.told) }
    {
        let link = self.links.at(place);
        let id = id_in(&hand);
        let bytes = length_in(&hand);
        let end = now + u64::from(bytes) * link.plan.limits.ns_per_byte;
        self.links.put(place, Some(end));
        self.log.push(Event {
            time: Time(now),
            node: self.number,
            happened: Happened::Started {
                id,
                length: bytes,
                link: link.number,
                class,
                end: Time(end),
            },
        })?;
        let arrive = Time(end + link.plan.delay);
        self.outbox.push(Flight::of(link.number, arrive, hand))?;
        Ok(())
    }
}

// The link on which what happened queued a packet.
fn queued_on(happened: &Happened) -> Option<u16>
    ensures { result ≡ queued_on happened.now }
{
    match happened {
        Happened::Arrived { fate, .. } => link_of(fate.outcome),
        Happened::Sent { outcome, .. } => link_of(*outcome),
        Happened::Received {
            reply: Some(reply),
            ..
        } => link_of(reply.outcome),
        Happened::Received { reply: None, .. } | Happened::Started { .. } | Happened::Ticked =>
            None,
    }
}

// The link on which a packet was queued.
fn link_of(outcome: Outcome) -> Option<u16>
    ensures { result ≡ link_of outcome }
{
    match outcome {
        Outcome::Queued(link) => Some(link),
        Outcome::Dropped(_) => None,
    }
}

// The sooner of two times.
fn sooner(one: Option<u64>, other: Option<u64>) -> Option<u64>
    ensures { result ≡ sooner one other }
{
    match (one, other) {
        (Some(a), Some(b)) => Some(cmp::min(a, b)),
        (Some(a), None) => Some(a),
        (None, b) => b,
    }
}
