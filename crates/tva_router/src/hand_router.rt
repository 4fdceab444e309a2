// A router, for packets in hand.
ghost use Rattle.std.specs.Prelude.{◌≡◌, ◌≢◌, ◌≤◌, ◌<◌, ◌↔◌, ℕ, ◌+◌, ◌*◌, max, nat_le, true, false, List, [], ◌++◌, Some, None, IsSome, IfOk, All, Contains, map};
ghost use Rattle.tva_base.specs.declared.plan.RouterPlan.{RouterPlan};
ghost use Rattle.tva_base.specs.Changes.{changed_plan};
ghost use Rattle.tva_base.specs.Plan.{AreRising, IsRouterPlan, AreLinkLimits, links_of};
ghost use Rattle.tva_shim.specs.Packets.{PacketData, packet_length};
ghost use Rattle.tva_flow.specs.Charges.{Charge, living_count};
ghost use Rattle.tva_flow.specs.Budget.{AreTimely, IsWithinBudget};
ghost use Rattle.tva_port.specs.Log.{free_after};
ghost use Rattle.tva_port.specs.Waiting.{waiting_after, next_request, IsEmpty, IsRequestAlone};
ghost use Rattle.tva_port.specs.Decide.{decision, is_start, started_by, RestsAt, MissesNone, NoneDueBefore, IsFirstCovered};
ghost use Rattle.tva_port.specs.Hand.{AreOneDecision, decision_by};
ghost use Rattle.tva_port.specs.declared.decision.Decision.TheVariants.{Start, WaitUntil, Idle};
ghost use Rattle.tva_router.specs.Handling.{PortLogs, outgoing_link, arrival, stopped, handle, kept_after};
ghost use Rattle.tva_router.specs.Routes.{rerouted};
ghost use Rattle.tva_router.specs.Stands.{StandsFor, StandForLogs, free_of, router_data, started_on, ◌with◌};
ghost use Rattle.tva_router.specs.Steps.{ArePorts, IsSound};

use crate::finding::{Ways, ways_of};
use crate::guard::Guard;
use crate::judged::{Arrival, Judgement};
use crate::routes::reroute;
use crate::sending::{decide_on, free_on, send};
use std::alloc::{AllocError, Global};
use std::marker::Model;
use tva_base::{
    Class, DropCause, Fate, LinkLimits, Listed, Name, Outcome, Prefix, RouterPlan, Time,
};
use tva_port::{Hand, HandPort, Next};
use tva_shim::{HOPS_MAX, Packet, class_of, length};

/// What a router keeps: the plan by which it was built and the plan in force, its last time, what it
/// judges packets with, the tables by which it finds links, and a port for each outgoing link. Contracts
/// speak of all its charges since it last started, and of the logs of its links' ports, for which these
/// stand. Packets are in the caller's hand. No call but the first takes memory.
#[derive(Drop)]
pub struct HandRouter {
    built: RouterPlan,
    plan: RouterPlan,
    last: u64,
    guard: Guard,
    ways: Ways,
    ports: Vec<HandPort>,
}

impl Model for HandRouter {
    ghost use Rattle.tva_router.specs.Stands.{RouterData, router_data};
    ghost use Rattle.tva_router.specs.Steps.{IsSound};

    ghost Value = { RouterData };

    ghost view = { λ r. router_data r.built r.plan r.last r.guard.minter r.guard.cache r.ports.items };

    ghost invariant = { λ r. IsSound r.built r.plan r.last r.guard r.ways r.ports.items };
}

impl HandRouter {
    /// A router by its plan, without charges, and with nothing at the ports of its links. The error is
    /// want of memory.
    pub fn build(alloc: Global, plan: &RouterPlan) -> Result<HandRouter, AllocError>
        requires { IsRouterPlan plan.now }
        ensures built { IfOk result (λ router. router.built ≡ plan.now) }
        ensures plan { IfOk result (λ router. router.plan ≡ plan.now) }
        ensures last { IfOk result (λ router. router.last ≡ 0) }
        ensures stands { IfOk result (λ router. StandsFor router [] (λ link. [])) }
        // No start is missed on any link, as long as nothing comes.
        ensures missed { IfOk result (λ router. (link until : ℕ) (limits : LinkLimits)
            → outgoing_link plan.now link ≡ Some (link, limits) → MissesNone limits until []) }
    {
        Ok(HandRouter {
            built: copied(alloc, plan)?,
            plan: copied(alloc, plan)?,
            last: 0,
            guard: Guard::build(alloc, plan)?,
            ways: ways_of(alloc, plan)?,
            ports: ports_of(alloc, plan.outgoing.as_slice())?,
        })
    }

    /// The restarts of the plan by which it was built, each with its time, in nanoseconds: times rise.
    pub fn restarts(&self) -> &[(Time, [u8; 32])]
        ensures restarts { result.now ≡ self.now.built.restarts }
        ensures rising { AreRising (map (λ c. c.0.0) result.now) }
    {
        self.built.restarts.as_slice()
    }

    /// What becomes of the packet in hand, which comes in on a link, or from the trace. Times are in nanoseconds
    /// and never fall. The cases are TVA's, in this order: the hop limit; no shim, or a marked one; a
    /// malformed one; a request, which gets an entry; a list, a nonce or a renewal, which is authorised
    /// or marked; then the longest prefix, and the offer to its link's port. A charge is there exactly
    /// where the packet was authorised, whatever becomes of it then. Where
    /// the packet is queued it leaves the hand; else it stays there, as it would go on.
    #[inline(always)]
    pub fn arrive_from(&mut self, now: Time, from: Option<u16>, hand: &mut Hand) -> Fate
        requires time { self.old.last ≤ now.0 }
        requires horizon { now.0 ≤ 1000000000000000 }
        requires held { IsSome hand.old }
        ensures fate { (h : List Charge) (logs : PortLogs) (packet : PacketData) → StandsFor self.old h logs
            → hand.old ≡ Some packet → result ≡ (handle self.old.plan h logs now.0 from packet).fate }
        ensures stands { (h : List Charge) (logs : PortLogs) (packet : PacketData) → StandsFor self.old h logs
            → hand.old ≡ Some packet → StandsFor self.new (h ++ (handle self.old.plan h logs now.0 from packet).charges)
            (logs with (handle self.old.plan h logs now.0 from packet).queued) }
        // An arrival without a charge leaves the charges as they were.
        ensures uncharged { (h : List Charge) (logs : PortLogs) (packet : PacketData) → StandsFor self.old h logs
            → hand.old ≡ Some packet → result.charge ≡ None
            → StandsFor self.new h (logs with (handle self.old.plan h logs now.0 from packet).queued) }
        // On no link a start is missed up to now, nor while the link is busy.
        ensures missed { (h : List Charge) (logs : PortLogs) (link until : ℕ) (limits : LinkLimits) (packet : PacketData)
            → StandsFor self.old h logs → hand.old ≡ Some packet → outgoing_link self.old.plan link ≡ Some (link, limits)
            → until ≤ max now.0 (free_after limits (logs link)) → MissesNone limits until (logs link)
            → MissesNone limits until ((logs with (handle self.old.plan h logs now.0 from packet).queued) link) }
        ensures left { (h : List Charge) (logs : PortLogs) (packet : PacketData) → StandsFor self.old h logs
            → hand.old ≡ Some packet
            → hand.new ≡ kept_after result.outcome (handle self.old.plan h logs now.0 from packet).onward }
        ensures last { self.new.last ≡ now.0 }
        ensures built { self.new.built ≡ self.old.built }
        ensures same { self.new.plan ≡ self.old.plan }
    {
        self.last = now.0;
        arrive_in(
            &self.plan,
            &self.ways,
            &mut self.guard,
            &mut self.ports,
            now,
            from,
            hand,
        )
    }

    /// What an outgoing link does that is free. Times are in nanoseconds and never fall. The decision
    /// is that of the link's port, over the link's log. A packet that starts is put into the hand,
    /// which is empty.
    #[inline(always)]
    pub fn decide_into(&mut self, now: Time, link: u16, hand: &mut Hand) -> Next
        requires time { self.old.last ≤ now.0 }
        requires horizon { now.0 ≤ 1000000000000000 }
        requires outgoing { outgoing_link self.old.plan link ≢ None }
        requires free { free_of self.old link ≤ now.0 }
        requires empty { hand.old ≡ None }
        ensures decision { (h : List Charge) (logs : PortLogs) (limits : LinkLimits) → StandsFor self.old h logs
            → outgoing_link self.old.plan link ≡ Some (link, limits)
            → decision_by result hand.new ≡ decision limits (logs link) now.0 }
        ensures held { AreOneDecision result hand.new }
        ensures stands { (h : List Charge) (logs : PortLogs) → StandsFor self.old h logs
            → StandsFor self.new h (logs with started_on link (decision_by result hand.new) now.0) }
        ensures idle { (h : List Charge) (logs : PortLogs) (limits : LinkLimits) → StandsFor self.old h logs
            → outgoing_link self.old.plan link ≡ Some (link, limits)
            → ((decision_by result hand.new ≡ Idle) ↔ IsEmpty (waiting_after limits (logs link))) }
        ensures alone { (h : List Charge) (logs : PortLogs) (limits : LinkLimits) (u : Time)
            → StandsFor self.old h logs → outgoing_link self.old.plan link ≡ Some (link, limits)
            → decision_by result hand.new ≡ WaitUntil u
            → (packet : PacketData) × IsRequestAlone (waiting_after limits (logs link)) packet }
        // A wait ends at the first time at which the credit covers the next request.
        ensures wait { (h : List Charge) (logs : PortLogs) (limits : LinkLimits) (u : Time) (packet : PacketData)
            → StandsFor self.old h logs → outgoing_link self.old.plan link ≡ Some (link, limits)
            → decision_by result hand.new ≡ WaitUntil u → next_request (waiting_after limits (logs link)) ≡ Some packet
            → IsFirstCovered limits (logs link) packet now.0 u.0 }
        ensures later { (h : List Charge) (logs : PortLogs) (limits : LinkLimits) (u : Time)
            → StandsFor self.old h logs → outgoing_link self.old.plan link ≡ Some (link, limits)
            → decision_by result hand.new ≡ WaitUntil u → now.0 < u.0 }
        // A link that starts nothing decides the same until the wait is over, or for good.
        ensures steady { (h : List Charge) (logs : PortLogs) (limits : LinkLimits) (until time : ℕ)
            → StandsFor self.old h logs → outgoing_link self.old.plan link ≡ Some (link, limits)
            → is_start (decision_by result hand.new) ≡ false → NoneDueBefore (decision_by result hand.new) (free_of self.new link) until
            → now.0 ≤ time → time < until → decision limits (logs link) time ≡ decision_by result hand.new }
        // Until then, until the end of what started, or for good, nothing else starts.
        ensures rests { (h : List Charge) (logs : PortLogs) (limits : LinkLimits) (until time : ℕ)
            → StandsFor self.old h logs → outgoing_link self.old.plan link ≡ Some (link, limits)
            → NoneDueBefore (decision_by result hand.new) (free_of self.new link) until → now.0 ≤ time → time < until
            → RestsAt limits (logs link ++ started_by (decision_by result hand.new) now.0) time }
        ensures missed { (h : List Charge) (logs : PortLogs) (limits : LinkLimits) (until : ℕ)
            → StandsFor self.old h logs → outgoing_link self.old.plan link ≡ Some (link, limits)
            → MissesNone limits now.0 (logs link) → NoneDueBefore (decision_by result hand.new) (free_of self.new link) until
            → MissesNone limits until (logs link ++ started_by (decision_by result hand.new) now.0) }
        // What starts occupies the link for some time, so that nothing starts twice at one time.
        ensures busy { is_start (decision_by result hand.new) ≡ true → now.0 < free_of self.new link }
        ensures occupied { (h : List Charge) (logs : PortLogs) (limits : LinkLimits) (class : Class) (packet : PacketData)
            → StandsFor self.old h logs → outgoing_link self.old.plan link ≡ Some (link, limits)
            → decision_by result hand.new ≡ Start class packet
            → free_of self.new link ≡ now.0 + packet_length packet * limits.ns_per_byte }
        // 2,048 bytes take at most 2,048,000,000 ns.
        ensures soon { free_of self.new link ≤ now.0 + 2048000000 }
        ensures last { self.new.last ≡ now.0 }
        ensures built { self.new.built ≡ self.old.built }
        ensures same { self.new.plan ≡ self.old.plan }
    {
        self.last = now.0;
        decide_on(&self.plan, &self.ways, &mut self.ports, now, link, hand)
    }

    /// When an outgoing link is free, in nanoseconds: the end of its last start, or 0.
    pub fn free_at(&self, link: u16) -> Time
        requires outgoing { outgoing_link self.now.plan link ≢ None }
        ensures value { result.0 ≡ free_of self.now link }
        ensures free { (h : List Charge) (logs : PortLogs) (limits : LinkLimits) → StandsFor self.now h logs
            → outgoing_link self.now.plan link ≡ Some (link, limits)
            → result.0 ≡ free_after limits (logs link) }
        ensures soon { result.0 ≤ self.now.last + 2048000000 }
    {
        free_on(&self.plan, &self.ways, &self.ports, link)
    }

    /// Starts again with another master. From then on the router stands for no charges, and mints and
    /// checks by that master; what its links' ports hold and owe stays, and so do its routes. Times are in
    /// nanoseconds and never fall, with those of all other calls. It takes no memory, and a step for each
    /// flow that the cache kept.
    pub fn restart(&mut self, now: Time, master: [u8; 32])
        requires { self.old.last ≤ now.0 }
        ensures stands { (h : List Charge) (logs : PortLogs) → StandsFor self.old h logs → StandsFor self.new [] logs }
        ensures plan { self.new.plan ≡ changed_plan master self.old.plan.routes self.old.plan }
        ensures built { self.new.built ≡ self.old.built }
        ensures last { self.new.last ≡ now.0 }
    {
        self.last = now.0;
        self.guard.restart(&self.plan, master);
        self.plan.master = master;
    }

    /// Gives the route of a prefix another of the outgoing links, which packets take from then on that
    /// arrive for it. The router stands for the same charges and logs: what is queued stays where it is.
    /// Times are in nanoseconds and never fall, with those of all other calls. It takes no memory.
    pub fn reroute(&mut self, now: Time, prefix: Prefix, link: u16)
        requires time { self.old.last ≤ now.0 }
        requires prefix { Contains (map (λ r. r.prefix) self.old.plan.routes) prefix }
        requires link { Contains (links_of self.old.plan.outgoing) link }
        ensures stands { (h : List Charge) (logs : PortLogs) → StandsFor self.old h logs → StandsFor self.new h logs }
        ensures plan { self.new.plan
            ≡ changed_plan self.old.plan.master (rerouted prefix link self.old.plan.routes) self.old.plan }
        ensures built { self.new.built ≡ self.old.built }
        ensures last { self.new.last ≡ now.0 }
    {
        self.last = now.0;
        reroute(&mut self.plan.routes, &self.ways.routes, prefix, link);
    }

    /// How many flows may live at once. Whatever packets came, each was charged in one of its grant's
    /// T seconds, and the charges of each grant have less than twice its N units of 1,024 bytes. The
    /// bound is TVA's.
    pub fn slots(&self) -> u32
        ensures slots { result ≡ self.now.plan.slots }
        ensures timely { (h : List Charge) (logs : PortLogs) → StandsFor self.now h logs
            → AreTimely self.now.plan.clock_offset h }
        ensures budget { (h : List Charge) (logs : PortLogs) → StandsFor self.now h logs → IsWithinBudget h }
        ensures living { (h : List Charge) (logs : PortLogs) → StandsFor self.now h logs
            → (now : ℕ) → self.now.last ≤ now → living_count h now ≤ self.now.plan.slots }
    {
        self.guard.cache.slots()
    }
}

// What becomes of the packet in hand, on the parts of a router.
#[inline(always)]
fn arrive_in(
    plan: &RouterPlan,
    ways: &Ways,
    guard: &mut Guard,
    ports: &mut Vec<HandPort>,
    now: Time,
    from: Option<u16>,
    hand: &mut Hand,
) -> Fate
    requires sound { (built : RouterPlan) × (last : ℕ) × (last ≤ now.0) × IsSound built plan.now last guard.old ways.now ports.old.items }
    requires horizon { now.0 ≤ 1000000000000000 }
    requires held { IsSome hand.old }
    ensures sound { (built : RouterPlan) (last : ℕ) → last ≤ now.0
        → IsSound built plan.now last guard.old ways.now ports.old.items
        → IsSound built plan.now now.0 guard.new ways.now ports.new.items }
    ensures fate { (built : RouterPlan) (last : ℕ) (h : List Charge) (logs : PortLogs) (packet : PacketData) → last ≤ now.0
        → IsSound built plan.now last guard.old ways.now ports.old.items
        → StandsFor (router_data built plan.now last guard.old.minter guard.old.cache ports.old.items) h logs
        → hand.old ≡ Some packet → result ≡ (handle plan.now h logs now.0 from packet).fate }
    ensures stands { (built : RouterPlan) (last : ℕ) (h : List Charge) (logs : PortLogs) (packet : PacketData) → last ≤ now.0
        → IsSound built plan.now last guard.old ways.now ports.old.items
        → StandsFor (router_data built plan.now last guard.old.minter guard.old.cache ports.old.items) h logs
        → hand.old ≡ Some packet
        → StandsFor (router_data built plan.now now.0 guard.new.minter guard.new.cache ports.new.items)
        (h ++ (handle plan.now h logs now.0 from packet).charges)
        (logs with (handle plan.now h logs now.0 from packet).queued) }
    ensures left { (built : RouterPlan) (last : ℕ) (h : List Charge) (logs : PortLogs) (packet : PacketData) → last ≤ now.0
        → IsSound built plan.now last guard.old ways.now ports.old.items
        → StandsFor (router_data built plan.now last guard.old.minter guard.old.cache ports.old.items) h logs
        → hand.old ≡ Some packet
        → hand.new ≡ kept_after result.outcome (handle plan.now h logs now.0 from packet).onward }
{
    let Some(place) = &mut hand.packet else {
        unreachable!()
    };
    let packet = &mut **place;
    if at_hop_limit(packet) {
        return stopped(packet);
    }
    let arrival = arrival_of(now, from, packet);
    let Judgement {
        class,
        cause,
        charge,
    } = guard.judge(plan, &arrival, &mut packet.carried);
    packet.hops += 1;
    let outcome = send(plan, ways, ports, now, class, hand);
    Fate {
        class,
        cause,
        charge,
        outcome,
    }
}

// A port for each link.
fn ports_of(alloc: Global, outgoing: &[(u16, LinkLimits)]) -> Result<Vec<HandPort>, AllocError>
    requires { All (λ o. AreLinkLimits o.1) outgoing.now }
    ensures ports { IfOk result (λ ports. ArePorts outgoing.now 0 ports.items) }
    ensures stands { IfOk result (λ ports. StandForLogs outgoing.now ports.items (λ link. [])) }
{
    let mut ports = Vec::with_capacity(alloc, outgoing.len())?;
    for (_link, limits) in outgoing {
        ports.push(HandPort::build(alloc, *limits)?)?;
    }
    Ok(ports)
}

// The same plan once more.
fn copied(alloc: Global, plan: &RouterPlan) -> Result<RouterPlan, AllocError>
    ensures { IfOk result (λ copy. copy ≡ plan.now) }
{
    Ok(RouterPlan {
        name: Name::new(plan.name.as_str()),
        master: plan.master,
        clock_offset: plan.clock_offset,
        slots: plan.slots,
        edge_tag: plan.edge_tag,
        incoming: Listed::new(plan.incoming.as_slice().to_vec(alloc)?),
        outgoing: Listed::new(plan.outgoing.as_slice().to_vec(alloc)?),
        routes: Listed::new(plan.routes.as_slice().to_vec(alloc)?),
        restarts: Listed::new(plan.restarts.as_slice().to_vec(alloc)?),
        reroutes: Listed::new(plan.reroutes.as_slice().to_vec(alloc)?),
    })
}

fn arrival_of(now: Time, from: Option<u16>, packet: &Packet) -> Arrival
    ensures value { result ≡ arrival now.0 from packet.now }
    ensures sized { (20 ≤ result.bytes) × (result.bytes ≤ 2048) }
{
    Arrival {
        time: now,
        from,
        flow: packet.flow,
        bytes: length(packet),
    }
}

// Whether a packet passed as many routers as it may.
fn at_hop_limit(packet: &Packet) -> bool
    ensures { result ≡ nat_le 32 packet.now.hops }
{
    packet.hops >= HOPS_MAX
}

// What becomes of a packet at the hop limit.
fn stopped(packet: &Packet) -> Fate
    ensures { result ≡ (stopped packet.now).fate }
{
    Fate {
        class: class_of(packet),
        cause: None,
        charge: None,
        outcome: Outcome::Dropped(DropCause::HopLimit),
    }
}
