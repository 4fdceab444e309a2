// A router, for packets by value.
ghost use Rattle.std.specs.Prelude.{◌≡◌, ◌≢◌, ◌≤◌, ◌<◌, ◌↔◌, ℕ, ◌+◌, ◌*◌, max, nat_le, true, false, List, [], ◌++◌, Some, None, IsSome, IfOk, OnOk, All, Contains, map};
ghost use Rattle.tva_base.specs.declared.plan.RouterPlan.{RouterPlan};
ghost use Rattle.tva_base.specs.Changes.{changed_plan};
ghost use Rattle.tva_base.specs.Plan.{AreRising, IsRouterPlan, AreLinkLimits, links_of};
ghost use Rattle.tva_shim.specs.Packets.{PacketData, packet_length};
ghost use Rattle.tva_flow.specs.Charges.{Charge, living_count};
ghost use Rattle.tva_flow.specs.Budget.{AreTimely, IsWithinBudget};
ghost use Rattle.tva_port.specs.Log.{free_after};
ghost use Rattle.tva_port.specs.Waiting.{waiting_after, next_request, IsEmpty, IsRequestAlone};
ghost use Rattle.tva_port.specs.Decide.{decision, is_start, started_by, RestsAt, MissesNone, NoneDueBefore, IsFirstCovered};
ghost use Rattle.tva_port.specs.declared.decision.Decision.TheVariants.{Start, WaitUntil, Idle};
ghost use Rattle.tva_router.specs.Handling.{PortLogs, outgoing_link, handle};
ghost use Rattle.tva_router.specs.Routes.{rerouted};
ghost use Rattle.tva_router.specs.Stands.{StandsFor, free_of, started_on, ◌with◌};
ghost use Rattle.tva_router.specs.Stocked.{places_on};

use crate::hand_router::HandRouter;
use std::alloc::{AllocError, Global};
use std::marker::Model;
use tva_base::{Class, Fate, LinkLimits, Prefix, RouterPlan, Time};
use tva_port::{Decision, Hand, Stock, decision_by, places_in};
use tva_shim::Packet;

/// The same as `HandRouter` for packets by value, which take no memory: it has some for each packet that may
/// wait, and for one more. All memory is taken when it is built.
#[derive(Drop)]
pub struct Router {
    inner: HandRouter,
    stock: Stock,
}

impl Model for Router {
    ghost use Rattle.tva_router.specs.Stands.{RouterData};
    ghost use Rattle.tva_router.specs.Stocked.{IsStocked};

    ghost Value = { RouterData };

    ghost view = { λ r. r.inner };

    ghost invariant = { λ r. IsStocked r.inner r.stock };
}

impl Router {
    /// A router by its plan, without charges, and with nothing at the ports of its links. The error is
    /// want of memory.
    pub fn build(alloc: Global, plan: &RouterPlan) -> Result<Router, AllocError>
        requires { IsRouterPlan plan.now }
        ensures built { IfOk result (λ router. router.built ≡ plan.now) }
        ensures plan { IfOk result (λ router. router.plan ≡ plan.now) }
        ensures last { IfOk result (λ router. router.last ≡ 0) }
        ensures stands { IfOk result (λ router. StandsFor router [] (λ link. [])) }
        // No start is missed on any link, as long as nothing comes.
        ensures missed { IfOk result (λ router. (link until : ℕ) (limits : LinkLimits)
            → outgoing_link plan.now link ≡ Some (link, limits) → MissesNone limits until []) }
    {
        let inner = HandRouter::build(alloc, plan)?;
        let mut stock = Stock::empty(alloc);
        add_for(alloc, &mut stock, plan.outgoing.as_slice())?;
        Ok(Router { inner, stock })
    }

    /// The restarts of the plan by which it was built, each with its time, in nanoseconds: times rise.
    pub fn restarts(&self) -> &[(Time, [u8; 32])]
        ensures restarts { result.now ≡ self.now.built.restarts }
        ensures rising { AreRising (map (λ c. c.0.0) result.now) }
    {
        self.inner.restarts()
    }

    /// What becomes of a packet that comes in on a link, or from the trace. Times are in nanoseconds
    /// and never fall. The cases are TVA's, in this order: the hop limit; no shim, or a marked one; a
    /// malformed one; a request, which gets an entry; a list, a nonce or a renewal, which is authorised
    /// or marked; then the longest prefix, and the offer to its link's port. A charge is there exactly
    /// where the packet was authorised, whatever becomes of it then.
    #[inline(always)]
    pub fn arrive(&mut self, now: Time, from: Option<u16>, packet: Packet) -> Fate
        requires time { self.old.last ≤ now.0 }
        requires horizon { now.0 ≤ 1000000000000000 }
        ensures fate { (h : List Charge) (logs : PortLogs) → StandsFor self.old h logs
            → result ≡ (handle self.old.plan h logs now.0 from packet).fate }
        ensures stands { (h : List Charge) (logs : PortLogs) → StandsFor self.old h logs
            → StandsFor self.new (h ++ (handle self.old.plan h logs now.0 from packet).charges)
            (logs with (handle self.old.plan h logs now.0 from packet).queued) }
        // An arrival without a charge leaves the charges as they were.
        ensures uncharged { (h : List Charge) (logs : PortLogs) → StandsFor self.old h logs → result.charge ≡ None
            → StandsFor self.new h (logs with (handle self.old.plan h logs now.0 from packet).queued) }
        // On no link a start is missed up to now, nor while the link is busy.
        ensures missed { (h : List Charge) (logs : PortLogs) (link until : ℕ) (limits : LinkLimits)
            → StandsFor self.old h logs → outgoing_link self.old.plan link ≡ Some (link, limits)
            → until ≤ max now.0 (free_after limits (logs link)) → MissesNone limits until (logs link)
            → MissesNone limits until ((logs with (handle self.old.plan h logs now.0 from packet).queued) link) }
        ensures last { self.new.last ≡ now.0 }
        ensures built { self.new.built ≡ self.old.built }
        ensures same { self.new.plan ≡ self.old.plan }
    {
        let mut hand = self.stock.hand_of(packet);
        let fate = self.inner.arrive_from(now, from, &mut hand);
        let _ = self.stock.packet_of(hand);
        fate
    }

    /// What an outgoing link does that is free. Times are in nanoseconds and never fall. The decision
    /// is that of the link's port, over the link's log.
    #[inline(always)]
    pub fn decide(&mut self, now: Time, link: u16) -> Decision
        requires time { self.old.last ≤ now.0 }
        requires horizon { now.0 ≤ 1000000000000000 }
        requires outgoing { outgoing_link self.old.plan link ≢ None }
        requires free { free_of self.old link ≤ now.0 }
        ensures decision { (h : List Charge) (logs : PortLogs) (limits : LinkLimits) → StandsFor self.old h logs
            → outgoing_link self.old.plan link ≡ Some (link, limits)
            → result ≡ decision limits (logs link) now.0 }
        ensures stands { (h : List Charge) (logs : PortLogs) → StandsFor self.old h logs
            → StandsFor self.new h (logs with started_on link result now.0) }
        ensures idle { (h : List Charge) (logs : PortLogs) (limits : LinkLimits) → StandsFor self.old h logs
            → outgoing_link self.old.plan link ≡ Some (link, limits)
            → ((result ≡ Idle) ↔ IsEmpty (waiting_after limits (logs link))) }
        ensures alone { (h : List Charge) (logs : PortLogs) (limits : LinkLimits) (u : Time)
            → StandsFor self.old h logs → outgoing_link self.old.plan link ≡ Some (link, limits)
            → result ≡ WaitUntil u
            → (packet : PacketData) × IsRequestAlone (waiting_after limits (logs link)) packet }
        // A wait ends at the first time at which the credit covers the next request.
        ensures wait { (h : List Charge) (logs : PortLogs) (limits : LinkLimits) (u : Time) (packet : PacketData)
            → StandsFor self.old h logs → outgoing_link self.old.plan link ≡ Some (link, limits)
            → result ≡ WaitUntil u → next_request (waiting_after limits (logs link)) ≡ Some packet
            → IsFirstCovered limits (logs link) packet now.0 u.0 }
        ensures later { (h : List Charge) (logs : PortLogs) (limits : LinkLimits) (u : Time)
            → StandsFor self.old h logs → outgoing_link self.old.plan link ≡ Some (link, limits)
            → result ≡ WaitUntil u → now.0 < u.0 }
        // A link that starts nothing decides the same until the wait is over, or for good.
        ensures steady { (h : List Charge) (logs : PortLogs) (limits : LinkLimits) (until time : ℕ)
            → StandsFor self.old h logs → outgoing_link self.old.plan link ≡ Some (link, limits)
            → is_start result ≡ false → NoneDueBefore result (free_of self.new link) until
            → now.0 ≤ time → time < until → decision limits (logs link) time ≡ result }
        // Until then, until the end of what started, or for good, nothing else starts.
        ensures rests { (h : List Charge) (logs : PortLogs) (limits : LinkLimits) (until time : ℕ)
            → StandsFor self.old h logs → outgoing_link self.old.plan link ≡ Some (link, limits)
            → NoneDueBefore result (free_of self.new link) until → now.0 ≤ time → time < until
            → RestsAt limits (logs link ++ started_by result now.0) time }
        ensures missed { (h : List Charge) (logs : PortLogs) (limits : LinkLimits) (until : ℕ)
            → StandsFor self.old h logs → outgoing_link self.old.plan link ≡ Some (link, limits)
            → MissesNone limits now.0 (logs link) → NoneDueBefore result (free_of self.new link) until
            → MissesNone limits until (logs link ++ started_by result now.0) }
        // What starts occupies the link for some time, so that nothing starts twice at one time.
        ensures busy { is_start result ≡ true → now.0 < free_of self.new link }
        ensures occupied { (h : List Charge) (logs : PortLogs) (limits : LinkLimits) (class : Class) (packet : PacketData)
            → StandsFor self.old h logs → outgoing_link self.old.plan link ≡ Some (link, limits)
            → result ≡ Start class packet
            → free_of self.new link ≡ now.0 + packet_length packet * limits.ns_per_byte }
        // 2,048 bytes take at most 2,048,000,000 ns.
        ensures soon { free_of self.new link ≤ now.0 + 2048000000 }
        ensures last { self.new.last ≡ now.0 }
        ensures built { self.new.built ≡ self.old.built }
        ensures same { self.new.plan ≡ self.old.plan }
    {
        let mut hand = Hand::empty();
        let next = self.inner.decide_into(now, link, &mut hand);
        decision_by(next, self.stock.packet_of(hand))
    }

    /// When an outgoing link is free, in nanoseconds: the end of its last start, or 0.
    pub fn free_at(&self, link: u16) -> Time
        requires outgoing { outgoing_link self.now.plan link ≢ None }
        ensures value { result.0 ≡ free_of self.now link }
        ensures free { (h : List Charge) (logs : PortLogs) (limits : LinkLimits) → StandsFor self.now h logs
            → outgoing_link self.now.plan link ≡ Some (link, limits)
            → result.0 ≡ free_after limits (logs link) }
        ensures soon { result.0 ≤ self.now.last + 2048000000 }
    {
        self.inner.free_at(link)
    }

    /// Starts again with another master. From then on the router stands for no charges, and mints and
    /// checks by that master; what its links' ports hold and owe stays, and so do its routes. Times are in
    /// nanoseconds and never fall, with those of all other calls. It takes no memory, and a step for each
    /// flow that the cache kept.
    pub fn restart(&mut self, now: Time, master: [u8; 32])
        requires { self.old.last ≤ now.0 }
        ensures stands { (h : List Charge) (logs : PortLogs) → StandsFor self.old h logs → StandsFor self.new [] logs }
        ensures plan { self.new.plan ≡ changed_plan master self.old.plan.routes self.old.plan }
        ensures built { self.new.built ≡ self.old.built }
        ensures last { self.new.last ≡ now.0 }
    {
        self.inner.restart(now, master);
    }

    /// Gives the route of a prefix another of the outgoing links, which packets take from then on that
    /// arrive for it. The router stands for the same charges and logs: what is queued stays where it is.
    /// Times are in nanoseconds and never fall, with those of all other calls. It takes no memory.
    pub fn reroute(&mut self, now: Time, prefix: Prefix, link: u16)
        requires time { self.old.last ≤ now.0 }
        requires prefix { Contains (map (λ r. r.prefix) self.old.plan.routes) prefix }
        requires link { Contains (links_of self.old.plan.outgoing) link }
        ensures stands { (h : List Charge) (logs : PortLogs) → StandsFor self.old h logs → StandsFor self.new h logs }
        ensures plan { self.new.plan
            ≡ changed_plan self.old.plan.master (rerouted prefix link self.old.plan.routes) self.old.plan }
        ensures built { self.new.built ≡ self.old.built }
        ensures last { self.new.last ≡ now.0 }
    {
        self.inner.reroute(now, prefix, link);
    }

    /// How many flows may live at once. Whatever packets came, each was charged in one of its grant's
    /// T seconds, and the charges of each grant have less than twice its N units of 1,024 bytes. The
    /// bound is TVA's.
    pub fn slots(&self) -> u32
        ensures slots { result ≡ self.now.plan.slots }
        ensures timely { (h : List Charge) (logs : PortLogs) → StandsFor self.now h logs
            → AreTimely self.now.plan.clock_offset h }
        ensures budget { (h : List Charge) (logs : PortLogs) → StandsFor self.now h logs → IsWithinBudget h }
        ensures living { (h : List Charge) (logs : PortLogs) → StandsFor self.now h logs
            → (now : ℕ) → self.now.last ≤ now → living_count h now ≤ self.now.plan.slots }
    {
        self.inner.slots()
    }
}

// Takes memory for a packet in each place of these links, and for one more.
fn add_for(
    alloc: Global,
    stock: &mut Stock,
    outgoing: &[(u16, LinkLimits)],
) -> Result<(), AllocError>
    requires limits { All (λ o. AreLinkLimits o.1) outgoing.now }
    requires empty { stock.old.count ≡ 0 }
    ensures count { OnOk result (stock.new.count ≡ places_on outgoing.now + 1) }
    ensures room { stock.new.count ≤ stock.new.room }
{
    stock.add(alloc, 1)?;
    for (_link, limits) in outgoing {
        stock.add(alloc, places_in(limits))?;
    }
    Ok(())
}
