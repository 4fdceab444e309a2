// What a node is: a router, or a host with the port of its link.
ghost use Rattle.std.specs.Prelude.{◌≡◌, ℕ, ◌≤◌, ◌+◌, min, List, ◌++◌, [], Some, None, IsSome, IfOk};
ghost use Rattle.std.specs.List.{cons_option};
ghost use Rattle.std.specs.Option.{option_map};
ghost use Rattle.tva_base.specs.declared.limits.LinkLimits.{LinkLimits};
ghost use Rattle.tva_base.specs.declared.event.Happened.TheVariants as happens;
ghost use Rattle.tva_shim.specs.Packets.{PacketData, packet_length, class_by_shim};
ghost use Rattle.tva_shim.specs.Shows.{back_in};
ghost use Rattle.tva_flow.specs.Charges.{Charge};
ghost use Rattle.tva_port.specs.Hand.{AreOneDecision, decision_by};
ghost use Rattle.tva_port.specs.Log.{Entry as PortEntry, free_after};
ghost use Rattle.tva_port.specs.Stands.{StandsFor as PortStandsFor};
ghost use Rattle.tva_router.specs.Handling.{PortLogs, entered_by, handle};
ghost use Rattle.tva_router.specs.Stands.{StandsFor as RouterStandsFor, ◌with◌};
ghost use Rattle.tva_host.specs.Calls.{Call, history_of};
ghost use Rattle.tva_transfer.specs.Files.{Act};
ghost use Rattle.tva_transfer.specs.Stands.{StandsFor as CourierStandsFor, known};
ghost use Rattle.tva_plan.specs.declared.config.NodePlan.TheVariants as plans;
ghost use Rattle.tva_run.specs.Sites.{Site, IsSite, limits_out};
ghost use Rattle.tva_run.specs.Entries.{Entry};
ghost use Rattle.tva_run.specs.Parts.{act_of_row, call_of_row, port_logs, reply_at};
ghost use Rattle.tva_run.specs.Contents.{made_for, packet_of_row};
ghost use Rattle.tva_run.specs.Told.{brings, reply_told};
ghost use Rattle.tva_run.specs.declared.kinds.Input.TheVariants as inputs;
ghost use Rattle.tva_node.specs.Besides.{IsBy, IsRoutedBy, RoleStands, StandsAsHost, StandsAsRouter};
ghost use Rattle.tva_waiting.specs.Inputs.{arrived};
ghost use Rattle.tva_node.specs.States.{FitsRow, role_plan};
ghost use Rattle.tva_node.specs.Steps.{Decides, HostTook, RouterTook, Takes, reply_went, role_free, went_out};

use crate::changes::Changes;
use std::alloc::{AllocError, Global};
use tva_base::{BackKind, Happened, Outcome, PacketId, ReplyLine, ShapeKind, Time};
use tva_host::{Made, Receipt};
use tva_port::{Hand, HandPort, Next, id_in, length_in};
use tva_router::{HandRouter, outcome_of};
use tva_rows::{Row, RowWhat};
use tva_shim::{Carried, Packet, ReturnInfo, class_of, length, queue_key};
use tva_transfer::{Courier, Landed};
use tva_waiting::Flight;

/// A router, the ordinal of its next packet from the trace, and how far its changes are made.
#[derive(Drop)]
pub struct Routed {
    pub router: HandRouter,
    pub next: u64,
    pub changes: Changes,
}

/// A host with its files, the number of its one link, and the port of that.
#[derive(Drop)]
pub struct Hosted {
    pub courier: Courier,
    pub uplink: u16,
    pub port: HandPort,
}

/// A router or a host.
#[derive(Drop)]
pub enum Role {
    Router(Routed),
    Host(Hosted),
}

impl Role {
    /// Takes a row at its time, and tells what happened. The error is want of memory.
    #[inline(always)]
    pub fn take_row(&mut self, alloc: Global, number: u16, row: Row) -> Result<Happened, AllocError>
        requires time { IsBy (row.time.0) self.old }
        requires horizon { row.time.0 ≤ 1000000000000000 }
        requires fits { FitsRow (role_plan self.old) row.what }
        ensures took { (site : Site) (log : List Entry) → IsSite site → site.number ≡ number
            → site.plan ≡ role_plan self.old → RoleStands site self.old log
            → IfOk result (λ told. Takes site log (inputs.FromTrace row) told self.new) }
        ensures plan { role_plan self.new ≡ role_plan self.old }
        ensures last { IfOk result (λ told. IsBy (row.time.0) self.new) }
    {
        match self {
            Role::Router(routed) => routed.take_row(alloc, number, row),
            Role::Host(hosted) => hosted.take_row(alloc, row),
        }
    }

    /// The same of a packet that arrives.
    #[inline(always)]
    pub fn take_flight(
        &mut self,
        alloc: Global,
        number: u16,
        flight: Flight,
    ) -> Result<Happened, AllocError>
        requires time { IsBy (flight.arrive.0) self.old }
        requires horizon { flight.arrive.0 ≤ 1000000000000000 }
        ensures took { (site : Site) (log : List Entry) → IsSite site → site.number ≡ number
            → site.plan ≡ role_plan self.old → RoleStands site self.old log
            → IfOk result (λ told. Takes site log (arrived flight) told self.new) }
        ensures plan { role_plan self.new ≡ role_plan self.old }
        ensures last { IfOk result (λ told. IsBy (flight.arrive.0) self.new) }
    {
        match self {
            Role::Router(routed) => routed.take_flight(alloc, number, flight),
            Role::Host(hosted) => hosted.take_flight(alloc, flight),
        }
    }

    /// What a link out does that is free. A packet that starts is put into the hand, which is empty.
    pub fn decide(&mut self, now: Time, link: u16, hand: &mut Hand) -> Next
        requires time { IsBy now.0 self.old }
        requires horizon { now.0 ≤ 1000000000000000 }
        requires free { role_free self.old link ≤ now.0 }
        requires out { (site : Site) × (limits : LinkLimits) × IsSite site × (site.plan ≡ role_plan self.old)
            × (limits_out site link ≡ Some (link, limits)) }
        requires empty { hand.old ≡ None }
        ensures decides { (site : Site) (log : List Entry) (limits : LinkLimits) → IsSite site
            → site.plan ≡ role_plan self.old → limits_out site link ≡ Some (link, limits)
            → RoleStands site self.old log
            → Decides site log link now.0 limits (decision_by result hand.new) self.new }
        ensures held { AreOneDecision result hand.new }
        ensures plan { role_plan self.new ≡ role_plan self.old }
        ensures last { IsBy now.0 self.new }
    {
        match self {
            Role::Router(routed) => routed.router.decide_into(now, link, hand),
            Role::Host(hosted) => hosted.port.decide_into(now, hand),
        }
    }

    /// When a link out is free.
    pub fn free_at(&self, link: u16) -> Time
        requires time { (now : ℕ) × IsBy now self.now }
        requires out { (site : Site) × (limits : LinkLimits) × IsSite site × (site.plan ≡ role_plan self.now)
            × (limits_out site link ≡ Some (link, limits)) }
        ensures value { result.0 ≡ role_free self.now link }
        ensures free { (site : Site) (log : List Entry) (limits : LinkLimits) → IsSite site
            → site.plan ≡ role_plan self.now → limits_out site link ≡ Some (link, limits)
            → RoleStands site self.now log → result.0 ≡ free_after limits (port_logs log link) }
    {
        match self {
            Role::Router(routed) => routed.router.free_at(link),
            Role::Host(hosted) => hosted.port.free_at(),
        }
    }
}

impl Routed {
    #[inline(always)]
    fn take_row(&mut self, alloc: Global, number: u16, row: Row) -> Result<Happened, AllocError>
        requires time { IsRoutedBy (row.time.0) self.old }
        requires horizon { row.time.0 ≤ 1000000000000000 }
        requires fits { FitsRow (plans.Router self.old.router.built) row.what }
        ensures took { (log : List Entry) → StandsAsRouter self.old log
            → IfOk result (λ told. RouterTook number self.old.router.built log (inputs.FromTrace row) told self.new) }
        ensures plan { self.new.router.built ≡ self.old.router.built }
        ensures last { IfOk result (λ told. IsRoutedBy (row.time.0) self.new) }
    {
        self.change(row.time);
        let packet = self.packet_of(number, row.what);
        let mut hand = Hand::of(alloc, packet)?;
        Ok(self.arrive(row.time, None, &mut hand))
    }

    #[inline(always)]
    fn take_flight(
        &mut self,
        alloc: Global,
        number: u16,
        flight: Flight,
    ) -> Result<Happened, AllocError>
        requires time { IsRoutedBy (flight.arrive.0) self.old }
        requires horizon { flight.arrive.0 ≤ 1000000000000000 }
        ensures took { (log : List Entry) → StandsAsRouter self.old log
            → IfOk result (λ told. RouterTook number self.old.router.built log (arrived flight) told self.new) }
        ensures plan { self.new.router.built ≡ self.old.router.built }
        ensures last { IfOk result (λ told. IsRoutedBy (flight.arrive.0) self.new) }
    {
        let time = flight.arrive();
        let link = flight.link();
        let mut hand = flight.into_hand(alloc)?;
        self.change(time);
        Ok(self.arrive(time, Some(link), &mut hand))
    }

    // The next packet from the trace.
    fn packet_of(&mut self, number: u16, what: RowWhat) -> Packet
        requires { FitsRow (plans.Router self.old.router.built) what }
        ensures packet { packet_of_row (record { node = number; ordinal = self.old.next }) what ≡ Some result }
        ensures next { self.new.next ≡ min (self.old.next + 1) 18446744073709551615 }
        ensures router { (self.new.router ≡ self.old.router) × (self.new.changes ≡ self.old.changes) }
    {
        let id = PacketId {
            node: number,
            ordinal: self.next,
        };
        self.next = self.next.saturating_add(1);
        match what {
            RowWhat::Inject {
                flow,
                payload,
                carried,
            } => Packet::made(id, flow, payload, carried),
            RowWhat::Send { .. } | RowWhat::File { .. } | RowWhat::Tick { .. } => unreachable!(),
        }
    }

    #[inline(always)]
    fn arrive(&mut self, now: Time, from: Option<u16>, hand: &mut Hand) -> Happened
        requires time { self.old.router.last ≤ now.0 }
        requires horizon { now.0 ≤ 1000000000000000 }
        requires held { IsSome hand.old }
        ensures told { (h : List Charge) (logs : PortLogs) (packet : PacketData) → RouterStandsFor self.old.router h logs
            → hand.old ≡ Some packet → result ≡ happens.Arrived packet.id (packet_length packet) from
            (handle self.old.router.plan h logs now.0 from packet).fate }
        ensures stands { (h : List Charge) (logs : PortLogs) (packet : PacketData) → RouterStandsFor self.old.router h logs
            → hand.old ≡ Some packet → RouterStandsFor self.new.router (h ++ (handle self.old.router.plan h logs now.0 from packet).charges)
            (logs with (handle self.old.router.plan h logs now.0 from packet).queued) }
        ensures plan { (self.new.router.plan ≡ self.old.router.plan) × (self.new.router.built ≡ self.old.router.built) }
        ensures last { self.new.router.last ≡ now.0 }
        ensures same { (self.new.next ≡ self.old.next) × (self.new.changes ≡ self.old.changes) }
    {
        let id = id_in(hand);
        let length = length_in(hand);
        let fate = self.router.arrive_from(now, from, hand);
        Happened::Arrived {
            id,
            length,
            from,
            fate,
        }
    }
}

impl Hosted {
    // What comes of a packet that arrives.
    #[inline(always)]
    fn take_flight(&mut self, alloc: Global, flight: Flight) -> Result<Happened, AllocError>
        requires host { self.old.courier.host.last ≤ flight.arrive.0 }
        requires port { self.old.port.last ≤ flight.arrive.0 }
        requires horizon { flight.arrive.0 ≤ 1000000000000000 }
        ensures took { (site : Site) (log : List Entry) → StandsAsHost site self.old log
            → IfOk result (λ told. HostTook site self.old.courier.host.plan log (arrived flight) told self.new) }
        ensures plan { self.new.courier.host.plan ≡ self.old.courier.host.plan }
        ensures last { IfOk result (λ told. (self.new.courier.host.last ≤ flight.arrive.0)
            × (self.new.port.last ≤ flight.arrive.0)) }
    {
        let now = flight.arrive();
        let from = flight.link();
        let packet = flight.into_packet();
        self.receive(alloc, now, from, packet)
    }

    // Makes the packet of a row, or takes it from there, and offers it to the link. For a tick there may be
    // nothing to send.
    fn take_row(&mut self, alloc: Global, row: Row) -> Result<Happened, AllocError>
        requires host { self.old.courier.host.last ≤ row.time.0 }
        requires port { self.old.port.last ≤ row.time.0 }
        requires horizon { row.time.0 ≤ 1000000000000000 }
        requires fits { FitsRow (plans.Host self.old.courier.host.plan) row.what }
        ensures took { (site : Site) (log : List Entry) → StandsAsHost site self.old log
            → IfOk result (λ told. HostTook site self.old.courier.host.plan log (inputs.FromTrace row) told self.new) }
        ensures plan { self.new.courier.host.plan ≡ self.old.courier.host.plan }
        ensures last { IfOk result (λ told. (self.new.courier.host.last ≤ row.time.0) × (self.new.port.last ≤ row.time.0)) }
    {
        let Some(Made { packet, shape }) = self.make(alloc, row.time, row.what)? else {
            return Ok(Happened::Ticked);
        };
        let id = packet.id;
        let length = length(&packet);
        let outcome = self.queue(alloc, row.time, packet)?;
        Ok(Happened::Sent {
            id,
            length,
            shape,
            outcome,
        })
    }

    // What comes of a packet that arrives, and of its reply.
    fn receive(
        &mut self,
        alloc: Global,
        now: Time,
        from: u16,
        packet: Packet,
    ) -> Result<Happened, AllocError>
        requires host { self.old.courier.host.last ≤ now.0 }
        requires port { self.old.port.last ≤ now.0 }
        requires horizon { now.0 ≤ 1000000000000000 }
        ensures took { (site : Site) (log : List Entry) → StandsAsHost site self.old log
            → IfOk result (λ told. HostTook site self.old.courier.host.plan log (inputs.Arrival now from packet) told self.new) }
        ensures plan { self.new.courier.host.plan ≡ self.old.courier.host.plan }
        ensures last { IfOk result (λ told. (self.new.courier.host.last ≤ now.0) × (self.new.port.last ≤ now.0)) }
    {
        let id = packet.id;
        let length = length(&packet);
        let payload = packet.payload;
        let Landed { receipt, range } = self.courier.receive(alloc, now, packet)?;
        let Receipt { what, back, reply } = receipt;
        let reply = self.answer(alloc, now, reply)?;
        Ok(Happened::Received {
            id,
            length,
            from,
            payload,
            what,
            back,
            reply,
            range,
        })
    }

    // The packet of a row; there may be none for a tick.
    fn make(&mut self, alloc: Global, now: Time, what: RowWhat) -> Result<Option<Made>, AllocError>
        requires time { self.old.courier.host.last ≤ now.0 }
        requires fits { FitsRow (plans.Host self.old.courier.host.plan) what }
        ensures made { (calls : List Call) (acts : List Act) → CourierStandsFor self.old.courier calls acts → IfOk result (λ made. made
            ≡ made_for self.old.courier.host.node self.old.courier.host.plan (history_of self.old.courier.host.plan calls)
            (known self.old.courier.host acts) now.0 what) }
        ensures stands { (calls : List Call) (acts : List Act) → CourierStandsFor self.old.courier calls acts
            → IfOk result (λ made. CourierStandsFor self.new.courier
            (calls ++ cons_option (option_map (λ m. call_of_row now.0 what m.packet) made) [])
            (acts ++ cons_option (act_of_row what) [])) }
        ensures same { (self.new.courier.host.node ≡ self.old.courier.host.node)
            × (self.new.courier.host.plan ≡ self.old.courier.host.plan) }
        ensures rest { (self.new.uplink ≡ self.old.uplink) × (self.new.port ≡ self.old.port) }
        ensures last { self.new.courier.host.last ≤ now.0 }
    {
        match what {
            RowWhat::Send { dst, payload } => {
                Ok(Some(self.courier.intend(alloc, now, dst, payload)?))
            }
            RowWhat::Inject {
                flow,
                payload,
                carried,
            } => Ok(Some(Made {
                packet: self.courier.inject(flow, payload, carried),
                shape: ShapeKind::Trace,
            })),
            RowWhat::File { dst, size, segment } => {
                Ok(Some(self.courier.file(alloc, now, dst, size, segment)?))
            }
            RowWhat::Tick { dst } => self.courier.tick(alloc, now, dst),
        }
    }

    // Offers a reply to the link, and tells of it.
    fn answer(
        &mut self,
        alloc: Global,
        now: Time,
        reply: Option<Made>,
    ) -> Result<Option<ReplyLine>, AllocError>
        requires time { self.old.port.last ≤ now.0 }
        requires horizon { now.0 ≤ 1000000000000000 }
        ensures told { (log : List PortEntry) → PortStandsFor self.old.port log
            → IfOk result (λ told. told ≡ reply_told reply (reply_went self.old.uplink self.old.port.limits log reply)) }
        ensures stands { (log : List PortEntry) → PortStandsFor self.old.port log
            → IfOk result (λ told. PortStandsFor self.new.port (log ++ cons_option
            (reply_at self.old.uplink now.0 reply (reply_went self.old.uplink self.old.port.limits log reply)) [])) }
        ensures same { (self.new.courier ≡ self.old.courier) × (self.new.uplink ≡ self.old.uplink)
            × (self.new.port.limits ≡ self.old.port.limits) }
        ensures last { self.new.port.last ≤ now.0 }
    {
        let Some(Made { packet, shape }) = reply else {
            return Ok(None);
        };
        let id = packet.id;
        let length = length(&packet);
        let back = back_kind(&packet.carried);
        let outcome = self.queue(alloc, now, packet)?;
        Ok(Some(ReplyLine {
            id,
            length,
            shape,
            back,
            outcome,
        }))
    }

    // Offers a packet to the link.
    fn queue(&mut self, alloc: Global, now: Time, packet: Packet) -> Result<Outcome, AllocError>
        requires time { self.old.port.last ≤ now.0 }
        requires horizon { now.0 ≤ 1000000000000000 }
        ensures outcome { (log : List PortEntry) → PortStandsFor self.old.port log
            → IfOk result (λ outcome. outcome ≡ went_out self.old.uplink self.old.port.limits log packet) }
        ensures stands { (log : List PortEntry) → PortStandsFor self.old.port log
            → IfOk result (λ outcome. PortStandsFor self.new.port
            (log ++ entered_by outcome now.0 (class_by_shim packet.carried) packet self.old.uplink)) }
        ensures same { (self.new.courier ≡ self.old.courier) × (self.new.uplink ≡ self.old.uplink)
            × (self.new.port.limits ≡ self.old.port.limits) }
        ensures last { self.new.port.last ≤ now.0 }
    {
        let class = class_of(&packet);
        let key = queue_key(class, &packet);
        let mut hand = Hand::of(alloc, packet)?;
        let answer = self.port.queue_from(now, class, key, &mut hand);
        Ok(outcome_of(self.uplink, answer))
    }
}

// The return info that a packet brings.
fn back_kind(carried: &Carried) -> BackKind
    ensures { result ≡ brings (back_in carried.now) }
{
    match carried {
        Carried::Shim(shim) => match &shim.back {
            ReturnInfo::Nothing => BackKind::Nothing,
            ReturnInfo::Notice => BackKind::Notice,
            ReturnInfo::Grant { .. } => BackKind::Grant,
        },
        Carried::Nothing | Carried::Malformed(_) => BackKind::Nothing,
    }
}
