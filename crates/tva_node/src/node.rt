// A node of a network.
ghost use Rattle.std.specs.Prelude.{◌≡◌, ◌≤◌, ◌<◌, ◌+◌, ◌∷◌, [], ◌++◌, None, drop, length, slice_index_or, map, min, max, List, IfOk, IfSome, OnErr, OnOk};
ghost use Rattle.tva_base.specs.Plan.{AreRising};
ghost use Rattle.tva_rows.specs.declared.rows.Row.{Row};
ghost use Rattle.tva_run.specs.Entries.{Entry, input_time};
ghost use Rattle.tva_run.specs.declared.kinds.Input.TheVariants.{FromTrace};
ghost use Rattle.tva_waiting.specs.Inputs.{arrived};
ghost use Rattle.tva_run.specs.NodeLog.{in_turn};
ghost use Rattle.tva_run.specs.Sites.{IsSite, site_of};
ghost use Rattle.tva_waiting.specs.declared.memory.Memory.TheVariants as memory;
ghost use Rattle.tva_node.specs.Besides.{IsBy, RoleStands};
ghost use Rattle.tva_node.specs.States.{Fits, FitsRow, IsAsBefore, IsFirstWork, Keeps, KeepsAll, Stands, StandsFor, all_given, gone_after, news, none_gone, restarts_in, role_plan, router_in, unsent};

use crate::changes::Changes;
use crate::links::Links;
use crate::outbox::Outbox;
use crate::parts::Parts;
use crate::role::{Hosted, Role, Routed};
use std::alloc::{AllocError, Global};
use std::marker::Model;
use tva_base::{Event, LinkPlan, Time};
use tva_plan::NodePlan;
use tva_port::HandPort;
use tva_router::HandRouter;
use tva_rows::{PackedRows, Row};
use tva_run::{Input, Sending};
use tva_transfer::Courier;
use tva_waiting::{Flight, Inbox, Kept, Memory, Waiting};

// An event at a router costs about as much as so many at a host.
const ROUTER_EVENT: u64 = 3;

/// A node: a router, or a host with the port of its link. Contracts see each input that it was given, all
/// that happened there and all that its links sent, with the time up to which the node is worked, and speak
/// of the log for which they stand. How much of these lists memory holds is said beside.
#[derive(Drop)]
pub struct Node {
    parts: Parts,
}

impl Model for Node {
    ghost use Rattle.tva_node.specs.States.{Holds, NodeState, state_of};

    ghost Value = { NodeState };

    ghost view = { λ n. state_of n.parts };

    ghost invariant = { λ n. Holds n.parts.outbox.keeps (state_of n.parts) };
}

impl Node {
    /// A node by its number, its plan and its links out, to which nothing happened yet, and of which memory
    /// keeps all. The horizon is in nanoseconds. The error is want of memory.
    pub fn build(
        alloc: Global,
        horizon: Time,
        number: u16,
        plan: &NodePlan,
        links: &[(u16, LinkPlan)],
    ) -> Result<Node, AllocError>
        requires horizon { horizon.0 ≤ 1000000000000000 }
        requires site { IsSite (site_of number plan.now links.now) }
        ensures site { IfOk result (λ node. node.site ≡ site_of number plan.now links.now) }
        ensures horizon { IfOk result (λ node. node.horizon ≡ horizon.0) }
        ensures empty { IfOk result (λ node. (node.inbox ≡ []) × (node.events ≡ []) × (node.sendings ≡ [])) }
        ensures worked { IfOk result (λ node. node.worked_to ≡ 0) }
        ensures keeps { IfOk result (λ node. node.keeps ≡ memory.All) }
        ensures gone { IfOk result (λ node. node.gone ≡ none_gone) }
        ensures stands { IfOk result Stands }
    {
        Node::build_keeping(alloc, horizon, number, plan, links, Memory::All)
    }

    /// The same, where memory keeps this of its past.
    pub fn build_keeping(
        alloc: Global,
        horizon: Time,
        number: u16,
        plan: &NodePlan,
        links: &[(u16, LinkPlan)],
        keeps: Memory,
    ) -> Result<Node, AllocError>
        requires horizon { horizon.0 ≤ 1000000000000000 }
        requires site { IsSite (site_of number plan.now links.now) }
        ensures site { IfOk result (λ node. node.site ≡ site_of number plan.now links.now) }
        ensures horizon { IfOk result (λ node. node.horizon ≡ horizon.0) }
        ensures empty { IfOk result (λ node. (node.inbox ≡ []) × (node.events ≡ []) × (node.sendings ≡ [])) }
        ensures worked { IfOk result (λ node. node.worked_to ≡ 0) }
        ensures keeps { IfOk result (λ node. node.keeps ≡ keeps) }
        ensures gone { IfOk result (λ node. node.gone ≡ none_gone) }
        ensures stands { IfOk result Stands }
    {
        let role = role_of(alloc, number, plan, links)?;
        Ok(Node {
            parts: Parts {
                number,
                horizon: horizon.0,
                alloc,
                role,
                links: Links::of(alloc, links)?,
                inbox: Inbox::new(alloc),
                waiting: Waiting::new(alloc)?,
                log: Kept::new(alloc),
                outbox: Outbox::new(alloc, keeps),
                worked_to: 0,
            },
        })
    }

    /// Makes room for the turns of `count` more inputs. The error is want of memory; nothing changes.
    pub fn reserve(&mut self, count: usize) -> Result<(), AllocError>
        ensures { self.new ≡ self.old }
    {
        self.parts.waiting.reserve(count)
    }

    /// The number of the node.
    pub fn number(&self) -> u16
        ensures { result ≡ self.now.site.number }
    {
        self.parts.number
    }

    /// The number of the node, where it is a router.
    pub fn router(&self) -> Option<u16>
        ensures { result ≡ router_in self.now.site }
    {
        match &self.parts.role {
            Role::Router(_) => Some(self.parts.number),
            Role::Host(_) => None,
        }
    }

    /// What memory holds of what happened at the node.
    pub fn log(&self) -> &[Event]
        ensures held { result.now ≡ drop self.now.gone.events self.now.events }
        ensures whole { KeepsAll self.now.keeps → result.now ≡ self.now.events }
    {
        self.parts.log.as_slice()
    }

    /// What happened at the node and was not told yet.
    pub fn news(&self) -> &[Event]
        ensures { result.now ≡ news self.now }
    {
        self.parts.log.news()
    }

    /// Hands out what happened at the node and was not told yet, where memory has just these events and need not keep
    /// them: as it has them, and then they are told and gone. None where it is otherwise, and nothing changes.
    pub fn take_news(&mut self) -> Option<Vec<Event>>
        ensures told { IfSome result (λ list. list.items ≡ news self.old) }
        ensures left { IfSome result (λ list. self.new ≡ record self.old { gone = all_given self.old }) }
        ensures none { result ≡ None → self.new ≡ self.old }
    {
        self.parts.take_news()
    }

    /// What it may cost to work the node for a while, beside others: what happened at it so far, in events
    /// of a host. No answer depends on it.
    pub(crate) fn load(&self) -> u64 {
        let each = match &self.parts.role {
            Role::Router(_) => ROUTER_EVENT,
            Role::Host(_) => 1,
        };
        (self.parts.log.count() as u64)
            .saturating_mul(each)
            .saturating_add(1)
    }

    /// All that its links sent, where memory keeps it, and else nothing: then what was sent is on its way, and
    /// is handed over so.
    pub fn outbox(&self) -> &[Sending]
        ensures whole { KeepsAll self.now.keeps → result.now ≡ self.now.sendings }
        ensures none { (KeepsAll self.now.keeps → ⊥) → result.now ≡ [] }
    {
        self.parts.outbox.as_slice()
    }

    /// Puts behind what stands in `sent` what its links sent and was not handed over yet: where memory keeps all, copies,
    /// and else the packets themselves. All is told and handed over then, and memory forgets what it need not keep.
    /// The error is want of memory, and changes nothing here.
    pub fn hand_over(&mut self, sent: &mut Vec<Flight>) -> Result<(), AllocError>
        ensures sent { OnOk result (sent.new.items ≡ sent.old.items ++ unsent self.old) }
        ensures same { OnOk result (self.new ≡ record self.old { gone = gone_after self.old }) }
        ensures err { OnErr result (self.new ≡ self.old) }
    {
        self.parts.hand_over(sent)
    }

    /// What memory holds of the inputs that it was given.
    pub fn inbox(&self) -> &[Input]
        ensures held { result.now ≡ drop self.now.gone.inputs self.now.inbox }
        ensures whole { KeepsAll self.now.keeps → result.now ≡ self.now.inbox }
    {
        self.parts.inbox.as_slice()
    }

    /// The restarts of a router's plan, each with its time, in nanoseconds, and the master that the router
    /// then has; none at a host. Their times rise.
    pub fn restarts(&self) -> &[(Time, [u8; 32])]
        ensures restarts { result.now ≡ restarts_in self.now.site.plan }
        ensures rising { AreRising (map (λ c. c.0.0) result.now) }
    {
        match &self.parts.role {
            Role::Router(routed) => routed.router.restarts(),
            Role::Host(_) => &[],
        }
    }

    /// The earliest time, in nanoseconds, of an input or a decision of a link that is not worked yet;
    /// none where there is none up to the horizon.
    pub fn next_time(&self) -> Option<Time>
        ensures { (log : List Entry) → StandsFor self.now log
            → IsFirstWork self.now.site (in_turn self.now.inbox) log self.now.worked_to self.now.horizon result }
    {
        match self.parts.work_within() {
            Some(time) => Some(Time(time)),
            None => None,
        }
    }

    /// Gives the node one more input, at the time up to which it is worked or later, and up to the
    /// horizon. The error is want of memory, and changes nothing.
    pub fn post(&mut self, input: Input) -> Result<(), AllocError>
        requires late { self.old.worked_to ≤ input_time input }
        requires horizon { input_time input ≤ self.old.horizon }
        requires fits { Fits self.old.site.plan input }
        ensures inbox { OnOk result (self.new.inbox ≡ self.old.inbox ++ input ∷ []) }
        ensures stands { Stands self.old → OnOk result (Stands self.new) }
        ensures err { OnErr result (self.new ≡ self.old) }
        ensures same { IsAsBefore self.old self.new }
    {
        match input {
            Input::FromTrace(row) => {
                let mut rows = PackedRows::new(self.parts.alloc);
                rows.push(row)?;
                self.post_packed(&rows, 0)
            }
            Input::Arrival { time, link, packet } => {
                let flight = Flight::of_packet(self.parts.alloc, link, time, packet)?;
                self.post_flight(flight)
            }
        }
    }

    /// The same of the row at a place among rows in little memory.
    pub fn post_packed(&mut self, rows: &PackedRows, place: usize) -> Result<(), AllocError>
        requires within { place < length rows.now }
        requires late { (row : Row) → self.old.worked_to ≤ (slice_index_or rows.now place row).time.0 }
        requires horizon { (row : Row) → (slice_index_or rows.now place row).time.0 ≤ self.old.horizon }
        requires fits { (row : Row) → FitsRow self.old.site.plan (slice_index_or rows.now place row).what }
        ensures inbox { (row : Row) → OnOk result (self.new.inbox ≡ self.old.inbox ++ FromTrace (slice_index_or rows.now place row) ∷ []) }
        ensures stands { Stands self.old → OnOk result (Stands self.new) }
        ensures err { OnErr result (self.new ≡ self.old) }
        ensures same { IsAsBefore self.old self.new }
    {
        let parts = &mut self.parts;
        parts
            .waiting
            .put_packed(rows, place, &mut parts.inbox, parts.outbox.keeps())
    }

    /// The same of a packet on its way.
    pub fn post_flight(&mut self, flight: Flight) -> Result<(), AllocError>
        requires late { self.old.worked_to ≤ flight.arrive.0 }
        requires horizon { flight.arrive.0 ≤ self.old.horizon }
        ensures inbox { OnOk result (self.new.inbox ≡ self.old.inbox ++ arrived flight ∷ []) }
        ensures stands { Stands self.old → OnOk result (Stands self.new) }
        ensures err { OnErr result (self.new ≡ self.old) }
        ensures same { IsAsBefore self.old self.new }
    {
        let parts = &mut self.parts;
        parts
            .waiting
            .put_flight(flight, &mut parts.inbox, parts.outbox.keeps())
    }

    /// Works all that comes before a time, in nanoseconds, and up to the horizon: its inputs in their
    /// order, and its links as they decide. After want of memory its log begins with what it had.
    pub fn advance(&mut self, until: Time) -> Result<(), AllocError>
        requires { Stands self.old }
        ensures stands { OnOk result (Stands self.new) }
        ensures upto { OnOk result (self.new.worked_to ≡ max self.old.worked_to (min until.0 (self.old.horizon + 1))) }
        ensures keeps { Keeps self.old self.new }
    {
        self.parts.advance(until.0)
    }
}

// A router or a host, to which nothing happened yet.
fn role_of(
    alloc: Global,
    number: u16,
    plan: &NodePlan,
    links: &[(u16, LinkPlan)],
) -> Result<Role, AllocError>
    requires { IsSite (site_of number plan.now links.now) }
    ensures plan { IfOk result (λ role. role_plan role ≡ plan.now) }
    ensures stands { IfOk result (λ role. RoleStands (site_of number plan.now links.now) role []) }
    ensures last { IfOk result (IsBy 0) }
{
    match plan {
        NodePlan::Router(router) => Ok(Role::Router(Routed {
            router: HandRouter::build(alloc, router)?,
            next: 1,
            changes: Changes::of(alloc, router.reroutes.as_slice())?,
        })),
        NodePlan::Host(host) => Ok(Role::Host(Hosted {
            courier: Courier::build(alloc, number, host)?,
            uplink: host.uplink,
            port: HandPort::build(alloc, links[0].1.limits)?,
        })),
    }
}

fn crosses<T: Send + Sync>() {}

/// A node may be moved to another thread and shared with it.
pub fn node_crosses() {
    crosses::<Node>();
}
