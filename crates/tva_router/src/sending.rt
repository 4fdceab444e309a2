// Where a packet goes that was judged.
ghost use Rattle.std.specs.Prelude.{◌≡◌, ◌≢◌, ◌≤◌, ◌<◌, ◌==◌, ◌+◌, ℕ, true, length, position, Option, Some, None, IsSome};
ghost use Rattle.tva_base.specs.declared.limits.LinkLimits.{LinkLimits};
ghost use Rattle.tva_base.specs.Plan.{IsRouterPlan};
ghost use Rattle.tva_shim.specs.Packets.{PacketData};
ghost use Rattle.tva_router.specs.Handling.{PortLogs, outcome_of, outgoing_link, sent, queued, way_to, kept_after};
ghost use Rattle.tva_port.specs.Decide.{decision, is_start};
ghost use Rattle.tva_port.specs.Hand.{AreOneAnswer, AreOneDecision, answer_by, decision_by};
ghost use Rattle.tva_router.specs.Stands.{StandForLogs, free_in, started_on, ◌with◌};
ghost use Rattle.tva_router.specs.Steps.{ArePorts};
ghost use Rattle.tva_router.specs.Tables.{AreWays};

use crate::finding::Ways;
use crate::places::place_of;
use crate::routes::link_to;
use tva_base::{Class, DropCause, Outcome, RouterPlan, Time};
use tva_port::{Answer, Hand, HandPort, Next, destination_in, key_in};

/// Queues the packet in hand at the port of the link that leads to its destination.
#[inline(always)]
pub(crate) fn send(
    plan: &RouterPlan,
    ways: &Ways,
    ports: &mut Vec<HandPort>,
    now: Time,
    class: Class,
    hand: &mut Hand,
) -> Outcome
    requires plan { IsRouterPlan plan.now }
    requires ways { AreWays plan.now ways.now }
    requires ports { ArePorts plan.now.outgoing now.0 ports.old.items }
    requires horizon { now.0 ≤ 1000000000000000 }
    requires held { IsSome hand.old }
    ensures ports { ArePorts plan.now.outgoing now.0 ports.new.items }
    ensures outcome { (logs : PortLogs) (packet : PacketData) → StandForLogs plan.now.outgoing ports.old.items logs
        → hand.old ≡ Some packet → result ≡ sent logs class packet (way_to plan.now packet.flow.dst) }
    ensures stands { (logs : PortLogs) (packet : PacketData) → StandForLogs plan.now.outgoing ports.old.items logs
        → hand.old ≡ Some packet → StandForLogs plan.now.outgoing ports.new.items
        (logs with queued logs now.0 class packet (way_to plan.now packet.flow.dst)) }
    ensures left { (packet : PacketData) → hand.old ≡ Some packet → hand.new ≡ kept_after result packet }
{
    let Some(link) = link_to(plan.routes.as_slice(), &ways.routes, destination_in(hand)) else {
        return Outcome::Dropped(DropCause::NoRoute);
    };
    match place_of(plan.outgoing.as_slice(), &ways.places, link) {
        Some(place) => queue_at(plan, ports, place, link, now, class, hand),
        None => Outcome::Dropped(DropCause::NoRoute),
    }
}

/// What the outgoing link does. A packet that starts is put into the hand.
pub(crate) fn decide_on(
    plan: &RouterPlan,
    ways: &Ways,
    ports: &mut Vec<HandPort>,
    now: Time,
    link: u16,
    hand: &mut Hand,
) -> Next
    requires plan { IsRouterPlan plan.now }
    requires ways { AreWays plan.now ways.now }
    requires ports { ArePorts plan.now.outgoing now.0 ports.old.items }
    requires horizon { now.0 ≤ 1000000000000000 }
    requires outgoing { outgoing_link plan.now link ≢ None }
    requires free { free_in plan.now.outgoing ports.old.items link ≤ now.0 }
    requires empty { hand.old ≡ None }
    ensures ports { ArePorts plan.now.outgoing now.0 ports.new.items }
    ensures decision { (logs : PortLogs) (limits : LinkLimits) → StandForLogs plan.now.outgoing ports.old.items logs
        → outgoing_link plan.now link ≡ Some (link, limits)
        → decision_by result hand.new ≡ decision limits (logs link) now.0 }
    ensures held { AreOneDecision result hand.new }
    ensures stands { (logs : PortLogs) → StandForLogs plan.now.outgoing ports.old.items logs
        → StandForLogs plan.now.outgoing ports.new.items
        (logs with started_on link (decision_by result hand.new) now.0) }
    ensures busy { is_start (decision_by result hand.new) ≡ true
        → now.0 < free_in plan.now.outgoing ports.new.items link }
    ensures soon { free_in plan.now.outgoing ports.new.items link ≤ now.0 + 2048000000 }
{
    match place_of(plan.outgoing.as_slice(), &ways.places, link) {
        Some(place) => ports[place].decide_into(now, hand),
        None => unreachable!(),
    }
}

/// When the outgoing link is free.
pub(crate) fn free_on(plan: &RouterPlan, ways: &Ways, ports: &Vec<HandPort>, link: u16) -> Time
    requires ways { AreWays plan.now ways.now }
    requires ports { (last : ℕ) × ArePorts plan.now.outgoing last ports.now.items }
    requires outgoing { outgoing_link plan.now link ≢ None }
    ensures value { result.0 ≡ free_in plan.now.outgoing ports.now.items link }
    ensures soon { (last : ℕ) → ArePorts plan.now.outgoing last ports.now.items → result.0 ≤ last + 2048000000 }
{
    match place_of(plan.outgoing.as_slice(), &ways.places, link) {
        Some(place) => ports[place].free_at(),
        None => unreachable!(),
    }
}

// Queues the packet in hand at the port in that place, which is the link's.
#[inline(always)]
fn queue_at(
    plan: &RouterPlan,
    ports: &mut Vec<HandPort>,
    place: usize,
    link: u16,
    now: Time,
    class: Class,
    hand: &mut Hand,
) -> Outcome
    requires plan { IsRouterPlan plan.now }
    requires place { position (λ o. o.0 == link) plan.now.outgoing ≡ Some place }
    requires within { place < length plan.now.outgoing }
    requires ports { ArePorts plan.now.outgoing now.0 ports.old.items }
    requires horizon { now.0 ≤ 1000000000000000 }
    requires held { IsSome hand.old }
    ensures ports { ArePorts plan.now.outgoing now.0 ports.new.items }
    ensures outcome { (logs : PortLogs) (packet : PacketData) → StandForLogs plan.now.outgoing ports.old.items logs
        → hand.old ≡ Some packet → result ≡ sent logs class packet (outgoing_link plan.now link) }
    ensures stands { (logs : PortLogs) (packet : PacketData) → StandForLogs plan.now.outgoing ports.old.items logs
        → hand.old ≡ Some packet → StandForLogs plan.now.outgoing ports.new.items
        (logs with queued logs now.0 class packet (outgoing_link plan.now link)) }
    ensures left { (packet : PacketData) → hand.old ≡ Some packet → hand.new ≡ kept_after result packet }
{
    let key = key_in(class, hand);
    outcome_of(link, ports[place].queue_from(now, class, key, hand))
}

/// Where the offer of a packet to a link, by its number, leaves it.
pub fn outcome_of(link: u16, answer: Answer) -> Outcome
    ensures { (hand : Option PacketData) → AreOneAnswer answer hand
        → result ≡ outcome_of link (answer_by answer hand) }
{
    match answer {
        Answer::Queued => Outcome::Queued(link),
        Answer::NoQueue => Outcome::Dropped(DropCause::NoQueue),
        Answer::QueueFull => Outcome::Dropped(DropCause::QueueFull),
    }
}
