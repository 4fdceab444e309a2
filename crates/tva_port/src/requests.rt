// The requests that wait for a link.
ghost use Rattle.std.specs.Prelude.{◌≡◌, ◌≤◌, ◌<◌, ◌+◌, Some, None, IsSome, IfOk};
ghost use Rattle.std.specs.Option.{option_map};
ghost use Rattle.tva_base.specs.Plan.{AreLinkLimits};
ghost use Rattle.tva_shim.specs.Packets.{PacketData, packet_length};
ghost use Rattle.tva_shim.specs.Shows.{inner_key_of};
ghost use Rattle.tva_drr.specs.Groups.{next};
ghost use Rattle.tva_drr.specs.GroupsOffer.{answer_to_offer, left_by_offer};
ghost use Rattle.tva_drr.specs.GroupsTake.{left_by_take};
ghost use Rattle.tva_base.specs.declared.packet.Class.TheVariants.{Request};
ghost use Rattle.tva_port.specs.Decide.{start_or};
ghost use Rattle.tva_port.specs.Hand.{AreOneAnswer, AreOneDecision, answer_by, decision_by};
ghost use Rattle.tva_port.specs.declared.decision.Decision.TheVariants.{Idle};
ghost use Rattle.tva_port.specs.Levels.{no_requests, limits_in, next_in, request_answer, request_leaves, request_taken};

use crate::fair::{offer_to, start_from};
use crate::hand::{Answer, Hand, Next};
use crate::held::{HeldPacket, back_into, start_held, take_held};
use std::alloc::{AllocError, Global};
use tva_base::{Class, LinkLimits};
use tva_drr::{FairQueues, HierQueues};
use tva_shim::inner_queue_key;

/// Requests in fair queues by their keys; or on a link with two levels in two-level queues, by
/// their keys and within a key by the tag before it.
#[derive(Drop)]
pub(crate) enum RequestQueues {
    OneLevel(FairQueues<HeldPacket>),
    TwoLevels(HierQueues<HeldPacket>),
}

impl RequestQueues {
    /// The queues of a link without requests. All their memory is taken here.
    pub fn with_limits(alloc: Global, limits: &LinkLimits) -> Result<RequestQueues, AllocError>
        requires { AreLinkLimits limits.now }
        ensures empty { IfOk result (λ queues. queues ≡ no_requests limits.now) }
        ensures limits { IfOk result (λ queues. limits_in queues ≡ limits.now.request) }
    {
        match limits.request_inner {
            None => {
                let queues = FairQueues::with_limits(alloc, limits.request)?;
                Ok(RequestQueues::OneLevel(queues))
            }
            Some(inner) => {
                let queues = HierQueues::with_limits(alloc, limits.request, inner)?;
                Ok(RequestQueues::TwoLevels(queues))
            }
        }
    }

    /// The length of the request that the next take gives, in bytes.
    pub fn head_length(&self) -> Option<u32>
        ensures value { result ≡ option_map packet_length (next_in self.now) }
        ensures sized { (packet : PacketData) → next_in self.now ≡ Some packet
            → packet_length packet ≤ (limits_in self.now).max }
    {
        match self {
            RequestQueues::OneLevel(queues) => queues.head_length(),
            RequestQueues::TwoLevels(queues) => queues.head_length(),
        }
    }

    /// Offers the request in hand under a key, and within it under its own inner key where there are two
    /// levels. It stays in hand where it is refused.
    #[inline(always)]
    pub fn offer(&mut self, key: u32, hand: &mut Hand) -> Answer
        requires limits { (limits_in self.old).max ≡ 2048 }
        requires held { IsSome hand.old }
        ensures answer { (packet : PacketData) → hand.old ≡ Some packet
            → answer_by result hand.new ≡ request_answer self.old key packet }
        ensures held { AreOneAnswer result hand.new }
        ensures left { (packet : PacketData) → hand.old ≡ Some packet
            → self.new ≡ request_leaves self.old key packet }
        ensures limits { limits_in self.new ≡ limits_in self.old }
        ensures sized { (packet : PacketData) → hand.old ≡ Some packet
            → (20 ≤ packet_length packet) × (packet_length packet ≤ 2048) }
    {
        match self {
            RequestQueues::OneLevel(queues) => offer_to(queues, key, hand),
            RequestQueues::TwoLevels(queues) => offer_within(queues, key, hand),
        }
    }

    /// Starts the next request.
    pub fn start(&mut self, hand: &mut Hand) -> Next
        requires empty { hand.old ≡ None }
        ensures value { decision_by result hand.new ≡ start_or Request (next_in self.old) Idle }
        ensures held { AreOneDecision result hand.new }
        ensures left { self.new ≡ request_taken self.old }
    {
        match self {
            RequestQueues::OneLevel(queues) => start_from(queues, Class::Request, hand),
            RequestQueues::TwoLevels(queues) => start_within(queues, hand),
        }
    }
}

/// Offers the request in hand to two-level queues under a key and its inner key.
fn offer_within(queues: &mut HierQueues<HeldPacket>, key: u32, hand: &mut Hand) -> Answer
    requires limits { queues.old.limits.max ≡ 2048 }
    requires held { IsSome hand.old }
    ensures answer { (packet : PacketData) → hand.old ≡ Some packet
        → answer_by result hand.new ≡ answer_to_offer packet_length queues.old key (inner_key_of packet) packet }
    ensures held { AreOneAnswer result hand.new }
    ensures left { (packet : PacketData) → hand.old ≡ Some packet
        → queues.new ≡ left_by_offer packet_length queues.old key (inner_key_of packet) packet }
    ensures limits { queues.new.limits ≡ queues.old.limits }
    ensures sized { (packet : PacketData) → hand.old ≡ Some packet
        → (20 ≤ packet_length packet) × (packet_length packet ≤ 2048) }
{
    let inner = inner_key_in(hand);
    let held = take_held(hand);
    back_into(hand, queues.offer(key, inner, held))
}

/// Starts the next packet of two-level queues.
fn start_within(queues: &mut HierQueues<HeldPacket>, hand: &mut Hand) -> Next
    requires empty { hand.old ≡ None }
    ensures value { decision_by result hand.new ≡ start_or Request (next queues.old.groups) Idle }
    ensures held { AreOneDecision result hand.new }
    ensures left { queues.new ≡ left_by_take packet_length queues.old }
{
    start_held(hand, queues.take(), Class::Request)
}

// The inner key of the request in hand.
fn inner_key_in(hand: &Hand) -> u32
    requires { IsSome hand.now }
    ensures { (packet : PacketData) → hand.now ≡ Some packet → result ≡ inner_key_of packet }
{
    match &hand.packet {
        Some(packet) => inner_queue_key(packet),
        None => unreachable!(),
    }
}
