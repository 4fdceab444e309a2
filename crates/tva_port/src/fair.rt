// Packets in fair queues.
ghost use Rattle.std.specs.Prelude.{◌≡◌, ◌≤◌, ◌<◌, ◌+◌, Some, None, IsSome};
ghost use Rattle.tva_shim.specs.Packets.{PacketData, packet_length};
ghost use Rattle.tva_drr.specs.Queues.{head};
ghost use Rattle.tva_drr.specs.Offer.{offer_answer, offer_leaves};
ghost use Rattle.tva_drr.specs.Take.{take_leaves};
ghost use Rattle.tva_port.specs.Decide.{start_or};
ghost use Rattle.tva_port.specs.Hand.{AreOneAnswer, AreOneDecision, answer_by, decision_by};
ghost use Rattle.tva_port.specs.declared.decision.Decision.TheVariants.{Idle};

use crate::hand::{Answer, Hand, Next};
use crate::held::{HeldPacket, back_into, start_held, take_held};
use tva_base::Class;
use tva_drr::FairQueues;

/// Offers the packet in hand to fair queues, or leaves it there where they refuse it.
#[inline(always)]
pub(crate) fn offer_to(queues: &mut FairQueues<HeldPacket>, key: u32, hand: &mut Hand) -> Answer
    requires limits { queues.old.limits.max ≡ 2048 }
    requires held { IsSome hand.old }
    ensures answer { (packet : PacketData) → hand.old ≡ Some packet
        → answer_by result hand.new ≡ offer_answer packet_length queues.old key packet }
    ensures held { AreOneAnswer result hand.new }
    ensures left { (packet : PacketData) → hand.old ≡ Some packet
        → queues.new ≡ offer_leaves packet_length queues.old key packet }
    ensures limits { queues.new.limits ≡ queues.old.limits }
    ensures sized { (packet : PacketData) → hand.old ≡ Some packet
        → (20 ≤ packet_length packet) × (packet_length packet ≤ 2048) }
{
    let held = take_held(hand);
    back_into(hand, queues.offer(key, held))
}

/// Starts the next packet of fair queues, in that class.
pub(crate) fn start_from(queues: &mut FairQueues<HeldPacket>, class: Class, hand: &mut Hand) -> Next
    requires empty { hand.old ≡ None }
    ensures value { decision_by result hand.new ≡ start_or class (head queues.old.queues) Idle }
    ensures held { AreOneDecision result hand.new }
    ensures left { queues.new ≡ take_leaves packet_length queues.old }
{
    start_held(hand, queues.take(), class)
}
