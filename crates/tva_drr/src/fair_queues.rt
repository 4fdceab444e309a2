// Fair queues: the list of queues in ring order, with one ring for each queue that there may be.
ghost use Rattle.std.specs.Prelude.{◌≡◌, ℕ, ◌≤◌, ◌↔◌, [], not, IfOk, IfSome, IsNone};
ghost use Rattle.std.specs.Option.{option_map};
ghost use Rattle.tva_base.specs.Plan.{AreDrrLimits};
ghost use Rattle.tva_drr.specs.Queues.{fair, head};
ghost use Rattle.tva_drr.specs.Offer.{lacks_queue, offer_answer, offer_leaves};
ghost use Rattle.tva_drr.specs.Take.{take_leaves};
ghost use Rattle.tva_drr.specs.Fair.{IsFair};
ghost use Rattle.tva_drr.specs.Order.{GoesLast, GoesFirst, IsFront};
ghost use Rattle.tva_drr.specs.declared.offered.Offered.TheVariants.{Queued};

use crate::front::{Front, front_of};
use crate::measured::Measured;
use crate::offered::Offered;
use crate::places::{find_slot, lacks_room, lacks_slot, put_item};
use crate::row::Row;
use crate::turning::Turns;
use std::alloc::{AllocError, Global};
use std::marker::Model;
use tva_base::DrrLimits;

/// Fair queues of items, by deficit round robin (Shreedhar and Varghese, 1996). Contracts see the
/// limits and one list of keys, deficits and items in ring order, in which no queue is empty.
///
/// As the quantum is at least the greatest length, a queue that comes to the front with the
/// quantum covers its first item, so a take searches nothing. A key's queue is found by the key's bits,
/// and not by going through all queues. A deficit is below the greatest
/// length behind the front, and below that and the quantum together at the front: with both at
/// most 2^30 it fits in 32 bits.
#[derive(Drop)]
pub struct FairQueues<T: Measured> {
    bytes: u32,
    front: Front,
    pub(crate) turns: Turns<Row<T>>,
}

impl<T: Measured> Model for FairQueues<T> {
    ghost use Rattle.std.specs.Prelude.{◌≡◌};
    ghost use Rattle.tva_drr.specs.Queues.{Fair, fair, all_bytes};
    ghost use Rattle.tva_drr.specs.Fair.{IsFair};
    ghost use Rattle.tva_drr.specs.Code.{fair_code};
    ghost use Rattle.tva_drr.specs.Rows.{queues_in};
    ghost use Rattle.tva_drr.specs.Front.{IsKnown};

    ghost Value = { Fair T };

    ghost coded = { fair_code T.code };

    ghost view = { λ a. fair a.turns.limits (queues_in a.turns.turns) };

    ghost invariant = { λ a. IsFair T.measure (fair a.turns.limits (queues_in a.turns.turns))
        × (a.bytes ≡ all_bytes T.measure (queues_in a.turns.turns))
        × (a.turns.places ≡ a.turns.limits.queues)
        × IsKnown T.measure a.front (queues_in a.turns.turns) };
}

impl<T: Measured> FairQueues<T> {
    /// Fair queues without items, under these limits: so many queues, items in a queue, bytes in
    /// a queue and bytes in all, the bytes of a quantum, and the greatest length of an item in
    /// bytes. All their memory is taken here.
    pub fn with_limits(alloc: Global, limits: DrrLimits) -> Result<FairQueues<T>, AllocError>
        requires { AreDrrLimits limits }
        ensures empty { IfOk result (λ queues. queues ≡ fair limits []) }
        ensures fair { IfOk result (λ queues. IsFair T.measure queues) }
    {
        let turns = Turns::with_places(alloc, limits.queues, limits)?;
        let front = front_of(&turns);
        Ok(FairQueues {
            bytes: 0,
            front,
            turns,
        })
    }

    /// Puts the item last among its key's items, and a new key last in the list. Refused with
    /// `NoQueue` where the key has no queue and all queues are given, and with `QueueFull` where
    /// the limits of items or bytes in its queue, or of bytes in all, would be passed; a refusal
    /// hands the item back and changes nothing. It takes no memory.
    #[inline(always)]
    pub fn offer(&mut self, key: u32, item: T) -> Offered<T>
        requires length { (1 ≤ T.measure item) × (T.measure item ≤ self.old.limits.max) }
        ensures answer { result ≡ offer_answer T.measure self.old key item }
        ensures left { self.new ≡ offer_leaves T.measure self.old key item }
        // It waits behind its key's items, and no other item is touched.
        ensures last { result ≡ Queued → GoesLast key item self.old self.new }
        ensures fair { IsFair T.measure self.new }
    {
        let length = item.length();
        let place = find_slot(&self.turns, self.front, key);
        if lacks_slot(&self.turns, &place) {
            return Offered::NoQueue(item);
        }
        if lacks_room(&self.turns, &place, self.bytes, length) {
            return Offered::QueueFull(item);
        }
        put_item(&mut self.turns, place.at, key, item);
        self.bytes += length;
        self.front = front_of(&self.turns);
        Offered::Queued
    }

    /// Whether the key has a queue, or there is one to give to it: whether an offer under the key is
    /// not refused with `NoQueue`. It takes no memory.
    pub fn takes_key(&self, key: u32) -> bool
        ensures { result ≡ not (lacks_queue self.now key) }
    {
        let place = find_slot(&self.turns, self.front, key);
        !lacks_slot(&self.turns, &place)
    }

    /// The length in bytes of what the next take gives, and none where nothing waits.
    pub fn head_length(&self) -> Option<u32>
        ensures value { result ≡ option_map T.measure (head self.now.queues) }
        ensures none { IsNone result ↔ (self.now.queues ≡ []) }
        ensures fair { IsFair T.measure self.now }
    {
        self.turns.next_length()
    }

    /// Takes the front's first item, and none exactly where nothing waits. The front's deficit
    /// falls by the item's length. A front without items then leaves the list with its deficit,
    /// and one whose deficit is below its next item's length goes last; either way the queue that
    /// now stands at the front gets the quantum. It takes no memory.
    #[inline(always)]
    pub fn take(&mut self) -> Option<T>
        ensures value { result ≡ head self.old.queues }
        ensures none { IsNone result ↔ (self.old.queues ≡ []) }
        ensures left { self.new ≡ take_leaves T.measure self.old }
        // Of the front's key it was the first item, and no other item is touched.
        ensures first { (key : ℕ) → IsFront key self.old.queues
            → IfSome result (λ item. GoesFirst key item self.old self.new) }
        ensures fair { IsFair T.measure self.new }
    {
        let length = self.head_length()?;
        self.bytes -= length;
        let item = self.turns.pop();
        self.turns.settle();
        self.front = front_of(&self.turns);
        item
    }
}
