// Two-level queues: the list of groups in ring order, with fair queues for each group that there may be.
ghost use Rattle.std.specs.Prelude.{◌≡◌, ℕ, ◌+◌, ◌^◌, ◌≤◌, ◌↔◌, false, [], Some, IfOk, IfSome, IsNone};
ghost use Rattle.std.specs.Option.{option_map};
ghost use Rattle.tva_base.specs.Plan.{AreDrrLimits};
ghost use Rattle.tva_drr.specs.declared.offered.Offered.TheVariants.{Queued};
ghost use Rattle.tva_drr.specs.Groups.{hier, inner_limits, has_group, all_group_bytes, next};
ghost use Rattle.tva_drr.specs.GroupsOffer.{lacks_place, answer_to_offer, left_by_offer};
ghost use Rattle.tva_drr.specs.GroupsTake.{left_by_take};
ghost use Rattle.tva_drr.specs.Hier.{IsHier};
ghost use Rattle.tva_drr.specs.GroupsOrder.{GoesLastUnder, GoesFirstUnder, AreFront};
ghost use Rattle.tva_drr.specs.GroupsPlaces.{IsGroupPlace, added};

use crate::{FairQueues, Measured, Offered, Turns};
use std::alloc::{AllocError, Global};
use std::marker::Model;
use tva_base::DrrLimits;

/// Two-level fair queues of items, by deficit round robin (Shreedhar and Varghese, 1996). Contracts see
/// the limits and one list of outer keys, deficits and fair queues in ring order, in which no group is
/// empty.
///
/// The list of groups takes turns as fair queues do, and what a group sends is what its own fair queues
/// send next. Both levels have the same quantum, and a deficit each. An outer key's group is found by the
/// key's bits, and not by going through all groups.
#[derive(Drop)]
pub struct HierQueues<T: Measured> {
    pub(crate) limits: DrrLimits,
    inner: u32,
    bytes: u32,
    turns: Turns<FairQueues<T>>,
}

impl<T: Measured> Model for HierQueues<T> {
    ghost use Rattle.std.specs.Prelude.{◌≡◌};
    ghost use Rattle.tva_drr.specs.Groups.{Hier, hier, inner_limits, all_group_bytes};
    ghost use Rattle.tva_drr.specs.Hier.{IsHier};
    ghost use Rattle.tva_drr.specs.GroupsCode.{hier_code};
    ghost use Rattle.tva_drr.specs.GroupsPlaces.{groups_in};

    ghost Value = { Hier T };

    ghost coded = { hier_code T.code };

    ghost view = { λ a. hier a.limits a.inner (groups_in a.turns.turns) };

    ghost invariant = { λ a. IsHier T.measure (hier a.limits a.inner (groups_in a.turns.turns))
        × (a.bytes ≡ all_group_bytes T.measure (groups_in a.turns.turns))
        × (a.turns.limits ≡ inner_limits a.limits a.inner)
        × (a.turns.places ≡ a.limits.queues) };
}

/// The limits of one group.
fn limits_of_group(limits: &DrrLimits, inner: u32) -> DrrLimits
    ensures { result ≡ inner_limits limits.now inner }
{
    DrrLimits {
        queues: inner,
        ring: limits.ring,
        queue_bytes: limits.queue_bytes,
        class_bytes: limits.class_bytes,
        quantum: limits.quantum,
        max: limits.max,
    }
}

impl<T: Measured> HierQueues<T> {
    /// Two-level queues without items, under these limits: so many groups, items in a queue, bytes in
    /// a queue and bytes in all, the bytes of a quantum, the greatest length of an item in bytes, and
    /// so many queues in each group. All their memory is taken here: for each group that of its queues.
    pub fn with_limits(
        alloc: Global,
        limits: DrrLimits,
        inner: u32,
    ) -> Result<HierQueues<T>, AllocError>
        requires limits { AreDrrLimits limits }
        requires inner { (1 ≤ inner) × (inner ≤ 2 ^ 30) }
        ensures empty { IfOk result (λ queues. queues ≡ hier limits inner []) }
        ensures hier { IfOk result (λ queues. IsHier T.measure queues) }
    {
        let turns = Turns::with_places(alloc, limits.queues, limits_of_group(&limits, inner))?;
        Ok(HierQueues {
            limits,
            inner,
            bytes: 0,
            turns,
        })
    }

    /// The place of the outer key's group.
    fn place(&self, outer: u32) -> Option<usize>
        ensures { IsGroupPlace outer self.now.groups result }
    {
        self.turns.place(outer)
    }

    /// Whether there is no group for the outer key, or no queue in its group for the inner key.
    fn has_no_place(&self, at: Option<usize>, outer: u32, inner: u32) -> bool
        requires { IsGroupPlace outer self.now.groups at }
        ensures { result ≡ lacks_place self.now outer inner }
    {
        match at {
            Some(at) => !self.turns.turn(at).source.takes_key(inner),
            None => self.limits.queues as usize <= self.turns.len(),
        }
    }

    /// Offers an item to the group at a place.
    fn offer_at(&mut self, at: usize, outer: u32, inner: u32, item: T) -> Offered<T>
        requires length { (1 ≤ T.measure item) × (T.measure item ≤ self.old.limits.max) }
        requires group { IsGroupPlace outer self.old.groups (Some at) }
        requires place { lacks_place self.old outer inner ≡ false }
        requires bytes { all_group_bytes T.measure self.old.groups + T.measure item ≤ self.old.limits.class_bytes }
        ensures answer { result ≡ answer_to_offer T.measure self.old outer inner item }
        ensures left { self.new ≡ left_by_offer T.measure self.old outer inner item }
    {
        let length = item.length();
        let answer = self.turns.put_at(at, inner, item);
        self.bytes += added(&answer, length);
        answer
    }

    /// Offers an item to a spare group, which goes last in the list where the item is queued.
    fn offer_new(&mut self, outer: u32, inner: u32, item: T) -> Offered<T>
        requires length { (1 ≤ T.measure item) × (T.measure item ≤ self.old.limits.max) }
        requires group { has_group outer self.old.groups ≡ false }
        requires place { lacks_place self.old outer inner ≡ false }
        requires bytes { all_group_bytes T.measure self.old.groups + T.measure item ≤ self.old.limits.class_bytes }
        ensures answer { result ≡ answer_to_offer T.measure self.old outer inner item }
        ensures left { self.new ≡ left_by_offer T.measure self.old outer inner item }
    {
        let length = item.length();
        let answer = self.turns.put_new(outer, inner, item);
        self.bytes += added(&answer, length);
        answer
    }

    /// Puts the item last among the items under its two keys; a new inner key goes last in its group, and
    /// a new outer key last in the list. Refused with `NoQueue` where the outer key has no group and all
    /// groups are given, or else the inner key has no queue in its group and all its queues are given; and
    /// with `QueueFull` where the limits of items or bytes in its queue, or of bytes in all groups, would
    /// be passed. A refusal hands the item back and changes nothing. It takes no memory.
    pub fn offer(&mut self, outer: u32, inner: u32, item: T) -> Offered<T>
        requires length { (1 ≤ T.measure item) × (T.measure item ≤ self.old.limits.max) }
        ensures answer { result ≡ answer_to_offer T.measure self.old outer inner item }
        ensures left { self.new ≡ left_by_offer T.measure self.old outer inner item }
        // It waits behind the items under its keys, and no other item is touched.
        ensures last { result ≡ Queued → GoesLastUnder outer inner item self.old self.new }
        ensures hier { IsHier T.measure self.new }
    {
        let at = self.place(outer);
        if self.has_no_place(at, outer, inner) {
            return Offered::NoQueue(item);
        }
        if self.limits.class_bytes < self.bytes + item.length() {
            return Offered::QueueFull(item);
        }
        match at {
            Some(at) => self.offer_at(at, outer, inner, item),
            None => self.offer_new(outer, inner, item),
        }
    }

    /// The length in bytes of what the next take gives, and none where nothing waits.
    pub fn head_length(&self) -> Option<u32>
        ensures value { result ≡ option_map T.measure (next self.now.groups) }
        ensures none { IsNone result ↔ (self.now.groups ≡ []) }
        ensures hier { IsHier T.measure self.now }
    {
        self.turns.next_length()
    }

    /// Takes what the front's fair queues give, and none exactly where nothing waits. Both deficits fall
    /// by the item's length. A front whose queues are empty then leaves the list with its deficit, and one
    /// whose deficit is below the length of what its queues send next goes last; either way the group that
    /// now stands at the front gets the quantum. It takes no memory.
    pub fn take(&mut self) -> Option<T>
        ensures value { result ≡ next self.old.groups }
        ensures none { IsNone result ↔ (self.old.groups ≡ []) }
        ensures left { self.new ≡ left_by_take T.measure self.old }
        // Under the front's two keys it was the first item, and no other item is touched.
        ensures first { (outer inner : ℕ) → AreFront outer inner self.old.groups
            → IfSome result (λ item. GoesFirstUnder outer inner item self.old self.new) }
        ensures hier { IsHier T.measure self.new }
    {
        let length = self.head_length()?;
        self.bytes -= length;
        let item = self.turns.pop();
        self.turns.settle();
        item
    }
}

// The bytes that are more after an offer with this answer.
fn added<T: Measured>(answer: &Offered<T>, length: u32) -> u32
    ensures value { result ≡ added answer.now length }
    ensures within { result ≤ length }
{
    match answer {
        Offered::Queued => length,
        Offered::NoQueue(_) | Offered::QueueFull(_) => 0,
    }
}
