// What two-level queues promise whatever is offered to them.
ghost use Rattle.std.specs.Prelude.{◌≡◌, ℕ, ◌+◌, ◌≤◌, true, List, length, take};
ghost use Rattle.tva_drr.specs.Queues.{has_key, bytes_in};
ghost use Rattle.tva_drr.specs.Groups.{Hier, fair_of, items_under};
ghost use Rattle.tva_drr.specs.GroupsOffer.{left_by_offer};
ghost use Rattle.tva_drr.specs.GroupsTake.{left_by_take};
ghost use Rattle.tva_drr.specs.Hier.{IsHier};
ghost use Rattle.tva_drr.specs.GroupsAhead.{Step, bytes_ahead_under, next_bytes, IsLeftUnder, AreOffers, bytes_until, most_until_under};

use crate::Measured;

/// Whatever is offered and taken, the bytes that go up to the n-th item that waits under two keys, and with
/// it, are at most the bound for the bytes that wait under them up to it and with it.
pub fn items_of_groups_go_within_bounds<T: Measured>()
    ensures until { (h : Hier T) (outer inner n : ℕ) (steps : List (Step T)) → IsHier T.measure h
        → AreOffers T.measure h.limits.max steps → n ≤ length (items_under h outer inner)
        → bytes_until T.measure outer inner n h steps
        ≤ most_until_under h.limits h.inner (bytes_in T.measure (take n (items_under h outer inner))) }
{}

/// Why that bound holds, for any number of bytes that two keys have yet to send and that falls by what is
/// taken under them: the measure of what may still go stays at an offer and falls by the bytes of each item
/// that is taken, of whatever queue, and it is at most the bound at first.
pub fn bytes_ahead_of_groups_fall<T: Measured>()
    ensures offer { (h : Hier T) (outer inner bytes o i : ℕ) (item : T) → IsHier T.measure h
        → has_key inner (fair_of h outer).queues ≡ true
        → bytes_ahead_under (left_by_offer T.measure h o i item) outer inner bytes
        ≡ bytes_ahead_under h outer inner bytes }
    ensures taken { (h : Hier T) (outer inner bytes left : ℕ) → IsHier T.measure h
        → has_key inner (fair_of h outer).queues ≡ true
        → has_key inner (fair_of (left_by_take T.measure h) outer).queues ≡ true
        → IsLeftUnder T.measure h outer inner bytes left
        → bytes_ahead_under (left_by_take T.measure h) outer inner left + next_bytes T.measure h.groups
        ≤ bytes_ahead_under h outer inner bytes }
    ensures enough { (h : Hier T) (outer inner bytes : ℕ) → bytes ≤ bytes_ahead_under h outer inner bytes }
    ensures bound { (h : Hier T) (outer inner bytes : ℕ) → IsHier T.measure h
        → has_key inner (fair_of h outer).queues ≡ true → 1 ≤ bytes
        → bytes_ahead_under h outer inner bytes ≤ most_until_under h.limits h.inner bytes }
{}
