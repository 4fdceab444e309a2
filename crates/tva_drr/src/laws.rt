// What fair queues promise whatever is offered to them (Shreedhar and Varghese, 1996).
ghost use Rattle.std.specs.Prelude.{◌≡◌, ◌≢◌, ℕ, ◌+◌, ◌*◌, ◌<◌, ◌≤◌, true, List, length, take};
ghost use Rattle.tva_drr.specs.Queues.{Fair, has_key, items_of, bytes_in};
ghost use Rattle.tva_drr.specs.Offer.{offer_leaves};
ghost use Rattle.tva_drr.specs.Take.{take_leaves};
ghost use Rattle.tva_drr.specs.Fair.{IsFair};
ghost use Rattle.tva_drr.specs.Service.{Step, head_bytes, AreOffers, bytes_until, bytes_from, AlwaysWaits, most_until};
ghost use Rattle.tva_drr.specs.Ahead.{bytes_ahead, IsLeft};

use crate::measured::Measured;

/// Whatever is offered and taken, the bytes that go up to a key's n-th waiting item, and with it, are at
/// most the bound for the bytes that its queue has up to it and with it.
pub fn items_go_within_bounds<T: Measured>()
    ensures until { (f : Fair T) (key n : ℕ) (steps : List (Step T)) → IsFair T.measure f
        → AreOffers T.measure f.limits.max steps → n ≤ length (items_of key f.queues)
        → bytes_until T.measure key n f steps
        ≤ most_until f.limits (bytes_in T.measure (take n (items_of key f.queues))) }
{}

/// Why that bound holds, for any number of bytes that the key has yet to send and that falls by what
/// it sends: the measure of what may still go stays at an offer and falls by the bytes of each item that
/// is taken, of whatever queue, and it is at most the bound at first.
pub fn bytes_ahead_fall<T: Measured>()
    ensures offer { (f : Fair T) (key bytes k : ℕ) (item : T) → has_key key f.queues ≡ true
        → bytes_ahead f.limits key bytes (offer_leaves T.measure f k item).queues
        ≡ bytes_ahead f.limits key bytes f.queues }
    ensures taken { (f : Fair T) (key bytes left : ℕ) → IsFair T.measure f → has_key key f.queues ≡ true
        → has_key key (take_leaves T.measure f).queues ≡ true
        → IsLeft T.measure f.limits key bytes left f.queues
        → bytes_ahead f.limits key left (take_leaves T.measure f).queues + head_bytes T.measure f.queues
        ≤ bytes_ahead f.limits key bytes f.queues }
    ensures enough { (f : Fair T) (key bytes : ℕ) → bytes ≤ bytes_ahead f.limits key bytes f.queues }
    ensures bound { (f : Fair T) (key bytes : ℕ) → IsFair T.measure f → has_key key f.queues ≡ true
        → 1 ≤ bytes → bytes_ahead f.limits key bytes f.queues ≤ most_until f.limits bytes }
{}

/// Two keys under which something waits all along get about as much as each other: what one of them
/// sends is below what the other sends, a quantum and twice the greatest length.
pub fn queues_are_served_alike<T: Measured>()
    ensures alike { (f : Fair T) (a b : ℕ) (steps : List (Step T)) → a ≢ b → IsFair T.measure f
        → AreOffers T.measure f.limits.max steps → AlwaysWaits T.measure a f steps
        → AlwaysWaits T.measure b f steps
        → bytes_from T.measure a f steps
        < bytes_from T.measure b f steps + (f.limits.quantum + 2 * f.limits.max) }
{}
