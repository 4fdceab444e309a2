// Where a key's queue stands, and what an offer does there.
ghost use Rattle.std.specs.Prelude.{◌≡◌, ◌+◌, ◌^◌, ◌<◌, None, length, nat_lt, nat_le, is_none, ◌&&◌, ◌||◌};
ghost use Rattle.tva_drr.specs.Queues.{items_of, bytes_in};
ghost use Rattle.tva_drr.specs.Offer.{put};
ghost use Rattle.tva_drr.specs.Rows.{queues_in};
ghost use Rattle.tva_drr.specs.Places.{IsPlace};
ghost use Rattle.tva_drr.specs.Front.{IsKnown};

use crate::front::Front;
use crate::measured::Measured;
use crate::row::Row;
use crate::turning::Turns;

/// Where a key's items wait, if they do, how many there are, and their bytes.
#[derive(Drop)]
pub(crate) struct Place {
    pub at: Option<usize>,
    pub items: usize,
    pub bytes: u32,
}

/// The place of the key's queue. What is known of the front is looked at before the tree of keys and the
/// queues.
pub(crate) fn find_slot<T: Measured>(turns: &Turns<Row<T>>, front: Front, key: u32) -> Place
    requires front { IsKnown T.measure front (queues_in turns.now.turns) }
    ensures at { IsPlace key (queues_in turns.now.turns) result.at }
    ensures items { result.items ≡ length (items_of key (queues_in turns.now.turns)) }
    ensures bytes { result.bytes ≡ bytes_in T.measure (items_of key (queues_in turns.now.turns)) }
{
    if front.items != 0 && front.key == key {
        return Place {
            at: Some(0),
            items: front.items,
            bytes: front.bytes,
        };
    }
    match turns.place(key) {
        Some(at) => {
            let row = &turns.turn(at).source;
            Place {
                at: Some(at),
                items: row.len(),
                bytes: row.bytes(),
            }
        }
        None => Place {
            at: None,
            items: 0,
            bytes: 0,
        },
    }
}

/// Whether there is no slot for a queue of this key.
pub(crate) fn lacks_slot<T: Measured>(turns: &Turns<Row<T>>, place: &Place) -> bool
    ensures { result ≡ (is_none place.now.at && nat_le turns.now.limits.queues (length turns.now.turns)) }
{
    place.at.is_none() && turns.limits().queues as usize <= turns.len()
}

/// Whether one more item of this length passes a limit. All sums are below 2^31.
pub(crate) fn lacks_room<T: Measured>(
    turns: &Turns<Row<T>>,
    place: &Place,
    bytes: u32,
    length: u32,
) -> bool
    requires { (place.now.items < 2 ^ 31) × (place.now.bytes < 2 ^ 31)
        × (bytes < 2 ^ 31) × (length < 2 ^ 31) }
    ensures { result ≡ (nat_lt turns.now.limits.ring (place.now.items + 1)
        || nat_lt turns.now.limits.queue_bytes (place.now.bytes + length)
        || nat_lt turns.now.limits.class_bytes (bytes + length)) }
{
    let limits = turns.limits();
    (limits.ring as usize) < place.items + 1
        || limits.queue_bytes < place.bytes + length
        || limits.class_bytes < bytes + length
}

/// Puts the item last at the place of its key's queue, or in a queue that goes last.
#[inline(always)]
pub(crate) fn put_item<T: Measured>(turns: &mut Turns<Row<T>>, at: Option<usize>, key: u32, item: T)
    requires place { IsPlace key (queues_in turns.old.turns) at }
    requires fits { bytes_in T.measure (items_of key (queues_in turns.old.turns))
        + T.measure item < 2 ^ 32 }
    requires room { length (items_of key (queues_in turns.old.turns)) < turns.old.limits.ring }
    requires free { at ≡ None → length turns.old.turns < turns.old.places }
    ensures left { queues_in turns.new.turns ≡ put turns.old.limits.quantum key item (queues_in turns.old.turns) }
    ensures same { (turns.new.limits ≡ turns.old.limits) × (turns.new.places ≡ turns.old.places) }
{
    match at {
        Some(at) => {
            turns.put_at(at, 0, item);
        }
        None => {
            turns.put_new(key, 0, item);
        }
    }
}
