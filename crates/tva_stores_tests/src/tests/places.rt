// Places in buckets, a least number, and keys in ring order.
use std::collections::VecDeque;
use std::test::Fail;
use tva_index::{Buckets, KeyRing, Lowest};

#[test]
fn places_are_found_in_their_buckets(rt: HostRuntime) -> Result<(), Fail> {
    let mut all = Buckets::with_places(rt.alloc(), 6, 3)?;
    assert_eq!(rt; all.last(1), None);
    all.put(2, 1);
    all.put(4, 1);
    all.put(0, 1);
    all.put(4, 2);
    assert_eq!(rt; all.last(1), Some(2));
    assert_eq!(rt; all.before(2), Some(0));
    assert_eq!(rt; all.before(0), None);
    assert_eq!(rt; all.last(2), Some(4));
    assert_eq!(rt; all.before(4), None);
    Ok(())
}

#[test]
fn the_least_number_is_found(rt: HostRuntime) -> Result<(), Fail> {
    let mut all = Lowest::with_places(rt.alloc(), 3)?;
    all.put(0, 7u64);
    all.put(1, 5);
    all.put(2, 6);
    assert_eq!(rt; all.least(), Some(1));
    all.put(1, 9);
    assert_eq!(rt; all.least(), Some(2));
    assert_eq!(rt; Lowest::<u128>::with_places(rt.alloc(), 0)?.least(), None);
    Ok(())
}

// Keys whose walks have steps in common, up to all but the last.
const KEYS: [u32; 12] = [
    0,
    1,
    5,
    13,
    29,
    61,
    0x8000_0000,
    0x8000_0001,
    0x8000_0005,
    0x7fff_ffff,
    0xffff_ffff,
    0x4000_0001,
];

/// What is done to the ring is done to a plain list, in which a key is searched from the front on.
#[test]
fn keys_are_found_in_ring_order(rt: HostRuntime) -> Result<(), Fail> {
    let mut all = KeyRing::with_places(rt.alloc(), 8)?;
    let mut plain: VecDeque<u32> = VecDeque::new(rt.alloc());
    let mut draw: u32 = 1;
    for _round in 0..5000 {
        draw = draw.wrapping_mul(1_664_525).wrapping_add(1_013_904_223);
        let key = KEYS[(draw >> 16) as usize % 12];
        if draw >> 30 == 0 {
            all.leave();
            let _ = plain.pop_front();
        } else if draw >> 30 == 1 {
            all.turn();
            if let Some(front) = plain.pop_front() {
                plain.push_back(front)?;
            }
        } else if plain.len() < 8 && all.place(key).is_none() {
            all.push(key);
            plain.push_back(key)?;
        }
        for key in KEYS {
            let place = plain.iter().position(|other| *other == key);
            assert_eq!(rt; all.place(key), place);
        }
    }
    Ok(())
}

#[test]
fn places_are_taken_out_of_a_chain(rt: HostRuntime) -> Result<(), Fail> {
    let mut all = Buckets::with_places(rt.alloc(), 6, 3)?;
    all.put(0, 1);
    all.put(3, 1);
    all.put(5, 1);
    all.put(2, 1);
    all.put(4, 0);
    all.take_out(3);
    assert_eq!(rt; all.last(1), Some(5));
    assert_eq!(rt; all.before(5), Some(2));
    assert_eq!(rt; all.before(2), Some(0));
    all.take_out(5);
    assert_eq!(rt; all.last(1), Some(2));
    all.take_out(0);
    assert_eq!(rt; all.before(2), None);
    all.put(3, 1);
    assert_eq!(rt; all.last(1), Some(3));
    assert_eq!(rt; all.before(3), Some(2));
    all.take_out(2);
    all.take_out(3);
    all.take_out(1);
    assert_eq!(rt; all.last(1), None);
    assert_eq!(rt; all.last(0), Some(4));
    Ok(())
}
