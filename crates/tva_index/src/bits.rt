// Keys with numbers, in a tree that branches by the bits of the keys, the lowest first.
ghost use Rattle.std.specs.Prelude.{◌≡◌, ℕ, ◌+◌, ◌*◌, ◌%◌, ◌^◌, ◌<◌, ◌≤◌, length, replicate, slice_index, slice_set, vec_capacity, None, Some, MatchOption, MatchBool, IfOk};
ghost use Rattle.tva_index.specs.Bits.{led_to, way_on, unused_place, links_of, entries_of, link_at, entry_at, numbered, HasKey, IsAbsent, IsKeyTree, IsEnd, IsFound, IsLeafBelow, IsPut, IsWritten, IsWithout};

use std::alloc::{AllocError, Global};

/// A key, and its number.
#[derive(Clone, Copy)]
pub(crate) struct Numbered {
    pub key: u32,
    pub number: u32,
}

/// A place in a tree of keys: the places to which its two links lead, and its entry. No link leads to the
/// first place, so 0 leads nowhere.
#[derive(Clone, Copy)]
pub(crate) struct Place {
    pub low: u32,
    pub high: u32,
    pub entry: Option<Numbered>,
}

// A step of a walk waits for the memory of one place, which is small, so that more of them are at hand.
const _: () = prove!(size_of::<Place>() <= 20);

/// Places in a tree of keys. The walk to a key begins at the first, which has no entry: two links lead
/// on from each place, and the walk takes the one that the key's next bit says. So a key stands after at
/// most 32 steps, whatever other keys there are. The other places are free, or have an entry.
#[derive(Drop)]
pub(crate) struct KeyTree {
    pub places: Vec<Place>,
    pub free: Vec<u32>,
}

/// A place, and the link that leads there.
#[derive(Clone, Copy)]
pub(crate) struct Led {
    pub link: usize,
    pub at: usize,
}

/// How a walk to a key ends: at its place, or at a link that leads nowhere.
#[derive(Clone, Copy)]
pub(crate) enum End {
    Found(Led),
    Missing(usize),
}

// How many bits a key has.
const BITS: u32 = 32;

// How many places a walk comes to at most, the first among them.
const VISITED: u32 = BITS + 1;

/// A tree without keys, with places for so many. The error is want of memory.
pub(crate) fn rooted(alloc: Global, places: u32) -> Result<KeyTree, AllocError>
    requires { places ≤ 2 ^ 30 }
    ensures tree { IfOk result (λ t. IsKeyTree (links_of t.places.items) (entries_of t.places.items) t.free.items) }
    ensures none { IfOk result (λ t. (p : ℕ) → entry_at (entries_of t.places.items) p ≡ None) }
    ensures free { IfOk result (λ t. length t.free.items ≡ places) }
    ensures room { IfOk result (λ t. places ≤ vec_capacity t.free) }
{
    let free = behind_first(alloc, places)?;
    let places = unused(alloc, places as usize + 1)?;
    Ok(KeyTree { places, free })
}

// So many places without entries, from which no link leads on.
fn unused(alloc: Global, count: usize) -> Result<Vec<Place>, AllocError>
    ensures { IfOk result (λ v. v.items ≡ replicate count unused_place) }
{
    let place = Place {
        low: 0,
        high: 0,
        entry: None,
    };
    let mut places = Vec::with_capacity(alloc, count)?;
    places.resize(count, place)?;
    Ok(places)
}

// So many places behind the first.
fn behind_first(alloc: Global, places: u32) -> Result<Vec<u32>, AllocError>
    requires { places ≤ 2 ^ 30 }
    ensures count { IfOk result (λ v. length v.items ≡ places) }
    ensures each { IfOk result (λ v. (i : ℕ) → i < places → slice_index v.items i ≡ i + 1) }
    ensures room { IfOk result (λ v. places ≤ vec_capacity v) }
{
    let mut free = Vec::with_capacity(alloc, places as usize)?;
    for place in 0..places {
        free.push(place + 1)?;
    }
    Ok(free)
}

// Whether an entry is the key's.
fn is_of(entry: &Option<Numbered>, key: u32) -> bool
    ensures { MatchBool result (HasKey key entry.now) (HasKey key entry.now → ⊥) }
{
    match entry {
        Some(numbered) => numbered.key == key,
        None => false,
    }
}

// Where a link leads.
fn follow(link: u32) -> Option<u32>
    ensures { result ≡ led_to link }
{
    match link {
        0 => None,
        place => Some(place),
    }
}

// Where the link leads that the lowest of these bits says.
fn step_from(place: &Place, bits: u32) -> Option<u32>
    ensures { result ≡ way_on place.now (bits % 2) }
{
    if bits % 2 == 0 {
        follow(place.low)
    } else {
        follow(place.high)
    }
}

// The entry of a place.
fn entry_of(places: &Vec<Place>, at: usize) -> Option<Numbered>
    requires { at < length places.now.items }
    ensures { result ≡ entry_at (entries_of places.now.items) at }
{
    places[at].entry
}

// Gives a place another entry, or none.
fn set_entry(places: &mut Vec<Place>, at: usize, entry: Option<Numbered>)
    requires { at < length places.old.items }
    ensures links { links_of places.new.items ≡ links_of places.old.items }
    ensures entries { entries_of places.new.items ≡ slice_set (entries_of places.old.items) at entry }
{
    places[at].entry = entry;
}

// Lets a link lead to another place, or nowhere.
fn set_link(places: &mut Vec<Place>, link: usize, to: u32)
    requires { link < 2 * length places.old.items }
    ensures links { links_of places.new.items ≡ slice_set (links_of places.old.items) link (led_to to) }
    ensures entries { entries_of places.new.items ≡ entries_of places.old.items }
{
    let place = &mut places[link / 2];
    if link % 2 == 0 {
        place.low = to;
    } else {
        place.high = to;
    }
}

// Walks to a key by its bits. What a step asks of a place stands together in memory.
fn walk(tree: &KeyTree, key: u32) -> End
    requires { IsKeyTree (links_of tree.now.places.items) (entries_of tree.now.places.items) tree.now.free.items }
    ensures { IsEnd (links_of tree.now.places.items) (entries_of tree.now.places.items) key result }
{
    let mut led = Led { link: 0, at: 0 };
    let mut bits = key;
    for _step in 0..VISITED {
        let place = &tree.places[led.at];
        if is_of(&place.entry, key) {
            return End::Found(led);
        }
        let link = 2 * led.at + (bits % 2) as usize;
        let Some(next) = step_from(place, bits) else {
            return End::Missing(link);
        };
        led = Led {
            link,
            at: next as usize,
        };
        bits /= 2;
    }
    unreachable!()
}

// A place to which a link leads from that one.
fn next_below(places: &Vec<Place>, at: usize) -> Option<Led>
    requires within { at < length places.now.items }
    requires few { length places.now.items ≤ 2 ^ 31 }
    ensures { MatchOption result
        ((link_at (links_of places.now.items) (2 * at) ≡ None) × (link_at (links_of places.now.items) (2 * at + 1) ≡ None))
        (λ led. (2 * at ≤ led.link) × (led.link ≤ 2 * at + 1)
        × (link_at (links_of places.now.items) led.link ≡ Some led.at)) }
{
    let place = &places[at];
    let link = 2 * at;
    if let Some(next) = follow(place.low) {
        let at = next as usize;
        return Some(Led { link, at });
    }
    let link = link + 1;
    if let Some(next) = follow(place.high) {
        let at = next as usize;
        return Some(Led { link, at });
    }
    None
}

// A place below that one, or itself, from which no link leads on.
fn leaf_below(tree: &KeyTree, from: Led, key: u32) -> Led
    requires tree { IsKeyTree (links_of tree.now.places.items) (entries_of tree.now.places.items) tree.now.free.items }
    requires found { IsFound (links_of tree.now.places.items) (entries_of tree.now.places.items) key from }
    ensures { IsLeafBelow (links_of tree.now.places.items) (entries_of tree.now.places.items) from.at result }
{
    let mut led = from;
    for _step in 0..BITS {
        match next_below(&tree.places, led.at) {
            Some(next) => led = next,
            None => return led,
        }
    }
    unreachable!()
}

/// The number of a key, if the tree has it.
pub(crate) fn number_of(tree: &KeyTree, key: u32) -> Option<u32>
    requires { IsKeyTree (links_of tree.now.places.items) (entries_of tree.now.places.items) tree.now.free.items }
    ensures { MatchOption result (IsAbsent (entries_of tree.now.places.items) key) (λ number. (p : ℕ)
        × (entry_at (entries_of tree.now.places.items) p ≡ Some (numbered key number))) }
{
    match walk(tree, key) {
        End::Found(led) => match entry_of(&tree.places, led.at) {
            Some(numbered) => Some(numbered.number),
            None => None,
        },
        End::Missing(_) => None,
    }
}

/// Gives another number to a key that the tree has.
pub(crate) fn renumber(tree: &mut KeyTree, key: u32, number: u32)
    requires tree { IsKeyTree (links_of tree.old.places.items) (entries_of tree.old.places.items) tree.old.free.items }
    requires there { (p : ℕ) × HasKey key (entry_at (entries_of tree.old.places.items) p) }
    ensures tree { IsKeyTree (links_of tree.new.places.items) (entries_of tree.new.places.items) tree.new.free.items }
    ensures written { IsWritten key number (entries_of tree.old.places.items) (entries_of tree.new.places.items) }
    ensures free { (tree.new.free.items ≡ tree.old.free.items)
        × (vec_capacity tree.new.free ≡ vec_capacity tree.old.free) }
{
    match walk(tree, key) {
        End::Found(led) => set_entry(&mut tree.places, led.at, Some(Numbered { key, number })),
        End::Missing(_) => unreachable!(),
    }
}

/// Adds a key, with its number, at a free place.
pub(crate) fn put(tree: &mut KeyTree, key: u32, number: u32)
    requires tree { IsKeyTree (links_of tree.old.places.items) (entries_of tree.old.places.items) tree.old.free.items }
    requires absent { IsAbsent (entries_of tree.old.places.items) key }
    requires free { 0 < length tree.old.free.items }
    ensures tree { IsKeyTree (links_of tree.new.places.items) (entries_of tree.new.places.items) tree.new.free.items }
    ensures put { IsPut key number (entries_of tree.old.places.items) (entries_of tree.new.places.items) }
    ensures free { (length tree.new.free.items + 1 ≡ length tree.old.free.items)
        × (vec_capacity tree.new.free ≡ vec_capacity tree.old.free) }
{
    match walk(tree, key) {
        End::Found(_) => unreachable!(),
        End::Missing(link) => {
            if let Some(place) = tree.free.pop() {
                set_link(&mut tree.places, link, place);
                let entry = Numbered { key, number };
                set_entry(&mut tree.places, place as usize, Some(entry));
            }
        }
    }
}

/// Takes a key out. A key below its place moves there, from a place where the tree ends, which is then
/// free: so no walk to another key changes.
pub(crate) fn take_key(tree: &mut KeyTree, key: u32)
    requires tree { IsKeyTree (links_of tree.old.places.items) (entries_of tree.old.places.items) tree.old.free.items }
    requires there { (p : ℕ) × HasKey key (entry_at (entries_of tree.old.places.items) p) }
    requires room { length tree.old.free.items < vec_capacity tree.old.free }
    ensures tree { IsKeyTree (links_of tree.new.places.items) (entries_of tree.new.places.items) tree.new.free.items }
    ensures without { IsWithout key (entries_of tree.old.places.items) (entries_of tree.new.places.items) }
    ensures free { (length tree.new.free.items ≡ length tree.old.free.items + 1)
        × (vec_capacity tree.new.free ≡ vec_capacity tree.old.free) }
{
    match walk(tree, key) {
        End::Found(led) => {
            let leaf = leaf_below(tree, led, key);
            let moved = entry_of(&tree.places, leaf.at);
            set_entry(&mut tree.places, led.at, moved);
            set_entry(&mut tree.places, leaf.at, None);
            set_link(&mut tree.places, leaf.link, 0);
            tree.free.push_reserved(leaf.at as u32);
        }
        End::Missing(_) => unreachable!(),
    }
}
