// The entries of a cache at their places.
ghost use Rattle.std.specs.Prelude.{◌≡◌, ℕ, ◌+◌, ◌*◌, ◌<◌, ◌≤◌, nat_lt, nat_le, [], ◌∷◌, ◌++◌, length, count_by, slice_index_or, slice_set, vec_capacity, None, Some, MatchOption, All, IfOk};
ghost use Rattle.tva_index.specs.Buckets.{home};
ghost use Rattle.tva_flow.specs.declared.kept.Entry.{Entry};
ghost use Rattle.tva_flow.specs.Places.{IsPlaceOf};
ghost use Rattle.tva_flow.specs.Index.{kept, AreNoLater};

use crate::hash::{HashKey, bucket_of};
use crate::kept::{Entry, is_live, is_same_flow};
use std::alloc::{AllocError, Global};
use std::marker::Model;
use tva_base::Flow;
use tva_index::{Buckets, Lowest};

/// Entries, of which there are at most as many as slots. Contracts see them in the order of their
/// places. A flow's place is found by its bucket, and that of an entry that has ended by a tree of
/// numbers. A place's number is at most the end of its entry: a renewal leaves it behind, and it is
/// brought up to the end only where an entry that has ended is looked for. All memory is taken when
/// they are made.
#[derive(Drop)]
pub(crate) struct Entries {
    slots: u32,
    key: HashKey,
    all: Vec<Entry>,
    places: Buckets,
    ends: Lowest<u64>,
}

impl Model for Entries {
    ghost use Rattle.std.specs.Prelude.{◌≤◌, vec_capacity};
    ghost use Rattle.tva_flow.specs.Index.{Kept, kept, AreIndexed};

    ghost Value = { Kept };

    ghost view = { λ a. kept a.slots a.key a.all.items };

    ghost invariant = { λ a. (a.slots ≤ 1000000) × (a.slots ≤ vec_capacity a.all)
        × AreIndexed a.slots a.key a.all.items a.places a.ends };
}

/// The place of the flow's entry, which stands in this bucket.
fn find_in(all: &Vec<Entry>, places: &Buckets, bucket: u32, flow: &Flow) -> Option<usize>
    requires bucket { bucket < places.now.count }
    requires found { (i : ℕ) (e : Entry) → i < length all.now.items → e ≡ slice_index_or all.now.items i e
        → e.grant.flow ≡ flow.now → home places.now.homes i ≡ Some bucket }
    requires within { (i b : ℕ) → home places.now.homes i ≡ Some b → i < length all.now.items }
    ensures { IsPlaceOf all.now.items flow.now result }
{
    let mut at = places.last(bucket);
    while let Some(place) = at {
        let entry = &all[place as usize];
        if is_same_flow(&entry.grant.flow, flow) {
            return Some(place as usize);
        }
        at = places.before(place);
    }
    None
}

/// Takes all entries away, from the last place on: so each stands first in its bucket when it is taken
/// out, and a step is paid for each entry and none for a slot.
fn take_all(all: &mut Vec<Entry>, places: &mut Buckets)
    requires few { (length all.old.items ≤ length places.old.homes) × (length all.old.items ≤ 1000000) }
    requires within { (i b : ℕ) → home places.old.homes i ≡ Some b → i < length all.old.items }
    ensures all { all.new.items ≡ [] }
    ensures room { vec_capacity all.new ≡ vec_capacity all.old }
    ensures free { (i b : ℕ) → home places.new.homes i ≡ Some b → ⊥ }
    ensures same { (places.new.count ≡ places.old.count)
        × (length places.new.homes ≡ length places.old.homes) }
{
    while all.pop().is_some() {
        places.take_out(all.len() as u32);
    }
}

/// The place of an entry that has ended. Where the entry at a least number lives, its number is brought up
/// to its end, and the next least one is looked at. Where the place is a least one still, no number is at
/// most that time, so all entries live. One call may bring up many numbers, yet each of them was left behind
/// by a packet that renewed its entry and wrote nothing here: so in the sum packets cost as they would if
/// each renewal wrote its number.
fn ended_in(all: &Vec<Entry>, ends: &mut Lowest<u64>, now: u64) -> Option<usize>
    requires size { (length ends.old ≡ length all.now.items) × (length all.now.items ≤ 1000000) }
    requires below { AreNoLater ends.old all.now.items }
    ensures size { length ends.new ≡ length ends.old }
    ensures below { AreNoLater ends.new all.now.items }
    ensures place { MatchOption result (All (λ e. now < e.end) all.now.items) (λ at.
        (at < length all.now.items)
        × ((e : Entry) → e ≡ slice_index_or all.now.items at e → e.end ≤ now)) }
{
    let mut first = ends.least()?;
    // A turn brings up a number that was behind, or all entries live: so one for each place and one more do.
    for _turn in 0..all.len() + 1 {
        let entry = &all[first as usize];
        if !is_live(entry, now) {
            return Some(first as usize);
        }
        ends.put(first, entry.end);
        let next = ends.least()?;
        if next == first {
            return None;
        }
        first = next;
    }
    None
}

impl Entries {
    /// No entries. The error is want of memory.
    pub fn with_slots(alloc: Global, slots: u32, key: HashKey) -> Result<Entries, AllocError>
        requires { slots ≤ 1000000 }
        ensures { IfOk result (λ v. v ≡ kept slots key []) }
    {
        let all = Vec::with_capacity(alloc, slots as usize)?;
        let places = Buckets::with_places(alloc, slots, 2 * slots + 1)?;
        let ends = Lowest::with_places(alloc, slots)?;
        Ok(Entries {
            slots,
            key,
            all,
            places,
            ends,
        })
    }

    pub fn slots(&self) -> u32
        ensures { result ≡ self.now.slots }
    {
        self.slots
    }

    pub fn key(&self) -> HashKey
        ensures { result ≡ self.now.key }
    {
        self.key
    }

    /// How many entries there are.
    pub fn len(&self) -> usize
        ensures { result ≡ length self.now.items }
    {
        self.all.len()
    }

    /// Whether there is no place for a further entry.
    pub fn is_full(&self) -> bool
        ensures { result ≡ nat_le self.now.slots (length self.now.items) }
    {
        self.slots as usize <= self.all.len()
    }

    /// The entry at a place.
    pub fn get(&self, at: usize) -> Entry
        requires { at < length self.now.items }
        ensures { result ≡ slice_index_or self.now.items at result }
    {
        self.all[at]
    }

    /// The place of the flow's entry.
    pub fn find(&self, flow: &Flow) -> Option<usize>
        ensures { IsPlaceOf self.now.items flow.now result }
    {
        let bucket = bucket_of(&self.key, 2 * self.slots + 1, flow);
        find_in(&self.all, &self.places, bucket, flow)
    }

    /// The place of an entry that has ended, where there are as many entries as slots.
    pub fn ended(&mut self, now: u64) -> Option<usize>
        requires { self.old.slots ≤ length self.old.items }
        ensures same { self.new ≡ self.old }
        ensures place { MatchOption result (All (λ e. now < e.end) self.old.items) (λ at.
            (at < length self.old.items)
            × ((e : Entry) → e ≡ slice_index_or self.old.items at e → e.end ≤ now)) }
    {
        ended_in(&self.all, &mut self.ends, now)
    }

    /// How many entries live.
    pub fn living(&self, now: u64) -> usize
        ensures { result ≡ count_by (λ e. nat_lt now e.end) self.now.items }
    {
        self.all.iter().filter(|entry| is_live(entry, now)).count()
    }

    /// Writes an entry of the same flow at a place, one that ends no earlier: so the number there may stay.
    pub fn rewrite(&mut self, at: usize, renewed: Entry)
        requires place { at < length self.old.items }
        requires flow { (e : Entry) → e ≡ slice_index_or self.old.items at e
            → e.grant.flow ≡ renewed.grant.flow }
        requires end { (e : Entry) → e ≡ slice_index_or self.old.items at e
            → e.end ≤ renewed.end }
        ensures { self.new ≡ kept self.old.slots self.old.key (slice_set self.old.items at renewed) }
    {
        self.all[at] = renewed;
    }

    /// Writes an entry of any flow at a place.
    pub fn replace(&mut self, at: usize, entry: Entry)
        requires { at < length self.old.items }
        ensures { self.new ≡ kept self.old.slots self.old.key (slice_set self.old.items at entry) }
    {
        let bucket = bucket_of(&self.key, 2 * self.slots + 1, &entry.grant.flow);
        self.all[at] = entry;
        self.places.put(at as u32, bucket);
        self.ends.put(at as u32, entry.end);
    }

    /// Adds an entry at a further place.
    pub fn push(&mut self, entry: Entry)
        requires { length self.old.items < self.old.slots }
        ensures { self.new ≡ kept self.old.slots self.old.key (self.old.items ++ entry ∷ []) }
    {
        let at = self.all.len() as u32;
        let bucket = bucket_of(&self.key, 2 * self.slots + 1, &entry.grant.flow);
        self.all.push_reserved(entry);
        self.places.put(at, bucket);
        self.ends.put(at, entry.end);
    }

    /// Takes all entries away, and finds those to come by that key. The numbers stay as they were: they are
    /// asked for where each place has an entry again, and an entry that is added writes its own.
    pub fn clear(&mut self, key: HashKey)
        ensures { self.new ≡ kept self.old.slots key [] }
    {
        take_all(&mut self.all, &mut self.places);
        self.key = key;
    }
}
