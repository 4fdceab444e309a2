// Turns over sources: a ring of keys and deficits in which each source sends what its turn allows. Plain
// queues have rings of items as their sources, and two-level queues have plain ones.
ghost use Rattle.std.specs.Prelude.{◌≡◌, ℕ, ◌+◌, ◌-◌, ◌^◌, ◌<◌, ◌≤◌, ◌==◌, if◌then◌else◌, [], ◌∷◌, ◌++◌, None, length, map, take, drop, set, slice_get, slice_index_or, vec_capacity, All, IfOk};
ghost use Rattle.std.specs.Option.{ForSome, option_map, option_map_or};
ghost use Rattle.std.specs.VecDeque.{deque_capacity};
ghost use Rattle.tva_base.specs.Plan.{AreDrrLimits};
ghost use Rattle.tva_drr.specs.declared.served.Served.{Served};
ghost use Rattle.tva_drr.specs.declared.offered.Offered.TheVariants.{Queued};
ghost use Rattle.tva_drr.specs.Sources.{served, turns_over, turn_keys, turns_refilled, turns_settled, turns_popped, front_next};
ghost use Rattle.tva_index.specs.KeyRing.{place_in};

use crate::measured::Measured;
use crate::offered::Offered;
use crate::served::Served;
use crate::source::Source;
use std::alloc::{AllocError, Global};
use std::collections::VecDeque;
use std::marker::Model;
use tva_base::DrrLimits;
use tva_index::{KeyRing, take_front};

/// Turns in ring order, the front first, and the sources that are kept for new keys. All memory is taken
/// when they are made.
#[derive(Drop)]
pub struct Turns<S: Source> {
    limits: DrrLimits,
    waiting: VecDeque<Served<S>>,
    spare: Vec<S>,
    keys: KeyRing,
}

impl<S: Source> Model for Turns<S> {
    ghost use Rattle.std.specs.Prelude.{◌≡◌, ◌+◌, ◌≤◌, length, vec_capacity, All};
    ghost use Rattle.std.specs.VecDeque.{deque_capacity};
    ghost use Rattle.tva_drr.specs.Sources.{TurnsOver, turns_over, turns_code, turn_keys};

    ghost Value = { TurnsOver S };

    ghost coded = { turns_code S.code };

    ghost view = { λ a. turns_over a.limits a.keys.places a.waiting.items };

    ghost invariant = { λ a. (a.keys.keys ≡ turn_keys a.waiting.items)
        × (length a.waiting.items + length a.spare.items ≡ a.keys.places)
        × All (λ s. s ≡ S.fresh a.limits) a.spare.items
        × All (λ t. S.emptied t.source ≡ S.fresh a.limits) a.waiting.items
        × (a.keys.places ≤ deque_capacity a.waiting)
        × (a.keys.places ≤ vec_capacity a.spare) };
}

/// So many sources without items.
fn sources<S: Source>(alloc: Global, count: u32, limits: DrrLimits) -> Result<Vec<S>, AllocError>
    requires { AreDrrLimits limits }
    ensures count { IfOk result (λ all. length all.items ≡ count) }
    ensures capacity { IfOk result (λ all. count ≤ vec_capacity all) }
    ensures fresh { IfOk result (λ all. All (λ s. s ≡ S.fresh limits) all.items) }
{
    let mut all = Vec::with_capacity(alloc, count as usize)?;
    for _i in 0..count {
        all.push(S::made(alloc, limits)?)?;
    }
    Ok(all)
}

/// The turn that now stands at the front gets the quantum.
fn refill<S: Source>(waiting: &mut VecDeque<Served<S>>, quantum: u32)
    requires { ForSome (slice_get waiting.old.items 0) (λ t. t.deficit + quantum < 2 ^ 32) }
    ensures left { waiting.new.items ≡ turns_refilled quantum waiting.old.items }
    ensures same { deque_capacity waiting.new ≡ deque_capacity waiting.old }
{
    if !waiting.is_empty() {
        waiting[0].deficit += quantum;
    }
}

/// The deficit of a new turn: the quantum where it stands at the front.
fn first_deficit<S: Source>(waiting: &VecDeque<Served<S>>, quantum: u32) -> u32
    ensures { result ≡ (if length waiting.now.items == 0 then quantum else 0) }
{
    if waiting.is_empty() { quantum } else { 0 }
}

/// The front leaves, and its source is kept for a new key.
fn leave<S: Source>(waiting: &mut VecDeque<Served<S>>, spare: &mut Vec<S>)
    requires capacity { length spare.old.items < vec_capacity spare.old }
    ensures waiting { waiting.new.items ≡ drop 1 waiting.old.items }
    ensures spare { spare.new.items ≡ spare.old.items ++ map (λ t. t.source) (take 1 waiting.old.items) }
    ensures same { (deque_capacity waiting.new ≡ deque_capacity waiting.old)
        × (vec_capacity spare.new ≡ vec_capacity spare.old) }
{
    if let Some(turn) = take_front(waiting) {
        spare.push_reserved(turn.source);
    }
}

impl<S: Source> Turns<S> {
    /// No turns yet, and sources under these limits for so many keys.
    pub fn with_places(alloc: Global, places: u32, limits: DrrLimits) -> Result<Self, AllocError>
        requires places { places ≤ 2 ^ 30 }
        requires limits { AreDrrLimits limits }
        ensures { IfOk result (λ r. r ≡ turns_over limits places []) }
    {
        let waiting = VecDeque::with_capacity(alloc, places as usize)?;
        let spare = sources(alloc, places, limits)?;
        let keys = KeyRing::with_places(alloc, places)?;
        Ok(Turns {
            limits,
            waiting,
            spare,
            keys,
        })
    }

    /// The limits with which the sources were made.
    pub fn limits(&self) -> &DrrLimits
        ensures { result.now ≡ self.now.limits }
    {
        &self.limits
    }

    /// How many turns there are.
    pub fn len(&self) -> usize
        ensures { result ≡ length self.now.turns }
    {
        self.waiting.len()
    }

    /// The place of the key's turn.
    pub fn place(&self, key: u32) -> Option<usize>
        ensures { result ≡ place_in key (turn_keys self.now.turns) }
    {
        self.keys.place(key)
    }

    /// The turn at a place.
    pub fn turn(&self, at: usize) -> &Served<S>
        requires { at < length self.now.turns }
        ensures { result.now ≡ slice_index_or self.now.turns at result.now }
    {
        &self.waiting[at]
    }

    /// The length of what the front sends next, and none where there are no turns.
    pub fn next_length(&self) -> Option<u32>
        ensures { result ≡ option_map S.Item.measure (front_next S.next self.now.turns) }
    {
        if self.waiting.is_empty() {
            None
        } else {
            self.waiting[0].source.next_length()
        }
    }

    /// Takes what the front sends next, which its deficit covers.
    #[inline(always)]
    pub fn pop(&mut self) -> Option<S::Item>
        requires { ForSome (slice_get self.old.turns 0) (λ t. option_map_or S.Item.measure (S.next t.source) 0 ≤ t.deficit) }
        ensures value { result ≡ front_next S.next self.old.turns }
        ensures left { self.new ≡ turns_over self.old.limits self.old.places
            (turns_popped (λ s. option_map_or S.Item.measure (S.next s) 0) S.popped self.old.turns) }
    {
        if self.waiting.is_empty() {
            return None;
        }
        let item = self.waiting[0].source.pop()?;
        self.waiting[0].deficit -= item.length();
        Some(item)
    }

    /// Keeps a front that can send its next item, and else gives the turn to the next key. A turn moves
    /// one source and its key, however many wait.
    pub fn settle(&mut self)
        requires { All (λ t. t.deficit + self.old.limits.quantum < 2 ^ 32) self.old.turns }
        ensures { self.new ≡ turns_over self.old.limits self.old.places
            (turns_settled (λ s. option_map S.Item.measure (S.next s)) self.old.limits.quantum self.old.turns) }
    {
        let quantum = self.limits.quantum;
        if self.waiting.is_empty() {
            return;
        }
        match self.waiting[0].source.next_length() {
            None => {
                leave(&mut self.waiting, &mut self.spare);
                self.keys.leave();
                refill(&mut self.waiting, quantum);
            }
            Some(length) => {
                if self.waiting[0].deficit < length {
                    self.waiting.rotate_left(1);
                    self.keys.turn();
                    refill(&mut self.waiting, quantum);
                }
            }
        }
    }

    /// Offers an item to the source at a place.
    #[inline(always)]
    pub fn put_at(&mut self, at: usize, inner: u32, item: S::Item) -> Offered<S::Item>
        requires at { at < length self.old.turns }
        requires may { (t : Served S) → t ≡ slice_index_or self.old.turns at t
            → S.emptied t.source ≡ S.fresh self.old.limits → S.may_put t.source inner item }
        ensures { (t : Served S) × (t ≡ slice_index_or self.old.turns at t) × (result ≡ S.answer t.source inner item)
            × (self.new ≡ turns_over self.old.limits self.old.places
            (set self.old.turns at (served t.key t.deficit (S.given t.source inner item)))) }
    {
        self.waiting[at].source.put(inner, item)
    }

    /// Offers an item to a source without items under a new key, whose turn comes last where the item is
    /// queued: with the quantum where it is the first, else with none.
    #[inline(always)]
    pub fn put_new(&mut self, key: u32, inner: u32, item: S::Item) -> Offered<S::Item>
        requires new { place_in key (turn_keys self.old.turns) ≡ None }
        requires room { length self.old.turns < self.old.places }
        requires may { S.may_put (S.fresh self.old.limits) inner item }
        ensures answer { result ≡ S.answer (S.fresh self.old.limits) inner item }
        ensures queued { result ≡ Queued → self.new ≡ turns_over self.old.limits self.old.places
            (self.old.turns ++ served key (if length self.old.turns == 0 then self.old.limits.quantum else 0)
            (S.given (S.fresh self.old.limits) inner item) ∷ []) }
        ensures refused { (result ≡ Queued → ⊥) → self.new ≡ self.old }
        ensures same { (self.new.limits ≡ self.old.limits) × (self.new.places ≡ self.old.places) }
    {
        let deficit = first_deficit(&self.waiting, self.limits.quantum);
        match self.spare.pop() {
            None => Offered::NoQueue(item),
            Some(mut source) => match source.put(inner, item) {
                Offered::Queued => {
                    self.waiting.push_back_reserved(Served {
                        key,
                        deficit,
                        source,
                    });
                    self.keys.push(key);
                    Offered::Queued
                }
                Offered::NoQueue(item) => {
                    self.spare.push_reserved(source);
                    Offered::NoQueue(item)
                }
                Offered::QueueFull(item) => {
                    self.spare.push_reserved(source);
                    Offered::QueueFull(item)
                }
            },
        }
    }
}
