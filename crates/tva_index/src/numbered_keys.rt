// Keys in the order of a ring, with numbers by which their places are found.
ghost use Rattle.std.specs.Prelude.{◌≡◌, ◌^◌, ◌<◌, ◌≤◌, ◌↔◌, true, None, [], ◌∷◌, ◌++◌, length, take, drop, IfOk};
ghost use Rattle.tva_index.specs.KeyRing.{ring, place_in};

use crate::bits::{KeyTree, number_of, put, renumber, rooted, take_key};
use crate::fronts::take_front;
use std::alloc::{AllocError, Global};
use std::collections::VecDeque;
use std::marker::Model;

/// Different keys in the order of a ring: contracts see them from the front on, and how many there may
/// be. The place of a key is found by a tree of the keys' bits, in 32 steps at most, whatever keys
/// senders choose. Numbers go round in ring order: the front has the first, and a key that goes last
/// gets the number behind the last one's. So a turn numbers one key anew, and all others keep theirs.
/// All memory is taken when it is made.
#[derive(Drop)]
pub(crate) struct NumberedKeys {
    places: u32,
    first: u32,
    order: VecDeque<u32>,
    tree: KeyTree,
}

impl Model for NumberedKeys {
    ghost use Rattle.std.specs.Prelude.{◌≤◌, ◌^◌, vec_capacity};
    ghost use Rattle.std.specs.VecDeque.{deque_capacity};
    ghost use Rattle.tva_index.specs.KeyRing.{Ring, ring};
    ghost use Rattle.tva_index.specs.Bits.{links_of, entries_of};
    ghost use Rattle.tva_index.specs.Numbers.{AreNumbered};

    ghost Value = { Ring };

    ghost view = { λ a. ring a.places a.order.items };

    ghost invariant = { λ a.
        AreNumbered a.places a.first a.order.items (links_of a.tree.places.items) (entries_of a.tree.places.items) a.tree.free.items
        × (a.places ≤ deque_capacity a.order) × (a.places ≤ vec_capacity a.tree.free) };
}

impl NumberedKeys {
    /// No keys, and places for so many. The error is want of memory.
    pub fn with_places(alloc: Global, places: u32) -> Result<NumberedKeys, AllocError>
        requires { places ≤ 2 ^ 30 }
        ensures { IfOk result (λ v. v ≡ ring places []) }
    {
        let order = VecDeque::with_capacity(alloc, places as usize)?;
        let tree = rooted(alloc, places)?;
        Ok(NumberedKeys {
            places,
            first: 0,
            order,
            tree,
        })
    }

    /// Whether there is no key.
    pub fn is_empty(&self) -> bool
        ensures { (result ≡ true) ↔ (self.now.keys ≡ []) }
    {
        self.order.is_empty()
    }

    /// The place of a key, counted from the front.
    pub fn place(&self, key: u32) -> Option<usize>
        ensures { result ≡ place_in key self.now.keys }
    {
        match number_of(&self.tree, key) {
            Some(number) => Some(number.wrapping_sub(self.first) as usize),
            None => None,
        }
    }

    /// A key that isn't there goes last.
    pub fn push(&mut self, key: u32)
        requires new { place_in key self.old.keys ≡ None }
        requires room { length self.old.keys < self.old.places }
        ensures { self.new ≡ ring self.old.places (self.old.keys ++ key ∷ []) }
    {
        let number = self.first.wrapping_add(self.order.len() as u32);
        put(&mut self.tree, key, number);
        self.order.push_back_reserved(key);
    }

    /// The front leaves.
    pub fn leave(&mut self)
        ensures { self.new ≡ ring self.old.places (drop 1 self.old.keys) }
    {
        if let Some(key) = take_front(&mut self.order) {
            take_key(&mut self.tree, key);
            self.first = self.first.wrapping_add(1);
        }
    }

    /// The front goes last.
    pub fn turn(&mut self)
        ensures { self.new ≡ ring self.old.places (drop 1 self.old.keys ++ take 1 self.old.keys) }
    {
        if let Some(key) = self.order.pop_front() {
            self.first = self.first.wrapping_add(1);
            let number = self.first.wrapping_add(self.order.len() as u32);
            renumber(&mut self.tree, key, number);
            self.order.push_back_reserved(key);
        }
    }
}
