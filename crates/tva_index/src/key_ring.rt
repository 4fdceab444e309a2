// Keys in the order of a ring, and the place of each.
ghost use Rattle.std.specs.Prelude.{◌≡◌, ◌^◌, ◌<◌, ◌≤◌, None, [], ◌∷◌, ◌++◌, length, take, drop, IfOk};
ghost use Rattle.tva_index.specs.KeyRing.{ring, place_in};

use crate::numbered_keys::NumberedKeys;
use std::alloc::{AllocError, Global};
use std::marker::Model;

/// Different keys in the order of a ring: contracts see them from the front on, and how many there may
/// be. A key that stands alone, as behind most tags, needs no number, so the tree by which the places of
/// several are found isn't read. It stands apart, and where there may be one key alone there is none. All
/// memory is taken when it is made.
#[derive(Drop)]
pub struct KeyRing {
    places: u32,
    alone: Option<u32>,
    several: Option<Box<NumberedKeys>>,
}

impl Model for KeyRing {
    ghost use Rattle.std.specs.Prelude.{◌≡◌, [], IfSome};
    ghost use Rattle.tva_index.specs.KeyRing.{Ring, ring};
    ghost use Rattle.tva_index.specs.Alone.{HasRoom, keys_of, several_in};

    ghost Value = { Ring };

    ghost view = { λ a. ring a.places (keys_of a.alone (several_in a.several)) };

    ghost invariant = { λ a. IfSome a.alone (λ key. several_in a.several ≡ []) × HasRoom a.places a.several };
}

impl KeyRing {
    /// No keys, and places for so many. The error is want of memory.
    pub fn with_places(alloc: Global, places: u32) -> Result<KeyRing, AllocError>
        requires { places ≤ 2 ^ 30 }
        ensures { IfOk result (λ v. v ≡ ring places []) }
    {
        let several = if places <= 1 {
            None
        } else {
            Some(Box::new(alloc, NumberedKeys::with_places(alloc, places)?)?)
        };
        Ok(KeyRing {
            places,
            alone: None,
            several,
        })
    }

    /// The place of a key, counted from the front.
    #[inline(always)]
    pub fn place(&self, key: u32) -> Option<usize>
        ensures { result ≡ place_in key self.now.keys }
    {
        match (self.alone, &self.several) {
            (Some(only), _) if only == key => Some(0),
            (None, Some(several)) => several.place(key),
            (_, _) => None,
        }
    }

    /// A key that isn't there goes last.
    #[inline(always)]
    pub fn push(&mut self, key: u32)
        requires new { place_in key self.old.keys ≡ None }
        requires room { length self.old.keys < self.old.places }
        ensures { self.new ≡ ring self.old.places (self.old.keys ++ key ∷ []) }
    {
        match &mut self.several {
            None => self.alone = Some(key),
            Some(several) => match self.alone {
                Some(only) => {
                    self.alone = None;
                    several.push(only);
                    several.push(key);
                }
                None => {
                    if several.is_empty() {
                        self.alone = Some(key);
                    } else {
                        several.push(key);
                    }
                }
            },
        }
    }

    /// The front leaves.
    #[inline(always)]
    pub fn leave(&mut self)
        ensures { self.new ≡ ring self.old.places (drop 1 self.old.keys) }
    {
        match (self.alone, &mut self.several) {
            (Some(_), _) => self.alone = None,
            (None, Some(several)) => several.leave(),
            (None, None) => {}
        }
    }

    /// The front goes last.
    #[inline(always)]
    pub fn turn(&mut self)
        ensures { self.new ≡ ring self.old.places (drop 1 self.old.keys ++ take 1 self.old.keys) }
    {
        match (self.alone, &mut self.several) {
            (None, Some(several)) => several.turn(),
            (_, _) => {}
        }
    }
}
