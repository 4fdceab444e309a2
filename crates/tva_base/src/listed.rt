// Lists that contracts see as lists.
ghost use Rattle.std.specs.Prelude.{◌≡◌, ◌<◌, ◌≤◌, ◌^◌, [], ◌∷◌, ◌++◌, length, slice_set, All};

use arrayvec::ArrayVec;
use std::marker::Model;

/// A list that contracts see as the list of its elements. It is made from a `Vec` and gives it
/// back, and takes no memory.
#[derive(Debug, Drop)]
pub struct Listed<T> {
    items: Vec<T>,
}

impl<T> Model for Listed<T> {
    ghost use Rattle.std.specs.Prelude.{List};
    ghost use Rattle.std.specs.Coded.{coded_list};

    ghost Value = { List T };

    ghost coded = { coded_list T.code };

    ghost view = { λ listed. listed.items.items };
}

impl<T> Listed<T> {
    pub fn new(items: Vec<T>) -> Self
        ensures { result ≡ items.items }
    {
        Listed { items }
    }

    pub fn into_vec(self) -> Vec<T>
        ensures { result.items ≡ self }
    {
        let Listed { items } = self;
        items
    }

    pub fn as_slice(&self) -> &[T]
        ensures { result.now ≡ self.now }
    {
        self.items.as_slice()
    }

    pub fn len(&self) -> usize
        ensures { result ≡ length self.now }
    {
        self.as_slice().len()
    }

    /// Puts another element at a place.
    pub fn set(&mut self, place: usize, item: T)
    where
        T: Drop,
        requires { place < length self.old }
        ensures { self.new ≡ slice_set self.old place item }
    {
        self.items[place] = item;
    }
}

/// The capabilities in a packet, at most 16. Contracts see them as a list.
#[derive(Debug, Drop)]
pub struct Caps(ArrayVec<u64, 16>);

impl Model for Caps {
    ghost use Rattle.std.specs.Prelude.{List, ℕ, ◌≤◌, ◌<◌, ◌^◌, length, All};

    ghost Value = { List ℕ };

    ghost view = { λ caps. caps.0.items };

    ghost invariant = { λ caps. (length caps.0.items ≤ 16) × All (λ cap. cap < 2 ^ 64) caps.0.items };
}

impl Caps {
    pub fn new() -> Caps
        ensures { result ≡ [] }
    {
        Caps(ArrayVec::new())
    }

    /// Puts a capability last.
    pub fn push(&mut self, cap: u64)
        requires { length self.old < 16 }
        ensures { self.new ≡ self.old ++ cap ∷ [] }
    {
        self.0.push(cap);
    }

    /// Puts another capability at a place.
    pub fn set(&mut self, place: usize, cap: u64)
        requires { place < length self.old }
        ensures { self.new ≡ slice_set self.old place cap }
    {
        self.0.as_mut_slice()[place] = cap;
    }

    pub fn as_slice(&self) -> &[u64]
        ensures items { result.now ≡ self.now }
        ensures few { length self.now ≤ 16 }
        ensures bits { All (λ cap. cap < 2 ^ 64) self.now }
    {
        self.0.as_slice()
    }

    /// The same capabilities once more.
    pub fn copied(&self) -> Caps
        ensures { result ≡ self.now }
    {
        let mut copy = Caps::new();
        for cap in self.as_slice() {
            copy.push(*cap);
        }
        copy
    }
}
