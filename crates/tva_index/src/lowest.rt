// Numbers at places, and the place of a least one.
ghost use Rattle.std.specs.Prelude.{◌≡◌, ◌<◌, ◌*◌, ◌^◌, length, replicate, slice_set, IfOk};
ghost use Rattle.tva_index.specs.Lowest.{IsLeastPlace};

use crate::number::Number;
use crate::tree::{is_same, least_leaf, mend};
use std::alloc::{AllocError, Global};
use std::marker::Model;

/// A number at each of some places, by default 0: contracts see the list of them. The place of a
/// least one is kept beside them, so it is found by a look. A write takes at most as many steps as the
/// places have binary digits, and mostly few: a step each for as long as the number is the least of
/// those beside it. One to the least place, whose number is then least no more, walks down the tree
/// once more. All memory is taken when it is made.
#[derive(Drop)]
pub struct Lowest<N: Number> {
    places: usize,
    first: usize,
    nodes: Vec<N>,
}

impl<N: Number> Model for Lowest<N> {
    ghost use Rattle.std.specs.Prelude.{◌≡◌, ◌*◌, ◌^◌, ◌<◌, ℕ, List, length, drop, map, Some};
    ghost use Rattle.tva_index.specs.Lowest.{IsLeastPlace};
    ghost use Rattle.tva_index.specs.Tree.{AreNodes};

    ghost Value = { List ℕ };

    ghost view = { λ a. drop a.places (map N.number a.nodes.items) };

    ghost invariant = { λ a. (length a.nodes.items ≡ 2 * a.places) × (a.places < 2 ^ 32)
        × AreNodes a.places (map N.number a.nodes.items)
        × (0 < a.places → IsLeastPlace (drop a.places (map N.number a.nodes.items)) (Some a.first)) };
}

impl<N: Number> Lowest<N> {
    /// A 0 at each of so many places. The error is want of memory.
    pub fn with_places(alloc: Global, places: u32) -> Result<Lowest<N>, AllocError>
        ensures { IfOk result (λ v. v ≡ replicate places 0) }
    {
        let places = places as usize;
        let mut nodes = Vec::with_capacity(alloc, 2 * places)?;
        nodes.resize(2 * places, N::zero())?;
        Ok(Lowest {
            places,
            first: 0,
            nodes,
        })
    }

    /// The place of a least number: none where there are no places.
    pub fn least(&self) -> Option<u32>
        ensures { IsLeastPlace self.now result }
    {
        if self.places == 0 {
            return None;
        }
        Some(self.first as u32)
    }

    /// Writes the number at a place.
    pub fn put(&mut self, place: u32, number: N)
        requires { place < length self.old }
        ensures { self.new ≡ slice_set self.old place (N.number number) }
    {
        let places = self.places;
        let place = place as usize;
        let leaf = places + place;
        self.nodes[leaf] = number;
        mend(&mut self.nodes, places, leaf / 2);
        // The root has a least number.
        if is_same(number, self.nodes[1]) {
            self.first = place;
        } else if place == self.first {
            self.first = least_leaf(&self.nodes, places) - places;
        }
    }
}
