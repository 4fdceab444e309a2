// Pairs of a boot and a grant, with their sums.
ghost use Rattle.std.specs.Prelude.{◌≡◌, ◌+◌, ◌*◌, ◌<◌, ◌^◌, [], All, OnOk};
ghost use Rattle.tva_report.specs.Sums.{is_worse, same_pair, worst_of};
ghost use Rattle.tva_report.specs.Table.{IsPlaced, add_to};

use crate::sums::limit;
use std::alloc::{AllocError, Global};
use std::collections::BTreeMap;
use tva_base::Grant;

/// A boot of a router, from 0, and a grant that was charged in it.
#[derive(Clone, Copy, Debug, PartialEq, Eq, PartialOrd, Ord)]
pub struct Pair {
    pub boot: usize,
    pub grant: Grant,
}

/// The sum of each pair, in the order of their first charges, and where each pair stands.
#[derive(Drop)]
pub struct Table {
    places: BTreeMap<Pair, usize>,
    sums: Vec<(Pair, u64)>,
}

impl Table {
    pub fn new(alloc: Global) -> Table
        ensures placed { IsPlaced result }
        ensures nothing { result.sums.items ≡ [] }
    {
        Table {
            places: BTreeMap::new(alloc),
            sums: Vec::new(alloc),
        }
    }

    pub fn sums(&self) -> &[(Pair, u64)]
        ensures { result.now ≡ self.now.sums.items }
    {
        self.sums.as_slice()
    }

    /// So many bytes more for the pair.
    pub fn add(&mut self, pair: Pair, bytes: u32) -> Result<(), AllocError>
        requires placed { IsPlaced self.old }
        requires room { All (λ s. s.1 + bytes < 2 ^ 64) self.old.sums.items }
        ensures sums { OnOk result (self.new.sums.items ≡ add_to same_pair pair bytes self.old.sums.items) }
        ensures placed { OnOk result (IsPlaced self.new) }
    {
        match self.places.get(&pair).copied() {
            Some(place) => self.sums[place].1 += u64::from(bytes),
            None => {
                self.places.insert(pair, self.sums.len())?;
                self.sums.push((pair, u64::from(bytes)))?;
            }
        }
        Ok(())
    }
}

/// The pair whose sum is the greatest part of its limit, and among equals the first.
pub fn worst(sums: &[(Pair, u64)]) -> Option<(Pair, u64)>
    ensures { result ≡ worst_of sums.now }
{
    let (first, rest) = sums.split_first()?;
    let mut worst = *first;
    for sum in rest {
        if is_worse(*sum, worst) {
            worst = *sum;
        }
    }
    Some(worst)
}

fn is_worse(a: (Pair, u64), b: (Pair, u64)) -> bool
    ensures { result ≡ is_worse a b }
{
    product(b.1, limit(a.0.grant)) < product(a.1, limit(b.0.grant))
}

fn product(a: u64, b: u64) -> u128
    ensures { result ≡ a * b }
{
    u128::from(a) * u128::from(b)
}
