// A tree of numbers in a list: below each inner node stand two, of which it has the lesser number.
ghost use Rattle.std.specs.Prelude.{◌≡◌, ℕ, ◌+◌, ◌*◌, ◌^◌, ◌<◌, ◌≤◌, ◌==◌, List, length, drop, map, min, slice_index};
ghost use Rattle.tva_index.specs.Tree.{AreNodes, AreNodesBut};

use crate::number::Number;

/// Mends the inner nodes from that one to the root, after a number below it was written.
pub(crate) fn mend<N: Number>(nodes: &mut Vec<N>, places: usize, from: usize)
    requires size { (length nodes.old.items ≡ 2 * places) × (places < 2 ^ 32) }
    requires from { from < places }
    requires nodes { AreNodesBut places (map N.number nodes.old.items) from }
    ensures nodes { AreNodes places (map N.number nodes.new.items) }
    ensures size { length nodes.new.items ≡ 2 * places }
    ensures leaves { drop places (map N.number nodes.new.items) ≡ drop places (map N.number nodes.old.items) }
{
    let mut at = from;
    while at > 0 {
        let least = lesser(nodes[2 * at], nodes[2 * at + 1]);
        if is_same(nodes[at], least) {
            return;
        }
        nodes[at] = least;
        at /= 2;
    }
}

fn lesser<N: Number>(a: N, b: N) -> N
    ensures { N.number result ≡ min (N.number a) (N.number b) }
{
    if a.is_within(b) { a } else { b }
}

pub(crate) fn is_same<N: Number>(a: N, b: N) -> bool
    ensures { result ≡ (N.number a == N.number b) }
{
    a.is_within(b) && b.is_within(a)
}

/// The node below an inner one that has the lesser number.
fn lower<N: Number>(nodes: &Vec<N>, at: usize) -> usize
    requires { 2 * at + 1 < length nodes.now.items }
    ensures child { (2 * at ≤ result) × (result ≤ 2 * at + 1) }
    ensures least { (xs : List ℕ) → xs ≡ map N.number nodes.now.items
        → slice_index xs result ≡ min (slice_index xs (2 * at)) (slice_index xs (2 * at + 1)) }
{
    if nodes[2 * at].is_within(nodes[2 * at + 1]) {
        2 * at
    } else {
        2 * at + 1
    }
}

/// The leaf that has the root's number.
pub(crate) fn least_leaf<N: Number>(nodes: &Vec<N>, places: usize) -> usize
    requires size { (length nodes.now.items ≡ 2 * places) × (places < 2 ^ 32) }
    requires some { 0 < places }
    requires nodes { AreNodes places (map N.number nodes.now.items) }
    ensures leaf { (places ≤ result) × (result < 2 * places) }
    ensures least { slice_index (map N.number nodes.now.items) result
        ≡ slice_index (map N.number nodes.now.items) 1 }
{
    let mut at = 1;
    while at < places {
        at = lower(nodes, at);
    }
    at
}
