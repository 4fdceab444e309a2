// Sets made of the lists of a plan.
ghost use Rattle.std.specs.Prelude.{◌≡◌, IfOk};
ghost use Rattle.std.specs.List.{list_any};
ghost use Rattle.std.specs.BTreeMap.{is_at};

use std::alloc::{AllocError, Global};
use std::collections::BTreeSet;

/// The elements of the list, each once.
pub fn set_of<K: Ord + Copy>(alloc: Global, list: &[K]) -> Result<BTreeSet<K>, AllocError>
    ensures { IfOk result (λ set. (q : K) → list_any (is_at (K.cmp q)) set.keys ≡ list_any (is_at (K.cmp q)) list.now) }
{
    let mut set = BTreeSet::new(alloc);
    for element in list {
        set.insert(*element)?;
    }
    Ok(set)
}

/// Whether the set has an element of the list.
pub fn has_any<K: Ord>(set: &BTreeSet<K>, list: &[K]) -> bool
    ensures { result ≡ list_any (λ x. list_any (is_at (K.cmp x)) set.now.keys) list.now }
{
    list.iter().any(|x| set.contains(x))
}
