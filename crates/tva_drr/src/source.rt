ghost use Rattle.std.specs.Prelude.{◌≡◌, ℕ, Option, IfOk, IsNone};
ghost use Rattle.std.specs.Option.{option_map};
ghost use Rattle.tva_base.specs.declared.limits.DrrLimits.{DrrLimits};
ghost use Rattle.tva_base.specs.Plan.{AreDrrLimits};
ghost use Rattle.tva_drr.specs.declared.offered.Offered.{Offered};
ghost use Rattle.tva_drr.specs.declared.offered.Offered.TheVariants.{Queued};

use crate::measured::Measured;
use crate::offered::Offered;
use std::alloc::{AllocError, Global};
use tva_base::DrrLimits;

/// What sends items in its turns: a ring of items, or fair queues of its own.
pub trait Source: Drop {
    type Item: Measured;

    /// The source that is made under these limits.
    ghost fresh: { DrrLimits → Self };

    /// The source without its items.
    ghost emptied: { Self → Self };

    /// The item that it sends next, and the source without it.
    ghost next: { Self → Option Self.Item };

    ghost popped: { Self → Self };

    /// Whether an item may be offered with an inner key, the answer, and the source with it.
    ghost may_put: { Self → ℕ → Self.Item → Type 0 };

    ghost answer: { Self → ℕ → Self.Item → Offered Self.Item };

    ghost given: { Self → ℕ → Self.Item → Self };

    /// A source without items.
    fn made(alloc: Global, limits: DrrLimits) -> Result<Self, AllocError>
        requires { AreDrrLimits limits }
        ensures { IfOk result (λ s. s ≡ fresh limits) };

    /// The length of the item that it sends next.
    fn next_length(&self) -> Option<u32>
        ensures value { result ≡ option_map Self.Item.measure (next self.now) }
        ensures none { IsNone result → self.now ≡ emptied self.now };

    /// Sends its next item.
    fn pop(&mut self) -> Option<Self::Item>
        ensures value { result ≡ next self.old }
        ensures left { self.new ≡ popped self.old };

    /// Takes an item, or hands it back and stays as it was.
    fn put(&mut self, inner: u32, item: Self::Item) -> Offered<Self::Item>
        requires { may_put self.old inner item }
        ensures answer { result ≡ answer self.old inner item }
        ensures left { self.new ≡ given self.old inner item };

    ghost fresh_is_empty: { (l : DrrLimits) → emptied (fresh l) ≡ fresh l };

    ghost popped_keeps: { (s : Self) → emptied (popped s) ≡ emptied s };

    ghost given_keeps: { (s : Self) (inner : ℕ) (item : Self.Item) → emptied (given s inner item) ≡ emptied s };

    ghost refused_stays: { (s : Self) (inner : ℕ) (item : Self.Item) → (answer s inner item ≡ Queued → ⊥)
        → given s inner item ≡ s };
}
