// Fair queues as what sends in the turns of an outer key.
ghost use Rattle.std.specs.Prelude.{◌≤◌, [], refl};
ghost use Rattle.tva_drr.specs.Queues.{fair, head};
ghost use Rattle.tva_drr.specs.Offer.{put, lacks_queue, lacks_room, offer_answer, offer_leaves};
ghost use Rattle.tva_drr.specs.Take.{take_leaves};
ghost use Rattle.tva_drr.specs.Kept.{offered_kept, refused_same};

use crate::fair_queues::FairQueues;
use crate::measured::Measured;
use crate::offered::Offered;
use crate::source::Source;
use std::alloc::{AllocError, Global};
use tva_base::DrrLimits;

impl<T: Measured> Source for FairQueues<T> {
    type Item = T;

    ghost fresh = { λ l. fair l [] };

    ghost emptied = { λ f. fair f.limits [] };

    ghost next = { λ f. head f.queues };

    ghost popped = { λ f. take_leaves T.measure f };

    ghost may_put = { λ f inner item. (1 ≤ T.measure item) × (T.measure item ≤ f.limits.max) };

    ghost answer = { λ f inner item. offer_answer T.measure f inner item };

    ghost given = { λ f inner item. offer_leaves T.measure f inner item };

    fn made(alloc: Global, limits: DrrLimits) -> Result<Self, AllocError> {
        FairQueues::with_limits(alloc, limits)
    }

    fn next_length(&self) -> Option<u32> {
        self.head_length()
    }

    fn pop(&mut self) -> Option<T> {
        self.take()
    }

    fn put(&mut self, inner: u32, item: T) -> Offered<T> {
        self.offer(inner, item)
    }

    ghost fresh_is_empty = { λ l. refl };

    ghost popped_keeps = { λ f. refl };

    ghost given_keeps = { λ f inner item. offered_kept T.measure f inner item };

    ghost refused_stays = { λ f inner item n. refused_same T.measure f inner item n };
}
