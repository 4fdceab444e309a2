// Places in buckets.
ghost use Rattle.std.specs.Prelude.{◌≡◌, ℕ, ◌<◌, None, Some, length, replicate, slice_set, IfOk};
ghost use Rattle.tva_index.specs.Buckets.{placed, home, IsLastBelow};

use crate::links::{Links, put_in, take_out, unlinked};
use std::alloc::{AllocError, Global};
use std::marker::Model;

/// Places, each in one bucket or in none: contracts see how many buckets there are, and the bucket of
/// each place. The places of a bucket are found from the last to the first: `last` and then `before`.
/// A look-up costs a step for each place of its bucket, and so does a change. All memory is taken when
/// it is made.
#[derive(Drop)]
pub struct Buckets {
    links: Links,
}

impl Model for Buckets {
    ghost use Rattle.std.specs.Prelude.{◌^◌, ◌<◌, length};
    ghost use Rattle.tva_index.specs.Buckets.{Placed, placed};
    ghost use Rattle.tva_index.specs.Links.{AreLinked};

    ghost Value = { Placed };

    ghost view = { λ a. placed (length a.links.last.items) a.links.homes.items };

    ghost invariant = { λ a. AreLinked a.links.last.items a.links.before.items a.links.homes.items
        × (length a.links.homes.items < 2 ^ 32) × (length a.links.last.items < 2 ^ 32) };
}

impl Buckets {
    /// So many places in no bucket, and so many buckets. The error is want of memory.
    pub fn with_places(alloc: Global, places: u32, buckets: u32) -> Result<Buckets, AllocError>
        ensures { IfOk result (λ v. v ≡ placed buckets (replicate places None)) }
    {
        let links = unlinked(alloc, places, buckets)?;
        Ok(Buckets { links })
    }

    /// The last place of a bucket.
    pub fn last(&self, bucket: u32) -> Option<u32>
        requires { bucket < self.now.count }
        ensures { IsLastBelow self.now.homes (length self.now.homes) bucket result }
    {
        self.links.last[bucket as usize].place()
    }

    /// The last place before this one in the bucket that it is in.
    pub fn before(&self, place: u32) -> Option<u32>
        requires { place < length self.now.homes }
        ensures { (b : ℕ) → home self.now.homes place ≡ Some b
            → IsLastBelow self.now.homes place b result }
    {
        self.links.before[place as usize].place()
    }

    /// Puts a place into a bucket, out of the one that it was in.
    pub fn put(&mut self, place: u32, bucket: u32)
        requires place { place < length self.old.homes }
        requires bucket { bucket < self.old.count }
        ensures { self.new ≡ placed self.old.count (slice_set self.old.homes place (Some bucket)) }
    {
        take_out(&mut self.links, place);
        put_in(&mut self.links, place, bucket);
    }

    /// Takes a place out of its bucket, if it is in one.
    pub fn take_out(&mut self, place: u32)
        requires { place < length self.old.homes }
        ensures { self.new ≡ placed self.old.count (slice_set self.old.homes place None) }
    {
        take_out(&mut self.links, place);
    }
}
