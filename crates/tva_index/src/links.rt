// The places of each bucket as a chain, from the last to the first.
ghost use Rattle.std.specs.Prelude.{◌≡◌, ℕ, ◌+◌, ◌^◌, ◌<◌, None, Some, length, replicate, slice_set, IfOk};
ghost use Rattle.std.specs.Option.{ForSome};
ghost use Rattle.tva_index.specs.Buckets.{home};
ghost use Rattle.tva_index.specs.Links.{AreLinked, IsFirstAbove, link_of, with_last, with_before};

use std::alloc::{AllocError, Global};
use std::marker::Model;

/// What a chain goes on to: a place, or nowhere. Its code is one more than the place, or 0, so that it
/// takes four bytes: a look-up waits for the memory of these.
#[derive(Clone, Copy)]
pub(crate) struct Step {
    code: u32,
}

const _: () = prove!(size_of::<Step>() <= 4);

impl Model for Step {
    ghost use Rattle.std.specs.Prelude.{ℕ, Option};
    ghost use Rattle.tva_index.specs.Links.{step_to, step_code};

    ghost Value = { Option ℕ };

    ghost view = { λ l. step_to l.code };

    ghost inverse = { λ o. record { code = step_code o } };
}

impl Step {
    /// Leads nowhere.
    pub fn nowhere() -> Step
        ensures { result ≡ None }
    {
        Step { code: 0 }
    }

    /// Leads to a place, or nowhere.
    pub fn to(place: Option<u32>) -> Step
        requires { ForSome place (λ p. p + 1 < 2 ^ 32) }
        ensures { result ≡ place }
    {
        match place {
            Some(place) => Step { code: place + 1 },
            None => Step { code: 0 },
        }
    }

    /// Where it leads.
    pub fn place(self) -> Option<u32>
        ensures { result ≡ self }
    {
        if self.code == 0 {
            None
        } else {
            Some(self.code - 1)
        }
    }
}

/// The last place of each bucket, and of each place the bucket that it is in and the place before it
/// there. Both chains and places are of fixed length.
#[derive(Drop)]
pub(crate) struct Links {
    pub last: Vec<Step>,
    pub before: Vec<Step>,
    pub homes: Vec<Step>,
}

// So many places that name none.
fn nowhere(alloc: Global, count: u32) -> Result<Vec<Step>, AllocError>
    ensures { IfOk result (λ v. v.items ≡ replicate count None) }
{
    let mut all = Vec::with_capacity(alloc, count as usize)?;
    all.resize(count as usize, Step::nowhere())?;
    Ok(all)
}

/// Places in no bucket.
pub(crate) fn unlinked(alloc: Global, places: u32, buckets: u32) -> Result<Links, AllocError>
    ensures linked { IfOk result (λ l. AreLinked l.last.items l.before.items l.homes.items) }
    ensures last { IfOk result (λ l. length l.last.items ≡ buckets) }
    ensures homes { IfOk result (λ l. l.homes.items ≡ replicate places None) }
{
    let last = nowhere(alloc, buckets)?;
    let before = nowhere(alloc, places)?;
    let homes = nowhere(alloc, places)?;
    Ok(Links {
        last,
        before,
        homes,
    })
}

/// The first place above this one in the bucket.
fn first_above(links: &Links, place: u32, bucket: u32) -> Option<u32>
    requires linked { AreLinked links.now.last.items links.now.before.items links.now.homes.items }
    requires bucket { bucket < length links.now.last.items }
    ensures { IsFirstAbove links.now.homes.items place bucket result }
{
    let mut above = None;
    let mut at = links.last[bucket as usize].place();
    while let Some(other) = at {
        if other <= place {
            return above;
        }
        above = Some(other);
        at = links.before[other as usize].place();
    }
    above
}

/// What the chain of a bucket goes on to below that place, or from its start.
fn link(links: &Links, above: Option<u32>, bucket: u32) -> Option<u32>
    requires bucket { bucket < length links.now.last.items }
    requires above { ForSome above (λ a. a < length links.now.before.items) }
    ensures { result ≡ link_of links.now.last.items links.now.before.items bucket above }
{
    match above {
        Some(place) => links.before[place as usize].place(),
        None => links.last[bucket as usize].place(),
    }
}

/// Lets the chain of a bucket go on to another place there.
fn set_link(links: &mut Links, above: Option<u32>, bucket: u32, to: Option<u32>)
    requires bucket { bucket < length links.old.last.items }
    requires above { ForSome above (λ a. a < length links.old.before.items) }
    requires to { ForSome to (λ p. p + 1 < 2 ^ 32) }
    ensures last { links.new.last.items ≡ with_last links.old.last.items bucket above to }
    ensures before { links.new.before.items ≡ with_before links.old.before.items above to }
    ensures homes { links.new.homes.items ≡ links.old.homes.items }
{
    match above {
        Some(place) => links.before[place as usize] = Step::to(to),
        None => links.last[bucket as usize] = Step::to(to),
    }
}

/// Takes a place out of its bucket.
pub(crate) fn take_out(links: &mut Links, place: u32)
    requires linked { AreLinked links.old.last.items links.old.before.items links.old.homes.items }
    requires few { length links.old.homes.items < 2 ^ 32 }
    requires place { place < length links.old.homes.items }
    ensures linked { AreLinked links.new.last.items links.new.before.items links.new.homes.items }
    ensures last { length links.new.last.items ≡ length links.old.last.items }
    ensures homes { links.new.homes.items ≡ slice_set links.old.homes.items place None }
{
    let Some(bucket) = links.homes[place as usize].place() else {
        return;
    };
    let above = first_above(links, place, bucket);
    let below = links.before[place as usize].place();
    set_link(links, above, bucket, below);
    links.homes[place as usize] = Step::nowhere();
}

/// Puts a place that is in no bucket into one.
pub(crate) fn put_in(links: &mut Links, place: u32, bucket: u32)
    requires linked { AreLinked links.old.last.items links.old.before.items links.old.homes.items }
    requires few { (length links.old.homes.items < 2 ^ 32) × (length links.old.last.items < 2 ^ 32) }
    requires place { place < length links.old.homes.items }
    requires free { home links.old.homes.items place ≡ None }
    requires bucket { bucket < length links.old.last.items }
    ensures linked { AreLinked links.new.last.items links.new.before.items links.new.homes.items }
    ensures last { length links.new.last.items ≡ length links.old.last.items }
    ensures homes { links.new.homes.items ≡ slice_set links.old.homes.items place (Some bucket) }
{
    let above = first_above(links, place, bucket);
    let below = link(links, above, bucket);
    links.before[place as usize] = Step::to(below);
    set_link(links, above, bucket, Some(place));
    links.homes[place as usize] = Step::to(Some(bucket));
}
