// The links out of a node, and when each of them decides next by itself.
ghost use Rattle.std.specs.Prelude.{◌≡◌, ◌≤◌, ◌<◌, All, IfOk, Some, get_or, length, map};
ghost use Rattle.tva_base.specs.Plan.{links_of};
ghost use Rattle.tva_run.specs.Sites.{AreRising};
ghost use Rattle.tva_node.specs.Links.{AreNoKeys, IsFirstAsked, IsKey, IsRankOf, asked_by, first_link, is_asked, least_next, with_next};
ghost use Rattle.tva_node.specs.Pairs.{link_pair};

use std::alloc::{AllocError, Global};
use std::marker::Model;
use tva_base::LinkPlan;
use tva_index::Lowest;

// No time is so late.
const NEVER: u128 = 18_446_744_073_709_551_616;
// No node has more links.
const MOST: u128 = 65_536;

/// A link out of the node: its number, its plan, and when it decides next by itself, in nanoseconds,
/// if it does. While a time is worked, a link on which a packet was queued is to be asked at that time.
#[derive(Clone, Copy, Debug)]
pub struct Link {
    pub number: u16,
    pub plan: LinkPlan,
    pub next: Option<u64>,
}

/// Links by their numbers. The one that decides first is found by a tree of keys, so that a node with
/// many links doesn't look at all of them for each packet.
#[derive(Drop)]
pub(crate) struct Links {
    items: Vec<Link>,
    keys: Lowest<u128>,
}

impl Model for Links {
    ghost use Rattle.std.specs.Prelude.{List};
    ghost use Rattle.tva_node.specs.declared.links.Link.{Link};
    ghost use Rattle.tva_node.specs.Links.{AreKeys};

    ghost Value = { List Link };

    ghost view = { λ l. l.items.items };

    ghost invariant = { λ l. AreKeys l.keys l.items.items };
}

impl Links {
    /// The links out, none of which decides by itself yet. The error is want of memory.
    pub fn of(alloc: Global, links: &[(u16, LinkPlan)]) -> Result<Links, AllocError>
        requires { AreRising (links_of links.now) }
        ensures { IfOk result (λ v. v ≡ map first_link links.now) }
    {
        let items = first_links(alloc, links)?;
        let keys = first_keys(alloc, items.len())?;
        Ok(Links { items, keys })
    }

    /// How many there are.
    pub fn count(&self) -> usize
        ensures { result ≡ length self.now }
    {
        self.items.len()
    }

    /// The link in that place.
    pub fn at(&self, place: usize) -> Link
        requires { place < length self.now }
        ensures { result ≡ get_or self.now place result }
    {
        self.items[place]
    }

    /// When the first of them decides by itself, in nanoseconds, if one does.
    pub fn first(&self) -> Option<u64>
        ensures { result ≡ least_next self.now }
    {
        let place = self.keys.least()? as usize;
        self.items[place].next
    }

    /// The place of the first that is to be asked by a time: the soonest, and of those at one time the
    /// one in front.
    pub fn due(&self, now: u64) -> Option<usize>
        ensures { IsFirstAsked now self.now result }
    {
        let place = self.keys.least()? as usize;
        if is_asked(self.items[place].next, now) {
            Some(place)
        } else {
            None
        }
    }

    /// Notes when the link in that place decides next by itself.
    pub fn put(&mut self, place: usize, next: Option<u64>)
        requires { place < length self.old }
        ensures { (d : Link) → self.new ≡ with_next place next self.old d }
    {
        self.items[place].next = next;
        self.keys.put(place as u32, key_of(place, next));
    }

    /// Has the link on which a packet was queued asked at a time.
    pub fn ask(&mut self, queued: Option<u16>, now: u64)
        requires { AreRising (links_of (map link_pair self.old)) }
        ensures { self.new ≡ map (asked_by queued now) self.old }
    {
        let Some(number) = queued else {
            return;
        };
        let place = rank_of(&self.items, number);
        if place < self.items.len() && self.items[place].number == number {
            self.put(place, Some(now));
        }
    }
}

// Links none of which decides by itself yet.
fn first_links(alloc: Global, links: &[(u16, LinkPlan)]) -> Result<Vec<Link>, AllocError>
    ensures links { IfOk result (λ v. v.items ≡ map first_link links.now) }
    ensures small { IfOk result (λ v. All (λ l. l.number < 65536) v.items) }
{
    let mut out = Vec::with_capacity(alloc, links.len())?;
    for (number, plan) in links {
        out.push(Link {
            number: *number,
            plan: *plan,
            next: None,
        })?;
    }
    Ok(out)
}

// The keys of so many links, none of which decides by itself yet.
fn first_keys(alloc: Global, count: usize) -> Result<Lowest<u128>, AllocError>
    requires { count ≤ 65536 }
    ensures { IfOk result (AreNoKeys count) }
{
    let mut keys = Lowest::with_places(alloc, count as u32)?;
    for place in 0..count {
        keys.put(place as u32, key_of(place, None));
    }
    Ok(keys)
}

// The key of a link in that place by when it decides next: the lesser, the sooner, and at one time the
// further in front.
fn key_of(place: usize, next: Option<u64>) -> u128
    requires { place < 65536 }
    ensures { IsKey place next result }
{
    let time = match next {
        Some(time) => u128::from(time),
        None => NEVER,
    };
    time * MOST + place as u128
}

// How many of the links have lower numbers than that.
fn rank_of(links: &Vec<Link>, number: u16) -> usize
    requires { AreRising (links_of (map link_pair links.now.items)) }
    ensures { IsRankOf number links.now.items result }
{
    let mut low = 0;
    let mut high = links.len();
    while low < high {
        let middle = low + (high - low) / 2;
        if links[middle].number < number {
            low = middle + 1;
        } else {
            high = middle;
        }
    }
    low
}

// Whether a link is to be asked at a time: it decides by then.
fn is_asked(next: Option<u64>, now: u64) -> bool
    ensures { result ≡ is_asked next now }
{
    match next {
        Some(time) => time <= now,
        None => false,
    }
}
