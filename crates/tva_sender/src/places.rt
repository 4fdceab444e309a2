// Where peers stand, by their addresses.
ghost use Rattle.std.specs.Prelude.{◌≡◌, ℕ, ◌<◌, ◌≤◌, ◌-◌, List, ◌∷◌, [], ◌++◌, length, vec_capacity, OnOk, MatchOption};
ghost use Rattle.tva_sender.specs.Places.{Known, known, IsFirstAt, IsNowhere};
ghost use Rattle.tva_sender.specs.Tree.{IsTree, IsRecent, IsEnd, IsLed, leaf, branch, with_branch, addresses_of};

use std::alloc::{AllocError, Global};
use std::marker::Model;

/// How many places are remembered. Addresses whose lowest six bits are the same share one.
const RECENT: usize = 64;

/// An address, and the places to which its two branches lead.
#[derive(Clone, Copy, Debug)]
pub(crate) struct Node {
    pub address: u32,
    pub low: Option<usize>,
    pub high: Option<usize>,
}

/// How a walk by the bits of an address ends: at its place, or at a branch that leads nowhere.
#[derive(Clone, Copy, Debug)]
pub(crate) enum End {
    Found(usize),
    Missing { at: usize, high: bool },
}

/// An address that was found lately, and its place.
#[derive(Clone, Copy, Debug)]
pub(crate) struct Hint {
    pub address: u32,
    pub place: u32,
}

/// The places of addresses, in the order in which they were added. They are found by a tree that
/// branches by the bits of addresses, the lowest first, so a look-up costs a step for each bit at
/// most, whatever addresses senders choose. What was found lately is found again without a walk, which
/// waits for the memory of each node.
#[derive(Drop)]
pub(crate) struct Places {
    nodes: Vec<Node>,
    recent: [Option<Hint>; RECENT],
}

impl Model for Places {
    ghost use Rattle.std.specs.Prelude.{◌-◌, length, vec_capacity, All};
    ghost use Rattle.tva_sender.specs.{Places.Known, Places.known, Tree.IsTree, Tree.IsRecent, Tree.addresses_of};

    ghost Value = { Known };

    ghost view = { λ p. known (addresses_of p.nodes.items) (vec_capacity p.nodes - length p.nodes.items) };

    ghost invariant = { λ p. IsTree p.nodes.items × All (IsRecent (addresses_of p.nodes.items)) p.recent };
}

impl Node {
    fn branch(&self, high: bool) -> Option<usize>
        ensures { result ≡ branch high self.now }
    {
        if high { self.high } else { self.low }
    }

    // The same with that branch leading there.
    fn with_branch(&self, high: bool, to: usize) -> Node
        ensures { result ≡ with_branch self.now high to }
    {
        let node = *self;
        if high {
            return Node {
                address: node.address,
                low: node.low,
                high: Some(to),
            };
        }
        Node {
            address: node.address,
            low: Some(to),
            high: node.high,
        }
    }
}

impl Places {
    /// No addresses, and no room.
    pub fn new(alloc: Global) -> Places
        ensures { result ≡ known [] 0 }
    {
        Places {
            nodes: Vec::new(alloc),
            recent: [None; RECENT],
        }
    }

    /// Makes room for so many more addresses. The error is want of memory.
    pub fn reserve(&mut self, more: usize) -> Result<(), AllocError>
        ensures addresses { self.new.addresses ≡ self.old.addresses }
        ensures spare { self.old.spare ≤ self.new.spare }
        ensures ok { OnOk result (more ≤ self.new.spare) }
    {
        self.nodes.reserve(more)
    }

    /// The place of an address.
    pub fn find(&mut self, address: u32) -> Option<usize>
        ensures place { MatchOption result (IsNowhere address self.old.addresses) (λ at. IsFirstAt address self.old.addresses at) }
        ensures same { self.new ≡ self.old }
    {
        let slot = address as usize % RECENT;
        if let Some(hint) = self.recent[slot] {
            if hint.address == address {
                return Some(hint.place as usize);
            }
        }
        let place = find_in(&self.nodes, address)?;
        self.recent[slot] = hint_of(address, place);
        Some(place)
    }

    /// Adds an address that has no place.
    pub fn push(&mut self, address: u32)
        requires room { 0 < self.old.spare }
        requires nowhere { IsNowhere address self.old.addresses }
        ensures { self.new ≡ known (self.old.addresses ++ address ∷ []) (self.old.spare - 1) }
    {
        hang(&mut self.nodes, address);
    }
}

// What is remembered of an address and its place.
fn hint_of(address: u32, place: usize) -> Option<Hint>
    ensures { (addresses : List ℕ) → IsFirstAt address addresses place → IsRecent addresses result }
{
    match u32::try_from(place) {
        Ok(place) => Some(Hint { address, place }),
        Err(_) => None,
    }
}

fn find_in(nodes: &Vec<Node>, address: u32) -> Option<usize>
    requires { IsTree nodes.now.items }
    ensures { MatchOption result (IsNowhere address (addresses_of nodes.now.items)) (λ at. IsFirstAt address (addresses_of nodes.now.items) at) }
{
    if nodes.is_empty() {
        return None;
    }
    match walk(nodes, address) {
        End::Found(at) => Some(at),
        End::Missing { .. } => None,
    }
}

// Walks from the first place by the bits of an address.
fn walk(nodes: &Vec<Node>, address: u32) -> End
    requires tree { IsTree nodes.now.items }
    requires some { 0 < length nodes.now.items }
    ensures { IsEnd nodes.now.items address result }
{
    let mut at = 0;
    let mut bits = address;
    'steps: loop {
        let node = nodes[at];
        if node.address == address {
            return End::Found(at);
        }
        let high = bits % 2 == 1;
        let Some(next) = node.branch(high) else {
            return End::Missing { at, high };
        };
        at = next;
        bits /= 2;
    }
}

// Adds an address, at the branch at which the walk by its bits ends.
fn hang(nodes: &mut Vec<Node>, address: u32)
    requires tree { IsTree nodes.old.items }
    requires room { length nodes.old.items < vec_capacity nodes.old }
    requires nowhere { IsNowhere address (addresses_of nodes.old.items) }
    ensures tree { IsTree nodes.new.items }
    ensures addresses { addresses_of nodes.new.items ≡ addresses_of nodes.old.items ++ address ∷ [] }
    ensures capacity { vec_capacity nodes.new ≡ vec_capacity nodes.old }
{
    if nodes.is_empty() {
        nodes.push_reserved(leaf(address));
        return;
    }
    lead(nodes, address);
    nodes.push_reserved(leaf(address));
}

// Lets the branch at which the walk by the address ends lead to the place past the last.
fn lead(nodes: &mut Vec<Node>, address: u32)
    requires tree { IsTree nodes.old.items }
    requires some { 0 < length nodes.old.items }
    requires nowhere { IsNowhere address (addresses_of nodes.old.items) }
    ensures led { IsLed nodes.old.items address nodes.new.items }
    ensures capacity { vec_capacity nodes.new ≡ vec_capacity nodes.old }
{
    let place = nodes.len();
    match walk(nodes, address) {
        End::Found(_) => unreachable!(),
        End::Missing { at, high } => {
            let node = nodes[at];
            nodes[at] = node.with_branch(high, place);
        }
    }
}

// An address without branches.
fn leaf(address: u32) -> Node
    ensures { result ≡ leaf address }
{
    Node {
        address,
        low: None,
        high: None,
    }
}
