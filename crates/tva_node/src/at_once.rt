// All nodes, worked in parts at once, or one after another.
ghost use Rattle.std.specs.Prelude.{◌<◌, OnOk, length};
ghost use Rattle.std.specs.List.{AllByRecursion, AllZip};
ghost use Rattle.std.specs.Thread.{IsSync};
ghost use Rattle.tva_node.specs.States.{IsAdvanced, Keeps, Stands};

use crate::node::Node;
use std::alloc::AllocError;
use std::thread::{Threads, available_parallelism, join_mut};
use tva_base::Time;
use tva_outside::Gate;

/// Works each node before a time, in nanoseconds, and up to the horizon, in as many parts at once as
/// there are processors. The gate is told of each node before it is worked. Each node's log is that of
/// its inputs, whatever the others hold. After want of memory each log begins with what it held.
pub fn advance_all<R: Threads + Sync, G: Gate>(
    rt: &R,
    gate: &G,
    until: Time,
    nodes: &mut [Node],
) -> Result<(), AllocError>
    requires { AllByRecursion Stands nodes.old }
    ensures ok { OnOk result (AllZip (IsAdvanced until.0) nodes.old nodes.new) }
    ensures kept { AllZip Keeps nodes.old nodes.new }
{
    work_parts(rt, gate, until, nodes, processors(rt))
}

/// As many parts as there are processors, and two at least.
pub fn processors<R: Threads>(rt: &R) -> usize {
    match available_parallelism(rt) {
        Ok(count) => count.get().max(2),
        Err(_) => 2,
    }
}

/// The same in at most so many parts at once, of about the same load each. All threads are started from
/// this one, so that none waits for another to start it.
#[tactic(auto, using(crate::proofs::Zips::all_zip_parts, crate::proofs::Crosses::node_send))]
pub fn work_parts<R: Threads + Sync, G: Gate>(
    rt: &R,
    gate: &G,
    until: Time,
    nodes: &mut [Node],
    parts: usize,
) -> Result<(), AllocError>
    requires { AllByRecursion Stands nodes.old }
    ensures ok { OnOk result (AllZip (IsAdvanced until.0) nodes.old nodes.new) }
    ensures kept { AllZip Keeps nodes.old nodes.new }
{
    if parts <= 1 || nodes.len() <= 1 {
        return advance_each(gate, until, nodes);
    }
    let others = parts - 1;
    let (front, back) = nodes.split_at_mut(first_share(nodes, parts));
    let (first, rest) = join_mut(
        rt,
        &mut || -> Result<(), AllocError>
            requires { IsSync G.row × AllByRecursion Stands front.now }
            ensures ok { OnOk result (AllZip (IsAdvanced until.0) front.entry.now front.exit.now) }
            ensures kept { AllZip Keeps front.entry.now front.exit.now }
        { advance_each(gate, until, front) },
        &mut || -> Result<(), AllocError>
            requires { IsSync R.row × IsSync G.row × AllByRecursion Stands back.now }
            ensures ok { OnOk result (AllZip (IsAdvanced until.0) back.entry.now back.exit.now) }
            ensures kept { AllZip Keeps back.entry.now back.exit.now }
        { work_parts(rt, gate, until, back, others) },
    );
    first?;
    rest
}

// How many of the first nodes make one of so many parts of the load. A node is left on each side.
fn first_share(nodes: &[Node], parts: usize) -> usize
    requires some { 1 < parts }
    requires two { 1 < length nodes.now }
    ensures above { 0 < result }
    ensures below { result < length nodes.now }
{
    let share = load_of(nodes) / parts as u64;
    let mut load = nodes[0].load();
    for place in 1..nodes.len() - 1 {
        let more = nodes[place].load();
        if load.saturating_add(more / 2) >= share {
            return place;
        }
        load = load.saturating_add(more);
    }
    nodes.len() - 1
}

// The load of all nodes.
fn load_of(nodes: &[Node]) -> u64 {
    let mut load = 0u64;
    for node in nodes {
        load = load.saturating_add(node.load());
    }
    load
}

/// The same one node after another, on one thread: where little happens, starting threads would take
/// longer than the work.
pub fn advance_each<G: Gate>(gate: &G, until: Time, nodes: &mut [Node]) -> Result<(), AllocError>
    requires { AllByRecursion Stands nodes.old }
    ensures ok { OnOk result (AllZip (IsAdvanced until.0) nodes.old nodes.new) }
    ensures kept { AllZip Keeps nodes.old nodes.new }
{
    for place in 0..nodes.len() {
        let node = &mut nodes[place];
        gate.at_start(node.number());
        node.advance(until)?;
    }
    Ok(())
}
