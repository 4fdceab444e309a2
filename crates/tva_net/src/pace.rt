// How the nodes are worked in a window: in parts at once, or one after another where little happens.
ghost use Rattle.std.specs.Prelude.{◌≤◌, All, IfOk, OnOk, length};
ghost use Rattle.std.specs.List.{AllByRecursion, AllZip};
ghost use Rattle.tva_node.specs.States.{Keeps, Stands};
ghost use Rattle.tva_net.specs.Times.{AreNoted};
ghost use Rattle.tva_net.specs.Work.{AreThrough, CanGoTo};

use crate::due::{all_places, work_due};
use crate::note_all;
use std::alloc::{AllocError, Global};
use std::thread::Threads;
use tva_base::Time;
use tva_index::Lowest;
use tva_node::{Node, work_parts};
use tva_outside::Gate;

// So many events take about as long on one thread as on four, with the start of these.
pub(crate) const HANDFUL: usize = 256;

/// The pace after one more window: as many events as it held, and no less than half of what it was
/// before; none stands for no window.
pub(crate) fn pace_after(pace: Option<usize>, events: usize) -> Option<usize> {
    match pace {
        Some(before) => Some(events.max(before / 2)),
        None => Some(events),
    }
}

/// Works the nodes before a time, in nanoseconds, and gives the places of those to which something
/// happened in it, and maybe more: in so many parts at once where there was no window or they held more
/// than a handful of events, and else one after another, only those that have work.
pub(crate) fn advance<R: Threads + Sync, G: Gate>(
    rt: &R,
    alloc: Global,
    gate: &G,
    parts: usize,
    pace: Option<usize>,
    times: &mut Lowest<u64>,
    until: Time,
    nodes: &mut [Node],
) -> Result<Vec<usize>, AllocError>
    requires few { length nodes.old ≤ 1024 }
    requires stand { AllByRecursion Stands nodes.old }
    requires reach { All (CanGoTo until.0) nodes.old }
    requires noted { AreNoted times.old nodes.old }
    ensures through { IfOk result (λ places. AreThrough until.0 nodes.old nodes.new places.items) }
    ensures noted { OnOk result (AreNoted times.new nodes.new) }
    ensures kept { AllZip Keeps nodes.old nodes.new }
{
    match pace {
        Some(events) if events <= HANDFUL => {
            tell_each(gate, nodes.len());
            work_due(alloc, times, until, nodes)
        }
        _ => work_all(rt, alloc, gate, parts, times, until, nodes),
    }
}

// The gate is told of each of so many nodes.
fn tell_each<G: Gate>(gate: &G, count: usize)
    requires { count ≤ 1024 }
{
    for number in 0..count {
        gate.at_start(number as u16);
    }
}

// Works all nodes in parts at once, and gives all their places.
fn work_all<R: Threads + Sync, G: Gate>(
    rt: &R,
    alloc: Global,
    gate: &G,
    parts: usize,
    times: &mut Lowest<u64>,
    until: Time,
    nodes: &mut [Node],
) -> Result<Vec<usize>, AllocError>
    requires few { length nodes.old ≤ 1024 }
    requires stand { AllByRecursion Stands nodes.old }
    requires reach { All (CanGoTo until.0) nodes.old }
    requires noted { AreNoted times.old nodes.old }
    ensures through { IfOk result (λ places. AreThrough until.0 nodes.old nodes.new places.items) }
    ensures noted { OnOk result (AreNoted times.new nodes.new) }
    ensures kept { AllZip Keeps nodes.old nodes.new }
{
    work_parts(rt, gate, until, nodes, parts)?;
    note_all(times, nodes);
    let places = all_places(alloc, nodes.len())?;
    Ok(places)
}
