// The nodes that have work before a time are worked, and no other is looked at.
ghost use Rattle.std.specs.Prelude.{◌≡◌, ◌<◌, ◌≤◌, All, IfOk, OnOk, length, slice_index_or};
ghost use Rattle.std.specs.List.{AllByRecursion, AllZip};
ghost use Rattle.tva_node.specs.States.{Keeps, NodeState, Stands};
ghost use Rattle.tva_net.specs.Places.{Rises};
ghost use Rattle.tva_net.specs.Work.{AreAllPlaces, AreThrough, CanGoTo, IsPutAmong, IsWorkedAt};
ghost use Rattle.tva_net.specs.Times.{AreNoted};

use crate::{due_before, note};
use std::alloc::{AllocError, Global};
use tva_base::Time;
use tva_index::Lowest;
use tva_node::Node;

/// Works the nodes that have work before a time, in nanoseconds, one after another, and gives their
/// places in their order. The error is want of memory.
pub(crate) fn work_due(
    alloc: Global,
    times: &mut Lowest<u64>,
    until: Time,
    nodes: &mut [Node],
) -> Result<Vec<usize>, AllocError>
    requires few { length nodes.old ≤ 1024 }
    requires stand { AllByRecursion Stands nodes.old }
    requires reach { All (CanGoTo until.0) nodes.old }
    requires noted { AreNoted times.old nodes.old }
    ensures through { IfOk result (λ places. AreThrough until.0 nodes.old nodes.new places.items) }
    ensures noted { OnOk result (AreNoted times.new nodes.new) }
    ensures kept { AllZip Keeps nodes.old nodes.new }
{
    let mut places = Vec::new(alloc);
    while let Some(place) = due_before(times, nodes, until) {
        work_one(times, until, nodes, place)?;
        put_place(&mut places, place)?;
    }
    Ok(places)
}

// Works the node in that place, and notes when it has work next.
fn work_one(
    times: &mut Lowest<u64>,
    until: Time,
    nodes: &mut [Node],
    place: usize,
) -> Result<(), AllocError>
    requires few { length nodes.old ≤ 1024 }
    requires place { place < length nodes.old }
    requires stand { AllByRecursion Stands nodes.old }
    requires noted { AreNoted times.old nodes.old }
    ensures worked { OnOk result (IsWorkedAt until.0 place nodes.old nodes.new) }
    ensures noted { OnOk result (AreNoted times.new nodes.new) }
    ensures kept { AllZip Keeps nodes.old nodes.new }
{
    nodes[place].advance(until)?;
    note(times, nodes, place);
    Ok(())
}

// Puts a place where it belongs among places that rise.
fn put_place(places: &mut Vec<usize>, place: usize) -> Result<(), AllocError>
    requires { Rises places.old.items }
    ensures { OnOk result (IsPutAmong place places.old.items places.new.items) }
{
    match places.binary_search(&place) {
        Ok(_) => Ok(()),
        Err(at) => {
            places.insert(at, place)?;
            Ok(())
        }
    }
}

/// The places of so many nodes. The error is want of memory.
pub(crate) fn all_places(alloc: Global, count: usize) -> Result<Vec<usize>, AllocError>
    ensures { IfOk result (λ places. AreAllPlaces count places.items) }
{
    let mut places = Vec::with_capacity(alloc, count)?;
    for place in 0..count {
        places.push(place)?;
    }
    Ok(places)
}
