// When each node has work next, so that no node is asked where nothing happens.
ghost use Rattle.std.specs.Prelude.{◌≡◌, ◌<◌, ◌≤◌, All, None, IfOk, IfSome, length, slice_index_or};
ghost use Rattle.std.specs.List.{AllByRecursion};
ghost use Rattle.tva_node.specs.States.{NodeState, Stands};
ghost use Rattle.tva_net.specs.News.{HasNoneBefore, IsFirstTime};
ghost use Rattle.tva_net.specs.Handing.{IsFirstDue};
ghost use Rattle.tva_net.specs.Times.{AreNoted, HasWorkBefore, IsNotedAt, number_of};

use std::alloc::{AllocError, Global};
use tva_base::Time;
use tva_index::Lowest;
use tva_node::Node;

// A nanosecond past the greatest horizon.
const NEVER: u64 = 1_000_000_000_000_001;

/// The next times of the nodes. The error is want of memory.
pub fn times_of(alloc: Global, nodes: &[Node]) -> Result<Lowest<u64>, AllocError>
    requires { length nodes.now ≤ 1024 }
    ensures { IfOk result (λ times. AreNoted times nodes.now) }
{
    let mut times = Lowest::with_places(alloc, nodes.len() as u32)?;
    note_all(&mut times, nodes);
    Ok(times)
}

/// Notes when each of the nodes has work next.
pub fn note_all(times: &mut Lowest<u64>, nodes: &[Node])
    requires few { length nodes.now ≤ 1024 }
    requires count { length times.old ≡ length nodes.now }
    ensures { AreNoted times.new nodes.now }
{
    for place in 0..nodes.len() {
        note(times, nodes, place);
    }
}

/// Notes when the node in that place has work next.
pub fn note(times: &mut Lowest<u64>, nodes: &[Node], place: usize)
    requires few { length nodes.now ≤ 1024 }
    requires place { place < length nodes.now }
    requires count { length times.old ≡ length nodes.now }
    ensures { IsNotedAt place times.old times.new nodes.now }
{
    let next = nodes[place].next_time();
    times.put(place as u32, number_of(next));
}

// The number of a next time.
fn number_of(next: Option<Time>) -> u64
    ensures { result ≡ number_of next }
{
    match next {
        Some(time) => time.0,
        None => NEVER,
    }
}

/// The first time, in nanoseconds, at which one of the nodes has work up to its horizon.
pub fn first_time(times: &Lowest<u64>, nodes: &[Node]) -> Option<Time>
    requires noted { AreNoted times.now nodes.now }
    requires stand { AllByRecursion Stands nodes.now }
    ensures { IsFirstTime nodes.now result }
{
    match first_due(times, nodes) {
        Some((_, time)) => Some(time),
        None => None,
    }
}

/// The place of a node that has work before a time, in nanoseconds.
pub fn due_before(times: &Lowest<u64>, nodes: &[Node], until: Time) -> Option<usize>
    requires noted { AreNoted times.now nodes.now }
    requires stand { AllByRecursion Stands nodes.now }
    ensures within { IfSome result (λ place. place < length nodes.now) }
    ensures some { IfSome result (λ place. (d : NodeState) → HasWorkBefore until.0 (slice_index_or nodes.now place d)) }
    ensures none { result ≡ None → All (HasNoneBefore until.0) nodes.now }
{
    match first_due(times, nodes) {
        Some((place, time)) if time.0 < until.0 => Some(place),
        _ => None,
    }
}

// The place of a node that has work before all others, and when.
fn first_due(times: &Lowest<u64>, nodes: &[Node]) -> Option<(usize, Time)>
    requires noted { AreNoted times.now nodes.now }
    requires stand { AllByRecursion Stands nodes.now }
    ensures { IsFirstDue nodes.now result }
{
    let place = times.least()? as usize;
    let time = nodes[place].next_time()?;
    Some((place, time))
}
