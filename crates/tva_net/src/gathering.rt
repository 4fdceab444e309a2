// What happened at nodes, put into one list.
ghost use Rattle.std.specs.Prelude.{◌≡◌, ℕ, ◌<◌, ◌++◌, All, None, IfOk, IfSome, OnOk, length, map, slice_index_or};
ghost use Rattle.std.specs.List.{AllZip};
ghost use Rattle.tva_run.specs.Joins.{IsJoin};
ghost use Rattle.tva_node.specs.States.{NodeState, Stands, news};
ghost use Rattle.tva_run.specs.Report.{event_node, event_time};
ghost use Rattle.tva_net.specs.Handing.{IsByTime, IsOnly, picked};
ghost use Rattle.tva_net.specs.Mail.{HandedOut};
ghost use Rattle.tva_net.specs.News.{of_place};
ghost use Rattle.tva_net.specs.Places.{ArePlaces, AreQuietElsewhere};

use std::alloc::{AllocError, Global};
use std::slice;
use tva_base::Event;
use tva_node::Node;

// Most windows have no more than so many events.
const ROOM: usize = 128;

/// What happened at the nodes and was not told yet: by time, at one time by node, and in the order of the node's log.
/// Only nodes in these places have such events. A node that alone has some, and need not keep them, hands them out as it
/// has them. The error is want of memory.
pub fn gather(alloc: Global, nodes: &mut [Node], places: &[usize]) -> Result<Vec<Event>, AllocError>
    requires places { ArePlaces (length nodes.old) places.now }
    requires others { AreQuietElsewhere nodes.old places.now }
    requires stand { All Stands nodes.old }
    requires numbers { (n : ℕ) (d : NodeState) → n < length nodes.old → (slice_index_or nodes.old n d).site.number ≡ n }
    ensures join { IfOk result (λ events. IsJoin event_time event_node (of_place news nodes.old) events.items) }
    ensures handed { AllZip HandedOut nodes.old nodes.new }
{
    match told_alone(nodes, places) {
        Some(events) => Ok(events),
        None => told_in_order(alloc, nodes, places),
    }
}

// The events, where one node alone has some, and need not keep them: then it hands them out as it has
// them, in the order of its log. Else nothing happens.
fn told_alone(nodes: &mut [Node], places: &[usize]) -> Option<Vec<Event>>
    requires within { All (λ place. place < length nodes.old) places.now }
    requires stand { All Stands nodes.old }
    ensures by { IfSome result (λ events. IsByTime (picked news nodes.old places.now) events.items) }
    ensures none { result ≡ None → nodes.new ≡ nodes.old }
    ensures handed { AllZip HandedOut nodes.old nodes.new }
{
    match only_place(nodes, places) {
        Some(place) => nodes[place].take_news(),
        None => None,
    }
}

// The place of the node that alone has such events; none where several have, or none has.
fn only_place(nodes: &[Node], places: &[usize]) -> Option<usize>
    requires { All (λ place. place < length nodes.now) places.now }
    ensures within { IfSome result (λ place. place < length nodes.now) }
    ensures only { IfSome result (IsOnly nodes.now places.now) }
{
    let mut only = None;
    for place in places {
        let count = nodes[*place].news().len();
        if count > 0 {
            match only {
                Some(_) => return None,
                None => only = Some(*place),
            }
        }
    }
    only
}

// The events of all these nodes, by their times. References to them are sorted, so that each is copied only once.
fn told_in_order(alloc: Global, nodes: &[Node], places: &[usize]) -> Result<Vec<Event>, AllocError>
    requires { All (λ place. place < length nodes.now) places.now }
    ensures { IfOk result (λ events. IsByTime (picked news nodes.now places.now) events.items) }
{
    let mut told = news_of(alloc, nodes, places)?;
    put_in_order(&mut told)?;
    copies_of(alloc, told.as_slice())
}

// References to the events, one node after another.
fn news_of<'a>(
    alloc: Global,
    nodes: &'a [Node],
    places: &[usize],
) -> Result<Vec<&'a Event>, AllocError>
    requires { All (λ place. place < length nodes.now) places.now }
    ensures { IfOk result (λ told. map (λ event. event.now) told.items ≡ picked news nodes.now places.now) }
{
    let mut told = Vec::with_capacity(alloc, ROOM)?;
    for place in places {
        push_news(&mut told, &nodes[*place])?;
    }
    Ok(told)
}

// Puts behind them what a node has not told yet.
fn push_news<'a>(told: &mut Vec<&'a Event>, node: &'a Node) -> Result<(), AllocError>
    ensures { OnOk result (map (λ event. event.now) told.new.items ≡ map (λ event. event.now) told.old.items ++ news node.now) }
{
    let more = node.news();
    for event in more {
        told.push(event)?;
    }
    Ok(())
}

// Puts events in the order of their times; those at one time stay in their order.
fn put_in_order(news: &mut Vec<&Event>) -> Result<(), AllocError>
    ensures { OnOk result (IsByTime (map (λ event. event.now) news.old.items) (map (λ event. event.now) news.new.items)) }
{
    news.sort_by_key(|event| event.time.0)?;
    Ok(())
}

// Copies of the events, each straight from its node's log.
fn copies_of(alloc: Global, news: &[&Event]) -> Result<Vec<Event>, AllocError>
    ensures { IfOk result (λ events. events.items ≡ map (λ event. event.now) news.now) }
{
    let mut events = Vec::with_capacity(alloc, news.len())?;
    for event in news {
        events.extend_from_slice(slice::from_ref(*event))?;
    }
    Ok(events)
}
