// The nodes of a network at work.
ghost use Rattle.std.specs.Prelude.{◌≡◌, ◌+◌, List, [], All, IfOk, OnOk};
ghost use Rattle.std.specs.Option.{option_map};
ghost use Rattle.std.specs.List.{AllZip};
ghost use Rattle.tva_plan.specs.Valid.{IsConfig};
ghost use Rattle.tva_rows.specs.Valid.{AreTraceRows};
ghost use Rattle.tva_net.specs.Kept.{WorksFor, work_of};
ghost use Rattle.tva_net.specs.Nets.{GrowsFrom};
ghost use Rattle.tva_net.specs.Times.{AreNoted};
ghost use Rattle.tva_net.specs.Work.{AreWorked, CanBeWorked, CanWork, WorksOn, WorksUpTo};

use crate::building::first_nodes;
use crate::pace::{HANDFUL, advance, pace_after};
use crate::timing::window_length;
use crate::{first_time, gather, post_beside, times_of};
use std::alloc::{AllocError, Global};
use std::cmp;
use std::thread::Threads;
use tva_base::{Event, LinkPlan, Time};
use tva_index::Lowest;
use tva_node::{Flight, Memory, Node, processors};
use tva_outside::Gate;
use tva_plan::Config;
use tva_rows::PackedRows;

/// The horizon, the links, the length of a window in nanoseconds, the nodes, when each of them has
/// work next, the time before which nothing is left to be done, the pace of the windows so far, if there
/// was one, into how many parts the nodes are cut where they are worked at once, once that was asked, and
/// memory for what the nodes hand over.
#[derive(Drop)]
pub(crate) struct Works {
    pub horizon: Time,
    pub links: Vec<LinkPlan>,
    pub span: u64,
    pub nodes: Vec<Node>,
    pub times: Lowest<u64>,
    pub worked_to: u64,
    pub pace: Option<usize>,
    pub parts: Option<usize>,
    pub sent: Vec<Flight>,
}

impl Works {
    /// The nodes of a configuration with the rows of a trace, to which nothing happened yet, and of
    /// which memory keeps so much.
    pub fn build(
        alloc: Global,
        config: &Config,
        rows: PackedRows,
        keeps: Memory,
    ) -> Result<Works, AllocError>
        requires config { IsConfig config.now }
        requires rows { AreTraceRows config.now rows }
        ensures works { IfOk result (λ works. WorksFor config.now rows [] [] (work_of works)) }
        ensures noted { IfOk result (λ works. AreNoted works.times works.nodes.items) }
        ensures keeps { IfOk result (λ works. All (λ v. v.keeps ≡ keeps) works.nodes.items) }
    {
        let nodes = first_nodes(alloc, config, rows, keeps)?;
        let links = config.links.as_slice().to_vec(alloc)?;
        let times = times_of(alloc, nodes.as_slice())?;
        Ok(Works {
            horizon: config.horizon,
            span: window_length(config.horizon, links.as_slice()),
            links,
            nodes,
            times,
            worked_to: 0,
            pace: None,
            parts: None,
            sent: Vec::new(alloc),
        })
    }

    /// Works windows up to one in which something happens, and gives that, or all that are left; and
    /// does something else, beside the posting of the first of them, where that is much.
    pub fn next_events<R: Threads + Sync, G: Gate, F: FnMut() -> A + Send, A: Send>(
        &mut self,
        rt: &R,
        alloc: Global,
        gate: &G,
        other: &mut F,
    ) -> (Result<Option<Vec<Event>>, AllocError>, A)
        requires works { CanWork (work_of self.old) }
        requires noted { AreNoted self.old.times self.old.nodes.items }
        requires other { F.pre other.old }
        ensures works { IfOk result.0 (λ some. WorksUpTo (work_of self.old) (option_map (λ events. events.items) some) (work_of self.new)) }
        ensures noted { OnOk result.0 (AreNoted self.new.times self.new.nodes.items) }
        ensures kept { AllZip GrowsFrom self.old.nodes.items self.new.nodes.items }
        ensures other { F.step other.old result.1 other.new }
    {
        let (first, done) = self.work_next(rt, alloc, gate, other);
        match first {
            Ok(Some(events)) => {
                if events.is_empty() {
                    return (self.later_events(rt, alloc, gate), done);
                }
                (Ok(Some(events)), done)
            }
            Ok(None) => (Ok(None), done),
            Err(error) => (Err(error), done),
        }
    }

    // The same of further windows, with nothing else to be done.
    fn later_events<R: Threads + Sync, G: Gate>(
        &mut self,
        rt: &R,
        alloc: Global,
        gate: &G,
    ) -> Result<Option<Vec<Event>>, AllocError>
        requires works { CanWork (work_of self.old) }
        requires noted { AreNoted self.old.times self.old.nodes.items }
        ensures works { IfOk result (λ some. WorksUpTo (work_of self.old) (option_map (λ events. events.items) some) (work_of self.new)) }
        ensures noted { OnOk result (AreNoted self.new.times self.new.nodes.items) }
        ensures kept { AllZip GrowsFrom self.old.nodes.items self.new.nodes.items }
    {
        while let Some(events) = self.work_alone(rt, alloc, gate)? {
            if !events.is_empty() {
                return Ok(Some(events));
            }
        }
        Ok(None)
    }

    // Works the next window, if there is one, and gives what happens in it.
    fn work_alone<R: Threads + Sync, G: Gate>(
        &mut self,
        rt: &R,
        alloc: Global,
        gate: &G,
    ) -> Result<Option<Vec<Event>>, AllocError>
        requires works { CanWork (work_of self.old) }
        requires noted { AreNoted self.old.times self.old.nodes.items }
        ensures works { IfOk result (λ some. WorksOn (work_of self.old) (option_map (λ events. events.items) some) (work_of self.new)) }
        ensures noted { OnOk result (AreNoted self.new.times self.new.nodes.items) }
        ensures kept { AllZip GrowsFrom self.old.nodes.items self.new.nodes.items }
    {
        let (events, ()) = self.work_next(rt, alloc, gate, &mut || -> () {});
        events
    }

    // The same, and something else.
    fn work_next<R: Threads + Sync, G: Gate, F: FnMut() -> A + Send, A: Send>(
        &mut self,
        rt: &R,
        alloc: Global,
        gate: &G,
        other: &mut F,
    ) -> (Result<Option<Vec<Event>>, AllocError>, A)
        requires works { CanWork (work_of self.old) }
        requires noted { AreNoted self.old.times self.old.nodes.items }
        requires other { F.pre other.old }
        ensures works { IfOk result.0 (λ some. WorksOn (work_of self.old) (option_map (λ events. events.items) some) (work_of self.new)) }
        ensures noted { OnOk result.0 (AreNoted self.new.times self.new.nodes.items) }
        ensures kept { AllZip GrowsFrom self.old.nodes.items self.new.nodes.items }
        ensures other { F.step other.old result.1 other.new }
    {
        let Some(start) = first_time(&self.times, self.nodes.as_slice()) else {
            return (Ok(None), other());
        };
        let until = cmp::min(start.0 + self.span, self.horizon.0 + 1);
        let parts = parts_of(rt, self.parts);
        self.parts = Some(parts);
        let (worked, done) = work_nodes(
            rt,
            alloc,
            gate,
            parts,
            self.pace,
            Time(until),
            self.horizon,
            self.links.as_slice(),
            &mut self.times,
            &mut self.sent,
            self.nodes.as_mut_slice(),
            other,
        );
        match worked {
            Ok(events) => {
                self.pace = pace_after(self.pace, events.len());
                self.worked_to = until;
                (Ok(Some(events)), done)
            }
            Err(error) => (Err(error), done),
        }
    }
}

// Into how many parts the nodes are cut where they are worked at once: as many as there are processors,
// which is asked where it isn't known.
fn parts_of<R: Threads>(rt: &R, known: Option<usize>) -> usize {
    match known {
        Some(parts) => parts,
        None => processors(rt),
    }
}

// Works the nodes up to the end of a window, gives what they tell, and posts what they sent; and does
// something else, at once with the posting.
fn work_nodes<R: Threads + Sync, G: Gate, F: FnMut() -> A + Send, A: Send>(
    rt: &R,
    alloc: Global,
    gate: &G,
    parts: usize,
    pace: Option<usize>,
    until: Time,
    horizon: Time,
    links: &[LinkPlan],
    times: &mut Lowest<u64>,
    sent: &mut Vec<Flight>,
    nodes: &mut [Node],
    other: &mut F,
) -> (Result<Vec<Event>, AllocError>, A)
    requires works { CanBeWorked until.0 horizon.0 links.now nodes.old }
    requires noted { AreNoted times.old nodes.old }
    requires other { F.pre other.old }
    ensures worked { IfOk result.0 (λ list. AreWorked until.0 horizon.0 links.now nodes.old list.items nodes.new) }
    ensures noted { OnOk result.0 (AreNoted times.new nodes.new) }
    ensures kept { AllZip GrowsFrom nodes.old nodes.new }
    ensures other { F.step other.old result.1 other.new }
{
    let places = match advance(rt, alloc, gate, parts, pace, times, until, nodes) {
        Ok(places) => places,
        Err(error) => return (Err(error), other()),
    };
    let events = match gather(alloc, nodes, places.as_slice()) {
        Ok(events) => events,
        Err(error) => return (Err(error), other()),
    };
    let is_much = events.len() > HANDFUL;
    let (result, done) = post_beside(
        rt,
        nodes,
        times,
        horizon,
        links,
        places.as_slice(),
        sent,
        is_much,
        other,
    );
    match result {
        Ok(()) => (Ok(events), done),
        Err(error) => (Err(error), done),
    }
}
