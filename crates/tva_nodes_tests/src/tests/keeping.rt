// Networks of which memory keeps more or less: whatever it keeps, each window is the same.
use super::{STEPS, WALK, network};
use std::alloc::Global;
use std::sync::atomic::{AtomicU64, Ordering};
use std::test::Fail;
use std::thread::Threads;
use tva_net::{Memory, Net, NetError, Node, Window};
use tva_outside::Gate;
use tva_run::{Input, Sending};

// The walk's network with as many events as may be, and rows of a file of one segment and of ticks.
const FILES: &str =
    "time,node,kind,src,dst,payload,shim\n0,A,tick,,10.0.1.1,0,\n1000000,A,file,,10.0.1.1,100,100\n20000000,A,tick,,10.0.1.1,0,\n20000000,B,tick,,10.0.0.1,0,\n";

// How often nodes were told.
#[derive(Drop)]
struct Starts {
    all: AtomicU64,
}

impl Gate for Starts {
    fn at_start(&self, _node: u16) {
        self.all.fetch_add(1, Ordering::SeqCst);
    }
}

fn is_same(one: &Result<Window, NetError>, other: &Result<Window, NetError>) -> bool {
    match (one, other) {
        (Ok(Window::Events(one)), Ok(Window::Events(other))) => one.as_slice() == other.as_slice(),
        (Ok(Window::Ended), Ok(Window::Ended)) => true,
        (Err(one), Err(other)) => one == other,
        _ => false,
    }
}

// Works both to their end, at most a hundred windows, which must be the same. Tells the end.
fn work_both<R: Threads + Sync, G: Gate>(
    rt: &R,
    alloc: Global,
    gate: &G,
    one: &mut Net,
    other: &mut Net,
) -> Result<Option<NetError>, Fail> {
    for _ in 0..100 {
        let window = one.step_window(rt, alloc, gate);
        if !is_same(&window, &other.step_window(rt, alloc, gate)) {
            return Err(Fail::from("another window"));
        }
        match window {
            Ok(Window::Events(_)) => {}
            Ok(Window::Ended) => return Ok(None),
            Err(error) => return Ok(Some(error)),
        }
    }
    Err(Fail::from("no end"))
}

// How many events memory holds of the nodes, the times at which what they sent arrives, and those of what came to
// them, summed.
fn held(nodes: &[Node]) -> (usize, u64, u64) {
    let mut held = (0usize, 0u64, 0u64);
    for node in nodes {
        held.0 = held.0.saturating_add(node.log().len());
        held.1 = held.1.saturating_add(times_sent(node.outbox()));
        held.2 = held.2.saturating_add(times_taken(node.inbox()));
    }
    held
}

fn times_sent(sendings: &[Sending]) -> u64 {
    let mut times = 0u64;
    for sending in sendings {
        times = times.saturating_add(sending.arrive.0);
    }
    times
}

fn times_taken(inputs: &[Input]) -> u64 {
    let mut times = 0u64;
    for input in inputs {
        times = times.saturating_add(time_of(input));
    }
    times
}

fn time_of(input: &Input) -> u64 {
    match input {
        Input::FromTrace(row) => row.time.0,
        Input::Arrival { time, .. } => time.0,
    }
}

const PASSED: Option<NetError> = Some(NetError::EventLimit(17));

// Works both to their end and once more, and tells the end, how often their nodes were told, and the events given.
fn ends<R: Threads + Sync>(
    rt: &R,
    alloc: Global,
    one: &mut Net,
    other: &mut Net,
) -> Result<(Option<NetError>, u64, u64), Fail> {
    let gate = Starts {
        all: AtomicU64::new(0),
    };
    let end = work_both(rt, alloc, &gate, one, other)?;
    if end != work_both(rt, alloc, &gate, one, other)? || one.totals() != other.totals() {
        return Err(Fail::from("another end"));
    }
    Ok((end, gate.all.load(Ordering::SeqCst), one.totals().events))
}

// A trace, what is kept, how the network ends, how often the nodes of both are told, how many events are given, and
// what is held then.
const KEPT: [(
    &str,
    Memory,
    (Option<NetError>, u64, u64),
    (usize, u64, u64),
); 2] = [
    (
        STEPS,
        Memory::All,
        (PASSED, 60, 17),
        (18, 44_046_650, 54_046_650),
    ),
    (
        FILES,
        Memory::All,
        (None, 54, 16),
        (16, 27_019_780, 68_019_780),
    ),
];

#[test]
fn windows_are_the_same_whatever_is_kept(rt: HostRuntime) -> Result<(), Fail> {
    for (trace, keeps, end, kept) in &KEPT {
        let mut net = network(rt.alloc(), WALK, *trace, *keeps)?;
        let mut other = network(rt.alloc(), WALK, *trace, Memory::Nothing)?;
        let ended = ends(&rt, rt.alloc(), &mut net, &mut other)?;
        assert_eq!(rt; ended, *end);
        assert_eq!(rt; held(net.into_nodes().as_slice()), *kept);
        assert_eq!(rt; held(other.into_nodes().as_slice()), (0, 0, 0));
    }
    Ok(())
}
