// That nodes are worked at once, which no clause says: three by a call, and as many as there are processors, four at
// most, in the third window of a network.
ghost use Rattle.std.specs.Prelude.{IfOk};
ghost use Rattle.std.specs.List.{AllByRecursion};
ghost use Rattle.tva_node.specs.States.{Stands};

use super::calls::edge;
use super::network;
use std::alloc::{AllocError, Global};
use std::sync::atomic::{AtomicU64, Ordering};
use std::test::Fail;
use std::thread::{Threads, available_parallelism};
use tva_base::Time;
use tva_net::{Memory, Net, Window};
use tva_node::{Node, advance_all};
use tva_outside::{Gate, OpenGate};

const LIMIT: u64 = 100_000_000;

// Holds node 0 until another has started, and the others until node 0 has.
#[derive(Drop)]
struct Meeting {
    first: AtomicU64,
    others: AtomicU64,
    late: AtomicU64,
}

impl Gate for Meeting {
    fn at_start(&self, node: u16) {
        let (own, awaited) = match node {
            0 => (&self.first, &self.others),
            _ => (&self.others, &self.first),
        };
        own.fetch_add(1, Ordering::SeqCst);
        for _ in 0..LIMIT {
            if awaited.load(Ordering::SeqCst) != 0 {
                return;
            }
        }
        self.late.fetch_add(1, Ordering::SeqCst);
    }
}

// Three nodes.
fn edges(alloc: Global) -> Result<Vec<Node>, AllocError>
    ensures { IfOk result (λ nodes. AllByRecursion Stands nodes.items) }
{
    let mut nodes = Vec::with_capacity(alloc, 3)?;
    for number in 0..3 {
        nodes.push(edge(alloc, number)?)?;
    }
    Ok(nodes)
}

// Works them once, and tells how often they did not meet, and how often the first and the others were started.
fn meet<R: Threads + Sync>(
    rt: &R,
    gate: &Meeting,
    nodes: &mut [Node],
) -> Result<[u64; 3], AllocError>
    requires { AllByRecursion Stands nodes.old }
{
    advance_all(rt, gate, Time(10), nodes)?;
    Ok([
        gate.late.load(Ordering::SeqCst),
        gate.first.load(Ordering::SeqCst),
        gate.others.load(Ordering::SeqCst),
    ])
}

#[test]
fn nodes_are_worked_at_once(rt: HostRuntime) -> Result<(), Fail> {
    let gate = Meeting {
        first: AtomicU64::new(0),
        others: AtomicU64::new(0),
        late: AtomicU64::new(0),
    };
    let mut nodes = edges(rt.alloc())?;
    let counts = meet(&rt, &gate, nodes.as_mut_slice())?;
    assert_eq!(rt; counts, [0, 1, 2]);
    Ok(())
}

// Four routers, and three windows.
const FOUR: &str =
    "horizon_ns = 1000000000\nmax_events = 100000\n[[router]]\nname = \"R1\"\nmaster = \"000102030405060708090a0b0c0d0e0f101112131415161718191a1b1c1d1e1f\"\nslots = 1\n[[router]]\nname = \"R2\"\nmaster = \"000102030405060708090a0b0c0d0e0f101112131415161718191a1b1c1d1e1f\"\nslots = 1\n[[router]]\nname = \"R3\"\nmaster = \"000102030405060708090a0b0c0d0e0f101112131415161718191a1b1c1d1e1f\"\nslots = 1\n[[router]]\nname = \"R4\"\nmaster = \"000102030405060708090a0b0c0d0e0f101112131415161718191a1b1c1d1e1f\"\nslots = 1\n[[link]]\nfrom = \"R1\"\nto = \"R2\"\nns_per_byte = 10\ndelay_ns = 1000000\n";

// A row at each of them, for each window.
const ROWS: [&str; 3] = [
    "0,R1,raw,10.0.0.1,10.0.1.1,0,\n0,R2,raw,10.0.0.1,10.0.1.1,0,\n0,R3,raw,10.0.0.1,10.0.1.1,0,\n0,R4,raw,10.0.0.1,10.0.1.1,0,\n",
    "1000000,R1,raw,10.0.0.1,10.0.1.1,0,\n1000000,R2,raw,10.0.0.1,10.0.1.1,0,\n1000000,R3,raw,10.0.0.1,10.0.1.1,0,\n1000000,R4,raw,10.0.0.1,10.0.1.1,0,\n",
    "2000000,R1,raw,10.0.0.1,10.0.1.1,0,\n2000000,R2,raw,10.0.0.1,10.0.1.1,0,\n2000000,R3,raw,10.0.0.1,10.0.1.1,0,\n2000000,R4,raw,10.0.0.1,10.0.1.1,0,\n",
];

// So often they come: each window has more events than are worked on one thread.
const EACH: usize = 80;

fn four_trace(alloc: Global) -> Result<String, AllocError> {
    let mut text = String::from_str(alloc, "time,node,kind,src,dst,payload,shim\n")?;
    for rows in &ROWS {
        text.push_str(rows.repeat(alloc, EACH)?.as_str())?;
    }
    Ok(text)
}

// Holds each node until so many have started, or one was held too long. That is longer than above, since these
// are more.
#[derive(Drop)]
struct Crowd {
    wanted: u64,
    started: AtomicU64,
    late: AtomicU64,
}

impl Gate for Crowd {
    fn at_start(&self, _node: u16) {
        self.started.fetch_add(1, Ordering::SeqCst);
        for _ in 0..5 * LIMIT {
            let started = self.started.load(Ordering::SeqCst);
            if started >= self.wanted || self.late.load(Ordering::SeqCst) != 0 {
                return;
            }
        }
        self.late.fetch_add(1, Ordering::SeqCst);
    }
}

// How many events happen in the next window.
fn events_of<R: Threads + Sync, G: Gate>(
    rt: &R,
    alloc: Global,
    gate: &G,
    net: &mut Net,
) -> Result<usize, Fail> {
    match net.step_window(rt, alloc, gate) {
        Ok(Window::Events(events)) => Ok(events.len()),
        _ => Err(Fail::from("another window")),
    }
}

// As many nodes as may be worked at once, of four.
fn most_at_once<R: Threads>(rt: &R) -> u64 {
    match available_parallelism(rt) {
        Ok(count) => count.get().clamp(2, 4) as u64,
        Err(_) => 2,
    }
}

#[test]
fn as_many_nodes_as_processors_meet_in_the_third_window(rt: HostRuntime) -> Result<(), Fail> {
    let alloc = rt.alloc();
    let trace = four_trace(alloc)?;
    let mut net = network(alloc, FOUR, trace.as_str(), Memory::Nothing)?;
    let crowd = Crowd {
        wanted: most_at_once(&rt),
        started: AtomicU64::new(0),
        late: AtomicU64::new(0),
    };
    assert_eq!(rt; events_of(&rt, alloc, &OpenGate, &mut net)?, 320);
    assert_eq!(rt; events_of(&rt, alloc, &OpenGate, &mut net)?, 320);
    assert_eq!(rt; events_of(&rt, alloc, &crowd, &mut net)?, 320);
    assert_eq!(rt; crowd.started.load(Ordering::SeqCst), 4);
    assert_eq!(rt; crowd.late.load(Ordering::SeqCst), 0);
    Ok(())
}
