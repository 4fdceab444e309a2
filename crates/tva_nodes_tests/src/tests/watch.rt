// That the gate is told of a node before the node is worked. No clause says it, and no answer shows it: time
// alone does. So in these windows much happens at one node, and the gate has to be told of that node in the
// first half of the time that the window takes. Where the machine is busy otherwise a window may be held up
// before its work begins, so each has many tries.
use super::network;
use std::alloc::{AllocError, Global};
use std::sync::atomic::{AtomicU64, Ordering};
use std::test::Fail;
use std::thread::Threads;
use std::time::{Clock, Instant};
use tva_net::{Memory, Net, Window};
use tva_outside::Gate;

const PLAN: &str =
    "horizon_ns = 1000000000000\nmax_events = 100000\n[[router]]\nname = \"R1\"\nmaster = \"000102030405060708090a0b0c0d0e0f101112131415161718191a1b1c1d1e1f\"\nslots = 8\n[[router]]\nname = \"R2\"\nmaster = \"000102030405060708090a0b0c0d0e0f101112131415161718191a1b1c1d1e1f\"\nslots = 8\n[[link]]\nfrom = \"R1\"\nto = \"R2\"\nns_per_byte = 10\ndelay_ns = 1000000\ntag = 1\n[[link]]\nfrom = \"R2\"\nto = \"R1\"\nns_per_byte = 10\ndelay_ns = 1000000\ntag = 1\n";

const TRIES: u64 = 100;

const MANY: usize = 4_000;

// When node 0 was told, in microseconds from a start.
#[derive(Drop)]
struct Watch<'a, C: Clock + Sync> {
    clock: &'a C,
    start: Instant,
    told: AtomicU64,
}

impl<C: Clock + Sync> Gate for Watch<'_, C> {
    fn at_start(&self, node: u16) {
        if node == 0 {
            let now = since(self.clock, self.start);
            self.told.store(now, Ordering::SeqCst);
        }
    }
}

// The microseconds since a start.
fn since(clock: &impl Clock, start: Instant) -> u64 {
    match start.elapsed(clock) {
        Ok(time) => time
            .as_secs()
            .saturating_mul(1_000_000)
            .saturating_add(u64::from(time.subsec_micros())),
        Err(_) => u64::MAX,
    }
}

// Rows at node 0 in one window, behind what comes first.
fn trace(alloc: Global, first: &str) -> Result<String, AllocError> {
    let mut text = String::new(alloc);
    text.push_str("time,node,kind,src,dst,payload,shim\n")?;
    text.push_str(first)?;
    let many = "1000000000,R1,list,10.0.0.1,10.0.1.1,0,00000000000a/1/10/0/R1@1\n";
    text.push_str(many.repeat(alloc, MANY)?.as_str())?;
    Ok(text)
}

// Works a window, in which so much happens, and tells whether node 0 was told in the first half of the time.
fn is_told_first<R: Threads + Clock + Sync>(
    rt: &R,
    alloc: Global,
    net: &mut Net,
    wanted: usize,
) -> Result<bool, Fail> {
    let watch = Watch {
        clock: rt,
        start: Instant::now(rt)?,
        told: AtomicU64::new(u64::MAX),
    };
    let answer = net.step_window(rt, alloc, &watch);
    let end = since(rt, watch.start);
    match answer {
        Ok(Window::Events(events)) if events.len() == wanted => {
            Ok(watch.told.load(Ordering::SeqCst) < end / 2)
        }
        _ => Err(Fail::from("another window")),
    }
}

// The first window is worked in parts, and one behind a small one isn't.
#[test]
fn the_gate_is_told_before_the_work(rt: HostRuntime) -> Result<(), Fail> {
    let alloc = rt.alloc();
    for (name, first) in [
        ("in parts", ""),
        ("quiet", "0,R1,raw,10.0.0.1,10.0.1.1,0,\n"),
    ] {
        let trace = trace(alloc, first)?;
        let mut told = false;
        for _ in 0..TRIES {
            let mut net = network(alloc, PLAN, trace.as_str(), Memory::All)?;
            if !first.is_empty() {
                is_told_first(&rt, alloc, &mut net, 1)?;
            }
            if is_told_first(&rt, alloc, &mut net, MANY)? {
                told = true;
                break;
            }
        }
        assert!(rt; told, "{name}");
    }
    Ok(())
}
