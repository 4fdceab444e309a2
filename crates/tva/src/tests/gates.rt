// Which files a command loads and in which order, which nodes the gate is told of, and that the parts of a network
// run at once.
ghost use Rattle.std.specs.Prelude.{Some};

use super::damage::replay;
use super::{shelf, words};
use crate::top::run;
use std::alloc::Global;
use std::sync::atomic::{AtomicU64, Ordering};
use std::test::Fail;
use tva_outside::{Gate, Loaded, MemoryShelf, MemorySink, Shelf};

// A shelf that notes each name that it is asked for, with a blank behind it.
#[derive(Drop)]
struct Noting {
    shelf: MemoryShelf,
    names: String,
}

impl Shelf for Noting {
    ghost held = { λ s. Some s.shelf.files };

    ghost gave = { λ s. s.shelf.gave };

    ghost faults = { λ s. s.shelf.faults };

    fn load(&mut self, alloc: Global, name: &str, max: u64) -> Loaded {
        // A name that finds no memory isn't noted, and fails the test.
        let _ = self.names.push_str(name);
        let _ = self.names.push_str(" ");
        self.shelf.load(alloc, name, max)
    }
}

const LIMIT: u64 = 100_000_000;

// Counts how often each of three nodes is told. It holds the first until another has started, and the others until
// the first has; `late` counts how often that took too long.
#[derive(Drop)]
struct Meeting {
    first: AtomicU64,
    second: AtomicU64,
    third: AtomicU64,
    late: AtomicU64,
}

impl Meeting {
    fn new() -> Meeting {
        Meeting {
            first: AtomicU64::new(0),
            second: AtomicU64::new(0),
            third: AtomicU64::new(0),
            late: AtomicU64::new(0),
        }
    }

    fn counts(&self) -> [u64; 4] {
        [
            self.first.load(Ordering::SeqCst),
            self.second.load(Ordering::SeqCst),
            self.third.load(Ordering::SeqCst),
            self.late.load(Ordering::SeqCst),
        ]
    }
}

impl Gate for Meeting {
    fn at_start(&self, node: u16) {
        let (own, one, other) = match node {
            0 => (&self.first, &self.second, &self.third),
            1 => (&self.second, &self.first, &self.first),
            _ => (&self.third, &self.first, &self.first),
        };
        own.fetch_add(1, Ordering::SeqCst);
        for _ in 0..LIMIT {
            if one.load(Ordering::SeqCst) != 0 || other.load(Ordering::SeqCst) != 0 {
                return;
            }
        }
        self.late.fetch_add(1, Ordering::SeqCst);
    }
}

// Words, the names that they load, and how often each node is told: once a window, and not where nothing is to
// come or a file is refused.
static LOADS: [(&str, &str, u64); 10] = [
    ("replay walk steps", "walk steps ", 10),
    ("replay walk header", "walk header ", 0),
    ("audit walk steps report", "walk steps report ", 10),
    ("audit walk walk report", "walk walk ", 0),
    ("replay steps walk", "steps ", 0),
    ("replay nothing steps", "nothing ", 0),
    ("check walk", "walk ", 0),
    ("gen 7 2 walk", "walk ", 0),
    ("shim 100600", "", 0),
    ("replay walk", "", 0),
];

#[test]
fn files_are_loaded_in_order_and_nodes_told(rt: HostRuntime) -> Result<(), Fail> {
    for (line, names, starts) in &LOADS {
        let (words, gate) = (words(&rt, line)?, Meeting::new());
        let mut noting = Noting {
            shelf: shelf(&rt)?,
            names: String::new(rt.alloc()),
        };
        let mut out = MemorySink::new(rt.alloc(), 4096);
        let _ = run(&rt, rt.alloc(), &words, &mut noting, &mut out, &gate);
        assert_eq!(rt; noting.names.as_str(), *names, "{line}");
        assert_eq!(rt; gate.counts(), [*starts, *starts, *starts, 0], "{line}");
    }
    Ok(())
}

// The router and the hosts of a walk are worked at once, each once in each of the ten windows.
#[test]
fn halves_run_at_once(rt: HostRuntime) -> Result<(), Fail> {
    let gate = Meeting::new();
    let mut out = MemorySink::new(rt.alloc(), 4096);
    assert_eq!(rt; replay(&rt, 0, &mut out, &gate)?, 0);
    assert_eq!(rt; gate.counts(), [10, 10, 10, 0]);
    Ok(())
}
