// What is answered and written where loads and writes fail and memory is wanting: a replay over files and a
// sink in memory.
use super::{REPORT, shelf, words};
use crate::top::run;
use std::alloc::AllocError;
use std::test::Fail;
use std::thread::Threads;
use tva_outside::{Gate, MemorySink, OpenGate};

// The number of the status of a replay whose writes go to `out`, over a shelf at which the load with that
// number fails (0: none).
pub fn replay<R: Threads + Sync + AllocGlobal, G: Gate>(
    rt: &R,
    load: u32,
    out: &mut MemorySink,
    gate: &G,
) -> Result<u8, AllocError> {
    let (words, mut shelf) = (words(rt, "replay walk steps")?, shelf(rt)?);
    shelf.fail_at(load)?;
    Ok(run(rt, rt.alloc(), &words, &mut shelf, out, gate).number())
}

// The load that fails, the most bytes of a write, the write that fails (0: none), the status, and how many
// bytes of the report are written. There is no third load, and no twelfth write: the total line goes last.
static ENDS: [(u32, usize, u32, u8, usize); 8] = [
    (1, 4096, 0, 3, 0),
    (2, 4096, 0, 3, 0),
    (3, 4096, 0, 0, 890),
    (0, 4096, 2, 4, 69),
    (0, 4096, 11, 4, 800),
    (0, 4096, 12, 0, 890),
    (0, 1, 0, 0, 890),
    (0, 1, 890, 4, 889),
];

// A load or a write that fails ends a replay, and just the pieces before it stand.
#[test]
fn nothing_is_written_behind_a_failure(rt: HostRuntime) -> Result<(), Fail> {
    for (load, most, call, number, bytes) in &ENDS {
        let mut out = MemorySink::new(rt.alloc(), *most);
        out.fail_at(*call)?;
        let status = replay(&rt, *load, &mut out, &OpenGate)?;
        assert_eq!(rt;
            (status, out.bytes().len()),
            (*number, *bytes),
            "{load} {most} {call}"
        );
        assert!(rt;
            REPORT.as_bytes().starts_with(out.bytes()),
            "{load} {most} {call}"
        );
    }
    Ok(())
}

// A replay to which memory is refused ends with want of memory or does without it, and has written the
// first bytes of the report. `tests/damage` refuses each request of this test in turn.
#[test]
fn a_walk_in_little_memory(rt: HostRuntime) {
    let mut out = MemorySink::new(rt.alloc(), 4096);
    if let Ok(number) = replay(&rt, 0, &mut out, &OpenGate) {
        let whole = number == 0 && out.bytes() == REPORT.as_bytes();
        assert!(rt; whole || number == 9, "{number}");
        assert!(rt; REPORT.as_bytes().starts_with(out.bytes()), "{number}");
    }
}
