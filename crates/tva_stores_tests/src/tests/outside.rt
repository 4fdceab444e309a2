// What no clause says: that calls succeed with ample memory, and what a shelf and a sink in memory answer.
// Those of the system are shown over the real one, by `tests/commands` and `tests/damage`.
ghost use Rattle.std.specs.Prelude.{◌≤◌, ◌^◌};

use std::alloc::{AllocError, Global};
use std::test::Fail;
use tva_outside::{MemoryShelf, MemorySink, Sent, Shelf, Sink, Wrote, write_all};

// What a load answers, as a text.
fn told<S: Shelf>(shelf: &mut S, alloc: Global, name: &str, max: u64) -> Result<String, AllocError>
    requires { max ≤ 2 ^ 40 }
{
    format!(in alloc; "{:?}", shelf.load(alloc, name, max))
}

#[test]
fn a_shelf_in_memory_answers_as_told(rt: HostRuntime) -> Result<(), Fail> {
    let alloc = rt.alloc();
    let mut shelf = MemoryShelf::new(alloc);
    shelf.put("a", &[1, 2, 3, 4])?;
    shelf.put("a", &[7, 8, 9])?;
    shelf.put("none", &[])?;
    shelf.fail_at(8)?;
    let loads = [
        ("a", 3, "Bytes([7, 8, 9])"),
        ("a", 2, "TooLarge(3)"),
        ("a", 0, "TooLarge(1)"),
        ("a", 1_099_511_627_776, "Bytes([7, 8, 9])"),
        ("none", 0, "Bytes([])"),
        ("aa", 3, "Failed"),
        ("", 3, "Failed"),
        ("a", 3, "Failed"),
        ("a", 3, "Bytes([7, 8, 9])"),
    ];
    for (name, max, want) in loads {
        let answer = told(&mut shelf, alloc, name, max)?;
        assert_eq!(rt; answer.as_str(), want, "{name} {max}");
    }
    Ok(())
}

#[test]
fn a_sink_in_memory_takes_what_it_may(rt: HostRuntime) -> Result<(), Fail> {
    let mut sink = MemorySink::new(rt.alloc(), 2);
    sink.fail_at(4)?;
    let writes = [
        ("abc", Wrote::Count(2)),
        ("c", Wrote::Count(1)),
        ("", Wrote::Count(0)),
        ("de", Wrote::Failed),
        ("fg", Wrote::Count(2)),
    ];
    for (piece, want) in writes {
        assert_eq!(rt; sink.write(piece.as_bytes()), want, "{piece}");
    }
    assert_eq!(rt; sink.bytes(), b"abcfg".as_slice());

    // how many bytes a write takes, the write that is to fail, the answer, and what is written
    let sendings = [
        (1, 6, "abcde", Sent::All, "abcde"),
        (2, 0, "abcde", Sent::All, "abcde"),
        (9, 2, "abcde", Sent::All, "abcde"),
        (9, 1, "abcde", Sent::Failed(0), ""),
        (2, 3, "abcde", Sent::Failed(4), "abcd"),
        (2, 1, "", Sent::All, ""),
    ];
    for (most, call, bytes, want, left) in sendings {
        let mut sink = MemorySink::new(rt.alloc(), most);
        sink.fail_at(call)?;
        assert_eq!(rt;
            write_all(&mut sink, bytes.as_bytes()),
            want,
            "{most} {call}"
        );
        assert_eq!(rt; sink.bytes(), left.as_bytes(), "{most} {call}");
    }
    Ok(())
}
