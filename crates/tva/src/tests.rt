// What no script shows of the program: that it answers over files and a sink in memory, which files it loads and
// which nodes it tells the gate of, that the parts of a network run at once, what comes of a replay where its
// own files and its sink want memory too, and what an audit answers of rows. Whole replays, words and texts are shown by `tests/replays` and
// `tests/commands`, and damage at each place by `tests/damage`.
use std::alloc::AllocError;
use std::test::Fail;
use tva_outside::{MemoryShelf, MemorySink, OpenGate};

mod audits;
mod damage;
mod gates;

// Files by their names.
static FILES: [(&str, &str); 4] = [
    (
        "walk",
        "horizon_ns = 1000000000\nmax_events = 1000\n[[router]]\nname = \"R1\"\nmaster = \"000102030405060708090a0b0c0d0e0f101112131415161718191a1b1c1d1e1f\"\nslots = 8\n[[host]]\nname = \"A\"\naddress = \"10.0.0.1\"\npolicy = \"client\"\n[[host]]\nname = \"B\"\naddress = \"10.0.1.1\"\npolicy = \"server\"\n[[link]]\nfrom = \"A\"\nto = \"R1\"\nns_per_byte = 10\ndelay_ns = 1000000\ntag = 1\n[[link]]\nfrom = \"R1\"\nto = \"A\"\nns_per_byte = 10\ndelay_ns = 1000000\n[[link]]\nfrom = \"R1\"\nto = \"B\"\nns_per_byte = 10\ndelay_ns = 1000000\n[[link]]\nfrom = \"B\"\nto = \"R1\"\nns_per_byte = 10\ndelay_ns = 1000000\ntag = 2\n[[route]]\nrouter = \"R1\"\nprefix = \"10.0.0.0/24\"\nvia = \"A\"\n[[route]]\nrouter = \"R1\"\nprefix = \"10.0.1.0/24\"\nvia = \"B\"\n",
    ),
    (
        "steps",
        "time,node,kind,src,dst,payload,shim\n0,A,send,,10.0.1.1,77,\n10000000,A,send,,10.0.1.1,1000,\n",
    ),
    ("header", "time,node,kind,src,dst,payload,shim\n"),
    ("report", REPORT),
];

// The report of a replay of `walk` and `steps`.
const REPORT: &str =
    "0 A send A#1 100 request queued:R1\n0 A start A#1 100 R1 request 1000\n1001000 R1 in A#1 100 A request - queued:B\n1001000 R1 start A#1 110 B request 1002100\n2002100 B recv A#1 110 R1 request - B#1/35/request/grant/queued:R1\n2002100 B start B#1 35 R1 request 2002450\n3002450 R1 in B#1 35 B request - queued:A\n3002450 R1 start B#1 45 A request 3002900\n4002900 A recv B#1 45 R1 request grant A#2/52/list/grant/queued:R1\n4002900 A start A#2 52 R1 regular 4003420\n5003420 R1 in A#2 52 A regular - queued:B\n5003420 R1 start A#2 52 B regular 5003940\n6003940 B recv A#2 52 R1 regular grant -\n10000000 A send A#3 1028 nonce queued:R1\n10000000 A start A#3 1028 R1 regular 10010280\n11010280 R1 in A#3 1028 A regular - queued:B\n11010280 R1 start A#3 1028 B regular 11020560\n12020560 B recv A#3 1028 R1 regular - -\ntotal events=18 routed=4 authorised=2 demoted=0 dropped=0 started=8 received=4 bytes=1077\n";

// The words of a line, parted by single blanks.
fn words(rt: &impl AllocGlobal, line: &str) -> Result<Vec<String>, AllocError> {
    let mut words = Vec::new(rt.alloc());
    for word in line.split(' ') {
        words.push(String::from_str(rt.alloc(), word)?)?;
    }
    Ok(words)
}

fn shelf(rt: &impl AllocGlobal) -> Result<MemoryShelf, AllocError> {
    let mut shelf = MemoryShelf::new(rt.alloc());
    for (name, text) in &FILES {
        shelf.put(*name, text.as_bytes())?;
    }
    Ok(shelf)
}

// A replay ends well where there is memory, and not with want of it.
#[test]
fn answers_with_memory(rt: HostRuntime) -> Result<(), Fail> {
    let mut out = MemorySink::new(rt.alloc(), 4096);
    assert_eq!(rt; damage::replay(&rt, 0, &mut out, &OpenGate)?, 0);
    assert_eq!(rt; out.bytes(), REPORT.as_bytes());
    Ok(())
}
