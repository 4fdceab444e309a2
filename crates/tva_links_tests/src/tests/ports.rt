ghost use Rattle.std.specs.Prelude.{◌≡◌, ◌≤◌, IfOk, IfSome};
ghost use Rattle.tva_base.specs.Plan.{AreClassLimits, AreLinkLimits};

use std::alloc::{AllocError, Global};
use std::process::Abort;
use std::test::Fail;
use tva_base::{Address, Class, DrrLimits, Flow, LinkLimits, PacketId, Time};
use tva_drr::Offered;
use tva_port::{Decision, Port, longest_regular_wait, longest_request_wait};
use tva_shim::{Carried, Entries, Entry, Kind, Packet, ReturnInfo, Shim, length};

mod cases;
mod level_cases;
mod long_cases;

use cases::CASES;
use level_cases::LEVEL_CASES;
use long_cases::LONG_CASES;

fn crosses<T: Send + Sync>() {}

/// A port and what it answers may be moved to and shared with another thread.
#[test]
fn ports_cross_threads() {
    crosses::<Port>();
    crosses::<Decision>();
    crosses::<Offered<Packet>>();
}

/// The number in a word as `8`.
fn number(word: Option<&str>) -> u64 {
    let Some(word) = word else {
        return 0;
    };
    word.parse::<u64>().unwrap_or(0)
}

fn small_number(word: Option<&str>) -> u32 {
    let Some(word) = word else {
        return 0;
    };
    word.parse::<u32>().unwrap_or(0)
}

/// What stands behind the sign of a word as `share=20`.
fn value<'a>(word: Option<&'a str>) -> Option<&'a str> {
    let word = word?;
    let (_, value) = word.split_once("=")?;
    Some(value)
}

/// Limits as QUEUES/RING/QUEUE_BYTES/CLASS_BYTES.
fn class_limits(rt: &impl Abort, quantum: u32, word: Option<&str>) -> DrrLimits
    ensures { AreClassLimits result }
{
    let mut parts = value(word).unwrap_or("").split("/");
    let limits = DrrLimits {
        queues: small_number(parts.next()),
        ring: small_number(parts.next()),
        queue_bytes: small_number(parts.next()),
        class_bytes: small_number(parts.next()),
        quantum,
        max: 2048,
    };
    assert!(rt; 1 <= limits.queues && limits.queues <= 65536);
    assert!(rt; 1 <= limits.ring && limits.ring <= 65536);
    assert!(rt; 2048 <= limits.queue_bytes && limits.queue_bytes <= 1 << 30);
    assert!(rt; 2048 <= limits.class_bytes && limits.class_bytes <= 1 << 30);
    assert!(rt; 2048 <= quantum && quantum <= 1_000_000);
    limits
}

/// The limits of a line.
fn limits_of(rt: &impl Abort, line: &str) -> LinkLimits
    ensures { AreLinkLimits result }
{
    let mut words = line.split_whitespace();
    let _port = words.next();
    let ns_per_byte = number(value(words.next()));
    let share = number(value(words.next()));
    let burst = number(value(words.next()));
    let quantum = small_number(value(words.next()));
    let request = class_limits(rt, quantum, words.next());
    let regular = class_limits(rt, quantum, words.next());
    let mut parts = value(words.next()).unwrap_or("").split("/");
    let legacy_ring = small_number(parts.next());
    let legacy_bytes = small_number(parts.next());
    let request_inner = inner_queues(rt, words.next());
    assert!(rt; 1 <= ns_per_byte && ns_per_byte <= 1_000_000);
    assert!(rt; 2 <= share && share <= 1000);
    assert!(rt; 4096 <= burst && burst <= 1_000_000);
    assert!(rt; 1 <= legacy_ring && legacy_ring <= 65536);
    assert!(rt; 2048 <= legacy_bytes && legacy_bytes <= 1 << 30);
    LinkLimits {
        ns_per_byte,
        share,
        burst,
        request,
        regular,
        legacy_ring,
        legacy_bytes,
        request_inner,
    }
}

/// How many queues stand behind a key, where there are two levels.
fn inner_queues(rt: &impl Abort, word: Option<&str>) -> Option<u32>
    ensures { IfSome result (λ inner. (1 ≤ inner) × (inner ≤ 65536)) }
{
    let word = word?;
    let inner = small_number(value(Some(word)));
    assert!(rt; 1 <= inner && inner <= 65536);
    Some(inner)
}

/// A packet with that number, of so many bytes from 20 to 2,020.
fn packet(rt: &impl Abort, ordinal: u64, bytes: u32) -> Packet {
    assert!(rt; 20 <= bytes && bytes <= 2020);
    let payload = (bytes - 20).min(1600);
    let malformed = bytes - 20 - payload;
    let carried = if malformed == 0 {
        Carried::Nothing
    } else {
        Carried::Malformed(malformed as u16)
    };
    let id = PacketId { node: 1, ordinal };
    let flow = Flow {
        src: Address(1),
        dst: Address(2),
    };
    Packet::new(id, flow, 0, payload as u16, carried)
}

/// A request with two tags, of so many bytes from 43 to 1,643.
fn request(rt: &impl Abort, ordinal: u64, bytes: u32, key: u32, inner: u32) -> Packet {
    assert!(rt; 43 <= bytes && bytes <= 1643);
    assert!(rt; key <= 0xffff && inner <= 0xffff);
    let mut shim = Shim::new(
        1,
        false,
        6,
        Kind::Request(Entries::new()),
        ReturnInfo::Nothing,
    );
    let first = Entry {
        tag: inner as u16,
        precap: 1,
    };
    let last = Entry {
        tag: key as u16,
        precap: 1,
    };
    assert!(rt; shim.push_entry(first).is_ok());
    assert!(rt; shim.push_entry(last).is_ok());
    let id = PacketId { node: 1, ordinal };
    let flow = Flow {
        src: Address(1),
        dst: Address(2),
    };
    Packet::new(id, flow, 0, (bytes - 43) as u16, Carried::Shim(shim))
}

fn class_named(word: Option<&str>) -> Class {
    match word {
        Some("request") => Class::Request,
        Some("regular") => Class::Regular,
        _ => Class::Legacy,
    }
}

/// Queues a packet, and gives the answer in words. A refused packet is handed back.
fn queue(rt: &impl Abort, port: &mut Port, now: u64, ordinal: u64, call: &str) -> &'static str
    requires time { port.old.last ≤ now }
    requires horizon { now ≤ 1000000000000000 }
    ensures { port.new.last ≡ now }
{
    let mut words = call.split_whitespace().skip(2);
    let class = class_named(words.next());
    let key = small_number(words.next());
    let bytes = small_number(words.next());
    let packet = match words.next() {
        None => packet(rt, ordinal, bytes),
        Some(inner) => request(rt, ordinal, bytes, key, small_number(Some(inner))),
    };
    match port.queue(Time(now), class, key, packet) {
        Offered::Queued => "Queued",
        Offered::NoQueue(packet) => {
            assert_eq!(rt; packet.id.ordinal, ordinal);
            "NoQueue"
        }
        Offered::QueueFull(packet) => {
            assert_eq!(rt; packet.id.ordinal, ordinal);
            "QueueFull"
        }
    }
}

/// Decides at a time, and gives the answer in words.
fn decide(rt: &impl Abort, alloc: Global, port: &mut Port, now: u64) -> Result<String, AllocError>
    requires time { port.old.last ≤ now }
    requires horizon { now ≤ 1000000000000000 }
    ensures { port.new.last ≡ now }
{
    assert!(rt; port.free_at().0 <= now);
    match port.decide(Time(now)) {
        Decision::Start(class, packet) => {
            let name = match class {
                Class::Request => "request",
                Class::Regular => "regular",
                Class::Legacy => "legacy",
            };
            let (ordinal, bytes, end) = (packet.id.ordinal, length(&packet), port.free_at().0);
            format!(in alloc; "Start {name} #{ordinal} {bytes} free_at {end}")
        }
        Decision::WaitUntil(time) => format!(in alloc; "WaitUntil {}", time.0),
        Decision::Idle => String::from_str(alloc, "Idle"),
    }
}

/// Makes a call at a time, and gives the answer in words. The ordinal is that of a packet to be queued.
fn answer(
    rt: &impl Abort,
    alloc: Global,
    port: &mut Port,
    now: u64,
    ordinal: u64,
    call: &str,
) -> Result<String, AllocError>
    requires time { port.old.last ≤ now }
    requires horizon { now ≤ 1000000000000000 }
    ensures { port.new.last ≡ now }
{
    if call.starts_with("queue") {
        return String::from_str(alloc, queue(rt, port, now, ordinal, call));
    }
    decide(rt, alloc, port, now)
}

/// Makes the calls of a case, compares their answers, and gives the number of calls.
fn play(rt: &impl Abort, alloc: Global, case: &str) -> Result<u64, Fail> {
    let mut lines = case.lines().skip(1);
    let Some(line) = lines.next() else {
        return Ok(0);
    };
    let mut port = Port::build(alloc, limits_of(rt, line))?;
    let mut last = 0u64;
    let mut ordinal = 0u64;
    let mut calls = 0u64;
    for line in lines {
        let Some((call, wanted)) = line.split_once(" -> ") else {
            continue;
        };
        let now = number(call.split(' ').nth(1));
        assert!(rt; last <= now && now <= 1_000_000_000_000_000);
        last = now;
        ordinal = ordinal.wrapping_add(u64::from(call.starts_with("queue")));
        let told = answer(rt, alloc, &mut port, now, ordinal, call)?;
        assert_eq!(rt; told.as_str(), wanted, "{line}");
        calls = calls.wrapping_add(1);
    }
    Ok(calls)
}

/// Plays the cases of a text, and counts their calls.
fn calls_of(rt: &impl Abort, alloc: Global, cases: &str) -> Result<u64, Fail> {
    let mut calls = 0u64;
    for case in cases.split("case ") {
        calls = calls.wrapping_add(play(rt, alloc, case)?);
    }
    Ok(calls)
}

/// On links with two levels, whose cases come last, the neighbours behind one tag take turns.
#[test]
fn sequences_of_queueings_and_decisions(rt: HostRuntime) -> Result<(), Fail> {
    assert_eq!(rt; calls_of(&rt, rt.alloc(), CASES)?, 317);
    assert_eq!(rt; calls_of(&rt, rt.alloc(), LONG_CASES)?, 242);
    assert_eq!(rt; calls_of(&rt, rt.alloc(), LEVEL_CASES)?, 179);
    Ok(())
}

/// Limits, a class, the bytes in its queue up to a packet and with it, and the bound in nanoseconds.
///
/// In the two floods W, the most bytes up to a packet of 1,000 bytes, is 63 * (2,048 + 2,048) + 1,000 =
/// 259,048, and such a packet starts at 20,000. The next two logs are the least of their kind, found by
/// search, in which the last packet waits nine tenths of its bound: 38,321,979 of 42,476,000 ns for a
/// request, and 20,199 of 22,327 ns for a regular packet. Among three queues a regular packet waits 8,479
/// of 15,972 ns.
///
/// Of a request of 1,000 bytes behind 64 tags with 4 queues each: of its tag's requests at most
/// 3 * (2,048 + 2,048) + 1,000 = 13,288 bytes go up to it, and of all 63 * (14,336 + 2,048) + 13,288.
/// Behind two tags with 2 queues each a request waits 12,939,999 of 25,814,000 ns.
const BOUNDS: [(&str, Class, u32, u128); 8] = [
    (
        "port ns_per_byte=10 share=20 burst=4096 quantum=2048 request=64/32/65536/1048576 regular=64/32/65536/1048576 legacy=256/262144",
        Class::Request,
        1_000,
        52_628_800,
    ),
    (
        "port ns_per_byte=10 share=20 burst=4096 quantum=2048 request=64/32/65536/1048576 regular=64/32/65536/1048576 legacy=256/262144",
        Class::Regular,
        1_000,
        2_791_495,
    ),
    (
        "port ns_per_byte=1 share=1000 burst=4096 quantum=2048 request=1/64/65536/131072 regular=1/64/65536/131072 legacy=9/20000",
        Class::Request,
        38_380,
        42_476_000,
    ),
    (
        "port ns_per_byte=1 share=1000 burst=4096 quantum=2048 request=1/64/65536/131072 regular=1/64/65536/131072 legacy=9/20000",
        Class::Regular,
        16_160,
        22_327,
    ),
    (
        "port ns_per_byte=1 share=1000 burst=4096 quantum=2048 request=3/64/65536/131072 regular=3/64/65536/131072 legacy=9/20000",
        Class::Regular,
        1_620,
        15_972,
    ),
    (
        "port ns_per_byte=10 share=20 burst=4096 quantum=2048 request=64/32/65536/1048576 regular=64/32/65536/1048576 legacy=256/262144 inner=4",
        Class::Request,
        1_000,
        209_915_200,
    ),
    (
        "port ns_per_byte=10 share=20 burst=4096 quantum=2048 request=64/32/65536/1048576 regular=64/32/65536/1048576 legacy=256/262144 inner=4",
        Class::Regular,
        1_000,
        2_791_495,
    ),
    (
        "port ns_per_byte=1 share=1000 burst=4096 quantum=2048 request=2/64/65536/131072 regular=2/64/65536/131072 legacy=9/20000 inner=2",
        Class::Request,
        3_286,
        25_814_000,
    ),
];

#[test]
fn bounds_of_the_cases(rt: HostRuntime) {
    for (line, class, bytes, bound) in BOUNDS {
        let limits = limits_of(&rt, line);
        let wait = match class {
            Class::Request => longest_request_wait(&limits, bytes),
            _ => longest_regular_wait(&limits, bytes),
        };
        assert_eq!(rt; wait, bound, "{bytes} {line}");
    }
}
