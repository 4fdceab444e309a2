// Lines of replays: the router that a line builds, and the packet of a call.
ghost use Rattle.std.specs.Prelude.{◌≡◌, ◌≤◌, IfOk};
ghost use Rattle.tva_base.specs.Plan.{IsRouterPlan, AreClassLimits, AreLinkLimits};
ghost use Rattle.tva_shim.specs.Packets.{IsCarried};

use std::alloc::{AllocError, Global};
use std::process::Abort;
use tva_base::{
    Address, DrrLimits, Flow, LENGTH_MAX, LinkLimits, Listed, Name, PacketId, Prefix, Route,
    RouterPlan, TIME_MAX, address, decimal,
};
use tva_shim::{Carried, MALFORMED_MAX, PAYLOAD_MAX, Packet, decode};

pub const MASTER: [u8; 32] = [
    0, 1, 2, 3, 4, 5, 6, 7, 8, 9, 10, 11, 12, 13, 14, 15, 16, 17, 18, 19, 20, 21, 22, 23, 24, 25,
    26, 27, 28, 29, 30, 31,
];

/// The master after a restart.
pub const OTHER: [u8; 32] = [255; 32];

/// The number of a word, and 0 where it is none or above the greatest.
fn number(word: Option<&str>, most: u64) -> u64
    ensures { result ≤ most }
{
    match word {
        Some(word) => decimal(word.as_bytes(), most).unwrap_or(0),
        None => 0,
    }
}

/// The word of a line at that place, from 0.
fn word<'a>(line: &'a str, place: usize) -> Option<&'a str> {
    line.split(' ').nth(place)
}

/// The number that stands in a line at that place.
pub fn number_at(line: &str, place: usize, most: u64) -> u64
    ensures { result ≤ most }
{
    number(word(line, place), most)
}

/// What stands behind the sign of a word as `share=20`.
fn value<'a>(word: Option<&'a str>) -> Option<&'a str> {
    let (_, value) = word?.split_once("=")?;
    Some(value)
}

/// The number behind the sign of the word at that place.
fn value_at(line: &str, place: usize, most: u64) -> u64
    ensures { result ≤ most }
{
    number(value(word(line, place)), most)
}

/// One of the numbers behind the sign of a word as `legacy=256/65536`, from 0.
fn part_at(word: Option<&str>, place: usize, most: u64) -> u64
    ensures { result ≤ most }
{
    number(value(word).unwrap_or("").split("/").nth(place), most)
}

/// Limits as QUEUES/RING/QUEUE_BYTES/CLASS_BYTES.
fn class_limits(rt: &impl Abort, quantum: u32, word: Option<&str>) -> DrrLimits
    ensures { AreClassLimits result }
{
    let limits = DrrLimits {
        queues: part_at(word, 0, 65536) as u32,
        ring: part_at(word, 1, 65536) as u32,
        queue_bytes: part_at(word, 2, 1 << 30) as u32,
        class_bytes: part_at(word, 3, 1 << 30) as u32,
        quantum,
        max: LENGTH_MAX,
    };
    assert!(rt; 1 <= limits.queues && 1 <= limits.ring);
    assert!(rt; LENGTH_MAX <= limits.queue_bytes && LENGTH_MAX <= limits.class_bytes);
    assert!(rt; LENGTH_MAX <= quantum && quantum <= 1_000_000);
    limits
}

/// The limits in a line, behind the words of its router.
pub fn limits_of(rt: &impl Abort, line: &str) -> LinkLimits
    ensures { AreLinkLimits result }
{
    let ns_per_byte = value_at(line, 4, 1_000_000);
    let share = value_at(line, 5, 1000);
    let burst = value_at(line, 6, 1_000_000);
    let quantum = value_at(line, 7, 1_000_000) as u32;
    let request = class_limits(rt, quantum, word(line, 8));
    let regular = class_limits(rt, quantum, word(line, 9));
    let legacy_ring = part_at(word(line, 10), 0, 65536) as u32;
    let legacy_bytes = part_at(word(line, 10), 1, 1 << 30) as u32;
    assert!(rt; 1 <= ns_per_byte && 2 <= share && 4096 <= burst);
    assert!(rt; 1 <= legacy_ring && LENGTH_MAX <= legacy_bytes);
    LinkLimits {
        ns_per_byte,
        share,
        burst,
        request,
        regular,
        legacy_ring,
        legacy_bytes,
        request_inner: None,
    }
}

/// A router of that line without links.
pub fn edge(alloc: Global, line: &str) -> RouterPlan
    ensures { IsRouterPlan result }
{
    RouterPlan {
        name: Name::new("R1"),
        master: MASTER,
        slots: number_at(line, 1, 1_000_000) as u32,
        clock_offset: number_at(line, 2, TIME_MAX),
        edge_tag: number_at(line, 3, 65535) as u16,
        incoming: Listed::new(Vec::new(alloc)),
        outgoing: Listed::new(Vec::new(alloc)),
        routes: Listed::new(Vec::new(alloc)),
        restarts: Listed::new(Vec::new(alloc)),
        reroutes: Listed::new(Vec::new(alloc)),
    }
}

fn route(address: u32, bits: u8, link: u16) -> Route
    ensures { result ≡ record { prefix = record { address = record { 0 = address }; bits = bits }; link = link } }
{
    Route {
        prefix: Prefix {
            address: Address(address),
            bits,
        },
        link,
    }
}

/// A router of that line with four links out, and one in.
pub fn linked(alloc: Global, line: &str, limits: LinkLimits) -> Result<RouterPlan, AllocError>
    requires { AreLinkLimits limits }
    ensures { IfOk result IsRouterPlan }
{
    let RouterPlan {
        slots,
        clock_offset,
        edge_tag,
        ..
    } = edge(alloc, line);
    Ok(RouterPlan {
        name: Name::new("R1"),
        master: MASTER,
        slots,
        clock_offset,
        edge_tag,
        incoming: Listed::new(vec![in alloc; (9, 12)]?),
        outgoing: Listed::new(vec![in alloc; (0, limits), (1, limits), (2, limits), (3, limits)]?),
        routes: Listed::new(vec![in alloc;
            route(0, 0, 0),
            route(0x0a00_0100, 24, 1),
            route(0x0a00_0180, 25, 2),
            route(0x0a00_0181, 32, 3),
        ]?),
        restarts: Listed::new(Vec::new(alloc)),
        reroutes: Listed::new(Vec::new(alloc)),
    })
}

/// What those hexadecimal digits stand for in a packet.
fn carried_of(rt: &impl Abort, digits: &str) -> Carried
    ensures { IsCarried result }
{
    if digits == "-" {
        return Carried::Nothing;
    }
    assert!(rt; digits.len() <= 2 * usize::from(MALFORMED_MAX));
    let mut room = [0u8; 400];
    let bytes = &mut room[..digits.len() / 2];
    let is_decoded = hex::decode_to_slice(digits, bytes).is_ok();
    assert!(rt; is_decoded);
    match decode(bytes) {
        Some(shim) => Carried::Shim(shim),
        None => Carried::Malformed(bytes.len() as u16),
    }
}

fn address_of(rt: &impl Abort, word: Option<&str>) -> Address {
    address(word.unwrap_or("").as_bytes()).expect(rt, "an address")
}

/// The packet of a call, with that number.
pub fn packet_of(rt: &impl Abort, call: &str, ordinal: u64) -> Packet {
    let src = address_of(rt, word(call, 2));
    let dst = address_of(rt, word(call, 3));
    let payload = number_at(call, 4, u64::from(PAYLOAD_MAX)) as u16;
    let carried = carried_of(rt, word(call, 5).unwrap_or(""));
    let id = PacketId { node: 0, ordinal };
    Packet::new(id, Flow { src, dst }, 0, payload, carried)
}
