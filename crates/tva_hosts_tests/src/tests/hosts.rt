// Calls on one host, and the answers that they must have, which come from outside.
ghost use Rattle.std.specs.Prelude.{◌≡◌, ◌≤◌, IfOk};
ghost use Rattle.tva_base.specs.Plan.{IsHostPlan};
ghost use Rattle.tva_shim.specs.Packets.{IsCarried};

use arrayvec::ArrayVec;
use std::alloc::{AllocError, Global};
use std::process::Abort;
use std::test::Fail;
use tva_base::{
    Address, BackKind, Flow, HostPlan, Listed, Name, PacketId, PolicyKind, PolicyPlan, Rights,
    ShapeKind, Time, Upper, WhatKind, address, decimal, seconds_max, units_max,
};
use tva_host::{Host, Made, Receipt};
use tva_shim::{Carried, Packet, decode, encode, length, upper_size};

mod cases;

use super::{number, upper_of, upper_word};
use cases::CASES;

fn crosses<T: Send + Sync>() {}

/// A host, a packet and a receipt may be moved to and shared with another thread.
#[test]
fn hosts_cross_threads() {
    crosses::<Host>();
    crosses::<Made>();
    crosses::<Receipt>();
}

fn address_of(rt: &impl Abort, word: Option<&str>) -> Address {
    address(word.unwrap_or("").as_bytes()).expect(rt, "an address")
}

fn kind_named(word: Option<&str>) -> PolicyKind {
    match word {
        Some("client") => PolicyKind::Client,
        Some("server") => PolicyKind::Server,
        _ => PolicyKind::DenyAll,
    }
}

/// The plan of a host in a line.
fn plan_of(rt: &impl Abort, alloc: Global, line: &str) -> Result<HostPlan, AllocError>
    ensures { IfOk result IsHostPlan }
{
    let mut words = line.split(' ').skip(2);
    let address = address_of(rt, words.next());
    let nonce = number(words.next(), (1 << 48) - 1);
    let kind = kind_named(words.next());
    let (n, t) = words
        .next()
        .unwrap_or("")
        .split_once("/")
        .unwrap_or(("", ""));
    let version = if line.starts_with("host2") { 2 } else { 1 };
    let rights = Rights {
        n: number(Some(n), u64::from(units_max(version))) as u32,
        t: number(Some(t), u64::from(seconds_max(version))) as u8,
    };
    let grants = number(words.next(), 1_000_000) as u32;
    let (mut deny, mut deny_tags) = (Vec::new(alloc), Vec::new(alloc));
    let source = words.next();
    if source != Some("-") {
        deny.push(address_of(rt, source))?;
    }
    let tag = words.next();
    if tag != Some("-") {
        deny_tags.push(number(tag, 65535) as u16)?;
    }
    Ok(HostPlan {
        name: Name::new("A"),
        address,
        nonce,
        margin: 1_000_000,
        retry: 2_000_000_000,
        version,
        policy: PolicyPlan {
            kind,
            rights,
            grants,
            deny: Listed::new(deny),
            deny_tags: Listed::new(deny_tags),
        },
        uplink: 0,
    })
}

/// What the digits of a shim stand for in a packet.
fn carried_of(rt: &impl Abort, alloc: Global, digits: &str) -> Result<Carried, Fail>
    ensures { IfOk result IsCarried }
{
    if digits == "-" {
        return Ok(Carried::Nothing);
    }
    let bytes = hex::decode(alloc, digits).ok().ok_or("hexadecimal")?;
    assert!(rt; bytes.len() <= 400);
    Ok(match decode(bytes.as_slice()) {
        Some(shim) => Carried::Shim(shim),
        None => Carried::Malformed(bytes.len() as u16),
    })
}

/// The flow, payload and shim of a call, from that word on.
fn parts_of(
    rt: &impl Abort,
    alloc: Global,
    call: &str,
    from: usize,
) -> Result<(Flow, u16, Carried), Fail>
    ensures payload { IfOk result (λ parts. parts.1 ≤ 1600) }
    ensures carried { IfOk result (λ parts. IsCarried parts.2) }
{
    let mut words = call.split(' ').skip(from);
    let src = address_of(rt, words.next());
    let dst = address_of(rt, words.next());
    let payload = number(words.next(), 1600) as u16;
    let carried = carried_of(rt, alloc, words.next().unwrap_or(""))?;
    Ok((Flow { src, dst }, payload, carried))
}

fn shape_word(shape: ShapeKind) -> &'static str {
    match shape {
        ShapeKind::Request => "request",
        ShapeKind::List => "list",
        ShapeKind::Nonce => "nonce",
        ShapeKind::Renewal => "renewal",
        ShapeKind::Legacy => "legacy",
        ShapeKind::Trace => "trace",
    }
}

fn what_word(what: WhatKind) -> &'static str {
    match what {
        WhatKind::Stray => "stray",
        WhatKind::Demoted => "demoted",
        WhatKind::Request => "request",
        WhatKind::Renewal => "renewal",
        WhatKind::Regular => "regular",
        WhatKind::Legacy => "legacy",
    }
}

fn back_word(back: BackKind) -> &'static str {
    match back {
        BackKind::Nothing => "-",
        BackKind::Notice => "notice",
        BackKind::Grant => "grant",
        BackKind::Ignored => "ignored",
    }
}

/// The digits of what a packet carries.
fn digits_of(alloc: Global, carried: &Carried) -> Result<String, AllocError> {
    match carried {
        Carried::Nothing => String::from_str(alloc, "-"),
        Carried::Malformed(_) => String::from_str(alloc, "1006"),
        Carried::Shim(shim) => {
            let mut bytes = ArrayVec::new();
            encode(shim, &mut bytes);
            hex::encode(alloc, bytes.as_slice())
        }
    }
}

/// A packet that the host of a node and an address made for a peer, in words. Its upper part, if it has
/// one, is all of its payload, and stands last.
fn made_words(
    rt: &impl Abort,
    alloc: Global,
    from: (u16, Address),
    made: &Made,
    dst: Address,
) -> Result<String, Fail> {
    let packet = &made.packet;
    assert_eq!(rt; (packet.hops, packet.id.node), (0, from.0));
    assert_eq!(rt; (packet.flow.src, packet.flow.dst), (from.1, dst));
    let (ordinal, bytes) = (packet.id.ordinal, length(packet));
    let shape = shape_word(made.shape);
    let digits = digits_of(alloc, &packet.carried)?;
    if packet.upper == Upper::Nothing {
        return Ok(format!(in alloc; "#{ordinal} {bytes} {shape} {digits}")?);
    }
    assert_eq!(rt; packet.payload, upper_size(packet.upper));
    let upper = upper_word(alloc, packet.upper)?;
    Ok(format!(in alloc; "#{ordinal} {bytes} {shape} {digits} {upper}")?)
}

/// What the host sends at a time to a destination, with a payload or with an upper part, in words.
fn sent(
    rt: &impl Abort,
    alloc: Global,
    from: (u16, Address),
    host: &mut Host,
    now: u64,
    call: &str,
) -> Result<String, Fail>
    requires { host.old.last ≤ now }
    ensures { IfOk result (λ told. host.new.last ≤ now) }
{
    let mut words = call.split(' ').skip(2);
    let dst = address_of(rt, words.next());
    if call.starts_with("send_with") {
        let made = host.intend_with(alloc, Time(now), dst, upper_of(words.next()))?;
        return made_words(rt, alloc, from, &made, dst);
    }
    let payload = number(words.next(), 1600) as u16;
    let made = host.intend(alloc, Time(now), dst, payload)?;
    assert_eq!(rt;
        (made.packet.payload, made.packet.upper),
        (payload, Upper::Nothing)
    );
    made_words(rt, alloc, from, &made, dst)
}

/// What the host makes at a time of a packet that it receives, perhaps with an upper part that is to be
/// answered, in words.
fn received(
    rt: &impl Abort,
    alloc: Global,
    from: (u16, Address),
    host: &mut Host,
    now: u64,
    call: &str,
) -> Result<String, Fail>
    requires { host.old.last ≤ now }
    ensures { IfOk result (λ told. host.new.last ≤ now) }
{
    let (flow, payload, carried) = parts_of(rt, alloc, call, 2)?;
    let id = PacketId {
        node: 0,
        ordinal: 1,
    };
    let packet = Packet::new(id, flow, 1, payload, carried);
    let receipt = if call.starts_with("recv_with") {
        host.receive_with(alloc, Time(now), packet, upper_of(call.split(' ').nth(6)))?
    } else {
        host.receive(alloc, Time(now), packet)?
    };
    let (what, back) = (what_word(receipt.what), back_word(receipt.back));
    let reply = match &receipt.reply {
        None => String::from_str(alloc, "-")?,
        Some(made) => made_words(rt, alloc, from, made, flow.src)?,
    };
    Ok(format!(in alloc; "{what} {back} {reply}")?)
}

/// The packet of a row that injects it, in words.
fn inject(
    rt: &impl Abort,
    alloc: Global,
    node: u16,
    host: &mut Host,
    call: &str,
) -> Result<String, Fail>
    ensures { IfOk result (λ told. host.new.last ≡ host.old.last) }
{
    let (flow, payload, carried) = parts_of(rt, alloc, call, 1)?;
    let packet = host.inject(flow, payload, carried);
    assert_eq!(rt; (packet.hops, packet.id.node), (0, node));
    assert_eq!(rt; (packet.flow, packet.payload), (flow, payload));
    let (ordinal, bytes) = (packet.id.ordinal, length(&packet));
    let digits = digits_of(alloc, &packet.carried)?;
    Ok(format!(in alloc; "#{ordinal} {bytes} {digits}")?)
}

/// What the host answers to a call, in words. The last time is kept.
fn answer(
    rt: &impl Abort,
    alloc: Global,
    from: (u16, Address),
    host: &mut Host,
    last: &mut u64,
    call: &str,
) -> Result<String, Fail>
    requires { host.old.last ≤ last.old }
    ensures { IfOk result (λ told. host.new.last ≤ last.new) }
{
    if call.starts_with("inject") {
        return inject(rt, alloc, from.0, host, call);
    }
    let now = number(call.split(' ').nth(1), 1_000_000_000_000_000);
    assert!(rt; *last <= now);
    *last = now;
    if call.starts_with("send") {
        return sent(rt, alloc, from, host, now, call);
    }
    received(rt, alloc, from, host, now, call)
}

/// Plays the calls of a case, and counts them.
fn play(rt: &impl Abort, alloc: Global, case: &str) -> Result<u64, Fail> {
    let mut lines = case.lines().skip(1);
    let Some(line) = lines.next() else {
        return Ok(0);
    };
    let node = number(line.split(' ').nth(1), 65535) as u16;
    let plan = plan_of(rt, alloc, line)?;
    let from = (node, plan.address);
    let mut host = Host::build(alloc, node, &plan)?;
    let mut last = 0u64;
    let mut calls = 0u64;
    for line in lines {
        let Some((call, wanted)) = line.split_once(" -> ") else {
            continue;
        };
        let told = answer(rt, alloc, from, &mut host, &mut last, call)?;
        assert_eq!(rt; told.as_str(), wanted, "{line}");
        calls = calls.wrapping_add(1);
    }
    Ok(calls)
}

#[test]
fn replays_of_one_host(rt: HostRuntime) -> Result<(), Fail> {
    let mut calls = 0u64;
    for case in CASES.split("case ") {
        calls = calls.wrapping_add(play(&rt, rt.alloc(), case)?);
    }
    assert_eq!(rt; calls, 156);
    Ok(())
}
