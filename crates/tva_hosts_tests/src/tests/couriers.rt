// Calls on a few couriers, with the answers that the rules give.
ghost use Rattle.std.specs.Prelude.{◌≤◌, IfOk};
ghost use Rattle.tva_base.specs.Plan.{IsHostPlan};
ghost use Rattle.tva_shim.specs.Packets.{IsUpper};

use std::alloc::{AllocError, Global};
use std::process::Abort;
use std::test::Fail;
use tva_base::{
    Address, DataLine, Flow, HostPlan, Listed, Name, PacketId, PolicyKind, PolicyPlan, Rights,
    Time, Upper,
};
use tva_host::Made;
use tva_shim::{Carried, Packet, upper_size};
use tva_transfer::{Courier, Landed, Transfer};

mod cases;

use super::{number, upper_of, upper_word};
use cases::CASES;

fn crosses<T: Send + Sync>() {}

/// A courier and what it tells may be moved to and shared with another thread.
#[test]
fn couriers_cross_threads() {
    crosses::<Courier>();
    crosses::<Landed>();
    crosses::<Transfer>();
}

/// A host that grants nobody, so that each of its replies brings an answer of its courier.
fn plan_of(alloc: Global, address: Address) -> Result<HostPlan, AllocError>
    ensures { IfOk result IsHostPlan }
{
    Ok(HostPlan {
        name: Name::new("A"),
        address,
        nonce: 1,
        margin: 1_000_000,
        retry: 2_000_000_000,
        version: 1,
        policy: PolicyPlan {
            kind: PolicyKind::DenyAll,
            rights: Rights { n: 32, t: 10 },
            grants: 0,
            deny: Listed::new(Vec::new(alloc)),
            deny_tags: Listed::new(Vec::new(alloc)),
        },
        uplink: 0,
    })
}

fn courier_of(alloc: Global, node: u16, address: Address) -> Result<Courier, AllocError>
    ensures { IfOk result (λ courier. courier.host.last ≤ 0) }
{
    let plan = plan_of(alloc, address)?;
    Courier::build(alloc, node, &plan)
}

/// A packet with an upper part and nothing else.
fn part_of(flow: Flow, upper: Upper) -> Packet
    requires { IsUpper upper }
{
    let id = PacketId {
        node: 9,
        ordinal: 1,
    };
    Packet::made_with(id, flow, upper_size(upper), Carried::Nothing, upper)
}

fn range_word(alloc: Global, range: Option<DataLine>) -> Result<String, AllocError> {
    let Some(line) = range else {
        return String::from_str(alloc, "-");
    };
    let (transfer, first, bytes) = (line.transfer, line.first, line.bytes);
    format!(in alloc; "{transfer}:{first}:{bytes}")
}

fn address_of(word: Option<&str>) -> Address {
    match word {
        Some("A") => Address(1),
        Some("B") => Address(2),
        Some("C") => Address(3),
        _ => Address(4),
    }
}

/// The upper part of what was made, if something was. The packet is put to the others.
fn made_word(
    alloc: Global,
    packets: &mut Vec<Packet>,
    made: Option<Made>,
) -> Result<String, AllocError> {
    let Some(made) = made else {
        return String::from_str(alloc, "-");
    };
    let word = upper_word(alloc, made.packet.upper)?;
    packets.push(made.packet)?;
    Ok(word)
}

/// The first packet of a file.
fn filed(
    rt: &impl Abort,
    alloc: Global,
    courier: &mut Courier,
    dst: Address,
    call: &str,
) -> Result<Made, Fail>
    requires { courier.old.host.last ≤ 0 }
    ensures { courier.new.host.last ≤ 0 }
{
    let mut words = call.split(' ').skip(3);
    let size = number(words.next(), 100_000_000) as u32;
    let segment = number(words.next(), 1500) as u16;
    assert!(rt; size >= 1 && segment >= 1);
    let made = courier.file(alloc, Time(0), dst, size, segment)?;
    assert_eq!(rt; made.packet.flow.dst, dst);
    Ok(made)
}

/// What a courier sends of a file, at a tick, or of itself.
fn sent(
    rt: &impl Abort,
    alloc: Global,
    courier: &mut Courier,
    call: &str,
) -> Result<Option<Made>, Fail>
    requires { courier.old.host.last ≤ 0 }
    ensures { courier.new.host.last ≤ 0 }
{
    let dst = address_of(call.split(' ').nth(2));
    match call.split(' ').nth(1) {
        Some("file") => Ok(Some(filed(rt, alloc, courier, dst, call)?)),
        Some("tick") => Ok(courier.tick(alloc, Time(0), dst)?),
        _ => Ok(Some(courier.intend(alloc, Time(0), dst, 100)?)),
    }
}

/// The range that a courier delivers of a packet that comes in, and the upper part that it answers.
fn received(
    rt: &impl Abort,
    alloc: Global,
    courier: &mut Courier,
    packets: &mut Vec<Packet>,
    call: &str,
) -> Result<String, Fail>
    requires { courier.old.host.last ≤ 0 }
    ensures { courier.new.host.last ≤ 0 }
{
    let place = number(call.split(' ').nth(2), 1000) as usize;
    let packet = packets
        .get(place.wrapping_sub(1))
        .expect(rt, "a packet")
        .copied();
    let source = packet.flow.src;
    let landed = courier.receive(alloc, Time(0), packet)?;
    if let Some(reply) = &landed.receipt.reply {
        assert_eq!(rt; reply.packet.flow.dst, source);
    }
    let range = range_word(alloc, landed.range)?;
    let answer = made_word(alloc, packets, landed.receipt.reply)?;
    Ok(format!(in alloc; "{range} {answer}")?)
}

/// What a courier tells of a call: the upper part that it sends, and before it the range that it delivers
/// of a packet that comes in.
fn told(
    rt: &impl Abort,
    alloc: Global,
    courier: &mut Courier,
    packets: &mut Vec<Packet>,
    call: &str,
) -> Result<String, Fail>
    requires { courier.old.host.last ≤ 0 }
    ensures { courier.new.host.last ≤ 0 }
{
    if call.split(' ').nth(1) == Some("recv") {
        return received(rt, alloc, courier, packets, call);
    }
    let made = sent(rt, alloc, courier, call)?;
    Ok(made_word(alloc, packets, made)?)
}

/// What is told of a call on one of three couriers, or of a packet that is put to the others.
fn answer(
    rt: &impl Abort,
    alloc: Global,
    a: &mut Courier,
    b: &mut Courier,
    c: &mut Courier,
    packets: &mut Vec<Packet>,
    call: &str,
) -> Result<String, Fail>
    requires a { a.old.host.last ≤ 0 }
    requires b { b.old.host.last ≤ 0 }
    requires c { c.old.host.last ≤ 0 }
    ensures a { a.new.host.last ≤ 0 }
    ensures b { b.new.host.last ≤ 0 }
    ensures c { c.new.host.last ≤ 0 }
{
    let mut words = call.split(' ');
    match words.next() {
        Some("A") => told(rt, alloc, a, packets, call),
        Some("B") => told(rt, alloc, b, packets, call),
        Some("C") => told(rt, alloc, c, packets, call),
        _ => {
            let src = address_of(words.next());
            let dst = address_of(words.next());
            let upper = upper_of(words.next());
            packets.push(part_of(Flow { src, dst }, upper))?;
            Ok(upper_word(alloc, upper)?)
        }
    }
}

/// Plays the calls of a case, and counts them.
fn play(rt: &impl Abort, alloc: Global, case: &str) -> Result<u64, Fail> {
    let mut a = courier_of(alloc, 1, Address(1))?;
    let mut b = courier_of(alloc, 2, Address(2))?;
    let mut c = courier_of(alloc, 3, Address(3))?;
    let mut packets: Vec<Packet> = Vec::new(alloc);
    let mut calls = 0u64;
    for line in case.lines().skip(1) {
        if let Some((call, wanted)) = line.split_once(" -> ") {
            let told = answer(rt, alloc, &mut a, &mut b, &mut c, &mut packets, call)?;
            assert_eq!(rt; told.as_str(), wanted, "{line}");
            calls = calls.wrapping_add(1);
        }
    }
    Ok(calls)
}

#[test]
fn files_between_a_few_couriers(rt: HostRuntime) -> Result<(), Fail> {
    let mut calls = 0u64;
    for case in CASES.split("case ") {
        calls = calls.wrapping_add(play(&rt, rt.alloc(), case)?);
    }
    assert_eq!(rt; calls, 113);
    Ok(())
}
