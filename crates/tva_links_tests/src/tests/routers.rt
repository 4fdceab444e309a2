// Calls on routers, and the answers that they must have, which come from outside.
ghost use Rattle.std.specs.Prelude.{◌≡◌, ◌≢◌, ◌≤◌, ◌==◌, None, IfOk, IsTrue};
ghost use Rattle.std.specs.List.{list_any};
ghost use Rattle.tva_base.specs.Plan.{IsRouterPlan};
ghost use Rattle.tva_router.specs.Handling.{outgoing_link};
ghost use Rattle.tva_router.specs.Stands.{free_of};

mod cases;
mod lines;

use cases::cases;
use lines::{MASTER, OTHER, edge, limits_of, linked, number_at, packet_of};
use std::alloc::{AllocError, Global};
use std::process::Abort;
use std::test::Fail;
use tva_base::{
    Address, Cause, Class, DropCause, Fate, Flow, LinkLimits, Outcome, PacketId, RouterPlan,
    TIME_MAX, Time,
};
use tva_caps::precap_at;
use tva_port::Decision;
use tva_router::{Router, flow_key};
use tva_shim::{Carried, Entries, Entry, HOPS_MAX, Kind, Packet, ReturnInfo, Shim, length};

fn crosses<T: Send + Sync>() {}

/// A router may be moved to and shared with another thread.
#[test]
fn routers_cross_threads() {
    crosses::<Router>();
}

/// The first 24 bytes of the digest of the master and the word `flows`, by another program.
#[test]
fn the_key_of_flows(rt: HostRuntime) {
    let key = flow_key(&MASTER);
    assert_eq!(rt; key.src, 0x61e2_aa0d_1f98_5561);
    assert_eq!(rt; key.dst, 0x109c_240a_e2a9_d836);
    assert_eq!(rt; key.plus, 0x6f8c_e076_58f1_61ca);
}

fn class_word(class: Class) -> &'static str {
    match class {
        Class::Request => "request",
        Class::Regular => "regular",
        Class::Legacy => "legacy",
    }
}

fn cause_word(cause: Option<Cause>) -> &'static str {
    match cause {
        None => "-",
        Some(Cause::NoCapability) => "no-capability",
        Some(Cause::Expired) => "expired",
        Some(Cause::BadHash) => "bad-hash",
        Some(Cause::Superseded) => "superseded",
        Some(Cause::OverN) => "over-n",
        Some(Cause::CacheFull) => "cache-full",
        Some(Cause::UnknownNonce) => "unknown-nonce",
        Some(Cause::PathFull) => "path-full",
        Some(Cause::Malformed) => "malformed",
    }
}

fn drop_word(cause: DropCause) -> &'static str {
    match cause {
        DropCause::HopLimit => "hop-limit",
        DropCause::NoRoute => "no-route",
        DropCause::NoQueue => "no-queue",
        DropCause::QueueFull => "queue-full",
    }
}

/// Whether the link is one out of the router of that plan.
#[tactic(auto, using(crate::proofs::Found::found))]
fn has_link(plan: &RouterPlan, link: u16) -> bool
    ensures { IsTrue result → outgoing_link plan.now link ≢ None }
{
    is_among(plan.outgoing.as_slice(), link)
}

fn is_among(links: &[(u16, LinkLimits)], link: u16) -> bool
    ensures { result ≡ list_any (λ o. o.0 == link) links.now }
{
    links.iter().any(|o| o.0 == link)
}

/// A router by that plan, on which no call was made.
fn router_of(alloc: Global, plan: &RouterPlan) -> Result<Router, AllocError>
    requires { IsRouterPlan plan.now }
    ensures plan { IfOk result (λ router. router.plan ≡ plan.now) }
    ensures last { IfOk result (λ router. router.last ≡ 0) }
{
    Router::build(alloc, plan)
}

/// What becomes of a packet that comes to a router.
fn fate_of(router: &mut Router, now: Time, from: Option<u16>, packet: Packet) -> Fate
    requires time { router.old.last ≤ now.0 }
    requires horizon { now.0 ≤ 1000000000000000 }
    ensures last { router.new.last ≡ now.0 }
    ensures same { router.new.plan ≡ router.old.plan }
{
    router.arrive(now, from, packet)
}

/// What a free link of a router does.
fn decision_of(router: &mut Router, now: Time, link: u16) -> Decision
    requires time { router.old.last ≤ now.0 }
    requires horizon { now.0 ≤ 1000000000000000 }
    requires outgoing { outgoing_link router.old.plan link ≢ None }
    requires free { free_of router.old link ≤ now.0 }
    ensures last { router.new.last ≡ now.0 }
    ensures same { router.new.plan ≡ router.old.plan }
{
    router.decide(now, link)
}

/// When a link of a router is free.
fn free_at(router: &Router, link: u16) -> u64
    requires { outgoing_link router.now.plan link ≢ None }
    ensures { result ≡ free_of router.now link }
{
    router.free_at(link).0
}

/// A router on which calls are made, the plan that it was built by, the time of the last call, and how
/// many packets came.
#[derive(Drop)]
struct Replay {
    plan: RouterPlan,
    router: Router,
    last: u64,
    packets: u64,
    ghost planned: { router.plan ≡ plan },
    ghost past: { router.last ≤ last },
}

/// A router of that plan, on which no call was made.
fn replay_of(alloc: Global, plan: RouterPlan) -> Result<Replay, AllocError>
    requires { IsRouterPlan plan }
{
    let router = router_of(alloc, &plan)?;
    Ok(Replay {
        plan,
        router,
        last: 0,
        packets: 0,
    })
}

/// Whether the link is there, and free at that time.
fn is_free(replay: &Replay, link: u16, now: u64) -> bool
    ensures there { IsTrue result → outgoing_link replay.now.router.plan link ≢ None }
    ensures free { IsTrue result → free_of replay.now.router link ≤ now }
{
    has_link(&replay.plan, link) && free_at(&replay.router, link) <= now
}

/// A packet arrives, and its fate is told in words. It is charged exactly where it is regular.
fn arrive(rt: &impl Abort, alloc: Global, replay: &mut Replay, call: &str) -> Result<String, Fail> {
    let now = number_at(call, 1, TIME_MAX);
    replay.packets = replay.packets.wrapping_add(1);
    let packet = packet_of(rt, call, replay.packets);
    assert!(rt; replay.last <= now);
    replay.last = now;
    let fate = fate_of(&mut replay.router, Time(now), None, packet);
    assert_eq!(rt;
        fate.charge.is_some(),
        fate.class == Class::Regular,
        "{call}"
    );
    fate_words(alloc, &fate)
}

fn fate_words(alloc: Global, fate: &Fate) -> Result<String, Fail> {
    let class = class_word(fate.class);
    let cause = cause_word(fate.cause);
    Ok(match fate.outcome {
        Outcome::Queued(link) => format!(in alloc; "{class} {cause} queued:{link}")?,
        Outcome::Dropped(why) => {
            let why = drop_word(why);
            format!(in alloc; "{class} {cause} dropped:{why}")?
        }
    })
}

/// What a free link starts, in words.
fn start(rt: &impl Abort, alloc: Global, replay: &mut Replay, call: &str) -> Result<String, Fail> {
    let now = number_at(call, 1, TIME_MAX);
    let link = number_at(call, 2, 65535) as u16;
    assert!(rt; replay.last <= now);
    assert!(rt; is_free(replay, link, now), "{call}");
    replay.last = now;
    let decision = decision_of(&mut replay.router, Time(now), link);
    let end = free_at(&replay.router, link);
    decision_words(alloc, &decision, end)
}

/// A decision in words, of a link that is free at that time again.
fn decision_words(alloc: Global, decision: &Decision, end: u64) -> Result<String, Fail> {
    match decision {
        Decision::Start(class, packet) => start_words(alloc, *class, packet, end),
        Decision::WaitUntil(time) => Ok(format!(in alloc; "wait until {}", time.0)?),
        Decision::Idle => Ok(String::from_str(alloc, "idle")?),
    }
}

fn start_words(alloc: Global, class: Class, packet: &Packet, end: u64) -> Result<String, Fail> {
    let class = class_word(class);
    let ordinal = packet.id.ordinal;
    let bytes = length(packet);
    Ok(format!(in alloc; "{class} R1#{ordinal} {bytes} {end}")?)
}

/// The router starts again with another master, which its plan has from then on.
fn restart(rt: &impl Abort, replay: &mut Replay, call: &str) {
    let now = number_at(call, 1, TIME_MAX);
    assert!(rt; replay.last <= now);
    replay.last = now;
    replay.router.restart(Time(now), OTHER);
    replay.plan.master = OTHER;
}

/// A router by that line.
fn built(rt: &impl Abort, alloc: Global, line: &str) -> Result<Replay, Fail> {
    if line.starts_with("edge") {
        return Ok(replay_of(alloc, edge(alloc, line))?);
    }
    let plan = linked(alloc, line, limits_of(rt, line))?;
    Ok(replay_of(alloc, plan)?)
}

/// What a call is answered, in words.
fn told(rt: &impl Abort, alloc: Global, replay: &mut Replay, call: &str) -> Result<String, Fail> {
    if call.starts_with("in") {
        return arrive(rt, alloc, replay, call);
    }
    if call.starts_with("restart") {
        restart(rt, replay, call);
        return Ok(String::from_str(alloc, "done")?);
    }
    start(rt, alloc, replay, call)
}

/// Makes the call of a line and compares the answer. It tells whether there was a call.
fn answer(rt: &impl Abort, alloc: Global, replay: &mut Replay, line: &str) -> Result<bool, Fail> {
    let Some((call, wanted)) = line.split_once(" -> ") else {
        return Ok(false);
    };
    let answer = told(rt, alloc, replay, call)?;
    assert_eq!(rt; answer.as_str(), wanted, "{line}");
    Ok(true)
}

/// Makes the calls of a case on its router, and counts them.
fn play_on(rt: &impl Abort, alloc: Global, replay: &mut Replay, case: &str) -> Result<u64, Fail> {
    let mut calls = 0u64;
    for line in case.lines() {
        if answer(rt, alloc, replay, line)? {
            calls = calls.wrapping_add(1);
        }
    }
    Ok(calls)
}

/// Builds the router of a case, and makes its calls. A router is let go in few places: each costs the proof much.
fn play(rt: &impl Abort, alloc: Global, case: &str) -> Result<u64, Fail> {
    let Some(line) = case.lines().nth(1) else {
        return Ok(0);
    };
    let mut replay = built(rt, alloc, line)?;
    play_on(rt, alloc, &mut replay, case)
}

#[test]
fn replays_of_one_router(rt: HostRuntime) -> Result<(), Fail> {
    let mut calls = 0u64;
    for case in cases().split("case ") {
        calls = calls.wrapping_add(play(&rt, rt.alloc(), case)?);
    }
    assert_eq!(rt; calls, 280);
    Ok(())
}

/// A request of no entries that passed so many routers.
fn request(hops: u8) -> Packet
    requires { hops ≤ 32 }
{
    let flow = Flow {
        src: Address(0x0a00_0001),
        dst: Address(0x0a00_0101),
    };
    let shim = Shim::new(
        1,
        false,
        6,
        Kind::Request(Entries::new()),
        ReturnInfo::Nothing,
    );
    let id = PacketId {
        node: 3,
        ordinal: 1,
    };
    Packet::new(id, flow, hops, 77, Carried::Shim(shim))
}

/// At the hop limit a request is dropped.
fn stop(rt: &impl Abort, router: &mut Router, now: Time)
    requires time { router.old.last ≤ now.0 }
    requires horizon { now.0 ≤ 1000000000000000 }
    ensures last { router.new.last ≡ now.0 }
    ensures same { router.new.plan ≡ router.old.plan }
{
    let stopped = fate_of(router, now, Some(9), request(HOPS_MAX));
    assert_eq!(rt; stopped.outcome, Outcome::Dropped(DropCause::HopLimit));
    assert_eq!(rt;
        (stopped.class, stopped.cause, stopped.charge),
        (Class::Request, None, None)
    );
}

/// One hop before, it is queued.
fn queue(rt: &impl Abort, router: &mut Router, now: Time)
    requires time { router.old.last ≤ now.0 }
    requires horizon { now.0 ≤ 1000000000000000 }
    ensures last { router.new.last ≡ now.0 }
    ensures same { router.new.plan ≡ router.old.plan }
{
    let queued = fate_of(router, now, Some(9), request(HOPS_MAX - 1));
    assert_eq!(rt; queued.outcome, Outcome::Queued(1));
}

/// What its link starts then.
fn started(
    rt: &impl Abort,
    plan: &RouterPlan,
    router: &mut Router,
    now: Time,
) -> Result<Packet, Fail>
    requires planned { router.old.plan ≡ plan.now }
    requires time { router.old.last ≤ now.0 }
    requires horizon { now.0 ≤ 1000000000000000 }
{
    assert!(rt; has_link(&plan, 1) && router.free_at(1).0 <= now.0);
    let Decision::Start(class, packet) = decision_of(router, now, 1) else {
        return Err(Fail::from("nothing starts"));
    };
    assert_eq!(rt;
        (class, packet.hops, length(&packet)),
        (Class::Request, HOPS_MAX, 110)
    );
    Ok(packet)
}

/// The one entry of a request that the router started.
fn has_entry(rt: &impl Abort, packet: &Packet) -> Result<(), Fail> {
    let Carried::Shim(shim) = &packet.carried else {
        return Err(Fail::from("it carries no shim"));
    };
    let Kind::Request(entries) = &shim.kind else {
        return Err(Fail::from("it is no request"));
    };
    let entry = Entry {
        tag: 12,
        precap: precap_at(MASTER, 7, packet.flow),
    };
    assert_eq!(rt; entries.listed().as_slice(), [entry].as_slice());
    Ok(())
}

/// A request at the hop limit, one before it, and what starts.
fn pass(rt: &impl Abort, plan: &RouterPlan, router: &mut Router) -> Result<(), Fail>
    requires planned { router.old.plan ≡ plan.now }
    requires last { router.old.last ≡ 0 }
{
    let now = Time(7_000_000_000);
    stop(rt, router, now);
    queue(rt, router, now);
    has_entry(rt, &started(rt, plan, router, now)?)
}

/// The same at a router of that plan.
fn pass_by(rt: &impl Abort, alloc: Global, plan: &RouterPlan) -> Result<(), Fail>
    requires { IsRouterPlan plan.now }
{
    let mut router = router_of(alloc, plan)?;
    pass(rt, plan, &mut router)
}

/// The entry has the tag of the link that the request came in on, and the pre-capability of its flow
/// in the router's second. At the hop limit it gets none.
#[test]
fn a_request_gets_an_entry(rt: HostRuntime) -> Result<(), Fail> {
    let alloc = rt.alloc();
    let limits = limits_of(
        &rt,
        "links 8 0 5 ns_per_byte=10 share=20 burst=4096 quantum=2048 request=64/32/65536/65536 regular=64/32/65536/65536 legacy=256/65536",
    );
    let plan = linked(alloc, "links 8 0 5", limits)?;
    pass_by(&rt, alloc, &plan)
}
