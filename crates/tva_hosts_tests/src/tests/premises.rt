// Senders and routers side by side, by their calls: packets that keep to a steady path are authorised, and
// for each premise of the law a packet that fails it alone is refused.
ghost use Rattle.std.specs.Prelude.{◌≤◌};

use super::number;
use std::alloc::{AllocError, Global};
use std::process::Abort;
use std::test::Fail;
use tva_base::{Address, Caps, Flow, Rights, TIME_MAX, Time};
use tva_caps::{Checked, Minter, capability};
use tva_flow::{FlowCache, Verdict};
use tva_sender::{Held, Sender, Shape};

const FLOW: Flow = Flow {
    src: Address(0x0a00_0001),
    dst: Address(0x0a00_0101),
};

const OTHER: Flow = Flow {
    src: Address(0x0a00_0007),
    dst: Address(0x0a00_0101),
};

const MASTER: [u8; 32] = [7; 32];

// What happens, each at a time in nanoseconds. `scene` begins a case: the units that are granted, and the router's
// slots. `prepare TIME BODY`: a packet with a body is prepared. `come TIME PLACE`: a packet that was prepared, by its
// place, comes to the router, and what becomes of it. `take`: the grant of the last ask is taken. `alien TIME NONCE
// LENGTH`: a packet of another sender comes with the last capability. `fill TIME`: one of another flow comes. `forge
// TIME PLACE`: a packet comes with another capability than its own.
const CASES: &str = "\
case the worked walk: a request, a list and a nonce alone
scene 32 64
prepare 0 77
come 1001000 0 -> Minted
take
prepare 4002900 12
come 5003420 1 -> Authorised
prepare 10000000 1000
come 11010280 2 -> Authorised
case a nonce at the last nanosecond of the margin
scene 32 64
prepare 0 77
come 1001000 0 -> Minted
take
prepare 4002900 12
come 5003420 1 -> Authorised
prepare 18872040 1000
come 20872560 2 -> Authorised
case late by a nanosecond more than the margin
scene 32 64
prepare 0 77
come 1001000 0 -> Minted
take
prepare 4002900 12
come 5003420 1 -> Authorised
prepare 18872040 1000
come 20872561 2 -> UnknownNonce
case overtaken by the list of the next grant
scene 32 64
prepare 0 77
come 1001000 0 -> Minted
take
prepare 4002900 12
come 5003420 1 -> Authorised
prepare 6000000000 1000
come 6001010400 2 -> Authorised
prepare 6004000000 100
take
prepare 6004021840 12
come 6005022360 4 -> Authorised
come 6005500000 3 -> UnknownNonce
case another sender under the same flow
scene 32 64
prepare 0 77
come 1001000 0 -> Minted
take
prepare 4002900 12
come 5003420 1 -> Authorised
alien 6000000 99 1500
prepare 10000000 1000
come 11010280 2 -> UnknownNonce
case a full cache
scene 32 1
prepare 0 77
come 1001000 0 -> Minted
take
fill 5000000
prepare 4002900 12
come 5003420 1 -> CacheFull
case an ask that came late, so that two grants are of one second
scene 2 64
prepare 0 77
come 2500000000 0 -> Minted
take
prepare 2600000000 1100
come 2601000520 1 -> Authorised
take
prepare 2605000000 1000
come 2606000520 2 -> OverN
case another capability at the pointer
scene 32 64
prepare 0 77
come 1001000 0 -> Minted
take
prepare 4002900 12
forge 5003420 1 -> BadHash
case the list of the grant never came
scene 32 64
prepare 0 77
come 1001000 0 -> Minted
take
prepare 4002900 12
prepare 10000000 1000
come 11010280 2 -> UnknownNonce";

/// A packet that was prepared, with its length in bytes.
#[derive(Drop)]
struct Packet {
    shape: Shape,
    bytes: u32,
}

/// A sender with its packets to one peer, the nonce that it offers next and the last time.
#[derive(Drop)]
struct Host {
    sender: Sender,
    packets: Vec<Packet>,
    offered: u64,
    last: u64,
    ghost past: { sender.last ≤ last },
}

/// A router's minter and cache, and the last time.
#[derive(Drop)]
struct Router {
    minter: Minter,
    cache: FlowCache,
    last: u64,
    ghost minted: { minter.last ≤ last },
    ghost charged: { cache.last ≤ last },
}

fn bytes_of(shape: &Shape, body: u32) -> u32 {
    let shim = match shape {
        Shape::Request => 3,
        Shape::List(held) | Shape::Renewal(held) => {
            12u32.saturating_add(8u32.saturating_mul(held.caps.as_slice().len() as u32))
        }
        Shape::NonceOnly(_) => 8,
        Shape::Legacy => 0,
    };
    20u32.saturating_add(shim).saturating_add(body)
}

impl Host {
    /// Prepares a packet for the peer.
    fn prepare(&mut self, rt: &impl Abort, now: u64, body: u32) -> Result<(), AllocError> {
        assert!(rt; self.last <= now);
        assert!(rt; body <= 1800);
        assert!(rt; self.offered < 1 << 48);
        self.sender.reserve(1)?;
        self.last = now;
        let shape = self.sender.prepare(Time(now), FLOW.dst, body, self.offered);
        self.offered = self.offered.wrapping_add(1);
        let bytes = bytes_of(&shape, body);
        self.packets.push(Packet { shape, bytes })?;
        Ok(())
    }

    /// Takes the grant of a capability.
    fn take(&mut self, rt: &impl Abort, rights: Rights, cap: u64) {
        let mut caps = Caps::new();
        caps.push(cap);
        let taken = self.sender.granted(FLOW.dst, rights, &caps);
        assert!(rt; taken);
    }
}

fn told_of(verdict: Verdict) -> &'static str {
    match verdict {
        Verdict::Authorised(_) => "Authorised",
        Verdict::OverN => "OverN",
        Verdict::UnknownNonce => "UnknownNonce",
        Verdict::CacheFull => "CacheFull",
        Verdict::Superseded => "Superseded",
        Verdict::Expired => "Other",
    }
}

impl Router {
    /// The capability that the destination makes with the rights of what is minted for a flow.
    fn mint(&mut self, rt: &impl Abort, now: u64, flow: Flow, rights: Rights) -> u64 {
        assert!(rt; self.last <= now);
        assert!(rt; now <= TIME_MAX);
        assert!(rt; rights.n <= 1023 && rights.t <= 63);
        self.last = now;
        let precap = self.minter.mint(Time(now), flow);
        capability(precap, rights)
    }

    /// What becomes of a packet that shows a capability.
    fn show(
        &mut self,
        rt: &impl Abort,
        now: u64,
        flow: Flow,
        cap: u64,
        rights: Rights,
        nonce: u64,
        bytes: u32,
    ) -> &'static str {
        assert!(rt; self.last <= now);
        assert!(rt; now <= TIME_MAX);
        assert!(rt; rights.n <= 1023 && rights.t <= 63);
        assert!(rt; 20 <= bytes && bytes <= 2048);
        self.last = now;
        let grant = match self.minter.check(Time(now), flow, cap, rights) {
            Checked::Valid(grant) => grant,
            Checked::BadHash => return "BadHash",
            Checked::Expired => return "Other",
        };
        assert!(rt; 1 <= grant.rights.t && grant.second <= 2_000_000);
        told_of(self.cache.admit_list(Time(now), grant, nonce, bytes))
    }

    /// What becomes of a packet that shows a nonce alone.
    fn name(&mut self, rt: &impl Abort, now: u64, nonce: u64, bytes: u32) -> &'static str {
        assert!(rt; self.last <= now);
        assert!(rt; now <= TIME_MAX);
        assert!(rt; 20 <= bytes && bytes <= 2048);
        self.last = now;
        told_of(self.cache.admit_nonce(Time(now), FLOW, nonce, bytes))
    }

    /// What becomes of a packet that shows what a sender holds, with its capability changed in some bits.
    fn list(
        &mut self,
        rt: &impl Abort,
        now: u64,
        held: &Held,
        bytes: u32,
        change: u64,
    ) -> &'static str {
        let cap = held.caps.as_slice().first().copied().unwrap_or(0);
        self.show(rt, now, FLOW, cap ^ change, held.rights, held.nonce, bytes)
    }

    /// What becomes of a packet that was prepared, its capability changed in some bits.
    fn come(&mut self, rt: &impl Abort, now: u64, packet: &Packet, change: u64) -> &'static str {
        match &packet.shape {
            Shape::Request => "Minted",
            Shape::List(held) | Shape::Renewal(held) => {
                self.list(rt, now, held, packet.bytes, change)
            }
            Shape::NonceOnly(nonce) => self.name(rt, now, *nonce, packet.bytes),
            Shape::Legacy => "Other",
        }
    }
}

/// What happens in a case: the parties, the granted rights and the last capability.
#[derive(Drop)]
struct Scene {
    host: Host,
    router: Router,
    rights: Rights,
    cap: u64,
}

/// A scene by the line of its case.
fn scene_of(alloc: Global, line: &str) -> Result<Scene, AllocError> {
    let mut words = line.split(' ').skip(1);
    let units = number(words.next(), 1023) as u32;
    let slots = number(words.next(), 1_000_000) as u32;
    Ok(Scene {
        host: Host {
            sender: Sender::build(alloc, 1_000_000, 2_000_000_000, 1),
            packets: Vec::new(alloc),
            offered: 1,
            last: 0,
        },
        router: Router {
            minter: Minter::new(MASTER, 0),
            cache: FlowCache::with_slots(alloc, slots, 0)?,
            last: 0,
        },
        rights: Rights { n: units, t: 10 },
        cap: 0,
    })
}

impl Scene {
    /// A packet comes, by its place. A request and a renewal are minted for.
    fn come(&mut self, rt: &impl Abort, now: u64, place: usize, change: u64) -> &'static str {
        let host = &self.host;
        let router = &mut self.router;
        let (told, asks) = match host.packets.get(place) {
            Some(packet) => (
                router.come(rt, now, packet, change),
                matches!(&packet.shape, Shape::Request | Shape::Renewal(_)),
            ),
            None => ("Other", false),
        };
        if asks {
            self.cap = self.router.mint(rt, now, FLOW, self.rights);
        }
        told
    }

    /// Another sender shows the last capability, with a nonce of its own.
    fn alien(&mut self, rt: &impl Abort, now: u64, nonce: u64, bytes: u32) {
        let told = self
            .router
            .show(rt, now, FLOW, self.cap, self.rights, nonce, bytes);
        assert_eq!(rt; told, "Authorised");
    }

    /// A packet of another flow takes a slot.
    fn fill(&mut self, rt: &impl Abort, now: u64) {
        let cap = self.router.mint(rt, now, OTHER, self.rights);
        let told = self.router.show(rt, now, OTHER, cap, self.rights, 7, 1500);
        assert_eq!(rt; told, "Authorised");
    }

    /// Does what a line says, and compares what becomes of it.
    fn step(&mut self, rt: &impl Abort, line: &str) -> Result<(), AllocError> {
        let (call, wanted) = line.split_once(" -> ").unwrap_or((line, ""));
        let mut words = call.split(' ');
        let kind = words.next().unwrap_or("");
        let now = number(words.next(), TIME_MAX);
        let next = number(words.next(), u64::from(u32::MAX));
        match kind {
            "prepare" => self.host.prepare(rt, now, next as u32)?,
            "take" => self.host.take(rt, self.rights, self.cap),
            "alien" => self.alien(rt, now, next, number(words.next(), 2048) as u32),
            "fill" => self.fill(rt, now),
            _ => {
                let told = self.come(rt, now, next as usize, u64::from(kind == "forge"));
                assert_eq!(rt; told, wanted, "{line}");
            }
        }
        Ok(())
    }
}

#[test]
fn no_premise_is_idle(rt: HostRuntime) -> Result<(), Fail> {
    let mut scene = scene_of(rt.alloc(), "")?;
    let mut steps = 0u64;
    for line in CASES.lines() {
        if line.starts_with("scene") {
            scene = scene_of(rt.alloc(), line)?;
        } else if !line.starts_with("case") {
            scene.step(&rt, line)?;
            steps = steps.wrapping_add(1);
        }
    }
    assert_eq!(rt; steps, 66);
    Ok(())
}
