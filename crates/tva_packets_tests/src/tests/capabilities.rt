// Values that another implementation of SHA-256 gives, Python's hashlib. With `sha` its digest and
// `be(x, k)` the k bytes of x, the highest first:
//   secret(e)     = sha(master + be(e, 8))
//   precap(m)     = stamp + sha(secret(m // 128) + be(src, 4) + be(dst, 4) + stamp)[:7]
//                   where stamp = be(m % 256, 1)
//   capability(p) = p[:1] + sha(p + be(n, 2) + be(t, 1))[:7] where n <= 1023 and t <= 63,
//                   and else p[:1] + sha(p + be(2, 1) + be(n, 4) + be(t, 1))[:7]
ghost use Rattle.std.specs.Prelude.{◌≤◌};
ghost use Rattle.tva_base.specs.Versions.{AreSomeRights};

use hex::FromHex;
use std::process::Abort;
use tva_base::{Address, Flow, Grant, Rights, SECOND, TIME_MAX, Time, address, carries, decimal};
use tva_caps::{Checked, Good, KeptSecret, Minter, capability, precap_at};

const COUNTING: [u8; 32] = [
    0x00, 0x01, 0x02, 0x03, 0x04, 0x05, 0x06, 0x07, 0x08, 0x09, 0x0a, 0x0b, 0x0c, 0x0d, 0x0e, 0x0f,
    0x10, 0x11, 0x12, 0x13, 0x14, 0x15, 0x16, 0x17, 0x18, 0x19, 0x1a, 0x1b, 0x1c, 0x1d, 0x1e, 0x1f,
];

const MIXED: [u8; 32] = [
    0x8b, 0xad, 0xf0, 0x0d, 0xca, 0xfe, 0xba, 0xbe, 0x01, 0x23, 0x45, 0x67, 0x89, 0xab, 0xcd, 0xef,
    0x00, 0x11, 0x22, 0x33, 0x44, 0x55, 0x66, 0x77, 0x88, 0x99, 0xaa, 0xbb, 0xcc, 0xdd, 0xee, 0xff,
];

// Pre-capabilities of a master, a source, a destination and a second, and capabilities of a pre-capability and of
// rights.
const FORMULAS: &str = "\
precap counting 10.0.0.1 10.0.1.1 0 -> 00d1a87cf486b23f
precap counting 10.0.0.1 10.0.1.1 1 -> 019433762d6a3d04
precap counting 10.0.0.1 10.0.1.1 5 -> 05c8ff0b85007534
precap counting 10.0.0.1 10.0.1.1 127 -> 7f01eeb62d2fb0eb
precap counting 10.0.0.1 10.0.1.1 128 -> 802a80379fb5607b
precap counting 10.0.0.1 10.0.1.1 129 -> 81a62f0f3ed86058
precap counting 10.0.0.1 10.0.1.1 255 -> ff388c784ff5104a
precap counting 10.0.0.1 10.0.1.1 256 -> 0076145a91cc53bf
precap counting 10.0.0.1 10.0.1.1 257 -> 0154b006904f060e
precap counting 10.0.0.1 10.0.1.1 383 -> 7fc486cdbb59b35d
precap counting 10.0.0.1 10.0.1.1 384 -> 808fc4d778092e78
precap counting 10.0.0.1 10.0.1.1 65535 -> ff8b88b38b0a90d0
precap counting 10.0.0.1 10.0.1.1 65536 -> 00a8fc3cd2f9d96f
precap counting 10.0.0.1 10.0.1.1 2000000 -> 802e1f352053862f
precap counting 10.0.1.1 10.0.0.1 5 -> 05abd75ae3751cb9
precap zeros 0.0.0.0 0.0.0.0 0 -> 0029277b535cdf7f
precap ones 255.255.255.255 255.255.255.255 127 -> 7f1b6910d7487b3d
precap ones 255.255.255.255 255.255.255.255 128 -> 800463fed4a473fe
precap mixed 192.168.1.77 8.8.4.4 1000000 -> 4051c70f4892502b
precap mixed 8.8.4.4 192.168.1.77 1000000 -> 40edf0af83c03301
precap zeros 10.0.0.1 10.0.1.1 5 -> 05e85cde805f3354
precap ones 10.0.0.1 10.0.1.1 5 -> 05263ec90a676ead
capability 05c8ff0b85007534 0 0 -> 053f7f52b797305c
capability 05c8ff0b85007534 1 2 -> 05e5a8e67c5a90d3
capability 05c8ff0b85007534 1 10 -> 05a306372d5b388a
capability 05c8ff0b85007534 32 10 -> 05b1a97eb2bfd8ae
capability 05c8ff0b85007534 10 32 -> 05562f83970715da
capability 05c8ff0b85007534 1023 63 -> 0530dcc77f269ec5
capability 05c8ff0b85007534 1023 0 -> 05beaa95e7e2888a
capability 05c8ff0b85007534 0 63 -> 053e281d840a0a0a
capability 7f01eeb62d2fb0eb 32 10 -> 7fb46d6780032db4
capability 0000000000000000 0 0 -> 0071b6c1d53832f7
capability 0000000000000000 32 10 -> 007ef3da6a84d010
capability ffffffffffffffff 1023 63 -> ff9f0e4a9e51457f
capability 0011223344556677 1 1 -> 00206510b2bfea42
capability 8000000000000000 512 32 -> 800e6dfb1b4cd7e0
capability 05c8ff0b85007534 1024 64 -> 050348067d6057ff
capability 05c8ff0b85007534 1048575 127 -> 05bfef5d964227dd
capability 05c8ff0b85007534 1023 64 -> 05533ff4e740d03b
capability 05c8ff0b85007534 1024 63 -> 05413cc75b908ce9
capability 05c8ff0b85007534 1056 10 -> 05e3b3579282b918
capability 05c8ff0b85007534 0 127 -> 05e9922086a50a35
capability 05c8ff0b85007534 32 74 -> 0509460b1fce19f6
capability ffffffffffffffff 1048575 127 -> ff5a49916e8f9444
capability 0000000000000000 0 64 -> 000d5f1f73951513
capability 0011223344556677 65536 1 -> 002123a4fb7da989
capability 7f01eeb62d2fb0eb 1 10 -> 7f5b095cc11fa77a";

// Calls on minters. `router` has a master and the offset of a clock, `new` begins a minter of it, and what has no such
// word goes to the one before, over changes of its secret: minted in the last second of epoch 0 and shown in epoch 1;
// then epochs 2 and 3 are skipped, and the last second of epoch 3 is shown in epoch 4. A mint has its time and flow; a
// check the capability and rights too, and is answered the second of the grant or why there is none.
const CALLS: &str = "\
router counting 0
new mint 0 10.0.0.1 10.0.1.1 -> 00d1a87cf486b23f
new mint 999999999 10.0.0.1 10.0.1.1 -> 00d1a87cf486b23f
new mint 1000000000 10.0.0.1 10.0.1.1 -> 019433762d6a3d04
router counting 1
new mint 999999999 10.0.0.1 10.0.1.1 -> 019433762d6a3d04
router counting 127999999999
new mint 0 10.0.0.1 10.0.1.1 -> 7f01eeb62d2fb0eb
new mint 1 10.0.0.1 10.0.1.1 -> 802a80379fb5607b
router mixed 1000000000000000
new mint 1000000000000000 10.0.0.1 10.0.1.1 -> 809f8502e739deba
router counting 0
new check 5000000000 10.0.0.1 10.0.1.1 05a306372d5b388a 1 10 -> 5
new check 4999999999 10.0.0.1 10.0.1.1 05a306372d5b388a 1 10 -> expired
new check 14999999999 10.0.0.1 10.0.1.1 05a306372d5b388a 1 10 -> 5
new check 15000000000 10.0.0.1 10.0.1.1 05a306372d5b388a 1 10 -> expired
new check 14000000000 10.0.0.1 10.0.1.1 05a306372d5b388a 1 9 -> expired
new check 5000000000 10.0.0.1 10.0.1.1 05a306372d5b388a 1 11 -> bad-hash
new check 5000000000 10.0.0.1 10.0.1.1 05a306372d5b388a 2 10 -> bad-hash
new check 5000000000 10.0.0.1 10.0.1.1 05a306372d5b388a 1 0 -> expired
new check 261000000000 10.0.0.1 10.0.1.1 05a306372d5b388a 1 10 -> bad-hash
new check 270000000000 10.0.0.1 10.0.1.1 05a306372d5b388a 1 10 -> bad-hash
new check 127000000000 10.0.0.1 10.0.1.1 7f5b095cc11fa77a 1 10 -> 127
new check 130000000000 10.0.0.1 10.0.1.1 7f5b095cc11fa77a 1 10 -> 127
new check 136999999999 10.0.0.1 10.0.1.1 7f5b095cc11fa77a 1 10 -> 127
new check 137000000000 10.0.0.1 10.0.1.1 7f5b095cc11fa77a 1 10 -> expired
new check 255000000000 10.0.0.1 10.0.1.1 fa43e9a3562559b4 32 63 -> 250
new check 256000000000 10.0.0.1 10.0.1.1 fa43e9a3562559b4 32 63 -> 250
new check 312000000000 10.0.0.1 10.0.1.1 fa43e9a3562559b4 32 63 -> 250
new check 313000000000 10.0.0.1 10.0.1.1 fa43e9a3562559b4 32 63 -> expired
new check 3000000000 10.0.0.1 10.0.1.1 ff00112233445566 1 10 -> bad-hash
new check 3000000000 10.0.0.1 10.0.1.1 ff00112233445566 1 4 -> expired
new check 0 10.0.0.1 10.0.1.1 0000000000000000 1 1 -> bad-hash
new check 0 10.0.0.1 10.0.1.1 0100000000000000 1 63 -> expired
new check 5000000000 10.0.0.1 10.0.1.1 05c8ff0b85007534 1 10 -> bad-hash
new check 5000000000 10.0.0.1 10.0.1.1 050348067d6057ff 1024 64 -> 5
new check 68999999999 10.0.0.1 10.0.1.1 050348067d6057ff 1024 64 -> 5
new check 69000000000 10.0.0.1 10.0.1.1 050348067d6057ff 1024 64 -> expired
new check 5000000000 10.0.0.1 10.0.1.1 050348067d6057ff 1024 63 -> bad-hash
new check 5000000000 10.0.0.1 10.0.1.1 050348067d6057ff 0 64 -> bad-hash
new check 256999999999 10.0.0.1 10.0.1.1 828e7ddcfc8a2dd9 1024 127 -> 130
new check 257000000000 10.0.0.1 10.0.1.1 828e7ddcfc8a2dd9 1024 127 -> expired
new check 376999999999 10.0.0.1 10.0.1.1 fa306297775eb5cd 1048575 127 -> 250
new check 377000000000 10.0.0.1 10.0.1.1 fa306297775eb5cd 1048575 127 -> expired
new check 5000000000 10.0.0.1 10.0.1.2 05a306372d5b388a 1 10 -> bad-hash
new check 5000000000 10.0.1.1 10.0.0.1 05a306372d5b388a 1 10 -> bad-hash
router zeros 0
new check 5000000000 10.0.0.1 10.0.1.1 05a306372d5b388a 1 10 -> bad-hash
router counting 5000000000
new check 0 10.0.0.1 10.0.1.1 05a306372d5b388a 1 10 -> 5
router counting 2000000001
new check 2999999999 10.0.0.1 10.0.1.1 05a306372d5b388a 1 10 -> 5
new check 2999999998 10.0.0.1 10.0.1.1 05a306372d5b388a 1 10 -> expired
router mixed 1000000000000000
new check 1000000000000000 10.0.0.1 10.0.1.1 803384d739af5b3c 5 5 -> 2000000
new check 1000000000000000 10.0.0.1 10.0.1.1 7c6860bc95d5ec82 5 5 -> 1999996
new check 1000000000000000 10.0.0.1 10.0.1.1 7b459d9ef47421db 5 5 -> expired
router counting 0
new mint 127000000000 10.0.0.1 10.0.1.1 -> 7f01eeb62d2fb0eb
check 130000000000 10.0.0.1 10.0.1.1 7f5b095cc11fa77a 1 10 -> 127
mint 130000000000 10.0.0.1 10.0.1.1 -> 8262071e13c1f2db
check 136999999999 10.0.0.1 10.0.1.1 7f5b095cc11fa77a 1 10 -> 127
check 137000000000 10.0.0.1 10.0.1.1 7f5b095cc11fa77a 1 10 -> expired
check 515000000000 10.0.0.1 10.0.1.1 ff9675c55cc666cd 1 10 -> 511
mint 515000000000 10.0.0.1 10.0.1.1 -> 030921221b2540c1
new mint 400000000000 10.0.0.1 10.0.1.1 -> 90092dc2a9cb9355";

// The number of a word, and 0 where it is none or above the greatest.
fn number(word: Option<&str>, most: u64) -> u64
    ensures { result ≤ most }
{
    match word {
        Some(word) => decimal(word.as_bytes(), most).unwrap_or(0),
        None => 0,
    }
}

// The number of 16 hexadecimal digits.
fn digits(rt: &impl Abort, word: Option<&str>) -> u64 {
    let bytes = <[u8; 8]>::from_hex(word.unwrap_or("")).ok();
    u64::from_be_bytes(bytes.expect(rt, "digits"))
}

fn master_of(word: Option<&str>) -> [u8; 32] {
    match word {
        Some("counting") => COUNTING,
        Some("mixed") => MIXED,
        Some("ones") => [0xff; 32],
        _ => [0; 32],
    }
}

fn flow_of(src: Option<&str>, dst: Option<&str>) -> Flow {
    Flow {
        src: address(src.unwrap_or("").as_bytes()).unwrap_or(Address(0)),
        dst: address(dst.unwrap_or("").as_bytes()).unwrap_or(Address(0)),
    }
}

fn rights_of(rt: &impl Abort, n: Option<&str>, t: Option<&str>) -> Rights
    ensures { AreSomeRights result }
{
    let rights = Rights {
        n: number(n, u64::from(u32::MAX)) as u32,
        t: number(t, 255) as u8,
    };
    assert!(rt; carries(2, rights));
    rights
}

// What a formula gives. A pre-capability is also that of a secret that is kept.
fn formula(rt: &impl Abort, kept: &mut KeptSecret, call: &str) -> u64 {
    let mut words = call.split(' ');
    if words.next() == Some("capability") {
        let precap = digits(rt, words.next());
        return capability(precap, rights_of(rt, words.next(), words.next()));
    }
    let master = master_of(words.next());
    let flow = flow_of(words.next(), words.next());
    let second = number(words.next(), 2_000_000);
    let precap = precap_at(master, second, flow);
    assert_eq!(rt;
        kept.precap_at(&master, second, flow),
        precap,
        "kept, {call}"
    );
    precap
}

#[test]
fn formulas_give_their_values(rt: HostRuntime) {
    let mut kept = KeptSecret::new([0; 32]);
    for line in FORMULAS.lines() {
        let (call, wanted) = line.split_once(" -> ").unwrap_or(("", ""));
        assert_eq!(rt;
            formula(&rt, &mut kept, call),
            digits(&rt, Some(wanted)),
            "{line}"
        );
    }
}

// The master and offset of a router, a minter of it, and the time of the last call on that.
#[derive(Drop)]
struct Called {
    master: [u8; 32],
    offset: u64,
    minter: Minter,
    last: u64,
    ghost bounded: { offset ≤ 1000000000000000 },
    ghost past: { minter.last ≤ last },
}

// A new minter by the line of a router.
fn minter_of(router: &str) -> Called {
    let mut words = router.split(' ').skip(1);
    let master = master_of(words.next());
    let offset = number(words.next(), TIME_MAX);
    Called {
        master,
        offset,
        minter: Minter::new(master, offset),
        last: 0,
    }
}

impl Called {
    fn renew(&mut self) {
        self.minter = Minter::new(self.master, self.offset);
        self.last = 0;
    }

    // Whether a pre-capability is minted as is wanted.
    fn mints(&mut self, rt: &impl Abort, now: u64, flow: Flow, wanted: &str) -> bool
        requires { now ≤ 1000000000000000 }
    {
        assert!(rt; self.last <= now);
        self.last = now;
        self.minter.mint(Time(now), flow) == digits(rt, Some(wanted))
    }

    // Whether a capability with rights is found as is wanted.
    fn finds(
        &mut self,
        rt: &impl Abort,
        now: u64,
        flow: Flow,
        cap: u64,
        rights: Rights,
        wanted: &str,
    ) -> bool
        requires now { now ≤ 1000000000000000 }
        requires rights { AreSomeRights rights }
    {
        assert!(rt; self.last <= now);
        self.last = now;
        let answer = self.minter.check(Time(now), flow, cap, rights);
        match wanted {
            "expired" => answer == Checked::Expired,
            "bad-hash" => answer == Checked::BadHash,
            _ => {
                let second = number(Some(wanted), u64::MAX);
                answer
                    == Checked::Valid(Grant {
                        flow,
                        rights,
                        second,
                    })
            }
        }
    }

    // Whether a call is answered as is wanted.
    fn answers(&mut self, rt: &impl Abort, call: &str, wanted: &str) -> bool {
        if call.starts_with("new ") {
            self.renew();
        }
        let mut words = call.strip_prefix("new ").unwrap_or(call).split(' ');
        let kind = words.next();
        let now = number(words.next(), TIME_MAX);
        let flow = flow_of(words.next(), words.next());
        if kind == Some("mint") {
            return self.mints(rt, now, flow, wanted);
        }
        let cap = digits(rt, words.next());
        let rights = rights_of(rt, words.next(), words.next());
        self.finds(rt, now, flow, cap, rights, wanted)
    }
}

#[test]
fn minters_answer_as_told(rt: HostRuntime) {
    let mut called = minter_of("");
    let mut calls = 0u64;
    for line in CALLS.lines() {
        if line.starts_with("router") {
            called = minter_of(line);
        }
        if let Some((call, wanted)) = line.split_once(" -> ") {
            assert!(rt; called.answers(&rt, call, wanted), "{line}");
            calls = calls.wrapping_add(1);
        }
    }
    assert_eq!(rt; calls, 56);
}

/// A capability that was found good is good again where it is known, and no other one is. Under another master
/// nothing is known, and it is bad.
#[test]
fn known_capabilities_change_no_answer(rt: HostRuntime) {
    let flow = Flow {
        src: Address(0x0a00_0001),
        dst: Address(0x0a00_0101),
    };
    let rights = Rights { n: 1, t: 10 };
    let cap = 0x7f5b095cc11fa77a;
    let mut minter = Minter::new(COUNTING, 0);
    let found = minter.check_known(Time(128 * SECOND), flow, cap, rights, None);
    let Checked::Valid(grant) = found else {
        assert!(rt; false);
        return;
    };
    let known = Some(Good { grant, cap });
    let again = minter.check_known(Time(130 * SECOND), flow, cap, rights, known);
    assert_eq!(rt; again, found);
    let changed = minter.check_known(Time(130 * SECOND), flow, cap ^ 1, rights, known);
    assert_eq!(rt; changed, Checked::BadHash);
    let more = Rights { n: 2, t: 10 };
    let other = minter.check_known(Time(130 * SECOND), flow, cap, more, known);
    assert_eq!(rt; other, Checked::BadHash);
    let mut restarted = Minter::new([0xff; 32], 0);
    let anew = restarted.check_known(Time(130 * SECOND), flow, cap, rights, None);
    assert_eq!(rt; anew, Checked::BadHash);
}

fn crosses<T: Send + Sync>() {}

#[test]
fn crosses_to_threads() {
    crosses::<KeptSecret>();
    crosses::<Minter>();
    crosses::<Checked>();
}
