// Calls on one flow cache, and the answers that they must have, which come from outside.
ghost use Rattle.std.specs.Prelude.{◌≤◌};

mod cases;

use cases::CASES;
use std::alloc::{AllocError, Global};
use std::process::Abort;
use std::test::Fail;
use tva_base::{Address, Flow, Grant, Rights, TIME_MAX, Time, address, decimal};
use tva_flow::{FlowCache, Verdict};

fn crosses<T: Send + Sync>() {}

/// A cache may be moved to and shared with another thread.
#[test]
fn caches_cross_threads() {
    crosses::<FlowCache>();
    crosses::<Verdict>();
}

/// The number of a word, and 0 where it is none or above the greatest.
fn number(word: Option<&str>, most: u64) -> u64
    ensures { result ≤ most }
{
    match word {
        Some(word) => decimal(word.as_bytes(), most).unwrap_or(0),
        None => 0,
    }
}

fn address_in(word: Option<&str>) -> Address {
    let Some(word) = word else {
        return Address(0);
    };
    address(word.as_bytes()).unwrap_or(Address(0))
}

/// A cache, and the time of the last call on it.
#[derive(Drop)]
struct Played {
    cache: FlowCache,
    last: u64,
    ghost past: { cache.last ≤ last },
}

/// A cache of so many slots, whose router's clock is so far ahead, on which no call was made.
fn cache_of(alloc: Global, slots: u32, clock_offset: u64) -> Result<Played, AllocError>
    requires { (slots ≤ 1000000) × (clock_offset ≤ 1000000000000000) }
{
    let cache = FlowCache::with_slots(alloc, slots, clock_offset)?;
    Ok(Played { cache, last: 0 })
}

/// A cache as a line has it.
fn cache_by(alloc: Global, line: &str) -> Result<Played, AllocError> {
    let mut words = line.split_whitespace().skip(1);
    let slots = number(words.next(), 1_000_000) as u32;
    let clock_offset = number(words.next(), TIME_MAX);
    cache_of(alloc, slots, clock_offset)
}

/// The verdict and how many flows live, in the words of the cases.
fn text(alloc: Global, verdict: Verdict, living: u32) -> Result<String, Fail> {
    let name = match verdict {
        Verdict::Authorised(grant) => {
            let Rights { n, t } = grant.rights;
            let second = grant.second;
            return Ok(format!(in alloc; "Authorised {n} {t} {second} | {living}")?);
        }
        Verdict::Expired => "Expired",
        Verdict::OverN => "OverN",
        Verdict::UnknownNonce => "UnknownNonce",
        Verdict::CacheFull => "CacheFull",
        Verdict::Superseded => "Superseded",
    };
    Ok(format!(in alloc; "{name} | {living}")?)
}

impl Played {
    /// The verdict on a packet that shows a grant, and how many flows live then.
    fn list(
        &mut self,
        rt: &impl Abort,
        now: u64,
        grant: Grant,
        nonce: u64,
        length: u32,
    ) -> (Verdict, u32) {
        assert!(rt; self.last <= now && now <= TIME_MAX);
        assert!(rt; 1 <= grant.rights.t && grant.second <= 2_000_000);
        assert!(rt; 20 <= length && length <= 2048);
        self.last = now;
        let verdict = self.cache.admit_list(Time(now), grant, nonce, length);
        (verdict, self.cache.living(Time(now)))
    }

    /// The same of a packet that shows a nonce alone.
    fn nonce(
        &mut self,
        rt: &impl Abort,
        now: u64,
        flow: Flow,
        nonce: u64,
        length: u32,
    ) -> (Verdict, u32) {
        assert!(rt; self.last <= now && now <= TIME_MAX);
        assert!(rt; 20 <= length && length <= 2048);
        self.last = now;
        let verdict = self.cache.admit_nonce(Time(now), flow, nonce, length);
        (verdict, self.cache.living(Time(now)))
    }

    /// The verdict on a packet that shows a capability of the grant.
    fn show(&mut self, rt: &impl Abort, now: u64, grant: Grant, cap: u64) -> Verdict {
        assert!(rt; self.last <= now && now <= TIME_MAX);
        assert!(rt; 1 <= grant.rights.t && grant.second <= 2_000_000);
        self.last = now;
        let at = self.cache.place(&grant.flow);
        self.cache.admit_list_at(Time(now), at, grant, cap, 1, 100)
    }

    /// What was shown for the grant that holds a flow.
    fn shown(&self, flow: &Flow) -> Option<(Grant, u64)> {
        let at = self.cache.place(flow);
        self.cache.shown_at(at)
    }
}

/// A packet of half a unit, a second of life, of the flow with that number.
fn half_of_a_unit(rt: &impl Abort, cache: &mut Played, now: u64, number: u32) -> (Verdict, u32) {
    let flow = Flow {
        src: Address(number),
        dst: Address(1),
    };
    let rights = Rights { n: 1, t: 2 };
    let grant = Grant {
        flow,
        rights,
        second: 0,
    };
    cache.list(rt, now, grant, 1, 512)
}

/// Makes the call of a line, and gives its answer.
fn answer(rt: &impl Abort, alloc: Global, cache: &mut Played, call: &str) -> Result<String, Fail> {
    let mut words = call.split_whitespace();
    let kind = words.next();
    let now = number(words.next(), TIME_MAX);
    let src = address_in(words.next());
    let dst = address_in(words.next());
    let flow = Flow { src, dst };
    let (verdict, living) = if kind == Some("list") {
        let n = number(words.next(), u64::from(u32::MAX)) as u32;
        let t = number(words.next(), 255) as u8;
        let second = number(words.next(), 2_000_000);
        let rights = Rights { n, t };
        let grant = Grant {
            flow,
            rights,
            second,
        };
        let nonce = number(words.next(), u64::MAX);
        cache.list(rt, now, grant, nonce, number(words.next(), 2048) as u32)
    } else {
        let nonce = number(words.next(), u64::MAX);
        cache.nonce(rt, now, flow, nonce, number(words.next(), 2048) as u32)
    };
    text(alloc, verdict, living)
}

#[test]
fn verdicts_over_all_charges(rt: HostRuntime) -> Result<(), Fail> {
    let mut cache = cache_of(rt.alloc(), 0, 0)?;
    let mut calls = 0u64;
    for line in CASES.lines() {
        if line.starts_with("cache") {
            cache = cache_by(rt.alloc(), line)?;
        }
        if let Some((call, wanted)) = line.split_once(" -> ") {
            let answer = answer(&rt, rt.alloc(), &mut cache, call)?;
            assert_eq!(rt; answer.as_str(), wanted, "{line}");
            calls = calls.wrapping_add(1);
        }
    }
    assert_eq!(rt; calls, 238);
    Ok(())
}

/// As many flows as slots, all living: each has sent half of its bytes, at a time of its own, and the
/// first one more. The one whose end comes first makes room at that very time, and no earlier.
#[test]
fn room_at_the_exact_end_of_one_of_many_lives(rt: HostRuntime) -> Result<(), Fail> {
    let mut cache = cache_of(rt.alloc(), 1000, 0)?;
    let first = half_of_a_unit(&rt, &mut cache, 0, 0);
    assert_eq!(rt; first.1, 1);
    for number in 1..1000u32 {
        let (verdict, living) = half_of_a_unit(&rt, &mut cache, u64::from(number), number);
        assert!(rt; matches!(verdict, Verdict::Authorised(_)));
        assert_eq!(rt; living, number.wrapping_add(1));
    }
    let _renewed = half_of_a_unit(&rt, &mut cache, 1_000, 0);
    for (time, wanted) in [(1_000_000_000, false), (1_000_000_001, true)] {
        let (verdict, living) = half_of_a_unit(&rt, &mut cache, time, 1000);
        assert_eq!(rt; matches!(verdict, Verdict::Authorised(_)), wanted);
        assert!(rt; wanted || verdict == Verdict::CacheFull);
        assert_eq!(rt; living, 1000);
    }
    Ok(())
}

/// A cache that was cleared knows no flow of before, and has room for as many as at first. When it is full
/// again, the one whose end comes first makes room.
#[test]
fn cleared_and_full_again(rt: HostRuntime) -> Result<(), Fail> {
    let mut cache = cache_of(rt.alloc(), 100, 0)?;
    for start in [0u64, 10] {
        for number in 0..100u32 {
            let now = start.wrapping_add(u64::from(number) / 20);
            let (verdict, living) = half_of_a_unit(&rt, &mut cache, now, number);
            assert!(rt; matches!(verdict, Verdict::Authorised(_)));
            assert_eq!(rt; living, number.wrapping_add(1));
        }
        let now = start.wrapping_add(5);
        let (verdict, living) = half_of_a_unit(&rt, &mut cache, now, 100);
        assert!(rt; verdict == Verdict::CacheFull && living == 100);
        if start == 0 {
            cache.cache.clear();
            let flow = Flow {
                src: Address(7),
                dst: Address(1),
            };
            let answer = cache.nonce(&rt, now, flow, 1, 100);
            assert_eq!(rt; answer, (Verdict::UnknownNonce, 0));
        }
    }
    let (verdict, living) = half_of_a_unit(&rt, &mut cache, 1_000_000_010, 100);
    assert!(rt; matches!(verdict, Verdict::Authorised(_)) && living == 81);
    Ok(())
}

/// What was shown for a grant stands in its flow's entry until a capability of a newer grant is authorised,
/// whatever nonces and superseded capabilities come between. Behind a restart there is none.
#[test]
fn capabilities_stand_in_entries(rt: HostRuntime) -> Result<(), Fail> {
    let mut cache = cache_of(rt.alloc(), 8, 0)?;
    let flow = Flow {
        src: Address(1),
        dst: Address(2),
    };
    let rights = Rights { n: 1, t: 10 };
    let older = Grant {
        flow,
        rights,
        second: 0,
    };
    let newer = Grant { second: 1, ..older };
    assert_eq!(rt; cache.shown(&flow), None);
    assert_eq!(rt; cache.show(&rt, 0, older, 70), Verdict::Authorised(older));
    assert_eq!(rt; cache.shown(&flow), Some((older, 70)));
    assert_eq!(rt; cache.show(&rt, 1, newer, 90), Verdict::Authorised(newer));
    assert_eq!(rt; cache.show(&rt, 2, older, 70), Verdict::Superseded);
    assert_eq!(rt; cache.shown(&flow), Some((newer, 90)));
    assert_eq!(rt;
        cache.nonce(&rt, 3, flow, 1, 100).0,
        Verdict::Authorised(newer)
    );
    assert_eq!(rt; cache.shown(&flow), Some((newer, 90)));
    cache.cache.clear();
    assert_eq!(rt; cache.shown(&flow), None);
    Ok(())
}

/// A full cache of 100 flows. Each began at the time of its number, and all but that one sent their other
/// half at 100: so they end two seconds after they began, and that one a second after.
fn renewed_but(rt: &impl Abort, alloc: Global, left: u32) -> Result<Played, Fail> {
    let mut cache = cache_of(alloc, 100, 0)?;
    for number in 0..100u32 {
        let (_verdict, living) = half_of_a_unit(rt, &mut cache, u64::from(number), number);
        assert_eq!(rt; living, number.wrapping_add(1));
    }
    for number in 0..100u32 {
        if number != left {
            let (verdict, _living) = half_of_a_unit(rt, &mut cache, 100, number);
            assert!(rt; matches!(verdict, Verdict::Authorised(_)));
        }
    }
    Ok(cache)
}

/// Where all flows but one were renewed since they began, that one makes room at the very end of its life
/// and no earlier, whether it began first, last or between. Where all were, none makes room before the
/// first of them ends. The place is taken then, and no other flow finds one.
#[test]
fn room_among_flows_that_were_renewed(rt: HostRuntime) -> Result<(), Fail> {
    for (left, end) in [
        (0, 1_000_000_000u64),
        (73, 1_000_000_073),
        (99, 1_000_000_099),
        (100, 2_000_000_000),
    ] {
        let mut cache = renewed_but(&rt, rt.alloc(), left)?;
        let early = half_of_a_unit(&rt, &mut cache, end.wrapping_sub(1), 100);
        assert_eq!(rt; early, (Verdict::CacheFull, 100));
        let (verdict, living) = half_of_a_unit(&rt, &mut cache, end, 100);
        assert!(rt; matches!(verdict, Verdict::Authorised(_)) && living == 100);
        let other = half_of_a_unit(&rt, &mut cache, end, 101);
        assert_eq!(rt; other, (Verdict::CacheFull, 100));
    }
    Ok(())
}
