ghost use Rattle.std.specs.Prelude.{IfSome};

mod cases;

use crate::fair_queues::FairQueues;
use crate::measured::Measured;
use crate::offered::Offered;
use cases::CASES;
use std::alloc::Global;
use std::process::Abort;
use std::test::Fail;
use tva_base::DrrLimits;

/// A parcel of so many bytes.
#[derive(Drop)]
struct Parcel {
    bytes: u32,
}

impl Measured for Parcel {
    ghost measure = { λ parcel. parcel.bytes };

    fn length(&self) -> u32 {
        self.bytes
    }
}

const WORKED: DrrLimits = DrrLimits {
    queues: 2,
    ring: 8,
    queue_bytes: 2000,
    class_bytes: 3000,
    quantum: 2048,
    max: 2048,
};

fn crosses<T: Send + Sync>() {}

/// Fair queues may be moved to and shared with another thread.
#[test]
fn fair_queues_cross_threads() {
    crosses::<FairQueues<Parcel>>();
}

/// The number in a word as `8` or `ring=8`.
fn number(word: Option<&str>) -> u32 {
    let Some(word) = word else {
        return 0;
    };
    match word.split_once("=") {
        Some((_, digits)) => digits.parse::<u32>().unwrap_or(0),
        None => word.parse::<u32>().unwrap_or(0),
    }
}

/// Fair queues under the limits of a line.
fn with_limits_of(rt: &impl Abort, alloc: Global, line: &str) -> Result<FairQueues<Parcel>, Fail> {
    let mut words = line.split_whitespace();
    let _limits = words.next();
    let limits = DrrLimits {
        queues: number(words.next()),
        ring: number(words.next()),
        queue_bytes: number(words.next()),
        class_bytes: number(words.next()),
        quantum: number(words.next()),
        max: number(words.next()),
    };
    assert!(rt; 1 <= limits.queues && limits.queues <= 1 << 30);
    assert!(rt; 1 <= limits.ring && limits.ring <= 1 << 30);
    assert!(rt; limits.queue_bytes <= 1 << 30 && limits.class_bytes <= 1 << 30);
    assert!(rt; 1 <= limits.max && limits.max <= limits.quantum && limits.quantum <= 1 << 30);
    Ok(FairQueues::with_limits(alloc, limits)?)
}

/// Makes an offer of so many bytes, and gives its answer in words.
fn offer(rt: &impl Abort, queues: &mut FairQueues<Parcel>, key: u32, bytes: u32) -> &'static str {
    assert!(rt; 1 <= bytes && bytes <= queues.turns.limits().max);
    match queues.offer(key, Parcel { bytes }) {
        Offered::Queued => "Queued",
        Offered::NoQueue(parcel) => {
            assert_eq!(rt; parcel.bytes, bytes);
            "NoQueue"
        }
        Offered::QueueFull(parcel) => {
            assert_eq!(rt; parcel.bytes, bytes);
            "QueueFull"
        }
    }
}

/// Makes the call of a line, and gives its answer and the list afterwards.
fn answer(
    rt: &impl Abort,
    alloc: Global,
    queues: &mut FairQueues<Parcel>,
    call: &str,
) -> Result<String, Fail> {
    let mut words = call.split_whitespace();
    let mut text = String::new(alloc);
    if words.next() == Some("offer") {
        let key = number(words.next());
        let bytes = number(words.next());
        text.push_str(offer(rt, queues, key, bytes))?;
    } else {
        let head = queues.head_length();
        let taken = queues.take().map(|parcel| parcel.bytes);
        assert_eq!(rt; head, taken);
        match taken {
            Some(bytes) => text.push_str(format!(in alloc; "{bytes}")?.as_str())?,
            None => text.push_str("None")?,
        }
    }
    text.push_str(" |")?;
    if queues.turns.len() == 0 {
        text.push_str(" -")?;
    }
    for at in 0..queues.turns.len() {
        let turn = queues.turns.turn(at);
        text.push_str(format!(in alloc; " {}/{}", turn.key, turn.deficit)?.as_str())?;
        turn.source.show(alloc, &mut text)?;
    }
    Ok(text)
}

#[test]
fn sequences_of_offers_and_takes(rt: HostRuntime) -> Result<(), Fail> {
    let mut queues = FairQueues::with_limits(rt.alloc(), WORKED)?;
    let mut calls = 0u64;
    for line in CASES.lines() {
        if line.starts_with("limits") {
            queues = with_limits_of(&rt, rt.alloc(), line)?;
        }
        if let Some((call, wanted)) = line.split_once(" -> ") {
            let answer = answer(&rt, rt.alloc(), &mut queues, call)?;
            assert_eq!(rt; answer.as_str(), wanted, "{line}");
            calls = calls.wrapping_add(1);
        }
    }
    assert_eq!(rt; calls, 411);
    Ok(())
}

#[test]
fn limits_turns_and_deficits(rt: HostRuntime) -> Result<(), Fail> {
    let mut queues = FairQueues::with_limits(rt.alloc(), WORKED)?;
    for (key, bytes, wanted) in [
        (1, 1500, "Queued"),
        (1, 500, "Queued"),
        (1, 1, "QueueFull"),
        (2, 1000, "Queued"),
        (3, 1, "NoQueue"),
        (2, 1, "QueueFull"),
    ] {
        assert_eq!(rt;
            offer(&rt, &mut queues, key, bytes),
            wanted,
            "{key} {bytes}"
        );
    }
    for wanted in [Some(1500), Some(500), Some(1000), None] {
        assert_eq!(rt; queues.head_length(), wanted);
        assert_eq!(rt; queues.take().map(|parcel| parcel.bytes), wanted);
    }
    Ok(())
}
