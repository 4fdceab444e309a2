mod calls;

use crate::hier_queues::HierQueues;
use crate::{Measured, Offered};
use calls::CALLS;
use std::alloc::{AllocError, Global};
use std::process::Abort;
use std::test::Fail;
use tva_base::DrrLimits;

/// A parcel of so many bytes, with the two keys under which it was offered.
#[derive(Drop)]
struct Parcel {
    outer: u32,
    inner: u32,
    bytes: u32,
}

impl Measured for Parcel {
    ghost measure = { λ parcel. parcel.bytes };

    fn length(&self) -> u32 {
        self.bytes
    }
}

fn crosses<T: Send + Sync>() {}

/// Two-level queues may be moved to and shared with another thread.
#[test]
fn hier_queues_cross_threads() {
    crosses::<HierQueues<Parcel>>();
}

fn number(word: Option<&str>) -> u32 {
    let Some(word) = word else {
        return 0;
    };
    word.parse::<u32>().unwrap_or(0)
}

/// Queues with the limits QUEUES/RING/QUEUE_BYTES/CLASS_BYTES/QUANTUM/MAX/INNER.
fn queues_of(
    rt: &impl Abort,
    alloc: Global,
    words: &str,
) -> Result<HierQueues<Parcel>, AllocError> {
    let mut words = words.split("/");
    let limits = DrrLimits {
        queues: number(words.next()),
        ring: number(words.next()),
        queue_bytes: number(words.next()),
        class_bytes: number(words.next()),
        quantum: number(words.next()),
        max: number(words.next()),
    };
    let inner = number(words.next());
    assert!(rt; 1 <= limits.queues && limits.queues <= 1 << 30);
    assert!(rt; 1 <= limits.ring && limits.ring <= 1 << 30);
    assert!(rt; limits.queue_bytes <= 1 << 30 && limits.class_bytes <= 1 << 30);
    assert!(rt; 1 <= limits.max && limits.max <= limits.quantum && limits.quantum <= 1 << 30);
    assert!(rt; 1 <= inner && inner <= 1 << 30);
    HierQueues::with_limits(alloc, limits, inner)
}

/// Makes the offer OUTER/INNER/BYTES, and gives its answer in a letter.
fn offer(rt: &impl Abort, queues: &mut HierQueues<Parcel>, words: &str) -> &'static str {
    let mut words = words.split("/");
    let (outer, inner) = (number(words.next()), number(words.next()));
    let bytes = number(words.next());
    assert!(rt; 1 <= bytes && bytes <= queues.limits.max);
    let parcel = Parcel {
        outer,
        inner,
        bytes,
    };
    match queues.offer(outer, inner, parcel) {
        Offered::Queued => "Q",
        Offered::NoQueue(parcel) => {
            assert_eq!(rt; parcel.bytes, bytes);
            "N"
        }
        Offered::QueueFull(parcel) => {
            assert_eq!(rt; parcel.bytes, bytes);
            "F"
        }
    }
}

/// Takes an item, whose length was said before, and gives it as OUTER/INNER/BYTES.
fn take(
    rt: &impl Abort,
    alloc: Global,
    queues: &mut HierQueues<Parcel>,
) -> Result<String, AllocError> {
    let length = queues.head_length();
    let Some(parcel) = queues.take() else {
        assert_eq!(rt; length, None);
        return String::from_str(alloc, "none");
    };
    assert_eq!(rt; length, Some(parcel.bytes));
    format!(in alloc; "{}/{}/{}", parcel.outer, parcel.inner, parcel.bytes)
}

/// Each call has its answer.
#[test]
fn sequences_of_offers_and_takes(rt: HostRuntime) -> Result<(), Fail> {
    let mut queues = queues_of(&rt, rt.alloc(), "1/1/1/1/1/1/1")?;
    let mut calls = 0u32;
    for word in CALLS.split_whitespace() {
        let (call, wanted) = word.split_once("=").unwrap_or((word, ""));
        if call == "limits" {
            queues = queues_of(&rt, rt.alloc(), wanted)?;
        } else if call == "take" {
            let taken = take(&rt, rt.alloc(), &mut queues)?;
            assert_eq!(rt; taken.as_str(), wanted, "{calls} {word}");
        } else {
            let given = offer(&rt, &mut queues, call);
            assert_eq!(rt; given, wanted, "{calls} {word}");
        }
        calls = calls.wrapping_add(1);
    }
    assert_eq!(rt; calls, 647);
    Ok(())
}
