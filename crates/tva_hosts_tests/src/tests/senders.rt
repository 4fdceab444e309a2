// Sequences of calls on one sender, with answers from outside.
ghost use Rattle.std.specs.Prelude.{◌≤◌};

mod cases;

use super::{address_of, number};
use cases::CASES;
use std::alloc::{AllocError, Global};
use std::process::Abort;
use std::test::Fail;
use tva_base::{Caps, Rights, TIME_MAX, Time};
use tva_sender::{Held, Sender, Shape};

/// A sender, and the time of the last call on it.
#[derive(Drop)]
struct Played {
    sender: Sender,
    last: u64,
    ghost past: { sender.last ≤ last },
}

/// The capability of a word of 16 digits.
fn cap_of(rt: &impl Abort, word: &str) -> u64 {
    let mut bytes = [0u8; 8];
    assert!(rt; hex::decode_to_slice(word, &mut bytes).is_ok());
    u64::from_be_bytes(bytes)
}

/// The capabilities of a word, `-` for none.
fn caps_of(rt: &impl Abort, word: Option<&str>) -> Caps {
    let mut caps = Caps::new();
    let word = word.unwrap_or("");
    if word != "-" {
        for word in word.split(',') {
            assert!(rt; caps.as_slice().len() < 16);
            caps.push(cap_of(rt, word));
        }
    }
    caps
}

/// The rights of two words.
fn rights_of(n: Option<&str>, t: Option<&str>) -> Rights {
    Rights {
        n: number(n, u64::from(u32::MAX)) as u32,
        t: number(t, 255) as u8,
    }
}

/// Whether what is shown of a grant is that of these words.
fn is_held(rt: &impl Abort, held: &Held, wanted: &str) -> bool {
    let mut words = wanted.split(' ').skip(1);
    let nonce = number(words.next(), u64::MAX);
    let rights = rights_of(words.next(), words.next());
    let caps = caps_of(rt, words.next());
    held.nonce == nonce && held.rights == rights && held.caps.as_slice() == caps.as_slice()
}

/// Whether a shape is that of these words: a list or a renewal has its nonce, units, seconds and capabilities.
fn is_wanted(rt: &impl Abort, shape: &Shape, wanted: &str) -> bool {
    match shape {
        Shape::Request => wanted == "request",
        Shape::Legacy => wanted == "legacy",
        Shape::NonceOnly(nonce) => {
            wanted.starts_with("nonce ") && number(wanted.split(' ').nth(1), u64::MAX) == *nonce
        }
        Shape::List(held) => wanted.starts_with("list ") && is_held(rt, held, wanted),
        Shape::Renewal(held) => wanted.starts_with("renewal ") && is_held(rt, held, wanted),
    }
}

/// A sender by the line of a case, on which no call was made.
fn begun(rt: &impl Abort, alloc: Global, line: &str) -> Played {
    let mut words = line.split(' ').skip(1);
    let version = if words.next() == Some("1") { 1 } else { 2 };
    let margin = number(words.next(), 1_000_000_000_000);
    let retry = number(words.next(), 10_000_000_000_000);
    assert!(rt; retry >= 1_000_000_000 + margin);
    Played {
        sender: Sender::build(alloc, margin, retry, version),
        last: 0,
    }
}

impl Played {
    /// Whether a packet is prepared in that shape.
    fn prepare(&mut self, rt: &impl Abort, call: &str, wanted: &str) -> Result<bool, AllocError> {
        let mut words = call.split(' ').skip(1);
        let now = number(words.next(), TIME_MAX);
        let peer = address_of(rt, words.next());
        let body = number(words.next(), 1800) as u32;
        let nonce = number(words.next(), (1 << 48) - 1);
        assert!(rt; self.last <= now);
        self.sender.reserve(1)?;
        self.last = now;
        let shape = self.sender.prepare(Time(now), peer, body, nonce);
        Ok(is_wanted(rt, &shape, wanted))
    }

    /// Whether a grant is taken or not, as is wanted.
    fn granted(&mut self, rt: &impl Abort, call: &str, wanted: &str) -> bool {
        let mut words = call.split(' ').skip(1);
        let peer = address_of(rt, words.next());
        let rights = rights_of(words.next(), words.next());
        let caps = caps_of(rt, words.next());
        self.sender.granted(peer, rights, &caps) == (wanted == "true")
    }

    /// Whether a call is answered as is wanted. A notice has no answer.
    fn answers(&mut self, rt: &impl Abort, call: &str, wanted: &str) -> Result<bool, AllocError> {
        if call.starts_with("prepare") {
            return self.prepare(rt, call, wanted);
        }
        if call.starts_with("granted") {
            return Ok(self.granted(rt, call, wanted));
        }
        self.sender.demoted(address_of(rt, call.split(' ').nth(1)));
        Ok(wanted == "-")
    }
}

fn crosses<T: Send + Sync>() {}

#[test]
fn prepares_as_told(rt: HostRuntime) -> Result<(), Fail> {
    crosses::<Sender>();
    crosses::<Shape>();
    let mut played = begun(&rt, rt.alloc(), "sender 1 0 1000000000");
    let mut calls = 0u64;
    for line in CASES.lines() {
        if line.starts_with("sender") {
            played = begun(&rt, rt.alloc(), line);
        }
        if let Some((call, wanted)) = line.split_once(" -> ") {
            assert!(rt; played.answers(&rt, call, wanted)?, "{line}");
            calls = calls.wrapping_add(1);
        }
    }
    assert_eq!(rt; calls, 177);
    Ok(())
}
