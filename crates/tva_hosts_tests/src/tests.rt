ghost use Rattle.std.specs.Prelude.{◌≤◌};
ghost use Rattle.tva_shim.specs.Packets.{IsUpper};

mod couriers;
mod hosts;
mod policies;
mod premises;
mod senders;
mod verdicts;

use std::alloc::{AllocError, Global};
use std::process::Abort;
use tva_base::{Address, Upper, address, decimal};

/// The address of a word.
fn address_of(rt: &impl Abort, word: Option<&str>) -> Address {
    address(word.unwrap_or("").as_bytes()).expect(rt, "an address")
}

/// The number of a word, and 0 where it is none or above the greatest.
fn number(word: Option<&str>, most: u64) -> u64
    ensures { result ≤ most }
{
    match word {
        Some(word) => decimal(word.as_bytes(), most).unwrap_or(0),
        None => 0,
    }
}

/// The upper part of a word: its kind and its numbers, with a slash between two.
fn upper_of(word: Option<&str>) -> Upper
    ensures { IsUpper result }
{
    let mut parts = word.unwrap_or("").split('/');
    let kind = parts.next();
    let transfer = number(parts.next(), 65535) as u16;
    let first = number(parts.next(), 4_000_000_000) as u32;
    match kind {
        Some("data") => Upper::Data {
            transfer,
            first,
            bytes: number(parts.next(), 1500) as u16,
        },
        Some("ack") => Upper::Ack {
            transfer,
            next: first,
        },
        _ => Upper::Nothing,
    }
}

fn upper_word(alloc: Global, upper: Upper) -> Result<String, AllocError> {
    match upper {
        Upper::Nothing => String::from_str(alloc, "-"),
        Upper::Data {
            transfer,
            first,
            bytes,
        } => format!(in alloc; "data/{transfer}/{first}/{bytes}"),
        Upper::Ack { transfer, next } => format!(in alloc; "ack/{transfer}/{next}"),
    }
}
