// What a row says, before the bytes of a raw shim are taken for what they are.
ghost use Rattle.std.specs.Prelude.{◌≡◌, ◌≤◌, IfSome, length};

use std::marker::Model;
use tva_base::{Address, Flow, Time};
use tva_shim::Shim;

/// The bytes of a raw row, at most 400. Contracts see them as a list.
#[derive(Debug, Drop)]
pub struct RawBytes {
    room: [u8; 400],
    count: usize,
}

impl Model for RawBytes {
    ghost use Rattle.std.specs.Prelude.{List, ℕ, ◌≤◌, take};

    ghost Value = { List ℕ };

    ghost view = { λ bytes. take bytes.count bytes.room };

    ghost invariant = { λ bytes. bytes.count ≤ 400 };
}

impl RawBytes {
    ghost use Rattle.tva_trace.specs.Items.{raw_of};

    /// The bytes that hexadecimal digits of either case write.
    #[tactic(auto, unfolding(crate::specs::Items::raw_of))]
    pub fn from_digits(text: &[u8]) -> Option<RawBytes>
        ensures value { result ≡ raw_of text.now }
        ensures few { IfSome result (λ bytes. length bytes ≤ 400) }
    {
        if text.len() > 800 {
            return None;
        }
        let count = text.len() / 2;
        let mut room = [0; 400];
        match hex::decode_to_slice(text, &mut room[..count]) {
            Ok(()) => Some(RawBytes { room, count }),
            Err(_) => None,
        }
    }

    pub fn as_slice(&self) -> &[u8]
        ensures bytes { result.now ≡ self.now }
        ensures few { length self.now ≤ 400 }
    {
        &self.room[..self.count]
    }
}

/// A shim as a row gives it: by its bytes, or by its parts.
#[derive(Debug, Drop)]
pub enum SaidShim {
    Bytes(RawBytes),
    Built(Shim),
}

/// What a row asks of its node.
#[derive(Debug, Drop)]
pub enum SaidWhat {
    Send {
        dst: Address,
        payload: u16,
    },
    Inject {
        flow: Flow,
        payload: u16,
        shim: SaidShim,
    },
    File {
        dst: Address,
        size: u32,
        segment: u16,
    },
    Tick {
        dst: Address,
    },
}

/// A row: its time in nanoseconds, the number of its node, and what it asks.
#[derive(Debug, Drop)]
pub struct SaidRow {
    pub time: Time,
    pub node: u16,
    pub what: SaidWhat,
}
