// The words of the command line.
ghost use Rattle.std.specs.Prelude.{◌≡◌, IfSome, ◌≤◌, [], ◌∷◌, length};
ghost use Rattle.std.specs.Option.{option_map};
ghost use Rattle.tva.specs.Asked.{asked};
ghost use Rattle.tva.specs.Command.{command_of, texts, bytes_of_hex, gen_of};

use arrayvec::ArrayVec;
use std::marker::Model;
use tva_base::decimal;

/// The greatest number of bytes that a word of hexadecimal digits writes.
const HEX_BYTES_MAX: usize = 400;

/// The greatest number of rows that are generated.
const ROWS_MAX: u64 = 500_000;

/// The bytes that a word of hexadecimal digits writes, at most 400. Contracts see the list of them.
#[derive(Debug, Drop)]
pub struct ShimBytes(ArrayVec<u8, 400>);

impl Model for ShimBytes {
    ghost use Rattle.std.specs.Prelude.{List, ℕ, ◌≤◌, length};

    ghost Value = { List ℕ };

    ghost view = { λ bytes. bytes.0.items };

    ghost invariant = { λ bytes. length bytes.0.items ≤ 400 };
}

impl ShimBytes {
    pub fn as_slice(&self) -> &[u8]
        ensures items { result.now ≡ self.now }
        ensures few { length self.now ≤ 400 }
    {
        self.0.as_slice()
    }
}

/// A command, with the names of its files, the bytes of its shim, or a seed and a count of rows.
#[derive(Debug, Drop)]
pub enum Command<'a> {
    Replay {
        config: &'a str,
        trace: &'a str,
    },
    Check {
        config: &'a str,
    },
    Shim {
        bytes: ShimBytes,
    },
    Gen {
        seed: u64,
        count: u32,
        config: &'a str,
    },
    Audit {
        config: &'a str,
        trace: &'a str,
        report: &'a str,
    },
}

/// The command that the words are, if they are one.
pub fn parse(words: &[String]) -> Option<Command<'_>>
    ensures { option_map asked result ≡ command_of (texts words.now) }
{
    match words {
        [word, config, trace] if word.as_str() == "replay" => Some(Command::Replay {
            config: config.as_str(),
            trace: trace.as_str(),
        }),
        [word, config] if word.as_str() == "check" => Some(Command::Check {
            config: config.as_str(),
        }),
        [word, digits] if word.as_str() == "shim" => match bytes_of(digits.as_bytes()) {
            Some(bytes) => Some(Command::Shim { bytes }),
            None => None,
        },
        [word, one, two, three] => {
            of_four(word.as_str(), one.as_str(), two.as_str(), three.as_str())
        }
        _ => None,
    }
}

// The command of a word and three more.
fn of_four<'a>(word: &str, one: &'a str, two: &'a str, three: &'a str) -> Option<Command<'a>>
    ensures { option_map asked result ≡ command_of (word.now ∷ one.now ∷ two.now ∷ three.now ∷ []) }
{
    if word == "gen" {
        gen_of(one, two, three)
    } else if word == "audit" {
        Some(Command::Audit {
            config: one,
            trace: two,
            report: three,
        })
    } else {
        None
    }
}

// The command that generates a trace.
fn gen_of<'a>(seed: &str, count: &str, config: &'a str) -> Option<Command<'a>>
    ensures { option_map asked result ≡ gen_of seed.now count.now config.now }
{
    let seed = decimal(seed.as_bytes(), u64::MAX)?;
    let count = decimal(count.as_bytes(), ROWS_MAX)? as u32;
    Some(Command::Gen {
        seed,
        count,
        config,
    })
}

#[tactic(auto, unfolding(crate::specs::Command::bytes_of_hex), using(crate::proofs::HexWords::decode_sized_half))]
// The bytes that a word of hexadecimal digits writes, if it is one and not too long.
fn bytes_of(digits: &[u8]) -> Option<ShimBytes>
    ensures { result ≡ bytes_of_hex digits.now }
{
    let count = digits.len() / 2;
    if digits.len() > 2 * HEX_BYTES_MAX {
        return None;
    }
    let mut buffer = [0; HEX_BYTES_MAX];
    match hex::decode_to_slice(digits, &mut buffer[..count]) {
        Ok(()) => Some(shim_bytes(&buffer[..count])),
        Err(_) => None,
    }
}

fn shim_bytes(bytes: &[u8]) -> ShimBytes
    requires { length bytes.now ≤ 400 }
    ensures { result ≡ bytes.now }
{
    let mut all = ArrayVec::new();
    for byte in bytes {
        all.push(*byte);
    }
    ShimBytes(all)
}
