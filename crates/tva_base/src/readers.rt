// The texts of addresses and prefixes.
ghost use Rattle.std.specs.Prelude.{◌≡◌, ◌≤◌, ◌<◌, ◌==◌, ℕ, List, Some, IfSome, position, length};
ghost use Rattle.std.specs.Option.{option_map};
ghost use Rattle.tva_base.specs.{declared.addresses.Address.Address, Plan.IsPrefix};
ghost use Rattle.tva_base.specs.Addresses.{parted, octet_of, address_of, prefix_of, Writes};

use crate::addresses::{Address, Prefix, cut};
use crate::numbers::plain_decimal;

/// The address of a text. `None` exactly where it isn't four numbers from 0 to 255 without leading
/// zeros, joined by single dots.
#[tactic(auto, unfolding(crate::specs::Addresses::address_of))]
pub fn address(text: &[u8]) -> Option<Address>
    ensures { result ≡ address_of text.now }
{
    let (first, rest) = part(text, b'.')?;
    let (second, rest) = part(rest, b'.')?;
    let (third, fourth) = part(rest, b'.')?;
    let a = octet(first)?;
    let b = octet(second)?;
    let c = octet(third)?;
    let d = octet(fourth)?;
    Some(Address(((a * 256 + b) * 256 + c) * 256 + d))
}

/// A text gives an address exactly where it is four numbers from 0 to 255 in decimal digits, joined by
/// dots, and the address is theirs, with the first number in its highest byte.
pub fn addresses_are_four_numbers()
    ensures given { (text : List ℕ) (x : Address) → address_of text ≡ Some x → Writes text x }
    ensures taken { (text : List ℕ) (x : Address) → Writes text x → address_of text ≡ Some x }
{}

/// The prefix of a text. `None` exactly where it isn't an address, a slash and a number from 0 to
/// 32 without leading zeros. Bits past the length are taken as zero.
#[tactic(auto, unfolding(crate::specs::Addresses::prefix_of))]
pub fn prefix(text: &[u8]) -> Option<Prefix>
    ensures value { result ≡ prefix_of text.now }
    ensures valid { IfSome result IsPrefix }
{
    let (first, length) = part(text, b'/')?;
    let address = address(first)?;
    let bits = plain_decimal(length, 32)? as u8;
    Some(Prefix {
        address: cut(address, bits),
        bits,
    })
}

/// What stands before the first such byte of a text, and what stands behind it; `None` where there is none.
#[tactic(auto, unfolding(crate::specs::Addresses::parted))]
pub fn part(text: &[u8], byte: u8) -> Option<(&[u8], &[u8])>
    ensures { option_map (λ p. (p.0.now, p.1.now)) result ≡ parted byte text.now }
{
    let at = place_of(text, byte)?;
    Some((&text[..at], &text[at + 1..]))
}

// The place of the first such byte.
fn place_of(text: &[u8], byte: u8) -> Option<usize>
    ensures place { result ≡ position (λ b. b == byte) text.now }
    ensures within { IfSome result (λ at. at < length text.now) }
{
    text.iter().position(|b| *b == byte)
}

// A number from 0 to 255.
fn octet(text: &[u8]) -> Option<u32>
    ensures value { result ≡ octet_of text.now }
    ensures within { IfSome result (λ number. number ≤ 255) }
{
    Some(plain_decimal(text, 255)? as u32)
}
