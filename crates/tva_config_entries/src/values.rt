// The kinds of values of keys.
ghost use Rattle.std.specs.Prelude.{◌≡◌, ◌≤◌, IfSome, length};
ghost use Rattle.std.specs.{declared.option.Option.Option, List.list_all};
ghost use Rattle.toml.specs.{Data.Data, View.view};
ghost use Rattle.tva_base.specs.Addresses.{address_of, prefix_of};
ghost use Rattle.tva_config_entries.specs.Values.{within, number, written, name_of, hex_bytes_of, hex_nonce_of, number_of_bytes, policy_of};
ghost use Rattle.tva_plan.specs.Names.{is_name_byte};

use toml::Value;
use tva_base::{Address, Name, PolicyKind, Prefix};

/// What a key's value may be, where its kind has no range.
pub trait Kind: Drop {
    /// What a value of the document is read as, or nothing where it isn't of the kind.
    ghost kind: { Data → Option Self };

    fn of(value: &Value) -> Option<Self>
        ensures { result ≡ kind (view value.now) };
}

/// A number of some width, as a key's value.
pub trait Number: Drop {
    /// What a value of the document is read as, where it is from the first number to the second.
    ghost range: { Self → Self → Data → Option Self };

    fn within(value: &Value, low: Self, high: Self) -> Option<Self>
        ensures { result ≡ range low high (view value.now) };
}

fn number_in(value: &Value, low: u64, high: u64) -> Option<u64>
    ensures value { result ≡ number low high (view value.now) }
    ensures range { IfSome result (λ n. (low ≤ n) × (n ≤ high)) }
{
    within(value.as_integer()?, low, high)
}

fn within(n: i64, low: u64, high: u64) -> Option<u64>
    ensures value { result ≡ within low high n }
    ensures range { IfSome result (λ n. (low ≤ n) × (n ≤ high)) }
{
    match u64::try_from(n) {
        Ok(n) if low <= n && n <= high => Some(n),
        _ => None,
    }
}

impl Number for u64 {
    ghost range = { number };

    fn within(value: &Value, low: u64, high: u64) -> Option<u64> {
        number_in(value, low, high)
    }
}

impl Number for u32 {
    ghost range = { number };

    fn within(value: &Value, low: u32, high: u32) -> Option<u32> {
        Some(number_in(value, u64::from(low), u64::from(high))? as u32)
    }
}

impl Number for u16 {
    ghost range = { number };

    fn within(value: &Value, low: u16, high: u16) -> Option<u16> {
        Some(number_in(value, u64::from(low), u64::from(high))? as u16)
    }
}

impl Number for u8 {
    ghost range = { number };

    fn within(value: &Value, low: u8, high: u8) -> Option<u8> {
        Some(number_in(value, u64::from(low), u64::from(high))? as u8)
    }
}

/// A tag of a trust boundary: a number from 1 to 65,535.
impl Kind for u16 {
    ghost kind = { number 1 65535 };

    fn of(value: &Value) -> Option<u16> {
        u16::within(value, 1, 65_535)
    }
}

/// A name: 1 to 16 ASCII letters, digits, `_` and `-`.
impl Kind for Name {
    ghost kind = { written name_of };

    fn of(value: &Value) -> Option<Name> {
        name_of(value.as_str()?)
    }
}

fn name_of(text: &str) -> Option<Name>
    ensures { result ≡ name_of text.now }
{
    let bytes = text.as_bytes();
    if bytes.is_empty() || bytes.len() > 16 {
        return None;
    }
    if !are_name_bytes(bytes) {
        return None;
    }
    Some(Name::new(text))
}

fn are_name_bytes(bytes: &[u8]) -> bool
    ensures { result ≡ list_all is_name_byte bytes.now }
{
    bytes.iter().all(|byte| is_name_byte(*byte))
}

fn is_name_byte(byte: u8) -> bool
    ensures { result ≡ is_name_byte byte }
{
    matches!(byte, b'A'..=b'Z' | b'a'..=b'z' | b'0'..=b'9' | b'_' | b'-')
}

/// 64 hexadecimal digits, of either case.
impl Kind for [u8; 32] {
    ghost kind = { written (hex_bytes_of 32) };

    fn of(value: &Value) -> Option<[u8; 32]> {
        master_of(value.as_str()?)
    }
}

fn master_of(text: &str) -> Option<[u8; 32]>
    ensures { result ≡ hex_bytes_of 32 text.now }
{
    let mut bytes = [0; 32];
    match hex::decode_to_slice(text, &mut bytes) {
        Ok(()) => Some(bytes),
        Err(_) => None,
    }
}

/// 12 hexadecimal digits, of either case, as a number.
pub fn nonce(value: &Value) -> Option<u64>
    ensures { result ≡ written hex_nonce_of (view value.now) }
{
    nonce_of(value.as_str()?)
}

fn nonce_of(text: &str) -> Option<u64>
    ensures { result ≡ hex_nonce_of text.now }
{
    Some(number_of_bytes(&six_bytes(text)?))
}

fn six_bytes(text: &str) -> Option<[u8; 6]>
    ensures { result ≡ hex_bytes_of 6 text.now }
{
    let mut bytes = [0; 6];
    match hex::decode_to_slice(text, &mut bytes) {
        Ok(()) => Some(bytes),
        Err(_) => None,
    }
}

// The number that some bytes make, the highest first.
fn number_of_bytes(bytes: &[u8]) -> u64
    requires { length bytes.now ≤ 6 }
    ensures { result ≡ number_of_bytes bytes.now }
{
    let mut number = 0;
    for byte in bytes {
        number = number * 256 + u64::from(*byte);
    }
    number
}

/// A word of a policy.
impl Kind for PolicyKind {
    ghost kind = { written policy_of };

    fn of(value: &Value) -> Option<PolicyKind> {
        policy_of(value.as_str()?)
    }
}

fn policy_of(text: &str) -> Option<PolicyKind>
    ensures { result ≡ policy_of text.now }
{
    if text == "deny" {
        return Some(PolicyKind::DenyAll);
    }
    if text == "client" {
        return Some(PolicyKind::Client);
    }
    if text == "server" {
        return Some(PolicyKind::Server);
    }
    None
}

/// An address of four numbers.
impl Kind for Address {
    ghost kind = { written address_of };

    fn of(value: &Value) -> Option<Address> {
        tva_base::address(value.as_str()?.as_bytes())
    }
}

/// A prefix: an address, a slash and a length.
impl Kind for Prefix {
    ghost kind = { written prefix_of };

    fn of(value: &Value) -> Option<Prefix> {
        tva_base::prefix(value.as_str()?.as_bytes())
    }
}
