// What the last field of a row says.
ghost use Rattle.std.specs.Prelude.{◌≡◌, ◌<◌, ◌≤◌, ◌^◌, IfSome, length};
ghost use Rattle.byteorder.specs.Endian.{big_number};
ghost use Rattle.tva_base.specs.Decimal.{decimal_of};
ghost use Rattle.tva_base.specs.Versions.{AreSomeRights, IsVersion, seconds_max, units_max, version_for};
ghost use Rattle.tva_shim.specs.Shims.{IsShown, IsKind};
ghost use Rattle.tva_trace.specs.declared.said.SaidShim.TheVariants as says;
ghost use Rattle.tva_trace.specs.Items.{caps_of_items, hex_number_of, item_of, minted_of, plain_shim, raw_of, rights_of, row_shim, shown_of};
ghost use Rattle.tva_plan.specs.Numbers.{Numbers};

use crate::names::master_at;
use crate::rows::RowKind;
use crate::said::{RawBytes, SaidShim};
use crate::secrets::KeptSecrets;
use byteorder::{BigEndian, ByteOrder};
use std::collections::HashMap;
use tva_base::{Caps, Flow, Rights, decimal, part, seconds_max, units_max, version_for};
use tva_plan::{NodePlan, number_of};
use tva_shim::{Kind, ReturnInfo, Shim, Shown};

/// A nonce: twelve hexadecimal digits.
fn nonce_of(text: &[u8]) -> Option<u64>
    ensures value { result ≡ hex_number_of 6 text.now }
    ensures bits { IfSome result (λ nonce. nonce < 2 ^ 48) }
{
    let mut bytes = [0u8; 6];
    match hex::decode_to_slice(text, &mut bytes) {
        Ok(()) => Some(number_in_six(&bytes)),
        Err(_) => None,
    }
}

/// The number in six bytes, the highest first.
fn number_in_six(bytes: &[u8]) -> u64
    requires { 6 ≤ length bytes.now }
    ensures value { result ≡ big_number 6 bytes.now }
    ensures bits { result < 2 ^ 48 }
{
    BigEndian::read_u48(bytes)
}

/// A capability: sixteen hexadecimal digits.
fn digits_of(text: &[u8]) -> Option<u64>
    ensures { result ≡ hex_number_of 8 text.now }
{
    let mut bytes = [0u8; 8];
    match hex::decode_to_slice(text, &mut bytes) {
        Ok(()) => Some(BigEndian::read_u64(&bytes)),
        Err(_) => None,
    }
}

/// The capability that a router minted in a second, by its name and the second's text.
#[tactic(auto, unfolding(crate::specs::Items::minted_of, crate::specs::Names::master_named))]
fn minted_of(
    plans: &[NodePlan],
    numbers: &HashMap<&[u8], u16>,
    secrets: &mut KeptSecrets,
    flow: Flow,
    rights: Rights,
    name: &[u8],
    second: &[u8],
) -> Option<u64>
    requires known { Numbers plans.now numbers.now }
    requires rights { AreSomeRights rights }
    ensures { result ≡ minted_of plans.now flow rights (name.now, second.now) }
{
    let number = number_of(plans, numbers, name)?;
    let master = master_at(plans, number)?;
    let second = decimal(second, 2_000_000)?;
    Some(secrets.capability_at(number, &master, second, flow, rights))
}

/// An item.
#[tactic(auto, unfolding(crate::specs::Items::item_of))]
fn item_of(
    plans: &[NodePlan],
    numbers: &HashMap<&[u8], u16>,
    secrets: &mut KeptSecrets,
    flow: Flow,
    rights: Rights,
    text: &[u8],
) -> Option<u64>
    requires known { Numbers plans.now numbers.now }
    requires rights { AreSomeRights rights }
    ensures { result ≡ item_of plans.now flow rights text.now }
{
    match part(text, b'@') {
        Some((name, second)) => minted_of(plans, numbers, secrets, flow, rights, name, second),
        None => digits_of(text),
    }
}

/// The capabilities of items, at most 16.
#[tactic(auto, unfolding(crate::specs::Items::caps_of_items))]
fn caps_of(
    plans: &[NodePlan],
    numbers: &HashMap<&[u8], u16>,
    secrets: &mut KeptSecrets,
    flow: Flow,
    rights: Rights,
    text: &[u8],
) -> Option<Caps>
    requires known { Numbers plans.now numbers.now }
    requires rights { AreSomeRights rights }
    ensures { result ≡ caps_of_items plans.now flow rights text.now }
{
    let mut caps = Caps::new();
    if text.is_empty() {
        return Some(caps);
    }
    for item in text.split(|b| *b == b';') {
        if caps.as_slice().len() == 16 {
            return None;
        }
        caps.push(item_of(plans, numbers, secrets, flow, rights, item)?);
    }
    Some(caps)
}

/// Units that a shim of version 2 can carry.
fn units_of(text: &[u8]) -> Option<u64>
    ensures value { result ≡ decimal_of text.now (units_max 2) }
    ensures within { IfSome result (λ n. n ≤ units_max 2) }
{
    decimal(text, u64::from(units_max(2)))
}

/// Seconds that a shim of version 2 can carry.
fn seconds_of(text: &[u8]) -> Option<u64>
    ensures value { result ≡ decimal_of text.now (seconds_max 2) }
    ensures within { IfSome result (λ n. n ≤ seconds_max 2) }
{
    decimal(text, u64::from(seconds_max(2)))
}

/// The rights of units and seconds.
#[tactic(auto, unfolding(crate::specs::Items::rights_of))]
fn rights_of(units: &[u8], seconds: &[u8]) -> Option<Rights>
    ensures value { result ≡ rights_of units.now seconds.now }
    ensures widths { IfSome result AreSomeRights }
{
    let n = units_of(units)?;
    let t = seconds_of(seconds)?;
    Some(Rights {
        n: n as u32,
        t: t as u8,
    })
}

/// What a list or a renewal shows.
#[tactic(auto, using(tva_base::proofs::Widths::least_rights), unfolding(crate::specs::Items::shown_of))]
fn shown_of(
    plans: &[NodePlan],
    numbers: &HashMap<&[u8], u16>,
    secrets: &mut KeptSecrets,
    flow: Flow,
    text: &[u8],
) -> Option<Shown>
    requires { Numbers plans.now numbers.now }
    ensures value { result ≡ shown_of plans.now flow text.now }
    ensures rights { IfSome result (λ shown. AreSomeRights shown.rights) }
    ensures widths { IfSome result (λ shown. IsShown (version_for shown.rights) shown) }
{
    let (nonce, rest) = part(text, b'/')?;
    let (units, rest) = part(rest, b'/')?;
    let (seconds, rest) = part(rest, b'/')?;
    let (pointer, items) = part(rest, b'/')?;
    let nonce = nonce_of(nonce)?;
    let rights = rights_of(units, seconds)?;
    let caps = caps_of(plans, numbers, secrets, flow, rights, items)?;
    let pointer = decimal(pointer, caps.as_slice().len() as u64)?;
    Some(Shown {
        nonce,
        pointer: pointer as u8,
        rights,
        caps,
    })
}

/// What a row's shim is, by the row's kind.
#[tactic(auto, unfolding(crate::specs::Items::row_shim))]
pub fn shim_of(
    plans: &[NodePlan],
    numbers: &HashMap<&[u8], u16>,
    secrets: &mut KeptSecrets,
    kind: RowKind,
    flow: Flow,
    text: &[u8],
) -> Option<SaidShim>
    requires { Numbers plans.now numbers.now }
    ensures { result ≡ row_shim plans.now kind flow text.now }
{
    match kind {
        RowKind::Send | RowKind::File | RowKind::Tick => None,
        RowKind::Raw => Some(SaidShim::Bytes(RawBytes::from_digits(text)?)),
        RowKind::List => {
            let shown = shown_of(plans, numbers, secrets, flow, text)?;
            Some(plain_shim(version_of(&shown), Kind::List(shown)))
        }
        RowKind::Renew => {
            let shown = shown_of(plans, numbers, secrets, flow, text)?;
            Some(plain_shim(version_of(&shown), Kind::Renewal(shown)))
        }
        RowKind::Nonce => Some(plain_shim(1, Kind::Nonce(nonce_of(text)?))),
    }
}

/// The version of the shim that shows this: 2 only where the rights ask for it.
fn version_of(shown: &Shown) -> u8
    requires { AreSomeRights shown.now.rights }
    ensures version { result ≡ version_for shown.now.rights }
    ensures known { IsVersion result }
    ensures fits { IsShown (version_for shown.now.rights) shown.now → IsShown result shown.now }
{
    version_for(shown.rights)
}

/// A shim of a version with protocol 6, no mark and no return info.
fn plain_shim(version: u8, kind: Kind) -> SaidShim
    requires version { IsVersion version }
    requires kind { IsKind version kind }
    ensures { result ≡ says.Built (plain_shim version kind) }
{
    SaidShim::Built(Shim::new(version, false, 6, kind, ReturnInfo::Nothing))
}
