// Shims that are read from bytes, part by part.
ghost use Rattle.std.specs.Prelude.{◌≡◌, ◌≢◌, ◌≤◌, ◌<◌, ◌^◌, Some, IfSome, IfNone, flat_map};
ghost use Rattle.tva_base.specs.Versions.{AreRights};
ghost use Rattle.tva_shim.specs.{Widths.IsEntry, Widths.IsCap, Shims.ShimData, Shims.IsShim};
ghost use Rattle.tva_shim.specs.Layout.{eight_bytes, rights_bytes, entry_bytes, shown_bytes, kind_bytes, return_bytes, layout};
ghost use Rattle.tva_shim.specs.Parts.{Reads, seen, AreSoMany, IsType, type_bytes, IsWholeShown, IsGrant, grant_bytes, IsKindPart, IsReturnPart, returns_bit};

use crate::entries::{Entries, Entry};
use crate::kinds::{Kind, ReturnInfo, Shown};
use crate::numbers::{read_byte, read_eight, read_number, read_six, read_two};
use crate::shims::Shim;
use tva_base::{Caps, Rights, rights_in};

// What the first byte says: the version, the mark, whether there is return info, and the number of the
// kind.
#[derive(Clone, Copy)]
struct ShimType {
    version: u8,
    demoted: bool,
    returns: bool,
    kind: u8,
}

/// The shim whose layout is exactly these bytes, and none exactly where there is none. Numbers
/// stand with their highest byte first.
pub fn decode(bytes: &[u8]) -> Option<Shim>
    ensures found { IfSome result (λ s. IsShim s × (layout s ≡ bytes.now)) }
    ensures only { (s : ShimData) → IsShim s → layout s ≡ bytes.now → result ≡ Some s }
    ensures none { IfNone result ((s : ShimData) → IsShim s → layout s ≢ bytes.now) }
{
    let (shim, rest) = read_shim(bytes)?;
    if rest.is_empty() { Some(shim) } else { None }
}

fn read_shim(bytes: &[u8]) -> Option<(Shim, &[u8])>
    ensures { Reads IsShim layout bytes.now (seen result) }
{
    let (first, rest) = read_type(bytes)?;
    let (protocol, rest) = read_byte(255, rest)?;
    let (kind, rest) = read_kind(first.version, first.kind, rest)?;
    let (back, rest) = read_return(first.version, first.returns, rest)?;
    let shim = Shim {
        version: first.version,
        demoted: first.demoted,
        protocol,
        kind,
        back,
    };
    Some((shim, rest))
}

fn read_type(bytes: &[u8]) -> Option<(ShimType, &[u8])>
    ensures { Reads IsType type_bytes bytes.now (seen result) }
{
    let (first, rest) = read_byte(255, bytes)?;
    let version = first / 16;
    if version == 0 || version > 2 {
        return None;
    }
    let shim_type = ShimType {
        version,
        demoted: first / 8 % 2 == 1,
        returns: first / 4 % 2 == 1,
        kind: first % 4,
    };
    Some((shim_type, rest))
}

fn read_kind(version: u8, code: u8, bytes: &[u8]) -> Option<(Kind, &[u8])>
    requires { code ≤ 3 }
    ensures { Reads (IsKindPart version code) (kind_bytes version) bytes.now (seen result) }
{
    match code {
        0 => {
            let (count, rest) = read_byte(16, bytes)?;
            let (entries, rest) = read_entries(count, rest)?;
            Some((Kind::Request(entries), rest))
        }
        1 => {
            let (shown, rest) = read_shown(version, bytes)?;
            Some((Kind::List(shown), rest))
        }
        2 => {
            let (nonce, rest) = read_six(bytes)?;
            Some((Kind::Nonce(nonce), rest))
        }
        _ => {
            let (shown, rest) = read_shown(version, bytes)?;
            Some((Kind::Renewal(shown), rest))
        }
    }
}

fn read_return(version: u8, returns: bool, bytes: &[u8]) -> Option<(ReturnInfo, &[u8])>
    ensures { Reads (IsReturnPart version (returns_bit returns)) (return_bytes version) bytes.now (seen result) }
{
    if !returns {
        return Some((ReturnInfo::Nothing, bytes));
    }
    let (form, rest) = read_byte(255, bytes)?;
    match form {
        1 => Some((ReturnInfo::Notice, rest)),
        2 => {
            let ((rights, caps), rest) = read_grant(version, rest)?;
            Some((ReturnInfo::Grant { rights, caps }, rest))
        }
        _ => None,
    }
}

fn read_grant(version: u8, bytes: &[u8]) -> Option<((Rights, Caps), &[u8])>
    ensures { Reads (IsGrant version) (grant_bytes version) bytes.now (seen result) }
{
    let (count, rest) = read_byte(16, bytes)?;
    let (rights, rest) = read_rights(version, rest)?;
    let (caps, rest) = read_caps(count, rest)?;
    Some(((rights, caps), rest))
}

fn read_shown(version: u8, bytes: &[u8]) -> Option<(Shown, &[u8])>
    ensures { Reads (IsWholeShown version) (shown_bytes version) bytes.now (seen result) }
{
    let (nonce, rest) = read_six(bytes)?;
    let (count, rest) = read_byte(16, rest)?;
    let (pointer, rest) = read_byte(count, rest)?;
    let (rights, rest) = read_rights(version, rest)?;
    let (caps, rest) = read_caps(count, rest)?;
    let shown = Shown {
        nonce,
        pointer,
        rights,
        caps,
    };
    Some((shown, rest))
}

fn read_rights(version: u8, bytes: &[u8]) -> Option<(Rights, &[u8])>
    ensures { Reads (AreRights version) (rights_bytes version) bytes.now (seen result) }
{
    let (number, rest) = read_number(version, bytes)?;
    let rights = rights_in(version, number)?;
    Some((rights, rest))
}

fn read_entry(bytes: &[u8]) -> Option<(Entry, &[u8])>
    ensures { Reads IsEntry entry_bytes bytes.now (seen result) }
{
    let (tag, rest) = read_two(bytes)?;
    let (precap, rest) = read_eight(rest)?;
    Some((Entry { tag, precap }, rest))
}

fn read_entries(count: u8, bytes: &[u8]) -> Option<(Entries, &[u8])>
    requires { count ≤ 16 }
    ensures { Reads (AreSoMany IsEntry count) (flat_map entry_bytes) bytes.now (seen result) }
{
    let mut entries = Entries::new();
    let mut rest = bytes;
    for _ in 0..count {
        let (entry, after) = read_entry(rest)?;
        entries.push(entry);
        rest = after;
    }
    Some((entries, rest))
}

fn read_caps(count: u8, bytes: &[u8]) -> Option<(Caps, &[u8])>
    requires { count ≤ 16 }
    ensures { Reads (AreSoMany IsCap count) (flat_map eight_bytes) bytes.now (seen result) }
{
    let mut caps = Caps::new();
    let mut rest = bytes;
    for _ in 0..count {
        let (cap, after) = read_eight(rest)?;
        caps.push(cap);
        rest = after;
    }
    Some((caps, rest))
}
