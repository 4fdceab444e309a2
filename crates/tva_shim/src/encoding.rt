// Shims that are written as bytes, part by part.
ghost use Rattle.std.specs.Prelude.{◌≡◌, ◌≤◌, ◌<◌, ◌+◌, ◌*◌, ◌^◌, ◌++◌, ◌∷◌, length, flat_map};
ghost use Rattle.arrayvec.specs.ArrayVec.{array_vec_len};
ghost use Rattle.tva_base.specs.Versions.{AreRights};
ghost use Rattle.tva_shim.specs.Widths.{AreEntries, AreCaps};
ghost use Rattle.tva_shim.specs.Shims.{IsShim, IsShown, IsKind, IsReturn, entries_of, caps_of, granted_caps};
ghost use Rattle.tva_shim.specs.Layout.{eight_bytes, rights_bytes, entry_bytes, shown_bytes, kind_bytes, return_bytes, layout, version_and_type, kind_code as code_of_kind, return_bit as bit_of_return, kind_size, return_size};

use crate::entries::Entries;
use crate::kinds::{Kind, ReturnInfo, Shown};
use crate::numbers::{write_eight, write_number, write_six, write_two};
use crate::shims::Shim;
use arrayvec::ArrayVec;
use tva_base::{Caps, Rights, rights_number, rights_size};

/// Leaves the layout of a shim in `bytes`, and nothing else.
#[tactic(auto, unfolding(crate::specs::Layout::layout))]
pub fn encode(shim: &Shim, bytes: &mut ArrayVec<u8, 330>)
    ensures layout { bytes.new.items ≡ layout shim.now }
    ensures widths { IsShim shim.now }
{
    bytes.clear();
    bytes.push(first_byte(shim));
    bytes.push(shim.protocol);
    write_kind(shim.version, bytes, &shim.kind);
    write_return(shim.version, bytes, &shim.back);
}

// the version and the type
fn first_byte(shim: &Shim) -> u8
    ensures { result ≡ version_and_type shim.now }
{
    let demoted = if shim.demoted { 8 } else { 0 };
    16 * shim.version + demoted + return_bit(&shim.back) + kind_code(&shim.kind)
}

fn kind_code(kind: &Kind) -> u8
    ensures code { result ≡ code_of_kind kind.now }
    ensures small { result ≤ 3 }
{
    match kind {
        Kind::Request(_) => 0,
        Kind::List(_) => 1,
        Kind::Nonce(_) => 2,
        Kind::Renewal(_) => 3,
    }
}

fn return_bit(back: &ReturnInfo) -> u8
    ensures bit { result ≡ bit_of_return back.now }
    ensures small { result ≤ 4 }
{
    match back {
        ReturnInfo::Nothing => 0,
        ReturnInfo::Notice | ReturnInfo::Grant { .. } => 4,
    }
}

fn write_kind(version: u8, bytes: &mut ArrayVec<u8, 330>, kind: &Kind)
    requires room { array_vec_len bytes.old ≤ 2 }
    requires fits { IsKind version kind.now }
    ensures items { bytes.new.items ≡ bytes.old.items ++ kind_bytes version kind.now }
    ensures room { array_vec_len bytes.new ≤ 163 }
    ensures entries { AreEntries (entries_of kind.now) }
    ensures caps { AreCaps (caps_of kind.now) }
{
    match kind {
        Kind::Request(entries) => write_entries(bytes, entries),
        Kind::List(shown) => write_shown(version, bytes, shown),
        Kind::Nonce(nonce) => write_six(bytes, *nonce),
        Kind::Renewal(shown) => write_shown(version, bytes, shown),
    }
}

fn write_return(version: u8, bytes: &mut ArrayVec<u8, 330>, back: &ReturnInfo)
    requires room { array_vec_len bytes.old ≤ 163 }
    requires fits { IsReturn version back.now }
    ensures items { bytes.new.items ≡ bytes.old.items ++ return_bytes version back.now }
    ensures caps { AreCaps (granted_caps back.now) }
{
    match back {
        ReturnInfo::Nothing => (),
        ReturnInfo::Notice => bytes.push(1),
        ReturnInfo::Grant { rights, caps } => {
            bytes.push(2);
            bytes.push(caps.as_slice().len() as u8);
            write_rights(version, bytes, *rights);
            write_caps(bytes, caps);
        }
    }
}

fn write_shown(version: u8, bytes: &mut ArrayVec<u8, 330>, shown: &Shown)
    requires room { array_vec_len bytes.old ≤ 2 }
    requires fits { IsShown version shown.now }
    ensures items { bytes.new.items ≡ bytes.old.items ++ shown_bytes version shown.now }
    ensures room { array_vec_len bytes.new ≤ 142 }
    ensures caps { AreCaps shown.now.caps }
{
    write_six(bytes, shown.nonce);
    bytes.push(shown.caps.as_slice().len() as u8);
    bytes.push(shown.pointer);
    write_rights(version, bytes, shown.rights);
    write_caps(bytes, &shown.caps);
}

fn write_rights(version: u8, bytes: &mut ArrayVec<u8, 330>, rights: Rights)
    requires room { array_vec_len bytes.old ≤ 300 }
    requires fits { AreRights version rights }
    ensures items { bytes.new.items ≡ bytes.old.items ++ rights_bytes version rights }
    ensures len { array_vec_len bytes.new ≤ array_vec_len bytes.old + 4 }
{
    // a version's rights take 4 bytes at most
    prove!(rights_size(version) <= 4);
    write_number(version, bytes, rights_number(version, rights));
}

fn write_entries(bytes: &mut ArrayVec<u8, 330>, entries: &Entries)
    requires room { array_vec_len bytes.old ≤ 2 }
    ensures items { bytes.new.items ≡ bytes.old.items ++ length entries.now ∷ flat_map entry_bytes entries.now }
    ensures room { array_vec_len bytes.new ≤ 163 }
    ensures entries { AreEntries entries.now }
{
    bytes.push(entries.len() as u8);
    for entry in entries.listed().as_slice() {
        write_two(bytes, entry.tag);
        write_eight(bytes, entry.precap);
    }
}

fn write_caps(bytes: &mut ArrayVec<u8, 330>, caps: &Caps)
    requires room { array_vec_len bytes.old ≤ 200 }
    ensures items { bytes.new.items ≡ bytes.old.items ++ flat_map eight_bytes caps.now }
    ensures len { array_vec_len bytes.new ≤ array_vec_len bytes.old + 128 }
    ensures caps { AreCaps caps.now }
{
    for cap in caps.as_slice() {
        write_eight(bytes, *cap);
    }
}
