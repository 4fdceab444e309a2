// Shims.
ghost use Rattle.std.specs.Prelude.{◌≡◌, if◌then◌else◌, nat_lt, ◌≤◌, ◌↔◌, filter, length, IsErr, OnOk, OnErr};
ghost use Rattle.tva_base.specs.Versions.{IsVersion};
ghost use Rattle.tva_shim.specs.Widths.{AreEntries, AreCaps};
ghost use Rattle.tva_shim.specs.Shims.{IsShim, IsKind, IsReturn, entries_of, caps_of, granted_caps};
ghost use Rattle.tva_shim.specs.Layout.{layout, shim_size, kind_size, return_size};
ghost use Rattle.tva_shim.specs.Changes.{IsRequest, PointsAtOne, last_but_one_or_zero, last_or_zero, last_tag, tag_before, with_entry, with_next_pointer, with_fresh, with_mark};

use crate::entries::{Entry, PathFull};
use crate::kinds::{Kind, ReturnInfo};
use std::marker::Model;
use tva_base::rights_size;

/// A shim: its version, 1 or 2, the demoted mark, the number of the protocol above it, its kind, and its
/// return info. Its numbers are always within the widths of its version's layout.
#[derive(Debug, Drop)]
pub struct Shim {
    pub version: u8,
    pub demoted: bool,
    pub protocol: u8,
    pub kind: Kind,
    pub back: ReturnInfo,
}

impl Model for Shim {
    ghost use Rattle.tva_base.specs.Versions.{IsVersion};
    ghost use Rattle.tva_shim.specs.Shims.{ShimData, IsKind, IsReturn};

    ghost Value = { ShimData };

    ghost view = { λ s. record { version = s.version; demoted = s.demoted; protocol = s.protocol; kind = s.kind; back = s.back } };

    ghost invariant = { λ s. IsVersion s.version × IsKind s.version s.kind × IsReturn s.version s.back };
}

impl Shim {
    /// A shim of these parts. The version is 1 or 2, a nonce has 48 bits, rights are within the widths of
    /// the version, and a pointer is at most the number of capabilities.
    pub fn new(version: u8, demoted: bool, protocol: u8, kind: Kind, back: ReturnInfo) -> Shim
        requires version { IsVersion version }
        requires kind { IsKind version kind }
        requires back { IsReturn version back }
        ensures parts { result ≡ record { version = version; demoted = demoted; protocol = protocol; kind = kind; back = back } }
        ensures widths { IsShim result }
    {
        // what a kind and return info hold is within its widths, by their own types
        prove!(kind_bytes_of(version, &kind) <= 163);
        prove!(return_bytes_of(version, &back) <= 134);
        Shim {
            version,
            demoted,
            protocol,
            kind,
            back,
        }
    }

    /// The same shim once more.
    pub fn copied(&self) -> Shim
        ensures { result ≡ self.now }
    {
        Shim {
            version: self.version,
            demoted: self.demoted,
            protocol: self.protocol,
            kind: self.kind.copied(),
            back: self.back.copied(),
        }
    }

    /// The last nonzero tag of a request, else 0. It names the sender's path as far as the last
    /// trust boundary knows it (TVA's most recent path identifier).
    pub fn tag_key(&self) -> u16
        requires { IsRequest self.now.kind }
        ensures { result ≡ last_tag (entries_of self.now.kind) }
    {
        match &self.kind {
            Kind::Request(entries) => last_tag_of(entries.tags()),
            _ => unreachable!(),
        }
    }

    /// The last nonzero tag of a request but one, else 0. It names the sender's path as far as the
    /// trust boundary before the last one knows it.
    pub fn inner_key(&self) -> u16
        requires { IsRequest self.now.kind }
        ensures { result ≡ tag_before (entries_of self.now.kind) }
    {
        match &self.kind {
            Kind::Request(entries) => tag_before_of(entries.tags()),
            _ => unreachable!(),
        }
    }

    /// Puts an entry last in a request. It is refused exactly where 16 entries are there.
    pub fn push_entry(&mut self, entry: Entry) -> Result<(), PathFull>
        requires { IsRequest self.old.kind }
        ensures full { IsErr result ↔ (length (entries_of self.old.kind) ≡ 16) }
        ensures ok { OnOk result (self.new ≡ with_entry entry self.old) }
        ensures err { OnErr result (self.new ≡ self.old) }
    {
        match &mut self.kind {
            Kind::Request(entries) => entries.try_push(entry),
            _ => unreachable!(),
        }
    }

    /// Moves the pointer of a list or a renewal to the next capability.
    pub fn advance_pointer(&mut self)
        requires { PointsAtOne self.old.kind }
        ensures { self.new ≡ with_next_pointer self.old }
    {
        match &mut self.kind {
            Kind::List(shown) => shown.advance(),
            Kind::Renewal(shown) => shown.advance(),
            _ => unreachable!(),
        }
    }

    /// Puts a pre-capability in place of the capability at the pointer of a list or a renewal.
    pub fn set_fresh(&mut self, precap: u64)
        requires { PointsAtOne self.old.kind }
        ensures { self.new ≡ with_fresh precap self.old }
    {
        match &mut self.kind {
            Kind::List(shown) => shown.refresh(precap),
            Kind::Renewal(shown) => shown.refresh(precap),
            _ => unreachable!(),
        }
    }

    /// Sets the demoted mark.
    pub fn demote(&mut self)
        ensures { self.new ≡ with_mark self.old }
    {
        self.demoted = true;
    }
}

// the last nonzero tag, else 0
fn last_tag_of(tags: &[u16]) -> u16
    ensures { result ≡ last_or_zero (filter (nat_lt 0) tags.now) }
{
    let mut last = 0;
    for tag in tags {
        last = nonzero_or(*tag, last);
    }
    last
}

// the last nonzero tag but one, else 0
fn tag_before_of(tags: &[u16]) -> u16
    ensures { result ≡ last_but_one_or_zero (filter (nat_lt 0) tags.now) }
{
    let mut before = 0;
    let mut last = 0;
    for tag in tags {
        before = where_tagged(*tag, last, before);
        last = where_tagged(*tag, *tag, last);
    }
    before
}

// the number where the tag isn't 0, else the other one
fn where_tagged(tag: u16, number: u16, other: u16) -> u16
    ensures { result ≡ (if nat_lt 0 tag then number else other) }
{
    if tag == 0 { other } else { number }
}

// the tag, or the other one where it is 0
fn nonzero_or(tag: u16, other: u16) -> u16
    ensures { result ≡ (if nat_lt 0 tag then tag else other) }
{
    if tag == 0 { other } else { tag }
}

// the bytes of the shim's layout
#[tactic(auto, using(crate::proofs::Sizes::sizes))]
pub(crate) fn shim_bytes_of(shim: &Shim) -> u32
    ensures layout { result ≡ length (layout shim.now) }
    ensures counted { result ≡ shim_size shim.now }
    ensures short { result ≤ 297 }
    ensures widths { IsShim shim.now }
{
    // the one number whose width is its type's alone
    prove!(shim.protocol <= 255);
    kind_bytes_of(shim.version, &shim.kind) + return_bytes_of(shim.version, &shim.back)
}

fn kind_bytes_of(version: u8, kind: &Kind) -> u32
    ensures counted { result ≡ kind_size version kind.now }
    ensures short { result ≤ 163 }
    ensures entries { AreEntries (entries_of kind.now) }
    ensures caps { AreCaps (caps_of kind.now) }
{
    match kind {
        Kind::Request(entries) => 3 + 10 * entries.len() as u32,
        Kind::List(shown) | Kind::Renewal(shown) => {
            10 + rights_size(version) + 8 * shown.caps.as_slice().len() as u32
        }
        Kind::Nonce(_) => 8,
    }
}

fn return_bytes_of(version: u8, back: &ReturnInfo) -> u32
    ensures counted { result ≡ return_size version back.now }
    ensures short { result ≤ 134 }
    ensures caps { AreCaps (granted_caps back.now) }
{
    match back {
        ReturnInfo::Nothing => 0,
        ReturnInfo::Notice => 1,
        ReturnInfo::Grant { caps, .. } => {
            2 + rights_size(version) + 8 * caps.as_slice().len() as u32
        }
    }
}
