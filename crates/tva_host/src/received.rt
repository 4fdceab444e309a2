// What a received packet is, what it claims, and what is answered.
ghost use Rattle.std.specs.Prelude.{◌≡◌, ℕ, ◌<◌, ◌≤◌, ◌+◌, ◌∷◌, [], ◌++◌, ◌==◌, map, filter, nat_lt, if◌then◌else◌, IfSome};
ghost use Rattle.arrayvec.specs.ArrayVec.{array_vec_len};
ghost use Rattle.tva_base.specs.Versions.{AreRights, AreSomeRights};
ghost use Rattle.tva_shim.specs.{Shims.IsReturn, Changes.nonzero_tags, Layout.return_size};
ghost use Rattle.tva_caps.specs.Formula.{capability_of};
ghost use Rattle.tva_host.specs.Receiving.{what_kind, what_came, claim_of, claim_in, shows_grant, is_nothing, notice_for, granted, stray, brought_by};
ghost use Rattle.tva_host.specs.Claims.{claim_view};

use crate::made::Receipt;
use arrayvec::ArrayVec;
use tva_base::{BackKind, Caps, Rights, Upper, WhatKind, rights_size};
use tva_caps::capability;
use tva_shim::{Carried, Entries, Kind, ReturnInfo, Shown};

/// A packet's claim on a grant: the tags that are judged, and the pre-capabilities of the routers
/// that it passed.
#[derive(Debug, Drop)]
pub struct Claim {
    pub tags: ArrayVec<u16, 16>,
    pub precaps: Caps,
}

/// What is told of a packet for another host.
pub fn stray() -> Receipt
    ensures { result ≡ stray }
{
    Receipt {
        what: WhatKind::Stray,
        back: BackKind::Nothing,
        reply: None,
    }
}

/// What a host takes a packet for by what it carries.
pub fn what_of(carried: &Carried) -> WhatKind
    ensures { result ≡ what_came carried.now }
{
    match carried {
        Carried::Nothing | Carried::Malformed(_) => WhatKind::Legacy,
        Carried::Shim(shim) => {
            if shim.demoted {
                return WhatKind::Demoted;
            }
            what_kind(&shim.kind)
        }
    }
}

fn what_kind(kind: &Kind) -> WhatKind
    ensures { result ≡ what_kind kind.now }
{
    match kind {
        Kind::Request(_) => WhatKind::Request,
        Kind::List(_) | Kind::Nonce(_) => WhatKind::Regular,
        Kind::Renewal(_) => WhatKind::Renewal,
    }
}

/// The claim of a packet on a grant, if it has one. A marked one hasn't.
pub fn claim_in(carried: &Carried) -> Option<Claim>
    ensures { claim_view result ≡ claim_in carried.now }
{
    match carried {
        Carried::Nothing | Carried::Malformed(_) => None,
        Carried::Shim(shim) => {
            if shim.demoted {
                return None;
            }
            claim_of(&shim.kind)
        }
    }
}

fn claim_of(kind: &Kind) -> Option<Claim>
    ensures { claim_view result ≡ claim_of kind.now }
{
    match kind {
        Kind::Request(entries) => Some(Claim {
            tags: nonzero_tags(entries),
            precaps: precaps_of(entries),
        }),
        Kind::List(_) | Kind::Nonce(_) => None,
        Kind::Renewal(shown) => claim_of_renewal(shown),
    }
}

// A renewal claims a grant that passed all its routers.
fn claim_of_renewal(shown: &Shown) -> Option<Claim>
    ensures { claim_view result ≡ claim_of (Kind.Renewal shown.now) }
{
    if usize::from(shown.pointer) != shown.caps.as_slice().len() {
        return None;
    }
    Some(Claim {
        tags: ArrayVec::new(),
        precaps: shown.caps.copied(),
    })
}

fn nonzero_tags(entries: &Entries) -> ArrayVec<u16, 16>
    ensures { result.items ≡ nonzero_tags entries.now }
{
    let mut tags = ArrayVec::new();
    for entry in entries.listed().as_slice() {
        push_nonzero(&mut tags, entry.tag);
    }
    tags
}

fn push_nonzero(tags: &mut ArrayVec<u16, 16>, tag: u16)
    requires { array_vec_len tags.old < 16 }
    ensures items { tags.new.items ≡ tags.old.items ++ filter (nat_lt 0) (tag ∷ []) }
    ensures len { array_vec_len tags.new ≤ array_vec_len tags.old + 1 }
{
    if tag != 0 {
        tags.push(tag);
    }
}

fn precaps_of(entries: &Entries) -> Caps
    ensures { result ≡ map (λ e. e.precap) entries.now }
{
    let mut precaps = Caps::new();
    for entry in entries.listed().as_slice() {
        precaps.push(entry.precap);
    }
    precaps
}

/// The answer to a packet without a claim: a notice for a marked one that shows a grant and has no
/// return info.
pub fn notice_for(carried: &Carried) -> Option<ReturnInfo>
    ensures answer { result ≡ notice_for carried.now }
    ensures fits { (version : ℕ) → IfSome result (IsReturn version) }
{
    match carried {
        Carried::Nothing | Carried::Malformed(_) => None,
        Carried::Shim(shim) => {
            let shows = shows_grant(&shim.kind);
            let is_nothing = is_nothing(&shim.back);
            if shim.demoted && shows && is_nothing {
                return Some(ReturnInfo::Notice);
            }
            None
        }
    }
}

fn shows_grant(kind: &Kind) -> bool
    ensures { result ≡ shows_grant kind.now }
{
    match kind {
        Kind::Request(_) => false,
        Kind::List(_) | Kind::Nonce(_) | Kind::Renewal(_) => true,
    }
}

fn is_nothing(back: &ReturnInfo) -> bool
    ensures { result ≡ is_nothing back.now }
{
    match back {
        ReturnInfo::Nothing => true,
        ReturnInfo::Notice | ReturnInfo::Grant { .. } => false,
    }
}

/// The grant of the rights, with the capability of each pre-capability.
pub fn granted(rights: Option<Rights>, precaps: &Caps) -> Option<ReturnInfo>
    requires { IfSome rights AreSomeRights }
    ensures answer { result ≡ granted rights precaps.now }
    ensures fits { (version : ℕ) → IfSome rights (AreRights version) → IfSome result (IsReturn version) }
{
    match rights {
        None => None,
        Some(rights) => Some(ReturnInfo::Grant {
            rights,
            caps: capabilities(rights, precaps),
        }),
    }
}

fn capabilities(rights: Rights, precaps: &Caps) -> Caps
    requires { AreSomeRights rights }
    ensures { result ≡ map (λ p. capability_of p rights) precaps.now }
{
    let mut caps = Caps::new();
    for precap in precaps.as_slice() {
        caps.push(capability(*precap, rights));
    }
    caps
}

/// The return info of a reply that brings an upper part too: that of the other answer, and none where
/// there is no other.
pub fn brought_by(upper: Upper, answer: Option<ReturnInfo>) -> Option<ReturnInfo>
    ensures back { result ≡ brought_by upper answer }
    ensures fits { (version : ℕ) → IfSome answer (IsReturn version) → IfSome result (IsReturn version) }
{
    match (answer, upper) {
        (Some(back), _) => Some(back),
        (None, Upper::Nothing) => None,
        (None, Upper::Data { .. } | Upper::Ack { .. }) => Some(ReturnInfo::Nothing),
    }
}

/// The bytes of return info in a shim of that version.
pub fn return_size(version: u8, back: &ReturnInfo) -> u32
    ensures bytes { result ≡ return_size version back.now }
    ensures few { result ≤ 134 }
{
    match back {
        ReturnInfo::Nothing => 0,
        ReturnInfo::Notice => 1,
        ReturnInfo::Grant { caps, .. } => {
            2 + rights_size(version) + 8 * caps.as_slice().len() as u32
        }
    }
}
