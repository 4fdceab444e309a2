// What is kept of one flow.
ghost use Rattle.std.specs.Prelude.{◌≡◌, ◌+◌, ◌*◌, ◌^◌, ◌<◌, ◌≤◌, nat_lt};
ghost use Rattle.tva_flow.specs.Charges.{same_flow, same_grant};
ghost use Rattle.tva_flow.specs.Steps.{living_verdict, held_verdict, counted, renewed, opened};

use crate::verdicts::Verdict;
use tva_base::{Flow, Grant, Rights, UNIT, credit};

/// What is kept of a flow: its holder, the capability that was shown for the holder's grant, the bytes of
/// that grant in this run, and the end of the flow's life in nanoseconds.
#[derive(Clone, Copy, Debug, PartialEq, Eq)]
pub struct Entry {
    pub grant: Grant,
    pub cap: u64,
    pub nonce: u64,
    pub used: u64,
    pub end: u64,
}

// A look waits for the memory of one entry, and there is one for each slot.
const _: () = prove!(size_of::<Entry>() <= 56);

/// Whether the flow of the entry lives. At the very end of its life it doesn't.
pub(crate) fn is_live(entry: &Entry, now: u64) -> bool
    ensures { result ≡ nat_lt now entry.now.end }
{
    entry.end > now
}

/// Whether the flows are one.
pub(crate) fn is_same_flow(a: &Flow, b: &Flow) -> bool
    ensures { result ≡ same_flow a.now b.now }
{
    *a == *b
}

/// Whether the grants are one.
fn is_same_grant(a: &Grant, b: &Grant) -> bool
    ensures { result ≡ same_grant a.now b.now }
{
    *a == *b
}

/// Whether so many bytes and a packet are more than the N units of the rights.
pub(crate) fn is_over(rights: Rights, used: u64, length: u32) -> bool
    requires { used ≤ 2 ^ 42 }
    ensures { result ≡ nat_lt (1024 * rights.n) (used + length) }
{
    used + u64::from(length) > UNIT * u64::from(rights.n)
}

/// The bytes that count against the grant.
fn counted_bytes(entry: &Entry, grant: &Grant) -> u64
    ensures { result ≡ counted entry.now grant.now }
{
    if is_same_grant(&entry.grant, grant) {
        entry.used
    } else {
        0
    }
}

/// The verdict on a packet that shows a grant of the flow, whose entry lives.
pub(crate) fn judge(entry: &Entry, grant: &Grant, length: u32) -> Verdict
    requires { entry.now.used ≤ 2 ^ 42 }
    ensures { result ≡ living_verdict entry.now grant.now length }
{
    if !is_same_grant(&entry.grant, grant) && grant.second <= entry.grant.second {
        return Verdict::Superseded;
    }
    if is_over(grant.rights, counted_bytes(entry, grant), length) {
        Verdict::OverN
    } else {
        Verdict::Authorised(*grant)
    }
}

/// The verdict on a packet that shows a nonce of the flow, whose entry lives, in that router second.
pub(crate) fn judge_nonce(entry: &Entry, second: u64, nonce: u64, length: u32) -> Verdict
    requires { (entry.now.used ≤ 2 ^ 42) × (entry.now.grant.second ≤ 2000000) }
    ensures { result ≡ held_verdict second entry.now nonce length }
{
    if entry.nonce != nonce {
        return Verdict::UnknownNonce;
    }
    let grant = &entry.grant;
    if grant.second + u64::from(grant.rights.t) <= second {
        Verdict::Expired
    } else if is_over(grant.rights, entry.used, length) {
        Verdict::OverN
    } else {
        Verdict::Authorised(*grant)
    }
}

/// The entry after one more packet. A newer grant keeps the life that remains, and counts anew.
pub(crate) fn extended(entry: &Entry, grant: Grant, cap: u64, nonce: u64, length: u32) -> Entry
    requires near { (entry.now.end < 2 ^ 61) × (entry.now.used ≤ 2 ^ 42) }
    requires packet { (length ≤ 2048) × (1 ≤ grant.rights.n) }
    ensures value { result ≡ renewed entry.now grant cap nonce length }
    ensures ranges { (grant.rights.n < 2 ^ 32) × (grant.rights.t < 2 ^ 8) }
{
    Entry {
        grant,
        cap,
        nonce,
        used: counted_bytes(entry, &grant) + u64::from(length),
        end: entry.end + credit(length, grant.rights),
    }
}

/// The first entry of a run.
pub(crate) fn fresh(now: u64, grant: Grant, cap: u64, nonce: u64, length: u32) -> Entry
    requires time { now ≤ 1000000000000000 }
    requires packet { (length ≤ 2048) × (1 ≤ grant.rights.n) }
    ensures value { result ≡ opened now grant cap nonce length }
    ensures ranges { (grant.rights.n < 2 ^ 32) × (grant.rights.t < 2 ^ 8) }
{
    Entry {
        grant,
        cap,
        nonce,
        used: u64::from(length),
        end: now + credit(length, grant.rights),
    }
}
