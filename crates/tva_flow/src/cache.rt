// The cache of a router's living flows.
ghost use Rattle.std.specs.Prelude.{◌≡◌, ℕ, ◌≤◌, ◌<◌, Bool, true, false, List, [], ◌++◌, length, slice_index_or, None, MatchOption, IfOk, IfSome};
ghost use Rattle.tva_base.specs.Clock.{router_second};
ghost use Rattle.tva_flow.specs.declared.kept.Entry.{Entry};
ghost use Rattle.tva_flow.specs.Charges.{Charge, living_count};
ghost use Rattle.tva_flow.specs.Verdicts.{list_verdict, nonce_verdict, charged, is_authorised};
ghost use Rattle.tva_flow.specs.Stands.{cache, keyed, entry_of, IsChargeable, StandsFor};
ghost use Rattle.tva_base.specs.declared.packet.Grant.{Grant};
ghost use Rattle.tva_flow.specs.Places.{AreShown, IsPlaceOf, IsShown, IsShownAt};
ghost use Rattle.tva_flow.specs.Budget.{IsWithinSeconds, AreTimely, IsWithinBudget};
ghost use Rattle.tva_flow.specs.Steps.{AreNear, Admits};

use crate::hash::HashKey;
use crate::kept::{extended, fresh, is_live, is_over, judge, judge_nonce};
use crate::table::Entries;
use crate::verdicts::Verdict;
use std::alloc::{AllocError, Global};
use std::marker::Model;
use tva_base::{Flow, Grant, SECOND, Time};

/// The flows of a router that live, each by its entry. Contracts see the key by which it finds flows,
/// the number of its slots, how many nanoseconds its clock is ahead, the last time and the entries, of
/// which there are at most as many as slots, and speak of all charges for which these stand. All memory
/// is taken when it is made.
#[derive(Drop)]
pub struct FlowCache {
    clock_offset: u64,
    pub(crate) last: u64,
    entries: Entries,
}

impl Model for FlowCache {
    ghost use Rattle.std.specs.Prelude.{◌≤◌, length};
    ghost use Rattle.tva_flow.specs.Stands.{Cache, keyed};
    ghost use Rattle.tva_flow.specs.Steps.{AreNear};

    ghost Value = { Cache };

    ghost view = { λ a. keyed a.entries.key a.entries.slots a.clock_offset a.last a.entries.items };

    ghost invariant = { λ a.
        (length a.entries.items ≤ a.entries.slots)
        × AreNear a.last a.entries.items
        × (a.entries.slots ≤ 1000000)
        × (a.clock_offset ≤ 1000000000000000) };
}

/// The router second of a time.
fn second_of(clock_offset: u64, now: u64) -> u64
    requires offset { clock_offset ≤ 1000000000000000 }
    requires horizon { now ≤ 1000000000000000 }
    ensures { result ≡ router_second clock_offset now }
{
    (now + clock_offset) / SECOND
}

/// Admits a packet that shows a grant of a flow whose entry lives, or refuses it.
fn renew(
    entries: &mut Entries,
    at: usize,
    now: u64,
    grant: Grant,
    cap: u64,
    nonce: u64,
    bytes: u32,
) -> Verdict
    requires time { now ≤ 1000000000000000 }
    requires place { at < length entries.old.items }
    requires live { (e : Entry) → e ≡ slice_index_or entries.old.items at e
        → (e.grant.flow ≡ grant.flow) × (now < e.end) }
    requires near { AreNear now entries.old.items }
    requires packet { IsChargeable grant bytes }
    ensures answer { (s o last : ℕ) (h : List Charge) → last ≤ now
        → StandsFor (cache s o last entries.old.items) h
        → Admits s o h now nonce bytes (list_verdict s h now grant bytes) result entries.new.items }
    ensures near { AreNear now entries.new.items }
    ensures same { (length entries.new.items ≡ length entries.old.items)
        × (entries.new.slots ≡ entries.old.slots) × (entries.new.key ≡ entries.old.key) }
    ensures refused { is_authorised result ≡ false → entries.new.items ≡ entries.old.items }
    ensures noted { is_authorised result ≡ true → IsShown grant cap entries.new.items }
    ensures shown { (test : Grant → ℕ → Bool) → AreShown test entries.old.items → test grant cap ≡ true
        → AreShown test entries.new.items }
{
    let entry = entries.get(at);
    let verdict = judge(&entry, &grant, bytes);
    if verdict.is_authorised() {
        entries.rewrite(at, extended(&entry, grant, cap, nonce, bytes));
    }
    verdict
}

/// Admits a packet that shows a nonce of a flow whose entry lives, in that router second, or
/// refuses it.
fn renew_held(
    entries: &mut Entries,
    at: usize,
    now: u64,
    second: u64,
    nonce: u64,
    bytes: u32,
) -> Verdict
    requires time { now ≤ 1000000000000000 }
    requires place { at < length entries.old.items }
    requires live { (e : Entry) → e ≡ slice_index_or entries.old.items at e → now < e.end }
    requires near { AreNear now entries.old.items }
    requires packet { (20 ≤ bytes) × (bytes ≤ 2048) }
    ensures answer { (f : Flow) (s o last : ℕ) (h : List Charge)
        → ((e : Entry) → e ≡ slice_index_or entries.old.items at e → e.grant.flow ≡ f)
        → second ≡ router_second o now → last ≤ now
        → StandsFor (cache s o last entries.old.items) h
        → Admits s o h now nonce bytes (nonce_verdict o h now f nonce bytes) result entries.new.items }
    ensures near { AreNear now entries.new.items }
    ensures same { (length entries.new.items ≡ length entries.old.items)
        × (entries.new.slots ≡ entries.old.slots) × (entries.new.key ≡ entries.old.key) }
    ensures refused { is_authorised result ≡ false → entries.new.items ≡ entries.old.items }
    ensures shown { (test : Grant → ℕ → Bool) → AreShown test entries.old.items
        → AreShown test entries.new.items }
{
    let entry = entries.get(at);
    let verdict = judge_nonce(&entry, second, nonce, bytes);
    if verdict.is_authorised() {
        let renewed = extended(&entry, entry.grant, entry.cap, nonce, bytes);
        entries.rewrite(at, renewed);
    }
    verdict
}

/// Admits a packet of a flow that doesn't live, or refuses it. A run begins in the flow's own entry,
/// in a further one, or where there is no place for one, in one that has ended.
fn open(
    entries: &mut Entries,
    at: Option<usize>,
    now: u64,
    grant: Grant,
    cap: u64,
    nonce: u64,
    bytes: u32,
) -> Verdict
    requires time { now ≤ 1000000000000000 }
    requires place { MatchOption at (entry_of grant.flow entries.old.items ≡ None) (λ i.
        (i < length entries.old.items)
        × ((e : Entry) → e ≡ slice_index_or entries.old.items i e
        → (e.grant.flow ≡ grant.flow) × (e.end ≤ now))) }
    requires room { length entries.old.items ≤ entries.old.slots }
    requires near { AreNear now entries.old.items }
    requires packet { IsChargeable grant bytes }
    ensures answer { (o last : ℕ) (h : List Charge) → last ≤ now
        → StandsFor (cache entries.old.slots o last entries.old.items) h
        → Admits entries.old.slots o h now nonce bytes
        (list_verdict entries.old.slots h now grant bytes) result entries.new.items }
    ensures near { AreNear now entries.new.items }
    ensures room { (length entries.new.items ≤ entries.new.slots)
        × (entries.new.slots ≡ entries.old.slots) × (entries.new.key ≡ entries.old.key) }
    ensures refused { is_authorised result ≡ false → entries.new.items ≡ entries.old.items }
    ensures noted { is_authorised result ≡ true → IsShown grant cap entries.new.items }
    ensures shown { (test : Grant → ℕ → Bool) → AreShown test entries.old.items → test grant cap ≡ true
        → AreShown test entries.new.items }
{
    if is_over(grant.rights, 0, bytes) {
        return Verdict::OverN;
    }
    let entry = fresh(now, grant, cap, nonce, bytes);
    if let Some(at) = at {
        entries.rewrite(at, entry);
        return Verdict::Authorised(grant);
    }
    if !entries.is_full() {
        entries.push(entry);
        return Verdict::Authorised(grant);
    }
    let Some(other) = entries.ended(now) else {
        return Verdict::CacheFull;
    };
    entries.replace(other, entry);
    Verdict::Authorised(grant)
}

impl FlowCache {
    /// A cache of so many slots, for a router whose clock is `clock_offset` nanoseconds ahead. It starts
    /// without charges. The error is want of memory.
    pub fn with_slots(alloc: Global, slots: u32, clock_offset: u64) -> Result<FlowCache, AllocError>
        requires slots { slots ≤ 1000000 }
        requires clock { clock_offset ≤ 1000000000000000 }
        ensures value { IfOk result (λ v. v ≡ cache slots clock_offset 0 []) }
        ensures stands { IfOk result (λ v. StandsFor v []) }
    {
        FlowCache::with_slots_keyed(alloc, slots, clock_offset, HashKey::FIXED)
    }

    /// The same under a key of the hash by which a flow's entry is found. Where senders choose the
    /// addresses of flows, the key is to be one that they don't know: under a key that they know they
    /// can choose flows whose packets each cost as many steps as there are slots. No answer depends on it.
    pub fn with_slots_keyed(
        alloc: Global,
        slots: u32,
        clock_offset: u64,
        key: HashKey,
    ) -> Result<FlowCache, AllocError>
        requires slots { slots ≤ 1000000 }
        requires clock { clock_offset ≤ 1000000000000000 }
        ensures value { IfOk result (λ v. v ≡ keyed key slots clock_offset 0 []) }
        ensures stands { IfOk result (λ v. StandsFor v []) }
    {
        let entries = Entries::with_slots(alloc, slots, key)?;
        Ok(FlowCache {
            clock_offset,
            last: 0,
            entries,
        })
    }

    /// The verdict on a packet of `length` bytes that shows a capability of the grant, which the caller
    /// has checked, and a nonce. Times are in nanoseconds, at most 10^15, and never fall. The verdict is the first that
    /// holds of Superseded, OverN, CacheFull and Authorised, over all charges so far. Exactly an
    /// authorised packet is charged, and its nonce then holds the flow; a refusal changes nothing but the
    /// last time. This is TVA's accounting of bytes and life; the order of the refusals, and the first
    /// and the third of them, are this project's own.
    pub fn admit_list(&mut self, now: Time, grant: Grant, nonce: u64, length: u32) -> Verdict
        requires time { self.old.last ≤ now.0 }
        requires horizon { now.0 ≤ 1000000000000000 }
        requires packet { IsChargeable grant length }
        ensures verdict { (h : List Charge) → StandsFor self.old h
            → result ≡ list_verdict self.old.slots h now.0 grant length }
        ensures stands { (h : List Charge) → StandsFor self.old h
            → StandsFor self.new (h ++ charged result now.0 nonce length) }
        ensures timely { (h : List Charge) → StandsFor self.old h → AreTimely self.old.offset h
            → IsWithinSeconds self.old.offset now.0 grant
            → AreTimely self.old.offset (h ++ charged result now.0 nonce length) }
        ensures last { self.new.last ≡ now.0 }
        ensures same { (self.new.slots ≡ self.old.slots) × (self.new.offset ≡ self.old.offset) }
        ensures key { self.new.key ≡ self.old.key }
        ensures refused { is_authorised result ≡ false → self.new.entries ≡ self.old.entries }
    {
        let at = self.place(&grant.flow);
        self.admit_list_at(now, at, grant, 0, nonce, length)
    }

    /// Where the flow's entry stands: what `shown_at` and `admit_list_at` ask for.
    pub fn place(&self, flow: &Flow) -> Option<usize>
        ensures place { IsPlaceOf self.now.entries flow.now result }
        ensures within { IfSome result (λ place. place < length self.now.entries) }
    {
        self.entries.find(flow)
    }

    /// The grant that holds the flow whose entry stands there, and the capability that was shown for it.
    pub fn shown_at(&self, at: Option<usize>) -> Option<(Grant, u64)>
        requires { IfSome at (λ place. place < length self.now.entries) }
        ensures { IsShownAt self.now.entries at result }
    {
        let entry = self.entries.get(at?);
        Some((entry.grant, entry.cap))
    }

    /// The same as `admit_list` does, of a flow whose entry stands there. The capability that was shown for the
    /// grant of an authorised packet stands in the flow's entry from then on, until another list is authorised
    /// that shows one of the flow.
    pub fn admit_list_at(
        &mut self,
        now: Time,
        at: Option<usize>,
        grant: Grant,
        cap: u64,
        nonce: u64,
        length: u32,
    ) -> Verdict
        requires time { self.old.last ≤ now.0 }
        requires horizon { now.0 ≤ 1000000000000000 }
        requires packet { IsChargeable grant length }
        requires place { IsPlaceOf self.old.entries grant.flow at }
        ensures verdict { (h : List Charge) → StandsFor self.old h
            → result ≡ list_verdict self.old.slots h now.0 grant length }
        ensures stands { (h : List Charge) → StandsFor self.old h
            → StandsFor self.new (h ++ charged result now.0 nonce length) }
        ensures timely { (h : List Charge) → StandsFor self.old h → AreTimely self.old.offset h
            → IsWithinSeconds self.old.offset now.0 grant
            → AreTimely self.old.offset (h ++ charged result now.0 nonce length) }
        ensures last { self.new.last ≡ now.0 }
        ensures same { (self.new.slots ≡ self.old.slots) × (self.new.offset ≡ self.old.offset) }
        ensures key { self.new.key ≡ self.old.key }
        ensures refused { is_authorised result ≡ false → self.new.entries ≡ self.old.entries }
        ensures noted { is_authorised result ≡ true → IsShown grant cap self.new.entries }
        ensures shown { (test : Grant → ℕ → Bool) → AreShown test self.old.entries → test grant cap ≡ true
            → AreShown test self.new.entries }
    {
        self.last = now.0;
        match at {
            Some(place) if is_live(&self.entries.get(place), now.0) => {
                renew(&mut self.entries, place, now.0, grant, cap, nonce, length)
            }
            _ => open(&mut self.entries, at, now.0, grant, cap, nonce, length),
        }
    }

    /// The verdict on a packet of `length` bytes of the flow that shows a nonce alone. Times are in
    /// nanoseconds, at most 10^15, and never fall. The verdict is the first that holds of UnknownNonce, Expired, OverN
    /// and Authorised by the holder's grant, over all charges so far. Exactly an authorised packet is
    /// charged; a refusal changes nothing but the last time. The nonce that stands for a list of
    /// capabilities is TVA's.
    pub fn admit_nonce(&mut self, now: Time, flow: Flow, nonce: u64, length: u32) -> Verdict
        requires time { self.old.last ≤ now.0 }
        requires horizon { now.0 ≤ 1000000000000000 }
        requires packet { (20 ≤ length) × (length ≤ 2048) }
        ensures verdict { (h : List Charge) → StandsFor self.old h
            → result ≡ nonce_verdict self.old.offset h now.0 flow nonce length }
        ensures stands { (h : List Charge) → StandsFor self.old h
            → StandsFor self.new (h ++ charged result now.0 nonce length) }
        ensures timely { (h : List Charge) → StandsFor self.old h → AreTimely self.old.offset h
            → AreTimely self.old.offset (h ++ charged result now.0 nonce length) }
        ensures last { self.new.last ≡ now.0 }
        ensures same { (self.new.slots ≡ self.old.slots) × (self.new.offset ≡ self.old.offset) }
        ensures key { self.new.key ≡ self.old.key }
        ensures refused { is_authorised result ≡ false → self.new.entries ≡ self.old.entries }
        ensures shown { (test : Grant → ℕ → Bool) → AreShown test self.old.entries
            → AreShown test self.new.entries }
    {
        self.last = now.0;
        let second = second_of(self.clock_offset, now.0);
        match self.entries.find(&flow) {
            Some(place) if is_live(&self.entries.get(place), now.0) => {
                renew_held(&mut self.entries, place, now.0, second, nonce, length)
            }
            _ => Verdict::UnknownNonce,
        }
    }

    /// Forgets all charges: the cache then stands for none, as a new one. Its last time stays, and times
    /// don't fall after it either. It takes a step for each entry that is kept, and none for a slot.
    pub fn clear(&mut self)
        ensures value { self.new ≡ keyed self.old.key self.old.slots self.old.offset self.old.last [] }
        ensures stands { StandsFor self.new [] }
    {
        let key = self.entries.key();
        self.clear_keyed(key);
    }

    /// The same, with another key of the hash from then on, as `with_slots_keyed` has it.
    pub fn clear_keyed(&mut self, key: HashKey)
        ensures value { self.new ≡ keyed key self.old.slots self.old.offset self.old.last [] }
        ensures stands { StandsFor self.new [] }
    {
        self.entries.clear(key);
    }

    /// How many flows live at that time, in nanoseconds, which isn't before an earlier one.
    pub fn living(&self, now: Time) -> u32
        requires { self.now.last ≤ now.0 }
        ensures count { (h : List Charge) → StandsFor self.now h → result ≡ living_count h now.0 }
        ensures few { result ≤ self.now.slots }
    {
        self.entries.living(now.0) as u32
    }

    /// How many flows may live at once. With these slots the cache keeps every grant's budget, whatever
    /// packets came: where each charge came in one of its grant's T seconds, the charges of each grant
    /// have less than twice its N units of 1,024 bytes. The bound is TVA's.
    pub fn slots(&self) -> u32
        ensures slots { result ≡ self.now.slots }
        ensures budget { (h : List Charge) → StandsFor self.now h → AreTimely self.now.offset h
            → IsWithinBudget h }
        ensures living { (h : List Charge) → StandsFor self.now h
            → (now : ℕ) → self.now.last ≤ now → living_count h now ≤ self.now.slots }
        ensures entries { length self.now.entries ≤ self.now.slots }
    {
        self.entries.slots()
    }
}
