// What a router makes of the packets that arrive.
ghost use Rattle.std.specs.Prelude.{◌≡◌, ◌≤◌, ◌<◌, ◌==◌, ℕ, true, List, [], length, slice_get, IfOk, IfSome, Some, None};
ghost use Rattle.std.specs.List.{find};
ghost use Rattle.std.specs.Option.{option_map_or};
ghost use Rattle.tva_base.specs.Plan.{IsRouterPlan};
ghost use Rattle.tva_base.specs.Changes.{changed_plan};
ghost use Rattle.tva_base.specs.Versions.{AreSomeRights};
ghost use Rattle.tva_shim.specs.Changes.{IsRequest, PointsAtOne, with_next_pointer, with_fresh, with_mark};
ghost use Rattle.tva_shim.specs.Packets.{IsCarried};
ghost use Rattle.tva_caps.specs.Check.{IfValid, IsSecondOf};
ghost use Rattle.tva_caps.specs.Known.{is_good};
ghost use Rattle.tva_flow.specs.Charges.{Charge};
ghost use Rattle.tva_flow.specs.Stands.{StandsFor};
ghost use Rattle.tva_flow.specs.Places.{IsPlaceOf};
ghost use Rattle.tva_router.specs.Judging.{tag_of, second_of, fresh_for, answer_of, answer_to_checked, answer_to_shown, answer_to_nonce, judged_by, judged_request, judged_shim, judge};
ghost use Rattle.tva_shim.specs.Shows.{kind_nonce, nonce_in};
ghost use Rattle.tva_router.specs.Steps.{IsGuard, IsKnownAt, MayJudge, Keeps, grant_in, judgement, judged_with};
ghost use Rattle.tva_router.specs.Tables.{ArePlaces};

use crate::judged::{Arrival, Judgement};
use crate::key::flow_key;
use crate::places::{place_of, places_of};
use std::alloc::{AllocError, Global};
use std::collections::HashMap;
use tva_base::{Cause, Class, Grant, RouterPlan};
use tva_caps::{Checked, Good, Minter};
use tva_flow::{FlowCache, Verdict};
use tva_shim::{Carried, Entry, Kind, Shim, Shown};

/// What a router judges packets with: what mints and checks, its cache, each of whose entries has the capability
/// that is good for its grant, and the places of its incoming links.
#[derive(Drop)]
pub(crate) struct Guard {
    pub minter: Minter,
    pub cache: FlowCache,
    pub incoming: HashMap<u16, usize>,
}

impl Guard {
    /// What a router of the plan judges with, without charges. The error is want of memory.
    pub fn build(alloc: Global, plan: &RouterPlan) -> Result<Guard, AllocError>
        requires { IsRouterPlan plan.now }
        ensures guard { IfOk result (λ guard. IsGuard plan.now 0 guard) }
        ensures stands { IfOk result (λ guard. StandsFor guard.cache []) }
    {
        let key = flow_key(&plan.master);
        Ok(Guard {
            minter: Minter::new(plan.master, plan.clock_offset),
            cache: FlowCache::with_slots_keyed(alloc, plan.slots, plan.clock_offset, key)?,
            incoming: places_of(alloc, plan.incoming.as_slice())?,
        })
    }

    /// Starts again with another master: with a new minter, and without charges, under that master's key. What was
    /// known of capabilities goes with the entries.
    pub fn restart(&mut self, plan: &RouterPlan, master: [u8; 32])
        requires { IsRouterPlan plan.now }
        ensures guard { (last : ℕ) → IsGuard plan.now last self.old
            → IsGuard (changed_plan master plan.now.routes plan.now) last self.new }
        ensures stands { StandsFor self.new.cache [] }
    {
        self.minter = Minter::new(master, plan.clock_offset);
        self.cache.clear_keyed(flow_key(&master));
    }

    /// What the router makes of an arrival that carries this, which is then what it carries on.
    pub fn judge(
        &mut self,
        plan: &RouterPlan,
        arrival: &Arrival,
        carried: &mut Carried,
    ) -> Judgement
        requires { MayJudge plan.now self.old arrival.now }
        ensures guard { IsGuard plan.now arrival.now.time.0 self.new }
        ensures answer { (h : List Charge) → StandsFor self.old.cache h
            → judged_with result carried.new ≡ judge plan.now h arrival.now carried.old }
        ensures keeps { Keeps plan.now arrival.now result.charge (nonce_in carried.old) self.old.cache self.new.cache }
        ensures carried { IsCarried carried.old → IsCarried carried.new }
    {
        match carried {
            Carried::Nothing => legacy(None),
            Carried::Malformed(_) => legacy(Some(Cause::Malformed)),
            Carried::Shim(shim) => self.judge_shim(plan, arrival, shim),
        }
    }

    #[tactic(auto, using(tva_base::proofs::Widths::some_rights), unfolding(crate::specs::Judging::judged_shim))]
    fn judge_shim(&mut self, plan: &RouterPlan, arrival: &Arrival, shim: &mut Shim) -> Judgement
        requires { MayJudge plan.now self.old arrival.now }
        ensures guard { IsGuard plan.now arrival.now.time.0 self.new }
        ensures answer { (h : List Charge) → StandsFor self.old.cache h
            → judged_with result (Carried.Shim shim.new) ≡ judged_shim plan.now h arrival.now shim.old }
        ensures keeps { Keeps plan.now arrival.now result.charge (kind_nonce shim.old.kind) self.old.cache self.new.cache }
    {
        if shim.demoted {
            return legacy(None);
        }
        match &shim.kind {
            Kind::Request(_) => self.judge_request(plan, arrival, shim),
            Kind::List(shown) => {
                let answer = self.answer_to_shown(plan, arrival, shown);
                judge_list(shim, answer)
            }
            Kind::Nonce(nonce) => {
                let answer = self.answer_to_nonce(plan, arrival, *nonce);
                judge_nonce(shim, answer)
            }
            Kind::Renewal(shown) => {
                let answer = self.answer_to_shown(plan, arrival, shown);
                self.judge_renewal(plan, arrival, shim, answer)
            }
        }
    }

    // A request gets an entry, where it has room.
    fn judge_request(&mut self, plan: &RouterPlan, arrival: &Arrival, shim: &mut Shim) -> Judgement
        requires may { MayJudge plan.now self.old arrival.now }
        requires request { IsRequest shim.old.kind }
        ensures guard { IsGuard plan.now arrival.now.time.0 self.new }
        ensures answer { judged_with result (Carried.Shim shim.new) ≡ judged_request plan.now arrival.now shim.old }
        ensures charge { result.charge ≡ None }
        ensures cache { self.new.cache ≡ self.old.cache }
    {
        let entry = Entry {
            tag: tag_of(plan, &self.incoming, arrival.from),
            precap: self.minter.mint(arrival.time, arrival.flow),
        };
        match shim.push_entry(entry) {
            Ok(()) => Judgement {
                class: Class::Request,
                cause: None,
                charge: None,
            },
            Err(_) => marked(shim, Cause::PathFull),
        }
    }

    // An authorised renewal gets a fresh pre-capability.
    fn judge_renewal(
        &mut self,
        plan: &RouterPlan,
        arrival: &Arrival,
        shim: &mut Shim,
        answer: Result<Grant, Cause>,
    ) -> Judgement
        requires may { MayJudge plan.now self.old arrival.now }
        requires points { IfOk answer (λ g. PointsAtOne shim.old.kind) }
        ensures guard { IsGuard plan.now arrival.now.time.0 self.new }
        ensures answer { judged_with result (Carried.Shim shim.new)
            ≡ judged_by shim.old (with_next_pointer (with_fresh (fresh_for plan.now arrival.now) shim.old)) answer }
        ensures charge { result.charge ≡ grant_in answer }
        ensures cache { self.new.cache ≡ self.old.cache }
    {
        match answer {
            Ok(grant) => {
                shim.set_fresh(self.minter.mint(arrival.time, arrival.flow));
                shim.advance_pointer();
                regular(grant)
            }
            Err(cause) => marked(shim, cause),
        }
    }

    // The answer to an arrival that shows capabilities.
    #[tactic(auto, unfolding(crate::specs::Judging::answer_to_shown))]
    fn answer_to_shown(
        &mut self,
        plan: &RouterPlan,
        arrival: &Arrival,
        shown: &Shown,
    ) -> Result<Grant, Cause>
        requires may { MayJudge plan.now self.old arrival.now }
        requires rights { AreSomeRights shown.now.rights }
        ensures guard { IsGuard plan.now arrival.now.time.0 self.new }
        ensures answer { (h : List Charge) → StandsFor self.old.cache h
            → result ≡ answer_to_shown plan.now h arrival.now shown.now }
        ensures keeps { Keeps plan.now arrival.now (grant_in result) shown.now.nonce self.old.cache self.new.cache }
        ensures points { IfOk result (λ g. shown.now.pointer < length shown.now.caps) }
    {
        match cap_at(shown) {
            Some(cap) => {
                // What is known stands in the entry: its place is asked for once, and before any hash.
                let at = self.cache.place(&arrival.flow);
                let known = known_at(&self.cache, at);
                let checked = self
                    .minter
                    .check_known(arrival.time, arrival.flow, cap, shown.rights, known);
                self.answer_to_checked(plan, arrival, at, checked, cap, shown.nonce)
            }
            None => Err(Cause::NoCapability),
        }
    }

    // The answer to one whose capability was checked.
    fn answer_to_checked(
        &mut self,
        plan: &RouterPlan,
        arrival: &Arrival,
        at: Option<usize>,
        checked: Checked,
        cap: u64,
        nonce: u64,
    ) -> Result<Grant, Cause>
        requires may { MayJudge plan.now self.old arrival.now }
        requires place { IsPlaceOf self.old.cache.entries arrival.now.flow at }
        requires flow { IfValid checked (λ g. g.flow ≡ arrival.now.flow) }
        requires second { IfValid checked (λ g. IsSecondOf g (second_of plan.now arrival.now)) }
        requires bounded { IfValid checked (λ g. g.second ≤ 2000000) }
        requires good { IfValid checked (λ g. is_good plan.now.master g cap ≡ true) }
        ensures guard { IsGuard plan.now arrival.now.time.0 self.new }
        ensures answer { (h : List Charge) → StandsFor self.old.cache h
            → result ≡ answer_to_checked plan.now h arrival.now checked }
        ensures keeps { Keeps plan.now arrival.now (grant_in result) nonce self.old.cache self.new.cache }
    {
        match checked {
            Checked::Valid(grant) => answer_of(
                self.cache
                    .admit_list_at(arrival.time, at, grant, cap, nonce, arrival.bytes),
            ),
            Checked::Expired => Err(Cause::Expired),
            Checked::BadHash => Err(Cause::BadHash),
        }
    }

    // The answer to one that shows a nonce alone.
    #[tactic(auto, unfolding(crate::specs::Judging::answer_to_nonce))]
    fn answer_to_nonce(
        &mut self,
        plan: &RouterPlan,
        arrival: &Arrival,
        nonce: u64,
    ) -> Result<Grant, Cause>
        requires may { MayJudge plan.now self.old arrival.now }
        ensures guard { IsGuard plan.now arrival.now.time.0 self.new }
        ensures answer { (h : List Charge) → StandsFor self.old.cache h
            → result ≡ answer_to_nonce plan.now h arrival.now nonce }
        ensures keeps { Keeps plan.now arrival.now (grant_in result) nonce self.old.cache self.new.cache }
    {
        answer_of(
            self.cache
                .admit_nonce(arrival.time, arrival.flow, nonce, arrival.bytes),
        )
    }
}

// What is known of the flow whose entry stands there.
fn known_at(cache: &FlowCache, at: Option<usize>) -> Option<Good>
    requires { IfSome at (λ place. place < length cache.now.entries) }
    ensures { IsKnownAt cache.now.entries at result }
{
    let (grant, cap) = cache.shown_at(at)?;
    Some(Good { grant, cap })
}

// An authorised list goes on with its next capability.
fn judge_list(shim: &mut Shim, answer: Result<Grant, Cause>) -> Judgement
    requires { IfOk answer (λ g. PointsAtOne shim.old.kind) }
    ensures answer { judged_with result (Carried.Shim shim.new)
        ≡ judged_by shim.old (with_next_pointer shim.old) answer }
    ensures charge { result.charge ≡ grant_in answer }
{
    match answer {
        Ok(grant) => {
            shim.advance_pointer();
            regular(grant)
        }
        Err(cause) => marked(shim, cause),
    }
}

fn judge_nonce(shim: &mut Shim, answer: Result<Grant, Cause>) -> Judgement
    ensures answer { judged_with result (Carried.Shim shim.new) ≡ judged_by shim.old shim.old answer }
    ensures charge { result.charge ≡ grant_in answer }
{
    match answer {
        Ok(grant) => regular(grant),
        Err(cause) => marked(shim, cause),
    }
}

// A packet that was authorised.
fn regular(grant: Grant) -> Judgement
    ensures { result ≡ judgement Class.Regular None (Some grant) }
{
    Judgement {
        class: Class::Regular,
        cause: None,
        charge: Some(grant),
    }
}

// A packet that isn't what it claims to be.
fn marked(shim: &mut Shim, cause: Cause) -> Judgement
    ensures shim { shim.new ≡ with_mark shim.old }
    ensures value { result ≡ judgement Class.Legacy (Some cause) None }
{
    shim.demote();
    legacy(Some(cause))
}

fn legacy(cause: Option<Cause>) -> Judgement
    ensures { result ≡ judgement Class.Legacy cause None }
{
    Judgement {
        class: Class::Legacy,
        cause,
        charge: None,
    }
}

// The grant of a verdict, or the cause of a refusal.
fn answer_of(verdict: Verdict) -> Result<Grant, Cause>
    ensures { result ≡ answer_of verdict }
{
    match verdict {
        Verdict::Authorised(grant) => Ok(grant),
        Verdict::Expired => Err(Cause::Expired),
        Verdict::OverN => Err(Cause::OverN),
        Verdict::UnknownNonce => Err(Cause::UnknownNonce),
        Verdict::CacheFull => Err(Cause::CacheFull),
        Verdict::Superseded => Err(Cause::Superseded),
    }
}

// The capability at the pointer.
fn cap_at(shown: &Shown) -> Option<u64>
    ensures cap { result ≡ slice_get shown.now.caps shown.now.pointer }
    ensures within { IfSome result (λ cap. shown.now.pointer < length shown.now.caps) }
{
    match shown.caps.as_slice().get(usize::from(shown.pointer)) {
        Some(cap) => Some(*cap),
        None => None,
    }
}

// The tag of the link that a packet came in on.
fn tag_of(plan: &RouterPlan, places: &HashMap<u16, usize>, from: Option<u16>) -> u16
    requires { ArePlaces plan.now.incoming places.now }
    ensures { result ≡ tag_of plan.now from }
{
    match from {
        Some(link) => tag_in(plan.incoming.as_slice(), places, link),
        None => plan.edge_tag,
    }
}

fn tag_in(incoming: &[(u16, u16)], places: &HashMap<u16, usize>, link: u16) -> u16
    requires { ArePlaces incoming.now places.now }
    ensures { result ≡ option_map_or (λ pair. pair.1) (find (λ pair. pair.0 == link) incoming.now) 0 }
{
    match place_of(incoming, places, link) {
        Some(place) => incoming[place].1,
        None => 0,
    }
}
