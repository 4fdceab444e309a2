// A policy: whom it granted, and whom it would grant.
ghost use Rattle.std.specs.Prelude.{◌≡◌, Bool, true, List, [], ◌∷◌, ◌++◌, false, is_some, not, IfOk, IfNone, OnOk, OnErr};
ghost use Rattle.tva_base.specs.declared.plan.PolicyPlan.{PolicyPlan};
ghost use Rattle.tva_policy.specs.Grants.{Deed, Sent, Decided, grant_decision, has_address, lets_in};
ghost use Rattle.tva_policy.specs.Notes.{StandsFor, denies};

use crate::sets::{has_any, set_of};
use std::alloc::{AllocError, Global};
use std::collections::{BTreeMap, BTreeSet};
use std::marker::Model;
use tva_base::{Address, PolicyKind, PolicyPlan, Rights};

/// How many destinations are remembered beside the set. Those whose lowest six bits are the same share
/// one place.
const RECENT: usize = 64;

/// Whom a host grants. It keeps the destinations that were noted, where its kind asks for them, and the grants
/// to each source. One that was noted lately is noted again without a walk of the set, which waits for the
/// memory of its nodes.
#[derive(Drop)]
pub struct Policy {
    kind: PolicyKind,
    rights: Rights,
    grants: u32,
    deny: BTreeSet<Address>,
    deny_tags: BTreeSet<u16>,
    noted: BTreeSet<Address>,
    granted: BTreeMap<Address, u32>,
    recent: [Option<Address>; RECENT],
}

impl Model for Policy {
    ghost use Rattle.std.specs.Prelude.{All};
    ghost use Rattle.tva_policy.specs.Notes.{Notes, IsNotedIn};

    ghost Value = { Notes };

    ghost view = { λ p. record { kind = p.kind; rights = p.rights; grants = p.grants; deny = p.deny.keys; deny_tags = p.deny_tags.keys; noted = p.noted.keys; granted = p.granted.entries } };

    ghost invariant = { λ p. All (IsNotedIn p.noted.keys) p.recent };
}

impl Policy {
    /// A policy with this plan, which noted nothing and granted nobody.
    pub fn build(alloc: Global, plan: &PolicyPlan) -> Result<Policy, AllocError>
        ensures { IfOk result (λ policy. StandsFor plan.now policy []) }
    {
        Ok(Policy {
            kind: plan.kind,
            rights: plan.rights,
            grants: plan.grants,
            deny: set_of(alloc, plan.deny.as_slice())?,
            deny_tags: set_of(alloc, plan.deny_tags.as_slice())?,
            noted: BTreeSet::new(alloc),
            granted: BTreeMap::new(alloc),
            recent: [None; RECENT],
        })
    }

    /// Notes a send row to the destination.
    pub fn sent(&mut self, alloc: Global, dst: Address) -> Result<(), AllocError>
        ensures stands { (plan : PolicyPlan) (h : List Deed) → StandsFor plan self.old h → OnOk result (StandsFor plan self.new (h ++ Sent dst ∷ [])) }
        ensures err { OnErr result (self.new ≡ self.old) }
    {
        if !self.asks() {
            return Ok(());
        }
        if self.is_recent(dst) {
            return Ok(());
        }
        self.noted.insert(dst)?;
        self.recent[dst.0 as usize % RECENT] = Some(dst);
        Ok(())
    }

    // Whether its kind asks whom the host sent to.
    fn asks(&self) -> bool
        ensures { result ≡ false → (x y : Bool) → lets_in self.now.kind x ≡ lets_in self.now.kind y }
    {
        match self.kind {
            PolicyKind::Client => true,
            PolicyKind::DenyAll | PolicyKind::Server => false,
        }
    }

    // Whether a destination is remembered. It was noted then.
    fn is_recent(&self, dst: Address) -> bool
        ensures { result ≡ true → has_address self.now.noted dst ≡ true }
    {
        match self.recent[dst.0 as usize % RECENT] {
            Some(noted) => noted == dst,
            None => false,
        }
    }

    /// Decides whether the source of a packet with these tags is granted, and which rights: units of
    /// 1,024 bytes and seconds. A grant is counted; a decision without a grant changes nothing.
    pub fn decide(
        &mut self,
        alloc: Global,
        src: Address,
        tags: &[u16],
    ) -> Result<Option<Rights>, AllocError>
        ensures answer { (plan : PolicyPlan) (h : List Deed) → StandsFor plan self.old h → IfOk result (λ answer. answer ≡ grant_decision plan h src tags.now) }
        ensures stands { (plan : PolicyPlan) (h : List Deed) → StandsFor plan self.old h → IfOk result (λ answer. StandsFor plan self.new (h ++ Decided src (is_some answer) ∷ [])) }
        ensures refused { IfOk result (λ answer. IfNone answer (self.new ≡ self.old)) }
        ensures err { OnErr result (self.new ≡ self.old) }
    {
        if !self.lets_in(src) {
            return Ok(None);
        }
        let before = self.granted.get(&src).copied().unwrap_or(0);
        if before >= self.grants {
            return Ok(None);
        }
        if self.denies(src, tags) {
            return Ok(None);
        }
        // The count stays at most `grants`, so it fits its width.
        self.granted.insert(src, before + 1)?;
        Ok(Some(self.rights))
    }

    /// Whether it grants nobody, by its kind. A decision then has no need of a packet's tags.
    pub fn grants_nobody(&self) -> bool
        ensures kind { (plan : PolicyPlan) (h : List Deed) → StandsFor plan self.now h → result ≡ not (lets_in plan.kind true) }
        ensures stands { (plan : PolicyPlan) (h : List Deed) → StandsFor plan self.now h → result ≡ true → (src : Address) → StandsFor plan self.now (h ++ Decided src false ∷ []) }
    {
        match self.kind {
            PolicyKind::DenyAll => true,
            PolicyKind::Client | PolicyKind::Server => false,
        }
    }

    // Whether the kind lets a source in: one that the host sent to before, or not.
    fn lets_in(&self, src: Address) -> bool
        ensures { result ≡ lets_in self.now.kind (has_address self.now.noted src) }
    {
        match self.kind {
            PolicyKind::DenyAll => false,
            PolicyKind::Client => self.noted.contains(&src),
            PolicyKind::Server => true,
        }
    }

    // Whether a source is denied, or a tag of its packet.
    fn denies(&self, src: Address, tags: &[u16]) -> bool
        ensures { result ≡ denies self.now src tags.now }
    {
        self.deny.contains(&src) || has_any(&self.deny_tags, tags)
    }
}
