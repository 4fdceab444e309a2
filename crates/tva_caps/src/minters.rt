// The minter of a router: it mints pre-capabilities and checks what is shown.
ghost use Rattle.std.specs.Prelude.{◌≡◌, ◌≤◌, ◌<◌, ◌+◌, true};
ghost use Rattle.tva_base.specs.Versions.{AreSomeRights};
ghost use Rattle.tva_caps.specs.Formula.{age_of, precap_of};
ghost use Rattle.tva_caps.specs.Known.{is_good, IsGoodOrNone};
ghost use Rattle.tva_caps.specs.Minting.{MayCall, second_at};

use crate::formulas::{EPOCH, capability, precap_with, stamp_shown};
use crate::known::{Good, told_by};
use crate::secrets::Secrets;
use std::marker::Model;
use tva_base::{Flow, Grant, Rights, SECOND, Time};

/// What a router answers to a shown capability: it is good for that grant, or its seconds are over,
/// or it is no capability of the flow with these rights.
#[derive(Clone, Copy, Debug, PartialEq, Eq)]
pub enum Checked {
    Valid(Grant),
    Expired,
    BadHash,
}

/// The part of a router that mints pre-capabilities and checks capabilities. Contracts see its
/// master, its clock's offset and the time of its last call, at first 0, both in nanoseconds. Times
/// that are handed to one minter never fall, and are at most 10^15. No call takes memory.
#[derive(Drop)]
pub struct Minter {
    master: [u8; 32],
    clock_offset: u64,
    last: Time,
    secrets: Secrets,
}

impl Model for Minter {
    ghost use Rattle.tva_caps.specs.Minting.{MinterState};

    ghost Value = { MinterState };

    ghost use Rattle.tva_caps.specs.Kept.{KeepsSecrets};

    ghost view = { λ m. record { master = m.master; clock_offset = m.clock_offset; last = m.last.0 } };

    ghost invariant = { KeepsSecrets };
}

impl Minter {
    ghost use Rattle.tva_caps.specs.Check.{IfValid, IsSecondOf, check_of};

    /// The minter of a router whose secrets come from that master, and whose clock is so many
    /// nanoseconds ahead.
    pub fn new(master: [u8; 32], clock_offset: u64) -> Minter
        requires { clock_offset ≤ 1000000000000000 }
        ensures { result ≡ record { master = master; clock_offset = clock_offset; last = 0 } }
    {
        let secrets = Secrets::new(&master, clock_offset / SECOND / EPOCH);
        Minter {
            master,
            clock_offset,
            last: Time(0),
            secrets,
        }
    }

    /// The pre-capability of the flow in the router second of `now`.
    pub fn mint(&mut self, now: Time, flow: Flow) -> u64
        requires { MayCall self.old now.0 }
        ensures precap { result ≡ precap_of self.old.master flow (second_at self.old now.0) }
        ensures after { self.new ≡ record self.old { last = now.0 } }
    {
        let second = self.turn_to(now);
        self.precap_kept(second, flow)
    }

    /// What the router answers at `now` to a packet of the flow that shows `cap` with these rights.
    /// The value's age is the router seconds since the last one with the value's first byte as its
    /// stamp. `Expired` comes where the age is `t` or more, and `BadHash` where the value isn't the
    /// capability of the pre-capability of the second that it came from, or there is no such second.
    pub fn check(&mut self, now: Time, flow: Flow, cap: u64, rights: Rights) -> Checked
        requires time { MayCall self.old now.0 }
        requires granted { AreSomeRights rights }
        ensures answer { result ≡ check_of self.old.master (second_at self.old now.0) flow cap rights }
        ensures grant { IfValid result (λ g. (g.flow ≡ flow) × (g.rights ≡ rights)) }
        ensures seconds { IfValid result (λ g. IsSecondOf g (second_at self.old now.0)) }
        ensures bounded { IfValid result (λ g. g.second ≤ 2000000) }
        ensures after { self.new ≡ record self.old { last = now.0 } }
    {
        self.check_known(now, flow, cap, rights, None)
    }

    /// The same, where a capability is known that is good under the router's master: whether another one of that
    /// grant is good is told by it, and nothing is hashed.
    #[tactic(auto, unfolding(crate::specs::Check::check_of, crate::specs::Check::checked_at))]
    pub fn check_known(
        &mut self,
        now: Time,
        flow: Flow,
        cap: u64,
        rights: Rights,
        known: Option<Good>,
    ) -> Checked
        requires time { MayCall self.old now.0 }
        requires granted { AreSomeRights rights }
        requires known { IsGoodOrNone self.old.master known }
        ensures answer { result ≡ check_of self.old.master (second_at self.old now.0) flow cap rights }
        ensures grant { IfValid result (λ g. (g.flow ≡ flow) × (g.rights ≡ rights)) }
        ensures seconds { IfValid result (λ g. IsSecondOf g (second_at self.old now.0)) }
        ensures bounded { IfValid result (λ g. g.second ≤ 2000000) }
        ensures after { self.new ≡ record self.old { last = now.0 } }
        ensures good { IfValid result (λ g. is_good self.old.master g cap ≡ true) }
    {
        let second = self.turn_to(now);
        let age = age_in(second, cap);
        if age >= u64::from(rights.t) {
            return Checked::Expired;
        }
        if second < age {
            return Checked::BadHash;
        }
        let grant = Grant {
            flow,
            rights,
            second: second - age,
        };
        if self.is_good(&Good { grant, cap }, &known) {
            return Checked::Valid(grant);
        }
        Checked::BadHash
    }

    // Whether a capability is good, by what is known or by its digests.
    fn is_good(&self, shown: &Good, known: &Option<Good>) -> bool
        requires past { shown.now.grant.second ≤ second_at self.now self.now.last }
        requires recent { second_at self.now self.now.last < shown.now.grant.second + 128 }
        requires rights { AreSomeRights shown.now.grant.rights }
        requires known { IsGoodOrNone self.now.master known.now }
        ensures { result ≡ is_good self.now.master shown.now.grant shown.now.cap }
    {
        match told_by(known, shown) {
            Some(is_good) => is_good,
            None => self.has_its_digests(shown),
        }
    }

    // Whether a capability is the one of its pre-capability.
    fn has_its_digests(&self, shown: &Good) -> bool
        requires past { shown.now.grant.second ≤ second_at self.now self.now.last }
        requires recent { second_at self.now self.now.last < shown.now.grant.second + 128 }
        requires rights { AreSomeRights shown.now.grant.rights }
        ensures { result ≡ is_good self.now.master shown.now.grant shown.now.cap }
    {
        let grant = &shown.grant;
        shown.cap == capability(self.precap_kept(grant.second, grant.flow), grant.rights)
    }

    // Takes the secrets of the epoch of that time, and answers its router second.
    fn turn_to(&mut self, now: Time) -> u64
        requires { MayCall self.old now.0 }
        ensures second { result ≡ second_at self.old now.0 }
        ensures bounded { result ≤ 2000000 }
        ensures after { self.new ≡ record self.old { last = now.0 } }
    {
        let second = (now.0 + self.clock_offset) / SECOND;
        let epoch = second / EPOCH;
        if epoch != self.secrets.epoch {
            self.secrets = self.secrets.moved_to(&self.master, epoch);
        }
        self.last = now;
        second
    }

    // The pre-capability of a flow in a router second that isn't far back.
    #[tactic(auto, unfolding(crate::specs::Formula::precap_of))]
    fn precap_kept(&self, second: u64, flow: Flow) -> u64
        requires past { second ≤ second_at self.now self.now.last }
        requires recent { second_at self.now self.now.last < second + 128 }
        ensures { result ≡ precap_of self.now.master flow second }
    {
        let secret = self.secrets.of_epoch(second / EPOCH);
        precap_with(&secret, second, flow)
    }
}

// The age in a router second of a shown value, in seconds.
#[tactic(auto, unfolding(crate::specs::Formula::age_of))]
fn age_in(second: u64, shown: u64) -> u64
    requires { second ≤ 2000000 }
    ensures { result ≡ age_of second shown }
{
    (second + 256 - u64::from(stamp_shown(shown))) % 256
}
