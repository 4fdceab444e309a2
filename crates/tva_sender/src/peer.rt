// What a sender keeps of one peer.
ghost use Rattle.std.specs.Prelude.{◌≡◌, ◌≤◌, ◌<◌, ◌^◌, ◌&&◌, ℕ, true, false, None, not, if◌then◌else◌};
ghost use Rattle.tva_sender.specs.Contacts.{asks, is_within};
ghost use Rattle.tva_sender.specs.Shapes.{under_grant, by_grant, may_ask, without_grant};
ghost use Rattle.tva_sender.specs.Steps.{prepared, answered, noticed, used_by, IsNear, IsNearPeer, first_asked};

use crate::grant::Grant;
use crate::shape::Shape;
use tva_base::{Caps, Rights, Time, carries};

/// The rules of a sender: the nanoseconds that it stays clear of the end of a grant, those after which
/// it asks again, and the version of its shims.
#[derive(Clone, Copy)]
pub struct Rules {
    pub margin: u64,
    pub retry: u64,
    pub version: u8,
}

/// A peer: the time of the last ask in nanoseconds, whether it was answered, and the grant held.
#[derive(Debug, Drop)]
pub struct Peer {
    pub asked: Time,
    pub is_answered: bool,
    pub grant: Option<Grant>,
}

/// Whether a sender of that version takes such rights: with version 2 all, and with version 1 those that
/// its shims can carry.
fn is_within(version: u8, rights: Rights) -> bool
    ensures { result ≡ is_within version rights }
{
    if version == 2 {
        return true;
    }
    carries(1, rights)
}

/// A request where an ask is allowed, else a packet without anything.
fn without_grant(may_ask: bool) -> Shape
    ensures { result ≡ without_grant may_ask }
{
    if may_ask {
        Shape::Request
    } else {
        Shape::Legacy
    }
}

impl Shape {
    fn asks(&self) -> bool
        ensures { result ≡ asks self.now }
    {
        match self {
            Shape::Request | Shape::Renewal(_) => true,
            Shape::List(_) | Shape::NonceOnly(_) | Shape::Legacy => false,
        }
    }
}

impl Grant {
    /// The shape of a packet with a body of so many bytes, which is counted.
    #[tactic(auto, unfolding(crate::specs::Shapes::under_grant))]
    fn prepare(&mut self, rules: Rules, may_ask: bool, now: Time, body: u32, offered: u64) -> Shape
        requires near { IsNear now.0 self.old }
        requires body { body ≤ 1800 }
        ensures shape { result ≡ under_grant rules.margin rules.version may_ask self.old now.0 body offered }
        ensures used { self.new ≡ used_by rules.version self.old now.0 result body }
        ensures near { IsNear now.0 self.new }
    {
        let margin = rules.margin;
        let whole = self.list_length(rules.version, body);
        if may_ask && self.renews(margin, now, whole) {
            let held = self.held(offered);
            self.charge(now, whole, held.nonce);
            return Shape::Renewal(held);
        }
        let bare = 28 + body;
        if self.takes_nonce(margin, now, bare) {
            let nonce = self.nonce(offered);
            self.charge(now, bare, nonce);
            return Shape::NonceOnly(nonce);
        }
        if self.fits(margin, now, whole) {
            let held = self.held(offered);
            self.charge(now, whole, held.nonce);
            return Shape::List(held);
        }
        without_grant(may_ask)
    }
}

impl Peer {
    /// A peer for which a request is prepared now.
    pub fn new(now: Time) -> Peer
        ensures peer { result ≡ first_asked now }
        ensures near { IsNearPeer now.0 result }
    {
        Peer {
            asked: now,
            is_answered: false,
            grant: None,
        }
    }

    /// Whether the last ask is so long ago that the next one is allowed.
    fn may_ask(&self, retry: u64, now: Time) -> bool
        requires { IsNearPeer now.0 self.now }
        ensures { result ≡ may_ask retry (Some self.now.asked) now.0 }
    {
        u128::from(self.asked.0) + u128::from(retry) <= u128::from(now.0)
    }

    /// The shape of a packet with a body of so many bytes, which is counted.
    pub fn prepare(&mut self, rules: Rules, now: Time, body: u32, offered: u64) -> Shape
        requires near { IsNearPeer now.0 self.old }
        requires body { body ≤ 1800 }
        ensures shape { result ≡ by_grant rules.margin rules.version (may_ask rules.retry (Some self.old.asked) now.0) self.old.grant now.0 body offered }
        ensures prepared { self.new ≡ prepared rules.version self.old now.0 result body }
        ensures near { IsNearPeer now.0 self.new }
    {
        let may_ask = self.may_ask(rules.retry, now);
        let shape = match &mut self.grant {
            Some(grant) => grant.prepare(rules, may_ask, now, body, offered),
            None => without_grant(may_ask),
        };
        if shape.asks() {
            self.asked = now;
            self.is_answered = false;
        }
        shape
    }

    /// Takes a grant where the last ask isn't answered and its rights are within the version.
    pub fn take(&mut self, version: u8, rights: Rights, caps: &Caps) -> bool
        ensures taken { result ≡ (not self.old.is_answered && is_within version rights) }
        ensures answered { result ≡ true → self.new ≡ answered self.old rights caps.now }
        ensures ignored { result ≡ false → self.new ≡ self.old }
        ensures near { (last : ℕ) → IsNearPeer last self.old → IsNearPeer last self.new }
    {
        if self.is_answered {
            return false;
        }
        if !is_within(version, rights) {
            return false;
        }
        self.is_answered = true;
        self.grant = Some(Grant::new(rights, caps.copied(), self.asked));
        true
    }

    /// Counts a notice on the grant that is held. The second one gives it up.
    pub fn notice(&mut self)
        ensures noticed { self.new ≡ record self.old { grant = noticed self.old.grant } }
        ensures near { (last : ℕ) → IsNearPeer last self.old → IsNearPeer last self.new }
    {
        if let Some(grant) = &mut self.grant {
            if grant.notices == 0 {
                grant.notices = 1;
                grant.life = 0;
            } else {
                self.grant = None;
            }
        }
    }
}
