// A grant that was taken.
ghost use Rattle.std.specs.Prelude.{◌≡◌, ◌+◌, ◌*◌, ◌^◌, ◌<◌, ◌≤◌, length, None};
ghost use Rattle.tva_sender.specs.Shapes.{fits, is_half_used, is_alive, renews, takes_nonce, nonce_of, held, list_length};
ghost use Rattle.tva_sender.specs.Steps.{taken_grant, charged, IsNear};

use crate::shape::Held;
use tva_base::{Caps, Rights, SECOND, Time, UNIT, credit, rights_size};

/// A grant: its rights and capabilities, its nonce once a packet used it, the time of its ask, the
/// bytes used, the end of its life, and the notices on it. Times are in nanoseconds. A life is
/// below `2^64 + 2^80`, since a byte adds less than `2^38` to it and at most `2^42` are used.
#[derive(Debug, Drop)]
pub struct Grant {
    pub rights: Rights,
    pub caps: Caps,
    pub nonce: Option<u64>,
    pub asked: Time,
    pub used: u64,
    pub life: u128,
    pub notices: u8,
}

impl Grant {
    pub fn new(rights: Rights, caps: Caps, asked: Time) -> Grant
        ensures { result ≡ taken_grant rights caps asked }
    {
        Grant {
            rights,
            caps,
            nonce: None,
            asked,
            used: 0,
            life: 0,
            notices: 0,
        }
    }

    /// Whether a packet of so many bytes may use the grant.
    pub fn fits(&self, margin: u64, now: Time, bytes: u32) -> bool
        requires { IsNear now.0 self.now }
        ensures { result ≡ fits margin now.0 self.now bytes }
    {
        let clear = u128::from(now.0) + u128::from(margin) + u128::from(SECOND);
        let over = u128::from(self.asked.0) + u128::from(self.rights.t) * u128::from(SECOND);
        clear <= over && self.used + u64::from(bytes) <= UNIT * u64::from(self.rights.n)
    }

    /// Whether more than half of its bytes or of its time would be used.
    pub fn is_half_used(&self, now: Time, bytes: u32) -> bool
        requires { IsNear now.0 self.now }
        ensures { result ≡ is_half_used now.0 self.now bytes }
    {
        let passed = u128::from(now.0 - self.asked.0);
        2 * (self.used + u64::from(bytes)) > UNIT * u64::from(self.rights.n)
            || 2 * passed > u128::from(self.rights.t) * u128::from(SECOND)
    }

    /// Whether the routers on the way still know its nonce.
    pub fn is_alive(&self, margin: u64, now: Time) -> bool
        ensures { result ≡ is_alive margin now.0 self.now }
    {
        u128::from(now.0) + u128::from(margin) < self.life
    }

    /// Whether a renewal of so many bytes is due and may use the grant.
    pub fn renews(&self, margin: u64, now: Time, bytes: u32) -> bool
        requires { IsNear now.0 self.now }
        ensures { result ≡ renews margin now.0 self.now bytes }
    {
        self.fits(margin, now, bytes) && self.is_half_used(now, bytes)
    }

    /// Whether a packet of so many bytes may use the grant by its nonce alone.
    pub fn takes_nonce(&self, margin: u64, now: Time, bytes: u32) -> bool
        requires { IsNear now.0 self.now }
        ensures { result ≡ takes_nonce margin now.0 self.now bytes }
    {
        self.is_alive(margin, now) && self.fits(margin, now, bytes)
    }

    /// Its nonce, or the one that is offered where no packet used it yet.
    pub fn nonce(&self, offered: u64) -> u64
        ensures { result ≡ nonce_of self.now offered }
    {
        self.nonce.unwrap_or(offered)
    }

    /// The length of a packet with its list in a shim of that version and a body, in bytes.
    pub fn list_length(&self, version: u8, body: u32) -> u32
        requires { body ≤ 1800 }
        ensures length { result ≡ list_length version self.now.caps body }
        ensures short { result ≤ 2048 }
    {
        30 + rights_size(version) + 8 * self.caps.as_slice().len() as u32 + body
    }

    /// What a packet shows of it.
    pub fn held(&self, offered: u64) -> Held
        ensures { result ≡ held self.now offered }
    {
        Held {
            nonce: self.nonce(offered),
            rights: self.rights,
            caps: self.caps.copied(),
        }
    }

    /// Counts a packet that uses it. The first one gives it its nonce.
    pub fn charge(&mut self, now: Time, bytes: u32, nonce: u64)
        requires near { IsNear now.0 self.old }
        requires room { self.old.used + bytes ≤ 1024 * self.old.rights.n }
        requires bytes { (1 ≤ bytes) × (bytes ≤ 2048) }
        ensures charged { self.new ≡ charged self.old now.0 bytes nonce }
        ensures near { IsNear now.0 self.new }
    {
        self.nonce = Some(self.nonce(nonce));
        self.used += u64::from(bytes);
        self.life = self.life.max(u128::from(now.0)) + u128::from(credit(bytes, self.rights));
    }
}
