// The parts of a shim.
ghost use Rattle.std.specs.Prelude.{◌≡◌, ◌<◌, ◌+◌, length, slice_set};

use crate::entries::Entries;
use tva_base::{Caps, Rights};

/// The capabilities that a packet shows, its nonce of 48 bits, the rights of its capabilities, and
/// the place of the one that the next router checks.
#[derive(Debug, Drop)]
pub struct Shown {
    pub nonce: u64,
    pub pointer: u8,
    pub rights: Rights,
    pub caps: Caps,
}

impl Shown {
    /// The same once more.
    pub fn copied(&self) -> Shown
        ensures { result ≡ self.now }
    {
        Shown {
            nonce: self.nonce,
            pointer: self.pointer,
            rights: self.rights,
            caps: self.caps.copied(),
        }
    }

    // the pointer one further
    pub(crate) fn advance(&mut self)
        requires { self.old.pointer < length self.old.caps }
        ensures { self.new ≡ record self.old { pointer = self.old.pointer + 1 } }
    {
        let count = self.caps.as_slice().len();
        prove!(usize::from(self.pointer) < count);
        self.pointer += 1;
    }

    // another capability at the pointer
    pub(crate) fn refresh(&mut self, precap: u64)
        requires { self.old.pointer < length self.old.caps }
        ensures { self.new ≡ record self.old { caps = slice_set self.old.caps self.old.pointer precap } }
    {
        self.caps.set(usize::from(self.pointer), precap);
    }
}

/// What a shim is: a request with the entries of the routers that it passed, a list of
/// capabilities, the nonce that stands for a list, or a list that asks for new ones.
#[derive(Debug, Drop)]
pub enum Kind {
    Request(Entries),
    List(Shown),
    Nonce(u64),
    Renewal(Shown),
}

impl Kind {
    /// The same once more.
    pub fn copied(&self) -> Kind
        ensures { result ≡ self.now }
    {
        match self {
            Kind::Request(entries) => Kind::Request(entries.copied()),
            Kind::List(shown) => Kind::List(shown.copied()),
            Kind::Nonce(nonce) => Kind::Nonce(*nonce),
            Kind::Renewal(shown) => Kind::Renewal(shown.copied()),
        }
    }
}

/// What a destination tells a source: nothing, that a packet of it was demoted, or a grant.
#[derive(Debug, Drop)]
pub enum ReturnInfo {
    Nothing,
    Notice,
    Grant { rights: Rights, caps: Caps },
}

impl ReturnInfo {
    /// The same once more.
    pub fn copied(&self) -> ReturnInfo
        ensures { result ≡ self.now }
    {
        match self {
            ReturnInfo::Nothing => ReturnInfo::Nothing,
            ReturnInfo::Notice => ReturnInfo::Notice,
            ReturnInfo::Grant { rights, caps } => ReturnInfo::Grant {
                rights: *rights,
                caps: caps.copied(),
            },
        }
    }
}
