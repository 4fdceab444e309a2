// A sender: what it keeps of its peers.
ghost use Rattle.std.specs.Prelude.{◌≡◌, ◌⊎◌, ◌+◌, ◌-◌, ◌*◌, ◌^◌, ◌≤◌, ◌<◌, ◌==◌, ◌||◌, max, false, List, [], ◌∷◌, ◌++◌, if◌then◌else◌, OnOk, OnErr};
ghost use Rattle.tva_base.specs.{declared.addresses.Address.Address, Versions.IsVersion};
ghost use Rattle.tva_sender.specs.Contacts.{Contact, Prepared, Taken, Notice, takes};
ghost use Rattle.tva_sender.specs.{Shapes.shape_of, Shapes.length_of, Showable.AreShowable, Showable.IsShowable};
ghost use Rattle.tva_sender.specs.Book.{Book, empty_book, StandsFor, of_peer, knows};

use crate::peer::{Peer, Rules};
use crate::places::Places;
use crate::shape::Shape;
use std::alloc::{AllocError, Global};
use std::marker::Model;
use tva_base::{Address, Caps, Rights, Time};

/// What a host shows of the grants of its peers, each of which stands at the place of its address.
/// Sums of times are made in 128 bits; the bytes that use a grant of N units are at most 1,024 N,
/// below `2^42`.
#[derive(Drop)]
pub struct Sender {
    margin: u64,
    retry: u64,
    version: u8,
    room: u32,
    last: Time,
    places: Places,
    peers: Vec<(u32, Peer)>,
}

impl Model for Sender {
    ghost use Rattle.std.specs.Prelude.{◌-◌, length, vec_capacity};
    ghost use Rattle.tva_sender.specs.{Book.Book, Near.AreNear, Places.ArePlaced};

    ghost Value = { Book };

    ghost view = { λ s. record { margin = s.margin; retry = s.retry; version = s.version; spare = s.room; last = s.last.0; peers = s.peers.items } };

    ghost invariant = { λ s. ArePlaced s.room s.places (vec_capacity s.peers - length s.peers.items) s.peers.items
        × AreNear s.last.0 s.peers.items };
}

impl Sender {
    /// A sender without peers that stays `margin` nanoseconds clear of the end of a grant, asks again
    /// after `retry` nanoseconds, and makes shims of that version, 1 or 2.
    pub fn build(alloc: Global, margin: u64, retry: u64, version: u8) -> Sender
        requires margin { margin ≤ 10 ^ 12 }
        requires retry { (10 ^ 9 + margin ≤ retry) × (retry ≤ 10 ^ 13) }
        requires version { IsVersion version }
        ensures book { result ≡ empty_book margin retry version }
        ensures stands { StandsFor result [] }
    {
        Sender {
            margin,
            retry,
            version,
            room: 0,
            last: Time(0),
            places: Places::new(alloc),
            peers: Vec::new(alloc),
        }
    }

    /// Makes room for so many peers that aren't known yet.
    pub fn reserve(&mut self, peers: u32) -> Result<(), AllocError>
        ensures ok { OnOk result (self.new.spare ≡ max self.old.spare peers) }
        ensures rest { self.new ≡ record self.old { spare = self.new.spare; peers = self.new.peers } }
        ensures stands { (h : List (Address × Contact)) → StandsFor self.old h → StandsFor self.new h }
        ensures known { (a : Address) → knows self.new a ≡ knows self.old a }
        ensures err { OnErr result (self.new ≡ self.old) }
    {
        if self.room < peers {
            self.places.reserve(peers as usize)?;
            self.peers.reserve(peers as usize)?;
            self.room = peers;
        }
        Ok(())
    }

    /// The shape of a packet that is prepared for a peer at a time in nanoseconds, with a body of so
    /// many bytes. The offered nonce becomes that of a grant with the first packet that uses it.
    /// It takes no memory: a new peer takes the room of one.
    pub fn prepare(&mut self, now: Time, dst: Address, body: u32, nonce: u64) -> Shape
        requires time { self.old.last ≤ now.0 }
        requires room { knows self.old dst ≡ false → 1 ≤ self.old.spare }
        requires body { body ≤ 1800 }
        requires nonce { nonce < 2 ^ 48 }
        ensures shape { (h : List (Address × Contact)) → StandsFor self.old h → result ≡ shape_of self.old.margin self.old.retry self.old.version (of_peer dst h) now.0 body nonce }
        ensures stands { (h : List (Address × Contact)) → StandsFor self.old h → StandsFor self.new (h ++ (dst, Prepared now.0 result (length_of self.old.version result body)) ∷ []) }
        ensures showable { (h : List (Address × Contact)) → StandsFor self.old h → AreShowable self.old.version h → IsShowable self.old.version result }
        ensures spare { self.new.spare ≡ (if knows self.old dst then self.old.spare else self.old.spare - 1) }
        ensures last { self.new.last ≡ now.0 }
        ensures rest { self.new ≡ record self.old { spare = self.new.spare; last = self.new.last; peers = self.new.peers } }
        ensures known { (a : Address) → knows self.new a ≡ (knows self.old a || (a.0 == dst.0)) }
    {
        self.last = now;
        let rules = Rules {
            margin: self.margin,
            retry: self.retry,
            version: self.version,
        };
        match self.places.find(dst.0) {
            Some(at) => self.peers[at].1.prepare(rules, now, body, nonce),
            None => {
                self.room -= 1;
                self.places.push(dst.0);
                self.peers.push_reserved((dst.0, Peer::new(now)));
                Shape::Request
            }
        }
    }

    /// Takes a grant of a peer whose last ask isn't answered where its rights are within the version, and
    /// ignores it otherwise.
    pub fn granted(&mut self, src: Address, rights: Rights, caps: &Caps) -> bool
        ensures taken { (h : List (Address × Contact)) → StandsFor self.old h → result ≡ takes self.old.version (of_peer src h) rights }
        ensures stands { (h : List (Address × Contact)) → StandsFor self.old h → StandsFor self.new (h ++ (if result then (src, Taken rights caps.now) ∷ [] else [])) }
        ensures ignored { result ≡ false → self.new ≡ self.old }
        ensures rest { self.new ≡ record self.old { peers = self.new.peers } }
        ensures known { (a : Address) → knows self.new a ≡ knows self.old a }
    {
        let Some(at) = self.places.find(src.0) else {
            return false;
        };
        self.peers[at].1.take(self.version, rights, caps)
    }

    /// Counts a notice of a peer. The first one on a grant ends its life, so that the list is shown
    /// again; the second one gives it up.
    pub fn demoted(&mut self, src: Address)
        ensures stands { (h : List (Address × Contact)) → StandsFor self.old h → StandsFor self.new (h ++ (src, Notice) ∷ []) }
        ensures rest { self.new ≡ record self.old { peers = self.new.peers } }
        ensures known { (a : Address) → knows self.new a ≡ knows self.old a }
    {
        let Some(at) = self.places.find(src.0) else {
            return;
        };
        self.peers[at].1.notice();
    }
}
