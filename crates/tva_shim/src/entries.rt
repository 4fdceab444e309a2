// The entries that routers add to a request.
ghost use Rattle.std.specs.Prelude.{◌≡◌, ◌<◌, ◌↔◌, [], ◌∷◌, ◌++◌, length, map, IsErr, OnOk, OnErr};
ghost use Rattle.tva_shim.specs.Widths.{AreEntries};

use arrayvec::ArrayVec;
use std::marker::Model;

/// What one router adds to a request: the tag of the link that it came in on, 0 where that is no
/// trust boundary, and a pre-capability.
#[derive(Clone, Copy, Debug, PartialEq, Eq, Default)]
pub struct Entry {
    pub tag: u16,
    pub precap: u64,
}

/// A request has 16 entries, and so no room for one more.
#[derive(Clone, Copy, Debug, PartialEq, Eq)]
pub struct PathFull;

/// The entries of a request, at most 16. Contracts see them as a list. Their tags stand apart from their
/// pre-capabilities, so that nothing is left between them and a packet is small.
#[derive(Debug, Drop)]
pub struct Entries {
    tags: ArrayVec<u16, 16>,
    precaps: ArrayVec<u64, 16>,
}

impl Model for Entries {
    ghost use Rattle.std.specs.Prelude.{◌≡◌, List, length};
    ghost use Rattle.tva_shim.specs.{declared.entries.Entry.Entry, Paired.paired, Widths.AreEntries};

    ghost Value = { List Entry };

    ghost view = { λ entries. paired entries.tags.items entries.precaps.items };

    ghost invariant = { λ entries. (length entries.tags.items ≡ length entries.precaps.items)
        × AreEntries (paired entries.tags.items entries.precaps.items) };
}

impl Entries {
    /// No entries.
    pub fn new() -> Entries
        ensures { result ≡ [] }
    {
        Entries {
            tags: ArrayVec::new(),
            precaps: ArrayVec::new(),
        }
    }

    /// How many there are.
    pub fn len(&self) -> usize
        ensures count { result ≡ length self.now }
        ensures widths { AreEntries self.now }
    {
        self.tags.len()
    }

    /// Puts an entry last.
    pub fn push(&mut self, entry: Entry)
        requires { length self.old < 16 }
        ensures { self.new ≡ self.old ++ entry ∷ [] }
    {
        self.tags.push(entry.tag);
        self.precaps.push(entry.precap);
    }

    /// Puts an entry last, where there are fewer than 16.
    pub(crate) fn try_push(&mut self, entry: Entry) -> Result<(), PathFull>
        ensures full { IsErr result ↔ (length self.old ≡ 16) }
        ensures ok { OnOk result (self.new ≡ self.old ++ entry ∷ []) }
        ensures err { OnErr result (self.new ≡ self.old) }
    {
        if self.len() == 16 {
            return Err(PathFull);
        }
        self.push(entry);
        Ok(())
    }

    /// The entries, in the order of the routers.
    pub fn listed(&self) -> ArrayVec<Entry, 16>
        ensures items { result.items ≡ self.now }
        ensures widths { AreEntries self.now }
    {
        let mut list = ArrayVec::new();
        for place in 0..self.len() {
            list.push(Entry {
                tag: self.tags[place],
                precap: self.precaps[place],
            });
        }
        list
    }

    /// Their tags, in the order of the routers.
    pub(crate) fn tags(&self) -> &[u16]
        ensures { result.now ≡ map (λ entry. entry.tag) self.now }
    {
        self.tags.as_slice()
    }

    /// The same entries once more.
    pub fn copied(&self) -> Entries
        ensures { result ≡ self.now }
    {
        let mut copy = Entries::new();
        for entry in self.listed().as_slice() {
            copy.push(*entry);
        }
        copy
    }
}
