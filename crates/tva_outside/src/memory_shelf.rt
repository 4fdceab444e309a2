// A shelf in memory, which may be told to fail.
ghost use Rattle.std.specs.Prelude.{◌≡◌, ◌≤◌, ◌↔◌, ◌^◌, [], OnErr, OnOk, Some, None, ◌++◌, ◌∷◌};
ghost use Rattle.std.specs.Option.{option_map};
ghost use Rattle.std.specs.FinMap as map;
ghost use Rattle.tva_outside.specs.{Shelf.bytes_at, Shelf.IsLoaded, HeldFiles.held_in, HeldFiles.IsCopy, Loads.load_of};
ghost use Rattle.tva_outside.specs.MemoryShelf.{after_load, FailsToLoad, CopiesUnlessDue};

use crate::calls::is_due;
use crate::seen::{Seen, SeenLoad, nothing, with_load};
use crate::{Loaded, Shelf};
use std::alloc::{AllocError, Global};
use std::collections::BTreeMap;
use std::marker::Model;

/// A shelf in memory, which tells what it holds. Contracts see what is held, the numbers of the
/// loads that are to fail, how many loads were made and how many of them failed as they were to, and what
/// was asked for and given. A load that finds no memory changes nothing else, and is not counted among the loads.
#[derive(Drop)]
pub struct MemoryShelf {
    alloc: Global,
    files: BTreeMap<String, Vec<u8>>,
    failing: Vec<u32>,
    loads: u64,
    faults: u64,
    seen: Seen<SeenLoad>,
}

impl Model for MemoryShelf {
    ghost use Rattle.tva_outside.specs.{ShelfState.ShelfState, ShelfState.coded_state, HeldFiles.held_of};
    ghost use Rattle.tva_outside.specs.Seen.{all_behind};

    ghost Value = { ShelfState };

    ghost coded = { coded_state };

    ghost view = { λ s. record { files = held_of s.files.entries; failing = s.failing.items; loads = s.loads; faults = s.faults; gave = all_behind s.seen.value } };
}

impl MemoryShelf {
    /// A shelf that holds nothing, and at which no load is to fail.
    pub fn new(alloc: Global) -> MemoryShelf
        ensures { result ≡ record { files = map.empty; failing = []; loads = 0; faults = 0; gave = [] } }
    {
        MemoryShelf {
            alloc,
            files: BTreeMap::new(alloc),
            failing: Vec::new(alloc),
            loads: 0,
            faults: 0,
            seen: nothing(),
        }
    }

    /// Holds these bytes under the name, in place of what was held there.
    pub fn put(&mut self, name: &str, bytes: &[u8]) -> Result<(), AllocError>
        ensures ok { OnOk result (self.new ≡ record self.old { files = map.insert self.old.files name.now bytes.now }) }
        ensures err { OnErr result (self.new ≡ self.old) }
    {
        store(self.alloc, &mut self.files, name, bytes)
    }

    /// The load with that number, from 1, is to fail.
    pub fn fail_at(&mut self, call: u32) -> Result<(), AllocError>
        ensures ok { OnOk result (self.new ≡ record self.old { failing = self.old.failing ++ call ∷ [] }) }
        ensures err { OnErr result (self.new ≡ self.old) }
    {
        self.failing.push(call)?;
        Ok(())
    }
}

impl Shelf for MemoryShelf {
    ghost held = { λ s. Some s.files };

    ghost gave = { λ s. s.gave };

    ghost faults = { λ s. s.faults };

    fn load(&mut self, alloc: Global, name: &str, max: u64) -> Loaded
        requires { max ≤ 2 ^ 40 }
        ensures held { Some self.new.files ≡ Some self.old.files }
        ensures gave { self.new.gave ≡ self.old.gave ++ load_of name.now result ∷ [] }
        ensures never_falls { self.old.faults ≤ self.new.faults }
        ensures answer { IsLoaded (Some self.old.files) name.now max self.old.faults self.new.faults result }
        ensures state { self.new ≡ after_load self.old name.now result }
        ensures failed { (result ≡ Loaded.Failed) ↔ FailsToLoad self.old name.now }
        ensures copied { CopiesUnlessDue self.old name.now max result }
    {
        let number = self.loads.saturating_add(1);
        if is_due(&self.failing, number) {
            self.loads = number;
            self.faults = self.faults.saturating_add(1);
            self.seen = with_load(&self.seen, name, &Loaded::Failed);
            return Loaded::Failed;
        }
        let loaded = copy(alloc, &self.files, name, max);
        self.seen = with_load(&self.seen, name, &loaded);
        if let Loaded::OutOfMemory = loaded {
            return Loaded::OutOfMemory;
        }
        self.loads = number;
        loaded
    }
}

fn store(
    alloc: Global,
    files: &mut BTreeMap<String, Vec<u8>>,
    name: &str,
    bytes: &[u8],
) -> Result<(), AllocError>
    ensures ok { OnOk result (held_in files.new ≡ map.insert (held_in files.old) name.now bytes.now) }
    ensures err { OnErr result (held_in files.new ≡ held_in files.old) }
{
    let key = String::from_str(alloc, name)?;
    let value = bytes.to_vec(alloc)?;
    files.insert(key, value)?;
    Ok(())
}

fn find<'a>(files: &'a BTreeMap<String, Vec<u8>>, name: &str) -> Option<&'a Vec<u8>>
    ensures { option_map (λ v. v.now.items) result ≡ bytes_at (held_in files.now) name.now }
{
    files.get(name)
}

// A copy of what is held under a name.
fn copy(alloc: Global, files: &BTreeMap<String, Vec<u8>>, name: &str, max: u64) -> Loaded
    requires { max ≤ 2 ^ 40 }
    ensures copied { IsCopy (held_in files.now) name.now max result }
    ensures failed { (result ≡ Loaded.Failed) ↔ (bytes_at (held_in files.now) name.now ≡ None) }
{
    let Some(bytes) = find(files, name) else {
        return Loaded::Failed;
    };
    if bytes.len() as u64 > max {
        return Loaded::TooLarge(max + 1);
    }
    match bytes.to_vec(alloc) {
        Ok(copy) => Loaded::Bytes(copy),
        Err(_) => Loaded::OutOfMemory,
    }
}
