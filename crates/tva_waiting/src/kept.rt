// Lists that forget.
ghost use Rattle.std.specs.Prelude.{◌≡◌, ◌+◌, ◌≤◌, [], ◌∷◌, ◌++◌, None, length, IfSome, OnErr, OnOk};
ghost use Rattle.tva_waiting.specs.Kept.{KeptList, all_told, forgotten, held, news, nothing, with_more};

use crate::past::{Past, nothing, with_all, with_one};
use std::alloc::{AllocError, Global};
use std::marker::Model;
use std::mem;

/// A list of which memory holds what was put in behind its first so many elements, and which knows how many of them it
/// has told. Contracts see all of it.
#[derive(Drop)]
pub struct Kept<T> {
    held: Vec<T>,
    gone: usize,
    told: usize,
    past: Past<T>,
}

impl<T> Model for Kept<T> {
    ghost use Rattle.std.specs.Prelude.{◌≡◌, ◌<◌, ◌≤◌, ◌+◌, ◌++◌, ◌^◌, length};
    ghost use Rattle.tva_waiting.specs.Behind.{all_behind};
    ghost use Rattle.tva_waiting.specs.Kept.{KeptList};

    ghost Value = { KeptList T };

    ghost view = { λ kept. record { all = all_behind kept.past.value ++ kept.held.items; gone = kept.gone; told = kept.told } };

    ghost invariant = { λ kept. (length (all_behind kept.past.value) ≡ kept.gone) × (kept.gone + length kept.held.items < 2 ^ 64)
        × (kept.gone ≤ kept.told) × (kept.told ≤ kept.gone + length kept.held.items) };
}

impl<T> Kept<T> {
    /// An empty list.
    pub fn new(alloc: Global) -> Kept<T>
        ensures { result ≡ nothing }
    {
        Kept {
            held: Vec::new(alloc),
            gone: 0,
            told: 0,
            past: nothing(),
        }
    }

    /// How many elements were put in.
    pub fn count(&self) -> usize
        ensures { result ≡ length self.now.all }
    {
        self.gone + self.held.len()
    }

    /// What memory holds.
    pub fn as_slice(&self) -> &[T]
        ensures { result.now ≡ held self.now }
    {
        self.held.as_slice()
    }

    /// What was not told yet.
    pub fn news(&self) -> &[T]
        ensures { result.now ≡ news self.now }
    {
        &self.held[self.told - self.gone..]
    }

    /// Puts an element in. The error is want of memory, also where the count of all elements would pass
    /// the end of its type, and changes nothing.
    #[inline(always)]
    pub fn push(&mut self, item: T) -> Result<(), AllocError>
    where
        T: Drop,
        ensures ok { OnOk result (self.new ≡ with_more self.old (item ∷ [])) }
        ensures err { OnErr result (self.new ≡ self.old) }
    {
        if self.count() == usize::MAX {
            return Err(AllocError);
        }
        self.held.push(item)?;
        Ok(())
    }

    /// Puts an element in and holds it not, where memory holds none. The error is want of memory, which is
    /// answered where the count of all elements would pass the end of its type, and changes nothing.
    pub fn note(&mut self, item: &T) -> Result<(), AllocError>
        requires { self.old.gone ≡ length self.old.all }
        ensures ok { OnOk result (self.new ≡ forgotten (with_more self.old (item.now ∷ []))) }
        ensures err { OnErr result (self.new ≡ self.old) }
    {
        if self.count() == usize::MAX {
            return Err(AllocError);
        }
        self.past = with_one(&self.past, item);
        self.gone += 1;
        self.told = self.gone;
        Ok(())
    }

    /// All is told, and stays.
    pub fn tell(&mut self)
        ensures { self.new ≡ all_told self.old }
    {
        self.told = self.count();
    }

    /// All is told, and forgotten.
    pub fn forget(&mut self)
    where
        T: Drop,
        ensures { self.new ≡ forgotten self.old }
    {
        self.past = with_all(&self.past, &self.held);
        self.gone += self.held.len();
        self.told = self.gone;
        self.held.clear();
    }

    /// Moves what was not told yet, where memory holds just that, behind what stands in a list; then it is told and
    /// forgotten. The error is want of memory, and changes nothing. That this list keeps the memory in which it stood
    /// is how `Vec::append` is made; no clause says it.
    pub fn pour(&mut self, into: &mut Vec<T>) -> Result<(), AllocError>
        requires { self.old.told ≡ self.old.gone }
        ensures poured { OnOk result (into.new.items ≡ into.old.items ++ news self.old) }
        ensures left { OnOk result (self.new ≡ forgotten self.old) }
        ensures err { OnErr result (self.new ≡ self.old) }
    {
        let past = with_all(&self.past, &self.held);
        let count = self.held.len();
        into.append(&mut self.held)?;
        self.past = past;
        self.gone += count;
        self.told = self.gone;
        Ok(())
    }

    /// Hands out what was not told yet, where memory holds just that; then it is told and forgotten. None where memory
    /// holds more, and nothing changes. The list goes on in `room`, which is empty. That putting in takes no memory
    /// until that is full is how `Vec` is made; no clause says it.
    pub fn take_news(&mut self, room: Vec<T>) -> Option<Vec<T>>
    where
        T: Drop,
        requires { room.items ≡ [] }
        ensures taken { IfSome result (λ list. list.items ≡ news self.old) }
        ensures left { IfSome result (λ list. self.new ≡ forgotten self.old) }
        ensures none { result ≡ None → self.new ≡ self.old }
    {
        if self.told > self.gone {
            return None;
        }
        self.past = with_all(&self.past, &self.held);
        self.gone += self.held.len();
        self.told = self.gone;
        Some(mem::replace(&mut self.held, room))
    }
}
