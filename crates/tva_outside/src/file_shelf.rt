// The files of the system. What they hold isn't told; their failures are counted.
ghost use Rattle.std.specs.Prelude.{◌≡◌, ◌≤◌, ◌^◌, ◌++◌, ◌∷◌, [], MatchResult, None};
ghost use Rattle.tva_outside.specs.{Edge.faults_after_load, Loads.load_of, Shelf.IsLoaded};
ghost use Rattle.tva_outside.specs.Reading.{IsBroken, IsOutcome, IsReading, loaded_of};

use crate::seen::{Seen, SeenLoad, nothing, with_load};
use crate::{Loaded, Shelf};
use std::alloc::Global;
use std::io::{Error, ErrorKind, Read};
use std::marker::Model;
use std::rt::Files;
use std::{fs, io};

/// The files of the system, each under its path. Contracts see the count of failures, and what was asked
/// for and given.
#[derive(Drop)]
pub struct FileShelf<'a, R: Files> {
    rt: &'a R,
    faults: u64,
    seen: Seen<SeenLoad>,
}

impl<'a, R: Files> Model for FileShelf<'a, R> {
    ghost use Rattle.tva_outside.specs.{Edge.FilesState, Seen.all_behind};

    ghost Value = { FilesState };

    ghost view = { λ s. record { faults = s.faults; gave = all_behind s.seen.value } };
}

impl<'a, R: Files> FileShelf<'a, R> {
    /// A shelf of the runtime's files, at which nothing has failed, and which was asked for nothing.
    pub fn new(rt: &'a R) -> FileShelf<'a, R>
        ensures { result ≡ record { faults = 0; gave = [] } }
    {
        FileShelf {
            rt,
            faults: 0,
            seen: nothing(),
        }
    }
}

impl<'a, R: Files> Shelf for FileShelf<'a, R> {
    ghost held = { λ _. None };

    ghost gave = { λ s. s.gave };

    ghost faults = { λ s. s.faults };

    fn load(&mut self, alloc: Global, name: &str, max: u64) -> Loaded
        requires { max ≤ 2 ^ 40 }
        ensures gave { self.new.gave ≡ self.old.gave ++ load_of name.now result ∷ [] }
        ensures never_falls { self.old.faults ≤ self.new.faults }
        ensures answer { IsLoaded None name.now max self.old.faults self.new.faults result }
        ensures counted { self.new.faults ≡ faults_after_load self.old.faults result }
    {
        let loaded = answer(read_opened(alloc, fs::open(self.rt, name), max), max);
        if let Loaded::Failed = loaded {
            self.faults = self.faults.saturating_add(1);
        }
        self.seen = with_load(&self.seen, name, &loaded);
        loaded
    }
}

// How reading a file ended.
#[derive(Drop)]
pub(crate) enum Reading {
    Whole(Vec<u8>),
    Longer,
    Failed,
    OutOfMemory,
}

// What a load answers where reading ended so.
fn answer(reading: Reading, max: u64) -> Loaded
    requires { max ≤ 2 ^ 40 }
    ensures { result ≡ loaded_of max reading }
{
    match reading {
        Reading::Whole(bytes) => Loaded::Bytes(bytes),
        Reading::Longer => Loaded::TooLarge(max + 1),
        Reading::Failed => Loaded::Failed,
        Reading::OutOfMemory => Loaded::OutOfMemory,
    }
}

// Reads what was opened, or ends so where it couldn't be.
fn read_opened<F: Read + Drop>(alloc: Global, opened: io::Result<F>, max: u64) -> Reading
    requires { max ≤ 2 ^ 40 }
    ensures { MatchResult opened (λ file. IsReading (F.Read.remaining file) max result) (λ error. IsBroken error result) }
{
    match opened {
        Ok(mut file) => read_whole(alloc, &mut file, max),
        Err(error) => broken_off(&error),
    }
}

// The bytes that one read takes at most.
const PIECE: usize = 65_536;

// How one read ended.
#[derive(Clone, Copy)]
pub(crate) enum Outcome {
    // So many bytes, at least one.
    Count(usize),
    // None is left.
    End,
    // A signal broke it off.
    Again,
    Failed,
    OutOfMemory,
}

// How a read ended of which the system answers so. The system's want of memory is no failure.
fn ended(read: io::Result<usize>) -> Outcome
    ensures { IsOutcome read result }
{
    match read {
        Ok(0) => Outcome::End,
        Ok(count) => Outcome::Count(count),
        Err(error) if error.kind() == ErrorKind::Interrupted => Outcome::Again,
        Err(error) if error.kind() == ErrorKind::OutOfMemory => Outcome::OutOfMemory,
        Err(_) => Outcome::Failed,
    }
}

// All of the bytes that a reader gives, where they are no more than the limit.
pub(crate) fn read_whole<F: Read>(alloc: Global, file: &mut F, max: u64) -> Reading
    requires { max ≤ 2 ^ 40 }
    ensures { IsReading (F.remaining file.old) max result }
{
    let mut bytes = Vec::new(alloc);
    let mut piece = [0u8; PIECE];
    // A reader may be one that never ends.
    for _ in 0..u64::MAX {
        match ended(file.read(&mut piece)) {
            Outcome::End => return Reading::Whole(bytes),
            Outcome::Count(count) => {
                if bytes.len() as u64 + count as u64 > max {
                    return Reading::Longer;
                }
                if bytes.extend_from_slice(&piece[..count]).is_err() {
                    return Reading::OutOfMemory;
                }
            }
            // A read that a signal broke off is made again.
            Outcome::Again => {}
            Outcome::Failed => return Reading::Failed,
            Outcome::OutOfMemory => return Reading::OutOfMemory,
        }
    }
    Reading::Failed
}

// The system's want of memory is no failure.
fn broken_off(error: &Error) -> Reading
    ensures { IsBroken error.now result }
{
    if error.kind() == ErrorKind::OutOfMemory {
        return Reading::OutOfMemory;
    }
    Reading::Failed
}
