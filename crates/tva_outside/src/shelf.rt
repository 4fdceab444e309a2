// Where files come from.
ghost use Rattle.std.specs.Prelude.{◌≡◌, ◌≤◌, ◌^◌, ◌++◌, ◌∷◌, [], List, ℕ};
ghost use Rattle.std.specs.declared.option.Option.{Option};
ghost use Rattle.tva_outside.specs.{Loads.Load, Loads.load_of, Shelf.HeldByName, Shelf.IsLoaded};

use std::alloc::Global;

/// What a load answers.
#[derive(Debug, Drop)]
pub enum Loaded {
    /// All of the bytes that are held under the name.
    Bytes(Vec<u8>),
    /// The load failed, or nothing is held under the name.
    Failed,
    /// More bytes are held than the limit lets in. The number is the limit and one.
    TooLarge(u64),
    /// There was no memory for the bytes.
    OutOfMemory,
}

/// A place of named files.
pub trait Shelf {
    /// The bytes that are held under each name, where the shelf tells them.
    ghost held: { Self → Option HeldByName };

    /// What was asked for so far, in order: each name with what its load gave.
    ghost gave: { Self → List Load };

    /// How often a load has failed. The count never falls, and stands still at 2^64-1.
    ghost faults: { Self → ℕ };

    /// Loads the bytes that are held under a name, at most `max` of them. A missing name is
    /// answered with `Failed`; a shelf that doesn't tell what it holds counts it.
    fn load(&mut self, alloc: Global, name: &str, max: u64) -> Loaded
        requires { max ≤ 2 ^ 40 }
        ensures held { held self.new ≡ held self.old }
        ensures gave { gave self.new ≡ gave self.old ++ load_of name.now result ∷ [] }
        ensures never_falls { faults self.old ≤ faults self.new }
        ensures answer { IsLoaded (held self.old) name.now max (faults self.old) (faults self.new) result };
}
