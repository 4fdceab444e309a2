// What was seen, for proofs alone.
ghost use Rattle.std.specs.Prelude.{◌≡◌, [], ◌∷◌, ◌++◌};
ghost use Rattle.tva_outside.specs.{Loads.load_of, Seen.all_behind};

use crate::Loaded;
use std::marker::Model;
use std::snapshot::Snapshot;

/// A list that contracts see and memory doesn't hold: whatever is put in, it takes no byte.
pub(crate) type Seen<T> = Snapshot<Behind<T>>;

/// What stands behind what was seen: nothing, or one more behind what was seen before.
#[derive(Drop)]
pub(crate) enum Behind<T> {
    Nothing,
    One(Snapshot<Seen<T>>, Snapshot<T>),
}

/// Nothing was seen yet.
pub(crate) fn nothing<T>() -> Seen<T>
    ensures { all_behind result.value ≡ [] }
{
    Snapshot::of(&Behind::Nothing)
}

/// With one more behind what was seen.
pub(crate) fn with_one<T>(seen: &Seen<T>, one: &T) -> Seen<T>
    ensures { all_behind result.value ≡ all_behind seen.now.value ++ one.now ∷ [] }
{
    Snapshot::of(&Behind::One(Snapshot::of(seen), Snapshot::of(one)))
}

/// With all of these bytes behind those that were seen.
pub(crate) fn with_bytes(seen: Seen<u8>, bytes: &[u8]) -> Seen<u8>
    ensures { all_behind result.value ≡ all_behind seen.value ++ bytes.now }
{
    let mut all = seen;
    for byte in bytes {
        all = with_one(&all, byte);
    }
    all
}

/// A load: the name that was asked for, and what was given.
#[derive(Drop)]
pub(crate) struct SeenLoad {
    name: Seen<u8>,
    loaded: Snapshot<Loaded>,
}

impl Model for SeenLoad {
    ghost use Rattle.tva_outside.specs.{Loads.Load, Loads.load_of, Seen.all_behind};

    ghost Value = { Load };

    ghost view = { λ l. load_of (all_behind l.name.value) l.loaded.value };
}

/// With a load behind those that were seen.
pub(crate) fn with_load(seen: &Seen<SeenLoad>, name: &str, loaded: &Loaded) -> Seen<SeenLoad>
    ensures { all_behind result.value ≡ all_behind seen.now.value ++ load_of name.now loaded.now ∷ [] }
{
    let load = SeenLoad {
        name: with_bytes(nothing(), name.as_bytes()),
        loaded: Snapshot::of(loaded),
    };
    with_one(seen, &load)
}
