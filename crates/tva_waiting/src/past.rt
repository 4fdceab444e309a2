// What was, for proofs alone.
ghost use Rattle.std.specs.Prelude.{◌≡◌, [], ◌∷◌, ◌++◌};
ghost use Rattle.tva_waiting.specs.Behind.{all_behind};

use std::snapshot::Snapshot;

/// A list that contracts see and memory doesn't hold: whatever is put in, it takes no byte.
pub(crate) type Past<T> = Snapshot<Behind<T>>;

/// What stands behind a past: nothing, or one more or several behind an earlier past.
#[derive(Drop)]
pub(crate) enum Behind<T> {
    Nothing,
    One(Snapshot<Past<T>>, Snapshot<T>),
    All(Snapshot<Past<T>>, Snapshot<Vec<T>>),
}

/// Nothing was yet.
pub(crate) fn nothing<T>() -> Past<T>
    ensures { all_behind result.value ≡ [] }
{
    Snapshot::of(&Behind::Nothing)
}

/// With one more behind what was.
pub(crate) fn with_one<T>(past: &Past<T>, one: &T) -> Past<T>
    ensures { all_behind result.value ≡ all_behind past.now.value ++ one.now ∷ [] }
{
    Snapshot::of(&Behind::One(Snapshot::of(past), Snapshot::of(one)))
}

/// With all of these behind what was.
pub(crate) fn with_all<T>(past: &Past<T>, more: &Vec<T>) -> Past<T>
    ensures { all_behind result.value ≡ all_behind past.now.value ++ more.now.items }
{
    Snapshot::of(&Behind::All(Snapshot::of(past), Snapshot::of(more)))
}
