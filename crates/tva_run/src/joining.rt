// What holds of every ordered join.
ghost use Rattle.std.specs.Prelude.{◌≡◌, ℕ, ◌≤◌, ◌++◌, List};
ghost use Rattle.std.specs.List.{AllByRecursion};
ghost use Rattle.tva_run.specs.Joins.{IsInOrder, IsJoin, NeverFalls, cut, from_source, put_all};

/// Sources have one join at most.
pub fn one_join<T>()
    ensures { (time source : T → ℕ) (gives : ℕ → List T) (xs ys : List T)
        → IsJoin time source gives xs → IsJoin time source gives ys → xs ≡ ys }
{}

/// What a join has before a time joins what each source gives before it.
pub fn cut_joins<T>()
    ensures { (time source : T → ℕ) (gives : ℕ → List T) (until : ℕ) (xs : List T)
        → IsJoin time source gives xs → IsJoin time source (λ s. cut time until (gives s)) (cut time until xs) }
{}

/// What is put one by one into a join is a join with it, where what each source gives never falls in
/// time, the new behind the old.
pub fn put_all_joins<T>()
    ensures { (time source : T → ℕ) (gives : ℕ → List T) (xs ys : List T) → IsJoin time source gives ys
        → ((s : ℕ) → NeverFalls time (gives s ++ from_source source s xs))
        → IsJoin time source (λ s. gives s ++ from_source source s xs) (put_all time source xs ys) }
{}

/// What is put in at a time or later changes nothing before it.
pub fn put_past_a_time<T>()
    ensures { (time source : T → ℕ) (until : ℕ) (xs ys : List T) → AllByRecursion (λ x. until ≤ time x) xs
        → cut time until (put_all time source xs ys) ≡ cut time until ys }
{}
