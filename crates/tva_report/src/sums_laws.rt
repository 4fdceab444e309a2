// What holds of all sums.
ghost use Rattle.std.specs.Prelude.{◌≡◌, ◌≤◌, ℕ, List, All, Some};
ghost use Rattle.tva_base.specs.declared.plan.RouterPlan.{RouterPlan};
ghost use Rattle.tva_base.specs.Changes.{boot_at};
ghost use Rattle.tva_report.specs.declared.pairs.Pair.{Pair};
ghost use Rattle.tva_report.specs.Charged.{boot_among};
ghost use Rattle.tva_report.specs.Sums.{worst_of};
ghost use Rattle.tva_report.specs.Worst.{IsWorst};

/// The boot among a plan's restarts is the plan's.
pub fn boots_are_a_plans()
    ensures { (plan : RouterPlan) (now : ℕ) → boot_among plan.restarts now ≡ boot_at plan now }
{}

/// The worst of pairs whose grants have units is before all that have a greater part of their limit,
/// of which there are none, and before those that have as great a part.
pub fn the_worst_is_the_worst()
    ensures { (sums : List (Pair × ℕ)) (worst : Pair × ℕ) → All (λ s. 1 ≤ s.0.grant.rights.n) sums → worst_of sums ≡ Some worst → IsWorst worst sums }
{}
