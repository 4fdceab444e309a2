// What holds of every history of a policy.
ghost use Rattle.std.specs.Prelude.{◌≡◌, ℕ, List, ◌∷◌, ◌++◌, true};
ghost use Rattle.tva_base.specs.declared.addresses.Address.{Address};
ghost use Rattle.tva_base.specs.declared.plan.PolicyPlan.{PolicyPlan};
ghost use Rattle.tva_policy.specs.Grants.{Deed, Sent, was_sent_to, grant_decision};

/// A destination that is noted again is noted as before: where a host sent to it already, one more note
/// turns no later decision. So a file's first packet notes its destination, and the packets that are sent
/// to it later, with no row of their own, may note it each time.
pub fn noted_once_is_noted()
    ensures decision { (plan : PolicyPlan) (h more : List Deed) (dst src : Address) (tags : List ℕ) → was_sent_to h dst ≡ true
        → grant_decision plan (h ++ Sent dst ∷ more) src tags ≡ grant_decision plan (h ++ more) src tags }
{}
