// What holds of every list of charges that a router can have, at each of its places.
ghost use Rattle.std.specs.Prelude.{◌≡◌, ℕ, ◌≤◌, false, List, [], ◌∷◌, ◌++◌};
ghost use Rattle.tva_flow.specs.declared.verdicts.Verdict.{Verdict};
ghost use Rattle.tva_flow.specs.declared.verdicts.Verdict.TheVariants.{Authorised};
ghost use Rattle.tva_flow.specs.Charges.{Charge, living_count};
ghost use Rattle.tva_flow.specs.Verdicts.{nonce_verdict, charged, is_authorised};
ghost use Rattle.tva_flow.specs.Stands.{NoChargeLater, IsNext, AreNext};
ghost use Rattle.tva_flow.specs.Budget.{IsWithinSeconds, AreTimely, IsWithinBudget};

/// The charges before any place of a router's list are themselves a list that a router can have, and
/// the charge at that place is the next one after them. A packet that isn't authorised adds none.
pub fn charges_have_places()
    ensures before { (slots offset : ℕ) (before rest : List Charge)
        → AreNext slots offset [] (before ++ rest) → AreNext slots offset [] before }
    ensures next { (slots offset : ℕ) (before : List Charge) (c : Charge) (rest : List Charge)
        → AreNext slots offset [] (before ++ c ∷ rest) → IsNext slots offset before c }
    ensures refused { (v : Verdict) (now nonce bytes : ℕ) → is_authorised v ≡ false
        → charged v now nonce bytes ≡ [] }
{}

/// Whatever packets came, at each place of a router's list the charges of each grant so far have less
/// than twice its N units of 1,024 bytes, where each of them came in one of its grant's T seconds. The
/// bound is TVA's.
pub fn charges_keep_budgets()
    ensures budget { (slots offset : ℕ) (before rest : List Charge)
        → AreNext slots offset [] (before ++ rest) → AreTimely offset before → IsWithinBudget before }
{}

/// Whatever packets came, at each place of a router's list, and at each time in nanoseconds from the
/// last charge before it on, no more flows live than the cache has slots.
pub fn living_flows_are_few()
    ensures living { (slots offset : ℕ) (before rest : List Charge) (now : ℕ)
        → AreNext slots offset [] (before ++ rest) → NoChargeLater now before
        → living_count before now ≤ slots }
{}

/// A charge that came by a nonce alone came in one of its grant's T seconds, where those before it did.
/// So all charges of a router did, where those that came with a list of capabilities did.
pub fn nonces_keep_seconds()
    ensures nonce { (slots offset : ℕ) (before : List Charge) (c : Charge) (rest : List Charge)
        → AreNext slots offset [] (before ++ c ∷ rest) → AreTimely offset before
        → nonce_verdict offset before c.time c.grant.flow c.nonce c.length ≡ Authorised c.grant
        → IsWithinSeconds offset c.time c.grant }
    ensures before { (offset : ℕ) (before rest : List Charge) → AreTimely offset (before ++ rest)
        → AreTimely offset before }
{}
