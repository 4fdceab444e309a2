// What is written, by every run that there is.
ghost use Rattle.std.specs.Prelude.{ℕ, IfSome, List};
ghost use Rattle.tva_outside.specs.Held.{HeldByName};
ghost use Rattle.tva.specs.Answer.{WroteAll, WrotePart};
ghost use Rattle.tva.specs.Each.{BeginsEach, WroteEach};
ghost use Rattle.tva.specs.Wanted.{wanted};

/// Whatever run there is of a trace that is replayed, its report is the whole text that is written, and
/// begins with a part that is written. Of a trace whose report is audited, and found right, each run has
/// that very report.
pub fn what_is_written_is_of_each_run()
    ensures one { (files : HeldByName) (words : List (List ℕ)) (old new : List ℕ) →
        IfSome (wanted files words) (λ x. WroteAll old new x → WroteEach old new x) }
    ensures each { (files : HeldByName) (words : List (List ℕ)) (old new : List ℕ) →
        IfSome (wanted files words) (λ x. WrotePart old new x → BeginsEach old new x) }
{}
