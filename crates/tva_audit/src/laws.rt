// What holds of the sums of every run, and of every audit.
ghost use Rattle.std.specs.Prelude.{◌≡◌, ◌⊎◌, ℕ, List, All, Err, Result, map};
ghost use Rattle.tva_plan.specs.declared.config.Config.{Config};
ghost use Rattle.tva_plan.specs.Valid.{IsConfig};
ghost use Rattle.tva_rows.specs.declared.rows.Row.{Row};
ghost use Rattle.tva_rows.specs.Valid.{AreTraceRows};
ghost use Rattle.tva_run.specs.Entries.{Entry};
ghost use Rattle.tva_run.specs.Parts.{charges};
ghost use Rattle.tva_run.specs.Sites.{Site};
ghost use Rattle.tva_run.specs.Told.{events};
ghost use Rattle.tva_run.specs.Reaching.{Logs};
ghost use Rattle.tva_run.specs.Run.{IsRun};
ghost use Rattle.tva_report.specs.Charged.{charges_in};
ghost use Rattle.tva_audit.specs.declared.audits.AuditError.{AuditError};
ghost use Rattle.tva_audit.specs.declared.audits.AuditError.TheVariants.{OutOfMemory};
ghost use Rattle.tva_audit.specs.declared.audits.Audited.{Audited};
ghost use Rattle.tva_audit.specs.Answers.{IsTheAnswer};
ghost use Rattle.tva_audit.specs.Audit.{IsAudit};
ghost use Rattle.tva_audit.specs.Sums.{IsBelowLimit, run_sums, without_nonce};

/// The events of a node tell its charges, all but their nonces.
pub fn events_tell_charges()
    ensures { (site : Site) (log : List Entry) → charges_in (events site log) ≡ map without_nonce (charges log) }
{}

/// In every run of a configuration and the rows of a trace, the worst grant of each router let through less than
/// twice its units in one boot.
pub fn sums_are_below_their_limits()
    ensures { (config : Config) (rows : List Row) (logs : Logs) → IsConfig config → AreTraceRows config rows
        → IsRun config rows logs → All IsBelowLimit (run_sums config logs) }
{}

/// Where memory isn't wanting, the report and the run alone tell what an audit answers: a bad line, that the
/// run has too many events, the first line that differs, or that the report is the run's, each exactly where
/// it is so.
pub fn audits_have_one_answer()
    ensures { (config : Config) (rows : List Row) (report : List ℕ) (answer : Result Audited AuditError) → IsConfig config
        → IsAudit config rows report answer → (answer ≡ Err OutOfMemory) ⊎ IsTheAnswer config rows report answer }
{}
