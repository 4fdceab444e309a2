// That there is a run.
ghost use Rattle.std.specs.Prelude.{ℕ, ◌+◌, ◌≤◌, List};
ghost use Rattle.tva_plan.specs.declared.config.Config.{Config};
ghost use Rattle.tva_plan.specs.Valid.{IsConfig};
ghost use Rattle.tva_rows.specs.declared.rows.Row.{Row};
ghost use Rattle.tva_rows.specs.Valid.{AreTraceRows};
ghost use Rattle.tva_run.specs.Reaching.{Logs};
ghost use Rattle.tva_run.specs.Run.{IsRunTo};
ghost use Rattle.tva_run.specs.Report.{IsReport};

/// A valid configuration has a run of the rows of a trace up to each time, in nanoseconds and no later than just
/// past the horizon.
pub fn runs_are_there()
    ensures { (config : Config) (rows : List Row) (until : ℕ) → IsConfig config → AreTraceRows config rows
        → until ≤ config.horizon.0 + 1 → (logs : Logs) × IsRunTo config rows until logs }
{}

/// It has a report of them.
pub fn reports_are_there()
    ensures { (config : Config) (rows : List Row) → IsConfig config → AreTraceRows config rows
        → (report : List ℕ) × IsReport config rows report }
{}
