// What holds of the files of every run.
ghost use Rattle.std.specs.Prelude.{◌≡◌, ℕ, List};
ghost use Rattle.tva_plan.specs.declared.config.Config.{Config};
ghost use Rattle.tva_plan.specs.Valid.{IsConfig};
ghost use Rattle.tva_rows.specs.declared.rows.Row.{Row};
ghost use Rattle.tva_rows.specs.Valid.{AreTraceRows};
ghost use Rattle.tva_run.specs.Reaching.{Logs};
ghost use Rattle.tva_run.specs.Run.{IsRunTo};
ghost use Rattle.tva_laws.specs.Delivery.{KeepsFiles};

/// In every run up to a time, in nanoseconds, of a configuration and the rows of a trace, files are kept.
pub fn files_are_delivered_in_order()
    ensures { (config : Config) (rows : List Row) (until : ℕ) (logs : Logs) → IsConfig config
        → AreTraceRows config rows → IsRunTo config rows until logs → KeepsFiles config logs }
{}
