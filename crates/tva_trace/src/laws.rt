// What holds of every text of a trace.
ghost use Rattle.std.specs.Prelude.{◌≡◌, ◌≤◌, ℕ, List, Ok};
ghost use Rattle.tva_plan.specs.declared.config.Config.{Config};
ghost use Rattle.tva_rows.specs.declared.rows.Row.{Row};
ghost use Rattle.tva_trace.specs.{declared.said.SaidRow.SaidRow, Rows.rows_of, Meaning.AreRows};
ghost use Rattle.tva_rows.specs.Valid.{AreTraceRows, files_at};

/// A text has at most one list of rows under a configuration: two lists of its rows are the same.
pub fn texts_have_one_meaning()
    ensures one { (config : Config) (text : List ℕ) (a b : List Row)
        → AreRows config text a → AreRows config text b → a ≡ b }
{}

/// A text of which rows are said under a configuration, which is one that no rule refuses, has rows.
pub fn rows_are_there()
    ensures { (config : Config) (text : List ℕ) (said : List SaidRow) → rows_of config text ≡ Ok said
        → (rows : List Row) × AreRows config text rows }
{}

/// The rows of a text are such as a network can be given: what holds of all of those holds of these.
pub fn rows_are_valid()
    ensures { (config : Config) (text : List ℕ) (rows : List Row) → AreRows config text rows
        → AreTraceRows config rows }
{}

/// In the rows of a text each node begins at most 65,536 transfers, so that each has a number of 16 bits.
pub fn transfers_are_few()
    ensures { (config : Config) (text : List ℕ) (rows : List Row) → AreRows config text rows
        → (node : ℕ) → files_at node rows ≤ 65536 }
{}
