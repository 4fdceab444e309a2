// What holds of every log of a node.
ghost use Rattle.std.specs.Prelude.{◌≡◌, ℕ, ◌≤◌, List};
ghost use Rattle.tva_run.specs.Joins.{IsInOrder, cut};
ghost use Rattle.tva_run.specs.declared.kinds.Input.{Input};
ghost use Rattle.tva_run.specs.Sites.{IsSite, Site};
ghost use Rattle.tva_run.specs.Entries.{Entry, input_time, input_source, entry_time};
ghost use Rattle.tva_run.specs.NodeLog.{IsNodeLog, due};
ghost use Rattle.tva_run.specs.Next.{IsQuiet};
ghost use Rattle.tva_run.specs.Legal.{AreShort, IsLegalLog};

/// What the log of a node has before an earlier time is its log up to that time. Times are in
/// nanoseconds.
pub fn log_up_to()
    ensures { (site : Site) (inputs : List Input) (time until : ℕ) (log : List Entry)
        → IsInOrder input_time input_source inputs → time ≤ until
        → IsNodeLog site inputs until log → IsNodeLog site inputs time (cut entry_time time log) }
{}

/// A node has at most one log up to a time, and the same one over all inputs that agree before it.
pub fn one_log()
    ensures { (site : Site) (inputs others : List Input) (until : ℕ) (log other : List Entry)
        → due until inputs ≡ due until others
        → IsNodeLog site inputs until log → IsNodeLog site others until other → log ≡ other }
{}

/// A log up to a time has nothing at that time or later.
pub fn log_ends()
    ensures { (site : Site) (inputs : List Input) (until : ℕ) (log : List Entry)
        → IsNodeLog site inputs until log → cut entry_time until log ≡ log }
{}

/// Where there is nothing to do at a node from one time on up to another, a log up to the one is its
/// log up to the other. Times are in nanoseconds.
pub fn quiet_log()
    ensures { (site : Site) (inputs : List Input) (from until : ℕ) (log : List Entry) → from ≤ until
        → IsQuiet site inputs log from until → IsNodeLog site inputs from log → IsNodeLog site inputs until log }
{}

/// The log of a node is what its inputs and its links have: entries by time; just the inputs before a
/// time, each in its turn with what the node makes of it; and for each link a legal log of its port,
/// in which no start was missed. A log of which that is true is the node's; and it is true of the
/// node's where no packet that is queued has more than 2,048 bytes, as none of an accepted trace has.
/// Times are in nanoseconds.
pub fn node_logs_are_legal()
    ensures back { (site : Site) (inputs : List Input) (until : ℕ) (log : List Entry)
        → IsLegalLog site inputs until log → IsNodeLog site inputs until log }
    ensures legal { (site : Site) (inputs : List Input) (until : ℕ) (log : List Entry) → IsSite site
        → AreShort site log → IsNodeLog site inputs until log → IsLegalLog site inputs until log }
{}
