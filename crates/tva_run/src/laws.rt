// What holds of every run.
ghost use Rattle.std.specs.Prelude.{◌≡◌, ℕ, ◌+◌, ◌≤◌, ◌==◌, ◌++◌, [], All, List, Some, filter, length, map, min, slice_get};
ghost use Rattle.std.specs.List.{flat_map};
ghost use Rattle.tva_base.specs.declared.event.Event.{Event};
ghost use Rattle.tva_base.specs.declared.plan.LinkPlan.{LinkPlan};
ghost use Rattle.tva_plan.specs.declared.config.Config.{Config};
ghost use Rattle.tva_plan.specs.Valid.{IsConfig};
ghost use Rattle.tva_rows.specs.declared.rows.Row.{Row};
ghost use Rattle.tva_lines.specs.Lines.{HasEvent};
ghost use Rattle.tva_run.specs.Joins.{IsJoin, NeverFalls};
ghost use Rattle.tva_run.specs.Sites.{IsSite, Site};
ghost use Rattle.tva_run.specs.Entries.{Entry, input_time};
ghost use Rattle.tva_run.specs.Legal.{AreShort};
ghost use Rattle.tva_run.specs.Told.{sendings};
ghost use Rattle.tva_run.specs.Reaching.{Logs, arrival, arrivals, log_at, site_at};
ghost use Rattle.tva_run.specs.Run.{HasLog, IsRun, IsRunTo, logs_before};
ghost use Rattle.tva_run.specs.Report.{AreEvents, AreEventsTo, IsReport, event_node, event_time, events_at, lines_of};
ghost use Rattle.tva_run.specs.Windows.{AreWindows, HasWork, IsAtRest, IsNextWindow, IsOver, Window, given, window_length};

/// A configuration and a trace have at most one run up to a time, in nanoseconds.
pub fn one_run()
    ensures { (config : Config) (rows : List Row) (until : ℕ) (logs others : Logs) → IsConfig config
        → IsRunTo config rows until logs → IsRunTo config rows until others → logs ≡ others }
{}

/// What a run has before an earlier time is the run up to that time. Times are in nanoseconds.
pub fn run_up_to()
    ensures { (config : Config) (rows : List Row) (time until : ℕ) (logs : Logs) → IsConfig config
        → time ≤ until → IsRunTo config rows until logs → IsRunTo config rows time (logs_before time logs) }
{}

/// The events of a run up to a later time begin with those of a run up to an earlier one, and so do
/// their lines. Times are in nanoseconds.
pub fn events_go_on()
    ensures { (config : Config) (rows : List Row) (time until : ℕ) (first told : List Event) → IsConfig config
        → time ≤ until → AreEventsTo config rows time first → AreEventsTo config rows until told
        → (rest : List Event) × (told ≡ first ++ rest)
        × (lines_of config told ≡ lines_of config first ++ lines_of config rest) }
{}

/// No run up to some time, in nanoseconds, has more events than the whole run has. So a number of events
/// that the whole run keeps to is passed by no run of that configuration and trace.
pub fn whole_runs_have_most_events()
    ensures { (config : Config) (rows : List Row) (until : ℕ) (part whole : List Event) → IsConfig config
        → AreEventsTo config rows until part → AreEventsTo config rows (config.horizon.0 + 1) whole
        → length part ≤ length whole }
{}

/// A configuration and a trace have at most one report.
pub fn one_report()
    ensures { (config : Config) (rows : List Row) (text other : List ℕ) → IsConfig config
        → IsReport config rows text → IsReport config rows other → text ≡ other }
{}

/// A run has one list of windows from a time on, in nanoseconds.
pub fn one_list_of_windows()
    ensures { (config : Config) (rows : List Row) (logs : Logs) (from : ℕ) (windows others : List Window)
        → AreWindows config rows logs from windows → AreWindows config rows logs from others → windows ≡ others }
{}

/// A window is as long as the least delay of the links: it is the delay of one of them, and no link has a
/// smaller one. Without links a window is as long as the horizon and one more. Lengths and delays are in
/// nanoseconds.
pub fn windows_are_longest()
    ensures one { (config : Config) → (config.links ≡ [] → ⊥) → (number : ℕ) × (link : LinkPlan)
        × (slice_get config.links number ≡ Some link) × (window_length config ≡ link.delay) }
    ensures least { (config : Config) (number : ℕ) (link : LinkPlan) → slice_get config.links number ≡ Some link
        → window_length config ≤ link.delay }
    ensures alone { (config : Config) → config.links ≡ [] → window_length config ≡ config.horizon.0 + 1 }
{}

/// A run up to a time goes on over a window that begins then: logs up to its end over what was sent
/// before it are the run up to its end. Times are in nanoseconds.
pub fn run_goes_on()
    ensures { (config : Config) (rows : List Row) (from until : ℕ) (logs longer : Logs)
        → IsRunTo config rows from logs → from ≤ until → until ≤ from + window_length config
        → until ≤ config.horizon.0 + 1 → length longer ≡ length config.nodes
        → ((node : ℕ) (site : Site) → site_at config node ≡ Some site
        → HasLog config rows logs until site (log_at longer node))
        → IsRunTo config rows until longer }
{}

/// Where no node has anything to do from one time on up to another, a run up to the one is the run up
/// to the other. Times are in nanoseconds.
pub fn run_rests()
    ensures { (config : Config) (rows : List Row) (from until : ℕ) (logs : Logs) → IsRunTo config rows from logs
        → from ≤ until → until ≤ config.horizon.0 + 1
        → ((node : ℕ) (site : Site) → site_at config node ≡ Some site
        → IsAtRest config rows logs from until site (log_at logs node))
        → IsRunTo config rows until logs }
{}

/// Where each node's events are those before a time and new ones, the join of the new ones comes
/// behind the events before that time. Times are in nanoseconds.
pub fn events_are_added()
    ensures { (config : Config) (from : ℕ) (logs : Logs) (told news : List Event) (new : ℕ → List Event)
        → AreEvents config (logs_before from logs) told
        → ((node : ℕ) → events_at config logs node ≡ events_at config (logs_before from logs) node ++ new node)
        → IsJoin event_time event_node new news → AreEvents config logs (told ++ news) }
{}

/// The nodes of a valid configuration are valid, and have their numbers.
pub fn sites_are_valid()
    ensures { (config : Config) (node : ℕ) (site : Site) → IsConfig config → site_at config node ≡ Some site
        → (site.number ≡ node) × IsSite site }
{}

/// Where, over the run up to a time, no node has anything to do before a later time, and one has then,
/// the next window starts then. The packets that were queued so far have at most 2,048 bytes each, as
/// those of an accepted trace have: a request that no burst pays for would wait once more as its wait
/// ends. Times are in nanoseconds.
pub fn window_is_next()
    ensures { (config : Config) (rows : List Row) (from start until : ℕ) (logs whole : Logs) → IsConfig config
        → IsRunTo config rows from logs → IsRunTo config rows until whole
        → from ≤ start → start ≤ until → start ≤ config.horizon.0
        → ((node : ℕ) (site : Site) → site_at config node ≡ Some site
        → IsAtRest config rows logs from start site (log_at logs node))
        → ((node : ℕ) (site : Site) → site_at config node ≡ Some site → AreShort site (log_at logs node))
        → HasWork config rows logs from start
        → IsNextWindow config rows whole from (start, min (start + window_length config) (config.horizon.0 + 1)) }
{}

/// Where, over the run up to a time, no node has anything to do up to the horizon, there is no further
/// window. Times are in nanoseconds.
pub fn windows_are_over()
    ensures { (config : Config) (rows : List Row) (from : ℕ) (logs whole : Logs) → IsConfig config
        → IsRunTo config rows from logs → IsRunTo config rows (config.horizon.0 + 1) whole
        → ((node : ℕ) (site : Site) → site_at config node ≡ Some site
        → IsAtRest config rows logs from (config.horizon.0 + 1) site (log_at logs node))
        → IsOver config rows whole from }
{}

/// What happens in the windows of a run, one window after another, is all that happens.
pub fn windows_hold_all()
    ensures { (config : Config) (rows : List Row) (logs : Logs) (windows : List Window) (told : List Event)
        → IsRun config rows logs → AreEvents config logs told → AreWindows config rows logs 0 windows
        → flat_map (λ events. events) (given told windows) ≡ told }
{}

/// What arrives on a link is what the node before it sends on that link.
pub fn sendings_arrive()
    ensures { (config : Config) (number : ℕ) (link : LinkPlan) (site : Site) (log : List Entry)
        → slice_get config.links number ≡ Some link → site_at config link.from ≡ Some site
        → arrivals number link log ≡ map arrival (filter (λ sent. sent.link == number) (sendings site log)) }
{}

/// What arrives on a link arrives in the order of time.
pub fn arrivals_rise()
    ensures { (config : Config) (rows : List Row) (until number : ℕ) (logs : Logs) (link : LinkPlan)
        → IsConfig config → IsRunTo config rows until logs → slice_get config.links number ≡ Some link
        → NeverFalls input_time (arrivals number link (log_at logs link.from)) }
{}

/// The nodes and links that the events of a run name are the configuration's. Times are in
/// nanoseconds.
pub fn events_have_names()
    ensures { (config : Config) (rows : List Row) (until : ℕ) (told : List Event) → IsConfig config
        → AreEventsTo config rows until told → All (HasEvent config) told }
{}
