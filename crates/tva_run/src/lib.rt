//! The log of a node, and the run of a network. A log is all that happens at a router or a host, as one list of
//! entries over its inputs: an input that is taken, with what the node makes of it, or a packet that a link starts.
//! The inputs come in an ordered join of their sources: by time, and at one time by source. A run is a log for each
//! node, of just what reaches it from the trace and from the other nodes. Definitions say of whole lists that they
//! are the log and the run up to a time, of events and of a text that they are the run's, and which spans of time are
//! its windows. Contracts promise that there is one log, one run and one report at most; that what a run has before
//! an earlier time is the run up to that; that events are those of nodes and links of the configuration and at most
//! so many; that windows, as long as the least delay of a link, hold all that happens; and that a run goes on over a
//! window, and where nothing is to be done.
#![tactic(auto)]

mod joining;
mod kinds;
mod laws;
mod log_laws;

pub use joining::{cut_joins, one_join, put_all_joins, put_past_a_time};
pub use kinds::{Input, Sending};
pub use laws::{
    arrivals_rise, events_are_added, events_go_on, events_have_names, one_list_of_windows,
    one_report, one_run, run_goes_on, run_rests, run_up_to, sendings_arrive, sites_are_valid,
    whole_runs_have_most_events, window_is_next, windows_are_longest, windows_are_over,
    windows_hold_all,
};
pub use log_laws::{log_ends, log_up_to, node_logs_are_legal, one_log, quiet_log};
