//! What is so of every run, as laws over definitions alone. `promises`: at each place of a node's log charges come in
//! their grant's seconds and at most twice its units, flows have slots, links keep rates, limits and bounds, each
//! input became what the node makes of it, and each arrival has the cause, the charge and the class that the router's
//! tables give. `existence`: a valid configuration and the rows of a trace have a run up to each time, and so a report.
//! `paths`: where each packet that comes to a node was made, and what no router changed in it. `delivery`: whatever is
//! lost, repeated or late, a receiver delivers the ranges of a file in order and once. `honest`: what an honest sender
//! shows is charged to its grant and goes on as regular, by each router to which its path is steady. `walks`: runs that
//! were worked out by hand, and in which paths are steady or not; no promise rests on them.
#![tactic(auto)]

mod delivery;
mod existence;
mod honest;
mod paths;
mod promises;
mod walks;

pub use delivery::files_are_delivered_in_order;
pub use existence::{reports_are_there, runs_are_there};
pub use honest::{
    honest_senders_are_authorised, honest_senders_are_regular, narrow_paths_are_steady,
    paths_lie_in_a_boot, whole_paths_are_steady, worked_walk_comes_steadily, worked_walk_is_a_run,
};
pub use paths::packets_have_origins;
pub use promises::{
    nodes_keep_promises, queued_before_a_restart, refused_is_not_regular, runs_keep_promises,
};
pub use walks::{
    a_grant_behind_a_restart_comes_steadily, a_grant_by_a_changed_route_comes_steadily,
    a_lost_packet_ends_no_path_of_lists, a_restart_ends_the_path,
    a_shown_list_and_a_renewed_grant_come_steadily, a_walk_by_a_changed_route_is_a_run,
    a_walk_over_a_new_master_is_a_run, a_walk_over_the_same_master_is_a_run,
    a_walk_with_a_loss_is_a_run,
};
