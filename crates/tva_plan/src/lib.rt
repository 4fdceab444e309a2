//! What a configuration lays down: its horizon, its nodes and its links, and the questions that are
//! asked of them. Its contract promises that each count is the one over all nodes or links, that a name
//! gives the first node that has it, and which nodes are hosts.
#![tactic(auto)]

mod config;
mod counts;
mod names;

pub use config::{Config, NodePlan};
pub use counts::{has_host_or_link, link_count, node_count, route_count, slot_count};
pub use names::{is_host, is_host_plan, name_at, node_numbers, number_of};
