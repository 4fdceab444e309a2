//! Fair queues by deficit round robin (Shreedhar and Varghese, 1996), of one level and of two. Items wait under
//! their keys, and each key in turn sends about a quantum of bytes; in two-level queues outer keys take turns, and
//! behind each stand fair queues by inner keys, so that a flood under one inner key takes from its neighbours at
//! most their turns, and from other outer keys at most theirs. A set of queues is one list in ring order; its
//! contract says of each call exactly what it answers and leaves of that list, and its laws say how many bytes
//! go before a waiting item, whatever is offered, and that two queues get about as much as each other. All memory
//! is taken when the queues are made.
#![tactic(auto)]

mod fair_queues;
mod fair_source;
mod front;
mod group_laws;
#[cfg(test)]
mod group_tests;
mod hier_queues;
mod laws;
mod measured;
mod offered;
mod places;
mod row;
mod served;
mod source;
#[cfg(test)]
mod tests;
mod turning;

pub use fair_queues::FairQueues;
pub use group_laws::{bytes_ahead_of_groups_fall, items_of_groups_go_within_bounds};
pub use hier_queues::HierQueues;
pub use laws::{bytes_ahead_fall, items_go_within_bounds, queues_are_served_alike};
pub use measured::Measured;
pub use offered::Offered;
pub use served::Served;
pub use source::Source;
pub use turning::Turns;
