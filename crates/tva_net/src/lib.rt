//! The run of a network, worked window by window: nodes joined by their links, of which each is worked
//! over what reaches it. Its contract speaks of one condition on the logs of all nodes, in which no
//! window occurs: what it gives is the events of each window of the run in which something happens, in
//! their order; it has ended exactly where nothing more happens up to the horizon; and it refuses
//! exactly where there are more events than may be. A network may forget what it has given: it stands
//! for the same run, and holds in memory what is still to come.
#![tactic(auto)]

mod building;
mod due;
mod gathering;
mod kinds;
mod net;
mod pace;
mod parts;
mod posting;
mod sums;
mod times;
mod timing;
mod works;

pub use gathering::gather;
pub use kinds::{NetError, Window};
pub use net::Net;
pub use posting::post_beside;
pub use times::{due_before, first_time, note, note_all, times_of};
pub use tva_node::{Memory, Node, advance_all};
pub use tva_run::{Input, Sending};
