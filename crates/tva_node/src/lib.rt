//! Nodes at work. A node takes its inputs in their order and lets its links decide: at one time all
//! inputs first, then each link that is free. Its contract promises that what it keeps is the node's
//! log over its inputs up to the time up to which it is worked; that its next time is the first at
//! which an input comes or a link decides; and that nodes that are worked in parts at once have the
//! logs that they have one after another. A node finds the link that decides first by a tree of
//! keys: where nothing is to be done it looks at that link alone, and of many links only at those
//! that have something to do. The restarts of a router and the changes of its routes are no inputs: the
//! node makes those that have come just before an input, so that they are in force for all inputs of
//! their time.
#![tactic(auto)]

mod at_once;
mod changes;
mod keeping;
mod links;
mod node;
mod outbox;
mod parts;
mod role;

pub use at_once::{advance_all, advance_each, processors, work_parts};
pub use node::{Node, node_crosses};
pub use tva_waiting::{Flight, Memory};
