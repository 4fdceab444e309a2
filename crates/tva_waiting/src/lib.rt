//! The inputs of a node that are not taken yet, in the order of their taking: by time, and at one time by
//! source. Contracts see them as a list. They promise that one that is put in stands where that order has
//! it, that it is noted behind all that were given before, and that the first of the list is taken next;
//! and that want of memory changes nothing. A packet on its way is a `Flight`, which is small and moves, and
//! of which contracts see the `Sending`; an input of which memory holds nothing is noted without being made.
#![tactic(auto)]

mod flights;
mod inbox;
mod kept;
mod lanes;
mod memory;
mod past;
mod waiting;

pub use flights::Flight;
pub use inbox::Inbox;
pub use kept::Kept;
pub use memory::Memory;
pub use waiting::Waiting;
