//! The flow cache of a router: which packets its granted flows may send as regular ones. A few slots
//! keep every granted budget, whatever a flood does to them. Its contract promises that each verdict
//! is the one over all charges of the router so far, though the cache keeps no list of them; that
//! a charge is added exactly where a packet is authorised; and that, where each charge came in its
//! grant's seconds, no grant has twice its units or more.
#![tactic(auto)]

mod cache;
mod hash;
mod kept;
mod laws;
mod table;
mod verdicts;

pub use cache::FlowCache;
pub use hash::HashKey;
pub use laws::{
    charges_have_places, charges_keep_budgets, living_flows_are_few, nonces_keep_seconds,
};
pub use verdicts::Verdict;
