//! A router: what becomes of the packets that arrive at it. Its contract promises that every arrival
//! has the fate that the router's plan, all its charges and the logs of its links' ports so far give,
//! though it keeps none of these; and that it then stands for them with what the arrival added.
#![tactic(auto)]

mod finding;
mod guard;
mod hand_router;
mod judged;
mod key;
mod laws;
mod places;
mod router;
mod routes;
mod sending;

pub use hand_router::HandRouter;
pub use judged::{Arrival, Judged};
pub use key::flow_key;
pub use laws::{
    charges_keep_slots, equal_masters_judge_alike, fates_tell_entries, links_keep_limits,
    marks_have_causes, verdicts_need_no_logs, verdicts_need_no_routes, ways_lead,
};
pub use router::Router;
pub use sending::outcome_of;
