//! A link's port: requests under a rate limit, in queues of one level or of two, then regular
//! packets in fair queues, then the rest in order. Its contract promises that each queueing and
//! each decision is the one that the list of all packets queued and started so far gives, though
//! the port keeps no such list; that requests never start faster than the link's share for them
//! and a burst allow; that no start is missed; and that, whatever others send, a queued request
//! or regular packet starts within its bound.
#![tactic(auto)]

mod bounds;
mod credits;
mod decision;
mod fair;
mod hand;
mod hand_port;
mod held;
mod laws;
mod legacy;
mod parts;
mod port;
mod requests;
mod stock;
mod worked;

pub use bounds::{
    keys_are_served_alike, longest_regular_wait, longest_request_wait, packets_start_in_time,
};
pub use decision::Decision;
pub use hand::{Answer, Hand, Next, decision_by, destination_in, id_in, key_in, length_in};
pub use hand_port::HandPort;
pub use laws::{
    links_rest, logs_have_places, queues_keep_limits, requests_keep_their_rate, starts_rise,
};
pub use port::{Port, places_in};
pub use stock::Stock;
pub use worked::{
    a_regular_packet_waits_half_its_bound, a_request_waits_half_its_bound_on_two_levels,
    worked_keys_are_served_alike,
};
