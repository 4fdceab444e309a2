//! File transfers between hosts: files in segments, with acknowledgement and retransmission. Contents
//! aren't kept; ranges of bytes are. Its contract promises that what a host sends, delivers and answers
//! is the definition's over all that happened to it, and its laws that a receiver delivers the ranges of
//! each transfer in order and once, whatever is lost, repeated or late, and that a sender never believes
//! more than was delivered.
#![tactic(auto)]

mod courier;
mod laws;
mod transfers;

pub use courier::{Courier, Landed};
pub use laws::{acknowledged_was_delivered, ranges_are_delivered_in_order};
pub use transfers::Transfer;
