//! Whom a host grants. A policy lets a source in by its kind, unless the source or a tag of its
//! packet is denied, and grants at most so many times to one source. Its contract promises that
//! each decision is the definition's over the send rows and decisions so far, and that a decision
//! without a grant and want of memory change nothing.
#![tactic(auto)]

mod laws;
mod policies;
mod sets;

pub use laws::noted_once_is_noted;
pub use policies::Policy;
