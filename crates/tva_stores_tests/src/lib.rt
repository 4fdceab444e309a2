//! Tests of what keeps things: shelves and sinks in memory, and tables of places. They stand
//! in a crate of their own, since a crate is proved once more with its tests.
#![tactic(auto)]

#[cfg(test)]
mod tests;
