//! Tests of plain types, shims, packets and capabilities, and of what texts are read as and lines say where no run
//! of the program shows it. They stand in a crate of their own, since a crate is proved once more with its tests.
#![tactic(auto)]

#[cfg(test)]
mod tests;
