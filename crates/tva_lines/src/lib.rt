//! The lines of reports. Its contract promises that a line has just the bytes of its event, or of the
//! sums, at most 255, and that under a valid configuration each before its line feed is printable.
#![tactic(auto)]

mod laws;
mod lines;
mod parts;
mod words;

pub use laws::lines_are_printable;
pub use lines::{line_text, summary_text};
