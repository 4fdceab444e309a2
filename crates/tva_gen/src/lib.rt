//! Makes a large valid trace from a number, over the hosts of a configuration. Its contract promises
//! exactly the text that the definitions give for the number, the count of rows and the plan.
#![tactic(auto)]

mod draw;
mod hosts;
mod rows;
mod text;

pub use text::generate;
