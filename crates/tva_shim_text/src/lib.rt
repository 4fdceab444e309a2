//! The text of a shim. Its contract promises that bytes have the text of the shim whose layout they are,
//! or that there is none, and that they have one text.
#![tactic(auto)]

mod laws;
mod texts;

pub use laws::bytes_have_one_text;
pub use texts::shim_text;
