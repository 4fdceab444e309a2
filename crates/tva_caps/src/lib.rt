//! The capabilities of a router (TVA): secrets that change with time, pre-capabilities that it mints
//! for requests, capabilities that destinations make of them, and the check of a shown capability.
//! Its contract promises that each of them is the formula of its definition, at every change of the
//! secret, and that a capability is taken in exactly the seconds that its rights give it.
#![tactic(auto)]

mod formulas;
mod kept;
mod known;
mod laws;
mod minters;
mod secrets;

pub use formulas::{capability, precap_at};
pub use kept::KeptSecret;
pub use known::Good;
pub use laws::capability_lasts;
pub use minters::{Checked, Minter};
