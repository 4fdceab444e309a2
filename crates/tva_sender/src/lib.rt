//! What a host's packets show of the grants of its peers. A sender asks with requests and
//! renewals, takes the grants that answer them, and shows a grant by its list, by its nonce alone
//! while the routers on the way know it, and not past its bytes and its time. Its contract promises
//! that each shape is the definition's over what happened with the peer, that a grant is taken
//! exactly where the last ask isn't answered and the rights are within the sender's version, and that
//! only `reserve` takes memory.
#![tactic(auto)]

mod grant;
mod peer;
mod places;
mod sender;
mod shape;

pub use sender::Sender;
pub use shape::{Held, Shape};
