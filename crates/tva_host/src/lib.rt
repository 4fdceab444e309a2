//! A host: the packets that it sends, and what it makes of those that it receives. Its contract
//! promises that each packet, each receipt and each reply is the definition's over what the host did
//! and met so far, though it keeps none of that; that it then stands for it with what the call
//! added; and that want of memory changes nothing but the room for peers.
#![tactic(auto)]

mod host;
mod laws;
mod made;
mod packets;
mod received;

pub use host::Host;
pub use laws::{answers_are_shown, lengths_are_counted, peers_are_played};
pub use made::{Made, Receipt};
