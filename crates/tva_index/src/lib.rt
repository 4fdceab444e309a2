//! Fixed tables by which a router finds what it keeps without a search through all of it: places in
//! buckets, each bucket's from the last on, numbers at places with the place of a least one, and keys in
//! ring order. The contracts say of each call exactly what it answers and leaves. All memory is taken
//! when a table is made.
#![tactic(auto)]

mod bits;
mod buckets;
mod fronts;
mod key_ring;
mod links;
mod lowest;
mod number;
mod numbered_keys;
mod tree;

pub use buckets::Buckets;
pub use fronts::take_front;
pub use key_ring::KeyRing;
pub use lowest::Lowest;
pub use number::Number;
