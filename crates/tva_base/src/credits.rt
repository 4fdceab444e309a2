// How much time a packet adds to the life of its flow.
ghost use Rattle.std.specs.Prelude.{◌≡◌, ◌≤◌, ◌*◌, ℕ};
ghost use Rattle.tva_base.specs.Credit.{credit_of};

use crate::constants::{SECOND, UNIT};
use crate::packet::Rights;

/// The credit of a packet of `length` bytes under its rights, in nanoseconds: the least number
/// that isn't below `length * t * 10^9 / (1,024 * n)`. This is TVA's time to live, rounded up.
#[tactic(auto, unfolding(crate::specs::Credit::credit_of))]
pub fn credit(length: u32, rights: Rights) -> u64
    requires some { 1 ≤ rights.n }
    requires short { length ≤ 2048 }
    ensures credit { result ≡ credit_of length rights }
    ensures enough { length * rights.t * 1000000000 ≤ result * (1024 * rights.n) }
    ensures least { (x : ℕ) → length * rights.t * 1000000000 ≤ x * (1024 * rights.n) → result ≤ x }
{
    let bytes_seconds = u64::from(length) * u64::from(rights.t) * SECOND;
    let granted = UNIT * u64::from(rights.n);
    bytes_seconds.div_ceil(granted)
}
