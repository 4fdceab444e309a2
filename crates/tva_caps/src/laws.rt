// What holds of every capability.
ghost use Rattle.std.specs.Prelude.{◌≡◌, ◌≤◌, ◌<◌, ℕ, ◌+◌};
ghost use Rattle.tva_base.specs.Versions.{AreSomeRights};
ghost use Rattle.tva_caps.specs.Formula.{capability_of, precap_of};
ghost use Rattle.tva_caps.specs.Check.{check_of};

use crate::minters::Checked;
use tva_base::{Flow, Rights};

/// The capability of a pre-capability that was minted in a router second, shown to that router with
/// the same rights in the 256 seconds from that one on, is good for the grant of that second in the
/// first `t` of them, and expired in all others.
pub fn capability_lasts(master: [u8; 32], second: u64, flow: Flow, rights: Rights)
    requires { AreSomeRights rights }
    ensures valid { (k : ℕ) → k < rights.t → check_of master (second + k) flow (capability_of (precap_of master flow second) rights) rights ≡ Checked.Valid (record { flow = flow; rights = rights; second = second }) }
    ensures expired { (k : ℕ) → rights.t ≤ k → k < 256 → check_of master (second + k) flow (capability_of (precap_of master flow second) rights) rights ≡ Checked.Expired }
{}
