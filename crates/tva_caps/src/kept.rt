// What is kept from one capability to the next.
ghost use Rattle.std.specs.Prelude.{◌≡◌, ◌≤◌};
ghost use Rattle.tva_base.specs.Versions.{AreSomeRights};
ghost use Rattle.tva_caps.specs.Formula.{capability_of, precap_of};

use crate::formulas::{EPOCH, capability, precap_with, secret_at};
use crate::known::Good;
use std::marker::Model;
use tva_base::{Flow, Grant, Rights};

/// The secret of a master in an epoch, so that pre-capabilities of the same master and epoch hash it
/// once, and the last capability that was made of one, so that the same isn't made again. Contracts see
/// nothing of it: whatever is kept, an answer is the same. No call takes memory.
#[derive(Drop)]
pub struct KeptSecret {
    master: [u8; 32],
    epoch: u64,
    secret: [u8; 32],
    last: Option<Good>,
}

impl Model for KeptSecret {
    ghost use Rattle.std.specs.Prelude.{◌≡◌};
    ghost use Rattle.tva_caps.specs.Formula.{secret_of};
    ghost use Rattle.tva_caps.specs.Known.{IsGoodOrNone};

    ghost Value = { Unit {0} };

    ghost view = { λ kept. tt };

    ghost invariant = { λ kept. (kept.secret ≡ secret_of kept.master kept.epoch) × IsGoodOrNone kept.master kept.last };
}

impl KeptSecret {
    /// At first the secret of a master in epoch 0.
    pub fn new(master: [u8; 32]) -> KeptSecret {
        KeptSecret {
            master,
            epoch: 0,
            secret: secret_at(&master, 0),
            last: None,
        }
    }

    /// The pre-capability that a router with this master mints for the flow in that router second, as
    /// `precap_at` gives it. Another secret than the kept one is kept in its place.
    #[tactic(auto, unfolding(crate::specs::Formula::precap_of))]
    pub fn precap_at(&mut self, master: &[u8; 32], second: u64, flow: Flow) -> u64
        requires { second ≤ 2000000 }
        ensures { result ≡ precap_of master.now flow second }
    {
        let epoch = second / EPOCH;
        if self.epoch != epoch || self.master != *master {
            if self.master != *master {
                self.last = None;
            }
            self.secret = secret_at(master, epoch);
            self.master = *master;
            self.epoch = epoch;
        }
        precap_with(&self.secret, second, flow)
    }

    /// The capability with these rights of the pre-capability that a router with this master mints for the
    /// flow in that router second. It is kept in place of the last one.
    pub fn capability_at(
        &mut self,
        master: &[u8; 32],
        second: u64,
        flow: Flow,
        rights: Rights,
    ) -> u64
        requires second { second ≤ 2000000 }
        requires rights { AreSomeRights rights }
        ensures { result ≡ capability_of (precap_of master.now flow second) rights }
    {
        let grant = Grant {
            flow,
            rights,
            second,
        };
        if let Some(good) = self.last {
            if good.grant == grant && self.master == *master {
                return good.cap;
            }
        }
        let cap = capability(self.precap_at(master, second, flow), rights);
        // It is: `precap_at` keeps this master, which its contract doesn't tell.
        if self.master == *master {
            self.last = Some(Good { grant, cap });
        }
        cap
    }
}
