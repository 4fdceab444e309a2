// The secrets that are kept while a trace is read.
ghost use Rattle.std.specs.Prelude.{◌≡◌, ◌≤◌};
ghost use Rattle.tva_base.specs.Versions.{AreSomeRights};
ghost use Rattle.tva_caps.specs.Formula.{capability_of, precap_of};

use std::array::from_fn;
use tva_base::{Flow, Rights};
use tva_caps::KeptSecret;

/// How many secrets are kept.
const KEPT: usize = 64;

/// Secrets of routers, each in the place of its router's number. Routers whose numbers are 64 apart
/// share a place.
#[derive(Drop)]
pub struct KeptSecrets {
    by_router: [KeptSecret; KEPT],
}

impl KeptSecrets {
    pub fn new() -> KeptSecrets {
        KeptSecrets {
            by_router: from_fn(|_| KeptSecret::new([0; 32])),
        }
    }

    /// The capability with these rights of the pre-capability that the router of that number, which has
    /// this master, mints for the flow in a second.
    pub fn capability_at(
        &mut self,
        number: u16,
        master: &[u8; 32],
        second: u64,
        flow: Flow,
        rights: Rights,
    ) -> u64
        requires second { second ≤ 2000000 }
        requires rights { AreSomeRights rights }
        ensures { result ≡ capability_of (precap_of master.now flow second) rights }
    {
        let kept = &mut self.by_router[usize::from(number) % KEPT];
        kept.capability_at(master, second, flow, rights)
    }
}
