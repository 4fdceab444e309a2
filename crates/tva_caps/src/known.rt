// Capabilities that are known to be good.
ghost use Rattle.tva_caps.specs.Known.{IsTold};

use tva_base::Grant;

/// A grant, and the capability that is good for it.
#[derive(Clone, Copy, Debug, PartialEq, Eq)]
pub struct Good {
    pub grant: Grant,
    pub cap: u64,
}

// Whether a capability is good for a grant, where what is known tells it: each grant has one that is.
pub(crate) fn told_by(known: &Option<Good>, shown: &Good) -> Option<bool>
    ensures { IsTold known.now shown.now result }
{
    match known {
        Some(good) if good.grant == shown.grant => Some(good.cap == shown.cap),
        _ => None,
    }
}
