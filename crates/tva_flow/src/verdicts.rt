// What becomes of a packet of a granted flow.
ghost use Rattle.std.specs.Prelude.{◌≡◌};
ghost use Rattle.tva_flow.specs.Verdicts.{is_authorised};

use tva_base::Grant;

/// What a router makes of a packet that shows a capability or a nonce. Only an authorised packet is
/// charged, by the grant that is told.
#[derive(Clone, Copy, Debug, PartialEq, Eq)]
pub enum Verdict {
    /// It is a regular packet, charged under this grant.
    Authorised(Grant),
    /// The grant's T seconds are over.
    Expired,
    /// The grant's bytes in this life of its flow would be more than N units of 1,024 bytes.
    OverN,
    /// The flow doesn't live, or its holder has another nonce.
    UnknownNonce,
    /// The flow doesn't live, and as many flows live as there are slots.
    CacheFull,
    /// The flow lives by another grant, whose second isn't earlier.
    Superseded,
}

impl Verdict {
    pub(crate) fn is_authorised(&self) -> bool
        ensures { result ≡ is_authorised self.now }
    {
        matches!(self, Verdict::Authorised(_))
    }
}
