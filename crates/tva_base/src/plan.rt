// What a configuration lays down for the nodes and links of a network.
use crate::addresses::{Address, Prefix};
use crate::limits::LinkLimits;
use crate::listed::Listed;
use crate::packet::{Rights, Time};
use crate::texts::Name;

/// One direction of a link, between two nodes. The delay is in nanoseconds; the tag is 0 where
/// the link is no trust boundary.
#[derive(Clone, Copy, Debug, PartialEq, Eq)]
pub struct LinkPlan {
    pub from: u16,
    pub to: u16,
    pub delay: u64,
    pub tag: u16,
    pub limits: LinkLimits,
}

/// The link that packets for a prefix take.
#[derive(Clone, Copy, Debug, PartialEq, Eq)]
pub struct Route {
    pub prefix: Prefix,
    pub link: u16,
}

/// A router: its name, the master that its secrets come from, the nanoseconds that its clock is
/// ahead, the places of its flow cache, the tag of packets from the trace, its incoming links
/// with their tags, its outgoing links with their limits, and its routes; the times at which it
/// restarts, with the master that it then has, and those at which the route of a prefix takes another
/// outgoing link. Times are in nanoseconds. Those of restarts rise, and so do those of the changes of
/// one prefix.
#[derive(Debug, Drop)]
pub struct RouterPlan {
    pub name: Name,
    pub master: [u8; 32],
    pub clock_offset: u64,
    pub slots: u32,
    pub edge_tag: u16,
    pub incoming: Listed<(u16, u16)>,
    pub outgoing: Listed<(u16, LinkLimits)>,
    pub routes: Listed<Route>,
    pub restarts: Listed<(Time, [u8; 32])>,
    pub reroutes: Listed<(Time, Prefix, u16)>,
}

/// Whom a host grants at all: nobody, whom it sent to before, or everybody.
#[derive(Clone, Copy, Debug, PartialEq, Eq)]
pub enum PolicyKind {
    DenyAll,
    Client,
    Server,
}

/// Whom a host grants, which rights, how often to one source, and whom it denies.
#[derive(Debug, Drop)]
pub struct PolicyPlan {
    pub kind: PolicyKind,
    pub rights: Rights,
    pub grants: u32,
    pub deny: Listed<Address>,
    pub deny_tags: Listed<u16>,
}

/// A host: its name and address, the first nonce that it offers, the nanoseconds that it stays
/// clear of the end of a grant, those before it asks again, the version of its shims, its policy,
/// and its link out.
#[derive(Debug, Drop)]
pub struct HostPlan {
    pub name: Name,
    pub address: Address,
    pub nonce: u64,
    pub margin: u64,
    pub retry: u64,
    pub version: u8,
    pub policy: PolicyPlan,
    pub uplink: u16,
}
