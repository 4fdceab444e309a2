// What the entries of the tables are read as, before they are compared with one another.
use tva_base::{Address, LinkLimits, Name, PolicyPlan, Prefix};

/// A router: its name, master, places of the flow cache, clock offset in nanoseconds, and tag of
/// packets from the trace.
#[derive(Drop)]
pub struct RouterEntry {
    pub name: Name,
    pub master: [u8; 32],
    pub slots: u32,
    pub clock_offset: u64,
    pub edge_tag: u16,
}

/// A host: its name, address, first nonce, margin and retry time in nanoseconds, the version of its
/// shims, and policy.
#[derive(Drop)]
pub struct HostEntry {
    pub name: Name,
    pub address: Address,
    pub nonce: u64,
    pub margin: u64,
    pub retry: u64,
    pub version: u8,
    pub policy: PolicyPlan,
}

/// A link: the names of its ends, its delay in nanoseconds, tag and limits.
#[derive(Drop)]
pub struct LinkEntry {
    pub from: Name,
    pub to: Name,
    pub delay: u64,
    pub tag: u16,
    pub limits: LinkLimits,
}

/// A route: the name of its router, its prefix, and the name of the next node.
#[derive(Drop)]
pub struct RouteEntry {
    pub router: Name,
    pub prefix: Prefix,
    pub via: Name,
}

/// A restart: the name of its router, its time in nanoseconds, and the master from then on.
#[derive(Drop)]
pub struct RestartEntry {
    pub router: Name,
    pub at: u64,
    pub master: [u8; 32],
}

/// A change of a route: its time in nanoseconds, and the route from then on.
#[derive(Drop)]
pub struct RerouteEntry {
    pub at: u64,
    pub route: RouteEntry,
}

/// What stands in a configuration: its horizon in nanoseconds, its greatest number of events, and the
/// entries of all tables in the order of the file.
#[derive(Drop)]
pub struct EntryLists {
    pub horizon: u64,
    pub max_events: u64,
    pub routers: Vec<RouterEntry>,
    pub hosts: Vec<HostEntry>,
    pub links: Vec<LinkEntry>,
    pub routes: Vec<RouteEntry>,
    pub restarts: Vec<RestartEntry>,
    pub reroutes: Vec<RerouteEntry>,
}
