// What a configuration lays down.
use tva_base::{HostPlan, LinkPlan, Listed, RouterPlan, Time};

/// What a configuration lays down for a node.
#[derive(Drop)]
pub enum NodePlan {
    Router(RouterPlan),
    Host(HostPlan),
}

/// A configuration: the last time at which anything happens, the greatest number of events, the
/// nodes (routers in the order of the file, then hosts) and the links in the order of the file.
/// Nodes and links are numbered by their places, from 0.
#[derive(Drop)]
pub struct Config {
    pub horizon: Time,
    pub max_events: u64,
    pub nodes: Listed<NodePlan>,
    pub links: Listed<LinkPlan>,
}
