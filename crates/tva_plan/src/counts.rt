// What a configuration holds.
ghost use Rattle.std.specs.Prelude.{◌≡◌};
ghost use Rattle.std.specs.List.{list_any};
ghost use Rattle.tva_plan.specs.Counts.{routes_in, slots_in, node_count, link_count, route_count, slot_count, has_some, has_host_or_link};
ghost use Rattle.tva_plan.specs.Names.{is_host_plan};

use crate::config::{Config, NodePlan};
use crate::names::is_host_plan;

/// The number of nodes.
pub fn node_count(config: &Config) -> usize
    ensures { result ≡ node_count config.now }
{
    config.nodes.len()
}

/// The number of links.
pub fn link_count(config: &Config) -> usize
    ensures { result ≡ link_count config.now }
{
    config.links.len()
}

/// The number of routes of all routers together.
pub fn route_count(config: &Config) -> u128
    ensures { result ≡ route_count config.now }
{
    let mut total = 0;
    for node in config.nodes.as_slice() {
        total += u128::from(routes_at(node));
    }
    total
}

fn routes_at(node: &NodePlan) -> u64
    ensures { result ≡ routes_in node.now }
{
    match node {
        NodePlan::Router(plan) => plan.routes.len() as u64,
        NodePlan::Host(_) => 0,
    }
}

/// The number of slots of all routers together.
pub fn slot_count(config: &Config) -> u128
    ensures { result ≡ slot_count config.now }
{
    let mut total = 0;
    for node in config.nodes.as_slice() {
        total += u128::from(slots_at(node));
    }
    total
}

fn slots_at(node: &NodePlan) -> u64
    ensures { result ≡ slots_in node.now }
{
    match node {
        NodePlan::Router(plan) => u64::from(plan.slots),
        NodePlan::Host(_) => 0,
    }
}

/// Whether there is a host or a link.
pub fn has_host_or_link(config: &Config) -> bool
    ensures { result ≡ has_host_or_link config.now }
{
    if has_host(config.nodes.as_slice()) {
        return true;
    }
    has_link(config)
}

fn has_host(nodes: &[NodePlan]) -> bool
    ensures { result ≡ list_any is_host_plan nodes.now }
{
    nodes.iter().any(|node| is_host_plan(node))
}

fn has_link(config: &Config) -> bool
    ensures { result ≡ has_some config.now.links }
{
    !config.links.as_slice().is_empty()
}
