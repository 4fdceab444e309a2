// The plans of nodes, from what their entries, links and routes are read as.
ghost use Rattle.std.specs.Prelude.{◌≡◌, ◌≤◌, ◌+◌, ◌++◌, IfOk, OnOk, length};
ghost use Rattle.tva_config.specs.{Read.router_plan, Read.host_plan, Read.router_plans, Views.seen_owned};
ghost use Rattle.tva_config.specs.Stages.{routes_at, restarts_at, reroutes_at, host_plans};
ghost use Rattle.tva_plan.specs.Wiring.{incoming_of, outgoing_of};

use crate::joined::{OwnedLists, OwnedReroute, OwnedRestart, OwnedRoute};
use std::alloc::{AllocError, Global};
use tva_base::{HostPlan, LinkLimits, LinkPlan, Listed, Prefix, Route, RouterPlan, Time};
use tva_config_entries::{HostEntry, RouterEntry};
use tva_plan::NodePlan;

/// The plans of the routers.
pub fn router_plans(
    alloc: Global,
    links: &[LinkPlan],
    owned: &OwnedLists,
    routers: Vec<RouterEntry>,
) -> Result<Vec<NodePlan>, AllocError>
    requires routers { length routers.items ≤ 1024 }
    requires links { length links.now ≤ 4096 }
    ensures { IfOk result (λ nodes. nodes.items ≡ router_plans links.now (seen_owned owned.now) 0 routers.items) }
{
    let mut nodes = Vec::new(alloc);
    let mut number = 0;
    for router in routers {
        let plan = router_plan(alloc, links, owned, number, router)?;
        nodes.push(NodePlan::Router(plan))?;
        number += 1;
    }
    Ok(nodes)
}

// The plan of a router of that number.
#[tactic(auto, unfolding(crate::specs::Read::router_plan, crate::specs::Stages::routes_at, crate::specs::Stages::restarts_at, crate::specs::Stages::reroutes_at))]
fn router_plan(
    alloc: Global,
    links: &[LinkPlan],
    owned: &OwnedLists,
    number: u16,
    router: RouterEntry,
) -> Result<RouterPlan, AllocError>
    requires { length links.now ≤ 4096 }
    ensures { IfOk result (λ plan. plan ≡ router_plan links.now (seen_owned owned.now) number router) }
{
    let incoming = incoming(alloc, number, links)?;
    let outgoing = outgoing(alloc, number, links)?;
    let routes = routes_at(alloc, number, &owned.routes)?;
    let restarts = restarts_at(alloc, number, &owned.restarts)?;
    let reroutes = reroutes_at(alloc, number, &owned.reroutes)?;
    let master = router.master;
    Ok(RouterPlan {
        name: router.name,
        master,
        clock_offset: router.clock_offset,
        slots: router.slots,
        edge_tag: router.edge_tag,
        incoming,
        outgoing,
        routes,
        restarts,
        reroutes,
    })
}

// The links into a node, each with its tag.
#[tactic(auto, unfolding(tva_plan::specs::Wiring::incoming_of))]
fn incoming(alloc: Global, node: u16, links: &[LinkPlan]) -> Result<Listed<(u16, u16)>, AllocError>
    requires { length links.now ≤ 4096 }
    ensures { IfOk result (λ found. found ≡ incoming_of node links.now) }
{
    let mut found = Vec::new(alloc);
    for (i, link) in links.iter().enumerate() {
        if link.to == node {
            found.push((i as u16, link.tag))?;
        }
    }
    Ok(Listed::new(found))
}

// The links out of a node, each with its limits.
#[tactic(auto, unfolding(tva_plan::specs::Wiring::outgoing_of))]
fn outgoing(
    alloc: Global,
    node: u16,
    links: &[LinkPlan],
) -> Result<Listed<(u16, LinkLimits)>, AllocError>
    requires { length links.now ≤ 4096 }
    ensures { IfOk result (λ found. found ≡ outgoing_of node links.now) }
{
    let mut found = Vec::new(alloc);
    for (i, link) in links.iter().enumerate() {
        if link.from == node {
            found.push((i as u16, link.limits))?;
        }
    }
    Ok(Listed::new(found))
}

// The routes of a router.
#[tactic(auto, unfolding(crate::specs::Stages::routes_at))]
fn routes_at(alloc: Global, router: u16, routes: &[OwnedRoute]) -> Result<Listed<Route>, AllocError>
    ensures { IfOk result (λ found. found ≡ routes_at router routes.now) }
{
    let mut found = Vec::new(alloc);
    for owned in routes {
        if owned.router == router {
            found.push(owned.route)?;
        }
    }
    Ok(Listed::new(found))
}

// The restarts of a router.
#[tactic(auto, unfolding(crate::specs::Stages::restarts_at))]
fn restarts_at(
    alloc: Global,
    router: u16,
    restarts: &[OwnedRestart],
) -> Result<Listed<(Time, [u8; 32])>, AllocError>
    ensures { IfOk result (λ found. found ≡ restarts_at router restarts.now) }
{
    let mut found = Vec::new(alloc);
    for restart in restarts {
        if restart.router == router {
            found.push((restart.time, restart.master))?;
        }
    }
    Ok(Listed::new(found))
}

// The changes of a router's routes.
#[tactic(auto, unfolding(crate::specs::Stages::reroutes_at))]
fn reroutes_at(
    alloc: Global,
    router: u16,
    reroutes: &[OwnedReroute],
) -> Result<Listed<(Time, Prefix, u16)>, AllocError>
    ensures { IfOk result (λ found. found ≡ reroutes_at router reroutes.now) }
{
    let mut found = Vec::new(alloc);
    for reroute in reroutes {
        if reroute.owned.router == router {
            let route = reroute.owned.route;
            found.push((reroute.time, route.prefix, route.link))?;
        }
    }
    Ok(Listed::new(found))
}

/// Puts the plans of the hosts behind those of the routers, each with its link out.
pub fn add_hosts(
    nodes: &mut Vec<NodePlan>,
    hosts: Vec<HostEntry>,
    uplinks: &[u16],
) -> Result<(), AllocError>
    requires { length uplinks.now ≡ length hosts.items }
    ensures { OnOk result (nodes.new.items ≡ nodes.old.items ++ host_plans hosts.items uplinks.now) }
{
    let mut i = 0;
    for host in hosts {
        nodes.push(NodePlan::Host(host_plan(host, uplinks[i])))?;
        i += 1;
    }
    Ok(())
}

// The plan of a host with that link out.
#[tactic(auto, unfolding(crate::specs::Read::host_plan))]
fn host_plan(host: HostEntry, uplink: u16) -> HostPlan
    ensures { result ≡ host_plan host uplink }
{
    HostPlan {
        name: host.name,
        address: host.address,
        nonce: host.nonce,
        margin: host.margin,
        retry: host.retry,
        version: host.version,
        policy: host.policy,
        uplink,
    }
}
