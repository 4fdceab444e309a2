// What links must be to the nodes and to one another.
ghost use Rattle.std.specs.Prelude.{◌≡◌, ◌≤◌, ◌<◌, ◌^◌, ◌+◌, ◌*◌, IfOk, false, length};
ghost use Rattle.std.specs.{List.list_any, HashMap.get_by_text};
ghost use Rattle.tva_config_entries.specs.Faults.{AnswersBy};
ghost use Rattle.tva_config.specs.Views.{IsPairs, link_at};
ghost use Rattle.tva_config.specs.Links.{joins, link_between, link_step, only};
ghost use Rattle.tva_config.specs.Stages.{links_of, uplink_of, uplinks_of, rings_of};
ghost use Rattle.tva_plan.specs.Wiring.{links_from, queues_behind, places, all_places};

use crate::nodes::host_fault;
use std::alloc::Global;
use std::collections::HashMap;
use tva_base::LinkPlan;
use tva_config_entries::{
    ConfigError, ConfigFault, ConfigRule, ConfigTable, HostEntry, LinkEntry, Place, fault,
};

/// The links with the numbers of their ends, and their own numbers by their ends.
#[derive(Drop)]
pub struct NumberedLinks {
    pub plans: Vec<LinkPlan>,
    pub pairs: HashMap<(u16, u16), u16>,
}

/// The links, or the first fault among them.
#[tactic(auto, unfolding(crate::specs::Stages::links_of))]
pub fn number_links(
    alloc: Global,
    numbers: &HashMap<String, u16>,
    entries: &[LinkEntry],
) -> Result<NumberedLinks, ConfigError>
    requires { length entries.now ≤ 4096 }
    ensures answer { AnswersBy (λ links. links.plans.items) (links_of (get_by_text numbers.now) entries.now) result }
    ensures pairs { IfOk result (λ links. link_at links.pairs ≡ link_between links.plans.items) }
    ensures count { IfOk result (λ links. length links.plans.items ≡ length entries.now) }
{
    let mut plans = Vec::new(alloc);
    let mut pairs = HashMap::new(alloc);
    for (i, entry) in entries.iter().enumerate() {
        let plan = link(numbers, &pairs, &plans, entry)?;
        plans.push(plan)?;
        pairs.insert((plan.from, plan.to), i as u16)?;
    }
    Ok(NumberedLinks { plans, pairs })
}

// The plan of a link behind earlier ones, or its fault.
fn link(
    numbers: &HashMap<String, u16>,
    pairs: &HashMap<(u16, u16), u16>,
    earlier: &Vec<LinkPlan>,
    entry: &LinkEntry,
) -> Result<LinkPlan, ConfigFault>
    requires few { length earlier.now.items ≤ 4096 }
    requires pairs { IsPairs pairs.now earlier.now.items }
    ensures plan { result ≡ link_step (get_by_text numbers.now) earlier.now.items entry.now }
    ensures single { IfOk result (λ plan. list_any (joins plan.from plan.to) earlier.now.items ≡ false) }
{
    let place = Place::new(ConfigTable::Link, earlier.len() as u32);
    let Some(from) = node(numbers, entry.from.as_str()) else {
        return Err(fault(place, ConfigRule::Ends, "from"));
    };
    let Some(to) = node(numbers, entry.to.as_str()) else {
        return Err(fault(place, ConfigRule::Ends, "to"));
    };
    if from == to {
        return Err(fault(place, ConfigRule::Ends, "to"));
    }
    if pairs.contains_key(&(from, to)) {
        return Err(fault(place, ConfigRule::Pair, "to"));
    }
    Ok(LinkPlan {
        from,
        to,
        delay: entry.delay,
        tag: entry.tag,
        limits: entry.limits,
    })
}

/// The number of the node of a name.
pub fn node(numbers: &HashMap<String, u16>, name: &str) -> Option<u16>
    ensures { result ≡ get_by_text numbers.now name.now }
{
    numbers.get(name).copied()
}

/// The links out of the hosts, or the first host that hasn't one.
#[tactic(auto, unfolding(crate::specs::Stages::uplinks_of))]
pub fn uplinks(
    alloc: Global,
    routers: usize,
    links: &[LinkPlan],
    hosts: &[HostEntry],
) -> Result<Vec<u16>, ConfigError>
    requires nodes { routers + length hosts.now ≤ 1024 }
    requires links { length links.now ≤ 4096 }
    ensures answer { AnswersBy (λ v. v.items) (uplinks_of routers links.now hosts.now) result }
    ensures count { IfOk result (λ v. length v.items ≡ length hosts.now) }
{
    let mut uplinks = Vec::new(alloc);
    for (i, _host) in hosts.iter().enumerate() {
        uplinks.push(uplink(routers, links, i)?)?;
    }
    Ok(uplinks)
}

// The link out of a host, or its fault.
fn uplink(routers: usize, links: &[LinkPlan], host: usize) -> Result<u16, ConfigFault>
    requires nodes { routers + host ≤ 1024 }
    requires links { length links.now ≤ 4096 }
    ensures { result ≡ uplink_of routers links.now host }
{
    match only_link(links, (routers + host) as u16) {
        Some(link) => Ok(link),
        None => Err(host_fault(host, ConfigRule::Uplink, "name")),
    }
}

// The number of the link out of a node, where it has exactly one.
#[tactic(auto, unfolding(tva_plan::specs::Wiring::links_from))]
fn only_link(links: &[LinkPlan], node: u16) -> Option<u16>
    requires { length links.now ≤ 4096 }
    ensures { result ≡ only (links_from node links.now) }
{
    let mut found = None;
    for (i, link) in links.iter().enumerate() {
        if link.from == node {
            if found.is_some() {
                return None;
            }
            found = Some(i as u16);
        }
    }
    found
}

/// Refuses more than 1,000,000 places in all queues of all links.
#[tactic(auto, unfolding(crate::specs::Stages::rings_of))]
pub fn rings(links: &[LinkPlan]) -> Result<(), ConfigFault>
    requires { length links.now ≤ 4096 }
    ensures { result ≡ rings_of links.now }
{
    if all_places(links) > 1_000_000 {
        return Err(fault(Place::new(ConfigTable::Link, 0), ConfigRule::Rings, "-"));
    }
    Ok(())
}

fn all_places(links: &[LinkPlan]) -> u128
    requires { length links.now ≤ 4096 }
    ensures { result ≡ all_places links.now }
{
    let mut total = 0;
    for link in links {
        total += places(link);
    }
    total
}

// The places of a link's queues.
fn places(link: &LinkPlan) -> u128
    ensures value { result ≡ places link.now }
    ensures room { result < 2 ^ 97 }
{
    let limits = &link.limits;
    let behind = queues_behind(limits.request_inner);
    let request = product_of_three(limits.request.queues, behind, limits.request.ring);
    let regular = product(limits.regular.queues, limits.regular.ring);
    together(request, regular, limits.legacy_ring)
}

// The queues behind a tag, one on a link with one level.
fn queues_behind(inner: Option<u32>) -> u32
    ensures { result ≡ queues_behind inner }
{
    match inner {
        None => 1,
        Some(inner) => inner,
    }
}

fn product(queues: u32, ring: u32) -> u64
    ensures { result ≡ queues * ring }
{
    u64::from(queues) * u64::from(ring)
}

fn product_of_three(queues: u32, behind: u32, ring: u32) -> u128
    ensures value { result ≡ queues * behind * ring }
    ensures room { result < 2 ^ 96 }
{
    u128::from(queues) * u128::from(behind) * u128::from(ring)
}

fn together(request: u128, regular: u64, legacy: u32) -> u128
    requires { request < 2 ^ 96 }
    ensures value { result ≡ request + regular + legacy }
    ensures room { result < 2 ^ 97 }
{
    request + u128::from(regular) + u128::from(legacy)
}
