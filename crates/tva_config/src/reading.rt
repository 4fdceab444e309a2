// The steps of a configuration behind its entries, in their order.
ghost use Rattle.std.specs.Prelude.{◌≡◌, ◌≤◌, ◌+◌, IfOk, length};
ghost use Rattle.std.specs.HashMap.{get_by_text};
ghost use Rattle.tva_config_entries.specs.Faults.{Answers, AnswersBy};
ghost use Rattle.tva_plan.specs.Valid.{IsConfig};
ghost use Rattle.tva_config_entries.specs.Views.{seen_entries};
ghost use Rattle.tva_config.specs.{Views.link_at, Views.seen_owned, Views.seen_joined, Read.read_of};
ghost use Rattle.tva_config.specs.Stages.{config_of, owned_of, linked_of, joined_of, planned_of};

use crate::joined::{JoinedLists, OwnedLists};
use crate::{changes, links, nodes, plans, routes};
use std::alloc::{AllocError, Global};
use std::collections::HashMap;
use tva_base::{LinkPlan, Listed, Time};
use tva_config_entries::{ConfigError, EntryLists, HostEntry, RouterEntry, read_entries};
use tva_plan::Config;

/// Reads a configuration, a TOML text.
///
/// A fault is the first one in the stated order; a text that isn't UTF-8, or that `toml` refuses, is
/// a fault of syntax. Want of memory is the one answer that the text doesn't determine.
pub fn read_config(alloc: Global, text: &[u8]) -> Result<Config, ConfigError>
    ensures answer { Answers (read_of text.now) result }
    ensures valid { IfOk result IsConfig }
{
    read_text(alloc, text)
}

// The same, by cases of the answer.
#[tactic(auto, unfolding(crate::specs::Read::read_of))]
fn read_text(alloc: Global, text: &[u8]) -> Result<Config, ConfigError>
    ensures { Answers (read_of text.now) result }
{
    let entries = read_entries(alloc, text)?;
    plan(alloc, entries)
}

// The plan of the entries, or the first fault of the steps across tables.
#[tactic(auto, unfolding(crate::specs::Stages::planned_of))]
fn plan(alloc: Global, entries: EntryLists) -> Result<Config, ConfigError>
    requires nodes { length entries.routers.items + length entries.hosts.items ≤ 1024 }
    requires links { length entries.links.items ≤ 4096 }
    requires routes { length entries.routes.items ≤ 65536 }
    requires restarts { length entries.restarts.items ≤ 65536 }
    requires reroutes { length entries.reroutes.items ≤ 65536 }
    ensures { Answers (planned_of (seen_entries entries)) result }
{
    let joined = join(alloc, &entries)?;
    Ok(config(
        alloc,
        entries.horizon,
        entries.max_events,
        entries.routers,
        entries.hosts,
        joined.links,
        &joined.uplinks,
        &joined.owned,
    )?)
}

// The steps across tables, or the first fault of them.
#[tactic(auto, unfolding(crate::specs::Stages::joined_of))]
fn join(alloc: Global, entries: &EntryLists) -> Result<JoinedLists, ConfigError>
    requires nodes { length entries.now.routers.items + length entries.now.hosts.items ≤ 1024 }
    requires links { length entries.now.links.items ≤ 4096 }
    requires routes { length entries.now.routes.items ≤ 65536 }
    requires restarts { length entries.now.restarts.items ≤ 65536 }
    requires reroutes { length entries.now.reroutes.items ≤ 65536 }
    ensures answer { AnswersBy seen_joined (joined_of (seen_entries entries.now)) result }
    ensures links { IfOk result (λ j. length j.links.items ≡ length entries.now.links.items) }
    ensures uplinks { IfOk result (λ j. length j.uplinks.items ≡ length entries.now.hosts.items) }
{
    let routers = entries.routers.as_slice();
    let hosts = entries.hosts.as_slice();
    let numbers = nodes::numbers(alloc, routers, hosts)?;
    nodes::addresses(alloc, hosts)?;
    nodes::retries(hosts)?;
    join_links(alloc, &numbers, entries)
}

// The steps from the links on, by the numbers of names, or the first fault of them.
#[tactic(auto, unfolding(crate::specs::Stages::linked_of))]
fn join_links(
    alloc: Global,
    numbers: &HashMap<String, u16>,
    entries: &EntryLists,
) -> Result<JoinedLists, ConfigError>
    requires nodes { length entries.now.routers.items + length entries.now.hosts.items ≤ 1024 }
    requires links { length entries.now.links.items ≤ 4096 }
    requires routes { length entries.now.routes.items ≤ 65536 }
    requires restarts { length entries.now.restarts.items ≤ 65536 }
    requires reroutes { length entries.now.reroutes.items ≤ 65536 }
    ensures answer { AnswersBy seen_joined (linked_of (get_by_text numbers.now) (seen_entries entries.now)) result }
    ensures links { IfOk result (λ j. length j.links.items ≡ length entries.now.links.items) }
    ensures uplinks { IfOk result (λ j. length j.uplinks.items ≡ length entries.now.hosts.items) }
{
    let routers = entries.routers.as_slice();
    let links = links::number_links(alloc, numbers, &entries.links)?;
    let plans = links.plans.as_slice();
    let uplinks = links::uplinks(alloc, routers.len(), plans, &entries.hosts)?;
    let owned = own(alloc, routers.len(), numbers, &links.pairs, entries)?;
    nodes::slots(routers)?;
    links::rings(plans)?;
    Ok(JoinedLists {
        links: links.plans,
        uplinks,
        owned,
    })
}

// The steps over routes, restarts and changes of routes, or the first fault of them.
#[tactic(auto, unfolding(crate::specs::Stages::owned_of))]
fn own(
    alloc: Global,
    routers: usize,
    numbers: &HashMap<String, u16>,
    pairs: &HashMap<(u16, u16), u16>,
    entries: &EntryLists,
) -> Result<OwnedLists, ConfigError>
    requires routes { length entries.now.routes.items ≤ 65536 }
    requires restarts { length entries.now.restarts.items ≤ 65536 }
    requires reroutes { length entries.now.reroutes.items ≤ 65536 }
    ensures { AnswersBy seen_owned (owned_of routers (get_by_text numbers.now) (link_at pairs.now) (seen_entries entries.now)) result }
{
    let routes = routes::number_routes(alloc, routers, numbers, pairs, &entries.routes)?;
    let restarts = changes::number_restarts(alloc, routers, numbers, &entries.restarts)?;
    let reroutes = changes::number_reroutes(
        alloc,
        routers,
        numbers,
        pairs,
        &routes,
        &entries.reroutes,
    )?;
    Ok(OwnedLists {
        routes: routes.routes,
        restarts,
        reroutes,
    })
}

// The configuration of valid entries.
#[tactic(auto, unfolding(crate::specs::Stages::config_of))]
fn config(
    alloc: Global,
    horizon: u64,
    max_events: u64,
    routers: Vec<RouterEntry>,
    hosts: Vec<HostEntry>,
    links: Vec<LinkPlan>,
    uplinks: &[u16],
    owned: &OwnedLists,
) -> Result<Config, AllocError>
    requires routers { length routers.items ≤ 1024 }
    requires links { length links.items ≤ 4096 }
    requires uplinks { length uplinks.now ≡ length hosts.items }
    ensures { IfOk result (λ config. config ≡ config_of horizon max_events routers.items hosts.items links.items uplinks.now (seen_owned owned.now)) }
{
    let mut nodes = plans::router_plans(alloc, &links, owned, routers)?;
    plans::add_hosts(&mut nodes, hosts, uplinks)?;
    Ok(Config {
        horizon: Time(horizon),
        max_events,
        nodes: Listed::new(nodes),
        links: Listed::new(links),
    })
}
