// What routes must be to the nodes, the links and one another.
ghost use Rattle.std.specs.Prelude.{◌≡◌, ◌≤◌, IfOk, length};
ghost use Rattle.std.specs.HashMap.{get_by_text};
ghost use Rattle.tva_config_entries.specs.Faults.{AnswersBy};
ghost use Rattle.tva_config.specs.{Views.link_at, Views.IsSeen, Stages.link_to, Stages.routes_of};
ghost use Rattle.tva_config.specs.Routes.{router_named, resolved, route_step};

use crate::joined::OwnedRoute;
use crate::links::node;
use std::alloc::Global;
use std::collections::{HashMap, HashSet};
use tva_base::Route;
use tva_config_entries::{
    ConfigError, ConfigFault, ConfigRule, ConfigTable, Place, RouteEntry, fault,
};

/// The routes, and the router and the prefix of each.
#[derive(Drop)]
pub struct NumberedRoutes {
    pub routes: Vec<OwnedRoute>,
    pub seen: HashSet<(u16, u32, u8)>,
}

/// The routes, or the first fault among them. So many nodes are routers.
#[tactic(auto, unfolding(crate::specs::Stages::routes_of))]
pub fn number_routes(
    alloc: Global,
    routers: usize,
    numbers: &HashMap<String, u16>,
    pairs: &HashMap<(u16, u16), u16>,
    entries: &[RouteEntry],
) -> Result<NumberedRoutes, ConfigError>
    requires { length entries.now ≤ 65536 }
    ensures answer { AnswersBy (λ v. v.routes.items) (routes_of routers (get_by_text numbers.now) (link_at pairs.now) entries.now) result }
    ensures seen { IfOk result (λ v. IsSeen v.seen v.routes.items) }
{
    let mut routes = Vec::new(alloc);
    let mut seen = HashSet::new(alloc);
    for entry in entries {
        let owned = next(routers, numbers, pairs, &routes, &seen, entry)?;
        let prefix = owned.route.prefix;
        seen.insert((owned.router, prefix.address.0, prefix.bits))?;
        routes.push(owned)?;
    }
    Ok(NumberedRoutes { routes, seen })
}

// The route of an entry behind earlier ones, or its fault.
fn next(
    routers: usize,
    numbers: &HashMap<String, u16>,
    pairs: &HashMap<(u16, u16), u16>,
    earlier: &Vec<OwnedRoute>,
    seen: &HashSet<(u16, u32, u8)>,
    entry: &RouteEntry,
) -> Result<OwnedRoute, ConfigFault>
    requires few { length earlier.now.items ≤ 65536 }
    requires seen { IsSeen seen.now earlier.now.items }
    ensures { result ≡ route_step routers (get_by_text numbers.now) (link_at pairs.now) earlier.now.items entry.now }
{
    let place = Place::new(ConfigTable::Route, earlier.len() as u32);
    let owned = resolve(place, routers, numbers, pairs, entry)?;
    let prefix = owned.route.prefix;
    if seen.contains(&(owned.router, prefix.address.0, prefix.bits)) {
        return Err(fault(place, ConfigRule::Prefix, "prefix"));
    }
    Ok(owned)
}

/// The route with its numbers, or the fault of a name.
pub fn resolve(
    place: Place,
    routers: usize,
    numbers: &HashMap<String, u16>,
    pairs: &HashMap<(u16, u16), u16>,
    entry: &RouteEntry,
) -> Result<OwnedRoute, ConfigFault>
    ensures { result ≡ resolved place routers (get_by_text numbers.now) (link_at pairs.now) entry.now }
{
    let Some(router) = router_named(routers, numbers, entry.router.as_str()) else {
        return Err(fault(place, ConfigRule::Owner, "router"));
    };
    let Some(link) = link_to(numbers, pairs, router, entry.via.as_str()) else {
        return Err(fault(place, ConfigRule::Via, "via"));
    };
    Ok(OwnedRoute {
        router,
        route: Route {
            prefix: entry.prefix,
            link,
        },
    })
}

/// The number of the router of a name.
pub fn router_named(routers: usize, numbers: &HashMap<String, u16>, name: &str) -> Option<u16>
    ensures { result ≡ router_named routers (get_by_text numbers.now) name.now }
{
    match node(numbers, name) {
        Some(number) if usize::from(number) < routers => Some(number),
        _ => None,
    }
}

// The number of the link of a router to the node of a name.
fn link_to(
    numbers: &HashMap<String, u16>,
    pairs: &HashMap<(u16, u16), u16>,
    router: u16,
    name: &str,
) -> Option<u16>
    ensures { result ≡ link_to (get_by_text numbers.now) (link_at pairs.now) router name.now }
{
    link_at(pairs, router, node(numbers, name)?)
}

// The number of the link between two nodes.
fn link_at(pairs: &HashMap<(u16, u16), u16>, from: u16, to: u16) -> Option<u16>
    ensures { result ≡ link_at pairs.now from to }
{
    pairs.get(&(from, to)).copied()
}
