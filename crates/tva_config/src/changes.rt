// What restarts and changes of routes must be to the routers, the links, the routes and one another.
ghost use Rattle.std.specs.Prelude.{◌≡◌, ◌≤◌, IfOk, false, length};
ghost use Rattle.std.specs.{List.list_any, HashMap.get_by_text};
ghost use Rattle.tva_config_entries.specs.Faults.{AnswersBy};
ghost use Rattle.tva_config.specs.Views.{link_at, IsSeen, is_late, IsRestarted, IsRerouted};
ghost use Rattle.tva_config.specs.Changes.{is_late_restart, restart_step, is_late_reroute, reroute_step};
ghost use Rattle.tva_config.specs.Stages.{restarts_of, reroutes_of};

use crate::joined::{OwnedReroute, OwnedRestart};
use crate::routes::{NumberedRoutes, resolve, router_named};
use std::alloc::Global;
use std::collections::HashMap;
use tva_base::Time;
use tva_config_entries::{
    ConfigError, ConfigFault, ConfigRule, ConfigTable, Place, RerouteEntry, RestartEntry, fault,
};

/// The restarts, or the first fault among them. So many nodes are routers.
#[tactic(auto, unfolding(crate::specs::Stages::restarts_of))]
pub fn number_restarts(
    alloc: Global,
    routers: usize,
    numbers: &HashMap<String, u16>,
    entries: &[RestartEntry],
) -> Result<Vec<OwnedRestart>, ConfigError>
    requires { length entries.now ≤ 65536 }
    ensures { AnswersBy (λ v. v.items) (restarts_of routers (get_by_text numbers.now) entries.now) result }
{
    let mut restarts = Vec::new(alloc);
    let mut last = HashMap::new(alloc);
    for entry in entries {
        let restart = next_restart(routers, numbers, &restarts, &last, entry)?;
        last.insert(restart.router, restart.time.0)?;
        restarts.push(restart)?;
    }
    Ok(restarts)
}

// The restart of an entry behind earlier ones, or its fault. Each router's last time is known.
fn next_restart(
    routers: usize,
    numbers: &HashMap<String, u16>,
    earlier: &Vec<OwnedRestart>,
    last: &HashMap<u16, u64>,
    entry: &RestartEntry,
) -> Result<OwnedRestart, ConfigFault>
    requires few { length earlier.now.items ≤ 65536 }
    requires last { IsRestarted last.now earlier.now.items }
    ensures step { result ≡ restart_step routers (get_by_text numbers.now) earlier.now.items entry.now }
    ensures after { IfOk result (λ r. list_any (is_late_restart r.router r.time.0) earlier.now.items ≡ false) }
{
    let place = Place::new(ConfigTable::Restart, earlier.len() as u32);
    let Some(router) = router_named(routers, numbers, entry.router.as_str()) else {
        return Err(fault(place, ConfigRule::Owner, "router"));
    };
    if is_late(last.get(&router).copied(), entry.at) {
        return Err(fault(place, ConfigRule::Times, "at_ns"));
    }
    Ok(OwnedRestart {
        router,
        time: Time(entry.at),
        master: entry.master,
    })
}

// Whether there is a last time that isn't smaller than another.
fn is_late(last: Option<u64>, time: u64) -> bool
    ensures { result ≡ is_late last time }
{
    match last {
        None => false,
        Some(last) => time <= last,
    }
}

/// The changes of routes, or the first fault among them. So many nodes are routers.
#[tactic(auto, unfolding(crate::specs::Stages::reroutes_of))]
pub fn number_reroutes(
    alloc: Global,
    routers: usize,
    numbers: &HashMap<String, u16>,
    pairs: &HashMap<(u16, u16), u16>,
    routes: &NumberedRoutes,
    entries: &[RerouteEntry],
) -> Result<Vec<OwnedReroute>, ConfigError>
    requires few { length entries.now ≤ 65536 }
    requires seen { IsSeen routes.now.seen routes.now.routes.items }
    ensures { AnswersBy (λ v. v.items) (reroutes_of routers (get_by_text numbers.now) (link_at pairs.now) routes.now.routes.items entries.now) result }
{
    let mut reroutes = Vec::new(alloc);
    let mut last = HashMap::new(alloc);
    for entry in entries {
        let reroute = next_reroute(routers, numbers, pairs, routes, &reroutes, &last, entry)?;
        let prefix = reroute.owned.route.prefix;
        let key = (reroute.owned.router, prefix.address.0, prefix.bits);
        last.insert(key, reroute.time.0)?;
        reroutes.push(reroute)?;
    }
    Ok(reroutes)
}

// The change of an entry behind earlier ones, or its fault. The last time of each router and prefix is
// known.
fn next_reroute(
    routers: usize,
    numbers: &HashMap<String, u16>,
    pairs: &HashMap<(u16, u16), u16>,
    routes: &NumberedRoutes,
    earlier: &Vec<OwnedReroute>,
    last: &HashMap<(u16, u32, u8), u64>,
    entry: &RerouteEntry,
) -> Result<OwnedReroute, ConfigFault>
    requires few { length earlier.now.items ≤ 65536 }
    requires seen { IsSeen routes.now.seen routes.now.routes.items }
    requires last { IsRerouted last.now earlier.now.items }
    ensures step { result ≡ reroute_step routers (get_by_text numbers.now) (link_at pairs.now) routes.now.routes.items earlier.now.items entry.now }
    ensures after { IfOk result (λ r. list_any (is_late_reroute r.owned.router r.owned.route.prefix r.time.0) earlier.now.items ≡ false) }
{
    let place = Place::new(ConfigTable::Reroute, earlier.len() as u32);
    let owned = resolve(place, routers, numbers, pairs, &entry.route)?;
    let prefix = owned.route.prefix;
    let key = (owned.router, prefix.address.0, prefix.bits);
    if !routes.seen.contains(&key) {
        return Err(fault(place, ConfigRule::Prefix, "prefix"));
    }
    if is_late(last.get(&key).copied(), entry.at) {
        return Err(fault(place, ConfigRule::Times, "at_ns"));
    }
    Ok(OwnedReroute {
        time: Time(entry.at),
        owned,
    })
}
