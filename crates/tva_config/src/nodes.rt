// What the nodes must be to one another.
ghost use Rattle.std.specs.Prelude.{◌≡◌, ◌≤◌, ◌<◌, ◌+◌, ℕ, List, [], IfOk, length, get_or, map, is_some, not, nat_lt, Some};
ghost use Rattle.std.specs.{Result.result_map_both, Bool.OnTrue, HashMap.get_by_text, Map.update, Str.bytes_eq};
ghost use Rattle.tva_config_entries.specs.declared.faults.ConfigTable.TheVariants as table;
ghost use Rattle.tva_config_entries.specs.Faults.{AnswersBy, at, fault_at};
ghost use Rattle.tva_config.specs.Nodes.{node_names, node_of, node_place, all_slots};
ghost use Rattle.tva_config.specs.Stages.{names_of, addresses_of, retries_of, slots_of};

use std::alloc::{AllocError, Global};
use std::collections::{HashMap, HashSet};
use tva_base::SECOND;
use tva_config_entries::{
    ConfigError, ConfigFault, ConfigRule, ConfigTable, HostEntry, Place, RouterEntry, fault,
};

/// The numbers of the nodes by their names, or the first name that an earlier node has.
#[tactic(auto, unfolding(crate::specs::Stages::names_of))]
pub fn numbers(
    alloc: Global,
    routers: &[RouterEntry],
    hosts: &[HostEntry],
) -> Result<HashMap<String, u16>, ConfigError>
    requires { length routers.now + length hosts.now ≤ 1024 }
    ensures answer { AnswersBy (λ _. node_names routers.now hosts.now) (names_of routers.now hosts.now) result }
    ensures numbers { IfOk result (λ numbers. get_by_text numbers ≡ node_of (node_names routers.now hosts.now)) }
{
    let mut numbers = HashMap::new(alloc);
    for i in 0..routers.len() + hosts.len() {
        let name = name_of(routers, hosts, i);
        if !add_name(alloc, &mut numbers, name, i as u16)? {
            return Err(fault(place(routers.len(), i), ConfigRule::Names, "name").into());
        }
    }
    Ok(numbers)
}

// The name of the node of a number: the routers stand before the hosts.
fn name_of<'a>(routers: &'a [RouterEntry], hosts: &'a [HostEntry], node: usize) -> &'a str
    requires { node < length routers.now + length hosts.now }
    ensures { result.now ≡ get_or (node_names routers.now hosts.now) node [] }
{
    if node < routers.len() {
        return routers[node].name.as_str();
    }
    hosts[node - routers.len()].name.as_str()
}

// Adds a name with its number, where it isn't there.
fn add_name(
    alloc: Global,
    numbers: &mut HashMap<String, u16>,
    name: &str,
    number: u16,
) -> Result<bool, AllocError>
    ensures added { IfOk result (λ added. added ≡ not (is_some (get_by_text numbers.old name.now))) }
    ensures numbers { IfOk result (λ added. OnTrue added ((q : List ℕ) → get_by_text numbers.new q ≡ update bytes_eq (get_by_text numbers.old) name.now (Some number) q)) }
{
    if numbers.contains_key(name) {
        return Ok(false);
    }
    numbers.insert(String::from_str(alloc, name)?, number)?;
    Ok(true)
}

// The entry of a node, where so many are routers.
fn place(routers: usize, node: usize) -> Place
    requires { node ≤ 1024 }
    ensures { result ≡ node_place routers node }
{
    if node < routers {
        return Place::new(ConfigTable::Router, node as u32);
    }
    Place::new(ConfigTable::Host, (node - routers) as u32)
}

/// Refuses the first host with an address that an earlier one has.
#[tactic(auto, unfolding(crate::specs::Stages::addresses_of))]
pub fn addresses(alloc: Global, hosts: &[HostEntry]) -> Result<(), ConfigError>
    requires { length hosts.now ≤ 1024 }
    ensures { AnswersBy (λ _. map (λ h. h.address) hosts.now) (addresses_of hosts.now) result }
{
    let mut seen = HashSet::new(alloc);
    for (i, host) in hosts.iter().enumerate() {
        if !seen.insert(host.address.0)? {
            return Err(host_fault(i, ConfigRule::Addresses, "address").into());
        }
    }
    Ok(())
}

pub fn host_fault(host: usize, rule: ConfigRule, key: &str) -> ConfigFault
    requires number { host ≤ 1024 }
    requires short { length key.now ≤ 24 }
    ensures { result ≡ fault_at (at table.Host host) rule key.now }
{
    fault(Place::new(ConfigTable::Host, host as u32), rule, key)
}

/// Refuses the first host that asks again before a second and its margin are over.
#[tactic(auto, unfolding(crate::specs::Stages::retries_of))]
pub fn retries(hosts: &[HostEntry]) -> Result<(), ConfigFault>
    requires { length hosts.now ≤ 1024 }
    ensures { retries_of hosts.now ≡ result_map_both (λ _. map (λ h. h.retry) hosts.now) (λ fault. fault) result }
{
    for (i, host) in hosts.iter().enumerate() {
        if is_early(host) {
            return Err(host_fault(i, ConfigRule::Retry, "retry_ns"));
        }
    }
    Ok(())
}

// Whether a host may ask again before a second and its margin are over.
fn is_early(host: &HostEntry) -> bool
    ensures { result ≡ nat_lt host.now.retry (1000000000 + host.now.margin) }
{
    u128::from(host.retry) < u128::from(SECOND) + u128::from(host.margin)
}

/// Refuses more than 1,000,000 slots of all routers.
#[tactic(auto, unfolding(crate::specs::Stages::slots_of))]
pub fn slots(routers: &[RouterEntry]) -> Result<(), ConfigFault>
    requires { length routers.now ≤ 1024 }
    ensures { result ≡ slots_of routers.now }
{
    if all_slots(routers) > 1_000_000 {
        let place = Place::new(ConfigTable::Router, 0);
        return Err(fault(place, ConfigRule::Slots, "slots"));
    }
    Ok(())
}

fn all_slots(routers: &[RouterEntry]) -> u64
    requires { length routers.now ≤ 1024 }
    ensures { result ≡ all_slots routers.now }
{
    let mut total = 0;
    for router in routers {
        total += u64::from(router.slots);
    }
    total
}
