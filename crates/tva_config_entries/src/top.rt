// The top level of a configuration, and its tables entry by entry.
ghost use Rattle.std.specs.Prelude.{◌≡◌, ◌≤◌, ◌+◌, IfOk, OnOk, length, map, codes};
ghost use Rattle.toml.specs.View.{table_view};
ghost use Rattle.tva_config_entries.specs.declared.faults.ConfigRule.TheVariants as rule;
ghost use Rattle.tva_config_entries.specs.{Faults.AnswersBy, Faults.at, Faults.fault_at, Tables.table_entries};
ghost use Rattle.tva_config_entries.specs.Stages.{top_of, tables_of, counts_of, seen_top};

use crate::faults::{ConfigError, ConfigFault, ConfigRule, ConfigTable};
use crate::keys;
use crate::place::Place;
use crate::tables::Entry;
use std::alloc::Global;
use toml::Table;
use tva_base::TIME_MAX;

/// What the top level holds: the horizon in nanoseconds, the greatest number of events, the version of
/// the shims that hosts make, and the entries of each table.
#[derive(Drop)]
pub struct TopTable<'a> {
    pub horizon: u64,
    pub max_events: u64,
    pub version: u8,
    pub routers: Vec<&'a Table>,
    pub hosts: Vec<&'a Table>,
    pub links: Vec<&'a Table>,
    pub routes: Vec<&'a Table>,
    pub restarts: Vec<&'a Table>,
    pub reroutes: Vec<&'a Table>,
}

pub const TOP: Place = Place {
    table: ConfigTable::Top,
    entry: 0,
};

const TOP_KEYS: [&str; 9] = [
    "horizon_ns",
    "max_events",
    "version",
    "router",
    "host",
    "link",
    "route",
    "restart",
    "reroute",
];

/// The top level, or its first fault.
#[tactic(auto, unfolding(crate::specs::Stages::top_of))]
pub fn top<'a>(alloc: Global, table: &'a Table) -> Result<TopTable<'a>, ConfigError>
    ensures { AnswersBy seen_top (top_of (table_view table.now)) result }
{
    keys::only_listed(TOP, table, &TOP_KEYS)?;
    let horizon = keys::number(TOP, table, "horizon_ns", 0, TIME_MAX)?;
    let max_events = keys::number(TOP, table, "max_events", 1, 4_000_000)?;
    let version = keys::number_or(TOP, table, "version", 1, 2, 1)?;
    tables(alloc, horizon, max_events, version, table)
}

// The tables of the top level, behind its numbers, or the first fault in them.
#[tactic(auto, unfolding(crate::specs::Stages::tables_of))]
fn tables<'a>(
    alloc: Global,
    horizon: u64,
    max_events: u64,
    version: u8,
    table: &'a Table,
) -> Result<TopTable<'a>, ConfigError>
    ensures { AnswersBy seen_top (tables_of horizon max_events version (table_view table.now)) result }
{
    let routers = keys::tables(alloc, TOP, table, "router")?;
    let hosts = keys::tables(alloc, TOP, table, "host")?;
    let links = keys::tables(alloc, TOP, table, "link")?;
    let routes = keys::tables(alloc, TOP, table, "route")?;
    let restarts = keys::tables(alloc, TOP, table, "restart")?;
    let reroutes = keys::tables(alloc, TOP, table, "reroute")?;
    Ok(TopTable {
        horizon,
        max_events,
        version,
        routers,
        hosts,
        links,
        routes,
        restarts,
        reroutes,
    })
}

/// Refuses too many entries.
#[tactic(auto, unfolding(crate::specs::Stages::counts_of))]
pub fn counts(top: &TopTable) -> Result<(), ConfigFault>
    ensures answer { result ≡ counts_of (length top.now.routers.items + length top.now.hosts.items) (length top.now.links.items) (length top.now.routes.items) (length top.now.restarts.items) (length top.now.reroutes.items) }
    ensures nodes { OnOk result (length top.now.routers.items + length top.now.hosts.items ≤ 1024) }
    ensures links { OnOk result (length top.now.links.items ≤ 4096) }
    ensures routes { OnOk result (length top.now.routes.items ≤ 65536) }
    ensures restarts { OnOk result (length top.now.restarts.items ≤ 65536) }
    ensures reroutes { OnOk result (length top.now.reroutes.items ≤ 65536) }
{
    let routers = top.routers.len();
    if routers > 1024 || top.hosts.len() > 1024 - routers {
        return Err(too_many(ConfigTable::Host));
    }
    if top.links.len() > 4096 {
        return Err(too_many(ConfigTable::Link));
    }
    if top.routes.len() > 65_536 {
        return Err(too_many(ConfigTable::Route));
    }
    if top.restarts.len() > 65_536 {
        return Err(too_many(ConfigTable::Restart));
    }
    if top.reroutes.len() > 65_536 {
        return Err(too_many(ConfigTable::Reroute));
    }
    Ok(())
}

fn too_many(table: ConfigTable) -> ConfigFault
    ensures { result ≡ fault_at (at table 0) rule.Count (codes "-") }
{
    keys::fault(Place { table, entry: 0 }, ConfigRule::Count, "-")
}

/// The entries of a table where shims have that version, or the first fault in them.
#[tactic(auto, unfolding(crate::specs::Tables::table_entries))]
pub fn entries<T: Entry>(
    alloc: Global,
    kind: ConfigTable,
    version: u8,
    tables: &[&Table],
) -> Result<Vec<T>, ConfigError>
    requires { length tables.now ≤ 65536 }
    ensures answer { AnswersBy (λ v. v.items) (table_entries kind (T.entry_of version) (map (λ t. table_view t.now) tables.now)) result }
    ensures count { IfOk result (λ v. length v.items ≡ length tables.now) }
{
    let mut read = Vec::new(alloc);
    for (i, table) in tables.iter().enumerate() {
        let place = Place {
            table: kind,
            entry: i as u32,
        };
        read.push(T::read(alloc, version, place, table)?)?;
    }
    Ok(read)
}
