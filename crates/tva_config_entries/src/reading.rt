// The steps to the entries of a configuration, in their order.
ghost use Rattle.std.specs.Prelude.{◌≡◌, ◌≤◌, ◌+◌, IfOk, length, option_map};
ghost use Rattle.toml.specs.View.{table_view};
ghost use Rattle.tva_config_entries.specs.{Faults.AnswersBy, Stages.all_entries_of, Stages.seen_top};
ghost use Rattle.tva_config_entries.specs.Views.{seen_entries};
ghost use Rattle.tva_config_entries.specs.Reading.{members_read, document_of, entries_read};

use crate::entries::EntryLists;
use crate::faults::{ConfigError, ConfigRule, ConfigTable};
use crate::keys::fault;
use crate::top;
use crate::top::{TOP, TopTable};
use std::alloc::{AllocError, Global};
use toml::Table;

/// Reads the numbers and the entries of a configuration, a TOML text.
///
/// A fault is the first one in the stated order; a text that isn't UTF-8, or that `toml` refuses, is
/// a fault of syntax. Want of memory is the one answer that the text doesn't determine. There are at
/// most 1,024 nodes, 4,096 links, 65,536 routes, and as many restarts and changes of routes.
#[tactic(auto, unfolding(crate::specs::Reading::entries_read))]
pub fn read_entries(alloc: Global, text: &[u8]) -> Result<EntryLists, ConfigError>
    ensures answer { AnswersBy seen_entries (entries_read text.now) result }
    ensures nodes { IfOk result (λ e. length e.routers.items + length e.hosts.items ≤ 1024) }
    ensures links { IfOk result (λ e. length e.links.items ≤ 4096) }
    ensures routes { IfOk result (λ e. length e.routes.items ≤ 65536) }
    ensures restarts { IfOk result (λ e. length e.restarts.items ≤ 65536) }
    ensures reroutes { IfOk result (λ e. length e.reroutes.items ≤ 65536) }
{
    match document(alloc, text)? {
        Some(table) => read_table(alloc, &table),
        None => Err(fault(TOP, ConfigRule::Syntax, "-").into()),
    }
}

// The table of a text, or nothing where it has none.
fn document(alloc: Global, text: &[u8]) -> Result<Option<Table>, AllocError>
    ensures { IfOk result (λ table. option_map table_view table ≡ document_of text.now) }
{
    match toml::table_from_slice(alloc, text) {
        Ok(table) => Ok(Some(table)),
        Err(error) => {
            if error.is_memory() {
                return Err(AllocError);
            }
            Ok(None)
        }
    }
}

// What a table is read as.
#[tactic(auto, unfolding(crate::specs::Reading::members_read))]
fn read_table(alloc: Global, table: &Table) -> Result<EntryLists, ConfigError>
    ensures answer { AnswersBy seen_entries (members_read (table_view table.now)) result }
    ensures nodes { IfOk result (λ e. length e.routers.items + length e.hosts.items ≤ 1024) }
    ensures links { IfOk result (λ e. length e.links.items ≤ 4096) }
    ensures routes { IfOk result (λ e. length e.routes.items ≤ 65536) }
    ensures restarts { IfOk result (λ e. length e.restarts.items ≤ 65536) }
    ensures reroutes { IfOk result (λ e. length e.reroutes.items ≤ 65536) }
{
    let top = top::top(alloc, table)?;
    top::counts(&top)?;
    all_entries(alloc, &top)
}

// The entries of all tables, or the first fault in them.
#[tactic(auto, unfolding(crate::specs::Stages::all_entries_of))]
fn all_entries(alloc: Global, top: &TopTable) -> Result<EntryLists, ConfigError>
    requires nodes { length top.now.routers.items + length top.now.hosts.items ≤ 1024 }
    requires links { length top.now.links.items ≤ 4096 }
    requires routes { length top.now.routes.items ≤ 65536 }
    requires restarts { length top.now.restarts.items ≤ 65536 }
    requires reroutes { length top.now.reroutes.items ≤ 65536 }
    ensures answer { AnswersBy seen_entries (all_entries_of (seen_top top.now)) result }
    ensures nodes { IfOk result (λ e. length e.routers.items + length e.hosts.items ≤ 1024) }
    ensures links { IfOk result (λ e. length e.links.items ≤ 4096) }
    ensures routes { IfOk result (λ e. length e.routes.items ≤ 65536) }
    ensures restarts { IfOk result (λ e. length e.restarts.items ≤ 65536) }
    ensures reroutes { IfOk result (λ e. length e.reroutes.items ≤ 65536) }
{
    let routers = top::entries(alloc, ConfigTable::Router, top.version, &top.routers)?;
    let hosts = top::entries(alloc, ConfigTable::Host, top.version, &top.hosts)?;
    let links = top::entries(alloc, ConfigTable::Link, top.version, &top.links)?;
    let routes = top::entries(alloc, ConfigTable::Route, top.version, &top.routes)?;
    let restarts = top::entries(alloc, ConfigTable::Restart, top.version, &top.restarts)?;
    let reroutes = top::entries(alloc, ConfigTable::Reroute, top.version, &top.reroutes)?;
    Ok(EntryLists {
        horizon: top.horizon,
        max_events: top.max_events,
        routers,
        hosts,
        links,
        routes,
        restarts,
        reroutes,
    })
}
