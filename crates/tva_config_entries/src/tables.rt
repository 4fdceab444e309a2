// The entries of each table, by the keys in their order.
ghost use Rattle.std.specs.Prelude.{◌≡◌, ◌≤◌, ℕ, length};
ghost use Rattle.toml.specs.{Data.Members, View.table_view};
ghost use Rattle.tva_config_entries.specs.{declared.place.Place.Place, Faults.Answers, Faults.Read};
ghost use Rattle.tva_config_entries.specs.Entries.{router_of, policy_plan_of, host_of, link_of, row, class_limits, behind_a_tag, limits_of, route_of, restart_of, reroute_of};

use crate::entries::{HostEntry, LinkEntry, RerouteEntry, RestartEntry, RouteEntry, RouterEntry};
use crate::faults::{ConfigError, ConfigFault};
use crate::keys;
use crate::place::Place;
use std::alloc::Global;
use toml::Table;
use tva_base::{
    DrrLimits, LENGTH_MAX, LinkLimits, PolicyKind, PolicyPlan, Rights, TIME_MAX, seconds_max,
    units_max,
};

/// What the entries of a table are read as.
pub trait Entry: Drop {
    /// What an entry at its place is read as where shims have that version, or its first fault.
    ghost entry_of: { ℕ → Place → Members → Read Self };

    fn read(alloc: Global, version: u8, place: Place, table: &Table) -> Result<Self, ConfigError>
        ensures { Answers (entry_of version place (table_view table.now)) result };
}

/// The greatest margin of a host, in nanoseconds.
const MARGIN_MAX: u64 = 1_000_000_000_000;

/// The greatest time after which a host asks again, in nanoseconds.
const RETRY_MAX: u64 = 10_000_000_000_000;

/// The greatest number of bytes in a queue or in the queues of a class.
const BYTES_MAX: u32 = 1 << 30;

const ROUTER_KEYS: [&str; 5] = ["name", "master", "slots", "clock_offset_ns", "edge_tag"];

/// A router, or its first fault.
impl Entry for RouterEntry {
    ghost entry_of = { λ version. router_of };

    #[tactic(auto, unfolding(crate::specs::Entries::router_of))]
    fn read(
        _alloc: Global,
        _version: u8,
        place: Place,
        table: &Table,
    ) -> Result<RouterEntry, ConfigError> {
        keys::only_listed(place, table, &ROUTER_KEYS)?;
        let name = keys::required(place, table, "name")?;
        let master = keys::required(place, table, "master")?;
        let slots = keys::number(place, table, "slots", 0, 1_000_000)?;
        let clock_offset = keys::number_or(place, table, "clock_offset_ns", 0, TIME_MAX, 0)?;
        let edge_tag = keys::number_or(place, table, "edge_tag", 0, u16::MAX, 0)?;
        Ok(RouterEntry {
            name,
            master,
            slots,
            clock_offset,
            edge_tag,
        })
    }
}

const ROUTE_KEYS: [&str; 3] = ["router", "prefix", "via"];

/// A route, or its first fault.
impl Entry for RouteEntry {
    ghost entry_of = { λ version. route_of };

    #[tactic(auto, unfolding(crate::specs::Entries::route_of))]
    fn read(
        _alloc: Global,
        _version: u8,
        place: Place,
        table: &Table,
    ) -> Result<RouteEntry, ConfigError> {
        keys::only_listed(place, table, &ROUTE_KEYS)?;
        let router = keys::required(place, table, "router")?;
        let prefix = keys::required(place, table, "prefix")?;
        let via = keys::required(place, table, "via")?;
        Ok(RouteEntry {
            router,
            prefix,
            via,
        })
    }
}

const RESTART_KEYS: [&str; 3] = ["router", "at_ns", "master"];

/// A restart, or its first fault.
impl Entry for RestartEntry {
    ghost entry_of = { λ version. restart_of };

    #[tactic(auto, unfolding(crate::specs::Entries::restart_of))]
    fn read(
        _alloc: Global,
        _version: u8,
        place: Place,
        table: &Table,
    ) -> Result<RestartEntry, ConfigError> {
        keys::only_listed(place, table, &RESTART_KEYS)?;
        let router = keys::required(place, table, "router")?;
        let at = keys::number(place, table, "at_ns", 0, TIME_MAX)?;
        let master = keys::required(place, table, "master")?;
        Ok(RestartEntry { router, at, master })
    }
}

const REROUTE_KEYS: [&str; 4] = ["router", "at_ns", "prefix", "via"];

/// A change of a route, or its first fault.
impl Entry for RerouteEntry {
    ghost entry_of = { λ version. reroute_of };

    #[tactic(auto, unfolding(crate::specs::Entries::reroute_of))]
    fn read(
        _alloc: Global,
        _version: u8,
        place: Place,
        table: &Table,
    ) -> Result<RerouteEntry, ConfigError> {
        keys::only_listed(place, table, &REROUTE_KEYS)?;
        let router = keys::required(place, table, "router")?;
        let at = keys::number(place, table, "at_ns", 0, TIME_MAX)?;
        let prefix = keys::required(place, table, "prefix")?;
        let via = keys::required(place, table, "via")?;
        let route = RouteEntry {
            router,
            prefix,
            via,
        };
        Ok(RerouteEntry { at, route })
    }
}

const LINK_KEYS: [&str; 20] = [
    "from",
    "to",
    "ns_per_byte",
    "delay_ns",
    "tag",
    "share",
    "burst",
    "quantum",
    "request_queues",
    "regular_queues",
    "request_ring",
    "regular_ring",
    "request_queue_bytes",
    "regular_queue_bytes",
    "request_bytes",
    "regular_bytes",
    "legacy_ring",
    "legacy_bytes",
    "request_levels",
    "request_inner",
];

/// A link, or its first fault.
impl Entry for LinkEntry {
    ghost entry_of = { λ version. link_of };

    #[tactic(auto, unfolding(crate::specs::Entries::link_of))]
    fn read(
        _alloc: Global,
        _version: u8,
        place: Place,
        table: &Table,
    ) -> Result<LinkEntry, ConfigError> {
        keys::only_listed(place, table, &LINK_KEYS)?;
        let from = keys::required(place, table, "from")?;
        let to = keys::required(place, table, "to")?;
        let ns_per_byte = keys::number(place, table, "ns_per_byte", 1, 1_000_000)?;
        let delay = keys::number(place, table, "delay_ns", 1, 1_000_000_000_000)?;
        let tag = keys::number_or(place, table, "tag", 0, u16::MAX, 0)?;
        let limits = limits(place, ns_per_byte, table)?;
        Ok(LinkEntry {
            from,
            to,
            delay,
            tag,
            limits,
        })
    }
}

/// The limits of a link, or the first fault of the keys behind `tag`.
#[tactic(auto, unfolding(crate::specs::Entries::limits_of))]
fn limits(place: Place, ns_per_byte: u64, table: &Table) -> Result<LinkLimits, ConfigFault>
    ensures { result ≡ limits_of place ns_per_byte (table_view table.now) }
{
    let share = keys::number_or(place, table, "share", 2, 1000, 20)?;
    let burst = keys::number_or(place, table, "burst", 4096, 1_000_000, 8192)?;
    let quantum = keys::number_or(place, table, "quantum", LENGTH_MAX, 1_000_000, 2048)?;
    let queues = row(
        place,
        table,
        "request_queues",
        "regular_queues",
        1,
        65_536,
        64,
    )?;
    let rings = row(place, table, "request_ring", "regular_ring", 1, 65_536, 32)?;
    let queue_bytes = row(
        place,
        table,
        "request_queue_bytes",
        "regular_queue_bytes",
        LENGTH_MAX,
        BYTES_MAX,
        65_536,
    )?;
    let class_bytes = row(
        place,
        table,
        "request_bytes",
        "regular_bytes",
        LENGTH_MAX,
        BYTES_MAX,
        1_048_576,
    )?;
    let legacy_ring = keys::number_or(place, table, "legacy_ring", 1, 65_536, 256)?;
    let legacy_bytes = keys::number_or(
        place,
        table,
        "legacy_bytes",
        LENGTH_MAX,
        BYTES_MAX,
        262_144,
    )?;
    let levels = keys::number_or(place, table, "request_levels", 1, 2, 1)?;
    let inner = keys::number_or(place, table, "request_inner", 1, 65_536, 4)?;
    Ok(LinkLimits {
        ns_per_byte,
        share,
        burst,
        request: class_limits(queues.0, rings.0, queue_bytes.0, class_bytes.0, quantum),
        regular: class_limits(queues.1, rings.1, queue_bytes.1, class_bytes.1, quantum),
        legacy_ring,
        legacy_bytes,
        request_inner: behind_a_tag(levels, inner),
    })
}

// How many queues stand behind a tag, where the requests of a link have two levels.
fn behind_a_tag(levels: u32, inner: u32) -> Option<u32>
    ensures { result ≡ behind_a_tag levels inner }
{
    if levels == 2 { Some(inner) } else { None }
}

// A row of two keys: one of requests, and one of regular packets.
#[tactic(auto, unfolding(crate::specs::Entries::row))]
fn row(
    place: Place,
    table: &Table,
    request: &str,
    regular: &str,
    low: u32,
    high: u32,
    default: u32,
) -> Result<(u32, u32), ConfigFault>
    requires request { length request.now ≤ 24 }
    requires regular { length regular.now ≤ 24 }
    ensures { result ≡ row place (table_view table.now) request.now regular.now low high default }
{
    let first = keys::number_or(place, table, request, low, high, default)?;
    let second = keys::number_or(place, table, regular, low, high, default)?;
    Ok((first, second))
}

// The limits of a set of fair queues.
fn class_limits(
    queues: u32,
    ring: u32,
    queue_bytes: u32,
    class_bytes: u32,
    quantum: u32,
) -> DrrLimits
    ensures { result ≡ class_limits queues ring queue_bytes class_bytes quantum }
{
    DrrLimits {
        queues,
        ring,
        queue_bytes,
        class_bytes,
        quantum,
        max: LENGTH_MAX,
    }
}

const HOST_KEYS: [&str; 11] = [
    "name",
    "address",
    "nonce",
    "margin_ns",
    "retry_ns",
    "policy",
    "n",
    "t",
    "grants",
    "deny",
    "deny_tags",
];

/// A host, or its first fault.
impl Entry for HostEntry {
    ghost entry_of = { host_of };

    #[tactic(auto, unfolding(crate::specs::Entries::host_of))]
    fn read(
        alloc: Global,
        version: u8,
        place: Place,
        table: &Table,
    ) -> Result<HostEntry, ConfigError> {
        keys::only_listed(place, table, &HOST_KEYS)?;
        let name = keys::required(place, table, "name")?;
        let address = keys::required(place, table, "address")?;
        let nonce = keys::nonce_or(place, table, "nonce", 1)?;
        let margin = keys::number_or(place, table, "margin_ns", 0, MARGIN_MAX, 1_000_000)?;
        let retry = keys::number_or(place, table, "retry_ns", 0, RETRY_MAX, 2_000_000_000)?;
        let policy = policy(alloc, version, place, table)?;
        Ok(HostEntry {
            name,
            address,
            nonce,
            margin,
            retry,
            version,
            policy,
        })
    }
}

// The policy of a host, or the first fault of its keys.
#[tactic(auto, unfolding(crate::specs::Entries::policy_plan_of))]
fn policy(
    alloc: Global,
    version: u8,
    place: Place,
    table: &Table,
) -> Result<PolicyPlan, ConfigError>
    ensures { Answers (policy_plan_of version place (table_view table.now)) result }
{
    let kind = keys::optional(place, table, "policy", PolicyKind::DenyAll)?;
    let n = keys::number_or(place, table, "n", 0, units_max(version), 32)?;
    let t = keys::number_or(place, table, "t", 0, seconds_max(version), 10)?;
    let grants = keys::number_or(place, table, "grants", 0, 1_000_000, 1000)?;
    let deny = keys::few_items(alloc, place, table, "deny")?;
    let deny_tags = keys::few_items(alloc, place, table, "deny_tags")?;
    Ok(PolicyPlan {
        kind,
        rights: Rights { n, t },
        grants,
        deny,
        deny_tags,
    })
}
