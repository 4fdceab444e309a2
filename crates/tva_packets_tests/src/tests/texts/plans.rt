// Whole plans, by the tables of keys and their defaults. Where a plan is told, `(usual)` stands for the limits
// of a link that has no key of them, `(none)` for an empty list, and `(zeros)` for 30 bytes.
use super::config_of;
use std::alloc::{AllocError, Global};
use std::test::Fail;
use tva_plan::{Config, NodePlan, has_host_or_link};

const USUAL: &str = "\
share: 20, burst: 8192, request: DrrLimits { queues: 64, ring: 32, queue_bytes: 65536, class_bytes: \
1048576, quantum: 2048, max: 2048 }, regular: DrrLimits { queues: 64, ring: 32, queue_bytes: 65536, \
class_bytes: 1048576, quantum: 2048, max: 2048 }, legacy_ring: 256, legacy_bytes: 262144, \
request_inner: None";

const ZEROS: &str = "\
0, 0, 0, 0, 0, 0, 0, 0, 0, 0, 0, 0, 0, 0, 0, 0, 0, 0, 0, 0, 0, 0, 0, 0, 0, 0, 0, 0, 0, 0";

/// A router alone.
const EDGE: &str = r#"horizon_ns = 1000000000000
max_events = 1000
[[router]]
name = "R1"
master = "000102030405060708090a0b0c0d0e0f101112131415161718191a1b1c1d1e1f"
slots = 8
"#;

/// The horizon, the number of events, whether there is a host or a link, and the nodes and links.
const EDGE_PLAN: &str = "Time(1000000000000) 1000 false
RouterPlan { name: Name(\"R1\"), master: [0, 1, 2, 3, 4, 5, 6, 7, 8, 9, 10, 11, 12, 13, 14, 15, 16, \
    17, 18, 19, 20, 21, 22, 23, 24, 25, 26, 27, 28, 29, 30, 31], clock_offset: 0, slots: 8, edge_tag: 0, \
    incoming: (none), outgoing: (none), routes: (none), restarts: (none), reroutes: (none) }
";

/// Each key has a value of its own. The links and the routes stand in another order than the nodes.
const FULL: &str = r#"horizon_ns = 7
max_events = 9
version = 2
[[host]]
name = "h-1"
address = "1.2.3.4"
nonce = "0A0b0c0d0e0f"
margin_ns = 11
retry_ns = 1000000012
policy = "client"
n = 1048575
t = 127
grants = 15
deny = ["0.0.1.0", "0.0.0.255"]
deny_tags = [65535, 1, 65535]
[[host]]
name = "h_2"
address = "1.2.3.5"
[[router]]
name = "first"
master = "ff000000000000000000000000000000000000000000000000000000000000AB"
slots = 16
clock_offset_ns = 17
edge_tag = 18
[[router]]
name = "second"
master = "0000000000000000000000000000000000000000000000000000000000000001"
slots = 0
[[link]]
from = "second"
to = "first"
ns_per_byte = 19
delay_ns = 20
tag = 21
share = 22
burst = 5000
quantum = 3000
request_queues = 23
regular_queues = 24
request_ring = 25
regular_ring = 26
request_queue_bytes = 2700
regular_queue_bytes = 2800
request_bytes = 2900
regular_bytes = 3100
legacy_ring = 31
legacy_bytes = 3200
request_levels = 2
request_inner = 5
[[link]]
from = "h_2"
to = "second"
ns_per_byte = 1
delay_ns = 1
[[link]]
from = "h-1"
to = "second"
ns_per_byte = 1
delay_ns = 2
tag = 33
[[route]]
router = "second"
prefix = "255.1.2.3/12"
via = "first"
[[route]]
router = "second"
prefix = "0.0.0.0/0"
via = "first"
"#;

/// What it lays down: routers before hosts, each in the order of the text.
const FULL_PLAN: &str = "Time(7) 9 true
RouterPlan { name: Name(\"first\"), master: [255, (zeros), 171], clock_offset: 17, slots: 16, \
    edge_tag: 18, incoming: Listed { items: [(0, 21)] }, outgoing: (none), routes: (none), restarts: \
    (none), reroutes: (none) }
RouterPlan { name: Name(\"second\"), master: [(zeros), 0, 1], clock_offset: 0, slots: 0, edge_tag: 0, \
    incoming: Listed { items: [(1, 0), (2, 33)] }, outgoing: Listed { items: [(0, LinkLimits { \
    ns_per_byte: 19, share: 22, burst: 5000, request: DrrLimits { queues: 23, ring: 25, queue_bytes: \
    2700, class_bytes: 2900, quantum: 3000, max: 2048 }, regular: DrrLimits { queues: 24, ring: 26, \
    queue_bytes: 2800, class_bytes: 3100, quantum: 3000, max: 2048 }, legacy_ring: 31, legacy_bytes: \
    3200, request_inner: Some(5) })] }, routes: Listed { items: [Route { prefix: Prefix { address: \
    Address(4278190080), bits: 12 }, link: 0 }, Route { prefix: Prefix { address: Address(0), bits: 0 }, \
    link: 0 }] }, restarts: (none), reroutes: (none) }
HostPlan { name: Name(\"h-1\"), address: Address(16909060), nonce: 11042563100175, margin: 11, retry: \
    1000000012, version: 2, policy: PolicyPlan { kind: Client, rights: Rights { n: 1048575, t: 127 }, \
    grants: 15, deny: Listed { items: [Address(256), Address(255)] }, deny_tags: Listed { items: [65535, \
    1, 65535] } }, uplink: 2 }
HostPlan { name: Name(\"h_2\"), address: Address(16909061), nonce: 1, margin: 1000000, retry: \
    2000000000, version: 2, policy: PolicyPlan { kind: DenyAll, rights: Rights { n: 32, t: 10 }, grants: \
    1000, deny: (none), deny_tags: (none) }, uplink: 1 }
LinkPlan { from: 1, to: 0, delay: 20, tag: 21, limits: LinkLimits { ns_per_byte: 19, share: 22, \
    burst: 5000, request: DrrLimits { queues: 23, ring: 25, queue_bytes: 2700, class_bytes: 2900, \
    quantum: 3000, max: 2048 }, regular: DrrLimits { queues: 24, ring: 26, queue_bytes: 2800, \
    class_bytes: 3100, quantum: 3000, max: 2048 }, legacy_ring: 31, legacy_bytes: 3200, request_inner: \
    Some(5) } }
LinkPlan { from: 3, to: 1, delay: 1, tag: 0, limits: LinkLimits { ns_per_byte: 1, (usual) } }
LinkPlan { from: 2, to: 1, delay: 2, tag: 33, limits: LinkLimits { ns_per_byte: 1, (usual) } }
";

/// Restarts and changes of routes: of each router in the order of the file, the changes by their links.
const CHANGED: &str = r#"horizon_ns = 0
max_events = 1
router = [
  { name = "a", master = "0000000000000000000000000000000000000000000000000000000000000000", slots = 1 },
  { name = "b", master = "0000000000000000000000000000000000000000000000000000000000000000", slots = 2 },
]
link = [
  { from = "b", to = "a", ns_per_byte = 3, delay_ns = 4 },
  { from = "a", to = "b", ns_per_byte = 5, delay_ns = 6 },
]
route = [
  { router = "b", prefix = "10.0.1.0/24", via = "a" },
  { router = "b", prefix = "0.0.0.0/0", via = "a" },
  { router = "a", prefix = "10.0.1.0/24", via = "b" },
]
restart = [
  { router = "b", at_ns = 9, master = "00000000000000000000000000000000000000000000000000000000000000bE" },
  { router = "a", at_ns = 0, master = "a000000000000000000000000000000000000000000000000000000000000000" },
  { router = "b", at_ns = 1000000000000000, master = "000000000000000000000000000000000000000000000000000000000000000b" },
]
reroute = [
  { router = "b", at_ns = 8, prefix = "10.0.1.7/24", via = "a" },
  { router = "b", at_ns = 7, prefix = "0.0.0.0/0", via = "a" },
  { router = "a", at_ns = 5, prefix = "10.0.1.0/24", via = "b" },
  { router = "b", at_ns = 9, prefix = "10.0.1.0/24", via = "a" },
]
"#;

const CHANGED_PLAN: &str = "Time(0) 1 true
RouterPlan { name: Name(\"a\"), master: [(zeros), 0, 0], clock_offset: 0, slots: 1, edge_tag: 0, \
    incoming: Listed { items: [(0, 0)] }, outgoing: Listed { items: [(1, LinkLimits { ns_per_byte: 5, \
    (usual) })] }, routes: Listed { items: [Route { prefix: Prefix { address: Address(167772416), bits: \
    24 }, link: 1 }] }, restarts: Listed { items: [(Time(0), [16(zeros), 0, 0])] }, reroutes: Listed { \
    items: [(Time(5), Prefix { address: Address(167772416), bits: 24 }, 1)] } }
RouterPlan { name: Name(\"b\"), master: [(zeros), 0, 0], clock_offset: 0, slots: 2, edge_tag: 0, \
    incoming: Listed { items: [(1, 0)] }, outgoing: Listed { items: [(0, LinkLimits { ns_per_byte: 3, \
    (usual) })] }, routes: Listed { items: [Route { prefix: Prefix { address: Address(167772416), bits: \
    24 }, link: 0 }, Route { prefix: Prefix { address: Address(0), bits: 0 }, link: 0 }] }, restarts: \
    Listed { items: [(Time(9), [(zeros), 0, 190]), (Time(1000000000000000), [(zeros), 0, 11])] }, \
    reroutes: Listed { items: [(Time(8), Prefix { address: Address(167772416), bits: 24 }, 0), (Time(7), \
    Prefix { address: Address(0), bits: 0 }, 0), (Time(9), Prefix { address: Address(167772416), bits: \
    24 }, 0)] } }
LinkPlan { from: 1, to: 0, delay: 4, tag: 0, limits: LinkLimits { ns_per_byte: 3, (usual) } }
LinkPlan { from: 0, to: 1, delay: 6, tag: 0, limits: LinkLimits { ns_per_byte: 5, (usual) } }
";

fn told(alloc: Global, config: &Config) -> Result<String, AllocError> {
    let joined = has_host_or_link(config);
    let mut text = format!(in alloc; "{:?} {} {joined}\n", config.horizon, config.max_events)?;
    for node in config.nodes.as_slice() {
        text.push_str(node_told(alloc, node)?.as_str())?;
    }
    for link in config.links.as_slice() {
        text.push_str(format!(in alloc; "{link:?}\n")?.as_str())?;
    }
    Ok(text)
}

fn node_told(alloc: Global, node: &NodePlan) -> Result<String, AllocError> {
    match node {
        NodePlan::Router(plan) => format!(in alloc; "{plan:?}\n"),
        NodePlan::Host(plan) => format!(in alloc; "{plan:?}\n"),
    }
}

fn whole(alloc: Global, plan: &str) -> Result<String, AllocError> {
    let plan = plan.replace(alloc, "(usual)", USUAL)?;
    let plan = plan.replace(alloc, "(none)", "Listed { items: [] }")?;
    plan.replace(alloc, "(zeros)", ZEROS)
}

#[test]
fn plans_are_whole(rt: HostRuntime) -> Result<(), Fail> {
    let alloc = rt.alloc();
    for (text, plan) in [
        (EDGE, EDGE_PLAN),
        (FULL, FULL_PLAN),
        (CHANGED, CHANGED_PLAN),
    ] {
        let config = config_of(alloc, text)?;
        assert_eq!(&rt;
            told(alloc, &config)?.as_str(),
            whole(alloc, plan)?.as_str()
        );
    }
    Ok(())
}
