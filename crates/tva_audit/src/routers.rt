// What each router let through.
ghost use Rattle.std.specs.Prelude.{◌≡◌, ◌<◌, ◌≤◌, ◌*◌, ℕ, List, All, IfOk, length, sum_by, take};
ghost use Rattle.tva_node.specs.States.{KeepsAll, NodeState};
ghost use Rattle.tva_audit.specs.Sums.{numbered, sum_told, sums_told};
ghost use Rattle.tva_audit.specs.Chunks.{AreParts, IsSummable};

use std::alloc::{AllocError, Global};
use std::thread::{Threads, map_chunks};
use tva_base::Grant;
use tva_node::Node;
use tva_report::{Sums, router_sums};

/// What a router let through, by the number of its node: how many pairs of a boot and a grant were
/// charged, how many charges there were, the sum of their lengths in bytes, and the grant that came
/// nearest to twice its units in one boot with its bytes there; among equals it is the one charged first.
#[derive(Clone, Copy, Debug, PartialEq, Eq)]
pub struct RouterSum {
    pub node: u16,
    pub grants: u64,
    pub charges: u64,
    pub bytes: u64,
    pub worst: Option<(Grant, u64)>,
}

// Into how many chunks the nodes are cut, or into fewer.
const CHUNKS: usize = 8;

/// The sums of the routers among these nodes, which keep their events, in their order. The nodes are
/// worked in chunks, several at once. The error is want of memory.
pub fn sums<R: Threads + Sync>(
    rt: &R,
    alloc: Global,
    nodes: &[Node],
) -> Result<Vec<RouterSum>, AllocError>
    requires few { sum_by (λ v. length v.events) nodes.now ≤ 4000000 }
    requires keeps { All (λ v. KeepsAll v.keeps) nodes.now }
    ensures { IfOk result (λ sums. sums.items ≡ sums_told nodes.now) }
{
    sums_by_chunks(rt, alloc, nodes, nodes.len() / CHUNKS + 1)
}

// The same, with so many nodes in a chunk.
fn sums_by_chunks<R: Threads + Sync>(
    rt: &R,
    alloc: Global,
    nodes: &[Node],
    size: usize,
) -> Result<Vec<RouterSum>, AllocError>
    requires nodes { All IsSummable nodes.now }
    requires size { 0 < size }
    ensures { IfOk result (λ sums. sums.items ≡ sums_told nodes.now) }
{
    let parts = map_chunks(
        rt,
        alloc,
        nodes,
        size,
        &|_, chunk: &[Node]| -> Result<Vec<RouterSum>, AllocError>
            requires { All IsSummable chunk.now }
            ensures { IfOk result (λ sums. sums.items ≡ sums_told chunk.now) }
        { chunk_sums(alloc, chunk) },
    )?;
    joined(alloc, parts.as_slice())
}

// The sums of the chunks, one after another.
fn joined(
    alloc: Global,
    parts: &[Result<Vec<RouterSum>, AllocError>],
) -> Result<Vec<RouterSum>, AllocError>
    ensures { IfOk result (λ sums. (size : ℕ) (nodes : List NodeState) → AreParts size nodes parts.now
        → sums.items ≡ sums_told (take (length parts.now * size) nodes)) }
{
    let mut all = Vec::new(alloc);
    for part in parts {
        match part {
            Ok(sums) => all.extend_from_slice(sums.as_slice())?,
            Err(_) => return Err(AllocError),
        }
    }
    Ok(all)
}

// The sums of the routers in a chunk.
fn chunk_sums(alloc: Global, nodes: &[Node]) -> Result<Vec<RouterSum>, AllocError>
    requires nodes { All IsSummable nodes.now }
    ensures { IfOk result (λ sums. sums.items ≡ sums_told nodes.now) }
{
    let mut all = Vec::new(alloc);
    for node in nodes {
        if let Some(sum) = node_sum(alloc, node)? {
            all.push(sum)?;
        }
    }
    Ok(all)
}

// The sums of a router; a host has none.
#[tactic(auto, using(crate::proofs::Parts::router_told, crate::proofs::Parts::host_told))]
fn node_sum(alloc: Global, node: &Node) -> Result<Option<RouterSum>, AllocError>
    requires { IsSummable node.now }
    ensures { IfOk result (λ sum. sum ≡ sum_told node.now.site.number node.now.site.plan node.now.events) }
{
    let Some(number) = node.router() else {
        return Ok(None);
    };
    let sums = router_sums(alloc, node.log(), node.restarts())?;
    Ok(Some(numbered(number, sums)))
}

/// The sums of a router with that number.
pub fn numbered(node: u16, sums: Sums) -> RouterSum
    ensures { result ≡ numbered node sums }
{
    RouterSum {
        node,
        grants: sums.grants,
        charges: sums.charges,
        bytes: sums.bytes,
        worst: sums.worst,
    }
}
